//! The forms in which the compiler writes a target.
ghost use Rattle.std.specs.Prelude.{◌↔◌, Contains, IsTrue};
ghost use Rattle.krates_cm.specs.declared.target.CrateType.TheVariants as types;

use krates_cm::CrateType;

/// Whether one of these forms is a library of procedural macros.
pub(crate) fn has_macro_form(forms: &[CrateType]) -> bool
    ensures { IsTrue result ↔ Contains forms.now types.ProcMacro }
{
    forms.contains(&CrateType::ProcMacro)
}
