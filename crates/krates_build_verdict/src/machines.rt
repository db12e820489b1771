//! Whether a certificate is of a build, by its words and its machines.

ghost use Rattle.std.specs.Prelude.{◌≡◌, ◌↔◌, IfErr, IfOk, IsTrue, OnOk, length, map};
ghost use Rattle.std.specs.List.{AllZip};
ghost use Rattle.krates_cm.specs.Document.{text_view, texts_view};
ghost use Rattle.krates_units.specs.BuildSetting.{build_setting_view};
ghost use Rattle.krates_units.specs.Machines.{machine_view};
ghost use Rattle.krates_build_certificate.specs.BuildCertificateViews.{certificate_told, machine_told};
ghost use Rattle.krates_build_verdict.specs.SameBuild.{Describes, IsOfBuild, MachineFails, MachineRefusal, MachinesRefusal, OtherBuildRefusal, OtherWords, machines_asked};
ghost use Rattle.krates_words.specs.BuildSettingWords.{words_of_build};

use crate::refusal::BuildRefusal;
use krates_build_certificate::{BuildCertificate, MachineText};
use krates_units::{BuildSetting, Machine, MachineError};
use krates_words::build_setting_words;
use std::alloc::{AllocError, Global};

/// Refuses a certificate that has other words than those of the build, or describes its machines otherwise.
pub(crate) fn expect_build(
    alloc: Global,
    setting: &BuildSetting,
    certificate: &BuildCertificate,
) -> Result<(), BuildRefusal>
    ensures of_build { OnOk result (IsOfBuild (build_setting_view setting.now)
        (certificate_told certificate.now)) }
    ensures refused { IfErr result (OtherBuildRefusal (build_setting_view setting.now)
        (certificate_told certificate.now)) }
{
    expect_words(alloc, setting, &certificate.setting)?;
    expect_machines(alloc, setting, &certificate.machines)
}

/// Refuses other words than those of the build.
fn expect_words(
    alloc: Global,
    setting: &BuildSetting,
    claimed: &[String],
) -> Result<(), BuildRefusal>
    ensures words { OnOk result (map text_view claimed.now
        ≡ words_of_build (build_setting_view setting.now)) }
    ensures refused { let claimed = map text_view claimed.now in
        IfErr result (OtherWords (build_setting_view setting.now) claimed) }
{
    let words = build_setting_words(alloc, setting)?;
    if has_words(claimed, &words) {
        return Ok(());
    }
    Err(BuildRefusal::Setting {
        claimed: copies(alloc, claimed)?,
    })
}

/// Whether these words are those.
fn has_words(claimed: &[String], words: &[String]) -> bool
    ensures { IsTrue result ↔ (map text_view claimed.now ≡ map text_view words.now) }
{
    claimed == words
}

/// Copies of these words.
fn copies(alloc: Global, words: &[String]) -> Result<Vec<String>, AllocError>
    ensures { IfOk result (λ copies. texts_view copies ≡ map text_view words.now) }
{
    let mut copies = Vec::new(alloc);
    for word in words {
        copies.push(word.clone()?)?;
    }
    Ok(copies)
}

/// Refuses other machines than the one that builds and those that the build is for.
fn expect_machines(
    alloc: Global,
    setting: &BuildSetting,
    machines: &[MachineText],
) -> Result<(), BuildRefusal>
    ensures described { let asked = machines_asked (build_setting_view setting.now) in
        OnOk result (AllZip Describes (map machine_told machines.now) asked) }
    ensures refused { let asked = machines_asked (build_setting_view setting.now) in
        IfErr result (MachinesRefusal (map machine_told machines.now) asked) }
{
    match machines {
        [host, targets @ ..] if targets.len() == setting.targets.len() => {
            expect_machine(alloc, &setting.host, host)?;
            expect_targets(alloc, &setting.targets, targets)
        }
        _ => Err(BuildRefusal::Count {
            found: machines.len(),
            wanted: setting.targets.len() + 1,
        }),
    }
}

/// Refuses other machines than these, which are as many.
fn expect_targets(
    alloc: Global,
    machines: &[Machine],
    texts: &[MachineText],
) -> Result<(), BuildRefusal>
    requires { length texts.now ≡ length machines.now }
    ensures described { OnOk result (AllZip Describes (map machine_told texts.now)
        (map machine_view machines.now)) }
    ensures refused { IfErr result (MachineFails (map machine_told texts.now)
        (map machine_view machines.now)) }
{
    for (number, machine) in machines.iter().enumerate() {
        expect_machine(alloc, machine, &texts[number])?;
    }
    Ok(())
}

/// Refuses another machine than this.
fn expect_machine(alloc: Global, machine: &Machine, text: &MachineText) -> Result<(), BuildRefusal>
    ensures described { OnOk result (Describes (machine_told text.now) (machine_view machine.now)) }
    ensures refused { IfErr result (MachineRefusal (machine_told text.now)
        (machine_view machine.now)) }
{
    let triple = String::from_str(alloc, machine.triple())?;
    match Machine::from_rustc(alloc, text.triple.as_str(), text.cfg.as_str()) {
        Ok(described) if described.is_same(machine) => Ok(()),
        Ok(_) => Err(BuildRefusal::Machine { triple }),
        Err(MachineError::Memory) => Err(BuildRefusal::Memory),
        Err(cause) => Err(BuildRefusal::NoMachine { triple, cause }),
    }
}
