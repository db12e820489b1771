//! A machine that builds, or that a build is for, as rustc describes it.
//!
//! Source: the Cargo Book, "Platform specific dependencies".
ghost use Rattle.std.specs.Prelude.{◌≡◌, ◌↔◌, ◌&&◌, IfOk, IfErr, IsTrue, map, option_map};
ghost use Rattle.krates_units.specs.Machines.{HoldsAt, HoldsOnSome, PassesOn, machine_view};
ghost use Rattle.krates_units.specs.RustcLines.{IsPrinted};
ghost use Rattle.krates_units.specs.MachineFaults.{IsFaultOf};
ghost use Rattle.krates_units.specs.declared.machine.MachineError.TheVariants.{Memory};

use crate::lines::read_lines;
use krates_text::cfg::{CfgError, Expression};
use std::alloc::{AllocError, AllocFailed, Global};
use thiserror::Error;

/// Why what rustc printed isn't read.
#[derive(Clone, Copy, Debug, PartialEq, Eq, Error)]
pub enum MachineError {
    /// The line of this number, counted from 1, is neither a word nor a pair of a key and its string.
    #[error("line {0} is no cfg of rustc")]
    BadLine(usize),
    /// Memory ran out.
    #[error("out of memory")]
    Memory,
}

impl From<AllocError> for MachineError {
    ghost from_gives = { λ _ e. e ≡ Memory };

    fn from(_e: AllocError) -> MachineError {
        MachineError::Memory
    }
}

impl<T: Drop> From<AllocFailed<T>> for MachineError {
    ghost from_gives = { λ _ e. e ≡ Memory };

    fn from(_e: AllocFailed<T>) -> MachineError {
        MachineError::Memory
    }
}

/// A machine: its triple, and what rustc says of it. It differs from a target of the table in that any word and any key may
/// hold there, as `debug_assertions` or what `--cfg` adds.
#[derive(Debug, Drop)]
pub struct Machine {
    triple: String,
    words: Vec<String>,
    pairs: Vec<(String, String)>,
}

impl Machine {
    /// The machine with this triple of which `rustc --print cfg`, with `--target` and with the flags that the build gives to
    /// rustc, prints this text: a line `WORD` or `KEY="STRING"` for each cfg. A word or a key is a letter of ASCII or `_`, and
    /// behind it letters, digits and `_`; a string has no quotation mark. `BadLine` names the first line of another form.
    /// The text isn't checked against the triple. The only other error is running out of memory. Time O(length).
    ///
    /// ```text
    /// let linux = Machine::from_rustc(alloc, "x86_64-unknown-linux-gnu", "target_os=\"linux\"\nunix\n")?;
    /// assert!(rt; linux.holds(alloc, "cfg(all(unix, target_os = \"linux\"))")?);
    /// ```
    pub fn from_rustc(alloc: Global, triple: &str, printed: &str) -> Result<Machine, MachineError>
        ensures read { IfOk result (λ machine. IsPrinted triple.now printed.now (machine_view machine)) }
        ensures refused { IfErr result (λ error. IsFaultOf printed.now error) }
    {
        let (words, pairs) = read_lines(alloc, printed)?;
        Ok(Machine {
            triple: String::from_str(alloc, triple)?,
            words,
            pairs,
        })
    }

    /// The triple. Time O(1).
    pub fn triple(&self) -> &str
        ensures { result.now ≡ (machine_view self.now).triple }
    {
        self.triple.as_str()
    }

    /// Whether another machine is the same: it has the triple, the words and the pairs of this one, in their order. Time
    /// O(length).
    pub fn is_same(&self, other: &Machine) -> bool
        ensures { IsTrue result ↔ (machine_view self.now ≡ machine_view other.now) }
    {
        let triple = self.triple == other.triple;
        let words = self.words == other.words;
        let pairs = self.pairs == other.pairs;
        all_three(triple, words, pairs)
    }

    /// Whether the target text of a dependency holds at the machine: a cfg expression if it is true where the machine's words and
    /// pairs hold and no others, and any other text if it is the triple. The only error is running out of memory. Time
    /// O(length + predicates of the expression × cfgs of the machine).
    ///
    /// ```text
    /// assert!(rt; linux.holds(alloc, "x86_64-unknown-linux-gnu")?);
    /// ```
    pub fn holds(&self, alloc: Global, text: &str) -> Result<bool, AllocError>
        ensures { IfOk result (λ yes. IsTrue yes ↔ HoldsAt text.now (machine_view self.now)) }
    {
        match Expression::parse(alloc, text) {
            Ok(expression) => Ok(expression.holds(self.words.as_slice(), self.pairs.as_slice())),
            Err(CfgError::Memory) => Err(AllocError),
            Err(CfgError::Syntax | CfgError::TooDeep) => Ok(text == self.triple.as_str()),
        }
    }
}

/// Whether all three hold.
fn all_three(one: bool, two: bool, three: bool) -> bool
    ensures { result ≡ (one && two && three) }
{
    one && two && three
}

/// Whether a dependency with this target text passes on some of these machines. One without a target text passes on any, even
/// if there is none. The only error is running out of memory. Time: that of `holds` for each machine.
///
/// ```text
/// let machines = vec![in alloc; linux, windows]?;
/// assert!(rt; passes_on(alloc, machines.as_slice(), Some("cfg(unix)"))?);
/// ```
pub fn passes_on(
    alloc: Global,
    machines: &[Machine],
    text: Option<&str>,
) -> Result<bool, AllocError>
    ensures { IfOk result (λ yes. IsTrue yes
        ↔ PassesOn (map machine_view machines.now) (option_map (λ t. t.now) text.entry)) }
{
    match text {
        Some(text) => holds_on(alloc, machines, text),
        None => Ok(true),
    }
}

/// Whether a target text holds at some of these machines.
fn holds_on(alloc: Global, machines: &[Machine], text: &str) -> Result<bool, AllocError>
    ensures { IfOk result (λ yes. IsTrue yes ↔ HoldsOnSome (map machine_view machines.now) text.now) }
{
    for machine in machines {
        if machine.holds(alloc, text)? {
            return Ok(true);
        }
    }
    Ok(false)
}
