//! The machines of a build: the one that builds, and those that it is for.

ghost use Rattle.std.specs.Prelude.{◌≡◌, IfOk, IfSome, map, string_bytes};
ghost use Rattle.krates_host.specs.AskedBuild.{HaveTriples};
ghost use Rattle.krates_units.specs.Machines.{machine_view};
ghost use Rattle.krates_units.specs.RustcLines.{IsPrinted};

use crate::failure::Failure;
use crate::inputs::Inputs;
use crate::{flags, rustc, targets};
use krates_units::{Machine, MachineError};
use krates_words::BuildWords;
use std::alloc::Global;

/// A machine, with the text of its description.
#[derive(Debug, Drop)]
pub struct DescribedMachine {
    /// The machine.
    pub machine: Machine,
    /// What `rustc --print cfg` prints of it.
    pub cfg: String,
}

/// Machines, each with the text of its description at the same place.
#[derive(Debug, Drop)]
pub struct DescribedMachines {
    /// The machines.
    pub machines: Vec<Machine>,
    /// What `rustc --print cfg` prints of each.
    pub cfgs: Vec<String>,
}

/// The machines that a build is for, in their order: each as its file describes it, or else as rustc does, under the flags of the
/// environment, as cargo asks it. A triple that rustc doesn't know is refused by its name, and so is a file that describes another machine or
/// has a line that is no cfg. Time: that of running rustc for each of these.
pub fn targets_of(inputs: &Inputs<'_>, words: &BuildWords) -> Result<DescribedMachines, Failure>
    ensures triples { IfOk result (λ described. HaveTriples (map string_bytes words.now.triples.items)
        (map machine_view described.machines.items)) }
{
    let flags = flags::of_environment(inputs.shell.rt)?;
    let mut files = words.cfgs.iter();
    let mut machines = Vec::new(inputs.alloc());
    let mut cfgs = Vec::new(inputs.alloc());
    for triple in &words.triples {
        let described = machine_of(inputs, triple.as_str(), files.next(), &flags)?;
        let DescribedMachine { machine, cfg } = described;
        machines.push(machine)?;
        cfgs.push(cfg)?;
    }
    Ok(DescribedMachines { machines, cfgs })
}

/// The machine that builds: the one that is named, or else the one for which rustc itself is built. It is described, and refused, as those that
/// a build is for, but the flags of the environment are for it only where no other machine is named. Time: that of running rustc twice.
pub fn host_of(inputs: &Inputs<'_>, words: &BuildWords) -> Result<DescribedMachine, Failure>
    ensures triple { IfOk result (λ described. IfSome words.now.host
        (λ triple. (machine_view described.machine).triple ≡ string_bytes triple)) }
{
    let triple = match &words.host {
        Some(triple) => triple.clone()?,
        None => rustc::host(inputs)?,
    };
    let flags = if words.triples.is_empty() {
        flags::of_environment(inputs.shell.rt)?
    } else {
        Vec::new(inputs.alloc())
    };
    machine_of(inputs, triple.as_str(), words.host_cfg.as_ref(), &flags)
}

/// The machine of a triple: as a file describes it where there is one, or else as rustc does under these flags.
fn machine_of(
    inputs: &Inputs<'_>,
    triple: &str,
    file: Option<&String>,
    flags: &[String],
) -> Result<DescribedMachine, Failure>
    ensures { IfOk result (λ described. (machine_view described.machine).triple ≡ triple.now) }
{
    match file {
        Some(file) => in_file(inputs, triple, file.as_str()),
        None => by_rustc(inputs, triple, flags),
    }
}

/// The machine as rustc describes it under these flags.
fn by_rustc(
    inputs: &Inputs<'_>,
    triple: &str,
    flags: &[String],
) -> Result<DescribedMachine, Failure>
    ensures { IfOk result (λ described. (machine_view described.machine).triple ≡ triple.now) }
{
    let cfg = rustc::description(inputs, triple, flags)?;
    drop(targets::printed(inputs.alloc(), triple, cfg.as_str())?);
    let machine = read(inputs.alloc(), triple, "rustc", cfg.as_str())?;
    Ok(DescribedMachine { machine, cfg })
}

/// The machine as a file describes it.
fn in_file(inputs: &Inputs<'_>, triple: &str, file: &str) -> Result<DescribedMachine, Failure>
    ensures { IfOk result (λ described. (machine_view described.machine).triple ≡ triple.now) }
{
    let cfg = inputs.text_in(file)?;
    drop(targets::written(inputs.alloc(), triple, file, cfg.as_str())?);
    let machine = read(inputs.alloc(), triple, file, cfg.as_str())?;
    Ok(DescribedMachine { machine, cfg })
}

/// The machine of a triple of which this text has the lines; a refusal has this name for the text.
fn read(alloc: Global, triple: &str, name: &str, text: &str) -> Result<Machine, Failure>
    ensures { IfOk result (λ machine. IsPrinted triple.now text.now (machine_view machine)) }
{
    match Machine::from_rustc(alloc, triple, text) {
        Ok(machine) => Ok(machine),
        Err(MachineError::Memory) => Err(Failure::Memory),
        Err(cause) => Err(Failure::NoMachine {
            file: String::from_str(alloc, name)?,
            cause,
        }),
    }
}
