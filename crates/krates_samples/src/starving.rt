//! Calls with little memory: a test starts itself again in a process that has little, and makes each of its calls there under one small
//! budget after another, until there is enough.

use std::alloc::{AllocError, Global};
use std::fmt::Debug;
use std::process::{Command, Output};
use std::test::Fail;

/// A call of a table, by its name, and how its answer is judged.
pub trait Call: Debug {
    /// What the call is made on.
    type Given: Drop;

    /// What the call answers.
    type Answer: Drop;

    /// What the call is made on, made with ample memory.
    fn given(&self, alloc: Global) -> Result<Self::Given, Fail>;

    /// Makes the call, with little memory.
    fn answer(&self, alloc: Global, given: &mut Self::Given) -> Self::Answer;

    /// Returns whether there was enough memory for this answer, after which what the call was made on is as given here. Fails at
    /// an answer that is neither a refusal for lack of memory that leaves unchanged what it has to, nor the one with ample memory.
    fn is_granted(
        &self,
        alloc: Global,
        given: &mut Self::Given,
        answer: &Self::Answer,
    ) -> Result<bool, Fail>;
}

/// There was enough memory: the answer is the one with ample memory, or the call fails its test.
pub fn granted(is_ample: bool) -> Result<bool, Fail> {
    if !is_ample {
        return Err(Fail::new("an answer that ample memory doesn't give"));
    }
    Ok(true)
}

/// Memory ran out: what must be unchanged is, or the call fails its test.
pub fn refused(is_unchanged: bool) -> Result<bool, Fail> {
    if !is_unchanged {
        return Err(Fail::new("something changed at a refusal"));
    }
    Ok(false)
}

/// The call was refused for another reason than lack of memory, so it fails its test.
pub fn other_refusal() -> Result<bool, Fail> {
    Err(Fail::new("a refusal for another reason"))
}

/// For a question, which changes nothing and is refused only if memory runs out: whether its answer is the one with ample memory.
pub fn answered(answer: &Result<bool, AllocError>) -> Result<bool, Fail> {
    match answer {
        Ok(is_ample) => granted(*is_ample),
        Err(AllocError) => refused(true),
    }
}

/// The budgets are below this number of bytes.
const RESERVE: usize = 1 << 18;

/// How many blocks of memory are taken at most.
const BLOCKS: usize = 20_000;

/// All memory but a budget, which is freed when this is dropped.
#[derive(Drop)]
struct Little {
    blocks: Vec<Vec<u8>>,
}

impl Little {
    /// Takes a block of this size, where there is one.
    fn take(&mut self, alloc: Global, size: usize) -> bool {
        if self.blocks.len() >= self.blocks.capacity() {
            return false;
        }
        match Vec::with_capacity(alloc, size) {
            Ok(block) => self.blocks.push(block).is_ok(),
            Err(_) => false,
        }
    }

    /// Takes all blocks of this size.
    fn take_all(&mut self, alloc: Global, size: usize) {
        for _ in 0..BLOCKS {
            if !self.take(alloc, size) {
                return;
            }
        }
    }

    /// Takes all memory but this budget, or no memory, where there is no budget.
    fn but(alloc: Global, budget: Option<usize>) -> Result<Little, Fail> {
        let Some(budget) = budget else {
            let blocks = Vec::new(alloc);
            return Ok(Little { blocks });
        };
        let blocks = Vec::with_capacity(alloc, BLOCKS)?;
        let mut little = Little { blocks };
        let reserve: Vec<u8> = Vec::with_capacity(alloc, RESERVE)?;
        for shift in [20u32, 16, 12, 8, 6, 5, 4] {
            little.take_all(alloc, 1 << shift);
        }
        drop(reserve);
        little.take(alloc, RESERVE.saturating_sub(budget));
        Ok(little)
    }
}

/// Whether this budget is enough for the call, or all memory, where there is no budget. The answer is judged only once the memory is
/// freed.
fn is_enough<C: Call>(alloc: Global, call: &C, budget: Option<usize>) -> Result<bool, Fail> {
    let mut given = call.given(alloc)?;
    let little = Little::but(alloc, budget)?;
    let answer = call.answer(alloc, &mut given);
    drop(little);
    call.is_granted(alloc, &mut given, &answer)
}

/// The least number of steps of 16 bytes that are enough for the call.
fn steps_to_enough<C: Call>(alloc: Global, call: &C) -> Result<usize, Fail> {
    for step in 0..RESERVE / 16 {
        if is_enough(alloc, call, Some(step * 16))? {
            return Ok(step);
        }
    }
    Err(Fail::new("no budget is enough"))
}

/// What the process is started with: little memory, in which each freed block can be used again, whatever its size.
const SCRIPT: &str =
    "ulimit -v 100000; exec env GLIBC_TUNABLES=glibc.malloc.tcache_count=0:glibc.malloc.mxfast=0:glibc.malloc.mmap_max=0:glibc.malloc.arena_max=1:glibc.malloc.trim_threshold=1000000000 \"$0\" \"$1\" now";

/// What a shell writes that starts this program with little memory for the test of this name, and how it ends.
fn output_of(
    rt: &HostRuntime,
    shell: &mut Command,
    program: &str,
    name: &str,
) -> Result<Output, Fail> {
    shell.args(&["-c", SCRIPT, program, name])?;
    Ok(shell.output(rt)?)
}

/// What this program, started again with little memory for the test of this name, writes, and how it ends.
fn output(rt: &HostRuntime, name: &str) -> Result<Output, Fail> {
    let this = std::env::current_exe(rt)?;
    let mut shell = Command::new(rt.alloc(), "/bin/sh")?;
    output_of(rt, &mut shell, this.as_str(), name)
}

/// Fails, and names the call, which is printed last, with what was printed about it.
fn fail(alloc: Global, told: &str, why: &[u8]) -> Result<(), Fail> {
    let why = String::from_utf8_lossy(alloc, why)?;
    let (_, call) = told.rsplit_once('\n').unwrap_or(("", told));
    Err(Fail::new(format_args!("with little memory, {call}{why}")))
}

/// Starts this program again with little memory, for the test of this name, and prints what it printed.
fn start(rt: &HostRuntime, name: &str) -> Result<(), Fail> {
    let output = output(rt, name)?;
    let told = String::from_utf8_lossy(rt.alloc(), output.stdout.as_slice())?;
    if !output.status.success() {
        return fail(rt.alloc(), told.as_str(), output.stderr.as_slice());
    }
    println!(rt; "{told}")?;
    Ok(())
}

/// Makes the call with ample memory, and then under each small budget until one is enough. At least one has to be too small. Ample
/// memory comes first, since the stack can't grow any more where all memory is taken.
fn starve<C: Call>(rt: &HostRuntime, call: &C) -> Result<(), Fail> {
    print!(rt; "{call:?}: ")?;
    if !is_enough(rt.alloc(), call, None)? {
        return Err(Fail::new("ample memory isn't enough"));
    }
    let refused = steps_to_enough(rt.alloc(), call)?;
    if refused == 0 {
        return Err(Fail::new("nothing was refused"));
    }
    println!(rt; "refused {refused} times")?;
    Ok(())
}

/// Makes each call of a table under each small budget until one is enough, in a process of its own.
pub fn starved<C: Call>(rt: &HostRuntime, calls: &[C]) -> Result<(), Fail> {
    let mut words = std::env::args(rt)?;
    if words.len() < 3 {
        let name = words.nth(1);
        return start(rt, name.as_deref().unwrap_or(""));
    }
    drop(words);
    for call in calls {
        starve(rt, call)?;
    }
    Ok(())
}
