//! Clauses over numbered facts: which facts hold, by which steps, and which facts clauses may name.
//!
//! A line of clauses has one after another, each as its premises and its fact: `0; 0>1; 0 1>2`. They may name the facts 0 to 9.

use krates_closure::{Clause, ClauseNumber, Clauses, Closure, FactNumber};
use krates_samples::table::{Tell, hold, hold_lines};
use krates_text::text::Text;
use std::alloc::Global;
use std::test::Fail;

/// Clauses, and the facts that hold.
static HOLD: &str = "
 =>
// without premises
3 => 3
9; 0 => 0 9
4; 4 => 4
// one from another, in each order, and past one that gives nothing
0; 0>1; 1>2 => 0 1 2
1>2; 0>1; 0 => 0 1 2
0>1; 2>3; 2 => 2 3
// all premises have to hold, in whatever order they are found
0; 0 1>2 => 0
1; 0 1>2 => 1
0; 1; 0 1>2 => 0 1 2
0 1 2>3; 2; 1; 0 => 0 1 2 3
2 1 0>3; 2; 1; 0 => 0 1 2 3
0; 1; 3; 0 1 2 3>4 => 0 1 3
// a premise that is named twice
5 5>6; 5 => 5 6
5 5 7>6; 5 => 5
// two clauses give one fact, one of them or both
0; 0>2; 1>2 => 0 2
1; 0>2; 1>2 => 1 2
0; 1; 0>2; 1>2; 2>3 => 0 1 2 3
// several wait for one fact
0>1; 0>2; 0 1>3; 0 4>5; 0 => 0 1 2 3
0; 0>1; 0>2; 0 1>3; 0 4>5 => 0 1 2 3
// nothing holds by itself, nor round a circle, unless something outside leads there
0>0 =>
0>1; 1>0 =>
0>1; 1>2; 2>0 =>
0>1; 1>2; 2>0; 5>1; 5 => 0 1 2 5
0 1>1; 0 => 0
// what holds already, and follows again
0; 1>0; 0>1 => 0 1
// the greatest number
9>8; 8 9>7; 9 => 7 8 9
";

/// Clauses that derive each fact in one way and in one order, and the steps that derive them: each as its premises and its fact.
static STEPS: &str = "
 =>
7 => >7
0>1; 1>2; 0 => >0; 0>1; 1>2
0 1>2; 0>1; 0; 3>4 => >0; 0>1; 0 1>2
2 1 0>3; 0 1>2; 0>1; 0 => >0; 0>1; 0 1>2; 2 1 0>3
0>1; 1>0 =>
// one that is there twice gives its fact once
6; 6 => >6
6 6>5; 6 => >6; 6 6>5
";

/// Clauses, and a fact; the steps that derive it, or `none`. What isn't needed for it isn't among them.
static DERIVATIONS: &str = "
7: 7 => >7
7: 6 => none
0>1; 1>2; 0: 1 => >0; 0>1
0>1; 1>2; 0: 2 => >0; 0>1; 1>2
0>1; 0>2; 0; 2>3: 3 => >0; 0>2; 2>3
2 1 0>3; 0 1>2; 0>1; 0: 3 => >0; 0>1; 0 1>2; 2 1 0>3
0>1; 1>0: 0 => none
6 6>5; 6; 7: 5 => >6; 6 6>5
";

/// Numbers of facts, and whether clauses may name all of them.
static NAMED: &str = "
 => true
0 => true
9 => true
10 => false
3 9 0 => true
10 3 => false
3 10 => false
";

/// How long a chain is in which each fact follows from the one before it, and how many of its facts hold.
static CHAINS: &str = "
1 => 1
2 => 2
100000 => 100000
";

/// The facts with these numbers, between each two of which is a blank.
fn facts_in(alloc: Global, text: &str) -> Result<Vec<FactNumber>, Fail> {
    let mut facts = Vec::new(alloc);
    for number in text.split_whitespace() {
        facts.push(FactNumber::new(number.parse()?))?;
    }
    Ok(facts)
}

/// Adds a clause, unless it names a fact that it may not name.
fn push_named(
    clauses: &mut Clauses,
    premises: Vec<FactNumber>,
    fact: FactNumber,
) -> Result<(), Fail> {
    if !clauses.has_all(&premises) {
        return Err(Fail::from("no such premise"));
    }
    if !clauses.has_all(&[fact]) {
        return Err(Fail::from("no such fact"));
    }
    clauses.push(premises, fact)?;
    Ok(())
}

/// The clauses of a line.
fn clauses_in(alloc: Global, line: &str) -> Result<Clauses, Fail> {
    let mut clauses = Clauses::new(alloc, 10);
    for text in line.split_terminator("; ") {
        let (before, after) = text.split_once('>').unwrap_or(("", text));
        let premises = facts_in(alloc, before)?;
        push_named(&mut clauses, premises, FactNumber::new(after.parse()?))?;
    }
    Ok(clauses)
}

/// Adds a number; behind another with a blank between.
fn push_number(told: &mut Text, number: usize) {
    if !told.as_str().is_empty() {
        told.push_str(" ");
    }
    write!(told, "{number}");
}

/// The facts that hold, of 0 to 11.
struct Holding;

impl Tell for Holding {
    fn tell(told: &mut Text, line: &str) -> Result<(), Fail> {
        let alloc = told.allocator();
        let closure = Closure::of(alloc, clauses_in(alloc, line)?)?;
        for number in 0..12 {
            if closure.holds(FactNumber::new(number)) {
                push_number(told, number);
            }
        }
        Ok(())
    }
}

/// Adds a step as a clause is written; behind another with a semicolon between.
fn push_step(told: &mut Text, clause: &Clause) {
    if !told.as_str().is_empty() {
        told.push_str("; ");
    }
    for (place, premise) in clause.premises().iter().enumerate() {
        if place > 0 {
            told.push_str(" ");
        }
        write!(told, "{}", premise.index());
    }
    write!(told, ">{}", clause.fact().index());
}

/// The steps that derive the facts that hold.
struct Steps;

impl Tell for Steps {
    fn tell(told: &mut Text, line: &str) -> Result<(), Fail> {
        let alloc = told.allocator();
        let closure = Closure::of(alloc, clauses_in(alloc, line)?)?;
        for &step in closure.steps() {
            let clause = closure.clauses().clause(step).ok_or("no such clause")?;
            push_step(told, clause);
        }
        Ok(())
    }
}

/// The steps that derive one fact.
struct Derivation;

impl Tell for Derivation {
    fn tell(told: &mut Text, line: &str) -> Result<(), Fail> {
        let alloc = told.allocator();
        let (line, fact) = line.split_once(": ").unwrap_or((line, ""));
        let closure = Closure::of(alloc, clauses_in(alloc, line)?)?;
        let Some(steps) = closure.derivation(alloc, FactNumber::new(fact.parse()?))? else {
            told.push_str("none");
            return Ok(());
        };
        for &step in &steps {
            let clause = closure.clauses().clause(step).ok_or("no such clause")?;
            push_step(told, clause);
        }
        Ok(())
    }
}

/// Whether clauses over ten facts may name the facts with these numbers.
struct Named;

impl Tell for Named {
    fn tell(told: &mut Text, line: &str) -> Result<(), Fail> {
        let alloc = told.allocator();
        let facts = facts_in(alloc, line)?;
        write!(told, "{}", Clauses::new(alloc, 10).has_all(&facts));
        Ok(())
    }
}

/// How many facts of a chain hold.
struct Chain;

impl Tell for Chain {
    fn tell(told: &mut Text, length: &str) -> Result<(), Fail> {
        let alloc = told.allocator();
        let length = length.parse()?;
        let mut clauses = Clauses::new(alloc, length);
        for number in 0..length {
            let mut before = Vec::new(alloc);
            if number > 0 {
                before.push(FactNumber::new(number - 1))?;
            }
            push_named(&mut clauses, before, FactNumber::new(number))?;
        }
        write!(told, "{}", Closure::of(alloc, clauses)?.steps().len());
        Ok(())
    }
}

#[test]
fn what_is_derivable_holds_by_steps(rt: HostRuntime) -> Result<(), Fail> {
    hold_lines::<Holding>(rt.alloc(), HOLD)?;
    hold_lines::<Steps>(rt.alloc(), STEPS)?;
    hold_lines::<Derivation>(rt.alloc(), DERIVATIONS)?;
    hold_lines::<Named>(rt.alloc(), NAMED)?;
    hold_lines::<Chain>(rt.alloc(), CHAINS)
}

#[test]
fn clauses_go_by_number(rt: HostRuntime) -> Result<(), Fail> {
    let clauses = clauses_in(rt.alloc(), "3; 1 2>4")?;
    let second = clauses.clause(ClauseNumber::new(1));
    let told = (
        clauses.size(),
        clauses.as_slice().len(),
        second.map(|clause| clause.fact()),
        clauses.clause(ClauseNumber::new(2)).is_some(),
        ClauseNumber::new(1) < ClauseNumber::new(2),
        ClauseNumber::new(7).index(),
    );
    assert_eq!(rt; told, (10, 2, Some(FactNumber::new(4)), false, true, 7));
    Ok(())
}
