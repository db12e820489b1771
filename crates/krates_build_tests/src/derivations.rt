//! Lists of steps: each is accepted as it was written, and refused after one change; and what a refusal prints.

use crate::builders::ByBuilder;
use crate::lists::{Checked, OfLine, Steps};
use krates_checkers::CheckError;
use krates_samples::table::{Tell, hold_lines};
use krates_text::text::Text;
use std::test::Fail;

static STEPS: &str = "
// a crate that the only member needs for its tests
a b&dev|b / steps 1 +a; 5 a>b:dev 0; 5 +b 1 => yes
// a later step is used, one is missing, the kind is ignored, there is none, the document has no graph
a b&dev|b / steps 1 +a; 5 a>b:dev 2; 5 +b 1 => step 1
a b&dev|b / steps 1 +a; 5 a>b:dev 1; 5 +b 1 => step 1
a b&dev|b / steps 5 a>b:dev; 5 +b 0 => step 0
a b&dev|b / ignore dev / steps 1 +a; 5 a>b:dev 0; 5 +b 1 => step 1
a b&dev|b / steps => empty
a b&dev|b / no graph / steps 1 +a => document
a b&dev|b / no graph / steps => document
// another kind, another crate, a wrong number, a use too many, the first of two that don't follow
a b&dev|b / steps 1 +a; 5 a>b 0; 5 +b 1 => step 1
a b&dev|b / steps 1 +a; 5 a>b:dev 0; 5 +a 1 => step 2
a b&dev|b / steps 1 +a; 4 a>b:dev 0; 5 +b 1 => step 1
a b&dev|b / steps 1 +a; 5 a>b:dev 0; 5 +b 1 0 => step 2
a b&dev|b / steps 1 +b; 5 a>b:dev 0; 9 +b 1 => step 0
a b&dev|b / steps 1 +a; 5 a>b:dev 0; 5 +b 0 1 1 => step 2
// a weak reference over an edge that another feature keeps
a b?;b=dep:b w=b?/j|b;j= / steps 1 +a; 1 a/b; 1 a/w; 4 a>b 1; 5 +b 3; 7 a>b/j 2 3; 7 b/j 5 => yes
// uses swapped, a later one, another crate, a wrong number, a use too many
a b?;b=dep:b w=b?/j|b;j= / steps 1 +a; 1 a/b; 1 a/w; 4 a>b 1; 5 +b 3; 7 a>b/j 3 2; 7 b/j 5 => step 5
a b?;b=dep:b w=b?/j|b;j= / steps 1 +a; 1 a/b; 1 a/w; 4 a>b 1; 5 +b 3; 7 a>b/j 2 6; 7 b/j 5 => step 5
a b?;b=dep:b w=b?/j|b;j= / steps 1 +a; 1 a/b; 1 a/w; 4 a>b 1; 5 +b 3; 7 a>b/j 2 3; 7 a/j 5 => step 6
a b?;b=dep:b w=b?/j|b;j= / steps 1 +a; 1 a/b; 1 a/w; 4 a>b 1; 5 +b 3; 4 a>b/j 2 3; 7 b/j 5 => step 5
a b?;b=dep:b w=b?/j|b;j= / steps 1 +a; 1 a/b; 1 a/w; 4 a>b 1; 5 +b 3; 7 a>b/j 2 3; 7 b/j 5 3 => step 6
// the weak reference keeps no edge
a b?;b=dep:b w=b?/j|b;j= / nodes a b;w|b;j / steps 1 +a; 1 a/w => yes
a b?;b=dep:b w=b?/j|b;j= / nodes a b;w|b;j / steps 1 +a; 1 a/w; 4 a>b 1 => step 2
a b?;b=dep:b w=b?/j|b;j= / nodes a b;w|b;j / steps 1 +a; 1 a/b => step 1
// an edge of another kind that is always kept wakes it
a b? b&dev;w=b?/j|b;j= / nodes a b&normal&dev;w|b;j / steps 1 a/w; 2 +a 0; 5 a>b:dev 1; 7 a>b/j 0 2; 7 b/j 3 => yes
a b? b&dev;w=b?/j|b;j= / nodes a b&normal&dev;w|b;j / steps 1 a/w; 2 +a 0; 5 a>b 1; 7 a>b/j 0 2; 7 b/j 3 => step 2
// a strong reference beside a weak one
a b?;s=b/k w=b?/j|b;j= k= / steps 1 a/s; 1 a/w; 4 a>b 0; 4 a>b/k 0 2; 7 b/k 3; 7 a>b/j 1 2; 7 b/j 5; 2 +b 6 => yes
a b?;s=b/k w=b?/j|b;j= k= / steps 1 a/s; 1 a/w; 4 a>b 1; 4 a>b/k 0 2 => step 2
a b?;s=b/k w=b?/j|b;j= k= / steps 1 a/s; 1 a/w; 4 a>b 0; 7 a>b/k 0 2 => step 3
a b?;s=b/k w=b?/j|b;j= k= / steps 1 a/s; 1 a/w; 4 a>b 0; 4 a>b/k 1 2 => step 3
// over an edge for tests
a b&dev;x=b/y|b;y= / steps 1 a/x; 4 a>b:dev 0; 4 a>b/y 0 1; 7 b/y 2 => yes
a b&dev;x=b/y|b;y= / steps 1 a/x; 4 a>b:dev 0; 4 a>b/y 0; 7 b/y 2 => step 2
a b&dev;x=b/y|b;y= / steps 1 a/x; 4 a>b:dev 0; 4 b>b/y 0 1; 7 b/y 2 => step 2
// a reference to all versions of a crate, and to the least of them
a d?;x=dep:d|d@0.10.0|d@0.9.0 / nodes a d@0.10.0 d@0.9.0;x|d@0.10.0|d@0.9.0 / names all / steps 1 a/x; 4 a>d@0.9.0 0; 5 +d@0.9.0 1 => yes
a d?;x=dep:d|d@0.10.0|d@0.9.0 / nodes a d@0.10.0 d@0.9.0;x|d@0.10.0|d@0.9.0 / steps 1 a/x; 4 a>d@0.9.0 0; 5 +d@0.9.0 1 => step 1
// a reference to a crate that isn't a dependency is skipped; one feature enables another
a;x=nope/y / steps 1 a/x; 2 +a 0 => yes
a;x=nope/y / steps 1 a/x; 2 +a 0; 3 a/y 0 => step 2
a;x=y y= / nodes a;y / steps 1 a/y; 3 a/x 0 => step 1
a;f=g g=f / steps 1 a/f; 3 a/g 0; 3 a/f 1 => yes
// the features of an excluded crate aren't required
a b;x=b/nope|b / without b / steps 1 +a; 1 a/x => yes
a b;x=b/nope|b / without b / steps 1 +a; 1 a/x; 4 a>b 1 => step 2
a b;x=b/nope|b / without b / steps 1 +a; 5 a>b 0 => step 1
// the default feature by the list, and by use where it is listed
a b!&with=default|b / nodes a b|b;default / steps 1 +a; 5 a>b 0; 6 b/default 1 => yes
a b!|b;default= / steps 1 +a; 5 a>b 0; 6 b/default 1; 2 +b 2 => yes
a b|b;default= / steps 1 +a; 5 a>b 0; 6 b/default 1 => step 2
a b!|b / steps 1 +a; 5 a>b 0; 5 +b 1 => yes
a b!|b / steps 1 +a; 5 a>b 0; 5 +b 1; 6 b/default 1 => step 3
a b&with=z|b;z= / steps 1 +a; 5 a>b 0; 6 b/z 1 => yes
a b&with=z|b;z= / steps 1 +a; 5 a>b 0; 6 b/z 0 => step 2
a b&with=z|b;z= / steps 1 +a; 5 a>b 0; 6 a/z 1 => step 2
a b&with=z|b;z= / steps 1 +a; 5 a>b 0; 7 b/z 1 => step 2
// two versions of one dependency
a d|d@0.9.0|d@0.10.0 / nodes a d@0.9.0 d@0.10.0|d@0.9.0|d@0.10.0 / steps 1 +a; 5 a>d@0.10.0 0; 5 +d@0.10.0 1; 5 a>d@0.9.0 0; 5 +d@0.9.0 3 => yes
a d|d@0.9.0|d@0.10.0 / nodes a d@0.9.0 d@0.10.0|d@0.9.0|d@0.10.0 / steps 1 +a; 5 a>d@0.10.0 0; 5 +d@0.9.0 1 => step 2
// a dependency that is known by the name of its library, and one that is renamed
a md-5?;x=md-5/std|md-5&lib=md5;std= / nodes a md-5&as=md5;x|md-5;std / steps 1 a/x; 4 a>md-5 0; 4 a>md-5/std 0 1; 7 md-5/std 2; 5 +md-5 1 => yes
a md-5?;x=md-5/std|md-5&lib=md5;std= / nodes a md-5&as=md5;x|md-5;std / steps 1 a/x; 5 a>md-5 0 => step 1
a real?&as=alias;x=dep:alias|real / steps 1 a/x; 4 a>real 0; 5 +real 1 => yes
a real?&as=alias;x=dep:alias|real / steps 1 a/x; 4 a>real 0; 5 +a 1 => step 2
";

/// What a refusal of a checker prints. It is named by its word, and that of a step by the number of the step.
struct Refused;

impl Tell for Refused {
    fn tell(told: &mut Text, line: &str) -> Result<(), Fail> {
        let refusal = match line {
            "document" => CheckError::Document,
            "empty" => CheckError::Empty,
            "memory" => CheckError::Memory,
            "open" => CheckError::Open,
            _ => CheckError::Step(line.parse()?),
        };
        write!(told, "{refusal}");
        Ok(())
    }
}

static REFUSED: &str = "
document => bad document
empty => empty derivation
0 => step 0 does not follow
12 => step 12 does not follow
memory => out of memory
open => open list
";

#[test]
fn lists_of_steps(rt: HostRuntime) -> Result<(), Fail> {
    hold_lines::<OfLine<Checked<Steps>>>(rt.alloc(), STEPS)?;
    hold_lines::<OfLine<ByBuilder<Steps>>>(rt.alloc(), STEPS)?;
    hold_lines::<Refused>(rt.alloc(), REFUSED)
}
