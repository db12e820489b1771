//! Which declared dependency an edge has: the one whose name, version requirement and source fit.

use crate::building::Built;
use krates_document::declared_source::is_path_of;
use krates_samples::table::{Tell, hold_lines};
use krates_text::text::Text;
use std::test::Fail;

/// Paths, sources, and whether the source is that of the path.
static PATHS: &str = r"
// a path of Windows, whose source has a slash before the drive
D:\a\krates\krates\tests\package-rename path+file:///D:/a/krates/krates/tests/package-rename => true
D:\a path+file:///D:/a/./ => true
D:\a\ path+file:///D:/a => false
D:\a path+file:///D:/a/b => false
D:\a\b path+file:///D:/a => false
// a directory without a first character, and one whose first isn't ASCII
x path+file:// => false
x path+file:///x => true
x path+file://éx => false
// a path that begins with `/`
/w/d path+file:///w/./d => true
/w/d path+file:///w/e => false
/w/d registry+x => false
";

/// Whether the source of a line is that of its path.
struct IsPathOf;

impl Tell for IsPathOf {
    fn tell(told: &mut Text, line: &str) -> Result<(), Fail> {
        let (path, source) = line.split_once(' ').unwrap_or((line, ""));
        write!(told, "{}", is_path_of(path, source));
        Ok(())
    }
}

static DECLARED_TWICE: &str = "
// the second has the path of the source, or neither has
a d?&from=registry+https://x.org/i d&at=/w/d|d / nodes a d|d => +a+d
a d?&from=registry+https://x.org/i d&at=/w/e|d / nodes a d|d => undeclared dependency: path+file:///w/d#0.1.0 of path+file:///w/a#0.1.0
// a source of git: an opaque id has no commit in its source, and is compared with one that is cut
a y?&from=git+https://x.org/y?rev=1#aaa y&from=git+https://x.org/y?rev=2#bbb|y&id=y~0.1.0~(git+https://x.org/y?rev=2#bbb) / nodes a y&id=y~0.1.0~(git+https://x.org/y?rev=2#bbb)|y&id=y~0.1.0~(git+https://x.org/y?rev=2#bbb) => +a+y=y 0.1.0 (git+https://x.org/y?rev=2#bbb)
// any other id is compared with the whole
a y?&from=git+https://x.org/y?rev=1 y&from=git+https://x.org/y?rev=2|y&id=git+https://x.org/y?rev=2#0.1.0 / nodes a y&id=git+https://x.org/y?rev=2#0.1.0|y&id=git+https://x.org/y?rev=2#0.1.0 => +a+y=git+https://x.org/y?rev=2#0.1.0
a y?&from=git+https://x.org/y?rev=1 y&from=git+https://x.org/y?rev=2#bbb|y&id=git+https://x.org/y?rev=2#0.1.0 / nodes a y&id=git+https://x.org/y?rev=2#0.1.0|y&id=git+https://x.org/y?rev=2#0.1.0 => undeclared dependency: git+https://x.org/y?rev=2#0.1.0 of path+file:///w/a#0.1.0
";

static SOURCES: &str = "
// of two that fit one has neither a source nor a path
a d? d&at=/w/d|d / nodes a d|d => +a+d
a d? d|d / nodes a d|d => undeclared dependency: path+file:///w/d#0.1.0 of path+file:///w/a#0.1.0
// the first of two with the source
a d? d? d&at=/w/d d?&at=/w/d|d / nodes a d|d => +a+d
// a source is compared as a text, and counts before a path
a p?&from=registry+https://x.org/i p&from=registry+https://github.com/rust-lang/crates.io-index|p@1.0.0&crates.io / nodes a p@1.0.0&crates.io|p@1.0.0&crates.io => +a+p=registry+https://github.com/rust-lang/crates.io-index#p@1.0.0
a d?&from=registry+https://x.org/i&at=/w/d d&at=/w/d|d / nodes a d|d => +a+d
// one alone needs no source
a d&from=registry+https://x.org/i|d / nodes a d|d => +a+d
// a name with a hyphen that fits beside one with an underscore
a x_y? x-y&at=/w/x_y|x_y / nodes a x_y|x_y => +a+x_y
";

static REQUIRED: &str = "
// a requirement that the version fits, and one that it doesn't
a b&req=^0.1|b => +a+b
a b&req=>=0.1,<0.2|b => +a+b
a b&req=^0.2|b => undeclared dependency: path+file:///w/b#0.1.0 of path+file:///w/a#0.1.0
a b&req=>=0.1,<0.1.0|b => undeclared dependency: path+file:///w/b#0.1.0 of path+file:///w/a#0.1.0
// of two that are declared the one whose requirement fits counts, which is optional or not
a d&req=^0.9 d?&req=^0.10|d@0.10.0 / nodes a d@0.10.0|d@0.10.0 => +a-d=d@0.10.0
a d?&req=^0.9 d&req=^0.10|d@0.10.0 / nodes a d@0.10.0|d@0.10.0 => +a+d=d@0.10.0
// even where the other has the source
a d?&req=^1&at=/w/d d&req=^0.9&at=/w/e|d@0.9.0 / nodes a d@0.9.0|d@0.9.0 => +a+d=d@0.9.0
// a pre-release fits a requirement without a comparator, and one that names a pre-release of its version
a b@1.0.0-beta|b@1.0.0-beta => +a+b=b@1.0.0-beta
a b@1.0.0-beta&req=>=1.0.0-alpha|b@1.0.0-beta => +a+b=b@1.0.0-beta
// and no other
a b@1.0.0-beta&req=>=0.9|b@1.0.0-beta => undeclared dependency: path+file:///w/b#b@1.0.0-beta of path+file:///w/a#0.1.0
a b@1.0.0-beta&req=>=0.9.0-alpha|b@1.0.0-beta => undeclared dependency: path+file:///w/b#b@1.0.0-beta of path+file:///w/a#0.1.0
";

static NAMED: &str = "
// cargo's name for a dependency has an underscore where the manifest has a hyphen
a real&as=x-y|real / nodes a real&as=x_y|real => +a+real
// never the other way round
a real&as=x_y|real / nodes a real&as=x-y|real => undeclared dependency: path+file:///w/real#0.1.0 of path+file:///w/a#0.1.0
// as a whole, letter by letter
a real&as=x-y|real / nodes a real&as=x|real => undeclared dependency: path+file:///w/real#0.1.0 of path+file:///w/a#0.1.0
a real&as=x|real / nodes a real&as=X|real => undeclared dependency: path+file:///w/real#0.1.0 of path+file:///w/a#0.1.0
// the name in the id, where that of the node is another
a b-c|b_c / nodes a b_c&as=q|b_c => +a+b_c
a b_c|b-c / nodes a b-c&as=q|b-c => undeclared dependency: path+file:///w/b-c#0.1.0 of path+file:///w/a#0.1.0
// the name of a package isn't that of the dependency where it is renamed
a real&as=x|real / nodes a real|real => undeclared dependency: path+file:///w/real#0.1.0 of path+file:///w/a#0.1.0
// references likewise
a real?&as=x-y;f=dep:x-y|real / nodes a real&as=x_y;f|real => +a+real
a real?&as=x-y;f=dep:x_y|real / nodes a real&as=x-y;f|real => +a-real
";

#[test]
fn paths_requirements_names_and_sources(rt: HostRuntime) -> Result<(), Fail> {
    hold_lines::<IsPathOf>(rt.alloc(), PATHS)?;
    hold_lines::<Built>(rt.alloc(), DECLARED_TWICE)?;
    hold_lines::<Built>(rt.alloc(), SOURCES)?;
    hold_lines::<Built>(rt.alloc(), REQUIRED)?;
    hold_lines::<Built>(rt.alloc(), NAMED)
}
