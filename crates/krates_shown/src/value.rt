//! What is printed of a value, as it is shown.

use crate::shown::Shown;
use std::fmt;
use std::fmt::Display;

/// A value whose print has texts in it that someone else wrote, such as an error that names an id: what it prints is shown, piece by piece,
/// as `Shown` shows a text. Time: that of the print.
///
/// ```text
/// println!(rt; "error: {}", ShownValue(&error))?;
/// ```
#[derive(Clone, Copy)]
pub struct ShownValue<T>(pub T);

impl<T: Display> Display for ShownValue<T> {
    fn fmt<W: fmt::Write>(&self, f: &mut fmt::Formatter<W>) -> fmt::Result {
        let mut pieces = fmt::Formatter::new(Pieces(f));
        pieces.write(&self.0)
    }
}

/// Where what is printed goes on to, as it is shown.
#[derive(Drop)]
struct Pieces<'a, W: fmt::Write>(&'a mut fmt::Formatter<W>);

impl<W: fmt::Write> fmt::Write for Pieces<'_, W> {
    fn write_str(&mut self, piece: &str) -> fmt::Result {
        self.0.write(Shown(piece))
    }
}
