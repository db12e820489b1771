//! How a call ended, as a number.

ghost use Rattle.std.specs.Prelude.{◌≡◌};
ghost use Rattle.krates_foreign.specs.Status.{number_of};

/// How a call ended.
#[derive(Clone, Copy, Debug)]
pub enum Status {
    /// The answer was handed over.
    Answered,
    /// The words aren't options, or say more than a setting.
    Words,
    /// The id of the crate that is to be explained can't be read.
    Id,
    /// The document isn't UTF-8.
    Utf8,
    /// The text isn't a document.
    Parse,
    /// The document has no graph of crates under the setting.
    Build,
    /// The crate that is to be explained isn't kept.
    NotKept,
    /// The certificate doesn't hold.
    Certificate,
    /// There is no room for the text: nothing was written, and the length is the room that it needs.
    TooShort,
    /// Memory ran out: nothing was written.
    Memory,
}

impl Status {
    /// The number by which other languages know it, from 0 to 9 in the order of their declaration. Time O(1).
    pub fn number(self) -> u32
        ensures { result ≡ number_of self }
    {
        match self {
            Status::Answered => 0,
            Status::Words => 1,
            Status::Id => 2,
            Status::Utf8 => 3,
            Status::Parse => 4,
            Status::Build => 5,
            Status::NotKept => 6,
            Status::Certificate => 7,
            Status::TooShort => 8,
            Status::Memory => 9,
        }
    }
}
