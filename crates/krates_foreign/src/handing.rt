//! How an answer is given to the caller, who lends the room for it.

ghost use Rattle.std.specs.Prelude.{Err, IfErr, IfOk, length, string_bytes};
ghost use Rattle.krates_foreign.specs.Handing.{Hands, HandsText, IsHanded, TellsOf, TellsRefusal};

use crate::refusal::CallRefusal;
use crate::status::Status;
use krates_shown::Shown;
use krates_verdict::Refusal;
use std::alloc::{AllocError, Global};

/// How a call ended.
#[repr(C)]
#[derive(Clone, Copy, Debug)]
pub struct Answer {
    /// The number of its status.
    pub status: u32,
    /// The length of the text that was handed over, or for which there was no room.
    pub length: usize,
}

/// Writes the text to the front of the room, if there is room for all of it; otherwise writes nothing.
fn hand(status: Status, text: &[u8], room: &mut [u8]) -> Answer
    ensures { IsHanded status text.now result room.old room.new }
{
    let length = text.len();
    if room.len() < length {
        let status = Status::TooShort.number();
        return Answer { status, length };
    }
    room[..length].copy_from_slice(text);
    let status = status.number();
    Answer { status, length }
}

/// Hands an answer over: its text, or what is printed for the refusal, as it is shown, is put at the front of the room, and after it the
/// room is as it was. The answer has the status and the length of the text.
///
/// Where the room is too short for the text, it is as it was, the status is that of `TooShort`, and the length is the room that the text
/// needs. Memory can run out only in printing a refusal: then the room is as it was, the status is that of `Memory`, and the length 0.
/// Time O(length of the text).
///
/// ```text
/// let answer = hand_over(alloc, list(alloc, document, words), &mut room);
/// ```
pub fn hand_over(alloc: Global, told: Result<String, CallRefusal>, room: &mut [u8]) -> Answer
    ensures told { Hands (TellsOf told) result room.old room.new }
    ensures answered { HandsText told result room.old room.new }
{
    hand_result(alloc, &told, room)
}

/// The same for a borrowed result, so that it is dropped in one place.
fn hand_result(alloc: Global, told: &Result<String, CallRefusal>, room: &mut [u8]) -> Answer
    ensures told { Hands (TellsOf told.now) result room.old room.new }
    ensures answered { HandsText told.now result room.old room.new }
{
    match told {
        Ok(text) => hand(Status::Answered, text.as_bytes(), room),
        Err(refusal) => hand_refusal(alloc, refusal, room),
    }
}

/// Hands over the text of a refusal.
fn hand_refusal(alloc: Global, refusal: &CallRefusal, room: &mut [u8]) -> Answer
    ensures { Hands (TellsOf (Err refusal.now)) result room.old room.new }
{
    match text_of(alloc, refusal) {
        Ok(text) => hand(refusal.status(), text.as_bytes(), room),
        Err(_) => hand(Status::Memory, b"", room),
    }
}

/// The text of a refusal: what is printed of it, as it is shown; or nothing where memory ran out.
fn text_of(alloc: Global, refusal: &CallRefusal) -> Result<String, AllocError>
    ensures { IfOk result (λ text. TellsRefusal refusal.now (string_bytes text)) }
{
    match refusal {
        CallRefusal::Memory => Err(AllocError),
        // the words in it are printed as they are shown already
        CallRefusal::Certificate(Refusal::Setting { .. }) => refusal.to_string(alloc),
        _ => {
            let printed = refusal.to_string(alloc)?;
            Shown(printed.as_str()).to_string(alloc)
        }
    }
}
