//! What C, Rust and other languages call: a document and options come in as bytes, and the answer goes to room that the caller lends.
//!
//! A slice is a pointer and a length, and `Global` is passed as nothing, so that C declares the first call as
//!
//! ```text
//! struct krates_answer krates_list(const uint8_t *document, size_t document_length,
//!                                  const uint8_t *options, size_t options_length,
//!                                  uint8_t *room, size_t room_length);
//! ```
//!
//! Options are those of `krates-list`, one word per line, without `--cargo` and `--why`. Each call ends with a status and a length. Status 0:
//! the answer is in the first bytes of the room, as many as the length says. 1 to 7: it is refused, and they say why, in one line: a
//! character in it that would end the line, move the cursor or turn the direction is shown by its number. 8: there is too little
//! room, and the length says how much is needed; nothing was written, and the call can be made again. 9: memory ran out, and
//! nothing was written. Past the length the room is always as it was.
#![tactic(auto)]

ghost use Rattle.krates_foreign.specs.Calls.{CheckRefusal, Checks, Draws, Explains, ListRefusal, Lists, WhyRefusal};
ghost use Rattle.krates_foreign.specs.Handing.{Hands, Tells};

use krates_foreign::{Answer, check, graph, hand_over, list, why};
use std::alloc::Global;

/// The lines of a document's packages: after `+ ` the kept ones, after `- ` the others, both in the order of the ids.
#[unsafe(no_mangle)]
pub extern "C" fn krates_list(
    alloc: Global,
    document: &[u8],
    options: &[u8],
    room: &mut [u8],
) -> Answer
    ensures { Hands (Tells (Lists document.now options.now) (ListRefusal document.now options.now))
        result room.old room.new }
{
    let told = list(alloc, document, options);
    hand_over(alloc, told, room)
}

/// The lines of its graph: nodes with the mappings of the crates, then edges, as `krates_foreign::graph` writes them.
#[unsafe(no_mangle)]
pub extern "C" fn krates_graph(
    alloc: Global,
    document: &[u8],
    options: &[u8],
    room: &mut [u8],
) -> Answer
    ensures { Hands (Tells (Draws document.now options.now) (ListRefusal document.now options.now))
        result room.old room.new }
{
    let told = graph(alloc, document, options);
    hand_over(alloc, told, room)
}

/// The lines of a derivation of the crate with this id, one step per line.
#[unsafe(no_mangle)]
pub extern "C" fn krates_why(
    alloc: Global,
    document: &[u8],
    options: &[u8],
    id: &[u8],
    room: &mut [u8],
) -> Answer
    ensures { Hands (Tells (Explains document.now options.now id.now)
        (WhyRefusal document.now options.now id.now)) result room.old room.new }
{
    let told = why(alloc, document, options, id);
    hand_over(alloc, told, room)
}

/// The line that says what a certificate says, where it holds.
#[unsafe(no_mangle)]
pub extern "C" fn krates_check(
    alloc: Global,
    document: &[u8],
    options: &[u8],
    certificate: &[u8],
    room: &mut [u8],
) -> Answer
    ensures { Hands (Tells (Checks document.now options.now certificate.now)
        (CheckRefusal document.now options.now certificate.now)) result room.old room.new }
{
    let told = check(alloc, document, options, certificate);
    hand_over(alloc, told, room)
}
