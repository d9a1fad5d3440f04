//! The scanner for C and Rust: the tokens of an input as plain records, in room that the caller gives.
#![tactic(auto)]

ghost use Rattle.std.specs.Prelude.{◌≡◌, ◌≤◌};
ghost use Rattle.yaml_c.specs.Answer.{IsScanned, RefusesWrong, ScansRight, most_key_limit, rooms};
ghost use Rattle.yaml_c.specs.Spelled.{skipped_of};
ghost use Rattle.yaml_c.specs.inside.Batch.{rooms_of};

mod answer;
mod calls;
mod handle;
mod held;
mod kinds;
pub mod laws;
mod numbers;
mod pieces;
#[cfg(test)]
mod pieces_tests;
mod place;
mod record;
mod room;
mod sink;
mod spelled;
mod status;
#[cfg(test)]
mod tests;

use crate::answer::{counts, counts_and_fault};
use crate::numbers::encoding_of;
use crate::sink::token_rooms_t;
use crate::spelled::{skipped_of, spelled_t};
use crate::status::{DONE, FAULT, WRONG};
pub use answer::bogzhami_answer;
pub use calls::{
    bogzhami_close, bogzhami_encoding, bogzhami_next, bogzhami_next_piece, bogzhami_open,
    bogzhami_open_pieces, bogzhami_peek, bogzhami_reach,
};
pub use handle::bogzhami_handle;
pub use place::bogzhami_place;
pub use record::{bogzhami_mark, bogzhami_token};
use std::alloc::Global;
use yaml_scan::{MOST_KEY_LIMIT, yaml_encoding_t, yaml_scan_to};

/// Puts all tokens of the input of two rooms into them, where there are none, and the texts of the fault after them.
/// Returns the answer and the status.
fn scan(setting: yaml_encoding_t, limit: u32, rooms: &mut token_rooms_t) -> (bogzhami_answer, u32)
    requires least { 1 ≤ limit }
    requires most { limit ≤ most_key_limit }
    requires skipped { rooms.old.spelled.skipped ≡ skipped_of setting rooms.old.spelled.input.now }
    requires none { rooms.old.token_count ≡ 0 }
    requires no_text { rooms.old.text_len ≡ 0 }
    ensures scanned { IsScanned setting limit rooms.old.spelled.input.now
        (rooms_of rooms.old) (rooms_of rooms.new) result.0 result.1 }
    ensures same_tokens { rooms.new.tokens.ghost_name ≡ rooms.old.tokens.ghost_name }
    ensures same_texts { rooms.new.texts.ghost_name ≡ rooms.old.texts.ghost_name }
{
    let alloc = *rooms.spare.allocator();
    let Ok(fault) = yaml_scan_to(alloc, rooms.spelled.input, setting, limit, rooms) else {
        unreachable!();
    };
    let Some(fault) = fault else {
        return (counts(rooms.token_count, rooms.text_len), DONE);
    };
    rooms.put_fault(fault);
    (
        counts_and_fault(rooms.token_count, rooms.text_len, fault),
        FAULT,
    )
}

/// Scans all tokens of an input into the room that the caller gives.
///
/// The records of the tokens are put into `tokens`. Their texts and then those of the fault are put into `texts`. Both
/// are written as far as there is room. `out` gets the counts and the fault.
///
/// `setting` is the number of an encoding, 0 to 3: any, UTF-8, UTF-16LE, UTF-16BE. `limit` is the key limit in bytes,
/// 1 to 65,536.
///
/// Returns 0 if the stream ended, 1 if there is a fault, and 2 for another setting or limit. If it returns 2, `out` is
/// all zeros, and the rooms are as they were.
#[unsafe(no_mangle)]
pub extern "C" fn bogzhami_scan_all(
    alloc: Global,
    input: &[u8],
    setting: u32,
    limit: u32,
    tokens: &mut [bogzhami_token],
    texts: &mut [u8],
    out: &mut bogzhami_answer,
) -> u32
    ensures wrong { RefusesWrong setting limit
        (rooms tokens.old texts.old) (rooms tokens.new texts.new) out.new result }
    ensures scanned { ScansRight setting limit input.now
        (rooms tokens.old texts.old) (rooms tokens.new texts.new) out.new result }
{
    *out = counts(0, 0);
    let Some(encoding) = encoding_of(setting) else {
        return WRONG;
    };
    if limit < 1 || limit > MOST_KEY_LIMIT {
        return WRONG;
    }
    let mut spare = Vec::new(alloc);
    let mut rooms = token_rooms_t {
        tokens,
        texts,
        spelled: spelled_t {
            input,
            skipped: skipped_of(encoding, input),
        },
        token_count: 0,
        text_len: 0,
        spare: &mut spare,
    };
    let (told, status) = scan(encoding, limit, &mut rooms);
    *out = told;
    status
}
