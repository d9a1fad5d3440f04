//! The calls on a handle.
ghost use Rattle.std.specs.Prelude.{◌≡◌, ◌≢◌, ◌⊎◌, ◌≤◌, length, true, false};
ghost use Rattle.yaml_text.specs.Decode as decoding;
ghost use Rattle.yaml_text.specs.declared.types.yaml_encoding_t.{yaml_encoding_t};
ghost use Rattle.yaml_text.specs.Fault.{zero_mark};
ghost use Rattle.yaml_text.specs.Types.{encoding_number};
ghost use Rattle.yaml_scan.specs.ParserCalls.{course_read};
ghost use Rattle.yaml_scan.specs.Sessions.{session_reach};
ghost use Rattle.yaml_c.specs.Answer.{IsWrong, most_key_limit, no_answer, rooms};
ghost use Rattle.yaml_c.specs.Held.{Scan, IsAt, IsNext, IsPeek, opened};
ghost use Rattle.yaml_c.specs.Kinds.{IfPieces, IfWhole, Pieces, Whole};
ghost use Rattle.yaml_c.specs.PiecesHeld.{GivesPiece, IsAtPieces, IsWindow, PiecesScan, new_pieces};
ghost use Rattle.yaml_c.specs.Record as records;
ghost use Rattle.yaml_c.specs.Status as status;

use crate::answer::{ZERO, bogzhami_answer, counts};
use crate::handle::{bogzhami_handle, closed, handle_of, into_box};
use crate::held::open;
use crate::kinds::{held_any_t, next_of_pieces, next_of_whole, peek_of_whole};
use crate::numbers::encoding_of;
use crate::pieces::open_pieces;
use crate::record::{bogzhami_mark, bogzhami_token, mark_of};
use crate::status::{DONE, NO_MEMORY, NOT_LIVE, WRONG};
use std::alloc::Global;
use yaml_scan::MOST_KEY_LIMIT;

/// Frees what a handle holds, and closes it. Returns whether it held something.
fn close(alloc: Global, handle: &mut bogzhami_handle) -> bool
    ensures closed { handle.new.live ≡ false }
    ensures live { result ≡ handle.old.live }
{
    let bogzhami_handle { live, held } = std::mem::replace(handle, closed());
    if live {
        let _ = into_box(alloc, held);
    }
    live
}

/// Opens a scanner of an input. What the handle held before is freed. Nothing is read yet.
///
/// `encoding` is the number of an encoding, 0 to 3: any, UTF-8, UTF-16LE, UTF-16BE. `key_limit` is in bytes, 1 to
/// 65,536.
///
/// Returns 0; 2 for another encoding or limit; 3 if memory was refused. With 2 and 3 the handle holds nothing.
#[unsafe(no_mangle)]
pub extern "C" fn bogzhami_open(
    alloc: Global,
    handle: &mut bogzhami_handle,
    input: &[u8],
    encoding: u32,
    key_limit: u32,
) -> u32
    ensures wrong { IsWrong encoding key_limit → result ≡ status.wrong }
    ensures right { (e : yaml_encoding_t) → encoding_number e ≡ encoding → 1 ≤ key_limit
        → key_limit ≤ most_key_limit → (result ≡ status.done) ⊎ (result ≡ status.no_memory) }
    ensures opened { result ≡ status.done → (handle.new.live ≡ true) × ((e : yaml_encoding_t)
        → encoding_number e ≡ encoding → Whole handle.new.held.value (IsAt (opened input.now e key_limit))) }
    ensures closed { result ≢ status.done → handle.new.live ≡ false }
{
    let _ = close(alloc, handle);
    let Some(setting) = encoding_of(encoding) else {
        return WRONG;
    };
    if key_limit < 1 || key_limit > MOST_KEY_LIMIT {
        return WRONG;
    }
    match open(alloc, input, setting, key_limit) {
        Ok(held) => {
            *handle = handle_of(held);
            DONE
        }
        Err(_) => NO_MEMORY,
    }
}

/// Opens a scanner that is given its input in pieces. What the handle held before is freed. Nothing is read yet.
///
/// `encoding` is the number of an encoding, 0 to 3: any, UTF-8, UTF-16LE, UTF-16BE. `key_limit` is in bytes, 1 to
/// 65,536.
///
/// Returns 0; 2 for another encoding or limit; 3 if memory was refused. With 2 and 3 the handle holds nothing.
#[unsafe(no_mangle)]
pub extern "C" fn bogzhami_open_pieces(
    alloc: Global,
    handle: &mut bogzhami_handle,
    encoding: u32,
    key_limit: u32,
) -> u32
    ensures wrong { IsWrong encoding key_limit → result ≡ status.wrong }
    ensures right { (e : yaml_encoding_t) → encoding_number e ≡ encoding → 1 ≤ key_limit
        → key_limit ≤ most_key_limit → (result ≡ status.done) ⊎ (result ≡ status.no_memory) }
    ensures opened { result ≡ status.done → (handle.new.live ≡ true) × ((e : yaml_encoding_t)
        → encoding_number e ≡ encoding → Pieces handle.new.held.value (IsAtPieces (new_pieces e key_limit))) }
    ensures closed { result ≢ status.done → handle.new.live ≡ false }
{
    let _was_live = close(alloc, handle);
    let Some(setting) = encoding_of(encoding) else {
        return WRONG;
    };
    if key_limit < 1 || key_limit > MOST_KEY_LIMIT {
        return WRONG;
    }
    match open_pieces(alloc, setting, key_limit) {
        Ok(held) => {
            *handle = handle_of(held);
            DONE
        }
        Err(_) => NO_MEMORY,
    }
}

/// Frees what a handle holds, at any time.
///
/// Returns 0, or 6 if it held nothing; then it does nothing.
#[unsafe(no_mangle)]
pub extern "C" fn bogzhami_close(alloc: Global, handle: &mut bogzhami_handle) -> u32
    ensures closed { handle.new.live ≡ false }
    ensures live { handle.old.live ≡ true → result ≡ status.done }
    ensures not_live { handle.old.live ≡ false → result ≡ status.not_live }
{
    if close(alloc, handle) { DONE } else { NOT_LIVE }
}

/// Gives the next tokens: whole ones only, as many as both rooms hold.
#[unsafe(no_mangle)]
pub extern "C" fn bogzhami_next(
    alloc: Global,
    handle: &mut bogzhami_handle,
    input: &[u8],
    tokens: &mut [bogzhami_token],
    texts: &mut [u8],
    answer: &mut bogzhami_answer,
) -> u32
    requires { handle.old.live ≡ true → IfWhole handle.old.held.value
        (λ h. (s : Scan) × (s.input ≡ input.now) × IsAt s h) }
    ensures live { handle.new.live ≡ handle.old.live }
    ensures not_live { handle.old.live ≡ false → (result ≡ status.not_live) × (answer.new ≡ no_answer)
        × (rooms tokens.new texts.new ≡ rooms tokens.old texts.old) }
    ensures next { handle.old.live ≡ true → IfWhole handle.old.held.value
        (λ h. (s : Scan) → s.input ≡ input.now → IsAt s h → Whole handle.new.held.value
        (λ k. IsNext s (rooms tokens.old texts.old) (rooms tokens.new texts.new) k answer.new result)) }
    ensures pieces { handle.old.live ≡ true → IfPieces handle.old.held.value
        (λ h. (handle.new.held.value ≡ handle.old.held.value) × (result ≡ status.not_live)
        × (answer.new ≡ no_answer) × (rooms tokens.new texts.new ≡ rooms tokens.old texts.old)) }
{
    let bogzhami_handle { live, held } = std::mem::replace(handle, closed());
    if !live {
        *answer = counts(0, 0);
        return NOT_LIVE;
    }
    let mut held = into_box(alloc, held);
    let status = next_of_whole(&mut held, input, tokens, texts, answer);
    *handle = handle_of(held);
    status
}

/// Shows the token that the next batch begins with, or the fault that comes next. Nothing is taken.
#[unsafe(no_mangle)]
pub extern "C" fn bogzhami_peek(
    alloc: Global,
    handle: &mut bogzhami_handle,
    input: &[u8],
    token: &mut bogzhami_token,
    texts: &mut [u8],
    answer: &mut bogzhami_answer,
) -> u32
    requires { handle.old.live ≡ true → IfWhole handle.old.held.value
        (λ h. (s : Scan) × (s.input ≡ input.now) × IsAt s h) }
    ensures live { handle.new.live ≡ handle.old.live }
    ensures not_live { handle.old.live ≡ false → (result ≡ status.not_live) × (answer.new ≡ no_answer)
        × (token.new ≡ token.old) × (texts.new ≡ texts.old) }
    ensures peek { handle.old.live ≡ true → IfWhole handle.old.held.value
        (λ h. (s : Scan) → s.input ≡ input.now → IsAt s h → Whole handle.new.held.value
        (λ k. IsPeek s token.old texts.old token.new texts.new k answer.new result)) }
    ensures pieces { handle.old.live ≡ true → IfPieces handle.old.held.value
        (λ h. (handle.new.held.value ≡ handle.old.held.value) × (result ≡ status.not_live)
        × (answer.new ≡ no_answer) × (token.new ≡ token.old) × (texts.new ≡ texts.old)) }
{
    let bogzhami_handle { live, held } = std::mem::replace(handle, closed());
    if !live {
        *answer = counts(0, 0);
        return NOT_LIVE;
    }
    let mut held = into_box(alloc, held);
    let status = peek_of_whole(&mut held, input, token, texts, answer);
    *handle = handle_of(held);
    status
}

/// Gives the next tokens of an input that comes in pieces: whole ones only, as many as both rooms hold, each once no more
/// bytes can change it.
///
/// `window` has all bytes of the input from `from` on that came so far, and `last` says that no more will come.
/// `needed_from` gets the number of the bytes in front of which none is looked at again. Until now that is 0, and so is
/// `from`.
#[unsafe(no_mangle)]
pub extern "C" fn bogzhami_next_piece(
    alloc: Global,
    handle: &mut bogzhami_handle,
    from: u64,
    window: &[u8],
    last: bool,
    tokens: &mut [bogzhami_token],
    texts: &mut [u8],
    answer: &mut bogzhami_answer,
    needed_from: &mut u64,
) -> u32
    requires { handle.old.live ≡ true → IfPieces handle.old.held.value (λ h. IsWindow h from (length window.now) last
        → (s : PiecesScan) × (s.fed.given ≡ window.now) × (s.fed.whole ≡ last) × IsAtPieces s h) }
    ensures live { handle.new.live ≡ handle.old.live }
    ensures needed { needed_from.new ≡ 0 }
    ensures not_live { handle.old.live ≡ false → (result ≡ status.not_live) × (answer.new ≡ no_answer)
        × (rooms tokens.new texts.new ≡ rooms tokens.old texts.old) }
    ensures pieces { handle.old.live ≡ true → IfPieces handle.old.held.value
        (λ h. IsWindow h from (length window.now) last
        → (s : PiecesScan) → s.fed.given ≡ window.now → s.fed.whole ≡ last → IsAtPieces s h
        → Pieces handle.new.held.value
        (λ k. GivesPiece s (rooms tokens.old texts.old) (rooms tokens.new texts.new) k answer.new result)) }
    ensures wrong { handle.old.live ≡ true → IfPieces handle.old.held.value
        (λ h. (IsWindow h from (length window.now) last → ⊥)
        → (handle.new.held.value ≡ handle.old.held.value) × (result ≡ status.wrong) × (answer.new ≡ no_answer)
        × (rooms tokens.new texts.new ≡ rooms tokens.old texts.old)) }
    ensures whole { handle.old.live ≡ true → IfWhole handle.old.held.value
        (λ h. (handle.new.held.value ≡ handle.old.held.value) × (result ≡ status.not_live)
        × (answer.new ≡ no_answer) × (rooms tokens.new texts.new ≡ rooms tokens.old texts.old)) }
{
    let bogzhami_handle { live, held } = std::mem::replace(handle, closed());
    *needed_from = 0;
    if !live {
        *answer = counts(0, 0);
        return NOT_LIVE;
    }
    let mut held = into_box(alloc, held);
    let status = next_of_pieces(&mut held, from, window, last, tokens, texts, answer);
    *handle = handle_of(held);
    status
}

/// How far the last step without a fault was read: bytes of the text in UTF-8, lines and characters, all from 0.
///
/// Returns 0, or 6 if the handle holds no scanner of a whole input; then the mark is zeros.
#[unsafe(no_mangle)]
pub extern "C" fn bogzhami_reach(
    alloc: Global,
    handle: &mut bogzhami_handle,
    mark: &mut bogzhami_mark,
) -> u32
    ensures live { handle.new.live ≡ handle.old.live }
    ensures same { handle.old.live ≡ true → handle.new.held.value ≡ handle.old.held.value }
    ensures not_live { handle.old.live ≡ false → (result ≡ status.not_live) × (mark.new ≡ records.mark_of zero_mark) }
    ensures reach { handle.old.live ≡ true → IfWhole handle.old.held.value (λ h. (result ≡ status.done)
        × ((s : Scan) → IsAt s h → mark.new ≡ records.mark_of (session_reach (course_read s.parser) s.parser.session))) }
    ensures pieces { handle.old.live ≡ true → IfPieces handle.old.held.value (λ h. (result ≡ status.not_live)
        × (mark.new ≡ records.mark_of zero_mark)) }
{
    let bogzhami_handle { live, held } = std::mem::replace(handle, closed());
    *mark = ZERO;
    if !live {
        return NOT_LIVE;
    }
    let held = into_box(alloc, held);
    let status = match &*held {
        held_any_t::WHOLE(whole) => {
            *mark = mark_of(whole.parser.mark());
            DONE
        }
        held_any_t::PIECES(_) => NOT_LIVE,
    };
    *handle = handle_of(held);
    status
}

/// The number of the input's encoding; 0 if the handle holds no scanner of a whole input.
#[unsafe(no_mangle)]
pub extern "C" fn bogzhami_encoding(alloc: Global, handle: &mut bogzhami_handle) -> u32
    ensures live { handle.new.live ≡ handle.old.live }
    ensures same { handle.old.live ≡ true → handle.new.held.value ≡ handle.old.held.value }
    ensures not_live { handle.old.live ≡ false → result ≡ 0 }
    ensures encoding { handle.old.live ≡ true → IfWhole handle.old.held.value (λ h. (s : Scan) → IsAt s h
        → result ≡ encoding_number (decoding.encoding_of s.setting s.input)) }
    ensures pieces { handle.old.live ≡ true → IfPieces handle.old.held.value (λ h. result ≡ 0) }
{
    let bogzhami_handle { live, held } = std::mem::replace(handle, closed());
    if !live {
        return 0;
    }
    let held = into_box(alloc, held);
    let encoding = match &*held {
        held_any_t::WHOLE(whole) => whole.encoding,
        held_any_t::PIECES(_) => 0,
    };
    *handle = handle_of(held);
    encoding
}
