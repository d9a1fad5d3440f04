//! Calls on a handle whose input comes in pieces, as a C program makes them. The number 77 stands for what was there
//! before.
ghost use Rattle.std.specs.Prelude.{◌≡◌, ◌≤◌, IfOk, true};
ghost use Rattle.yaml_c.specs.Kinds.{Pieces};
ghost use Rattle.yaml_c.specs.PiecesHeld.{PiecesScan, IsAtPieces};

use super::*;
use crate::handle::closed;
use crate::tests::{NO_ANSWER, NO_TOKEN};
use std::alloc::AllocError;
use std::process::Abort;
use std::test::Fail;

/// A handle, what came of the input of its scanner, and whether that is all.
#[derive(Drop)]
struct course_t {
    handle: bogzhami_handle,
    came: Vec<u8>,
    last: bool,
}

/// The status of a call, how many tokens it gives, the type of the first, how many bytes the texts have, and from which
/// byte on the input is needed.
type answer_t = (u32, u64, u32, u64, u64);

impl course_t {
    /// A scanner to which nothing came, unless memory was refused.
    fn new(rt: HostRuntime) -> course_t
        ensures { result.handle.live ≡ true → Pieces result.handle.held.value (λ h. (s : PiecesScan)
            × (s.fed.given ≡ result.came.items) × (s.fed.whole ≡ result.last) × IsAtPieces s h) }
    {
        let mut handle = closed();
        let _status = bogzhami_open_pieces(rt.alloc(), &mut handle, 0, 1024);
        course_t {
            handle,
            came: Vec::new(rt.alloc()),
            last: false,
        }
    }

    /// Bytes come, if not all came. `last`: these are the last.
    fn come(&mut self, bytes: &[u8], last: bool) -> Result<(), AllocError>
        requires { self.old.handle.live ≡ true → Pieces self.old.handle.held.value (λ h. (s : PiecesScan)
            × (s.fed.given ≡ self.old.came.items) × (s.fed.whole ≡ self.old.last) × IsAtPieces s h) }
        ensures { IfOk result (λ u. self.new.handle.live ≡ true → Pieces self.new.handle.held.value (λ h. (s : PiecesScan)
            × (s.fed.given ≡ self.new.came.items) × (s.fed.whole ≡ self.new.last) × IsAtPieces s h)) }
    {
        if self.last {
            return Ok(());
        }
        self.came.extend_from_slice(bytes)?;
        self.last = last;
        Ok(())
    }

    /// Makes a call with a window that begins there, and room for so many tokens and bytes.
    fn call(&mut self, rt: HostRuntime, from: u64, count: usize, len: usize) -> answer_t
        requires count { count ≤ 8 }
        requires len { len ≤ 128 }
        requires at { self.old.handle.live ≡ true → Pieces self.old.handle.held.value (λ h. (s : PiecesScan)
            × (s.fed.given ≡ self.old.came.items) × (s.fed.whole ≡ self.old.last) × IsAtPieces s h) }
        ensures { self.new.handle.live ≡ true → Pieces self.new.handle.held.value (λ h. (s : PiecesScan)
            × (s.fed.given ≡ self.new.came.items) × (s.fed.whole ≡ self.new.last) × IsAtPieces s h) }
    {
        let mut tokens = [NO_TOKEN; 8];
        let mut texts = [77u8; 128];
        let mut answer = NO_ANSWER;
        let mut needed = 77;
        let status = bogzhami_next_piece(
            rt.alloc(),
            &mut self.handle,
            from,
            self.came.as_slice(),
            self.last,
            &mut tokens[..count],
            &mut texts[..len],
            &mut answer,
            &mut needed,
        );
        (
            status,
            answer.token_count,
            tokens[0].token_type,
            answer.text_len,
            needed,
        )
    }
}

/// The answer to the call after all of an input came at once.
fn first_answer(rt: HostRuntime, input: &[u8]) -> Result<answer_t, AllocError> {
    let mut course = course_t::new(rt);
    course.come(input, true)?;
    Ok(course.call(rt, 0, 8, 128))
}

/// Tokens come once eight characters follow them, or at the end.
#[test]
fn tokens_of_pieces_come_when_they_settle(rt: HostRuntime) -> Result<(), Fail> {
    let mut course = course_t::new(rt);
    assert_eq!(rt; course.call(rt, 0, 8, 128), (7, 0, 77, 0, 0));
    course.come(b"a: b\nc: d\n", false)?;
    assert_eq!(rt; course.call(rt, 0, 8, 128), (7, 5, 1, 1, 0));
    assert_eq!(rt; course.call(rt, 0, 8, 128), (7, 0, 77, 0, 0));
    course.come(b"", true)?;
    assert_eq!(rt; course.call(rt, 0, 8, 128), (0, 7, 21, 3, 0));
    assert_eq!(rt; course.call(rt, 0, 8, 128), (4, 0, 77, 0, 0));
    let _ = bogzhami_close(rt.alloc(), &mut course.handle);
    Ok(())
}

/// A token of pieces whose text finds no room is given by a later call that has the room, and what is needed is told
/// until then.
#[test]
fn text_of_pieces_waits_for_its_room(rt: HostRuntime) -> Result<(), Fail> {
    let mut course = course_t::new(rt);
    course.come(b"ab", true)?;
    assert_eq!(rt; course.call(rt, 0, 8, 1), (0, 1, 1, 0, 0));
    assert_eq!(rt; course.call(rt, 0, 8, 1), (5, 0, 77, 2, 0));
    assert_eq!(rt; course.call(rt, 0, 0, 2), (0, 0, 77, 0, 0));
    assert_eq!(rt; course.call(rt, 0, 8, 2), (0, 2, 21, 2, 0));
    assert_eq!(rt; course.call(rt, 0, 8, 2), (4, 0, 77, 0, 0));
    let _ = bogzhami_close(rt.alloc(), &mut course.handle);
    Ok(())
}

/// The fault of pieces comes once, after the tokens before it, and then nothing.
#[test]
fn fault_of_pieces_comes_once(rt: HostRuntime) -> Result<(), Fail> {
    let mut course = course_t::new(rt);
    course.come(b"@", false)?;
    assert_eq!(rt; course.call(rt, 0, 8, 128), (7, 0, 77, 0, 0));
    course.come(b"abcdefg", false)?;
    assert_eq!(rt; course.call(rt, 0, 8, 128), (1, 1, 1, 0, 0));
    assert_eq!(rt; course.call(rt, 0, 8, 128), (4, 0, 77, 0, 0));
    let _ = bogzhami_close(rt.alloc(), &mut course.handle);
    Ok(())
}

/// The fault of pieces waits for the room that its texts need: 43 bytes for the problem, and 33 for the context.
#[test]
fn fault_of_pieces_waits_for_its_room(rt: HostRuntime) -> Result<(), Fail> {
    let mut course = course_t::new(rt);
    course.come(b"@", true)?;
    assert_eq!(rt; course.call(rt, 0, 8, 75), (0, 1, 1, 0, 0));
    assert_eq!(rt; course.call(rt, 0, 8, 75), (5, 0, 77, 76, 0));
    assert_eq!(rt; course.call(rt, 0, 8, 76), (1, 0, 77, 0, 0));
    assert_eq!(rt; course.call(rt, 0, 8, 76), (4, 0, 77, 0, 0));
    let _ = bogzhami_close(rt.alloc(), &mut course.handle);
    Ok(())
}

/// A window that does not begin with the input is wrong, and changes nothing.
#[test]
fn window_begins_with_the_input(rt: HostRuntime) -> Result<(), Fail> {
    let mut course = course_t::new(rt);
    course.come(b"ab", true)?;
    assert_eq!(rt; course.call(rt, 1, 8, 128), (2, 0, 77, 0, 0));
    assert_eq!(rt; course.call(rt, 0, 8, 128), (0, 3, 1, 2, 0));
    let _ = bogzhami_close(rt.alloc(), &mut course.handle);
    Ok(())
}

/// In UTF-16 tokens come at the end.
#[test]
fn pieces_in_utf16_wait_for_their_end(rt: HostRuntime) -> Result<(), Fail> {
    let mut course = course_t::new(rt);
    course.come(b"\xFF\xFEa\0", false)?;
    assert_eq!(rt; course.call(rt, 0, 8, 128), (8, 0, 77, 0, 0));
    course.come(b"b\0", true)?;
    assert_eq!(rt; course.call(rt, 0, 8, 128), (0, 3, 1, 2, 0));
    let _ = bogzhami_close(rt.alloc(), &mut course.handle);
    Ok(())
}

/// A key of two bytes is one under the limit of 1,024.
#[test]
fn pieces_keep_their_key_limit(rt: HostRuntime) -> Result<(), Fail> {
    assert_eq!(rt; first_answer(rt, b"ab: c\n")?, (0, 8, 1, 3, 0));
    Ok(())
}
