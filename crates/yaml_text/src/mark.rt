//! The marks of a text's places, and where its last characters begin.
ghost use Rattle.std.specs.Prelude.{ℕ, ◌≡◌, ◌+◌, ◌-◌, ◌<◌, ◌≤◌, ◌^◌, ◌↔◌, ◌&&◌, [], true, false, not, nat_le, nat_lt};
ghost use Rattle.std.specs.Prelude.{length, take, slice_index, if◌then◌else◌, IsTrue};
ghost use Rattle.yaml_text.specs.Chars.{utf8};
ghost use Rattle.yaml_text.specs.TextBytes.{AreChars};
ghost use Rattle.yaml_text.specs.Classes.{is_break};
ghost use Rattle.yaml_text.specs.ClassCalls.{is_crlf_at};
ghost use Rattle.yaml_text.specs.Utf8.{width_of, continues};
ghost use Rattle.yaml_text.specs.Mark.{mark_of, cuts_break, IsPlace, IsPlaceAt, mark_at, index_from_end};
ghost use Rattle.yaml_text.specs.inside.Cursor.{past, first_break_len, step_len, is_place_by};

use crate::classes::{IS_BREAK, IS_CRLF, WIDTH};
use crate::text::yaml_text_t;
use crate::types::yaml_mark_t;
use crate::utf8::continues;
use std::marker::Model;

/// A place that moves through a text, with the mark that is counted on the way.
#[derive(Drop)]
struct mark_counter_t<'a> {
    bytes: &'a [u8],
    mark: yaml_mark_t,
}

impl<'a> Model for mark_counter_t<'a> {
    ghost use Rattle.yaml_text.specs.inside.Cursor.{At, IsAt, at_of};

    ghost Value = { At };

    ghost view = { λ c. at_of c.bytes.now c.mark };

    ghost invariant = { λ c. IsAt c.bytes.now c.mark };
}

/// How many bytes the break there has.
fn break_width(s: &[u8], at: usize) -> usize
    ensures { result ≡ (if is_crlf_at s.now at then 2 else width_of (slice_index s.now at)) }
{
    if IS_CRLF(s, at) { 2 } else { WIDTH(s, at) }
}

impl<'a> mark_counter_t<'a> {
    /// The front of a text.
    fn new(text: &'a yaml_text_t<'_>) -> mark_counter_t<'a>
        ensures { result ≡ record { before = []; left = text.now.chars } }
    {
        mark_counter_t {
            bytes: text.bytes(),
            mark: yaml_mark_t {
                index: 0,
                line: 0,
                column: 0,
            },
        }
    }

    /// The mark of the place.
    fn mark(&self) -> yaml_mark_t
        ensures mark { result ≡ mark_of self.now.before }
        ensures whole { cuts_break self.now.before self.now.left ≡ false }
    {
        self.mark
    }

    /// Whether a break is here.
    fn is_break(&self) -> bool
        ensures { result ≡ is_break (slice_index self.now.left 0) }
    {
        IS_BREAK(self.bytes, self.mark.index as usize)
    }

    /// Goes past a character that is no break.
    fn skip(&mut self)
        requires some { 0 < length self.old.left }
        requires no_break { is_break (slice_index self.old.left 0) ≡ false }
        ensures { self.new ≡ past 1 self.old }
    {
        let width = WIDTH(self.bytes, self.mark.index as usize);
        self.mark.index += width as u64;
        self.mark.column += 1;
    }

    /// Goes past a break.
    fn skip_line(&mut self)
        requires { is_break (slice_index self.old.left 0) ≡ true }
        ensures { self.new ≡ past (first_break_len self.old.left) self.old }
    {
        let at = self.mark.index as usize;
        let width = break_width(self.bytes, at);
        self.mark.index += width as u64;
        self.mark.line += 1;
        self.mark.column = 0;
    }

    /// Goes to the next place.
    fn advance(&mut self)
        requires { 0 < length self.old.left }
        ensures place { self.new ≡ past (step_len self.old.left) self.old }
        ensures shorter { length self.new.left < length self.old.left }
    {
        if self.is_break() {
            self.skip_line();
        } else {
            self.skip();
        }
    }
}

/// Whether the index is the start of a character or the end.
fn is_start(bytes: &[u8], index: usize) -> bool
    ensures { result ≡ (nat_le index (length bytes.now) && not (continues (slice_index bytes.now index))) }
{
    match bytes.get(index) {
        Some(b) => !continues(*b),
        None => index == bytes.len(),
    }
}

/// Whether CR is before the index, and LF at it.
fn parts_crlf(bytes: &[u8], index: usize) -> bool
    ensures { result ≡ (nat_lt 0 index && is_crlf_at bytes.now (index - 1)) }
{
    index > 0 && IS_CRLF(bytes, index - 1)
}

fn is_place_by(bytes: &[u8], index: usize) -> bool
    ensures { result ≡ is_place_by bytes.now index }
{
    is_start(bytes, index) && !parts_crlf(bytes, index)
}

/// Whether the index, in bytes of the text in UTF-8 from 0, is the start of a character or the end, and not
/// between the two characters of a CR LF.
pub fn yaml_is_place(text: &yaml_text_t, index: usize) -> bool
    ensures { IsTrue result ↔ IsPlace text.now.chars index }
{
    is_place_by(text.bytes(), index)
}

/// The mark of the place at an index, in bytes of the text in UTF-8 from 0: that index, how many breaks end
/// before it, and how many characters come after the last of them. CR LF is one break (YAML 1.1, section 5.4).
/// The mark is counted from the front. The index must be a place (`yaml_is_place`).
pub fn yaml_mark_at(text: &yaml_text_t, index: usize) -> yaml_mark_t
    requires { IsPlace text.now.chars index }
    ensures { (p : ℕ) → IsPlaceAt text.now.chars index p → result ≡ mark_at text.now.chars p }
{
    let mut cursor = mark_counter_t::new(text);
    while (cursor.mark().index as usize) < index {
        cursor.advance();
    }
    cursor.mark()
}

/// The index, in bytes of the text in UTF-8 from 0, at which its last `count` characters begin: that many characters
/// follow it, or all of them, if the text has fewer. Only the bytes of these characters are looked at, from the end.
/// The index may be between the two characters of a CR LF, and then it is no place (`yaml_is_place`).
pub fn yaml_index_from_end(text: &yaml_text_t, count: usize) -> usize
    ensures index { result ≡ index_from_end text.now.chars count }
    ensures few { (p : ℕ) → p ≤ length text.now.chars
        → (result ≤ length (utf8 (take p text.now.chars)) ↔ length text.now.chars - p ≤ count) }
    ensures small { length (utf8 text.now.chars) < 2 ^ 63 }
    ensures characters { AreChars text.now.chars }
{
    let bytes = text.bytes();
    let mut at = bytes.len();
    let mut left = count;
    'back: while at > 0 && left > 0 {
        at -= 1;
        if !continues(bytes[at]) {
            left -= 1;
        }
    }
    at
}
