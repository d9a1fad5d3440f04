//! The texts of marks. The digits of a number that comes again are kept.
ghost use Rattle.std.specs.Prelude.{◌≡◌, ◌++◌, ◌∷◌, ◌+◌, ◌≤◌};
ghost use Rattle.std.specs.Prelude.{codes, take, length};
ghost use Rattle.std.specs.Fmt.{decimal};
ghost use Rattle.yaml_listing.specs.Listing.{mark_text};
ghost use Rattle.yaml_listing.specs.inside.Put.{Puts};

use crate::put::{set_decimal, set_small, set_two};
use std::alloc::AllocError;
use yaml_text::yaml_mark_t;

/// There is room for a space and a mark, and for the row of a number after its beginning.
pub const MARK: usize = 72;

/// A row has room for a byte and the digits of a number, and for a name.
pub const ROW: usize = 24;

/// Writes the beginning of a row at a place, and returns where it ends. The rest of the row stands after it.
#[inline(always)]
pub fn set_row(buffer: &mut [u8], at: usize, row: &[u8; ROW], len: usize) -> usize
    requires short { len ≤ 24 }
    requires room { at + 24 ≤ length buffer.old }
    ensures text { take result buffer.new ≡ take at buffer.old ++ take len row.now }
    ensures place { result ≡ at + len }
{
    let row = *row;
    buffer[at..at + ROW].copy_from_slice(&row);
    at + len
}

/// A byte and the digits of a number, at the beginning of a row.
#[derive(Drop)]
struct kept_number_t {
    lead: u8,
    number: u64,
    row: [u8; ROW],
    len: usize,
    ghost short: { len ≤ 21 },
    ghost text: { take len row ≡ lead ∷ decimal number },
}

impl kept_number_t {
    /// A byte and the number 0.
    fn new(lead: u8) -> Self
        ensures { result.lead ≡ lead }
    {
        let mut row = [b'0'; ROW];
        row[0] = lead;
        kept_number_t {
            lead,
            number: 0,
            row,
            len: 2,
        }
    }

    /// Makes the digits of another number.
    #[inline(never)]
    fn turn(&mut self, number: u64)
        ensures number { self.new.number ≡ number }
        ensures lead { self.new.lead ≡ self.old.lead }
    {
        self.row[0] = self.lead;
        self.len = set_decimal(&mut self.row, 1, number);
        self.number = number;
    }

    /// Writes the byte and the digits of a number at a place, and returns where they end.
    #[inline(always)]
    fn set(&mut self, buffer: &mut [u8], at: usize, number: u64) -> usize
        requires { at + 24 ≤ length buffer.old }
        ensures text { take result buffer.new ≡ take at buffer.old ++ (self.old.lead ∷ decimal number) }
        ensures low { at ≤ result }
        ensures high { result ≤ at + 21 }
        ensures lead { self.new.lead ≡ self.old.lead }
    {
        if number != self.number {
            self.turn(number);
        }
        set_row(buffer, at, &self.row, self.len)
    }
}

/// The numbers of the last mark that may come again: the index without its last two digits, and the line.
#[derive(Drop)]
pub struct kept_mark_t {
    hundreds: kept_number_t,
    line: kept_number_t,
    ghost space: { hundreds.lead ≡ 32 },
    ghost colon: { line.lead ≡ 58 },
}

impl kept_mark_t {
    /// No mark is the last one.
    pub fn new() -> Self {
        kept_mark_t {
            hundreds: kept_number_t::new(b' '),
            line: kept_number_t::new(b':'),
        }
    }

    /// Writes a space and an index at a place, and returns where it ends.
    #[inline(always)]
    fn set_index(&mut self, buffer: &mut [u8], at: usize, index: u64) -> usize
        requires { at + 24 ≤ length buffer.old }
        ensures text { take result buffer.new ≡ take at buffer.old ++ (codes " " ++ decimal index) }
        ensures low { at ≤ result }
        ensures high { result ≤ at + 23 }
    {
        if index >= 100 {
            let end = self.hundreds.set(buffer, at, index / 100);
            set_two(buffer, end, index % 100)
        } else {
            buffer[at] = b' ';
            set_small(buffer, at + 1, index)
        }
    }

    /// Writes a space and a mark at a place, and returns where it ends.
    #[inline(always)]
    pub fn set(&mut self, buffer: &mut [u8], at: usize, mark: yaml_mark_t) -> usize
        requires { at + 72 ≤ length buffer.old }
        ensures text { take result buffer.new ≡ take at buffer.old ++ (codes " " ++ mark_text mark) }
        ensures low { at ≤ result }
        ensures high { result ≤ at + 72 }
    {
        let line = self.set_index(buffer, at, mark.index);
        let colon = self.line.set(buffer, line, mark.line);
        buffer[colon] = b':';
        set_decimal(buffer, colon + 1, mark.column)
    }
}

/// Appends a space and a mark to `out`.
pub fn put_mark(out: &mut Vec<u8>, mark: yaml_mark_t) -> Result<(), AllocError>
    ensures { Puts result out.old.items (codes " " ++ mark_text mark) out.new.items }
{
    let mut buffer = [0u8; MARK];
    let end = kept_mark_t::new().set(&mut buffer, 0, mark);
    out.extend_from_slice(&buffer[..end])
}
