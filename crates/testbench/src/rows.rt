//! Calls on many inputs, one input after the other.
ghost use Rattle.std.specs.Prelude.{◌≤◌};

use crate::session::{
    MOST_KEY_LIMIT, call_of, checked_limit, checked_setting, make_call, parser_of, start_t,
    wrong_words,
};
use crate::words::bytes_of;
use std::alloc::Global;
use std::io;
use std::io::Write;
use yaml_scan::yaml_parser_t;

/// Makes the calls of a word on a parser, and writes the answers and an empty line.
fn answer_calls(out: &mut impl Write, parser: &mut yaml_parser_t, word: &str) -> io::Result<()> {
    for letter in word.bytes() {
        make_call(out, parser, call_of(letter))?;
    }
    writeln!(out)
}

/// The bytes that a word spells in hexadecimal, or the error for words that are no command.
fn checked_bytes(alloc: Global, word: &str) -> io::Result<Vec<u8>> {
    bytes_of(alloc, word)?.ok_or(wrong_words())
}

/// Makes the calls of a word on a new parser, and writes the answers and an empty line.
fn answer_start(alloc: Global, out: &mut impl Write, start: start_t, word: &str) -> io::Result<()>
    requires least { 1 ≤ start.limit }
    requires most { start.limit ≤ MOST_KEY_LIMIT }
{
    answer_calls(out, &mut parser_of(alloc, start), word)
}

/// Makes the calls of the words `ENC LIMIT WORD INPUT`, and writes the answers and an empty line.
fn answer_words(alloc: Global, out: &mut impl Write, words: &[&str]) -> io::Result<()> {
    let [setting, limit, word, input] = words else {
        return Err(wrong_words());
    };
    let (setting, limit) = (checked_setting(setting)?, checked_limit(limit)?);
    let bytes = checked_bytes(alloc, input)?;
    let input = bytes.as_slice();
    let start = start_t {
        input,
        setting,
        limit,
    };
    answer_start(alloc, out, start, word)
}

/// Makes the calls of a line `ENC LIMIT WORD INPUT`, one by one, on a parser of its own. Writes the answers and an
/// empty line.
///
/// # Errors
///
/// `InvalidInput` if the line is no `ENC LIMIT WORD INPUT`, with the input in hexadecimal, and otherwise the error of
/// the write or the request for memory that failed.
pub fn answer_row(alloc: Global, out: &mut impl Write, line: &str) -> io::Result<()> {
    let words: Vec<&str> = line.split(' ').collect(alloc)?;
    answer_words(alloc, out, words.as_slice())
}
