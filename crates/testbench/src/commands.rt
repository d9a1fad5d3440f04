//! The commands that make calls, and the words of each.
ghost use Rattle.std.specs.Prelude.{◌≤◌};

use crate::batches::{give_all, give_pieces, take_batches};
use crate::session::{
    MOST, MOST_KEY_LIMIT, call_bare, checked_limit, checked_setting, decode, make_calls, parser_of,
    read_front, read_input, run_words, scan_all, start_t, wrong_words,
};
use crate::words::word_at;
use std::io;
use yaml_scan::{yaml_encoding_t, yaml_parser_t};

/// Runs a command that has an encoding setting alone on an input.
fn list_text(
    rt: &HostRuntime,
    command: &str,
    input: &[u8],
    setting: yaml_encoding_t,
) -> io::Result<()> {
    match command {
        "bare" => call_bare(rt, input, setting),
        "front" => read_front(rt, input, setting),
        _ => decode(rt, input, setting),
    }
}

/// Runs a command that makes calls on a parser.
fn call_parser(
    rt: &HostRuntime,
    command: &str,
    parser: &mut yaml_parser_t,
    words: &[String],
) -> io::Result<()> {
    match command {
        "each" => make_calls(&mut rt.stdout(), parser, word_at(words, 0)),
        "batches" => take_batches(&mut rt.stdout(), parser, words),
        _ => Err(wrong_words()),
    }
}

/// Runs a command that has a key limit and further words.
fn list_tokens(rt: &HostRuntime, command: &str, start: start_t, words: &[String]) -> io::Result<()>
    requires least { 1 ≤ start.limit }
    requires most { start.limit ≤ MOST_KEY_LIMIT }
{
    match command {
        "all" => scan_all(rt, start),
        "to" => give_all(rt, start, words),
        "pieces" => give_pieces(rt, start, words),
        _ => call_parser(rt, command, &mut parser_of(rt.alloc(), start), words),
    }
}

/// Reads the input, and runs a command that has an encoding setting alone.
fn read_text(rt: &HostRuntime, command: &str, setting: yaml_encoding_t) -> io::Result<()> {
    let mut room = [0u8; MOST];
    let count = read_input(&mut rt.stdin(), &mut room)?;
    list_text(rt, command, &room[..count], setting)
}

/// Reads the input, and runs a command that has an encoding setting, a key limit, which is the first of the words, and
/// further words.
fn read_tokens(
    rt: &HostRuntime,
    command: &str,
    setting: yaml_encoding_t,
    words: &[String],
) -> io::Result<()> {
    let [limit, words @ ..] = words else {
        return Err(wrong_words());
    };
    let limit = checked_limit(limit.as_str())?;
    if command == "calls" {
        return run_words(rt, setting, limit, words);
    }
    let mut room = [0u8; MOST];
    let count = read_input(&mut rt.stdin(), &mut room)?;
    let input = &room[..count];
    let start = start_t {
        input,
        setting,
        limit,
    };
    list_tokens(rt, command, start, words)
}

/// Runs the command of the words: `each ENC LIMIT WORD`, `calls ENC LIMIT WORD..`, `all ENC LIMIT`,
/// `batches ENC LIMIT COUNT BYTES`, `to ENC LIMIT COUNT BYTES`, `pieces ENC LIMIT COUNT SIZE`, `decode ENC`, `front ENC` or `bare ENC`.
///
/// # Errors
///
/// `InvalidInput` if the words are no command, and otherwise the error of the read, the write or the request for memory
/// that failed.
pub fn list_session(rt: &HostRuntime, words: &[String]) -> io::Result<()> {
    let [command, setting, rest @ ..] = words else {
        return Err(wrong_words());
    };
    let setting = checked_setting(setting.as_str())?;
    if rest.is_empty() {
        return read_text(rt, command.as_str(), setting);
    }
    read_tokens(rt, command.as_str(), setting, rest)
}
