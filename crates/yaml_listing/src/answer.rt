//! The listing of a command's answer to an input.
ghost use Rattle.std.specs.Prelude.{◌≡◌, ◌≤◌, true, map, vec_len, IfOk};
ghost use Rattle.std.specs.List.{list_any};
ghost use Rattle.yaml_scan.specs.ParserCalls.{call_of};
ghost use Rattle.yaml_scan.specs.Seen.{seen_of};
ghost use Rattle.yaml_scan.specs.CallWords.{SeenHaveLines};
ghost use Rattle.yaml_listing.specs.Args.{is_limit, is_right};
ghost use Rattle.yaml_listing.specs.Listing.{is_fault};
ghost use Rattle.yaml_listing.specs.Run.{Lists, ListsDecode, ListsScan, AnswersCalls, ListsCalls, call_for, calls_in};

use crate::args::yaml_command_t;
use crate::line::{put_line, put_scalar_line};
use crate::listing::{list_answers, list_fault, list_text};
use crate::mark::kept_mark_t;
use std::alloc::{AllocError, Global};
use yaml_scan::{
    yaml_answer_t, yaml_call_t, yaml_lent_scalar_t, yaml_parser_t, yaml_run, yaml_scan_to,
    yaml_token_sink_t,
};
use yaml_text::{unnamed_yaml_token_t_data, yaml_decode, yaml_encoding_t, yaml_token_t};

/// The usual key limit, in bytes.
pub(crate) const KEY_LIMIT: u32 = 1024;

/// The line of what the input decodes to, and whether it is a fault's.
fn list_decoded(
    alloc: Global,
    input: &[u8],
    setting: yaml_encoding_t,
) -> Result<(Vec<u8>, bool), AllocError>
    ensures { IfOk result (λ answer. ListsDecode setting input.now answer.0.items answer.1) }
{
    let mut lines = Vec::new(alloc);
    match yaml_decode(alloc, input, setting) {
        Ok(text) => {
            list_text(&text, &mut lines)?;
            Ok((lines, false))
        }
        Err(fault) => {
            list_fault(alloc, &fault, &mut lines)?;
            Ok((lines, true))
        }
    }
}

/// The lines of the tokens that were given, at the beginning of bytes, and the last mark.
#[derive(Drop)]
pub(crate) struct token_lines_t {
    pub(crate) bytes: Vec<u8>,
    pub(crate) len: usize,
    kept: kept_mark_t,
    ghost within: { len ≤ vec_len bytes },
}

impl token_lines_t {
    ghost use Rattle.std.specs.Prelude.{◌≡◌, [], take};

    /// No line.
    pub fn new(alloc: Global) -> token_lines_t
        ensures { take result.len result.bytes.items ≡ [] }
    {
        token_lines_t {
            bytes: Vec::new(alloc),
            len: 0,
            kept: kept_mark_t::new(),
        }
    }

    /// The lines alone.
    pub fn into_lines(self) -> Vec<u8>
        ensures { result.items ≡ take self.len self.bytes.items }
    {
        let token_lines_t {
            mut bytes,
            len,
            kept: _,
        } = self;
        bytes.truncate(len);
        bytes
    }
}

impl yaml_token_sink_t for token_lines_t {
    ghost use Rattle.std.specs.Prelude.{◌≡◌, ◌++◌, take};
    ghost use Rattle.yaml_listing.specs.Listing.{token_lines};
    ghost use Rattle.yaml_listing.specs.inside.TokenLines.{lines_none, lines_more};

    ghost took = { λ a tokens b. take b.len b.bytes.items ≡ take a.len a.bytes.items ++ token_lines tokens };

    ghost may_refuse = { Unit {0} };

    ghost within = { λ s. Unit {0} };

    ghost lacks = { λ s count texts. Unit {0} };

    fn put(&mut self, token: yaml_token_t) -> Result<(), AllocError> {
        self.len = put_line(&mut self.bytes, self.len, &mut self.kept, &token)?;
        Ok(())
    }

    fn put_scalar(&mut self, scalar: &yaml_lent_scalar_t) -> Result<(), AllocError> {
        self.len = put_scalar_line(&mut self.bytes, self.len, &mut self.kept, scalar)?;
        Ok(())
    }

    #[inline(always)]
    fn room(&mut self, alloc: Global) -> Vec<u8> {
        Vec::new(alloc)
    }

    #[inline(always)]
    fn has_room(&self, _count: u128, _texts: u128) -> bool {
        true
    }

    ghost took_none = { λ s. lines_none (take s.len s.bytes.items) };

    ghost took_more = { λ a b c xs ys e f.
        lines_more (take a.len a.bytes.items) (take b.len b.bytes.items) (take c.len c.bytes.items) xs ys e f };

    ghost within_none = { λ a b e w. tt };
}

/// The lines of the tokens of the input and of its fault, and whether it has one. The key limit is in bytes.
fn list_scanned(
    alloc: Global,
    input: &[u8],
    setting: yaml_encoding_t,
    limit: u32,
) -> Result<(Vec<u8>, bool), AllocError>
    requires { is_limit limit ≡ true }
    ensures { IfOk result (λ answer. ListsScan limit setting input.now answer.0.items answer.1) }
{
    let mut sink = token_lines_t::new(alloc);
    let fault = yaml_scan_to(alloc, input, setting, limit, &mut sink)?;
    let mut listing = sink.into_lines();
    match fault {
        Some(fault) => {
            list_fault(alloc, &fault, &mut listing)?;
            Ok((listing, true))
        }
        None => Ok((listing, false)),
    }
}

/// The call that a letter stands for.
fn call_for(letter: u8) -> yaml_call_t
    ensures { result ≡ call_for letter }
{
    match letter {
        b's' => yaml_call_t::SCAN,
        b'p' => yaml_call_t::PEEK,
        _ => yaml_call_t::SKIP,
    }
}

/// The calls that a word spells.
fn calls_in(alloc: Global, word: &str) -> Result<Vec<yaml_call_t>, AllocError>
    ensures { IfOk result (λ calls. calls.items ≡ calls_in word.now) }
{
    word.bytes().map(call_for).collect(alloc)
}

/// Whether an answer is a fault.
fn is_fault(answer: &yaml_answer_t) -> bool
    ensures { result ≡ is_fault (seen_of answer.now) }
{
    matches!(answer, yaml_answer_t::FAULT(_))
}

/// Whether one of the answers is a fault.
fn has_fault(answers: &[yaml_answer_t]) -> bool
    ensures { result ≡ list_any (λ answer. is_fault (seen_of answer)) answers.now }
{
    answers.iter().any(is_fault)
}

/// The answers of a new parser to these calls.
fn called(
    alloc: Global,
    input: &[u8],
    setting: yaml_encoding_t,
    calls: &[yaml_call_t],
) -> Result<Vec<yaml_answer_t>, AllocError>
    ensures answers { IfOk result (λ answers. AnswersCalls setting input.now
        (map call_of calls.now) (map seen_of answers.items)) }
    ensures lines { IfOk result (λ answers. SeenHaveLines (map seen_of answers.items)) }
{
    let mut parser = yaml_parser_t::new(alloc, input, setting);
    let mut answers = Vec::new(alloc);
    yaml_run(&mut parser, calls, &mut answers)?;
    Ok(answers)
}

/// The lines of the answers to the calls that the word spells, and whether a fault is among them.
fn list_called(
    alloc: Global,
    input: &[u8],
    setting: yaml_encoding_t,
    word: &str,
) -> Result<(Vec<u8>, bool), AllocError>
    ensures { IfOk result (λ answer. ListsCalls setting word.now input.now answer.0.items answer.1) }
{
    let calls = calls_in(alloc, word)?;
    let answers = called(alloc, input, setting, &calls)?;
    let mut lines = Vec::new(alloc);
    list_answers(alloc, &answers, &mut lines)?;
    let has_fault = has_fault(&answers);
    Ok((lines, has_fault))
}

/// The listing of the command's answer to the input, and whether a fault's line is in it.
///
/// # Errors
///
/// `AllocError` if there is no memory for the listing.
pub fn answer_to(
    alloc: Global,
    input: &[u8],
    command: &yaml_command_t,
) -> Result<(Vec<u8>, bool), AllocError>
    requires { is_right command.now ≡ true }
    ensures { IfOk result (λ answer. Lists command.now input.now answer.0.items answer.1) }
{
    match command {
        yaml_command_t::Decode(setting) => list_decoded(alloc, input, *setting),
        yaml_command_t::Scan(setting) => list_scanned(alloc, input, *setting, KEY_LIMIT),
        yaml_command_t::ScanLimit(setting, limit) => list_scanned(alloc, input, *setting, *limit),
        yaml_command_t::Calls(setting, word) => list_called(alloc, input, *setting, word),
    }
}
