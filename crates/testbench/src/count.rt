//! How many tokens an input has, taken in one of several ways.
ghost use Rattle.std.specs.Prelude.{◌≤◌};

use crate::kept::by_kept;
use crate::pieces::by_pieces;
use crate::session::{MOST_KEY_LIMIT, parser_of, start_t, wrong_words};
use std::alloc::{AllocError, Global};
use std::io;
use yaml_scan::{
    unnamed_yaml_token_t_data, yaml_answer_t, yaml_call_t, yaml_fault_t, yaml_lent_scalar_t,
    yaml_parser_has_token, yaml_parser_peek, yaml_parser_scan, yaml_parser_skip, yaml_parser_t,
    yaml_run, yaml_scan_all, yaml_scan_all_limit, yaml_scan_next, yaml_scan_next_to, yaml_scan_to,
    yaml_token_sink_t, yaml_token_t, yaml_token_type_t,
};

/// For how many tokens a list of calls is, and a sink has room at a call.
const MANY: usize = 256;

/// The tokens that were counted, and the fault that came after them, if one did.
#[derive(Drop)]
pub struct count_t {
    tokens: u64,
    fault: Option<yaml_fault_t>,
    /// Whether the stream end or the fault came.
    pub over: bool,
}

impl count_t {
    fn new() -> count_t {
        count_t {
            tokens: 0,
            fault: None,
            over: false,
        }
    }

    /// Counts a token.
    fn take(&mut self, token: &yaml_token_t) {
        self.tokens = self.tokens.wrapping_add(1);
        self.over = matches!(token.token_data, unnamed_yaml_token_t_data::STREAM_END);
    }

    /// Counts a token of which only the type is told.
    fn show(&mut self, kind: yaml_token_type_t) {
        self.tokens = self.tokens.wrapping_add(1);
        self.over = matches!(kind, yaml_token_type_t::YAML_STREAM_END_TOKEN);
    }

    /// Keeps the fault that came.
    pub fn end(&mut self, fault: yaml_fault_t) {
        self.fault = Some(fault);
        self.over = true;
    }
}

/// Counts the tokens that it is given. At each call it has room for so many.
#[derive(Drop)]
pub struct tally_t {
    pub count: count_t,
    pub room: u128,
}

impl tally_t {
    pub fn new(room: u128) -> tally_t {
        tally_t {
            count: count_t::new(),
            room,
        }
    }
}

impl yaml_token_sink_t for tally_t {
    ghost took = { λ _ _ _. Unit {0} };

    ghost may_refuse = { ⊥ };

    ghost within = { λ _. Unit {0} };

    ghost lacks = { λ s count texts. Unit {0} };

    fn put(&mut self, token: yaml_token_t) -> Result<(), AllocError> {
        self.count.take(&token);
        self.room = self.room.saturating_sub(1);
        Ok(())
    }

    fn put_scalar(&mut self, _scalar: &yaml_lent_scalar_t) -> Result<(), AllocError> {
        self.count.show(yaml_token_type_t::YAML_SCALAR_TOKEN);
        self.room = self.room.saturating_sub(1);
        Ok(())
    }

    fn room(&mut self, alloc: Global) -> Vec<u8> {
        Vec::new(alloc)
    }

    fn has_room(&self, count: u128, _texts: u128) -> bool {
        count <= self.room
    }

    ghost took_none = { λ _. tt };

    ghost took_more = { λ _ _ _ _ _ _ _. tt };

    ghost within_none = { λ _ _ _ _. tt };
}

/// Takes all tokens by scans.
fn by_scans(parser: &mut yaml_parser_t) -> count_t {
    let mut count = count_t::new();
    'tokens: for _ in 0..u64::MAX {
        match yaml_parser_scan(parser) {
            Ok(token) => count.take(&token),
            Err(fault) => count.end(fault),
        }
        if count.over {
            break;
        }
    }
    count
}

/// Takes all tokens by scans that say whether a token is the last.
fn by_next(parser: &mut yaml_parser_t) -> count_t {
    let mut count = count_t::new();
    'tokens: for _ in 0..u64::MAX {
        match yaml_scan_next(parser) {
            Ok((token, last)) => {
                count.take(&token);
                count.over = last;
            }
            Err(fault) => count.end(fault),
        }
        if count.over {
            break;
        }
    }
    count
}

/// Takes all tokens by a peek and a skip for each.
fn by_skips(parser: &mut yaml_parser_t) -> count_t {
    let mut count = count_t::new();
    'tokens: for _ in 0..u64::MAX {
        match yaml_parser_peek(parser) {
            Ok(token) => count.take(token),
            Err(fault) => count.end(fault),
        }
        if yaml_parser_has_token(parser) {
            yaml_parser_skip(parser);
        }
        if count.over {
            break;
        }
    }
    count
}

/// Counts the tokens among the answers, up to the stream end or the fault.
fn count_answers(count: &mut count_t, answers: &[yaml_answer_t]) {
    for answer in answers {
        if count.over {
            break;
        }
        match answer {
            yaml_answer_t::TOKEN(token) => count.take(token),
            yaml_answer_t::PEEKED(kind, _, _) => count.show(*kind),
            yaml_answer_t::FAULT(fault) => count.end(*fault),
            _ => {}
        }
    }
}

/// A list that has some calls so many times.
fn list_of(
    alloc: Global,
    calls: &[yaml_call_t],
    times: usize,
) -> Result<Vec<yaml_call_t>, AllocError> {
    let mut list = Vec::new(alloc);
    for _ in 0..times {
        list.extend_from_slice(calls)?;
    }
    Ok(list)
}

/// Counts the tokens that a list of calls takes.
fn count_list(
    alloc: Global,
    parser: &mut yaml_parser_t,
    calls: &[yaml_call_t],
    count: &mut count_t,
) -> Result<(), AllocError> {
    let mut answers = Vec::new(alloc);
    yaml_run(parser, calls, &mut answers)?;
    count_answers(count, &answers);
    Ok(())
}

/// Takes all tokens by lists that have the calls for a token many times.
fn by_lists(
    alloc: Global,
    parser: &mut yaml_parser_t,
    calls: &[yaml_call_t],
) -> Result<count_t, AllocError> {
    let mut count = count_t::new();
    let list = list_of(alloc, calls, MANY)?;
    'lists: for _ in 0..u64::MAX {
        count_list(alloc, parser, &list, &mut count)?;
        if count.over {
            break;
        }
    }
    Ok(count)
}

/// Takes all tokens by lists that have the calls for a token once, twice, four times and so on.
fn by_longer_lists(
    alloc: Global,
    parser: &mut yaml_parser_t,
    calls: &[yaml_call_t],
) -> Result<count_t, AllocError> {
    let mut count = count_t::new();
    let mut list = list_of(alloc, calls, 1)?;
    'lists: for _ in 0..u64::MAX {
        count_list(alloc, parser, &list, &mut count)?;
        if count.over {
            break;
        }
        list = list_of(alloc, &list, 2)?;
    }
    Ok(count)
}

/// Counts the tokens of a list, and the fault after them, if one is.
fn count_listed(tokens: &[yaml_token_t], fault: Option<yaml_fault_t>) -> count_t {
    let mut count = count_t::new();
    for token in tokens {
        count.take(token);
    }
    if let Some(fault) = fault {
        count.end(fault);
    }
    count
}

/// Has all tokens put in a list, with the usual key limit.
fn by_all(alloc: Global, start: start_t) -> Result<count_t, AllocError> {
    let (tokens, fault) = yaml_scan_all(alloc, start.input, start.setting)?;
    Ok(count_listed(&tokens, fault))
}

/// Has all tokens put in a list.
fn by_all_limit(alloc: Global, start: start_t) -> Result<count_t, AllocError>
    requires least { 1 ≤ start.limit }
    requires most { start.limit ≤ MOST_KEY_LIMIT }
{
    let (tokens, fault) = yaml_scan_all_limit(alloc, start.input, start.setting, start.limit)?;
    Ok(count_listed(&tokens, fault))
}

/// Has all tokens given to one sink.
fn by_sink(alloc: Global, start: start_t) -> Result<count_t, AllocError>
    requires least { 1 ≤ start.limit }
    requires most { start.limit ≤ MOST_KEY_LIMIT }
{
    let mut tally = tally_t::new(u128::MAX);
    let given = yaml_scan_to(alloc, start.input, start.setting, start.limit, &mut tally)?;
    if let Some(fault) = given {
        tally.count.end(fault);
    }
    Ok(tally.count)
}

/// Takes all tokens by calls that give some to a sink, which has room for so many at each call.
fn by_batches(parser: &mut yaml_parser_t, room: u128) -> count_t {
    let mut tally = tally_t::new(room);
    'calls: for _ in 0..u64::MAX {
        tally.room = room;
        match yaml_scan_next_to(parser, &mut tally) {
            Ok(Some(token)) => tally.count.take(&token),
            Ok(None) => {}
            Err(fault) => tally.count.end(fault),
        }
        if tally.count.over {
            break;
        }
    }
    tally.count
}

/// Counts the tokens of a parser that lists of calls take, in the way of a word.
///
/// # Errors
///
/// `InvalidInput` if the word is no way of lists, or the error of a request for memory that failed outside of the
/// scanner.
fn count_by_lists(alloc: Global, parser: &mut yaml_parser_t, way: &str) -> io::Result<count_t> {
    let scan = [yaml_call_t::SCAN];
    let skip = [yaml_call_t::PEEK, yaml_call_t::SKIP];
    match way {
        "lists" => Ok(by_lists(alloc, parser, &scan)?),
        "skip-lists" => Ok(by_lists(alloc, parser, &skip)?),
        "longer-lists" => Ok(by_longer_lists(alloc, parser, &scan)?),
        "longer-skip-lists" => Ok(by_longer_lists(alloc, parser, &skip)?),
        _ => Err(wrong_words()),
    }
}

/// Counts the tokens of a parser in the way of a word.
///
/// # Errors
///
/// As [`count_by_lists`].
fn count_by(alloc: Global, parser: &mut yaml_parser_t, way: &str) -> io::Result<count_t> {
    match way {
        "scans" => Ok(by_scans(parser)),
        "next" => Ok(by_next(parser)),
        "skips" => Ok(by_skips(parser)),
        "batches" => Ok(by_batches(parser, MANY as u128)),
        "returned" => Ok(by_batches(parser, 0)),
        _ => count_by_lists(alloc, parser, way),
    }
}

/// Counts the tokens of an input in the way of a word: by one call, by calls of a kept parser, in pieces, or by calls of a
/// parser.
///
/// # Errors
///
/// As [`count_by_lists`].
fn counted(alloc: Global, start: start_t, way: &str) -> io::Result<count_t>
    requires least { 1 ≤ start.limit }
    requires most { start.limit ≤ MOST_KEY_LIMIT }
{
    match way {
        "all" => Ok(by_all(alloc, start)?),
        "all-limit" => Ok(by_all_limit(alloc, start)?),
        "sink" => Ok(by_sink(alloc, start)?),
        "kept" => Ok(by_kept(alloc, start, MANY as u128, false)),
        "kept-ones" => Ok(by_kept(alloc, start, 1, false)),
        "kept-peeks" => Ok(by_kept(alloc, start, 1, true)),
        "pieces" => Ok(by_pieces(alloc, start, MANY as u128, 0)),
        "pieces-ones" => Ok(by_pieces(alloc, start, 1, 0)),
        "pages" => Ok(by_pieces(alloc, start, MANY as u128, 4096)),
        _ => count_by(alloc, &mut parser_of(alloc, start), way),
    }
}

/// The line of a count: how many tokens there are, and the kind of the fault, or `-` for none.
fn line_of(alloc: Global, count: &count_t) -> io::Result<String> {
    let tokens = count.tokens;
    Ok(match &count.fault {
        Some(fault) => {
            let error = fault.error;
            format!(in alloc; "{tokens} {error}\n")?
        }
        None => format!(in alloc; "{tokens} -\n")?,
    })
}

/// Counts the tokens of an input in the way of a word, as the front of `main.rt` names them.
///
/// Returns a line: how many there are up to the stream end or the fault, and the kind of the fault, or `-` for none.
///
/// # Errors
///
/// `InvalidInput` if the word is no way, or the error of a request for memory that failed outside of the scanner.
pub fn count(alloc: Global, start: start_t, way: &str) -> io::Result<String>
    requires least { 1 ≤ start.limit }
    requires most { start.limit ≤ MOST_KEY_LIMIT }
{
    line_of(alloc, &counted(alloc, start, way)?)
}
