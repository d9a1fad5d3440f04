//! Deep texts in every way in which tokens are taken: all of them come, and no memory is wanted at some size. Those of
//! the worked rows are longer, and are taken by `tests/deep.py`.
use std::alloc::{AllocError, Global};
use std::process::Abort;
use std::test::Fail;
use yaml_scan::{
    yaml_answer_t, yaml_call_t, yaml_lent_scalar_t, yaml_parser_has_token, yaml_parser_peek,
    yaml_parser_scan, yaml_parser_skip, yaml_parser_t, yaml_run, yaml_scan_all, yaml_scan_next_to,
    yaml_scan_to, yaml_token_sink_t,
};
use yaml_text::{unnamed_yaml_token_t_data, yaml_encoding_t, yaml_token_t};

const ANY: yaml_encoding_t = yaml_encoding_t::YAML_ANY_ENCODING;

/// How often a part is repeated. Each is a step of the scanner.
const DEEP: usize = 45_000;

/// How many tokens so many `[` or `]` are, with those of the stream.
const TOKENS: usize = 45_002;

/// A part that is repeated so often.
fn repeated(alloc: Global, part: &str) -> Result<String, AllocError> {
    let mut input = String::new(alloc);
    for _ in 0..DEEP {
        input.push_str(part)?;
    }
    Ok(input)
}

fn is_last(token: &yaml_token_t) -> bool {
    matches!(token.token_data, unnamed_yaml_token_t_data::STREAM_END)
}

/// Counts the tokens that it takes, and has room for so many at once.
#[derive(Drop)]
struct count_t {
    room: u128,
    tokens: usize,
}

impl yaml_token_sink_t for count_t {
    ghost took = { λ _ _ _. Unit {0} };

    ghost may_refuse = { ⊥ };

    ghost within = { λ _. Unit {0} };

    ghost lacks = { λ s count texts. Unit {0} };

    fn put(&mut self, _token: yaml_token_t) -> Result<(), AllocError> {
        self.tokens = self.tokens.wrapping_add(1);
        Ok(())
    }

    fn put_scalar(&mut self, _scalar: &yaml_lent_scalar_t) -> Result<(), AllocError> {
        self.tokens = self.tokens.wrapping_add(1);
        Ok(())
    }

    fn room(&mut self, alloc: Global) -> Vec<u8> {
        Vec::new(alloc)
    }

    fn has_room(&self, count: u128, _texts: u128) -> bool {
        count <= self.room
    }

    ghost took_none = { λ _. tt };

    ghost took_more = { λ _ _ _ _ _ _ _. tt };

    ghost within_none = { λ _ _ _ _. tt };
}

/// How many tokens there are, and where the last one ends. There is none if there is no token.
fn counted(tokens: &[yaml_token_t]) -> (usize, Option<u64>) {
    (
        tokens.len(),
        tokens.last().map(|token| token.end_mark.index),
    )
}

/// How many tokens one call gives of a part that is repeated, where the last one ends, and whether there is no fault.
fn at_once(alloc: Global, part: &str) -> Result<(usize, Option<u64>, bool), AllocError> {
    let input = repeated(alloc, part)?;
    let (tokens, fault) = yaml_scan_all(alloc, input.as_bytes(), ANY)?;
    let (count, end) = counted(&tokens);
    Ok((count, end, fault.is_none()))
}

/// Asserts how many tokens one call gives of a part that is repeated, and where the last one ends.
fn expect_at_once(
    rt: &(impl Abort + AllocGlobal),
    part: &str,
    count: usize,
    end: u64,
) -> Result<(), Fail> {
    let told = at_once(rt.alloc(), part)?;
    assert_eq!(rt; told, (count, Some(end), true));
    Ok(())
}

#[test]
fn openers_at_once(rt: HostRuntime) -> Result<(), Fail> {
    expect_at_once(&rt, "[", TOKENS, 45_000)
}

#[test]
fn closers_at_once(rt: HostRuntime) -> Result<(), Fail> {
    expect_at_once(&rt, "]", TOKENS, 45_000)
}

/// Each `-` begins a block, which ends at the end.
#[test]
fn sequences_at_once(rt: HostRuntime) -> Result<(), Fail> {
    expect_at_once(&rt, "- ", 135_002, 90_000)
}

/// Takes the next token. Returns whether it is the stream end.
fn takes_the_end(parser: &mut yaml_parser_t) -> Result<bool, Fail> {
    match yaml_parser_scan(parser) {
        Ok(token) => Ok(is_last(&token)),
        Err(_) => Err("a fault".into()),
    }
}

/// Shows the next token, and skips it. Returns whether it is the stream end.
fn skips_the_end(parser: &mut yaml_parser_t) -> Result<bool, Fail> {
    let last = match yaml_parser_peek(parser) {
        Ok(token) => is_last(token),
        Err(_) => return Err("a fault".into()),
    };
    if yaml_parser_has_token(parser) {
        yaml_parser_skip(parser);
    }
    Ok(last)
}

/// How many scans it takes to the stream end.
fn scans_to_the_end(parser: &mut yaml_parser_t) -> Result<usize, Fail> {
    for n in 1..100_000 {
        if takes_the_end(parser)? {
            return Ok(n);
        }
    }
    Err("no stream end".into())
}

/// How many tokens an input has, taken by scans.
pub(crate) fn count_of(alloc: Global, input: &[u8]) -> Result<usize, Fail> {
    let mut parser = yaml_parser_t::new(alloc, input, ANY);
    scans_to_the_end(&mut parser)
}

#[test]
fn scans(rt: HostRuntime) -> Result<(), Fail> {
    let input = repeated(rt.alloc(), "[")?;
    let count = count_of(rt.alloc(), input.as_bytes())?;
    assert_eq!(rt; count, TOKENS);
    Ok(())
}

/// How many peeks, each with a skip, it takes to the stream end.
fn skips_to_the_end(parser: &mut yaml_parser_t) -> Result<usize, Fail> {
    for n in 1..100_000 {
        if skips_the_end(parser)? {
            return Ok(n);
        }
    }
    Err("no stream end".into())
}

/// How many tokens an input has, taken by peeks and skips.
fn skipped(alloc: Global, input: &[u8]) -> Result<usize, Fail> {
    let mut parser = yaml_parser_t::new(alloc, input, ANY);
    skips_to_the_end(&mut parser)
}

#[test]
fn peeks_and_skips(rt: HostRuntime) -> Result<(), Fail> {
    let input = repeated(rt.alloc(), "[")?;
    let count = skipped(rt.alloc(), input.as_bytes())?;
    assert_eq!(rt; count, TOKENS);
    Ok(())
}

/// How many of the answers are tokens, and not the empty one.
fn tokens_in(answers: &[yaml_answer_t]) -> usize {
    let mut count: usize = 0;
    for answer in answers {
        if let yaml_answer_t::TOKEN(token) = answer {
            if *token != yaml_token_t::empty() {
                count = count.wrapping_add(1);
            }
        }
    }
    count
}

/// A list of so many scans.
fn list_of(alloc: Global, scans: usize) -> Result<Vec<yaml_call_t>, AllocError> {
    let mut calls = Vec::new(alloc);
    for _ in 0..scans {
        calls.push(yaml_call_t::SCAN)?;
    }
    Ok(calls)
}

/// How many tokens come from a list of calls.
fn tokens_of(
    alloc: Global,
    parser: &mut yaml_parser_t,
    calls: &[yaml_call_t],
) -> Result<usize, AllocError> {
    let mut answers = Vec::new(alloc);
    yaml_run(parser, calls, &mut answers)?;
    Ok(tokens_in(&answers))
}

/// How many tokens come from a list of calls that is run so many times.
fn tokens_of_lists(
    alloc: Global,
    parser: &mut yaml_parser_t,
    calls: &[yaml_call_t],
    lists: usize,
) -> Result<usize, AllocError> {
    let mut count: usize = 0;
    'lists: for _ in 0..lists {
        count = count.wrapping_add(tokens_of(alloc, parser, calls)?);
    }
    Ok(count)
}

/// How many tokens come from so many lists of so many scans, all on one parser.
fn listed(alloc: Global, lists: usize, scans: usize) -> Result<usize, AllocError> {
    let input = repeated(alloc, "[")?;
    let calls = list_of(alloc, scans)?;
    let mut parser = yaml_parser_t::new(alloc, input.as_bytes(), ANY);
    tokens_of_lists(alloc, &mut parser, &calls, lists)
}

#[test]
fn lists_of_scans(rt: HostRuntime) -> Result<(), Fail> {
    assert_eq!(rt; listed(rt.alloc(), 46, 1000)?, TOKENS);
    Ok(())
}

#[test]
fn one_list(rt: HostRuntime) -> Result<(), Fail> {
    assert_eq!(rt; listed(rt.alloc(), 1, 45_005)?, TOKENS);
    Ok(())
}

/// How many tokens one call gives to a sink, and whether there is no fault.
fn sunk(alloc: Global) -> Result<(usize, bool), AllocError> {
    let input = repeated(alloc, "[")?;
    let mut count = count_t { room: 1, tokens: 0 };
    let fault = yaml_scan_to(alloc, input.as_bytes(), ANY, 1024, &mut count)?;
    Ok((count.tokens, fault.is_none()))
}

#[test]
fn one_sink(rt: HostRuntime) -> Result<(), Fail> {
    assert_eq!(rt; sunk(rt.alloc())?, (TOKENS, true));
    Ok(())
}

/// Makes one call. Returns whether a token is returned, and whether it is the stream end.
fn returned(parser: &mut yaml_parser_t, count: &mut count_t) -> Result<(bool, bool), Fail> {
    match yaml_scan_next_to(parser, count) {
        Ok(None) => Ok((false, false)),
        Ok(Some(token)) => Ok((true, is_last(&token))),
        Err(_) => Err("a fault".into()),
    }
}

/// How many tokens a sink was given, and how many were returned, up to the stream end.
fn returned_to_the_end(
    parser: &mut yaml_parser_t,
    count: &mut count_t,
) -> Result<(usize, usize), Fail> {
    let mut others: usize = 0;
    'calls: for _ in 0..TOKENS {
        let (some, last) = returned(parser, count)?;
        others = others.wrapping_add(some as usize);
        if last {
            return Ok((count.tokens, others));
        }
    }
    Err("no stream end".into())
}

/// How many tokens of a new parser a sink was given, and how many were returned.
fn given_and_returned(
    alloc: Global,
    input: &[u8],
    count: &mut count_t,
) -> Result<(usize, usize), Fail> {
    let mut parser = yaml_parser_t::new(alloc, input, ANY);
    returned_to_the_end(&mut parser, count)
}

/// How many tokens of a deep text a sink of a room was given, and how many were returned.
fn batched(alloc: Global, room: u128) -> Result<(usize, usize), Fail> {
    let input = repeated(alloc, "[")?;
    let mut count = count_t { room, tokens: 0 };
    given_and_returned(alloc, input.as_bytes(), &mut count)
}

/// All but the stream end go to the sink.
#[test]
fn batches(rt: HostRuntime) -> Result<(), Fail> {
    assert_eq!(rt; batched(rt.alloc(), 256)?, (45_001, 1));
    Ok(())
}

#[test]
fn batches_without_room(rt: HostRuntime) -> Result<(), Fail> {
    assert_eq!(rt; batched(rt.alloc(), 0)?, (0, TOKENS));
    Ok(())
}
