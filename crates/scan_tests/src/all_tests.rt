//! All tokens in one call, and lists of calls.
use std::alloc::{AllocError, Global};
use std::process::Abort;
use std::test::Fail;
use yaml_scan::{
    yaml_answer_t, yaml_call_t, yaml_parser_t, yaml_run, yaml_scan_all, yaml_scan_all_limit,
};
use yaml_text::{
    yaml_encoding_t, yaml_error_type_t, yaml_fault_t, yaml_token_t, yaml_token_type_t,
};

const ANY: yaml_encoding_t = yaml_encoding_t::YAML_ANY_ENCODING;

/// How many tokens one call gives, and the kind of the fault, if there is one.
type told_t = (usize, Option<yaml_error_type_t>);

/// What is told of tokens and a fault.
fn told(tokens: &[yaml_token_t], fault: Option<yaml_fault_t>) -> told_t {
    (tokens.len(), fault.map(|fault| fault.error))
}

/// What is told of all tokens.
fn all_of(alloc: Global, input: &[u8]) -> Result<told_t, AllocError> {
    let (tokens, fault) = yaml_scan_all(alloc, input, ANY)?;
    Ok(told(&tokens, fault))
}

/// What is told of all tokens with a key limit of one byte.
fn all_with_a_limit(alloc: Global, input: &[u8]) -> Result<told_t, AllocError> {
    let (tokens, fault) = yaml_scan_all_limit(alloc, input, ANY, 1)?;
    Ok(told(&tokens, fault))
}

/// Asserts what is told.
fn expect_told(rt: &impl Abort, told: told_t, want: told_t) {
    assert_eq!(rt; told, want);
}

#[test]
fn all_tokens_and_the_fault(rt: HostRuntime) -> Result<(), Fail> {
    let error = yaml_error_type_t::YAML_SCANNER_ERROR;
    expect_told(&rt, all_of(rt.alloc(), b"a: 1")?, (8, None));
    expect_told(
        &rt,
        all_with_a_limit(rt.alloc(), b"ab: 1")?,
        (2, Some(error)),
    );
    Ok(())
}

/// The answers to a list of calls on a new parser.
fn answers_to(
    alloc: Global,
    input: &[u8],
    calls: &[yaml_call_t],
) -> Result<Vec<yaml_answer_t>, AllocError> {
    let mut parser = yaml_parser_t::new(alloc, input, ANY);
    let mut answers = Vec::new(alloc);
    yaml_run(&mut parser, calls, &mut answers)?;
    Ok(answers)
}

/// A letter for a token: `e` for the empty one.
fn letter_of(token: &yaml_token_t) -> char {
    if *token == yaml_token_t::empty() {
        'e'
    } else {
        't'
    }
}

/// A letter for an answer.
fn letter(answer: &yaml_answer_t) -> char {
    match answer {
        yaml_answer_t::TOKEN(token) => letter_of(token),
        yaml_answer_t::PEEKED(_, _, _) => 'p',
        yaml_answer_t::SKIPPED => 'k',
        yaml_answer_t::NOTHING => 'n',
        yaml_answer_t::FAULT(_) => 'f',
    }
}

/// The letters of some answers.
fn letters(alloc: Global, answers: &[yaml_answer_t]) -> Result<String, AllocError> {
    let mut shown = String::new(alloc);
    for answer in answers {
        shown.push(letter(answer))?;
    }
    Ok(shown)
}

/// The type of the token that the first answer shows, and where it ends. There is none if that answer shows no token.
fn first_peeked(answers: &[yaml_answer_t]) -> Option<(yaml_token_type_t, u64)> {
    match answers.first() {
        Some(yaml_answer_t::PEEKED(kind, _, end)) => Some((*kind, end.index)),
        _ => None,
    }
}

/// The letters of the answers to a list of calls on a new parser, and what the first one shows.
fn letters_and_first(
    alloc: Global,
    input: &[u8],
    calls: &[yaml_call_t],
) -> Result<(String, Option<(yaml_token_type_t, u64)>), AllocError> {
    let answers = answers_to(alloc, input, calls)?;
    let shown = letters(alloc, &answers)?;
    Ok((shown, first_peeked(&answers)))
}

#[test]
fn calls_and_their_answers(rt: HostRuntime) -> Result<(), Fail> {
    const S: yaml_call_t = yaml_call_t::SCAN;
    const P: yaml_call_t = yaml_call_t::PEEK;
    const K: yaml_call_t = yaml_call_t::SKIP;
    const CALLS: [yaml_call_t; 10] = [P, P, K, S, K, P, S, S, S, S];
    let start = yaml_token_type_t::YAML_STREAM_START_TOKEN;
    let (shown, first) = letters_and_first(rt.alloc(), b"[a]", &CALLS)?;
    assert_eq!(rt; first, Some((start, 0)));
    assert_eq!(rt; shown.as_str(), "ppktnpttte");
    Ok(())
}
