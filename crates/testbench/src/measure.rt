//! How long reading takes.
ghost use Rattle.std.specs.Prelude.{ℕ, ◌≡◌, ◌≤◌, IfSome};
ghost use Rattle.yaml_lexeme.specs.Order.{is_stream_end};
ghost use Rattle.yaml_lexeme.specs.Counted.{IsMarkOf};

use crate::ask::mark_at;
use crate::session::MOST_KEY_LIMIT;
use std::alloc::{AllocError, Global};
use std::io;
use std::time::Instant;
use yaml_lexeme::{
    yaml_context_t, yaml_gap, yaml_lexeme_at, yaml_lexeme_kind, yaml_lexeme_kind_t, yaml_lexeme_t,
};
use yaml_scan::{
    yaml_lent_scalar_t, yaml_parser_scan, yaml_parser_t, yaml_scan_to, yaml_token_sink_t,
};
use yaml_text::{
    unnamed_yaml_token_t_data, yaml_decode, yaml_decode_front, yaml_encoding_t, yaml_mark_t,
    yaml_text_t, yaml_token_t,
};

/// What is done with a text.
#[derive(Clone, Copy)]
pub enum task_t {
    /// The lexeme at its front is read.
    FRONT,
    /// Its lexemes are read one after the other, with a level open at column 0.
    WALK,
    /// Its tokens are scanned, call by call.
    SCAN,
    /// Its tokens are given to a sink.
    SINK,
    /// It is decoded.
    DECODE,
}

/// The task of a word: `walk`, `scan`, `sink`, `decode`, or the front for any other and for none.
pub fn task_of(word: &str) -> task_t {
    match word {
        "walk" => task_t::WALK,
        "scan" => task_t::SCAN,
        "sink" => task_t::SINK,
        "decode" => task_t::DECODE,
        _ => task_t::FRONT,
    }
}

/// A task, and the key limit of scanning.
#[derive(Clone, Copy)]
pub struct work_t {
    pub task: task_t,
    pub limit: u32,
}

/// How many bytes the lexeme at a place reaches over, outside of flow and with no level open.
fn read_at(alloc: Global, text: &yaml_text_t, at: yaml_mark_t) -> u64
    requires { (n : ℕ) × IsMarkOf text.now.chars at n }
{
    let context = yaml_context_t {
        depth: 0,
        level: None,
    };
    let Some(kind) = yaml_lexeme_kind(text, at, context.depth > 0) else {
        return 0;
    };
    match yaml_lexeme_at(alloc, text, at, kind, context) {
        Ok(lexeme) => lexeme.reach.index,
        Err(fault) => fault.problem_mark.index,
    }
}

/// How many bytes the lexeme at the front reaches over.
fn read_front(alloc: Global, text: &yaml_text_t) -> u64 {
    match mark_at(text, 0) {
        Some(at) => read_at(alloc, text, at),
        None => 0,
    }
}

fn is_end(kind: yaml_lexeme_kind_t) -> bool
    ensures { result ≡ is_stream_end kind }
{
    matches!(kind, yaml_lexeme_kind_t::STREAM_END)
}

fn reach(lexeme: &yaml_lexeme_t) -> yaml_mark_t
    ensures { result ≡ lexeme.now.reach }
{
    lexeme.reach
}

/// The mark up to which the lexeme after a gap was read, if there is one.
fn read_after(alloc: Global, text: &yaml_text_t, at: yaml_mark_t) -> Option<yaml_mark_t>
    requires { (n : ℕ) × IsMarkOf text.now.chars at n }
    ensures { IfSome result (λ mark. (n : ℕ) × IsMarkOf text.now.chars mark n) }
{
    let (gap_end, _) = yaml_gap(text, at, false, true);
    let context = yaml_context_t {
        depth: 0,
        level: Some(0),
    };
    let Some(kind) = yaml_lexeme_kind(text, gap_end, false) else {
        return None;
    };
    if is_end(kind) {
        return None;
    }
    match yaml_lexeme_at(alloc, text, gap_end, kind, context) {
        Ok(lexeme) => Some(reach(&lexeme)),
        Err(_) => None,
    }
}

/// How many bytes the lexemes reach over, one after the other.
fn walk(alloc: Global, text: &yaml_text_t) -> u64 {
    let Some(mut at) = mark_at(text, 0) else {
        return 0;
    };
    'lexemes: for _ in 0..text.bytes().len() {
        match read_after(alloc, text, at) {
            Some(next) => at = next,
            None => break,
        }
    }
    at.index
}

/// How many tokens an input has with a key limit, up to its end or a fault.
fn scan(alloc: Global, input: &[u8], limit: u32) -> u64
    requires least { 1 ≤ limit }
    requires most { limit ≤ MOST_KEY_LIMIT }
{
    let any = yaml_encoding_t::YAML_ANY_ENCODING;
    let mut parser = yaml_parser_t::with_key_limit(alloc, input, any, limit);
    let mut tokens: u64 = 0;
    'tokens: for _ in 0..u64::MAX {
        let Ok(token) = yaml_parser_scan(&mut parser) else {
            break;
        };
        tokens = tokens.wrapping_add(1);
        if matches!(token.token_data, unnamed_yaml_token_t_data::STREAM_END) {
            break;
        }
    }
    tokens
}

/// Counts the tokens that it takes.
#[derive(Drop)]
struct counter_t {
    tokens: u64,
}

impl yaml_token_sink_t for counter_t {
    ghost took = { λ _ _ _. Unit {0} };

    ghost may_refuse = { ⊥ };

    ghost within = { λ _. Unit {0} };

    ghost lacks = { λ s count texts. Unit {0} };

    #[inline(always)]
    fn put(&mut self, _token: yaml_token_t) -> Result<(), AllocError> {
        self.tokens = self.tokens.wrapping_add(1);
        Ok(())
    }

    #[inline(always)]
    fn put_scalar(&mut self, _scalar: &yaml_lent_scalar_t) -> Result<(), AllocError> {
        self.tokens = self.tokens.wrapping_add(1);
        Ok(())
    }

    #[inline(always)]
    fn room(&mut self, alloc: Global) -> Vec<u8> {
        Vec::new(alloc)
    }

    #[inline(always)]
    fn has_room(&self, _count: u128, _texts: u128) -> bool {
        true
    }

    ghost took_none = { λ _. tt };

    ghost took_more = { λ _ _ _ _ _ _ _. tt };

    ghost within_none = { λ _ _ _ _. tt };
}

/// How many tokens of an input a sink is given with a key limit, up to its end or a fault.
fn give(alloc: Global, input: &[u8], limit: u32) -> u64
    requires least { 1 ≤ limit }
    requires most { limit ≤ MOST_KEY_LIMIT }
{
    let any = yaml_encoding_t::YAML_ANY_ENCODING;
    let mut counter = counter_t { tokens: 0 };
    let _ = yaml_scan_to(alloc, input, any, limit, &mut counter);
    counter.tokens
}

/// How many bytes an input has in UTF-8, or 0 if it is no text.
fn decode(alloc: Global, input: &[u8]) -> u64 {
    match yaml_decode(alloc, input, yaml_encoding_t::YAML_ANY_ENCODING) {
        Ok(text) => text.bytes().len() as u64,
        Err(_) => 0,
    }
}

/// Does the work once, and returns how many bytes were read, tokens scanned or bytes decoded.
fn done(alloc: Global, work: work_t, input: &[u8], text: &yaml_text_t) -> u64
    requires least { 1 ≤ work.limit }
    requires most { work.limit ≤ MOST_KEY_LIMIT }
{
    match work.task {
        task_t::FRONT => read_front(alloc, text),
        task_t::WALK => walk(alloc, text),
        task_t::SCAN => scan(alloc, input, work.limit),
        task_t::SINK => give(alloc, input, work.limit),
        task_t::DECODE => decode(alloc, input),
    }
}

/// Does the work on the input nine times.
///
/// Returns a line: how many bytes were read, tokens scanned or bytes decoded, and the best and the median time in
/// nanoseconds. The text is the longest front of the input that is one. If there is no memory for it, the line says
/// so.
pub fn measure(
    rt: &HostRuntime,
    input: &[u8],
    work: work_t,
) -> io::Result<Result<String, AllocError>>
    requires least { 1 ≤ work.limit }
    requires most { work.limit ≤ MOST_KEY_LIMIT }
{
    let alloc = rt.alloc();
    let any = yaml_encoding_t::YAML_ANY_ENCODING;
    let Ok((text, _)) = yaml_decode_front(alloc, input, any) else {
        return Ok(String::from_str(alloc, "no memory\n"));
    };
    let mut times = Vec::new(alloc);
    let mut count = 0;
    for _ in 0..9 {
        let start = Instant::now(rt)?;
        count = done(alloc, work, input, &text);
        times.push(start.elapsed(rt)?.as_nanos())?;
    }
    times.sort()?;
    let best = times.first().copied().unwrap_or(0);
    let median = times.get(4).copied().unwrap_or(0);
    Ok(format!(in alloc; "{count} {best} {median}\n"))
}
