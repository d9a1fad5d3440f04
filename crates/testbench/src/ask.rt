//! What a line asks, and its answer.
ghost use Rattle.std.specs.Prelude.{ℕ, ◌≤◌, IfSome, IsTrue, length};
ghost use Rattle.yaml_text.specs.Chars.{utf8};
ghost use Rattle.yaml_lexeme.specs.Counted.{IsMarkOf};

use crate::show::{kind_name, show_bytes, show_fault, show_lexeme, show_mark, show_refusal};
use crate::words::{bytes_of, flag_of, level_of, setting_of};
use std::alloc::{AllocError, Global};
use yaml_lexeme::{yaml_context_t, yaml_gap, yaml_lexeme_at, yaml_lexeme_kind};
use yaml_text::{
    yaml_decode, yaml_encoding_t, yaml_is_place, yaml_mark_at, yaml_mark_t, yaml_text_t,
};

/// The mark of a place of the text, if the index is one.
pub fn mark_at(text: &yaml_text_t, index: usize) -> Option<yaml_mark_t>
    ensures { IfSome result (λ mark. (n : ℕ) × IsMarkOf text.now.chars mark n) }
{
    if !yaml_is_place(text, index) {
        return None;
    }
    Some(yaml_mark_at(text, index))
}

/// What a gap depends on besides the text: whether it is in flow, and whether a key is allowed before it.
#[derive(Clone, Copy)]
struct around_t {
    in_flow: bool,
    allowed: bool,
}

fn ask_gap(
    alloc: Global,
    text: &yaml_text_t,
    at: yaml_mark_t,
    around: around_t,
) -> Result<String, AllocError>
    requires { (n : ℕ) × IsMarkOf text.now.chars at n }
{
    let (end, broken) = yaml_gap(text, at, around.in_flow, around.allowed);
    let mut shown = show_mark(alloc, end)?;
    shown.push_str(if broken { " true" } else { " false" })?;
    Ok(shown)
}

fn ask_kind(
    alloc: Global,
    text: &yaml_text_t,
    at: yaml_mark_t,
    in_flow: bool,
) -> Result<String, AllocError>
    requires { (n : ℕ) × IsMarkOf text.now.chars at n }
{
    match yaml_lexeme_kind(text, at, in_flow) {
        Some(kind) => String::from_str(alloc, kind_name(kind)),
        None => String::from_str(alloc, "-"),
    }
}

fn ask_lexeme(
    alloc: Global,
    text: &yaml_text_t,
    at: yaml_mark_t,
    context: yaml_context_t,
) -> Result<String, AllocError>
    requires place { (n : ℕ) × IsMarkOf text.now.chars at n }
    requires level { IfSome context.level (λ l. l ≤ length (utf8 text.now.chars)) }
{
    let Some(kind) = yaml_lexeme_kind(text, at, context.depth > 0) else {
        return String::from_str(alloc, "-");
    };
    match yaml_lexeme_at(alloc, text, at, kind, context) {
        Ok(lexeme) => show_lexeme(alloc, &lexeme),
        Err(fault) => show_fault(alloc, &fault),
    }
}

/// Whether the level is at most the length of the text in bytes.
fn is_within(text: &yaml_text_t, level: Option<u64>) -> bool
    ensures { IsTrue result → IfSome level (λ l. l ≤ length (utf8 text.now.chars)) }
{
    match level {
        None => true,
        Some(level) => level <= text.bytes().len() as u64,
    }
}

/// The mark of the place that a word names, if it names one.
fn mark_of(text: &yaml_text_t, index: &str) -> Option<yaml_mark_t>
    ensures { IfSome result (λ mark. (n : ℕ) × IsMarkOf text.now.chars mark n) }
{
    match index.parse() {
        Ok(index) => mark_at(text, index),
        Err(_) => None,
    }
}

/// What a gap depends on besides the text, if the words are two flags.
fn around_of(in_flow: &str, allowed: &str) -> Option<around_t> {
    match (flag_of(in_flow), flag_of(allowed)) {
        (Some(in_flow), Some(allowed)) => Some(around_t { in_flow, allowed }),
        _ => None,
    }
}

/// The flow depth and the level of two words, if the level is within the text.
fn context_of(text: &yaml_text_t, depth: &str, level: &str) -> Option<yaml_context_t>
    ensures { IfSome result (λ context. IfSome context.level (λ l. l ≤ length (utf8 text.now.chars))) }
{
    match (depth.parse(), level_of(level)) {
        (Ok(depth), Some(level)) if is_within(text, level) => Some(yaml_context_t { depth, level }),
        _ => None,
    }
}

/// The answer to the words of a `gap` after the first, if they are such a question.
fn answer_gap(
    alloc: Global,
    words: &[&str],
    text: &yaml_text_t,
) -> Result<Option<String>, AllocError> {
    let [in_flow, allowed, index, _] = words else {
        return Ok(None);
    };
    match (around_of(in_flow, allowed), mark_of(text, index)) {
        (Some(around), Some(at)) => Ok(Some(ask_gap(alloc, text, at, around)?)),
        _ => Ok(None),
    }
}

/// The answer to the words of a `kind` after the first, if they are such a question.
fn answer_kind(
    alloc: Global,
    words: &[&str],
    text: &yaml_text_t,
) -> Result<Option<String>, AllocError> {
    let [in_flow, index, _] = words else {
        return Ok(None);
    };
    match (flag_of(in_flow), mark_of(text, index)) {
        (Some(in_flow), Some(at)) => Ok(Some(ask_kind(alloc, text, at, in_flow)?)),
        _ => Ok(None),
    }
}

/// The answer to the words of a `lex` after the first, if they are such a question.
fn answer_lexeme(
    alloc: Global,
    words: &[&str],
    text: &yaml_text_t,
) -> Result<Option<String>, AllocError> {
    let [depth, level, index, _] = words else {
        return Ok(None);
    };
    match (context_of(text, depth, level), mark_of(text, index)) {
        (Some(context), Some(at)) => Ok(Some(ask_lexeme(alloc, text, at, context)?)),
        _ => Ok(None),
    }
}

/// The answer to the question of these words about the text.
fn ask(alloc: Global, words: &[&str], text: &yaml_text_t) -> Result<Option<String>, AllocError> {
    match words {
        ["gap", rest @ ..] => answer_gap(alloc, rest, text),
        ["kind", rest @ ..] => answer_kind(alloc, rest, text),
        ["lex", rest @ ..] => answer_lexeme(alloc, rest, text),
        _ => Ok(None),
    }
}

/// The mark of the end of a text, or `-` if it has none.
fn show_end(alloc: Global, text: &yaml_text_t) -> Result<String, AllocError> {
    match mark_at(text, text.bytes().len()) {
        Some(end) => show_mark(alloc, end),
        None => String::from_str(alloc, "-"),
    }
}

/// The line of a text: its encoding, its bytes in UTF-8 and the mark of its end.
fn show_text(alloc: Global, text: &yaml_text_t) -> Result<String, AllocError> {
    let end = show_end(alloc, text)?;
    let (encoding, bytes) = (text.encoding(), show_bytes(alloc, text.bytes())?);
    format!(in alloc; "TEXT {encoding:?} {bytes} {end}")
}

/// What the input decodes to: the encoding, the text in UTF-8 and the mark of its end, or what is wrong with it.
fn ask_decoded(
    alloc: Global,
    input: &[u8],
    setting: yaml_encoding_t,
) -> Result<String, AllocError> {
    match yaml_decode(alloc, input, setting) {
        Ok(text) => show_text(alloc, &text),
        Err(fault) => show_refusal(alloc, &fault),
    }
}

/// The answer to the question of these words, of which the last one spells the bytes.
fn ask_bytes(alloc: Global, words: &[&str], bytes: &[u8]) -> Result<Option<String>, AllocError> {
    if let ["decode", setting, _] = words {
        return match setting_of(setting) {
            Some(setting) => Ok(Some(ask_decoded(alloc, bytes, setting)?)),
            None => Ok(None),
        };
    }
    match yaml_decode(alloc, bytes, yaml_encoding_t::YAML_UTF8_ENCODING) {
        Ok(text) => ask(alloc, words, &text),
        Err(_) => Ok(None),
    }
}

/// The bytes that the last of the words spells, if it spells any.
fn last_bytes(alloc: Global, words: &[&str]) -> Result<Option<Vec<u8>>, AllocError> {
    match words.last() {
        Some(word) => bytes_of(alloc, word),
        None => Ok(None),
    }
}

/// The answer to these words, if they are a question.
fn answer_words(alloc: Global, words: &[&str]) -> Result<Option<String>, AllocError> {
    match last_bytes(alloc, words)? {
        Some(bytes) => ask_bytes(alloc, words, &bytes),
        None => Ok(None),
    }
}

/// The answer to a line.
pub fn answer(alloc: Global, line: &str) -> Result<String, AllocError> {
    let words: Vec<&str> = line.split(' ').collect(alloc)?;
    match answer_words(alloc, &words)? {
        Some(answer) => Ok(answer),
        None => String::from_str(alloc, "?"),
    }
}
