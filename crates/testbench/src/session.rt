//! The answers to an input, and the state of the session after them.
//!
//! Nothing here takes memory after the input is read: the calls are made ready before, the input is read into an array,
//! and lines are written piece by piece. So each request for memory comes from the call that is tested.
ghost use Rattle.std.specs.Prelude.{◌≤◌, IfOk, IfSome, length};

use crate::ask::mark_at;
use crate::bare::put_places;
use crate::show::put_mark;
use crate::words::setting_of;
use std::alloc::{AllocError, Global};
use std::io;
use std::io::{Read, Write};
use yaml_scan::{
    unnamed_yaml_token_t_data, yaml_answer_t, yaml_call_t, yaml_context_t, yaml_decode,
    yaml_encoding_t, yaml_fault_t, yaml_lent_scalar_t, yaml_lexeme_at, yaml_lexeme_kind,
    yaml_lexeme_t, yaml_mark_t, yaml_parser_fault, yaml_parser_has_token, yaml_parser_mark,
    yaml_parser_peek, yaml_parser_queued, yaml_parser_scan, yaml_parser_skip, yaml_parser_t,
    yaml_run, yaml_scalar_style_t, yaml_scan_all_limit, yaml_text_t, yaml_token_t,
    yaml_token_type_t,
};

/// What comes after so many bytes of an input is not read.
pub const MOST: usize = 8192;

/// The usual key limit, in bytes.
const KEY_LIMIT: u32 = 1024;

/// The greatest key limit, in bytes.
pub const MOST_KEY_LIMIT: u32 = 65536;

/// What a session begins with: the input, the encoding setting and the key limit.
#[derive(Clone, Copy)]
pub struct start_t<'a> {
    pub input: &'a [u8],
    pub setting: yaml_encoding_t,
    pub limit: u32,
}

/// A new parser.
pub fn parser_of<'a>(alloc: Global, start: start_t<'a>) -> yaml_parser_t<'a>
    requires least { 1 ≤ start.limit }
    requires most { start.limit ≤ MOST_KEY_LIMIT }
{
    yaml_parser_t::with_key_limit(alloc, start.input, start.setting, start.limit)
}

/// Writes bytes in hexadecimal.
fn put_hex(out: &mut impl Write, bytes: &[u8]) -> io::Result<()> {
    for b in bytes {
        let b = *b;
        write!(out, "{b:02x}")?;
    }
    Ok(())
}

/// Writes a space, and bytes in hexadecimal, or `-` for none.
fn put_bytes(out: &mut impl Write, bytes: &[u8]) -> io::Result<()> {
    if bytes.is_empty() {
        return write!(out, " -");
    }
    write!(out, " ")?;
    put_hex(out, bytes)
}

/// Writes two texts, each after a space.
fn put_pair(out: &mut impl Write, first: &[u8], second: &[u8]) -> io::Result<()> {
    put_bytes(out, first)?;
    put_bytes(out, second)
}

/// Writes the style of a scalar and its text, each after a space.
fn put_scalar(out: &mut impl Write, style: yaml_scalar_style_t, value: &[u8]) -> io::Result<()> {
    write!(out, " {style:?}")?;
    put_bytes(out, value)
}

/// Writes a space and an encoding.
fn put_encoding(out: &mut impl Write, encoding: yaml_encoding_t) -> io::Result<()> {
    write!(out, " {encoding:?}")
}

/// Writes the two numbers of a version, each after a space.
fn put_version(out: &mut impl Write, major: i32, minor: i32) -> io::Result<()> {
    write!(out, " {major} {minor}")
}

fn put_data(out: &mut impl Write, data: &unnamed_yaml_token_t_data) -> io::Result<()> {
    match data {
        unnamed_yaml_token_t_data::STREAM_START { encoding } => put_encoding(out, *encoding),
        unnamed_yaml_token_t_data::VERSION_DIRECTIVE { major, minor } => {
            put_version(out, *major, *minor)
        }
        unnamed_yaml_token_t_data::TAG_DIRECTIVE { handle, prefix } => {
            put_pair(out, handle, prefix)
        }
        unnamed_yaml_token_t_data::ALIAS { value } => put_bytes(out, value),
        unnamed_yaml_token_t_data::ANCHOR { value } => put_bytes(out, value),
        unnamed_yaml_token_t_data::TAG { handle, suffix } => put_pair(out, handle, suffix),
        unnamed_yaml_token_t_data::SCALAR { value, style } => put_scalar(out, *style, value),
        _ => Ok(()),
    }
}

/// Writes two marks, each after a space.
fn put_marks(out: &mut impl Write, first: yaml_mark_t, second: yaml_mark_t) -> io::Result<()> {
    put_mark(out, first)?;
    put_mark(out, second)
}

/// Writes the marks of a token or a lexeme, what it says, and the end of the line.
fn put_rest(
    out: &mut impl Write,
    start: yaml_mark_t,
    end: yaml_mark_t,
    data: &unnamed_yaml_token_t_data,
) -> io::Result<()> {
    put_marks(out, start, end)?;
    put_data(out, data)?;
    writeln!(out)
}

/// Writes the line of a token.
pub fn put_token(out: &mut impl Write, token: &yaml_token_t) -> io::Result<()> {
    let kind = token.type_();
    write!(out, "TOKEN {kind:?}")?;
    put_rest(out, token.start_mark, token.end_mark, &token.token_data)
}

/// Writes the line of the token of a scalar that is lent.
pub fn put_lent(out: &mut impl Write, scalar: &yaml_lent_scalar_t) -> io::Result<()> {
    let kind = yaml_token_type_t::YAML_SCALAR_TOKEN;
    write!(out, "TOKEN {kind:?}")?;
    put_marks(out, scalar.start_mark, scalar.end_mark)?;
    put_scalar(out, scalar.style, scalar.value)?;
    writeln!(out)
}

/// Writes the kind of a fault, and the offset and the value of what is wrong with an input that is no text.
fn put_kind(out: &mut impl Write, fault: &yaml_fault_t) -> io::Result<()> {
    let (error, offset, value) = (fault.error, fault.problem_offset, fault.problem_value);
    write!(out, "FAULT {error} {offset} {value}")
}

/// Writes the texts of a fault's context and its problem, and the end of the line.
fn put_problem(out: &mut impl Write, fault: &yaml_fault_t) -> io::Result<()> {
    let problem = fault.problem.unwrap_or("-");
    let context = fault.context.unwrap_or("-");
    writeln!(out, " {context}; {problem}")
}

/// Writes the line of a fault.
pub fn put_fault(out: &mut impl Write, fault: &yaml_fault_t) -> io::Result<()> {
    put_kind(out, fault)?;
    put_marks(out, fault.context_mark, fault.problem_mark)?;
    put_problem(out, fault)
}

/// Writes the line of a peek: the type of the token that it showed, and its marks.
fn put_peeked(
    out: &mut impl Write,
    kind: yaml_token_type_t,
    start: yaml_mark_t,
    end: yaml_mark_t,
) -> io::Result<()> {
    write!(out, "PEEKED {kind:?}")?;
    put_marks(out, start, end)?;
    writeln!(out)
}

fn put_answer(out: &mut impl Write, answer: &yaml_answer_t) -> io::Result<()> {
    match answer {
        yaml_answer_t::TOKEN(token) => put_token(out, token),
        yaml_answer_t::PEEKED(kind, start, end) => put_peeked(out, *kind, *start, *end),
        yaml_answer_t::SKIPPED => writeln!(out, "SKIPPED"),
        yaml_answer_t::NOTHING => writeln!(out, "NOTHING"),
        yaml_answer_t::FAULT(fault) => put_fault(out, fault),
    }
}

fn put_answers(out: &mut impl Write, answers: &[yaml_answer_t]) -> io::Result<()> {
    for answer in answers {
        put_answer(out, answer)?;
    }
    Ok(())
}

/// Writes the end of the line of a state: the fault of the session, or `-` if it has none.
fn put_fault_of(out: &mut impl Write, fault: Option<&yaml_fault_t>) -> io::Result<()> {
    match fault {
        Some(fault) => {
            write!(out, " ")?;
            put_fault(out, fault)
        }
        None => writeln!(out, " -"),
    }
}

/// Writes whether a token was peeked, and how many steps are queued.
fn put_queued(out: &mut impl Write, has_token: bool, queued: u64) -> io::Result<()> {
    write!(out, "STATE {has_token} {queued}")
}

/// Whether a token was peeked, how many steps are queued, how far was read, and the fault.
pub fn put_state(out: &mut impl Write, parser: &yaml_parser_t) -> io::Result<()> {
    let (has_token, queued) = (yaml_parser_has_token(parser), yaml_parser_queued(parser));
    put_queued(out, has_token, queued)?;
    put_mark(out, yaml_parser_mark(parser))?;
    put_fault_of(out, yaml_parser_fault(parser))
}

/// The call of a letter: `s` is a scan, `p` a peek, and any other a skip.
pub fn call_of(letter: u8) -> yaml_call_t {
    match letter {
        b's' => yaml_call_t::SCAN,
        b'p' => yaml_call_t::PEEK,
        _ => yaml_call_t::SKIP,
    }
}

fn calls_of(alloc: Global, word: &str) -> Result<Vec<yaml_call_t>, AllocError> {
    word.bytes().map(call_of).collect(alloc)
}

fn lists_of(alloc: Global, words: &[String]) -> Result<Vec<Vec<yaml_call_t>>, AllocError> {
    let mut lists = Vec::new(alloc);
    for word in words {
        lists.push(calls_of(alloc, word.as_str())?)?;
    }
    Ok(lists)
}

/// Reads the input to its end, or until there is no room, and returns how many bytes it has.
pub fn read_input(reader: &mut impl Read, room: &mut [u8]) -> io::Result<usize>
    ensures { IfOk result (λ count. count ≤ length room.new) }
{
    let mut count = 0;
    for _ in 0..MOST {
        if count >= room.len() {
            break;
        }
        let more = reader.read(&mut room[count..])?;
        if more == 0 {
            break;
        }
        count += more;
    }
    Ok(count.min(room.len()))
}

/// Writes whether a run was refused memory.
fn put_outcome(out: &mut impl Write, outcome: Result<(), AllocError>) -> io::Result<()> {
    match outcome {
        Ok(()) => writeln!(out, "ANSWERED"),
        Err(_) => writeln!(out, "REFUSED"),
    }
}

/// Makes the calls of a list by one `yaml_run`. Writes whether it was refused memory, all answers so far, and the state
/// of the session.
fn run_list(
    out: &mut impl Write,
    parser: &mut yaml_parser_t,
    calls: &[yaml_call_t],
    answers: &mut Vec<yaml_answer_t>,
) -> io::Result<()> {
    put_outcome(out, yaml_run(parser, calls, answers))?;
    put_answers(out, answers)?;
    put_state(out, parser)
}

/// The calls of a command, made ready before the input is read: a list for each word, and the answers so far.
#[derive(Drop)]
struct script_t {
    lists: Vec<Vec<yaml_call_t>>,
    answers: Vec<yaml_answer_t>,
}

/// The script of these words. Its answers begin with one that none of the calls gave.
fn script_of(alloc: Global, words: &[String]) -> Result<script_t, AllocError> {
    let lists = lists_of(alloc, words)?;
    let answers = vec![in alloc; yaml_answer_t::NOTHING]?;
    Ok(script_t { lists, answers })
}

/// Makes the calls of each list of a script, all on one parser, as [`run_list`] does.
fn run_lists(
    out: &mut impl Write,
    parser: &mut yaml_parser_t,
    script: &mut script_t,
) -> io::Result<()> {
    for calls in &script.lists {
        run_list(out, parser, calls, &mut script.answers)?;
    }
    Ok(())
}

/// Reads the input, and makes the calls of a script on a parser of it.
fn run_script(
    rt: &HostRuntime,
    setting: yaml_encoding_t,
    limit: u32,
    script: &mut script_t,
) -> io::Result<()>
    requires least { 1 ≤ limit }
    requires most { limit ≤ MOST_KEY_LIMIT }
{
    let mut room = [0u8; MOST];
    let count = read_input(&mut rt.stdin(), &mut room)?;
    let mut parser = yaml_parser_t::with_key_limit(rt.alloc(), &room[..count], setting, limit);
    run_lists(&mut rt.stdout(), &mut parser, script)
}

/// Reads the input, and makes the calls of each word by one `yaml_run`, all on one parser.
///
/// After each run it writes whether the run was refused memory, all answers so far, and the state of the session. The
/// answers begin with one that none of the calls gave.
pub fn run_words(
    rt: &HostRuntime,
    setting: yaml_encoding_t,
    limit: u32,
    words: &[String],
) -> io::Result<()>
    requires least { 1 ≤ limit }
    requires most { limit ≤ MOST_KEY_LIMIT }
{
    let mut script = script_of(rt.alloc(), words)?;
    run_script(rt, setting, limit, &mut script)
}

/// Writes the answer of a scan.
fn put_scanned(
    out: &mut impl Write,
    scanned: &Result<yaml_token_t, yaml_fault_t>,
) -> io::Result<()> {
    match scanned {
        Ok(token) => put_token(out, token),
        Err(fault) => put_fault(out, fault),
    }
}

/// Makes a peek and writes its answer.
fn make_peek(out: &mut impl Write, parser: &mut yaml_parser_t) -> io::Result<()> {
    match yaml_parser_peek(parser) {
        Ok(token) => {
            write!(out, "PEEKED ")?;
            put_token(out, token)
        }
        Err(fault) => put_fault(out, &fault),
    }
}

/// Skips the token that was peeked, if one was, and writes the answer.
fn make_skip(out: &mut impl Write, parser: &mut yaml_parser_t) -> io::Result<()> {
    if !yaml_parser_has_token(parser) {
        return writeln!(out, "NOTHING");
    }
    yaml_parser_skip(parser);
    writeln!(out, "SKIPPED")
}

/// Makes one call and writes its answer.
pub fn make_call(
    out: &mut impl Write,
    parser: &mut yaml_parser_t,
    call: yaml_call_t,
) -> io::Result<()> {
    match call {
        yaml_call_t::SCAN => put_scanned(out, &yaml_parser_scan(parser)),
        yaml_call_t::PEEK => make_peek(out, parser),
        yaml_call_t::SKIP => make_skip(out, parser),
    }
}

/// Makes the call of a letter, and writes its answer and the state of the session.
fn make_call_of(out: &mut impl Write, parser: &mut yaml_parser_t, letter: u8) -> io::Result<()> {
    make_call(out, parser, call_of(letter))?;
    put_state(out, parser)
}

/// Makes the calls of a word one by one on a parser, and writes the state of the session after each.
pub fn make_calls(out: &mut impl Write, parser: &mut yaml_parser_t, word: &str) -> io::Result<()> {
    for letter in word.bytes() {
        make_call_of(out, parser, letter)?;
    }
    Ok(())
}

/// Writes the line of each token.
fn put_tokens(out: &mut impl Write, tokens: &[yaml_token_t]) -> io::Result<()> {
    for token in tokens {
        put_token(out, token)?;
    }
    Ok(())
}

/// Writes all tokens that were listed, and the fault that came after them, if one did.
fn put_listed(
    out: &mut impl Write,
    tokens: &[yaml_token_t],
    fault: &Option<yaml_fault_t>,
) -> io::Result<()> {
    writeln!(out, "ANSWERED")?;
    put_tokens(out, tokens)?;
    match fault {
        Some(fault) => put_fault(out, fault),
        None => Ok(()),
    }
}

/// Writes all tokens of the input and its fault, by one `yaml_scan_all_limit`.
pub fn scan_all(rt: &HostRuntime, start: start_t) -> io::Result<()>
    requires least { 1 ≤ start.limit }
    requires most { start.limit ≤ MOST_KEY_LIMIT }
{
    let mut out = rt.stdout();
    match yaml_scan_all_limit(rt.alloc(), start.input, start.setting, start.limit) {
        Ok((tokens, fault)) => put_listed(&mut out, &tokens, &fault),
        Err(_) => writeln!(out, "REFUSED"),
    }
}

/// Writes the encoding and the bytes of a text.
fn put_text(out: &mut impl Write, text: &yaml_text_t) -> io::Result<()> {
    let encoding = text.encoding();
    write!(out, "TEXT {encoding:?} ")?;
    out.write_all(text.bytes())?;
    writeln!(out)
}

/// Writes the encoding and the bytes of the text of the input, or its fault, by one `yaml_decode`.
pub fn decode(rt: &HostRuntime, input: &[u8], setting: yaml_encoding_t) -> io::Result<()> {
    let mut out = rt.stdout();
    match yaml_decode(rt.alloc(), input, setting) {
        Ok(text) => put_text(&mut out, &text),
        Err(fault) => put_fault(&mut out, &fault),
    }
}

/// Writes the marks of a lexeme, and what it says.
fn put_lexeme(out: &mut impl Write, lexeme: &yaml_lexeme_t) -> io::Result<()> {
    write!(out, "LEXEME")?;
    put_rest(out, lexeme.start_mark, lexeme.end_mark, &lexeme.token_data)
}

/// Writes the lexeme at the front of a text, outside of flow and with no level open, or its fault.
fn put_front(out: &mut impl Write, alloc: Global, text: &yaml_text_t) -> io::Result<()> {
    let Some(at) = mark_at(text, 0) else {
        return writeln!(out, "NOTHING");
    };
    let Some(kind) = yaml_lexeme_kind(text, at, false) else {
        return writeln!(out, "NOTHING");
    };
    let context = yaml_context_t {
        depth: 0,
        level: None,
    };
    match yaml_lexeme_at(alloc, text, at, kind, context) {
        Ok(lexeme) => put_lexeme(out, &lexeme),
        Err(fault) => put_fault(out, &fault),
    }
}

/// Decodes the input, and writes the lexeme at the front of its text.
pub fn read_front(rt: &HostRuntime, input: &[u8], setting: yaml_encoding_t) -> io::Result<()> {
    let mut out = rt.stdout();
    match yaml_decode(rt.alloc(), input, setting) {
        Ok(text) => put_front(&mut out, rt.alloc(), &text),
        Err(fault) => put_fault(&mut out, &fault),
    }
}

/// Writes the state of a new parser of an input.
fn put_new_state(
    out: &mut impl Write,
    alloc: Global,
    input: &[u8],
    setting: yaml_encoding_t,
) -> io::Result<()> {
    put_state(out, &yaml_parser_t::new(alloc, input, setting))
}

/// Makes the calls that take no memory: a new parser, its state, decoding of UTF-8, and what [`put_places`] makes.
pub fn call_bare(rt: &HostRuntime, input: &[u8], setting: yaml_encoding_t) -> io::Result<()> {
    let mut out = rt.stdout();
    put_new_state(&mut out, rt.alloc(), input, setting)?;
    match yaml_decode(rt.alloc(), input, setting) {
        Ok(text) => put_places(&mut out, rt.alloc(), &text),
        Err(fault) => put_fault(&mut out, &fault),
    }
}

/// The key limit of a word, if it is one.
fn limit_of(word: &str) -> Option<u32>
    ensures { IfSome result (λ limit. (1 ≤ limit) × (limit ≤ MOST_KEY_LIMIT)) }
{
    match word.parse() {
        Ok(limit) if limit >= 1 && limit <= MOST_KEY_LIMIT => Some(limit),
        _ => None,
    }
}

/// The key limit of a word, or the usual one if the word is empty.
pub fn limit_or_usual(word: &str) -> Option<u32>
    ensures { IfSome result (λ limit. (1 ≤ limit) × (limit ≤ MOST_KEY_LIMIT)) }
{
    match word {
        "" => Some(KEY_LIMIT),
        _ => limit_of(word),
    }
}

/// The error for words that are no command.
pub fn wrong_words() -> io::Error {
    io::Error::from(io::ErrorKind::InvalidInput)
}

/// The encoding setting of a word, or the error for words that are no command.
pub fn checked_setting(word: &str) -> io::Result<yaml_encoding_t> {
    setting_of(word).ok_or(wrong_words())
}

/// The encoding setting of a word, or that of any encoding if the word is empty, or the error for words that are no
/// command.
pub fn setting_or_any(word: &str) -> io::Result<yaml_encoding_t> {
    match word {
        "" => Ok(yaml_encoding_t::YAML_ANY_ENCODING),
        _ => checked_setting(word),
    }
}

/// The key limit of a word, or the error for words that are no command.
pub fn checked_limit(word: &str) -> io::Result<u32>
    ensures { IfOk result (λ limit. (1 ≤ limit) × (limit ≤ MOST_KEY_LIMIT)) }
{
    limit_of(word).ok_or(wrong_words())
}
