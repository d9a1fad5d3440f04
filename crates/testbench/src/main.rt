//! Answers test scripts, makes calls in which memory may be refused, and measures.
//!
//! Each line of the input is a question about a text in UTF-8, or about an input, and the answer is one line:
//!
//! - `gap FLOW ALLOWED INDEX TEXT`: the mark after the gap, and whether a break is in it;
//! - `kind FLOW INDEX TEXT`: the kind of lexeme, or `-`;
//! - `lex DEPTH LEVEL INDEX TEXT`: the lexeme of the kind at that place: its type, the bytes of its parts, its start,
//!   end and reach, and whether it passed a break; or the fault's context, problem and their marks; or `-`;
//! - `decode ENC TEXT`: the encoding, the text in UTF-8, and the mark of its end; or the offset of what is wrong, its
//!   value and the problem.
//!
//! FLOW and ALLOWED are 0 or 1, INDEX counts bytes, LEVEL is a column or `-`, TEXT is hexadecimal or `-`, ENC is as
//! below. The answer to a line that is no such question is `?`.
//!
//! With the word `measure` something is done nine times with the input, or its longest front that is text: the
//! lexeme at its front is read, with `measure walk` all its lexemes one after the other, with `measure scan` or
//! `measure scan LIMIT` the tokens of the input are scanned call by call, with `measure sink` they are given to a
//! sink, and with `measure decode` it is decoded. The answer is how many bytes were read, tokens scanned or bytes
//! decoded, and the best and the median time in nanoseconds.
//!
//! With `count WAY`, `count WAY LIMIT` or `count WAY LIMIT ENC` the tokens of the input are counted, up to the stream
//! end or the fault. The answer is how many there are, and the kind of the fault, or `-` for none. After the input is
//! read, only the calls, the lists of calls and the answer take memory. WAY is one of these:
//!
//! - `scans`; `next` (calls of `yaml_scan_next`); `skips` (a peek and a skip for each token);
//! - `lists` (calls of `yaml_run`, each with many scans); `skip-lists` (each with many peeks and skips); `longer-lists`
//!   and `longer-skip-lists` (each list is twice as long as the one before);
//! - `all` (one `yaml_scan_all`, which has the usual limit); `all-limit` (one `yaml_scan_all_limit`); `sink` (one
//!   `yaml_scan_to`);
//! - `batches` (calls of `yaml_scan_next_to` with a sink that has room for many tokens); `returned` (with one that has
//!   none);
//! - `kept` (calls of `yaml_kept_scan_to` with a sink that has room for many tokens); `kept-ones` (with room for one);
//!   `kept-peeks` (with room for one, each after a `yaml_kept_peek`);
//! - `pieces` (calls of `yaml_fed_scan_to` with a sink that has room for many tokens; once more bytes are wanted, as many
//!   more come as came before); `pieces-ones` (with room for one); `pages` (with room for many tokens, and 4,096 bytes
//!   more each time).
//!
//! With the word `rows` each line of the input is `ENC LIMIT WORD INPUT`, with the input in hexadecimal or `-`. The
//! calls of WORD are made one by one on a parser of that input, and the answers are written as those of `each`, without
//! the state of the session, and an empty line after them.
//!
//! Nine commands make calls of the library. Requests for memory may be refused or counted there: after the input is
//! read, only the named calls take memory (`session.rt`, `batches.rt`).
//!
//! - `each ENC LIMIT WORD` makes the calls of WORD one by one: `s` for a scan, `p` for a peek, `k` for a skip;
//! - `calls ENC LIMIT WORD..` makes the calls of each WORD by one `yaml_run`, all on one parser;
//! - `all ENC LIMIT` lists all tokens by one call;
//! - `batches ENC LIMIT COUNT BYTES` makes calls of `yaml_scan_next_to` on one parser, up to the stream end or a fault,
//!   and two more. At each call the sink has room for COUNT tokens, whose texts have BYTES bytes together. For each
//!   call it writes a line `GIVEN` for each token that the sink was given, a line `RETURNED` or `FAULT` for what was
//!   returned, if anything was, and the state of the session;
//! - `to ENC LIMIT COUNT BYTES` gives all tokens to such a sink by one `yaml_scan_to`. It writes a line `GIVEN` for
//!   each token, and at the end the fault, `ENDED` if there is none, or `REFUSED` if memory was;
//! - `pieces ENC LIMIT COUNT SIZE` gives all tokens by calls of `yaml_fed_scan_to` with a sink that has room for COUNT
//!   of them. Once more bytes are wanted SIZE more come. It writes what `to` writes;
//! - `decode ENC` decodes the input;
//! - `front ENC` decodes the input, and reads the lexeme at its front;
//! - `bare ENC` makes the calls that take no memory: a new parser and its state, decoding of UTF-8, and at each place
//!   of the text its mark, gaps, kinds, lexemes of one character and character classes.
//!
//! ENC is `any`, `utf8`, `utf16le` or `utf16be`, LIMIT a key limit of 1 to 65536 bytes. COUNT and BYTES are numbers, or
//! `-` if there is no limit. They may be left out, and then there is none either.
#![tactic(auto)]

ghost use Rattle.std.specs.Prelude.{◌≤◌};

mod ask;
mod bare;
mod batches;
mod commands;
mod count;
mod kept;
mod measure;
mod pieces;
mod rows;
mod session;
mod show;
mod words;

use ask::answer;
use commands::list_session;
use count::count;
use measure::{measure, task_of, work_t};
use rows::answer_row;
use session::{MOST_KEY_LIMIT, limit_or_usual, setting_or_any, start_t, wrong_words};
use std::alloc::Global;
use std::io::{BufRead, BufReader, BufWriter, Read, Write};
use std::{env, io};
use words::word_at;

/// What each line of the input is: a question, or calls on an input of its own.
#[derive(Clone, Copy)]
enum lines_t {
    QUESTIONS,
    ROWS,
}

/// Writes the answer to a question.
fn put_answer(alloc: Global, out: &mut impl Write, line: &str) -> io::Result<()> {
    let mut text = answer(alloc, line)?;
    text.push_str("\n")?;
    out.write_all(text.as_bytes())
}

/// Writes the answer to a line, if one was read.
fn answer_line(
    alloc: Global,
    out: &mut impl Write,
    lines: lines_t,
    line: io::Result<String>,
) -> io::Result<()> {
    let line = line?;
    match lines {
        lines_t::QUESTIONS => put_answer(alloc, out, line.as_str()),
        lines_t::ROWS => answer_row(alloc, out, line.as_str()),
    }
}

/// Writes the answer to each line of the input.
fn answer_each(rt: &HostRuntime, out: &mut impl Write, lines: lines_t) -> io::Result<()> {
    let alloc = rt.alloc();
    for line in BufReader::new(alloc, rt.reader())?.lines(alloc) {
        answer_line(alloc, out, lines, line)?;
    }
    Ok(())
}

/// Answers the lines of the input.
fn answer_lines(rt: &HostRuntime, lines: lines_t) -> io::Result<()> {
    let mut out = BufWriter::new(rt.alloc(), io::writer(rt))?;
    answer_each(rt, &mut out, lines)?;
    out.flush()
}

/// What is told of an input: how many tokens it has, for `count WAY`, or how long a task takes, for `measure TASK`.
fn told_of(rt: &HostRuntime, start: start_t, words: &[String]) -> io::Result<String>
    requires least { 1 ≤ start.limit }
    requires most { start.limit ≤ MOST_KEY_LIMIT }
{
    let word = word_at(words, 1);
    match word_at(words, 0) {
        "count" => count(rt.alloc(), start, word),
        _ => Ok(measure(
            rt,
            start.input,
            work_t {
                task: task_of(word),
                limit: start.limit,
            },
        )??),
    }
}

/// Reads the input, and writes what is told of it.
fn tell_input(rt: &HostRuntime, words: &[String]) -> io::Result<()> {
    let limit = limit_or_usual(word_at(words, 2)).ok_or(wrong_words())?;
    let setting = setting_or_any(word_at(words, 3))?;
    let mut input = Vec::new(rt.alloc());
    rt.reader().read_to_end(&mut input)?;
    let start = start_t {
        input: &input,
        setting,
        limit,
    };
    let text = told_of(rt, start, words)?;
    io::writer(rt).write_all(text.as_bytes())
}

/// Does what the words ask for.
fn run(rt: &HostRuntime, words: &[String]) -> io::Result<()> {
    let Some(command) = words.first() else {
        return answer_lines(rt, lines_t::QUESTIONS);
    };
    match command.as_str() {
        "measure" | "count" => tell_input(rt, words),
        "rows" => answer_lines(rt, lines_t::ROWS),
        _ => list_session(rt, words),
    }
}

fn main(rt: HostRuntime) -> io::Result<()> {
    let words: Vec<String> = env::args(&rt)?.skip(1).collect(rt.alloc())?;
    run(&rt, &words)
}
