//! The program over devices in memory.
ghost use Rattle.std.specs.Prelude.{◌≢◌};
ghost use Rattle.yaml_text.specs.declared.types.yaml_encoding_t.TheVariants.{YAML_ANY_ENCODING};
ghost use Rattle.yaml_text.specs.declared.types.yaml_scalar_style_t.TheVariants.{YAML_ANY_SCALAR_STYLE};
ghost use Rattle.yaml_text.specs.Token.{data_of};
ghost use Rattle.yaml_scan.specs.Words.{HasWords};

use std::alloc::{AllocError, Global};
use std::io;
use std::io::{Read, Write};
use std::process::Abort;
use std::test::Fail;
use yaml_listing::run::run;
use yaml_listing::{
    list_fault, list_peek, list_token, parse_args, tool_fault_t, yaml_broken_t, yaml_sink_of_t,
    yaml_sink_t, yaml_source_of_t, yaml_source_t, yaml_status,
};
use yaml_text::{
    unnamed_yaml_token_t_data, yaml_encoding_t, yaml_error_type_t, yaml_fault_t, yaml_mark_t,
    yaml_scalar_style_t, yaml_token_t, yaml_token_type_t,
};

/// Gives one byte a call, and fails after so many calls.
#[derive(Drop)]
pub(crate) struct slow_reader_t<'a> {
    pub(crate) bytes: &'a [u8],
    pub(crate) at: usize,
    pub(crate) calls: usize,
}

impl Read for slow_reader_t<'_> {
    fn read(&mut self, buf: &mut [u8]) -> io::Result<usize> {
        if self.calls == 0 {
            return Err(io::Error::from(io::ErrorKind::Other));
        }
        self.calls -= 1;
        let (Some(slot), Some(byte)) = (buf.first_mut(), self.bytes.get(self.at)) else {
            return Ok(0);
        };
        *slot = *byte;
        self.at += 1;
        Ok(1)
    }
}

/// Takes one byte a call, and after so many calls fails or takes none.
#[derive(Drop)]
pub(crate) struct slow_writer_t {
    pub(crate) taken: Vec<u8>,
    calls: usize,
    fails: bool,
}

impl Write for slow_writer_t {
    fn write(&mut self, buf: &[u8]) -> io::Result<usize> {
        if self.calls > 0 && !buf.is_empty() {
            self.calls -= 1;
            self.taken.push(buf[0])?;
            return Ok(1);
        }
        if self.fails {
            return Err(io::Error::from(io::ErrorKind::Other));
        }
        Ok(0)
    }

    fn flush(&mut self) -> io::Result<()> {
        Ok(())
    }
}

/// A writer that has taken nothing yet.
pub(crate) fn slow_writer(alloc: Global, calls: usize, fails: bool) -> slow_writer_t {
    slow_writer_t {
        taken: Vec::new(alloc),
        calls,
        fails,
    }
}

pub(crate) fn words_of(alloc: Global, command: &str) -> Result<Vec<String>, Fail> {
    let mut words = Vec::new(alloc);
    for word in command.split(' ') {
        words.push(String::from_str(alloc, word)?)?;
    }
    Ok(words)
}

/// The outcome of a command, and what was written.
fn outcome_of<R: Read + Drop, W: Write + Drop>(
    alloc: Global,
    command: &str,
    reader: R,
    writer: W,
) -> Result<(Result<bool, tool_fault_t>, W), Fail> {
    let words = words_of(alloc, command)?;
    let mut source = yaml_source_of_t::new(reader);
    let mut sink = yaml_sink_of_t::new(writer);
    let outcome = match parse_args(&words) {
        Some(command) => run(alloc, &command, &mut source, &mut sink),
        None => Err(tool_fault_t::Args),
    };
    Ok((outcome, sink.inner))
}

/// What a command is to give: its exit status, and the lines that it writes.
#[derive(Clone, Copy)]
pub(crate) struct wanted_t<'a> {
    pub(crate) status: u8,
    pub(crate) lines: &'a str,
}

/// The exit status of a command on an input, and what was written.
fn answer_to(alloc: Global, command: &str, input: &[u8]) -> Result<(u8, Vec<u8>), Fail> {
    let (outcome, written) = outcome_of(alloc, command, input, Vec::new(alloc))?;
    Ok((yaml_status(&outcome), written))
}

/// Asserts what was written. A failure names what was asked.
pub(crate) fn expect_lines(rt: &impl Abort, asked: &str, written: &[u8], lines: &str) {
    assert_eq!(rt; written, lines.as_bytes(), "{asked}: {lines}");
}

/// Asserts the status of a command on an input, and what it writes.
pub(crate) fn expect(
    rt: &(impl Abort + AllocGlobal),
    command: &str,
    input: &[u8],
    wanted: wanted_t<'_>,
) -> Result<(), Fail> {
    let lines = wanted.lines;
    let (status, written) = answer_to(rt.alloc(), command, input)?;
    assert_eq!(rt; status, wanted.status, "{command}: {lines}");
    expect_lines(rt, command, &written, lines);
    Ok(())
}

/// A part of an input, how many times it comes, and how many lines are written.
const DEEP: [(&str, usize, u64); 3] = [
    ("[", 100_000, 100_002),
    ("]", 100_000, 100_002),
    ("- ", 50_000, 150_002),
];

/// A part of an input that comes so many times.
fn repeated(alloc: Global, part: &str, count: usize) -> Result<String, Fail> {
    let mut input = String::new(alloc);
    for _ in 0..count {
        input.push_str(part)?;
    }
    Ok(input)
}

/// How many lines end in what was written.
fn count_lines(written: &[u8]) -> u64 {
    let mut lines: u64 = 0;
    for byte in written {
        if *byte == b'\n' {
            lines = lines.wrapping_add(1);
        }
    }
    lines
}

/// Asserts how many lines are written for a part of an input that comes so many times, and the last of them.
fn expect_deep(
    rt: &(impl Abort + AllocGlobal),
    part: &str,
    count: usize,
    lines: u64,
) -> Result<(), Fail> {
    let input = repeated(rt.alloc(), part, count)?;
    let (status, written) = answer_to(rt.alloc(), "scan any", input.as_bytes())?;
    assert_eq!(rt; (status, count_lines(&written)), (0, lines), "{part}");
    let last = b"STREAM-END 100000:1:0 100000:1:0\n";
    assert!(rt; written.as_slice().ends_with(last), "{part}");
    Ok(())
}

/// Depth and levels have no limit of their own.
#[test]
fn deep_inputs(rt: HostRuntime) -> Result<(), Fail> {
    for (part, count, lines) in &DEEP {
        expect_deep(&rt, part, *count, *lines)?;
    }
    Ok(())
}

fn is_command(alloc: Global, command: &str) -> Result<bool, Fail> {
    let words = words_of(alloc, command)?;
    Ok(parse_args(&words).is_some())
}

/// Asserts that the words of each command spell none, and that the program says so.
pub(crate) fn expect_wrong(rt: &(impl Abort + AllocGlobal), commands: &[&str]) -> Result<(), Fail> {
    let wanted = wanted_t {
        status: 2,
        lines: "",
    };
    for command in commands {
        let is_command = is_command(rt.alloc(), command)?;
        assert!(rt; !is_command, "{command}");
        expect(rt, command, b"a: 1", wanted)?;
    }
    Ok(())
}

/// Words that spell no command.
const WRONG: [&str; 13] = [
    "",
    "decode",
    "decode ",
    "decode utf",
    "decode utf16",
    "decode UTF8",
    "decode any any",
    "Decode any",
    "decoded any",
    "any",
    "any decode",
    " decode any",
    "decode  any",
];

#[test]
fn wrong_words(rt: HostRuntime) -> Result<(), Fail> {
    assert!(rt; parse_args(&[]).is_none());
    expect_wrong(&rt, &WRONG)
}

/// Commands, and what they write for `a: 1`.
const LISTED: [(&str, &str); 3] = [
    ("decode any", "TEXT UTF8 4 4:0:4\n"),
    (
        "scan any",
        "\
STREAM-START 0:0:0 0:0:0 UTF8
BLOCK-MAPPING-START 0:0:0 0:0:0
KEY 0:0:0 0:0:0
SCALAR 0:0:0 1:0:1 plain 61
VALUE 1:0:1 2:0:2
SCALAR 3:0:3 4:0:4 plain 31
BLOCK-END 4:1:0 4:1:0
STREAM-END 4:1:0 4:1:0
",
    ),
    (
        "calls any spks",
        "\
STREAM-START 0:0:0 0:0:0 UTF8
PEEK BLOCK-MAPPING-START 0:0:0 0:0:0
SKIP
KEY 0:0:0 0:0:0
",
    ),
];

/// The outcome of a command on `a: 1` if a read fails after so many calls, and what was written.
fn outcome_of_reads(
    alloc: Global,
    command: &str,
    calls: usize,
) -> Result<(Result<bool, tool_fault_t>, Vec<u8>), Fail> {
    let reader = slow_reader_t {
        bytes: b"a: 1",
        at: 0,
        calls,
    };
    outcome_of(alloc, command, reader, Vec::new(alloc))
}

/// Asserts an outcome, and its exit status.
fn expect_outcome(
    rt: &impl Abort,
    outcome: &Result<bool, tool_fault_t>,
    wanted: &Result<bool, tool_fault_t>,
    status: u8,
) {
    assert_eq!(rt; outcome, wanted);
    assert_eq!(rt; yaml_status(outcome), status);
}

/// A read that fails before the end, at any call, and one byte a call.
fn expect_read(
    rt: &(impl Abort + AllocGlobal),
    command: &str,
    lines: &str,
    calls: usize,
) -> Result<(), Fail> {
    let (outcome, written) = outcome_of_reads(rt.alloc(), command, calls)?;
    if calls > 4 {
        expect_outcome(rt, &outcome, &Ok(false), 0);
        expect_lines(rt, command, &written, lines);
    } else {
        expect_outcome(rt, &outcome, &Err(tool_fault_t::Read), 3);
        expect_lines(rt, command, &written, "");
    }
    Ok(())
}

#[test]
fn reads_fail(rt: HostRuntime) -> Result<(), Fail> {
    for (command, lines) in &LISTED {
        for calls in 0..6 {
            expect_read(&rt, command, lines, calls)?;
        }
    }
    Ok(())
}

/// A write that fails or takes nothing, at the call that this writer sets, and one byte a call.
fn expect_written(
    rt: &(impl Abort + AllocGlobal),
    command: &str,
    lines: &str,
    writer: slow_writer_t,
) -> Result<(), Fail> {
    let lines = lines.as_bytes();
    let count = writer.calls.min(lines.len());
    let (outcome, writer) = outcome_of(rt.alloc(), command, b"a: 1".as_slice(), writer)?;
    assert_eq!(rt; writer.taken.as_slice(), &lines[..count]);
    if count == lines.len() {
        expect_outcome(rt, &outcome, &Ok(false), 0);
    } else {
        expect_outcome(rt, &outcome, &Err(tool_fault_t::Write), 3);
    }
    Ok(())
}

#[test]
fn writes_fail(rt: HostRuntime) -> Result<(), Fail> {
    for (command, lines) in &LISTED {
        for calls in 0..250 {
            expect_written(&rt, command, lines, slow_writer(rt.alloc(), calls, true))?;
            expect_written(&rt, command, lines, slow_writer(rt.alloc(), calls, false))?;
        }
    }
    Ok(())
}

/// Whether a source says that it failed, before and after a read that fails, and what that read returns.
fn source_says() -> (bool, bool, Result<usize, yaml_broken_t>) {
    let reader = slow_reader_t {
        bytes: b"a",
        at: 0,
        calls: 0,
    };
    let mut source = yaml_source_of_t::new(reader);
    let before = source.failed();
    let read = source.pull(&mut [0u8; 4]);
    (before, source.failed(), read)
}

/// Whether a sink says that it failed, before and after a write that takes nothing, and what that write returns.
fn sink_says(alloc: Global) -> (bool, bool, Result<usize, yaml_broken_t>) {
    let mut sink = yaml_sink_of_t::new(slow_writer(alloc, 0, false));
    let before = sink.failed();
    let written = sink.put(b"a");
    (before, sink.failed(), written)
}

/// A source and a sink say that they failed after a call that failed, and not before it.
#[test]
fn devices_say_that_they_failed(rt: HostRuntime) -> Result<(), Fail> {
    assert_eq!(rt; source_says(), (false, true, Err(yaml_broken_t)));
    assert_eq!(rt; sink_says(rt.alloc()), (false, true, Err(yaml_broken_t)));
    Ok(())
}

const FROM: yaml_mark_t = yaml_mark_t {
    index: 0,
    line: 0,
    column: 0,
};

const TO: yaml_mark_t = yaml_mark_t {
    index: 4,
    line: 0,
    column: 4,
};

const PROBLEM_AT: yaml_mark_t = yaml_mark_t {
    index: 9,
    line: 1,
    column: 2,
};

const CONTEXT_AT: yaml_mark_t = yaml_mark_t {
    index: 7,
    line: 1,
    column: 0,
};

fn put_memory_fault(alloc: Global, out: &mut Vec<u8>) -> Result<(), AllocError> {
    let fault = yaml_fault_t {
        error: yaml_error_type_t::YAML_MEMORY_ERROR,
        problem: None,
        problem_offset: 0,
        problem_value: 0,
        problem_mark: FROM,
        context: None,
        context_mark: FROM,
    };
    list_fault(alloc, &fault, out)
}

fn put_scanner_fault(
    alloc: Global,
    context: Option<&'static str>,
    context_mark: yaml_mark_t,
    out: &mut Vec<u8>,
) -> Result<(), AllocError> {
    let fault = yaml_fault_t {
        error: yaml_error_type_t::YAML_SCANNER_ERROR,
        problem: Some("found no end"),
        problem_offset: 0,
        problem_value: 0,
        problem_mark: PROBLEM_AT,
        context,
        context_mark,
    };
    list_fault(alloc, &fault, out)
}

/// Lists a fault of each form.
fn put_faults(alloc: Global, out: &mut Vec<u8>) -> Result<(), AllocError> {
    put_memory_fault(alloc, out)?;
    put_scanner_fault(alloc, Some("while reading"), CONTEXT_AT, out)?;
    put_scanner_fault(alloc, None, PROBLEM_AT, out)
}

#[test]
fn listing_of_faults(rt: HostRuntime) -> Result<(), Fail> {
    let mut out = Vec::from_slice(rt.alloc(), b">")?;
    put_faults(rt.alloc(), &mut out)?;
    let lines = "\
>FAULT memory
FAULT scanner 7:1:0 9:1:2 while reading; found no end
FAULT scanner 9:1:2 9:1:2 -; found no end
";
    expect_lines(&rt, "faults", &out, lines);
    Ok(())
}

fn expect_words(
    rt: &(impl Abort + AllocGlobal),
    fault: tool_fault_t,
    words: &str,
    status: u8,
) -> Result<(), Fail> {
    let text = fault.to_string(rt.alloc())?;
    assert_eq!(rt; text.as_str(), words);
    assert_eq!(rt; yaml_status(&Err(fault)), status);
    Ok(())
}

#[test]
fn words_of_faults(rt: HostRuntime) -> Result<(), Fail> {
    expect_words(&rt, tool_fault_t::Args, "wrong arguments", 2)?;
    expect_words(&rt, tool_fault_t::Read, "read failed", 3)?;
    expect_words(&rt, tool_fault_t::Write, "write failed", 3)?;
    expect_words(&rt, tool_fault_t::Memory, "out of memory", 3)
}

/// Lists a token of these data.
fn put(
    alloc: Global,
    token_data: unnamed_yaml_token_t_data,
    out: &mut Vec<u8>,
) -> Result<(), AllocError>
    requires { HasWords (data_of token_data) }
{
    let token = yaml_token_t {
        token_data,
        start_mark: FROM,
        end_mark: TO,
    };
    list_token(alloc, &token, out)
}

fn put_tag(
    alloc: Global,
    handle: &[u8],
    suffix: &[u8],
    out: &mut Vec<u8>,
) -> Result<(), AllocError> {
    let handle = Vec::from_slice(alloc, handle)?;
    let suffix = Vec::from_slice(alloc, suffix)?;
    put(
        alloc,
        unnamed_yaml_token_t_data::TAG { handle, suffix },
        out,
    )
}

fn put_stream_start(
    alloc: Global,
    encoding: yaml_encoding_t,
    out: &mut Vec<u8>,
) -> Result<(), AllocError>
    requires { encoding ≢ YAML_ANY_ENCODING }
{
    put(
        alloc,
        unnamed_yaml_token_t_data::STREAM_START { encoding },
        out,
    )
}

fn put_stream_starts(alloc: Global, out: &mut Vec<u8>) -> Result<(), AllocError> {
    put_stream_start(alloc, yaml_encoding_t::YAML_UTF8_ENCODING, out)?;
    put_stream_start(alloc, yaml_encoding_t::YAML_UTF16LE_ENCODING, out)?;
    put_stream_start(alloc, yaml_encoding_t::YAML_UTF16BE_ENCODING, out)
}

fn put_directives(alloc: Global, out: &mut Vec<u8>) -> Result<(), AllocError> {
    let (major, minor) = (1, -20);
    put(
        alloc,
        unnamed_yaml_token_t_data::VERSION_DIRECTIVE { major, minor },
        out,
    )?;
    let handle = Vec::from_slice(alloc, b"!e!")?;
    let prefix = Vec::from_slice(alloc, b"tag:")?;
    put(
        alloc,
        unnamed_yaml_token_t_data::TAG_DIRECTIVE { handle, prefix },
        out,
    )
}

fn put_names(alloc: Global, out: &mut Vec<u8>) -> Result<(), AllocError> {
    let value = Vec::from_slice(alloc, b"a")?;
    put(alloc, unnamed_yaml_token_t_data::ALIAS { value }, out)?;
    let value = Vec::from_slice(alloc, b"b")?;
    put(alloc, unnamed_yaml_token_t_data::ANCHOR { value }, out)
}

fn put_scalar(
    alloc: Global,
    text: &[u8],
    style: yaml_scalar_style_t,
    out: &mut Vec<u8>,
) -> Result<(), AllocError>
    requires { style ≢ YAML_ANY_SCALAR_STYLE }
{
    let value = Vec::from_slice(alloc, text)?;
    put(
        alloc,
        unnamed_yaml_token_t_data::SCALAR { value, style },
        out,
    )
}

/// Lists a scalar of each style, and one of no bytes.
fn put_scalars(alloc: Global, out: &mut Vec<u8>) -> Result<(), AllocError> {
    let text = b"\x00\x09\x9f\xa0\xff";
    let (plain, single) = (
        yaml_scalar_style_t::YAML_PLAIN_SCALAR_STYLE,
        yaml_scalar_style_t::YAML_SINGLE_QUOTED_SCALAR_STYLE,
    );
    let (double, literal) = (
        yaml_scalar_style_t::YAML_DOUBLE_QUOTED_SCALAR_STYLE,
        yaml_scalar_style_t::YAML_LITERAL_SCALAR_STYLE,
    );
    let folded = yaml_scalar_style_t::YAML_FOLDED_SCALAR_STYLE;
    put_scalar(alloc, text, plain, out)?;
    put_scalar(alloc, text, single, out)?;
    put_scalar(alloc, text, double, out)?;
    put_scalar(alloc, text, literal, out)?;
    put_scalar(alloc, text, folded, out)?;
    put_scalar(alloc, b"", literal, out)
}

/// Lists the empty token, and tokens of all forms of data.
fn put_tokens(alloc: Global, out: &mut Vec<u8>) -> Result<(), AllocError> {
    list_token(alloc, &yaml_token_t::empty(), out)?;
    put_tag(alloc, b"!", b"\0", out)?;
    put_tag(alloc, b"", b"!", out)?;
    put_stream_starts(alloc, out)?;
    put_directives(alloc, out)?;
    put_names(alloc, out)?;
    put_scalars(alloc, out)?;
    put(alloc, unnamed_yaml_token_t_data::BLOCK_MAPPING_START, out)
}

#[test]
fn listing_of_tokens(rt: HostRuntime) -> Result<(), Fail> {
    let mut out = Vec::from_slice(rt.alloc(), b">")?;
    put_tokens(rt.alloc(), &mut out)?;
    let lines = "\
>NO-TOKEN
TAG 0:0:0 4:0:4 21 00
TAG 0:0:0 4:0:4 - 21
STREAM-START 0:0:0 4:0:4 UTF8
STREAM-START 0:0:0 4:0:4 UTF16LE
STREAM-START 0:0:0 4:0:4 UTF16BE
VERSION-DIRECTIVE 0:0:0 4:0:4 1 -20
TAG-DIRECTIVE 0:0:0 4:0:4 216521 7461673a
ALIAS 0:0:0 4:0:4 61
ANCHOR 0:0:0 4:0:4 62
SCALAR 0:0:0 4:0:4 plain 00099fa0ff
SCALAR 0:0:0 4:0:4 single 00099fa0ff
SCALAR 0:0:0 4:0:4 double 00099fa0ff
SCALAR 0:0:0 4:0:4 literal 00099fa0ff
SCALAR 0:0:0 4:0:4 folded 00099fa0ff
SCALAR 0:0:0 4:0:4 literal -
BLOCK-MAPPING-START 0:0:0 4:0:4
";
    expect_lines(&rt, "tokens", &out, lines);
    Ok(())
}

fn put_peek(alloc: Global, kind: yaml_token_type_t, out: &mut Vec<u8>) -> Result<(), AllocError> {
    list_peek(alloc, kind, FROM, TO, out)
}

/// Lists peeks at tokens of several types.
fn put_peeks(alloc: Global, out: &mut Vec<u8>) -> Result<(), AllocError> {
    put_peek(alloc, yaml_token_type_t::YAML_NO_TOKEN, out)?;
    put_peek(alloc, yaml_token_type_t::YAML_STREAM_START_TOKEN, out)?;
    put_peek(alloc, yaml_token_type_t::YAML_SCALAR_TOKEN, out)?;
    put_peek(alloc, yaml_token_type_t::YAML_FLOW_MAPPING_END_TOKEN, out)
}

#[test]
fn listing_of_peeks(rt: HostRuntime) -> Result<(), Fail> {
    let mut out = Vec::new(rt.alloc());
    put_peeks(rt.alloc(), &mut out)?;
    let lines = "\
PEEK NO-TOKEN
PEEK STREAM-START 0:0:0 4:0:4
PEEK SCALAR 0:0:0 4:0:4
PEEK FLOW-MAPPING-END 0:0:0 4:0:4
";
    expect_lines(&rt, "peeks", &out, lines);
    Ok(())
}
