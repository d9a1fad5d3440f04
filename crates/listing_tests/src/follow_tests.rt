//! Inputs that are followed, over devices in memory.
use crate::tests::{expect_lines, slow_reader_t, slow_writer, words_of};
use std::alloc::Global;
use std::io::Read;
use std::process::Abort;
use std::test::Fail;
use yaml_listing::{
    follow, parse_follow, tool_fault_t, yaml_sink_of_t, yaml_sink_t, yaml_source_of_t,
};
use yaml_text::yaml_encoding_t;

/// Two entries, and their listing.
const ENTRIES: &[u8] = b"- first\n- second one\n";

const LINES: &str = "\
STREAM-START 0:0:0 0:0:0 UTF8
BLOCK-SEQUENCE-START 0:0:0 0:0:0
BLOCK-ENTRY 0:0:0 1:0:1
SCALAR 2:0:2 7:0:7 plain 6669727374
BLOCK-ENTRY 8:1:0 9:1:1
SCALAR 10:1:2 20:1:12 plain 7365636f6e64206f6e65
BLOCK-END 21:2:0 21:2:0
STREAM-END 21:2:0 21:2:0
";

/// So many lines are settled once the byte of a number came.
const SETTLED: [(usize, usize); 6] = [(0, 0), (7, 0), (8, 1), (9, 3), (16, 4), (21, 5)];

/// A key with two values, of which the second one is wrong, and its listing.
const FAULTY: &[u8] = b"a: b: c\nand so on\n";

const FAULT_LINES: &str = "\
STREAM-START 0:0:0 0:0:0 UTF8
BLOCK-MAPPING-START 0:0:0 0:0:0
KEY 0:0:0 0:0:0
SCALAR 0:0:0 1:0:1 plain 61
VALUE 1:0:1 2:0:2
SCALAR 3:0:3 4:0:4 plain 62
FAULT scanner 4:0:4 4:0:4 -; mapping values are not allowed in this context
";

/// Reads one byte a call for so many calls, and then none.
fn slow_reader(bytes: &[u8], calls: usize) -> slow_reader_t<'_> {
    slow_reader_t {
        bytes,
        at: 0,
        calls,
    }
}

/// What is written of an input that is followed, and how it ends.
fn followed<R: Read + Drop>(
    alloc: Global,
    reader: R,
) -> Result<(Result<bool, tool_fault_t>, Vec<u8>), Fail> {
    let mut source = yaml_source_of_t::new(reader);
    let mut sink = yaml_sink_of_t::new(Vec::new(alloc));
    let setting = yaml_encoding_t::YAML_ANY_ENCODING;
    let outcome = follow(alloc, setting, &mut source, &mut sink);
    Ok((outcome, sink.inner))
}

/// The first lines of a listing, so many.
fn first_lines(lines: &str, count: usize) -> &str {
    let mut end: usize = 0;
    let mut left = count;
    for (at, byte) in lines.bytes().enumerate() {
        if left > 0 && byte == b'\n' {
            left -= 1;
            end = at.saturating_add(1);
        }
    }
    lines.get(..end).unwrap_or("")
}

#[test]
fn input_is_followed(rt: HostRuntime) -> Result<(), Fail> {
    let (outcome, written) = followed(rt.alloc(), ENTRIES)?;
    assert_eq!(rt; outcome, Ok(false));
    expect_lines(&rt, "at once", &written, LINES);
    let (outcome, written) = followed(rt.alloc(), slow_reader(ENTRIES, 100))?;
    assert_eq!(rt; outcome, Ok(false));
    expect_lines(&rt, "byte by byte", &written, LINES);
    Ok(())
}

/// If a read fails, the lines come first that no more bytes can change.
#[test]
fn settled_lines_come_before_a_failed_read(rt: HostRuntime) -> Result<(), Fail> {
    for (calls, count) in &SETTLED {
        let (outcome, written) = followed(rt.alloc(), slow_reader(ENTRIES, *calls))?;
        assert_eq!(rt; outcome, Err(tool_fault_t::Read));
        expect_lines(&rt, "a failed read", &written, first_lines(LINES, *count));
    }
    Ok(())
}

/// After a fault nothing more is read: the read that comes then would fail.
#[test]
fn nothing_is_read_after_a_fault(rt: HostRuntime) -> Result<(), Fail> {
    let (outcome, written) = followed(rt.alloc(), slow_reader(FAULTY, 13))?;
    assert_eq!(rt; outcome, Ok(true));
    expect_lines(&rt, "a fault", &written, FAULT_LINES);
    Ok(())
}

/// If a write fails, a beginning of the listing was written.
#[test]
fn beginning_is_written_if_a_write_fails(rt: HostRuntime) -> Result<(), Fail> {
    for calls in 0..LINES.len() {
        let mut source = yaml_source_of_t::new(ENTRIES);
        let mut sink = yaml_sink_of_t::new(slow_writer(rt.alloc(), calls, true));
        let setting = yaml_encoding_t::YAML_UTF8_ENCODING;
        let outcome = follow(rt.alloc(), setting, &mut source, &mut sink);
        assert_eq!(rt; (outcome, sink.failed()), (Err(tool_fault_t::Write), true));
        let begun = LINES.get(..calls).unwrap_or("");
        expect_lines(&rt, "a failed write", &sink.inner.taken, begun);
    }
    Ok(())
}

/// Only `follow` with an encoding asks for an input to be followed.
#[test]
fn words_that_ask_to_follow(rt: HostRuntime) -> Result<(), Fail> {
    let asked = words_of(rt.alloc(), "follow utf16le")?;
    let setting = yaml_encoding_t::YAML_UTF16LE_ENCODING;
    assert!(rt; parse_follow(&asked) == Some(setting));
    for words in &[
        "follow",
        "follow any 9",
        "follow utf-8",
        "Follow any",
        "scan any",
    ] {
        let others = words_of(rt.alloc(), words)?;
        assert!(rt; parse_follow(&others).is_none(), "{words}");
    }
    Ok(())
}
