//! Commands, inputs, and the lines that they give.
use crate::tests::{expect, wanted_t};
use std::alloc::{AllocError, Global};
use std::process::Abort;
use std::test::Fail;

/// A command, an input, the exit status, and the lines that are written.
pub(crate) type row_t = (&'static str, &'static [u8], u8, &'static str);

/// Asserts what each row says.
pub(crate) fn expect_rows(rt: &(impl Abort + AllocGlobal), rows: &[row_t]) -> Result<(), Fail> {
    for (command, input, status, lines) in rows {
        let wanted = wanted_t {
            status: *status,
            lines,
        };
        expect(rt, command, input, wanted)?;
    }
    Ok(())
}

/// Block collections, and the keys and levels that open and close them.
const BLOCKS: [row_t; 14] = [
    (
        "scan any",
        b"",
        0,
        "\
STREAM-START 0:0:0 0:0:0 UTF8
STREAM-END 0:0:0 0:0:0
",
    ),
    (
        "scan any",
        b"a: 1",
        0,
        "\
STREAM-START 0:0:0 0:0:0 UTF8
BLOCK-MAPPING-START 0:0:0 0:0:0
KEY 0:0:0 0:0:0
SCALAR 0:0:0 1:0:1 plain 61
VALUE 1:0:1 2:0:2
SCALAR 3:0:3 4:0:4 plain 31
BLOCK-END 4:1:0 4:1:0
STREAM-END 4:1:0 4:1:0
",
    ),
    (
        "scan any",
        b"- a\n- b\n",
        0,
        "\
STREAM-START 0:0:0 0:0:0 UTF8
BLOCK-SEQUENCE-START 0:0:0 0:0:0
BLOCK-ENTRY 0:0:0 1:0:1
SCALAR 2:0:2 3:0:3 plain 61
BLOCK-ENTRY 4:1:0 5:1:1
SCALAR 6:1:2 7:1:3 plain 62
BLOCK-END 8:2:0 8:2:0
STREAM-END 8:2:0 8:2:0
",
    ),
    (
        "scan any",
        b"a:\n- b\n",
        0,
        "\
STREAM-START 0:0:0 0:0:0 UTF8
BLOCK-MAPPING-START 0:0:0 0:0:0
KEY 0:0:0 0:0:0
SCALAR 0:0:0 1:0:1 plain 61
VALUE 1:0:1 2:0:2
BLOCK-ENTRY 3:1:0 4:1:1
SCALAR 5:1:2 6:1:3 plain 62
BLOCK-END 7:2:0 7:2:0
STREAM-END 7:2:0 7:2:0
",
    ),
    (
        "scan any",
        b"&a b: c",
        0,
        "\
STREAM-START 0:0:0 0:0:0 UTF8
BLOCK-MAPPING-START 0:0:0 0:0:0
KEY 0:0:0 0:0:0
ANCHOR 0:0:0 2:0:2 61
SCALAR 3:0:3 4:0:4 plain 62
VALUE 4:0:4 5:0:5
SCALAR 6:0:6 7:0:7 plain 63
BLOCK-END 7:1:0 7:1:0
STREAM-END 7:1:0 7:1:0
",
    ),
    (
        "scan any",
        b"[a]: b",
        0,
        "\
STREAM-START 0:0:0 0:0:0 UTF8
BLOCK-MAPPING-START 0:0:0 0:0:0
KEY 0:0:0 0:0:0
FLOW-SEQUENCE-START 0:0:0 1:0:1
SCALAR 1:0:1 2:0:2 plain 61
FLOW-SEQUENCE-END 2:0:2 3:0:3
VALUE 3:0:3 4:0:4
SCALAR 5:0:5 6:0:6 plain 62
BLOCK-END 6:1:0 6:1:0
STREAM-END 6:1:0 6:1:0
",
    ),
    (
        "scan any",
        b"a:\n  b: 1\n ",
        0,
        "\
STREAM-START 0:0:0 0:0:0 UTF8
BLOCK-MAPPING-START 0:0:0 0:0:0
KEY 0:0:0 0:0:0
SCALAR 0:0:0 1:0:1 plain 61
VALUE 1:0:1 2:0:2
BLOCK-MAPPING-START 5:1:2 5:1:2
KEY 5:1:2 5:1:2
SCALAR 5:1:2 6:1:3 plain 62
VALUE 6:1:3 7:1:4
SCALAR 8:1:5 9:1:6 plain 31
BLOCK-END 11:2:1 11:2:1
BLOCK-END 11:3:0 11:3:0
STREAM-END 11:3:0 11:3:0
",
    ),
    (
        "scan any",
        b"? a\n: b",
        0,
        "\
STREAM-START 0:0:0 0:0:0 UTF8
BLOCK-MAPPING-START 0:0:0 0:0:0
KEY 0:0:0 1:0:1
SCALAR 2:0:2 3:0:3 plain 61
VALUE 4:1:0 5:1:1
SCALAR 6:1:2 7:1:3 plain 62
BLOCK-END 7:2:0 7:2:0
STREAM-END 7:2:0 7:2:0
",
    ),
    (
        "scan any",
        b"- - a\n  - b\n- c",
        0,
        "\
STREAM-START 0:0:0 0:0:0 UTF8
BLOCK-SEQUENCE-START 0:0:0 0:0:0
BLOCK-ENTRY 0:0:0 1:0:1
BLOCK-SEQUENCE-START 2:0:2 2:0:2
BLOCK-ENTRY 2:0:2 3:0:3
SCALAR 4:0:4 5:0:5 plain 61
BLOCK-ENTRY 8:1:2 9:1:3
SCALAR 10:1:4 11:1:5 plain 62
BLOCK-END 12:2:0 12:2:0
BLOCK-ENTRY 12:2:0 13:2:1
SCALAR 14:2:2 15:2:3 plain 63
BLOCK-END 15:3:0 15:3:0
STREAM-END 15:3:0 15:3:0
",
    ),
    (
        "scan any",
        b"? - a",
        0,
        "\
STREAM-START 0:0:0 0:0:0 UTF8
BLOCK-MAPPING-START 0:0:0 0:0:0
KEY 0:0:0 1:0:1
BLOCK-SEQUENCE-START 2:0:2 2:0:2
BLOCK-ENTRY 2:0:2 3:0:3
SCALAR 4:0:4 5:0:5 plain 61
BLOCK-END 5:1:0 5:1:0
BLOCK-END 5:1:0 5:1:0
STREAM-END 5:1:0 5:1:0
",
    ),
    (
        "scan any",
        b"a:",
        0,
        "\
STREAM-START 0:0:0 0:0:0 UTF8
BLOCK-MAPPING-START 0:0:0 0:0:0
KEY 0:0:0 0:0:0
SCALAR 0:0:0 1:0:1 plain 61
VALUE 1:0:1 2:0:2
BLOCK-END 2:1:0 2:1:0
STREAM-END 2:1:0 2:1:0
",
    ),
    (
        "scan any",
        b"- ",
        0,
        "\
STREAM-START 0:0:0 0:0:0 UTF8
BLOCK-SEQUENCE-START 0:0:0 0:0:0
BLOCK-ENTRY 0:0:0 1:0:1
BLOCK-END 2:1:0 2:1:0
STREAM-END 2:1:0 2:1:0
",
    ),
    (
        "scan any",
        b"&a\nb: c",
        0,
        "\
STREAM-START 0:0:0 0:0:0 UTF8
ANCHOR 0:0:0 2:0:2 61
BLOCK-MAPPING-START 3:1:0 3:1:0
KEY 3:1:0 3:1:0
SCALAR 3:1:0 4:1:1 plain 62
VALUE 4:1:1 5:1:2
SCALAR 6:1:3 7:1:4 plain 63
BLOCK-END 7:2:0 7:2:0
STREAM-END 7:2:0 7:2:0
",
    ),
    (
        "scan any",
        b"a: 1\n\xEF\xBB\xBFb: 2",
        0,
        "\
STREAM-START 0:0:0 0:0:0 UTF8
BLOCK-MAPPING-START 0:0:0 0:0:0
KEY 0:0:0 0:0:0
SCALAR 0:0:0 1:0:1 plain 61
VALUE 1:0:1 2:0:2
SCALAR 3:0:3 4:0:4 plain 31
BLOCK-MAPPING-START 8:1:1 8:1:1
KEY 8:1:1 8:1:1
SCALAR 8:1:1 9:1:2 plain 62
VALUE 9:1:2 10:1:3
SCALAR 11:1:4 12:1:5 plain 32
BLOCK-END 12:2:0 12:2:0
BLOCK-END 12:2:0 12:2:0
STREAM-END 12:2:0 12:2:0
",
    ),
];

#[test]
fn blocks(rt: HostRuntime) -> Result<(), Fail> {
    expect_rows(&rt, &BLOCKS)
}

/// Flow collections.
const FLOWS: [row_t; 5] = [
    (
        "scan any",
        b"{a: 1, b: 2}",
        0,
        "\
STREAM-START 0:0:0 0:0:0 UTF8
FLOW-MAPPING-START 0:0:0 1:0:1
KEY 1:0:1 1:0:1
SCALAR 1:0:1 2:0:2 plain 61
VALUE 2:0:2 3:0:3
SCALAR 4:0:4 5:0:5 plain 31
FLOW-ENTRY 5:0:5 6:0:6
KEY 7:0:7 7:0:7
SCALAR 7:0:7 8:0:8 plain 62
VALUE 8:0:8 9:0:9
SCALAR 10:0:10 11:0:11 plain 32
FLOW-MAPPING-END 11:0:11 12:0:12
STREAM-END 12:1:0 12:1:0
",
    ),
    (
        "scan any",
        b"a: [b",
        0,
        "\
STREAM-START 0:0:0 0:0:0 UTF8
BLOCK-MAPPING-START 0:0:0 0:0:0
KEY 0:0:0 0:0:0
SCALAR 0:0:0 1:0:1 plain 61
VALUE 1:0:1 2:0:2
FLOW-SEQUENCE-START 3:0:3 4:0:4
SCALAR 4:0:4 5:0:5 plain 62
STREAM-END 5:1:0 5:1:0
",
    ),
    (
        "scan any",
        b"[a\nb: c]",
        0,
        "\
STREAM-START 0:0:0 0:0:0 UTF8
FLOW-SEQUENCE-START 0:0:0 1:0:1
SCALAR 1:0:1 4:1:1 plain 612062
VALUE 4:1:1 5:1:2
SCALAR 6:1:3 7:1:4 plain 63
FLOW-SEQUENCE-END 7:1:4 8:1:5
STREAM-END 8:2:0 8:2:0
",
    ),
    (
        "scan any",
        b"[\"x\ny\", z: w]",
        0,
        "\
STREAM-START 0:0:0 0:0:0 UTF8
FLOW-SEQUENCE-START 0:0:0 1:0:1
SCALAR 1:0:1 6:1:2 double 782079
FLOW-ENTRY 6:1:2 7:1:3
KEY 8:1:4 8:1:4
SCALAR 8:1:4 9:1:5 plain 7a
VALUE 9:1:5 10:1:6
SCALAR 11:1:7 12:1:8 plain 77
FLOW-SEQUENCE-END 12:1:8 13:1:9
STREAM-END 13:2:0 13:2:0
",
    ),
    (
        "scan any",
        b"[\n%YAML 1.1\n]",
        0,
        "\
STREAM-START 0:0:0 0:0:0 UTF8
FLOW-SEQUENCE-START 0:0:0 1:0:1
VERSION-DIRECTIVE 2:1:0 11:1:9 1 1
FLOW-SEQUENCE-END 12:2:0 13:2:1
STREAM-END 13:3:0 13:3:0
",
    ),
];

#[test]
fn flows(rt: HostRuntime) -> Result<(), Fail> {
    expect_rows(&rt, &FLOWS)
}

/// Scalars of all styles, their values and their ends.
const SCALARS: [row_t; 12] = [
    (
        "scan any",
        b"|\n   \n a",
        0,
        "\
STREAM-START 0:0:0 0:0:0 UTF8
SCALAR 0:0:0 6:2:0 literal -
SCALAR 7:2:1 8:2:2 plain 61
STREAM-END 8:3:0 8:3:0
",
    ),
    (
        "scan any",
        b"|\n a\n  b\n",
        0,
        "\
STREAM-START 0:0:0 0:0:0 UTF8
SCALAR 0:0:0 9:3:0 literal 610a20620a
STREAM-END 9:3:0 9:3:0
",
    ),
    (
        "scan any",
        b">-\n a\n\n b\n",
        0,
        "\
STREAM-START 0:0:0 0:0:0 UTF8
SCALAR 0:0:0 10:4:0 folded 610a62
STREAM-END 10:4:0 10:4:0
",
    ),
    (
        "scan any",
        b"|+\n a\n\n",
        0,
        "\
STREAM-START 0:0:0 0:0:0 UTF8
SCALAR 0:0:0 7:3:0 literal 610a0a
STREAM-END 7:3:0 7:3:0
",
    ),
    (
        "scan any",
        b"\"a\n\n  b\"",
        0,
        "\
STREAM-START 0:0:0 0:0:0 UTF8
SCALAR 0:0:0 8:2:4 double 610a62
STREAM-END 8:3:0 8:3:0
",
    ),
    (
        "scan any",
        b"\"a\\\n  b\"",
        0,
        "\
STREAM-START 0:0:0 0:0:0 UTF8
SCALAR 0:0:0 8:1:4 double 6162
STREAM-END 8:2:0 8:2:0
",
    ),
    (
        "scan any",
        b"\"a\\x41\\u00e9\"",
        0,
        "\
STREAM-START 0:0:0 0:0:0 UTF8
SCALAR 0:0:0 13:0:13 double 6141c3a9
STREAM-END 13:1:0 13:1:0
",
    ),
    (
        "scan any",
        b"'it''s'",
        0,
        "\
STREAM-START 0:0:0 0:0:0 UTF8
SCALAR 0:0:0 7:0:7 single 69742773
STREAM-END 7:1:0 7:1:0
",
    ),
    (
        "scan any",
        b"a\xE2\x80\xA8b",
        0,
        "\
STREAM-START 0:0:0 0:0:0 UTF8
SCALAR 0:0:0 5:1:1 plain 61e280a862
STREAM-END 5:2:0 5:2:0
",
    ),
    (
        "scan any",
        b"a\r\nb",
        0,
        "\
STREAM-START 0:0:0 0:0:0 UTF8
SCALAR 0:0:0 4:1:1 plain 612062
STREAM-END 4:2:0 4:2:0
",
    ),
    (
        "scan any",
        b"\"a\"#b",
        0,
        "\
STREAM-START 0:0:0 0:0:0 UTF8
SCALAR 0:0:0 3:0:3 double 61
STREAM-END 5:1:0 5:1:0
",
    ),
    (
        "scan any",
        b"a\xEF\xBB\xBFb",
        0,
        "\
STREAM-START 0:0:0 0:0:0 UTF8
SCALAR 0:0:0 5:0:3 plain 61efbbbf62
STREAM-END 5:1:0 5:1:0
",
    ),
];

#[test]
fn scalars(rt: HostRuntime) -> Result<(), Fail> {
    expect_rows(&rt, &SCALARS)
}

/// Tags, directives and document markers.
const NAMES: [row_t; 8] = [
    (
        "scan any",
        b"%TAG !e! tag:e,2000:\n--- !e!x y",
        0,
        "\
STREAM-START 0:0:0 0:0:0 UTF8
TAG-DIRECTIVE 0:0:0 20:0:20 216521 7461673a652c323030303a
DOCUMENT-START 21:1:0 24:1:3
TAG 25:1:4 29:1:8 216521 78
SCALAR 30:1:9 31:1:10 plain 79
STREAM-END 31:2:0 31:2:0
",
    ),
    (
        "scan any",
        b"!%00 x",
        0,
        "\
STREAM-START 0:0:0 0:0:0 UTF8
TAG 0:0:0 4:0:4 21 00
SCALAR 5:0:5 6:0:6 plain 78
STREAM-END 6:1:0 6:1:0
",
    ),
    (
        "scan any",
        b"!%C0%80 x",
        0,
        "\
STREAM-START 0:0:0 0:0:0 UTF8
TAG 0:0:0 7:0:7 21 c080
SCALAR 8:0:8 9:0:9 plain 78
STREAM-END 9:1:0 9:1:0
",
    ),
    (
        "scan any",
        b"! x",
        0,
        "\
STREAM-START 0:0:0 0:0:0 UTF8
TAG 0:0:0 1:0:1 - 21
SCALAR 2:0:2 3:0:3 plain 78
STREAM-END 3:1:0 3:1:0
",
    ),
    (
        "scan any",
        b"!!str x",
        0,
        "\
STREAM-START 0:0:0 0:0:0 UTF8
TAG 0:0:0 5:0:5 2121 737472
SCALAR 6:0:6 7:0:7 plain 78
STREAM-END 7:1:0 7:1:0
",
    ),
    (
        "scan any",
        b"!<tag:x,2000:y> z",
        0,
        "\
STREAM-START 0:0:0 0:0:0 UTF8
TAG 0:0:0 15:0:15 - 7461673a782c323030303a79
SCALAR 16:0:16 17:0:17 plain 7a
STREAM-END 17:1:0 17:1:0
",
    ),
    (
        "scan any",
        b"--- a\n...\n",
        0,
        "\
STREAM-START 0:0:0 0:0:0 UTF8
DOCUMENT-START 0:0:0 3:0:3
SCALAR 4:0:4 5:0:5 plain 61
DOCUMENT-END 6:1:0 9:1:3
STREAM-END 10:2:0 10:2:0
",
    ),
    (
        "scan any",
        b"!%ED%A0%80 x",
        0,
        "\
STREAM-START 0:0:0 0:0:0 UTF8
TAG 0:0:0 10:0:10 21 eda080
SCALAR 11:0:11 12:0:12 plain 78
STREAM-END 12:1:0 12:1:0
",
    ),
];

#[test]
fn names(rt: HostRuntime) -> Result<(), Fail> {
    expect_rows(&rt, &NAMES)
}

/// Encodings and byte order marks.
const ENCODINGS: [row_t; 6] = [
    (
        "scan utf8",
        b"\xEF\xBB\xBFa: 1",
        0,
        "\
STREAM-START 0:0:0 0:0:0 UTF8
BLOCK-MAPPING-START 3:0:1 3:0:1
KEY 3:0:1 3:0:1
SCALAR 3:0:1 4:0:2 plain 61
VALUE 4:0:2 5:0:3
SCALAR 6:0:4 7:0:5 plain 31
BLOCK-END 7:1:0 7:1:0
STREAM-END 7:1:0 7:1:0
",
    ),
    (
        "scan any",
        b"\xEF\xBB\xBFa: 1",
        0,
        "\
STREAM-START 0:0:0 0:0:0 UTF8
BLOCK-MAPPING-START 0:0:0 0:0:0
KEY 0:0:0 0:0:0
SCALAR 0:0:0 1:0:1 plain 61
VALUE 1:0:1 2:0:2
SCALAR 3:0:3 4:0:4 plain 31
BLOCK-END 4:1:0 4:1:0
STREAM-END 4:1:0 4:1:0
",
    ),
    (
        "scan any",
        b"\xFF\xFE=\xD8\x00\xDE",
        0,
        "\
STREAM-START 0:0:0 0:0:0 UTF16LE
SCALAR 0:0:0 4:0:1 plain f09f9880
STREAM-END 4:1:0 4:1:0
",
    ),
    (
        "scan any",
        b"\xFE\xFF\x00a",
        0,
        "\
STREAM-START 0:0:0 0:0:0 UTF16BE
SCALAR 0:0:0 1:0:1 plain 61
STREAM-END 1:1:0 1:1:0
",
    ),
    (
        "scan utf16le",
        b"\xFF\xFEa\x00",
        0,
        "\
STREAM-START 0:0:0 0:0:0 UTF16LE
SCALAR 3:0:1 4:0:2 plain 61
STREAM-END 4:1:0 4:1:0
",
    ),
    (
        "scan any",
        b"\xEF\xBB\xBF\xEF\xBB\xBFa",
        0,
        "\
STREAM-START 0:0:0 0:0:0 UTF8
SCALAR 3:0:1 4:0:2 plain 61
STREAM-END 4:1:0 4:1:0
",
    ),
];

#[test]
fn encodings(rt: HostRuntime) -> Result<(), Fail> {
    expect_rows(&rt, &ENCODINGS)
}

/// Faults of steps: a missing `:`, an indicator where no key is allowed, and characters that begin no token.
const STEP_FAULTS: [row_t; 9] = [
    (
        "scan any",
        b"a:\n  b: 1\n\"x\ny\": z",
        1,
        "\
STREAM-START 0:0:0 0:0:0 UTF8
BLOCK-MAPPING-START 0:0:0 0:0:0
KEY 0:0:0 0:0:0
SCALAR 0:0:0 1:0:1 plain 61
VALUE 1:0:1 2:0:2
BLOCK-MAPPING-START 5:1:2 5:1:2
KEY 5:1:2 5:1:2
SCALAR 5:1:2 6:1:3 plain 62
VALUE 6:1:3 7:1:4
SCALAR 8:1:5 9:1:6 plain 31
FAULT scanner 10:2:0 15:3:2 while scanning a simple key; could not find expected ':'
",
    ),
    (
        "scan any",
        b"a: 1\n[b",
        1,
        "\
STREAM-START 0:0:0 0:0:0 UTF8
BLOCK-MAPPING-START 0:0:0 0:0:0
KEY 0:0:0 0:0:0
SCALAR 0:0:0 1:0:1 plain 61
VALUE 1:0:1 2:0:2
SCALAR 3:0:3 4:0:4 plain 31
FAULT scanner 5:1:0 7:2:0 while scanning a simple key; could not find expected ':'
",
    ),
    (
        "scan any",
        b"a: 1\nb",
        1,
        "\
STREAM-START 0:0:0 0:0:0 UTF8
BLOCK-MAPPING-START 0:0:0 0:0:0
KEY 0:0:0 0:0:0
SCALAR 0:0:0 1:0:1 plain 61
VALUE 1:0:1 2:0:2
SCALAR 3:0:3 4:0:4 plain 31
FAULT scanner 5:1:0 6:2:0 while scanning a simple key; could not find expected ':'
",
    ),
    (
        "scan any",
        b"%YAML 1.1\na: b",
        1,
        "\
STREAM-START 0:0:0 0:0:0 UTF8
VERSION-DIRECTIVE 0:0:0 9:0:9 1 1
SCALAR 10:1:0 11:1:1 plain 61
FAULT scanner 11:1:1 11:1:1 -; mapping values are not allowed in this context
",
    ),
    (
        "scan any",
        b"] a: 1",
        1,
        "\
STREAM-START 0:0:0 0:0:0 UTF8
FLOW-SEQUENCE-END 0:0:0 1:0:1
SCALAR 2:0:2 3:0:3 plain 61
FAULT scanner 3:0:3 3:0:3 -; mapping values are not allowed in this context
",
    ),
    (
        "scan any",
        b"a:\n\tb",
        1,
        "\
STREAM-START 0:0:0 0:0:0 UTF8
BLOCK-MAPPING-START 0:0:0 0:0:0
KEY 0:0:0 0:0:0
SCALAR 0:0:0 1:0:1 plain 61
VALUE 1:0:1 2:0:2
FAULT scanner 3:1:0 3:1:0 while scanning for the next token; found character that cannot start any token
",
    ),
    (
        "scan any",
        b"a: - b",
        1,
        "\
STREAM-START 0:0:0 0:0:0 UTF8
BLOCK-MAPPING-START 0:0:0 0:0:0
KEY 0:0:0 0:0:0
SCALAR 0:0:0 1:0:1 plain 61
VALUE 1:0:1 2:0:2
FAULT scanner 3:0:3 3:0:3 -; block sequence entries are not allowed in this context
",
    ),
    (
        "scan any",
        b"\"a\" ? b",
        1,
        "\
STREAM-START 0:0:0 0:0:0 UTF8
FAULT scanner 4:0:4 4:0:4 -; mapping keys are not allowed in this context
",
    ),
    (
        "scan any",
        b"a: b: cdefgh\xFF",
        1,
        "\
STREAM-START 0:0:0 0:0:0 UTF8
BLOCK-MAPPING-START 0:0:0 0:0:0
KEY 0:0:0 0:0:0
SCALAR 0:0:0 1:0:1 plain 61
VALUE 1:0:1 2:0:2
SCALAR 3:0:3 4:0:4 plain 62
FAULT scanner 4:0:4 4:0:4 -; mapping values are not allowed in this context
",
    ),
];

#[test]
fn step_faults(rt: HostRuntime) -> Result<(), Fail> {
    expect_rows(&rt, &STEP_FAULTS)
}

/// Faults of lexemes, with their texts.
const FAULT_TEXTS: [row_t; 7] = [
    (
        "scan any",
        b"{a:}",
        1,
        "\
STREAM-START 0:0:0 0:0:0 UTF8
FAULT scanner 1:0:1 2:0:2 while scanning a plain scalar; found unexpected ':'
",
    ),
    (
        "scan any",
        b"[!!str]",
        1,
        "\
STREAM-START 0:0:0 0:0:0 UTF8
FAULT scanner 1:0:1 6:0:6 while scanning a tag; did not find expected whitespace or line break
",
    ),
    (
        "scan any",
        b"\"\\x4g\"",
        1,
        "\
STREAM-START 0:0:0 0:0:0 UTF8
FAULT scanner 0:0:0 3:0:3 while parsing a quoted scalar; did not find expected hexadecimal number
",
    ),
    (
        "scan any",
        b"a: b\n\tc",
        1,
        "\
STREAM-START 0:0:0 0:0:0 UTF8
BLOCK-MAPPING-START 0:0:0 0:0:0
KEY 0:0:0 0:0:0
SCALAR 0:0:0 1:0:1 plain 61
VALUE 1:0:1 2:0:2
FAULT scanner 3:0:3 5:1:0 while scanning a plain scalar; found a tab character that violates indentation
",
    ),
    (
        "scan any",
        b"%YAML 1.",
        1,
        "\
STREAM-START 0:0:0 0:0:0 UTF8
FAULT scanner 0:0:0 8:0:8 while scanning a %YAML directive; did not find expected version number
",
    ),
    (
        "scan any",
        b"\"a",
        1,
        "\
STREAM-START 0:0:0 0:0:0 UTF8
FAULT scanner 0:0:0 2:0:2 while scanning a quoted scalar; found unexpected end of stream
",
    ),
    (
        "scan any",
        b"!%F8 x",
        1,
        "\
STREAM-START 0:0:0 0:0:0 UTF8
FAULT scanner 0:0:0 1:0:1 while parsing a tag; found an incorrect leading UTF-8 octet
",
    ),
];

#[test]
fn fault_texts_of_lexemes(rt: HostRuntime) -> Result<(), Fail> {
    expect_rows(&rt, &FAULT_TEXTS)
}

/// Faults of kind reader, and the tokens before the step that is near them.
const READER_FAULTS: [row_t; 18] = [
    (
        "scan any",
        b"a\xFF",
        1,
        "\
FAULT reader 1 255 invalid leading UTF-8 octet
",
    ),
    (
        "scan any",
        b"a:\xE2\x82",
        1,
        "\
FAULT reader 2 -1 incomplete UTF-8 octet sequence
",
    ),
    (
        "scan any",
        b"\xE2(",
        1,
        "\
FAULT reader 0 -1 incomplete UTF-8 octet sequence
",
    ),
    (
        "scan any",
        b"\xC3(",
        1,
        "\
FAULT reader 1 40 invalid trailing UTF-8 octet
",
    ),
    (
        "scan any",
        b"\xC0\x80",
        1,
        "\
FAULT reader 0 -1 invalid length of a UTF-8 sequence
",
    ),
    (
        "scan any",
        b"\xED\xA0\x80",
        1,
        "\
FAULT reader 0 55296 invalid Unicode character
",
    ),
    (
        "scan any",
        b"a\x00",
        1,
        "\
FAULT reader 1 0 control characters are not allowed
",
    ),
    (
        "scan any",
        b"\xFF\xFEa",
        1,
        "\
FAULT reader 2 -1 incomplete UTF-16 character
",
    ),
    (
        "scan any",
        b"\xFF\xFE\x00\xDC",
        1,
        "\
FAULT reader 2 56320 unexpected low surrogate area
",
    ),
    (
        "scan any",
        b"\xFF\xFE\x00\xD8",
        1,
        "\
FAULT reader 2 -1 incomplete UTF-16 surrogate pair
",
    ),
    (
        "scan any",
        b"\xFF\xFE\x00\xD8A\x00",
        1,
        "\
FAULT reader 4 65 expected low surrogate area
",
    ),
    (
        "scan any",
        b"\xE2\x82",
        1,
        "\
FAULT reader 0 -1 incomplete UTF-8 octet sequence
",
    ),
    (
        "scan any",
        b"a: 1\nb: 2\n\xFF",
        1,
        "\
STREAM-START 0:0:0 0:0:0 UTF8
BLOCK-MAPPING-START 0:0:0 0:0:0
KEY 0:0:0 0:0:0
SCALAR 0:0:0 1:0:1 plain 61
VALUE 1:0:1 2:0:2
FAULT reader 10 255 invalid leading UTF-8 octet
",
    ),
    (
        "scan any",
        b"\xEF\xBB\xBFa: 1\nb: 2\n\xFF",
        1,
        "\
STREAM-START 0:0:0 0:0:0 UTF8
BLOCK-MAPPING-START 0:0:0 0:0:0
KEY 0:0:0 0:0:0
SCALAR 0:0:0 1:0:1 plain 61
VALUE 1:0:1 2:0:2
FAULT reader 13 255 invalid leading UTF-8 octet
",
    ),
    (
        "scan any",
        b"a: b: cdefg\xFF",
        1,
        "\
STREAM-START 0:0:0 0:0:0 UTF8
BLOCK-MAPPING-START 0:0:0 0:0:0
KEY 0:0:0 0:0:0
SCALAR 0:0:0 1:0:1 plain 61
VALUE 1:0:1 2:0:2
FAULT reader 11 255 invalid leading UTF-8 octet
",
    ),
    (
        "scan any",
        b"a: bcdef\xFF",
        1,
        "\
STREAM-START 0:0:0 0:0:0 UTF8
FAULT reader 8 255 invalid leading UTF-8 octet
",
    ),
    (
        "scan any",
        b"abcdefg\xFF",
        1,
        "\
FAULT reader 7 255 invalid leading UTF-8 octet
",
    ),
    (
        "scan any",
        b"\xC3\xA9\xC3\xA9\xC3\xA9\xC3\xA9\xC3\xA9\xC3\xA9\xC3\xA9\xC3\xA9\xFF",
        1,
        "\
STREAM-START 0:0:0 0:0:0 UTF8
FAULT reader 16 255 invalid leading UTF-8 octet
",
    ),
];

#[test]
fn reader_faults(rt: HostRuntime) -> Result<(), Fail> {
    expect_rows(&rt, &READER_FAULTS)
}

/// Key limits that are set.
const KEY_LIMITS: [row_t; 4] = [
    (
        "scan any 1",
        b"a: 1",
        0,
        "\
STREAM-START 0:0:0 0:0:0 UTF8
BLOCK-MAPPING-START 0:0:0 0:0:0
KEY 0:0:0 0:0:0
SCALAR 0:0:0 1:0:1 plain 61
VALUE 1:0:1 2:0:2
SCALAR 3:0:3 4:0:4 plain 31
BLOCK-END 4:1:0 4:1:0
STREAM-END 4:1:0 4:1:0
",
    ),
    (
        "scan any 1",
        b"ab: 1",
        1,
        "\
STREAM-START 0:0:0 0:0:0 UTF8
SCALAR 0:0:0 2:0:2 plain 6162
FAULT scanner 2:0:2 2:0:2 -; mapping values are not allowed in this context
",
    ),
    (
        "scan any 2",
        b"ab: 1",
        0,
        "\
STREAM-START 0:0:0 0:0:0 UTF8
BLOCK-MAPPING-START 0:0:0 0:0:0
KEY 0:0:0 0:0:0
SCALAR 0:0:0 2:0:2 plain 6162
VALUE 2:0:2 3:0:3
SCALAR 4:0:4 5:0:5 plain 31
BLOCK-END 5:1:0 5:1:0
STREAM-END 5:1:0 5:1:0
",
    ),
    (
        "scan any 1",
        b"a: 1\nab: 2",
        1,
        "\
STREAM-START 0:0:0 0:0:0 UTF8
BLOCK-MAPPING-START 0:0:0 0:0:0
KEY 0:0:0 0:0:0
SCALAR 0:0:0 1:0:1 plain 61
VALUE 1:0:1 2:0:2
SCALAR 3:0:3 4:0:4 plain 31
FAULT scanner 5:1:0 7:1:2 while scanning a simple key; could not find expected ':'
",
    ),
];

#[test]
fn key_limits(rt: HostRuntime) -> Result<(), Fail> {
    expect_rows(&rt, &KEY_LIMITS)
}

/// A text with a part that is repeated: what comes before it, the part, and what comes after it.
fn repeated(alloc: Global, parts: &[&str; 3], count: usize) -> Result<String, AllocError> {
    let [head, part, tail] = parts;
    let mut text = String::from_str(alloc, head)?;
    for _ in 0..count {
        text.push_str(part)?;
    }
    text.push_str(tail)?;
    Ok(text)
}

/// A command, and an input and lines in which a part is repeated.
struct long_row_t {
    command: &'static str,
    /// How often the parts are repeated.
    count: usize,
    /// The input: what comes before the repeated part, that part, and what comes after it.
    before: &'static str,
    part: &'static str,
    after: &'static str,
    /// The exit status.
    status: u8,
    /// The lines: what comes before the repeated part, that part, and what comes after it.
    lines_before: &'static str,
    lines_part: &'static str,
    lines_after: &'static str,
}

/// Scalars that are as long as the key limit, or a byte longer.
const LONG_KEYS: [long_row_t; 9] = [
    long_row_t {
        command: "scan any",
        count: 1024,
        before: "",
        part: "x",
        after: ": 1",
        status: 0,
        lines_before: "\
STREAM-START 0:0:0 0:0:0 UTF8
BLOCK-MAPPING-START 0:0:0 0:0:0
KEY 0:0:0 0:0:0
SCALAR 0:0:0 1024:0:1024 plain ",
        lines_part: "78",
        lines_after: "\n\
VALUE 1024:0:1024 1025:0:1025
SCALAR 1026:0:1026 1027:0:1027 plain 31
BLOCK-END 1027:1:0 1027:1:0
STREAM-END 1027:1:0 1027:1:0
",
    },
    long_row_t {
        command: "scan any",
        count: 1025,
        before: "",
        part: "x",
        after: ": 1",
        status: 1,
        lines_before: "\
STREAM-START 0:0:0 0:0:0 UTF8
SCALAR 0:0:0 1025:0:1025 plain ",
        lines_part: "78",
        lines_after: "\n\
FAULT scanner 1025:0:1025 1025:0:1025 -; mapping values are not allowed in this context
",
    },
    long_row_t {
        command: "scan any",
        count: 513,
        before: "",
        part: "\u{E9}",
        after: ": 1",
        status: 1,
        lines_before: "\
STREAM-START 0:0:0 0:0:0 UTF8
SCALAR 0:0:0 1026:0:513 plain ",
        lines_part: "c3a9",
        lines_after: "\n\
FAULT scanner 1026:0:513 1026:0:513 -; mapping values are not allowed in this context
",
    },
    long_row_t {
        command: "scan any",
        count: 512,
        before: "",
        part: "\u{E9}",
        after: ": 1",
        status: 0,
        lines_before: "\
STREAM-START 0:0:0 0:0:0 UTF8
BLOCK-MAPPING-START 0:0:0 0:0:0
KEY 0:0:0 0:0:0
SCALAR 0:0:0 1024:0:512 plain ",
        lines_part: "c3a9",
        lines_after: "\n\
VALUE 1024:0:512 1025:0:513
SCALAR 1026:0:514 1027:0:515 plain 31
BLOCK-END 1027:1:0 1027:1:0
STREAM-END 1027:1:0 1027:1:0
",
    },
    long_row_t {
        command: "scan any",
        count: 1025,
        before: "[",
        part: "x",
        after: ": 1]",
        status: 0,
        lines_before: "\
STREAM-START 0:0:0 0:0:0 UTF8
FLOW-SEQUENCE-START 0:0:0 1:0:1
SCALAR 1:0:1 1026:0:1026 plain ",
        lines_part: "78",
        lines_after: "\n\
VALUE 1026:0:1026 1027:0:1027
SCALAR 1028:0:1028 1029:0:1029 plain 31
FLOW-SEQUENCE-END 1029:0:1029 1030:0:1030
STREAM-END 1030:1:0 1030:1:0
",
    },
    long_row_t {
        command: "scan any",
        count: 1024,
        before: "[",
        part: "x",
        after: ": 1]",
        status: 0,
        lines_before: "\
STREAM-START 0:0:0 0:0:0 UTF8
FLOW-SEQUENCE-START 0:0:0 1:0:1
KEY 1:0:1 1:0:1
SCALAR 1:0:1 1025:0:1025 plain ",
        lines_part: "78",
        lines_after: "\n\
VALUE 1025:0:1025 1026:0:1026
SCALAR 1027:0:1027 1028:0:1028 plain 31
FLOW-SEQUENCE-END 1028:0:1028 1029:0:1029
STREAM-END 1029:1:0 1029:1:0
",
    },
    long_row_t {
        command: "scan any",
        count: 1024,
        before: "",
        part: "x",
        after: " : 1",
        status: 1,
        lines_before: "\
STREAM-START 0:0:0 0:0:0 UTF8
SCALAR 0:0:0 1024:0:1024 plain ",
        lines_part: "78",
        lines_after: "\n\
FAULT scanner 1025:0:1025 1025:0:1025 -; mapping values are not allowed in this context
",
    },
    long_row_t {
        command: "scan any",
        count: 1025,
        before: "a: 1\n",
        part: "x",
        after: ": 2",
        status: 1,
        lines_before: "\
STREAM-START 0:0:0 0:0:0 UTF8
BLOCK-MAPPING-START 0:0:0 0:0:0
KEY 0:0:0 0:0:0
SCALAR 0:0:0 1:0:1 plain 61
VALUE 1:0:1 2:0:2
SCALAR 3:0:3 4:0:4 plain 31
FAULT scanner 5:1:0 1030:1:1025 while scanning a simple key; could not find expected ':'
",
        lines_part: "",
        lines_after: "",
    },
    long_row_t {
        command: "scan any 65536",
        count: 1025,
        before: "",
        part: "x",
        after: ": 1",
        status: 0,
        lines_before: "\
STREAM-START 0:0:0 0:0:0 UTF8
BLOCK-MAPPING-START 0:0:0 0:0:0
KEY 0:0:0 0:0:0
SCALAR 0:0:0 1025:0:1025 plain ",
        lines_part: "78",
        lines_after: "\n\
VALUE 1025:0:1025 1026:0:1026
SCALAR 1027:0:1027 1028:0:1028 plain 31
BLOCK-END 1028:1:0 1028:1:0
STREAM-END 1028:1:0 1028:1:0
",
    },
];

/// Asserts what a long row says.
fn expect_long(rt: &(impl Abort + AllocGlobal), row: &long_row_t) -> Result<(), Fail> {
    let input = repeated(rt.alloc(), &[row.before, row.part, row.after], row.count)?;
    let lines = [row.lines_before, row.lines_part, row.lines_after];
    let lines = repeated(rt.alloc(), &lines, row.count)?;
    let wanted = wanted_t {
        status: row.status,
        lines: lines.as_str(),
    };
    expect(rt, row.command, input.as_bytes(), wanted)
}

/// Asserts what each long row says.
fn expect_long_rows(rt: &(impl Abort + AllocGlobal), rows: &[long_row_t]) -> Result<(), Fail> {
    for row in rows {
        expect_long(rt, row)?;
    }
    Ok(())
}

#[test]
fn long_keys(rt: HostRuntime) -> Result<(), Fail> {
    expect_long_rows(&rt, &LONG_KEYS)
}

/// The answer to an empty word of calls is nothing, whatever the input is.
const NO_CALLS: [row_t; 7] = [
    ("calls any ", b"", 0, ""),
    ("calls any ", b"a: b: c", 0, ""),
    ("calls any ", b"[a]", 0, ""),
    ("calls any ", b"{a:}", 0, ""),
    ("calls any ", b"\xFF", 0, ""),
    ("calls any ", b"\xFF\xFEa", 0, ""),
    ("calls any ", b"anything: [", 0, ""),
];

#[test]
fn no_calls(rt: HostRuntime) -> Result<(), Fail> {
    expect_rows(&rt, &NO_CALLS)
}
