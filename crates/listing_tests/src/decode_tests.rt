//! Inputs of `decode`, and the lines that they give.
use crate::row_tests::{expect_rows, row_t};
use std::test::Fail;

/// Texts in all encodings, with and without a byte order mark.
const DECODED: [row_t; 14] = [
    ("decode any", b"a: 1", 0, "TEXT UTF8 4 4:0:4\n"),
    ("decode any", b"", 0, "TEXT UTF8 0 0:0:0\n"),
    ("decode any", b"a\r\nb", 0, "TEXT UTF8 4 4:1:1\n"),
    ("decode any", b"\xE2\x80\xA8", 0, "TEXT UTF8 3 3:1:0\n"),
    ("decode any", b"\xEF\xBB\xBFa", 0, "TEXT UTF8 1 1:0:1\n"),
    ("decode utf8", b"\xEF\xBB\xBFa", 0, "TEXT UTF8 4 4:0:2\n"),
    (
        "decode any",
        b"\xFE\xFF\x26\x3A",
        0,
        "TEXT UTF16BE 3 3:0:1\n",
    ),
    (
        "decode utf16be",
        b"\xFE\xFF\x26\x3A",
        0,
        "TEXT UTF16BE 6 6:0:2\n",
    ),
    ("decode any", b"\xFE\xFF", 0, "TEXT UTF16BE 0 0:0:0\n"),
    (
        "decode utf16be",
        b"\xD8\x00\xDC\x00",
        0,
        "TEXT UTF16BE 4 4:0:1\n",
    ),
    (
        "decode any",
        b"\xFF\xFE\x61\x00",
        0,
        "TEXT UTF16LE 1 1:0:1\n",
    ),
    (
        "decode utf16le",
        b"\xFF\xFE\x61\x00",
        0,
        "TEXT UTF16LE 4 4:0:2\n",
    ),
    (
        "decode any",
        b"\xFF\xFE\x3D\xD8\x00\xDE",
        0,
        "TEXT UTF16LE 4 4:0:1\n",
    ),
    ("decode utf16le", b"", 0, "TEXT UTF16LE 0 0:0:0\n"),
];

#[test]
fn decodes(rt: HostRuntime) -> Result<(), Fail> {
    expect_rows(&rt, &DECODED)
}

/// Inputs that are no texts.
const REFUSED: [row_t; 19] = [
    (
        "decode any",
        b"\xEF\xBB\xBF\xFF",
        1,
        "FAULT reader 3 255 invalid leading UTF-8 octet\n",
    ),
    (
        "decode any",
        b"\xE0\x80\x80",
        1,
        "FAULT reader 0 -1 invalid length of a UTF-8 sequence\n",
    ),
    (
        "decode any",
        b"\xF4\x90\x80\x80",
        1,
        "FAULT reader 0 1114112 invalid Unicode character\n",
    ),
    (
        "decode any",
        b"\xC2\x80",
        1,
        "FAULT reader 0 128 control characters are not allowed\n",
    ),
    (
        "decode any",
        b"\xEF\xBF\xBF",
        1,
        "FAULT reader 0 65535 control characters are not allowed\n",
    ),
    (
        "decode any",
        b"a\xFF",
        1,
        "FAULT reader 1 255 invalid leading UTF-8 octet\n",
    ),
    (
        "decode any",
        b"a:\xE2\x82",
        1,
        "FAULT reader 2 -1 incomplete UTF-8 octet sequence\n",
    ),
    (
        "decode any",
        b"\xE2(",
        1,
        "FAULT reader 0 -1 incomplete UTF-8 octet sequence\n",
    ),
    (
        "decode any",
        b"\xC3(",
        1,
        "FAULT reader 1 40 invalid trailing UTF-8 octet\n",
    ),
    (
        "decode any",
        b"\xC0\x80",
        1,
        "FAULT reader 0 -1 invalid length of a UTF-8 sequence\n",
    ),
    (
        "decode any",
        b"\xED\xA0\x80",
        1,
        "FAULT reader 0 55296 invalid Unicode character\n",
    ),
    (
        "decode any",
        b"a\x00",
        1,
        "FAULT reader 1 0 control characters are not allowed\n",
    ),
    (
        "decode any",
        b"\xFF\xFEa",
        1,
        "FAULT reader 2 -1 incomplete UTF-16 character\n",
    ),
    (
        "decode any",
        b"\xFF\xFE\x00\xDC",
        1,
        "FAULT reader 2 56320 unexpected low surrogate area\n",
    ),
    (
        "decode any",
        b"\xFF\xFE\x00\xD8",
        1,
        "FAULT reader 2 -1 incomplete UTF-16 surrogate pair\n",
    ),
    (
        "decode any",
        b"\xFF\xFE\x00\xD8A\x00",
        1,
        "FAULT reader 4 65 expected low surrogate area\n",
    ),
    (
        "decode any",
        b"\xFE\xFF\xFF\xFF",
        1,
        "FAULT reader 2 65535 control characters are not allowed\n",
    ),
    (
        "decode utf16be",
        b"\xD8\x00",
        1,
        "FAULT reader 0 -1 incomplete UTF-16 surrogate pair\n",
    ),
    (
        "decode utf8",
        b"\xFF\xFE",
        1,
        "FAULT reader 0 255 invalid leading UTF-8 octet\n",
    ),
];

#[test]
fn refuses(rt: HostRuntime) -> Result<(), Fail> {
    expect_rows(&rt, &REFUSED)
}
