//! Texts: what is decoded and refused, marks, and the types of tokens and faults.
use std::alloc::Global;
use std::process::Abort;
use std::test::Fail;
use yaml_text::{
    code_of, make_memory_fault, make_scanner_fault, unnamed_yaml_token_t_data, yaml_decode,
    yaml_decode_front, yaml_encoding_of, yaml_encoding_t, yaml_error_type_t, yaml_fault_t,
    yaml_index_from_end, yaml_is_place, yaml_mark_at, yaml_mark_t, yaml_scalar_style_t,
    yaml_tag_directive_t, yaml_text_t, yaml_token_t, yaml_token_type_t,
};

const ANY: yaml_encoding_t = yaml_encoding_t::YAML_ANY_ENCODING;

const UTF8: yaml_encoding_t = yaml_encoding_t::YAML_UTF8_ENCODING;

const UTF16LE: yaml_encoding_t = yaml_encoding_t::YAML_UTF16LE_ENCODING;

const UTF16BE: yaml_encoding_t = yaml_encoding_t::YAML_UTF16BE_ENCODING;

const FRONT: yaml_mark_t = yaml_mark_t {
    index: 0,
    line: 0,
    column: 0,
};

const MEMORY_FAULT: yaml_fault_t = yaml_fault_t {
    error: yaml_error_type_t::YAML_MEMORY_ERROR,
    problem: None,
    problem_offset: 0,
    problem_value: 0,
    problem_mark: FRONT,
    context: None,
    context_mark: FRONT,
};

/// The number of bytes and the mark at the end, or the fault's offset, value and problem.
fn decoded(alloc: Global, input: &[u8], setting: yaml_encoding_t) -> Result<String, Fail> {
    match yaml_decode(alloc, input, setting) {
        Ok(text) => {
            let count = text.bytes().len();
            if !yaml_is_place(&text, count) {
                return Ok(format!(in alloc; "no place")?);
            }
            let end = yaml_mark_at(&text, count);
            let (index, line, column) = (end.index, end.line, end.column);
            Ok(format!(in alloc; "{count} {index}:{line}:{column}")?)
        }
        Err(fault) => {
            let (offset, value) = (fault.problem_offset, fault.problem_value);
            let problem = fault.problem.unwrap_or("-");
            Ok(format!(in alloc; "{offset} {value} {problem}")?)
        }
    }
}

/// Asserts what is decoded of each input by a setting.
fn expect_decoded(
    rt: &impl Abort,
    alloc: Global,
    rows: &[(&[u8], yaml_encoding_t, &str)],
) -> Result<(), Fail> {
    for (input, setting, want) in rows {
        let shown = decoded(alloc, input, *setting)?;
        assert_eq!(rt; shown.as_str(), *want, "{input:?}");
    }
    Ok(())
}

#[test]
fn decode_texts(rt: HostRuntime) -> Result<(), Fail> {
    const ROWS: [(&[u8], yaml_encoding_t, &str); 4] = [
        (b"a: 1", ANY, "4 4:0:4"),
        (b"a\r\nb", ANY, "4 4:1:1"),
        (b"\xEF\xBB\xBFa", UTF8, "4 4:0:2"),
        (b"\xFE\xFF\x26\x3A", ANY, "3 3:0:1"),
    ];
    expect_decoded(&rt, rt.alloc(), &ROWS)
}

#[test]
fn chars_of_a_text(rt: HostRuntime) -> Result<(), Fail> {
    const ROWS: [(&[u8], yaml_encoding_t, &str); 3] = [
        (b"\xC2\x85", ANY, "2 2:1:0"),
        (b"a\x7F", ANY, "1 127 control characters are not allowed"),
        (
            b"\xEF\xBF\xBE",
            ANY,
            "0 65534 control characters are not allowed",
        ),
    ];
    expect_decoded(&rt, rt.alloc(), &ROWS)
}

#[test]
fn utf8_refusals(rt: HostRuntime) -> Result<(), Fail> {
    const ROWS: [(&[u8], yaml_encoding_t, &str); 1] = [(
        b"\xE0\x80\x80",
        ANY,
        "0 -1 invalid length of a UTF-8 sequence",
    )];
    expect_decoded(&rt, rt.alloc(), &ROWS)
}

#[test]
fn utf16_refusals(rt: HostRuntime) -> Result<(), Fail> {
    const ROWS: [(&[u8], yaml_encoding_t, &str); 1] = [(
        b"\xD8\x00",
        UTF16BE,
        "0 -1 incomplete UTF-16 surrogate pair",
    )];
    expect_decoded(&rt, rt.alloc(), &ROWS)
}

/// Asserts the encoding and the bytes of a text.
fn expect_text(rt: &impl Abort, text: &yaml_text_t, encoding: yaml_encoding_t, bytes: &[u8]) {
    assert_eq!(rt; text.encoding(), encoding);
    assert_eq!(rt; text.bytes(), bytes);
}

/// The bytes of a text, and all that a fault says. `tests/sessions.py` checks that no memory is taken for them.
#[test]
fn decode_text_or_fault(rt: HostRuntime) -> Result<(), Fail> {
    match yaml_decode(rt.alloc(), b"a: 1", ANY) {
        Ok(text) => expect_text(&rt, &text, UTF8, b"a: 1"),
        Err(_) => return Err("a text".into()),
    }
    let want = yaml_fault_t {
        error: yaml_error_type_t::YAML_READER_ERROR,
        problem: Some("invalid leading UTF-8 octet"),
        problem_offset: 1,
        problem_value: 255,
        ..MEMORY_FAULT
    };
    assert_eq!(rt; yaml_decode(rt.alloc(), b"a\xFF", ANY).err(), Some(want));
    Ok(())
}

/// Asserts the encoding and the bytes of the longest front of an input that is a text, and the offset and the value of
/// what is wrong after it.
fn expect_front(
    rt: &impl Abort,
    alloc: Global,
    input: (&[u8], yaml_encoding_t),
    want: (yaml_encoding_t, &[u8], u64, i32),
) -> Result<(), Fail> {
    let ((input, setting), (encoding, bytes, offset, value)) = (input, want);
    let Ok((text, refusal)) = yaml_decode_front(alloc, input, setting) else {
        return Err("no memory".into());
    };
    expect_text(rt, &text, encoding, bytes);
    let fault = refusal.ok_or("a fault")?;
    assert_eq!(rt;
        (fault.problem_offset, fault.problem_value),
        (offset, value)
    );
    Ok(())
}

#[test]
fn decode_front(rt: HostRuntime) -> Result<(), Fail> {
    expect_front(&rt, rt.alloc(), (b"ab\xFF", ANY), (UTF8, b"ab", 2, 255))
}

/// Asserts the encoding of each input by a setting.
fn expect_encodings(rt: &impl Abort, rows: &[(yaml_encoding_t, &[u8], yaml_encoding_t)]) {
    for (setting, input, want) in rows {
        assert_eq!(rt; yaml_encoding_of(*setting, input), *want, "{input:?}");
    }
}

/// The mark decides only if no encoding is set, and only if it is whole.
#[test]
fn encodings_of_inputs(rt: HostRuntime) -> Result<(), Fail> {
    const ROWS: [(yaml_encoding_t, &[u8], yaml_encoding_t); 7] = [
        (ANY, b"", UTF8),
        (ANY, b"\xFE\xFF", UTF16BE),
        (ANY, b"\xFE", UTF8),
        (ANY, b"a\xFE\xFF", UTF8),
        (UTF8, b"\xFE\xFF", UTF8),
        (UTF16BE, b"\xFF\xFE", UTF16BE),
        (ANY, b"\xFF\xFEa", UTF16LE),
    ];
    expect_encodings(&rt, &ROWS);
    Ok(())
}

/// Fronts of UTF-16: after a byte order mark half of a pair is left, and in a set order a low surrogate.
#[test]
fn decode_front_of_utf16(rt: HostRuntime) -> Result<(), Fail> {
    let half = b"\xFF\xFEa\x00\xAC\x20\x00\xD8";
    expect_front(
        &rt,
        rt.alloc(),
        (half, ANY),
        (UTF16LE, b"a\xE2\x82\xAC", 6, -1),
    )?;
    let low = b"\x00b\xDC\x00\x00c";
    expect_front(&rt, rt.alloc(), (low, UTF16BE), (UTF16BE, b"b", 2, 0xDC00))
}

#[test]
fn mark_places(rt: HostRuntime) -> Result<(), Fail> {
    const ROWS: [(usize, bool); 6] = [
        (0, true),
        (2, false),
        (3, true),
        (4, false),
        (5, true),
        (6, false),
    ];
    let Ok(text) = yaml_decode(rt.alloc(), b"a\r\n\xC3\xA9", ANY) else {
        return Err("a text".into());
    };
    for (index, want) in &ROWS {
        assert_eq!(rt; yaml_is_place(&text, *index), *want, "{index}");
    }
    Ok(())
}

#[test]
fn indexes_from_the_end(rt: HostRuntime) -> Result<(), Fail> {
    const ROWS: [(usize, usize); 5] = [(0, 5), (1, 3), (2, 2), (4, 0), (5, 0)];
    let Ok(text) = yaml_decode(rt.alloc(), b"a\r\n\xC3\xA9", ANY) else {
        return Err("a text".into());
    };
    for (count, want) in &ROWS {
        assert_eq!(rt; yaml_index_from_end(&text, *count), *want, "{count}");
    }
    Ok(())
}

#[test]
fn fault_shown(rt: HostRuntime) -> Result<(), Fail> {
    let shown = match yaml_decode(rt.alloc(), b"\xFF", ANY) {
        Ok(_) => return Err("a fault".into()),
        Err(fault) => fault.to_string(rt.alloc())?,
    };
    assert_eq!(rt; shown.as_str(), "YAML reader fault");
    Ok(())
}

#[test]
fn tokens(rt: HostRuntime) -> Result<(), Fail> {
    let value = Vec::from_slice(rt.alloc(), b"abc")?;
    let other = Vec::from_slice(rt.alloc(), b"abc")?;
    let style = yaml_scalar_style_t::YAML_PLAIN_SCALAR_STYLE;
    let says = unnamed_yaml_token_t_data::SCALAR { value, style };
    assert_eq!(rt; says.length(), 3);
    let same = unnamed_yaml_token_t_data::SCALAR {
        value: other,
        style,
    };
    assert!(rt; says == same);
    let empty = yaml_token_t::empty();
    assert_eq!(rt; empty.type_(), yaml_token_type_t::YAML_NO_TOKEN);
    let token = yaml_token_t {
        token_data: says,
        start_mark: empty.start_mark,
        end_mark: empty.end_mark,
    };
    assert_eq!(rt; token.type_(), yaml_token_type_t::YAML_SCALAR_TOKEN);
    assert!(rt; token != empty);
    Ok(())
}

const NEXT: yaml_mark_t = yaml_mark_t {
    index: 0,
    line: 0,
    column: 1,
};

/// Whether the empty token and one that ends elsewhere are unequal.
fn ends_differ() -> bool {
    let ended = yaml_token_t {
        token_data: unnamed_yaml_token_t_data::NO_TOKEN,
        start_mark: FRONT,
        end_mark: NEXT,
    };
    ended != yaml_token_t::empty()
}

/// Whether a fault is equal to itself, and not to one with another context.
fn contexts_differ() -> bool {
    let fault = MEMORY_FAULT;
    let other = yaml_fault_t {
        context: Some("while scanning a tag"),
        ..fault
    };
    fault == fault && fault != other
}

/// Whether directives with two prefixes are unequal.
fn prefixes_differ(alloc: Global) -> Result<bool, Fail> {
    let one = yaml_tag_directive_t {
        handle: Vec::from_slice(alloc, b"!")?,
        prefix: Vec::from_slice(alloc, b"a")?,
    };
    let two = yaml_tag_directive_t {
        handle: Vec::from_slice(alloc, b"!")?,
        prefix: Vec::from_slice(alloc, b"b")?,
    };
    Ok(one != two)
}

/// Marks, directives, faults and tokens that differ in one part.
#[test]
fn unequal_parts(rt: HostRuntime) -> Result<(), Fail> {
    assert!(rt; FRONT == yaml_token_t::empty().start_mark && FRONT != NEXT);
    assert!(rt; ends_differ());
    assert!(rt; contexts_differ());
    assert!(rt; prefixes_differ(rt.alloc())?);
    Ok(())
}

/// The faults that the crates above make.
#[test]
fn faults_are_made(rt: HostRuntime) -> Result<(), Fail> {
    assert!(rt; make_memory_fault() == MEMORY_FAULT);
    let fault = yaml_fault_t {
        error: yaml_error_type_t::YAML_SCANNER_ERROR,
        problem: Some("found a tab"),
        problem_mark: NEXT,
        context: Some("while scanning a tag"),
        ..MEMORY_FAULT
    };
    let made = make_scanner_fault("found a tab", NEXT, Some("while scanning a tag"), FRONT);
    assert!(rt; made == fault);
    Ok(())
}

/// The code points of one to four octets.
#[test]
fn codes_spelled(rt: HostRuntime) -> Result<(), Fail> {
    assert_eq!(rt; code_of(b"a", 1), 0x61);
    assert_eq!(rt; code_of(b"\xC3\xA9", 2), 0xE9);
    assert_eq!(rt; code_of(b"\xE2\x82\xAC", 3), 0x20AC);
    assert_eq!(rt; code_of(b"\xF0\x9F\x98\x80", 4), 0x1F600);
    Ok(())
}

#[test]
fn utf8_written(rt: HostRuntime) -> Result<(), Fail> {
    let Ok(text) = yaml_decode(rt.alloc(), b"\x20\xAC", UTF16BE) else {
        return Err("a text".into());
    };
    assert_eq!(rt; text.bytes(), b"\xE2\x82\xAC".as_slice());
    Ok(())
}
