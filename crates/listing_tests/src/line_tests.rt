//! Lines of tokens with short and long numbers, and of scalars at the edge of the room that a line has at first.
use crate::tests::expect_lines;
use std::alloc::{AllocError, Global};
use std::process::Abort;
use std::test::Fail;
use yaml_listing::list_token;
use yaml_text::{unnamed_yaml_token_t_data, yaml_mark_t, yaml_scalar_style_t, yaml_token_t};

/// The greatest numbers.
const MOST: yaml_mark_t = yaml_mark_t {
    index: 18446744073709551615,
    line: 18446744073709551615,
    column: 18446744073709551615,
};

/// So many z.
fn letters(alloc: Global, count: usize) -> Result<Vec<u8>, AllocError> {
    let mut value = Vec::new(alloc);
    for _ in 0..count {
        value.push(b'z')?;
    }
    Ok(value)
}

/// The line of a literal scalar of so many z, whose marks have the greatest numbers.
fn longest_line(alloc: Global, count: usize) -> Result<Vec<u8>, AllocError> {
    let mark = b" 18446744073709551615:18446744073709551615:18446744073709551615";
    let mut line = Vec::from_slice(alloc, b"SCALAR")?;
    line.extend_from_slice(mark)?;
    line.extend_from_slice(mark)?;
    line.extend_from_slice(b" literal ")?;
    for _ in 0..count {
        line.extend_from_slice(b"7a")?;
    }
    line.push(b'\n')?;
    Ok(line)
}

/// What is listed of a literal scalar of this value, whose marks have the greatest numbers.
fn listed(alloc: Global, value: Vec<u8>) -> Result<Vec<u8>, AllocError> {
    let style = yaml_scalar_style_t::YAML_LITERAL_SCALAR_STYLE;
    let token = yaml_token_t {
        token_data: unnamed_yaml_token_t_data::SCALAR { value, style },
        start_mark: MOST,
        end_mark: MOST,
    };
    let mut out = Vec::new(alloc);
    list_token(alloc, &token, &mut out)?;
    Ok(out)
}

/// Asserts the line of a literal scalar of so many bytes, whose marks have the greatest numbers.
fn expect_scalar(rt: &(impl Abort + AllocGlobal), count: usize) -> Result<(), Fail> {
    let out = listed(rt.alloc(), letters(rt.alloc(), count)?)?;
    let line = longest_line(rt.alloc(), count)?;
    assert_eq!(rt; out.as_slice(), line.as_slice());
    Ok(())
}

#[test]
fn longest_lines(rt: HostRuntime) -> Result<(), Fail> {
    const COUNTS: [usize; 8] = [1, 400, 701, 702, 703, 829, 830, 831];
    for count in &COUNTS {
        expect_scalar(&rt, *count)?;
    }
    Ok(())
}

/// The mark of three numbers.
fn mark_of(numbers: (u64, u64, u64)) -> yaml_mark_t {
    let (index, line, column) = numbers;
    yaml_mark_t {
        index,
        line,
        column,
    }
}

/// Lists a key from a mark of three numbers to one of three others.
fn put_key(
    alloc: Global,
    start: (u64, u64, u64),
    end: (u64, u64, u64),
    out: &mut Vec<u8>,
) -> Result<(), AllocError> {
    let token = yaml_token_t {
        token_data: unnamed_yaml_token_t_data::KEY,
        start_mark: mark_of(start),
        end_mark: mark_of(end),
    };
    list_token(alloc, &token, out)
}

/// Lists keys whose marks have numbers of few and of many digits.
fn put_keys(alloc: Global) -> Result<Vec<u8>, AllocError> {
    const KEYS: [((u64, u64, u64), (u64, u64, u64)); 6] = [
        ((0, 1, 9), (10, 11, 19)),
        ((90, 99, 100), (101, 109, 110)),
        ((909, 990, 999), (1000, 1001, 1010)),
        ((9999, 10000, 10001), (12345, 99999, 100000)),
        (
            (1234567, 9999999, 10000000),
            (100000000, 4294967295, 4294967296),
        ),
        (
            (
                9999999999999999999,
                10000000000000000000,
                1234567890123456789,
            ),
            (20, 30, 40),
        ),
    ];
    let mut out = Vec::new(alloc);
    for (start, end) in &KEYS {
        put_key(alloc, *start, *end, &mut out)?;
    }
    Ok(out)
}

#[test]
fn numbers_of_marks(rt: HostRuntime) -> Result<(), Fail> {
    let out = put_keys(rt.alloc())?;
    let lines = "\
KEY 0:1:9 10:11:19
KEY 90:99:100 101:109:110
KEY 909:990:999 1000:1001:1010
KEY 9999:10000:10001 12345:99999:100000
KEY 1234567:9999999:10000000 100000000:4294967295:4294967296
KEY 9999999999999999999:10000000000000000000:1234567890123456789 20:30:40
";
    expect_lines(&rt, "keys", &out, lines);
    Ok(())
}
