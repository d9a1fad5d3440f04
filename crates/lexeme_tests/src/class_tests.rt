//! The classes of characters.
use std::process::Abort;
use yaml_text::{
    AS_DIGIT, AS_HEX, IS_ALPHA, IS_ASCII, IS_BLANK, IS_BLANKZ, IS_BOM, IS_BREAK, IS_BREAKZ,
    IS_CRLF, IS_DIGIT, IS_HEX, IS_PRINTABLE, IS_SPACE, IS_TAB, IS_Z, WIDTH,
};

/// A class of characters, by its name.
#[derive(Clone, Copy)]
enum class_t {
    ALPHA,
    DIGIT,
    HEX,
    ASCII,
    PRINTABLE,
    Z,
    BOM,
    SPACE,
    TAB,
    BLANK,
    BREAK,
    CRLF,
    BREAKZ,
    BLANKZ,
}

/// Whether a character of a class is at an index.
fn is_at(class: class_t, bytes: &[u8], at: usize) -> bool {
    match class {
        class_t::ALPHA => IS_ALPHA(bytes, at),
        class_t::DIGIT => IS_DIGIT(bytes, at),
        class_t::HEX => IS_HEX(bytes, at),
        class_t::ASCII => IS_ASCII(bytes, at),
        class_t::PRINTABLE => IS_PRINTABLE(bytes, at),
        class_t::Z => IS_Z(bytes, at),
        class_t::BOM => IS_BOM(bytes, at),
        class_t::SPACE => IS_SPACE(bytes, at),
        class_t::TAB => IS_TAB(bytes, at),
        class_t::BLANK => IS_BLANK(bytes, at),
        class_t::BREAK => IS_BREAK(bytes, at),
        class_t::CRLF => IS_CRLF(bytes, at),
        class_t::BREAKZ => IS_BREAKZ(bytes, at),
        class_t::BLANKZ => IS_BLANKZ(bytes, at),
    }
}

/// How many texts of one byte a class holds for, and the sum of those bytes.
fn of_one(class: class_t) -> (u64, u64) {
    let (mut count, mut sum) = (0u64, 0u64);
    for a in 0..=255u8 {
        if is_at(class, &[a], 0) {
            count = count.saturating_add(1);
            sum = sum.saturating_add(u64::from(a));
        }
    }
    (count, sum)
}

/// The same of two bytes, read as a number.
fn of_two(class: class_t) -> (u64, u64) {
    let (mut count, mut sum) = (0u64, 0u64);
    for n in 0..=0xFFFFu16 {
        if is_at(class, &n.to_be_bytes(), 0) {
            count = count.saturating_add(1);
            sum = sum.saturating_add(u64::from(n));
        }
    }
    (count, sum)
}

/// The same of three bytes, for first bytes with which more than one byte counts.
fn of_three(class: class_t) -> (u64, u64) {
    let (mut count, mut sum) = (0u64, 0u64);
    for lead in [0xC2u8, 0xE2, 0xED, 0xEF] {
        for n in 0..=0xFFFFu16 {
            let [b, c] = n.to_be_bytes();
            if is_at(class, &[lead, b, c], 0) {
                count = count.saturating_add(1);
                sum = sum.saturating_add(u64::from(u32::from_be_bytes([0, lead, b, c])));
            }
        }
    }
    (count, sum)
}

fn tallies(class: class_t) -> [(u64, u64); 3] {
    [of_one(class), of_two(class), of_three(class)]
}

/// A class, its name, and how many texts of one, two and three bytes it holds for, with their sums. The numbers are
/// counted by the tables as they are written down, in another language.
type tally_t = (&'static str, class_t, [(u64, u64); 3]);

const TALLIES: [tally_t; 14] = [
    (
        "IS_ALPHA",
        class_t::ALPHA,
        [(64, 5527), (16384, 364306432), (0, 0)],
    ),
    (
        "IS_DIGIT",
        class_t::DIGIT,
        [(10, 525), (2560, 34732800), (0, 0)],
    ),
    (
        "IS_HEX",
        class_t::HEX,
        [(22, 1527), (5632, 100791552), (0, 0)],
    ),
    (
        "IS_ASCII",
        class_t::ASCII,
        [(128, 8128), (32768, 536854528), (0, 0)],
    ),
    (
        "IS_PRINTABLE",
        class_t::PRINTABLE,
        [(146, 18490), (37312, 1212276512), (180221, 2742960481476)],
    ),
    ("IS_Z", class_t::Z, [(1, 0), (256, 32640), (0, 0)]),
    ("IS_BOM", class_t::BOM, [(0, 0), (0, 0), (1, 15711167)]),
    (
        "IS_SPACE",
        class_t::SPACE,
        [(1, 32), (256, 2129792), (0, 0)],
    ),
    ("IS_TAB", class_t::TAB, [(1, 9), (256, 622464), (0, 0)]),
    (
        "IS_BLANK",
        class_t::BLANK,
        [(2, 41), (512, 2752256), (0, 0)],
    ),
    (
        "IS_BREAK",
        class_t::BREAK,
        [(2, 23), (513, 1622405), (258, 3293216977)],
    ),
    ("IS_CRLF", class_t::CRLF, [(0, 0), (1, 3338), (0, 0)]),
    (
        "IS_BREAKZ",
        class_t::BREAKZ,
        [(3, 23), (769, 1655045), (258, 3293216977)],
    ),
    (
        "IS_BLANKZ",
        class_t::BLANKZ,
        [(5, 64), (1281, 4407301), (258, 3293216977)],
    ),
];

/// Asserts the tallies of classes.
fn expect_tallies(rt: &impl Abort, rows: &[tally_t]) {
    for (name, class, want) in rows {
        assert!(rt; tallies(*class) == *want, "{name}");
    }
}

#[test]
fn class_tables(rt: HostRuntime) {
    expect_tallies(&rt, &TALLIES);
}

/// Asserts whether a character of a class is at an index of some bytes.
fn expect_edges(rt: &impl Abort, rows: &[(class_t, &[u8], usize, bool)]) {
    for (class, bytes, at, want) in rows {
        assert_eq!(rt; is_at(*class, bytes, *at), *want, "{bytes:?} {at}");
    }
}

/// Asserts how many bytes the character has that begins at an index.
fn expect_widths(rt: &impl Abort, rows: &[(&[u8], usize, usize)]) {
    for (bytes, at, want) in rows {
        assert_eq!(rt; WIDTH(bytes, *at), *want, "{bytes:?} {at}");
    }
}

#[test]
fn class_edges(rt: HostRuntime) {
    const EDGES: [(class_t, &[u8], usize, bool); 10] = [
        (class_t::Z, b"a", 1, true),
        (class_t::Z, b"a", 9, true),
        (class_t::BOM, b"\xEF\xBB\xBF", usize::MAX, false),
        (class_t::BREAK, b"\xE2\x80", 0, false),
        (class_t::CRLF, b"\r", 0, false),
        (class_t::PRINTABLE, b"\xEF\xBF\xBD", 0, true),
        (class_t::PRINTABLE, b"\xEF\xBB\xBF", 0, false),
        (class_t::PRINTABLE, b"\xC2\x85", 0, false),
        (class_t::PRINTABLE, b"\t", 0, false),
        (class_t::PRINTABLE, b"\r", 0, false),
    ];
    const WIDTHS: [(&[u8], usize, usize); 4] = [
        (b"a", 1, 1),
        (b"a", 9, 1),
        (b"\x80", 0, 0),
        (b"\xF8", 0, 0),
    ];
    expect_edges(&rt, &EDGES);
    expect_widths(&rt, &WIDTHS);
    assert_eq!(rt; (AS_HEX(b"f", 0), AS_HEX(b"0F", 1)), (15, 15));
    assert_eq!(rt; AS_DIGIT(b"7", 0), 7);
}
