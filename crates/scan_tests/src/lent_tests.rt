//! Texts of which most scalars are lent: sinks that refuse a token or have little room, each number of levels and
//! depths, each key limit, and the fault of the reader.
ghost use Rattle.std.specs.Prelude.{◌≤◌};

use crate::deep_tests::count_of;
use crate::kept_tests::{expect_all_peeked, expect_given, is_token_of, values_of, values_within};
use std::alloc::{AllocError, Global};
use std::process::Abort;
use std::test::Fail;
use yaml_scan::{
    yaml_lent_scalar_t, yaml_parser_scan, yaml_parser_t, yaml_scan_all_limit, yaml_scan_to,
    yaml_token_sink_t,
};
use yaml_text::{yaml_encoding_t, yaml_token_t};

const ANY: yaml_encoding_t = yaml_encoding_t::YAML_ANY_ENCODING;

/// Keys and values in lines, in sequences, in flow collections of one line and of several, of letters of two and three
/// bytes, with a byte order mark, and in UTF-16.
const INPUTS: [&[u8]; 8] = [
    b"a: b\nc:\n  d: 'e f'\n  \"g\": h # i\nj: \"\"\n",
    b"- a\n- b: c\n  d: e\n-\n  - f\n  - 'g'\n- h: i\n",
    b"--- {a: b, \"c\": 'd', e, \"f\" : g}\n--- [h, [i], {}, j: k]\n",
    b"- {\n    \"a\": 1, \"b\": [c, d],\n    e: \"f\" , g: h }\n- i: j\n",
    b"\xC3\xA9: \xE2\x82\xAC\n\xC3\xA9: [\n\xE2\x82\xAC, '\xC3\xA9']\n",
    b"\xEF\xBB\xBFa: b\nc: [\n  d, e: f]\n",
    b"\xFF\xFEa\0:\0 \0b\0\n\0c\0:\0 \0[\0\n\0\xE9\0,\0 \0d\0]\0\n\0",
    b"{\n  \"a\": \"b\",\n  \"c\": [\n    1,\n    2\n  ]\n}\n",
];

/// Takes so many tokens, and refuses any other. Compares each that it is offered with that of another parser of the
/// same input.
#[derive(Drop)]
struct refuser_t<'a> {
    right: yaml_parser_t<'a>,
    takes: usize,
    taken: usize,
    refused: usize,
    wrong: usize,
}

impl refuser_t<'_> {
    /// Takes a token, or refuses it. `same`: it is the right one.
    fn offer(&mut self, same: bool) -> Result<(), AllocError> {
        if !same {
            self.wrong = self.wrong.wrapping_add(1);
        }
        if self.taken == self.takes {
            self.refused = self.refused.wrapping_add(1);
            return Err(AllocError);
        }
        self.taken = self.taken.wrapping_add(1);
        Ok(())
    }
}

impl yaml_token_sink_t for refuser_t<'_> {
    ghost took = { λ _ _ _. Unit {0} };

    ghost may_refuse = { Unit {0} };

    ghost within = { λ _. Unit {0} };

    ghost lacks = { λ s count texts. Unit {0} };

    fn put(&mut self, token: yaml_token_t) -> Result<(), AllocError> {
        let same = match yaml_parser_scan(&mut self.right) {
            Ok(want) => want == token,
            Err(_) => false,
        };
        self.offer(same)
    }

    fn put_scalar(&mut self, scalar: &yaml_lent_scalar_t) -> Result<(), AllocError> {
        let same = match yaml_parser_scan(&mut self.right) {
            Ok(want) => is_token_of(&want, scalar),
            Err(_) => false,
        };
        self.offer(same)
    }

    fn room(&mut self, alloc: Global) -> Vec<u8> {
        Vec::new(alloc)
    }

    fn has_room(&self, _count: u128, _texts: u128) -> bool {
        true
    }

    ghost took_none = { λ _. tt };

    ghost took_more = { λ _ _ _ _ _ _ _. tt };

    ghost within_none = { λ _ _ _ _. tt };
}

/// How many tokens a sink took, how many it refused, how many it was offered that are wrong, and whether the call says
/// that it refused one.
type told_t = (usize, usize, usize, bool);

/// Gives all tokens of an input to a sink that takes so many.
fn told_after(alloc: Global, input: &[u8], takes: usize) -> told_t {
    let mut sink = refuser_t {
        right: yaml_parser_t::new(alloc, input, ANY),
        takes,
        taken: 0,
        refused: 0,
        wrong: 0,
    };
    let given = yaml_scan_to(alloc, input, ANY, 1024, &mut sink);
    (sink.taken, sink.refused, sink.wrong, given.is_err())
}

/// Asserts that a sink that refuses a token, whichever it is, was offered the right ones up to that, and nothing after
/// it.
fn expect_each_refused(rt: &(impl Abort + AllocGlobal), input: &[u8]) -> Result<(), Fail> {
    let count = count_of(rt.alloc(), input)?;
    assert_eq!(rt;
        told_after(rt.alloc(), input, count),
        (count, 0, 0, false),
        "{input:?}"
    );
    for takes in 0..count {
        let told = told_after(rt.alloc(), input, takes);
        assert_eq!(rt; told, (takes, 1, 0, true), "{input:?}");
    }
    Ok(())
}

/// Each token is refused in turn, whether it is lent or not.
#[test]
fn refused_token_is_the_last(rt: HostRuntime) -> Result<(), Fail> {
    for input in &INPUTS {
        expect_each_refused(&rt, input)?;
    }
    Ok(())
}

/// Asserts that a sink gets all tokens of an input, with room for each number of tokens and of bytes.
fn expect_each_room(rt: &(impl Abort + AllocGlobal), input: &[u8]) -> Result<(), Fail> {
    let count = count_of(rt.alloc(), input)?;
    for room in 1..25usize {
        expect_given(rt, input, room as u128, count)?;
    }
    Ok(())
}

/// A scalar is lent only where there is room for all that comes with it, and otherwise comes as a token.
#[test]
fn lent_scalars_find_room(rt: HostRuntime) -> Result<(), Fail> {
    for input in &INPUTS {
        expect_each_room(&rt, input)?;
    }
    Ok(())
}

/// What would be lent is shown by a peek as a token.
#[test]
fn scalars_that_are_peeked_are_not_lent(rt: HostRuntime) -> Result<(), Fail> {
    for input in &INPUTS {
        expect_all_peeked(&rt, input)?;
    }
    Ok(())
}

/// Puts a part behind a text so many times.
fn push_times(text: &mut Vec<u8>, part: &[u8], times: usize) -> Result<(), AllocError> {
    for _ in 0..times {
        text.extend_from_slice(part)?;
    }
    Ok(())
}

/// Puts the lines of the level of a number behind a text: a key with a value, and one whose value is the next level.
fn push_level(text: &mut Vec<u8>, level: usize) -> Result<(), AllocError> {
    push_times(text, b" ", level)?;
    text.extend_from_slice(b"a: b\n")?;
    push_times(text, b" ", level)?;
    text.extend_from_slice(b"c:\n")?;
    Ok(())
}

/// So many mappings, each in the one before, and a key that ends all but the first.
fn nested(alloc: Global, levels: usize) -> Result<Vec<u8>, AllocError> {
    let mut text = Vec::new(alloc);
    for level in 0..levels {
        push_level(&mut text, level)?;
    }
    text.extend_from_slice(b"e: f\n")?;
    Ok(text)
}

/// Asserts that all scalars of so many mappings are lent but the first, which stands where no level is open.
fn expect_nested(rt: &(impl Abort + AllocGlobal), levels: usize) -> Result<(), Fail> {
    let text = nested(rt.alloc(), levels)?;
    let mut want = Vec::new(rt.alloc());
    want.extend_from_slice(b".b|c|")?;
    push_times(&mut want, b"a|b|c|", levels.saturating_sub(1))?;
    want.extend_from_slice(b"e|f|")?;
    let row = values_of(rt.alloc(), text.as_slice())?;
    assert_eq!(rt; row.as_slice(), want.as_slice(), "{levels}");
    expect_each_refused(rt, text.as_slice())
}

/// Whether the list of levels is full or has room, keys open and end levels, and are lent.
#[test]
fn keys_of_each_number_of_levels(rt: HostRuntime) -> Result<(), Fail> {
    for levels in 1..21usize {
        expect_nested(&rt, levels)?;
    }
    Ok(())
}

/// Asserts that all scalars of so many flow mappings are lent, each of which is the value of a key in the one before.
fn expect_depth(rt: &(impl Abort + AllocGlobal), depth: usize) -> Result<(), Fail> {
    let mut text = Vec::new(rt.alloc());
    text.extend_from_slice(b"--- ")?;
    push_times(&mut text, b"{a: ", depth)?;
    text.extend_from_slice(b"b")?;
    push_times(&mut text, b"}", depth)?;
    let mut want = Vec::new(rt.alloc());
    push_times(&mut want, b"a|", depth)?;
    want.extend_from_slice(b"b|")?;
    let row = values_of(rt.alloc(), text.as_slice())?;
    assert_eq!(rt; row.as_slice(), want.as_slice(), "{depth}");
    expect_each_refused(rt, text.as_slice())
}

/// In each depth keys and values are lent.
#[test]
fn keys_of_each_depth(rt: HostRuntime) -> Result<(), Fail> {
    for depth in 1..21usize {
        expect_depth(&rt, depth)?;
    }
    Ok(())
}

/// How many tokens a text has that begins and ends so, with so many letters between, and whether there is a fault.
fn count_within(
    alloc: Global,
    parts: (&[u8], &[u8]),
    letters: usize,
    limit: u32,
) -> Result<(usize, bool), Fail>
    requires least { 1 ≤ limit }
    requires most { limit ≤ 65536 }
{
    let mut text = Vec::new(alloc);
    text.extend_from_slice(parts.0)?;
    push_times(&mut text, b"x", letters)?;
    text.extend_from_slice(parts.1)?;
    let (tokens, fault) = yaml_scan_all_limit(alloc, text.as_slice(), ANY, limit)?;
    Ok((tokens.len(), fault.is_some()))
}

/// Asserts that a key may have as many bytes as the limit, and no more: in the column of a level, where it has to be a
/// key, and in flow, where it is then none.
fn expect_limit(rt: &(impl Abort + AllocGlobal), limit: u32) -> Result<(), Fail>
    requires least { 1 ≤ limit }
    requires most { limit ≤ 65536 }
{
    const LINE: (&[u8], &[u8]) = (b"a: b\n", b": c\n");
    const FLOW: (&[u8], &[u8]) = (b"--- [", b": c]\n");
    let most = limit as usize;
    let more = most.wrapping_add(1);
    assert_eq!(rt;
        count_within(rt.alloc(), LINE, most, limit)?,
        (12, false),
        "{limit}"
    );
    assert_eq!(rt;
        count_within(rt.alloc(), LINE, more, limit)?,
        (6, true),
        "{limit}"
    );
    assert_eq!(rt;
        count_within(rt.alloc(), FLOW, most, limit)?,
        (9, false),
        "{limit}"
    );
    assert_eq!(rt;
        count_within(rt.alloc(), FLOW, more, limit)?,
        (8, false),
        "{limit}"
    );
    Ok(())
}

/// The key limits from 1 to 40, and the greatest.
#[test]
fn keys_end_at_each_limit(rt: HostRuntime) -> Result<(), Fail> {
    for limit in 1..41u32 {
        expect_limit(&rt, limit)?;
    }
    expect_limit(&rt, 65_536)
}

/// The fault of the reader comes before an entry of a sequence, or a key that opens a level, that ends fewer than eight
/// characters before it, and after one that ends earlier.
#[test]
fn other_scalars_end_before_the_readers_fault(rt: HostRuntime) -> Result<(), Fail> {
    let rows: [(&[u8], &[u8]); 4] = [
        (b"- a\n- b\n#cccccc\xFF", b"a|"),
        (b"- a\n- b\n#ccccccc\xFF", b"a|b|"),
        (b"a:\n b: cccccc\xFF", b"."),
        (b"a:\n b: ccccccc\xFF", b".b|"),
    ];
    for (text, want) in rows {
        let (row, faulty) = values_within(rt.alloc(), text, 1024)?;
        assert_eq!(rt; row.as_slice(), want, "{text:?}");
        assert!(rt; faulty);
    }
    Ok(())
}

/// A key that opens a level may have as many bytes as the key limit. With one more it is a scalar, and its `:` is
/// refused.
#[test]
fn key_of_a_new_level_ends_at_the_limit(rt: HostRuntime) -> Result<(), Fail> {
    let (row, faulty) = values_within(rt.alloc(), b"a:\n bcde: f\n", 4)?;
    assert_eq!(rt; row.as_slice(), b".bcde|f|".as_slice());
    assert!(rt; !faulty);
    let (row, faulty) = values_within(rt.alloc(), b"a:\n bcde: f\n", 3)?;
    assert_eq!(rt; row.as_slice(), b".bcde|".as_slice());
    assert!(rt; faulty);
    Ok(())
}
