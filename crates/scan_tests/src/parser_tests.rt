//! Calls of a parser.
ghost use Rattle.std.specs.Prelude.{◌≤◌};

use std::alloc::{AllocError, Global};
use std::process::Abort;
use std::test::Fail;
use yaml_scan::{
    yaml_lent_scalar_t, yaml_parser_fault, yaml_parser_has_token, yaml_parser_mark,
    yaml_parser_peek, yaml_parser_queued, yaml_parser_scan, yaml_parser_skip, yaml_parser_t,
    yaml_scan_next_to, yaml_token_sink_t,
};
use yaml_text::{
    unnamed_yaml_token_t_data, yaml_encoding_t, yaml_error_type_t, yaml_fault_t, yaml_mark_t,
    yaml_token_t, yaml_token_type_t,
};

fn scanned(parser: &mut yaml_parser_t) -> Result<yaml_token_t, Fail> {
    match yaml_parser_scan(parser) {
        Ok(token) => Ok(token),
        Err(_) => Err("a fault".into()),
    }
}

fn type_peeked(parser: &mut yaml_parser_t) -> Result<yaml_token_type_t, Fail> {
    match yaml_parser_peek(parser) {
        Ok(token) => Ok(token.type_()),
        Err(_) => Err("a fault".into()),
    }
}

/// Asserts what a call gives.
fn expect_call(
    rt: &impl Abort,
    parser: &mut yaml_parser_t,
    call: u8,
    want: yaml_token_type_t,
) -> Result<(), Fail> {
    let kind = called(parser, call)?;
    assert_eq!(rt; kind, want);
    Ok(())
}

/// Asserts what scans give in turn.
fn expect_scans(
    rt: &impl Abort,
    parser: &mut yaml_parser_t,
    types: &[yaml_token_type_t],
) -> Result<(), Fail> {
    for want in types {
        expect_call(rt, parser, b's', *want)?;
    }
    Ok(())
}

/// Asserts the types of the first tokens of an input.
fn expect_types(
    rt: &(impl Abort + AllocGlobal),
    input: &[u8],
    types: &[yaml_token_type_t],
) -> Result<(), Fail> {
    let any = yaml_encoding_t::YAML_ANY_ENCODING;
    let mut parser = yaml_parser_t::new(rt.alloc(), input, any);
    expect_scans(rt, &mut parser, types)
}

#[test]
fn groups_of_a_mapping(rt: HostRuntime) -> Result<(), Fail> {
    const TYPES: [yaml_token_type_t; 8] = [
        yaml_token_type_t::YAML_STREAM_START_TOKEN,
        yaml_token_type_t::YAML_BLOCK_MAPPING_START_TOKEN,
        yaml_token_type_t::YAML_KEY_TOKEN,
        yaml_token_type_t::YAML_SCALAR_TOKEN,
        yaml_token_type_t::YAML_VALUE_TOKEN,
        yaml_token_type_t::YAML_SCALAR_TOKEN,
        yaml_token_type_t::YAML_BLOCK_END_TOKEN,
        yaml_token_type_t::YAML_STREAM_END_TOKEN,
    ];
    expect_types(&rt, b"a: 1", &TYPES)
}

/// A flow end that closes nothing leaves the depth at 0, so the level of the block ends with the stream.
#[test]
fn depth_is_never_below_zero(rt: HostRuntime) -> Result<(), Fail> {
    const TYPES: [yaml_token_type_t; 7] = [
        yaml_token_type_t::YAML_STREAM_START_TOKEN,
        yaml_token_type_t::YAML_BLOCK_SEQUENCE_START_TOKEN,
        yaml_token_type_t::YAML_BLOCK_ENTRY_TOKEN,
        yaml_token_type_t::YAML_FLOW_SEQUENCE_END_TOKEN,
        yaml_token_type_t::YAML_FLOW_SEQUENCE_END_TOKEN,
        yaml_token_type_t::YAML_BLOCK_END_TOKEN,
        yaml_token_type_t::YAML_STREAM_END_TOKEN,
    ];
    expect_types(&rt, b"- ]]", &TYPES)
}

/// A key is allowed after `-` and `?`, so blocks begin on their lines.
#[test]
fn allowed_keys_after_indicators(rt: HostRuntime) -> Result<(), Fail> {
    const TYPES: [yaml_token_type_t; 9] = [
        yaml_token_type_t::YAML_STREAM_START_TOKEN,
        yaml_token_type_t::YAML_BLOCK_SEQUENCE_START_TOKEN,
        yaml_token_type_t::YAML_BLOCK_ENTRY_TOKEN,
        yaml_token_type_t::YAML_BLOCK_MAPPING_START_TOKEN,
        yaml_token_type_t::YAML_KEY_TOKEN,
        yaml_token_type_t::YAML_SCALAR_TOKEN,
        yaml_token_type_t::YAML_BLOCK_END_TOKEN,
        yaml_token_type_t::YAML_BLOCK_END_TOKEN,
        yaml_token_type_t::YAML_STREAM_END_TOKEN,
    ];
    expect_types(&rt, b"- ? a", &TYPES)
}

#[test]
fn levels_close_at_a_lesser_column(rt: HostRuntime) -> Result<(), Fail> {
    const TYPES: [yaml_token_type_t; 17] = [
        yaml_token_type_t::YAML_STREAM_START_TOKEN,
        yaml_token_type_t::YAML_BLOCK_MAPPING_START_TOKEN,
        yaml_token_type_t::YAML_KEY_TOKEN,
        yaml_token_type_t::YAML_SCALAR_TOKEN,
        yaml_token_type_t::YAML_VALUE_TOKEN,
        yaml_token_type_t::YAML_BLOCK_MAPPING_START_TOKEN,
        yaml_token_type_t::YAML_KEY_TOKEN,
        yaml_token_type_t::YAML_SCALAR_TOKEN,
        yaml_token_type_t::YAML_VALUE_TOKEN,
        yaml_token_type_t::YAML_SCALAR_TOKEN,
        yaml_token_type_t::YAML_BLOCK_END_TOKEN,
        yaml_token_type_t::YAML_KEY_TOKEN,
        yaml_token_type_t::YAML_SCALAR_TOKEN,
        yaml_token_type_t::YAML_VALUE_TOKEN,
        yaml_token_type_t::YAML_SCALAR_TOKEN,
        yaml_token_type_t::YAML_BLOCK_END_TOKEN,
        yaml_token_type_t::YAML_STREAM_END_TOKEN,
    ];
    expect_types(&rt, b"a:\n  b: 1\nc: 2", &TYPES)
}

/// The type of the token that a scan takes (`s`) or a peek shows (`p`); a skip (`k`) has none.
pub(crate) fn called(parser: &mut yaml_parser_t, call: u8) -> Result<yaml_token_type_t, Fail> {
    match call {
        b's' => Ok(scanned(parser)?.type_()),
        b'p' => type_peeked(parser),
        _ => {
            if yaml_parser_has_token(parser) {
                yaml_parser_skip(parser);
            }
            Ok(yaml_token_type_t::YAML_NO_TOKEN)
        }
    }
}

/// Makes the calls of the rows in turn, and asserts what each gives.
fn expect_calls(
    rt: &impl Abort,
    parser: &mut yaml_parser_t,
    rows: &[(u8, yaml_token_type_t)],
) -> Result<(), Fail> {
    for (call, want) in rows {
        expect_call(rt, parser, *call, *want)?;
    }
    Ok(())
}

/// Makes the calls of the rows in turn, and asserts what each gives, and that the session has no fault then.
fn expect_session(
    rt: &impl Abort,
    parser: &mut yaml_parser_t,
    rows: &[(u8, yaml_token_type_t)],
) -> Result<(), Fail> {
    expect_calls(rt, parser, rows)?;
    assert!(rt; yaml_parser_fault(parser).is_none());
    Ok(())
}

#[test]
fn session_of_peeks_and_skips(rt: HostRuntime) -> Result<(), Fail> {
    const ROWS: [(u8, yaml_token_type_t); 11] = [
        (b'p', yaml_token_type_t::YAML_STREAM_START_TOKEN),
        (b'p', yaml_token_type_t::YAML_STREAM_START_TOKEN),
        (b'k', yaml_token_type_t::YAML_NO_TOKEN),
        (b's', yaml_token_type_t::YAML_FLOW_SEQUENCE_START_TOKEN),
        (b'k', yaml_token_type_t::YAML_NO_TOKEN),
        (b'p', yaml_token_type_t::YAML_SCALAR_TOKEN),
        (b's', yaml_token_type_t::YAML_SCALAR_TOKEN),
        (b's', yaml_token_type_t::YAML_FLOW_SEQUENCE_END_TOKEN),
        (b's', yaml_token_type_t::YAML_STREAM_END_TOKEN),
        (b's', yaml_token_type_t::YAML_NO_TOKEN),
        (b'p', yaml_token_type_t::YAML_NO_TOKEN),
    ];
    let any = yaml_encoding_t::YAML_ANY_ENCODING;
    let mut parser = yaml_parser_t::new(rt.alloc(), b"[a]", any);
    expect_session(&rt, &mut parser, &ROWS)
}

/// The type that a call gives, and how many steps are queued and how far the text was read after it.
type met_t = (yaml_token_type_t, u64, yaml_mark_t);

/// What is met by a call.
fn met(parser: &mut yaml_parser_t, call: u8) -> Result<met_t, Fail> {
    let kind = called(parser, call)?;
    Ok((kind, yaml_parser_queued(parser), yaml_parser_mark(parser)))
}

/// Asserts what is met by a call.
fn expect_met(
    rt: &impl Abort,
    parser: &mut yaml_parser_t,
    call: u8,
    want: met_t,
) -> Result<(), Fail> {
    let found = met(parser, call)?;
    assert_eq!(rt; found, want);
    Ok(())
}

/// Makes the calls of the rows in turn, and asserts what is met by each.
fn expect_all_met(
    rt: &impl Abort,
    parser: &mut yaml_parser_t,
    rows: &[(u8, met_t)],
) -> Result<(), Fail> {
    for (call, want) in rows {
        expect_met(rt, parser, *call, *want)?;
    }
    Ok(())
}

/// How many steps are queued, and how far the text was read, after each call.
#[test]
fn settled_tokens_need_few_steps(rt: HostRuntime) -> Result<(), Fail> {
    const FRONT: yaml_mark_t = yaml_mark_t {
        index: 0,
        line: 0,
        column: 0,
    };
    const VALUE: yaml_mark_t = yaml_mark_t {
        index: 5,
        line: 0,
        column: 5,
    };
    const MAPPING: yaml_token_type_t = yaml_token_type_t::YAML_BLOCK_MAPPING_START_TOKEN;
    const ROWS: [(u8, met_t); 5] = [
        (b's', (yaml_token_type_t::YAML_STREAM_START_TOKEN, 0, FRONT)),
        (b'p', (MAPPING, 3, VALUE)),
        (b's', (MAPPING, 3, VALUE)),
        (b's', (yaml_token_type_t::YAML_KEY_TOKEN, 3, VALUE)),
        (b's', (yaml_token_type_t::YAML_ANCHOR_TOKEN, 2, VALUE)),
    ];
    let any = yaml_encoding_t::YAML_ANY_ENCODING;
    let mut parser = yaml_parser_t::new(rt.alloc(), b"&a b: c", any);
    expect_all_met(&rt, &mut parser, &ROWS)
}

/// The types of the token that a scan takes and of the one that a peek then shows, and how many steps are queued after
/// both.
fn queued(parser: &mut yaml_parser_t) -> Result<(yaml_token_type_t, yaml_token_type_t, u64), Fail> {
    let taken = called(parser, b's')?;
    let shown = called(parser, b'p')?;
    Ok((taken, shown, yaml_parser_queued(parser)))
}

/// What `queued` returns for a new parser with a key limit.
fn queued_after(
    alloc: Global,
    input: &[u8],
    limit: u32,
) -> Result<(yaml_token_type_t, yaml_token_type_t, u64), Fail>
    requires least { 1 ≤ limit }
    requires most { limit ≤ 65536 }
{
    let any = yaml_encoding_t::YAML_ANY_ENCODING;
    let mut parser = yaml_parser_t::with_key_limit(alloc, input, any, limit);
    queued(&mut parser)
}

/// Asserts that a scan and a peek give the stream start and `[`, and how many steps are queued then.
fn expect_queued(
    rt: &(impl Abort + AllocGlobal),
    input: &[u8],
    limit: u32,
    count: u64,
) -> Result<(), Fail>
    requires least { 1 ≤ limit }
    requires most { limit ≤ 65536 }
{
    let start = yaml_token_type_t::YAML_STREAM_START_TOKEN;
    let opener = yaml_token_type_t::YAML_FLOW_SEQUENCE_START_TOKEN;
    let queued = queued_after(rt.alloc(), input, limit)?;
    assert_eq!(rt; queued, (start, opener, count));
    Ok(())
}

/// So many `[`.
fn openers(alloc: Global, count: usize) -> Result<Vec<u8>, AllocError> {
    let mut input = Vec::new(alloc);
    for _ in 0..count {
        input.push(b'[')?;
    }
    Ok(input)
}

#[test]
fn keys_keep_tokens_in_the_queue(rt: HostRuntime) -> Result<(), Fail> {
    let input = openers(rt.alloc(), 1026)?;
    expect_queued(&rt, &input, 1024, 1025)?;
    expect_queued(&rt, &input, 4, 5)
}

/// Of six flow sequences the first is no key any more after the fifth, with a key limit of 4: so five steps wait.
#[test]
fn six_openers_with_a_limit_of_four(rt: HostRuntime) -> Result<(), Fail> {
    expect_queued(&rt, b"[[[[[[", 4, 5)
}

/// The fault that a scan of a new parser returns, and the one that the parser has then.
fn faults_of(alloc: Global, input: &[u8]) -> (Option<yaml_fault_t>, Option<yaml_fault_t>) {
    let any = yaml_encoding_t::YAML_ANY_ENCODING;
    let mut parser = yaml_parser_t::new(alloc, input, any);
    let returned = yaml_parser_scan(&mut parser).err();
    (returned, yaml_parser_fault(&parser).copied())
}

/// The fault of a refused text. That no memory is taken for it is seen by `tests/sessions.py`.
#[test]
fn near_the_end_of_a_refused_text(rt: HostRuntime) -> Result<(), Fail> {
    const START: yaml_mark_t = yaml_mark_t {
        index: 0,
        line: 0,
        column: 0,
    };
    const WANT: yaml_fault_t = yaml_fault_t {
        error: yaml_error_type_t::YAML_READER_ERROR,
        problem: Some("invalid leading UTF-8 octet"),
        problem_offset: 1,
        problem_value: 255,
        problem_mark: START,
        context: None,
        context_mark: START,
    };
    let (returned, kept) = faults_of(rt.alloc(), b"a\xFF");
    assert_eq!(rt; returned, Some(WANT));
    assert_eq!(rt; kept, Some(WANT));
    Ok(())
}

/// Whether a peek finds a fault after so many scans.
fn finds_a_fault(parser: &mut yaml_parser_t, scans: usize) -> Result<bool, Fail> {
    for _ in 0..scans {
        let _ = called(parser, b's')?;
    }
    Ok(yaml_parser_peek(parser).is_err())
}

/// Whether a call gives no token, and none is there to skip after it.
fn gives_nothing(parser: &mut yaml_parser_t, call: u8) -> Result<bool, Fail> {
    let kind = called(parser, call)?;
    Ok(kind == yaml_token_type_t::YAML_NO_TOKEN && !yaml_parser_has_token(parser))
}

/// The column of the problem, if a session ended with a fault.
fn fault_column(parser: &yaml_parser_t) -> Option<u64> {
    match yaml_parser_fault(parser) {
        Some(fault) => Some(fault.problem_mark.column),
        None => None,
    }
}

/// Whether a peek finds a fault after so many scans, whether a peek and a scan give nothing then, and the column of the
/// fault that the session has.
fn ends_after(
    parser: &mut yaml_parser_t,
    scans: usize,
) -> Result<(bool, bool, bool, Option<u64>), Fail> {
    let found = finds_a_fault(parser, scans)?;
    let peeked = gives_nothing(parser, b'p')?;
    let taken = gives_nothing(parser, b's')?;
    Ok((found, peeked, taken, fault_column(parser)))
}

/// Asserts that a session ends with a fault after so many scans, whose problem is at this column.
fn expect_end(
    rt: &impl Abort,
    parser: &mut yaml_parser_t,
    scans: usize,
    column: u64,
) -> Result<(), Fail> {
    let end = ends_after(parser, scans)?;
    assert_eq!(rt; end, (true, true, true, Some(column)));
    Ok(())
}

#[test]
fn session_ends_with_one_fault(rt: HostRuntime) -> Result<(), Fail> {
    let any = yaml_encoding_t::YAML_ANY_ENCODING;
    let mut parser = yaml_parser_t::new(rt.alloc(), b"a: b: c", any);
    expect_end(&rt, &mut parser, 6, 4)
}

/// Takes so many tokens at once, and counts them and the bytes of their texts.
#[derive(Drop)]
struct shelf_t {
    room: u128,
    tokens: usize,
    bytes: usize,
}

impl yaml_token_sink_t for shelf_t {
    ghost took = { λ _ _ _. Unit {0} };

    ghost may_refuse = { ⊥ };

    ghost within = { λ _. Unit {0} };

    ghost lacks = { λ s count texts. Unit {0} };

    fn put(&mut self, token: yaml_token_t) -> Result<(), AllocError> {
        self.tokens = self.tokens.wrapping_add(1);
        self.bytes = self.bytes.wrapping_add(text_len(&token));
        Ok(())
    }

    fn put_scalar(&mut self, scalar: &yaml_lent_scalar_t) -> Result<(), AllocError> {
        self.tokens = self.tokens.wrapping_add(1);
        self.bytes = self.bytes.wrapping_add(scalar.value.len());
        Ok(())
    }

    fn room(&mut self, alloc: Global) -> Vec<u8> {
        Vec::new(alloc)
    }

    fn has_room(&self, count: u128, _texts: u128) -> bool {
        count <= self.room
    }

    ghost took_none = { λ _. tt };

    ghost took_more = { λ _ _ _ _ _ _ _. tt };

    ghost within_none = { λ _ _ _ _. tt };
}

/// How many bytes a scalar's text has, and 0 for another token.
fn text_len(token: &yaml_token_t) -> usize {
    match &token.token_data {
        unnamed_yaml_token_t_data::SCALAR { value, style: _ } => value.len(),
        _ => 0,
    }
}

/// A block mapping with a sequence in it, which ends at a key, flow collections as keys, and all styles of scalars.
const MANY: &[u8] = b"a:\n  - [b, c]: dd\n  - 'e'\n[f]: |\n  gg\n{h: \"i\"}: j\n";

/// Makes one call. Returns how many bytes the text of the returned token has, if one is returned, and whether it is the
/// stream end.
fn returned(
    parser: &mut yaml_parser_t,
    shelf: &mut shelf_t,
) -> Result<Option<(usize, bool)>, Fail> {
    match yaml_scan_next_to(parser, shelf) {
        Ok(None) => Ok(None),
        Ok(Some(token)) => {
            let last = matches!(token.token_data, unnamed_yaml_token_t_data::STREAM_END);
            Ok(Some((text_len(&token), last)))
        }
        Err(_) => Err("a fault".into()),
    }
}

/// How many tokens went to a sink, how many went there or were returned, how many bytes the texts of these have, and
/// whether the stream end was returned.
type counts_t = (usize, usize, usize, bool);

/// Makes so many calls, or fewer if one returns the stream end. Returns the counts.
fn counts_of(
    parser: &mut yaml_parser_t,
    shelf: &mut shelf_t,
    calls: usize,
) -> Result<counts_t, Fail> {
    let mut tokens: usize = 0;
    let mut bytes: usize = 0;
    let mut ended = false;
    'calls: for _ in 0..calls {
        if let Some((len, last)) = returned(parser, shelf)? {
            tokens = tokens.wrapping_add(1);
            bytes = bytes.wrapping_add(len);
            ended = last;
        }
        if ended {
            break 'calls;
        }
    }
    let put = shelf.tokens;
    let all = tokens.wrapping_add(put);
    Ok((put, all, bytes.wrapping_add(shelf.bytes), ended))
}

/// The counts of so many calls on a new parser, with a sink that has room for so many tokens at once.
fn shelved(alloc: Global, input: &[u8], room: u128, calls: usize) -> Result<counts_t, Fail> {
    let any = yaml_encoding_t::YAML_ANY_ENCODING;
    let mut parser = yaml_parser_t::new(alloc, input, any);
    let mut shelf = shelf_t {
        room,
        tokens: 0,
        bytes: 0,
    };
    counts_of(&mut parser, &mut shelf, calls)
}

/// A sink without room gets no token, and all are returned. One with room for a token gets all but the stream end,
/// which is returned.
#[test]
fn tokens_go_to_a_sink_with_room(rt: HostRuntime) -> Result<(), Fail> {
    for (room, put) in [(0, 0), (1, 36), (3, 36), (1000, 36)] {
        let counts = shelved(rt.alloc(), MANY, room, 100)?;
        assert_eq!(rt; counts, (put, 37, 13, true), "{room}");
    }
    Ok(())
}

/// Asserts how many tokens go to a sink of a room in the first two calls.
fn expect_put(
    rt: &(impl Abort + AllocGlobal),
    input: &[u8],
    room: u128,
    put: usize,
) -> Result<(), Fail> {
    let (tokens, _, _, _) = shelved(rt.alloc(), input, room, 2)?;
    assert_eq!(rt; tokens, put, "{input:?} {room}");
    Ok(())
}

/// The start of the stream goes to a sink alone. Then go all tokens that waited for the one that decides whether a flow
/// sequence is a key, and with a key the start of a block mapping, the key and the value's mark too. Of a sink that has
/// room for one of them alone, each call gives it one.
#[test]
fn waiting_tokens_go_to_a_sink_at_once(rt: HostRuntime) -> Result<(), Fail> {
    const SEQUENCE: &[u8] = b"[a, b, c]";
    const KEY: &[u8] = b"[a]: b";
    expect_put(&rt, SEQUENCE, 3, 8)?;
    expect_put(&rt, KEY, 3, 7)?;
    expect_put(&rt, SEQUENCE, 1, 2)?;
    expect_put(&rt, KEY, 1, 2)
}
