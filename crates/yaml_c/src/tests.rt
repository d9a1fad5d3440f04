//! Calls as a C program makes them. The number 77 stands for what was there before.
ghost use Rattle.std.specs.Prelude.{◌≡◌, ◌≤◌, true};
ghost use Rattle.yaml_c.specs.Held.{Scan, IsAt};
ghost use Rattle.yaml_c.specs.Kinds.{Whole};

use super::*;
use crate::handle::closed;
use std::alloc::{AllocError, Global};
use std::process::Abort;
use std::test::Fail;

/// The usual key limit, in bytes.
const KEY_LIMIT: u32 = 1024;

/// The number that tells that a value has no place in the input.
const NOWHERE: u64 = u64::MAX;

const NO_MARK: bogzhami_mark = bogzhami_mark {
    index: 77,
    line: 77,
    column: 77,
};

pub(crate) const NO_TOKEN: bogzhami_token = bogzhami_token {
    token_type: 77,
    detail: 77,
    major: 77,
    minor: 77,
    text_at: 77,
    first_len: 77,
    second_len: 77,
    start_mark: NO_MARK,
    end_mark: NO_MARK,
    input_at: 77,
};

pub(crate) const NO_ANSWER: bogzhami_answer = bogzhami_answer {
    token_count: 77,
    text_len: 77,
    error: 77,
    problem_value: 77,
    problem_offset: 77,
    problem_mark: NO_MARK,
    context_mark: NO_MARK,
    problem_len: 77,
    context_len: 77,
};

/// The counts of an answer, and the number of the kind of fault.
fn counted(out: &bogzhami_answer) -> (u64, u64, u32) {
    (out.token_count, out.text_len, out.error)
}

/// The status of a call, the counts of its answer, how long the texts of the fault are, and the indices of the problem
/// and of its context.
type told_t = (u32, (u64, u64, u32), (u64, u64), (u64, u64));

/// Scans an input with the usual key limit. Returns what is told.
fn scanned(
    rt: HostRuntime,
    input: &[u8],
    tokens: &mut [bogzhami_token],
    texts: &mut [u8],
) -> told_t {
    let mut out = NO_ANSWER;
    let status = bogzhami_scan_all(rt.alloc(), input, 0, KEY_LIMIT, tokens, texts, &mut out);
    let lens = (out.problem_len, out.context_len);
    let indices = (out.problem_mark.index, out.context_mark.index);
    (status, counted(&out), lens, indices)
}

/// Asserts what is told of a scan.
fn expect_told(rt: &impl Abort, told: told_t, want: told_t) {
    assert_eq!(rt; told, want);
}

/// Asserts what the room for texts has.
fn expect_texts(rt: &impl Abort, texts: &[u8], want: &[u8]) {
    assert_eq!(rt; texts, want);
}

const TAGGED: &[u8] = b"!a!xkey\n|\n";

/// The numbers of a record's type and of its detail, and the major version.
fn said(token: &bogzhami_token) -> (u32, u32, i32) {
    (token.token_type, token.detail, token.major)
}

/// Where the texts of a record begin and how long they are, and where its value stands in the input.
fn placed(token: &bogzhami_token) -> (u64, u64, u64, u64) {
    (
        token.text_at,
        token.first_len,
        token.second_len,
        token.input_at,
    )
}

/// The indices and the lines where a token starts and ends.
fn spanned(token: &bogzhami_token) -> (u64, u64, u64, u64) {
    let (start, end) = (token.start_mark, token.end_mark);
    (start.index, start.line, end.index, end.line)
}

/// What a record says, where its texts are, and where the token is.
type record_t = ((u32, u32, i32), (u64, u64, u64, u64), (u64, u64, u64, u64));

/// Asserts what a record is.
fn expect_record(rt: &impl Abort, token: &bogzhami_token, want: record_t) {
    let record = (said(token), placed(token), spanned(token));
    assert_eq!(rt; record, want);
}

/// Asserts what the records of the tagged text are, and that the last one is as it was.
fn expect_records(rt: &impl Abort, tokens: &[bogzhami_token; 5]) {
    let [start, tag, scalar, end, rest] = tokens;
    let others = (said(start), end.token_type, rest.token_type);
    assert_eq!(rt; others, ((1, 1, 0), 2, 77));
    expect_record(rt, tag, ((20, 0, 0), (0, 3, 4, NOWHERE), (0, 0, 7, 0)));
    expect_record(rt, scalar, ((21, 4, 0), (7, 0, 0, NOWHERE), (8, 1, 10, 2)));
}

/// A tag with a handle and a suffix, and an empty literal scalar.
#[test]
fn records_and_texts(rt: HostRuntime) -> Result<(), Fail> {
    let mut tokens = [NO_TOKEN; 5];
    let mut texts = [77u8; 8];
    let told = scanned(rt, TAGGED, &mut tokens, &mut texts);
    expect_told(&rt, told, (0, (4, 7, 0), (0, 0), (0, 0)));
    expect_texts(&rt, &texts, b"!a!xkeyM");
    expect_records(&rt, &tokens);
    Ok(())
}

/// A quoted scalar that is not closed: the texts of the fault come after those of the tokens.
#[test]
fn fault_and_its_texts(rt: HostRuntime) -> Result<(), Fail> {
    let mut tokens = [NO_TOKEN; 3];
    let mut texts = [77u8; 64];
    let told = scanned(rt, b"!!a\n\"\" \"\n", &mut tokens, &mut texts);
    expect_told(&rt, told, (1, (2, 3, 3), (30, 30), (9, 7)));
    expect_texts(
        &rt,
        &texts,
        b"!!afound unexpected end of streamwhile scanning a quoted scalarM",
    );
    Ok(())
}

/// What has no room is counted and not written; a text is cut where the room ends.
#[test]
fn rooms_that_are_too_small(rt: HostRuntime) -> Result<(), Fail> {
    let mut tokens = [NO_TOKEN; 1];
    let mut texts = [77u8; 4];
    let told = scanned(rt, TAGGED, &mut tokens, &mut texts);
    expect_told(&rt, told, (0, (4, 7, 0), (0, 0), (0, 0)));
    expect_texts(&rt, &texts, b"!a!x");
    assert_eq!(rt; tokens[0].token_type, 1);
    Ok(())
}

/// Whether a record is as it was before the call.
fn is_untouched(token: &bogzhami_token) -> bool {
    let marks = [token.start_mark, token.end_mark];
    (token.token_type, token.detail) == (77, 77)
        && (token.major, token.minor) == (77, 77)
        && (token.text_at, token.first_len, token.second_len) == (77, 77, 77)
        && token.input_at == 77
        && marks.iter().all(|mark| (mark.index, mark.line, mark.column) == (77, 77, 77))
}

/// Whether an answer is all zeros.
fn is_zero(out: &bogzhami_answer) -> bool {
    let marks = [out.problem_mark, out.context_mark];
    counted(out) == (0, 0, 0)
        && (out.problem_value, out.problem_offset) == (0, 0)
        && (out.problem_len, out.context_len) == (0, 0)
        && marks
            .iter()
            .all(|mark| (mark.index, mark.line, mark.column) == (0, 0, 0))
}

/// The status of a call with a setting and a limit, whether the answer is all zeros, and whether the rooms are as they
/// were.
fn refused(alloc: Global, setting: u32, limit: u32) -> (u32, bool, bool) {
    let mut tokens = [NO_TOKEN; 1];
    let mut texts = [77u8; 1];
    let mut out = NO_ANSWER;
    let status = bogzhami_scan_all(
        alloc,
        b"a",
        setting,
        limit,
        &mut tokens,
        &mut texts,
        &mut out,
    );
    let same = is_untouched(&tokens[0]) && texts[0] == 77;
    (status, is_zero(&out), same)
}

/// Asserts that a call with a setting and a limit is refused.
fn expect_refused(rt: &(impl Abort + AllocGlobal), setting: u32, limit: u32) {
    let told = refused(rt.alloc(), setting, limit);
    assert_eq!(rt; told, (2, true, true), "{setting} {limit}");
}

/// A setting or a limit that is wrong touches nothing but the answer, which is all zeros.
#[test]
fn wrong_settings_and_limits(rt: HostRuntime) -> Result<(), Fail> {
    expect_refused(&rt, 4, KEY_LIMIT);
    expect_refused(&rt, u32::MAX, KEY_LIMIT);
    expect_refused(&rt, 0, 0);
    expect_refused(&rt, 0, 65_537);
    Ok(())
}

/// The status of a call with a limit, how many tokens there are, the type of the first, and the first byte of their
/// texts.
fn limited(rt: HostRuntime, limit: u32) -> (u32, u64, u32, u8) {
    let mut tokens = [NO_TOKEN; 1];
    let mut texts = [77u8; 1];
    let mut out = NO_ANSWER;
    let status = bogzhami_scan_all(
        rt.alloc(),
        b"a",
        0,
        limit,
        &mut tokens,
        &mut texts,
        &mut out,
    );
    (status, out.token_count, tokens[0].token_type, texts[0])
}

/// The greatest and the least limit are right.
#[test]
fn ends_of_the_limits(rt: HostRuntime) -> Result<(), Fail> {
    let least = limited(rt, 1);
    let greatest = limited(rt, 65_536);
    let want = (0, 3, 1, b'a');
    assert_eq!(rt; (least, greatest), (want, want));
    Ok(())
}

/// Where the value of the token after the stream start stands in the input.
fn place(alloc: Global, input: &[u8], setting: u32) -> u64 {
    let mut tokens = [NO_TOKEN; 2];
    let mut texts = [77u8; 8];
    let mut out = NO_ANSWER;
    let _status = bogzhami_scan_all(
        alloc,
        input,
        setting,
        KEY_LIMIT,
        &mut tokens,
        &mut texts,
        &mut out,
    );
    tokens[1].input_at
}

/// Asserts where the values of inputs stand, which are in the encodings of these numbers.
fn expect_places(rt: &(impl Abort + AllocGlobal), rows: &[(&[u8], u32, u64)]) {
    for (input, setting, at) in rows {
        assert_eq!(rt; place(rt.alloc(), input, *setting), *at, "{input:?}");
    }
}

/// A value that the input has as it is stands at its place, after a quote, `*` or `&`.
#[test]
fn values_in_the_input(rt: HostRuntime) -> Result<(), Fail> {
    const ROWS: [(&[u8], u32, u64); 12] = [
        (b"a", 0, 0),
        (b"ab", 0, 0),
        (b" abcde", 0, 1),
        (b" abcdefghi", 0, 1),
        (b" abcdefghijklmnopq", 0, 1),
        (b"# c\n ab # d", 0, 5),
        (b" 'ab'", 0, 2),
        (b" \"ab\"", 0, 2),
        (b"'ab'''", 0, 1),
        (b" ''", 0, 2),
        (b" &ab", 0, 2),
        (b" *ab", 0, 2),
    ];
    expect_places(&rt, &ROWS);
    Ok(())
}

/// A value that the input has not as it is stands nowhere, nor do the texts of other tokens.
#[test]
fn values_that_are_not_in_the_input(rt: HostRuntime) -> Result<(), Fail> {
    const ROWS: [(&[u8], u32, u64); 12] = [
        (b"\"a\\tb\"", 0, NOWHERE),
        (b"'a''b'", 0, NOWHERE),
        (b"\"a\n b\"", 0, NOWHERE),
        (b"a\n b", 0, NOWHERE),
        (b"a\n bcdefgh", 0, NOWHERE),
        (b"abcde\n fgh", 0, NOWHERE),
        (b"abcdefghijklmn\n opq", 0, NOWHERE),
        (b"|\n ab", 0, NOWHERE),
        (b">\n ab", 0, NOWHERE),
        (b"!ab", 0, NOWHERE),
        (b"%TAG !a! b\n---", 0, NOWHERE),
        (b"--- a", 0, NOWHERE),
    ];
    expect_places(&rt, &ROWS);
    Ok(())
}

/// A byte order mark comes before the text, whether it is dropped or not. In UTF-16 no value stands in the input.
#[test]
fn values_in_other_encodings(rt: HostRuntime) -> Result<(), Fail> {
    const ROWS: [(&[u8], u32, u64); 8] = [
        (b"\xEF\xBB\xBFab", 0, 3),
        (b"\xEF\xBB\xBFab", 1, 3),
        (b"ab", 1, 0),
        (b"\xFF\xFEa\0", 0, NOWHERE),
        (b"\xFE\xFF\0a", 0, NOWHERE),
        (b"\xFF\xFE'\0'\0", 0, NOWHERE),
        (b"a\0", 2, NOWHERE),
        (b"\0a", 3, NOWHERE),
    ];
    expect_places(&rt, &ROWS);
    Ok(())
}

/// The status of a call for the place of an offset, and the index, the line and the column of that.
fn place_of_offset(
    alloc: Global,
    input: &[u8],
    setting: u32,
    offset: u64,
) -> (u32, (u64, u64, u64)) {
    let mut mark = NO_MARK;
    let status = bogzhami_place(alloc, input, setting, offset, &mut mark);
    (status, (mark.index, mark.line, mark.column))
}

/// An input, the number of its encoding and an offset, and the place of that.
type offset_row_t<'a> = (&'a [u8], u32, u64, (u64, u64, u64));

/// Asserts which places offsets have.
fn expect_offsets(rt: &(impl Abort + AllocGlobal), rows: &[offset_row_t]) {
    for (input, setting, offset, place) in rows {
        let told = place_of_offset(rt.alloc(), input, *setting, *offset);
        assert_eq!(rt; told, (0, *place), "{input:?} {offset}");
    }
}

/// Whole characters count, and CR LF is one break. An offset past the end has the place of the end.
#[test]
fn places_of_offsets(rt: HostRuntime) -> Result<(), Fail> {
    const TEXT: &[u8] = b"a\r\n\xC3\xA9b";
    const ROWS: [offset_row_t; 8] = [
        (TEXT, 1, 0, (0, 0, 0)),
        (TEXT, 1, 1, (1, 0, 1)),
        (TEXT, 1, 2, (2, 1, 0)),
        (TEXT, 1, 3, (3, 1, 0)),
        (TEXT, 1, 4, (3, 1, 0)),
        (TEXT, 1, 5, (5, 1, 1)),
        (TEXT, 1, 6, (6, 1, 2)),
        (TEXT, 1, u64::MAX, (6, 1, 2)),
    ];
    expect_offsets(&rt, &ROWS);
    Ok(())
}

/// A byte order mark counts for nothing if it decides the encoding, and what is wrong ends the text.
#[test]
fn places_after_marks_and_faults(rt: HostRuntime) -> Result<(), Fail> {
    const ROWS: [offset_row_t; 8] = [
        (b"\xEF\xBB\xBFa", 0, 2, (0, 0, 0)),
        (b"\xEF\xBB\xBFa", 0, 4, (1, 0, 1)),
        (b"\xEF\xBB\xBFa", 1, 4, (4, 0, 2)),
        (b"\xFF\xFEa\0\n\0b\0", 0, 1, (0, 0, 0)),
        (b"\xFF\xFEa\0\n\0b\0", 0, 7, (2, 1, 0)),
        (b"\0a\0\n\0b", 3, 6, (3, 1, 1)),
        (b"ab: cd\nx: \xFFb", 0, 10, (10, 1, 3)),
        (b"ab: cd\nx: \xFFb", 0, 12, (10, 1, 3)),
    ];
    expect_offsets(&rt, &ROWS);
    Ok(())
}

/// A wrong encoding has no place: the mark is zeros.
#[test]
fn places_in_wrong_encodings(rt: HostRuntime) -> Result<(), Fail> {
    assert_eq!(rt; place_of_offset(rt.alloc(), b"a", 4, 1), (2, (0, 0, 0)));
    assert_eq!(rt;
        place_of_offset(rt.alloc(), b"a", u32::MAX, 1),
        (2, (0, 0, 0))
    );
    Ok(())
}

/// A handle that holds a scanner of an input, unless memory was refused.
fn opened(rt: HostRuntime, input: &[u8]) -> bogzhami_handle
    ensures { result.live ≡ true → Whole result.held.value
        (λ h. (s : Scan) × (s.input ≡ input.now) × IsAt s h) }
{
    let mut handle = closed();
    let _status = bogzhami_open(rt.alloc(), &mut handle, input, 0, KEY_LIMIT);
    handle
}

/// The status of a batch with room for so many tokens and bytes, how many tokens there are, the type of the first, and
/// how many bytes the texts have.
fn batch(
    rt: HostRuntime,
    handle: &mut bogzhami_handle,
    input: &[u8],
    count: usize,
    len: usize,
) -> (u32, u64, u32, u64)
    requires count { count ≤ 8 }
    requires len { len ≤ 128 }
    requires at { handle.old.live ≡ true → Whole handle.old.held.value
        (λ h. (s : Scan) × (s.input ≡ input.now) × IsAt s h) }
    ensures { handle.new.live ≡ true → Whole handle.new.held.value
        (λ h. (s : Scan) × (s.input ≡ input.now) × IsAt s h) }
{
    let mut tokens = [NO_TOKEN; 8];
    let mut texts = [77u8; 128];
    let mut answer = NO_ANSWER;
    let status = bogzhami_next(
        rt.alloc(),
        handle,
        input,
        &mut tokens[..count],
        &mut texts[..len],
        &mut answer,
    );
    (
        status,
        answer.token_count,
        tokens[0].token_type,
        answer.text_len,
    )
}

/// The status of a peek with room for so many bytes, the type of the token that it shows, and how many bytes its texts
/// have.
fn peeked(
    rt: HostRuntime,
    handle: &mut bogzhami_handle,
    input: &[u8],
    len: usize,
) -> (u32, u32, u64)
    requires len { len ≤ 128 }
    requires at { handle.old.live ≡ true → Whole handle.old.held.value
        (λ h. (s : Scan) × (s.input ≡ input.now) × IsAt s h) }
    ensures { handle.new.live ≡ true → Whole handle.new.held.value
        (λ h. (s : Scan) × (s.input ≡ input.now) × IsAt s h) }
{
    let mut token = NO_TOKEN;
    let mut texts = [77u8; 128];
    let mut answer = NO_ANSWER;
    let status = bogzhami_peek(
        rt.alloc(),
        handle,
        input,
        &mut token,
        &mut texts[..len],
        &mut answer,
    );
    (status, token.token_type, answer.text_len)
}

/// A call on a handle: a batch with room for so many tokens and bytes, a peek with room for so many bytes, or a close.
#[derive(Clone, Copy, Debug, PartialEq, Eq)]
enum call_t {
    BATCH(usize, usize),
    PEEK(usize),
    CLOSE,
}

/// The status of a call, how many tokens it gives, the type of the first, or of the one that is shown, and how many
/// bytes the texts have.
type answer_t = (u32, u64, u32, u64);

/// A call, and its answer.
type row_t = (call_t, answer_t);

/// The answer to a call, which has room for at most 8 tokens and 128 bytes. A peek gives no token. All that a close
/// answers is its status.
fn answered(rt: HostRuntime, handle: &mut bogzhami_handle, input: &[u8], call: call_t) -> answer_t
    requires { handle.old.live ≡ true → Whole handle.old.held.value
        (λ h. (s : Scan) × (s.input ≡ input.now) × IsAt s h) }
    ensures { handle.new.live ≡ true → Whole handle.new.held.value
        (λ h. (s : Scan) × (s.input ≡ input.now) × IsAt s h) }
{
    match call {
        call_t::BATCH(count, len) => batch(rt, handle, input, count.min(8), len.min(128)),
        call_t::PEEK(len) => {
            let (status, kind, text_len) = peeked(rt, handle, input, len.min(128));
            (status, 0, kind, text_len)
        }
        call_t::CLOSE => (bogzhami_close(rt.alloc(), handle), 0, 0, 0),
    }
}

/// The calls of some rows, made one after the other, with their answers.
fn made(
    rt: HostRuntime,
    handle: &mut bogzhami_handle,
    input: &[u8],
    rows: &[row_t],
) -> Result<Vec<row_t>, AllocError>
    requires { handle.old.live ≡ true → Whole handle.old.held.value
        (λ h. (s : Scan) × (s.input ≡ input.now) × IsAt s h) }
{
    let mut made = Vec::new(rt.alloc());
    'calls: for (call, _) in rows {
        made.push((*call, answered(rt, handle, input, *call)))?;
    }
    Ok(made)
}

/// The calls of some rows, made on a new handle, with their answers.
fn session(rt: HostRuntime, input: &[u8], rows: &[row_t]) -> Result<Vec<row_t>, AllocError> {
    let mut handle = opened(rt, input);
    made(rt, &mut handle, input, rows)
}

/// Asserts that calls have the answers that are wanted.
fn expect_rows(rt: &impl Abort, made: &[row_t], want: &[row_t]) {
    assert_eq!(rt; made, want);
}

const SHORT: &[u8] = b"ab";

/// A token whose text finds no room is given by a later call that has the room, and what is needed is told until then.
#[test]
fn text_waits_for_its_room(rt: HostRuntime) -> Result<(), Fail> {
    const ROWS: [row_t; 6] = [
        (call_t::BATCH(8, 1), (0, 1, 1, 0)),
        (call_t::BATCH(8, 1), (5, 0, 77, 2)),
        (call_t::BATCH(8, 0), (5, 0, 77, 2)),
        (call_t::BATCH(8, 2), (0, 2, 21, 2)),
        (call_t::BATCH(8, 2), (4, 0, 77, 0)),
        (call_t::CLOSE, (0, 0, 0, 0)),
    ];
    expect_rows(&rt, &session(rt, SHORT, &ROWS)?, &ROWS);
    Ok(())
}

/// A peek takes nothing: a second one shows the same, and the next batch begins with it.
#[test]
fn peek_before_batches_of_one(rt: HostRuntime) -> Result<(), Fail> {
    const ROWS: [row_t; 11] = [
        (call_t::PEEK(2), (0, 0, 1, 0)),
        (call_t::PEEK(2), (0, 0, 1, 0)),
        (call_t::BATCH(1, 2), (0, 1, 1, 0)),
        (call_t::PEEK(2), (0, 0, 21, 2)),
        (call_t::PEEK(2), (0, 0, 21, 2)),
        (call_t::BATCH(1, 2), (0, 1, 21, 2)),
        (call_t::PEEK(2), (0, 0, 2, 0)),
        (call_t::PEEK(2), (0, 0, 2, 0)),
        (call_t::BATCH(1, 2), (0, 1, 2, 0)),
        (call_t::PEEK(2), (4, 0, 77, 0)),
        (call_t::CLOSE, (0, 0, 0, 0)),
    ];
    expect_rows(&rt, &session(rt, SHORT, &ROWS)?, &ROWS);
    Ok(())
}

/// A peek without room for the texts tells how much is needed, and so does the next batch.
#[test]
fn peek_without_room(rt: HostRuntime) -> Result<(), Fail> {
    const ROWS: [row_t; 6] = [
        (call_t::BATCH(1, 0), (0, 1, 1, 0)),
        (call_t::PEEK(1), (5, 0, 77, 2)),
        (call_t::BATCH(8, 1), (5, 0, 77, 2)),
        (call_t::PEEK(2), (0, 0, 21, 2)),
        (call_t::BATCH(8, 2), (0, 2, 21, 2)),
        (call_t::CLOSE, (0, 0, 0, 0)),
    ];
    expect_rows(&rt, &session(rt, SHORT, &ROWS)?, &ROWS);
    Ok(())
}

/// Whether two peeks show the next token, of this type and with texts of so many bytes, and then a batch gives it.
fn is_shown_and_given(rt: HostRuntime, handle: &mut bogzhami_handle, kind: u32, len: u64) -> bool
    requires { handle.old.live ≡ true → Whole handle.old.held.value
        (λ h. (s : Scan) × (s.input ≡ SHORT.now) × IsAt s h) }
    ensures { handle.new.live ≡ true → Whole handle.new.held.value
        (λ h. (s : Scan) × (s.input ≡ SHORT.now) × IsAt s h) }
{
    let first = peeked(rt, handle, SHORT, 2);
    let second = peeked(rt, handle, SHORT, 2);
    let token = batch(rt, handle, SHORT, 1, 2);
    first == (0, kind, len) && second == (0, kind, len) && token == (0, 1, kind, len)
}

/// The answers to three batches of one scanner, and whether the other shows and gives its first two tokens after the
/// first batch.
fn by_turns(
    rt: HostRuntime,
    one: &mut bogzhami_handle,
    two: &mut bogzhami_handle,
) -> ([answer_t; 3], bool)
    requires one { one.old.live ≡ true → Whole one.old.held.value
        (λ h. (s : Scan) × (s.input ≡ SHORT.now) × IsAt s h) }
    requires two { two.old.live ≡ true → Whole two.old.held.value
        (λ h. (s : Scan) × (s.input ≡ SHORT.now) × IsAt s h) }
    ensures { two.new.live ≡ true → Whole two.new.held.value
        (λ h. (s : Scan) × (s.input ≡ SHORT.now) × IsAt s h) }
{
    let start = batch(rt, one, SHORT, 1, 2);
    let first = is_shown_and_given(rt, two, 1, 0);
    let second = is_shown_and_given(rt, two, 21, 2);
    let scalar = batch(rt, one, SHORT, 1, 2);
    let end = batch(rt, one, SHORT, 1, 2);
    ([start, scalar, end], first && second)
}

/// The status of closing one scanner, the answer to a batch of the other, and the status of closing that one too.
fn closed_by_turns(
    rt: HostRuntime,
    one: &mut bogzhami_handle,
    two: &mut bogzhami_handle,
) -> (u32, answer_t, u32)
    requires { two.old.live ≡ true → Whole two.old.held.value
        (λ h. (s : Scan) × (s.input ≡ SHORT.now) × IsAt s h) }
{
    let first = bogzhami_close(rt.alloc(), one);
    let end = batch(rt, two, SHORT, 8, 2);
    (first, end, bogzhami_close(rt.alloc(), two))
}

/// What two new scanners answer by turns, until they are closed.
fn two_by_turns(rt: HostRuntime) -> (([answer_t; 3], bool), (u32, answer_t, u32)) {
    let mut one = opened(rt, SHORT);
    let mut two = opened(rt, SHORT);
    let given = by_turns(rt, &mut one, &mut two);
    (given, closed_by_turns(rt, &mut one, &mut two))
}

/// Two scanners of one input go on each by itself.
#[test]
fn two_handles_over_one_input(rt: HostRuntime) -> Result<(), Fail> {
    let (given, closed) = two_by_turns(rt);
    let answers = [(0, 1, 1, 0), (0, 1, 21, 2), (0, 1, 2, 0)];
    assert_eq!(rt; given, (answers, true));
    assert_eq!(rt; closed, (0, (0, 1, 2, 0), 0));
    Ok(())
}

const FAULTY: &[u8] = b"@";

/// How many bytes the texts of the fault have, as the second of two batches without room for them tells.
fn needed(rt: HostRuntime) -> usize {
    let mut handle = opened(rt, FAULTY);
    let _ = batch(rt, &mut handle, FAULTY, 8, 1);
    let (_, _, _, needed) = batch(rt, &mut handle, FAULTY, 8, 1);
    let _ = bogzhami_close(rt.alloc(), &mut handle);
    (needed as usize).min(128)
}

/// Calls of which the last but two has the room for the fault, and the answers to them.
fn fault_rows(needed: usize) -> [row_t; 7] {
    let waits = (5, 0, 77, needed as u64);
    [
        (call_t::BATCH(8, 1), (0, 1, 1, 0)),
        (call_t::BATCH(8, 1), waits),
        (call_t::PEEK(1), waits),
        (call_t::BATCH(8, needed.saturating_sub(1)), waits),
        (call_t::BATCH(8, needed), (1, 0, 77, 0)),
        (call_t::BATCH(8, 128), (4, 0, 77, 0)),
        (call_t::CLOSE, (0, 0, 0, 0)),
    ]
}

/// A fault whose texts find no room is given by a later call, and once.
#[test]
fn fault_waits_for_its_room(rt: HostRuntime) -> Result<(), Fail> {
    let rows = fault_rows(needed(rt));
    expect_rows(&rt, &session(rt, FAULTY, &rows)?, &rows);
    Ok(())
}
