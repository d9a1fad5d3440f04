//! Calls of a kept parser, which stays in its place.
ghost use Rattle.std.specs.Prelude.{◌≡◌, ◌≤◌};
ghost use Rattle.yaml_scan.specs.Parser.{Parser};
ghost use Rattle.yaml_scan.specs.inside.Kept.{IsKept};

use crate::deep_tests::count_of;
use std::alloc::{AllocError, Global};
use std::process::Abort;
use std::test::Fail;
use yaml_scan::{
    yaml_kept_parser_t, yaml_kept_peek, yaml_kept_scan_to, yaml_lent_scalar_t, yaml_parser_peek,
    yaml_parser_scan, yaml_parser_t, yaml_scan_all_limit, yaml_scan_to, yaml_token_sink_t,
};
use yaml_text::{
    unnamed_yaml_token_t_data, yaml_encoding_t, yaml_mark_t, yaml_scalar_style_t, yaml_token_t,
};

const ANY: yaml_encoding_t = yaml_encoding_t::YAML_ANY_ENCODING;

/// Inputs with tokens that wait for a key, with all texts that a token may have, with a byte order mark, and in UTF-16.
const INPUTS: [&[u8]; 5] = [
    b"a:\n  - [b, c]: dd\n  - 'e'\n[f]: |\n  gg\n{h: \"i\"}: j\n",
    b"%TAG !e! tag:e,2000:\n--- !e!t &anchor long text\n... # end\n--- *anchor\n",
    b"\xEF\xBB\xBF- [ab, c]: d\n",
    b"\xFF\xFEk\0e\0y\0:\0 \0[\0v\0,\0 \0\xE9\0]\0\n\0",
    b"",
];

/// How many bytes the texts of a token have.
pub(crate) fn texts_len(token: &yaml_token_t) -> u128 {
    match &token.token_data {
        unnamed_yaml_token_t_data::SCALAR { value, style: _ }
        | unnamed_yaml_token_t_data::ANCHOR { value }
        | unnamed_yaml_token_t_data::ALIAS { value } => value.len() as u128,
        unnamed_yaml_token_t_data::TAG { handle, suffix } => {
            (handle.len() as u128).saturating_add(suffix.len() as u128)
        }
        unnamed_yaml_token_t_data::TAG_DIRECTIVE { handle, prefix } => {
            (handle.len() as u128).saturating_add(prefix.len() as u128)
        }
        _ => 0,
    }
}

/// Whether a token says what a scalar says that is lent, and has its marks.
pub(crate) fn is_token_of(token: &yaml_token_t, scalar: &yaml_lent_scalar_t) -> bool {
    match &token.token_data {
        unnamed_yaml_token_t_data::SCALAR { value, style } => {
            value.as_slice() == scalar.value
                && *style == scalar.style
                && token.start_mark == scalar.start_mark
                && token.end_mark == scalar.end_mark
        }
        _ => false,
    }
}

/// Has room for so many tokens and bytes, and compares each token with that of another parser of the same input.
#[derive(Drop)]
struct shelf_t<'a> {
    right: yaml_parser_t<'a>,
    room: u128,
    texts: u128,
    tokens: usize,
    wrong: usize,
}

impl<'a> shelf_t<'a> {
    fn new(alloc: Global, input: &'a [u8]) -> shelf_t<'a> {
        shelf_t {
            right: yaml_parser_t::new(alloc, input, ANY),
            room: 0,
            texts: 0,
            tokens: 0,
            wrong: 0,
        }
    }

    /// Counts a token whose texts have so many bytes, and whether it is wrong or has no room.
    fn count(&mut self, same: bool, texts: u128) {
        let fits = self.room > 0 && texts <= self.texts;
        if !same || !fits {
            self.wrong = self.wrong.wrapping_add(1);
        }
        self.room = self.room.saturating_sub(1);
        self.texts = self.texts.saturating_sub(texts);
        self.tokens = self.tokens.wrapping_add(1);
    }
}

impl yaml_token_sink_t for shelf_t<'_> {
    ghost took = { λ _ _ _. Unit {0} };

    ghost may_refuse = { ⊥ };

    ghost within = { λ _. Unit {0} };

    ghost lacks = { λ s count texts. Unit {0} };

    fn put(&mut self, token: yaml_token_t) -> Result<(), AllocError> {
        let same = match yaml_parser_scan(&mut self.right) {
            Ok(want) => want == token,
            Err(_) => false,
        };
        self.count(same, texts_len(&token));
        Ok(())
    }

    fn put_scalar(&mut self, scalar: &yaml_lent_scalar_t) -> Result<(), AllocError> {
        let same = match yaml_parser_scan(&mut self.right) {
            Ok(want) => is_token_of(&want, scalar),
            Err(_) => false,
        };
        self.count(same, scalar.value.len() as u128);
        Ok(())
    }

    fn room(&mut self, alloc: Global) -> Vec<u8> {
        Vec::new(alloc)
    }

    fn has_room(&self, count: u128, texts: u128) -> bool {
        count <= self.room && texts <= self.texts
    }

    ghost took_none = { λ _. tt };

    ghost took_more = { λ _ _ _ _ _ _ _. tt };

    ghost within_none = { λ _ _ _ _. tt };
}

/// A kept parser beside its input.
#[derive(Drop)]
struct held_t<'a> {
    kept: yaml_kept_parser_t,
    input: &'a [u8],
}

impl<'a> held_t<'a> {
    fn new(alloc: Global, input: &'a [u8]) -> held_t<'a>
        ensures { (p : Parser) × (p.input ≡ result.input.now) × IsKept p result.kept }
    {
        held_t {
            kept: yaml_kept_parser_t::new(yaml_parser_t::new(alloc, input, ANY)),
            input,
        }
    }

    /// Gives tokens to a sink. Returns whether there is a fault.
    fn scan_to(&mut self, shelf: &mut shelf_t) -> bool
        requires { (p : Parser) × (p.input ≡ self.old.input.now) × IsKept p self.old.kept }
        ensures { (p : Parser) × (p.input ≡ self.new.input.now) × IsKept p self.new.kept }
    {
        yaml_kept_scan_to(&mut self.kept, self.input, shelf)
    }

    /// Shows the next token. Returns whether there is a fault.
    fn peek(&mut self) -> bool
        requires { (p : Parser) × (p.input ≡ self.old.input.now) × IsKept p self.old.kept }
        ensures { (p : Parser) × (p.input ≡ self.new.input.now) × IsKept p self.new.kept }
    {
        yaml_kept_peek(&mut self.kept, self.input)
    }
}

/// How many bytes the next token needs if it was shown, for a sink that had room for so many.
fn need_of(kept: &yaml_kept_parser_t, texts: u128) -> u128 {
    match kept.peeked() {
        Some(token) => texts_len(token),
        None => texts,
    }
}

/// Whether a call stopped at a token that was shown, and that a sink had no room for, or that it had room for none.
fn stops_rightly(kept: &yaml_kept_parser_t, shelf: &shelf_t) -> bool {
    match kept.peeked() {
        Some(token) => shelf.room > 0 && texts_len(token) > shelf.texts,
        None => shelf.room == 0 || kept.is_over(),
    }
}

/// Makes one call with room for so many tokens, and bytes, or as many bytes as the next token needs. Returns whether
/// there is a fault, and whether it stopped at a right place.
fn goes_on(held: &mut held_t, shelf: &mut shelf_t, room: u128, texts: u128) -> (bool, bool)
    requires { (p : Parser) × (p.input ≡ held.old.input.now) × IsKept p held.old.kept }
    ensures { (p : Parser) × (p.input ≡ held.new.input.now) × IsKept p held.new.kept }
{
    shelf.room = room;
    shelf.texts = need_of(&held.kept, texts).max(texts);
    let faulty = held.scan_to(shelf);
    (faulty, stops_rightly(&held.kept, shelf))
}

/// How many tokens a sink got, if all are right and none is left.
fn all_got(held: &held_t, shelf: &shelf_t) -> Result<usize, Fail> {
    if shelf.wrong > 0 || !held.kept.is_over() {
        return Err("a wrong token, or no end".into());
    }
    Ok(shelf.tokens)
}

/// Makes 300 calls, each with room for so many tokens, and bytes, or as many bytes as the next token needs. Returns how
/// many tokens the sink got if all are right.
fn goes_to_the_end(
    held: &mut held_t,
    shelf: &mut shelf_t,
    room: u128,
    texts: u128,
) -> Result<usize, Fail>
    requires { (p : Parser) × (p.input ≡ held.old.input.now) × IsKept p held.old.kept }
{
    'calls: for _ in 0..300 {
        if goes_on(held, shelf, room, texts) != (false, true) {
            return Err("a fault, or a stop at a wrong place".into());
        }
    }
    all_got(held, shelf)
}

/// How many tokens a new sink gets in `goes_to_the_end`, of a new parser.
fn given(alloc: Global, input: &[u8], room: u128, texts: u128) -> Result<usize, Fail> {
    let mut held = held_t::new(alloc, input);
    let mut shelf = shelf_t::new(alloc, input);
    goes_to_the_end(&mut held, &mut shelf, room, texts)
}

/// Asserts that a sink gets so many tokens in calls that have room for so many.
pub(crate) fn expect_given(
    rt: &(impl Abort + AllocGlobal),
    input: &[u8],
    room: u128,
    count: usize,
) -> Result<(), Fail> {
    for texts in [0, 1, 2, 5, 1000] {
        let tokens = given(rt.alloc(), input, room, texts)?;
        assert_eq!(rt; tokens, count, "{room} {texts}");
    }
    Ok(())
}

/// Asserts that a sink gets all tokens of an input, whatever room it has.
fn expect_all_given(rt: &(impl Abort + AllocGlobal), input: &[u8]) -> Result<(), Fail> {
    let count = count_of(rt.alloc(), input)?;
    for room in [1, 2, 3, 7, 1000] {
        expect_given(rt, input, room, count)?;
    }
    Ok(())
}

/// Whatever room a sink has, it gets all tokens, and the calls stop only where there is no room.
#[test]
fn tokens_go_on_while_there_is_room(rt: HostRuntime) -> Result<(), Fail> {
    for input in &INPUTS {
        expect_all_given(&rt, input)?;
    }
    Ok(())
}

/// A call that gives tokens to a sink with room for so many, a peek, or no call.
#[derive(Clone, Copy, Debug)]
enum call_t {
    GIVE(u128),
    PEEK,
    NONE,
}

/// Whether a fault is told, and then whether the session is over, whether it has a fault, and whether a token is shown.
type told_t = (bool, bool, bool, bool);

const GOES_ON: told_t = (false, false, false, false);

const SHOWN: told_t = (false, false, false, true);

const ENDED: told_t = (false, true, false, false);

const FAULTY: told_t = (true, true, true, false);

const FAULTY_BEFORE: told_t = (false, true, true, false);

/// Makes a call. Returns what is told.
fn told(held: &mut held_t, shelf: &mut shelf_t, call: call_t) -> told_t
    requires { (p : Parser) × (p.input ≡ held.old.input.now) × IsKept p held.old.kept }
    ensures { (p : Parser) × (p.input ≡ held.new.input.now) × IsKept p held.new.kept }
{
    let faulty = match call {
        call_t::GIVE(room) => {
            shelf.room = room;
            shelf.texts = 100;
            held.scan_to(shelf)
        }
        call_t::PEEK => held.peek(),
        call_t::NONE => false,
    };
    let kept = &held.kept;
    (
        faulty,
        kept.is_over(),
        kept.fault().is_some(),
        kept.peeked().is_some(),
    )
}

/// Makes the call of a row. Asserts what is told, and how many tokens the sink has then.
fn expect_told(
    rt: &impl Abort,
    held: &mut held_t,
    shelf: &mut shelf_t,
    row: &(call_t, told_t, usize),
)
    requires { (p : Parser) × (p.input ≡ held.old.input.now) × IsKept p held.old.kept }
    ensures { (p : Parser) × (p.input ≡ held.new.input.now) × IsKept p held.new.kept }
{
    let (call, want, tokens) = *row;
    let told = told(held, shelf, call);
    assert_eq!(rt; (told, shelf.tokens), (want, tokens), "{call:?}");
}

/// Makes the calls of the rows, one after the other.
fn expect_each_told(
    rt: &impl Abort,
    held: &mut held_t,
    shelf: &mut shelf_t,
    rows: &[(call_t, told_t, usize)],
)
    requires { (p : Parser) × (p.input ≡ held.old.input.now) × IsKept p held.old.kept }
{
    'calls: for row in rows {
        expect_told(rt, held, shelf, row);
    }
}

/// Makes the calls of the rows on a new parser of an input.
fn expect_session(rt: &(impl Abort + AllocGlobal), input: &[u8], rows: &[(call_t, told_t, usize)]) {
    let mut held = held_t::new(rt.alloc(), input);
    let mut shelf = shelf_t::new(rt.alloc(), input);
    expect_each_told(rt, &mut held, &mut shelf, rows);
}

/// A sink without room gets no token, and none is shown to it.
#[test]
fn no_token_goes_where_there_is_no_room(rt: HostRuntime) -> Result<(), Fail> {
    const ROWS: [(call_t, told_t, usize); 1] = [(call_t::GIVE(0), GOES_ON, 0)];
    expect_session(&rt, b"a", &ROWS);
    Ok(())
}

/// A token that was shown is still shown after a call that gives none, and the next call gives it.
#[test]
fn shown_token_waits_for_room(rt: HostRuntime) -> Result<(), Fail> {
    const ROWS: [(call_t, told_t, usize); 3] = [
        (call_t::PEEK, SHOWN, 0),
        (call_t::GIVE(0), SHOWN, 0),
        (call_t::GIVE(1), GOES_ON, 1),
    ];
    expect_session(&rt, b"a", &ROWS);
    Ok(())
}

/// A token that was shown before its parser was kept, here the scalar of two letters, is still shown.
#[test]
fn shown_token_is_kept(rt: HostRuntime) -> Result<(), Fail> {
    let mut parser = yaml_parser_t::new(rt.alloc(), b"ab", ANY);
    assert!(rt; yaml_parser_scan(&mut parser).is_ok());
    assert!(rt; yaml_parser_peek(&mut parser).is_ok());
    let kept = yaml_kept_parser_t::new(parser);
    match kept.peeked() {
        Some(token) => assert_eq!(rt; texts_len(token), 2),
        None => return Err("no token is shown".into()),
    }
    Ok(())
}

/// Shows the next token. Returns whether it is the one that another parser shows.
fn shows_the_next(held: &mut held_t, right: &mut yaml_parser_t) -> bool
    requires { (p : Parser) × (p.input ≡ held.old.input.now) × IsKept p held.old.kept }
    ensures { (p : Parser) × (p.input ≡ held.new.input.now) × IsKept p held.new.kept }
{
    if held.peek() {
        return false;
    }
    match (held.kept.peeked(), yaml_parser_peek(right)) {
        (Some(shown), Ok(want)) => shown == want,
        _ => false,
    }
}

/// Gives the next token to a sink that has room for one. Returns whether there is no fault, here or in another parser
/// that takes a token too.
fn gives_the_next(held: &mut held_t, right: &mut yaml_parser_t, shelf: &mut shelf_t) -> bool
    requires { (p : Parser) × (p.input ≡ held.old.input.now) × IsKept p held.old.kept }
    ensures { (p : Parser) × (p.input ≡ held.new.input.now) × IsKept p held.new.kept }
{
    shelf.room = 1;
    shelf.texts = 1000;
    let faulty = held.scan_to(shelf);
    yaml_parser_scan(right).is_ok() && !faulty
}

/// Gives so many tokens to a sink, one by one, each after it was shown twice. Returns how many it got if all are right
/// and none is left.
fn peek_and_give(
    held: &mut held_t,
    right: &mut yaml_parser_t,
    shelf: &mut shelf_t,
    count: usize,
) -> Result<usize, Fail>
    requires { (p : Parser) × (p.input ≡ held.old.input.now) × IsKept p held.old.kept }
{
    'tokens: for _ in 0..count {
        let once = shows_the_next(held, right);
        let twice = shows_the_next(held, right);
        let given = gives_the_next(held, right, shelf);
        if !once || !twice || !given {
            return Err("another token is shown, or a fault comes".into());
        }
    }
    all_got(held, shelf)
}

/// How many tokens a sink gets in `peek_and_give`, with a new parser beside the kept one.
fn peek_beside(
    alloc: Global,
    held: &mut held_t,
    shelf: &mut shelf_t,
    count: usize,
) -> Result<usize, Fail>
    requires { (p : Parser) × (p.input ≡ held.old.input.now) × IsKept p held.old.kept }
{
    let mut right = yaml_parser_t::new(alloc, held.input, ANY);
    peek_and_give(held, &mut right, shelf, count)
}

/// How many tokens a new sink gets in `peek_and_give`, of a new parser.
fn peeked_and_given(alloc: Global, input: &[u8], count: usize) -> Result<usize, Fail> {
    let mut held = held_t::new(alloc, input);
    let mut shelf = shelf_t::new(alloc, input);
    peek_beside(alloc, &mut held, &mut shelf, count)
}

/// Asserts that all tokens of an input are shown, and given one by one.
pub(crate) fn expect_all_peeked(rt: &(impl Abort + AllocGlobal), input: &[u8]) -> Result<(), Fail> {
    let count = count_of(rt.alloc(), input)?;
    let tokens = peeked_and_given(rt.alloc(), input, count)?;
    assert_eq!(rt; tokens, count);
    Ok(())
}

/// A token is shown before each one that is taken, and twice.
#[test]
fn peeked_token_is_the_next(rt: HostRuntime) -> Result<(), Fail> {
    for input in &INPUTS {
        expect_all_peeked(&rt, input)?;
    }
    Ok(())
}

/// After the end a sink gets nothing, and nothing is shown.
#[test]
fn nothing_comes_after_the_end(rt: HostRuntime) -> Result<(), Fail> {
    const ROWS: [(call_t, told_t, usize); 3] = [
        (call_t::GIVE(10), ENDED, 3),
        (call_t::GIVE(10), ENDED, 3),
        (call_t::PEEK, ENDED, 3),
    ];
    expect_session(&rt, b"a", &ROWS);
    Ok(())
}

/// Makes nine calls with room for so many tokens. Returns whether this one alone tells a fault, and the session is over
/// and has a fault from it on.
fn tells_at(held: &mut held_t, shelf: &mut shelf_t, room: u128, telling: usize) -> bool
    requires { (p : Parser) × (p.input ≡ held.old.input.now) × IsKept p held.old.kept }
{
    let mut right = true;
    'calls: for call in 1..10 {
        let ended = call >= telling;
        right &= told(held, shelf, call_t::GIVE(room)) == (call == telling, ended, ended, false);
    }
    right
}

/// Makes nine calls with room for so many tokens. Returns whether the fault is told at this call alone, how many tokens
/// the sink got, and how many of them are wrong.
fn told_at(alloc: Global, input: &[u8], room: u128, telling: usize) -> (bool, usize, usize) {
    let mut held = held_t::new(alloc, input);
    let mut shelf = shelf_t::new(alloc, input);
    let right = tells_at(&mut held, &mut shelf, room, telling);
    (right, shelf.tokens, shelf.wrong)
}

/// Asserts that a sink gets the six tokens before a fault, with room for one in each call, for three, and for all.
fn expect_six(rt: &(impl Abort + AllocGlobal), input: &[u8]) {
    for (room, telling) in [(1, 7), (3, 3), (100, 1)] {
        let told = told_at(rt.alloc(), input, room, telling);
        assert_eq!(rt; told, (true, 6, 0), "{room}");
    }
}

/// The tokens before a fault go to the sink, and then the fault is told once, and kept.
#[test]
fn fault_comes_after_its_tokens(rt: HostRuntime) -> Result<(), Fail> {
    expect_six(&rt, b"a: b: c");
    expect_six(&rt, b"\xFE\xFF\0a\0:\0 \0b\0:\0 \0c");
    Ok(())
}

/// A fault is told to a peek once, and no token is shown then.
#[test]
fn peek_finds_the_fault(rt: HostRuntime) -> Result<(), Fail> {
    const ROWS: [(call_t, told_t, usize); 3] = [
        (call_t::NONE, GOES_ON, 0),
        (call_t::PEEK, FAULTY, 0),
        (call_t::PEEK, FAULTY_BEFORE, 0),
    ];
    expect_session(&rt, b"\xFF", &ROWS);
    Ok(())
}

/// A text of UTF-16 that was decoded is kept if a call finds a token without room, or nothing to give.
#[test]
fn decoded_text_is_kept(rt: HostRuntime) -> Result<(), Fail> {
    const INPUT: &[u8] = b"\xFF\xFEl\0o\0n\0g\0:\0 \0v\0";
    let at_once = given(rt.alloc(), INPUT, 100, 1)?;
    let one_by_one = given(rt.alloc(), INPUT, 1, 0)?;
    assert_eq!(rt; (at_once, one_by_one), (8, 8));
    Ok(())
}

/// Asserts that the token of a scalar that is lent has the same value, style and marks.
fn expect_owned(
    rt: &(impl Abort + AllocGlobal),
    value: &[u8],
    style: yaml_scalar_style_t,
) -> Result<(), Fail> {
    let lent = yaml_lent_scalar_t {
        value,
        style,
        start_mark: yaml_mark_t {
            index: 7,
            line: 1,
            column: 2,
        },
        end_mark: yaml_mark_t {
            index: 13,
            line: 1,
            column: 8,
        },
    };
    let token = lent.own(rt.alloc())?;
    assert!(rt; is_token_of(&token, &lent), "{value:?}");
    Ok(())
}

/// A plain value, one in quotes, an empty one, and one with characters of two and three bytes.
#[test]
fn lent_scalar_becomes_a_token(rt: HostRuntime) -> Result<(), Fail> {
    expect_owned(&rt, b"a", yaml_scalar_style_t::YAML_PLAIN_SCALAR_STYLE)?;
    expect_owned(
        &rt,
        b"b, c",
        yaml_scalar_style_t::YAML_SINGLE_QUOTED_SCALAR_STYLE,
    )?;
    expect_owned(
        &rt,
        b"",
        yaml_scalar_style_t::YAML_DOUBLE_QUOTED_SCALAR_STYLE,
    )?;
    expect_owned(
        &rt,
        b"\xC3\xA9\xE2\x82\xAC",
        yaml_scalar_style_t::YAML_PLAIN_SCALAR_STYLE,
    )
}

/// Writes the values of scalars in a row: after each that was lent a `|`, and for any other a `.` in its place.
#[derive(Drop)]
struct values_t {
    row: Vec<u8>,
}

impl yaml_token_sink_t for values_t {
    ghost took = { λ _ _ _. Unit {0} };

    ghost may_refuse = { Unit {0} };

    ghost within = { λ _. Unit {0} };

    ghost lacks = { λ s count texts. Unit {0} };

    fn put(&mut self, token: yaml_token_t) -> Result<(), AllocError> {
        if let unnamed_yaml_token_t_data::SCALAR { value: _, style: _ } = token.token_data {
            self.row.push(b'.')?;
        }
        Ok(())
    }

    fn put_scalar(&mut self, scalar: &yaml_lent_scalar_t) -> Result<(), AllocError> {
        self.row.extend_from_slice(scalar.value)?;
        self.row.push(b'|')?;
        Ok(())
    }

    fn room(&mut self, alloc: Global) -> Vec<u8> {
        Vec::new(alloc)
    }

    fn has_room(&self, _count: u128, _texts: u128) -> bool {
        true
    }

    ghost took_none = { λ _. tt };

    ghost took_more = { λ _ _ _ _ _ _ _. tt };

    ghost within_none = { λ _ _ _ _. tt };
}

/// The row of the values of an input, and whether there is a fault after them.
pub(crate) fn values_within(
    alloc: Global,
    input: &[u8],
    limit: u32,
) -> Result<(Vec<u8>, bool), Fail>
    requires least { 1 ≤ limit }
    requires most { limit ≤ 65536 }
{
    let mut sink = values_t {
        row: Vec::new(alloc),
    };
    let fault = yaml_scan_to(alloc, input, ANY, limit, &mut sink)?;
    Ok((sink.row, fault.is_some()))
}

/// The row of the values of an input without a fault.
pub(crate) fn values_of(alloc: Global, input: &[u8]) -> Result<Vec<u8>, Fail> {
    let (row, faulty) = values_within(alloc, input, 1024)?;
    if faulty {
        return Err("fault".into());
    }
    Ok(row)
}

/// Asserts for each text which of its scalars are lent.
fn expect_values(rt: &(impl Abort + AllocGlobal), rows: &[(&[u8], &[u8])]) -> Result<(), Fail> {
    for (text, want) in rows {
        let row = values_of(rt.alloc(), text)?;
        assert_eq!(rt; row.as_slice(), *want, "{text:?}");
    }
    Ok(())
}

/// What stands in a line as it is and need not wait is lent. What goes on in a second line, has an escape, is a block
/// scalar, or may yet become a key is not. Nor is a plain scalar where no level is open, such as the first key.
#[test]
fn scalars_of_a_line_are_lent(rt: HostRuntime) -> Result<(), Fail> {
    expect_values(
        &rt,
        &[
            (b"a: b # c\nd:  e f\n", b".b|d|e f|"),
            (b"a:\n  - b\n  - 'c'\n", b".b|."),
            (b"'a': \"b c\"\n\"d\": ''\n", b"a|b c|d||"),
            (b"a: b\n  c\nd: \"e\n  f\"\n", b"..d|."),
            (b"a: \"b\\n\"\nc: 'd''e'\n", b"..c|."),
            (b"a: |\n  b\nc: d\n", b"..c|d|"),
            (b"- [b, c]\n- d\n", b"..d|"),
            (b"{\n  \"a\": b,\n  c: 'd'\n}\n", b".b|c|d|"),
            (b"a: \xC3\xA9\r\nb: c\n", b".\xC3\xA9|b|c|"),
            (b"- a:\n  b: c\n- d\n", b"a|b|c|d|"),
            (
                b"a:\n  b: c\n  \"d\": 'e'\n f: g\nh: i\n",
                b".b|c|d|e|f|g|h|i|",
            ),
            (b"a: b\nc:\td\ne :  f\n", b".b|c|d|e|f|"),
            (b"a\n", b"."),
        ],
    )
}

/// A key in the column of a level may have as many bytes as the key limit, and no more.
#[test]
fn usual_key_ends_at_the_limit(rt: HostRuntime) -> Result<(), Fail> {
    let (row, faulty) = values_within(rt.alloc(), b"a: b\ncdef: g\n", 4)?;
    assert_eq!(rt; row.as_slice(), b".b|cdef|g|".as_slice());
    assert!(rt; !faulty);
    let (row, faulty) = values_within(rt.alloc(), b"a: b\ncdef: g\n", 3)?;
    assert_eq!(rt; row.as_slice(), b".b|".as_slice());
    assert!(rt; faulty);
    Ok(())
}

/// The fault of the reader comes before a key or a value that ends fewer than eight characters before it, and after one
/// that ends earlier.
#[test]
fn usual_scalars_end_before_the_readers_fault(rt: HostRuntime) -> Result<(), Fail> {
    let rows: [(&[u8], &[u8]); 4] = [
        (b"a: b\ncd: eeeeee\xFF", b".b|"),
        (b"a: b\ncd: eeeeeee\xFF", b".b|cd|"),
        (b"a: \"b\" #ccccc\xFF", b"."),
        (b"a: \"b\" #cccccc\xFF", b".b|"),
    ];
    for (text, want) in rows {
        let (row, faulty) = values_within(rt.alloc(), text, 1024)?;
        assert_eq!(rt; row.as_slice(), want, "{text:?}");
        assert!(rt; faulty);
    }
    Ok(())
}

/// A scalar in flow is lent with what comes right after it, or alone if it is no key. Nothing is lent while a bracket may
/// become a key, or where the scalar itself may until its line ends.
#[test]
fn scalars_in_flow_are_lent(rt: HostRuntime) -> Result<(), Fail> {
    expect_values(
        &rt,
        &[
            (b"--- {a: b, \"c\": 'd', e, \"f\" }\n", b"a|b|c|d|e|."),
            (b"--- [a, [b, 'c'], {}, \"d\"]\n", b"a|..d|"),
            (b"--- [\"a\" : b, 'c'\n]\n", b".b|."),
            (
                b"- {\n    \"a\": 1, \"b\": [c, d],\n    e: \"f\" , g: h }\n",
                b".1|b|c|d|e|f|g|h|",
            ),
            (b"--- {\"a\": \"b\": c}\n", b"a|.c|"),
            (b"--- [a, \"b\\n\", 'c''d', e]\n", b"a|..e|"),
            (b"--- [\xC3\xA9, b]\n", b"\xC3\xA9|b|"),
        ],
    )
}

/// The fault of the reader comes before a scalar in flow, or what comes right after it, that ends fewer than eight
/// characters before it, and after one that ends earlier.
#[test]
fn scalars_in_flow_end_before_the_readers_fault(rt: HostRuntime) -> Result<(), Fail> {
    let rows: [(&[u8], &[u8]); 7] = [
        (b"--- [a,bbbbbbb\xFF", b""),
        (b"--- [a,bbbbbbbb\xFF", b"a|"),
        (b"--- {a: b,cccccc\xFF", b"a|"),
        (b"--- {a: b,ccccccc\xFF", b"a|."),
        (b"--- {a: b,cccccccc\xFF", b"a|b|"),
        (b"--- {a: \"b\" #ccccc\xFF", b"a|"),
        (b"--- {a: \"b\" #cccccc\xFF", b"a|b|"),
    ];
    for (text, want) in rows {
        let (row, faulty) = values_within(rt.alloc(), text, 1024)?;
        assert_eq!(rt; row.as_slice(), want, "{text:?}");
        assert!(rt; faulty);
    }
    Ok(())
}

/// A key in flow may have as many bytes as the key limit. With one more it is a scalar without a key.
#[test]
fn key_in_flow_ends_at_the_limit(rt: HostRuntime) -> Result<(), Fail> {
    let text = b"--- [abcd: e]";
    let (tokens, fault) = yaml_scan_all_limit(rt.alloc(), text, ANY, 4)?;
    assert_eq!(rt; tokens.len(), 9);
    assert!(rt; fault.is_none());
    let (tokens, fault) = yaml_scan_all_limit(rt.alloc(), text, ANY, 3)?;
    assert_eq!(rt; tokens.len(), 8);
    assert!(rt; fault.is_none());
    Ok(())
}
