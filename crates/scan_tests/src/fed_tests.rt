//! A parser that is given its input in pieces. What is expected is what the calls for a whole input give, or is written
//! down.
ghost use Rattle.std.specs.Prelude.{◌≡◌, IfOk};
ghost use Rattle.yaml_scan.specs.Fed.{Fed};
ghost use Rattle.yaml_scan.specs.inside.Feeding.{IsFed};

use crate::kept_tests::{is_token_of, texts_len};
use std::alloc::{AllocError, Global};
use std::process::Abort;
use std::test::Fail;
use yaml_scan::{
    yaml_fed_parser_t, yaml_fed_scan_to, yaml_fed_t, yaml_lent_scalar_t, yaml_scan_all,
    yaml_token_sink_t,
};
use yaml_text::{yaml_encoding_t, yaml_fault_t, yaml_token_t};

const ANY: yaml_encoding_t = yaml_encoding_t::YAML_ANY_ENCODING;

const UTF8: yaml_encoding_t = yaml_encoding_t::YAML_UTF8_ENCODING;

/// Block and flow collections, keys that turn out late, literals, escapes, breaks of every kind, documents, comments,
/// characters of two to four bytes, byte order marks, and nothing.
const INPUTS: [&[u8]; 14] = [
    b"a: b\nc:\n  - d\n  - e: f\n",
    b"{a: [b, c], \"d\": 'e'}\n--- [f: g, ? h : i]\n",
    b"[j]: k\n? l\n: \"m\"   : n\n{o: p}: q\n",
    b"r: |+\n  s\n   t\n\n\nu: >-\n  v\n  w\n",
    b"\"\\U0001F600\\x41\\u00e9 \\\n  x\"\n",
    b"y: z\r\nx:\r\n- a\r\n- 'b\r\n c'\r",
    b"%YAML 1.1\n%TAG !e! tag:e,2000:\n--- !e!t &n a\n...\n--- *n\n...\n",
    b"# one\na: b # two\n\n  # three\nc: d#e\n# four",
    b"\xC3\xA9: \xE2\x82\xAC\xF0\x9F\x98\x80\xC2\x85\xE2\x80\xA8- \xE4\xB8\xAD: '\xC3\xA9'\n",
    b"\xEF\xBB\xBFa: b\n- c\n",
    b"\xEF\xBB\xBF",
    b"",
    b"a",
    b"--- \"a\": b\n... ",
];

/// Bytes that no text has, beginnings of characters, surrogates, control characters, and what the scanner refuses.
const REFUSED: [&[u8]; 16] = [
    b"\xFF",
    b"ab: cdefghijklm\nn: o\xFF: p\n",
    b"a: b\xC3x: d\n",
    b"aaaaaaaaaaaaaa: b\n\xED\xA0\x80 c\n",
    b"- a\n- b\n- c\n\xE2\x82",
    b"- aaaaaaa\n\xF0\x9F\x98",
    b"\xC3",
    b"a: bcdefghijk\x07: d\n",
    b"\x01a",
    b"a: b: cdefghijklmnop\nq: r\n",
    b"a: b: cd\xFF",
    b"\"a\"\n@bcdefghijklmnop\n",
    b"\"a \\q bcdefghijkl\": c\n",
    b"[a, b\n]c: d\n- efghijklmn: o\n",
    b"\"abc\n---\ndefghijklmn",
    b"\xEF\xBB\xBFa: 'b",
];

/// Takes tokens while it has room for them, and for the bytes of their texts, and compares each with the one that is
/// wanted in its place.
#[derive(Drop)]
struct taker_t {
    want: Vec<yaml_token_t>,
    room: u128,
    texts: u128,
    taken: usize,
    wrong: usize,
}

impl taker_t {
    /// Counts a token whose texts have so many bytes, and whether it is wrong or has no room.
    fn count(&mut self, same: bool, texts: u128) {
        if !same || self.room == 0 || texts > self.texts {
            self.wrong = self.wrong.wrapping_add(1);
        }
        self.room = self.room.saturating_sub(1);
        self.taken = self.taken.wrapping_add(1);
    }
}

impl yaml_token_sink_t for taker_t {
    ghost took = { λ _ _ _. Unit {0} };

    ghost may_refuse = { ⊥ };

    ghost within = { λ _. Unit {0} };

    ghost lacks = { λ s count texts. Unit {0} };

    fn put(&mut self, token: yaml_token_t) -> Result<(), AllocError> {
        let same = match self.want.get(self.taken) {
            Some(want) => *want == token,
            None => false,
        };
        self.count(same, texts_len(&token));
        Ok(())
    }

    fn put_scalar(&mut self, scalar: &yaml_lent_scalar_t) -> Result<(), AllocError> {
        let same = match self.want.get(self.taken) {
            Some(want) => is_token_of(want, scalar),
            None => false,
        };
        self.count(same, scalar.value.len() as u128);
        Ok(())
    }

    fn room(&mut self, alloc: Global) -> Vec<u8> {
        Vec::new(alloc)
    }

    fn has_room(&self, count: u128, texts: u128) -> bool {
        count <= self.room && texts <= self.texts
    }

    ghost took_none = { λ _. tt };

    ghost took_more = { λ _ _ _ _ _ _ _. tt };

    ghost within_none = { λ _ _ _ _. tt };
}

/// A letter for an answer.
fn letter_of(why: yaml_fed_t) -> char {
    match why {
        yaml_fed_t::ROOM => 'r',
        yaml_fed_t::MORE => 'm',
        yaml_fed_t::WHOLE => 'w',
        yaml_fed_t::OVER => 'o',
        yaml_fed_t::FAULT => 'f',
    }
}

/// A parser, what came of its input, whether that is all, and what takes the tokens.
#[derive(Drop)]
struct course_t {
    fed: yaml_fed_parser_t,
    came: Vec<u8>,
    last: bool,
    taker: taker_t,
    /// The fault that is wanted, and how often a fault was told.
    fault: Option<yaml_fault_t>,
    faults: usize,
}

impl course_t {
    /// A parser to which nothing came of an input.
    fn new(alloc: Global, setting: yaml_encoding_t, input: &[u8]) -> Result<course_t, AllocError>
        ensures { IfOk result (λ r. (p : Fed) × (p.given ≡ r.came.items) × (p.whole ≡ r.last) × IsFed p r.fed) }
    {
        let (want, fault) = yaml_scan_all(alloc, input, setting)?;
        Ok(course_t {
            fed: yaml_fed_parser_t::new(alloc, setting, 1024),
            came: Vec::new(alloc),
            last: false,
            taker: taker_t {
                want,
                room: 0,
                texts: 1000,
                taken: 0,
                wrong: 0,
            },
            fault,
            faults: 0,
        })
    }

    /// Bytes come, if not all came. `last`: these are the last.
    fn come(&mut self, bytes: &[u8], last: bool) -> Result<(), AllocError>
        requires { (p : Fed) × (p.given ≡ self.old.came.items) × (p.whole ≡ self.old.last) × IsFed p self.old.fed }
        ensures { IfOk result (λ u. (p : Fed) × (p.given ≡ self.new.came.items) × (p.whole ≡ self.new.last) × IsFed p self.new.fed) }
    {
        if self.last {
            return Ok(());
        }
        self.came.extend_from_slice(bytes)?;
        self.last = last;
        Ok(())
    }

    /// Makes one call with room for so many tokens.
    fn call(&mut self, room: u128) -> char
        requires { (p : Fed) × (p.given ≡ self.old.came.items) × (p.whole ≡ self.old.last) × IsFed p self.old.fed }
        ensures { (p : Fed) × (p.given ≡ self.new.came.items) × (p.whole ≡ self.new.last) × IsFed p self.new.fed }
    {
        self.taker.room = room;
        let why = yaml_fed_scan_to(
            &mut self.fed,
            self.came.as_slice(),
            self.last,
            &mut self.taker,
        );
        letter_of(why)
    }

    /// Makes one call, and counts the faults.
    fn scan(&mut self, room: u128) -> char
        requires { (p : Fed) × (p.given ≡ self.old.came.items) × (p.whole ≡ self.old.last) × IsFed p self.old.fed }
        ensures { (p : Fed) × (p.given ≡ self.new.came.items) × (p.whole ≡ self.new.last) × IsFed p self.new.fed }
    {
        let why = self.call(room);
        if why == 'f' {
            self.faults = self.faults.wrapping_add(1);
        }
        why
    }

    /// Whether the fault is the one that is wanted, and was told once; or there is none, and none was told.
    fn has_right_fault(&self) -> bool {
        match (self.fed.fault(), &self.fault) {
            (Some(fault), Some(want)) => fault == want && self.faults == 1,
            (None, None) => self.faults == 0,
            _ => false,
        }
    }

    /// Whether all tokens came, no other, and then the right fault.
    fn is_right(&self) -> bool {
        self.taker.wrong == 0 && self.taker.taken == self.taker.want.len() && self.has_right_fault()
    }
}

/// Makes a hundred calls with room for so many tokens. Returns the last answer.
fn scan_on(course: &mut course_t, room: u128) -> char
    requires { (p : Fed) × (p.given ≡ course.old.came.items) × (p.whole ≡ course.old.last) × IsFed p course.old.fed }
    ensures { (p : Fed) × (p.given ≡ course.new.came.items) × (p.whole ≡ course.new.last) × IsFed p course.new.fed }
{
    let mut why = 'r';
    'calls: for _ in 0..100 {
        why = course.scan(room);
    }
    why
}

/// Bytes come, and their tokens are taken. Returns the last answer.
fn scan_piece(
    course: &mut course_t,
    bytes: &[u8],
    last: bool,
    room: u128,
) -> Result<char, AllocError>
    requires { (p : Fed) × (p.given ≡ course.old.came.items) × (p.whole ≡ course.old.last) × IsFed p course.old.fed }
    ensures { IfOk result (λ why. (p : Fed) × (p.given ≡ course.new.came.items) × (p.whole ≡ course.new.last) × IsFed p course.new.fed) }
{
    course.come(bytes, last)?;
    Ok(scan_on(course, room))
}

/// Each byte comes alone, and then it is said that these were all. Returns the last answer.
fn scan_bytes(course: &mut course_t, input: &[u8], room: u128) -> Result<char, AllocError>
    requires { (p : Fed) × (p.given ≡ course.old.came.items) × (p.whole ≡ course.old.last) × IsFed p course.old.fed }
{
    'bytes: for byte in input {
        scan_piece(course, &[*byte], false, room)?;
    }
    scan_piece(course, b"", true, room)
}

/// An answer to a call after which all tokens came, no other, and then the right fault; else another letter.
fn told(course: &course_t, why: char) -> char {
    if course.is_right() { why } else { '!' }
}

/// The last answer if each byte comes alone.
fn told_by_bytes(
    alloc: Global,
    setting: yaml_encoding_t,
    input: &[u8],
    room: u128,
) -> Result<char, AllocError> {
    let mut course = course_t::new(alloc, setting, input)?;
    let why = scan_bytes(&mut course, input, room)?;
    Ok(told(&course, why))
}

/// The last answer if an input comes in two pieces.
fn told_by_pieces(
    alloc: Global,
    setting: yaml_encoding_t,
    pieces: (&[u8], &[u8]),
    input: &[u8],
) -> Result<char, AllocError> {
    let mut course = course_t::new(alloc, setting, input)?;
    scan_piece(&mut course, pieces.0, false, 100)?;
    let why = scan_piece(&mut course, pieces.1, true, 100)?;
    Ok(told(&course, why))
}

/// Asserts that the tokens and the fault are right however an input is cut, with one room or several.
fn expect_all_cuts(
    rt: &(impl Abort + AllocGlobal),
    setting: yaml_encoding_t,
    input: &[u8],
) -> Result<(), Fail> {
    for cut in 0..input.len() {
        let why = told_by_pieces(rt.alloc(), setting, input.split_at(cut), input)?;
        assert_eq!(rt; why, 'o', "{cut} {input:?}");
    }
    let why = told_by_pieces(rt.alloc(), setting, (b"", input), input)?;
    assert_eq!(rt; why, 'o', "at once {input:?}");
    for room in [1u128, 2, 3, 5, 40] {
        let why = told_by_bytes(rt.alloc(), setting, input, room)?;
        assert_eq!(rt; why, 'o', "{room} {input:?}");
    }
    Ok(())
}

/// The same in both settings.
fn expect_both_settings(rt: &(impl Abort + AllocGlobal), input: &[u8]) -> Result<(), Fail> {
    expect_all_cuts(rt, ANY, input)?;
    expect_all_cuts(rt, UTF8, input)
}

/// Where an input is cut does not matter, nor how much room a sink has.
#[test]
fn cuts_do_not_matter(rt: HostRuntime) -> Result<(), Fail> {
    for input in &INPUTS {
        expect_both_settings(&rt, input)?;
    }
    Ok(())
}

/// The fault of an input is that of all pieces, and comes once, after the same tokens.
#[test]
fn cuts_before_a_fault_do_not_matter(rt: HostRuntime) -> Result<(), Fail> {
    for input in &REFUSED {
        expect_both_settings(&rt, input)?;
    }
    Ok(())
}

/// A piece, whether it is the last, the answer to a call after it that has room for so many tokens, and how many tokens
/// came then.
type row_t<'a> = (&'a [u8], bool, u128, char, usize);

/// Makes the call of a row. Returns whether its answer is right and so many tokens came.
fn tells_row(course: &mut course_t, row: &row_t) -> Result<bool, AllocError>
    requires { (p : Fed) × (p.given ≡ course.old.came.items) × (p.whole ≡ course.old.last) × IsFed p course.old.fed }
    ensures { IfOk result (λ same. (p : Fed) × (p.given ≡ course.new.came.items) × (p.whole ≡ course.new.last) × IsFed p course.new.fed) }
{
    course.come(row.0, row.1)?;
    let why = course.scan(row.2);
    Ok(why == row.3 && course.taker.taken == row.4 && course.taker.wrong == 0)
}

/// Makes the calls of the rows. Returns how many are right before the first that is wrong.
fn tells_rows(course: &mut course_t, rows: &[row_t]) -> Result<usize, AllocError>
    requires { (p : Fed) × (p.given ≡ course.old.came.items) × (p.whole ≡ course.old.last) × IsFed p course.old.fed }
{
    let mut right = 0usize;
    'rows: for row in rows {
        if !tells_row(course, row)? {
            return Ok(right);
        }
        right = right.wrapping_add(1);
    }
    Ok(right)
}

/// Asserts that the calls of the rows have their answers, and the tokens that come are the first of an input.
fn expect_rows(
    rt: &(impl Abort + AllocGlobal),
    setting: yaml_encoding_t,
    input: &[u8],
    rows: &[row_t],
) -> Result<(), Fail> {
    let mut course = course_t::new(rt.alloc(), setting, input)?;
    let right = tells_rows(&mut course, rows)?;
    assert_eq!(rt; right, rows.len(), "{input:?}");
    Ok(())
}

/// Asserts the answers to calls with no token, byte by byte, of an input whose last byte is the last.
fn expect_letters(
    rt: &(impl Abort + AllocGlobal),
    rows: &[row_t],
    input: &[u8],
) -> Result<(), Fail> {
    expect_rows(rt, UTF8, input, rows)
}

/// What no bytes can mend is told in the call in which it comes, and not before.
#[test]
fn broken_byte_is_told_at_once(rt: HostRuntime) -> Result<(), Fail> {
    expect_letters(&rt, &[(b"\xFF", false, 9, 'f', 0)], b"\xFF")?;
    expect_letters(&rt, &[(b"\x07", false, 9, 'f', 0)], b"\x07")?;
    let rows: [row_t; 3] = [
        (b"\xC3", false, 9, 'm', 0),
        (b"x", false, 9, 'f', 0),
        (b"y", true, 9, 'o', 0),
    ];
    expect_letters(&rt, &rows, b"\xC3xy")?;
    let rows: [row_t; 3] = [
        (b"\xED", false, 9, 'm', 0),
        (b"\xA0", false, 9, 'm', 0),
        (b"\x80", false, 9, 'f', 0),
    ];
    expect_letters(&rt, &rows, b"\xED\xA0\x80")
}

/// The beginning of a character waits for the rest, and is refused if no more comes.
#[test]
fn beginning_of_a_character_waits(rt: HostRuntime) -> Result<(), Fail> {
    let rows: [row_t; 4] = [
        (b"\xF0", false, 9, 'm', 0),
        (b"\x9F", false, 9, 'm', 0),
        (b"\x98", false, 9, 'm', 0),
        (b"", true, 9, 'f', 0),
    ];
    expect_letters(&rt, &rows, b"\xF0\x9F\x98")?;
    let rows: [row_t; 3] = [
        (b"\xF0\x9F\x98", false, 9, 'm', 0),
        (b"\x80", false, 9, 'm', 0),
        (b"", true, 9, 'o', 3),
    ];
    expect_letters(&rt, &rows, b"\xF0\x9F\x98\x80")
}

/// If no encoding is set, two bytes do not say which it is.
#[test]
fn two_bytes_wait_for_the_encoding(rt: HostRuntime) -> Result<(), Fail> {
    let rows: [row_t; 4] = [
        (b"\xEF", false, 9, 'm', 0),
        (b"\xBB", false, 9, 'm', 0),
        (b"\xBF", false, 9, 'm', 0),
        (b"", true, 9, 'o', 2),
    ];
    expect_rows(&rt, ANY, b"\xEF\xBB\xBF", &rows)?;
    let rows: [row_t; 3] = [
        (b"\xFF", false, 9, 'm', 0),
        (b"\x07", false, 9, 'm', 0),
        (b"a", false, 9, 'f', 0),
    ];
    expect_rows(&rt, ANY, b"\xFF\x07a", &rows)?;
    let rows: [row_t; 2] = [(b"a", false, 9, 'm', 0), (b"b", true, 9, 'o', 3)];
    expect_rows(&rt, ANY, b"ab", &rows)
}

/// In UTF-16 tokens come once all of the input came.
#[test]
fn utf16_waits_for_its_end(rt: HostRuntime) -> Result<(), Fail> {
    let rows: [row_t; 5] = [
        (b"\xFF\xFE", false, 99, 'm', 0),
        (b"a", false, 99, 'w', 0),
        (
            b"\0:\0 \0b\0\n\0c\0:\0 \0d\0e\0f\0g\0h\0i\0j\0",
            false,
            99,
            'w',
            0,
        ),
        (b"", true, 99, 'o', 12),
        (b"", true, 99, 'o', 12),
    ];
    let input = b"\xFF\xFEa\0:\0 \0b\0\n\0c\0:\0 \0d\0e\0f\0g\0h\0i\0j\0";
    expect_rows(&rt, ANY, input, &rows)?;
    let big = yaml_encoding_t::YAML_UTF16BE_ENCODING;
    let rows: [row_t; 2] = [(b"\0", false, 9, 'w', 0), (b"a", true, 9, 'o', 3)];
    expect_rows(&rt, big, b"\0a", &rows)
}

/// The tokens of a line came once eight characters follow it, also if some came before it, and no call gives them again.
#[test]
fn more_holds_back_no_line(rt: HostRuntime) -> Result<(), Fail> {
    let input = b"# a comment\na: b\nc: d\n# efghijkl\n";
    let mut course = course_t::new(rt.alloc(), UTF8, input)?;
    let why = scan_piece(&mut course, b"# a comment\n", false, 99)?;
    assert_eq!(rt; (why, course.taker.taken), ('m', 1));
    let why = scan_piece(&mut course, b"a: b\nc: d\n# efghi", false, 99)?;
    assert_eq!(rt; why, 'm');
    assert!(rt; course.taker.taken >= 6, "{}", course.taker.taken);
    let why = scan_piece(&mut course, b"jkl\n", true, 99)?;
    assert_eq!(rt; told(&course, why), 'o');
    Ok(())
}

/// A call that has no room gives nothing, and one that has room for a token gives it, if more is to come or not.
#[test]
fn tokens_of_pieces_wait_for_room(rt: HostRuntime) -> Result<(), Fail> {
    let rows: [row_t; 8] = [
        (b"# a comment\na", false, 0, 'r', 0),
        (b"", false, 1, 'r', 1),
        (b"", false, 0, 'r', 1),
        (b"", false, 1, 'm', 1),
        (b"", true, 1, 'r', 2),
        (b"", true, 0, 'r', 2),
        (b"", true, 1, 'o', 3),
        (b"", true, 1, 'o', 3),
    ];
    expect_rows(&rt, UTF8, b"# a comment\na", &rows)
}

/// A token for whose text there is no room waits, also while more comes.
#[test]
fn tokens_of_pieces_wait_for_room_of_their_texts(rt: HostRuntime) -> Result<(), Fail> {
    let input = b"a: bcd\ne: f\n# ghijklmnopq\n";
    let mut course = course_t::new(rt.alloc(), UTF8, input)?;
    course.taker.texts = 2;
    let why = scan_piece(&mut course, b"a: bcd\ne: f\n# ghijklmno", false, 9)?;
    assert_eq!(rt; (why, course.taker.taken), ('r', 5));
    let why = scan_piece(&mut course, b"pq", false, 9)?;
    assert_eq!(rt; (why, course.taker.taken), ('r', 5));
    course.taker.texts = 3;
    let why = scan_piece(&mut course, b"\n", true, 9)?;
    assert_eq!(rt; told(&course, why), 'o');
    Ok(())
}

/// After the stream end, or a fault, nothing comes.
#[test]
fn nothing_comes_after_the_end_of_pieces(rt: HostRuntime) -> Result<(), Fail> {
    let rows: [row_t; 3] = [
        (b"a", true, 9, 'o', 3),
        (b"", true, 9, 'o', 3),
        (b"", true, 0, 'o', 3),
    ];
    expect_rows(&rt, UTF8, b"a", &rows)?;
    let rows: [row_t; 3] = [
        (b"@bcdefghijklmn", false, 9, 'f', 1),
        (b"a", false, 9, 'o', 1),
        (b"a", true, 9, 'o', 1),
    ];
    expect_rows(&rt, UTF8, b"@bcdefghijklmnaa", &rows)
}

/// Nothing at all is a stream of no documents.
#[test]
fn empty_input_that_ends(rt: HostRuntime) -> Result<(), Fail> {
    let rows: [row_t; 2] = [(b"", false, 9, 'm', 0), (b"", true, 9, 'o', 2)];
    expect_rows(&rt, ANY, b"", &rows)?;
    expect_rows(&rt, UTF8, b"", &rows)?;
    let rows: [row_t; 1] = [(b"", true, 9, 'o', 2)];
    expect_rows(&rt, ANY, b"", &rows)
}
