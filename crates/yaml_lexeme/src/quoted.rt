//! Quoted scalars.
ghost use Rattle.std.specs.Prelude.{ℕ, Bool, ◌≡◌, ◌+◌, ◌<◌, ◌≤◌, ◌++◌, false, true, List, Ok, Err, if◌then◌else◌};
ghost use Rattle.std.specs.Prelude.{IfOk, IfSome, length};
ghost use Rattle.std.specs.Prelude.{OnOk, take};
ghost use Rattle.yaml_text.specs.Chars.{utf8};
ghost use Rattle.yaml_text.specs.Classes.{is_break};
ghost use Rattle.yaml_lexeme.specs.Classes.{is_white};
ghost use Rattle.yaml_lexeme.specs.declared.problem.yaml_refusal_t.TheVariants.{OFFENCE};
ghost use Rattle.yaml_lexeme.specs.declared.problem.yaml_problem_t.TheVariants.{DOCUMENT_MARKER};
ghost use Rattle.yaml_lexeme.specs.Kind as kind;
ghost use Rattle.yaml_lexeme.specs.Quoted as spec;
ghost use Rattle.yaml_lexeme.specs.inside.Runs as runs;
ghost use Rattle.yaml_lexeme.specs.inside.Gives.{Gives, Takes};
ghost use Rattle.yaml_lexeme.specs.inside.Words.{GoesOn, IsInLine, IsPiece, LeadsOn, LeavesMore};
ghost use Rattle.yaml_lexeme.specs.Place.{Place, first, peek, skip};
ghost use Rattle.yaml_lexeme.specs.Reading.{found, many, over, with_front};
ghost use Rattle.yaml_lexeme.specs.Quoted.{spelled};
ghost use Rattle.yaml_lexeme.specs.Escape.{backslash};

use crate::classes::{is_break, is_white};
use crate::escape::{byte_escape, four_digits, pass_four, pass_two, take_escape};
use crate::fold::{
    copied_front, emptied, push_behind, push_breaks, push_char, push_char_behind, push_front,
    push_separator,
};
use crate::kind::is_marker;
use crate::place::{check_at, cursor_t, is_at};
use crate::problem::{offence, refused, yaml_problem_t, yaml_refusal_t};
use crate::runs::{class_t, trimmed};
use crate::short::{STAGE, short_len};
use std::alloc::AllocError;

/// A document marker here is an offence.
fn unmarked(cursor: &cursor_t) -> Result<bool, yaml_refusal_t>
    ensures { result ≡ (if kind.is_marker cursor.now then Err (OFFENCE DOCUMENT_MARKER) else Ok true) }
{
    if is_marker(cursor) {
        Err(offence(yaml_problem_t::DOCUMENT_MARKER))
    } else {
        Ok(true)
    }
}

/// The byte of the quote.
#[inline(always)]
fn quote_byte(single: bool) -> u8
    ensures { result ≡ spec.quote single }
{
    if single { b'\'' } else { b'"' }
}

fn quote(single: bool) -> char
    ensures { result ≡ spec.quote single }
{
    if single { '\'' } else { '"' }
}

/// Takes a run of blanks and breaks, and appends its value to `out`. Functions that are called get a copy of the
/// cursor, here and below, so that the cursor itself stays in registers.
#[inline(always)]
fn take_separator(cursor: &mut cursor_t, out: &mut Vec<u8>) -> Result<bool, yaml_refusal_t>
    requires { is_white (first cursor.old) ≡ true }
    ensures { (single : Bool)
        → Takes utf8 result out.old.items out.new.items cursor.old cursor.new (spec.body_part single cursor.old) }
{
    let mut here = cursor.again();
    push_separator(&mut here, out)?;
    *cursor = here;
    unmarked(&cursor.again())
}

/// Takes a backslash and the break after it, which is dropped, and appends the value of the run after them to `out`.
#[inline(always)]
fn take_dropped_break(cursor: &mut cursor_t, out: &mut Vec<u8>) -> Result<bool, yaml_refusal_t>
    requires backslash { first cursor.old ≡ backslash }
    requires line_end { is_break (peek cursor.old 1) ≡ true }
    ensures { Takes utf8 result out.old.items out.new.items cursor.old cursor.new (spec.body_part false cursor.old) }
{
    let mut after = cursor.again();
    after.pass();
    after.skip(after.break_len());
    push_breaks(&mut after, out)?;
    let more = unmarked(&after);
    *cursor = after;
    more
}

/// Takes what a backslash begins, and appends its bytes to `out`: an escape, or a break that is dropped.
#[tactic(auto, unfolding(crate::specs::Quoted::body_part))]
#[inline(always)]
fn take_escaped(cursor: &mut cursor_t, out: &mut Vec<u8>) -> Result<bool, yaml_refusal_t>
    requires { first cursor.old ≡ backslash }
    ensures { Takes utf8 result out.old.items out.new.items cursor.old cursor.new (spec.body_part false cursor.old) }
{
    let next = cursor.peek(1);
    if is_break(next) {
        return take_dropped_break(cursor, out);
    }
    let c = take_escape(cursor, next)?;
    push_char(out, c)?;
    Ok(true)
}

/// Takes a part of the body, and appends its bytes to `out`. The flag is false at the closing quote.
#[tactic(auto, unfolding(crate::specs::Quoted::body_part))]
#[inline(always)]
fn take_part(cursor: &mut cursor_t, single: bool, out: &mut Vec<u8>) -> Result<bool, yaml_refusal_t>
    ensures { Takes utf8 result out.old.items out.new.items cursor.old cursor.new (spec.body_part single cursor.old) }
{
    let c = cursor.peek(0);
    if !single && c == '\\' {
        return take_escaped(cursor, out);
    }
    if c == '\0' {
        return Err(offence(yaml_problem_t::END_OF_TEXT));
    }
    if is_white(c) {
        return take_separator(cursor, out);
    }
    if c == quote(single) {
        if !(single && check_at!(cursor, c, 1)) {
            return Ok(false);
        }
        push_char(out, c)?;
        cursor.skip(2);
        return Ok(true);
    }
    push_char(out, c)?;
    cursor.advance();
    Ok(true)
}

/// Whether the closing quote is here.
#[tactic(auto, unfolding(crate::specs::Quoted::body_part))]
#[inline(always)]
fn closes(cursor: &cursor_t, single: bool) -> bool
    ensures over { result ≡ true → spec.body_part single cursor.now ≡ over }
    ensures here { result ≡ true → first cursor.now ≡ spec.quote single }
{
    cursor.begins_with(quote_byte(single)) && !(single && check_at!(cursor, quote(single), 1))
}

fn line_class(single: bool) -> class_t
    ensures { result ≡ runs.line_of single }
{
    if single {
        class_t::SINGLE
    } else {
        class_t::DOUBLE
    }
}

/// A piece that is kept unchanged in a line, without its last blanks if a break comes after it. The cursor is after the
/// piece.
#[inline(always)]
fn unblanked<'a>(cursor: &cursor_t, single: bool, piece: &'a [u8]) -> &'a [u8]
    ensures goes { (p : Place) (out : List ℕ) → IsPiece single p cursor.now piece.now
        → GoesOn single p out cursor.now (out ++ result.now) }
    ensures front { (p : Place) → IsPiece single p cursor.now piece.now
        → result.now ≡ take (length result.now) (utf8 p.rest) }
    ensures within { (p : Place) → IsPiece single p cursor.now piece.now
        → length result.now ≤ length (utf8 p.rest) }
{
    if is_at!(cursor, is_break, 0) {
        return trimmed(piece);
    }
    piece
}

/// Takes what is kept unchanged in this line, and returns its bytes, without the blanks before a break.
#[inline(always)]
fn line_piece<'a>(cursor: &mut cursor_t<'a>, single: bool) -> &'a [u8]
    ensures goes { (out : List ℕ) → GoesOn single cursor.old out cursor.new (out ++ result.now) }
    ensures front { result.now ≡ take (length result.now) (utf8 cursor.old.rest) }
    ensures within { length result.now ≤ length (utf8 cursor.old.rest) }
    ensures shorter { length cursor.new.rest ≤ length cursor.old.rest }
{
    let piece = cursor.quick_run(line_class(single));
    unblanked(cursor, single, piece)
}

/// Takes what is kept unchanged in this line, and appends it to `out` as one piece, without the blanks before a break.
#[inline(always)]
fn push_line(cursor: &mut cursor_t, single: bool, out: &mut Vec<u8>) -> Result<(), AllocError>
    ensures goes { OnOk result (GoesOn single cursor.old out.old.items cursor.new out.new.items) }
    ensures shorter { OnOk result (length cursor.new.rest ≤ length cursor.old.rest) }
{
    if !single && matches!(cursor.peek(0), '\\' | '"') {
        return Ok(());
    }
    let left = cursor.left();
    let piece = line_piece(cursor, single);
    push_front(out, left, piece.len())?;
    Ok(())
}

/// Takes an escape of four hex digits, and what is kept after it in this line, if that is short, and appends both to
/// `out`. Returns whether it was so. Otherwise nothing is taken.
#[inline(always)]
fn take_short_hex(cursor: &mut cursor_t, next: char, out: &mut Vec<u8>) -> Result<bool, AllocError>
    requires backslash { first cursor.old ≡ backslash }
    requires next { next ≡ peek cursor.old 1 }
    requires long { 22 ≤ length (utf8 cursor.old.rest) }
    ensures goes { OnOk result (GoesOn false cursor.old out.old.items cursor.new out.new.items) }
    ensures shorter { IfOk result (λ more.
        length cursor.new.rest + (if more then 1 else 0) ≤ length cursor.old.rest) }
{
    let bytes = cursor.left();
    if next != 'u' {
        return Ok(false);
    }
    let Some(c) = four_digits(&bytes[2..]) else {
        return Ok(false);
    };
    let n = short_len(&bytes[6..]);
    if n == STAGE {
        return Ok(false);
    }
    push_char_behind(out, c, &bytes[4..], n)?;
    pass_two(cursor);
    pass_four(cursor);
    cursor.pass_short(n);
    Ok(true)
}

/// Takes an escape that gives a byte or has four hex digits, and what is kept after it in this line, if that is short,
/// and appends both to `out`. Returns whether it was so. Otherwise nothing is taken.
#[inline(always)]
fn take_short(cursor: &mut cursor_t, out: &mut Vec<u8>) -> Result<bool, AllocError>
    ensures goes { OnOk result (GoesOn false cursor.old out.old.items cursor.new out.new.items) }
    ensures shorter { IfOk result (λ more.
        length cursor.new.rest + (if more then 1 else 0) ≤ length cursor.old.rest) }
{
    let bytes = cursor.left();
    if bytes.len() < STAGE + 6 || !check_at!(cursor, '\\', 0) {
        return Ok(false);
    }
    let next = cursor.peek(1);
    let byte = byte_escape(next);
    if byte == 0 {
        return take_short_hex(cursor, next, out);
    }
    if bytes[2] >= 0x80 {
        return Ok(false);
    }
    let n = short_len(&bytes[2..]);
    if n == STAGE {
        return Ok(false);
    }
    push_behind(out, byte, &bytes[1..], n)?;
    pass_two(cursor);
    cursor.pass_short(n);
    Ok(true)
}

/// Takes a part of the body and what is kept after it in its line, and appends both to `out`. The flag is false at the
/// closing quote.
#[inline(always)]
fn take_turn<const SINGLE: bool>(
    cursor: &mut cursor_t,
    out: &mut Vec<u8>,
) -> Result<bool, yaml_refusal_t>
    ensures value { LeavesMore result
        (with_front out.old.items (spelled (many (spec.body_part SINGLE) cursor.old)))
        (with_front out.new.items (spelled (many (spec.body_part SINGLE) cursor.new)))
        out.new.items cursor.new }
    ensures shorter { IfOk result (λ more. more ≡ true → length cursor.new.rest < length cursor.old.rest) }
{
    if !SINGLE && take_short(cursor, out)? {
        return Ok(true);
    }
    if !take_part(cursor, SINGLE, out)? {
        return Ok(false);
    }
    push_line(cursor, SINGLE, out)?;
    Ok(true)
}

/// How many bytes a scalar gets room for after what was taken of it: none in single quotes if a quote is here, and else
/// 64. In double quotes a quote here would be the closing one, and then nobody asks.
#[inline(always)]
fn room_after(cursor: &cursor_t, single: bool) -> usize
    ensures { result ≤ 64 }
{
    if single && check_at!(cursor, '\'', 0) {
        0
    } else {
        64
    }
}

/// Appends the first `n` bytes to `out`. In double quotes `out` has room for more, so sixteen bytes may be copied as
/// one.
#[inline(always)]
fn push_kept(out: &mut Vec<u8>, single: bool, bytes: &[u8], n: usize) -> Result<(), AllocError>
    requires { n ≤ length bytes.now }
    ensures { OnOk result (out.new.items ≡ out.old.items ++ take n bytes.now) }
{
    if single {
        return out.extend_from_slice(&bytes[..n]);
    }
    push_front(out, bytes, n)
}

/// Takes the parts of a quoted scalar after those of its first line, which are in `out`, and its closing quote. The
/// cursor is a local variable of the caller.
#[inline(always)]
fn take_parts<const SINGLE: bool>(
    cursor: &mut cursor_t,
    mut out: Vec<u8>,
) -> Result<Vec<u8>, yaml_refusal_t>
    ensures { (p : Place) → LeadsOn SINGLE p out.items cursor.old
        → Gives (λ v. v.items) result cursor.new (spec.quoted SINGLE p) }
{
    'parts: while take_turn::<SINGLE>(cursor, &mut out)? {}
    cursor.advance();
    Ok(out)
}

/// Takes what is left of a quoted scalar after its first line, of which the first `len` bytes of `left` are kept. Its
/// value is put into `room` if it fits.
#[inline(never)]
fn take_rest<const SINGLE: bool>(
    room: Vec<u8>,
    cursor: &mut cursor_t,
    left: &[u8],
    len: usize,
) -> Result<Vec<u8>, yaml_refusal_t>
    requires { len ≤ length left.now }
    ensures { (p : Place) → LeadsOn SINGLE p (take len left.now) cursor.old
        → Gives (λ v. v.items) result cursor.new (spec.quoted SINGLE p) }
{
    let mut here = cursor.again();
    let mut out = emptied(room, len + room_after(cursor, SINGLE))?;
    push_kept(&mut out, SINGLE, left, len)?;
    let taken = take_parts::<SINGLE>(&mut here, out);
    *cursor = here;
    taken
}

/// Takes what is left of a quoted scalar as `take_rest` does, through a copy of the cursor, so that the caller's cursor
/// stays in registers.
#[inline(always)]
fn take_apart<const SINGLE: bool>(
    room: Vec<u8>,
    cursor: &mut cursor_t,
    left: &[u8],
    len: usize,
) -> Result<Vec<u8>, yaml_refusal_t>
    requires { len ≤ length left.now }
    ensures { (p : Place) → LeadsOn SINGLE p (take len left.now) cursor.old
        → Gives (λ v. v.items) result cursor.new (spec.quoted SINGLE p) }
{
    let mut here = cursor.again();
    let taken = take_rest::<SINGLE>(room, &mut here, left, len);
    *cursor = here;
    taken
}

/// Takes what is left of a quoted scalar after the piece of its first line, with which `left` begins. Its value is put
/// into `room` if it fits.
#[inline(always)]
fn take_after(
    room: Vec<u8>,
    cursor: &mut cursor_t,
    single: bool,
    left: &[u8],
    piece: &[u8],
) -> Result<Vec<u8>, yaml_refusal_t>
    requires { (p : Place) × (IsPiece single (skip 1 p) cursor.old piece.now × (left.now ≡ utf8 (skip 1 p).rest)) }
    ensures { (p : Place) → IsPiece single (skip 1 p) cursor.old piece.now → left.now ≡ utf8 (skip 1 p).rest
        → Gives (λ v. v.items) result cursor.new (spec.quoted single p) }
{
    let len = unblanked(cursor, single, piece).len();
    if single {
        take_apart::<true>(room, cursor, left, len)
    } else {
        take_apart::<false>(room, cursor, left, len)
    }
}

/// Takes the closing quote, which comes after the piece of a quoted scalar's first line, with which `left` begins. The
/// value is put into `room` if it fits.
#[inline(always)]
fn close(
    room: Vec<u8>,
    cursor: &mut cursor_t,
    single: bool,
    left: &[u8],
    piece: &[u8],
) -> Result<Vec<u8>, yaml_refusal_t>
    requires piece { (p : Place)
        × (IsPiece single (skip 1 p) cursor.old piece.now × (left.now ≡ utf8 (skip 1 p).rest)) }
    requires here { first cursor.old ≡ spec.quote single }
    requires over { spec.body_part single cursor.old ≡ over }
    ensures { (p : Place) → IsPiece single (skip 1 p) cursor.old piece.now → left.now ≡ utf8 (skip 1 p).rest
        → Gives (λ v. v.items) result cursor.new (spec.quoted single p) }
{
    match copied_front(room, left, piece.len()) {
        Ok(value) => {
            cursor.pass();
            Ok(value)
        }
        Err(refusal) => Err(refused(refusal)),
    }
}

/// Takes what is left of a quoted scalar in whose first line a character needs a closer look. `left` is what follows
/// the opening quote. The value is put into `room` if it fits.
#[inline(never)]
fn take_far<const SINGLE: bool>(
    room: Vec<u8>,
    cursor: &mut cursor_t,
    left: &[u8],
) -> Result<Vec<u8>, yaml_refusal_t>
    requires { (p : Place) × IsInLine SINGLE (skip 1 p) cursor.old left.now }
    ensures { (p : Place) → IsInLine SINGLE (skip 1 p) cursor.old left.now
        → Gives (λ v. v.items) result cursor.new (spec.quoted SINGLE p) }
{
    cursor.skip_run(line_class(SINGLE));
    let piece = cursor.between(left);
    if closes(cursor, SINGLE) {
        close(room, cursor, SINGLE, left, piece)
    } else {
        take_after(room, cursor, SINGLE, left, piece)
    }
}

/// Takes what is left of a quoted scalar as `take_far` does, through a copy of the cursor, so that the caller's cursor
/// stays in registers.
#[inline(always)]
fn take_far_apart(
    room: Vec<u8>,
    cursor: &mut cursor_t,
    single: bool,
    left: &[u8],
) -> Result<Vec<u8>, yaml_refusal_t>
    requires { (p : Place) × IsInLine single (skip 1 p) cursor.old left.now }
    ensures { (p : Place) → IsInLine single (skip 1 p) cursor.old left.now
        → Gives (λ v. v.items) result cursor.new (spec.quoted single p) }
{
    let mut here = cursor.again();
    let taken = if single {
        take_far::<true>(room, &mut here, left)
    } else {
        take_far::<false>(room, &mut here, left)
    };
    *cursor = here;
    taken
}

/// The place after a character, if one is left.
#[inline(never)]
fn past_any<'a>(cursor: &cursor_t<'a>) -> cursor_t<'a>
    ensures { result ≡ skip 1 cursor.now }
{
    let mut here = cursor.again();
    here.advance();
    here
}

/// Takes a character, which is the opening quote if the kind is that of a quoted scalar. That is asked first.
#[inline(always)]
fn open(cursor: &mut cursor_t, single: bool)
    ensures { cursor.new ≡ skip 1 cursor.old }
{
    if cursor.begins_with(quote_byte(single)) {
        cursor.pass();
    } else {
        *cursor = past_any(&cursor.again());
    }
}

/// Takes a quoted scalar, from its opening quote on. Its value is put into `room` if it fits.
#[inline(always)]
pub(crate) fn take_quoted(
    room: Vec<u8>,
    cursor: &mut cursor_t,
    single: bool,
) -> Result<Vec<u8>, yaml_refusal_t>
    ensures { Gives (λ v. v.items) result cursor.new (spec.quoted single cursor.old) }
{
    open(cursor, single);
    let left = cursor.left();
    let class = line_class(single);
    let piece = cursor.near_run(class);
    if closes(cursor, single) {
        close(room, cursor, single, left, piece)
    } else if cursor.goes_on(class) {
        take_far_apart(room, cursor, single, left)
    } else {
        take_after(room, cursor, single, left, piece)
    }
}

/// Takes the closing quote, if it comes after the piece of a quoted scalar's first line. Returns whether it was there.
#[inline(always)]
fn take_close(cursor: &mut cursor_t, single: bool, piece: &[u8]) -> bool
    ensures value { (p : Place) → result ≡ true → IsPiece single (skip 1 p) cursor.old piece.now
        → spec.quoted single p ≡ found piece.now cursor.new }
    ensures here { result ≡ true → first cursor.old ≡ spec.quote single }
    ensures stays { result ≡ false → cursor.new ≡ cursor.old }
{
    if !closes(cursor, single) {
        return false;
    }
    cursor.pass();
    true
}

/// Takes what is left of a quoted scalar in whose first line a character needs a closer look, if it ends in that line
/// and its value stands there as it is. `left` is what follows the opening quote.
#[inline(never)]
fn take_far_part<'a>(cursor: &mut cursor_t<'a>, single: bool, left: &'a [u8]) -> Option<&'a [u8]>
    requires { (p : Place) × IsInLine single (skip 1 p) cursor.old left.now }
    ensures value { (p : Place) → IsInLine single (skip 1 p) cursor.old left.now
        → IfSome result (λ piece. spec.quoted single p ≡ found piece.now cursor.new) }
    ensures within { IfSome result (λ piece. length piece.now ≤ length left.now) }
{
    cursor.skip_run(line_class(single));
    let piece = cursor.between(left);
    if take_close(cursor, single, piece) {
        Some(piece)
    } else {
        None
    }
}

/// Takes a quoted scalar, from its opening quote on, if it ends in its first line and its value stands in the text as it
/// is. Returns the value.
#[inline(always)]
pub(crate) fn take_quoted_part<'a>(cursor: &mut cursor_t<'a>, single: bool) -> Option<&'a [u8]>
    ensures value { IfSome result (λ value. spec.quoted single cursor.old ≡ found value.now cursor.new) }
    ensures within { IfSome result (λ value. length value.now ≤ length (utf8 cursor.old.rest)) }
{
    open(cursor, single);
    let left = cursor.left();
    let class = line_class(single);
    let piece = cursor.near_run(class);
    if take_close(cursor, single, piece) {
        return Some(piece);
    }
    if cursor.begins_with(b'\n') {
        return None;
    }
    if !cursor.goes_on(class) {
        return None;
    }
    let mut here = cursor.again();
    let piece = take_far_part(&mut here, single, left)?;
    *cursor = here;
    Some(piece)
}
