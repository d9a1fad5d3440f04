//! Plain scalars.
ghost use Rattle.std.specs.Prelude.{ℕ, Bool, ◌≡◌, ◌+◌, ◌||◌, ◌<◌, ◌≤◌, [], None, true, false, nat_le, length};
ghost use Rattle.std.specs.Prelude.{OnOk, IfOk, IfSome, take};
ghost use Rattle.std.specs.List.{list_any};
ghost use Rattle.yaml_text.specs.Classes as classes;
ghost use Rattle.yaml_text.specs.Chars.{utf8};
ghost use Rattle.yaml_lexeme.specs.Classes as sets;
ghost use Rattle.yaml_lexeme.specs.Place.{Place, first, peek, run, after_run};
ghost use Rattle.yaml_lexeme.specs.Plain as spec;
ghost use Rattle.yaml_lexeme.specs.inside.Words as words;
ghost use Rattle.yaml_lexeme.specs.inside.Gives.{Gives, Appends};
ghost use Rattle.yaml_lexeme.specs.LexemeOf.{scalar_of};
ghost use Rattle.yaml_lexeme.specs.Reading.{found, with_front, over};
ghost use Rattle.yaml_lexeme.specs.inside.Words.{links, words, plain_of, Ends, Goes, LeadsTo, Leaves, LeavesMore};

use crate::classes::{ends, is_break, is_white};
use crate::fold::{copied_front, push_separator};
use crate::kind::is_marker;
use crate::place::{check_at, cursor_t, is_at};
use crate::problem::{offence, refused, yaml_problem_t, yaml_refusal_t};
use crate::runs::class_t;
use yaml_text::yaml_mark_t;

/// A scalar that was read.
#[derive(Drop)]
pub(crate) struct scalar_t {
    pub value: Vec<u8>,
    /// The mark after its last character.
    pub end: yaml_mark_t,
    /// A break is in the separator after it.
    pub passed_break: bool,
}

fn is_flow_indicator(c: char) -> bool
    ensures { result ≡ spec.is_flow_indicator c }
{
    c == ',' || c == '[' || c == ']' || c == '{' || c == '}'
}

/// Whether a `:` that is not allowed in a chunk is here.
#[inline(always)]
fn is_bad_colon(cursor: &cursor_t, in_flow: bool) -> bool
    ensures { result ≡ spec.is_bad_colon in_flow (first cursor.now) (peek cursor.now 1) }
{
    if !in_flow || !check_at!(cursor, ':', 0) {
        return false;
    }
    let next = cursor.peek(1);
    next == '?' || is_flow_indicator(next)
}

/// Whether the character that is here belongs to a chunk.
#[inline(always)]
fn is_chunk(cursor: &cursor_t, in_flow: bool) -> bool
    ensures { result ≡ spec.is_chunk in_flow (first cursor.now) (peek cursor.now 1) }
{
    let c = cursor.peek(0);
    if ends(c) || in_flow && is_flow_indicator(c) {
        return false;
    }
    !(c == ':' && (is_at!(cursor, ends, 1) || is_bad_colon(cursor, in_flow)))
}

/// Whether a line may go on at any column after the character that is here.
fn goes_far(cursor: &cursor_t, in_flow: bool, least: u64) -> bool
    ensures { result ≡ (in_flow || nat_le least (cursor.now.mark.column + 1)) }
{
    in_flow || least.saturating_sub(1) <= cursor.mark().column
}

/// The characters that a plain scalar keeps unchanged within a line, but those that may end it.
#[inline(always)]
fn words_class(in_flow: bool) -> class_t
    ensures { result ≡ plain_of in_flow }
{
    if in_flow {
        class_t::FLOW
    } else {
        class_t::PLAIN
    }
}

/// Takes what is kept unchanged in this line, up to a byte at which that may end.
#[inline(always)]
fn skip_words(cursor: &mut cursor_t, in_flow: bool, least: u64)
    ensures { Goes in_flow least cursor.old cursor.new }
{
    if !goes_far(cursor, in_flow, least) {
        return;
    }
    cursor.skip_solid(words_class(in_flow));
}

/// Takes the rest of a chunk, and the separators and chunks that follow it in the same line.
#[inline(never)]
fn some_chunks(cursor: &mut cursor_t, in_flow: bool, least: u64)
    ensures goes { Goes in_flow least cursor.old cursor.new }
    ensures over { spec.is_chunk in_flow (first cursor.new) (peek cursor.new 1) ≡ false }
{
    'chunk: while is_chunk(cursor, in_flow) {
        cursor.advance();
        skip_words(cursor, in_flow, least);
    }
}

/// Takes what is left of a chunk, if any is, and the separators and chunks after it in the same line.
#[inline(always)]
fn skip_chunks(cursor: &mut cursor_t, in_flow: bool, least: u64)
    ensures goes { Goes in_flow least cursor.old cursor.new }
    ensures over { spec.is_chunk in_flow (first cursor.new) (peek cursor.new 1) ≡ false }
{
    if is_chunk(cursor, in_flow) {
        // a copy, so that the cursor itself stays in registers
        let mut here = cursor.again();
        some_chunks(&mut here, in_flow, least);
        *cursor = here;
    }
}

/// Takes a chunk, and the separators and chunks after it in the same line, and returns their bytes.
#[inline(always)]
fn line_words<'a>(cursor: &mut cursor_t<'a>, in_flow: bool, least: u64) -> &'a [u8]
    ensures goes { words in_flow least cursor.old ≡ with_front result.now (words in_flow least cursor.new) }
    ensures over { spec.is_chunk in_flow (first cursor.new) (peek cursor.new 1) ≡ false }
    ensures front { result.now ≡ take (length result.now) (utf8 cursor.old.rest) }
    ensures within { length result.now ≤ length (utf8 cursor.old.rest) }
    ensures shorter { length cursor.new.rest ≤ length cursor.old.rest }
{
    let start = cursor.again();
    skip_words(cursor, in_flow, least);
    skip_chunks(cursor, in_flow, least);
    cursor.since(&start)
}

/// Takes a chunk, and the separators and chunks after it in the same line, and appends them to `out`.
fn take_words(
    cursor: &mut cursor_t,
    in_flow: bool,
    least: u64,
    out: &mut Vec<u8>,
) -> Result<(), yaml_refusal_t>
    ensures value { Leaves result
        (with_front out.old.items (words in_flow least cursor.old))
        (with_front out.new.items (links in_flow least cursor.new)) cursor.new }
    ensures shorter { OnOk result (length cursor.new.rest ≤ length cursor.old.rest) }
{
    let piece = line_words(cursor, in_flow, least);
    if is_bad_colon(cursor, in_flow) {
        return Err(offence(yaml_problem_t::COLON_IN_FLOW));
    }
    out.extend_from_slice(piece)?;
    Ok(())
}

fn is_bad_tab(cursor: &cursor_t, broken: bool, least: u64) -> bool
    ensures { result ≡ words.is_bad_tab least broken cursor.now }
{
    check_at!(cursor, '\t', 0) && broken && cursor.mark().column < least
}

/// Takes a separator; a tab in indentation is an offence.
fn skip_separator(cursor: &mut cursor_t, least: u64) -> Result<(), yaml_refusal_t>
    ensures { Appends (λ run. []) result [] [] cursor.new (spec.separator least cursor.old) }
{
    let mut broken = false;
    'run: while is_at!(cursor, is_white, 0) {
        if is_bad_tab(cursor, broken, least) {
            return Err(offence(yaml_problem_t::TAB_IN_PLAIN));
        }
        broken |= is_at!(cursor, is_break, 0);
        cursor.advance();
        cursor.skip_run(class_t::SPACE);
    }
    Ok(())
}

fn is_over(cursor: &cursor_t, in_flow: bool, least: u64) -> bool
    ensures { result ≡ spec.is_over in_flow least cursor.now }
{
    !in_flow && cursor.mark().column < least || is_marker(cursor) || check_at!(cursor, '#', 0)
}

/// Takes a separator and the words after it, and appends them to `out`. The flag is false if the scalar is over.
fn take_link(
    cursor: &mut cursor_t,
    in_flow: bool,
    least: u64,
    out: &mut Vec<u8>,
) -> Result<bool, yaml_refusal_t>
    ensures value { LeavesMore result
        (with_front out.old.items (links in_flow least cursor.old))
        (with_front out.new.items (links in_flow least cursor.new)) out.new.items cursor.new }
    ensures shorter { IfOk result (λ more. more ≡ true → length cursor.new.rest < length cursor.old.rest) }
{
    if !is_at!(cursor, is_white, 0) {
        return Ok(false);
    }
    let mut start = cursor.again();
    skip_separator(cursor, least)?;
    if is_over(cursor, in_flow, least) {
        *cursor = start;
        return Ok(false);
    }
    if is_bad_colon(cursor, in_flow) {
        return Err(offence(yaml_problem_t::COLON_IN_FLOW));
    }
    if !is_chunk(cursor, in_flow) {
        *cursor = start;
        return Ok(false);
    }
    push_separator(&mut start, out)?;
    take_words(cursor, in_flow, least, out)?;
    Ok(true)
}

/// Whether the scalar is over before the line whose indentation ends here. It is if the line is not indented enough, or
/// if it begins, in flow, with what ends an item.
#[inline(always)]
fn ends_before(cursor: &cursor_t, in_flow: bool, least: u64) -> bool
    ensures { result ≡ true → Ends in_flow least cursor.now }
{
    let c = cursor.peek(0);
    if in_flow {
        c == ',' || c == ']' || c == '}'
    } else {
        cursor.mark().column < least && !is_white(c)
    }
}

/// Takes the separator that is here, if a quick look shows that the scalar is over before it. Then it is empty, or is
/// a line feed and spaces before a line that is not indented enough, or, in flow, before what ends an item. Returns
/// whether a break is in it.
#[inline(always)]
fn ends_at_once(cursor: &mut cursor_t, in_flow: bool, least: u64) -> Option<bool>
    ensures over { IfSome result (λ b. spec.link in_flow least cursor.old ≡ over) }
    ensures end { IfSome result (λ b. cursor.new ≡ after_run sets.is_white cursor.old) }
    ensures broken { IfSome result (λ b. b ≡ list_any classes.is_break (run sets.is_white cursor.old)) }
    ensures stays { result ≡ None → cursor.new ≡ cursor.old }
{
    let c = cursor.peek(0);
    if c != '\n' {
        return if is_white(c) { None } else { Some(false) };
    }
    let mut next = cursor.again();
    next.pass_feed();
    next.skip_all_spaces();
    if !ends_before(&next, in_flow, least) {
        return None;
    }
    *cursor = next;
    Some(true)
}

/// Whether the scalar is over here, at whatever column: a comment or a `:` that makes it a key is here.
fn ends_anywhere(cursor: &cursor_t) -> bool
    ensures { (in_flow : Bool) (least : ℕ) → result ≡ true → Ends in_flow least cursor.now }
{
    let c = cursor.peek(0);
    c == '#' || c == ':' && is_at!(cursor, ends, 1)
}

/// Takes the separator that is here, if a second look shows that the scalar is over before it. Then it is blanks, and
/// after them nothing, or a line feed and spaces. It does not begin with a line feed, at which `ends_at_once` looks.
/// Returns whether a break is in it. There is one for the parts of a text and one for lists (`PART`), each with one
/// caller.
fn ends_soon<const PART: bool>(cursor: &mut cursor_t, in_flow: bool, least: u64) -> Option<bool>
    ensures over { IfSome result (λ b. spec.link in_flow least cursor.old ≡ over) }
    ensures end { IfSome result (λ b. cursor.new ≡ after_run sets.is_white cursor.old) }
    ensures broken { IfSome result (λ b. b ≡ list_any classes.is_break (run sets.is_white cursor.old)) }
    ensures stays { result ≡ None → cursor.new ≡ cursor.old }
{
    if check_at!(cursor, '\n', 0) {
        return None;
    }
    let mut next = cursor.again();
    next.skip_run(class_t::BLANK);
    let broken = next.take_feed_and_spaces();
    if !(ends_before(&next, in_flow, least) || ends_anywhere(&next)) {
        return None;
    }
    *cursor = next;
    Some(broken)
}

/// Takes the separators and words after those of the first line, which are in `scalar`, and the separator after all.
#[cold]
fn take_links(
    cursor: &mut cursor_t,
    in_flow: bool,
    least: u64,
    scalar: &mut scalar_t,
) -> Result<(), yaml_refusal_t>
    ensures { (p : Place) → LeadsTo in_flow least p scalar.old.value.items cursor.old
        → Gives (λ done. scalar_of scalar.new) result cursor.new (spec.plain in_flow least p) }
{
    scalar.end = cursor.mark();
    if let Some(passed_break) = ends_soon::<false>(cursor, in_flow, least) {
        scalar.passed_break = passed_break;
        return Ok(());
    }
    'links: while take_link(cursor, in_flow, least, &mut scalar.value)? {}
    scalar.end = cursor.mark();
    cursor.skip_run(class_t::BLANK);
    scalar.passed_break = is_at!(cursor, is_break, 0);
    cursor.skip_run(class_t::BLANK_OR_BREAK);
    Ok(())
}

/// Takes what is left of a plain scalar after its first line.
#[inline(always)]
fn take_lines(
    cursor: &mut cursor_t,
    in_flow: bool,
    least: u64,
    value: Vec<u8>,
) -> Result<scalar_t, yaml_refusal_t>
    ensures { (p : Place) → LeadsTo in_flow least p value.items cursor.old
        → Gives scalar_of result cursor.new (spec.plain in_flow least p) }
{
    // copies, so that the cursor and the value themselves stay in registers
    let mut here = cursor.again();
    let mut scalar = scalar_t {
        value,
        end: cursor.mark(),
        passed_break: false,
    };
    let taken = take_links(&mut here, in_flow, least, &mut scalar);
    *cursor = here;
    match taken {
        Ok(()) => Ok(scalar),
        Err(refusal) => Err(refused(refusal)),
    }
}

/// Takes a plain scalar. `least` is the least column of a line that goes on. Its value is put into `room` if it fits.
#[inline(always)]
pub(crate) fn take_plain(
    room: Vec<u8>,
    cursor: &mut cursor_t,
    in_flow: bool,
    least: u64,
) -> Result<scalar_t, yaml_refusal_t>
    ensures { Gives scalar_of result cursor.new (spec.plain in_flow least cursor.old) }
{
    let left = cursor.left();
    let len = line_words(cursor, in_flow, least).len();
    if is_bad_colon(cursor, in_flow) {
        return Err(offence(yaml_problem_t::COLON_IN_FLOW));
    }
    let value = match copied_front(room, left, len) {
        Ok(value) => value,
        Err(refusal) => return Err(refused(refusal)),
    };
    let end = cursor.mark();
    match ends_at_once(cursor, in_flow, least) {
        Some(passed_break) => Ok(scalar_t {
            value,
            end,
            passed_break,
        }),
        None => take_lines(cursor, in_flow, least, value),
    }
}

/// Takes the separator that is here, if a second look shows that the scalar is over before it, as `ends_soon` does. The
/// cursor is a copy, so that the caller's stays in registers.
#[inline(never)]
fn ends_apart(cursor: &mut cursor_t, in_flow: bool, least: u64) -> Option<bool>
    ensures over { IfSome result (λ b. spec.link in_flow least cursor.old ≡ over) }
    ensures end { IfSome result (λ b. cursor.new ≡ after_run sets.is_white cursor.old) }
    ensures broken { IfSome result (λ b. b ≡ list_any classes.is_break (run sets.is_white cursor.old)) }
    ensures stays { result ≡ None → cursor.new ≡ cursor.old }
{
    ends_soon::<true>(cursor, in_flow, least)
}

/// Takes the separator that is here, if a look or two show that the scalar is over before it. Returns whether a break is
/// in it.
#[inline(always)]
fn ends_here(cursor: &mut cursor_t, in_flow: bool, least: u64) -> Option<bool>
    ensures over { IfSome result (λ b. spec.link in_flow least cursor.old ≡ over) }
    ensures end { IfSome result (λ b. cursor.new ≡ after_run sets.is_white cursor.old) }
    ensures broken { IfSome result (λ b. b ≡ list_any classes.is_break (run sets.is_white cursor.old)) }
{
    if let Some(passed_break) = ends_at_once(cursor, in_flow, least) {
        return Some(passed_break);
    }
    if check_at!(cursor, '\n', 0) {
        return None;
    }
    let mut here = cursor.again();
    let passed_break = ends_apart(&mut here, in_flow, least);
    *cursor = here;
    passed_break
}

/// Takes a plain scalar whose value stands in the text as it is, if a look or two show that it ends in its first line.
/// Returns its value, the mark after that, and whether a break comes after it. `least` is the least column of a line
/// that goes on.
#[inline(always)]
pub(crate) fn take_plain_part<'a>(
    cursor: &mut cursor_t<'a>,
    in_flow: bool,
    least: u64,
) -> Option<(&'a [u8], yaml_mark_t, bool)>
    ensures value { IfSome result (λ r. spec.plain in_flow least cursor.old
        ≡ found (record { value = r.0.now; end = r.1; passed_break = r.2 }) cursor.new) }
    ensures within { IfSome result (λ r. length r.0.now ≤ length (utf8 cursor.old.rest)) }
{
    let value = line_words(cursor, in_flow, least);
    if is_bad_colon(cursor, in_flow) {
        return None;
    }
    let end = cursor.mark();
    let passed_break = ends_here(cursor, in_flow, least)?;
    Some((value, end, passed_break))
}
