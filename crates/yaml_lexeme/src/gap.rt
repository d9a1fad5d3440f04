//! What is between lexemes.
ghost use Rattle.std.specs.Prelude.{ℕ, ◌≡◌, ◌≤◌, ◌||◌, not, true, IfSome, nat_lt};
ghost use Rattle.yaml_lexeme.specs.Place.{place_at, after_run, break_len, peek};
ghost use Rattle.yaml_lexeme.specs.Counted.{IsMarkOf};
ghost use Rattle.yaml_lexeme.specs.Classes.{is_in_line};
ghost use Rattle.yaml_lexeme.specs.Block.{next_line};
ghost use Rattle.yaml_lexeme.specs.Gap as spec;
ghost use Rattle.yaml_lexeme.specs.inside.Moves.{past_break};
ghost use Rattle.yaml_lexeme.specs.inside.Runs as runs;
ghost use Rattle.yaml_lexeme.specs.Decider.{IsGap};
ghost use Rattle.yaml_lexeme.specs.GapText.{EndsLongestGap};

use crate::classes::is_break;
use crate::place::{check_at, cursor_t};
use crate::runs::class_t;
use yaml_text::{yaml_mark_t, yaml_text_t};

/// Takes what is left of a line.
#[inline(never)]
fn skip_line(cursor: &mut cursor_t)
    ensures { cursor.new ≡ after_run is_in_line cursor.old }
{
    cursor.skip_run(class_t::IN_LINE);
}

/// Takes a comment, if there is one here, which is rare. So the cursor is copied for it, and stays in registers.
#[inline(always)]
pub(crate) fn skip_rare_comment(cursor: &mut cursor_t)
    ensures { cursor.new ≡ spec.after_comment cursor.old }
{
    if check_at!(cursor, '#', 0) {
        let mut here = cursor.again();
        skip_line(&mut here);
        *cursor = here;
    }
}

/// Takes a comment, or what is left of a line, and the break after it. Returns whether there is a break.
#[inline(always)]
fn take_comment_line(cursor: &mut cursor_t) -> bool
    ensures end { cursor.new ≡ next_line cursor.old }
    ensures broken { result ≡ nat_lt 0 (break_len (after_run is_in_line cursor.old)) }
{
    if cursor.take_fed_line().is_some() {
        return true;
    }
    let mut here = cursor.again();
    skip_line(&mut here);
    *cursor = here;
    cursor.pass_break()
}

/// Takes a byte order mark, if there is one here at the start of a line.
#[inline(always)]
fn skip_mark(cursor: &mut cursor_t)
    ensures { cursor.new ≡ spec.after_mark cursor.old }
{
    if cursor.mark().column == 0 && check_at!(cursor, '\u{FEFF}', 0) {
        cursor.advance();
    }
}

/// Takes the blanks that are here. Tabs are rare, and taken only if the flag is set.
#[inline(always)]
fn skip_gap_blanks(cursor: &mut cursor_t, tabs: bool)
    ensures { cursor.new ≡ after_run (spec.is_gap_blank tabs) cursor.old }
{
    cursor.skip_all_spaces();
    cursor.skip_rest(class_t::GAP_BLANK(tabs));
}

/// Takes a gap line and its break. Returns whether there is a break.
#[tactic(auto, unfolding(crate::specs::Gap::after_gap_line))]
#[inline(always)]
fn take_gap_line(cursor: &mut cursor_t, tabs: bool) -> bool
    ensures end { cursor.new ≡ past_break (spec.after_gap_line tabs cursor.old) }
    ensures broken { result ≡ nat_lt 0 (break_len (spec.after_gap_line tabs cursor.old)) }
{
    skip_mark(cursor);
    skip_gap_blanks(cursor, tabs);
    if check_at!(cursor, '#', 0) {
        take_comment_line(cursor)
    } else {
        cursor.pass_break()
    }
}

/// Whether tabs are blanks on the first line of a gap.
#[inline(always)]
fn takes_tabs(in_flow: bool, allowed: bool) -> bool
    ensures { result ≡ (in_flow || not allowed) }
{
    in_flow || !allowed
}

/// Takes the gap that is here, line by line, and returns whether a break is in it.
#[inline(always)]
fn take_gap_lines(cursor: &mut cursor_t, in_flow: bool, allowed: bool) -> bool
    ensures { (cursor.new, result) ≡ spec.gap in_flow allowed cursor.old }
{
    if !take_gap_line(cursor, takes_tabs(in_flow, allowed)) {
        return false;
    }
    'lines: while take_gap_line(cursor, in_flow) {}
    true
}

/// Whether a character that is not ASCII belongs to no gap, and is no break.
#[inline(never)]
fn is_far_solid(c: char) -> bool
    requires { 0x80 ≤ c }
    ensures { result ≡ runs.is_solid c }
{
    !(is_break(c) || c == '\u{FEFF}')
}

/// Which characters of ASCII belong to no gap, and are no breaks: for each a 1, and else a 0. A look is cheaper than
/// comparisons.
static SOLID: [u8; 128] = [
    0, 0, 0, 0, 0, 0, 0, 0, 0, 0, 0, 0, 0, 0, 0, 0, 0, 0, 0, 0, 0, 0, 0, 0, 0, 0, 0, 0, 0, 0, 0, 0,
    0, 1, 1, 0, 1, 1, 1, 1, 1, 1, 1, 1, 1, 1, 1, 1, 1, 1, 1, 1, 1, 1, 1, 1, 1, 1, 1, 1, 1, 1, 1, 1,
    1, 1, 1, 1, 1, 1, 1, 1, 1, 1, 1, 1, 1, 1, 1, 1, 1, 1, 1, 1, 1, 1, 1, 1, 1, 1, 1, 1, 1, 1, 1, 1,
    1, 1, 1, 1, 1, 1, 1, 1, 1, 1, 1, 1, 1, 1, 1, 1, 1, 1, 1, 1, 1, 1, 1, 1, 1, 1, 1, 1, 1, 1, 1, 1,
];

/// Whether a character that belongs to no gap, and is no break, is so many places on.
#[inline(always)]
fn is_solid(cursor: &cursor_t, k: usize) -> bool
    ensures { result ≡ runs.is_solid (peek cursor.now k) }
{
    let c = cursor.peek(k);
    if c < '\u{80}' {
        SOLID[c as usize] == 1
    } else {
        is_far_solid(c)
    }
}

/// The place after CR LF and spaces, if these are the gap that is here.
#[inline(never)]
fn after_crlf<'a>(cursor: &cursor_t<'a>) -> Option<cursor_t<'a>>
    ensures { IfSome result (λ q. IsGap cursor.now q true) }
{
    let mut next = cursor.again();
    if next.take_feed_and_spaces() && is_solid(&next, 0) {
        Some(next)
    } else {
        None
    }
}

/// The gap from a place on, read gap line by gap line.
#[inline(never)]
fn long_gap(
    text: &yaml_text_t,
    at: yaml_mark_t,
    in_flow: bool,
    allowed: bool,
) -> (yaml_mark_t, bool)
    requires { (n : ℕ) × IsMarkOf text.now.chars at n }
    ensures mark { (n : ℕ) → IsMarkOf text.now.chars at n
        → result.0 ≡ (spec.gap in_flow allowed (place_at text.now.chars n)).0.mark }
    ensures broken { (n : ℕ) → IsMarkOf text.now.chars at n
        → result.1 ≡ (spec.gap in_flow allowed (place_at text.now.chars n)).1 }
{
    let mut cursor = cursor_t::at(text, at);
    if check_at!(cursor, '\r', 0)
        && let Some(next) = after_crlf(&cursor.again())
    {
        return (next.mark(), true);
    }
    let broken = take_gap_lines(&mut cursor, in_flow, allowed);
    (cursor.mark(), broken)
}

/// The place after a line feed and spaces, if these are the gap that is here.
#[inline(always)]
fn after_feed<'a>(cursor: &cursor_t<'a>) -> Option<cursor_t<'a>>
    ensures { IfSome result (λ q. IsGap cursor.now q true) }
{
    if !check_at!(cursor, '\n', 0) {
        return None;
    }
    let mut next = cursor.again();
    next.pass_feed();
    next.skip_all_spaces();
    if is_solid(&next, 0) { Some(next) } else { None }
}

/// The place after a gap that is short, and whether a break is in it. No gap, one space, and a line feed with
/// spaces after it are short, if a character that belongs to no gap, and is no break, follows.
#[inline(always)]
fn short_gap<'a>(cursor: &cursor_t<'a>) -> Option<(cursor_t<'a>, bool)>
    ensures { IfSome result (λ r. IsGap cursor.now r.0 r.1) }
{
    if is_solid(cursor, 0) {
        return Some((cursor.again(), false));
    }
    if check_at!(cursor, ' ', 0) && is_solid(cursor, 1) {
        let mut next = cursor.again();
        next.pass();
        return Some((next, false));
    }
    let next = after_feed(cursor)?;
    Some((next, true))
}

/// The gap from a place on, by a call, since few gaps are long. The mark is copied and taken apart, so that it stays in
/// registers.
#[inline(always)]
fn rare_gap(
    text: &yaml_text_t,
    at: yaml_mark_t,
    in_flow: bool,
    allowed: bool,
) -> (yaml_mark_t, bool)
    requires { (n : ℕ) × IsMarkOf text.now.chars at n }
    ensures mark { (n : ℕ) → IsMarkOf text.now.chars at n
        → result.0 ≡ (spec.gap in_flow allowed (place_at text.now.chars n)).0.mark }
    ensures broken { (n : ℕ) → IsMarkOf text.now.chars at n
        → result.1 ≡ (spec.gap in_flow allowed (place_at text.now.chars n)).1 }
{
    let again = yaml_mark_t {
        index: at.index,
        line: at.line,
        column: at.column,
    };
    let (mark, broken) = long_gap(text, again, in_flow, allowed);
    (mark, broken)
}

/// The gap from a place on: the mark of the place after it, and whether a break is in it (YAML 1.1, 6.2
/// Comments and 6.3 Separation Spaces). If the gap is empty, the mark is that of the place itself.
///
/// A gap is gap lines joined by breaks, as many as possible. A gap line is an optional byte order mark, if the
/// line begins at column 0, then blanks, and then an optional comment up to a break or the end. Spaces are
/// blanks; tabs are blanks in flow, and on the first line if no key is allowed.
///
/// `at` must be the mark of a place of this text: what `yaml_mark_at` returns for it, the mark after a gap of
/// it, or the reach of a lexeme of it other than the stream end. `in_flow` says whether the flow depth is
/// above 0, and `allowed` whether a key is allowed at the place. Every gap can be read: there is no fault, and
/// no memory is taken.
#[inline(always)]
pub fn yaml_gap(
    text: &yaml_text_t,
    at: yaml_mark_t,
    in_flow: bool,
    allowed: bool,
) -> (yaml_mark_t, bool)
    requires { (n : ℕ) × IsMarkOf text.now.chars at n }
    ensures mark { (n : ℕ) → IsMarkOf text.now.chars at n
        → result.0 ≡ (spec.gap in_flow allowed (place_at text.now.chars n)).0.mark }
    ensures broken { (n : ℕ) → IsMarkOf text.now.chars at n
        → result.1 ≡ (spec.gap in_flow allowed (place_at text.now.chars n)).1 }
    ensures longest { (n : ℕ) → IsMarkOf text.now.chars at n
        → EndsLongestGap in_flow allowed (place_at text.now.chars n) result.0 result.1 }
{
    let cursor = cursor_t::at(text, at);
    match short_gap(&cursor) {
        Some((next, broken)) => (next.mark(), broken),
        None => rare_gap(text, at, in_flow, allowed),
    }
}
