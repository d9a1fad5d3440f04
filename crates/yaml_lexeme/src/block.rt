//! Literal and folded scalars.
ghost use Rattle.std.specs.Prelude.{◌≡◌, ◌+◌, ◌++◌, ◌<◌, ◌^◌, OnOk, IfOk, IfSome, [], length, replicate};
ghost use Rattle.std.specs.Prelude.{ℕ, ◌≤◌, ◌∷◌, List, Some, take, true, false, encode_utf8};
ghost use Rattle.yaml_text.specs.Chars.{utf8};
ghost use Rattle.yaml_lexeme.specs.Block as spec;
ghost use Rattle.yaml_lexeme.specs.inside.BlockAhead as ahead;
ghost use Rattle.yaml_lexeme.specs.LexemeOf.{scalar_of};
ghost use Rattle.yaml_lexeme.specs.inside.Gives.{Gives, Moves};
ghost use Rattle.yaml_lexeme.specs.Classes.{is_in_line, line_feed};
ghost use Rattle.yaml_lexeme.specs.Place.{skip, break_len, run, after_run};
ghost use Rattle.yaml_lexeme.specs.inside.Tails.{breaks_in, TakesBlanks, TakesLine, between_tail, chomped_tail};
ghost use Rattle.yaml_lexeme.specs.inside.Tails.{feed_if, IsFed};

use crate::classes::{is_blank, is_break};
use crate::fold::{emptied, push_char, written};
use crate::gap::skip_rare_comment;
use crate::place::{check_at, cursor_t, is_at};
use crate::plain::scalar_t;
use crate::problem::{offence, yaml_problem_t, yaml_refusal_t};
use crate::runs::class_t;
use std::alloc::AllocError;
use yaml_text::yaml_mark_t;

/// How many bytes a block scalar first gets room for.
const ROOM: usize = 256;

/// How many bytes are copied as one for a short text line and its break.
const LINE: usize = 64;

/// What is kept after the last text line.
#[derive(Clone, Copy)]
pub(crate) enum chomp_t {
    STRIP,
    CLIP,
    KEEP,
}

/// What follows `|` or `>`.
#[derive(Clone, Copy)]
pub(crate) struct header_t {
    pub chomp: chomp_t,
    pub digit: Option<u64>,
}

/// The breaks of empty lines.
#[derive(Drop)]
pub(crate) struct empties_t {
    /// How many line feeds come first.
    pub feeds: usize,
    /// The other breaks, and the line feeds after them.
    pub others: Vec<u8>,
}

/// What is kept of a text line.
#[derive(Drop)]
pub(crate) struct tail_t {
    /// Its break, as it is written.
    pub lead: Option<char>,
    /// Whether that is a line feed, and was appended with the text.
    pub fed: bool,
    /// The breaks of the empty lines after it.
    pub empties: empties_t,
    /// Whether it begins with a blank.
    pub indented: bool,
    /// The mark after them.
    pub end: yaml_mark_t,
}

fn is_sign(c: char) -> bool
    ensures { result ≡ spec.is_sign c }
{
    c == '+' || c == '-'
}

fn sign_of(c: char) -> chomp_t
    ensures { result ≡ spec.sign_of c }
{
    if c == '+' {
        chomp_t::KEEP
    } else {
        chomp_t::STRIP
    }
}

/// Takes the digit that is here, if there is one.
#[tactic(auto, unfolding(crate::specs::Block::digit_at))]
fn take_digit(cursor: &mut cursor_t) -> Result<Option<u64>, yaml_refusal_t>
    ensures value { Gives (λ d. d) result cursor.new (spec.digit_at cursor.old) }
    ensures small { IfOk result (λ o. IfSome o (λ d. d < 10)) }
{
    let c = cursor.peek(0);
    if !('0'..='9').contains(&c) {
        return Ok(None);
    }
    if c == '0' {
        return Err(offence(yaml_problem_t::INDICATOR_ZERO));
    }
    cursor.advance();
    Ok(Some(u64::from(c as u32 - '0' as u32)))
}

/// Takes the header, after its first character.
#[tactic(auto, unfolding(crate::specs::Block::header_at))]
fn take_header(cursor: &mut cursor_t) -> Result<header_t, yaml_refusal_t>
    ensures value { Gives (λ h. h) result cursor.new (spec.header_at cursor.old) }
    ensures small { IfOk result (λ h. IfSome h.digit (λ d. d < 10)) }
{
    let c = cursor.peek(0);
    if is_sign(c) {
        cursor.advance();
        let digit = take_digit(cursor)?;
        return Ok(header_t {
            chomp: sign_of(c),
            digit,
        });
    }
    let digit = take_digit(cursor)?;
    let c = cursor.peek(0);
    if digit.is_some() && is_sign(c) {
        cursor.advance();
        return Ok(header_t {
            chomp: sign_of(c),
            digit,
        });
    }
    Ok(header_t {
        chomp: chomp_t::CLIP,
        digit,
    })
}

/// Takes blanks, a comment and the break that ends the line.
#[tactic(auto, unfolding(crate::specs::Block::after_line))]
#[inline(always)]
fn take_any_line_end(cursor: &mut cursor_t) -> Result<(), yaml_refusal_t>
    ensures { Moves result cursor.new (spec.after_line cursor.old) }
{
    cursor.skip_blanks();
    skip_rare_comment(cursor);
    let c = cursor.peek(0);
    if !(is_break(c) || c == '\0') {
        return Err(offence(yaml_problem_t::NO_COMMENT_OR_BREAK));
    }
    cursor.skip(cursor.break_len());
    Ok(())
}

/// Takes blanks, a comment and the break that ends the line. Mostly that is a line feed right here.
#[tactic(auto, using(crate::proofs::Readers::BlockLines::at_feed))]
#[inline(always)]
pub(crate) fn take_line_end(cursor: &mut cursor_t) -> Result<(), yaml_refusal_t>
    ensures { Moves result cursor.new (spec.after_line cursor.old) }
{
    if check_at!(cursor, '\n', 0) {
        cursor.pass_feed();
        return Ok(());
    }
    take_any_line_end(cursor)
}

fn is_below(limit: Option<u64>, column: u64) -> bool
    ensures { result ≡ spec.is_below limit column }
{
    match limit {
        None => true,
        Some(n) => column < n,
    }
}

fn is_indenting(cursor: &cursor_t, c: char, limit: Option<u64>) -> bool
    ensures { result ≡ ahead.is_indenting c limit cursor.now }
{
    check_at!(cursor, c, 0) && is_below(limit, cursor.mark().column)
}

/// Takes the spaces that are indentation.
#[inline(always)]
fn skip_indent(cursor: &mut cursor_t, limit: Option<u64>)
    ensures { cursor.new ≡ skip (spec.indent_len limit cursor.old) cursor.old }
{
    match limit {
        None => cursor.skip_all_spaces(),
        Some(n) => cursor.skip_spaces(n.saturating_sub(cursor.mark().column)),
    }
}

/// Takes the spaces that are indentation; a tab in their place is an offence.
#[tactic(auto, unfolding(crate::specs::Block::after_indent))]
#[inline(always)]
fn take_indent(cursor: &mut cursor_t, limit: Option<u64>) -> Result<(), yaml_refusal_t>
    ensures { Moves result cursor.new (spec.after_indent limit cursor.old) }
{
    skip_indent(cursor, limit);
    if is_indenting(cursor, '\t', limit) {
        return Err(offence(yaml_problem_t::TAB_IN_INDENTATION));
    }
    Ok(())
}

/// Appends a break. A line feed is counted, unless another break came before it.
#[tactic(auto, using(crate::proofs::Readers::BlockLines::feed_counted))]
#[inline(always)]
fn push_empty(empties: &mut empties_t, c: char) -> Result<(), AllocError>
    ensures { OnOk result (breaks_in empties.new ≡ breaks_in empties.old ++ encode_utf8 c) }
{
    if c == '\n' && empties.others.is_empty() && empties.feeds < usize::MAX {
        empties.feeds += 1;
        return Ok(());
    }
    push_char(&mut empties.others, c)
}

/// Forgets all breaks. The list keeps its room.
fn clear_empties(empties: &mut empties_t)
    ensures { breaks_in empties.new ≡ [] }
{
    empties.feeds = 0;
    empties.others.clear();
}

/// Whether there is no break.
fn no_empties(empties: &empties_t) -> bool
    ensures none { result ≡ true → breaks_in empties.now ≡ [] }
    ensures some { result ≡ false → 0 < length (breaks_in empties.now) }
{
    empties.feeds == 0 && empties.others.is_empty()
}

/// Takes empty lines and the indentation of the line that follows, appends their breaks to `breaks`, and sets the mark
/// after them. Returns the greatest column that spaces reach on them.
#[inline(always)]
fn take_blank_lines(
    cursor: &mut cursor_t,
    limit: Option<u64>,
    breaks: &mut empties_t,
    end: &mut yaml_mark_t,
) -> Result<u64, yaml_refusal_t>
    ensures { TakesBlanks result (breaks_in breaks.old) (breaks_in breaks.new) end.new cursor.new
        (ahead.blank_lines limit cursor.old) }
{
    let mut column: u64 = 0;
    *end = cursor.mark();
    take_indent(cursor, limit)?;
    'lines: while cursor.break_len() > 0 {
        column = column.max(cursor.mark().column);
        push_empty(breaks, written(cursor.peek(0)))?;
        cursor.skip(cursor.break_len());
        *end = cursor.mark();
        take_indent(cursor, limit)?;
    }
    Ok(column)
}

/// Takes the break that is here, if there is one, and returns it as it is written.
#[inline(always)]
fn take_break(cursor: &mut cursor_t) -> Option<char>
    ensures value { result ≡ spec.break_at cursor.old }
    ensures end { cursor.new ≡ skip (break_len cursor.old) cursor.old }
{
    let c = cursor.peek(0);
    if c == '\n' {
        cursor.advance();
        return Some(c);
    }
    let n = cursor.break_len();
    cursor.skip(n);
    if n == 0 { None } else { Some(written(c)) }
}

/// Appends the first `n` bytes to `out`, and a line feed if both have room. Returns whether they have: no memory is
/// requested for a line feed that may be taken back. If the bytes are few and there is room for more, a line of bytes
/// is copied as one, and what is too much of it is cut off.
#[inline(always)]
fn push_fed(out: &mut Vec<u8>, bytes: &[u8], n: usize) -> Result<bool, AllocError>
    requires { n < length bytes.now }
    ensures { IfOk result (λ fed. out.new.items ≡ (out.old.items ++ take n bytes.now) ++ feed_if fed) }
{
    let old = out.len();
    let room = out.capacity() - old;
    if n < LINE && bytes.len() >= LINE && room >= LINE {
        out.extend_from_slice(&bytes[..LINE])?;
        let end = old + n;
        out[end] = b'\n';
        out.truncate(end + 1);
        return Ok(true);
    }
    if n < room {
        out.extend_from_slice(&bytes[..n + 1])?;
        out[old + n] = b'\n';
        return Ok(true);
    }
    out.extend_from_slice(&bytes[..n])?;
    Ok(false)
}

/// Takes what is left of a line and its break, and appends the text to `out`, and with it a line feed if that is the
/// break and both have room. Returns whether it was appended, and the break as it is written.
#[inline(always)]
fn take_text(cursor: &mut cursor_t, out: &mut Vec<u8>) -> Result<(bool, Option<char>), AllocError>
    ensures text { IfOk result
        (λ t. out.new.items ≡ (out.old.items ++ utf8 (run is_in_line cursor.old)) ++ feed_if t.0) }
    ensures fed { IfOk result (λ t. t.0 ≡ true → t.1 ≡ Some line_feed) }
    ensures lead { IfOk result (λ t. t.1 ≡ spec.break_at (after_run is_in_line cursor.old)) }
    ensures end { OnOk result (cursor.new ≡ spec.next_line cursor.old) }
{
    let left = cursor.left();
    if let Some(n) = cursor.take_fed_line() {
        let fed = push_fed(out, left, n)?;
        return Ok((fed, Some('\n')));
    }
    let text = cursor.rare_run(class_t::IN_LINE);
    out.extend_from_slice(text)?;
    Ok((false, take_break(cursor)))
}

/// Takes a text line after its indentation, appends its text to `out` as `take_text` does, and sets what is kept of it.
#[inline(always)]
fn take_line(
    cursor: &mut cursor_t,
    indent: u64,
    out: &mut Vec<u8>,
    tail: &mut tail_t,
) -> Result<(), yaml_refusal_t>
    ensures { TakesLine result out.old.items out.new.items tail.new cursor.new (ahead.line_at indent cursor.old) }
{
    tail.indented = is_at!(cursor, is_blank, 0);
    let (fed, lead) = take_text(cursor, out)?;
    tail.fed = fed;
    tail.lead = lead;
    clear_empties(&mut tail.empties);
    take_blank_lines(cursor, Some(indent), &mut tail.empties, &mut tail.end)?;
    Ok(())
}

#[inline(always)]
fn push_lead(out: &mut Vec<u8>, lead: Option<char>) -> Result<(), AllocError>
    ensures { OnOk result (out.new.items ≡ out.old.items ++ utf8 (spec.or_none lead)) }
{
    if let Some(c) = lead {
        push_char(out, c)?;
    }
    Ok(())
}

/// Appends the break of a text line to `out`, if it was not appended with the text.
#[inline(always)]
fn push_unfed(out: &mut Vec<u8>, tail: &tail_t) -> Result<(), AllocError>
    requires { IsFed tail.now out.old.items }
    ensures { OnOk result ((x : List ℕ) → out.old.items ≡ x ++ feed_if tail.now.fed →
        out.new.items ≡ x ++ utf8 (spec.or_none tail.now.lead)) }
{
    if tail.fed {
        return Ok(());
    }
    push_lead(out, tail.lead)
}

/// Takes back the line feed that was appended with the text of a line, if one was.
#[inline(always)]
fn cut_feed(out: &mut Vec<u8>, tail: &tail_t)
    requires { IsFed tail.now out.old.items }
    ensures { (x : List ℕ) → out.old.items ≡ x ++ feed_if tail.now.fed → out.new.items ≡ x }
{
    if tail.fed {
        out.truncate(out.len() - 1);
    }
}

/// Appends a space. If a line feed was appended with the text of a line, it becomes that space.
#[inline(always)]
fn push_space(out: &mut Vec<u8>, tail: &tail_t) -> Result<(), AllocError>
    requires { IsFed tail.now out.old.items }
    ensures { OnOk result ((x : List ℕ) → out.old.items ≡ x ++ feed_if tail.now.fed →
        out.new.items ≡ x ++ (0x20 ∷ [])) }
{
    if tail.fed {
        let last = out.len() - 1;
        out[last] = b' ';
        return Ok(());
    }
    out.push(b' ')?;
    Ok(())
}

/// Appends so many line feeds.
#[inline(always)]
fn push_feeds(out: &mut Vec<u8>, n: usize) -> Result<(), AllocError>
    ensures { OnOk result (out.new.items ≡ out.old.items ++ replicate n 0x0A) }
{
    'feeds: for _ in 0..n {
        out.push(b'\n')?;
    }
    Ok(())
}

/// Appends the breaks of empty lines. Room for all of them is requested at once.
#[inline(always)]
fn push_empties(out: &mut Vec<u8>, empties: &empties_t) -> Result<(), AllocError>
    ensures { OnOk result (out.new.items ≡ out.old.items ++ breaks_in empties.now) }
{
    if empties.feeds > 0 {
        out.reserve(empties.feeds.saturating_add(empties.others.len()))?;
        push_feeds(out, empties.feeds)?;
    }
    if !empties.others.is_empty() {
        out.extend_from_slice(&empties.others)?;
    }
    Ok(())
}

/// Appends to `out` what comes between a text line and the next, which begins with a blank if the flag is set. A line
/// feed that was appended with the text is a part of that, or is taken back.
#[inline(always)]
fn push_between(
    out: &mut Vec<u8>,
    folded: bool,
    tail: &tail_t,
    next: bool,
) -> Result<(), AllocError>
    requires { IsFed tail.now out.old.items }
    ensures { OnOk result ((x : List ℕ) → out.old.items ≡ x ++ feed_if tail.now.fed →
        out.new.items ≡ x ++ between_tail folded tail.now next) }
{
    if folded && tail.lead == Some('\n') && !(tail.indented || next) {
        if no_empties(&tail.empties) {
            push_space(out, tail)?;
        } else {
            cut_feed(out, tail);
            push_empties(out, &tail.empties)?;
        }
    } else {
        push_unfed(out, tail)?;
        push_empties(out, &tail.empties)?;
    }
    Ok(())
}

/// Appends to `out` what comes after the last text line. A line feed that was appended with the text is a part of that,
/// or is taken back.
#[inline(always)]
fn push_chomped(out: &mut Vec<u8>, chomp: chomp_t, tail: &tail_t) -> Result<(), AllocError>
    requires { IsFed tail.now out.old.items }
    ensures { OnOk result ((x : List ℕ) → out.old.items ≡ x ++ feed_if tail.now.fed →
        out.new.items ≡ x ++ chomped_tail chomp tail.now) }
{
    match chomp {
        chomp_t::STRIP => cut_feed(out, tail),
        chomp_t::CLIP => push_unfed(out, tail)?,
        chomp_t::KEEP => {
            push_unfed(out, tail)?;
            push_empties(out, &tail.empties)?;
        }
    }
    Ok(())
}

/// The greatest open level, or 0 if none is open.
fn base(level: Option<u64>) -> u64
    ensures { result ≡ ahead.base level }
{
    match level {
        None => 0,
        Some(level) => level,
    }
}

/// The least column above the greatest open level, or 0 if none is open.
pub(crate) fn above(level: Option<u64>) -> u64
    requires { spec.above level < 2 ^ 64 }
    ensures { result ≡ spec.above level }
{
    match level {
        None => 0,
        Some(level) => level + 1,
    }
}

/// The column that a digit sets for the text lines.
fn set_indent(level: Option<u64>, digit: Option<u64>) -> Option<u64>
    requires room { spec.above level + 10 < 2 ^ 64 }
    requires small { IfSome digit (λ d. d < 10) }
    ensures { result ≡ spec.set_indent level digit }
{
    match digit {
        None => None,
        Some(d) => Some(base(level) + d),
    }
}

/// The column of the text lines: the one that is set, or else one that spaces reach.
fn block_indent(level: Option<u64>, set: Option<u64>, leading: u64, next: u64) -> u64
    requires { spec.above level < 2 ^ 64 }
    ensures { result ≡ spec.block_indent level set leading next }
{
    match set {
        Some(column) => column,
        None => above(level).max(1).max(leading.max(next)),
    }
}

/// Whether a text line is here, after its indentation.
fn is_text(cursor: &cursor_t, indent: u64) -> bool
    ensures { result ≡ spec.is_text indent cursor.now }
{
    cursor.mark().column == indent && !check_at!(cursor, '\0', 0)
}

/// Takes a literal or folded scalar, from its first character on. The level is the greatest one that is open. Its
/// value is put into `room` if it fits. The cursor is a local variable of the caller, so that it stays in registers.
#[inline(always)]
fn take_lines(
    room: Vec<u8>,
    cursor: &mut cursor_t,
    folded: bool,
    level: Option<u64>,
) -> Result<scalar_t, yaml_refusal_t>
    requires { spec.above level + 10 < 2 ^ 64 }
    ensures { Gives scalar_of result cursor.new (spec.block folded level cursor.old) }
{
    cursor.advance();
    let header = take_header(cursor)?;
    take_line_end(cursor)?;
    let set = set_indent(level, header.digit);
    let mut tail = tail_t {
        lead: None,
        fed: false,
        empties: empties_t {
            feeds: 0,
            others: Vec::new(*room.allocator()),
        },
        indented: false,
        end: cursor.mark(),
    };
    let column = take_blank_lines(cursor, set, &mut tail.empties, &mut tail.end)?;
    let indent = block_indent(level, set, column, cursor.mark().column);
    let mut out = emptied(room, ROOM)?;
    'lines: while is_text(cursor, indent) {
        push_between(&mut out, folded, &tail, is_at!(cursor, is_blank, 0))?;
        take_line(cursor, indent, &mut out, &mut tail)?;
    }
    push_chomped(&mut out, header.chomp, &tail)?;
    Ok(scalar_t {
        value: out,
        end: tail.end,
        passed_break: false,
    })
}

/// Takes a literal or folded scalar, from its first character on. The level is the greatest one that is open. Its value
/// is put into `room` if it fits.
#[inline(never)]
pub(crate) fn take_block(
    room: Vec<u8>,
    cursor: &mut cursor_t,
    folded: bool,
    level: Option<u64>,
) -> Result<scalar_t, yaml_refusal_t>
    requires { spec.above level + 10 < 2 ^ 64 }
    ensures { Gives scalar_of result cursor.new (spec.block folded level cursor.old) }
{
    let mut here = cursor.again();
    let taken = take_lines(room, &mut here, folded, level);
    *cursor = here;
    taken
}
