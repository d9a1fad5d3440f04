//! Uris of tags, and their escapes.
ghost use Rattle.std.specs.Prelude.{◌≡◌, ◌++◌, ◌∷◌, [], not, OnOk};
ghost use Rattle.yaml_text.specs.Utf8.{continues};
ghost use Rattle.yaml_lexeme.specs.Place.{first, after_run, run};
ghost use Rattle.yaml_lexeme.specs.Reading.{with_front};
ghost use Rattle.yaml_lexeme.specs.Uri as spec;
ghost use Rattle.yaml_lexeme.specs.inside.Gives.{Gives, Appends, OctetIs};

use crate::place::{check_at, cursor_t};
use crate::problem::{offence, refused, yaml_problem_t, yaml_refusal_t};
use crate::runs::class_t;
use std::alloc::{AllocError, Global};
use yaml_text::WIDTH;

/// How many bytes a list of bytes first gets room for.
const FIRST_ROOM: usize = 8;

pub(crate) fn push_byte(out: &mut Vec<u8>, byte: u8) -> Result<(), AllocError>
    ensures { OnOk result (out.new.items ≡ out.old.items ++ byte ∷ []) }
{
    out.push(byte)?;
    Ok(())
}

/// The octet that `%` and two hex digits spell here.
#[tactic(auto, unfolding(crate::specs::Uri::octet))]
fn octet_at(cursor: &cursor_t) -> Result<u8, yaml_refusal_t>
    ensures { OctetIs result cursor.now }
{
    if !check_at!(cursor, '%', 0) {
        return Err(offence(yaml_problem_t::NO_OCTET));
    }
    let Some(high) = cursor.peek(1).to_digit(16) else {
        return Err(offence(yaml_problem_t::NO_OCTET));
    };
    let Some(low) = cursor.peek(2).to_digit(16) else {
        return Err(offence(yaml_problem_t::NO_OCTET));
    };
    Ok((high * 16 + low) as u8)
}

fn is_bad_next(c: u8) -> bool
    ensures { result ≡ not (continues c) }
{
    !(0x80..=0xBF).contains(&c)
}

/// Takes `n` later octets, and appends them to `out`.
fn take_next_octets(
    cursor: &mut cursor_t,
    n: usize,
    out: &mut Vec<u8>,
) -> Result<(), yaml_refusal_t>
    ensures { Appends (λ cs. cs) result out.old.items out.new.items cursor.new (spec.next_octets n cursor.old) }
{
    'octets: for _ in 0..n {
        let c = octet_at(cursor)?;
        if is_bad_next(c) {
            return Err(offence(yaml_problem_t::BAD_NEXT_OCTET));
        }
        push_byte(out, c)?;
        cursor.skip(3);
    }
    Ok(())
}

/// Takes a lead octet and as many later ones as it asks for, each as an escape, and appends them to `out`.
fn take_uri_escape(cursor: &mut cursor_t, out: &mut Vec<u8>) -> Result<(), yaml_refusal_t>
    ensures { Appends (λ cs. cs) result out.old.items out.new.items cursor.new (spec.uri_escape cursor.old) }
{
    let lead = octet_at(cursor)?;
    let width = WIDTH(&[lead], 0);
    if width == 0 {
        return Err(offence(yaml_problem_t::BAD_LEAD_OCTET));
    }
    push_byte(out, lead)?;
    cursor.skip(3);
    take_next_octets(cursor, width - 1, out)
}

/// Takes as many characters of a uri as possible, up to an escape.
#[inline(always)]
fn uri_run<'a>(cursor: &mut cursor_t<'a>, listed: bool) -> &'a [u8]
    ensures value { result.now ≡ run (spec.is_uri listed) cursor.old }
    ensures end { cursor.new ≡ after_run (spec.is_uri listed) cursor.old }
{
    cursor.quick_run(class_t::URI(listed))
}

/// Takes as many characters of a uri as possible, up to an escape, and appends them to `out`. Often the next escape is
/// right here.
#[inline(always)]
fn push_uri_run(cursor: &mut cursor_t, listed: bool, out: &mut Vec<u8>) -> Result<(), AllocError>
    ensures value { OnOk result (out.new.items ≡ out.old.items ++ run (spec.is_uri listed) cursor.old) }
    ensures end { OnOk result (cursor.new ≡ after_run (spec.is_uri listed) cursor.old) }
{
    if check_at!(cursor, '%', 0) {
        return Ok(());
    }
    let piece = uri_run(cursor, listed);
    out.extend_from_slice(piece)
}

/// The room for a piece of so many bytes and at least one more, as if they came one by one: 8, 16, 32 bytes and so on.
/// An empty piece gets none yet, since what comes after it may be refused.
fn room_of(len: usize) -> usize {
    if len == 0 {
        return 0;
    }
    let mut room = FIRST_ROOM;
    'rooms: for _ in 0..64 {
        if room > len {
            break;
        }
        room = room.saturating_mul(2);
    }
    room
}

/// Takes what is left of a uri, from an escape on. Its bytes come after a piece that was taken.
#[inline(never)]
fn take_escaped(
    alloc: Global,
    cursor: &mut cursor_t,
    listed: bool,
    piece: &[u8],
) -> Result<Vec<u8>, yaml_refusal_t>
    requires { first cursor.old ≡ 0x25 }
    ensures { Gives (λ v. v.items) result cursor.new (with_front piece.now (spec.uri listed cursor.old)) }
{
    let mut out = Vec::with_capacity(alloc, room_of(piece.len()))?;
    out.extend_from_slice(piece)?;
    'escapes: while check_at!(cursor, '%', 0) {
        take_uri_escape(cursor, &mut out)?;
        push_uri_run(cursor, listed, &mut out)?;
    }
    Ok(out)
}

/// Takes a uri. Most have no escape, and are copied at once.
#[inline(always)]
pub(crate) fn take_uri(
    alloc: Global,
    cursor: &mut cursor_t,
    listed: bool,
) -> Result<Vec<u8>, yaml_refusal_t>
    ensures { Gives (λ v. v.items) result cursor.new (spec.uri listed cursor.old) }
{
    let piece = uri_run(cursor, listed);
    if check_at!(cursor, '%', 0) {
        // a copy, so that the cursor itself stays in registers
        let mut here = cursor.again();
        let taken = take_escaped(alloc, &mut here, listed, piece);
        *cursor = here;
        return taken;
    }
    Ok(Vec::from_slice(alloc, piece)?)
}

/// Takes a uri of a character or more.
#[inline(always)]
#[tactic(auto, unfolding(crate::specs::Uri::some_uri))]
pub(crate) fn take_some_uri(
    alloc: Global,
    cursor: &mut cursor_t,
    listed: bool,
) -> Result<Vec<u8>, yaml_refusal_t>
    ensures { Gives (λ v. v.items) result cursor.new (spec.some_uri listed cursor.old) }
{
    let out = match take_uri(alloc, cursor, listed) {
        Ok(out) => out,
        Err(refusal) => return Err(refused(refusal)),
    };
    if out.is_empty() {
        return Err(offence(yaml_problem_t::NO_URI));
    }
    Ok(out)
}
