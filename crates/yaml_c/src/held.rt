//! A scanner that is held between two calls.
ghost use Rattle.std.specs.Prelude.{◌≡◌, ◌≢◌, ◌≤◌, ◌<◌, length, Some, IfOk, option_map};
ghost use Rattle.yaml_text.specs.Fault.{fault_of};
ghost use Rattle.yaml_text.specs.Token.{token_of};
ghost use Rattle.yaml_scan.specs.Parser.{Parser};
ghost use Rattle.yaml_scan.specs.inside.Kept.{IsKept};
ghost use Rattle.yaml_c.specs.Ahead.{Ahead, IsAhead, read_fault};
ghost use Rattle.yaml_c.specs.Answer.{most_key_limit, rooms};
ghost use Rattle.yaml_c.specs.Held.{Scan, IsAt, IsKeptAt, IsNext, IsPeek, Shows, opened};
ghost use Rattle.yaml_c.specs.Kinds.{Whole};
ghost use Rattle.yaml_c.specs.Next.{need, next_of};
ghost use Rattle.yaml_c.specs.Next.Next.{UNKNOWN, TOKEN, FAULT as FAULT_NEXT};
ghost use Rattle.yaml_c.specs.Record.{held, texts_of};
ghost use Rattle.yaml_c.specs.Spelled.{Spelled};
ghost use Rattle.yaml_c.specs.declared.held.ahead_t.TheVariants as read;
ghost use Rattle.yaml_c.specs.declared.record.bogzhami_token.{bogzhami_token};
ghost use Rattle.yaml_c.specs.inside.Batch.{Ends, GivesNext, Looks};
ghost use Rattle.yaml_c.specs.inside.Spelled.{spelled_of};

use crate::answer::{bogzhami_answer, counts, counts_and_fault, fault_len, put_fault_texts};
use crate::kinds::held_any_t;
use crate::numbers::encoding_number;
use crate::record::{bogzhami_token, first_text, record_of, second_text};
use crate::room::put_bytes;
use crate::sink::{texts_len, token_rooms_t};
use crate::spelled::{skipped_of, spelled_t};
use crate::status::{DONE, FAULT, NO_ROOM, OVER};
use std::alloc::{AllocError, Global};
use yaml_scan::{
    yaml_encoding_of, yaml_encoding_t, yaml_fault_t, yaml_kept_parser_t, yaml_kept_peek,
    yaml_kept_scan_to, yaml_parser_t, yaml_token_t,
};

/// What was read ahead of the tokens that were given. A token that was read ahead stays in the parser, which shows it,
/// and so does the fault, which ended the parser's session.
#[derive(Drop)]
pub enum ahead_t {
    /// Nothing.
    NONE,
    /// The fault that comes next.
    FAULT,
    /// Nothing comes: the stream end or the fault was given.
    OVER,
}

/// What is held: a parser without its input, what was read ahead, the number of the input's encoding, how many bytes
/// come before its text, unless that is in UTF-16, and the list of a text that was given, whose room is used again.
#[derive(Drop)]
pub struct held_t {
    pub parser: yaml_kept_parser_t,
    pub ahead: ahead_t,
    pub encoding: u32,
    pub skipped: Option<u64>,
    pub spare: Vec<u8>,
}

/// How many bytes the texts of a token have.
pub(crate) fn text_len(token: &yaml_token_t) -> u64
    ensures { result ≡ held (length (texts_of (token_of token.now))) }
{
    texts_len(&token.token_data)
}

/// The fault, if it is known that it comes next.
fn fault_ahead<'a>(parser: &'a yaml_kept_parser_t, ahead: &ahead_t) -> Option<&'a yaml_fault_t>
    ensures { (p : Parser) (a : Ahead) → IsKept p parser.now → IsAhead ahead.now p.session.fault a
        → option_map (λ f. fault_of f.now) result ≡ read_fault a }
{
    match ahead {
        ahead_t::FAULT => parser.fault(),
        _ => None,
    }
}

/// How many bytes of texts what comes next has, as far as it is known.
fn need(parser: &yaml_kept_parser_t, ahead: &ahead_t) -> u64
    ensures { (p : Parser) (a : Ahead) → IsKept p parser.now → IsAhead ahead.now p.session.fault a
        → result ≡ held (need (next_of p a)) }
{
    match ahead {
        ahead_t::NONE => match parser.peeked() {
            Some(token) => text_len(token),
            None => 0,
        },
        ahead_t::FAULT => match parser.fault() {
            Some(fault) => fault_len(*fault),
            None => 0,
        },
        ahead_t::OVER => 0,
    }
}

/// Gives the next tokens, whole ones, until a room is full, or the stream end was given, or the fault comes next. If it
/// comes next already, none are given.
#[inline(always)]
fn give(parser: &mut yaml_kept_parser_t, ahead: &mut ahead_t, rooms: &mut token_rooms_t)
    requires at { (s : Scan) × (s.input ≡ rooms.old.spelled.input.now)
        × IsKeptAt s parser.old ahead.old }
    requires more { ahead.old ≢ read.OVER }
    requires none { rooms.old.token_count ≡ 0 }
    requires no_text { rooms.old.text_len ≡ 0 }
    requires some { 0 < length rooms.old.tokens.now }
    ensures same_tokens { rooms.new.tokens.ghost_name ≡ rooms.old.tokens.ghost_name }
    ensures same_texts { rooms.new.texts.ghost_name ≡ rooms.old.texts.ghost_name }
    ensures same_spare { rooms.new.spare.ghost_name ≡ rooms.old.spare.ghost_name }
    ensures next { (s : Scan) → s.input ≡ rooms.old.spelled.input.now → IsKeptAt s parser.old ahead.old
        → GivesNext s rooms.old rooms.new parser.new ahead.new }
{
    if let ahead_t::NONE = ahead {
        if yaml_kept_scan_to(parser, rooms.spelled.input, rooms) {
            *ahead = ahead_t::FAULT;
        } else if parser.is_over() {
            *ahead = ahead_t::OVER;
        }
    }
}

/// Gives the fault, if it comes next and its texts find room. Puts the answer, and returns the status.
#[inline(always)]
fn end_batch(
    parser: &yaml_kept_parser_t,
    ahead: &mut ahead_t,
    rooms: &mut token_rooms_t,
    answer: &mut bogzhami_answer,
) -> u32
    ensures same_tokens { rooms.new.tokens.ghost_name ≡ rooms.old.tokens.ghost_name }
    ensures same_texts { rooms.new.texts.ghost_name ≡ rooms.old.texts.ghost_name }
    ensures same_spare { rooms.new.spare.ghost_name ≡ rooms.old.spare.ghost_name }
    ensures ends { (p : Parser) (a : Ahead) → IsKept p parser.now → IsAhead ahead.old p.session.fault a
        → Ends p rooms.old a ahead.old rooms.new ahead.new answer.new result }
{
    if let Some(fault) = fault_ahead(parser, ahead) {
        if rooms.has_text_room(fault_len(*fault)) {
            rooms.put_fault(*fault);
            *answer = counts_and_fault(rooms.token_count, rooms.text_len, *fault);
            *ahead = ahead_t::OVER;
            return FAULT;
        }
    }
    if rooms.token_count == 0 {
        *answer = counts(0, need(parser, ahead));
        return NO_ROOM;
    }
    *answer = counts(rooms.token_count, rooms.text_len);
    DONE
}

/// Gives the next tokens, whole ones, and perhaps the fault after them. Puts the answer, and returns the status.
pub(crate) fn next_batch(
    held: &mut held_t,
    input: &[u8],
    tokens: &mut [bogzhami_token],
    texts: &mut [u8],
    answer: &mut bogzhami_answer,
) -> u32
    requires { (s : Scan) × (s.input ≡ input.now) × IsAt s held.old }
    ensures { (s : Scan) → s.input ≡ input.now → IsAt s held.old
        → IsNext s (rooms tokens.old texts.old) (rooms tokens.new texts.new) held.new answer.new result }
{
    if let ahead_t::OVER = held.ahead {
        *answer = counts(0, 0);
        return OVER;
    }
    if tokens.len() == 0 {
        *answer = counts(0, 0);
        return DONE;
    }
    let mut rooms = token_rooms_t {
        tokens,
        texts,
        spelled: spelled_t {
            input,
            skipped: held.skipped,
        },
        token_count: 0,
        text_len: 0,
        spare: &mut held.spare,
    };
    give(&mut held.parser, &mut held.ahead, &mut rooms);
    end_batch(&held.parser, &mut held.ahead, &mut rooms, answer)
}

/// A scanner of an input, with a key limit in bytes.
///
/// # Errors
/// `AllocError` if memory was refused.
pub(crate) fn open(
    alloc: Global,
    input: &[u8],
    setting: yaml_encoding_t,
    limit: u32,
) -> Result<Box<held_any_t>, AllocError>
    requires least { 1 ≤ limit }
    requires most { limit ≤ most_key_limit }
    ensures { IfOk result (λ held. Whole held.value (IsAt (opened input.now setting limit))) }
{
    let encoding = encoding_number(yaml_encoding_of(setting, input));
    let parser = yaml_parser_t::with_key_limit(alloc, input, setting, limit);
    let held = held_any_t::WHOLE(held_t {
        parser: yaml_kept_parser_t::new(parser),
        ahead: ahead_t::NONE,
        encoding,
        skipped: skipped_of(setting, input),
        spare: Vec::new(alloc),
    });
    match Box::new(alloc, held) {
        Ok(held) => Ok(held),
        Err(_) => Err(AllocError),
    }
}

/// Reads on to what comes next, if that is not known yet.
fn look(parser: &mut yaml_kept_parser_t, ahead: &mut ahead_t, input: &[u8])
    requires { (s : Scan) × (s.input ≡ input.now) × IsKeptAt s parser.old ahead.old }
    ensures { (s : Scan) → s.input ≡ input.now → IsKeptAt s parser.old ahead.old → Looks s parser.new ahead.new }
{
    if let ahead_t::NONE = ahead {
        if yaml_kept_peek(parser, input) {
            *ahead = ahead_t::FAULT;
        }
    }
}

/// Shows a token, if its texts find room. Puts the answer, and returns the status.
fn show_token(
    spelled: spelled_t,
    shown: &yaml_token_t,
    token: &mut bogzhami_token,
    texts: &mut [u8],
    answer: &mut bogzhami_answer,
) -> u32
    ensures { Shows (spelled_of spelled.entry) (TOKEN (token_of shown.now))
        token.old texts.old token.new texts.new answer.new result }
{
    let need = text_len(shown);
    if need > texts.len() as u64 {
        *answer = counts(0, need);
        return NO_ROOM;
    }
    let first = first_text(&shown.token_data);
    *token = record_of(spelled, 0, shown);
    put_bytes(texts, 0, first);
    put_bytes(texts, first.len() as u64, second_text(&shown.token_data));
    *answer = counts(1, need);
    DONE
}

/// Shows a fault, if its texts find room. Puts the answer, and returns the status.
fn show_fault(fault: yaml_fault_t, texts: &mut [u8], answer: &mut bogzhami_answer) -> u32
    ensures { (spelled : Spelled) (token : bogzhami_token) → Shows spelled (FAULT_NEXT (fault_of fault))
        token texts.old token texts.new answer.new result }
{
    let need = fault_len(fault);
    if need > texts.len() as u64 {
        *answer = counts(0, need);
        return NO_ROOM;
    }
    put_fault_texts(texts, 0, fault);
    *answer = counts_and_fault(0, 0, fault);
    FAULT
}

/// Shows what comes next, if its texts find room. Puts the answer, and returns the status.
fn show(
    spelled: spelled_t,
    parser: &yaml_kept_parser_t,
    ahead: &ahead_t,
    token: &mut bogzhami_token,
    texts: &mut [u8],
    answer: &mut bogzhami_answer,
) -> u32
    requires { (p : Parser) × (a : Ahead) × IsKept p parser.now × IsAhead ahead.now p.session.fault a
        × (next_of p a ≢ UNKNOWN) }
    ensures { (p : Parser) (a : Ahead) → IsKept p parser.now → IsAhead ahead.now p.session.fault a
        → Shows (spelled_of spelled.entry) (next_of p a) token.old texts.old token.new texts.new answer.new result }
{
    match ahead {
        ahead_t::NONE => match parser.peeked() {
            Some(shown) => show_token(spelled, shown, token, texts, answer),
            None => unreachable!(),
        },
        ahead_t::FAULT => match parser.fault() {
            Some(fault) => show_fault(*fault, texts, answer),
            None => unreachable!(),
        },
        ahead_t::OVER => {
            *answer = counts(0, 0);
            OVER
        }
    }
}

/// Shows the token that the next batch begins with, or the fault that comes next. Nothing is taken. Puts the answer,
/// and returns the status.
pub(crate) fn peek(
    held: &mut held_t,
    input: &[u8],
    token: &mut bogzhami_token,
    texts: &mut [u8],
    answer: &mut bogzhami_answer,
) -> u32
    requires { (s : Scan) × (s.input ≡ input.now) × IsAt s held.old }
    ensures { (s : Scan) → s.input ≡ input.now → IsAt s held.old
        → IsPeek s token.old texts.old token.new texts.new held.new answer.new result }
{
    look(&mut held.parser, &mut held.ahead, input);
    let spelled = spelled_t {
        input,
        skipped: held.skipped,
    };
    show(spelled, &held.parser, &held.ahead, token, texts, answer)
}
