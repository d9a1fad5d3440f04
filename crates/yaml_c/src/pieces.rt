//! A scanner that is given its input in pieces, and is held between two calls.
ghost use Rattle.std.specs.Prelude.{◌≡◌, ◌≢◌, ◌≤◌, ◌↔◌, IsTrue, IfOk, None};
ghost use Rattle.yaml_text.specs.Fault.{Fault, fault_of};
ghost use Rattle.yaml_scan.specs.Fed.{Fed};
ghost use Rattle.yaml_scan.specs.declared.fed.yaml_fed_t.TheVariants as code;
ghost use Rattle.yaml_scan.specs.FedCalls.{GivesFed};
ghost use Rattle.yaml_scan.specs.inside.Feeding.{IsFed};
ghost use Rattle.yaml_c.specs.Ahead.{Ahead, IsAhead};
ghost use Rattle.yaml_c.specs.Ahead.Ahead.{READ_FAULT};
ghost use Rattle.yaml_c.specs.Answer.{answer_with, most_key_limit, rooms};
ghost use Rattle.yaml_c.specs.Kinds.{Pieces};
ghost use Rattle.yaml_c.specs.Next.{Next};
ghost use Rattle.yaml_c.specs.Next as needs;
ghost use Rattle.yaml_c.specs.PiecesHeld.{GivesPiece, IsAtPieces, IsKeptPieces, IsWindow, PiecesScan, new_pieces};
ghost use Rattle.yaml_c.specs.Record.{held};
ghost use Rattle.yaml_c.specs.declared.held.ahead_t.TheVariants as read;
ghost use Rattle.yaml_c.specs.inside.Batch.{TellsCounts};
ghost use Rattle.yaml_c.specs.inside.PieceBatch.{EndsPiece, GivesTokens, Shown, TellsEnd};

use crate::answer::{bogzhami_answer, counts, counts_and_fault, fault_len};
use crate::held::{ahead_t, text_len};
use crate::kinds::held_any_t;
use crate::record::bogzhami_token;
use crate::sink::token_rooms_t;
use crate::spelled::spelled_t;
use crate::status::{DONE, FAULT, MORE, NO_ROOM, OVER, WHOLE};
use std::alloc::{AllocError, Global};
use yaml_scan::{
    yaml_encoding_t, yaml_fault_t, yaml_fed_parser_t, yaml_fed_scan_to, yaml_fed_t,
    yaml_lent_scalar_t, yaml_token_sink_t, yaml_token_t,
};

/// What is held: a parser without its input, what was read ahead, how many bytes had come by the last call and whether
/// these were all, and the list of a text that was given, whose room is used again.
#[derive(Drop)]
pub struct held_pieces_t {
    pub parser: yaml_fed_parser_t,
    pub ahead: ahead_t,
    pub came: u64,
    pub whole: bool,
    pub spare: Vec<u8>,
}

/// A scanner to which nothing came, with a key limit in bytes.
///
/// # Errors
/// `AllocError` if memory was refused.
pub(crate) fn open_pieces(
    alloc: Global,
    setting: yaml_encoding_t,
    limit: u32,
) -> Result<Box<held_any_t>, AllocError>
    requires least { 1 ≤ limit }
    requires most { limit ≤ most_key_limit }
    ensures { IfOk result (λ held. Pieces held.value (IsAtPieces (new_pieces setting limit))) }
{
    let held = held_any_t::PIECES(held_pieces_t {
        parser: yaml_fed_parser_t::new(alloc, setting, limit),
        ahead: ahead_t::NONE,
        came: 0,
        whole: false,
        spare: Vec::new(alloc),
    });
    match Box::new(alloc, held) {
        Ok(held) => Ok(held),
        Err(_) => Err(AllocError),
    }
}

/// Whether a window may be given: it begins with the input, and has no fewer bytes than at the last call, or, if those
/// were all, the same.
pub(crate) fn is_window(held: &held_pieces_t, from: u64, len: u64, last: bool) -> bool
    ensures { IsTrue result ↔ IsWindow held.now from len last }
{
    if held.whole && !(last && len == held.came) {
        return false;
    }
    from == 0 && held.came <= len
}

/// A sink that is another type than the one behind it. What gives tokens to a sink is code of its own for each type of
/// sinks. So the code that a call for a whole input has is called in one place, and inlined there.
#[derive(Drop)]
struct apart_t<'a, S> {
    sink: &'a mut S,
}

impl<S: yaml_token_sink_t> yaml_token_sink_t for apart_t<'_, S> {
    ghost use Rattle.std.specs.Prelude.{◌≡◌};
    ghost use Rattle.yaml_c.specs.inside.MorePut.{same_name, same_names};

    ghost took = { λ a tokens b. (b.sink.ghost_name ≡ a.sink.ghost_name) × S.took a.sink.now tokens b.sink.now };

    ghost may_refuse = { S.may_refuse };

    ghost within = { λ s. S.within s.sink.now };

    ghost lacks = { λ s count texts. S.lacks s.sink.now count texts };

    #[inline(always)]
    fn put(&mut self, token: yaml_token_t) -> Result<(), AllocError> {
        self.sink.put(token)
    }

    #[inline(always)]
    fn put_scalar(&mut self, scalar: &yaml_lent_scalar_t) -> Result<(), AllocError> {
        self.sink.put_scalar(scalar)
    }

    #[inline(always)]
    fn room(&mut self, alloc: Global) -> Vec<u8> {
        self.sink.room(alloc)
    }

    #[inline(always)]
    fn has_room(&self, count: u128, texts: u128) -> bool {
        self.sink.has_room(count, texts)
    }

    ghost took_none = { λ s. (same_name s.sink.ghost_name, S.took_none s.sink.now) };

    ghost took_more = { λ a b c xs ys e f. (
      same_names a.sink.ghost_name b.sink.ghost_name c.sink.ghost_name e.0 f.0,
      S.took_more a.sink.now b.sink.now c.sink.now xs ys e.1 f.1,
    ) };

    ghost within_none = { λ a b e w. S.within_none a.sink.now b.sink.now e.1 w };
}

/// Gives the next tokens of what came to a sink. Returns why no more are given.
fn scan_to<S: yaml_token_sink_t>(
    parser: &mut yaml_fed_parser_t,
    window: &[u8],
    last: bool,
    sink: &mut S,
) -> yaml_fed_t
    requires at { (p : Fed) × (p.given ≡ window.now) × (p.whole ≡ last) × IsFed p parser.old }
    requires takes { S.may_refuse → ⊥ }
    ensures gives { (p : Fed) → p.given ≡ window.now → p.whole ≡ last → IsFed p parser.old
        → GivesFed p parser.new result (λ tokens. S.took sink.old tokens sink.new) (S.lacks sink.new) }
    ensures within { S.within sink.old → S.within sink.new }
{
    let mut apart = apart_t { sink };
    yaml_fed_scan_to(parser, window, last, &mut apart)
}

/// Gives the next tokens, whole ones, until a room is full or more has to come, or up to the end or the fault. If the
/// fault comes next already, none are given. Returns why no more are given.
fn give(
    parser: &mut yaml_fed_parser_t,
    ahead: &mut ahead_t,
    window: &[u8],
    last: bool,
    rooms: &mut token_rooms_t,
) -> yaml_fed_t
    requires at { (s : PiecesScan) × (s.fed.given ≡ window.now) × (s.fed.whole ≡ last)
        × IsKeptPieces s parser.old ahead.old }
    requires more { ahead.old ≢ read.OVER }
    requires none { rooms.old.token_count ≡ 0 }
    requires no_text { rooms.old.text_len ≡ 0 }
    ensures same_tokens { rooms.new.tokens.ghost_name ≡ rooms.old.tokens.ghost_name }
    ensures same_texts { rooms.new.texts.ghost_name ≡ rooms.old.texts.ghost_name }
    ensures same_spare { rooms.new.spare.ghost_name ≡ rooms.old.spare.ghost_name }
    ensures gives { (s : PiecesScan) → s.fed.given ≡ window.now → s.fed.whole ≡ last
        → IsKeptPieces s parser.old ahead.old → GivesTokens s rooms.old rooms.new parser.new ahead.new result }
{
    if let ahead_t::FAULT = ahead {
        return yaml_fed_t::FAULT;
    }
    let why = scan_to(parser, window, last, rooms);
    match why {
        yaml_fed_t::FAULT => *ahead = ahead_t::FAULT,
        yaml_fed_t::OVER => *ahead = ahead_t::OVER,
        _ => {}
    }
    why
}

/// Puts the counts, and returns the status that is given.
fn tell(rooms: &token_rooms_t, status: u32, answer: &mut bogzhami_answer) -> u32
    ensures answer { answer.new ≡ answer_with rooms.now.token_count rooms.now.text_len None }
    ensures status { result ≡ status }
{
    *answer = counts(rooms.token_count, rooms.text_len);
    status
}

/// Puts the answer of a call whose rooms are full: the counts, or how much room is needed if no token found room.
/// Returns the status.
fn end_full(rooms: &token_rooms_t, need: u64, answer: &mut bogzhami_answer) -> u32
    ensures { (next : Next) → need ≡ held (needs.need next) → TellsCounts rooms.now next answer.new result }
{
    if rooms.token_count > 0 {
        tell(rooms, DONE, answer)
    } else {
        *answer = counts(0, need);
        NO_ROOM
    }
}

/// Gives the fault, if its texts find room. Puts the answer, and returns the status.
fn end_by_fault(
    fault: yaml_fault_t,
    ahead: &mut ahead_t,
    rooms: &mut token_rooms_t,
    answer: &mut bogzhami_answer,
) -> u32
    ensures same_tokens { rooms.new.tokens.ghost_name ≡ rooms.old.tokens.ghost_name }
    ensures same_texts { rooms.new.texts.ghost_name ≡ rooms.old.texts.ghost_name }
    ensures same_spare { rooms.new.spare.ghost_name ≡ rooms.old.spare.ghost_name }
    ensures ends { (p : Fed) → EndsPiece p (READ_FAULT (fault_of fault)) code.FAULT
        rooms.old ahead.old rooms.new ahead.new answer.new result }
{
    let need = fault_len(fault);
    if rooms.has_text_room(need) {
        rooms.put_fault(fault);
        *answer = counts_and_fault(rooms.token_count, rooms.text_len, fault);
        *ahead = ahead_t::OVER;
        return FAULT;
    }
    end_full(rooms, need, answer)
}

/// How many bytes the texts of the token have that a parser shows, if it shows one.
fn shown_len(parser: &yaml_fed_parser_t) -> u64
    ensures { (p : Fed) → IsFed p parser.now → (next : Next) × Shown p next × (result ≡ held (needs.need next)) }
{
    match parser.peeked() {
        Some(token) => text_len(token),
        None => 0,
    }
}

/// Puts the answer of a call after which nothing comes, and returns the status.
fn end_over(rooms: &token_rooms_t, answer: &mut bogzhami_answer) -> u32
    ensures { (p : Fed) (a : Ahead) → TellsEnd p a rooms.now answer.new result code.OVER }
{
    if rooms.token_count > 0 {
        tell(rooms, DONE, answer)
    } else {
        *answer = counts(0, 0);
        OVER
    }
}

/// Ends a call that gave the tokens that found room, by why it gave no more. Puts the answer, and returns the status.
fn end_piece(
    parser: &yaml_fed_parser_t,
    ahead: &mut ahead_t,
    why: yaml_fed_t,
    rooms: &mut token_rooms_t,
    answer: &mut bogzhami_answer,
) -> u32
    requires { (p : Fed) × (a : Ahead) × IsFed p parser.now × IsAhead ahead.old p.session.fault a
        × (why ≡ code.FAULT → (f : Fault) × (a ≡ READ_FAULT f)) }
    ensures same_tokens { rooms.new.tokens.ghost_name ≡ rooms.old.tokens.ghost_name }
    ensures same_texts { rooms.new.texts.ghost_name ≡ rooms.old.texts.ghost_name }
    ensures same_spare { rooms.new.spare.ghost_name ≡ rooms.old.spare.ghost_name }
    ensures ends { (p : Fed) (a : Ahead) → IsFed p parser.now → IsAhead ahead.old p.session.fault a
        → (why ≡ code.FAULT → (f : Fault) × (a ≡ READ_FAULT f))
        → EndsPiece p a why rooms.old ahead.old rooms.new ahead.new answer.new result }
{
    match why {
        yaml_fed_t::ROOM => end_full(rooms, shown_len(parser), answer),
        yaml_fed_t::OVER => end_over(rooms, answer),
        yaml_fed_t::FAULT => match parser.fault() {
            Some(fault) => end_by_fault(*fault, ahead, rooms, answer),
            None => unreachable!(),
        },
        yaml_fed_t::MORE => tell(rooms, MORE, answer),
        yaml_fed_t::WHOLE => tell(rooms, WHOLE, answer),
    }
}

/// Gives the next tokens, whole ones, and perhaps the fault after them. Puts the answer, and returns the status.
pub(crate) fn next_piece(
    held: &mut held_pieces_t,
    window: &[u8],
    last: bool,
    tokens: &mut [bogzhami_token],
    texts: &mut [u8],
    answer: &mut bogzhami_answer,
) -> u32
    requires { (s : PiecesScan) × (s.fed.given ≡ window.now) × (s.fed.whole ≡ last) × IsAtPieces s held.old }
    ensures { (s : PiecesScan) → s.fed.given ≡ window.now → s.fed.whole ≡ last → IsAtPieces s held.old
        → GivesPiece s (rooms tokens.old texts.old) (rooms tokens.new texts.new) held.new answer.new result }
{
    held.came = window.len() as u64;
    held.whole = last;
    if let ahead_t::OVER = held.ahead {
        *answer = counts(0, 0);
        return OVER;
    }
    if tokens.len() == 0 {
        *answer = counts(0, 0);
        return DONE;
    }
    let mut rooms = token_rooms_t {
        tokens,
        texts,
        spelled: spelled_t {
            input: b"",
            skipped: None,
        },
        token_count: 0,
        text_len: 0,
        spare: &mut held.spare,
    };
    let why = give(&mut held.parser, &mut held.ahead, window, last, &mut rooms);
    end_piece(&held.parser, &mut held.ahead, why, &mut rooms, answer)
}
