//! Tokens that are given to a sink, and what the session shows after each call.
//!
//! The sink writes each token at once and keeps none. So nothing here takes memory after the input is read, but the
//! calls.
ghost use Rattle.std.specs.Prelude.{◌≡◌, ◌≤◌, length, nat_eq, take};
ghost use Rattle.yaml_scan.specs.Fed.{Fed};
ghost use Rattle.yaml_scan.specs.inside.Feeding.{IsFed};

use crate::pieces::feed_t;
use crate::session::{
    MOST_KEY_LIMIT, put_fault, put_lent, put_state, put_token, start_t, wrong_words,
};
use crate::words::word_at;
use std::alloc::{AllocError, Global};
use std::io;
use std::io::Write;
use yaml_scan::{
    unnamed_yaml_token_t_data, yaml_fault_t, yaml_fed_t, yaml_lent_scalar_t, yaml_parser_t,
    yaml_scan_next_to, yaml_scan_to, yaml_token_sink_t, yaml_token_t,
};

/// How many calls are made after the one that returns the stream end or a fault.
const CALLS_PAST_THE_END: u32 = 2;

/// How many more tokens a sink has room for, and how many more bytes of their texts.
#[derive(Clone, Copy)]
struct room_t {
    tokens: u128,
    texts: u128,
}

/// How much the room of a word is. `-`, or no word, stands for more than there can be.
fn amount_of(word: &str) -> Option<u128> {
    match word {
        "" | "-" => Some(u128::MAX),
        _ => match word.parse::<u64>() {
            Ok(amount) => Some(u128::from(amount)),
            Err(_) => None,
        },
    }
}

/// The room of two words: how many tokens, and how many bytes.
fn room_of(words: &[String]) -> Option<room_t> {
    match (amount_of(word_at(words, 0)), amount_of(word_at(words, 1))) {
        (Some(tokens), Some(texts)) => Some(room_t { tokens, texts }),
        _ => None,
    }
}

/// How many bytes the texts of a token have.
fn texts_len(data: &unnamed_yaml_token_t_data) -> u128 {
    match data {
        unnamed_yaml_token_t_data::SCALAR { value, style: _ } => value.len() as u128,
        unnamed_yaml_token_t_data::ANCHOR { value } => value.len() as u128,
        unnamed_yaml_token_t_data::ALIAS { value } => value.len() as u128,
        unnamed_yaml_token_t_data::TAG { handle, suffix } => {
            handle.len() as u128 + suffix.len() as u128
        }
        unnamed_yaml_token_t_data::TAG_DIRECTIVE { handle, prefix } => {
            handle.len() as u128 + prefix.len() as u128
        }
        _ => 0,
    }
}

/// What is left of a room after a token whose texts have so many bytes.
fn room_after(room: room_t, texts: u128) -> room_t {
    room_t {
        tokens: room.tokens.saturating_sub(1),
        texts: room.texts.saturating_sub(texts),
    }
}

/// Writes the tokens that it is given.
#[derive(Drop)]
struct lister_t<'a, W> {
    out: &'a mut W,
    /// The room that is left.
    left: room_t,
    /// The first error of a write, if one failed. Nothing is written after it.
    written: io::Result<()>,
}

/// Writes the line of a token that was given to a sink.
fn put_given(out: &mut impl Write, token: &yaml_token_t) -> io::Result<()> {
    write!(out, "GIVEN ")?;
    put_token(out, token)
}

/// Writes the line of a scalar that was lent to a sink, which is that of its token.
fn put_given_scalar(out: &mut impl Write, scalar: &yaml_lent_scalar_t) -> io::Result<()> {
    write!(out, "GIVEN ")?;
    put_lent(out, scalar)
}

impl<W: Write> yaml_token_sink_t for lister_t<'_, W> {
    ghost took = { λ _ _ _. Unit {0} };

    ghost may_refuse = { ⊥ };

    ghost within = { λ _. Unit {0} };

    ghost lacks = { λ s count texts. Unit {0} };

    fn put(&mut self, token: yaml_token_t) -> Result<(), AllocError> {
        self.left = room_after(self.left, texts_len(&token.token_data));
        if self.written.is_ok() {
            self.written = put_given(self.out, &token);
        }
        Ok(())
    }

    fn put_scalar(&mut self, scalar: &yaml_lent_scalar_t) -> Result<(), AllocError> {
        self.left = room_after(self.left, scalar.value.len() as u128);
        if self.written.is_ok() {
            self.written = put_given_scalar(self.out, scalar);
        }
        Ok(())
    }

    fn room(&mut self, alloc: Global) -> Vec<u8> {
        Vec::new(alloc)
    }

    fn has_room(&self, count: u128, texts: u128) -> bool {
        count <= self.left.tokens && texts <= self.left.texts
    }

    ghost took_none = { λ _. tt };

    ghost took_more = { λ _ _ _ _ _ _ _. tt };

    ghost within_none = { λ _ _ _ _. tt };
}

/// Whether it is the last token, or the empty one that comes after it.
fn is_over(token: &yaml_token_t) -> bool {
    matches!(
        token.token_data,
        unnamed_yaml_token_t_data::STREAM_END | unnamed_yaml_token_t_data::NO_TOKEN
    )
}

/// Writes what a call returned, if it is a token or a fault. Returns whether the session is over.
fn put_returned(
    out: &mut impl Write,
    returned: &Result<Option<yaml_token_t>, yaml_fault_t>,
) -> io::Result<bool> {
    match returned {
        Ok(None) => Ok(false),
        Ok(Some(token)) => {
            write!(out, "RETURNED ")?;
            put_token(out, token)?;
            Ok(is_over(token))
        }
        Err(fault) => {
            put_fault(out, fault)?;
            Ok(true)
        }
    }
}

/// Makes one call with a sink of a room. Writes the tokens that went there, and returns what the call returned.
fn give_batch(
    out: &mut impl Write,
    parser: &mut yaml_parser_t,
    room: room_t,
) -> io::Result<Result<Option<yaml_token_t>, yaml_fault_t>> {
    let mut lister = lister_t {
        out,
        left: room,
        written: Ok(()),
    };
    let returned = yaml_scan_next_to(parser, &mut lister);
    lister.written?;
    Ok(returned)
}

/// Makes one call with a sink of a room. Writes the tokens that went there, and what was returned. Returns whether the
/// session is over.
fn put_batch(out: &mut impl Write, parser: &mut yaml_parser_t, room: room_t) -> io::Result<bool> {
    let returned = give_batch(out, parser, room)?;
    put_returned(out, &returned)
}

/// Takes a batch as [`put_batch`] does, and writes the state of the session.
fn take_batch(out: &mut impl Write, parser: &mut yaml_parser_t, room: room_t) -> io::Result<bool> {
    let over = put_batch(out, parser, room)?;
    put_state(out, parser)?;
    Ok(over)
}

/// Takes batches, each with a sink of a room, until the session is over and [`CALLS_PAST_THE_END`] more calls are made.
fn take_each(out: &mut impl Write, parser: &mut yaml_parser_t, room: room_t) -> io::Result<()> {
    let mut calls_over: u32 = 0;
    'calls: for _ in 0..u64::MAX {
        if calls_over > CALLS_PAST_THE_END {
            break;
        }
        if take_batch(out, parser, room)? {
            calls_over += 1;
        }
    }
    Ok(())
}

/// Takes all tokens of a parser in batches. Each goes to a sink of the room that the words say.
///
/// # Errors
///
/// `InvalidInput` if the words are no room, and otherwise the error of the write that failed.
pub fn take_batches(
    out: &mut impl Write,
    parser: &mut yaml_parser_t,
    words: &[String],
) -> io::Result<()> {
    let room = room_of(words).ok_or(wrong_words())?;
    take_each(out, parser, room)
}

/// Gives the next tokens of an input that comes in pieces to a sink of a room, and writes them.
fn give_piece(out: &mut impl Write, feed: &mut feed_t, room: room_t) -> io::Result<yaml_fed_t>
    requires within { feed.old.came ≤ length feed.old.input.now }
    requires fed { (p : Fed) × (p.given ≡ take feed.old.came feed.old.input.now)
        × (p.whole ≡ nat_eq feed.old.came (length feed.old.input.now)) × IsFed p feed.old.fed }
    ensures within { feed.new.came ≤ length feed.new.input.now }
    ensures fed { (p : Fed) × (p.given ≡ take feed.new.came feed.new.input.now)
        × (p.whole ≡ nat_eq feed.new.came (length feed.new.input.now)) × IsFed p feed.new.fed }
{
    let mut lister = lister_t {
        out,
        left: room,
        written: Ok(()),
    };
    let why = feed.scan_to(&mut lister);
    lister.written?;
    Ok(why)
}

/// Gives all tokens of an input that comes in pieces of so many bytes, each call to a sink of a room.
fn give_in_pieces(
    out: &mut impl Write,
    feed: &mut feed_t,
    room: room_t,
    size: usize,
) -> io::Result<()>
    requires within { feed.old.came ≤ length feed.old.input.now }
    requires fed { (p : Fed) × (p.given ≡ take feed.old.came feed.old.input.now)
        × (p.whole ≡ nat_eq feed.old.came (length feed.old.input.now)) × IsFed p feed.old.fed }
{
    'calls: for _ in 0..u64::MAX {
        match give_piece(out, feed, room)? {
            yaml_fed_t::MORE | yaml_fed_t::WHOLE => feed.more(size),
            yaml_fed_t::ROOM => {}
            _ => break,
        }
    }
    Ok(())
}

/// Gives all tokens of the input to sinks by calls of `yaml_fed_scan_to`, of which the words say for how many tokens each
/// has room, and of how many bytes the pieces are. Then it writes the fault, or that there is none.
///
/// # Errors
///
/// `InvalidInput` if the words are no numbers of 1 or more, and otherwise the error of the write that failed.
pub fn give_pieces(rt: &HostRuntime, start: start_t, words: &[String]) -> io::Result<()>
    requires least { 1 ≤ start.limit }
    requires most { start.limit ≤ MOST_KEY_LIMIT }
{
    let room = room_of(&words[..words.len().min(1)]).ok_or(wrong_words())?;
    let size = word_at(words, 1).parse::<usize>().unwrap_or(0);
    if room.tokens == 0 || size == 0 {
        return Err(wrong_words());
    }
    let mut feed = feed_t::new(rt.alloc(), start);
    let mut out = rt.stdout();
    give_in_pieces(&mut out, &mut feed, room, size)?;
    put_end(&mut out, &Ok(feed.fault()))
}

/// Writes the fault that all tokens were given with, or that there is none, or that memory was refused.
fn put_end(
    out: &mut impl Write,
    given: &Result<Option<yaml_fault_t>, AllocError>,
) -> io::Result<()> {
    match given {
        Ok(Some(fault)) => put_fault(out, fault),
        Ok(None) => writeln!(out, "ENDED"),
        Err(_) => writeln!(out, "REFUSED"),
    }
}

/// Gives all tokens of the input to a sink of the room that the words say, by one `yaml_scan_to`. Then it writes the
/// fault, or that there is none, or that memory was refused.
///
/// # Errors
///
/// `InvalidInput` if the words are no room, and otherwise the error of the write that failed.
pub fn give_all(rt: &HostRuntime, start: start_t, words: &[String]) -> io::Result<()>
    requires least { 1 ≤ start.limit }
    requires most { start.limit ≤ MOST_KEY_LIMIT }
{
    let left = room_of(words).ok_or(wrong_words())?;
    let mut out = rt.stdout();
    let mut lister = lister_t {
        out: &mut out,
        left,
        written: Ok(()),
    };
    let given = yaml_scan_to(
        rt.alloc(),
        start.input,
        start.setting,
        start.limit,
        &mut lister,
    );
    lister.written?;
    put_end(&mut out, &given)
}
