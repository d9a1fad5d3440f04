//! A caller's two rooms, as the sink of the tokens of an input.
ghost use Rattle.std.specs.Prelude.{◌≡◌, ◌++◌, length};
ghost use Rattle.yaml_text.specs.Token.{data_of};
ghost use Rattle.yaml_c.specs.Record.{first_text, held, second_text};

use crate::answer::put_fault_texts;
use crate::record::{
    bare_record, bogzhami_token, first_text, is_bare, record_of, scalar_record, second_text,
};
use crate::room::{put_bytes, put_record};
use crate::spelled::spelled_t;
use std::alloc::{AllocError, Global};
use std::mem::replace;
use yaml_scan::{
    unnamed_yaml_token_t_data, yaml_fault_t, yaml_lent_scalar_t, yaml_token_sink_t, yaml_token_t,
};

/// A room for records and a room for texts, and how much was put into each, also of what it had no room for.
#[derive(Drop)]
pub(crate) struct token_rooms_t<'a> {
    /// The room for records.
    pub(crate) tokens: &'a mut [bogzhami_token],
    /// The room for texts.
    pub(crate) texts: &'a mut [u8],
    /// The input whose tokens they are.
    pub(crate) spelled: spelled_t<'a>,
    /// How many tokens were put.
    pub(crate) token_count: u64,
    /// How many bytes their texts have.
    pub(crate) text_len: u64,
    /// The list of a text that was put, whose room is used again.
    pub(crate) spare: &'a mut Vec<u8>,
}

/// How many bytes the texts have of what a token says.
#[inline(always)]
pub(crate) fn texts_len(said: &unnamed_yaml_token_t_data) -> u64
    ensures { result ≡ held (length (first_text (data_of said.now) ++ second_text (data_of said.now))) }
{
    let first = first_text(said).len() as u64;
    first.saturating_add(second_text(said).len() as u64)
}

/// A text's room of more bytes is freed, and not kept for another text.
const MOST_SPARE: usize = 4096;

impl<'a> token_rooms_t<'a> {
    ghost use Rattle.std.specs.Prelude.{◌≡◌, ◌↔◌, ◌+◌, ◌≤◌, IsTrue, Some, length};
    ghost use Rattle.yaml_text.specs.Fault.{fault_of};
    ghost use Rattle.yaml_c.specs.Answer.{fault_texts};
    ghost use Rattle.yaml_c.specs.Room.{covered_from};
    ghost use Rattle.yaml_text.specs.Token.{token_of};
    ghost use Rattle.yaml_scan.specs.Lent.{lent_token};
    ghost use Rattle.yaml_c.specs.Record.{held};
    ghost use Rattle.yaml_c.specs.inside.Bare.{IsBare};
    ghost use Rattle.yaml_c.specs.inside.Sink.{IsBeside, IsPut};

    /// Whether so many bytes find room after the texts that were put.
    #[inline(always)]
    pub(crate) fn has_text_room(&self, len: u64) -> bool
        ensures { IsTrue result ↔ (self.now.text_len + len ≤ length self.now.texts.now) }
    {
        self.text_len.saturating_add(len) <= self.texts.len() as u64
    }

    /// Counts a token that was put, whose texts end there.
    #[inline(always)]
    fn count_token(&mut self, texts_end: u64)
        ensures tokens { self.new.tokens ≡ self.old.tokens }
        ensures texts { self.new.texts ≡ self.old.texts }
        ensures spare { self.new.spare ≡ self.old.spare }
        ensures spelled { self.new.spelled ≡ self.old.spelled }
        ensures token_count { self.new.token_count ≡ held (self.old.token_count + 1) }
        ensures text_len { self.new.text_len ≡ texts_end }
    {
        self.token_count = self.token_count.saturating_add(1);
        self.text_len = texts_end;
    }

    /// Puts the record of a token that says nothing besides its type.
    #[inline(always)]
    fn put_bare(&mut self, token: &yaml_token_t)
        requires { IsBare (token_of token.now).token_data }
        ensures { IsPut self.old (token_of token.now) self.new }
    {
        let record = bare_record(self.text_len, token);
        put_record(self.tokens, self.token_count, record);
        self.count_token(self.text_len);
    }

    /// Puts a scalar's record and its text.
    #[inline(always)]
    fn put_lent(&mut self, scalar: &yaml_lent_scalar_t)
        ensures { IsPut self.old (lent_token scalar.now) self.new }
    {
        let record = scalar_record(self.spelled, self.text_len, scalar);
        put_record(self.tokens, self.token_count, record);
        put_bytes(self.texts, self.text_len, scalar.value);
        self.count_token(self.text_len.saturating_add(scalar.value.len() as u64));
    }

    /// Puts a token's record and its texts, whatever it says. It is called and not inlined, so that a scalar does not
    /// pay for the room on the stack that this needs.
    #[inline(never)]
    fn put_any(&mut self, token: yaml_token_t)
        ensures { IsPut self.old (token_of token) self.new }
    {
        let first = first_text(&token.token_data);
        let second = second_text(&token.token_data);
        let second_at = self.text_len.saturating_add(first.len() as u64);
        put_record(
            self.tokens,
            self.token_count,
            record_of(self.spelled, self.text_len, &token),
        );
        put_bytes(self.texts, self.text_len, first);
        put_bytes(self.texts, second_at, second);
        self.count_token(second_at.saturating_add(second.len() as u64));
    }

    /// Keeps the room of a scalar's text, which was put. If it is large it is freed.
    #[inline(always)]
    fn spend(&mut self, token: yaml_token_t)
        ensures { IsBeside self.old self.new }
    {
        if let unnamed_yaml_token_t_data::SCALAR { value, style: _ } = token.token_data {
            if value.capacity() <= MOST_SPARE {
                *self.spare = value;
            }
        }
    }

    /// Puts the record of a token with a text, and its texts, and keeps the room of a scalar's text.
    #[inline(always)]
    fn put_with_text(&mut self, token: yaml_token_t)
        ensures { IsPut self.old (token_of token) self.new }
    {
        if let unnamed_yaml_token_t_data::SCALAR { value, style } = &token.token_data {
            self.put_lent(&yaml_lent_scalar_t {
                value: value.as_slice(),
                style: *style,
                start_mark: token.start_mark,
                end_mark: token.end_mark,
            });
            self.spend(token);
            return;
        }
        self.put_any(token);
    }

    /// Puts a token's record and its texts. Most tokens say nothing besides their type, or are scalars.
    #[inline(always)]
    pub(crate) fn put_token(&mut self, token: yaml_token_t)
        ensures { IsPut self.old (token_of token) self.new }
    {
        if is_bare(&token.token_data) {
            self.put_bare(&token);
            return;
        }
        self.put_with_text(token);
    }

    /// Puts the texts of a fault after those of the tokens.
    pub(crate) fn put_fault(&mut self, fault: yaml_fault_t)
        ensures tokens { self.new.tokens ≡ self.old.tokens }
        ensures same_texts { self.new.texts.ghost_name ≡ self.old.texts.ghost_name }
        ensures same_spare { self.new.spare.ghost_name ≡ self.old.spare.ghost_name }
        ensures texts { self.new.texts.now ≡ covered_from self.old.text_len
            (fault_texts (Some (fault_of fault))) self.old.texts.now }
        ensures token_count { self.new.token_count ≡ self.old.token_count }
        ensures text_len { self.new.text_len ≡ self.old.text_len }
    {
        put_fault_texts(self.texts, self.text_len, fault);
    }
}

impl yaml_token_sink_t for token_rooms_t<'_> {
    ghost use Rattle.yaml_c.specs.inside.Sink.{ArePut, IsWithin, Lacks};
    ghost use Rattle.yaml_c.specs.inside.MorePut.{more_put, none_put, within_none};

    ghost took = { ArePut };

    ghost may_refuse = { ⊥ };

    ghost within = { IsWithin };

    ghost lacks = { Lacks };

    #[inline(always)]
    fn put(&mut self, token: yaml_token_t) -> Result<(), AllocError> {
        self.put_token(token);
        Ok(())
    }

    #[inline(always)]
    fn put_scalar(&mut self, scalar: &yaml_lent_scalar_t) -> Result<(), AllocError> {
        self.put_lent(scalar);
        Ok(())
    }

    #[inline(always)]
    fn room(&mut self, alloc: Global) -> Vec<u8> {
        replace(self.spare, Vec::new(alloc))
    }

    #[inline(always)]
    fn has_room(&self, count: u128, texts: u128) -> bool {
        let records = (self.tokens.len() as u64).saturating_sub(self.token_count);
        let bytes = (self.texts.len() as u64).saturating_sub(self.text_len);
        count <= records as u128 && texts <= bytes as u128
    }

    ghost took_none = { none_put };

    ghost took_more = { more_put };

    ghost within_none = { within_none };
}
