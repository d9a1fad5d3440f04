//! The queue: of each step, in order, what it hands out that was not taken.
ghost use Rattle.std.specs.Prelude.{◌≡◌, ◌+◌, ◌-◌, ◌<◌, ◌∷◌, [], ◌&&◌, nat_eq, nat_lt, length, take, OnErr, OnOk, List, ◌^◌};
ghost use Rattle.std.specs.Prelude.{true, false};
ghost use Rattle.std.specs.VecDeque.{deque_capacity};
ghost use Rattle.yaml_text.specs.declared.types.yaml_encoding_t.{yaml_encoding_t};
ghost use Rattle.yaml_text.specs.Token.{token_of};
ghost use Rattle.yaml_scan.specs.declared.groups.lead_t.TheVariants.{NOTHING};
ghost use Rattle.yaml_scan.specs.inside.Handed.{IsPushed, lone};
ghost use Rattle.yaml_scan.specs.inside.Queue.{IsBare, IsQueue, IsLead, TakesLead, TakesNext, keyed_at, leads, pending};
ghost use Rattle.yaml_scan.specs.inside.Queue.{KeepsRest, begins_with_end, mark_next, lead_tokens};
ghost use Rattle.yaml_scan.specs.Groups.Token.{StreamStart};

use crate::groups::{block_t, group_t, lead_t, lead_token, token_at};
use std::alloc::AllocError;
use std::collections::VecDeque;
use yaml_text::{unnamed_yaml_token_t_data, yaml_encoding_t, yaml_mark_t, yaml_token_t};

/// How many groups a queue has room for at first. For a short text they are few, so that opening a parser stays cheap.
fn first_room(text_len: usize) -> usize {
    if text_len < 1024 { 8 } else { 16 }
}

/// Whether a number is 1. This is called, and not inlined, where it is hardly ever asked: so that the test before it is
/// all that is made elsewhere.
#[cold]
#[inline(never)]
fn is_one(number: usize) -> bool
    ensures { result ≡ nat_eq number 1 }
{
    number == 1
}

/// The groups of the steps that have a token that was not taken.
#[derive(Drop)]
pub(crate) struct queue_t {
    pub groups: VecDeque<group_t>,
    /// How many groups were taken.
    pub done: u64,
    /// How many block ends come before the last group: only the stream end has them.
    pub early: usize,
    /// The mark of these block ends, if there are any.
    pub early_mark: yaml_mark_t,
}

impl queue_t {
    /// Puts the first token into a queue that is empty, and makes room for some more groups. `text_len`: the length of
    /// the text, in bytes.
    pub(crate) fn put_stream_start(
        &mut self,
        encoding: yaml_encoding_t,
        text_len: usize,
    ) -> Result<(), AllocError>
        requires empty { self.old.groups.items ≡ [] }
        requires none { self.old.early ≡ 0 }
        ensures queue { OnOk result
            (IsQueue encoding self.new.early self.new.early_mark self.new.groups.items (StreamStart ∷ [])) }
        ensures long { OnOk result (length self.new.groups.items ≡ 1) }
        ensures early { self.new.early ≡ self.old.early }
        ensures done { self.new.done ≡ self.old.done }
        ensures mark { self.new.early_mark ≡ self.old.early_mark }
        ensures same { OnErr result (self.new.groups.items ≡ self.old.groups.items) }
    {
        let zero = yaml_mark_t {
            index: 0,
            line: 0,
            column: 0,
        };
        let token = token_at(unnamed_yaml_token_t_data::STREAM_START { encoding }, zero);
        self.groups.reserve(first_room(text_len))?;
        self.groups.push_back(group_t {
            ends: 0,
            opens: block_t::NONE,
            key: false,
            token,
        })?;
        Ok(())
    }

    /// Puts a group at the end, for which there is room. It is put together here, so that one that goes straight to a
    /// sink is not put together in memory.
    #[inline(always)]
    pub(crate) fn push(&mut self, group: group_t)
        requires { length self.old.groups.items < deque_capacity self.old.groups }
        ensures { IsPushed self.old group self.new }
    {
        let group_t {
            ends,
            opens,
            key,
            token,
        } = group;
        self.groups.push_back_reserved(group_t {
            ends,
            opens,
            key,
            token,
        });
    }

    /// Puts a token that is a group alone at the end, for which there is room.
    #[inline(always)]
    pub(crate) fn push_alone(&mut self, token: yaml_token_t)
        requires { length self.old.groups.items < deque_capacity self.old.groups }
        ensures { IsPushed self.old (lone token) self.new }
    {
        self.groups.push_back_reserved(group_t {
            ends: 0,
            opens: block_t::NONE,
            key: false,
            token,
        });
    }

    /// Marks the group of a candidate with a key, and with the start of a block mapping, or none.
    pub(crate) fn mark_key(&mut self, at: usize, opens: bool)
        requires { at < length self.old.groups.items }
        ensures items { self.new.groups.items ≡ keyed_at at opens self.old.groups.items }
        ensures rest { KeepsRest self.old self.new }
    {
        let group = &mut self.groups[at];
        group.key = true;
        if opens {
            group.opens = block_t::MAPPING;
        }
    }

    /// Keeps how many levels end at the end of the gap, and where that is. No group before it has early block ends.
    #[inline(always)]
    pub(crate) fn keep_early(&mut self, early: usize, early_mark: yaml_mark_t)
        requires none { self.old.early ≡ 0 }
        ensures groups { self.new.groups ≡ self.old.groups }
        ensures done { self.new.done ≡ self.old.done }
        ensures early { self.new.early ≡ early }
        ensures early_mark { 0 < early → self.new.early_mark ≡ early_mark }
    {
        if early > 0 {
            self.early = early;
            self.early_mark = early_mark;
        }
    }

    /// Whether the early block ends are next. Before the stream end there are none.
    #[inline(always)]
    pub(crate) fn is_early(&self) -> bool
        ensures { result ≡ (nat_lt 0 self.now.early && nat_eq (length self.now.groups.items) 1) }
    {
        self.early > 0 && is_one(self.groups.len())
    }

    /// Whether block ends are next.
    #[inline(always)]
    pub(crate) fn has_ends(&self) -> bool
        ensures { result ≡ begins_with_end (pending self.now.early self.now.early_mark self.now.groups.items) }
    {
        if self.is_early() {
            return true;
        }
        match self.groups.front() {
            None => false,
            Some(head) => head.ends > 0,
        }
    }

    /// Whether the head of the queue hands out its token alone.
    #[inline(always)]
    pub(crate) fn is_bare(&self) -> bool
        ensures { result ≡ true → (y : group_t) (ys : List group_t) → self.now.groups.items ≡ y ∷ ys → leads y ≡ [] }
    {
        match self.groups.front() {
            None => false,
            Some(head) => matches!(head.next_lead(), lead_t::NOTHING),
        }
    }

    /// What is handed out next, before the token of the head.
    #[inline(always)]
    fn next_lead(&self) -> lead_t
        ensures { lead_tokens result (mark_next self.now.early self.now.early_mark self.now.groups.items)
            ≡ take 1 (pending self.now.early self.now.early_mark self.now.groups.items) }
    {
        if self.is_early() {
            return lead_t::END;
        }
        match self.groups.front() {
            None => lead_t::NOTHING,
            Some(head) => head.next_lead(),
        }
    }

    /// Whether a token is handed out before that of the head.
    #[inline(always)]
    pub(crate) fn has_lead(&self) -> bool
        ensures { result ≡ nat_lt 0 (length (pending self.now.early self.now.early_mark self.now.groups.items)) }
    {
        !matches!(self.next_lead(), lead_t::NOTHING)
    }

    /// The mark of what is handed out before the token of the head.
    #[inline(always)]
    fn lead_mark(&self) -> yaml_mark_t
        ensures { result ≡ mark_next self.now.early self.now.early_mark self.now.groups.items }
    {
        if self.is_early() {
            return self.early_mark;
        }
        match self.groups.front() {
            None => self.early_mark,
            Some(head) => head.token.start_mark,
        }
    }

    /// The token that is handed out before that of the head, or an empty one if there is none.
    #[inline(always)]
    fn lead(&self) -> yaml_token_t
        ensures { (e : yaml_encoding_t) → IsLead e self.now (token_of result) }
    {
        lead_token(self.next_lead(), self.lead_mark())
    }

    /// Puts the token that is handed out before that of the head into the place of another, if there is one.
    #[inline(always)]
    pub(crate) fn show_lead(&self, shown: &mut yaml_token_t)
        ensures { (e : yaml_encoding_t) → IsLead e self.now (token_of shown.new) }
    {
        if self.has_lead() {
            *shown = self.lead();
        }
    }

    /// Takes the next of the early block ends. There is one.
    pub(crate) fn take_early(&mut self) -> yaml_token_t
        requires { (nat_lt 0 self.old.early && nat_eq (length self.old.groups.items) 1) ≡ true }
        ensures { TakesNext self.old self.new (token_of result) }
    {
        self.early -= 1;
        token_at(unnamed_yaml_token_t_data::BLOCK_END, self.early_mark)
    }

    /// Takes what is handed out before the token of the head, and returns it with its mark. The early block ends
    /// are not next.
    #[inline(always)]
    pub(crate) fn take_lead(&mut self) -> (lead_t, yaml_mark_t)
        requires some { 0 < length self.old.groups.items }
        requires late { (nat_lt 0 self.old.early && nat_eq (length self.old.groups.items) 1) ≡ false }
        ensures none { result.0 ≡ NOTHING → IsBare self.old self.new }
        ensures lead { TakesLead self.old self.new result.0 result.1 }
    {
        let head = self.groups.front_mut().unwrap();
        let mark = head.token.start_mark;
        (head.take_lead(), mark)
    }

    /// Takes the token of the head, before which none is handed out.
    #[inline(always)]
    pub(crate) fn take_bare(&mut self) -> yaml_token_t
        requires some { 0 < length self.old.groups.items }
        requires none { pending self.old.early self.old.early_mark self.old.groups.items ≡ [] }
        requires few { self.old.done + 1 < 2 ^ 64 }
        ensures { TakesNext self.old self.new (token_of result) }
    {
        self.done += 1;
        self.groups.pop_front().unwrap().token
    }

    /// Takes the next token. There is one.
    #[inline(always)]
    pub(crate) fn take_next(&mut self) -> yaml_token_t
        requires some { 0 < length self.old.groups.items }
        requires few { self.old.done + 1 < 2 ^ 64 }
        ensures { TakesNext self.old self.new (token_of result) }
    {
        if self.is_early() {
            return self.take_early();
        }
        let (lead, mark) = self.take_lead();
        match lead {
            lead_t::NOTHING => self.take_bare(),
            _ => lead_token(lead, mark),
        }
    }
}
