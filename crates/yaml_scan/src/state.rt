//! The state of a running scanner, and what a step asks of it before and after it reads its lexeme. The text that it
//! scans is given beside it, also where only a contract speaks of it.
ghost use Rattle.std.specs.Prelude.{◌≡◌, ◌+◌, ◌<◌, ◌^◌, ◌&&◌, if◌then◌else◌, nat_lt, reverse, vec_len};
ghost use Rattle.std.specs.Option.{option_copied};
ghost use Rattle.yaml_text.specs.Text.{Text};
ghost use Rattle.yaml_scan.specs.Falling.{IsFalling};
ghost use Rattle.yaml_scan.specs.inside.Ready.{IsNew};
ghost use Rattle.yaml_scan.specs.inside.Scanner.{scanner_of};
ghost use Rattle.yaml_scan.specs.inside.Scanning.{IsNewHeld, cleared_in, met_in, refused_in};
ghost use Rattle.yaml_scan.specs.inside.Slots.{is_level, root_of, slot_after};

use crate::keys::{candidate_t, change_slot, completed_by, needed_at};
use crate::kind::{is_candidate_kind, is_colon, problem, start_after};
use crate::layout::layout_t;
use crate::levels::{is_level, level_at};
use crate::met::met_t;
use crate::queue::queue_t;
use crate::slots::{root_at, slots_t};
use std::alloc::Global;
use std::collections::VecDeque;
use yaml_lexeme::{yaml_context_t, yaml_lexeme_kind_t};
use yaml_text::{yaml_fault_t, yaml_mark_t};

/// The state of a running scanner.
#[derive(Drop)]
pub(crate) struct state_t {
    pub alloc: Global,
    /// The reader's fault after the text, if that is the front of a refused input. Once a step has stopped for a fault,
    /// or the session has ended with one, it is that fault.
    pub fault: Option<yaml_fault_t>,
    /// The index from which on a step is near the end of the text of a refused input. For another input it is greater
    /// than all indexes.
    pub near: u64,
    pub limit: u64,
    pub slots: slots_t,
    /// Whether a key is allowed after the last lexeme.
    pub allowed: bool,
    pub layout: layout_t,
    /// How far the last good step was read.
    pub reach: yaml_mark_t,
    /// The end of the gap after that, in a step.
    pub gap_end: yaml_mark_t,
    /// Where a lexeme stops a step.
    pub there: yaml_mark_t,
    /// How many tokens were taken.
    pub taken: u128,
    /// How many steps were made.
    pub made: u64,
}

/// The state of a scanner that has read nothing.
pub(crate) fn new_state(alloc: Global, limit: u64) -> state_t
    ensures new { (text : Text) → IsNew (scanner_of text result) }
    ensures limit { result.limit ≡ limit }
{
    let zero = yaml_mark_t {
        index: 0,
        line: 0,
        column: 0,
    };
    state_t {
        alloc,
        fault: None,
        near: 0,
        limit,
        slots: slots_t {
            outer: Vec::new(alloc),
            not_simple_keys: 0,
            top: None,
            awaited: 0,
        },
        allowed: true,
        layout: layout_t {
            levels: Vec::new(alloc),
            queue: queue_t {
                groups: VecDeque::new(alloc),
                done: 0,
                early: 0,
                early_mark: zero,
            },
        },
        reach: zero,
        gap_end: zero,
        there: zero,
        taken: 0,
        made: 0,
    }
}

impl state_t {
    /// What is wrong with a kind after the gap, if it needs an allowed key and none is allowed.
    #[inline(always)]
    pub(crate) fn refused_by(
        &self,
        in_flow: bool,
        kind: yaml_lexeme_kind_t,
        allowed: bool,
    ) -> Option<&'static str>
        ensures { (text : Text) → option_copied result ≡ refused_in (scanner_of text self.now) in_flow kind allowed }
    {
        if in_flow || allowed {
            return None;
        }
        let completed = completed_by(kind, self.slots.top, self.limit, self.gap_end);
        problem(kind, completed.is_none())
    }

    /// The required candidate that a lexeme of a kind after the gap would clear or replace.
    #[inline(always)]
    pub(crate) fn cleared_by(
        &self,
        in_flow: bool,
        kind: yaml_lexeme_kind_t,
        allowed: bool,
    ) -> Option<candidate_t>
        ensures { (text : Text) → result ≡ cleared_in (scanner_of text self.now) in_flow kind allowed }
    {
        if !is_colon(kind) && (!is_candidate_kind(kind) || allowed) && !in_flow {
            needed_at(self.slots.top, self.limit, self.gap_end)
        } else {
            None
        }
    }

    /// What a lexeme of a kind after the gap is read and laid with.
    #[inline(always)]
    pub(crate) fn met_of(&self, in_flow: bool, kind: yaml_lexeme_kind_t, allowed: bool) -> met_t
        requires flow { in_flow ≡ nat_lt 0 (vec_len self.now.slots.outer) }
        requires falls { IsFalling (reverse self.now.layout.levels.items) }
        requires line { self.now.gap_end.line + 1 < 2 ^ 64 }
        requires made { self.now.made + 1 < 2 ^ 64 }
        ensures kind { result.kind ≡ kind }
        ensures flow { result.in_flow ≡ in_flow }
        ensures allowed { result.allowed ≡ allowed }
        ensures new { (text : Text) → IsNewHeld (scanner_of text self.now)
            (met_in (scanner_of text self.now) result) result.in_flow result.context.level result.new }
        ensures depth { result.context.depth ≡ vec_len self.now.slots.outer }
    {
        let start = start_after(kind, self.gap_end);
        let level = level_at(&self.layout.levels, in_flow, kind, start);
        met_t {
            kind,
            in_flow,
            allowed,
            new: new_candidate(self.made + 1, start, in_flow, level),
            context: yaml_context_t {
                depth: depth_at(&self.slots, in_flow),
                level,
            },
        }
    }

    /// The candidate of depth 0 after the lexeme of a step.
    #[inline(always)]
    pub(crate) fn root_after(&self, met: met_t) -> Option<candidate_t>
        requires { met.in_flow ≡ nat_lt 0 (vec_len self.now.slots.outer) }
        ensures { result ≡ root_of self.now.slots.outer.items
            (slot_after met.kind met.allowed met.new self.now.slots.top) }
    {
        let mut top = self.slots.top;
        change_slot(&mut top, met.kind, met.allowed, met.new);
        root_at(&self.slots.outer, top, met.in_flow)
    }
}

/// The flow depth. `in_flow`: it is above 0. Written so, the compiler knows whether it is if it knows `in_flow`.
#[inline(always)]
pub(crate) fn depth_at(slots: &slots_t, in_flow: bool) -> u64
    requires { in_flow ≡ nat_lt 0 (vec_len slots.now.outer) }
    ensures { result ≡ vec_len slots.now.outer }
{
    if in_flow {
        slots.outer.len().max(1) as u64
    } else {
        0
    }
}

/// What is kept of a lexeme of this step that starts at a mark, if it is a candidate.
#[inline(always)]
pub(crate) fn new_candidate(
    step: u64,
    start: yaml_mark_t,
    in_flow: bool,
    level: Option<u64>,
) -> candidate_t
    ensures { result ≡ record { step = step; start = start; required = is_level in_flow level start.column } }
{
    candidate_t {
        step,
        start,
        required: is_level(in_flow, level, start.column),
    }
}
