//! Slots: the candidate of each flow depth. The depth is how many flow collections are open (YAML 1.1, chapter 10,
//! Collection Styles).
ghost use Rattle.std.specs.Prelude.{◌≡◌, ◌+◌, ◌-◌, ◌<◌, ◌&&◌, ◌++◌, ◌∷◌, [], None, map, vec_len, false, if◌then◌else◌};
ghost use Rattle.std.specs.Prelude.{length, nat_lt, true, ◌||◌};
ghost use Rattle.yaml_scan.specs.Kind.{is_flow_start};
ghost use Rattle.std.specs.Vec.{vec_capacity};
ghost use Rattle.yaml_scan.specs.inside.Slots.{still_held, slot_after, root_of, held_step, nested_outer, nested_top};
ghost use Rattle.yaml_scan.specs.inside.Slots.{empty_slots, lowest, AreEmptyBelow, AreNested};

use crate::depth::{is_flow_end, is_flow_start, nests};
use crate::keys::{candidate_t, change_slot, give_up, held_step, still_held};
use crate::kind::is_candidate_kind;
use crate::met::met_t;
use yaml_lexeme::yaml_lexeme_kind_t;
use yaml_text::yaml_mark_t;

/// The candidate of depth 0.
#[inline(always)]
pub(crate) fn root(outer: &[Option<candidate_t>], top: Option<candidate_t>) -> Option<candidate_t>
    ensures { result ≡ root_of outer.now top }
{
    match outer.first() {
        None => top,
        Some(held) => *held,
    }
}

/// The candidate of depth 0. `in_flow`: the present depth is above 0, so that there is an outer one.
#[inline(always)]
pub(crate) fn root_at(
    outer: &[Option<candidate_t>],
    top: Option<candidate_t>,
    in_flow: bool,
) -> Option<candidate_t>
    requires { in_flow ≡ nat_lt 0 (length outer.now) }
    ensures { result ≡ root_of outer.now top }
{
    if in_flow { outer[0] } else { top }
}

/// Gives up the candidates that are stale at a mark, and counts the lowest slots that are then empty.
///
/// An inner candidate starts no earlier, so after the first live one all are live.
#[inline(always)]
fn give_up_stale(
    slots: &mut Vec<Option<candidate_t>>,
    empty: usize,
    limit: u64,
    mark: yaml_mark_t,
) -> usize
    requires empty { empty ≡ empty_slots slots.old.items }
    requires nested { AreNested slots.old.items }
    ensures slots { slots.new.items ≡ map (still_held limit mark) slots.old.items }
    ensures len { vec_len slots.new ≡ vec_len slots.old }
    ensures capacity { vec_capacity slots.new ≡ vec_capacity slots.old }
    ensures empty { result ≡ empty_slots slots.new.items }
{
    let mut empty = empty;
    while empty < slots.len() {
        if still_held(slots[empty], limit, mark).is_some() {
            return empty;
        }
        slots[empty] = None;
        empty += 1;
    }
    slots.len()
}

/// How many of the lowest slots are empty, of which the first `empty` are known to be.
fn count_empty(slots: &[Option<candidate_t>], empty: usize) -> usize
    requires { AreEmptyBelow empty slots.now }
    ensures { result ≡ empty_slots slots.now }
{
    let mut empty = empty;
    while empty < slots.len() {
        if slots[empty].is_some() {
            return empty;
        }
        empty += 1;
    }
    slots.len()
}

/// The candidate of the least depth. So many of the lowest slots below the present depth are empty.
#[inline(always)]
fn lowest(
    outer: &[Option<candidate_t>],
    empty: usize,
    top: Option<candidate_t>,
) -> Option<candidate_t>
    requires { empty ≡ empty_slots outer.now }
    ensures { result ≡ lowest (outer.now ++ top ∷ []) }
{
    match outer.get(empty) {
        Some(slot) => *slot,
        None => top,
    }
}

/// The candidates of all depths.
#[derive(Drop)]
pub(crate) struct slots_t {
    /// Those of the depths below the present one.
    pub outer: Vec<Option<candidate_t>>,
    /// How many of the lowest of these are empty: no slot below holds a candidate.
    pub not_simple_keys: usize,
    /// The candidate of the present depth.
    pub top: Option<candidate_t>,
    /// The step of the lowest candidate, or 0.
    pub awaited: u64,
}

impl slots_t {
    /// Enters a depth, for which there is room.
    #[inline(always)]
    fn enter(&mut self)
        requires { vec_len self.old.outer < vec_capacity self.old.outer }
        ensures outer { self.new.outer.items ≡ self.old.outer.items ++ self.old.top ∷ [] }
        ensures top { self.new.top ≡ None }
        ensures empty { self.new.not_simple_keys ≡ self.old.not_simple_keys }
        ensures awaited { self.new.awaited ≡ self.old.awaited }
    {
        let held = std::mem::replace(&mut self.top, None);
        self.outer.push_reserved(held);
    }

    /// Enters a depth at a flow start, for which there is room, and leaves one at a flow end.
    #[inline(always)]
    pub(crate) fn nest(&mut self, kind: yaml_lexeme_kind_t)
        requires { is_flow_start kind ≡ true → vec_len self.old.outer < vec_capacity self.old.outer }
        ensures outer { self.new.outer.items ≡ nested_outer kind self.old.outer.items self.old.top }
        ensures top { self.new.top ≡ nested_top kind self.old.outer.items self.old.top }
        ensures empty { self.new.not_simple_keys ≡ self.old.not_simple_keys }
        ensures awaited { self.new.awaited ≡ self.old.awaited }
    {
        if is_flow_start(kind) {
            self.enter();
        } else if is_flow_end(kind) {
            if let Some(held) = self.outer.last() {
                self.top = *held;
            }
            self.outer.pop();
        }
    }

    /// Moves on after the lexeme of a step: gives up what is stale at a mark, and changes the depth. There is room for
    /// the one that it enters.
    #[inline(always)]
    fn move_on(&mut self, met: met_t, limit: u64, mark: yaml_mark_t)
        requires flow { met.in_flow ≡ nat_lt 0 (vec_len self.old.outer) }
        requires empty { self.old.not_simple_keys ≡ empty_slots self.old.outer.items }
        requires nested { AreNested self.old.outer.items }
        requires room { is_flow_start met.kind ≡ true → vec_len self.old.outer < vec_capacity self.old.outer }
        ensures outer { self.new.outer.items
            ≡ nested_outer met.kind (map (still_held limit mark) self.old.outer.items)
            (still_held limit mark self.old.top) }
        ensures top { self.new.top
            ≡ nested_top met.kind (map (still_held limit mark) self.old.outer.items)
            (still_held limit mark self.old.top) }
        ensures empty { self.new.not_simple_keys ≡ empty_slots self.new.outer.items }
        ensures awaited { self.new.awaited ≡ held_step (lowest (self.new.outer.items ++ self.new.top ∷ [])) }
    {
        give_up(&mut self.top, limit, mark);
        if !met.in_flow && !is_flow_start(met.kind) {
            self.awaited = held_step(self.top);
            return;
        }
        let below = give_up_stale(&mut self.outer, self.not_simple_keys, limit, mark);
        let empty = if nests(met.kind) {
            self.nest(met.kind);
            count_empty(&self.outer, below)
        } else {
            below
        };
        self.awaited = held_step(lowest(&self.outer, empty, self.top));
        self.not_simple_keys = empty;
    }

    /// Leaves the depth behind at a flow end, where no slot holds a candidate. Nothing changes at another kind, which is no
    /// flow start.
    #[inline(always)]
    pub(crate) fn leave_at(&mut self, kind: yaml_lexeme_kind_t)
        requires start { is_flow_start kind ≡ false }
        requires none { lowest (self.old.outer.items ++ self.old.top ∷ []) ≡ None }
        requires empty { self.old.not_simple_keys ≡ empty_slots self.old.outer.items }
        requires awaited { self.old.awaited ≡ 0 }
        ensures outer { self.new.outer.items ≡ nested_outer kind self.old.outer.items None }
        ensures top { self.new.top ≡ nested_top kind self.old.outer.items None }
        ensures empty { self.new.not_simple_keys ≡ vec_len self.new.outer }
        ensures awaited { self.new.awaited ≡ 0 }
    {
        if is_flow_end(kind) {
            self.outer.pop();
            self.not_simple_keys = self.outer.len();
        }
    }

    /// Changes the candidates after the lexeme of a step, which was read to a mark. There is room for the depth that it
    /// enters. Where no slot holds a candidate, and the lexeme is none, only the depth may change.
    #[inline(always)]
    pub(crate) fn keep_candidates(&mut self, met: met_t, limit: u64, mark: yaml_mark_t)
        requires flow { met.in_flow ≡ nat_lt 0 (vec_len self.old.outer) }
        requires empty { self.old.not_simple_keys ≡ empty_slots self.old.outer.items }
        requires nested { AreNested self.old.outer.items }
        requires room { is_flow_start met.kind ≡ true → vec_len self.old.outer < vec_capacity self.old.outer }
        requires none { self.old.awaited ≡ 0 → lowest (self.old.outer.items ++ self.old.top ∷ []) ≡ None }
        ensures outer { self.new.outer.items
            ≡ nested_outer met.kind (map (still_held limit mark) self.old.outer.items)
            (still_held limit mark (slot_after met.kind met.allowed met.new self.old.top)) }
        ensures top { self.new.top
            ≡ nested_top met.kind (map (still_held limit mark) self.old.outer.items)
            (still_held limit mark (slot_after met.kind met.allowed met.new self.old.top)) }
        ensures empty { self.new.not_simple_keys ≡ empty_slots self.new.outer.items }
        ensures awaited { self.new.awaited ≡ held_step (lowest (self.new.outer.items ++ self.new.top ∷ [])) }
    {
        if self.awaited == 0 && !is_candidate_kind(met.kind) {
            self.leave_at(met.kind);
            return;
        }
        change_slot(&mut self.top, met.kind, met.allowed, met.new);
        self.move_on(met, limit, mark);
    }

    /// Leaves the candidate of the depth behind at what comes right after it, which may be a flow end, and is no flow
    /// start. If they do not wait, it was the only candidate.
    #[inline(always)]
    pub(crate) fn drop_candidate(&mut self, kind: yaml_lexeme_kind_t, waits: bool)
        requires { is_flow_start kind ≡ false }
        ensures outer { self.new.outer.items ≡ nested_outer kind self.old.outer.items None }
        ensures top { self.new.top ≡ nested_top kind self.old.outer.items None }
        ensures empty { self.new.not_simple_keys
            ≡ (if waits then self.old.not_simple_keys else vec_len self.new.outer) }
        ensures awaited { self.new.awaited ≡ (if waits then self.old.awaited else 0) }
    {
        self.top = None;
        self.nest(kind);
        if !waits {
            self.not_simple_keys = self.outer.len();
            self.awaited = 0;
        }
    }
}
