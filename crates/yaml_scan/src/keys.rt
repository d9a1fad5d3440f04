//! Simple keys: the candidates for one, which a `:` may yet make a key (YAML 1.1, 10.2 Mapping Styles, simple keys).
ghost use Rattle.std.specs.Prelude.{◌≡◌, ◌+◌, ◌-◌, ◌<◌, ◌&&◌, ◌++◌, ◌∷◌, [], None, if◌then◌else◌, ◌||◌};
ghost use Rattle.std.specs.Option.{is_some};
ghost use Rattle.yaml_scan.specs.inside.Slots.{is_live, still_held, lost_held, needed, slot_after, held_step};
ghost use Rattle.yaml_scan.specs.inside.Slots.{completed_held};

use crate::kind::{is_candidate_kind, is_colon};
use yaml_lexeme::yaml_lexeme_kind_t;
use yaml_text::yaml_mark_t;

/// The key limit in bytes, if no other is set.
pub const KEY_LIMIT: u32 = 1024;

/// The greatest key limit, in bytes.
pub const MOST_KEY_LIMIT: u32 = 65536;

/// What is kept of a candidate: the number of its step, where it starts, and whether a `:` has to come.
#[derive(Clone, Copy)]
pub(crate) struct candidate_t {
    pub step: u64,
    pub start: yaml_mark_t,
    pub required: bool,
}

impl candidate_t {
    /// Whether a candidate is live at a mark: on its line, and at most `limit` bytes from its start.
    #[inline(always)]
    pub(crate) fn is_live(self, limit: u64, mark: yaml_mark_t) -> bool
        ensures { result ≡ is_live limit mark self }
    {
        mark.line == self.start.line && mark.index.saturating_sub(self.start.index) <= limit
    }
}

/// A candidate, unless it is stale at a mark.
#[inline(always)]
pub(crate) fn still_held(
    slot: Option<candidate_t>,
    limit: u64,
    mark: yaml_mark_t,
) -> Option<candidate_t>
    ensures { result ≡ still_held limit mark slot }
{
    match slot {
        None => None,
        Some(held) => if held.is_live(limit, mark) {
            Some(held)
        } else {
            None
        },
    }
}

/// A required candidate that is stale at a mark.
#[inline(always)]
pub(crate) fn lost_at(
    slot: Option<candidate_t>,
    limit: u64,
    mark: yaml_mark_t,
) -> Option<candidate_t>
    ensures { result ≡ lost_held limit mark slot }
{
    match slot {
        None => None,
        Some(held) => if held.required && !held.is_live(limit, mark) {
            Some(held)
        } else {
            None
        },
    }
}

/// Whether a required candidate is stale at a mark. Inside a flow collection few are required, so that is asked first,
/// and outside most are live.
#[inline(always)]
pub(crate) fn is_lost(
    slot: Option<candidate_t>,
    in_flow: bool,
    limit: u64,
    mark: yaml_mark_t,
) -> bool
    ensures { result ≡ is_some (lost_held limit mark slot) }
{
    match slot {
        None => false,
        Some(held) => if in_flow {
            held.required && !held.is_live(limit, mark)
        } else {
            !held.is_live(limit, mark) && held.required
        },
    }
}

/// A required candidate that is live at a mark.
#[inline(always)]
pub(crate) fn needed_at(
    slot: Option<candidate_t>,
    limit: u64,
    mark: yaml_mark_t,
) -> Option<candidate_t>
    ensures { result ≡ needed limit mark slot }
{
    match slot {
        None => None,
        Some(held) => if held.required && held.is_live(limit, mark) {
            Some(held)
        } else {
            None
        },
    }
}

/// Changes the slot of a depth after a lexeme was read at it.
#[inline(always)]
pub(crate) fn change_slot(
    slot: &mut Option<candidate_t>,
    kind: yaml_lexeme_kind_t,
    allowed: bool,
    new: candidate_t,
)
    ensures { slot.new ≡ slot_after kind allowed new slot.old }
{
    if !is_candidate_kind(kind) {
        *slot = None;
    } else if allowed {
        *slot = Some(new);
    }
}

/// The candidate that a lexeme completes, which starts at a mark.
#[inline(always)]
pub(crate) fn completed_by(
    kind: yaml_lexeme_kind_t,
    top: Option<candidate_t>,
    limit: u64,
    start: yaml_mark_t,
) -> Option<candidate_t>
    ensures { result ≡ completed_held kind limit start top }
{
    if is_colon(kind) {
        still_held(top, limit, start)
    } else {
        None
    }
}

/// Empties a slot, which is rare. A build clears the stack of what a function makes at the function's beginning, also
/// where a rare branch alone makes it. So this branch is a function of its own.
#[inline(always)]
fn clear(slot: &mut Option<candidate_t>)
    ensures { slot.new ≡ None }
{
    *slot = None;
}

/// Gives up a candidate that is stale at a mark.
#[inline(always)]
pub(crate) fn give_up(slot: &mut Option<candidate_t>, limit: u64, mark: yaml_mark_t)
    ensures { slot.new ≡ still_held limit mark slot.old }
{
    if let Some(held) = *slot {
        if !held.is_live(limit, mark) {
            clear(slot);
        }
    }
}

/// The number of a candidate's step, or 0.
#[inline(always)]
pub(crate) fn held_step(held: Option<candidate_t>) -> u64
    ensures { result ≡ held_step held }
{
    match held {
        None => 0,
        Some(held) => held.step,
    }
}
