//! What comes right after a lexeme, and decides whether that is a key, or has to wait with it: two steps that are made
//! at once, if the next token needs both. It also tells whether the next token waits for a candidate.
ghost use Rattle.std.specs.Prelude.{ℕ, Bool, ◌≡◌, ◌<◌, ◌≤◌, ◌++◌, ◌∷◌, ◌&&◌, [], List, None, true, false, not, length};
ghost use Rattle.std.specs.Prelude.{reverse, filter, map, if◌then◌else◌, vec_len, ◌+◌, ◌^◌, Some, nat_eq, slice_get};
ghost use Rattle.std.specs.Prelude.{IfSome, ◌||◌};
ghost use Rattle.std.specs.Vec.{vec_capacity};
ghost use Rattle.std.specs.VecDeque.{deque_capacity};
ghost use Rattle.yaml_text.specs.Text.{Text};
ghost use Rattle.yaml_text.specs.declared.token.yaml_token_t.{yaml_token_t as code_token_t};
ghost use Rattle.yaml_text.specs.declared.types.yaml_mark_t.{yaml_mark_t};
ghost use Rattle.yaml_text.specs.Token.{TokenData};
ghost use Rattle.yaml_lexeme.specs.LexemeOf.{lexeme_of};
ghost use Rattle.yaml_lexeme.specs.Lexeme.{Lexeme};
ghost use Rattle.yaml_lexeme.specs.Counted.{IsMarkOf};
ghost use Rattle.yaml_scan.specs.Laid.{Laid};
ghost use Rattle.yaml_scan.specs.Falling.{IsFalling};
ghost use Rattle.yaml_scan.specs.declared.groups.block_t.TheVariants.{MAPPING, NONE};
ghost use Rattle.yaml_scan.specs.inside.Handed.{IsTokenOf, group_with, lone, read_to};
ghost use Rattle.yaml_scan.specs.inside.Opened.{is_new};
ghost use Rattle.yaml_scan.specs.inside.Queue.{closing, ends_at, begins_with_end, pending};
ghost use Rattle.yaml_scan.specs.Groups.Token.{BlockEnd};
ghost use Rattle.yaml_scan.specs.Kind.{is_flow_start, is_stream_end, is_candidate_kind, is_value};
ghost use Rattle.yaml_scan.specs.Levels.{stays};
ghost use Rattle.yaml_scan.specs.inside.Scanner.{scanner_of};
ghost use Rattle.yaml_scan.specs.inside.Scanning.{CanLayAll, IsUndecided, LaysTwo, groups_in, Waits, IsFollower};
ghost use Rattle.yaml_scan.specs.inside.Scanning.{IsFollowed};
ghost use Rattle.yaml_scan.specs.inside.Slots.{Held, is_live};

use crate::allowed::is_allowed_after;
use crate::decider::{decider_at, decider_t};
use crate::depth::is_flow_start;
use crate::groups::block_t;
use crate::kind::{is_candidate_kind, is_colon};
use crate::levels::{close_levels, closing, is_new_level, open_level};
use crate::met::met_t;
use crate::queue::queue_t;
use crate::read::read_t;
use crate::slots::slots_t;
use crate::state::state_t;
use yaml_lexeme::yaml_lexeme_kind_t;
use yaml_text::{yaml_mark_t, yaml_text_t};

/// Whether the queue is empty, and has room for two groups.
#[inline(always)]
pub(crate) fn has_room_for_two(queue: &queue_t) -> bool
    ensures empty { result ≡ true → queue.now.groups.items ≡ [] }
    ensures room { result ≡ true → 1 < deque_capacity queue.now.groups }
{
    queue.groups.is_empty() && queue.groups.capacity() > 1
}

/// Whether a lexeme that starts at a mark closes no level.
#[inline(always)]
fn keeps_levels(levels: &[u64], in_flow: bool, kind: yaml_lexeme_kind_t, start: yaml_mark_t) -> bool
    ensures { result ≡ true → closing in_flow kind start (reverse levels.now) ≡ None }
{
    closing(levels, in_flow, kind, start).is_none()
}

/// Whether the next token needs what comes after the lexeme of a step, which was read up to a mark: it is a candidate
/// and no other token is before it. If `sparing`, its step closes no level, so that its token comes next. There is room
/// for both.
#[inline(always)]
pub(crate) fn is_undecided(state: &state_t, sparing: bool, read: read_t) -> bool
    ensures { (text : Text) → result ≡ true → IsUndecided (scanner_of text state.now) sparing read.met read.reach }
{
    let met = read.met;
    is_candidate_kind(met.kind)
        && !is_flow_start(met.kind)
        && met.allowed
        && has_room_for_two(&state.layout.queue)
        && (!sparing || keeps_levels(&state.layout.levels, met.in_flow, met.kind, met.new.start))
        && met.new.is_live(state.limit, read.reach)
}

/// The start of a block mapping, or none.
#[inline(always)]
fn mapping_start(opens: bool) -> block_t
    ensures { result ≡ (if opens then MAPPING else NONE) }
{
    if opens {
        block_t::MAPPING
    } else {
        block_t::NONE
    }
}

/// Closes the levels that the candidate of a step does not keep. If it is a key in a column above the others, opens
/// that; outside flow there is room for it. Returns how many levels end at the candidate, and what it opens.
#[inline(always)]
pub(crate) fn lay_candidate(levels: &mut Vec<u64>, met: met_t, key: bool) -> (usize, block_t)
    requires falls { IsFalling (reverse levels.old.items) }
    requires room { met.in_flow ≡ false → vec_len levels.old < vec_capacity levels.old }
    requires last { is_stream_end met.kind ≡ false }
    ensures levels { (left : List ℕ) × (reverse left
        ≡ filter (stays met.in_flow met.kind met.new.start) (reverse levels.old.items))
        × (reverse levels.new.items ≡ (if key && is_new met.in_flow met.new.start.column (reverse left)
        then met.new.start.column ∷ [] else []) ++ reverse left)
        × (result.1 ≡ (if key && is_new met.in_flow met.new.start.column (reverse left) then MAPPING else NONE)) }
    ensures ends { ends_at result.0 met.new.start ≡ map (λ c. BlockEnd met.new.start) (filter (λ c.
        not (stays met.in_flow met.kind met.new.start c)) (reverse levels.old.items)) }
    ensures few { result.0 ≤ length levels.old.items }
{
    let start = met.new.start;
    let closed = close_levels(levels, met, start);
    let opens = key && is_new_level(levels, met.in_flow, start.column);
    open_level(levels, opens, start.column);
    (closed.ends, mapping_start(opens))
}

/// Whether the head of the queue is the token of the lowest candidate.
#[inline(always)]
pub(crate) fn is_awaited(state: &state_t) -> bool
    requires { state.now.layout.queue.done + 1 < 2 ^ 64 }
    ensures { result ≡ (nat_eq state.now.slots.awaited (state.now.layout.queue.done + 1)
        && not (begins_with_end (pending state.now.layout.queue.early state.now.layout.queue.early_mark
        state.now.layout.queue.groups.items))) }
{
    state.slots.awaited == state.layout.queue.done + 1 && !state.layout.queue.has_ends()
}

/// Whether the head of the queue is the token of the lowest candidate, and there is room for two more groups.
#[inline(always)]
fn is_awaited_with_room(state: &state_t) -> bool
    requires { state.now.layout.queue.done + 1 < 2 ^ 64 }
    ensures awaited { result ≡ true → state.now.slots.awaited ≡ state.now.layout.queue.done + 1 }
    ensures ends { result ≡ true → begins_with_end (pending state.now.layout.queue.early
        state.now.layout.queue.early_mark state.now.layout.queue.groups.items) ≡ false }
    ensures room { result ≡ true → length state.now.layout.queue.groups.items + 1
        < deque_capacity state.now.layout.queue.groups }
{
    let groups = &state.layout.queue.groups;
    groups.len() < groups.capacity().saturating_sub(1) && is_awaited(state)
}

/// Whether the slot of its depth is known after the lexeme of a step, which was read up to a mark: if a key is allowed,
/// the lexeme is the candidate, and live, and if not, there is none.
#[inline(always)]
fn has_known_slot(state: &state_t, read: read_t) -> bool
    ensures key { result ≡ true → read.met.allowed ≡ true → is_live state.now.limit read.reach read.met.new ≡ true }
    ensures none { result ≡ true → read.met.allowed ≡ false → state.now.slots.top ≡ None }
{
    if read.met.allowed {
        read.met.new.is_live(state.limit, read.reach)
    } else {
        state.slots.top.is_none()
    }
}

/// Whether the lowest candidate is one of an outer depth, and live at a mark. Then all of them are.
#[inline(always)]
pub(crate) fn is_outer_live(slots: &slots_t, limit: u64, mark: yaml_mark_t) -> bool
    ensures { result ≡ true → (h : Held) × ((slice_get slots.now.outer.items slots.now.not_simple_keys
        ≡ Some (Some h)) × (is_live limit mark h ≡ true)) }
{
    match slots.outer.get(slots.not_simple_keys) {
        None => false,
        Some(slot) => match *slot {
            None => false,
            Some(held) => held.is_live(limit, mark),
        },
    }
}

/// Whether the lexeme of a step, which was read up to a mark, is in flow and has to wait until an earlier candidate is
/// decided. There is room for it and for one group more, and the slot of its depth is known.
#[inline(always)]
pub(crate) fn waits(state: &state_t, read: read_t) -> bool
    requires { state.now.layout.queue.done + 1 < 2 ^ 64 }
    ensures { (text : Text) → result ≡ true → Waits (scanner_of text state.now) read.met read.reach }
{
    state.slots.awaited > 0
        && read.met.in_flow
        && is_candidate_kind(read.met.kind)
        && !is_flow_start(read.met.kind)
        && is_awaited_with_room(state)
        && has_known_slot(state, read)
}

/// What comes right after a lexeme.
#[derive(Drop)]
pub(crate) struct follower_t {
    pub decider: decider_t,
    /// Whether both have to wait until a candidate of an outer depth is decided. If not, the lexeme is a candidate, and
    /// this decides whether it is a key.
    pub waits: bool,
}

/// Whether the next token needs what comes right after the lexeme of a step, which was read up to a mark: `None` if it
/// may not, and else whether both have to wait until a candidate of an outer depth is decided.
#[inline(always)]
fn followed_by(state: &state_t, sparing: bool, read: read_t) -> Option<bool>
    requires { state.now.layout.queue.done + 1 < 2 ^ 64 }
    ensures { (text : Text) → IfSome result (λ w. IsFollowed (scanner_of text state.now) sparing read.met read.reach
        w) }
{
    if is_undecided(state, sparing, read) {
        Some(false)
    } else if waits(state, read) {
        Some(true)
    } else {
        None
    }
}

/// Whether what comes right after a lexeme, and was read up to a mark, is not near the reader's fault, and leaves the
/// candidates of the outer depths live, if both have to wait until one of them is decided.
#[inline(always)]
fn may_follow(state: &state_t, waits: bool, there: yaml_mark_t) -> bool
    ensures far { result ≡ true → there.index < state.now.near }
    ensures live { result ≡ true → waits ≡ true → (h : Held) × ((slice_get state.now.slots.outer.items
        state.now.slots.not_simple_keys ≡ Some (Some h)) × (is_live state.now.limit there h ≡ true)) }
{
    there.index < state.near && (!waits || is_outer_live(&state.slots, state.limit, there))
}

/// What comes right after the lexeme of a step, if the next token needs the steps of both, and both can be made at
/// once. The lexeme was met, and read up to `reach`.
#[inline(always)]
pub(crate) fn follower_of(
    text: &yaml_text_t,
    state: &state_t,
    sparing: bool,
    read: read_t,
) -> Option<follower_t>
    requires done { state.now.layout.queue.done + 1 < 2 ^ 64 }
    requires place { is_candidate_kind read.met.kind ≡ true → (p : ℕ) × IsMarkOf text.now.chars read.reach p }
    ensures { IfSome result (λ f. IsFollower (scanner_of text.now state.now) sparing read.met read.reach f.waits
        f.decider.kind (lexeme_of f.decider.lexeme)) }
{
    let waits = followed_by(state, sparing, read)?;
    let decider = decider_at(text, read.reach, read.met.in_flow)?;
    if may_follow(state, waits, decider.lexeme.reach) {
        Some(follower_t { decider, waits })
    } else {
        None
    }
}

/// Whether the lexeme of a step is a key, if a lexeme of a kind comes right after it. One that waits is no key where
/// none is allowed.
#[inline(always)]
fn is_key(met: met_t, waits: bool, kind: yaml_lexeme_kind_t) -> bool
    ensures { result ≡ ((not waits || met.allowed) && is_value kind) }
{
    (!waits || met.allowed) && is_colon(kind)
}

/// Closes the levels that the lexeme of a step does not keep, and opens one if it is a key in a column above the
/// others. If it waits, it is in flow, where no level ends and none begins. Returns how many levels end at the lexeme,
/// and what it opens.
#[inline(always)]
fn lay_levels(levels: &mut Vec<u64>, met: met_t, key: bool, waits: bool) -> (usize, block_t)
    requires falls { waits ≡ false → IsFalling (reverse levels.old.items) }
    requires room { met.in_flow ≡ false → vec_len levels.old < vec_capacity levels.old }
    requires last { waits ≡ false → is_stream_end met.kind ≡ false }
    ensures same { waits ≡ true → (levels.new ≡ levels.old) × (result.0 ≡ 0) × (result.1 ≡ NONE) }
    ensures levels { waits ≡ false → (left : List ℕ) × (reverse left
        ≡ filter (stays met.in_flow met.kind met.new.start) (reverse levels.old.items))
        × (reverse levels.new.items ≡ (if key && is_new met.in_flow met.new.start.column (reverse left)
        then met.new.start.column ∷ [] else []) ++ reverse left)
        × (result.1 ≡ (if key && is_new met.in_flow met.new.start.column (reverse left) then MAPPING else NONE)) }
    ensures ends { waits ≡ false → ends_at result.0 met.new.start ≡ map (λ c. BlockEnd met.new.start) (filter (λ c.
        not (stays met.in_flow met.kind met.new.start c)) (reverse levels.old.items)) }
    ensures few { result.0 ≤ length levels.old.items }
{
    if waits {
        (0, block_t::NONE)
    } else {
        lay_candidate(levels, met, key)
    }
}

/// Lays the lexeme of a step, which was read to a mark, and what comes right after it. Both wait, or the first is a
/// candidate, for which the second decides. If they wait, they are in flow, where no level ends and none begins.
#[inline(always)]
fn lay_both<const WAITS: bool>(
    state: &mut state_t,
    read: read_t,
    decider: &decider_t,
) -> (usize, block_t, bool)
    ghost before: { List Laid }
    requires { (text : Text) × (x : Lexeme) × ((x.reach ≡ read.reach)
        × CanLayAll before (scanner_of text state.old) read.met x)
        × ((sparing : Bool)
        × IsFollower (scanner_of text state.old) sparing read.met read.reach WAITS decider.now.kind
        (lexeme_of decider.now.lexeme)) }
    ensures laid { (text : Text) (sparing : Bool) (d : TokenData) (b e : yaml_mark_t) (passed : Bool)
        (t z : code_token_t)
        → CanLayAll before (scanner_of text state.old) read.met (read_to d b e read.reach passed)
        → IsFollower (scanner_of text state.old) sparing read.met read.reach WAITS decider.now.kind
        (lexeme_of decider.now.lexeme) → IsTokenOf t d read.met.new.start e
        → IsTokenOf z (lexeme_of decider.now.lexeme).token_data read.reach
        (lexeme_of decider.now.lexeme).end_mark
        → LaysTwo (WAITS || sparing) before (scanner_of text state.old) (scanner_of text state.new)
        (groups_in (scanner_of text state.new)
        ++ group_with result.0 result.1 result.2 t ∷ (lone z ∷ [])) }
    ensures queue { state.new.layout.queue ≡ state.old.layout.queue }
    ensures awaited { WAITS ≡ false → state.new.slots.awaited ≡ 0 }
    ensures few { result.0 ≤ length state.old.layout.levels.items }
{
    let kind = decider.kind;
    let key = is_key(read.met, WAITS, kind);
    let (ends, opens) = lay_levels(&mut state.layout.levels, read.met, key, WAITS);
    state.slots.drop_candidate(kind, WAITS);
    state.allowed = is_allowed_after(kind, read.met.in_flow, !key, false);
    state.reach = decider.lexeme.reach;
    (ends, opens, key)
}

/// Lays the lexeme of a step, which was read to a mark, and what comes right after it. Returns how many levels end at
/// the token of the lexeme, what it opens, and whether it is a key. What comes after it is a group alone.
#[inline(always)]
pub(crate) fn lay_followed(
    state: &mut state_t,
    read: read_t,
    follower: &follower_t,
) -> (usize, block_t, bool)
    ghost before: { List Laid }
    requires { (text : Text) × (x : Lexeme) × ((x.reach ≡ read.reach)
        × CanLayAll before (scanner_of text state.old) read.met x)
        × ((sparing : Bool)
        × IsFollower (scanner_of text state.old) sparing read.met read.reach follower.now.waits
        follower.now.decider.kind (lexeme_of follower.now.decider.lexeme)) }
    ensures laid { (text : Text) (sparing : Bool) (d : TokenData) (b e : yaml_mark_t) (passed : Bool)
        (t z : code_token_t)
        → CanLayAll before (scanner_of text state.old) read.met (read_to d b e read.reach passed)
        → IsFollower (scanner_of text state.old) sparing read.met read.reach follower.now.waits
        follower.now.decider.kind (lexeme_of follower.now.decider.lexeme) → IsTokenOf t d read.met.new.start e
        → IsTokenOf z (lexeme_of follower.now.decider.lexeme).token_data read.reach
        (lexeme_of follower.now.decider.lexeme).end_mark
        → LaysTwo (follower.now.waits || sparing) before (scanner_of text state.old) (scanner_of text state.new)
        (groups_in (scanner_of text state.new)
        ++ group_with result.0 result.1 result.2 t ∷ (lone z ∷ [])) }
    ensures queue { state.new.layout.queue ≡ state.old.layout.queue }
    ensures awaited { follower.now.waits ≡ false → state.new.slots.awaited ≡ 0 }
    ensures few { result.0 ≤ length state.old.layout.levels.items }
{
    // a copy for each, so that what differs is asked once
    if follower.waits {
        lay_both::<true>(state, read, &follower.decider)
    } else {
        lay_both::<false>(state, read, &follower.decider)
    }
}
