//! The usual steps of scalars that are lent, outside flow collections: that of a key with its `:`, in the column of the
//! greatest level, and that of a value. Nothing is queued, so that there is no candidate. Such a step leaves the levels
//! and the candidates as they are.
ghost use Rattle.std.specs.Prelude.{◌≡◌, ◌+◌, ◌<◌, ◌≤◌, ◌^◌, ◌∷◌, [], List, None, IfSome, OnOk, Option, true, false, length};
ghost use Rattle.std.specs.Prelude.{reverse, ℕ};
ghost use Rattle.std.specs.VecDeque.{deque_capacity};
ghost use Rattle.yaml_text.specs.Text.{Text};
ghost use Rattle.yaml_text.specs.Token.{TokenData, token_of};
ghost use Rattle.yaml_text.specs.declared.token.yaml_token_t.{yaml_token_t as code_token_t};
ghost use Rattle.yaml_text.specs.declared.types.yaml_mark_t.{yaml_mark_t};
ghost use Rattle.yaml_lexeme.specs.Lexeme.{Lexeme};
ghost use Rattle.yaml_lexeme.specs.LexemeOf.{lexeme_of};
ghost use Rattle.yaml_scan.specs.Kind.{Kind, is_candidate_kind, is_flow_start};
ghost use Rattle.yaml_scan.specs.Laid.{Laid};
ghost use Rattle.yaml_scan.specs.Levels.{greatest_level};
ghost use Rattle.yaml_scan.specs.Sink.{said_len, texts_len};
ghost use Rattle.yaml_scan.specs.inside.Handed.{IsReadTo, IsTokenOf, StepsTo, WasLaid, group_with, read_to, tokens_with};
ghost use Rattle.yaml_scan.specs.inside.Opened.{is_new};
ghost use Rattle.yaml_scan.specs.inside.Queue.{closing};
ghost use Rattle.yaml_scan.specs.inside.Scanner.{scanner_of};
ghost use Rattle.yaml_scan.specs.inside.Scanning.{CanLayAll, CanRead, Comes, HasRoom, IsDecided, allowed_in, groups_in};
ghost use Rattle.yaml_scan.specs.inside.Slots.{is_live};

use crate::allowed::{is_allowed_after, is_key_allowed};
use crate::decider::{decider_at, decider_t};
use crate::follower::has_room_for_two;
use crate::groups::block_t;
use crate::laid::{laid_t, token_of};
use crate::lend::{end_scalar, lent_of};
use crate::levels::top_level;
use crate::met::met_t;
use crate::read::read_t;
use crate::sink::{has_room_for_both, yaml_token_sink_t};
use crate::source::part_at;
use crate::state::{depth_at, new_candidate, state_t};
use crate::stop::stop_t;
use yaml_lexeme::{yaml_context_t, yaml_lexeme_kind_t, yaml_reader_t};
use yaml_text::{yaml_mark_t, yaml_text_t};

/// What the scalar after the gap is read and laid with, if nothing is queued and it closes no level. `level` is the
/// greatest one.
#[inline(always)]
pub(crate) fn usual_met<const IN_FLOW: bool>(
    _text: &yaml_text_t,
    state: &state_t,
    kind: yaml_lexeme_kind_t,
    level: Option<u64>,
) -> met_t
    ghost before: { List Laid }
    requires comes { Comes before (scanner_of _text.now state.now) IN_FLOW kind }
    requires candidate { is_candidate_kind kind ≡ true }
    requires alone { groups_in (scanner_of _text.now state.now) ≡ [] }
    requires room { HasRoom (scanner_of _text.now state.now) IN_FLOW kind }
    requires kept { closing IN_FLOW kind state.now.gap_end (reverse state.now.layout.levels.items) ≡ None }
    requires level { level ≡ greatest_level (reverse state.now.layout.levels.items) }
    ensures can { CanRead before (scanner_of _text.now state.now) result }
    ensures kind { result.kind ≡ kind }
    ensures flow { result.in_flow ≡ IN_FLOW }
    ensures allowed { result.allowed ≡ allowed_in (scanner_of _text.now state.now) IN_FLOW }
    ensures start { result.new.start ≡ state.now.gap_end }
{
    met_t {
        kind,
        in_flow: IN_FLOW,
        allowed: is_key_allowed(state.allowed, IN_FLOW, state.reach, state.gap_end),
        new: new_candidate(state.made + 1, state.gap_end, IN_FLOW, level),
        context: yaml_context_t {
            depth: depth_at(&state.slots, IN_FLOW),
            level,
        },
    }
}

/// Whether nothing is queued, and there is room for two groups and a level.
#[inline(always)]
fn has_usual_room(state: &state_t) -> bool
    ensures two { result ≡ true → 1 < deque_capacity state.now.layout.queue.groups }
    ensures room { (text : Text) (kind : Kind) → result ≡ true → is_flow_start kind ≡ false
        → HasRoom (scanner_of text state.now) false kind }
{
    has_room_for_two(&state.layout.queue)
        && state.layout.levels.len() < state.layout.levels.capacity()
}

/// Whether a scalar that was read up to a mark is live there, so that the `:` which comes right after it makes it a key,
/// and that is not near the reader's fault.
#[inline(always)]
fn is_usual_key(state: &state_t, met: met_t, at: yaml_mark_t, colon: &decider_t) -> bool
    ensures live { result ≡ true → is_live state.now.limit at met.new ≡ true }
    ensures far { result ≡ true → (lexeme_of colon.now.lexeme).reach.index < state.now.near }
{
    met.new.is_live(state.limit, at) && colon.lexeme.reach.index < state.near
}

/// Lays a key, which was read, and the `:` right after it. It opens no level, since its column is one.
#[inline(always)]
fn lay_key(state: &mut state_t, read: read_t, colon: decider_t) -> laid_t
    ghost before: { List Laid }
    requires can { (text : Text) × (x : Lexeme) × (IsReadTo x read.reach read.passed_break
        × CanLayAll before (scanner_of text state.old) read.met x
        × IsDecided (scanner_of text state.old) false read.met read.reach colon.kind (lexeme_of colon.lexeme)) }
    requires flow { read.met.in_flow ≡ false }
    requires kept { closing false read.met.kind read.met.new.start (reverse state.old.layout.levels.items) ≡ None }
    requires old { is_new false read.met.new.start.column (reverse state.old.layout.levels.items) ≡ false }
    ensures laid { (text : Text) (d : TokenData) (b e : yaml_mark_t) (t : code_token_t)
        → CanLayAll before (scanner_of text state.old) read.met (read_to d b e read.reach read.passed_break)
        → IsDecided (scanner_of text state.old) false read.met read.reach colon.kind (lexeme_of colon.lexeme)
        → IsTokenOf t d read.met.new.start e
        → WasLaid before (scanner_of text state.old) (scanner_of text state.new) true result t }
    ensures straight { result.waits ≡ false }
    ensures few { (t : code_token_t) → said_len (token_of t).token_data ≤ read.texts
        → (length (tokens_with (group_with result.ends result.opens result.key t) result.decider)
        ≤ length state.old.layout.levels.items + 4)
        × (texts_len (tokens_with (group_with result.ends result.opens result.key t) result.decider) ≤ read.texts) }
{
    state.allowed = false;
    state.reach = colon.lexeme.reach;
    laid_t {
        ends: 0,
        opens: block_t::NONE,
        key: true,
        waits: false,
        decider: Some(token_of(read.reach, colon.lexeme)),
    }
}

/// Makes the step of a key and its `:`, and lends the key to the sink, if it is one line of the text as it stands there,
/// and the sink has room. Else nothing is done, and nothing returned.
#[inline(always)]
fn lend_key<R: yaml_reader_t, S: yaml_token_sink_t>(
    text: &yaml_text_t,
    state: &mut state_t,
    sink: &mut S,
    level: Option<u64>,
) -> Option<Result<(), stop_t>>
    ghost before: { List Laid }
    requires comes { Comes before (scanner_of text.now state.old) false R.KIND }
    requires candidate { is_candidate_kind R.KIND ≡ true }
    requires stays { is_flow_start R.KIND ≡ false }
    requires alone { groups_in (scanner_of text.now state.old) ≡ [] }
    requires room { HasRoom (scanner_of text.now state.old) false R.KIND }
    requires kept { closing false R.KIND state.old.gap_end (reverse state.old.layout.levels.items) ≡ None }
    requires old { is_new false state.old.gap_end.column (reverse state.old.layout.levels.items) ≡ false }
    requires level { level ≡ greatest_level (reverse state.old.layout.levels.items) }
    requires allowed { allowed_in (scanner_of text.now state.old) false ≡ true }
    requires two { 1 < deque_capacity state.old.layout.queue.groups }
    ensures steps { IfSome result (λ r. StepsTo before (scanner_of text.now state.old) (scanner_of text.now state.new) true
        (λ tokens. S.took sink.old tokens sink.new) S.may_refuse r) }
    ensures within { IfSome result (λ r. OnOk r (S.within sink.old → S.within sink.new)) }
    ensures none { result ≡ None → (state.new ≡ state.old) × (sink.new ≡ sink.old) }
{
    let met = usual_met::<false>(text, state, R::KIND, level);
    let part = part_at::<R>(text, state, met.context)?;
    let colon = decider_at(text, part.reach, false)?;
    let read = read_t {
        met,
        reach: part.reach,
        passed_break: part.passed_break,
        texts: part.value.len() as u128,
    };
    if !is_usual_key(state, met, part.reach, &colon)
        || !has_room_for_both::<true, S>(sink, &state.layout.levels, read.texts)
    {
        return None;
    }
    let laid = lay_key(state, read, colon);
    Some(end_scalar(state, sink, laid, &lent_of(met.new.start, &part)))
}

/// Lays a value, which was read.
#[inline(always)]
fn lay_value(state: &mut state_t, read: read_t) -> laid_t
    ghost before: { List Laid }
    requires can { (text : Text) × (x : Lexeme) × (IsReadTo x read.reach read.passed_break
        × CanLayAll before (scanner_of text state.old) read.met x) }
    requires candidate { is_candidate_kind read.met.kind ≡ true }
    requires stays { is_flow_start read.met.kind ≡ false }
    requires alone { state.old.layout.queue.groups.items ≡ [] }
    requires flow { read.met.in_flow ≡ false }
    requires allowed { read.met.allowed ≡ false }
    requires kept { closing false read.met.kind read.met.new.start (reverse state.old.layout.levels.items) ≡ None }
    ensures laid { (text : Text) (d : TokenData) (b e : yaml_mark_t) (t : code_token_t)
        → CanLayAll before (scanner_of text state.old) read.met (read_to d b e read.reach read.passed_break)
        → IsTokenOf t d read.met.new.start e
        → WasLaid before (scanner_of text state.old) (scanner_of text state.new) true result t }
    ensures straight { result.waits ≡ false }
    ensures few { (t : code_token_t) → said_len (token_of t).token_data ≤ read.texts
        → (length (tokens_with (group_with result.ends result.opens result.key t) result.decider)
        ≤ length state.old.layout.levels.items + 4)
        × (texts_len (tokens_with (group_with result.ends result.opens result.key t) result.decider) ≤ read.texts) }
{
    state.allowed = is_allowed_after(read.met.kind, false, true, read.passed_break);
    state.reach = read.reach;
    laid_t {
        ends: 0,
        opens: block_t::NONE,
        key: false,
        waits: false,
        decider: None,
    }
}

/// Makes the step of a value, and lends it to the sink, if it is one line of the text as it stands there, and the sink
/// has room. Else nothing is done, and nothing returned.
#[inline(always)]
fn lend_value<R: yaml_reader_t, S: yaml_token_sink_t>(
    text: &yaml_text_t,
    state: &mut state_t,
    sink: &mut S,
    level: Option<u64>,
) -> Option<Result<(), stop_t>>
    ghost before: { List Laid }
    requires comes { Comes before (scanner_of text.now state.old) false R.KIND }
    requires candidate { is_candidate_kind R.KIND ≡ true }
    requires stays { is_flow_start R.KIND ≡ false }
    requires alone { groups_in (scanner_of text.now state.old) ≡ [] }
    requires room { HasRoom (scanner_of text.now state.old) false R.KIND }
    requires kept { closing false R.KIND state.old.gap_end (reverse state.old.layout.levels.items) ≡ None }
    requires level { level ≡ greatest_level (reverse state.old.layout.levels.items) }
    requires allowed { allowed_in (scanner_of text.now state.old) false ≡ false }
    ensures steps { IfSome result (λ r. StepsTo before (scanner_of text.now state.old) (scanner_of text.now state.new) true
        (λ tokens. S.took sink.old tokens sink.new) S.may_refuse r) }
    ensures within { IfSome result (λ r. OnOk r (S.within sink.old → S.within sink.new)) }
    ensures none { result ≡ None → (state.new ≡ state.old) × (sink.new ≡ sink.old) }
{
    let met = usual_met::<false>(text, state, R::KIND, level);
    let part = part_at::<R>(text, state, met.context)?;
    let read = read_t {
        met,
        reach: part.reach,
        passed_break: part.passed_break,
        texts: part.value.len() as u128,
    };
    if state.near <= part.reach.index
        || !has_room_for_both::<true, S>(sink, &state.layout.levels, read.texts)
    {
        return None;
    }
    let laid = lay_value(state, read);
    Some(end_scalar(state, sink, laid, &lent_of(met.new.start, &part)))
}

/// Makes the step of a scalar that is lent, if it is a usual one: a key in the column of the greatest level, or a value
/// to the right of that. Else nothing is done, and nothing returned.
#[inline(always)]
pub(crate) fn lend_usual<R: yaml_reader_t, S: yaml_token_sink_t>(
    text: &yaml_text_t,
    state: &mut state_t,
    sink: &mut S,
) -> Option<Result<(), stop_t>>
    ghost before: { List Laid }
    requires comes { Comes before (scanner_of text.now state.old) false R.KIND }
    requires candidate { is_candidate_kind R.KIND ≡ true }
    requires stays { is_flow_start R.KIND ≡ false }
    requires alone { groups_in (scanner_of text.now state.old) ≡ [] }
    ensures steps { IfSome result (λ r. StepsTo before (scanner_of text.now state.old) (scanner_of text.now state.new) true
        (λ tokens. S.took sink.old tokens sink.new) S.may_refuse r) }
    ensures within { IfSome result (λ r. OnOk r (S.within sink.old → S.within sink.new)) }
    ensures none { result ≡ None → (state.new ≡ state.old) × (sink.new ≡ sink.old) }
{
    let level = match top_level(&state.layout.levels) {
        Some(level) => level,
        None => return None,
    };
    let column = state.gap_end.column;
    if column < level || !has_usual_room(state) {
        return None;
    }
    if !is_key_allowed(state.allowed, false, state.reach, state.gap_end) {
        return lend_value::<R, S>(text, state, sink, Some(level));
    }
    if level < column {
        return None;
    }
    lend_key::<R, S>(text, state, sink, Some(level))
}
