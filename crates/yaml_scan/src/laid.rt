//! What a step lays: of a lexeme that was read it makes a group, which is handed on, unless the step has to stop.
ghost use Rattle.std.specs.Prelude.{◌≡◌, ◌<◌, ◌++◌, ◌∷◌, List, [], None, false, true, length, ℕ, ◌≤◌, ◌||◌, not, MatchResult, OnOk};
ghost use Rattle.std.specs.VecDeque.{deque_capacity};
ghost use Rattle.yaml_text.specs.declared.token.yaml_token_t.{yaml_token_t as code_token_t};
ghost use Rattle.yaml_text.specs.declared.types.yaml_mark_t.{yaml_mark_t};
ghost use Rattle.yaml_text.specs.Token.{TokenData, data_of, token_of};
ghost use Rattle.yaml_text.specs.Text.{Text};
ghost use Rattle.yaml_lexeme.specs.Lexeme.{Lexeme};
ghost use Rattle.yaml_lexeme.specs.LexemeOf.{lexeme_of};
ghost use Rattle.yaml_lexeme.specs.Counted.{IsMarkOf};
ghost use Rattle.yaml_scan.specs.Kind.{is_candidate_kind, is_flow_start, is_stream_end};
ghost use Rattle.yaml_scan.specs.inside.Slots.{is_live, lowest};
ghost use Rattle.yaml_scan.specs.Laid.{Laid};
ghost use Rattle.yaml_scan.specs.inside.Handed.{IsLaidAs, IsReadTo, IsTokenOf, group_with, read_to, FindsRoom};
ghost use Rattle.yaml_scan.specs.inside.Handed.{IsLaidAlone, LaysTo, StepsTo, WasLaid, group_tokens};
ghost use Rattle.yaml_scan.specs.inside.Scanner.{scanner_of, Scanner};
ghost use Rattle.yaml_scan.specs.inside.Scanning.{CanPut, HasRoom, groups_in, met_in, CanLayAll, CanRead, IsStep};
ghost use Rattle.yaml_scan.specs.inside.Scanning.{Refuses};
ghost use Rattle.yaml_scan.specs.Sink.{said_len};
ghost use Rattle.yaml_scan.specs.inside.TextReads.{IsRead};

use crate::allowed::is_allowed_after;
use crate::groups::{block_t, group_t};
use crate::keys::{completed_by, is_lost};
use crate::kind::is_stream_end;
use crate::levels::close_levels;
use crate::met::met_t;
use crate::read::read_t;
use crate::sink::{
    hand_keyless, hand_on, hand_token, has_room_for_laid, no_sink_t, said_len, yaml_token_sink_t,
};
use crate::state::state_t;
use crate::stop::{stop_after, stop_t, stopped};
use yaml_lexeme::{yaml_lexeme_kind_t, yaml_lexeme_t};
use yaml_text::{yaml_mark_t, yaml_text_t, yaml_token_t};

/// The token of a lexeme that starts at a mark.
#[inline(always)]
pub(crate) fn token_of(start: yaml_mark_t, lexeme: yaml_lexeme_t) -> yaml_token_t
    ensures { token_of result ≡ record {
      token_data = data_of lexeme.token_data;
      start_mark = start;
      end_mark = lexeme.end_mark;
    } }
{
    yaml_token_t {
        token_data: lexeme.token_data,
        start_mark: start,
        end_mark: lexeme.end_mark,
    }
}

/// Lays the lexeme of a step, which was read to a mark: changes levels and candidates, and marks the group that it
/// completes. Returns how many levels end at its token, and what it opens. Its group then goes into the queue or is
/// handed out. There is room, and no candidate is lost.
#[inline(always)]
pub(crate) fn lay_lexeme(state: &mut state_t, read: read_t) -> (usize, block_t)
    ghost before: { List Laid }
    requires can { (text : Text) × (x : Lexeme) × (IsReadTo x read.reach read.passed_break × CanPut before
        (scanner_of text state.old) (groups_in (scanner_of text state.old))
        (met_in (scanner_of text state.old) read.met) read.met.in_flow read.met.new x) }
    requires room { (text : Text) × HasRoom (scanner_of text state.old) read.met.in_flow read.met.kind }
    ensures laid { (text : Text) (d : TokenData) (b e : yaml_mark_t) (t : code_token_t)
        → CanPut before (scanner_of text state.old) (groups_in (scanner_of text state.old))
        (met_in (scanner_of text state.old) read.met) read.met.in_flow read.met.new
        (read_to d b e read.reach read.passed_break) → IsTokenOf t d read.met.new.start e
        → IsLaidAs before (scanner_of text state.old) read.met.kind (scanner_of text state.new)
        (groups_in (scanner_of text state.new) ++ group_with result.0 result.1 false t ∷ []) }
    ensures reach { state.new.reach ≡ read.reach }
    ensures room { length state.new.layout.queue.groups.items < deque_capacity state.new.layout.queue.groups }
    ensures few { result.0 ≤ length state.old.layout.levels.items }
    ensures queued { is_candidate_kind read.met.kind ≡ true
        → state.new.layout.queue.groups.items ≡ state.old.layout.queue.groups.items }
    ensures none { lowest (state.old.slots.outer.items ++ state.old.slots.top ∷ []) ≡ None
        → is_candidate_kind read.met.kind ≡ true → is_flow_start read.met.kind ≡ false
        → (read.met.allowed ≡ true → is_live state.old.limit read.reach read.met.new ≡ false)
        → state.new.slots.awaited ≡ 0 }
{
    let met = read.met;
    let gap_end = state.gap_end;
    let closed = close_levels(&mut state.layout.levels, met, gap_end);
    let completed = completed_by(met.kind, state.slots.top, state.limit, met.new.start);
    state.slots.keep_candidates(met, state.limit, read.reach);
    let opens = state.layout.put_key(met, completed);
    state.layout.queue.keep_early(closed.early, gap_end);
    state.allowed = is_allowed_after(
        met.kind,
        met.in_flow,
        completed.is_none(),
        read.passed_break,
    );
    state.reach = read.reach;
    (closed.ends, opens)
}

/// What a step has laid, and has not handed on yet. Its token goes with it.
#[derive(Drop)]
pub(crate) struct laid_t {
    /// How many block ends its group hands out.
    pub ends: usize,
    /// The start of a block collection that its group hands out, or none.
    pub opens: block_t,
    /// Whether its group hands out a key.
    pub key: bool,
    /// Whether all of it has to wait in the queue.
    pub waits: bool,
    /// The token of what comes right after its lexeme, if that was laid too.
    pub decider: Option<yaml_token_t>,
}

/// Whether the group of a lexeme of a kind that was laid has to wait: the stream end always does, and any other if
/// groups before it do, or if a candidate may yet become a key.
#[inline(always)]
fn has_to_wait(state: &state_t, kind: yaml_lexeme_kind_t) -> bool
    ensures last { result ≡ false → is_stream_end kind ≡ false }
    ensures awaited { result ≡ false → state.now.slots.awaited ≡ 0 }
    ensures lone { result ≡ false → state.now.layout.queue.groups.items ≡ [] }
{
    is_stream_end(kind) || state.slots.awaited > 0 || !state.layout.queue.groups.is_empty()
}

/// Lays the lexeme of a step, which was read. Returns how many block ends its group hands out, what that opens, and
/// whether it has to wait, since others do or the sink has no room for it.
#[inline(always)]
pub(crate) fn lay_alone<S: yaml_token_sink_t>(
    state: &mut state_t,
    sink: &S,
    read: read_t,
) -> (usize, block_t, bool)
    ghost before: { List Laid }
    requires { (text : Text) × (x : Lexeme) × (IsReadTo x read.reach read.passed_break
        × CanLayAll before (scanner_of text state.old) read.met x) }
    ensures laid { (text : Text) (d : TokenData) (b e : yaml_mark_t) (t : code_token_t)
        → CanLayAll before (scanner_of text state.old) read.met (read_to d b e read.reach read.passed_break)
        → IsTokenOf t d read.met.new.start e
        → IsLaidAlone before (scanner_of text state.old) (scanner_of text state.new) read.met.kind result.2
        (group_with result.0 result.1 false t) }
    ensures room { result.2 ≡ false → S.within sink.now → (t : code_token_t)
        → said_len (token_of t).token_data ≤ read.texts → (after : S)
        → S.took sink.now (group_tokens (group_with result.0 result.1 false t)) after → S.within after }
{
    let (ends, opens) = lay_lexeme(state, read);
    let waits = has_to_wait(state, read.met.kind)
        || !has_room_for_laid(sink, ends, opens, read.texts);
    (ends, opens, waits)
}

/// Whether what was laid together goes through the queue: it has to wait there, or it does not go straight to the sink.
#[inline(always)]
pub(crate) fn is_queued(waits: bool, direct: bool) -> bool
    ensures { result ≡ (waits || not direct) }
{
    waits || !direct
}

/// Stops if the lexeme of a step, which was read, reaches near the reader's fault, or if a candidate is lost there.
#[inline(always)]
pub(crate) fn check_reach(
    text: &yaml_text_t,
    state: &mut state_t,
    met: met_t,
    lexeme: &yaml_lexeme_t,
) -> Result<(), stop_t>
    ghost before: { List Laid }
    requires { CanRead before (scanner_of text.now state.old) met
        × ((p : ℕ) → IsMarkOf text.now.chars state.old.gap_end p
        → IsRead text.now.chars met.kind met.context.depth met.context.level p (lexeme_of lexeme.now)) }
    ensures { MatchResult result
        (λ _. (state.new ≡ state.old) × CanLayAll before (scanner_of text.now state.old) met (lexeme_of lexeme.now))
        (λ stop. Refuses before (scanner_of text.now state.old) (scanner_of text.now state.new) stop) }
{
    let reach = lexeme.reach;
    let lost = is_lost(state.root_after(met), met.in_flow, state.limit, reach);
    if state.near <= reach.index || lost {
        state.there = reach;
        return Err(stop_after(text, state, met.in_flow, met.kind));
    }
    Ok(())
}

/// Ends a step with a lexeme that was read: one character, a document marker or the stream end. What comes right after
/// it is not asked for.
#[inline(always)]
pub(crate) fn end_character<const DIRECT: bool, S: yaml_token_sink_t>(
    state: &mut state_t,
    sink: &mut S,
    met: met_t,
    lexeme: yaml_lexeme_t,
) -> Result<(), stop_t>
    ghost before: { List Laid }
    requires { (text : Text) × CanLayAll before (scanner_of text state.old) met (lexeme_of lexeme) }
    ensures steps { (text : Text) → CanLayAll before (scanner_of text state.old) met (lexeme_of lexeme)
        → StepsTo before (scanner_of text state.old) (scanner_of text state.new) DIRECT
        (λ tokens. S.took sink.old tokens sink.new)
        S.may_refuse result }
    ensures within { OnOk result (S.within sink.old → S.within sink.new) }
{
    let read = read_t {
        met,
        reach: lexeme.reach,
        passed_break: lexeme.passed_break,
        texts: said_len(&lexeme.token_data),
    };
    let (ends, opens, waits) = lay_alone(state, sink, read);
    let group = group_t {
        ends,
        opens,
        key: false,
        token: token_of(met.new.start, lexeme),
    };
    match hand_keyless::<DIRECT, S>(state, sink, waits, group) {
        Ok(_) => {
            state.made += 1;
            Ok(())
        }
        Err(stop) => Err(stopped(stop)),
    }
}

/// Hands on what a step has laid, with its token. Returns how many steps that makes.
#[inline(always)]
fn hand_laid<const DIRECT: bool, S: yaml_token_sink_t>(
    state: &mut state_t,
    sink: &mut S,
    laid: laid_t,
    token: yaml_token_t,
) -> Result<u64, stop_t>
    requires laid { (text : Text) × (before : List Laid) × ((start : Scanner) × WasLaid before start
        (scanner_of text state.old) DIRECT laid token) }
    requires room { FindsRoom laid (said_len (data_of token.token_data)) (S.within sink.old) (λ tokens. (after : S)
        → S.took sink.old tokens after → S.within after) }
    ensures steps { (text : Text) (before : List Laid) (start : Scanner) → WasLaid before start
        (scanner_of text state.old) DIRECT laid token
        → LaysTo before start (scanner_of text state.new) DIRECT (λ tokens. S.took sink.old tokens sink.new)
        S.may_refuse result }
    ensures within { OnOk result (S.within sink.old → S.within sink.new) }
{
    let laid_t {
        ends,
        opens,
        key,
        waits,
        decider,
    } = laid;
    let group = group_t {
        ends,
        opens,
        key,
        token,
    };
    match hand_on::<DIRECT, S>(state, sink, waits, group) {
        Ok(_) => match decider {
            Some(second) => match hand_token::<DIRECT, S>(state, sink, waits, second) {
                Ok(_) => Ok(2),
                Err(stop) => Err(stopped(stop)),
            },
            None => Ok(1),
        },
        Err(stop) => Err(stopped(stop)),
    }
}

/// Ends a step with what it has laid, and hands that on, with its token.
#[inline(always)]
pub(crate) fn end_laid<const DIRECT: bool, S: yaml_token_sink_t>(
    state: &mut state_t,
    sink: &mut S,
    laid: laid_t,
    token: yaml_token_t,
) -> Result<(), stop_t>
    requires laid { (text : Text) × (before : List Laid) × ((start : Scanner) × WasLaid before start
        (scanner_of text state.old) DIRECT laid token) }
    requires room { FindsRoom laid (said_len (data_of token.token_data)) (S.within sink.old) (λ tokens. (after : S)
        → S.took sink.old tokens after → S.within after) }
    ensures steps { (text : Text) (before : List Laid) (start : Scanner) → WasLaid before start
        (scanner_of text state.old) DIRECT laid token
        → StepsTo before start (scanner_of text state.new) DIRECT (λ tokens. S.took sink.old tokens sink.new)
        S.may_refuse result }
    ensures within { OnOk result (S.within sink.old → S.within sink.new) }
{
    match hand_laid::<DIRECT, S>(state, sink, laid, token) {
        Ok(made) => {
            state.made += made;
            Ok(())
        }
        Err(stop) => Err(stopped(stop)),
    }
}

/// Ends a step with a lexeme that was read and needs nothing of what comes after it. Its group goes into the queue.
#[inline(always)]
fn end_in_queue(state: &mut state_t, met: met_t, lexeme: yaml_lexeme_t) -> Result<(), stop_t>
    ghost before: { List Laid }
    requires { (text : Text) × CanLayAll before (scanner_of text state.old) met (lexeme_of lexeme) }
    ensures { (text : Text) → CanLayAll before (scanner_of text state.old) met (lexeme_of lexeme)
        → IsStep before (scanner_of text state.old) (scanner_of text state.new) result }
{
    end_character::<false, no_sink_t>(state, &mut no_sink_t {}, met, lexeme)
}

/// Ends a step with a lexeme that was read and needs nothing of what comes after it, and queues its group. Stops if it
/// is near the reader's fault, or a candidate is lost.
#[inline(always)]
pub(crate) fn end_queued(
    text: &yaml_text_t,
    state: &mut state_t,
    met: met_t,
    lexeme: yaml_lexeme_t,
) -> Result<(), stop_t>
    ghost before: { List Laid }
    requires { CanRead before (scanner_of text.now state.old) met
        × ((p : ℕ) → IsMarkOf text.now.chars state.old.gap_end p
        → IsRead text.now.chars met.kind met.context.depth met.context.level p (lexeme_of lexeme)) }
    ensures { IsStep before (scanner_of text.now state.old) (scanner_of text.now state.new) result }
{
    match check_reach(text, state, met, &lexeme) {
        Ok(_) => end_in_queue(state, met, lexeme),
        Err(stop) => Err(stopped(stop)),
    }
}
