//! A step: the gap, the kind of the next lexeme, the lexeme, and what the layout makes of it. The kind has to be
//! allowed there, and what is kept of the lexeme needs room.
ghost use Rattle.std.specs.Prelude.{List, ◌≡◌, ◌⊎◌, true, MatchResult, ◌<◌, nat_lt, vec_len, OnOk, ◌++◌, ◌∷◌, [], ◌≤◌};
ghost use Rattle.std.specs.Prelude.{◌||◌, IfOk, IfSome, None, false};
ghost use Rattle.yaml_text.specs.Fault.{memory_fault};
ghost use Rattle.yaml_text.specs.Text.{Text};
ghost use Rattle.yaml_lexeme.specs.KindSets.{is_character, marker_kind};
ghost use Rattle.yaml_lexeme.specs.declared.kind.yaml_lexeme_kind_t.TheVariants.{STREAM_END};
ghost use Rattle.yaml_scan.specs.Laid.{Laid};
ghost use Rattle.yaml_scan.specs.inside.Scanner.{scanner_of};
ghost use Rattle.yaml_scan.specs.inside.Scanning.{Beside, CanRead, Comes, HasRoom, IsMet, Refuses, Stays, allowed_in};
ghost use Rattle.yaml_scan.specs.inside.Scanning.{CanStep, IsStep, CanLayAll, IsReadIn, groups_in};
ghost use Rattle.yaml_scan.specs.Kind.{is_candidate_kind, is_flow_start};
ghost use Rattle.yaml_scan.specs.inside.Stop.{fault_at};
ghost use Rattle.yaml_scan.specs.inside.Handed.{StepsTo, IsReadTo, IsTokenOf, read_to, FindsRoom, WasLaid};
ghost use Rattle.yaml_text.specs.declared.token.yaml_token_t.{yaml_token_t as code_token_t};
ghost use Rattle.yaml_text.specs.declared.types.yaml_mark_t.{yaml_mark_t};
ghost use Rattle.yaml_text.specs.Token.{TokenData, data_of};
ghost use Rattle.yaml_lexeme.specs.Lexeme.{Lexeme};
ghost use Rattle.yaml_scan.specs.Sink.{said_len};

use crate::allowed::is_key_allowed;
use crate::depth::is_flow_start;
use crate::flow::lend_in_flow;
use crate::follower::{follower_of, lay_followed};
use crate::keys::is_lost;
use crate::laid::{
    check_reach, end_character, end_laid, end_queued, is_queued, laid_t, lay_alone, token_of,
};
use crate::lend::{end_scalar, goes_well, lay_lent, lent_of, may_be_lent};
use crate::lines::lend_usual;
use crate::met::met_t;
use crate::read::read_t;
use crate::sink::{has_room_for_both, no_sink_t, said_len, yaml_token_sink_t};
use crate::slots::root_at;
use crate::source::{
    gap_end, kind_at, part_at, read_character, read_lexeme, read_marker, read_stream_end,
};
use crate::state::state_t;
use crate::stop::{
    stop_at_kind, stop_at_start, stop_in_gap, stop_in_lexeme, stop_t, stop_without_kind, stopped,
};
use yaml_lexeme::{
    block_reader_t, directive_reader_t, name_reader_t, plain_reader_t, quoted_reader_t,
    tag_reader_t, yaml_lexeme_kind_t, yaml_lexeme_t, yaml_marker_kind, yaml_reader_t,
    yaml_refusal_t,
};
use yaml_text::{yaml_text_t, yaml_token_t};

/// Whether there is room for what the step of a lexeme of a kind may keep: for one more group, for one more depth if it
/// enters one, and for one more level outside flow collections.
#[inline(always)]
fn has_room(state: &state_t, in_flow: bool, kind: yaml_lexeme_kind_t) -> bool
    ensures { (text : Text) → result ≡ true → HasRoom (scanner_of text state.now) in_flow kind }
{
    (!is_flow_start(kind) || state.slots.outer.len() < state.slots.outer.capacity())
        && (in_flow || state.layout.levels.len() < state.layout.levels.capacity())
        && state.layout.queue.groups.len() < state.layout.queue.groups.capacity()
}

/// Makes room for what the step of a lexeme of a kind may keep, where there is none.
#[cold]
fn make_room(state: &mut state_t, in_flow: bool, kind: yaml_lexeme_kind_t) -> Result<(), stop_t>
    ensures { (text : Text) → MatchResult result (λ _. HasRoom (scanner_of text state.new) in_flow kind
        × Beside (scanner_of text state.old) (scanner_of text state.new))
        (λ stop. (fault_at stop state.new.fault ≡ memory_fault) × Stays (scanner_of text state.old)
        (scanner_of text state.new)) }
{
    if is_flow_start(kind) {
        state.slots.outer.reserve(1)?;
    }
    if !in_flow {
        state.layout.levels.reserve(1)?;
    }
    state.layout.queue.groups.reserve(1)?;
    Ok(())
}

/// Sees that there is room for what the step of a lexeme of a kind may keep.
#[inline(always)]
fn ensure_room(state: &mut state_t, in_flow: bool, kind: yaml_lexeme_kind_t) -> Result<(), stop_t>
    ensures { (text : Text) → MatchResult result (λ _. HasRoom (scanner_of text state.new) in_flow kind
        × Beside (scanner_of text state.old) (scanner_of text state.new))
        (λ stop. (fault_at stop state.new.fault ≡ memory_fault) × Stays (scanner_of text state.old)
        (scanner_of text state.new)) }
{
    if has_room(state, in_flow, kind) {
        return Ok(());
    }
    match make_room(state, in_flow, kind) {
        Ok(_) => Ok(()),
        Err(stop) => Err(stopped(stop)),
    }
}

/// Stops if a lexeme of the kind is not allowed after the gap, or would clear or replace a required candidate.
#[inline(always)]
fn refuse_kind(
    text: &yaml_text_t,
    state: &mut state_t,
    in_flow: bool,
    kind: yaml_lexeme_kind_t,
) -> Result<(), stop_t>
    ghost before: { List Laid }
    requires { Comes before (scanner_of text.now state.old) in_flow kind }
    ensures { MatchResult result
        (λ _. IsMet before (scanner_of text.now state.old)
        record {
          kind = kind;
          gap_end = state.old.gap_end;
          allowed = allowed_in (scanner_of text.now state.old) in_flow;
        }
        × (state.new ≡ state.old)) (λ stop. Refuses before (scanner_of text.now state.old)
        (scanner_of text.now state.new) stop) }
{
    let allowed = is_key_allowed(state.allowed, in_flow, state.reach, state.gap_end);
    if state.refused_by(in_flow, kind, allowed).is_some() {
        return Err(stop_at_kind(text, state, in_flow, kind));
    }
    if state.cleared_by(in_flow, kind, allowed).is_some() {
        return Err(stop_at_start(text, state, in_flow, kind));
    }
    Ok(())
}

/// Begins the step of a lexeme of a kind, which comes after the gap. `in_flow`: the scanner is inside a flow
/// collection.
#[inline(always)]
fn begin_step(
    text: &yaml_text_t,
    state: &mut state_t,
    in_flow: bool,
    kind: yaml_lexeme_kind_t,
) -> Result<met_t, stop_t>
    ghost before: { List Laid }
    requires { Comes before (scanner_of text.now state.old) in_flow kind }
    ensures { MatchResult result
        (λ met. CanRead before (scanner_of text.now state.new) met × (met.kind ≡ kind) × Stays
        (scanner_of text.now state.old) (scanner_of text.now state.new)
        × Comes before (scanner_of text.now state.new) in_flow kind
        × (groups_in (scanner_of text.now state.new) ≡ groups_in (scanner_of text.now state.old)))
        (λ stop. Refuses before (scanner_of text.now state.old) (scanner_of text.now state.new) stop) }
{
    let allowed = is_key_allowed(state.allowed, in_flow, state.reach, state.gap_end);
    match refuse_kind(text, state, in_flow, kind) {
        Ok(_) => {}
        Err(stop) => return Err(stopped(stop)),
    }
    match ensure_room(state, in_flow, kind) {
        Ok(_) => Ok(state.met_of(in_flow, kind, allowed)),
        Err(stop) => Err(stopped(stop)),
    }
}

/// Lays the lexeme of a step, which was read, and with it what comes right after it, if the next token needs both.
#[inline(always)]
fn lay_all<const DIRECT: bool, S: yaml_token_sink_t>(
    text: &yaml_text_t,
    state: &mut state_t,
    sink: &S,
    read: read_t,
) -> laid_t
    ghost before: { List Laid }
    requires { (x : Lexeme) × (IsReadTo x read.reach read.passed_break × CanLayAll before
        (scanner_of text.now state.old) read.met x) }
    ensures laid { (d : TokenData) (b e : yaml_mark_t) (t : code_token_t)
        → CanLayAll before (scanner_of text.now state.old) read.met (read_to d b e read.reach read.passed_break)
        → IsTokenOf t d read.met.new.start e
        → WasLaid before (scanner_of text.now state.old) (scanner_of text.now state.new) DIRECT result t }
    ensures room { FindsRoom result read.texts (S.within sink.now) (λ tokens. (after : S) → S.took sink.now tokens after
        → S.within after) }
{
    let direct = has_room_for_both::<DIRECT, S>(sink, &state.layout.levels, read.texts);
    match follower_of(text, state, !direct, read) {
        Some(follower) => {
            let (ends, opens, key) = lay_followed(state, read, &follower);
            laid_t {
                ends,
                opens,
                key,
                waits: is_queued(follower.waits, direct),
                decider: Some(token_of(read.reach, follower.decider.lexeme)),
            }
        }
        None => {
            let (ends, opens, waits) = lay_alone(state, sink, read);
            laid_t {
                ends,
                opens,
                key: false,
                waits,
                decider: None,
            }
        }
    }
}

/// Lays what was read for a step. Returns what was laid, and its token. Stops if it was refused, if it is near the
/// reader's fault, or if a candidate is lost.
#[inline(always)]
fn lay_read<const DIRECT: bool, S: yaml_token_sink_t>(
    text: &yaml_text_t,
    state: &mut state_t,
    sink: &S,
    met: met_t,
    read: Result<yaml_lexeme_t, yaml_refusal_t>,
) -> Result<(laid_t, yaml_token_t), stop_t>
    ghost before: { List Laid }
    requires { CanRead before (scanner_of text.now state.old) met
        × IsReadIn (scanner_of text.now state.old) met.kind met.context state.old.there read }
    ensures laid { MatchResult result (λ r. WasLaid before (scanner_of text.now state.old)
        (scanner_of text.now state.new) DIRECT r.0 r.1)
        (λ stop. Refuses before (scanner_of text.now state.old) (scanner_of text.now state.new) stop) }
    ensures room { IfOk result (λ r. FindsRoom r.0 (said_len (data_of r.1.token_data)) (S.within sink.now) (λ tokens.
        (after : S) → S.took sink.now tokens after → S.within after)) }
{
    match read {
        Ok(lexeme) => match check_reach(text, state, met, &lexeme) {
            Ok(_) => {
                let read = read_t {
                    met,
                    reach: lexeme.reach,
                    passed_break: lexeme.passed_break,
                    texts: said_len(&lexeme.token_data),
                };
                let laid = lay_all::<DIRECT, S>(text, state, sink, read);
                Ok((laid, token_of(met.new.start, lexeme)))
            }
            Err(stop) => Err(stopped(stop)),
        },
        Err(refusal) => Err(stop_in_lexeme(text, state, met.kind, refusal)),
    }
}

/// Makes the step of a lexeme that may be refused, of the kind of a reader.
#[inline(never)]
fn step_lexeme<R: yaml_reader_t, const IN_FLOW: bool, const DIRECT: bool, S: yaml_token_sink_t>(
    text: &yaml_text_t,
    state: &mut state_t,
    sink: &mut S,
) -> Result<(), stop_t>
    ghost before: { List Laid }
    requires { Comes before (scanner_of text.now state.old) IN_FLOW R.KIND }
    ensures steps { StepsTo before (scanner_of text.now state.old) (scanner_of text.now state.new) DIRECT
        (λ tokens. S.took sink.old tokens sink.new)
        S.may_refuse result }
    ensures within { OnOk result (S.within sink.old → S.within sink.new) }
{
    match begin_step(text, state, IN_FLOW, R::KIND) {
        Ok(met) => {
            let room = sink.room(state.alloc);
            let read = read_lexeme::<R>(room, text, state, met.context);
            match lay_read::<DIRECT, S>(text, state, sink, met, read) {
                Ok((laid, token)) => end_laid::<DIRECT, S>(state, sink, laid, token),
                Err(stop) => Err(stopped(stop)),
            }
        }
        Err(stop) => Err(stopped(stop)),
    }
}

/// Makes the step of a scalar of a reader's kind outside flow collections, and lends it to the sink, if the scalar stands
/// in the text as it is, nothing of what the step lays has to wait, and the sink has room for that. Nothing is queued. Of
/// any other scalar no step is made, and nothing is returned, unless the kind is refused.
#[inline(always)]
fn lend<R: yaml_reader_t, S: yaml_token_sink_t>(
    text: &yaml_text_t,
    state: &mut state_t,
    sink: &mut S,
) -> Option<Result<(), stop_t>>
    ghost before: { List Laid }
    requires comes { Comes before (scanner_of text.now state.old) false R.KIND }
    requires candidate { is_candidate_kind R.KIND ≡ true }
    requires stays { is_flow_start R.KIND ≡ false }
    requires alone { groups_in (scanner_of text.now state.old) ≡ [] }
    ensures steps { IfSome result (λ r. StepsTo before (scanner_of text.now state.old) (scanner_of text.now state.new) true
        (λ tokens. S.took sink.old tokens sink.new) S.may_refuse r) }
    ensures within { IfSome result (λ r. OnOk r (S.within sink.old → S.within sink.new)) }
    ensures comes { result ≡ None → Comes before (scanner_of text.now state.new) false R.KIND
        × Stays (scanner_of text.now state.old) (scanner_of text.now state.new) }
    ensures none { result ≡ None → sink.new ≡ sink.old }
{
    let met = match begin_step(text, state, false, R::KIND) {
        Ok(met) => met,
        Err(stop) => return Some(Err(stopped(stop))),
    };
    let part = part_at::<R>(text, state, met.context)?;
    let read = read_t {
        met,
        reach: part.reach,
        passed_break: part.passed_break,
        texts: part.value.len() as u128,
    };
    if !goes_well(state, met, part.reach)
        || !has_room_for_both::<true, S>(sink, &state.layout.levels, read.texts)
    {
        return None;
    }
    let laid = lay_lent(text, state, read)?;
    Some(end_scalar(state, sink, laid, &lent_of(met.new.start, &part)))
}

/// Makes the step of a scalar of a reader's kind outside flow collections while nothing is queued, and lends the scalar
/// to the sink, if that may be; else the step of its lexeme.
#[inline(never)]
fn step_lent<R: yaml_reader_t, S: yaml_token_sink_t>(
    text: &yaml_text_t,
    state: &mut state_t,
    sink: &mut S,
) -> Result<(), stop_t>
    ghost before: { List Laid }
    requires comes { Comes before (scanner_of text.now state.old) false R.KIND }
    requires candidate { is_candidate_kind R.KIND ≡ true }
    requires stays { is_flow_start R.KIND ≡ false }
    requires alone { groups_in (scanner_of text.now state.old) ≡ [] }
    ensures steps { StepsTo before (scanner_of text.now state.old) (scanner_of text.now state.new) true
        (λ tokens. S.took sink.old tokens sink.new)
        S.may_refuse result }
    ensures within { OnOk result (S.within sink.old → S.within sink.new) }
{
    match lend::<R, S>(text, state, sink) {
        Some(made) => made,
        None => step_lexeme::<R, false, true, S>(text, state, sink),
    }
}

/// Makes the step of a scalar of a reader's kind in flow while nothing is queued, and lends the scalar to the sink, if
/// that may be; else the step of its lexeme.
#[inline(always)]
fn step_lent_in_flow<R: yaml_reader_t, S: yaml_token_sink_t>(
    text: &yaml_text_t,
    state: &mut state_t,
    sink: &mut S,
    paired: bool,
) -> Result<(), stop_t>
    ghost before: { List Laid }
    requires comes { Comes before (scanner_of text.now state.old) true R.KIND }
    requires candidate { is_candidate_kind R.KIND ≡ true }
    requires stays { is_flow_start R.KIND ≡ false }
    requires alone { groups_in (scanner_of text.now state.old) ≡ [] }
    ensures steps { StepsTo before (scanner_of text.now state.old) (scanner_of text.now state.new) true
        (λ tokens. S.took sink.old tokens sink.new)
        S.may_refuse result }
    ensures within { OnOk result (S.within sink.old → S.within sink.new) }
{
    if !has_room_for_both::<true, S>(sink, &state.layout.levels, 0) {
        return step_lexeme::<R, true, true, S>(text, state, sink);
    }
    match lend_in_flow::<R, S>(text, state, sink, paired) {
        Some(made) => made,
        None => step_lexeme::<R, true, true, S>(text, state, sink),
    }
}

/// Makes the step of a plain or quoted scalar, of the kind of a reader. It is asked here whether it may be lent, so that
/// one that is not pays for nothing else. In flow none is lent here: `step_flow` does that.
#[inline(always)]
fn step_scalar<
    R: yaml_reader_t,
    const QUOTED: bool,
    const IN_FLOW: bool,
    const DIRECT: bool,
    S: yaml_token_sink_t,
>(text: &yaml_text_t, state: &mut state_t, sink: &mut S) -> Result<(), stop_t>
    ghost before: { List Laid }
    requires comes { Comes before (scanner_of text.now state.old) IN_FLOW R.KIND }
    requires candidate { is_candidate_kind R.KIND ≡ true }
    requires stays { is_flow_start R.KIND ≡ false }
    ensures steps { StepsTo before (scanner_of text.now state.old) (scanner_of text.now state.new) DIRECT
        (λ tokens. S.took sink.old tokens sink.new)
        S.may_refuse result }
    ensures within { OnOk result (S.within sink.old → S.within sink.new) }
{
    if IN_FLOW
        || !has_room_for_both::<DIRECT, S>(sink, &state.layout.levels, 0)
        || !may_be_lent::<QUOTED>(state)
    {
        return step_lexeme::<R, IN_FLOW, DIRECT, S>(text, state, sink);
    }
    step_lent::<R, S>(text, state, sink)
}

/// Makes the step of a lexeme that may be refused, of the kind of a reader. Its group goes into the queue, so one
/// function serves every sink.
#[inline(always)]
fn step_queued<R: yaml_reader_t, const IN_FLOW: bool>(
    text: &yaml_text_t,
    state: &mut state_t,
) -> Result<(), stop_t>
    ghost before: { List Laid }
    requires { Comes before (scanner_of text.now state.old) IN_FLOW R.KIND }
    ensures { IsStep before (scanner_of text.now state.old) (scanner_of text.now state.new) result }
{
    step_lexeme::<R, IN_FLOW, false, no_sink_t>(text, state, &mut no_sink_t {})
}

/// Makes the step of a lexeme of one character.
#[inline(always)]
fn step_character<const IN_FLOW: bool, const DIRECT: bool, S: yaml_token_sink_t>(
    text: &yaml_text_t,
    state: &mut state_t,
    sink: &mut S,
    kind: yaml_lexeme_kind_t,
) -> Result<(), stop_t>
    ghost before: { List Laid }
    requires comes { Comes before (scanner_of text.now state.old) IN_FLOW kind }
    requires kind { is_character kind ≡ true }
    ensures steps { StepsTo before (scanner_of text.now state.old) (scanner_of text.now state.new) DIRECT
        (λ tokens. S.took sink.old tokens sink.new)
        S.may_refuse result }
    ensures within { OnOk result (S.within sink.old → S.within sink.new) }
{
    match begin_step(text, state, IN_FLOW, kind) {
        Ok(met) => {
            let lexeme = read_character(text, state, kind);
            match check_reach(text, state, met, &lexeme) {
                Ok(_) => end_character::<DIRECT, S>(state, sink, met, lexeme),
                Err(stop) => Err(stopped(stop)),
            }
        }
        Err(stop) => Err(stopped(stop)),
    }
}

/// Makes the step of a document marker. Its group goes into the queue, so one function serves every sink.
#[inline(never)]
fn step_marker<const IN_FLOW: bool, const START: bool>(
    text: &yaml_text_t,
    state: &mut state_t,
) -> Result<(), stop_t>
    ghost before: { List Laid }
    requires { Comes before (scanner_of text.now state.old) IN_FLOW (marker_kind START) }
    ensures { IsStep before (scanner_of text.now state.old) (scanner_of text.now state.new) result }
{
    match begin_step(text, state, IN_FLOW, yaml_marker_kind(START)) {
        Ok(met) => {
            let lexeme = read_marker(text, state, START);
            end_queued(text, state, met, lexeme)
        }
        Err(stop) => Err(stopped(stop)),
    }
}

/// Makes the step of the stream end. Its group goes into the queue, so one function serves every sink.
#[inline(never)]
fn step_stream_end<const IN_FLOW: bool>(
    text: &yaml_text_t,
    state: &mut state_t,
) -> Result<(), stop_t>
    ghost before: { List Laid }
    requires { Comes before (scanner_of text.now state.old) IN_FLOW STREAM_END }
    ensures { IsStep before (scanner_of text.now state.old) (scanner_of text.now state.new) result }
{
    match begin_step(text, state, IN_FLOW, yaml_lexeme_kind_t::STREAM_END) {
        Ok(met) => {
            let lexeme = read_stream_end(text, state);
            end_queued(text, state, met, lexeme)
        }
        Err(stop) => Err(stopped(stop)),
    }
}

/// Makes the step of a lexeme of a kind, after the gap. Scalars and rare kinds have functions of their own, so that no
/// kind pays for the room that another needs. Common kinds are constants there.
#[inline(always)]
fn step_kind<const IN_FLOW: bool, const DIRECT: bool, S: yaml_token_sink_t>(
    text: &yaml_text_t,
    state: &mut state_t,
    sink: &mut S,
    kind: yaml_lexeme_kind_t,
) -> Result<(), stop_t>
    ghost before: { List Laid }
    requires { Comes before (scanner_of text.now state.old) IN_FLOW kind }
    ensures steps { StepsTo before (scanner_of text.now state.old) (scanner_of text.now state.new) DIRECT
        (λ tokens. S.took sink.old tokens sink.new)
        S.may_refuse result }
    ensures within { OnOk result (S.within sink.old → S.within sink.new) }
{
    match kind {
        yaml_lexeme_kind_t::PLAIN => {
            step_scalar::<plain_reader_t, false, IN_FLOW, DIRECT, S>(text, state, sink)
        }
        yaml_lexeme_kind_t::SINGLE_QUOTED => {
            step_scalar::<quoted_reader_t<true>, true, IN_FLOW, DIRECT, S>(text, state, sink)
        }
        yaml_lexeme_kind_t::DOUBLE_QUOTED => {
            step_scalar::<quoted_reader_t<false>, true, IN_FLOW, DIRECT, S>(text, state, sink)
        }
        yaml_lexeme_kind_t::LITERAL => {
            step_lexeme::<block_reader_t<false>, IN_FLOW, DIRECT, S>(text, state, sink)
        }
        yaml_lexeme_kind_t::FOLDED => {
            step_lexeme::<block_reader_t<true>, IN_FLOW, DIRECT, S>(text, state, sink)
        }
        yaml_lexeme_kind_t::ALIAS => step_queued::<name_reader_t<false>, IN_FLOW>(text, state),
        yaml_lexeme_kind_t::ANCHOR => step_queued::<name_reader_t<true>, IN_FLOW>(text, state),
        yaml_lexeme_kind_t::TAG => step_queued::<tag_reader_t, IN_FLOW>(text, state),
        yaml_lexeme_kind_t::STREAM_END => step_stream_end::<IN_FLOW>(text, state),
        yaml_lexeme_kind_t::DOCUMENT_START => step_marker::<IN_FLOW, true>(text, state),
        yaml_lexeme_kind_t::DOCUMENT_END => step_marker::<IN_FLOW, false>(text, state),
        yaml_lexeme_kind_t::VALUE => step_character::<IN_FLOW, DIRECT, S>(
            text,
            state,
            sink,
            yaml_lexeme_kind_t::VALUE,
        ),
        yaml_lexeme_kind_t::KEY => step_character::<IN_FLOW, DIRECT, S>(
            text,
            state,
            sink,
            yaml_lexeme_kind_t::KEY,
        ),
        yaml_lexeme_kind_t::BLOCK_ENTRY => {
            step_character::<IN_FLOW, DIRECT, S>(text, state, sink, yaml_lexeme_kind_t::BLOCK_ENTRY)
        }
        yaml_lexeme_kind_t::FLOW_ENTRY => {
            step_character::<IN_FLOW, DIRECT, S>(text, state, sink, yaml_lexeme_kind_t::FLOW_ENTRY)
        }
        yaml_lexeme_kind_t::FLOW_SEQUENCE_START => {
            step_character::<IN_FLOW, DIRECT, S>(
                text,
                state,
                sink,
                yaml_lexeme_kind_t::FLOW_SEQUENCE_START,
            )
        }
        yaml_lexeme_kind_t::FLOW_MAPPING_START => {
            step_character::<IN_FLOW, DIRECT, S>(
                text,
                state,
                sink,
                yaml_lexeme_kind_t::FLOW_MAPPING_START,
            )
        }
        yaml_lexeme_kind_t::FLOW_SEQUENCE_END => {
            step_character::<IN_FLOW, DIRECT, S>(
                text,
                state,
                sink,
                yaml_lexeme_kind_t::FLOW_SEQUENCE_END,
            )
        }
        yaml_lexeme_kind_t::FLOW_MAPPING_END => {
            step_character::<IN_FLOW, DIRECT, S>(
                text,
                state,
                sink,
                yaml_lexeme_kind_t::FLOW_MAPPING_END,
            )
        }
        yaml_lexeme_kind_t::DIRECTIVE => step_queued::<directive_reader_t, IN_FLOW>(text, state),
    }
}

/// Passes the gap, and returns the kind of the lexeme after it. Stops if a candidate is lost there, or if no lexeme
/// begins there.
#[inline(always)]
fn pass_gap<const IN_FLOW: bool>(
    text: &yaml_text_t,
    state: &mut state_t,
) -> Result<yaml_lexeme_kind_t, stop_t>
    ghost before: { List Laid }
    requires can { CanStep before (scanner_of text.now state.old) }
    requires flow { IN_FLOW ≡ nat_lt 0 (vec_len state.old.slots.outer) }
    ensures { MatchResult result (λ kind. Comes before (scanner_of text.now state.new) IN_FLOW kind
        × Stays (scanner_of text.now state.old) (scanner_of text.now state.new))
        (λ stop. Refuses before (scanner_of text.now state.old) (scanner_of text.now state.new) stop) }
{
    let gap_end = gap_end(text, state.reach, IN_FLOW, state.allowed);
    state.gap_end = gap_end;
    let root = root_at(&state.slots.outer, state.slots.top, IN_FLOW);
    if is_lost(root, IN_FLOW, state.limit, gap_end) {
        return Err(stop_in_gap(text, state));
    }
    match kind_at(text, gap_end, IN_FLOW) {
        Some(kind) => Ok(kind),
        None => Err(stop_without_kind(text, state)),
    }
}

/// Makes a step, inside a flow collection or outside, where columns count.
#[inline(never)]
fn step_at<const IN_FLOW: bool, const DIRECT: bool, S: yaml_token_sink_t>(
    text: &yaml_text_t,
    state: &mut state_t,
    sink: &mut S,
) -> Result<(), stop_t>
    ghost before: { List Laid }
    requires can { CanStep before (scanner_of text.now state.old) }
    requires flow { IN_FLOW ≡ nat_lt 0 (vec_len state.old.slots.outer) }
    ensures steps { StepsTo before (scanner_of text.now state.old) (scanner_of text.now state.new) DIRECT
        (λ tokens. S.took sink.old tokens sink.new)
        S.may_refuse result }
    ensures within { OnOk result (S.within sink.old → S.within sink.new) }
{
    match pass_gap::<IN_FLOW>(text, state) {
        Ok(kind) => step_kind::<IN_FLOW, DIRECT, S>(text, state, sink, kind),
        Err(stop) => Err(stopped(stop)),
    }
}

/// Makes the step of a plain or quoted scalar outside flow collections. Usual ones are tried first.
#[inline(always)]
fn step_usual<R: yaml_reader_t, const QUOTED: bool, S: yaml_token_sink_t>(
    text: &yaml_text_t,
    state: &mut state_t,
    sink: &mut S,
) -> Result<(), stop_t>
    ghost before: { List Laid }
    requires comes { Comes before (scanner_of text.now state.old) false R.KIND }
    requires candidate { is_candidate_kind R.KIND ≡ true }
    requires stays { is_flow_start R.KIND ≡ false }
    ensures steps { StepsTo before (scanner_of text.now state.old) (scanner_of text.now state.new) true
        (λ tokens. S.took sink.old tokens sink.new)
        S.may_refuse result }
    ensures within { OnOk result (S.within sink.old → S.within sink.new) }
{
    if !may_be_lent::<QUOTED>(state)
        || !has_room_for_both::<true, S>(sink, &state.layout.levels, 0)
    {
        return step_lexeme::<R, false, true, S>(text, state, sink);
    }
    match lend_usual::<R, S>(text, state, sink) {
        Some(made) => return made,
        None => {}
    }
    if QUOTED {
        return step_lent::<R, S>(text, state, sink);
    }
    match lend::<R, S>(text, state, sink) {
        Some(made) => made,
        None => step_lexeme::<R, false, true, S>(text, state, sink),
    }
}

/// Makes the step of a lexeme of any kind, after the gap, outside flow collections.
#[inline(never)]
fn step_other<S: yaml_token_sink_t>(
    text: &yaml_text_t,
    state: &mut state_t,
    sink: &mut S,
    kind: yaml_lexeme_kind_t,
) -> Result<(), stop_t>
    ghost before: { List Laid }
    requires { Comes before (scanner_of text.now state.old) false kind }
    ensures steps { StepsTo before (scanner_of text.now state.old) (scanner_of text.now state.new) true
        (λ tokens. S.took sink.old tokens sink.new)
        S.may_refuse result }
    ensures within { OnOk result (S.within sink.old → S.within sink.new) }
{
    step_kind::<false, true, S>(text, state, sink, kind)
}

/// Makes a step outside flow collections, whose groups go straight to the sink if they need not wait. It is part of the
/// loop that makes steps, and so are the steps of the common kinds. Others have a function of their own.
#[inline(always)]
fn step_block<S: yaml_token_sink_t>(
    text: &yaml_text_t,
    state: &mut state_t,
    sink: &mut S,
) -> Result<(), stop_t>
    ghost before: { List Laid }
    requires can { CanStep before (scanner_of text.now state.old) }
    requires flow { false ≡ nat_lt 0 (vec_len state.old.slots.outer) }
    ensures steps { StepsTo before (scanner_of text.now state.old) (scanner_of text.now state.new) true
        (λ tokens. S.took sink.old tokens sink.new)
        S.may_refuse result }
    ensures within { OnOk result (S.within sink.old → S.within sink.new) }
{
    match pass_gap::<false>(text, state) {
        Ok(kind) => match kind {
            yaml_lexeme_kind_t::PLAIN => step_usual::<plain_reader_t, false, S>(text, state, sink),
            yaml_lexeme_kind_t::SINGLE_QUOTED => {
                step_usual::<quoted_reader_t<true>, true, S>(text, state, sink)
            }
            yaml_lexeme_kind_t::DOUBLE_QUOTED => {
                step_usual::<quoted_reader_t<false>, true, S>(text, state, sink)
            }
            yaml_lexeme_kind_t::BLOCK_ENTRY => {
                step_character::<false, true, S>(text, state, sink, yaml_lexeme_kind_t::BLOCK_ENTRY)
            }
            yaml_lexeme_kind_t::LITERAL => {
                step_lexeme::<block_reader_t<false>, false, true, S>(text, state, sink)
            }
            yaml_lexeme_kind_t::FOLDED => {
                step_lexeme::<block_reader_t<true>, false, true, S>(text, state, sink)
            }
            _ => step_other::<S>(text, state, sink, kind),
        },
        Err(stop) => Err(stopped(stop)),
    }
}

/// Makes a step inside a flow collection while nothing is queued, whose groups go straight to the sink if they need not
/// wait. The common kinds are made here. The steps of others begin anew in the function for all kinds. `paired`: the step
/// of a scalar that is no key is made with that of what comes right after it.
#[inline(always)]
fn step_flow<S: yaml_token_sink_t>(
    text: &yaml_text_t,
    state: &mut state_t,
    sink: &mut S,
    paired: bool,
) -> Result<(), stop_t>
    ghost before: { List Laid }
    requires can { CanStep before (scanner_of text.now state.old) }
    requires flow { true ≡ nat_lt 0 (vec_len state.old.slots.outer) }
    requires alone { groups_in (scanner_of text.now state.old) ≡ [] }
    ensures steps { StepsTo before (scanner_of text.now state.old) (scanner_of text.now state.new) true
        (λ tokens. S.took sink.old tokens sink.new)
        S.may_refuse result }
    ensures within { OnOk result (S.within sink.old → S.within sink.new) }
{
    match pass_gap::<true>(text, state) {
        Ok(kind) => match kind {
            yaml_lexeme_kind_t::PLAIN => step_lent_in_flow::<plain_reader_t, S>(
                text, state, sink, paired,
            ),
            yaml_lexeme_kind_t::SINGLE_QUOTED => {
                step_lent_in_flow::<quoted_reader_t<true>, S>(text, state, sink, paired)
            }
            yaml_lexeme_kind_t::DOUBLE_QUOTED => {
                step_lent_in_flow::<quoted_reader_t<false>, S>(text, state, sink, paired)
            }
            yaml_lexeme_kind_t::FLOW_ENTRY => {
                step_character::<true, true, S>(text, state, sink, yaml_lexeme_kind_t::FLOW_ENTRY)
            }
            yaml_lexeme_kind_t::FLOW_SEQUENCE_START => {
                step_character::<true, true, S>(
                    text,
                    state,
                    sink,
                    yaml_lexeme_kind_t::FLOW_SEQUENCE_START,
                )
            }
            yaml_lexeme_kind_t::FLOW_MAPPING_START => {
                step_character::<true, true, S>(
                    text,
                    state,
                    sink,
                    yaml_lexeme_kind_t::FLOW_MAPPING_START,
                )
            }
            yaml_lexeme_kind_t::FLOW_SEQUENCE_END => {
                step_character::<true, true, S>(
                    text,
                    state,
                    sink,
                    yaml_lexeme_kind_t::FLOW_SEQUENCE_END,
                )
            }
            yaml_lexeme_kind_t::FLOW_MAPPING_END => {
                step_character::<true, true, S>(
                    text,
                    state,
                    sink,
                    yaml_lexeme_kind_t::FLOW_MAPPING_END,
                )
            }
            _ => step_at::<true, true, S>(text, state, sink),
        },
        Err(stop) => Err(stopped(stop)),
    }
}

/// Makes a step as `step_flow` does, for a sink that takes all tokens: a value and a `,` are one turn.
#[inline(never)]
fn step_flow_paired<S: yaml_token_sink_t>(
    text: &yaml_text_t,
    state: &mut state_t,
    sink: &mut S,
) -> Result<(), stop_t>
    ghost before: { List Laid }
    requires can { CanStep before (scanner_of text.now state.old) }
    requires flow { true ≡ nat_lt 0 (vec_len state.old.slots.outer) }
    requires alone { groups_in (scanner_of text.now state.old) ≡ [] }
    ensures steps { StepsTo before (scanner_of text.now state.old) (scanner_of text.now state.new) true
        (λ tokens. S.took sink.old tokens sink.new)
        S.may_refuse result }
    ensures within { OnOk result (S.within sink.old → S.within sink.new) }
{
    step_flow::<S>(text, state, sink, true)
}

/// Makes a step as `step_flow` does, for calls that hand out the tokens of one step.
#[inline(never)]
fn step_flow_apart<S: yaml_token_sink_t>(
    text: &yaml_text_t,
    state: &mut state_t,
    sink: &mut S,
) -> Result<(), stop_t>
    ghost before: { List Laid }
    requires can { CanStep before (scanner_of text.now state.old) }
    requires flow { true ≡ nat_lt 0 (vec_len state.old.slots.outer) }
    requires alone { groups_in (scanner_of text.now state.old) ≡ [] }
    ensures steps { StepsTo before (scanner_of text.now state.old) (scanner_of text.now state.new) true
        (λ tokens. S.took sink.old tokens sink.new)
        S.may_refuse result }
    ensures within { OnOk result (S.within sink.old → S.within sink.new) }
{
    step_flow::<S>(text, state, sink, false)
}

/// Makes a step, or two if the next token needs both, and hands on their groups: straight to the sink if `DIRECT` and
/// they need not wait, and else into the queue.
#[inline(always)]
pub(crate) fn step_to<const DIRECT: bool, S: yaml_token_sink_t>(
    text: &yaml_text_t,
    state: &mut state_t,
    sink: &mut S,
) -> Result<(), stop_t>
    ghost before: { List Laid }
    requires { CanStep before (scanner_of text.now state.old) }
    ensures steps { StepsTo before (scanner_of text.now state.old) (scanner_of text.now state.new) DIRECT
        (λ tokens. S.took sink.old tokens sink.new)
        S.may_refuse result }
    ensures within { OnOk result (S.within sink.old → S.within sink.new) }
{
    if !state.slots.outer.is_empty() {
        if DIRECT && state.layout.queue.groups.is_empty() {
            return step_flow_paired::<S>(text, state, sink);
        }
        return step_at::<true, DIRECT, S>(text, state, sink);
    }
    if DIRECT {
        step_block::<S>(text, state, sink)
    } else {
        step_at::<false, DIRECT, S>(text, state, sink)
    }
}

/// Makes a step as `step_block` does. It is a function of its own, for callers that do more than make steps.
#[inline(never)]
fn step_block_apart<S: yaml_token_sink_t>(
    text: &yaml_text_t,
    state: &mut state_t,
    sink: &mut S,
) -> Result<(), stop_t>
    ghost before: { List Laid }
    requires can { CanStep before (scanner_of text.now state.old) }
    requires flow { false ≡ nat_lt 0 (vec_len state.old.slots.outer) }
    ensures steps { StepsTo before (scanner_of text.now state.old) (scanner_of text.now state.new) true
        (λ tokens. S.took sink.old tokens sink.new)
        S.may_refuse result }
    ensures within { OnOk result (S.within sink.old → S.within sink.new) }
{
    step_block::<S>(text, state, sink)
}

/// Makes a step as `step_to` does whose groups go straight to the sink, by a call. Where a block collection is open and
/// nothing is queued, most steps are those of common kinds.
#[inline(always)]
pub(crate) fn step_apart<S: yaml_token_sink_t>(
    text: &yaml_text_t,
    state: &mut state_t,
    sink: &mut S,
) -> Result<(), stop_t>
    ghost before: { List Laid }
    requires { CanStep before (scanner_of text.now state.old) }
    ensures steps { StepsTo before (scanner_of text.now state.old) (scanner_of text.now state.new) true
        (λ tokens. S.took sink.old tokens sink.new)
        S.may_refuse result }
    ensures within { OnOk result (S.within sink.old → S.within sink.new) }
{
    if !state.slots.outer.is_empty() {
        if state.layout.queue.groups.is_empty() {
            return step_flow_apart::<S>(text, state, sink);
        }
        step_at::<true, true, S>(text, state, sink)
    } else if state.layout.levels.is_empty() || !state.layout.queue.groups.is_empty() {
        step_at::<false, true, S>(text, state, sink)
    } else {
        step_block_apart::<S>(text, state, sink)
    }
}

/// Makes a step, or two if the next token needs both. Their groups go into the queue.
#[inline(always)]
pub(crate) fn step(text: &yaml_text_t, state: &mut state_t) -> Result<(), stop_t>
    ghost before: { List Laid }
    requires { CanStep before (scanner_of text.now state.old) }
    ensures { IsStep before (scanner_of text.now state.old) (scanner_of text.now state.new) result }
{
    step_to::<false, no_sink_t>(text, state, &mut no_sink_t {})
}
