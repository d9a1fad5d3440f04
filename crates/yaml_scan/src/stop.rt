//! Why a step stops: memory was refused, there is a fault, or the sink refused a token. The functions that make a step
//! stop are cold, and find again what it has tested.
ghost use Rattle.std.specs.Prelude.{◌≡◌, Bool, List, not, true, Some, None, Err};
ghost use Rattle.std.specs.Option.{is_some};
ghost use Rattle.yaml_text.specs.Fault.{fault_of, scanner_fault, Fault};
ghost use Rattle.yaml_text.specs.Decoding.{refusal_seen};
ghost use Rattle.yaml_lexeme.specs.Lexeme.{Lexeme as yaml_lexeme_t};
ghost use Rattle.yaml_lexeme.specs.Counted.{IsMarkOf};
ghost use Rattle.yaml_scan.specs.declared.stop.stop_t.TheVariants.{MEMORY, SINK};
ghost use Rattle.yaml_scan.specs.inside.Stop.{fault_at, no_fault};
ghost use Rattle.yaml_scan.specs.declared.met.met_t.{met_t};
ghost use Rattle.yaml_scan.specs.Laid.{Laid};
ghost use Rattle.yaml_scan.specs.SourceOf.{source_of};
ghost use Rattle.yaml_scan.specs.Step.{gap_end_of, no_colon, in_simple_key};
ghost use Rattle.yaml_scan.specs.inside.Slots.{lost_held, root_of};
ghost use Rattle.yaml_scan.specs.inside.Scanner.{scanner_of};
ghost use Rattle.yaml_scan.specs.inside.Scanning.{CanRead, CanStep, Comes, Ends, StopsAfter, IsReadIn, Offends, Passes};
ghost use Rattle.yaml_scan.specs.inside.Scanning.{Refuses, allowed_in, cleared_in, refused_in};

use crate::allowed::is_key_allowed;
use crate::keys::{candidate_t, lost_at};
use crate::kind::start_after;
use crate::slots::root;
use crate::state::state_t;
use std::alloc::AllocError;
use yaml_lexeme::{yaml_lexeme_fault, yaml_lexeme_kind_t, yaml_refusal_t};
use yaml_text::{
    make_memory_fault, make_scanner_fault, yaml_error_type_t, yaml_fault_t, yaml_mark_t,
    yaml_text_t,
};

/// No fault of a step.
fn make_no_fault() -> yaml_fault_t
    ensures { fault_of result ≡ no_fault }
{
    yaml_fault_t {
        error: yaml_error_type_t::YAML_NO_ERROR,
        ..make_memory_fault()
    }
}

/// Why a step stopped: memory was refused, or there is a fault, which was stored, or the sink refused a token.
#[derive(Clone, Copy)]
pub(crate) enum stop_t {
    MEMORY,
    FAULT,
    SINK,
}

impl From<AllocError> for stop_t {
    ghost from_gives = { λ _ stop. stop ≡ MEMORY };

    #[cold]
    fn from(_error: AllocError) -> stop_t {
        stop_t::MEMORY
    }
}

/// The stop of a sink that refused a token.
#[cold]
pub(crate) fn stop_by_sink() -> stop_t
    ensures { result ≡ SINK }
{
    stop_t::SINK
}

/// The same stop. It is cold, so that the compiler takes no stop for likely.
#[cold]
pub(crate) fn stopped(stop: stop_t) -> stop_t
    ensures { result ≡ stop }
{
    stop
}

/// The fault of a stop, if that is not by the sink.
pub(crate) fn fault_at(stop: stop_t, stored: &Option<yaml_fault_t>) -> yaml_fault_t
    ensures { fault_of result ≡ fault_at stop stored.now }
{
    match stop {
        stop_t::MEMORY => make_memory_fault(),
        stop_t::FAULT => match stored {
            Some(fault) => *fault,
            None => make_no_fault(),
        },
        stop_t::SINK => make_no_fault(),
    }
}

/// A fault of the scanner, or the reader's if that is near it.
fn nearest(_text: &yaml_text_t, state: &state_t, fault: yaml_fault_t) -> yaml_fault_t
    ghost before: { List Laid }
    requires can { CanStep before (scanner_of _text.now state.now) }
    requires offends { Offends before (scanner_of _text.now state.now) (fault_of fault) }
    ensures { Ends before (scanner_of _text.now state.now) (fault_of result) }
{
    match state.fault {
        Some(refused) => if state.near <= fault.problem_mark.index {
            refused
        } else {
            fault
        },
        None => fault,
    }
}

/// Keeps a fault of the scanner, or the reader's if that is near it.
fn keep_nearest(text: &yaml_text_t, state: &mut state_t, fault: yaml_fault_t) -> stop_t
    ghost before: { List Laid }
    requires can { CanStep before (scanner_of text.now state.old) }
    requires offends { Offends before (scanner_of text.now state.old) (fault_of fault) }
    ensures { Refuses before (scanner_of text.now state.old) (scanner_of text.now state.new) result }
{
    state.fault = Some(nearest(text, state, fault));
    stop_t::FAULT
}

/// Stops near the reader's fault.
fn stop_near(_text: &yaml_text_t, state: &state_t) -> stop_t
    ghost before: { List Laid }
    requires { (f : Fault) × (refusal_seen state.now.fault ≡ Some f) × Ends before
        (scanner_of _text.now state.now) f }
    ensures { Refuses before (scanner_of _text.now state.now) (scanner_of _text.now state.now) result }
{
    match state.fault {
        Some(_) => stop_t::FAULT,
        None => unreachable!(),
    }
}

/// Stops at a mark, since a candidate is lost.
fn stop_without(
    text: &yaml_text_t,
    state: &mut state_t,
    held: candidate_t,
    mark: yaml_mark_t,
) -> stop_t
    ghost before: { List Laid }
    requires can { CanStep before (scanner_of text.now state.old) }
    requires offends { Offends before (scanner_of text.now state.old) (scanner_fault no_colon mark
        (Some in_simple_key) held.start) }
    ensures { Refuses before (scanner_of text.now state.old) (scanner_of text.now state.new) result }
{
    let fault = make_scanner_fault(
        "could not find expected ':'",
        mark,
        Some("while scanning a simple key"),
        held.start,
    );
    keep_nearest(text, state, fault)
}

/// Stops at the end of the gap, since the candidate of depth 0 is lost there.
#[cold]
pub(crate) fn stop_in_gap(text: &yaml_text_t, state: &mut state_t) -> stop_t
    ghost before: { List Laid }
    requires can { CanStep before (scanner_of text.now state.old) }
    requires gap_end { IsMarkOf text.now.chars state.old.gap_end
        (gap_end_of (source_of text.now.chars) before) }
    requires lost { is_some (lost_held state.old.limit state.old.gap_end
        (root_of state.old.slots.outer.items state.old.slots.top)) ≡ true }
    ensures { Refuses before (scanner_of text.now state.old) (scanner_of text.now state.new) result }
{
    let gap_end = state.gap_end;
    let root = root(&state.slots.outer, state.slots.top);
    match lost_at(root, state.limit, gap_end) {
        Some(held) => stop_without(text, state, held, gap_end),
        None => unreachable!(),
    }
}

/// Stops after the gap, since no lexeme starts there.
#[cold]
pub(crate) fn stop_without_kind(text: &yaml_text_t, state: &mut state_t) -> stop_t
    ghost before: { List Laid }
    requires { (in_flow : Bool) × Passes before (scanner_of text.now state.old) in_flow
        × ((source_of text.now.chars).kind in_flow
        (gap_end_of (source_of text.now.chars) before) ≡ None) }
    ensures { Refuses before (scanner_of text.now state.old) (scanner_of text.now state.new) result }
{
    let gap_end = state.gap_end;
    let fault = make_scanner_fault(
        "found character that cannot start any token",
        gap_end,
        Some("while scanning for the next token"),
        gap_end,
    );
    keep_nearest(text, state, fault)
}

/// Stops after the gap, since the kind of the lexeme there needs an allowed key and none is allowed.
#[cold]
pub(crate) fn stop_at_kind(
    text: &yaml_text_t,
    state: &mut state_t,
    in_flow: bool,
    kind: yaml_lexeme_kind_t,
) -> stop_t
    ghost before: { List Laid }
    requires comes { Comes before (scanner_of text.now state.old) in_flow kind }
    requires refused { is_some (refused_in (scanner_of text.now state.old) in_flow kind
        (allowed_in (scanner_of text.now state.old) in_flow)) ≡ true }
    ensures { Refuses before (scanner_of text.now state.old) (scanner_of text.now state.new) result }
{
    let gap_end = state.gap_end;
    let allowed = is_key_allowed(state.allowed, in_flow, state.reach, gap_end);
    match state.refused_by(in_flow, kind, allowed) {
        Some(problem) => {
            let fault = make_scanner_fault(problem, gap_end, None, gap_end);
            keep_nearest(text, state, fault)
        }
        None => unreachable!(),
    }
}

/// Stops at the start of a lexeme, since it would clear or replace a required candidate.
#[cold]
pub(crate) fn stop_at_start(
    text: &yaml_text_t,
    state: &mut state_t,
    in_flow: bool,
    kind: yaml_lexeme_kind_t,
) -> stop_t
    ghost before: { List Laid }
    requires comes { Comes before (scanner_of text.now state.old) in_flow kind }
    requires accepted { refused_in (scanner_of text.now state.old) in_flow kind
        (allowed_in (scanner_of text.now state.old) in_flow) ≡ None }
    requires cleared { is_some (cleared_in (scanner_of text.now state.old) in_flow kind
        (allowed_in (scanner_of text.now state.old) in_flow)) ≡ true }
    ensures { Refuses before (scanner_of text.now state.old) (scanner_of text.now state.new) result }
{
    let gap_end = state.gap_end;
    let allowed = is_key_allowed(state.allowed, in_flow, state.reach, gap_end);
    match state.cleared_by(in_flow, kind, allowed) {
        Some(held) => stop_without(text, state, held, start_after(kind, gap_end)),
        None => unreachable!(),
    }
}

/// Stops in a lexeme that was refused.
#[cold]
pub(crate) fn stop_in_lexeme(
    text: &yaml_text_t,
    state: &mut state_t,
    kind: yaml_lexeme_kind_t,
    refusal: yaml_refusal_t,
) -> stop_t
    ghost before: { List Laid }
    requires { (met : met_t) × CanRead before (scanner_of text.now state.old) met × (met.kind ≡ kind)
        × IsReadIn (scanner_of text.now state.old) kind met.context state.old.there (Err refusal) }
    ensures { Refuses before (scanner_of text.now state.old) (scanner_of text.now state.new) result }
{
    match refusal {
        yaml_refusal_t::MEMORY => stop_t::MEMORY,
        yaml_refusal_t::OFFENCE(_) => {
            let fault = yaml_lexeme_fault(refusal, kind, state.gap_end, state.there);
            keep_nearest(text, state, fault)
        }
    }
}

/// Stops after a lexeme that was read: near the reader's fault, or since a candidate is lost there.
#[cold]
pub(crate) fn stop_after(
    text: &yaml_text_t,
    state: &mut state_t,
    in_flow: bool,
    kind: yaml_lexeme_kind_t,
) -> stop_t
    ghost before: { List Laid }
    requires { (met : met_t) × (lexeme : yaml_lexeme_t) × StopsAfter before
        (scanner_of text.now state.old) met lexeme
        × (met.in_flow ≡ in_flow) × (met.kind ≡ kind) }
    ensures { Refuses before (scanner_of text.now state.old) (scanner_of text.now state.new) result }
{
    let there = state.there;
    if state.near <= there.index {
        return stop_near(text, state);
    }
    let allowed = is_key_allowed(state.allowed, in_flow, state.reach, state.gap_end);
    let met = state.met_of(in_flow, kind, allowed);
    match lost_at(state.root_after(met), state.limit, there) {
        Some(held) => stop_without(text, state, held, there),
        None => unreachable!(),
    }
}
