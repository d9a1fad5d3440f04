//! The steps of scalars that are lent, inside flow collections. Nothing is queued, so that there is no candidate. A
//! scalar is laid with what comes right after it, or alone: if steps are not `paired`, only with what decides whether it
//! is a key. The levels stay as they are.
ghost use Rattle.std.specs.Prelude.{ℕ, ◌≡◌, ◌+◌, ◌<◌, ◌≤◌, ◌∷◌, [], List, None, IfSome, OnOk, true, false, length};
ghost use Rattle.std.specs.VecDeque.{deque_capacity};
ghost use Rattle.yaml_text.specs.Token.{TokenData, token_of};
ghost use Rattle.yaml_text.specs.declared.token.yaml_token_t.{yaml_token_t as code_token_t};
ghost use Rattle.yaml_text.specs.declared.types.yaml_mark_t.{yaml_mark_t};
ghost use Rattle.yaml_lexeme.specs.Counted.{IsMarkOf};
ghost use Rattle.yaml_lexeme.specs.Lexeme.{Lexeme};
ghost use Rattle.yaml_lexeme.specs.LexemeOf.{lexeme_of};
ghost use Rattle.yaml_scan.specs.Kind.{is_candidate_kind, is_flow_start, is_value};
ghost use Rattle.yaml_scan.specs.Laid.{Laid};
ghost use Rattle.yaml_scan.specs.Sink.{said_len, texts_len};
ghost use Rattle.yaml_scan.specs.inside.Handed.{IsReadTo, IsTokenOf, StepsTo, WasLaid, group_with, read_to, tokens_with};
ghost use Rattle.yaml_scan.specs.inside.Scanner.{scanner_of};
ghost use Rattle.yaml_scan.specs.inside.Scanning.{CanLayAll, Comes, groups_in};
ghost use Rattle.yaml_scan.specs.inside.TextReads.{IsDecider};

use crate::allowed::is_allowed_after;
use crate::decider::{decider_at, decider_t};
use crate::follower::has_room_for_two;
use crate::groups::block_t;
use crate::kind::is_colon;
use crate::laid::{laid_t, token_of};
use crate::lend::{end_scalar, is_kept, lent_of};
use crate::levels::top_level;
use crate::lines::usual_met;
use crate::read::read_t;
use crate::sink::{has_room_for_both, yaml_token_sink_t};
use crate::source::part_at;
use crate::state::state_t;
use crate::stop::stop_t;
use yaml_lexeme::yaml_reader_t;
use yaml_text::{yaml_mark_t, yaml_text_t};

/// Whether what comes right after a scalar may be laid with it: it is not near the reader's fault, and no `:` after a
/// scalar that is no candidate for a key. `kept`: the scalar is one.
#[inline(always)]
fn may_be_laid_with(state: &state_t, kept: bool, decider: &decider_t) -> bool
    ensures far { result ≡ true → (lexeme_of decider.now.lexeme).reach.index < state.now.near }
    ensures key { result ≡ true → is_value decider.now.kind ≡ true → kept ≡ true }
{
    decider.lexeme.reach.index < state.near && (kept || !is_colon(decider.kind))
}

/// What comes right after a scalar in flow and may be laid with it: if steps are not `paired`, only where it decides
/// whether the scalar is a key. `kept`: the scalar may be one.
#[inline(always)]
fn follower_in_flow(
    text: &yaml_text_t,
    paired: bool,
    kept: bool,
    at: yaml_mark_t,
) -> Option<decider_t>
    requires { (p : ℕ) × IsMarkOf text.now.chars at p }
    ensures { IfSome result (λ d. (p : ℕ) → IsMarkOf text.now.chars at p
        → IsDecider text.now.chars true p d.kind (lexeme_of d.lexeme)) }
{
    if paired || kept {
        decider_at(text, at, true)
    } else {
        None
    }
}

/// Lays a scalar, which was read, with what comes right after it, or alone if it is no key. Nothing is laid, and nothing
/// returned, if it may yet be a key, or if what comes right after it is near the reader's fault.
#[inline(always)]
fn lay_in_flow(
    text: &yaml_text_t,
    state: &mut state_t,
    read: read_t,
    paired: bool,
) -> Option<laid_t>
    ghost before: { List Laid }
    requires can { (x : Lexeme) × (IsReadTo x read.reach read.passed_break × CanLayAll before
        (scanner_of text.now state.old) read.met x) }
    requires candidate { is_candidate_kind read.met.kind ≡ true }
    requires stays { is_flow_start read.met.kind ≡ false }
    requires alone { groups_in (scanner_of text.now state.old) ≡ [] }
    requires flow { read.met.in_flow ≡ true }
    requires two { 1 < deque_capacity state.old.layout.queue.groups }
    ensures laid { IfSome result (λ l. (d : TokenData) (b e : yaml_mark_t) (t : code_token_t)
        → CanLayAll before (scanner_of text.now state.old) read.met (read_to d b e read.reach read.passed_break)
        → IsTokenOf t d read.met.new.start e
        → WasLaid before (scanner_of text.now state.old) (scanner_of text.now state.new) true l t) }
    ensures straight { IfSome result (λ l. l.waits ≡ false) }
    ensures few { IfSome result (λ l. (t : code_token_t) → said_len (token_of t).token_data ≤ read.texts
        → (length (tokens_with (group_with l.ends l.opens l.key t) l.decider)
        ≤ length state.old.layout.levels.items + 4)
        × (texts_len (tokens_with (group_with l.ends l.opens l.key t) l.decider) ≤ read.texts)) }
    ensures none { result ≡ None → state.new ≡ state.old }
{
    let kept = is_kept(state, read);
    match follower_in_flow(text, paired, kept, read.reach) {
        Some(decider) => {
            if !may_be_laid_with(state, kept, &decider) {
                return None;
            }
            let colon = is_colon(decider.kind);
            state.slots.leave_at(decider.kind);
            state.allowed = is_allowed_after(decider.kind, true, !colon, false);
            state.reach = decider.lexeme.reach;
            Some(laid_t {
                ends: 0,
                opens: block_t::NONE,
                key: colon,
                waits: false,
                decider: Some(token_of(read.reach, decider.lexeme)),
            })
        }
        None => {
            if kept {
                return None;
            }
            state.allowed = is_allowed_after(read.met.kind, true, true, read.passed_break);
            state.reach = read.reach;
            Some(laid_t {
                ends: 0,
                opens: block_t::NONE,
                key: false,
                waits: false,
                decider: None,
            })
        }
    }
}

/// Makes the step of a scalar in flow, and lends it to the sink, if it is one line of the text as it stands there, it
/// need not wait, and the sink has room. Else nothing is done, and nothing returned.
#[inline(always)]
pub(crate) fn lend_in_flow<R: yaml_reader_t, S: yaml_token_sink_t>(
    text: &yaml_text_t,
    state: &mut state_t,
    sink: &mut S,
    paired: bool,
) -> Option<Result<(), stop_t>>
    ghost before: { List Laid }
    requires comes { Comes before (scanner_of text.now state.old) true R.KIND }
    requires candidate { is_candidate_kind R.KIND ≡ true }
    requires stays { is_flow_start R.KIND ≡ false }
    requires alone { groups_in (scanner_of text.now state.old) ≡ [] }
    ensures steps { IfSome result (λ r. StepsTo before (scanner_of text.now state.old) (scanner_of text.now state.new) true
        (λ tokens. S.took sink.old tokens sink.new) S.may_refuse r) }
    ensures within { IfSome result (λ r. OnOk r (S.within sink.old → S.within sink.new)) }
    ensures none { result ≡ None → (state.new ≡ state.old) × (sink.new ≡ sink.old) }
{
    if !has_room_for_two(&state.layout.queue) {
        return None;
    }
    let level = top_level(&state.layout.levels);
    let met = usual_met::<true>(text, state, R::KIND, level);
    let part = part_at::<R>(text, state, met.context)?;
    let read = read_t {
        met,
        reach: part.reach,
        passed_break: part.passed_break,
        texts: part.value.len() as u128,
    };
    if state.near <= part.reach.index
        || !has_room_for_both::<true, S>(sink, &state.layout.levels, read.texts)
    {
        return None;
    }
    let laid = lay_in_flow(text, state, read, paired)?;
    Some(end_scalar(state, sink, laid, &lent_of(met.new.start, &part)))
}
