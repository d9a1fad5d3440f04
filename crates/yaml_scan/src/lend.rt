//! Scalars that are lent to a sink: a step lays one that stands in the text as it is, if nothing of that has to wait.
ghost use Rattle.std.specs.Prelude.{◌≡◌, ◌+◌, ◌<◌, ◌≤◌, ◌&&◌, ◌++◌, ◌∷◌, [], List, None, IfSome, OnOk, true, false, length};
ghost use Rattle.std.specs.Prelude.{nat_lt, vec_len, ℕ};
ghost use Rattle.yaml_text.specs.Text.{Text};
ghost use Rattle.yaml_text.specs.Token.{TokenData, token_of};
ghost use Rattle.yaml_text.specs.declared.token.yaml_token_t.{yaml_token_t as code_token_t};
ghost use Rattle.yaml_text.specs.declared.types.yaml_mark_t.{yaml_mark_t};
ghost use Rattle.yaml_lexeme.specs.Lexeme.{Lexeme};
ghost use Rattle.yaml_lexeme.specs.LexemeOf.{part_from};
ghost use Rattle.yaml_scan.specs.Kind.{is_candidate_kind, is_flow_start};
ghost use Rattle.yaml_scan.specs.Laid.{Laid};
ghost use Rattle.yaml_scan.specs.Lent.{lent_token};
ghost use Rattle.yaml_scan.specs.Sink.{said_len, texts_len};
ghost use Rattle.yaml_scan.specs.inside.Handed.{FindsRoom, IsReadTo, IsTokenOf, LaysTo, StepsTo, WasLaid};
ghost use Rattle.yaml_scan.specs.inside.Handed.{group_with, read_to, tokens_with};
ghost use Rattle.yaml_scan.specs.inside.Scanner.{Scanner, scanner_of};
ghost use Rattle.yaml_scan.specs.inside.Scanning.{CanLayAll, groups_in, lost_after, met_in};
ghost use Rattle.yaml_scan.specs.inside.Slots.{is_live};

use crate::follower::{follower_of, lay_followed};
use crate::keys::is_lost;
use crate::laid::{laid_t, lay_lexeme, token_of};
use crate::lent::yaml_lent_scalar_t;
use crate::met::met_t;
use crate::read::read_t;
use crate::sink::{hand_lent, hand_token, yaml_token_sink_t};
use crate::state::state_t;
use crate::stop::{stop_t, stopped};
use yaml_lexeme::yaml_part_t;
use yaml_text::{yaml_mark_t, yaml_text_t};

/// The scalar that a sink is lent.
#[inline(always)]
pub(crate) fn lent_of<'a>(start: yaml_mark_t, part: &yaml_part_t<'a>) -> yaml_lent_scalar_t<'a>
    ensures { lent_token result ≡ record {
      token_data = (part_from start part.now).token_data;
      start_mark = start;
      end_mark = part.now.end_mark;
    } }
{
    yaml_lent_scalar_t {
        value: part.value,
        style: part.style,
        start_mark: start,
        end_mark: part.end_mark,
    }
}

/// Whether the scalar after the gap may be lent, outside flow collections: nothing is queued, and it is not likely to
/// have to wait, or to go on in a line after its first. A scalar in quotes after `- ` or `? ` is seldom a key, and then it
/// waits for the end of its line. A plain scalar where no level is open is seldom a key, and then it goes on up to a
/// marker.
#[inline(always)]
pub(crate) fn may_be_lent<const QUOTED: bool>(state: &state_t) -> bool
    ensures { result ≡ true → state.now.layout.queue.groups.items ≡ [] }
{
    if !state.layout.queue.groups.is_empty() {
        return false;
    }
    if QUOTED {
        !(state.allowed && state.reach.index < state.gap_end.index)
    } else {
        !state.layout.levels.is_empty()
    }
}

/// Whether the lexeme of a step, which was read up to a mark, is not near the reader's fault there, and no candidate is
/// lost.
#[inline(always)]
pub(crate) fn goes_well(state: &state_t, met: met_t, reach: yaml_mark_t) -> bool
    requires { met.in_flow ≡ nat_lt 0 (vec_len state.now.slots.outer) }
    ensures far { result ≡ true → reach.index < state.now.near }
    ensures none_lost { (text : Text) → result ≡ true → lost_after state.now.limit state.now.slots
        (met_in (scanner_of text state.now) met) met.new reach ≡ None }
{
    reach.index < state.near && !is_lost(state.root_after(met), met.in_flow, state.limit, reach)
}

/// Whether the lexeme of a step, which was read up to a mark, may still become a key there.
#[inline(always)]
pub(crate) fn is_kept(state: &state_t, read: read_t) -> bool
    ensures { result ≡ (read.met.allowed && is_live state.now.limit read.reach read.met.new) }
{
    read.met.allowed && read.met.new.is_live(state.limit, read.reach)
}

/// Lays the scalar of a step, which was read, and with it what comes right after it, if the next token needs both.
/// Nothing is laid, and nothing returned, if any of that would have to wait.
#[inline(always)]
pub(crate) fn lay_lent(text: &yaml_text_t, state: &mut state_t, read: read_t) -> Option<laid_t>
    ghost before: { List Laid }
    requires can { (x : Lexeme) × (IsReadTo x read.reach read.passed_break × CanLayAll before
        (scanner_of text.now state.old) read.met x) }
    requires candidate { is_candidate_kind read.met.kind ≡ true }
    requires stays { is_flow_start read.met.kind ≡ false }
    requires alone { groups_in (scanner_of text.now state.old) ≡ [] }
    ensures laid { IfSome result (λ l. (d : TokenData) (b e : yaml_mark_t) (t : code_token_t)
        → CanLayAll before (scanner_of text.now state.old) read.met (read_to d b e read.reach read.passed_break)
        → IsTokenOf t d read.met.new.start e
        → WasLaid before (scanner_of text.now state.old) (scanner_of text.now state.new) true l t) }
    ensures straight { IfSome result (λ l. l.waits ≡ false) }
    ensures few { IfSome result (λ l. (t : code_token_t) → said_len (token_of t).token_data ≤ read.texts
        → (length (tokens_with (group_with l.ends l.opens l.key t) l.decider)
        ≤ length state.old.layout.levels.items + 4)
        × (texts_len (tokens_with (group_with l.ends l.opens l.key t) l.decider) ≤ read.texts)) }
    ensures none { result ≡ None → state.new ≡ state.old }
{
    match follower_of(text, state, false, read) {
        Some(follower) => {
            if follower.waits {
                return None;
            }
            let (ends, opens, key) = lay_followed(state, read, &follower);
            Some(laid_t {
                ends,
                opens,
                key,
                waits: false,
                decider: Some(token_of(read.reach, follower.decider.lexeme)),
            })
        }
        None => {
            if is_kept(state, read) {
                return None;
            }
            let (ends, opens) = lay_lexeme(state, read);
            Some(laid_t {
                ends,
                opens,
                key: false,
                waits: false,
                decider: None,
            })
        }
    }
}

/// Hands on what a step has laid, which need not wait. The sink is lent its scalar. Returns how many steps that makes.
#[inline(always)]
fn hand_scalar<S: yaml_token_sink_t>(
    state: &mut state_t,
    sink: &mut S,
    laid: laid_t,
    scalar: &yaml_lent_scalar_t,
) -> Result<u64, stop_t>
    requires straight { laid.waits ≡ false }
    requires laid { (text : Text) × (before : List Laid) × (start : Scanner) × (t : code_token_t)
        × (token_of t ≡ lent_token scalar.now) × WasLaid before start (scanner_of text state.old) true laid t }
    requires room { FindsRoom laid (said_len (lent_token scalar.now).token_data) (S.within sink.old) (λ tokens. (after : S)
        → S.took sink.old tokens after → S.within after) }
    ensures steps { (text : Text) (before : List Laid) (start : Scanner) (t : code_token_t)
        → token_of t ≡ lent_token scalar.now → WasLaid before start (scanner_of text state.old) true laid t
        → LaysTo before start (scanner_of text state.new) true (λ tokens. S.took sink.old tokens sink.new)
        S.may_refuse result }
    ensures within { OnOk result (S.within sink.old → S.within sink.new) }
{
    let laid_t {
        ends,
        opens,
        key,
        waits,
        decider,
    } = laid;
    match hand_lent(state, sink, ends, opens, key, scalar) {
        Ok(_) => match decider {
            Some(second) => match hand_token::<true, S>(state, sink, waits, second) {
                Ok(_) => Ok(2),
                Err(stop) => Err(stopped(stop)),
            },
            None => Ok(1),
        },
        Err(stop) => Err(stopped(stop)),
    }
}

/// Ends a step with what it has laid, which need not wait, and hands that on. The sink is lent its scalar.
#[inline(always)]
pub(crate) fn end_scalar<S: yaml_token_sink_t>(
    state: &mut state_t,
    sink: &mut S,
    laid: laid_t,
    scalar: &yaml_lent_scalar_t,
) -> Result<(), stop_t>
    requires straight { laid.waits ≡ false }
    requires laid { (text : Text) × (before : List Laid) × (start : Scanner) × (t : code_token_t)
        × (token_of t ≡ lent_token scalar.now) × WasLaid before start (scanner_of text state.old) true laid t }
    requires room { FindsRoom laid (said_len (lent_token scalar.now).token_data) (S.within sink.old) (λ tokens. (after : S)
        → S.took sink.old tokens after → S.within after) }
    ensures steps { (text : Text) (before : List Laid) (start : Scanner) (t : code_token_t)
        → token_of t ≡ lent_token scalar.now → WasLaid before start (scanner_of text state.old) true laid t
        → StepsTo before start (scanner_of text state.new) true (λ tokens. S.took sink.old tokens sink.new)
        S.may_refuse result }
    ensures within { OnOk result (S.within sink.old → S.within sink.new) }
{
    match hand_scalar(state, sink, laid, scalar) {
        Ok(made) => {
            state.made += made;
            Ok(())
        }
        Err(stop) => Err(stopped(stop)),
    }
}
