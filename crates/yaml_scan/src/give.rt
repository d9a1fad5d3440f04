//! Tokens given to a sink: the next few of a parser, or all of an input; and all of an input in a list
//! (`specs/Scanned.antt`, `specs/Sink.antt`, `specs/All.antt`).
ghost use Rattle.std.specs.Prelude.{◌≡◌, ◌∷◌, [], List, IfErr, IfOk, true, false, ◌⊎◌, Some, ◌≤◌, ◌<◌, length};
ghost use Rattle.std.specs.Prelude.{MatchResult, OnErr, option_map, map};
ghost use Rattle.yaml_text.specs.Fault.{fault_of};
ghost use Rattle.yaml_text.specs.Token.{Token, token_of};
ghost use Rattle.yaml_text.specs.Text.{Text};
ghost use Rattle.yaml_scan.specs.All.{ReadsAll, AllOf, EndNoMore, EndAll, TellLexemes, TellFault, depth_of};
ghost use Rattle.yaml_scan.specs.Scanned.{ReadsNext, ReadsNone, Scanned};
ghost use Rattle.yaml_scan.specs.Decoded.{decoded_input};
ghost use Rattle.yaml_scan.specs.Headline.{Calls};
ghost use Rattle.yaml_scan.specs.Session.Call.{SCAN};
ghost use Rattle.yaml_scan.specs.Session.Answer.{FAULT};
ghost use Rattle.yaml_scan.specs.inside.Ready.{IsReady, IsNew, Pops};
ghost use Rattle.yaml_scan.specs.inside.Scanner.{scanner_of, Scanner};
ghost use Rattle.yaml_scan.specs.inside.Scanning.{IsOpen, IsRunning, groups_in, history};
ghost use Rattle.yaml_scan.specs.Words.{HasWords, HaveWords, HaveLines};
ghost use Rattle.yaml_scan.specs.inside.Given.{told_all, GaveRest, GivesAll, IsSettledTo, StopsGiving};
ghost use Rattle.yaml_scan.specs.inside.Handed.{Gives, group_tokens, GivesNext};
ghost use Rattle.yaml_scan.specs.inside.Sent.{Drains, DrainsOrStays, HasSentOrSettled, IsPutOrReturned, IsReadyGroup};
ghost use Rattle.yaml_scan.specs.inside.Sent.{SendsOrSettles};
ghost use Rattle.yaml_scan.specs.KeyLimits.{most_key_limit, key_limit};
ghost use Rattle.yaml_scan.specs.Sink.{IsGivenAll, IsGivenBeginning};
ghost use Rattle.yaml_scan.specs.Settled.{before};
ghost use Rattle.yaml_scan.specs.AnswerLaws.{StandInOrder, AreFollowed};
ghost use Rattle.yaml_scan.specs.Inputs.{answers_to};
ghost use Rattle.yaml_scan.specs.Puts.{AreReadAlike};
ghost use Rattle.yaml_scan.specs.CallMarks.{AllIsCounted};
ghost use Rattle.yaml_scan.specs.ParserCalls.{IsRefusedAtStart};

use crate::groups::{group_t, lead_t, lead_token};
use crate::keys::KEY_LIMIT;
use crate::lent::yaml_lent_scalar_t;
use crate::parser::{yaml_parser_t, yaml_scan_next};
use crate::scanner::begin;
use crate::session::is_last;
use crate::settled::is_settled;
use crate::sink::{count_of, give, give_group, has_room_for, said_len, yaml_token_sink_t};
use crate::state::{new_state, state_t};
use crate::step::{step_apart, step_to};
use crate::stop::{fault_at, stop_t, stopped};
use std::alloc::{AllocError, Global};
use yaml_text::{
    unnamed_yaml_token_t_data, yaml_encoding_t, yaml_fault_t, yaml_text_t, yaml_token_t,
};

/// Makes steps until the head of the queue is the next token, or until the tokens of a step went to the sink. Returns
/// whether none went there.
#[inline(always)]
fn send_or_settle<S: yaml_token_sink_t>(
    text: &yaml_text_t,
    state: &mut state_t,
    sink: &mut S,
) -> Result<bool, stop_t>
    requires runs { IsRunning (scanner_of text.now state.old) }
    requires still_open { IsOpen (scanner_of text.now state.old) }
    ensures sends { SendsOrSettles (scanner_of text.now state.old) (scanner_of text.now state.new)
        (λ tokens. S.took sink.old tokens sink.new) S.may_refuse
        result }
    ensures within { IfOk result (λ _. S.within sink.old → S.within sink.new) }
{
    let done = state.layout.queue.done;
    'steps: while !is_settled(state) {
        step_apart(text, state, sink)?;
        if state.layout.queue.done > done {
            return Ok(false);
        }
    }
    Ok(true)
}

/// Whether all tokens of the group at the head of the queue are settled, and the sink has room for them. The stream end
/// is not among them.
#[inline(always)]
fn is_ready<S: yaml_token_sink_t>(_text: &yaml_text_t, state: &state_t, sink: &S) -> bool
    requires runs { IsRunning (scanner_of _text.now state.now) }
    ensures { result ≡ true → (y : group_t) × IsReadyGroup (scanner_of _text.now state.now) y
        × (S.within sink.now → (after : S) → S.took sink.now (group_tokens y) after → S.within after) }
{
    let queue = &state.layout.queue;
    if queue.early > 0 || state.slots.awaited == queue.done + 1 {
        return false;
    }
    match queue.groups.front() {
        Some(head) => !is_last(&head.token)
            && has_room_for(sink, head.ends, said_len(&head.token.token_data)),
        None => false,
    }
}

/// Takes the group at the head of the queue.
#[inline(always)]
fn take_group(_text: &yaml_text_t, state: &mut state_t) -> group_t
    requires runs { IsRunning (scanner_of _text.now state.old) }
    requires still_open { IsOpen (scanner_of _text.now state.old) }
    requires ready { (y : group_t) × IsReadyGroup (scanner_of _text.now state.old) y }
    requires words { HaveWords (told_all (scanner_of _text.now state.old)) }
    ensures head { groups_in (scanner_of _text.now state.old) ≡ result ∷ groups_in (scanner_of _text.now state.new) }
    ensures drains { Drains (scanner_of _text.now state.old) (scanner_of _text.now state.new) (group_tokens result) }
    ensures words { HasWords (token_of result.token).token_data }
{
    let group = state.layout.queue.groups.pop_front().unwrap();
    state.layout.queue.done += 1;
    state.taken += count_of(&group);
    group
}

/// Takes the group at the head of the queue, and gives all of it to a sink. A token that is a group alone goes a way of
/// its own, so that it is moved once.
#[inline(always)]
fn give_ready<S: yaml_token_sink_t>(
    text: &yaml_text_t,
    state: &mut state_t,
    sink: &mut S,
) -> Result<(), stop_t>
    requires runs { IsRunning (scanner_of text.now state.old) }
    requires still_open { IsOpen (scanner_of text.now state.old) }
    requires ready { (y : group_t) × IsReadyGroup (scanner_of text.now state.old) y }
    requires words { HaveWords (told_all (scanner_of text.now state.old)) }
    ensures { (y : group_t)
        × (groups_in (scanner_of text.now state.old) ≡ y ∷ groups_in (scanner_of text.now state.new))
        × Drains (scanner_of text.now state.old) (scanner_of text.now state.new) (group_tokens y)
        × Gives (λ tokens. S.took sink.old tokens sink.new) S.may_refuse (group_tokens y) result }
{
    if state.layout.queue.is_bare() {
        let group = take_group(text, state);
        give(sink, group.token)
    } else {
        let group = take_group(text, state);
        give_group(sink, group)
    }
}

/// Gives groups from the head of the queue to a sink, while all tokens of the group there are settled and the sink has
/// room for them. Returns whether it gave any.
#[inline(always)]
fn drain<S: yaml_token_sink_t>(text: &yaml_text_t, state: &mut state_t, sink: &mut S) -> bool
    requires runs { IsRunning (scanner_of text.now state.old) }
    requires still_open { IsOpen (scanner_of text.now state.old) }
    requires words { HaveWords (told_all (scanner_of text.now state.old)) }
    requires takes { S.may_refuse → ⊥ }
    ensures drains { DrainsOrStays (scanner_of text.now state.old) (scanner_of text.now state.new)
        (λ tokens. S.took sink.old tokens sink.new) result }
    ensures within { S.within sink.old → S.within sink.new }
{
    if !sink.has_room(3, 0) {
        return false;
    }
    let mut any = false;
    'groups: while is_ready(text, state, sink) {
        match give_ready(text, state, sink) {
            Ok(_) => any = true,
            Err(_) => unreachable!(),
        }
    }
    any
}

/// Makes the steps that the next token needs, or has the tokens of a step go to the sink. Once the next token is in the
/// queue, it goes there with all of its group, and so do those after it, if they need not wait either. Returns whether
/// no token went there.
#[inline(always)]
pub(crate) fn send_on<S: yaml_token_sink_t>(
    text: &yaml_text_t,
    state: &mut state_t,
    sink: &mut S,
) -> Result<bool, stop_t>
    requires runs { IsRunning (scanner_of text.now state.old) }
    requires still_open { IsOpen (scanner_of text.now state.old) }
    requires words { HaveWords (told_all (scanner_of text.now state.old)) }
    requires takes { S.may_refuse → ⊥ }
    ensures sends { SendsOrSettles (scanner_of text.now state.old) (scanner_of text.now state.new)
        (λ tokens. S.took sink.old tokens sink.new) S.may_refuse result }
    ensures within { IfOk result (λ _. S.within sink.old → S.within sink.new) }
{
    if !send_or_settle(text, state, sink)? {
        return Ok(false);
    }
    Ok(!drain(text, state, sink))
}

/// A token that is returned. This is called and not inlined, since else what goes to the sink is put together a few
/// bytes at a time, as a part of the result.
#[cold]
#[inline(never)]
fn returned(token: yaml_token_t) -> Option<yaml_token_t>
    ensures { result ≡ Some token }
{
    Some(token)
}

/// Gives a token to a sink, if the sink has room for it and it is not the stream end. Else returns it.
#[inline(always)]
fn put_or_return<S: yaml_token_sink_t>(sink: &mut S, token: yaml_token_t) -> Option<yaml_token_t>
    requires words { HasWords (token_of token).token_data }
    requires takes { S.may_refuse → ⊥ }
    ensures put { IsPutOrReturned (token_of token) (λ tokens. S.took sink.old tokens sink.new) result }
    ensures within { S.within sink.old → S.within sink.new }
{
    if is_last(&token) || !sink.has_room(1, said_len(&token.token_data)) {
        return returned(token);
    }
    match sink.put(token) {
        Ok(_) => None,
        Err(_) => unreachable!(),
    }
}

/// Takes the next tokens, at least one. They go to the sink, and nothing is returned. They are those of a step if they
/// need not wait, or those of steps that have waited and need not any more, while the sink has room for all tokens of a
/// step. Else the next token goes there alone. If the sink has no room for that token, or if it is the stream end, the
/// token is returned, and the sink was given none.
///
/// If a new parser is asked so again and again, the tokens that the sink got and those that were returned are together
/// those that [`yaml_scan_to`](crate::yaml_scan_to) gives, in order, to the stream end or before the fault. The stream
/// end is returned. The sink has to be one that never refuses a token.
///
/// After the end of the session the sink is given nothing, and the empty token is returned.
///
/// # Errors
/// The same as of [`yaml_parser_scan`](crate::yaml_parser_scan).
pub fn yaml_scan_next_to<S: yaml_token_sink_t>(
    parser: &mut yaml_parser_t,
    sink: &mut S,
) -> Result<Option<yaml_token_t>, yaml_fault_t>
    requires { S.may_refuse → ⊥ }
    ensures next { IfOk result (λ o. ReadsNext parser.old parser.new (λ tokens. S.took sink.old tokens sink.new) o) }
    ensures fault { IfErr result (λ fault. (given : List Token)
        → Scanned parser.old.limit parser.old.setting parser.old.input parser.old given false
        → ReadsAll parser.old.limit parser.old.setting parser.old.input given (Some (fault_of fault))) }
    ensures ended { IfErr result (λ fault. Calls decoded_input SCAN parser.old (FAULT (fault_of fault)) parser.new) }
    ensures none { IfErr result (λ _. S.took sink.old [] sink.new) }
    ensures over { ReadsNone parser.old parser.new (λ tokens. S.took sink.old tokens sink.new) result }
    ensures within { S.within sink.old → S.within sink.new }
{
    if parser.scanner.session.over || parser.scanner.session.peeked {
        return match yaml_scan_next(parser) {
            Ok((token, _)) => Ok(Some(token)),
            Err(fault) => Err(fault),
        };
    }
    let settled = match parser.scanner.send(parser.input, &mut parser.part, sink) {
        Ok(settled) => settled,
        Err(stop) => {
            parser.scanner.session.close(stop);
            return match parser.scanner.session.fault() {
                Some(fault) => Err(*fault),
                None => unreachable!(),
            };
        }
    };
    if !settled {
        return Ok(None);
    }
    let token = parser.scanner.session.take();
    Ok(put_or_return(sink, token))
}

/// Makes steps until the head of the queue is the next token. The groups of steps that need not wait go to the sink.
#[inline(always)]
fn settle_to<S: yaml_token_sink_t>(
    text: &yaml_text_t,
    state: &mut state_t,
    sink: &mut S,
) -> Result<(), stop_t>
    requires runs { IsRunning (scanner_of text.now state.old) }
    requires still_open { IsOpen (scanner_of text.now state.old) }
    ensures { MatchResult result
        (λ _. IsSettledTo (scanner_of text.now state.old) (scanner_of text.now state.new)
        (λ tokens. S.took sink.old tokens sink.new))
        (λ stop. StopsGiving (scanner_of text.now state.old) state.new.fault stop
        (λ tokens. S.took sink.old tokens sink.new)
        S.may_refuse) }
{
    'steps: while !is_settled(state) {
        step_to::<true, S>(text, state, sink)?;
    }
    Ok(())
}

/// Gives a token to a sink. Returns whether it is the stream end.
#[inline(always)]
fn give_taken<S: yaml_token_sink_t>(sink: &mut S, token: yaml_token_t) -> Result<bool, stop_t>
    requires { HasWords (token_of token).token_data }
    ensures { GivesNext (λ tokens. S.took sink.old tokens sink.new) S.may_refuse (token_of token) result }
{
    let last = is_last(&token);
    give(sink, token)?;
    Ok(last)
}

/// Takes the head of the queue, and gives it to a sink. Returns whether it is the stream end. Each way in which a token
/// is taken gives it by itself, so that the compiler moves it once.
#[inline(always)]
pub(crate) fn give_next<S: yaml_token_sink_t>(
    _text: &yaml_text_t,
    state: &mut state_t,
    sink: &mut S,
) -> Result<bool, stop_t>
    requires runs { IsRunning (scanner_of _text.now state.old) }
    requires settled { state.old.taken < length (before state.old.limit (history (scanner_of _text.now state.old))) }
    requires words { (t : Scanner) (x : Token) → Pops (scanner_of _text.now state.old) t x → HasWords x.token_data }
    ensures { (x : Token) × Pops (scanner_of _text.now state.old) (scanner_of _text.now state.new) x
        × GivesNext (λ tokens. S.took sink.old tokens sink.new) S.may_refuse x result }
{
    state.taken += 1;
    let queue = &mut state.layout.queue;
    if queue.is_early() {
        return give_taken(sink, queue.take_early());
    }
    let (lead, mark) = queue.take_lead();
    match lead {
        lead_t::NOTHING => give_taken(sink, queue.take_bare()),
        _ => give_taken(sink, lead_token(lead, mark)),
    }
}

/// Gives the tokens of a scanner that has made the first step to a sink, up to the stream end.
#[inline(always)]
fn give_rest<S: yaml_token_sink_t>(
    text: &yaml_text_t,
    state: &mut state_t,
    sink: &mut S,
) -> Result<(), stop_t>
    requires runs { IsRunning (scanner_of text.now state.old) }
    requires still_open { IsOpen (scanner_of text.now state.old) }
    requires words { HaveWords (told_all (scanner_of text.now state.old)) }
    ensures { MatchResult result (λ _. GaveRest (scanner_of text.now state.old)
        (λ tokens. S.took sink.old tokens sink.new))
        (λ stop. StopsGiving (scanner_of text.now state.old) state.new.fault stop
        (λ tokens. S.took sink.old tokens sink.new)
        S.may_refuse) }
{
    let mut last = false;
    'tokens: while !last {
        settle_to(text, state, sink)?;
        last = match give_next(text, state, sink) {
            Ok(last) => last,
            Err(stop) => return Err(stopped(stop)),
        };
    }
    Ok(())
}

/// Gives the tokens of a new scanner to a sink, up to the stream end.
#[inline(always)]
fn give_all<S: yaml_token_sink_t>(
    state: &mut state_t,
    input: &[u8],
    setting: yaml_encoding_t,
    sink: &mut S,
) -> Result<(), stop_t>
    requires { (text : Text) → IsNew (scanner_of text state.old) }
    ensures { GivesAll (λ tokens. S.took sink.old tokens sink.new) S.may_refuse state.old.limit setting input.now
        state.new.fault result }
{
    let kept = begin(state, input, setting)?;
    let text = kept.view(input);
    give_rest(&text, state, sink)
}

/// Gives all tokens of an input to a sink, in order: to STREAM-END, or those before its fault, and returns the fault.
/// The key limit is in bytes, from 1 to 65,536.
///
/// If the scanner is refused memory, the fault is of kind memory, and the tokens are those that some of the steps
/// settle, STREAM-END not among them.
///
/// # Errors
/// `AllocError` if the sink found no memory for a token. Then it was given the tokens before that one.
pub fn yaml_scan_to<S: yaml_token_sink_t>(
    alloc: Global,
    input: &[u8],
    setting: yaml_encoding_t,
    limit: u32,
    sink: &mut S,
) -> Result<Option<yaml_fault_t>, AllocError>
    requires least { 1 ≤ limit }
    requires most { limit ≤ most_key_limit }
    ensures given { IfOk result (λ fault.
        IsGivenAll (λ tokens. S.took sink.old tokens sink.new) limit setting input.now (option_map fault_of fault)) }
    ensures cut { OnErr result (
        IsGivenBeginning (λ tokens. S.took sink.old tokens sink.new) limit setting input.now) }
    ensures refused { OnErr result S.may_refuse }
{
    let mut state = new_state(alloc, limit as u64);
    match give_all(&mut state, input, setting, sink) {
        Ok(_) => Ok(None),
        Err(stop) => match stop {
            stop_t::SINK => Err(AllocError),
            _ => Ok(Some(fault_at(stop, &state.fault))),
        },
    }
}

/// The tokens that were given, in a list.
#[derive(Drop)]
struct token_list_t {
    tokens: Vec<yaml_token_t>,
}

impl yaml_token_sink_t for token_list_t {
    ghost use Rattle.std.specs.Prelude.{◌≡◌, ◌++◌, map};
    ghost use Rattle.yaml_text.specs.Token.{token_of};
    ghost use Rattle.yaml_scan.specs.inside.MoreTaken.{list_none, list_more};

    ghost took = { λ a tokens b. map token_of b.tokens.items ≡ map token_of a.tokens.items ++ tokens };

    ghost may_refuse = { Unit {0} };

    ghost within = { λ s. Unit {0} };

    ghost lacks = { λ s count texts. Unit {0} };

    fn put(&mut self, token: yaml_token_t) -> Result<(), AllocError> {
        self.tokens.push(token)?;
        Ok(())
    }

    fn put_scalar(&mut self, scalar: &yaml_lent_scalar_t) -> Result<(), AllocError> {
        let token = scalar.own(*self.tokens.allocator())?;
        self.tokens.push(token)?;
        Ok(())
    }

    #[inline(always)]
    fn room(&mut self, alloc: Global) -> Vec<u8> {
        Vec::new(alloc)
    }

    #[inline(always)]
    fn has_room(&self, _count: u128, _texts: u128) -> bool {
        true
    }

    ghost took_none = { λ s. list_none (map token_of s.tokens.items) };

    ghost took_more = { λ a b c xs ys e f.
        list_more (map token_of a.tokens.items) (map token_of b.tokens.items) (map token_of c.tokens.items) xs ys e f };

    ghost within_none = { λ a b e w. tt };
}

/// All tokens of an input, to STREAM-END, or those before its fault, and the fault. The key limit is 1,024 bytes.
///
/// If the scanner is refused memory, the fault is of kind memory, and the tokens are those that some of the steps
/// settle, STREAM-END not among them.
///
/// # Errors
/// `AllocError` if there is no memory for the list of tokens.
pub fn yaml_scan_all(
    alloc: Global,
    input: &[u8],
    setting: yaml_encoding_t,
) -> Result<(Vec<yaml_token_t>, Option<yaml_fault_t>), AllocError>
    ensures answers { IfOk result (λ r.
        ReadsAll key_limit setting input.now (map token_of r.0.items) (option_map fault_of r.1)) }
    ensures at_start { IfOk result (λ r. IsRefusedAtStart (decoded_input setting input.now)
        → AllOf (answers_to key_limit setting input.now) (map token_of r.0.items) (option_map fault_of r.1)) }
    ensures order { IfOk result (λ r. StandInOrder 0 (map token_of r.0.items)) }
    ensures ends { IfOk result (λ r. EndNoMore (map token_of r.0.items)) }
    ensures ends_all { IfOk result (λ r.
        EndAll (depth_of key_limit setting input.now) (map token_of r.0.items) (option_map fault_of r.1)) }
    ensures keys { IfOk result (λ r. AreFollowed key_limit (map token_of r.0.items)) }
    ensures lexemes { IfOk result (λ r.
        TellLexemes key_limit setting input.now (map token_of r.0.items) (option_map fault_of r.1)) }
    ensures fault { IfOk result (λ r. TellFault key_limit setting input.now (option_map fault_of r.1)) }
    ensures lines { IfOk result (λ r. HaveLines (map token_of r.0.items) (option_map fault_of r.1)) }
    ensures local { IfOk result (λ r.
        AreReadAlike key_limit setting input.now (map token_of r.0.items) (option_map fault_of r.1)) }
    ensures marks { IfOk result (λ r.
        AllIsCounted setting input.now (map token_of r.0.items) (option_map fault_of r.1)) }
{
    yaml_scan_all_limit(alloc, input, setting, KEY_LIMIT)
}

/// All tokens of an input, as [`yaml_scan_all`] returns them, with a key limit in bytes, from 1 to 65,536.
///
/// # Errors
/// `AllocError` if there is no memory for the list of tokens.
pub fn yaml_scan_all_limit(
    alloc: Global,
    input: &[u8],
    setting: yaml_encoding_t,
    limit: u32,
) -> Result<(Vec<yaml_token_t>, Option<yaml_fault_t>), AllocError>
    requires least { 1 ≤ limit }
    requires most { limit ≤ most_key_limit }
    ensures answers { IfOk result (λ r.
        ReadsAll limit setting input.now (map token_of r.0.items) (option_map fault_of r.1)) }
    ensures at_start { IfOk result (λ r. IsRefusedAtStart (decoded_input setting input.now)
        → AllOf (answers_to limit setting input.now) (map token_of r.0.items) (option_map fault_of r.1)) }
    ensures order { IfOk result (λ r. StandInOrder 0 (map token_of r.0.items)) }
    ensures ends { IfOk result (λ r. EndNoMore (map token_of r.0.items)) }
    ensures ends_all { IfOk result (λ r.
        EndAll (depth_of limit setting input.now) (map token_of r.0.items) (option_map fault_of r.1)) }
    ensures keys { IfOk result (λ r. AreFollowed limit (map token_of r.0.items)) }
    ensures lexemes { IfOk result (λ r.
        TellLexemes limit setting input.now (map token_of r.0.items) (option_map fault_of r.1)) }
    ensures fault { IfOk result (λ r. TellFault limit setting input.now (option_map fault_of r.1)) }
    ensures lines { IfOk result (λ r. HaveLines (map token_of r.0.items) (option_map fault_of r.1)) }
    ensures local { IfOk result (λ r.
        AreReadAlike limit setting input.now (map token_of r.0.items) (option_map fault_of r.1)) }
    ensures marks { IfOk result (λ r.
        AllIsCounted setting input.now (map token_of r.0.items) (option_map fault_of r.1)) }
{
    let mut list = token_list_t {
        tokens: Vec::new(alloc),
    };
    let fault = yaml_scan_to(alloc, input, setting, limit, &mut list)?;
    Ok((list.tokens, fault))
}
