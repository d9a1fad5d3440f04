//! Tokens in batches: they are given to a sink until it has no room for the next one. A token without room stays in the
//! queue, and is shown (`specs/KeptCalls.antt`, `specs/inside/KeptParts.antt`).
ghost use Rattle.std.specs.Prelude.{◌≡◌, ◌⊎◌, ◌<◌, ◌-◌, ◌∷◌, [], Ok, true, false, length};
ghost use Rattle.yaml_text.specs.Text.{Text};
ghost use Rattle.yaml_text.specs.Token.{Token};
ghost use Rattle.yaml_scan.specs.ParserCalls.{token_shown};
ghost use Rattle.yaml_scan.specs.Sink.{said_len};
ghost use Rattle.yaml_scan.specs.inside.Given.{all_in};
ghost use Rattle.yaml_scan.specs.inside.KeptParts.{GivesAllOn, GivesOn, GoesOnTo, HasBegun, HasSettled, SendsNext};
ghost use Rattle.yaml_scan.specs.inside.KeptParts.{shown_in};
ghost use Rattle.yaml_scan.specs.inside.Ready.{Scan, with_session};
ghost use Rattle.yaml_scan.specs.inside.Scanner.{scanner_of};

use crate::give::{give_next, send_on};
use crate::session::session_t;
use crate::sink::{said_len, yaml_token_sink_t};
use crate::stop::stop_t;
use yaml_text::yaml_text_t;

/// How many bytes the texts of the next token have, which is at the head of the queue.
#[inline(always)]
fn next_len(session: &session_t) -> u128
    requires { (text : Text) × (i : Scan) × HasSettled i text session.now }
    ensures { (text : Text) (i : Scan) → HasSettled i text session.now
        → result ≡ said_len (token_shown (shown_in i session.now.state)).token_data }
{
    let queue = &session.state.layout.queue;
    if queue.has_lead() {
        return 0;
    }
    match queue.groups.front() {
        Some(head) => said_len(&head.token.token_data),
        None => 0,
    }
}

/// Whether more tokens may go to a sink: the session is not over, and the sink has room for a token.
#[inline(always)]
fn has_more<S: yaml_token_sink_t>(session: &session_t, sink: &S) -> bool
    ensures more { result ≡ true → session.now.over ≡ false }
    ensures none { result ≡ false → (session.now.over ≡ true) ⊎ S.lacks sink.now 1 0 }
{
    !session.over && sink.has_room(1, 0)
}

/// Has tokens go to the sink, or makes the steps that the next token needs. A token that was shown is at the head of
/// the queue already. Returns whether no token went there.
#[inline(always)]
pub(crate) fn send_or_wait<S: yaml_token_sink_t>(
    text: &yaml_text_t,
    session: &mut session_t,
    sink: &mut S,
) -> Result<bool, stop_t>
    requires at { (i : Scan) × HasBegun i text.now session.old }
    requires takes { S.may_refuse → ⊥ }
    ensures sends { (i : Scan) → HasBegun i text.now session.old
        → SendsNext i text.now session.new (λ tokens. S.took sink.old tokens sink.new) result }
    ensures within { S.within sink.old → S.within sink.new }
{
    if session.peeked {
        return Ok(true);
    }
    send_on(text, &mut session.state, sink)
}

/// Gives the next token, which is at the head of the queue, to a sink. With the stream end the session is over.
#[inline(always)]
fn give_settled<S: yaml_token_sink_t>(text: &yaml_text_t, session: &mut session_t, sink: &mut S)
    requires at { (i : Scan) × HasSettled i text.now session.old }
    requires takes { S.may_refuse → ⊥ }
    ensures gives { (i : Scan) → HasSettled i text.now session.old
        → (x : Token) × S.took sink.old (x ∷ []) sink.new × (x ≡ token_shown (shown_in i session.old.state))
        × GoesOnTo i (with_session i session.new) (x ∷ []) }
    ensures fewer { length (all_in (scanner_of text.now session.new.state)) - session.new.state.taken
        < length (all_in (scanner_of text.now session.old.state)) - session.old.state.taken }
{
    session.peeked = false;
    session.over = match give_next(text, &mut session.state, sink) {
        Ok(last) => last,
        Err(_) => unreachable!(),
    };
}

/// Gives the next tokens to a sink, those of a step or the next one alone. If the sink has no room for the texts of
/// that one, it is shown instead. Returns whether more tokens may go there.
#[inline(always)]
fn give_or_show<S: yaml_token_sink_t>(
    text: &yaml_text_t,
    session: &mut session_t,
    sink: &mut S,
) -> Result<bool, stop_t>
    requires at { (i : Scan) × HasBegun i text.now session.old }
    requires takes { S.may_refuse → ⊥ }
    ensures gives { (i : Scan) → HasBegun i text.now session.old
        → GivesOn i session.new (λ tokens. S.took sink.old tokens sink.new) (S.lacks sink.new) result }
    ensures fewer { result ≡ Ok true
        → length (all_in (scanner_of text.now session.new.state)) - session.new.state.taken
        < length (all_in (scanner_of text.now session.old.state)) - session.old.state.taken }
    ensures within { S.within sink.old → S.within sink.new }
{
    if !send_or_wait(text, session, sink)? {
        return Ok(has_more(session, sink));
    }
    if !sink.has_room(1, next_len(session)) {
        session.show();
        return Ok(false);
    }
    give_settled(text, session, sink);
    Ok(has_more(session, sink))
}

/// Gives the next tokens to a sink, to the stream end or as long as it has room. There is room for a token at first.
#[inline(always)]
pub(crate) fn give_while_room<S: yaml_token_sink_t>(
    text: &yaml_text_t,
    session: &mut session_t,
    sink: &mut S,
) -> Result<(), stop_t>
    requires at { (i : Scan) × HasBegun i text.now session.old }
    requires takes { S.may_refuse → ⊥ }
    ensures gives { (i : Scan) → HasBegun i text.now session.old
        → GivesAllOn i session.new (λ tokens. S.took sink.old tokens sink.new) (S.lacks sink.new) result }
    ensures within { S.within sink.old → S.within sink.new }
{
    let mut more = true;
    'tokens: while more {
        more = give_or_show(text, session, sink)?;
    }
    Ok(())
}
