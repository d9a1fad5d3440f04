//! A session: the state of the running scanner, and what the calls so far have come to.
ghost use Rattle.std.specs.Prelude.{◌≡◌, ◌<◌, length, option_map};
ghost use Rattle.yaml_text.specs.Fault.{fault_of};
ghost use Rattle.yaml_text.specs.Text.{Text};
ghost use Rattle.yaml_text.specs.Token.{data_of, token_of};
ghost use Rattle.yaml_scan.specs.KeptCalls.{token_peeked};
ghost use Rattle.yaml_scan.specs.Token.{type_of};
ghost use Rattle.yaml_scan.specs.TokenTypes.{is_last_type};
ghost use Rattle.yaml_scan.specs.Settled.{before};
ghost use Rattle.yaml_scan.specs.inside.Ready.{Pops, Scan, Sound, ended_by, fault_in, parser_of, with_session};
ghost use Rattle.yaml_scan.specs.inside.Scanner.{scanner_of};
ghost use Rattle.yaml_scan.specs.inside.Scanning.{IsRunning, history};
ghost use Rattle.yaml_scan.specs.inside.KeptParts.{HasSettled, ShowsTo, Takes, shown_in};
ghost use Rattle.yaml_scan.specs.inside.Stop.{fault_at};

use crate::state::state_t;
use crate::stop::{fault_at, stop_t};
use yaml_text::{unnamed_yaml_token_t_data, yaml_fault_t, yaml_token_t};

/// The state of the running scanner, and what the calls so far have come to.
#[derive(Drop)]
pub(crate) struct session_t {
    pub state: state_t,
    /// The token that is shown if the head of the queue hands out one before its own.
    pub lead: yaml_token_t,
    /// Whether the next token was peeked.
    pub peeked: bool,
    pub over: bool,
    /// Whether a fault ended it, which the state keeps.
    pub failed: bool,
}

/// Takes the head of the queue, which is the next token.
#[inline(always)]
fn take_head(state: &mut state_t) -> yaml_token_t
    requires { (text : Text) × IsRunning (scanner_of text state.old)
        × (state.old.taken < length (before state.old.limit (history (scanner_of text state.old)))) }
    ensures { (text : Text) → IsRunning (scanner_of text state.old)
        → state.old.taken < length (before state.old.limit (history (scanner_of text state.old)))
        → Pops (scanner_of text state.old) (scanner_of text state.new) (token_of result) }
{
    state.taken += 1;
    state.layout.queue.take_next()
}

impl session_t {
    /// Takes the next token, which is at the head of the queue. With the stream end the session is over.
    #[inline(always)]
    pub(crate) fn take(&mut self) -> yaml_token_t
        requires { (text : Text) × (i : Scan) × HasSettled i text self.old }
        ensures { (text : Text) (i : Scan) → HasSettled i text self.old
            → Takes i (token_of result) (with_session i self.new) }
    {
        let token = take_head(&mut self.state);
        self.peeked = false;
        self.over = is_last(&token);
        token
    }

    /// Shows the next token, which is at the head of the queue.
    #[inline(always)]
    pub(crate) fn show(&mut self)
        ensures { (text : Text) (i : Scan) → HasSettled i text self.old → ShowsTo i (with_session i self.new)
            × (parser_of (with_session i self.new) ≡ shown_in i self.old.state) }
    {
        self.state.layout.queue.show_lead(&mut self.lead);
        self.peeked = true;
    }

    /// The token that was shown and was not taken since, if one was.
    #[inline(always)]
    pub(crate) fn shown(&self) -> Option<&yaml_token_t>
        ensures { (i : Scan) → i.session ≡ self.now → Sound i
            → option_map (λ t. token_of t.now) result ≡ token_peeked (parser_of i) }
    {
        if !self.peeked {
            None
        } else if self.state.layout.queue.has_lead() {
            Some(&self.lead)
        } else {
            match self.state.layout.queue.groups.front() {
                Some(head) => Some(&head.token),
                None => None,
            }
        }
    }

    /// The fault that has ended the session, if one has.
    #[inline(always)]
    pub(crate) fn fault(&self) -> Option<&yaml_fault_t>
        ensures { option_map (λ f. fault_of f.now) result ≡ fault_in self.now.failed self.now.state.fault }
    {
        if self.failed {
            self.state.fault.as_ref()
        } else {
            None
        }
    }

    /// Ends the session with the fault of a stop. `fault` tells it then: a fault that this returned would have room on the
    /// caller's stack, which is cleared at each call.
    #[cold]
    #[inline(never)]
    pub(crate) fn close(&mut self, stop: stop_t)
        ensures { (fault : yaml_fault_t) × (fault_of fault ≡ fault_at stop self.old.state.fault)
            × (self.new ≡ ended_by self.old fault) }
    {
        let fault = fault_at(stop, &self.state.fault);
        self.state.fault = Some(fault);
        self.peeked = false;
        self.over = true;
        self.failed = true;
    }
}

/// Whether a token is the stream end.
pub(crate) fn is_last(token: &yaml_token_t) -> bool
    ensures { result ≡ is_last_type (type_of (data_of token.now.token_data)) }
{
    matches!(token.token_data, unnamed_yaml_token_t_data::STREAM_END)
}
