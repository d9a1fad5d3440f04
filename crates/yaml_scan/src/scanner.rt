//! A scanner without an input: all that is kept between two calls, each of which is given the same input. It is public
//! as `yaml_kept_parser_t`, what is kept of a parser whose input was let go.
ghost use Rattle.std.specs.Prelude.{◌≡◌, ◌≤◌, ◌⊎◌, Some, Ok, true, false, [], List, ℕ, option_map, MatchResult};
ghost use Rattle.yaml_text.specs.Decode.{front, refusal as refusal_of};
ghost use Rattle.yaml_text.specs.Decoding.{refusal_seen};
ghost use Rattle.yaml_text.specs.Fault.{Fault, fault_of};
ghost use Rattle.yaml_text.specs.Kept.{IsKeptOf};
ghost use Rattle.yaml_text.specs.Text.{Text};
ghost use Rattle.yaml_text.specs.Token.{Token, token_of};
ghost use Rattle.yaml_text.specs.declared.fault.yaml_fault_t.{yaml_fault_t as code_fault_t};
ghost use Rattle.yaml_text.specs.declared.types.yaml_encoding_t.{yaml_encoding_t};
ghost use Rattle.yaml_scan.specs.Decoded.{decoded_input};
ghost use Rattle.yaml_scan.specs.Headline.{Calls};
ghost use Rattle.yaml_scan.specs.KeptCalls.{GivesMore, GivesToFault, HasNoMoreRoom, token_peeked};
ghost use Rattle.yaml_scan.specs.KeyLimits.{most_key_limit};
ghost use Rattle.yaml_scan.specs.Parser.{Parser};
ghost use Rattle.yaml_scan.specs.ParserCalls.{course_read, scan_result, token_shown};
ghost use Rattle.yaml_scan.specs.Scanned.{GoesOnBy};
ghost use Rattle.yaml_scan.specs.Session.Call.{SCAN, PEEK};
ghost use Rattle.yaml_scan.specs.Session.Answer.{FAULT, PEEKED};
ghost use Rattle.yaml_scan.specs.Sessions.{new_session, session_reach};
ghost use Rattle.yaml_scan.specs.inside.Kept.{IsKept, IsPartOf, IsScannerOf, scan_of};
ghost use Rattle.yaml_scan.specs.inside.KeptEnds.{Gives, Sends, Settles, Starts};
ghost use Rattle.yaml_scan.specs.inside.KeptParts.{EndsNow, ShowsTo};
ghost use Rattle.yaml_scan.specs.inside.Ready.{IsNew, Begins, IsEnded, IsShort, IsStopped, parser_of};
ghost use Rattle.yaml_scan.specs.inside.Scanner.{scanner_of};
ghost use Rattle.yaml_scan.specs.inside.Stop.{fault_at};

use crate::batch::{give_while_room, send_or_wait};
use crate::near::{near_of, near_start};
use crate::parser::yaml_parser_t;
use crate::session::session_t;
use crate::settled::{is_settled, settle_head};
use crate::sink::yaml_token_sink_t;
use crate::state::{new_state, state_t};
use crate::stop::stop_t;
use std::alloc::Global;
use yaml_text::{
    yaml_encoding_t, yaml_fault_t, yaml_kept_text_t, yaml_mark_t, yaml_text_t, yaml_token_t,
};

/// A scanner without an input: what is kept of its text, and its session. It holds all that a parser of that input
/// holds, but the input.
#[derive(Drop)]
pub struct scanner_t {
    pub(crate) setting: yaml_encoding_t,
    /// What is kept of its text. Before the first step that is the text of no characters.
    pub(crate) text: yaml_kept_text_t,
    pub(crate) session: session_t,
}

/// Makes the first step over a text, of which this is the refusal.
#[inline(always)]
pub(crate) fn begin_over(
    state: &mut state_t,
    text: &yaml_text_t,
    refusal: Option<yaml_fault_t>,
) -> Result<(), stop_t>
    requires { (before : Text) → IsNew (scanner_of before state.old) }
    ensures { (setting : yaml_encoding_t) (input : List ℕ) → text.now ≡ front setting input
        → refusal_seen refusal ≡ refusal_of setting input → (before : Text) → MatchResult result
        (λ _. Begins setting input (scanner_of before state.old) (scanner_of (front setting input) state.new)) (λ s.
        (IsShort setting input (scanner_of before state.old) (fault_at s state.new.fault)
        ⊎ IsEnded setting input (scanner_of before state.old) (scanner_of before state.new)
        (fault_at s state.new.fault))
        × IsStopped setting input (scanner_of before state.old) (scanner_of before state.new)) }
{
    let (encoding, len, near) = (text.encoding(), text.bytes().len(), near_of(text, refusal));
    if let Some(fault) = near_start(refusal, near) {
        state.fault = Some(fault);
        return Err(stop_t::FAULT);
    }
    let queue = &mut state.layout.queue;
    queue.put_stream_start(encoding, len)?;
    state.fault = refusal;
    state.near = near;
    state.made = 1;
    Ok(())
}

/// Decodes the input, and makes the first step. Returns what is kept of the text.
#[inline(never)]
pub(crate) fn begin(
    state: &mut state_t,
    input: &[u8],
    setting: yaml_encoding_t,
) -> Result<yaml_kept_text_t, stop_t>
    requires { (text : Text) → IsNew (scanner_of text state.old) }
    ensures { (text : Text) → MatchResult result
        (λ kept. IsKeptOf (front setting input.now) input.now kept
        × Begins setting input.now (scanner_of text state.old) (scanner_of (front setting input.now) state.new)) (λ s.
        (IsShort setting input.now (scanner_of text state.old) (fault_at s state.new.fault)
        ⊎ IsEnded setting input.now (scanner_of text state.old) (scanner_of text state.new)
        (fault_at s state.new.fault))
        × IsStopped setting input.now (scanner_of text state.old) (scanner_of text state.new)) }
{
    let (kept, refusal) = match yaml_kept_text_t::decode(state.alloc, input, setting) {
        Ok(front) => front,
        Err(fault) => {
            state.fault = Some(fault);
            return Err(stop_t::FAULT);
        }
    };
    let begun = {
        let text = kept.view(input);
        begin_over(state, &text, refusal)
    };
    begun?;
    Ok(kept)
}

impl scanner_t {
    /// What is kept of a parser. It takes no memory, and copies no text.
    pub fn new(parser: yaml_parser_t) -> scanner_t
        ensures { IsKept parser.entry result }
    {
        parser.scanner
    }

    /// A scanner that has read nothing, with a key limit in bytes.
    pub(crate) fn with_key_limit(alloc: Global, setting: yaml_encoding_t, limit: u32) -> scanner_t
        requires { limit ≤ most_key_limit }
        ensures is { (input : List ℕ) → IsScannerOf input result }
        ensures new { (input : List ℕ) → parser_of (scan_of input result)
            ≡ record { input = input; setting = setting; limit = limit; session = new_session } }
    {
        scanner_t {
            setting,
            text: yaml_kept_text_t::empty(),
            session: session_t {
                state: new_state(alloc, limit as u64),
                lead: yaml_token_t::empty(),
                peeked: false,
                over: false,
                failed: false,
            },
        }
    }

    /// How far the last step without a fault was read, as [`yaml_parser_mark`](crate::yaml_parser_mark) says it.
    pub fn mark(&self) -> yaml_mark_t
        ensures { (p : Parser) → IsKept p self.now → result ≡ session_reach (course_read p) p.session }
    {
        self.session.state.reach
    }

    /// Whether the session is over: the stream end was taken, or a fault was returned.
    pub fn is_over(&self) -> bool
        ensures { (p : Parser) → IsKept p self.now → result ≡ p.session.over }
    {
        self.session.over
    }

    /// The fault that ended the session, if one did.
    pub fn fault(&self) -> Option<&yaml_fault_t>
        ensures { (p : Parser) → IsKept p self.now → option_map (λ f. fault_of f.now) result ≡ p.session.fault }
    {
        self.session.fault()
    }

    /// The token that was shown and was not taken since, if one was.
    pub fn peeked(&self) -> Option<&yaml_token_t>
        ensures { (p : Parser) → IsKept p self.now → option_map (λ t. token_of t.now) result ≡ token_peeked p }
    {
        self.session.shown()
    }

    /// Makes the first step over the input. It is called once, and is not inlined.
    #[cold]
    #[inline(never)]
    fn start_anew(&mut self, input: &[u8]) -> Result<(), stop_t>
        requires is { IsScannerOf input.now self.old }
        requires still_open { self.old.session.over ≡ false }
        requires new { self.old.session.state.made ≡ 0 }
        ensures { Starts input.now self.old self.new result }
    {
        self.text = begin(&mut self.session.state, input, self.setting)?;
        Ok(())
    }

    /// Makes the first step over the input, if it was not made.
    #[inline(always)]
    fn start(&mut self, input: &[u8]) -> Result<(), stop_t>
        requires is { IsScannerOf input.now self.old }
        requires still_open { self.old.session.over ≡ false }
        ensures { Starts input.now self.old self.new result }
    {
        if self.session.state.made > 0 {
            return Ok(());
        }
        self.start_anew(input)
    }

    /// Makes the steps that the next token needs: none if it was peeked. The text is viewed for it.
    #[inline(always)]
    fn settle_viewed(&mut self, input: &[u8]) -> Result<(), stop_t>
        requires is { IsScannerOf input.now self.old }
        requires still_open { self.old.session.over ≡ false }
        ensures { Settles input.now self.old self.new result }
    {
        if self.session.peeked {
            return Ok(());
        }
        self.start(input)?;
        let text = self.text.view(input);
        settle_head(&text, &mut self.session.state)
    }

    /// Makes the first step and those that the next token needs, and puts the text into `part` if it is a part of the
    /// input.
    #[cold]
    #[inline(never)]
    fn settle_apart<'a>(
        &mut self,
        input: &'a [u8],
        part: &mut Option<yaml_text_t<'a>>,
    ) -> Result<(), stop_t>
        requires is { IsScannerOf input.now self.old }
        requires still_open { self.old.session.over ≡ false }
        requires part { IsPartOf input.now self.old part.old }
        ensures settles { Settles input.now self.old self.new result }
        ensures part { IsPartOf input.now self.new part.new }
    {
        self.settle_viewed(input)?;
        *part = self.text.part(input);
        Ok(())
    }

    /// Makes the steps that the next token needs: none if it was peeked. `part` has the text, if that is known to be a
    /// part of the input: a text that is viewed once need not be viewed at each step.
    #[inline(always)]
    fn settle<'a>(
        &mut self,
        input: &'a [u8],
        part: &mut Option<yaml_text_t<'a>>,
    ) -> Result<(), stop_t>
        requires is { IsScannerOf input.now self.old }
        requires still_open { self.old.session.over ≡ false }
        requires part { IsPartOf input.now self.old part.old }
        ensures settles { Settles input.now self.old self.new result }
        ensures part { IsPartOf input.now self.new part.new }
    {
        if self.session.peeked {
            return Ok(());
        }
        if let Some(text) = part {
            return settle_head(text, &mut self.session.state);
        }
        if self.session.state.made == 0 {
            return self.settle_apart(input, part);
        }
        if is_settled(&self.session.state) {
            return Ok(());
        }
        self.settle_viewed(input)
    }

    /// Takes the next token; after the end of the session the empty one. Returns the fault that ends the session, once.
    #[inline(always)]
    pub(crate) fn scan<'a>(
        &mut self,
        input: &'a [u8],
        part: &mut Option<yaml_text_t<'a>>,
    ) -> Result<yaml_token_t, yaml_fault_t>
        requires is { IsScannerOf input.now self.old }
        requires part { IsPartOf input.now self.old part.old }
        ensures is { IsScannerOf input.now self.new }
        ensures part { IsPartOf input.now self.new part.new }
        ensures answers { Calls decoded_input SCAN (parser_of (scan_of input.now self.old)) (scan_result result)
            (parser_of (scan_of input.now self.new)) }
    {
        if self.session.over {
            return Ok(yaml_token_t::empty());
        }
        match self.settle(input, part) {
            Ok(_) => Ok(self.session.take()),
            Err(stop) => {
                self.session.close(stop);
                match self.session.fault() {
                    Some(fault) => Err(*fault),
                    None => unreachable!(),
                }
            }
        }
    }

    /// Makes the steps that the next token needs, and shows it, unless the session is over. `false` if the session ended
    /// with a fault instead.
    pub(crate) fn show<'a>(&mut self, input: &'a [u8], part: &mut Option<yaml_text_t<'a>>) -> bool
        requires is { IsScannerOf input.now self.old }
        requires part { IsPartOf input.now self.old part.old }
        ensures is { IsScannerOf input.now self.new }
        ensures part { IsPartOf input.now self.new part.new }
        ensures shows { result ≡ true → self.old.session.over ≡ false
            → ShowsTo (scan_of input.now self.old) (scan_of input.now self.new) }
        ensures over { self.old.session.over ≡ true → (result ≡ true) × (self.new ≡ self.old) }
        ensures fault { result ≡ false → EndsNow (scan_of input.now self.old) (scan_of input.now self.new) }
    {
        if self.session.over {
            return true;
        }
        match self.settle(input, part) {
            Ok(_) => {
                self.session.show();
                true
            }
            Err(stop) => {
                self.session.close(stop);
                false
            }
        }
    }

    /// Makes the first step, if it was not made, and then has tokens go to the sink, or makes the steps that the next
    /// token needs. Returns whether no token went there. The text is viewed for it.
    #[inline(always)]
    fn send_viewed<S: yaml_token_sink_t>(
        &mut self,
        input: &[u8],
        sink: &mut S,
    ) -> Result<bool, stop_t>
        requires is { IsScannerOf input.now self.old }
        requires still_open { self.old.session.over ≡ false }
        requires takes { S.may_refuse → ⊥ }
        ensures sends { Sends input.now self.old self.new (λ tokens. S.took sink.old tokens sink.new) result }
        ensures within { S.within sink.old → S.within sink.new }
    {
        self.start(input)?;
        let text = self.text.view(input);
        send_or_wait(&text, &mut self.session, sink)
    }

    /// Makes the first step, and then has tokens go to the sink, or makes the steps that the next token needs. Puts the
    /// text into `part` if it is a part of the input. Returns whether no token went there.
    #[cold]
    #[inline(never)]
    fn send_apart<'a, S: yaml_token_sink_t>(
        &mut self,
        input: &'a [u8],
        part: &mut Option<yaml_text_t<'a>>,
        sink: &mut S,
    ) -> Result<bool, stop_t>
        requires is { IsScannerOf input.now self.old }
        requires still_open { self.old.session.over ≡ false }
        requires takes { S.may_refuse → ⊥ }
        requires part { IsPartOf input.now self.old part.old }
        ensures sends { Sends input.now self.old self.new (λ tokens. S.took sink.old tokens sink.new) result }
        ensures part { IsPartOf input.now self.new part.new }
        ensures within { S.within sink.old → S.within sink.new }
    {
        let settled = self.send_viewed(input, sink)?;
        *part = self.text.part(input);
        Ok(settled)
    }

    /// Has tokens go to the sink, or makes the steps that the next token needs. Returns whether no token went there.
    /// `part` has the text, if that is known to be a part of the input, as for a scan.
    #[inline(always)]
    pub(crate) fn send<'a, S: yaml_token_sink_t>(
        &mut self,
        input: &'a [u8],
        part: &mut Option<yaml_text_t<'a>>,
        sink: &mut S,
    ) -> Result<bool, stop_t>
        requires is { IsScannerOf input.now self.old }
        requires still_open { self.old.session.over ≡ false }
        requires takes { S.may_refuse → ⊥ }
        requires part { IsPartOf input.now self.old part.old }
        ensures sends { Sends input.now self.old self.new (λ tokens. S.took sink.old tokens sink.new) result }
        ensures part { IsPartOf input.now self.new part.new }
        ensures within { S.within sink.old → S.within sink.new }
    {
        if let Some(text) = part {
            return send_or_wait(text, &mut self.session, sink);
        }
        if self.session.state.made == 0 {
            return self.send_apart(input, part, sink);
        }
        self.send_viewed(input, sink)
    }

    /// Gives the next tokens to a sink that has room for one, until the stream end was given or it has no room for the
    /// next token.
    #[inline(always)]
    pub(crate) fn give<S: yaml_token_sink_t>(
        &mut self,
        input: &[u8],
        sink: &mut S,
    ) -> Result<(), stop_t>
        requires is { IsScannerOf input.now self.old }
        requires still_open { self.old.session.over ≡ false }
        requires takes { S.may_refuse → ⊥ }
        ensures gives { Gives input.now self.old self.new (λ tokens. S.took sink.old tokens sink.new)
            (S.lacks sink.new) result }
        ensures within { S.within sink.old → S.within sink.new }
    {
        self.start(input)?;
        let text = self.text.view(input);
        give_while_room(&text, &mut self.session, sink)
    }
}

/// Gives the next tokens of a kept parser to a sink, over the same input, until the stream end was given or the sink
/// has no room for the next token. The parser then stands before that token, and if it is the room for its texts that
/// is lacking, the token is shown: [`yaml_kept_parser_t::peeked`] returns it. The parser stays in its place, and a text
/// that was decoded is not moved.
///
/// The sink has to be one that never refuses a token. After the end of the session it is given nothing, and the parser
/// stays as it is.
///
/// Returns whether there is a fault, the same as of [`yaml_parser_scan`](crate::yaml_parser_scan), after the tokens
/// before it went to the sink. It ends the session, and [`yaml_kept_parser_t::fault`] returns it.
#[inline(always)]
pub fn yaml_kept_scan_to<S: yaml_token_sink_t>(
    kept: &mut scanner_t,
    input: &[u8],
    sink: &mut S,
) -> bool
    requires at { (p : Parser) × (p.input ≡ input.now) × IsKept p kept.old }
    requires takes { S.may_refuse → ⊥ }
    ensures more { result ≡ false → (p : Parser) → p.input ≡ input.now → IsKept p kept.old
        → (q : Parser) × IsKept q kept.new × GivesMore p q (λ tokens. S.took sink.old tokens sink.new)
        × HasNoMoreRoom (S.lacks sink.new) q }
    ensures fault { result ≡ true → (p : Parser) → p.input ≡ input.now → IsKept p kept.old
        → (q : Parser) × IsKept q kept.new × (fault : Fault) × (q.session.fault ≡ Some fault)
        × GivesToFault SCAN p q (λ tokens. S.took sink.old tokens sink.new) fault }
    ensures within { S.within sink.old → S.within sink.new }
{
    if kept.session.over || !sink.has_room(1, 0) {
        return false;
    }
    match kept.give(input, sink) {
        Ok(_) => false,
        Err(stop) => {
            kept.session.close(stop);
            true
        }
    }
}

/// Shows the next token of a kept parser, over the same input: [`yaml_kept_parser_t::peeked`] returns it. If the
/// session is over, there is none. The parser stays in its place, and a text that was decoded is not moved.
///
/// Returns whether there is a fault, the same as of [`yaml_parser_scan`](crate::yaml_parser_scan). It ends the session,
/// and [`yaml_kept_parser_t::fault`] returns it.
pub fn yaml_kept_peek(kept: &mut scanner_t, input: &[u8]) -> bool
    requires { (p : Parser) × (p.input ≡ input.now) × IsKept p kept.old }
    ensures shows { result ≡ false → (p : Parser) → p.input ≡ input.now → IsKept p kept.old
        → (q : Parser) × IsKept q kept.new × Calls decoded_input PEEK p (PEEKED (token_shown q)) q
        × GoesOnBy p [] q p.session.over
        × (p.session.over ≡ false → q.session.peeked ≡ true) × (p.session.over ≡ true → q ≡ p) }
    ensures fault { result ≡ true → (p : Parser) → p.input ≡ input.now → IsKept p kept.old
        → (q : Parser) × IsKept q kept.new × (fault : Fault) × (q.session.fault ≡ Some fault)
        × GivesToFault PEEK p q (λ tokens. tokens ≡ []) fault }
{
    if kept.session.over {
        return false;
    }
    if let Err(stop) = kept.settle_viewed(input) {
        kept.session.close(stop);
        return true;
    }
    kept.session.show();
    false
}
