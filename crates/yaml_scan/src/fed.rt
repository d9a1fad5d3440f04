//! A scanner that is given its input in pieces. A token comes as soon as no more bytes can change it
//! (`specs/Fed.antt`, `specs/FedCalls.antt`, `specs/inside/Feeding.antt`).
ghost use Rattle.std.specs.Prelude.{◌≡◌, ◌≢◌, ◌≤◌, ◌⊎◌, Some, List, ℕ, true, false, option_map, IfSome, MatchOption};
ghost use Rattle.std.specs.Prelude.{length};
ghost use Rattle.yaml_text.specs.Chars.{utf8};
ghost use Rattle.yaml_text.specs.Decoding.{refusal_seen};
ghost use Rattle.yaml_text.specs.Fault.{fault_of};
ghost use Rattle.yaml_text.specs.Kept.{IsKeptOf};
ghost use Rattle.yaml_text.specs.Pieces.{fault_to_come, is_known};
ghost use Rattle.yaml_text.specs.Text.{Text};
ghost use Rattle.yaml_text.specs.Token.{token_of};
ghost use Rattle.yaml_text.specs.declared.types.yaml_error_type_t.TheVariants.{YAML_READER_ERROR};
ghost use Rattle.yaml_scan.specs.Fed.{Fed, new_fed};
ghost use Rattle.yaml_scan.specs.FedCalls.{GivesFed, IsPeeked};
ghost use Rattle.yaml_scan.specs.KeyLimits.{most_key_limit};
ghost use Rattle.yaml_scan.specs.inside.Feeding.{Awaits, BeginsText, CanDecode, IsFed, IsReadyFed};
ghost use Rattle.yaml_scan.specs.inside.Feeding.{GivesOver, GoesOnOver, IsOver, IsRenewed, waiting};
ghost use Rattle.yaml_scan.specs.inside.KeptParts.{GivesAllOn};
ghost use Rattle.yaml_scan.specs.inside.Ready.{Scan, ended_by};
ghost use Rattle.yaml_scan.specs.inside.Stop.{fault_at};

use crate::batch::give_while_room;
use crate::near::near_of;
use crate::scanner::{begin_over, scanner_t};
use crate::session::session_t;
use crate::sink::yaml_token_sink_t;
use crate::state::state_t;
use crate::stop::{fault_at, stop_t};
use std::alloc::Global;
use yaml_text::{
    yaml_encoding_of, yaml_encoding_t, yaml_error_type_t, yaml_fault_t, yaml_fault_to_come,
    yaml_kept_text_t, yaml_text_t, yaml_token_t,
};

/// Why a call of a fed parser gave no more tokens.
#[derive(Clone, Copy)]
pub enum yaml_fed_t {
    /// The sink has no room for the next token.
    ROOM,
    /// More has to come: all tokens that no more bytes can change were given.
    MORE,
    /// The input is in UTF-16: its tokens come once all of it came.
    WHOLE,
    /// The session is over: the stream end was given, or a fault was returned.
    OVER,
    /// There is a fault, which ends the session.
    FAULT,
}

/// A parser that is given its input in pieces. It holds no bytes of the input: each call is given all that came.
#[derive(Drop)]
pub struct yaml_fed_parser_t {
    pub(crate) scanner: scanner_t,
    /// How many bytes had come by the last call.
    pub(crate) came: usize,
    /// Whether the encoding is known, and is UTF-8.
    pub(crate) known: bool,
    /// Whether nothing to come can change how those bytes are read: they are all, or something is wrong that no bytes can
    /// mend.
    pub(crate) certain: bool,
}

impl yaml_fed_parser_t {
    /// A parser to which nothing came. The key limit is in bytes, from 1 to 65,536.
    pub fn new(alloc: Global, setting: yaml_encoding_t, limit: u32) -> yaml_fed_parser_t
        requires least { 1 ≤ limit }
        requires most { limit ≤ most_key_limit }
        ensures { IsFed (new_fed setting limit) result }
    {
        yaml_fed_parser_t {
            scanner: scanner_t::with_key_limit(alloc, setting, limit),
            came: 0,
            known: false,
            certain: false,
        }
    }

    /// The fault that ended the session, if one did.
    pub fn fault(&self) -> Option<&yaml_fault_t>
        ensures { (p : Fed) → IsFed p self.now → option_map (λ f. fault_of f.now) result ≡ p.session.fault }
    {
        self.scanner.session.fault()
    }

    /// The next token, if the sink of the last call lacked room for its texts.
    pub fn peeked(&self) -> Option<&yaml_token_t>
        ensures { (p : Fed) → IsFed p self.now → IsPeeked p (option_map (λ t. token_of t.now) result) }
    {
        self.scanner.session.shown()
    }

    /// Whether what is to come changes neither the encoding nor which bytes are the byte order mark.
    fn is_known(&self, input: &[u8]) -> bool
        ensures { result ≡ is_known self.now.scanner.setting input.now }
    {
        match self.scanner.setting {
            yaml_encoding_t::YAML_ANY_ENCODING => input.len() >= 3,
            _ => true,
        }
    }

    /// Begins the text of what came, if its encoding is known and is UTF-8. Returns why no token can be given, if it is
    /// not.
    fn begin_text(&mut self, input: &[u8]) -> Option<yaml_fed_t>
        requires { self.old.known ≡ false }
        ensures { BeginsText self.old input.now self.new result }
    {
        if !self.is_known(input) {
            return Some(yaml_fed_t::MORE);
        }
        let setting = self.scanner.setting;
        match yaml_encoding_of(setting, input) {
            yaml_encoding_t::YAML_UTF8_ENCODING => {
                self.scanner.text = yaml_kept_text_t::begin_front(setting, input);
                self.known = true;
                None
            }
            _ => Some(yaml_fed_t::WHOLE),
        }
    }

    /// Decodes what came after the text that is known, and goes on over all of it.
    fn decode(&mut self, input: &[u8], last: bool)
        requires { (p : Fed) × (p.given ≡ input.now) × (p.whole ≡ last) × CanDecode p self.old }
        ensures { (p : Fed) → p.given ≡ input.now → p.whole ≡ last → CanDecode p self.old → self.old.known ≡ true
            → IsReadyFed p self.new input.now }
    {
        let refused = self.scanner.text.decode_on(input);
        self.came = input.len();
        self.certain = go_on(&mut self.scanner, input, refused, last);
    }

    /// Takes what came into account. Returns why no token can be given before more comes, if none can.
    fn feed(&mut self, input: &[u8], last: bool) -> Option<yaml_fed_t>
        requires at { (p : Fed) × (p.given ≡ input.now) × (p.whole ≡ last) × IsFed p self.old }
        requires still_open { self.old.scanner.session.over ≡ false }
        requires uncertain { self.old.certain ≡ false }
        ensures { (p : Fed) → p.given ≡ input.now → p.whole ≡ last → IsFed p self.old → MatchOption result
            (IsReadyFed p self.new input.now) (λ why. IsFed p self.new × Awaits p why) }
    {
        if last && self.scanner.session.state.made == 0 {
            self.came = input.len();
            self.certain = true;
            return None;
        }
        if !self.known {
            if let Some(why) = self.begin_text(input) {
                return Some(why);
            }
        }
        self.decode(input, last);
        None
    }

    /// Gives the next tokens to a sink, while more is to come.
    fn give_unfinished<S: yaml_token_sink_t>(&mut self, input: &[u8], sink: &mut S) -> yaml_fed_t
        requires at { (p : Fed) × (p.given ≡ input.now) × IsReadyFed p self.old input.now }
        requires uncertain { self.old.certain ≡ false }
        requires takes { S.may_refuse → ⊥ }
        ensures gives { (p : Fed) → p.given ≡ input.now → IsReadyFed p self.old input.now
            → GivesFed p self.new result (λ tokens. S.took sink.old tokens sink.new) (S.lacks sink.new) }
        ensures within { S.within sink.old → S.within sink.new }
    {
        give_over(&mut self.scanner, input, sink)
    }

    /// Gives the next tokens to a sink, if nothing to come can change them.
    fn give_certain<S: yaml_token_sink_t>(&mut self, input: &[u8], sink: &mut S) -> yaml_fed_t
        requires at { (p : Fed) × (p.given ≡ input.now) × ((came : List ℕ) × IsReadyFed p self.old came) }
        requires certain { self.old.certain ≡ true }
        requires takes { S.may_refuse → ⊥ }
        ensures gives { (p : Fed) → p.given ≡ input.now → (came : List ℕ) → IsReadyFed p self.old came
            → GivesFed p self.new result (λ tokens. S.took sink.old tokens sink.new) (S.lacks sink.new) }
        ensures within { S.within sink.old → S.within sink.new }
    {
        match self.scanner.give(&input[..self.came], sink) {
            Ok(_) => {
                if self.scanner.session.over {
                    yaml_fed_t::OVER
                } else {
                    yaml_fed_t::ROOM
                }
            }
            Err(stop) => {
                self.scanner.session.close(stop);
                yaml_fed_t::FAULT
            }
        }
    }
}

/// What a text is refused for. That is what is wrong after it, if no bytes can mend it or no more will come, and else the
/// fault that stands for what is to come. Returns first whether nothing to come can change it.
fn refusal_by(
    refused: Option<(yaml_fault_t, bool)>,
    last: bool,
    len: u64,
) -> (bool, Option<yaml_fault_t>)
    ensures certain { result.0 ≡ true → ((last ≡ true) ⊎ MatchOption refused ⊥ (λ r. r.1 ≡ true))
        × (refusal_seen result.1 ≡ refusal_seen (option_map (λ r. r.0) refused)) }
    ensures uncertain { result.0 ≡ false → (last ≡ false) × IfSome refused (λ r. r.1 ≡ false)
        × (refusal_seen result.1 ≡ Some (fault_to_come len)) }
{
    match refused {
        Some((fault, broken)) if last || broken => (true, Some(fault)),
        None if last => (true, None),
        _ => (false, Some(yaml_fault_to_come(len))),
    }
}

/// Puts a refusal in the place of the one before, and where it is near, if the first step was made.
fn renew(text: &yaml_text_t, state: &mut state_t, refusal: Option<yaml_fault_t>)
    ensures { IsRenewed text.now state.old refusal state.new }
{
    if state.made > 0 {
        state.near = near_of(text, refusal);
        state.fault = refusal;
    }
}

/// Goes on over the text of all that came. Returns whether nothing to come can change it.
fn go_on(
    scanner: &mut scanner_t,
    input: &[u8],
    refused: Option<(yaml_fault_t, bool)>,
    last: bool,
) -> bool
    requires { (text : Text) × IsKeptOf text input.now scanner.old.text }
    ensures { (text : Text) → IsKeptOf text input.now scanner.old.text
        → GoesOnOver text scanner.old refused last scanner.new result }
{
    let text = scanner.text.view(input);
    let (certain, refusal) = refusal_by(refused, last, text.bytes().len() as u64);
    renew(&text, &mut scanner.session.state, refusal);
    certain
}

/// Makes the first step, if it was not made, and gives the next tokens to a sink.
fn give_on<S: yaml_token_sink_t>(
    text: &yaml_text_t,
    to_come: yaml_fault_t,
    session: &mut session_t,
    sink: &mut S,
) -> Result<(), stop_t>
    requires at { (i : Scan) × IsOver i text.now session.old (fault_of to_come) }
    requires takes { S.may_refuse → ⊥ }
    ensures gives { (i : Scan) → IsOver i text.now session.old (fault_of to_come)
        → GivesAllOn i session.new (λ tokens. S.took sink.old tokens sink.new) (S.lacks sink.new) result }
    ensures within { S.within sink.old → S.within sink.new }
{
    if session.state.made == 0 {
        begin_over(&mut session.state, text, Some(to_come))?;
    }
    give_while_room(text, session, sink)
}

/// Gives the next tokens to a sink, over a text that is refused for what is to come.
fn give_over<S: yaml_token_sink_t>(
    scanner: &mut scanner_t,
    input: &[u8],
    sink: &mut S,
) -> yaml_fed_t
    requires at { (text : Text) × IsKeptOf text input.now scanner.old.text
        × ((i : Scan) × IsOver i text scanner.old.session (fault_to_come (length (utf8 text.chars)))) }
    requires takes { S.may_refuse → ⊥ }
    ensures gives { (text : Text) → IsKeptOf text input.now scanner.old.text
        → (i : Scan) → IsOver i text scanner.old.session (fault_to_come (length (utf8 text.chars)))
        → GivesOver i scanner.old scanner.new (λ tokens. S.took sink.old tokens sink.new) (S.lacks sink.new) result }
    ensures within { S.within sink.old → S.within sink.new }
{
    let text = scanner.text.view(input);
    let to_come = yaml_fault_to_come(text.bytes().len() as u64);
    let session = &mut scanner.session;
    match give_on(&text, to_come, session, sink) {
        Ok(_) => yaml_fed_t::ROOM,
        Err(stop) => {
            if waits(session, stop, to_come) {
                yaml_fed_t::MORE
            } else {
                yaml_fed_t::FAULT
            }
        }
    }
}

/// Whether a session has stopped since more has to come. Else it is closed.
fn waits(session: &mut session_t, stop: stop_t, to_come: yaml_fault_t) -> bool
    ensures more { result ≡ true → ((fault_at stop session.old.state.fault).error ≡ YAML_READER_ERROR)
        × (session.new ≡ waiting session.old to_come) }
    ensures closed { result ≡ false → ((fault_at stop session.old.state.fault).error ≢ YAML_READER_ERROR)
        × ((fault : yaml_fault_t) × (fault_of fault ≡ fault_at stop session.old.state.fault)
        × (session.new ≡ ended_by session.old fault)) }
{
    let fault = fault_at(stop, &session.state.fault);
    if matches!(fault.error, yaml_error_type_t::YAML_READER_ERROR) {
        session.state.fault = Some(to_come);
        return true;
    }
    session.close(stop);
    false
}

/// Gives the next tokens of the input to a sink, as many as it has room for, of which all bytes that came are given.
/// `last` says that no more will come.
///
/// A token is given as soon as no more bytes can change it, and never taken back. Whatever the pieces are, the tokens of
/// all calls are in order those of the whole input, and so is the fault, which comes after the tokens before it.
///
/// After `MORE` and `WHOLE` the call is made again once more came, or with `last`. A lexeme that was not whole is then read
/// again from its start. So while the bytes that give no token are many, such as those of a long literal, a caller waits
/// until they have grown by a share of what they were, and all calls take time in proportion to the input.
///
/// The bytes are those of the calls before, and more behind them. If `last` was set, they stay the same and it stays set.
/// The sink has to be one that never refuses a token. After the end of the session it is given nothing.
pub fn yaml_fed_scan_to<S: yaml_token_sink_t>(
    fed: &mut yaml_fed_parser_t,
    input: &[u8],
    last: bool,
    sink: &mut S,
) -> yaml_fed_t
    requires at { (p : Fed) × (p.given ≡ input.now) × (p.whole ≡ last) × IsFed p fed.old }
    requires takes { S.may_refuse → ⊥ }
    ensures gives { (p : Fed) → p.given ≡ input.now → p.whole ≡ last → IsFed p fed.old
        → GivesFed p fed.new result (λ tokens. S.took sink.old tokens sink.new) (S.lacks sink.new) }
    ensures within { S.within sink.old → S.within sink.new }
{
    if fed.scanner.session.over {
        return yaml_fed_t::OVER;
    }
    if !sink.has_room(1, 0) {
        return yaml_fed_t::ROOM;
    }
    if !fed.certain {
        if let Some(why) = fed.feed(input, last) {
            return why;
        }
    }
    if fed.certain {
        fed.give_certain(input, sink)
    } else {
        fed.give_unfinished(input, sink)
    }
}
