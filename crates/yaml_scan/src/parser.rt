//! The parser: scan, peek and skip, one call after the other; and the next token, if only tokens are taken.
ghost use Rattle.std.specs.Prelude.{◌≡◌, ◌+◌, ◌≤◌, MatchResult, Some, true, false, option_map, ◌++◌};
ghost use Rattle.std.specs.Prelude.{◌∷◌, [], List, IfOk, IfErr};
ghost use Rattle.std.specs.Borrow.{sem};
ghost use Rattle.yaml_text.specs.Fault.{Fault, fault_of};
ghost use Rattle.yaml_text.specs.Token.{token_of, Token};
ghost use Rattle.yaml_scan.specs.Decoded.{decoded_input};
ghost use Rattle.yaml_scan.specs.KeyLimits.{key_limit, most_key_limit};
ghost use Rattle.yaml_scan.specs.Sessions.{new_session, session_queued, session_reach};
ghost use Rattle.yaml_scan.specs.Headline.{Calls};
ghost use Rattle.yaml_scan.specs.Parser.{Parser};
ghost use Rattle.yaml_scan.specs.ParserCalls.{input_read, course_read, answered, after_call, scan_result, token_shown};
ghost use Rattle.yaml_scan.specs.ParserCalls.{IsThere, IsRefusedAtStart, peek_result, copied};
ghost use Rattle.yaml_scan.specs.inside.Shown.{Shows};
ghost use Rattle.yaml_scan.specs.CallMarks.{IsCountedIn, ReachesTo};
ghost use Rattle.yaml_scan.specs.Session.Call.{SKIP, SCAN, PEEK};
ghost use Rattle.yaml_scan.specs.Peek.{OnceLetGo};
ghost use Rattle.yaml_scan.specs.Puts.{HasNext, IsAnsweredAlike};
ghost use Rattle.yaml_scan.specs.Token.{empty, type_of};
ghost use Rattle.yaml_scan.specs.TokenTypes.{is_last_type};
ghost use Rattle.yaml_scan.specs.All.{ReadsAll};
ghost use Rattle.yaml_scan.specs.Scanned.{Scanned};
ghost use Rattle.yaml_scan.specs.Session.Answer.{TOKEN, FAULT};

use crate::keys::KEY_LIMIT;
use crate::scanner::scanner_t;
use crate::session::is_last;
use std::alloc::Global;
use std::marker::Model;
use yaml_text::{yaml_encoding_t, yaml_fault_t, yaml_mark_t, yaml_text_t, yaml_token_t};

/// A parser of an input. Its tokens are taken one after the other.
#[derive(Drop)]
pub struct yaml_parser_t<'a> {
    pub(crate) input: &'a [u8],
    pub(crate) scanner: scanner_t,
    /// The text, once it is known to be a part of the input.
    pub(crate) part: Option<yaml_text_t<'a>>,
    pub(crate) empty: yaml_token_t,
}

impl<'a> Model for yaml_parser_t<'a> {
    ghost use Rattle.yaml_scan.specs.Parser.{Parser};
    ghost use Rattle.yaml_scan.specs.inside.Kept.{parser_in, IsSound};

    ghost Value = { Parser };

    ghost view = { parser_in };

    ghost invariant = { IsSound };
}

impl<'a> yaml_parser_t<'a> {
    /// A parser of the input, with a key limit of 1,024 bytes.
    pub fn new(alloc: Global, input: &'a [u8], setting: yaml_encoding_t) -> yaml_parser_t<'a>
        ensures { result ≡ record { input = input.now; setting = setting; limit = key_limit; session = new_session } }
    {
        yaml_parser_t::with_key_limit(alloc, input, setting, KEY_LIMIT)
    }

    /// A parser of the input, with a key limit in bytes, from 1 to 65,536.
    pub fn with_key_limit(
        alloc: Global,
        input: &'a [u8],
        setting: yaml_encoding_t,
        limit: u32,
    ) -> yaml_parser_t<'a>
        requires least { 1 ≤ limit }
        requires most { limit ≤ most_key_limit }
        ensures { result ≡ record { input = input.now; setting = setting; limit = limit; session = new_session } }
    {
        yaml_parser_t {
            input,
            scanner: scanner_t::with_key_limit(alloc, setting, limit),
            part: None,
            empty: yaml_token_t::empty(),
        }
    }

    /// The token that was shown, or the empty one.
    fn shown(&self) -> &yaml_token_t
        ensures { token_of result.now ≡ token_shown self.now }
    {
        match self.scanner.session.shown() {
            Some(token) => token,
            None => &self.empty,
        }
    }

    /// Makes the steps that the next token needs, and has it shown. `false` if the session ended with a fault instead.
    #[inline(always)]
    fn show(&mut self) -> bool
        ensures { Shows self.old result self.new }
    {
        self.scanner.show(self.input, &mut self.part)
    }

    /// The fault that has ended the session.
    fn last_fault(&self) -> yaml_fault_t
        requires { (f : Fault) × (self.now.session.fault ≡ Some f) }
        ensures { self.now.session.fault ≡ Some (fault_of result) }
    {
        match self.scanner.session.fault() {
            Some(fault) => *fault,
            None => unreachable!(),
        }
    }
}

/// Takes the next token. After the stream end, and after a fault, it is the empty one.
///
/// # Errors
/// The fault that ends the session, once, from the scan or peek that finds it: of kind reader if the input is no text
/// there, of kind scanner if no token can be read, of kind memory if a request for memory was refused. No memory is
/// needed if the token was peeked or the session is over, nor if the input is in UTF-8 and its reader's fault comes
/// before the first step.
#[inline(always)]
pub fn yaml_parser_scan(parser: &mut yaml_parser_t) -> Result<yaml_token_t, yaml_fault_t>
    ensures answers { Calls decoded_input SCAN parser.old (scan_result result) parser.new }
    ensures bare { IsThere parser.old → (scan_result result ≡ answered parser.old SCAN)
        × (parser.new ≡ after_call parser.old SCAN) }
    ensures at_start { IsRefusedAtStart (input_read parser.old)
        → (scan_result result ≡ answered parser.old SCAN) × (parser.new ≡ after_call parser.old SCAN) }
    ensures local { IsAnsweredAlike parser.old SCAN (scan_result result) }
    ensures marks { IsCountedIn parser.old (scan_result result) }
{
    parser.scanner.scan(parser.input, &mut parser.part)
}

/// Takes the token that was peeked, and drops it. It needs no memory.
pub fn yaml_parser_skip(parser: &mut yaml_parser_t)
    requires { parser.old.session.peeked ≡ true }
    ensures { parser.new ≡ after_call parser.old SKIP }
{
    let _ = parser.scanner.session.take();
}

/// Shows the next token, which the next scan or skip takes. After the stream end, and after a fault, it is the empty
/// one.
///
/// # Errors
/// The same as of [`yaml_parser_scan`].
pub fn yaml_parser_peek<'s>(
    parser: &'s mut yaml_parser_t<'_>,
) -> Result<&'s yaml_token_t, yaml_fault_t>
    ensures* answers { sem 𝓛 (OnceLetGo parser.entry
        (λ q. Calls decoded_input PEEK parser.old (peek_result (copied result)) q)) }
    ensures shows { (q : Parser) × Calls decoded_input PEEK parser.old (peek_result (copied result)) q }
    ensures bare { IsThere parser.old → peek_result (copied result) ≡ answered parser.old PEEK }
    ensures at_start { IsRefusedAtStart (input_read parser.old)
        → peek_result (copied result) ≡ answered parser.old PEEK }
    ensures local { IsAnsweredAlike parser.old PEEK (peek_result (copied result)) }
    ensures marks { IsCountedIn parser.old (peek_result (copied result)) }
{
    if parser.show() {
        Ok(parser.shown())
    } else {
        Err(parser.last_fault())
    }
}

/// Whether a peek showed a token, other than the empty one, that was not taken since. If one was shown, there is a next
/// token, and the session is not over.
pub fn yaml_parser_has_token(parser: &yaml_parser_t) -> bool
    ensures peeked { result ≡ parser.now.session.peeked }
    ensures next { result ≡ true → HasNext parser.now }
{
    parser.scanner.session.peeked
}

/// The fault that has ended the session, if one has: of kind reader, scanner or memory.
pub fn yaml_parser_fault<'s>(parser: &'s yaml_parser_t<'_>) -> Option<&'s yaml_fault_t>
    ensures { option_map (λ f. fault_of f.now) result ≡ parser.now.session.fault }
{
    parser.scanner.session.fault()
}

/// How many steps have a token that was made and not taken: at most one more than the key limit. STREAM-START is a
/// step, and each lexeme is one, with the keys and the starts and ends of blocks that were put in for it.
pub fn yaml_parser_queued(parser: &yaml_parser_t) -> u64
    ensures steps { result ≡ session_queued (course_read parser.now) parser.now.session }
    ensures few { result ≤ parser.now.limit + 1 }
{
    let state = &parser.scanner.session.state;
    state.made - state.layout.queue.done
}

/// How far the last step without a fault was read: bytes of the text in UTF-8, lines and characters, all from 0. It is
/// zero before any step.
pub fn yaml_parser_mark(parser: &yaml_parser_t) -> yaml_mark_t
    ensures reach { result ≡ session_reach (course_read parser.now) parser.now.session }
    ensures marks { ReachesTo parser.now result }
{
    parser.scanner.session.state.reach
}

/// Takes the next token, as [`yaml_parser_scan`] does, and says whether it is the stream end. After the end of the
/// session it is the empty one.
///
/// If a new parser is asked so again and again, the tokens are those that [`yaml_scan_to`](crate::yaml_scan_to) gives,
/// in order, to the stream end or before the fault.
///
/// # Errors
/// The same as of [`yaml_parser_scan`].
#[inline(always)]
pub fn yaml_scan_next(parser: &mut yaml_parser_t) -> Result<(yaml_token_t, bool), yaml_fault_t>
    ensures answers { MatchResult result
        (λ r. Calls decoded_input SCAN parser.old (TOKEN (token_of r.0)) parser.new)
        (λ fault. Calls decoded_input SCAN parser.old (FAULT (fault_of fault)) parser.new) }
    ensures token { IfOk result (λ r. (given : List Token)
        → Scanned parser.old.limit parser.old.setting parser.old.input parser.old given false
        → Scanned parser.old.limit parser.old.setting parser.old.input parser.new (given ++ token_of r.0 ∷ []) r.1) }
    ensures last { IfOk result (λ r. r.1 ≡ is_last_type (type_of (token_of r.0).token_data)) }
    ensures over { parser.old.session.over ≡ true
        → MatchResult result (λ r. (token_of r.0 ≡ empty) × (parser.new ≡ parser.old)) (λ _. ⊥) }
    ensures fault { IfErr result (λ fault. (given : List Token)
        → Scanned parser.old.limit parser.old.setting parser.old.input parser.old given false
        → ReadsAll parser.old.limit parser.old.setting parser.old.input given (Some (fault_of fault))) }
{
    match yaml_parser_scan(parser) {
        Ok(token) => {
            let last = is_last(&token);
            Ok((token, last))
        }
        Err(fault) => Err(fault),
    }
}
