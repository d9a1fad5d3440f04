//! Lists of calls, and the answer to each.
ghost use Rattle.std.specs.Prelude.{◌≡◌, ◌+◌, ◌≤◌, length, map, OnOk, OnErr, vec_len, true};
ghost use Rattle.std.specs.Vec.{vec_capacity};
ghost use Rattle.yaml_text.specs.Token.{token_of};
ghost use Rattle.yaml_scan.specs.Decoded.{decoded_input};
ghost use Rattle.yaml_scan.specs.Sessions.{session_queued};
ghost use Rattle.yaml_scan.specs.Session.Call.{SCAN, PEEK, SKIP};
ghost use Rattle.yaml_scan.specs.ParserCalls.{IsRefusedAtStart, input_read, course_read, call_of};
ghost use Rattle.yaml_scan.specs.CallWords.{SeenHaveLines};
ghost use Rattle.yaml_scan.specs.ReadingOn.{ReadsOn, HaveOneFault};
ghost use Rattle.yaml_scan.specs.Puts.{Puts, PutsSession, TakesNext, HasNext, AreAnsweredAlike};
ghost use Rattle.yaml_scan.specs.CallMarks.{text_read, SeenAreCounted};
ghost use Rattle.yaml_scan.specs.inside.Shown.{IsSeen};
ghost use Rattle.yaml_scan.specs.Seen.{seen_of, seen};
ghost use Rattle.yaml_scan.specs.Headline.{PutsAnswers};
ghost use Rattle.yaml_scan.specs.Session.Answer.{PEEKED};

use crate::parser::{
    yaml_parser_has_token, yaml_parser_peek, yaml_parser_queued, yaml_parser_scan,
    yaml_parser_skip, yaml_parser_t,
};
use std::alloc::AllocError;
use yaml_text::{yaml_fault_t, yaml_mark_t, yaml_token_t, yaml_token_type_t};

/// A call of a parser.
#[derive(Copy, Clone, PartialEq, Eq)]
pub enum yaml_call_t {
    /// Takes the next token, as [`yaml_parser_scan`] does.
    SCAN,
    /// Shows the next token, as [`yaml_parser_peek`] does.
    PEEK,
    /// Drops the token that was peeked, as [`yaml_parser_skip`] does; does nothing if none was.
    SKIP,
}

/// The answer to a call.
#[derive(Drop, PartialEq, Eq)]
pub enum yaml_answer_t {
    /// The token that a scan took, or the empty one after the end of the session.
    TOKEN(yaml_token_t),
    /// The type, the start and the end of the token that a peek showed.
    PEEKED(yaml_token_type_t, yaml_mark_t, yaml_mark_t),
    /// The token that was peeked is skipped.
    SKIPPED,
    /// No token was peeked, so there was nothing to skip.
    NOTHING,
    /// The fault that ends the session, from the scan or peek that finds it.
    FAULT(yaml_fault_t),
}

fn answer_scan(parser: &mut yaml_parser_t) -> yaml_answer_t
    ensures { IsSeen SCAN parser.old (seen_of result) parser.new }
{
    match yaml_parser_scan(parser) {
        Ok(token) => yaml_answer_t::TOKEN(token),
        Err(fault) => yaml_answer_t::FAULT(fault),
    }
}

/// The answer to a peek that shows this token.
fn peeked(token: &yaml_token_t) -> yaml_answer_t
    ensures { seen_of result ≡ seen (PEEKED (token_of token.now)) }
{
    yaml_answer_t::PEEKED(token.type_(), token.start_mark, token.end_mark)
}

fn answer_peek(parser: &mut yaml_parser_t) -> yaml_answer_t
    ensures { IsSeen PEEK parser.old (seen_of result) parser.new }
{
    match yaml_parser_peek(parser) {
        Ok(token) => peeked(token),
        Err(fault) => yaml_answer_t::FAULT(fault),
    }
}

fn answer_skip(parser: &mut yaml_parser_t) -> yaml_answer_t
    ensures { IsSeen SKIP parser.old (seen_of result) parser.new }
{
    if !yaml_parser_has_token(parser) {
        return yaml_answer_t::NOTHING;
    }
    yaml_parser_skip(parser);
    yaml_answer_t::SKIPPED
}

fn answer_call(parser: &mut yaml_parser_t, call: yaml_call_t) -> yaml_answer_t
    ensures { IsSeen (call_of call) parser.old (seen_of result) parser.new }
{
    match call {
        yaml_call_t::SCAN => answer_scan(parser),
        yaml_call_t::PEEK => answer_peek(parser),
        yaml_call_t::SKIP => answer_skip(parser),
    }
}

/// Makes the calls. There is room for their answers.
fn answer_all(parser: &mut yaml_parser_t, calls: &[yaml_call_t], out: &mut Vec<yaml_answer_t>)
    requires { vec_len out.old + length calls.now ≤ vec_capacity out.old }
    ensures { PutsAnswers decoded_input parser.old (map call_of calls.now) out.old.items out.new.items parser.new }
{
    for call in calls {
        let answer = answer_call(parser, *call);
        match out.push(answer) {
            Ok(_) => {}
            Err(_) => unreachable!(),
        }
    }
}

/// Few steps are queued in a parser after any calls, and if a token was peeked there is one.
fn few_wait(parser: &yaml_parser_t)
    ensures few { session_queued (course_read parser.now) parser.now.session ≤ parser.now.limit + 1 }
    ensures next { parser.now.session.peeked ≡ true → HasNext parser.now }
{
    let _ = yaml_parser_queued(parser);
    let _ = yaml_parser_has_token(parser);
}

/// Makes the calls in order, and appends the answer to each to `out`. A skip when no token was peeked is answered by
/// `NOTHING`.
///
/// More scans than there are tokens left take all of these in order, then return the fault once, if there is one, and
/// then empty tokens. If memory is refused in a call, its answer is the fault of kind memory, and the session is over.
///
/// # Errors
/// `AllocError` if there is no memory for the list of answers. It is reserved before the first call, so nothing has
/// changed then.
pub fn yaml_run(
    parser: &mut yaml_parser_t,
    calls: &[yaml_call_t],
    out: &mut Vec<yaml_answer_t>,
) -> Result<(), AllocError>
    ensures answers { OnOk result
        (PutsAnswers decoded_input parser.old (map call_of calls.now) out.old.items out.new.items parser.new) }
    ensures at_start { OnOk result (IsRefusedAtStart (input_read parser.old)
        → PutsSession parser.old (map call_of calls.now) out.old.items out.new.items parser.new) }
    ensures refused { OnErr result ((parser.new ≡ parser.old) × (out.new.items ≡ out.old.items)) }
    ensures few { session_queued (course_read parser.new) parser.new.session ≤ parser.new.limit + 1 }
    ensures reads_on { OnOk result (ReadsOn parser.old (map call_of calls.now) out.old.items out.new.items parser.new) }
    ensures taken { OnOk result (Puts (λ a. TakesNext parser.old a parser.new) out.old.items out.new.items) }
    ensures once { OnOk result (Puts HaveOneFault out.old.items out.new.items) }
    ensures lines { OnOk result (Puts SeenHaveLines out.old.items out.new.items) }
    ensures marks { OnOk result (Puts (SeenAreCounted (text_read parser.old)) out.old.items out.new.items) }
    ensures local { OnOk result
        (Puts (AreAnsweredAlike parser.old (map call_of calls.now)) out.old.items out.new.items) }
{
    few_wait(parser);
    out.reserve(calls.len())?;
    answer_all(parser, calls, out);
    few_wait(parser);
    Ok(())
}
