//! The lines that the program writes: numbers are decimal, one space separates parts, and a line
//! ends with a line feed. A line is appended to the bytes, which grow by their own allocator, and nothing else is
//! allocated.
ghost use Rattle.std.specs.Prelude.{◌≡◌, ◌++◌, ◌∷◌, [], codes, map, OnOk, OnErr};
ghost use Rattle.yaml_text.specs.Fault.{fault_of};
ghost use Rattle.yaml_text.specs.Mark.{mark_of};
ghost use Rattle.yaml_text.specs.Token.{data_of, token_of};
ghost use Rattle.yaml_scan.specs.Words.{HasLine, HasWords};
ghost use Rattle.yaml_scan.specs.Seen.{seen_of};
ghost use Rattle.yaml_scan.specs.CallWords.{SeenHasLine, SeenHaveLines};
ghost use Rattle.yaml_listing.specs.inside.Put.{Puts, more_parts_text};
ghost use Rattle.yaml_listing.specs.Listing.{reader_line, scanner_line, fault_line, text_line};
ghost use Rattle.yaml_listing.specs.Listing.{token_line, peek_line, answer_line, answer_lines};

use crate::line::{HEAD, encoding_word, head_t, put_line, set_head};
use crate::mark::{kept_mark_t, put_mark};
use crate::put::{cut_back, put_decimal, put_part, put_signed, put_text};
use std::alloc::{AllocError, Global};
use yaml_scan::yaml_answer_t;
use yaml_text::{
    yaml_error_type_t, yaml_fault_t, yaml_mark_at, yaml_mark_t, yaml_text_t, yaml_token_t,
    yaml_token_type_t,
};

/// Appends the line of a reader's fault to `out`.
fn put_reader_fault(
    out: &mut Vec<u8>,
    offset: u64,
    value: i32,
    problem: &str,
) -> Result<(), AllocError>
    ensures { Puts result out.old.items (reader_line offset value problem.now) out.new.items }
{
    put_text(out, "FAULT reader")?;
    put_decimal(out, offset)?;
    put_signed(out, value)?;
    put_part(out, problem)?;
    put_text(out, "\n")
}

/// Appends a context, then `;`, and a problem to `out`.
fn put_texts(out: &mut Vec<u8>, context: &str, problem: &str) -> Result<(), AllocError>
    ensures { Puts result out.old.items (more_parts_text ((context.now ++ codes ";") ∷ problem.now ∷ []))
        out.new.items }
{
    put_part(out, context)?;
    put_text(out, ";")?;
    put_part(out, problem)
}

/// The marks of a scanner's fault: those of its context and of its problem.
#[derive(Clone, Copy)]
struct marks_t {
    context: yaml_mark_t,
    problem: yaml_mark_t,
}

/// Appends the line of a scanner's fault to `out`.
fn put_scanner_fault(
    out: &mut Vec<u8>,
    marks: marks_t,
    context: &str,
    problem: &str,
) -> Result<(), AllocError>
    ensures { Puts result out.old.items
        (scanner_line marks.context context.now marks.problem problem.now) out.new.items }
{
    put_text(out, "FAULT scanner")?;
    put_mark(out, marks.context)?;
    put_mark(out, marks.problem)?;
    put_texts(out, context, problem)?;
    put_text(out, "\n")
}

/// Appends the line of a fault to `out`. If memory is refused, a part of it may stay.
fn put_fault(out: &mut Vec<u8>, fault: &yaml_fault_t) -> Result<(), AllocError>
    requires { HasLine (fault_of fault.now) }
    ensures { Puts result out.old.items (fault_line (fault_of fault.now)) out.new.items }
{
    let problem = fault.problem.unwrap_or("");
    match fault.error {
        yaml_error_type_t::YAML_READER_ERROR => {
            put_reader_fault(out, fault.problem_offset, fault.problem_value, problem)
        }
        yaml_error_type_t::YAML_SCANNER_ERROR => {
            let context = fault.context.unwrap_or("-");
            let marks = marks_t {
                context: fault.context_mark,
                problem: fault.problem_mark,
            };
            put_scanner_fault(out, marks, context, problem)
        }
        _ => put_text(out, "FAULT memory\n"),
    }
}

/// Appends the line of a fault to `out`. If memory is refused, `out` is as before.
///
/// It is `FAULT reader`, offset, value and problem text; or `FAULT scanner`, the marks of context and problem, the
/// context text or `-`, then `;`, and the problem text; or `FAULT memory`.
pub fn list_fault(alloc: Global, fault: &yaml_fault_t, out: &mut Vec<u8>) -> Result<(), AllocError>
    requires { HasLine (fault_of fault.now) }
    ensures ok { OnOk result (out.new.items ≡ out.old.items ++ fault_line (fault_of fault.now)) }
    ensures err { OnErr result (out.new.items ≡ out.old.items) }
{
    let len = out.len();
    let outcome = put_fault(out, fault);
    cut_back(out, len, outcome)
}

/// The mark after all characters of a text.
fn end_mark(text: &yaml_text_t) -> yaml_mark_t
    ensures { result ≡ mark_of text.now.chars }
{
    yaml_mark_at(text, text.bytes().len())
}

/// Appends the line of a decoded text to `out`. If memory is refused, a part of it may stay.
fn put_decoded(out: &mut Vec<u8>, text: &yaml_text_t) -> Result<(), AllocError>
    ensures { Puts result out.old.items (text_line text.now) out.new.items }
{
    put_text(out, "TEXT")?;
    put_part(out, encoding_word(text.encoding()))?;
    put_decimal(out, text.bytes().len() as u64)?;
    put_mark(out, end_mark(text))?;
    put_text(out, "\n")
}

/// Appends the line of a decoded text to `out`. If memory is refused, `out` is as before.
///
/// It is `TEXT`, the encoding, the number of bytes in UTF-8 and the mark of the end.
pub fn list_text(text: &yaml_text_t, out: &mut Vec<u8>) -> Result<(), AllocError>
    ensures ok { OnOk result (out.new.items ≡ out.old.items ++ text_line text.now) }
    ensures err { OnErr result (out.new.items ≡ out.old.items) }
{
    let len = out.len();
    let outcome = put_decoded(out, text);
    cut_back(out, len, outcome)
}

/// Appends the line of a token to `out`. If memory is refused, `out` is as before.
pub fn list_token(alloc: Global, token: &yaml_token_t, out: &mut Vec<u8>) -> Result<(), AllocError>
    requires { HasWords (data_of token.now.token_data) }
    ensures ok { OnOk result (out.new.items ≡ out.old.items ++ token_line (token_of token.now)) }
    ensures err { OnErr result (out.new.items ≡ out.old.items) }
{
    let mut kept = kept_mark_t::new();
    let len = out.len();
    match put_line(out, len, &mut kept, token) {
        Ok(end) => {
            out.truncate(end);
            Ok(())
        }
        Err(error) => {
            out.truncate(len);
            Err(error)
        }
    }
}

/// Appends the line of a token that is shown to `out`. If memory is refused, a part of it may stay.
fn put_peek(out: &mut Vec<u8>, head: head_t) -> Result<(), AllocError>
    ensures { Puts result out.old.items (peek_line head.kind head.start_mark head.end_mark) out.new.items }
{
    let mut bytes = [0u8; HEAD];
    let end = set_head(&mut bytes, 0, &mut kept_mark_t::new(), head);
    put_text(out, "PEEK ")?;
    out.extend_from_slice(&bytes[..end])?;
    put_text(out, "\n")
}

/// Appends the line of a token that is shown and stays to `out`. If memory is refused, `out` is as before.
///
/// It is `PEEK`, the name of its type and its marks, or `PEEK NO-TOKEN` for the empty token.
pub fn list_peek(
    alloc: Global,
    kind: yaml_token_type_t,
    start_mark: yaml_mark_t,
    end_mark: yaml_mark_t,
    out: &mut Vec<u8>,
) -> Result<(), AllocError>
    ensures ok { OnOk result (out.new.items ≡ out.old.items ++ peek_line kind start_mark end_mark) }
    ensures err { OnErr result (out.new.items ≡ out.old.items) }
{
    let len = out.len();
    let head = head_t {
        kind,
        start_mark,
        end_mark,
    };
    let outcome = put_peek(out, head);
    cut_back(out, len, outcome)
}

/// Appends the line of an answer to a call to `out`. If memory is refused, `out` is as before.
///
/// It is that of a token, of a peek, or of a fault, or `SKIP`, or `SKIP NOTHING` if nothing was skipped.
pub fn list_answer(
    alloc: Global,
    answer: &yaml_answer_t,
    out: &mut Vec<u8>,
) -> Result<(), AllocError>
    requires { SeenHasLine (seen_of answer.now) }
    ensures ok { OnOk result (out.new.items ≡ out.old.items ++ answer_line (seen_of answer.now)) }
    ensures err { OnErr result (out.new.items ≡ out.old.items) }
{
    match answer {
        yaml_answer_t::TOKEN(token) => list_token(alloc, token, out),
        yaml_answer_t::PEEKED(kind, start, end) => list_peek(alloc, *kind, *start, *end, out),
        yaml_answer_t::SKIPPED => out.extend_from_slice(b"SKIP\n"),
        yaml_answer_t::NOTHING => out.extend_from_slice(b"SKIP NOTHING\n"),
        yaml_answer_t::FAULT(fault) => list_fault(alloc, fault, out),
    }
}

/// Appends the lines of these answers to `out`. If memory is refused, the old bytes are still its beginning.
pub fn list_answers(
    alloc: Global,
    answers: &[yaml_answer_t],
    out: &mut Vec<u8>,
) -> Result<(), AllocError>
    requires { SeenHaveLines (map seen_of answers.now) }
    ensures { Puts result out.old.items (answer_lines (map seen_of answers.now)) out.new.items }
{
    for answer in answers {
        list_answer(alloc, answer, out)?;
    }
    Ok(())
}
