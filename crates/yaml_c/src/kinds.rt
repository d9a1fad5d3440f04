//! The two kinds of scanners that a handle may hold: of a whole input, and of one that comes in pieces.
ghost use Rattle.std.specs.Prelude.{◌≡◌, length};
ghost use Rattle.yaml_c.specs.Answer.{no_answer, rooms};
ghost use Rattle.yaml_c.specs.Held.{Scan, IsAt, IsNext, IsPeek};
ghost use Rattle.yaml_c.specs.Kinds.{IfPieces, IfWhole, Pieces, Whole};
ghost use Rattle.yaml_c.specs.PiecesHeld.{GivesPiece, IsAtPieces, IsWindow, PiecesScan};
ghost use Rattle.yaml_c.specs.Status as status;

use crate::answer::{bogzhami_answer, counts};
use crate::held::{held_t, next_batch, peek};
use crate::pieces::{held_pieces_t, is_window, next_piece};
use crate::record::bogzhami_token;
use crate::status::{NOT_LIVE, WRONG};

/// What a handle holds.
#[derive(Drop)]
pub enum held_any_t {
    /// A scanner of a whole input.
    WHOLE(held_t),
    /// A scanner that is given its input in pieces.
    PIECES(held_pieces_t),
}

/// Gives the next tokens of a whole input. A scanner of pieces gives none.
#[inline(always)]
pub(crate) fn next_of_whole(
    held: &mut held_any_t,
    input: &[u8],
    tokens: &mut [bogzhami_token],
    texts: &mut [u8],
    answer: &mut bogzhami_answer,
) -> u32
    requires { IfWhole held.old (λ h. (s : Scan) × (s.input ≡ input.now) × IsAt s h) }
    ensures whole { IfWhole held.old (λ h. (s : Scan) → s.input ≡ input.now → IsAt s h → Whole held.new
        (λ k. IsNext s (rooms tokens.old texts.old) (rooms tokens.new texts.new) k answer.new result)) }
    ensures pieces { IfPieces held.old (λ h. (held.new ≡ held.old) × (result ≡ status.not_live)
        × (answer.new ≡ no_answer) × (rooms tokens.new texts.new ≡ rooms tokens.old texts.old)) }
{
    match held {
        held_any_t::WHOLE(whole) => next_batch(whole, input, tokens, texts, answer),
        held_any_t::PIECES(_) => {
            *answer = counts(0, 0);
            NOT_LIVE
        }
    }
}

/// Shows what comes next of a whole input. A scanner of pieces shows nothing.
#[inline(always)]
pub(crate) fn peek_of_whole(
    held: &mut held_any_t,
    input: &[u8],
    token: &mut bogzhami_token,
    texts: &mut [u8],
    answer: &mut bogzhami_answer,
) -> u32
    requires { IfWhole held.old (λ h. (s : Scan) × (s.input ≡ input.now) × IsAt s h) }
    ensures whole { IfWhole held.old (λ h. (s : Scan) → s.input ≡ input.now → IsAt s h → Whole held.new
        (λ k. IsPeek s token.old texts.old token.new texts.new k answer.new result)) }
    ensures pieces { IfPieces held.old (λ h. (held.new ≡ held.old) × (result ≡ status.not_live)
        × (answer.new ≡ no_answer) × (token.new ≡ token.old) × (texts.new ≡ texts.old)) }
{
    match held {
        held_any_t::WHOLE(whole) => peek(whole, input, token, texts, answer),
        held_any_t::PIECES(_) => {
            *answer = counts(0, 0);
            NOT_LIVE
        }
    }
}

/// Gives the next tokens of an input that comes in pieces, of which the window has what came. A scanner of a whole input
/// gives none.
pub(crate) fn next_of_pieces(
    held: &mut held_any_t,
    from: u64,
    window: &[u8],
    last: bool,
    tokens: &mut [bogzhami_token],
    texts: &mut [u8],
    answer: &mut bogzhami_answer,
) -> u32
    requires { IfPieces held.old (λ h. IsWindow h from (length window.now) last
        → (s : PiecesScan) × (s.fed.given ≡ window.now) × (s.fed.whole ≡ last) × IsAtPieces s h) }
    ensures pieces { IfPieces held.old (λ h. IsWindow h from (length window.now) last
        → (s : PiecesScan) → s.fed.given ≡ window.now → s.fed.whole ≡ last → IsAtPieces s h → Pieces held.new
        (λ k. GivesPiece s (rooms tokens.old texts.old) (rooms tokens.new texts.new) k answer.new result)) }
    ensures wrong { IfPieces held.old (λ h. (IsWindow h from (length window.now) last → ⊥) → (held.new ≡ held.old)
        × (result ≡ status.wrong) × (answer.new ≡ no_answer)
        × (rooms tokens.new texts.new ≡ rooms tokens.old texts.old)) }
    ensures whole { IfWhole held.old (λ h. (held.new ≡ held.old) × (result ≡ status.not_live)
        × (answer.new ≡ no_answer) × (rooms tokens.new texts.new ≡ rooms tokens.old texts.old)) }
{
    *answer = counts(0, 0);
    match held {
        held_any_t::WHOLE(_) => NOT_LIVE,
        held_any_t::PIECES(pieces) => {
            if !is_window(pieces, from, window.len() as u64, last) {
                return WRONG;
            }
            next_piece(pieces, window, last, tokens, texts, answer)
        }
    }
}
