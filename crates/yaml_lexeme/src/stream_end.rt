//! The stream end.
ghost use Rattle.std.specs.Prelude.{◌≡◌, ◌+◌, ◌<◌, ◌^◌};
ghost use Rattle.yaml_lexeme.specs.StreamEnd as spec;
ghost use Rattle.yaml_lexeme.specs.LexemeOf.{lexeme_of};
ghost use Rattle.yaml_lexeme.specs.Reading.{found};

use crate::lexeme::{whole_of, yaml_lexeme_t};
use crate::place::cursor_t;
use yaml_text::{unnamed_yaml_token_t_data, yaml_mark_t};

/// The mark of a stream end: that of the text's end, or of the next line's start if the column there is not 0.
fn stream_end(mark: yaml_mark_t) -> yaml_mark_t
    requires { mark.line + mark.column < 2 ^ 64 }
    ensures { result ≡ spec.stream_end mark }
{
    if mark.column == 0 {
        mark
    } else {
        yaml_mark_t {
            index: mark.index,
            line: mark.line + 1,
            column: 0,
        }
    }
}

/// The stream end where the cursor is, which is no character.
#[inline(always)]
pub(crate) fn stream_end_at(cursor: &cursor_t) -> yaml_lexeme_t
    ensures { found (lexeme_of result) cursor.now ≡ spec.at_end cursor.now }
{
    let mark = stream_end(cursor.mark());
    whole_of(unnamed_yaml_token_t_data::STREAM_END, mark, mark)
}
