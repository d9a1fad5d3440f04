//! Laws about the definitions, and about the equality that the types derive.
ghost use Rattle.std.specs.Prelude.{◌≡◌, ◌↔◌, IsTrue};
ghost use Rattle.yaml_lexeme.specs.LexemeOf.{lexeme_of};
ghost use Rattle.yaml_lexeme.specs.Counted.{PlacesAreCounted, MarksAreCounted};
ghost use Rattle.yaml_lexeme.specs.Whole.{GapIsWhole, ReachIsWhole, EndIsWhole, GapIsCounted, LexemeIsCounted};
ghost use Rattle.yaml_lexeme.specs.Whole.{ProblemIsCounted, StreamEndIsLast, StreamEndIsCounted};
ghost use Rattle.yaml_lexeme.specs.GapText.{GapIsLongest, RunIsLongest};
ghost use Rattle.yaml_lexeme.specs.Locality.{GapIsLocal, KindIsLocal, LexIsLocal};
ghost use Rattle.yaml_lexeme.specs.Parts.{QuotedIsParts, QuotedIsRefused, QuotedPartsAreLongest};
ghost use Rattle.yaml_lexeme.specs.Parts.{PlainIsParts, PlainIsRefused, LinksAreLongest};
ghost use Rattle.yaml_lexeme.specs.Parts.{ChunkIsLongest, LinkIsLongest, LinkIsOver};
ghost use Rattle.yaml_lexeme.specs.Parts.{UriIsParts, UriIsRefused, UriPartsAreLongest};
ghost use Rattle.yaml_lexeme.specs.Parts.{BlockIsLines, TextLineIsParts, TextLineIsRefused};
ghost use Rattle.yaml_lexeme.specs.Parts.{EmptyLinesAreLongest, TextLinesAreLongest};
ghost use Rattle.yaml_lexeme.specs.BlockGrammar.{BlockIsRefused};
ghost use Rattle.yaml_lexeme.specs.Grammar.{NameIsParts, NameIsRefused, TagIsParts, TagIsRefused};
ghost use Rattle.yaml_lexeme.specs.DirectiveGrammar.{DirectiveIsParts, DirectiveIsRefused};
ghost use Rattle.yaml_lexeme.specs.EscapeGrammar.{EscapeIsParts, EscapeIsRefused};
ghost use Rattle.yaml_lexeme.specs.HeaderGrammar.{HeaderIsParts, HeaderIsRefused, LineEndIsParts, LineEndIsRefused};
ghost use Rattle.yaml_lexeme.specs.Order.{GapOrder, LexemeSpans, LexemeOrder, StreamEndOrder, OffenceIsBeyond};
ghost use Rattle.yaml_lexeme.specs.Order.{LexemeFollows};

use crate::kind::yaml_lexeme_kind_t;
use crate::lex::yaml_context_t;
use crate::lexeme::yaml_lexeme_t;
use crate::problem::yaml_problem_t;

/// A gap ends where it starts or further on.
pub fn gap_order()
    ensures { GapOrder }
{}

/// A gap is the longest text that is gap lines joined by breaks, and says whether a break is in it. A run of a class is
/// as many of its characters as possible.
pub fn gap_is_longest()
    ensures gaps { GapIsLongest }
    ensures runs { RunIsLongest }
{}

/// A lexeme other than a stream end starts at its place, takes a character or more, and ends and reaches at places of
/// the text.
pub fn lexeme_spans()
    ensures { LexemeSpans }
{}

/// The marks of a lexeme other than a stream end are in order, and it takes a byte, and a column if it stays on its
/// line.
pub fn lexeme_order()
    ensures { LexemeOrder }
{}

/// A stream end is one mark, at column 0.
pub fn stream_end_order()
    ensures { StreamEndOrder }
{}

/// A problem is at a place of the text, where its lexeme would start or further on.
pub fn offence_is_ahead()
    ensures { OffenceIsBeyond }
{}

/// A lexeme after a gap follows what was read up to the gap.
pub fn lexeme_follows()
    ensures { LexemeFollows }
{}

/// A gap depends on no character eight or more past its end, with the end of the text counted as a character.
pub fn gap_is_local()
    ensures { GapIsLocal }
{}

/// A kind depends on no character eight or more past its place, with the end of the text counted as a character.
pub fn kind_is_local()
    ensures { KindIsLocal }
{}

/// A lexeme depends on no character eight or more past its reach, or past the place of its problem, with the
/// end of the text counted as a character.
pub fn lex_is_local()
    ensures { LexIsLocal }
{}

/// A place that is not between CR and LF has the mark that is counted from the front of the text, and what is
/// left there is what follows it: so gaps, kinds and lexemes can be read at a counted mark.
pub fn marks_are_counted()
    ensures places { PlacesAreCounted }
    ensures marks { MarksAreCounted }
{}

/// From a place that is not between CR and LF, the following places are not either: where a gap ends, where a
/// lexeme of the kind there ends and which it reaches, and where its problem is.
pub fn ends_are_whole()
    ensures gaps { GapIsWhole }
    ensures reaches { ReachIsWhole }
    ensures ends { EndIsWhole }
{}

/// So the marks of these places, other than the mark of a stream end, are those that are counted from the front of the
/// text.
pub fn ends_are_counted()
    ensures gaps { GapIsCounted }
    ensures lexemes { LexemeIsCounted }
    ensures problems { ProblemIsCounted }
{}

/// At a place that is not between CR and LF there is a stream end exactly if all characters of the text are before it.
/// The marks of the stream end are then the one that is counted from the front of the text, moved to the start of the
/// next line if its column is not 0.
pub fn stream_end_is_at_the_end()
    ensures last { StreamEndIsLast }
    ensures marks { StreamEndIsCounted }
{}

/// The text between the quotes of a scalar is its parts, one after the other and as many as possible: no further part
/// follows them, and any other list of parts is a beginning of this one. Its value is theirs. If it is refused, the
/// offence comes after as many parts as possible.
pub fn quoted_is_its_parts()
    ensures parts { QuotedIsParts }
    ensures refused { QuotedIsRefused }
    ensures longest { QuotedPartsAreLongest }
{}

/// The text of a plain scalar is a chunk and links, one after the other and as many as possible: any other list of
/// links is a beginning of this one. Its value is theirs. If it is refused, the offence is that of the chunk, or comes
/// after as many links as possible.
pub fn plain_is_its_parts()
    ensures parts { PlainIsParts }
    ensures refused { PlainIsRefused }
    ensures longest { LinksAreLongest }
{}

/// A chunk of a plain scalar is as many characters as possible. A link is as many blanks and breaks as possible, and a
/// chunk; there is none if there is no blank or break, or if the scalar ends after them.
pub fn links_are_longest()
    ensures chunk { ChunkIsLongest }
    ensures link { LinkIsLongest }
    ensures over { LinkIsOver }
{}

/// A uri is characters and escapes, one after the other and as many as possible: any other list of them is a beginning
/// of this one. Its octets are theirs. If it is refused, the offence comes after as many of them as possible.
pub fn uri_is_its_parts()
    ensures parts { UriIsParts }
    ensures refused { UriIsRefused }
    ensures longest { UriPartsAreLongest }
{}

/// The empty lines of a literal or folded scalar, before its text lines and between them, are as many as possible;
/// so are its text lines, and its value is that of these lines. Any other list of such lines is a beginning of the
/// longest one. If it is refused, the offence is that of the first part that the text does not give: the header, the
/// rest of its line, the leading empty lines, or the text lines. In the last two it comes after as many lines as
/// possible.
pub fn block_is_its_lines()
    ensures line { TextLineIsParts }
    ensures line_refused { TextLineIsRefused }
    ensures text { BlockIsLines }
    ensures refused { BlockIsRefused }
    ensures empties { EmptyLinesAreLongest }
    ensures longest { TextLinesAreLongest }
{}

/// An anchor or alias is `&` or `*` and as many letters as possible, at least one, before a character that may follow a
/// name. If it is refused, the offence comes after the letters: there is none, or another character follows.
pub fn name_is_its_parts()
    ensures parts { NameIsParts }
    ensures refused { NameIsRefused }
{}

/// A tag is `!<`, a uri and `>`, or a handle and a uri, before what may follow a tag; the texts of these, joined, are
/// the text of the tag. If it is refused, the offence is that of the first of them that the text does not give.
pub fn tag_is_its_parts()
    ensures parts { TagIsParts }
    ensures refused { TagIsRefused }
{}

/// A directive is its name, a version or a handle and a prefix, and the rest of its line; the texts of what it says,
/// joined, are the text after its name. If it is refused, the offence is that of the first of them that the text does
/// not give.
pub fn directive_is_its_parts()
    ensures parts { DirectiveIsParts }
    ensures refused { DirectiveIsRefused }
{}

/// An escape is a backslash and a character that stands for one, or a backslash, `x`, `u` or `U`, and the hex digits of
/// one. If it is refused, the offence is that of the first of these that the text does not give.
pub fn escape_is_its_parts()
    ensures parts { EscapeIsParts }
    ensures refused { EscapeIsRefused }
{}

/// The header of a literal or folded scalar is a sign and a digit from 1 to 9 in either order, one of them, or neither.
/// The rest of its line, or of a directive's, is blanks, a comment, and a break or the end of the text. If they are
/// refused, the digit is 0, or something else comes after the blanks.
pub fn header_is_its_parts()
    ensures parts { HeaderIsParts }
    ensures refused { HeaderIsRefused }
    ensures line { LineEndIsParts }
    ensures line_refused { LineEndIsRefused }
{}

/// Lexemes are equal exactly if what they say, their marks and whether a break was passed are.
pub fn same_lexemes(a: &yaml_lexeme_t, b: &yaml_lexeme_t) -> bool
    ensures { IsTrue result ↔ (lexeme_of a.now ≡ lexeme_of b.now) }
{
    *a == *b
}

/// Contexts are equal exactly if their depth and their level are.
pub fn same_contexts(a: yaml_context_t, b: yaml_context_t) -> bool
    ensures { IsTrue result ↔ (a ≡ b) }
{
    a == b
}

/// Kinds of lexemes are equal exactly if they are one kind.
pub fn same_kinds(a: yaml_lexeme_kind_t, b: yaml_lexeme_kind_t) -> bool
    ensures { IsTrue result ↔ (a ≡ b) }
{
    a == b
}

/// Problems are equal exactly if they are one problem.
pub fn same_problems(a: yaml_problem_t, b: yaml_problem_t) -> bool
    ensures { IsTrue result ↔ (a ≡ b) }
{
    a == b
}
