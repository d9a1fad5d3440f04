//! The cursor: a place that moves through the bytes of a text.
ghost use Rattle.std.specs.Prelude.{ℕ, min, ◌≡◌, ◌+◌, ◌-◌, ◌^◌, ◌<◌, ◌≤◌, length, slice_index, take, drop, false, true};
ghost use Rattle.std.specs.Prelude.{IfSome, None, nat_lt};
ghost use Rattle.std.specs.Char.{len_utf8};
ghost use Rattle.std.specs.Str.{chars};
ghost use Rattle.yaml_text.specs.Chars.{utf8};
ghost use Rattle.yaml_text.specs.TextBytes.{IsText};
ghost use Rattle.yaml_text.specs.Classes.{is_break};
ghost use Rattle.yaml_text.specs.Utf8.{width_of};
ghost use Rattle.yaml_lexeme.specs.Place.{peek, first, place_at, skip, after_run, run};
ghost use Rattle.yaml_lexeme.specs.inside.Moves.{mark_after, is_feed, feed_width, past_break, FedLine};
ghost use Rattle.yaml_lexeme.specs.Counted.{IsMarkOf};
ghost use Rattle.yaml_lexeme.specs.Place.{run_len, break_len};
ghost use Rattle.yaml_lexeme.specs.declared.runs.class_t.TheVariants.{BLANK, SPACE};
ghost use Rattle.yaml_lexeme.specs.inside.Runs.{class_test, is_line, Stands};
ghost use Rattle.yaml_lexeme.specs.inside.ShortRuns.{Short, ShortRun};

use crate::classes::is_break;
use crate::runs::{class_t, is_in, line_len, quiet_len, spaces_len, trimmed};
use std::marker::Model;
use yaml_text::{WIDTH, code_of, yaml_mark_t, yaml_text_t};

/// Whether the character `$k` places on is `$c`. Past the end a text reads as 0.
macro_rules! check_at {
    ($cursor:expr, $c:expr, $k:expr) => {
        $cursor.peek($k) == $c
    };
}

/// Whether the character `$k` places on passes a test.
macro_rules! is_at {
    ($cursor:expr, $test:expr, $k:expr) => {
        $test($cursor.peek($k))
    };
}

pub(crate) use check_at;
pub(crate) use is_at;

/// A place in a text: a mark and the bytes from it on.
#[derive(Drop)]
pub(crate) struct cursor_t<'a> {
    mark: yaml_mark_t,
    bytes: &'a [u8],
}

impl<'a> Model for cursor_t<'a> {
    ghost use Rattle.std.specs.Prelude.{◌+◌, ◌^◌, ◌<◌, ◌≤◌, length};
    ghost use Rattle.std.specs.Str.{chars};
    ghost use Rattle.yaml_text.specs.TextBytes.{IsText};
    ghost use Rattle.yaml_lexeme.specs.Place.{Place};

    ghost Value = { Place };

    ghost view = { λ c. record { mark = c.mark; rest = chars c.bytes.now } };

    ghost invariant = { λ c. IsText c.bytes.now
        × (c.mark.index + length c.bytes.now < 2 ^ 64)
        × (c.mark.line + c.mark.column ≤ c.mark.index) };
}

#[inline(always)]
fn first_bytes(bytes: &[u8], n: usize) -> &[u8]
    requires { n ≤ length bytes.now }
    ensures { result.now ≡ take n bytes.now }
{
    &bytes[..n]
}

#[inline(always)]
fn rest(bytes: &[u8], n: usize) -> &[u8]
    requires { n ≤ length bytes.now }
    ensures { result.now ≡ drop n bytes.now }
{
    &bytes[n..]
}

/// How many bytes the line feed that is here takes, alone or after a carriage return, or 0 if there is none.
#[inline(always)]
fn feed_width(bytes: &[u8]) -> usize
    ensures { result ≡ feed_width bytes.now }
{
    if bytes.is_empty() {
        return 0;
    }
    match bytes[0] {
        b'\n' => 1,
        b'\r' if bytes.len() > 1 && bytes[1] == b'\n' => 2,
        _ => 0,
    }
}

/// How many bytes a character has whose first byte is `b`.
#[inline(always)]
fn width_from(b: u8) -> usize
    ensures is { 0 < width_of b → result ≡ width_of b }
    ensures most { result ≤ 4 }
{
    match b {
        0..=0x7F => 1,
        0x80..=0xDF => 2,
        0xE0..=0xEF => 3,
        _ => 4,
    }
}

/// The first character.
#[inline(never)]
fn wide_char(bytes: &[u8]) -> char
    requires text { IsText bytes.now }
    requires some { 0 < length bytes.now }
    ensures { result ≡ slice_index (chars bytes.now) 0 }
{
    char::from_u32(code_of(bytes, width_from(bytes[0]))).unwrap()
}

/// The first character, or 0 at the end.
#[inline(always)]
fn first_char(bytes: &[u8]) -> char
    requires { IsText bytes.now }
    ensures { result ≡ slice_index (chars bytes.now) 0 }
{
    if bytes.is_empty() {
        return '\0';
    }
    let b = bytes[0];
    if b < 0x80 {
        return char::from(b);
    }
    wide_char(bytes)
}

#[inline(never)]
fn past_wide(bytes: &[u8]) -> &[u8]
    requires { IsText bytes.now }
    ensures text { IsText result.now }
    ensures rest { chars result.now ≡ drop 1 (chars bytes.now) }
{
    let width = WIDTH(bytes, 0).min(bytes.len());
    rest(bytes, width)
}

/// The bytes after the first character.
#[inline(always)]
fn past_char(bytes: &[u8]) -> &[u8]
    requires { IsText bytes.now }
    ensures text { IsText result.now }
    ensures rest { chars result.now ≡ drop 1 (chars bytes.now) }
{
    if bytes.is_empty() {
        return bytes;
    }
    if bytes[0] < 0x80 {
        return rest(bytes, 1);
    }
    past_wide(bytes)
}

fn mark_after(mark: yaml_mark_t, c: char, next: char) -> yaml_mark_t
    requires index { mark.index + len_utf8 c < 2 ^ 64 }
    requires sums { mark.line + mark.column ≤ mark.index }
    ensures value { result ≡ mark_after mark c next }
    ensures sums { result.line + result.column ≤ result.index }
{
    let index = mark.index + c.len_utf8() as u64;
    if is_break(c) && !(c == '\r' && next == '\n') {
        yaml_mark_t {
            index,
            line: mark.line + 1,
            column: 0,
        }
    } else {
        yaml_mark_t {
            index,
            line: mark.line,
            column: mark.column + 1,
        }
    }
}

impl<'a> cursor_t<'a> {
    /// The place of a mark.
    pub fn at(text: &'a yaml_text_t<'_>, mark: yaml_mark_t) -> cursor_t<'a>
        requires { (n : ℕ) × IsMarkOf text.now.chars mark n }
        ensures place { (n : ℕ) → IsMarkOf text.now.chars mark n → result ≡ place_at text.now.chars n }
        ensures size { length (utf8 text.now.chars) < 2 ^ 63 }
    {
        cursor_t {
            mark,
            bytes: rest(text.bytes(), mark.index as usize),
        }
    }

    /// A second cursor at the same place.
    #[inline(always)]
    pub fn again(&self) -> cursor_t<'a>
        ensures { result ≡ self.now }
    {
        cursor_t {
            mark: self.mark,
            bytes: self.bytes,
        }
    }

    /// The mark of this place. It is taken apart, so that it is not copied from place to place on the stack.
    #[inline(always)]
    pub fn mark(&self) -> yaml_mark_t
        ensures value { result ≡ self.now.mark }
        ensures room { result.line + result.column < 2 ^ 64 }
    {
        yaml_mark_t {
            index: self.mark.index,
            line: self.mark.line,
            column: self.mark.column,
        }
    }

    /// The character `k` places on, or 0 past the end.
    #[inline(always)]
    pub fn peek(&self, k: usize) -> char
        ensures { result ≡ peek self.now k }
    {
        let mut left = self.bytes;
        'count: for _ in 0..k {
            left = past_char(left);
        }
        first_char(left)
    }

    /// Whether the first byte that is left is this one, of ASCII. If it is, its character is here. That is cheaper than
    /// to read the character.
    #[inline(always)]
    pub fn begins_with(&self, byte: u8) -> bool
        requires { byte < 0x80 }
        ensures { result ≡ true → first self.now ≡ byte }
    {
        !self.bytes.is_empty() && self.bytes[0] == byte
    }

    /// Takes a line feed.
    #[inline(always)]
    pub fn pass_feed(&mut self)
        requires { first self.old ≡ 0x0A }
        ensures { self.new ≡ skip 1 self.old }
    {
        self.mark = yaml_mark_t {
            index: self.mark.index + 1,
            line: self.mark.line + 1,
            column: 0,
        };
        self.bytes = rest(self.bytes, 1);
    }

    /// Takes a carriage return before a line feed.
    #[inline(always)]
    fn pass_return(&mut self)
        requires here { first self.old ≡ 0x0D }
        requires feed { peek self.old 1 ≡ 0x0A }
        ensures { self.new ≡ skip 1 self.old }
    {
        self.mark = yaml_mark_t {
            index: self.mark.index + 1,
            line: self.mark.line,
            column: self.mark.column + 1,
        };
        self.bytes = rest(self.bytes, 1);
    }

    /// Takes a character of ASCII that is no break.
    #[inline(always)]
    pub fn pass(&mut self)
        requires some { 0 < first self.old }
        requires ascii { first self.old < 0x80 }
        requires inside { is_break (first self.old) ≡ false }
        ensures { self.new ≡ skip 1 self.old }
    {
        self.mark = yaml_mark_t {
            index: self.mark.index + 1,
            line: self.mark.line,
            column: self.mark.column + 1,
        };
        self.bytes = rest(self.bytes, 1);
    }

    /// Takes a character, if one is left.
    #[inline(always)]
    pub fn advance(&mut self)
        ensures { self.new ≡ skip 1 self.old }
    {
        if self.bytes.is_empty() {
            return;
        }
        let b = self.bytes[0];
        if b == b'\n' {
            self.pass_feed();
        } else if b < 0x80 && b != b'\r' {
            self.pass();
        } else {
            self.advance_far();
        }
    }

    /// Takes a character that is not ASCII or is a carriage return. A build clears the stack of what a function makes
    /// at the function's beginning, also where a rare branch alone makes it. So this branch is a function of its own.
    #[inline(always)]
    fn advance_far(&mut self)
        requires { 0 < length self.old.rest }
        ensures { self.new ≡ skip 1 self.old }
    {
        *self = self.again().past_far();
    }

    /// The place after a character that is not ASCII or is a carriage return.
    #[inline(never)]
    fn past_far(&self) -> cursor_t<'a>
        requires { 0 < length self.now.rest }
        ensures { result ≡ skip 1 self.now }
    {
        let c = first_char(self.bytes);
        let next = self.peek(1);
        cursor_t {
            mark: mark_after(self.mark, c, next),
            bytes: past_char(self.bytes),
        }
    }

    /// Takes `n` characters, or all that are left.
    #[inline(always)]
    pub fn skip(&mut self, n: usize)
        ensures { self.new ≡ skip n self.old }
    {
        'count: for _ in 0..n {
            self.advance();
        }
    }

    /// How many characters the break that is here takes, or 0 if there is none.
    #[inline(always)]
    pub fn break_len(&self) -> usize
        ensures { result ≡ break_len self.now }
    {
        let c = self.peek(0);
        // No break of ASCII is above a carriage return.
        if c > '\r' && c < '\u{80}' {
            return 0;
        }
        if c == '\r' && check_at!(self, '\n', 1) {
            2
        } else if is_break(c) {
            1
        } else {
            0
        }
    }

    /// Takes the break that is here, if there is one. Returns whether there is. Mostly that is a line feed.
    #[inline(always)]
    pub fn pass_break(&mut self) -> bool
        ensures end { self.new ≡ past_break self.old }
        ensures here { result ≡ nat_lt 0 (break_len self.old) }
    {
        if check_at!(self, '\n', 0) {
            self.pass_feed();
            return true;
        }
        let n = self.break_len();
        self.skip(n);
        n > 0
    }

    /// The bytes from an earlier place on up to this one.
    #[inline(always)]
    pub fn since(&self, start: &cursor_t<'a>) -> &'a [u8]
        requires { (n : ℕ) × (self.now ≡ skip n start.now) }
        ensures { (n : ℕ) → self.now ≡ skip n start.now → result.now ≡ utf8 (take n start.now.rest) }
    {
        first_bytes(start.bytes, start.bytes.len() - self.bytes.len())
    }

    /// What is left of the text at an earlier place, up to this place.
    #[inline(always)]
    pub fn between(&self, start: &'a [u8]) -> &'a [u8]
        requires { length (utf8 self.now.rest) ≤ length start.now }
        ensures { result.now ≡ take (length start.now - length (utf8 self.now.rest)) start.now }
    {
        let left = self.left();
        first_bytes(start, start.len() - left.len())
    }

    /// What is left of the text.
    #[inline(always)]
    pub fn left(&self) -> &'a [u8]
        ensures { result.now ≡ utf8 self.now.rest }
    {
        self.bytes
    }

    /// Takes characters of a run, up to a byte at which it may end. The flag says whether what only looks like a break
    /// is taken as well.
    #[inline(always)]
    fn skip_quiet(&mut self, class: class_t, passes: bool)
        ensures goes { after_run (class_test class) self.new ≡ after_run (class_test class) self.old }
        ensures shorter { length self.new.rest ≤ length self.old.rest }
        ensures fewer { length (utf8 self.new.rest) ≤ length (utf8 self.old.rest) }
    {
        let (n, count) = quiet_len(class, self.bytes, passes);
        self.mark = yaml_mark_t {
            index: self.mark.index + n as u64,
            line: self.mark.line,
            column: self.mark.column + count as u64,
        };
        self.bytes = rest(self.bytes, n);
    }

    /// Takes the longest run of characters of the class, and returns its bytes.
    #[inline(always)]
    pub fn run(&mut self, class: class_t) -> &'a [u8]
        ensures value { result.now ≡ utf8 (run (class_test class) self.old) }
        ensures end { self.new ≡ after_run (class_test class) self.old }
    {
        let start = self.left();
        self.skip_quiet(class, false);
        'run: while is_in(class, self.peek(0)) {
            self.advance();
            self.skip_quiet(class, true);
        }
        let left = self.left();
        first_bytes(start, start.len() - left.len())
    }

    /// Takes what is left of a line and the line feed that ends it, alone or after a carriage return. Returns how many
    /// bytes come before that break. If the line ends otherwise, nothing is taken.
    #[inline(always)]
    pub fn take_fed_line(&mut self) -> Option<usize>
        ensures taken { IfSome result (λ n. FedLine n self.old self.new) }
        ensures stays { result ≡ None → self.new ≡ self.old }
    {
        let n = line_len(self.bytes);
        let left = rest(self.bytes, n);
        let width = feed_width(left);
        if width == 0 {
            return None;
        }
        self.mark = yaml_mark_t {
            index: self.mark.index + (n + width) as u64,
            line: self.mark.line + 1,
            column: 0,
        };
        self.bytes = rest(left, width);
        Some(n)
    }

    /// Takes a short piece of `n` bytes.
    #[inline(always)]
    pub fn pass_short(&mut self, n: usize)
        requires { Short (utf8 self.old.rest) n }
        ensures { ShortRun self.old self.new n }
    {
        self.mark = yaml_mark_t {
            index: self.mark.index + n as u64,
            line: self.mark.line,
            column: self.mark.column + n as u64,
        };
        self.bytes = rest(self.bytes, n);
    }

    /// The place after the run of the class that is here.
    #[inline(never)]
    fn past_run(&self, class: class_t) -> cursor_t<'a>
        ensures { result ≡ after_run (class_test class) self.now }
    {
        let mut here = self.again();
        here.skip_run(class);
        here
    }

    /// Takes the run of the class that is here, by a call, since that is rare. A build clears the stack of what a
    /// function makes at the function's beginning, also where a rare branch alone makes it. So this branch is a
    /// function of its own.
    #[inline(always)]
    fn skip_far(&mut self, class: class_t)
        ensures { self.new ≡ after_run (class_test class) self.old }
    {
        *self = self.again().past_run(class);
    }

    /// Takes the run of the class that is here, if there is one.
    #[inline(always)]
    pub fn skip_rest(&mut self, class: class_t)
        ensures { self.new ≡ after_run (class_test class) self.old }
    {
        if is_in(class, self.peek(0)) {
            self.skip_far(class);
        }
    }

    /// Takes the longest run of characters of the class, and returns its bytes, as `run` does. A function of its own
    /// takes what comes after a byte that needs a closer look. That is rare, so this one is small.
    #[inline(always)]
    pub fn quick_run(&mut self, class: class_t) -> &'a [u8]
        ensures value { result.now ≡ utf8 (run (class_test class) self.old) }
        ensures end { self.new ≡ after_run (class_test class) self.old }
    {
        let start = self.left();
        self.skip_quiet(class, false);
        self.skip_rest(class);
        let left = self.left();
        first_bytes(start, start.len() - left.len())
    }

    /// Takes characters of a run of the class, up to a byte that ends it or needs a closer look. Returns their bytes.
    #[inline(always)]
    pub fn near_run(&mut self, class: class_t) -> &'a [u8]
        ensures goes { after_run (class_test class) self.new ≡ after_run (class_test class) self.old }
        ensures value { class_test class (first self.new) ≡ false
            → result.now ≡ utf8 (run (class_test class) self.old) }
    {
        let start = self.left();
        self.skip_quiet(class, false);
        self.between(start)
    }

    /// Whether a run of the class goes on here.
    #[inline(always)]
    pub fn goes_on(&self, class: class_t) -> bool
        ensures { result ≡ class_test class (first self.now) }
    {
        is_in(class, self.peek(0))
    }

    /// Takes the longest run of characters of the class, and returns its bytes, as `run` does, where that is rare: a
    /// function of its own takes it.
    #[inline(always)]
    pub fn rare_run(&mut self, class: class_t) -> &'a [u8]
        ensures value { result.now ≡ utf8 (run (class_test class) self.old) }
        ensures end { self.new ≡ after_run (class_test class) self.old }
    {
        let start = self.left();
        self.skip_far(class);
        let left = self.left();
        first_bytes(start, start.len() - left.len())
    }

    /// Takes characters of a class of a line, up to a byte at which their run may end, except the blanks
    /// before that byte.
    #[inline(always)]
    pub fn skip_solid(&mut self, class: class_t)
        requires { is_line class ≡ true }
        ensures { Stands (class_test class) self.old self.new }
    {
        let (n, count) = quiet_len(class, self.bytes, true);
        let kept = trimmed(first_bytes(self.bytes, n)).len();
        self.mark = yaml_mark_t {
            index: self.mark.index + kept as u64,
            line: self.mark.line,
            column: self.mark.column + (count - (n - kept)) as u64,
        };
        self.bytes = rest(self.bytes, kept);
    }

    /// Takes the spaces that are here, but at most `most`.
    #[inline(always)]
    pub fn skip_spaces(&mut self, most: u64)
        ensures value { self.new ≡ skip (min (run_len (class_test SPACE) self.old) most) self.old }
        ensures room { run_len (class_test SPACE) self.old < 2 ^ 64 }
    {
        let n = (spaces_len(self.bytes) as u64).min(most);
        self.mark = yaml_mark_t {
            index: self.mark.index + n,
            line: self.mark.line,
            column: self.mark.column + n,
        };
        self.bytes = rest(self.bytes, n as usize);
    }

    /// Takes the spaces that are here.
    #[inline(always)]
    pub fn skip_all_spaces(&mut self)
        ensures { self.new ≡ after_run (class_test SPACE) self.old }
    {
        self.skip_spaces(u64::MAX);
    }

    /// Takes a line feed, alone or after a carriage return, and the spaces after it. Returns whether it was here.
    #[inline(always)]
    pub fn take_feed_and_spaces(&mut self) -> bool
        ensures here { result ≡ is_feed (first self.old) (peek self.old 1) }
        ensures taken { result ≡ true → self.new ≡ after_run (class_test SPACE) (skip (break_len self.old) self.old) }
        ensures stays { result ≡ false → self.new ≡ self.old }
    {
        let c = self.peek(0);
        if c == '\r' && check_at!(self, '\n', 1) {
            self.pass_return();
        } else if c != '\n' {
            return false;
        }
        self.pass_feed();
        self.skip_all_spaces();
        true
    }

    /// Takes the blanks that are here, one by one, since mostly they are few.
    #[inline(always)]
    pub fn skip_blanks(&mut self)
        ensures { self.new ≡ after_run (class_test BLANK) self.old }
    {
        'blanks: while is_in(class_t::BLANK, self.peek(0)) {
            self.pass();
        }
    }

    /// Takes the longest run of characters of the class.
    #[inline(always)]
    pub fn skip_run(&mut self, class: class_t)
        ensures { self.new ≡ after_run (class_test class) self.old }
    {
        let _ = self.run(class);
    }
}
