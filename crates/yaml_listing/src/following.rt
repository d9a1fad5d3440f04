//! Lists the tokens of an input while it comes.
ghost use Rattle.std.specs.Prelude.{◌≡◌, ◌≢◌, ◌++◌, ◌<◌, ◌⊎◌, false, true, [], List, ℕ, Option, length, vec_len, IfOk, IfErr, OnErr, OnOk};
ghost use Rattle.std.specs.Io.KnownBytes.{Appends, Consumes, IsAtEnd};
ghost use Rattle.yaml_text.specs.Fault.{Fault};
ghost use Rattle.yaml_text.specs.declared.types.yaml_encoding_t.{yaml_encoding_t as setting_t};
ghost use Rattle.yaml_listing.specs.Follow.{FollowsAll, FollowsSome, ListsSettled};
ghost use Rattle.yaml_listing.specs.Listing.{fault_line};
ghost use Rattle.yaml_listing.specs.Outcome.{is_read_fault, is_write_fault};
ghost use Rattle.yaml_listing.specs.inside.Following.{EndsByFault, IsAt, IsBeginning, Listed, Settled, SettledAll, Wrote};

use crate::answer::{KEY_LIMIT, token_lines_t};
use crate::devices::{yaml_sink_t, yaml_source_t};
use crate::listing::list_fault;
use crate::outcome::tool_fault_t;
use crate::pace::pace_t;
use crate::run::{CHUNK, write_all};
use std::alloc::{AllocError, Global};
use yaml_scan::{
    yaml_fed_parser_t, yaml_fed_scan_to, yaml_fed_t, yaml_lent_scalar_t, yaml_token_sink_t,
};
use yaml_text::{yaml_encoding_t, yaml_token_t};

/// The lines of the tokens that were given, unless memory was refused to one of them.
#[derive(Drop)]
struct settled_lines_t {
    lines: token_lines_t,
    /// Whether memory was refused to a line. Then the lines are not all, and are thrown away.
    lost: bool,
    /// Where the last token ends, in bytes of the text.
    end: u64,
}

impl settled_lines_t {
    ghost use Rattle.std.specs.Prelude.{◌≡◌, false, take, IfOk, IfErr, [], ◌≤◌, vec_len};
    ghost use Rattle.yaml_listing.specs.declared.outcome.tool_fault_t.TheVariants.{Memory};

    /// No line yet.
    fn new(alloc: Global, end: u64) -> settled_lines_t
        ensures none { take result.lines.len result.lines.bytes.items ≡ [] }
    {
        settled_lines_t {
            lines: token_lines_t::new(alloc),
            lost: false,
            end,
        }
    }

    /// The lines alone.
    fn into_lines(self) -> Result<Vec<u8>, tool_fault_t>
        ensures lines { IfOk result (λ lines. (self.lost ≡ false)
            × (lines.items ≡ take self.lines.len self.lines.bytes.items)) }
        ensures fault { IfErr result (λ fault. fault ≡ Memory) }
    {
        let settled_lines_t {
            lines,
            lost,
            end: _,
        } = self;
        if lost {
            return Err(tool_fault_t::Memory);
        }
        Ok(lines.into_lines())
    }
}

impl yaml_token_sink_t for settled_lines_t {
    ghost use Rattle.std.specs.Prelude.{◌≡◌, ◌++◌, false, take};
    ghost use Rattle.yaml_listing.specs.Listing.{token_lines};
    ghost use Rattle.yaml_listing.specs.inside.TokenLines.{kept_lines, kept_more};

    ghost took = { λ a tokens b. b.lost ≡ false → (a.lost ≡ false)
        × (take b.lines.len b.lines.bytes.items ≡ take a.lines.len a.lines.bytes.items ++ token_lines tokens) };

    ghost may_refuse = { ⊥ };

    ghost within = { λ s. Unit {0} };

    ghost lacks = { λ s count texts. ⊥ };

    fn put(&mut self, token: yaml_token_t) -> Result<(), AllocError> {
        self.end = token.end_mark.index;
        if self.lines.put(token).is_err() {
            self.lost = true;
        }
        Ok(())
    }

    fn put_scalar(&mut self, scalar: &yaml_lent_scalar_t) -> Result<(), AllocError> {
        self.end = scalar.end_mark.index;
        if self.lines.put_scalar(scalar).is_err() {
            self.lost = true;
        }
        Ok(())
    }

    #[inline(always)]
    fn room(&mut self, alloc: Global) -> Vec<u8> {
        Vec::new(alloc)
    }

    #[inline(always)]
    fn has_room(&self, _count: u128, _texts: u128) -> bool {
        true
    }

    ghost took_none = { λ s. kept_lines s.lost (take s.lines.len s.lines.bytes.items) };

    ghost took_more = { λ a b c xs ys e f. kept_more a.lost b.lost c.lost
        (take a.lines.len a.lines.bytes.items) (take b.lines.len b.lines.bytes.items)
        (take c.lines.len c.lines.bytes.items) xs ys e f };

    ghost within_none = { λ a b e w. tt };
}

/// An input that is followed: what came of it, and a parser that is given that.
#[derive(Drop)]
struct follower_t {
    alloc: Global,
    fed: yaml_fed_parser_t,
    /// All bytes that came.
    input: Vec<u8>,
    pace: pace_t,
    /// Where the last token ends.
    end: u64,
}

impl follower_t {
    /// Nothing came yet.
    fn new(alloc: Global, setting: yaml_encoding_t) -> follower_t
        ensures none { result.input.items ≡ [] }
        ensures at { IsAt setting [] result.fed [] }
    {
        follower_t {
            alloc,
            fed: yaml_fed_parser_t::new(alloc, setting, KEY_LIMIT),
            input: Vec::new(alloc),
            pace: pace_t::new(),
            end: 0,
        }
    }

    /// Gives the tokens that are settled, as lines, and says why there are no more.
    fn give(&mut self, last: bool) -> Result<(Vec<u8>, yaml_fed_t), tool_fault_t>
        requires at { (setting : setting_t) × (told : List ℕ) × IsAt setting self.old.input.items self.old.fed told }
        ensures listed { (setting : setting_t) (told : List ℕ) → IsAt setting self.old.input.items self.old.fed told
            → IfOk result (λ r. Listed setting last self.old.input.items self.new.fed (told ++ r.0.items) r.1) }
        ensures same { self.new.input.items ≡ self.old.input.items }
        ensures fault { IfErr result (λ fault. fault ≡ tool_fault_t.Memory) }
    {
        let mut sink = settled_lines_t::new(self.alloc, self.end);
        let why = yaml_fed_scan_to(&mut self.fed, &self.input, last, &mut sink);
        self.end = sink.end;
        self.pace.scan(self.input.len() as u64, sink.end);
        let lines = sink.into_lines()?;
        Ok((lines, why))
    }

    /// Appends the line of the fault that ended the session.
    fn list_fault(&self, lines: &mut Vec<u8>) -> Result<(), AllocError>
        requires { (fault : Fault) × EndsByFault self.now.fed fault }
        ensures { (fault : Fault) → EndsByFault self.now.fed fault
            → OnOk result (lines.new.items ≡ lines.old.items ++ fault_line fault) }
    {
        match self.fed.fault() {
            Some(fault) => list_fault(self.alloc, fault, lines),
            None => Ok(()),
        }
    }

    /// The lines of the tokens that are settled, and of the fault. Returns whether there is one, once all is listed.
    fn list(&mut self, last: bool) -> Result<(Vec<u8>, Option<bool>), tool_fault_t>
        requires at { (setting : setting_t) × (told : List ℕ) × IsAt setting self.old.input.items self.old.fed told }
        ensures settled { (setting : setting_t) (told : List ℕ) → IsAt setting self.old.input.items self.old.fed told
            → IfOk result (λ r. SettledAll setting last self.old.input.items self.new.fed (told ++ r.0.items) r.1) }
        ensures same { self.new.input.items ≡ self.old.input.items }
        ensures fault { IfErr result (λ fault. fault ≡ tool_fault_t.Memory) }
    {
        let (mut lines, why) = self.give(last)?;
        match why {
            yaml_fed_t::OVER => Ok((lines, Some(false))),
            yaml_fed_t::FAULT => {
                self.list_fault(&mut lines)?;
                Ok((lines, Some(true)))
            }
            _ => Ok((lines, None)),
        }
    }

    /// Writes the lines of the tokens that are settled, and of the fault. Returns whether there is one, once all is
    /// written.
    fn write<W: yaml_sink_t>(
        &mut self,
        last: bool,
        writer: &mut W,
    ) -> Result<Option<bool>, tool_fault_t>
        requires at { (setting : setting_t) × (told : List ℕ) × IsAt setting self.old.input.items self.old.fed told }
        requires working { W.failed writer.old ≡ false }
        ensures wrote { (setting : setting_t) (start : Option (List ℕ)) (told : List ℕ)
            → IsAt setting self.old.input.items self.old.fed told → Appends start (W.contents writer.old) told
            → Wrote SettledAll setting last self.old.input.items self.new.fed start (W.contents writer.new) result }
        ensures same { self.new.input.items ≡ self.old.input.items }
        ensures faults { IfErr result (λ fault. (fault ≡ tool_fault_t.Write) ⊎ (fault ≡ tool_fault_t.Memory)) }
        ensures write { is_write_fault result ≡ W.failed writer.new }
    {
        let (lines, done) = self.list(last)?;
        write_all(writer, &lines)?;
        Ok(done)
    }

    /// Reads once, and returns whether there was anything left to read. If the read fails, the lines that are settled are
    /// written first.
    fn read<R: yaml_source_t, W: yaml_sink_t>(
        &mut self,
        reader: &mut R,
        buffer: &mut [u8],
        writer: &mut W,
    ) -> Result<bool, tool_fault_t>
        requires at { (setting : setting_t) × (told : List ℕ) × IsAt setting self.old.input.items self.old.fed told }
        requires reader { R.failed reader.old ≡ false }
        requires writer { W.failed writer.old ≡ false }
        requires room { 0 < length buffer.old }
        ensures bytes { OnOk result ((bytes : List ℕ)
            × (self.new.input.items ≡ self.old.input.items ++ bytes)
            × Consumes (R.remaining reader.old) (R.remaining reader.new) bytes) }
        ensures at { (setting : setting_t) (told : List ℕ) → IsAt setting self.old.input.items self.old.fed told
            → OnOk result (IsAt setting self.new.input.items self.new.fed told) }
        ensures more { IfOk result (λ more. more ≡ true → vec_len self.old.input < vec_len self.new.input) }
        ensures end { IfOk result (λ more. more ≡ false → IsAtEnd (R.remaining reader.new)) }
        ensures unwritten { OnOk result (writer.new ≡ writer.old) }
        ensures cut { (setting : setting_t) (start : Option (List ℕ)) (told : List ℕ)
            → IsAt setting self.old.input.items self.old.fed told → Appends start (W.contents writer.old) told
            → IfErr result (λ fault. (lines : List ℕ) × Appends start (W.contents writer.new) lines
            × IsBeginning setting false self.old.input.items lines
            × (fault ≡ tool_fault_t.Read → ListsSettled setting self.old.input.items lines)) }
        ensures faults { IfErr result (λ fault. fault ≢ tool_fault_t.Args) }
        ensures read { is_read_fault result ≡ true → R.failed reader.new ≡ true }
        ensures failed { OnOk result (R.failed reader.new ≡ false) }
        ensures write { is_write_fault result ≡ W.failed writer.new }
    {
        let Ok(count) = reader.pull(buffer) else {
            return match self.write(false, writer) {
                Ok(_) => Err(tool_fault_t::Read),
                Err(fault) => Err(fault),
            };
        };
        self.input.extend_from_slice(&buffer[..count])?;
        Ok(count > 0)
    }

    /// Writes the lines of the tokens that are settled, if enough came since that was done.
    fn go_on<W: yaml_sink_t>(&mut self, writer: &mut W) -> Result<Option<bool>, tool_fault_t>
        requires at { (setting : setting_t) × (told : List ℕ) × IsAt setting self.old.input.items self.old.fed told }
        requires working { W.failed writer.old ≡ false }
        ensures wrote { (setting : setting_t) (start : Option (List ℕ)) (told : List ℕ)
            → IsAt setting self.old.input.items self.old.fed told → Appends start (W.contents writer.old) told
            → Wrote Settled setting false self.old.input.items self.new.fed start (W.contents writer.new) result }
        ensures same { self.new.input.items ≡ self.old.input.items }
        ensures faults { IfErr result (λ fault. (fault ≡ tool_fault_t.Write) ⊎ (fault ≡ tool_fault_t.Memory)) }
        ensures write { is_write_fault result ≡ W.failed writer.new }
    {
        if self.pace.is_due(self.input.len() as u64) {
            self.write(false, writer)
        } else {
            Ok(None)
        }
    }
}

/// Lists the tokens of an input while it comes: reads, and writes the line of each token as soon as no more bytes can
/// change it. So that the time grows with the length of the input alone, what comes of a long scalar or comment may wait:
/// once it has a megabyte it waits until it has grown by a quarter. After the line of a fault nothing more is read.
///
/// What is written at any time begins the listing of each input that may begin with what was read. All lines of an input
/// in UTF-16 come at its end.
///
/// Returns whether the line of a fault was written.
///
/// # Errors
///
/// - `Read` if the reader failed. The lines that are settled by then are written first.
/// - `Write` if the writer failed.
/// - `Memory` if there was none for what came or for the lines.
///
/// What was written then begins the listing.
pub fn follow<R: yaml_source_t, W: yaml_sink_t>(
    alloc: Global,
    setting: yaml_encoding_t,
    reader: &mut R,
    writer: &mut W,
) -> Result<bool, tool_fault_t>
    requires reader { R.failed reader.old ≡ false }
    requires writer { W.failed writer.old ≡ false }
    ensures done { IfOk result (λ has_fault. FollowsAll setting (R.remaining reader.old) (R.remaining reader.new)
        (W.contents writer.old) (W.contents writer.new) has_fault) }
    ensures cut { IfErr result (λ fault. FollowsSome setting fault (R.remaining reader.old)
        (W.contents writer.old) (W.contents writer.new)) }
    ensures faults { IfErr result (λ fault. fault ≢ tool_fault_t.Args) }
    ensures read { is_read_fault result ≡ true → R.failed reader.new ≡ true }
    ensures failed { OnOk result (R.failed reader.new ≡ false) }
    ensures write { is_write_fault result ≡ W.failed writer.new }
{
    let mut follower = follower_t::new(alloc, setting);
    let mut buffer = [0u8; CHUNK];
    while follower.read(reader, &mut buffer, writer)? {
        if let Some(has_fault) = follower.go_on(writer)? {
            return Ok(has_fault);
        }
    }
    match follower.write(true, writer)? {
        Some(has_fault) => Ok(has_fault),
        None => Ok(false),
    }
}
