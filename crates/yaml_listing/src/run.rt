//! Reads all there is, and writes the listing of the answer to it.
ghost use Rattle.std.specs.Prelude.{◌≡◌, ◌≢◌, ℕ, ◌<◌, ◌⊎◌, ◌++◌, ◌↔◌, List, true, false, length, take, vec_len};
ghost use Rattle.std.specs.Prelude.{IfOk, IfErr, OnOk, OnErr, IsErrOf};
ghost use Rattle.std.specs.Io.KnownBytes.{Appends, Consumes, IsAtEnd};
ghost use Rattle.yaml_listing.specs.Outcome.{is_read_fault, is_write_fault};
ghost use Rattle.yaml_listing.specs.Run.{IsWrong, Writes, WritesBeginning};

use crate::answer::answer_to;
use crate::args::{is_right, yaml_command_t};
use crate::devices::{yaml_sink_t, yaml_source_t};
use crate::outcome::tool_fault_t;
use std::alloc::Global;

/// A read is asked for so many bytes.
pub(crate) const CHUNK: usize = 65536;

/// Reads once, at most as much as the buffer holds, and returns whether there was anything left to read.
fn read_chunk<R: yaml_source_t>(
    reader: &mut R,
    buffer: &mut [u8],
    input: &mut Vec<u8>,
) -> Result<bool, tool_fault_t>
    requires working { R.failed reader.old ≡ false }
    requires room { 0 < length buffer.old }
    ensures bytes { OnOk result ((bytes : List ℕ)
        × (input.new.items ≡ input.old.items ++ bytes)
        × Consumes (R.remaining reader.old) (R.remaining reader.new) bytes) }
    ensures more { IfOk result (λ more. more ≡ true → vec_len input.old < vec_len input.new) }
    ensures end { IfOk result (λ more. more ≡ false → IsAtEnd (R.remaining reader.new)) }
    ensures read { is_read_fault result ≡ R.failed reader.new }
    ensures faults { IfErr result (λ fault. (fault ≡ tool_fault_t.Read) ⊎ (fault ≡ tool_fault_t.Memory)) }
{
    let Ok(count) = reader.pull(buffer) else {
        return Err(tool_fault_t::Read);
    };
    input.extend_from_slice(&buffer[..count])?;
    Ok(count > 0)
}

/// Reads to the end.
fn read_all<R: yaml_source_t>(alloc: Global, reader: &mut R) -> Result<Vec<u8>, tool_fault_t>
    requires { R.failed reader.old ≡ false }
    ensures bytes { IfOk result (λ input. Consumes (R.remaining reader.old) (R.remaining reader.new) input.items) }
    ensures end { OnOk result (IsAtEnd (R.remaining reader.new)) }
    ensures read { is_read_fault result ≡ R.failed reader.new }
    ensures faults { IfErr result (λ fault. (fault ≡ tool_fault_t.Read) ⊎ (fault ≡ tool_fault_t.Memory)) }
{
    let mut input = Vec::new(alloc);
    let mut buffer = [0u8; CHUNK];
    while read_chunk(reader, &mut buffer, &mut input)? {}
    Ok(input)
}

/// Writes all the bytes, in as many calls as it takes. After an `Err` only a beginning of them, which is not
/// all, was written.
pub(crate) fn write_all<W: yaml_sink_t>(writer: &mut W, bytes: &[u8]) -> Result<(), tool_fault_t>
    requires { W.failed writer.old ≡ false }
    ensures all { OnOk result (Appends (W.contents writer.old) (W.contents writer.new) bytes.now) }
    ensures part { OnErr result ((count : ℕ)
        × (count < length bytes.now)
        × Appends (W.contents writer.old) (W.contents writer.new) (take count bytes.now)) }
    ensures fault { IfErr result (λ fault. fault ≡ tool_fault_t.Write) }
    ensures write { is_write_fault result ≡ W.failed writer.new }
{
    let mut at = 0;
    while at < bytes.len() {
        let Ok(count) = writer.put(&bytes[at..]) else {
            return Err(tool_fault_t::Write);
        };
        at += count;
    }
    Ok(())
}

/// Runs the command: reads all there is, and writes the listing of the answer to it.
///
/// Returns whether the line of a fault was written. Nothing is tried again.
///
/// # Errors
///
/// - `Args` if the key limit is not from 1 to 65,536, or the word of calls has another letter than `s`, `p` and `k`.
///   Then nothing was read.
/// - `Read` if the reader failed. Then nothing was written.
/// - `Memory` if there was none for the input or for the listing. Then nothing was written.
/// - `Write` if the writer failed. Then a beginning of the listing was written.
pub fn run<R: yaml_source_t, W: yaml_sink_t>(
    alloc: Global,
    command: &yaml_command_t,
    reader: &mut R,
    writer: &mut W,
) -> Result<bool, tool_fault_t>
    requires reader { R.failed reader.old ≡ false }
    requires writer { W.failed writer.old ≡ false }
    ensures done { IfOk result (λ has_fault. Writes command.now
        (R.remaining reader.old) (R.remaining reader.new)
        (W.contents writer.old) (W.contents writer.new) has_fault) }
    ensures cut { IsErrOf result tool_fault_t.Write → WritesBeginning command.now
        (R.remaining reader.old) (R.remaining reader.new)
        (W.contents writer.old) (W.contents writer.new) }
    ensures untouched { IfErr result (λ fault. fault ≢ tool_fault_t.Write → writer.new ≡ writer.old) }
    ensures read { is_read_fault result ≡ R.failed reader.new }
    ensures write { is_write_fault result ≡ W.failed writer.new }
    ensures args { IsErrOf result tool_fault_t.Args ↔ IsWrong command.now }
    ensures unread { IsWrong command.now → reader.new ≡ reader.old }
{
    if !is_right(command) {
        return Err(tool_fault_t::Args);
    }
    let input = read_all(alloc, reader)?;
    let (lines, has_fault) = answer_to(alloc, &input, command)?;
    write_all(writer, &lines)?;
    Ok(has_fault)
}
