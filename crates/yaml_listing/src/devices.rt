//! What the program reads from and writes to.
ghost use Rattle.std.specs.Prelude.{◌≡◌, ℕ, ◌<◌, Bool, false, List, Option, length, is_err};
ghost use Rattle.std.specs.Io.{ReadsAtMost, WritesAtMost};
ghost use Rattle.std.specs.Io.KnownBytes.{ReadConsumes, WriteAppends};
ghost use Rattle.yaml_listing.specs.Devices.{source_failed, sink_failed, IsProgress};

use std::io::{Read, Write};

/// A device failed in a call.
#[derive(Clone, Copy, Debug, PartialEq, Eq)]
pub struct yaml_broken_t;

/// Something to read from, until it fails.
pub trait yaml_source_t {
    // The bytes that are left, if they are known.
    ghost remaining: { Self → Option (List ℕ) };

    // Whether a call has failed.
    ghost failed: { Self → Bool };

    /// Reads into the front of the slice, and returns how many bytes; 0 is the end. An `Err` comes if the
    /// device fails in this call; then nothing was read.
    fn pull(&mut self, buf: &mut [u8]) -> Result<usize, yaml_broken_t>
        requires working { failed self.old ≡ false }
        requires room { 0 < length buf.old }
        ensures bound { ReadsAtMost result buf.new }
        ensures bytes { ReadConsumes (remaining self.old) (remaining self.new) result buf.new }
        ensures failed { failed self.new ≡ is_err result };

    /// Whether a call has failed.
    fn failed(&self) -> bool
        ensures { result ≡ failed self.now };
}

/// Something to write to, until it fails.
pub trait yaml_sink_t {
    // The bytes that were written, if they are known.
    ghost contents: { Self → Option (List ℕ) };

    // Whether a call has failed.
    ghost failed: { Self → Bool };

    /// Writes the front of the bytes, at least one, and returns how many. An `Err` comes if the device fails
    /// in this call; then nothing was written.
    fn put(&mut self, bytes: &[u8]) -> Result<usize, yaml_broken_t>
        requires working { failed self.old ≡ false }
        requires some { 0 < length bytes.now }
        ensures bound { WritesAtMost result bytes.now }
        ensures progress { IsProgress result }
        ensures bytes { WriteAppends (contents self.old) (contents self.new) result bytes.now }
        ensures failed { failed self.new ≡ is_err result };

    /// Whether a call has failed.
    fn failed(&self) -> bool
        ensures { result ≡ failed self.now };
}

/// A reader as a source. It fails if a read of the reader does.
#[derive(Drop)]
pub struct yaml_source_of_t<R> {
    /// The reader.
    pub inner: R,
    failed: bool,
}

impl<R: Read + Drop> yaml_source_of_t<R> {
    /// A source that has not failed.
    pub fn new(inner: R) -> Self
        ensures inner { result.inner ≡ inner }
        ensures working { source_failed result ≡ false }
    {
        yaml_source_of_t {
            inner,
            failed: false,
        }
    }

    /// Whether a read failed.
    fn read_failed(&self) -> bool
        ensures { result ≡ source_failed self.now }
    {
        self.failed
    }
}

impl<R: Read + Drop> yaml_source_t for yaml_source_of_t<R> {
    ghost remaining = { λ s. R.remaining s.inner };

    ghost failed = { λ s. source_failed s };

    fn pull(&mut self, buf: &mut [u8]) -> Result<usize, yaml_broken_t> {
        match self.inner.read(buf) {
            Ok(count) => Ok(count),
            Err(_) => {
                self.failed = true;
                Err(yaml_broken_t)
            }
        }
    }

    fn failed(&self) -> bool {
        self.read_failed()
    }
}

/// A writer as a sink. It fails if a write of the writer does, or takes no byte.
#[derive(Drop)]
pub struct yaml_sink_of_t<W> {
    /// The writer.
    pub inner: W,
    failed: bool,
}

impl<W: Write + Drop> yaml_sink_of_t<W> {
    /// A sink that has not failed.
    pub fn new(inner: W) -> Self
        ensures inner { result.inner ≡ inner }
        ensures working { sink_failed result ≡ false }
    {
        yaml_sink_of_t {
            inner,
            failed: false,
        }
    }

    /// Whether a write failed or took no byte.
    fn write_failed(&self) -> bool
        ensures { result ≡ sink_failed self.now }
    {
        self.failed
    }
}

impl<W: Write + Drop> yaml_sink_t for yaml_sink_of_t<W> {
    ghost contents = { λ s. W.contents s.inner };

    ghost failed = { λ s. sink_failed s };

    fn put(&mut self, bytes: &[u8]) -> Result<usize, yaml_broken_t> {
        match self.inner.write(bytes) {
            Ok(count) if count > 0 => Ok(count),
            _ => {
                self.failed = true;
                Err(yaml_broken_t)
            }
        }
    }

    fn failed(&self) -> bool {
        self.write_failed()
    }
}
