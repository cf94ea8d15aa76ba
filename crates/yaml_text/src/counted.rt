//! Readers and writers whose failed calls are counted.
use std::io::{Read, Result, Write};

/// A reader or a writer, the number of its failed calls, and whether its last `write` or `flush` was
/// a `flush` that succeeded. Each call is passed on.
///
/// A call fails that answers an error, and a `write` of a nonempty piece that takes no byte. A count
/// at the greatest u64 stays there.
#[derive(Drop)]
pub struct Counted<T> {
    inner: T,
    faults: u64,
    flushed: bool,
}

impl<T> Counted<T> {
    ghost use Rattle.std.specs.Prelude.{◌≡◌, false};
    ghost use Rattle.yaml_text.specs.CountedModel.{inner_of, faults_of, flushed_of};

    /// The reader or writer, with no failed call.
    pub fn new(inner: T) -> Counted<T>
        ensures inner { inner_of result ≡ inner }
        ensures faults { faults_of result ≡ 0 }
        ensures flushed { flushed_of result ≡ false }
    {
        Counted {
            inner,
            faults: 0,
            flushed: false,
        }
    }

    /// How many calls failed.
    pub fn faults(&self) -> u64
        ensures { result ≡ faults_of self.now }
    {
        self.faults
    }

    /// Whether the last `write` or `flush` was a `flush` that succeeded.
    pub fn flushed(&self) -> bool
        ensures { result ≡ flushed_of self.now }
    {
        self.flushed
    }

    /// The reader or writer itself.
    pub fn into_inner(self) -> T
        ensures { result ≡ inner_of self }
    {
        self.inner
    }
}

impl<R: Read> Read for Counted<R> {
    ghost use Rattle.std.specs.Prelude.{◌≡◌};
    ghost use Rattle.std.specs.Io.{ReadsAtMost};
    ghost use Rattle.std.specs.Io.KnownBytes.{ReadConsumes};
    ghost use Rattle.yaml_text.specs.Count.{counted_call};
    ghost use Rattle.yaml_text.specs.CountedModel.{inner_of, faults_of, flushed_of};

    ghost remaining = { λ c. R.remaining (inner_of c) };

    fn read(&mut self, buf: &mut [u8]) -> Result<usize>
        ensures bound { ReadsAtMost result buf.new }
        ensures bytes { ReadConsumes (R.remaining (inner_of self.old)) (R.remaining (inner_of self.new)) result buf.new }
        ensures faults { faults_of self.new ≡ counted_call result (faults_of self.old) }
        ensures flushed { flushed_of self.new ≡ flushed_of self.old }
    {
        let result = self.inner.read(buf);
        if result.is_err() {
            self.faults = self.faults.saturating_add(1);
        }
        result
    }
}

impl<W: Write> Write for Counted<W> {
    ghost use Rattle.std.specs.Prelude.{◌≡◌, false, is_ok};
    ghost use Rattle.std.specs.Io.{WritesAtMost};
    ghost use Rattle.std.specs.Io.KnownBytes.{WriteAppends, Keeps};
    ghost use Rattle.yaml_text.specs.Count.{counted_call, counted_write};
    ghost use Rattle.yaml_text.specs.CountedModel.{inner_of, faults_of, flushed_of};

    ghost contents = { λ c. W.contents (inner_of c) };

    fn write(&mut self, buf: &[u8]) -> Result<usize>
        ensures bound { WritesAtMost result buf.now }
        ensures bytes { WriteAppends (W.contents (inner_of self.old)) (W.contents (inner_of self.new)) result buf.now }
        ensures faults { faults_of self.new ≡ counted_write result buf.now (faults_of self.old) }
        ensures flushed { flushed_of self.new ≡ false }
    {
        let result = self.inner.write(buf);
        self.flushed = false;
        let failed = match &result {
            Ok(took) => *took == 0 && !buf.is_empty(),
            Err(_) => true,
        };
        if failed {
            self.faults = self.faults.saturating_add(1);
        }
        result
    }

    fn flush(&mut self) -> Result<()>
        ensures bytes { Keeps (W.contents (inner_of self.old)) (W.contents (inner_of self.new)) }
        ensures faults { faults_of self.new ≡ counted_call result (faults_of self.old) }
        ensures flushed { flushed_of self.new ≡ is_ok result }
    {
        let result = self.inner.flush();
        self.flushed = result.is_ok();
        if result.is_err() {
            self.faults = self.faults.saturating_add(1);
        }
        result
    }
}
