ghost use Rattle.std.specs.Prelude.{◌≡◌, IfErr, IfSome, OnOk};
ghost use Rattle.std.specs.Io.{ReadsAtMost, WritesAtMost, KnownBytes.Keeps, KnownBytes.ReadConsumes, KnownBytes.WriteAppends};
ghost use Rattle.streams.specs.Watched.{after_call, after_write, failures_of, inner_of, one_more};

use crate::named_file::{NamedFile, OpenFault};
use std::io;
use std::io::{Read, Write};

/// A reader or a writer that counts the calls that failed.
#[derive(Drop)]
pub struct Watched<T> {
    inner: T,
    failures: u64,
}

impl<T> Watched<T> {
    /// Watches `inner`, which has not failed so far.
    pub fn new(inner: T) -> Watched<T>
        ensures inner { inner_of result ≡ inner }
        ensures failures { failures_of result ≡ 0 }
    {
        Watched { inner, failures: 0 }
    }

    /// How many calls failed, modulo 2^64: those that returned an error of any kind, and the writes that accepted no byte although there were some.
    /// A file that could not be opened counts too.
    pub fn failures(&self) -> u64
        ensures { result ≡ failures_of self.now }
    {
        self.failures
    }

    // Counts a call that failed.
    fn count_failure(&mut self)
        ensures { self.new ≡ record self.old { failures = one_more (failures_of self.old) } }
    {
        self.failures = self.failures.wrapping_add(1);
    }

    /// The reader or writer that is watched.
    pub fn inner(&self) -> &T
        ensures { result.now ≡ inner_of self.now }
    {
        &self.inner
    }

    /// Returns the reader or writer, which is watched no longer.
    pub fn into_inner(self) -> T
        ensures { result ≡ inner_of self }
    {
        let Watched { inner, failures: _ } = self;
        inner
    }
}

impl<R: Read> Read for Watched<R> {
    ghost remaining = { λ w. R.remaining (inner_of w) };

    fn read(&mut self, buf: &mut [u8]) -> io::Result<usize>
        ensures bound { ReadsAtMost result buf.new }
        ensures bytes { ReadConsumes (R.remaining (inner_of self.old))
            (R.remaining (inner_of self.new)) result buf.new }
        ensures count { failures_of self.new ≡ after_call (failures_of self.old) result }
    {
        let result = self.inner.read(buf);
        if result.is_err() {
            self.count_failure();
        }
        result
    }
}

impl<W: Write> Write for Watched<W> {
    ghost contents = { λ w. W.contents (inner_of w) };

    fn write(&mut self, buf: &[u8]) -> io::Result<usize>
        ensures bound { WritesAtMost result buf.now }
        ensures bytes { WriteAppends (W.contents (inner_of self.old))
            (W.contents (inner_of self.new)) result buf.now }
        ensures count { failures_of self.new ≡ after_write (failures_of self.old) buf.now result }
    {
        let result = self.inner.write(buf);
        let took_nothing = matches!(&result, Ok(0)) && !buf.is_empty();
        if result.is_err() || took_nothing {
            self.count_failure();
        }
        result
    }

    fn flush(&mut self) -> io::Result<()>
        ensures bytes { Keeps (W.contents (inner_of self.old)) (W.contents (inner_of self.new)) }
        ensures count { failures_of self.new ≡ after_call (failures_of self.old) result }
    {
        let result = self.inner.flush();
        if result.is_err() {
            self.count_failure();
        }
        result
    }
}

impl<F: NamedFile> NamedFile for Watched<F> {
    ghost opened_as = { λ w. F.opened_as (inner_of w) };

    ghost refused_as = { λ w. F.refused_as (inner_of w) };

    fn open(&mut self, name: &str) -> Result<(), OpenFault>
        ensures bytes { F.contents (inner_of self.new) ≡ F.contents (inner_of self.old) }
        ensures opened { OnOk result
            (IfSome (F.opened_as (inner_of self.new)) (λ known. known ≡ name.now)) }
        ensures refused { IfErr result
            (λ fault. IfSome (F.refused_as (inner_of self.new)) (λ known. known ≡ fault)) }
        ensures count { failures_of self.new ≡ after_call (failures_of self.old) result }
    {
        let result = self.inner.open(name);
        if result.is_err() {
            self.count_failure();
        }
        result
    }
}
