//! Readers and writers of std.

ghost use Rattle.std.specs.Prelude.{◌≡◌};
ghost use Rattle.dms_text_streams.specs.Models.{CountedModel};

use crate::failed::Failed;
use crate::sink::Sink;
use crate::source::Source;
use std::io::{Read, Write};
use std::marker::Model;

/// A reader or a writer of std, and the number of its calls that failed.
#[derive(Drop)]
pub struct Counted<T> {
    inner: T,
    failed: u64,
}

impl<T> Model for Counted<T> {
    ghost use Rattle.dms_text_streams.specs.Models.{CountedModel};

    ghost Value = { CountedModel T };

    ghost view = { λ counted. record { inner = counted.inner; failed = counted.failed } };
}

impl<T> Counted<T> {
    /// A reader or a writer of which no call failed yet.
    pub fn new(inner: T) -> Counted<T>
        ensures { result ≡ record { inner = inner; failed = 0 } }
    {
        Counted { inner, failed: 0 }
    }
}

/// Each error of the reader is a failed call.
impl<R: Read> Source for Counted<R> {
    ghost remaining = { λ counted. R.remaining counted.inner };

    ghost failed = { λ counted. counted.failed };

    fn read_some(&mut self, buffer: &mut [u8]) -> Result<usize, Failed> {
        match self.inner.read(buffer) {
            Ok(count) => Ok(count),
            Err(_) => {
                self.failed = self.failed.saturating_add(1);
                Err(Failed)
            }
        }
    }

    fn failures(&self) -> u64 {
        self.failed
    }
}

/// Each error of the writer is a failed call, and so is each that takes none of some octets.
impl<W: Write> Sink for Counted<W> {
    ghost contents = { λ counted. W.contents counted.inner };

    ghost failed = { λ counted. counted.failed };

    fn write_some(&mut self, octets: &[u8]) -> Result<usize, Failed> {
        match self.inner.write(octets) {
            Ok(count) => {
                if count == 0 && !octets.is_empty() {
                    self.failed = self.failed.saturating_add(1);
                }
                Ok(count)
            }
            Err(_) => {
                self.failed = self.failed.saturating_add(1);
                Err(Failed)
            }
        }
    }

    fn failures(&self) -> u64 {
        self.failed
    }
}
