//! An exact reader over any reader of the standard library.
ghost use Rattle.std.specs.Prelude.{◌≡◌, false, ⊤};
ghost use Rattle.std.proofs.Common.{rules};

use crate::io::ExactRead;
use std::io;
use std::io::Read;

/// A reader of exact numbers of bytes over any reader of the standard library. It records whether a call failed or
/// found fewer bytes than requested.
#[derive(Debug, Drop)]
pub struct OverRead<R> {
    reader: R,
    failed: bool,
}

impl<R> OverRead<R> {
    ghost use Rattle.ip_base.specs.OverRead.{reader_of, is_failed};

    /// Returns a reader over `reader`.
    pub fn new(reader: R) -> OverRead<R>
        ensures reader { reader_of result ≡ reader }
        ensures failed { is_failed result ≡ false }
    {
        OverRead {
            reader,
            failed: false,
        }
    }

    /// Returns whether a read has failed. It stays true when later reads succeed.
    pub fn failed(&self) -> bool
        ensures { result ≡ is_failed self.now }
    {
        self.failed
    }

    /// Returns the inner reader, with the bytes that it has left.
    pub fn into_inner(self) -> R
        ensures { result ≡ reader_of self }
    {
        self.reader
    }
}

impl<R: Read> ExactRead for OverRead<R> {
    ghost use Rattle.ip_base.specs.OverRead.{reader_of, is_failed};

    ghost bytes_left = { λ o. R.remaining (reader_of o) };

    ghost is_steady = { λ _. false };

    ghost has_failed = { is_failed };

    // The contract of `Read` says nothing about errors.
    ghost has_given = { λ _ _. ⊤ };

    ghost steady_tells = { Prim.search rules };

    /// Reads until the buffer is full, and retries a read that was interrupted. Returns the reader's own error, or
    /// one of kind `UnexpectedEof` if its bytes end first.
    ///
    /// The next call reads again, even after an error, so a caller may continue after `WouldBlock`, for example. The
    /// bytes that the failed call read are lost.
    fn read_exact(&mut self, buf: &mut [u8]) -> io::Result<()> {
        let result = self.reader.read_exact(buf);
        if result.is_err() {
            self.failed = true;
        }
        result
    }
}
