//! Readers of exactly as many bytes as requested.
ghost use Rattle.std.specs.Prelude.{◌≡◌, ℕ, ◌≤◌, ◌↔◌, IsOk, Bool, true, false, List, length, Some, OnOk, OnErr, IfErr, IsSome, Option};
ghost use Rattle.std.specs.IoError.{error_kind};
ghost use Rattle.std.specs.declared.io.Error.{Error};
ghost use Rattle.std.specs.declared.io.ErrorKind.TheVariants.{UnexpectedEof};
ghost use Rattle.std.specs.Io.KnownBytes.{Consumes};
ghost use Rattle.std.proofs.Common.{rules};
ghost use Rattle.ip_base.specs.ExactRead.{IsRefusal};

use std::io;
use std::io::ErrorKind;

/// A reader that returns exactly as many bytes as requested, or an error.
///
/// Bytes in memory are a steady reader: it refuses only if too few bytes are left. `OverRead` makes a reader of any
/// `std::io::Read`, which may fail at any time.
pub trait ExactRead {
    /// The bytes not yet read, if they are known.
    ghost bytes_left: { Self → Option (List ℕ) };

    /// Whether the reader refuses only if too few bytes are left, now and later.
    ghost is_steady: { Self → Bool };

    /// Whether the reader has failed.
    ghost has_failed: { Self → Bool };

    /// The errors that the last read may have returned.
    ghost has_given: { Self → Error → Type 0 };

    /// Fills the buffer with the next bytes and consumes exactly those. After an error, neither the bytes consumed
    /// nor the buffer's contents are known, and a reader that isn't steady has failed.
    fn read_exact(&mut self, buf: &mut [u8]) -> io::Result<()>
        ensures takes { OnOk result
            (Consumes (bytes_left self.old) (bytes_left self.new) buf.new) }
        ensures kept { OnOk result (has_failed self.new ≡ has_failed self.old) }
        ensures steady { is_steady self.new ≡ is_steady self.old }
        ensures refuses { OnErr result (IsRefusal (is_steady self.old) (bytes_left self.old)
            (length buf.old) (has_failed self.new)) }
        ensures own { IfErr result (has_given self.new) };

    ghost steady_tells: { (r : Self) → is_steady r ≡ true → IsSome (bytes_left r) };
}

/// Bytes in memory: a read removes its bytes from the front.
impl ExactRead for &[u8] {
    ghost bytes_left = { λ s. Some s.now };

    ghost is_steady = { λ _. true };

    ghost has_failed = { λ _. false };

    ghost has_given = { λ _ e. error_kind e ≡ UnexpectedEof };

    ghost steady_tells = { Prim.search rules };

    /// Returns an error of kind `UnexpectedEof` if too few bytes are left; then the slice is unchanged.
    #[inline(always)]
    fn read_exact(&mut self, buf: &mut [u8]) -> io::Result<()>
        ensures takes { OnOk result (Consumes (Some self.old.now) (Some self.new.now) buf.new) }
        ensures kept { OnOk result (false ≡ false) }
        ensures steady { true ≡ true }
        ensures refuses { OnErr result
            (IsRefusal true (Some self.old.now) (length buf.old) false) }
        ensures variant { IsOk result ↔ (length buf.old ≤ length self.old.now) }
        ensures own { IfErr result (λ e. error_kind e ≡ ErrorKind.UnexpectedEof) }
        ensures stays { OnErr result (self.new.now ≡ self.old.now) }
    {
        let all: &[u8] = *self;
        if all.len() < buf.len() {
            return Err(too_few());
        }
        let (front, rest) = all.split_at(buf.len());
        buf.copy_from_slice(front);
        *self = rest;
        Ok(())
    }
}

/// Returns the error for too few bytes. It is built here and not inline: inlined, its parts and the caller's result
/// would be moved one by one.
#[cold]
#[inline(never)]
fn too_few() -> io::Error
    ensures { error_kind result ≡ ErrorKind.UnexpectedEof }
{
    io::Error::from(ErrorKind::UnexpectedEof)
}
