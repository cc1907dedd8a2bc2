//! The error of too few bytes.
ghost use Rattle.std.specs.Prelude.{◌≡◌, ◌+◌, ◌^◌, ◌<◌, length};

use crate::LenSource;
use crate::err::Layer;
use thiserror::Error;

/// A header or packet needs more bytes than there are.
// This order of fields is for speed. Padding follows `layer`, and the field after the padding is never a constant 0,
// which would be cleared and moved together with it. Where a `Result` keeps an error or a value in one place, the
// small fields of both have the same offset.
#[derive(Clone, Debug, PartialEq, Eq, Hash, Drop, Error)]
#[error("not enough bytes for {name} at offset {layer_start_offset}: {required_len} needed, {len} there by {source}", name = .layer.name(), source = .len_source.name())]
pub struct LenError {
    /// The number of bytes needed.
    pub required_len: usize,
    /// The offset of the header or packet that needs them, in bytes from the start of the caller's slice.
    pub layer_start_offset: usize,
    /// The source of `len`.
    pub len_source: LenSource,
    /// The header or packet that needs them.
    pub layer: Layer,
    /// The number of bytes present.
    pub len: usize,
}

impl LenError {
    ghost use Rattle.ip_base.specs.LenError.{too_short};
    ghost use Rattle.ip_base.specs.declared.len_source.LenSource.TheVariants.{Slice};

    /// Returns the error for a `slice` shorter than `required_len` bytes, with offset 0.
    #[inline(always)]
    pub fn slice_too_short(slice: &[u8], layer: Layer, required_len: usize) -> LenError
        ensures { result ≡ too_short Slice (length slice.now) 0 layer required_len }
    {
        LenError {
            required_len,
            layer_start_offset: 0,
            len_source: LenSource::Slice,
            layer,
            len: slice.len(),
        }
    }

    /// Returns the error with `offset` bytes added to `layer_start_offset`. Nothing else changes.
    pub fn add_offset(self, offset: usize) -> LenError
        requires { self.layer_start_offset + offset < 2 ^ 64 }
        ensures { result ≡ record self { layer_start_offset = self.layer_start_offset + offset } }
    {
        LenError {
            layer_start_offset: self.layer_start_offset + offset,
            ..self
        }
    }
}
