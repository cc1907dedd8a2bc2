//! Bytes and headers that are written to a buffer.
ghost use Rattle.std.specs.Prelude.{◌≡◌, ◌≤◌, ◌<◌, ◌+◌, ◌^◌, ◌++◌, ℕ, List, [], ◌∷◌, length, drop, take, slice_set};
ghost use Rattle.ip_spec.specs.Header.{IsHeader};
ghost use Rattle.ip_spec.specs.Chain.{ExtHeader, bytes_of};
ghost use Rattle.ip_rewrite.specs.Writing.{AreWritten};

use ip_base::IpNumber;

/// Stores a byte, if the index is within the buffer.
#[inline(always)]
pub(crate) fn set(out: &mut [u8], index: usize, byte: u8)
    ensures stored { index < length out.old → out.new ≡ slice_set out.old index byte }
    ensures len { length out.new ≡ length out.old }
{
    if index < out.len() {
        out[index] = byte;
    }
}

/// Copies bytes to an offset of a buffer.
#[inline(always)]
pub(crate) fn put(out: &mut [u8], offset: usize, bytes: &[u8])
    requires { offset + length bytes.now ≤ length out.old }
    ensures { out.new ≡ take offset out.old ++ bytes.now ++ drop (offset + length bytes.now) out.old }
{
    out[offset..offset + bytes.len()].copy_from_slice(bytes);
}

/// Copies bytes to an offset of a buffer, if they fit.
#[inline(always)]
pub(crate) fn put_at(out: &mut [u8], offset: usize, bytes: &[u8])
    ensures { offset + length bytes.now ≤ length out.old → out.new
        ≡ take offset out.old ++ bytes.now ++ drop (offset + length bytes.now) out.old }
{
    if offset <= out.len() && bytes.len() <= out.len() - offset {
        put(out, offset, bytes);
    }
}

/// Writes one more header after `len` bytes, of which the one at `link` is the number of what follows them.
#[inline(always)]
pub(crate) fn append(out: &mut [u8], len: usize, link: usize, number: IpNumber, header: &[u8])
    requires { IsHeader number.0 header.now }
    ensures { (l : ℕ) (b buffer : List ℕ) (c : List ExtHeader) (h : ExtHeader) → h ≡ record { number = number.0; bytes = header.now }
        → AreWritten l b buffer c out.old len link
        → length b + length (bytes_of (c ++ h ∷ [])) ≤ length buffer → length buffer < 2 ^ 64
        → AreWritten l b buffer (c ++ h ∷ []) out.new (len + length header.now) len }
{
    set(out, link, number.0);
    put_at(out, len, header);
}
