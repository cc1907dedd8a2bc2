//! A header in the uniform format (RFC 6564), owned.
ghost use Rattle.std.specs.Prelude.{◌≡◌, ◌≤◌, ◌<◌, ◌+◌, ◌*◌, ◌++◌, [], ◌↔◌, ◌⊎◌, ℕ, List, length, drop, replicate, IsTrue, IsOk, OnOk, OnErr, IfOk, IfErr, vec_len, vec_capacity, IfSome};
ghost use Rattle.std.specs.Io.KnownBytes.{Consumes};
ghost use Rattle.ip_spec.specs.Numbers.{HOP_BY_HOP, ROUTING, DESTINATION_OPTIONS};
ghost use Rattle.ip_base.specs.Prefix.{IsPrefix, NoPrefix};
ghost use Rattle.ip_spec.specs.Header.{IsRawHeader, IsRawNumber};
ghost use Rattle.ip_spec.specs.Chain.{ExtHeader};
ghost use Rattle.ip_spec.specs.Places.{raw_header};
ghost use Rattle.ip_spec.specs.Encodable.{IsEncoded};
ghost use Rattle.ip_spec.specs.Fields.{raw_fields, raw_len};
ghost use Rattle.ip_spec.specs.Encoding.{AppendsOne, IsRawEncoding};
ghost use Rattle.ip_spec.specs.Decoding.{IsRawDecoding};
ghost use Rattle.ip_spec.specs.Requests.{RawAsks};
ghost use Rattle.ip_base.specs.ExactRead.{IfSteady};
ghost use Rattle.ip_base.specs.LimitedReader.{inner_of, window};
ghost use Rattle.ip_base.specs.Reading.{IsHeaderConsumed, IsRefused, IsConsumedInLayer, IsRefusedInLayer};
ghost use Rattle.ip_base.specs.declared.err.layer.Layer.TheVariants.{Ipv6ExtHeader};
ghost use Rattle.ip_base.specs.LimitedReadError.{io_of};

use crate::Ipv6RawExtHeaderSlice;
use crate::appending::append;
use crate::encodable::raw_encodable;
use crate::err::ipv6_exts::ExtPayloadLenError;
use arrayvec::ArrayVec;
use ip_base::IpNumber;
use ip_base::err::io::LimitedReadError;
use ip_base::err::{Layer, LenError};
use ip_base::io::{ExactRead, LimitedReader};
use std::alloc::{AllocError, Allocator};
use std::io;
use std::marker::Model;

/// The name of this type in earlier versions of the interface.
#[deprecated(note = "use `Ipv6RawExtHeader`")]
pub type Ipv6RawExtensionHeader = Ipv6RawExtHeader;

/// An IPv6 header in the uniform format (RFC 6564): hop-by-hop options, routing or destination options (RFC 8200,
/// sections 4.3, 4.4, 4.6). Its payload, the bytes after the next header and length fields, has 6 to 2046 bytes; with
/// those two bytes its length is a multiple of 8. In a contract it is the record of its next header and its payload.
#[derive(Debug, Drop)]
pub struct Ipv6RawExtHeader {
    // First, so that no padding lies between it and the end of the header.
    payload: ArrayVec<u8, 2046>,
    /// The next header field.
    pub next_header: IpNumber,
}

impl Model for Ipv6RawExtHeader {
    ghost use Rattle.std.specs.Prelude.{length};
    ghost use Rattle.ip_spec.specs.Fields.{RawFields};
    ghost use Rattle.ip_spec.specs.Lengths.{IsPayloadLen};

    ghost Value = { RawFields };

    ghost view = { λ h. record { next_header = h.next_header.0; payload = h.payload.items } };

    ghost invariant = { λ h. IsPayloadLen (length h.payload.items) };

    ghost inverse = { λ v. record {
      next_header = record { 0 = v.next_header };
      payload = record { items = v.payload };
    } };
}

impl Ipv6RawExtHeader {
    ghost use Rattle.ip_base.specs.declared.len_source.LenSource.TheVariants.{Slice};
    ghost use Rattle.ip_ext_headers.specs.HeaderFault.{raw_fault};
    ghost use Rattle.ip_spec.specs.Lengths.{IsPayloadLen};
    ghost use Rattle.ip_ext_headers.specs.LengthFault.{payload_len_fault};

    /// The shortest header, in bytes.
    pub const MIN_LEN: usize = 8;

    /// The longest header, in bytes: 256 units of 8.
    pub const MAX_LEN: usize = 2048;

    /// The shortest payload, in bytes.
    pub const MIN_PAYLOAD_LEN: usize = 6;

    /// The longest payload, in bytes.
    pub const MAX_PAYLOAD_LEN: usize = 2046;

    /// Returns whether headers of this number have the uniform format: hop-by-hop options, routing, destination
    /// options, mobility, Host Identity Protocol and Shim6.
    pub fn header_type_supported(next_header: IpNumber) -> bool
        ensures { IsTrue result ↔ ((next_header.0 ≡ HOP_BY_HOP) ⊎ ((next_header.0 ≡ ROUTING)
            ⊎ ((next_header.0 ≡ DESTINATION_OPTIONS) ⊎ ((next_header.0 ≡ 135)
            ⊎ ((next_header.0 ≡ 139) ⊎ (next_header.0 ≡ 140)))))) }
    {
        Ipv6RawExtHeaderSlice::header_type_supported(next_header)
    }

    /// Returns the header with this next header and this payload. Returns an error, in this order, if the payload has
    /// fewer than 6 bytes, more than 2046, or if its length plus 2 is not a multiple of 8.
    pub fn new_raw(
        next_header: IpNumber,
        payload: &[u8],
    ) -> Result<Ipv6RawExtHeader, ExtPayloadLenError>
        ensures allowed { IsOk result ↔ IsPayloadLen (length payload.now) }
        ensures value { IfOk result (λ h.
            h ≡ record { next_header = next_header.0; payload = payload.now }) }
        ensures fault { IfErr result (λ e. payload_len_fault (length payload.now) ≡ Some e) }
    {
        Self::check_payload_len(payload.len())?;
        Ok(Self::with_payload(next_header, payload))
    }

    /// Returns the header with this next header and a payload of an allowed length.
    #[inline(always)]
    pub(crate) fn with_payload(next_header: IpNumber, payload: &[u8]) -> Ipv6RawExtHeader
        requires { IsPayloadLen (length payload.now) }
        ensures { result ≡ record { next_header = next_header.0; payload = payload.now } }
    {
        let mut bytes = ArrayVec::new();
        let _ = bytes.try_extend_from_slice(payload);
        Ipv6RawExtHeader {
            payload: bytes,
            next_header,
        }
    }

    /// Checks that a payload may have `len` bytes.
    fn check_payload_len(len: usize) -> Result<(), ExtPayloadLenError>
        ensures allowed { IsOk result ↔ IsPayloadLen len }
        ensures fault { IfErr result (λ e. payload_len_fault len ≡ Some e) }
    {
        if len < Self::MIN_PAYLOAD_LEN {
            return Err(ExtPayloadLenError::TooSmall(len));
        }
        if len > Self::MAX_PAYLOAD_LEN {
            return Err(ExtPayloadLenError::TooBig(len));
        }
        if (len + 2) % 8 != 0 {
            return Err(ExtPayloadLenError::Unaligned(len));
        }
        Ok(())
    }

    /// Parses the header at the start of `slice`, and returns it with the bytes after it. Returns an error if there
    /// are fewer than 8 bytes, or fewer than the header's own length.
    pub fn from_slice(slice: &[u8]) -> Result<(Ipv6RawExtHeader, &[u8]), LenError>
        ensures decoding { IfOk result (λ p. IsRawDecoding slice.now p.0 p.1.now) }
        ensures none { IfErr result (λ _. (b : List ℕ) → IsRawHeader b → IsPrefix b slice.now → ⊥) }
        ensures fault { IfErr result (λ e.
            raw_fault Slice (length slice.now) 0 slice.now ≡ Some e) }
    {
        let header = Ipv6RawExtHeaderSlice::from_slice(slice)?;
        let rest = &slice[header.slice().len()..];
        Ok((header.to_header(), rest))
    }

    /// Reads a header: 2 bytes, then the number of bytes that the second states, and no byte after those. Returns the
    /// reader's error; after it the number of consumed bytes is not known.
    #[inline(always)]
    pub fn read<T: ExactRead>(reader: &mut T) -> io::Result<Ipv6RawExtHeader>
        ensures header { IfOk result (IsHeaderConsumed IsRawHeader raw_fields
            (Consumes (T.bytes_left reader.old) (T.bytes_left reader.new))) }
        ensures kept { OnOk result (T.has_failed reader.new ≡ T.has_failed reader.old) }
        ensures steady { T.is_steady reader.new ≡ T.is_steady reader.old }
        ensures none { OnErr result (IfSteady (T.is_steady reader.old) (T.bytes_left reader.old)
            (NoPrefix IsRawHeader)) }
        ensures refused { OnErr result (IsRefused RawAsks (T.is_steady reader.old)
            (T.bytes_left reader.old) (T.has_failed reader.new)) }
        ensures own { IfErr result (T.has_given reader.new) }
    {
        let mut start = [0; 2];
        match reader.read_exact(&mut start) {
            Ok(()) => {}
            Err(e) => return Err(e),
        }
        let [next_header, hdr_ext_len] = start;
        let len = 8 * usize::from(hdr_ext_len) + 6;
        let mut buffer = [0; Self::MAX_PAYLOAD_LEN];
        let payload = &mut buffer[..len];
        match reader.read_exact(payload) {
            Ok(()) => Ok(Self::filled_with(IpNumber(next_header), payload)),
            Err(e) => Err(e),
        }
    }

    /// Returns the header with this next header and payload, filled in its place (docs/DECISIONS.md, "Moves of large
    /// values").
    #[inline(always)]
    fn filled_with(next_header: IpNumber, payload: &[u8]) -> Ipv6RawExtHeader
        requires { IsPayloadLen (length payload.now) }
        ensures { result ≡ record { next_header = next_header.0; payload = payload.now } }
    {
        let mut header = Self::default();
        header.next_header = next_header;
        header.set(payload);
        header
    }

    /// Reads a header within a limit, as `read` does from the bytes that may still be read. It starts the layer
    /// `Ipv6ExtHeader`. Returns `Len` for the first request that exceeds the limit, which consumes nothing; `Io` is
    /// the reader's error. After both, `read_len` is the number of the header's bytes read before the error.
    #[inline(always)]
    pub fn read_limited<T: ExactRead>(
        reader: &mut LimitedReader<T>,
    ) -> Result<Ipv6RawExtHeader, LimitedReadError>
        ensures header { IfOk result (IsHeaderConsumed IsRawHeader raw_fields
            (IsConsumedInLayer T.bytes_left Ipv6ExtHeader reader.old reader.new)) }
        ensures kept { OnOk result
            (T.has_failed (inner_of reader.new) ≡ T.has_failed (inner_of reader.old)) }
        ensures steady { T.is_steady (inner_of reader.new) ≡ T.is_steady (inner_of reader.old) }
        ensures none { OnErr result (IfSteady (T.is_steady (inner_of reader.old))
            (window T.bytes_left reader.old) (NoPrefix IsRawHeader)) }
        ensures refused { IfErr result (IsRefusedInLayer T.bytes_left T.is_steady T.has_failed
            RawAsks Ipv6ExtHeader reader.old reader.new) }
        ensures own { IfErr result (λ e. IfSome (io_of e) (T.has_given (inner_of reader.new))) }
    {
        reader.start_layer(Layer::Ipv6ExtHeader);
        let mut start = [0; 2];
        match reader.read_exact(&mut start) {
            Ok(()) => {}
            Err(e) => return Err(e),
        }
        let [next_header, hdr_ext_len] = start;
        let mut buffer = [0; Self::MAX_PAYLOAD_LEN];
        let payload = &mut buffer[..8 * usize::from(hdr_ext_len) + 6];
        match reader.read_exact(payload) {
            Ok(()) => Ok(Self::filled_with(IpNumber(next_header), payload)),
            Err(e) => Err(e),
        }
    }

    /// Returns the bytes after the next header and length fields, 6 to 2046.
    pub fn payload(&self) -> &[u8]
        ensures payload { result.now ≡ self.now.payload }
        ensures allowed { IsPayloadLen (length result.now) }
    {
        self.payload.as_slice()
    }

    /// Sets the payload, which has an allowed length.
    #[inline(always)]
    fn set(&mut self, payload: &[u8])
        requires { IsPayloadLen (length payload.now) }
        ensures { self.new ≡ record self.old { payload = payload.now } }
    {
        self.payload.clear();
        let _ = self.payload.try_extend_from_slice(payload);
    }

    /// Sets the payload as `set` does, in a larger value that isn't moved (docs/DECISIONS.md, "Moves of large values").
    #[inline]
    pub(crate) fn set_in_place(&mut self, payload: &[u8])
        requires { IsPayloadLen (length payload.now) }
        ensures { self.new ≡ record self.old { payload = payload.now } }
    {
        self.payload.clear();
        append(&mut self.payload, payload);
    }

    /// Sets the payload. Returns an error, in this order, if it has fewer than 6 bytes, more than 2046, or if its
    /// length plus 2 is not a multiple of 8; then the header is unchanged.
    pub fn set_payload(&mut self, payload: &[u8]) -> Result<(), ExtPayloadLenError>
        ensures allowed { IsOk result ↔ IsPayloadLen (length payload.now) }
        ensures ok { OnOk result (self.new ≡ record self.old { payload = payload.now }) }
        ensures fault { IfErr result (λ e. payload_len_fault (length payload.now) ≡ Some e) }
        ensures err { OnErr result (self.new ≡ self.old) }
    {
        // Tested before a byte is touched.
        Self::check_payload_len(payload.len())?;
        self.set(payload);
        Ok(())
    }

    /// Returns the header's bytes. Parsing them returns this header, whatever bytes follow.
    #[inline(always)]
    pub fn to_bytes(&self) -> ArrayVec<u8, 2048>
        ensures encoding { IsRawEncoding self.now result.items }
        ensures len { length result.items ≡ raw_len self.now }
        ensures read_back { (r : List ℕ) → IsRawDecoding (result.items ++ r) self.now r }
    {
        let mut bytes = ArrayVec::new();
        bytes.push(self.next_header.0);
        bytes.push(self.hdr_ext_len());
        let _ = bytes.try_extend_from_slice(self.payload());
        bytes
    }

    /// Appends the header's bytes. Returns an error only if the vector has no room for them and can't grow; then its
    /// bytes are unchanged.
    #[inline(always)]
    pub fn write<A: Allocator>(&self, out: &mut Vec<u8, A>) -> Result<(), AllocError>
        ensures ok { OnOk result (AppendsOne (IsRawEncoding self.now) out.old.items out.new.items) }
        ensures len { OnOk result (vec_len out.new ≡ vec_len out.old + raw_len self.now) }
        ensures err { OnErr result (out.new.items ≡ out.old.items) }
        ensures full { OnErr result (vec_capacity out.old < vec_len out.old + raw_len self.now) }
        ensures capacity { vec_capacity out.old ≤ vec_capacity out.new }
    {
        out.reserve(self.header_len())?;
        self.write_reserved(out);
        Ok(())
    }

    /// Appends the header's bytes. The vector must have room for them.
    #[inline(always)]
    pub fn write_reserved<A: Allocator>(&self, out: &mut Vec<u8, A>)
        requires room { vec_len out.old + raw_len self.now ≤ vec_capacity out.old }
        ensures appended { AppendsOne (IsRawEncoding self.now) out.old.items out.new.items }
        ensures len { vec_len out.new ≡ vec_len out.old + raw_len self.now }
        ensures capacity { vec_capacity out.old ≤ vec_capacity out.new }
    {
        let rest = &self.payload()[6..];
        // Neither call fails: there is room.
        let _ = out.extend_from_slice(&self.first_bytes());
        if !rest.is_empty() {
            let _ = out.extend_from_slice(rest);
        }
    }

    /// Returns the header's length in bytes, 8 to 2048. Every value can be written: the ranges of its fields guarantee
    /// it.
    pub fn header_len(&self) -> usize
        ensures len { result ≡ raw_len self.now }
        ensures least { 8 ≤ result }
        ensures most { result ≤ 2048 }
        ensures encodable { (n : ℕ) → IsRawNumber n
            → (h : ExtHeader) × IsEncoded n (raw_header self.now) h }
    {
        let payload = self.payload();
        raw_encodable(self.next_header, payload);
        payload.len() + 2
    }

    /// Returns the first unit of 8 bytes, which every header has.
    #[inline(always)]
    fn first_bytes(&self) -> [u8; 8]
        ensures { IsRawEncoding self.now (result ++ drop 6 self.now.payload) }
    {
        let payload = self.payload();
        [
            self.next_header.0,
            self.hdr_ext_len(),
            payload[0],
            payload[1],
            payload[2],
            payload[3],
            payload[4],
            payload[5],
        ]
    }

    /// Returns the number of units of 8 bytes after the first.
    #[inline(always)]
    fn hdr_ext_len(&self) -> u8
        ensures { raw_len self.now ≡ 8 * (result + 1) }
    {
        ((self.payload.len() - 6) / 8) as u8
    }
}

impl Clone for Ipv6RawExtHeader {
    ghost use Rattle.std.specs.Prelude.{⊤, ◌≡◌};

    ghost is_clone = { λ h copy. copy ≡ h };

    ghost is_infallible = { λ _. ⊤ };

    fn clone(&self) -> Result<Ipv6RawExtHeader, AllocError> {
        Ok(Self::with_payload(self.next_header, self.payload()))
    }
}

impl Default for Ipv6RawExtHeader {
    ghost use Rattle.std.specs.Prelude.{◌≡◌, replicate};

    ghost is_default = { λ h. h ≡ record { next_header = 255; payload = replicate 6 0 } };

    // Inlined once it has been optimized: it is then one store of zeros (docs/DECISIONS.md, "Moves of large values").
    #[inline]
    fn default() -> Ipv6RawExtHeader {
        let mut payload = ArrayVec::new();
        push_zeros(&mut payload);
        Ipv6RawExtHeader {
            payload,
            next_header: IpNumber(255),
        }
    }
}

impl PartialEq for Ipv6RawExtHeader {
    ghost use Rattle.std.specs.Prelude.{◌≡◌, ◌↔◌, IsTrue};
    ghost use Rattle.std.specs.Cmp.Rules.{comparing};
    ghost use Rattle.std.proofs.Common.{rules};
    ghost use Rattle.ip_ext_headers.specs.HeaderEqual.{raw_equal};

    ghost eq = { raw_equal };

    ghost laws = { Prim.search (comparing, rules) };

    fn eq(&self, other: &Self) -> bool
        ensures answer { result ≡ raw_equal self.now other.now }
        ensures same { IsTrue result ↔ (self.now ≡ other.now) }
    {
        self.next_header == other.next_header && self.payload() == other.payload()
    }
}

impl Eq for Ipv6RawExtHeader {
    ghost use Rattle.std.specs.Cmp.Rules.{comparing};
    ghost use Rattle.std.proofs.Common.{rules};

    ghost laws = { Prim.search (comparing, rules) };
}

/// Appends the zeros of the shortest payload.
#[inline]
fn push_zeros(payload: &mut ArrayVec<u8, 2046>)
    requires { payload.old.items ≡ [] }
    ensures { payload.new.items ≡ replicate 6 0 }
{
    for _ in 0..Ipv6RawExtHeader::MIN_PAYLOAD_LEN {
        payload.push(0);
    }
}
