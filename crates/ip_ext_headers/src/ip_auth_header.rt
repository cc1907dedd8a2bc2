//! An authentication header (RFC 4302, section 2), owned.
ghost use Rattle.std.specs.Prelude.{◌≡◌, ◌≤◌, ◌<◌, ◌+◌, ◌*◌, ◌++◌, [], ◌∷◌, ◌↔◌, ℕ, List, length, IsOk, OnOk, OnErr, IfOk, IfErr, vec_len, vec_capacity, IfSome};
ghost use Rattle.std.specs.Int.{to_be_bytes, w32};
ghost use Rattle.std.specs.Io.KnownBytes.{Consumes};
ghost use Rattle.ip_base.specs.Prefix.{IsPrefix, NoPrefix};
ghost use Rattle.ip_spec.specs.Numbers.{AUTHENTICATION};
ghost use Rattle.ip_spec.specs.Header.{IsAuthHeader};
ghost use Rattle.ip_spec.specs.Chain.{ExtHeader};
ghost use Rattle.ip_spec.specs.Places.{auth_header};
ghost use Rattle.ip_spec.specs.Encodable.{IsEncoded};
ghost use Rattle.ip_spec.specs.Fields.{auth_len, auth_fields};
ghost use Rattle.ip_spec.specs.Encoding.{AppendsOne, IsAuthEncoding};
ghost use Rattle.ip_spec.specs.Decoding.{IsAuthDecoding};
ghost use Rattle.ip_base.specs.ExactRead.{IfSteady};
ghost use Rattle.ip_base.specs.LimitedReader.{inner_of, window};
ghost use Rattle.ip_base.specs.Reading.{IsHeaderConsumed, IsConsumedInLayer};
ghost use Rattle.ip_base.specs.declared.err.layer.Layer.TheVariants.{IpAuthHeader as AuthLayer};
ghost use Rattle.ip_ext_headers.specs.AuthReadError.{io_of};
ghost use Rattle.ip_ext_headers.specs.AuthLimitedReadError.{io_of as limited_io_of};

use crate::IpAuthHeaderSlice;
use crate::appending::append;
use crate::auth_parts::AuthParts;
use crate::encodable::auth_encodable;
use crate::err::ip_auth::{HeaderLimitedReadError, HeaderReadError, HeaderSliceError, IcvLenError};
use arrayvec::ArrayVec;
use ip_base::IpNumber;
use ip_base::io::{ExactRead, LimitedReader};
use std::alloc::{AllocError, Allocator};
use std::marker::Model;

/// The name of this type in early versions of the interface.
#[deprecated(note = "use `IpAuthHeader`")]
pub type IPv6AuthenticationHeader = IpAuthHeader;

/// The name of this type in earlier versions of the interface.
#[deprecated(note = "use `IpAuthHeader`")]
pub type IpAuthenticationHeader = IpAuthHeader;

/// An authentication header (RFC 4302, section 2). Its integrity check value with padding has 0 to 1016 bytes, a
/// multiple of 4. In a contract it is the record of its four fields.
#[derive(Debug, Drop)]
pub struct IpAuthHeader {
    // First, so that no padding lies between it and the end of the header.
    raw_icv: ArrayVec<u8, 1016>,
    /// The security parameters index, by which the receiver identifies the security association.
    pub spi: u32,
    /// The sender's packet counter.
    pub sequence_number: u32,
    /// The next header field.
    pub next_header: IpNumber,
}

impl Model for IpAuthHeader {
    ghost use Rattle.std.specs.Prelude.{length};
    ghost use Rattle.ip_spec.specs.Fields.{AuthFields};
    ghost use Rattle.ip_spec.specs.Lengths.{IsIcvLen};

    ghost Value = { AuthFields };

    ghost view = { λ h. record {
      next_header = h.next_header.0;
      spi = h.spi;
      sequence_number = h.sequence_number;
      raw_icv = h.raw_icv.items;
    } };

    ghost invariant = { λ h. IsIcvLen (length h.raw_icv.items) };

    ghost inverse = { λ v. record {
      next_header = record { 0 = v.next_header };
      spi = v.spi;
      sequence_number = v.sequence_number;
      raw_icv = record { items = v.raw_icv };
    } };
}

impl IpAuthHeader {
    ghost use Rattle.ip_base.specs.declared.len_source.LenSource.TheVariants.{Slice};
    ghost use Rattle.ip_ext_headers.specs.HeaderFault.{auth_fault};
    ghost use Rattle.ip_spec.specs.Lengths.{IsIcvLen};
    ghost use Rattle.ip_ext_headers.specs.LengthFault.{icv_len_fault};
    ghost use Rattle.ip_ext_headers.specs.AuthParts.{fields_in};
    ghost use Rattle.ip_ext_headers.specs.AuthReading.{auth_slice_fault, IsAuthRefused, IsAuthRefusedInLayer, IsSliceError, IsSliceErrorInLayer};

    /// The shortest header, in bytes.
    pub const MIN_LEN: usize = 12;

    /// The longest header, in bytes: 257 units of 4.
    pub const MAX_LEN: usize = 1028;

    /// The longest integrity check value, in bytes.
    pub const MAX_ICV_LEN: usize = 1016;

    /// Returns the header with these fields. Returns an error, in this order, if the check value has more than 1016
    /// bytes, or a number of bytes that is not a multiple of 4.
    pub fn new(
        next_header: IpNumber,
        spi: u32,
        sequence_number: u32,
        raw_icv: &[u8],
    ) -> Result<IpAuthHeader, IcvLenError>
        ensures allowed { IsOk result ↔ IsIcvLen (length raw_icv.now) }
        ensures value { IfOk result (λ h. h ≡ record {
          next_header = next_header.0;
          spi = spi;
          sequence_number = sequence_number;
          raw_icv = raw_icv.now;
        }) }
        ensures fault { IfErr result (λ e. icv_len_fault (length raw_icv.now) ≡ Some e) }
    {
        Self::check_icv_len(raw_icv.len())?;
        Ok(Self::with_icv(next_header, spi, sequence_number, raw_icv))
    }

    /// Returns the header with these fields, whose check value has an allowed length.
    #[inline(always)]
    fn with_icv(
        next_header: IpNumber,
        spi: u32,
        sequence_number: u32,
        raw_icv: &[u8],
    ) -> IpAuthHeader
        requires { IsIcvLen (length raw_icv.now) }
        ensures { result ≡ record {
          next_header = next_header.0;
          spi = spi;
          sequence_number = sequence_number;
          raw_icv = raw_icv.now;
        } }
    {
        Self::of_parts(AuthParts {
            next_header,
            spi,
            sequence_number,
            raw_icv,
        })
    }

    /// Checks that a check value may have `len` bytes.
    fn check_icv_len(len: usize) -> Result<(), IcvLenError>
        ensures allowed { IsOk result ↔ IsIcvLen len }
        ensures fault { IfErr result (λ e. icv_len_fault len ≡ Some e) }
    {
        if len > Self::MAX_ICV_LEN {
            return Err(IcvLenError::TooBig(len));
        }
        if len % 4 != 0 {
            return Err(IcvLenError::Unaligned(len));
        }
        Ok(())
    }

    /// Parses the header at the start of `slice`, and returns it with the bytes after it. Returns an error, in this
    /// order, if there are fewer than 12 bytes, if the payload length field is 0, or if there are fewer bytes than
    /// the header's own length.
    pub fn from_slice(slice: &[u8]) -> Result<(IpAuthHeader, &[u8]), HeaderSliceError>
        ensures decoding { IfOk result (λ p. IsAuthDecoding slice.now p.0 p.1.now) }
        ensures none { IfErr result (λ _. (b : List ℕ)
            → IsAuthHeader b → IsPrefix b slice.now → ⊥) }
        ensures fault { IfErr result (λ e.
            auth_fault Slice (length slice.now) 0 slice.now ≡ Some e) }
    {
        let header = IpAuthHeaderSlice::from_slice(slice)?;
        let rest = &slice[header.slice().len()..];
        Ok((header.to_header(), rest))
    }

    /// Reads a header: 12 bytes, then the check value, whose length they state, and no byte after it. Returns
    /// `Content` if the payload length field is 0; then the 12 bytes are consumed. `Io` is the reader's error; after
    /// it the number of consumed bytes is not known.
    #[inline(always)]
    pub fn read<T: ExactRead>(reader: &mut T) -> Result<IpAuthHeader, HeaderReadError>
        ensures header { IfOk result (IsHeaderConsumed IsAuthHeader auth_fields
            (Consumes (T.bytes_left reader.old) (T.bytes_left reader.new))) }
        ensures kept { OnOk result (T.has_failed reader.new ≡ T.has_failed reader.old) }
        ensures steady { T.is_steady reader.new ≡ T.is_steady reader.old }
        ensures none { OnErr result (IfSteady (T.is_steady reader.old) (T.bytes_left reader.old)
            (NoPrefix IsAuthHeader)) }
        ensures fault { IfErr result (IsSliceError auth_slice_fault (T.is_steady reader.old)
            (T.bytes_left reader.old)) }
        ensures refused { IfErr result (IsAuthRefused T.bytes_left T.is_steady T.has_failed
            reader.old reader.new) }
        ensures own { IfErr result (λ e. IfSome (io_of e) (T.has_given reader.new)) }
    {
        let mut buffer = [0; Self::MAX_ICV_LEN];
        let parts = AuthParts::take(&mut buffer, reader)?;
        Ok(Self::of_parts(parts))
    }

    /// Reads a header within a limit, as `read` does from the bytes that may still be read. It starts the layer
    /// `IpAuthHeader`. Returns `Len` for the first request that exceeds the limit, which consumes nothing; `Content`
    /// and `Io` are those of `read`. After each of them, `read_len` is the number of the header's bytes read before
    /// it.
    #[inline(always)]
    pub fn read_limited<T: ExactRead>(
        reader: &mut LimitedReader<T>,
    ) -> Result<IpAuthHeader, HeaderLimitedReadError>
        ensures header { IfOk result (IsHeaderConsumed IsAuthHeader auth_fields
            (IsConsumedInLayer T.bytes_left AuthLayer reader.old reader.new)) }
        ensures kept { OnOk result
            (T.has_failed (inner_of reader.new) ≡ T.has_failed (inner_of reader.old)) }
        ensures steady { T.is_steady (inner_of reader.new) ≡ T.is_steady (inner_of reader.old) }
        ensures none { OnErr result (IfSteady (T.is_steady (inner_of reader.old))
            (window T.bytes_left reader.old) (NoPrefix IsAuthHeader)) }
        ensures fault { IfErr result (IsSliceErrorInLayer auth_slice_fault
            (T.is_steady (inner_of reader.old)) (window T.bytes_left reader.old)) }
        ensures refused { IfErr result (IsAuthRefusedInLayer T.bytes_left T.is_steady
            T.has_failed reader.old reader.new) }
        ensures own { IfErr result (λ e.
            IfSome (limited_io_of e) (T.has_given (inner_of reader.new))) }
    {
        let mut buffer = [0; Self::MAX_ICV_LEN];
        let parts = AuthParts::take_limited(&mut buffer, reader)?;
        Ok(Self::of_parts(parts))
    }

    /// Reads a header in place of this one, as `read` does. It is built in place, so nothing is moved. After an error
    /// this header is unchanged.
    #[inline(never)]
    pub fn read_over<T: ExactRead>(&mut self, reader: &mut T) -> Result<(), HeaderReadError>
        ensures header { OnOk result (IsHeaderConsumed IsAuthHeader auth_fields
            (Consumes (T.bytes_left reader.old) (T.bytes_left reader.new)) self.new) }
        ensures stays { OnErr result (self.new ≡ self.old) }
        ensures kept { OnOk result (T.has_failed reader.new ≡ T.has_failed reader.old) }
        ensures steady { T.is_steady reader.new ≡ T.is_steady reader.old }
        ensures none { OnErr result (IfSteady (T.is_steady reader.old) (T.bytes_left reader.old)
            (NoPrefix IsAuthHeader)) }
        ensures fault { IfErr result (IsSliceError auth_slice_fault (T.is_steady reader.old)
            (T.bytes_left reader.old)) }
        ensures refused { IfErr result (IsAuthRefused T.bytes_left T.is_steady T.has_failed
            reader.old reader.new) }
        ensures own { IfErr result (λ e. IfSome (io_of e) (T.has_given reader.new)) }
    {
        let mut buffer = [0; Self::MAX_ICV_LEN];
        match AuthParts::take(&mut buffer, reader) {
            Ok(parts) => {
                self.set_parts(parts);
                Ok(())
            }
            Err(e) => Err(e),
        }
    }

    /// Reads a header in place of this one within a limit, as `read_limited` does. It is built in place. After an
    /// error this header is unchanged.
    #[inline(never)]
    pub fn read_over_limited<T: ExactRead>(
        &mut self,
        reader: &mut LimitedReader<T>,
    ) -> Result<(), HeaderLimitedReadError>
        ensures header { OnOk result (IsHeaderConsumed IsAuthHeader auth_fields
            (IsConsumedInLayer T.bytes_left AuthLayer reader.old reader.new) self.new) }
        ensures stays { OnErr result (self.new ≡ self.old) }
        ensures kept { OnOk result
            (T.has_failed (inner_of reader.new) ≡ T.has_failed (inner_of reader.old)) }
        ensures steady { T.is_steady (inner_of reader.new) ≡ T.is_steady (inner_of reader.old) }
        ensures none { OnErr result (IfSteady (T.is_steady (inner_of reader.old))
            (window T.bytes_left reader.old) (NoPrefix IsAuthHeader)) }
        ensures fault { IfErr result (IsSliceErrorInLayer auth_slice_fault
            (T.is_steady (inner_of reader.old)) (window T.bytes_left reader.old)) }
        ensures refused { IfErr result (IsAuthRefusedInLayer T.bytes_left T.is_steady
            T.has_failed reader.old reader.new) }
        ensures own { IfErr result (λ e.
            IfSome (limited_io_of e) (T.has_given (inner_of reader.new))) }
    {
        let mut buffer = [0; Self::MAX_ICV_LEN];
        match AuthParts::take_limited(&mut buffer, reader) {
            Ok(parts) => {
                self.set_parts(parts);
                Ok(())
            }
            Err(e) => Err(e),
        }
    }

    /// Sets the header to these parts, in place.
    #[inline(always)]
    fn set_parts(&mut self, parts: AuthParts<'_>)
        ensures { self.new ≡ fields_in parts.entry }
    {
        self.next_header = parts.next_header;
        self.spi = parts.spi;
        self.sequence_number = parts.sequence_number;
        self.set(parts.raw_icv);
    }

    /// Returns the header with these parts.
    #[inline(always)]
    pub(crate) fn of_parts(parts: AuthParts<'_>) -> IpAuthHeader
        ensures { result ≡ fields_in parts.entry }
    {
        let mut raw_icv = ArrayVec::new();
        let _ = raw_icv.try_extend_from_slice(parts.raw_icv);
        IpAuthHeader {
            raw_icv,
            spi: parts.spi,
            sequence_number: parts.sequence_number,
            next_header: parts.next_header,
        }
    }

    /// Returns the integrity check value with its padding, 0 to 1016 bytes.
    pub fn raw_icv(&self) -> &[u8]
        ensures icv { result.now ≡ self.now.raw_icv }
        ensures allowed { IsIcvLen (length result.now) }
    {
        self.raw_icv.as_slice()
    }

    /// Sets the check value, which has an allowed length.
    #[inline(always)]
    fn set(&mut self, raw_icv: &[u8])
        requires { IsIcvLen (length raw_icv.now) }
        ensures { self.new ≡ record self.old { raw_icv = raw_icv.now } }
    {
        self.raw_icv.clear();
        let _ = self.raw_icv.try_extend_from_slice(raw_icv);
    }

    /// Sets the check value as `set` does, in a larger value that isn't moved (docs/DECISIONS.md, "Moves of large
    /// values").
    #[inline]
    pub(crate) fn set_in_place(&mut self, raw_icv: &[u8])
        requires { IsIcvLen (length raw_icv.now) }
        ensures { self.new ≡ record self.old { raw_icv = raw_icv.now } }
    {
        self.raw_icv.clear();
        append(&mut self.raw_icv, raw_icv);
    }

    /// Sets the check value. Returns an error, in this order, if it has more than 1016 bytes, or a number of bytes
    /// that is not a multiple of 4; then the header is unchanged.
    pub fn set_raw_icv(&mut self, raw_icv: &[u8]) -> Result<(), IcvLenError>
        ensures allowed { IsOk result ↔ IsIcvLen (length raw_icv.now) }
        ensures ok { OnOk result (self.new ≡ record self.old { raw_icv = raw_icv.now }) }
        ensures fault { IfErr result (λ e. icv_len_fault (length raw_icv.now) ≡ Some e) }
        ensures err { OnErr result (self.new ≡ self.old) }
    {
        // Tested before a byte is touched.
        Self::check_icv_len(raw_icv.len())?;
        self.set(raw_icv);
        Ok(())
    }

    /// Returns the header's bytes, with reserved bytes zero. Parsing them returns this header, whatever bytes follow.
    #[inline(always)]
    pub fn to_bytes(&self) -> ArrayVec<u8, 1028>
        ensures encoding { IsAuthEncoding self.now result.items }
        ensures len { length result.items ≡ auth_len self.now }
        ensures read_back { (r : List ℕ) → IsAuthDecoding (result.items ++ r) self.now r }
    {
        let mut bytes = ArrayVec::new();
        let _ = bytes.try_extend_from_slice(&self.first_bytes());
        let _ = bytes.try_extend_from_slice(self.raw_icv());
        bytes
    }

    /// Appends the header's bytes. Returns an error only if the vector has no room for them and can't grow; then its
    /// bytes are unchanged.
    #[inline(always)]
    pub fn write<A: Allocator>(&self, out: &mut Vec<u8, A>) -> Result<(), AllocError>
        ensures ok { OnOk result
            (AppendsOne (IsAuthEncoding self.now) out.old.items out.new.items) }
        ensures len { OnOk result (vec_len out.new ≡ vec_len out.old + auth_len self.now) }
        ensures err { OnErr result (out.new.items ≡ out.old.items) }
        ensures full { OnErr result (vec_capacity out.old < vec_len out.old + auth_len self.now) }
        ensures capacity { vec_capacity out.old ≤ vec_capacity out.new }
    {
        out.reserve(self.header_len())?;
        self.write_reserved(out);
        Ok(())
    }

    /// Appends the header's bytes. The vector must have room for them.
    #[inline(always)]
    pub fn write_reserved<A: Allocator>(&self, out: &mut Vec<u8, A>)
        requires room { vec_len out.old + auth_len self.now ≤ vec_capacity out.old }
        ensures appended { AppendsOne (IsAuthEncoding self.now) out.old.items out.new.items }
        ensures len { vec_len out.new ≡ vec_len out.old + auth_len self.now }
        ensures capacity { vec_capacity out.old ≤ vec_capacity out.new }
    {
        let raw_icv = self.raw_icv();
        // Neither call fails: there is room.
        let _ = out.extend_from_slice(&self.first_bytes());
        if !raw_icv.is_empty() {
            let _ = out.extend_from_slice(raw_icv);
        }
    }

    /// Returns the header's length in bytes, 12 to 1028. Every value can be written: the ranges of its fields guarantee
    /// it.
    pub fn header_len(&self) -> usize
        ensures len { result ≡ auth_len self.now }
        ensures least { 12 ≤ result }
        ensures most { result ≤ 1028 }
        ensures encodable { (h : ExtHeader) × IsEncoded AUTHENTICATION (auth_header self.now) h }
    {
        let raw_icv = self.raw_icv();
        auth_encodable(self.next_header, self.spi, self.sequence_number, raw_icv);
        raw_icv.len() + 12
    }

    /// Returns the bytes before the check value.
    #[inline(always)]
    fn first_bytes(&self) -> [u8; 12]
        ensures { IsAuthEncoding self.now (result ++ self.now.raw_icv) }
    {
        let spi = self.spi;
        let sequence_number = self.sequence_number;
        let [spi0, spi1, spi2, spi3] = spi.to_be_bytes();
        let [seq0, seq1, seq2, seq3] = sequence_number.to_be_bytes();
        [
            self.next_header.0,
            (self.raw_icv.len() / 4) as u8 + 1,
            0,
            0,
            spi0,
            spi1,
            spi2,
            spi3,
            seq0,
            seq1,
            seq2,
            seq3,
        ]
    }
}

impl Clone for IpAuthHeader {
    ghost use Rattle.std.specs.Prelude.{⊤, ◌≡◌};

    ghost is_clone = { λ h copy. copy ≡ h };

    ghost is_infallible = { λ _. ⊤ };

    fn clone(&self) -> Result<IpAuthHeader, AllocError> {
        Ok(Self::with_icv(
            self.next_header,
            self.spi,
            self.sequence_number,
            self.raw_icv(),
        ))
    }
}

impl Default for IpAuthHeader {
    ghost use Rattle.std.specs.Prelude.{◌≡◌, []};

    ghost is_default = { λ h.
        h ≡ record { next_header = 255; spi = 0; sequence_number = 0; raw_icv = [] } };

    #[inline]
    fn default() -> IpAuthHeader {
        IpAuthHeader {
            raw_icv: ArrayVec::new(),
            spi: 0,
            sequence_number: 0,
            next_header: IpNumber(255),
        }
    }
}

impl PartialEq for IpAuthHeader {
    ghost use Rattle.std.specs.Prelude.{◌≡◌, ◌↔◌, IsTrue};
    ghost use Rattle.std.specs.Cmp.Rules.{comparing};
    ghost use Rattle.std.proofs.Common.{rules};
    ghost use Rattle.ip_ext_headers.specs.HeaderEqual.{auth_equal};

    ghost eq = { auth_equal };

    ghost laws = { Prim.search (comparing, rules) };

    fn eq(&self, other: &Self) -> bool
        ensures answer { result ≡ auth_equal self.now other.now }
        ensures same { IsTrue result ↔ (self.now ≡ other.now) }
    {
        self.next_header == other.next_header
            && self.spi == other.spi
            && self.sequence_number == other.sequence_number
            && self.raw_icv() == other.raw_icv()
    }
}

impl Eq for IpAuthHeader {
    ghost use Rattle.std.specs.Cmp.Rules.{comparing};
    ghost use Rattle.std.proofs.Common.{rules};

    ghost laws = { Prim.search (comparing, rules) };
}
