//! A fragment header (RFC 8200, section 4.5), owned.
ghost use Rattle.std.specs.Prelude.{◌≡◌, ◌≤◌, ◌<◌, ◌+◌, ◌++◌, ℕ, List, OnOk, OnErr, IfOk, IfErr, vec_len, vec_capacity, length, IfSome};
ghost use Rattle.std.specs.Io.KnownBytes.{Consumes};
ghost use Rattle.ip_base.specs.Prefix.{IsPrefix, NoPrefix};
ghost use Rattle.ip_spec.specs.Numbers.{FRAGMENT};
ghost use Rattle.ip_spec.specs.Header.{IsFragmentHeader};
ghost use Rattle.ip_spec.specs.Chain.{ExtHeader};
ghost use Rattle.ip_spec.specs.Places.{fragment_header};
ghost use Rattle.ip_spec.specs.Encodable.{IsEncoded};
ghost use Rattle.ip_base.specs.Fragment.{is_fragment};
ghost use Rattle.ip_spec.specs.Fields.{fragment_fields};
ghost use Rattle.ip_spec.specs.Encoding.{AppendsOne, IsFragmentEncoding};
ghost use Rattle.ip_spec.specs.Decoding.{IsFragmentDecoding};
ghost use Rattle.ip_spec.specs.Requests.{FragmentAsks};
ghost use Rattle.ip_base.specs.ExactRead.{IfSteady};
ghost use Rattle.ip_base.specs.LimitedReader.{inner_of, window};
ghost use Rattle.ip_base.specs.Reading.{IsHeaderConsumed, IsRefused, IsConsumedInLayer, IsRefusedInLayer};
ghost use Rattle.ip_base.specs.declared.err.layer.Layer.TheVariants.{Ipv6FragHeader};
ghost use Rattle.ip_base.specs.LimitedReadError.{io_of};

use crate::Ipv6FragmentHeaderSlice;
use crate::encodable::fragment_encodable;
use crate::fragment_bits::{pack, unpack_flag, unpack_offset};
use ip_base::err::io::LimitedReadError;
use ip_base::err::{Layer, LenError};
use ip_base::io::{ExactRead, LimitedReader};
use ip_base::{IpFragOffset, IpNumber};
use std::alloc::{AllocError, Allocator};
use std::io;
use std::marker::Model;

/// An IPv6 fragment header (RFC 8200, section 4.5). In a contract it is the record of its four fields.
#[derive(Debug, Drop)]
pub struct Ipv6FragmentHeader {
    /// The next header field.
    pub next_header: IpNumber,
    /// The fragment offset, in units of 8 bytes.
    pub fragment_offset: IpFragOffset,
    /// Whether more fragments follow.
    pub more_fragments: bool,
    /// The identification, equal in all fragments of a packet.
    pub identification: u32,
}

impl Model for Ipv6FragmentHeader {
    ghost use Rattle.ip_spec.specs.Fields.{FragmentFields};

    ghost Value = { FragmentFields };

    ghost view = { λ h. record {
      next_header = h.next_header.0;
      fragment_offset = h.fragment_offset;
      more_fragments = h.more_fragments;
      identification = h.identification;
    } };

    ghost inverse = { λ v. record {
      next_header = record { 0 = v.next_header };
      fragment_offset = v.fragment_offset;
      more_fragments = v.more_fragments;
      identification = v.identification;
    } };
}

impl Ipv6FragmentHeader {
    ghost use Rattle.ip_base.specs.declared.len_source.LenSource.TheVariants.{Slice};
    ghost use Rattle.ip_ext_headers.specs.HeaderFault.{fragment_fault};

    /// The length of a fragment header, in bytes.
    pub const LEN: usize = 8;

    /// Returns the header with these fields.
    pub fn new(
        next_header: IpNumber,
        fragment_offset: IpFragOffset,
        more_fragments: bool,
        identification: u32,
    ) -> Ipv6FragmentHeader
        ensures { result ≡ record {
          next_header = next_header.0;
          fragment_offset = fragment_offset;
          more_fragments = more_fragments;
          identification = identification;
        } }
    {
        Ipv6FragmentHeader {
            next_header,
            fragment_offset,
            more_fragments,
            identification,
        }
    }

    /// Parses the header at the start of `slice`, and returns it with the bytes after it. Returns an error if there
    /// are fewer than 8 bytes.
    pub fn from_slice(slice: &[u8]) -> Result<(Ipv6FragmentHeader, &[u8]), LenError>
        ensures decoding { IfOk result (λ p. IsFragmentDecoding slice.now p.0 p.1.now) }
        ensures none { IfErr result (λ _. (b : List ℕ)
            → IsFragmentHeader b → IsPrefix b slice.now → ⊥) }
        ensures fault { IfErr result (λ e.
            fragment_fault Slice (length slice.now) 0 slice.now ≡ Some e) }
    {
        let header = Ipv6FragmentHeaderSlice::from_slice(slice)?;
        let rest = &slice[header.slice().len()..];
        Ok((header.to_header(), rest))
    }

    /// Reads a header: 8 bytes, and no byte after them. Returns the reader's error; after it the number of consumed
    /// bytes is not known.
    #[inline(always)]
    pub fn read<T: ExactRead>(reader: &mut T) -> io::Result<Ipv6FragmentHeader>
        ensures header { IfOk result (IsHeaderConsumed IsFragmentHeader fragment_fields
            (Consumes (T.bytes_left reader.old) (T.bytes_left reader.new))) }
        ensures kept { OnOk result (T.has_failed reader.new ≡ T.has_failed reader.old) }
        ensures steady { T.is_steady reader.new ≡ T.is_steady reader.old }
        ensures none { OnErr result (IfSteady (T.is_steady reader.old) (T.bytes_left reader.old)
            (NoPrefix IsFragmentHeader)) }
        ensures refused { OnErr result (IsRefused FragmentAsks (T.is_steady reader.old)
            (T.bytes_left reader.old) (T.has_failed reader.new)) }
        ensures own { IfErr result (T.has_given reader.new) }
    {
        let mut bytes = [0; 8];
        reader.read_exact(&mut bytes)?;
        Ok(Self::of_bytes(bytes))
    }

    /// Reads a header within a limit, as `read` does from the bytes that may still be read. It starts the layer
    /// `Ipv6FragHeader`. Returns `Len` if the limit doesn't leave 8 bytes; then none are consumed. `Io` is the
    /// reader's error. After both `read_len` is 0.
    #[inline(always)]
    pub fn read_limited<T: ExactRead>(
        reader: &mut LimitedReader<T>,
    ) -> Result<Ipv6FragmentHeader, LimitedReadError>
        ensures header { IfOk result (IsHeaderConsumed IsFragmentHeader fragment_fields
            (IsConsumedInLayer T.bytes_left Ipv6FragHeader reader.old reader.new)) }
        ensures kept { OnOk result
            (T.has_failed (inner_of reader.new) ≡ T.has_failed (inner_of reader.old)) }
        ensures steady { T.is_steady (inner_of reader.new) ≡ T.is_steady (inner_of reader.old) }
        ensures none { OnErr result (IfSteady (T.is_steady (inner_of reader.old))
            (window T.bytes_left reader.old) (NoPrefix IsFragmentHeader)) }
        ensures refused { IfErr result (IsRefusedInLayer T.bytes_left T.is_steady T.has_failed
            FragmentAsks Ipv6FragHeader reader.old reader.new) }
        ensures own { IfErr result (λ e. IfSome (io_of e) (T.has_given (inner_of reader.new))) }
    {
        reader.start_layer(Layer::Ipv6FragHeader);
        let mut bytes = [0; 8];
        reader.read_exact(&mut bytes)?;
        Ok(Self::of_bytes(bytes))
    }

    /// Returns the header with these bytes.
    #[inline(always)]
    fn of_bytes(bytes: [u8; 8]) -> Ipv6FragmentHeader
        ensures { result ≡ fragment_fields bytes }
    {
        Ipv6FragmentHeader {
            next_header: IpNumber(bytes[0]),
            fragment_offset: unpack_offset(bytes[2], bytes[3]),
            more_fragments: unpack_flag(bytes[3]),
            identification: u32::from_be_bytes([bytes[4], bytes[5], bytes[6], bytes[7]]),
        }
    }

    /// Returns the header's bytes, with reserved bits zero. Parsing them returns this header, whatever bytes follow.
    pub fn to_bytes(&self) -> [u8; 8]
        ensures encoding { IsFragmentEncoding self.now result }
        ensures read_back { (r : List ℕ) → IsFragmentDecoding (result ++ r) self.now r }
    {
        let (high, low) = pack(self.fragment_offset, self.more_fragments);
        let [id0, id1, id2, id3] = self.identification.to_be_bytes();
        [self.next_header.0, 0, high, low, id0, id1, id2, id3]
    }

    /// Appends the header's bytes. Returns an error only if the vector has no room for them and can't grow; then its
    /// bytes are unchanged.
    pub fn write<A: Allocator>(&self, out: &mut Vec<u8, A>) -> Result<(), AllocError>
        ensures ok { OnOk result
            (AppendsOne (IsFragmentEncoding self.now) out.old.items out.new.items) }
        ensures len { OnOk result (vec_len out.new ≡ vec_len out.old + 8) }
        ensures err { OnErr result (out.new.items ≡ out.old.items) }
        ensures full { OnErr result (vec_capacity out.old < vec_len out.old + 8) }
        ensures capacity { vec_capacity out.old ≤ vec_capacity out.new }
    {
        out.reserve(self.header_len())?;
        self.write_reserved(out);
        Ok(())
    }

    /// Appends the header's bytes. The vector must have room for them.
    #[inline(always)]
    pub fn write_reserved<A: Allocator>(&self, out: &mut Vec<u8, A>)
        requires room { vec_len out.old + 8 ≤ vec_capacity out.old }
        ensures appended { AppendsOne (IsFragmentEncoding self.now) out.old.items out.new.items }
        ensures len { vec_len out.new ≡ vec_len out.old + 8 }
        ensures capacity { vec_capacity out.old ≤ vec_capacity out.new }
    {
        // The call doesn't fail: there is room.
        let _ = out.extend_from_slice(&self.to_bytes());
    }

    /// Returns the header's length in bytes. Every value can be written: the ranges of its fields guarantee it.
    pub fn header_len(&self) -> usize
        ensures len { result ≡ 8 }
        ensures encodable { (h : ExtHeader) × IsEncoded FRAGMENT (fragment_header self.now) h }
    {
        let (offset, more) = (self.fragment_offset, self.more_fragments);
        fragment_encodable(self.next_header, offset, more, self.identification);
        Self::LEN
    }

    /// Returns whether the packet is a fragment: more fragments follow, or the fragment offset isn't 0.
    pub fn is_fragmenting_payload(&self) -> bool
        ensures { result ≡ is_fragment self.now.more_fragments self.now.fragment_offset }
    {
        self.more_fragments | (self.fragment_offset.value() != 0)
    }
}

impl Clone for Ipv6FragmentHeader {
    ghost use Rattle.std.specs.Prelude.{⊤, ◌≡◌};

    ghost is_clone = { λ h copy. copy ≡ h };

    ghost is_infallible = { λ _. ⊤ };

    fn clone(&self) -> Result<Ipv6FragmentHeader, AllocError> {
        Ok(Self::new(
            self.next_header,
            self.fragment_offset,
            self.more_fragments,
            self.identification,
        ))
    }
}

impl PartialEq for Ipv6FragmentHeader {
    ghost use Rattle.std.specs.Prelude.{◌≡◌, ◌↔◌, IsTrue};
    ghost use Rattle.std.specs.Cmp.Rules.{comparing};
    ghost use Rattle.std.proofs.Common.{rules};
    ghost use Rattle.ip_ext_headers.specs.HeaderEqual.{fragment_equal};

    ghost eq = { fragment_equal };

    ghost laws = { Prim.search (comparing, rules) };

    fn eq(&self, other: &Self) -> bool
        ensures answer { result ≡ fragment_equal self.now other.now }
        ensures same { IsTrue result ↔ (self.now ≡ other.now) }
    {
        self.next_header == other.next_header
            && self.fragment_offset == other.fragment_offset
            && self.more_fragments == other.more_fragments
            && self.identification == other.identification
    }
}

impl Eq for Ipv6FragmentHeader {
    ghost use Rattle.std.specs.Cmp.Rules.{comparing};
    ghost use Rattle.std.proofs.Common.{rules};

    ghost laws = { Prim.search (comparing, rules) };
}
