//! A position in a chain, and the step to the next header.
ghost use Rattle.std.specs.Prelude.{◌≡◌, ◌==◌, drop, IfSome, IfNone};
ghost use Rattle.ip_spec.specs.Chain.{IsEnd};
ghost use Rattle.ip_ext_slices.specs.ChainFault.{slice_fault};
ghost use Rattle.ip_spans.specs.ChainCursor.{IsHeaderSpan};
ghost use Rattle.ip_spans.specs.FaultFields.{chain_fault_fields};

use crate::fault_fields::FaultFields;
use crate::header_span::HeaderSpan;
use ip_base::IpNumber;
use ip_ext_slices::{fault_at, header_at};

/// A position in a chain: its offset, and the number of what starts there. A walk starts at offset 0 with the number
/// of the first header. Any two numbers are a valid cursor, which applies to the bytes from its offset on. Hop-by-hop
/// options are a header only at offset 0 (RFC 8200, section 4.1).
#[repr(C)]
#[derive(Clone, Copy, Debug, PartialEq, Eq)]
pub struct ChainCursor {
    /// The position, in bytes from the start of the chain.
    pub offset: usize,
    /// The protocol number of what starts there.
    pub number: u8,
}

impl ChainCursor {
    /// Returns the header at the cursor and moves the cursor past it. Returns `None` if the chain ends there; then
    /// the cursor is unchanged.
    #[inline(always)]
    pub fn next_header(&mut self, bytes: &[u8]) -> Option<HeaderSpan>
        ensures header { IfSome result (λ span. IsHeaderSpan self.old self.new bytes.now span) }
        ensures end { IfNone result (IsEnd (self.old.offset == 0) self.old.number (drop self.old.offset bytes.now)) }
        ensures same { IfNone result (self.new ≡ self.old) }
    {
        let header = header_at(self.offset == 0, IpNumber(self.number), self.left(bytes))?;
        let span = HeaderSpan::of(&header, self.offset);
        self.offset += span.len;
        self.number = span.next_header;
        Some(span)
    }

    /// Returns the error at the cursor. There is none if a header follows, or if the number is not an extension
    /// header's.
    pub fn fault(&self, bytes: &[u8]) -> FaultFields
        ensures { result ≡ chain_fault_fields self.now.offset (slice_fault self.now.offset (self.now.offset == 0) self.now.number (drop self.now.offset bytes.now)) }
    {
        let fault = fault_at(
            self.offset == 0,
            IpNumber(self.number),
            self.left(bytes),
            self.offset,
        );
        FaultFields::of_chain(self.offset, &fault)
    }

    /// Returns the bytes from the cursor's offset on.
    #[inline(always)]
    fn left<'a>(&self, bytes: &'a [u8]) -> &'a [u8]
        ensures { result.now ≡ drop self.now.offset bytes.now }
    {
        if self.offset < bytes.len() {
            &bytes[self.offset..]
        } else {
            &[]
        }
    }
}
