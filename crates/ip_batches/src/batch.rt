//! Packets at several places in one buffer.
ghost use Rattle.std.specs.Prelude.{◌≡◌, ◌+◌, ◌<◌, length, nat_lt, slice_index_or, IfOk, IfErr, Some, None};
ghost use Rattle.ip_batches.specs.Batch.{packet_at, first_outside};
ghost use Rattle.ip_batches.specs.declared.batch.PacketSpan.{PacketSpan};

/// Where a packet is in a buffer.
#[repr(C)]
#[derive(Clone, Copy, Debug, PartialEq, Eq)]
pub struct PacketSpan {
    /// Where the packet begins, in bytes from the start of the buffer.
    pub offset: usize,
    /// The number of bytes that are passed as the packet.
    pub len: usize,
}

impl PacketSpan {
    /// Returns whether the span ends after a buffer of this many bytes. A sum of more than 64 bits does.
    #[inline(always)]
    fn ends_after(self, len: usize) -> bool
        ensures { result ≡ nat_lt len (self.offset + self.len) }
    {
        self.offset > len || self.len > len - self.offset
    }
}

/// Packets at several places in one buffer. Each span lies within the buffer. Spans may overlap.
#[derive(Clone, Copy, Debug)]
pub struct Batch<'a> {
    /// The buffer.
    pub buffer: &'a [u8],
    /// Where each packet is.
    pub spans: &'a [PacketSpan],
    pub ghost within: { first_outside buffer.now spans.now ≡ None },
}

impl<'a> Batch<'a> {
    /// Returns the packets at these places. The error is the index of the first span that ends after the buffer.
    #[inline(always)]
    pub fn try_new(buffer: &'a [u8], spans: &'a [PacketSpan]) -> Result<Batch<'a>, usize>
        ensures same { IfOk result (λ x. (x.buffer.now ≡ buffer.now) × (x.spans.now ≡ spans.now)) }
        ensures within { IfOk result (λ x. first_outside buffer.now spans.now ≡ None) }
        ensures outside { IfErr result (λ index. first_outside buffer.now spans.now ≡ Some index) }
    {
        match index_outside(buffer, spans) {
            Some(index) => Err(index),
            None => Ok(Batch { buffer, spans }),
        }
    }

    /// Returns the bytes of the span at this index.
    #[inline(always)]
    #[tactic(auto, using(crate::proofs::BatchLemmas::span_within))]
    pub(crate) fn packet(&self, index: usize) -> &'a [u8]
        requires { index < length self.now.spans.now }
        ensures { (d : PacketSpan) → result.now
            ≡ packet_at self.now.buffer.now (slice_index_or self.now.spans.now index d) }
    {
        let span = self.spans[index];
        &self.buffer[span.offset..span.offset + span.len]
    }

    /// Returns whether the packet at this index, if there is one, begins as one of IPv6. Loops ask this one packet ahead and
    /// choose a place by it, one of two with the same code: a processor that predicts the version wrongly then needn't wait
    /// for the packet's bytes to find that out.
    #[inline(always)]
    pub(crate) fn begins_as_ipv6(&self, index: usize) -> bool {
        if index < self.spans.len() {
            return begins_as_ipv6(self.packet(index));
        }
        false
    }
}

/// Returns whether the bytes begin as a packet of IPv6.
#[inline(always)]
fn begins_as_ipv6(bytes: &[u8]) -> bool {
    match bytes {
        [first, ..] => *first >= 0x60,
        [] => false,
    }
}

/// Returns the index of the first span that ends after the buffer.
#[inline(always)]
fn index_outside(buffer: &[u8], spans: &[PacketSpan]) -> Option<usize>
    ensures { result ≡ first_outside buffer.now spans.now }
{
    spans.iter().position(|span| span.ends_after(buffer.len()))
}
