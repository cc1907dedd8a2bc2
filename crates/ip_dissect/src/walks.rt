//! The calls that walk the packet at the start of any bytes: walked, dissected and summarized.
ghost use Rattle.std.specs.Prelude.{◌≡◌, ◌++◌, ◌+◌, not, is_some, length, IfSome};
ghost use Rattle.ip_dissect.specs.End.{has_error};
ghost use Rattle.ip_dissect.specs.Dissection.{HasParts, dissected, base_of};
ghost use Rattle.ip_dissect.specs.Summary.{summary_of};

use crate::{Dissection, HeaderVisitor, Packet, PacketStart, Summary};

impl<'a> Packet<'a> {
    /// Walks the packet at the start of `bytes`, which may be any bytes: parses the base header, passes each extension
    /// header to the visitor once, and returns the packet.
    #[inline(always)]
    pub fn walk<V: HeaderVisitor>(bytes: &'a [u8], visitor: &mut V) -> Packet<'a>
        ensures bytes { result.bytes.now ≡ bytes.now }
        ensures visited { V.visited visitor.old (length (dissected bytes.now).base)
            (dissected bytes.now).headers visitor.new }
    {
        PacketStart::parse(bytes).walk(visitor)
    }
}

/// Dissects the packet at the start of `bytes`, which may be any bytes. Returns the parts that are here, and why the
/// headers end where they do. Passes over the extension headers once, copies nothing and allocates nothing. Without a
/// base header all bytes are padding, and the next header is 59.
#[inline(always)]
pub fn dissect(bytes: &[u8]) -> Dissection<'_>
    ensures parts { HasParts (dissected bytes.now) result }
    ensures joined { base_of result ++ result.extensions.now ++ result.payload.now
        ++ result.padding.now ≡ bytes.now }
{
    Packet::walk(bytes, &mut ()).dissection()
}

/// Summaries the packet at the start of `bytes`, which may be any bytes. Returns `None` exactly if its headers end with
/// an error, or there is no base header; `dissect` says why. Otherwise returns the lengths and numbers of the parts
/// that `dissect` returns, in less time.
#[inline(always)]
pub fn summarize_packet(bytes: &[u8]) -> Option<Summary>
    ensures parts { IfSome result (λ o. o ≡ summary_of (dissected bytes.now)) }
    ensures some { is_some result ≡ not (has_error (dissected bytes.now).end) }
    ensures within { IfSome result (λ o. o.base_len + o.extensions_len + o.payload_len
        + o.padding_len ≡ length bytes.now) }
{
    let packet = Packet::walk(bytes, &mut ());
    if packet.summary.has_error {
        return None;
    }
    Some(packet.summary)
}
