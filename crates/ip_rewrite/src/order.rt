//! Packets whose extension headers are in the recommended order.
ghost use Rattle.std.specs.Prelude.{◌≡◌, ◌<◌, ◌+◌, ◌++◌, ◌==◌, ◌||◌, ◌&&◌, ◌↔◌, length, drop, take, true, IfOk, OnErr, IsTrue};
ghost use Rattle.std.specs.List.{list_any};
ghost use Rattle.std.specs.Result.{result_err};
ghost use Rattle.std.proofs.Common.{rules};
ghost use Rattle.ip_spec.specs.Chain.{ExtHeader};
ghost use Rattle.ip_dissect.specs.Dissection.{DissectedParts, dissected};
ghost use Rattle.ip_dissect.specs.Fragment.{fragments};
ghost use Rattle.ip_rewrite.specs.Rewritten.{rewritten, rewritten_len, rewritten_parts};
ghost use Rattle.ip_rewrite.specs.Without.{is_authentication};
ghost use Rattle.ip_rewrite.specs.Order.{in_order, is_in_order, order_fault, ordering_fault};
ghost use Rattle.ip_rewrite.specs.Writing.{routing_index, rank_at, last_rank, rises_at};

use crate::header::fragments;
use crate::rewriting::write_requested;
use crate::{Authentication, Request, RewriteError, Rewritten};
use ip_base::{IpNumber, ip_number};
use ip_dissect::{HeaderVisitor, Packet};

/// How many ranks there are.
pub(crate) const RANKS: u8 = 5;

/// What was seen of a packet's headers.
#[derive(Clone, Copy, Debug, Default)]
pub(crate) struct Contents {
    /// There is an authentication header.
    has_authentication: bool,
    /// A header fragments the payload.
    fragments: bool,
    /// The index of the last routing header, or 0 without one.
    pub(crate) last_routing: usize,
}

impl HeaderVisitor for Contents {
    ghost visited = { λ old k c new.
        (new.has_authentication ≡ (old.has_authentication || list_any is_authentication c))
        × (new.fragments ≡ (old.fragments || list_any fragments c))
        × (old.last_routing ≡ 0 → new.last_routing ≡ routing_index c) };

    ghost none = { λ v k. Prim.search rules };

    #[inline(always)]
    fn visit(&mut self, number: IpNumber, header: &[u8], index: usize, _offset: usize) {
        self.has_authentication |= number == ip_number::AUTH;
        self.fragments |= fragments(number, header);
        if number == ip_number::IPV6_ROUTE {
            self.last_routing = index;
        }
    }
}

/// Returns the rank of the header with this number and index in the recommended order (RFC 8200, section 4.1).
#[inline(always)]
pub(crate) fn rank(number: IpNumber, index: usize, last_routing: usize) -> u8
    ensures { (h : ExtHeader) → h.number ≡ number.0 → result ≡ rank_at last_routing index h }
{
    let is_before_routing = number == ip_number::IPV6_DEST_OPTIONS && index < last_routing;
    if number == ip_number::IPV6_HOP_BY_HOP {
        0
    } else if number == ip_number::IPV6_ROUTE || is_before_routing {
        1
    } else if number == ip_number::IPV6_FRAG {
        2
    } else if number == ip_number::AUTH {
        3
    } else {
        4
    }
}

/// What was seen of the order of a packet's headers.
#[derive(Clone, Copy, Debug)]
pub(crate) struct Order {
    /// The index of the last routing header, or 0 without one.
    pub(crate) last_routing: usize,
    /// The rank of the last header.
    pub(crate) last: u8,
    /// No rank is lower than the one before it.
    pub(crate) rises: bool,
}

impl HeaderVisitor for Order {
    ghost visited = { λ old k c new. (new.last_routing ≡ old.last_routing)
        × (new.last ≡ last_rank old.last old.last_routing 0 c)
        × (new.rises ≡ (old.rises && rises_at old.last old.last_routing 0 c)) };

    ghost none = { λ v k. Prim.search rules };

    #[inline(always)]
    fn visit(&mut self, number: IpNumber, _header: &[u8], index: usize, _offset: usize) {
        let rank = rank(number, index, self.last_routing);
        self.rises &= rank >= self.last;
        self.last = rank;
    }
}

/// Returns whether the headers of a packet are in the recommended order.
#[inline(always)]
fn are_in_order(packet: &Packet<'_>, last_routing: usize) -> bool
    requires { last_routing ≡ routing_index (dissected packet.now.bytes.now).headers }
    ensures { result ≡ is_in_order (dissected packet.now.bytes.now).headers }
{
    let mut order = Order {
        last_routing,
        last: 0,
        rises: true,
    };
    Packet::walk(packet.bytes, &mut order);
    order.rises
}

/// Returns why the order of the headers can't change.
#[inline(always)]
pub(crate) fn test_order(
    contents: &Contents,
    ordered: bool,
    authentication: Authentication,
) -> Result<(), RewriteError>
    ensures { (p : DissectedParts) → contents.now.has_authentication ≡ list_any is_authentication p.headers
        → contents.now.fragments ≡ list_any fragments p.headers
        → ordered ≡ is_in_order p.headers
        → result_err result ≡ order_fault authentication p }
{
    if ordered {
        return Ok(());
    }
    if contents.fragments {
        return Err(RewriteError::Fragmented);
    }
    if contents.has_authentication && authentication == Authentication::Valid {
        return Err(RewriteError::Authenticated);
    }
    Ok(())
}

/// Returns whether the extension headers of a packet are in the order that RFC 8200, section 4.1, recommends: whether
/// `in_order` would leave them as they are. If the headers end with an error, those before it count.
#[tactic(auto, using(crate::proofs::OrderLawLemmas::order_stays))]
pub fn is_in_order(packet: &[u8]) -> bool
    ensures ranks { result ≡ is_in_order (dissected packet.now).headers }
    ensures unchanged { let c = (dissected packet.now).headers in IsTrue result ↔ (in_order c ≡ c) }
{
    let mut contents = Contents::default();
    let packet = Packet::walk(packet, &mut contents);
    are_in_order(&packet, contents.last_routing)
}

/// Writes a packet to the front of `out` with the same extension headers in the order that RFC 8200, section 4.1,
/// recommends. Headers of one kind keep their order, and destination options never pass a routing header. A packet in
/// this order is written as it is; the order of a fragment can't change.
#[tactic(auto, using(crate::proofs::OrderLemmas::ordered_len))]
pub fn in_order(
    packet: &[u8],
    authentication: Authentication,
    out: &mut [u8],
) -> Result<Rewritten, RewriteError>
    ensures fault { result_err result
        ≡ ordering_fault authentication (dissected packet.now) (length out.old) }
    ensures len { IfOk result (λ r. let p = dissected packet.now in
        r.len ≡ rewritten_len p (in_order p.headers) p.payload) }
    ensures checksums { IfOk result (λ r. r.keeps_checksums ≡ true) }
    ensures written { IfOk result (λ r. let p = dissected packet.now in
        out.new ≡ rewritten p (in_order p.headers) p.number p.payload ++ drop r.len out.old) }
    ensures dissects { IfOk result (λ r. let p = dissected packet.now in
        dissected (take r.len out.new) ≡ rewritten_parts p (in_order p.headers) p.number p.payload) }
    ensures stays { OnErr result (out.new ≡ out.old) }
{
    write_requested(packet, Request::ordering(authentication), out)
}
