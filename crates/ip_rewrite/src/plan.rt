//! What is seen of a packet before several changes are made at once, and whether they can be made.
ghost use Rattle.std.specs.Prelude.{◌≡◌, ◌≤◌, ◌<◌, ◌^◌, ◌==◌, length, if◌then◌else◌, IfOk, OnOk};
ghost use Rattle.std.specs.Result.{result_err};
ghost use Rattle.ip_dissect.specs.Dissection.{dissected};
ghost use Rattle.ip_rewrite.specs.Order.{is_in_order};
ghost use Rattle.ip_rewrite.specs.Rewritten.{rewritten_field};
ghost use Rattle.ip_rewrite.specs.Selection.{kept};
ghost use Rattle.ip_rewrite.specs.Writing.{routing_index};
ghost use Rattle.ip_rewrite.specs.Request.{changed_headers, concerns, leaving_fault, clearing_step_fault, ordering_step_fault, change_fault, requested_len};
ghost use Rattle.ip_rewrite.specs.Planning.{IsPlan};

use crate::both::Both;
use crate::clearing::{Reserved, test_reserved};
use crate::jumbogram::test_jumbogram;
use crate::kept::Kept;
use crate::order::{Contents, Order, test_order};
use crate::removal::{is_ipv4_fragment, test_packet, test_selection};
use crate::selection::Selection;
use crate::write::test_room;
use crate::{Request, RewriteError, Which};
use ip_base::ip_number;
use ip_dissect::Packet;

/// What was seen of a packet's headers.
#[derive(Clone, Copy, Debug)]
pub(crate) struct Plan {
    /// Which are left out, and how long the others are.
    pub(crate) selection: Selection,
    /// The reserved bits of the others.
    reserved: Reserved,
    /// What else matters of the others.
    pub(crate) contents: Contents,
    /// The others are in the recommended order, if that is asked for.
    is_in_order: bool,
}

/// Returns whether the headers that are kept are in the recommended order.
#[inline(always)]
fn are_kept_in_order(packet: &Packet<'_>, which: Which, last_routing: usize) -> bool
    requires { last_routing ≡ routing_index (kept which (dissected packet.now.bytes.now).headers) }
    ensures { result ≡ is_in_order (kept which (dissected packet.now.bytes.now).headers) }
{
    let order = Order {
        last_routing,
        last: 0,
        rises: true,
    };
    let mut kept = Kept::new(which, order);
    Packet::walk(packet.bytes, &mut kept);
    kept.visitor.rises
}

/// Walks through a packet for a request.
#[inline(always)]
pub(crate) fn seen(bytes: &[u8], request: Request) -> (Packet<'_>, Plan)
    ensures bytes { result.0.bytes.now ≡ bytes.now }
    ensures plan { IsPlan request (dissected bytes.now).headers result.1 }
{
    let which = request.without;
    let others = Both {
        first: Reserved::default(),
        second: Contents::default(),
    };
    let mut visitors = Both {
        first: Selection::new(which),
        second: Kept::new(which, others),
    };
    let packet = Packet::walk(bytes, &mut visitors);
    let others = visitors.second.visitor;
    let last_routing = others.second.last_routing;
    let is_in_order = !request.orders || are_kept_in_order(&packet, which, last_routing);
    let plan = Plan {
        selection: visitors.first,
        reserved: others.first,
        contents: others.second,
        is_in_order,
    };
    (packet, plan)
}

impl Plan {
    /// Returns whether the request changes a header.
    #[inline(always)]
    pub(crate) fn concerns(&self, request: Request) -> bool
        ensures { (c : _) → IsPlan request c self.now → result ≡ concerns request c }
    {
        let is_cleared = request.clears & self.reserved.is_set;
        let is_ordered = request.orders & !self.is_in_order;
        self.selection.selects | is_cleared | is_ordered
    }
}

/// Returns why headers can't be left out, if there are any that are to be.
#[inline(always)]
fn test_leaving(packet: &Packet<'_>, plan: &Plan, request: Request) -> Result<(), RewriteError>
    requires { IsPlan request (dissected packet.now.bytes.now).headers plan.now }
    ensures { result_err result ≡ leaving_fault request (dissected packet.now.bytes.now) }
{
    if !plan.selection.selects {
        return Ok(());
    }
    test_selection(&packet.summary, &plan.selection, request.authentication)?;
    let ends = request.without.selects(ip_number::IPV6_HOP_BY_HOP, 0);
    test_jumbogram(packet, ends)
}

/// Returns why the reserved bits of the others can't be cleared, if they are to be.
#[inline(always)]
fn test_clearing(packet: &Packet<'_>, plan: &Plan, request: Request) -> Result<(), RewriteError>
    requires { IsPlan request (dissected packet.now.bytes.now).headers plan.now }
    ensures { result_err result ≡ clearing_step_fault request (dissected packet.now.bytes.now) }
{
    if !request.clears {
        return Ok(());
    }
    let is_fragment = is_ipv4_fragment(&packet.summary);
    test_reserved(is_fragment, &plan.reserved, request.authentication)
}

/// Returns why the others can't be put in order, if they are to be.
#[inline(always)]
fn test_ordering(packet: &Packet<'_>, plan: &Plan, request: Request) -> Result<(), RewriteError>
    requires { IsPlan request (dissected packet.now.bytes.now).headers plan.now }
    ensures { result_err result ≡ ordering_step_fault request (dissected packet.now.bytes.now) }
{
    if !request.orders {
        return Ok(());
    }
    test_order(&plan.contents, plan.is_in_order, request.authentication)
}

/// Returns the number for the length field, or why the packet can't be written with these changes.
#[inline(always)]
pub(crate) fn test(
    packet: &Packet<'_>,
    plan: &Plan,
    request: Request,
    room: usize,
) -> Result<u16, RewriteError>
    requires plan { IsPlan request (dissected packet.now.bytes.now).headers plan.now }
    requires small { length packet.now.bytes.now < 2 ^ 64 }
    ensures fault { result_err result ≡ change_fault request (dissected packet.now.bytes.now) room }
    ensures field { IfOk result (λ n. n ≡ rewritten_field (dissected packet.now.bytes.now)
        (changed_headers request (dissected packet.now.bytes.now).headers) (dissected packet.now.bytes.now).payload) }
    ensures fits { OnOk result (requested_len request (dissected packet.now.bytes.now) ≤ room) }
    ensures base { OnOk result ((if (dissected packet.now.bytes.now).version == 4 then 20 else 40)
        ≤ length (dissected packet.now.bytes.now).base) }
{
    let summary = &packet.summary;
    test_packet(summary)?;
    test_leaving(packet, plan, request)?;
    test_clearing(packet, plan, request)?;
    test_ordering(packet, plan, request)?;
    test_room(packet, plan.selection.kept_len, summary.payload_len, room)
}
