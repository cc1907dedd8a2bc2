//! Packets of which any number of things are changed at once.
ghost use Rattle.std.specs.Prelude.{◌≡◌, ◌≤◌, ◌<◌, ◌+◌, ◌^◌, ◌++◌, ◌==◌, length, drop, take, is_some, None, if◌then◌else◌, IfOk, IfSome, OnErr};
ghost use Rattle.std.specs.Result.{result_err};
ghost use Rattle.ip_dissect.specs.Dissection.{dissected};
ghost use Rattle.ip_rewrite.specs.Jumbogram.{jumbo_offset};
ghost use Rattle.ip_rewrite.specs.Rewritten.{rewritten_field};
ghost use Rattle.ip_rewrite.specs.Without.{keeps_checksums};
ghost use Rattle.ip_rewrite.specs.Writing.{HasOption};
ghost use Rattle.ip_rewrite.specs.Request.{changed_headers, concerns, change_fault, request_fault, requested, requested_len, requested_parts};
ghost use Rattle.ip_rewrite.specs.Planning.{IsPlan};

use crate::plan::{Plan, seen, test};
use crate::write::{finish, number_offset};
use crate::writer::write_changed;
use crate::{Request, RewriteError, Rewritten};
use ip_dissect::Packet;

/// Writes the packet with the changes; `field` is the number for the length field.
#[tactic(auto, using(crate::proofs::RequestLemmas::changed_len))]
#[inline(always)]
fn write(packet: &Packet<'_>, plan: &Plan, request: Request, field: u16, out: &mut [u8])
    requires plan { IsPlan request (dissected packet.now.bytes.now).headers plan.now }
    requires small { length out.old < 2 ^ 64 }
    requires base { (if (dissected packet.now.bytes.now).version == 4 then 20 else 40)
        ≤ length (dissected packet.now.bytes.now).base }
    requires field { field ≡ rewritten_field (dissected packet.now.bytes.now)
        (changed_headers request (dissected packet.now.bytes.now).headers) (dissected packet.now.bytes.now).payload }
    requires option { HasOption (jumbo_offset (dissected packet.now.bytes.now))
        (changed_headers request (dissected packet.now.bytes.now).headers) }
    requires fits { requested_len request (dissected packet.now.bytes.now) ≤ length out.old }
    ensures { out.new ≡ requested request (dissected packet.now.bytes.now)
        ++ drop (requested_len request (dissected packet.now.bytes.now)) out.old }
{
    let summary = &packet.summary;
    let offset = number_offset(summary.version);
    let link = write_changed(packet, request, plan.contents.last_routing, offset, out);
    let payload = packet.payload();
    finish(
        packet,
        plan.selection.kept_len,
        link,
        summary.next_header,
        payload,
        field,
        out,
    );
}

/// Writes the packet with the changes, or returns why it can't be written.
#[tactic(auto, using(crate::proofs::RequestLemmas::changed_len))]
#[inline(always)]
pub(crate) fn write_planned(
    packet: &Packet<'_>,
    plan: &Plan,
    request: Request,
    out: &mut [u8],
) -> Result<Rewritten, RewriteError>
    requires plan { IsPlan request (dissected packet.now.bytes.now).headers plan.now }
    requires small { length packet.now.bytes.now < 2 ^ 64 }
    ensures fault { result_err result ≡ change_fault request (dissected packet.now.bytes.now) (length out.old) }
    ensures len { IfOk result (λ r. r.len ≡ requested_len request (dissected packet.now.bytes.now)) }
    ensures checksums { IfOk result (λ r.
        r.keeps_checksums ≡ keeps_checksums request.without (dissected packet.now.bytes.now)) }
    ensures written { IfOk result (λ r.
        out.new ≡ requested request (dissected packet.now.bytes.now) ++ drop r.len out.old) }
    ensures dissects { IfOk result (λ r.
        dissected (take r.len out.new) ≡ requested_parts request (dissected packet.now.bytes.now)) }
    ensures stays { OnErr result (out.new ≡ out.old) }
{
    let field = test(packet, plan, request, out.len())?;
    let summary = &packet.summary;
    let len = summary.base_len + plan.selection.kept_len + summary.payload_len;
    write(packet, plan, request, field, out);
    Ok(Rewritten {
        len,
        keeps_checksums: !plan.selection.selects_segments,
    })
}

/// Writes a packet with the changes of a request, also if there are none.
#[inline(always)]
pub(crate) fn write_requested(
    packet: &[u8],
    request: Request,
    out: &mut [u8],
) -> Result<Rewritten, RewriteError>
    ensures fault { result_err result ≡ change_fault request (dissected packet.now) (length out.old) }
    ensures len { IfOk result (λ r. r.len ≡ requested_len request (dissected packet.now)) }
    ensures checksums { IfOk result (λ r.
        r.keeps_checksums ≡ keeps_checksums request.without (dissected packet.now)) }
    ensures written { IfOk result (λ r.
        out.new ≡ requested request (dissected packet.now) ++ drop r.len out.old) }
    ensures dissects { IfOk result (λ r.
        dissected (take r.len out.new) ≡ requested_parts request (dissected packet.now)) }
    ensures stays { OnErr result (out.new ≡ out.old) }
{
    let (packet, plan) = seen(packet, request);
    write_planned(&packet, &plan, request, out)
}

/// Writes a packet to the front of `out` with all changes of a request. Returns `None`, and writes nothing, if the request
/// changes no header: such a packet is never refused.
///
/// The changes are made in this order: headers are left out, the reserved bits of the others are cleared, these are put in
/// order. The first error of the first step that can't be made is returned, `NotAJumbogram` with those of the headers that
/// are left out, then what is wrong with the length of the whole. `NoRoom` comes last: with an empty `out` it says that
/// nothing else is wrong. `out` is long enough if it is as long as `packet`.
pub fn rewrite(
    packet: &[u8],
    request: Request,
    out: &mut [u8],
) -> Result<Option<Rewritten>, RewriteError>
    ensures fault { result_err result ≡ request_fault request (dissected packet.now) (length out.old) }
    ensures changes { IfOk result (λ r. is_some r ≡ concerns request (dissected packet.now).headers) }
    ensures len { IfOk result (λ o. IfSome o (λ r. r.len ≡ requested_len request (dissected packet.now))) }
    ensures checksums { IfOk result (λ o. IfSome o (λ r.
        r.keeps_checksums ≡ keeps_checksums request.without (dissected packet.now))) }
    ensures written { IfOk result (λ o. IfSome o (λ r.
        out.new ≡ requested request (dissected packet.now) ++ drop r.len out.old)) }
    ensures dissects { IfOk result (λ o. IfSome o (λ r.
        dissected (take r.len out.new) ≡ requested_parts request (dissected packet.now))) }
    ensures unchanged { IfOk result (λ o. o ≡ None → out.new ≡ out.old) }
    ensures stays { OnErr result (out.new ≡ out.old) }
{
    let (packet, plan) = seen(packet, request);
    if !plan.concerns(request) {
        return Ok(None);
    }
    let rewritten = write_planned(&packet, &plan, request, out)?;
    Ok(Some(rewritten))
}
