//! Packets without some of their extension headers.
ghost use Rattle.std.specs.Prelude.{◌≡◌, ◌<◌, ◌+◌, ◌++◌, ◌==◌, ◌&&◌, length, drop, take, false, IfOk, OnOk, OnErr};
ghost use Rattle.std.specs.Result.{result_err};
ghost use Rattle.ip_dissect.specs.Dissection.{DissectedParts, dissected};
ghost use Rattle.ip_spec.specs.Numbers.{AUTHENTICATION};
ghost use Rattle.ip_dissect.specs.Summary.{is_later_end, summary_of};
ghost use Rattle.ip_rewrite.specs.Without.{packet_fault, is_ipv4_fragment, selection_fault, without, len_without, parts_without, without_fault, keeps_checksums};
ghost use Rattle.ip_rewrite.specs.Writing.{empty_selection, selection_after};

use crate::first_header::write_without_first;
use crate::plan::seen;
use crate::rewriting::write_planned;
use crate::selection::Selection;
use crate::{Authentication, Request, RewriteError, Which};
use ip_base::ip_number;
use ip_dissect::Summary;

/// A packet that was written.
#[derive(Clone, Copy, Debug, PartialEq, Eq)]
pub struct Rewritten {
    /// Its length in bytes.
    pub len: usize,
    /// Whether a transport checksum holds as before.
    pub keeps_checksums: bool,
}

/// Returns why no packet can be made of this one, whatever is changed.
#[inline(always)]
pub(crate) fn test_packet(summary: &Summary) -> Result<(), RewriteError>
    ensures fault { (p : DissectedParts) → summary.now ≡ summary_of p → result_err result ≡ packet_fault p }
    ensures whole { OnOk result (summary.now.has_error ≡ false) }
{
    if summary.has_error {
        return Err(RewriteError::Headers);
    }
    if summary.missing != 0 {
        return Err(RewriteError::Missing);
    }
    if summary.version == 4 && summary.is_later_fragment {
        return Err(RewriteError::LaterFragment);
    }
    Ok(())
}

/// Returns whether an authentication header follows the headers in the part that is fragmented.
#[inline(always)]
pub(crate) fn authentication_follows(summary: &Summary) -> bool
    ensures { (p : DissectedParts) → summary.now ≡ summary_of p
        → result ≡ (is_later_end p.end && (p.number == AUTHENTICATION)) }
{
    summary.is_later_fragment && summary.next_header == ip_number::AUTH
}

/// Returns whether the packet is an IPv4 fragment, by its base header.
#[inline(always)]
pub(crate) fn is_ipv4_fragment(summary: &Summary) -> bool
    ensures { (p : DissectedParts) → summary.now ≡ summary_of p → result ≡ is_ipv4_fragment p }
{
    summary.version == 4 && summary.fragment.is_some()
}

/// Returns why the headers that are selected can't be left out.
#[inline(always)]
pub(crate) fn test_selection(
    summary: &Summary,
    selection: &Selection,
    authentication: Authentication,
) -> Result<(), RewriteError>
    ensures { (p : DissectedParts) → summary.now ≡ summary_of p
        → selection.now ≡ selection_after (empty_selection selection.now.which) p.headers
        → result_err result ≡ selection_fault selection.now.which authentication p }
{
    let is_ipv4 = summary.version == 4;
    if !selection.selects {
        return Err(RewriteError::NoHeader);
    }
    if selection.selects_fragmenting {
        return Err(RewriteError::FragmentHeader);
    }
    if is_ipv4 & summary.fragment.is_some() | selection.selects_fragmented {
        return Err(RewriteError::Fragmented);
    }
    let has_authentication = selection.keeps_authentication | authentication_follows(summary);
    let is_covered = has_authentication & selection.selects_covered;
    if is_covered && authentication == Authentication::Valid {
        return Err(RewriteError::Authenticated);
    }
    if is_ipv4 && summary.next_header == ip_number::AUTH {
        return Err(RewriteError::HeaderFollows);
    }
    Ok(())
}

/// Writes a packet without the headers that are selected, as the plan of a request that leaves them out.
#[inline(never)]
fn remove_selected(
    packet: &[u8],
    which: Which,
    authentication: Authentication,
    out: &mut [u8],
) -> Result<Rewritten, RewriteError>
    ensures fault { result_err result
        ≡ without_fault which authentication (dissected packet.now) (length out.old) }
    ensures len { IfOk result (λ r. r.len ≡ len_without which (dissected packet.now)) }
    ensures checksums { IfOk result (λ r.
        r.keeps_checksums ≡ keeps_checksums which (dissected packet.now)) }
    ensures written { IfOk result (λ r.
        out.new ≡ without which (dissected packet.now) ++ drop r.len out.old) }
    ensures dissects { IfOk result (λ r.
        dissected (take r.len out.new) ≡ parts_without which (dissected packet.now)) }
    ensures stays { OnErr result (out.new ≡ out.old) }
{
    let request = Request::leaving(which, authentication);
    let (packet, plan) = seen(packet, request);
    if !plan.selection.selects {
        test_packet(&packet.summary)?;
        return Err(RewriteError::NoHeader);
    }
    write_planned(&packet, &plan, request, out)
}

/// Writes a packet to the front of `out` without the extension headers that are selected, and nothing else changed.
pub fn remove_header(
    packet: &[u8],
    which: Which,
    authentication: Authentication,
    out: &mut [u8],
) -> Result<Rewritten, RewriteError>
    ensures fault { result_err result
        ≡ without_fault which authentication (dissected packet.now) (length out.old) }
    ensures len { IfOk result (λ r. r.len ≡ len_without which (dissected packet.now)) }
    ensures checksums { IfOk result (λ r.
        r.keeps_checksums ≡ keeps_checksums which (dissected packet.now)) }
    ensures written { IfOk result (λ r.
        out.new ≡ without which (dissected packet.now) ++ drop r.len out.old) }
    ensures dissects { IfOk result (λ r.
        dissected (take r.len out.new) ≡ parts_without which (dissected packet.now)) }
    ensures stays { OnErr result (out.new ≡ out.old) }
{
    match write_without_first(packet, which, out) {
        Some(rewritten) => Ok(rewritten),
        None => remove_selected(packet, which, authentication, out),
    }
}
