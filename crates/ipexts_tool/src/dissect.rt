//! The answer to `dissect HEX`.
ghost use Rattle.std.specs.Prelude.{◌≡◌, ◌++◌, ◌+◌, ◌<◌, ◌^◌, ℕ, List, length, codes, OnOk};
ghost use Rattle.ipexts_tool.specs.Text.{AppendsText};
ghost use Rattle.ip_ext_slices.specs.Ipv6ExtensionsSlice.{bytes, headers_in};
ghost use Rattle.ip_dissect.specs.Dissection.{HasParts, dissected, version_in, base_bytes};
ghost use Rattle.ipexts_tool.specs.Parts.{header_lines};
ghost use Rattle.ipexts_tool.specs.DissectAnswer.{stated_text, base_line, fragment_line, kind_name, missing_line, in_header, truncated_text, end_line, dissect_answer};

use crate::faults::{push_len, push_packet_fault};
use crate::parts::{push_authentication, push_header, push_next};
use etherparse_ip::Ipv6ExtensionsSlice;
use etherparse_ip::err::{Layer, LenError};
use ip_dissect::{BaseHeader, Dissection, End, Fragment, FragmentKind, dissect};
use std::alloc::{AllocError, Allocator};

/// Appends the parts of the packet at the start of `bytes`, and why its headers end where they do.
#[tactic(auto, using(crate::proofs::DissectLemmas::answer_none))]
pub fn push_dissect<A: Allocator>(bytes: &[u8], text: &mut String<A>) -> Result<(), AllocError>
    ensures { OnOk result (AppendsText text.old text.new (dissect_answer bytes.now)) }
{
    let packet = dissect(bytes);
    let Some(base) = packet.base else {
        return push_end(&packet.end, text);
    };
    push_base(&base, packet.stated_len, text)?;
    push_headers(&packet, base.slice().len(), text)?;
    push_fragment(packet.fragment, text)?;
    push_next(packet.next_header, packet.payload.len(), text)?;
    push_missing(packet.missing, packet.padding.len(), text)?;
    push_end(&packet.end, text)
}

/// Appends the version, the length of the base header and the length that it states.
fn push_base<A: Allocator>(
    base: &BaseHeader<'_>,
    stated_len: Option<usize>,
    text: &mut String<A>,
) -> Result<(), AllocError>
    ensures { OnOk result
        (AppendsText text.old text.new (base_line (version_in base.now) (length (base_bytes base.now)) stated_len)) }
{
    let version = base.version();
    let len = base.slice().len();
    write!(text, "ipv{version} base {len} stated ")?;
    push_stated(stated_len, text)?;
    text.push_str("\n")
}

/// Appends a stated length, or that there is none.
fn push_stated<A: Allocator>(
    stated_len: Option<usize>,
    text: &mut String<A>,
) -> Result<(), AllocError>
    ensures { OnOk result (AppendsText text.old text.new (stated_text stated_len)) }
{
    match stated_len {
        Some(stated_len) => write!(text, "{stated_len}"),
        None => text.push_str("none"),
    }
}

/// Appends a line for each extension header, the first of which is at the offset.
fn push_headers<A: Allocator>(
    packet: &Dissection<'_>,
    offset: usize,
    text: &mut String<A>,
) -> Result<(), AllocError>
    requires { offset + length packet.now.extensions.now < 2 ^ 64 }
    ensures { (s : List ℕ) → HasParts (dissected s) packet.now → OnOk result
        (AppendsText text.old text.new (header_lines offset (dissected s).headers)) }
{
    if let Some(headers) = packet.ipv6_extensions() {
        return push_ipv6_headers(headers, offset, text);
    }
    push_authentication(packet.ipv4_authentication(), offset, text)
}

/// Appends a line for each IPv6 extension header, the first of which is at the offset.
fn push_ipv6_headers<A: Allocator>(
    headers: Ipv6ExtensionsSlice<'_>,
    offset: usize,
    text: &mut String<A>,
) -> Result<(), AllocError>
    requires { offset + length (bytes headers) < 2 ^ 64 }
    ensures { OnOk result
        (AppendsText text.old text.new (header_lines offset (headers_in headers.entry))) }
{
    let mut at = offset;
    for header in headers {
        let len = header.slice().len();
        push_header(at, header.number(), len, text)?;
        at += len;
    }
    Ok(())
}

/// Appends which fragment the packet is.
fn push_fragment<A: Allocator>(
    fragment: Option<Fragment>,
    text: &mut String<A>,
) -> Result<(), AllocError>
    ensures { OnOk result (AppendsText text.old text.new (fragment_line fragment)) }
{
    let Some(fragment) = fragment else {
        return text.push_str("fragment none\n");
    };
    let kind = kind_name(fragment.kind);
    let id = fragment.identification;
    let offset = fragment.offset;
    writeln!(text, "fragment {kind} id {id} offset {offset}")
}

/// Returns the name of a kind of fragment.
fn kind_name(kind: FragmentKind) -> &'static str
    ensures { result.now ≡ kind_name kind }
{
    match kind {
        FragmentKind::Atomic => "atomic",
        FragmentKind::First => "first",
        FragmentKind::Middle => "middle",
        FragmentKind::Last => "last",
    }
}

/// Appends how many stated bytes are not here, and how many bytes follow the packet.
fn push_missing<A: Allocator>(
    missing: usize,
    padding: usize,
    text: &mut String<A>,
) -> Result<(), AllocError>
    ensures { OnOk result (AppendsText text.old text.new (missing_line missing padding)) }
{
    writeln!(text, "missing {missing} padding {padding}")
}

/// Appends why the headers end.
fn push_end<A: Allocator>(end: &End, text: &mut String<A>) -> Result<(), AllocError>
    ensures { OnOk result (AppendsText text.old text.new (end_line end.now)) }
{
    match end {
        End::Payload => text.push_str("payload\n"),
        End::LaterFragment => text.push_str("later fragment\n"),
        End::Truncated { error, header } => {
            push_truncated(error, text)?;
            push_in(*header, text)
        }
        End::Fault { error, header } => {
            push_packet_fault(error, text)?;
            push_in(*header, text)
        }
    }
}

/// Appends that a header is incomplete here.
fn push_truncated<A: Allocator>(error: &LenError, text: &mut String<A>) -> Result<(), AllocError>
    ensures { OnOk result (AppendsText text.old text.new (truncated_text error.now)) }
{
    text.push_str("truncated ")?;
    push_len(error, text)
}

/// Appends the IPv6 extension header that an error is in, if it is in one, and ends the line.
fn push_in<A: Allocator>(header: Option<Layer>, text: &mut String<A>) -> Result<(), AllocError>
    ensures { OnOk result (AppendsText text.old text.new (in_header header ++ codes "\n")) }
{
    let Some(layer) = header else {
        return text.push_str("\n");
    };
    let layer = layer.name();
    writeln!(text, " in {layer}")
}
