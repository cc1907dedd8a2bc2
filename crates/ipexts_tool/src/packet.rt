//! The answer to `packet HEX`.
ghost use Rattle.std.specs.Prelude.{◌≡◌, length, codes, OnOk};
ghost use Rattle.ipexts_tool.specs.Text.{AppendsText};
ghost use Rattle.ip_spec.specs.Chain.{bytes_of};
ghost use Rattle.ip_ext_chains.specs.Ipv4ExtensionsSlice.{headers_in};
ghost use Rattle.etherparse_ip.specs.Ipv4Slice.{ipv4_parts};
ghost use Rattle.etherparse_ip.specs.Ipv6Slice.{ipv6_parts};
ghost use Rattle.ipexts_tool.specs.PacketAnswer.{yes_or_no, lengths_line, payload_line, parts_lines, fault_line, packet_answer};

use crate::faults::push_packet_fault;
use crate::parts::push_ok;
use etherparse_ip::err::ip::SliceError;
use etherparse_ip::{
    IpPayloadSlice, IpSlice, Ipv4ExtensionsSlice, Ipv4Slice, Ipv6Slice, one_packet,
};
use std::alloc::{AllocError, Allocator};

/// Appends the answer for `bytes` as a packet.
#[tactic(auto, using(crate::proofs::PacketLemmas::fault_answer))]
pub fn push_packet<A: Allocator>(bytes: &[u8], text: &mut String<A>) -> Result<(), AllocError>
    ensures { OnOk result (AppendsText text.old text.new (packet_answer bytes.now)) }
{
    one_packet();
    match IpSlice::from_slice(bytes) {
        Ok(IpSlice::Ipv4(packet)) => push_ipv4(&packet, text),
        Ok(IpSlice::Ipv6(packet)) => push_ipv6(&packet, text),
        Err(fault) => push_fault(&fault, text),
    }
}

/// Appends the text of a packet's error.
fn push_fault<A: Allocator>(fault: &SliceError, text: &mut String<A>) -> Result<(), AllocError>
    ensures { OnOk result (AppendsText text.old text.new (fault_line fault.now)) }
{
    push_packet_fault(fault, text)?;
    text.push_str("\n")
}

/// Appends the parts of an IPv4 packet.
fn push_ipv4<A: Allocator>(packet: &Ipv4Slice<'_>, text: &mut String<A>) -> Result<(), AllocError>
    ensures { OnOk result
        (AppendsText text.old text.new (parts_lines (codes "ipv4") (ipv4_parts packet.now))) }
{
    let header_len = packet.header().slice().len();
    let exts_len = ipv4_exts_len(packet.extensions());
    let payload = packet.payload();
    push_lengths("ipv4", header_len, exts_len, payload.payload.len(), text)?;
    push_payload(payload, text)?;
    push_ok(text)
}

/// Returns the headers' length in bytes.
fn ipv4_exts_len(headers: Ipv4ExtensionsSlice<'_>) -> usize
    ensures { result ≡ length (bytes_of (headers_in headers.entry)) }
{
    match headers.auth {
        Some(header) => header.slice().len(),
        None => 0,
    }
}

/// Appends the parts of an IPv6 packet.
fn push_ipv6<A: Allocator>(packet: &Ipv6Slice<'_>, text: &mut String<A>) -> Result<(), AllocError>
    ensures { OnOk result
        (AppendsText text.old text.new (parts_lines (codes "ipv6") (ipv6_parts packet.now))) }
{
    let header_len = packet.header().slice().len();
    let exts_len = packet.extensions().slice().len();
    let payload = packet.payload();
    push_lengths("ipv6", header_len, exts_len, payload.payload.len(), text)?;
    push_payload(payload, text)?;
    push_ok(text)
}

/// Appends the length of each part of a packet, in bytes.
fn push_lengths<A: Allocator>(
    name: &str,
    header_len: usize,
    exts_len: usize,
    payload_len: usize,
    text: &mut String<A>,
) -> Result<(), AllocError>
    ensures { OnOk result
        (AppendsText text.old text.new (lengths_line name.now header_len exts_len payload_len)) }
{
    writeln!(
        text,
        "{name} header {header_len} exts {exts_len} payload {payload_len}"
    )
}

/// Appends the payload's number, whether it is a fragment, and the source of its length.
fn push_payload<A: Allocator>(
    payload: &IpPayloadSlice<'_>,
    text: &mut String<A>,
) -> Result<(), AllocError>
    ensures { OnOk result
        (AppendsText text.old text.new (payload_line payload.now.ip_number.0 payload.now.fragmented payload.now.len_source)) }
{
    let number = payload.ip_number.0;
    let fragmented = yes_or_no(payload.fragmented);
    let source = payload.len_source.name();
    writeln!(
        text,
        "next {number} fragmented {fragmented} source {source}"
    )
}

/// Returns `yes` or `no`.
fn yes_or_no(answer: bool) -> &'static str
    ensures { result.now ≡ yes_or_no answer }
{
    if answer { "yes" } else { "no" }
}
