//! The answer to `packet`, built in the simplest way.
ghost use Rattle.std.specs.Prelude.{◌≡◌, codes, OnOk};
ghost use Rattle.ipexts_tool.specs.Text.{AppendsText};
ghost use Rattle.etherparse_ip.specs.Packet.{Parts};
ghost use Rattle.ipexts_tool.specs.Faults.{len_text, len_fault_text, headers_fault_text, packet_fault_text};
ghost use Rattle.ipexts_tool.specs.PacketAnswer.{yes_or_no, lengths_line, payload_line, parts_lines};
ghost use Rattle.ipexts_tool.specs.PacketAnswer.{fault_line, packet_answer};
ghost use Rattle.check_reference.specs.PlainPacket.{HasLengthsOf};

use crate::plain_packet::{PlainPacket, plain_packet};
use etherparse_ip::err::ip::{HeaderError, HeadersError, SliceError};
use etherparse_ip::err::{LenError, ipv6_exts};
use std::alloc::{AllocError, Global};

/// Appends the answer to `packet` with these bytes.
pub(crate) fn push_packet(alloc: Global, bytes: &[u8], text: &mut String) -> Result<(), AllocError>
    ensures { OnOk result (AppendsText text.old text.new (packet_answer bytes.now)) }
{
    match plain_packet(alloc, bytes)? {
        Ok((name, packet)) => push_parts(name, &packet, text),
        Err(fault) => push_fault(&fault, text),
    }
}

/// Appends the parts of a packet of the version of this name.
fn push_parts(name: &str, packet: &PlainPacket, text: &mut String) -> Result<(), AllocError>
    ensures { (p : Parts) → HasLengthsOf p packet.now → OnOk result
        (AppendsText text.old text.new (parts_lines name.now p)) }
{
    push_lengths(
        name,
        packet.header_len,
        packet.exts_len,
        packet.payload_len,
        text,
    )?;
    push_payload(packet, text)?;
    push_ok(text)
}

/// Appends the length of each part of a packet, in bytes.
fn push_lengths(
    name: &str,
    header_len: usize,
    exts_len: usize,
    payload_len: usize,
    text: &mut String,
) -> Result<(), AllocError>
    ensures { OnOk result
        (AppendsText text.old text.new (lengths_line name.now header_len exts_len payload_len)) }
{
    writeln!(
        text,
        "{name} header {header_len} exts {exts_len} payload {payload_len}"
    )
}

/// Appends the payload's number, whether it is a fragment, and the source of its length.
fn push_payload(packet: &PlainPacket, text: &mut String) -> Result<(), AllocError>
    ensures { OnOk result
        (AppendsText text.old text.new (payload_line packet.now.number packet.now.fragmented packet.now.len_source)) }
{
    let number = packet.number;
    let fragmented = yes_or_no(packet.fragmented);
    let source = packet.len_source.name();
    writeln!(
        text,
        "next {number} fragmented {fragmented} source {source}"
    )
}

/// Returns `yes` or `no`.
fn yes_or_no(answer: bool) -> &'static str
    ensures { result.now ≡ yes_or_no answer }
{
    if answer { "yes" } else { "no" }
}

/// Appends that there is no error.
fn push_ok(text: &mut String) -> Result<(), AllocError>
    ensures { OnOk result (AppendsText text.old text.new (codes "ok\n")) }
{
    text.push_str("ok\n")
}

/// Appends a packet's error.
fn push_fault(fault: &SliceError, text: &mut String) -> Result<(), AllocError>
    ensures { OnOk result (AppendsText text.old text.new (fault_line fault.now)) }
{
    push_fault_text(fault, text)?;
    text.push_str("\n")
}

/// Appends the text of a packet's error, without a newline.
pub(crate) fn push_fault_text(fault: &SliceError, text: &mut String) -> Result<(), AllocError>
    ensures { OnOk result (AppendsText text.old text.new (packet_fault_text fault.now)) }
{
    match fault {
        SliceError::Len(fault) => push_len_fault(fault, text),
        SliceError::IpHeaders(fault) => push_headers_fault(fault, text),
    }
}

/// Appends a length error.
fn push_len_fault(e: &LenError, text: &mut String) -> Result<(), AllocError>
    ensures { OnOk result (AppendsText text.old text.new (len_fault_text e.now)) }
{
    text.push_str("fault ")?;
    push_len(e, text)
}

/// Appends how many bytes are required and how many there are.
pub(crate) fn push_len(e: &LenError, text: &mut String) -> Result<(), AllocError>
    ensures { OnOk result (AppendsText text.old text.new (len_text e.now)) }
{
    let (required, len, offset) = (e.required_len, e.len, e.layer_start_offset);
    let (source, layer) = (e.len_source.name(), e.layer.name());
    write!(text, "len {required} of {len} {source} {layer} at {offset}")
}

/// Appends the error in the bytes of a packet's headers.
fn push_headers_fault(fault: &HeadersError, text: &mut String) -> Result<(), AllocError>
    ensures { OnOk result (AppendsText text.old text.new (headers_fault_text fault.now)) }
{
    match fault {
        HeadersError::Ip(HeaderError::UnsupportedIpVersion { version_number }) => {
            write!(text, "fault UnsupportedIpVersion {version_number}")
        }
        HeadersError::Ip(HeaderError::Ipv4HeaderLengthSmallerThanHeader { ihl }) => {
            write!(text, "fault Ipv4HeaderLengthSmallerThanHeader {ihl}")
        }
        HeadersError::Ipv6Ext(ipv6_exts::HeaderError::HopByHopNotAtStart) => {
            text.push_str("fault HopByHopNotAtStart")
        }
        HeadersError::Ipv4Ext(_) | HeadersError::Ipv6Ext(_) => {
            text.push_str("fault ZeroPayloadLen")
        }
    }
}
