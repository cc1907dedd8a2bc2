//! The texts of faults.
ghost use Rattle.std.specs.Prelude.{OnOk};
ghost use Rattle.ipexts_tool.specs.Text.{AppendsText};
ghost use Rattle.ipexts_tool.specs.Faults.{len_text, len_fault_text, auth_fault_text, auth_slice_fault_text, content_fault_text, chain_fault_text, base_fault_text, packet_fault_text};

use etherparse_ip::err::ipv6_exts::{HeaderError, HeaderSliceError};
use etherparse_ip::err::{LenError, ip, ip_auth};
use std::alloc::{AllocError, Allocator};

/// Appends the lengths, the layer and the offset of a length error.
pub fn push_len<A: Allocator>(fault: &LenError, text: &mut String<A>) -> Result<(), AllocError>
    ensures { OnOk result (AppendsText text.old text.new (len_text fault.now)) }
{
    let required_len = fault.required_len;
    let len = fault.len;
    let source = fault.len_source.name();
    let layer = fault.layer.name();
    let offset = fault.layer_start_offset;
    write!(
        text,
        "len {required_len} of {len} {source} {layer} at {offset}"
    )
}

/// Appends a length error's text.
fn push_len_fault<A: Allocator>(fault: &LenError, text: &mut String<A>) -> Result<(), AllocError>
    ensures { OnOk result (AppendsText text.old text.new (len_fault_text fault.now)) }
{
    text.push_str("fault ")?;
    push_len(fault, text)
}

/// Appends the text of an error in an authentication header.
fn push_auth_fault<A: Allocator>(
    fault: &ip_auth::HeaderError,
    text: &mut String<A>,
) -> Result<(), AllocError>
    ensures { OnOk result (AppendsText text.old text.new (auth_fault_text fault.now)) }
{
    text.push_str(match fault {
        ip_auth::HeaderError::ZeroPayloadLen => "fault ZeroPayloadLen",
    })
}

/// Appends the text of an authentication header's error.
pub fn push_auth_slice_fault<A: Allocator>(
    fault: &ip_auth::HeaderSliceError,
    text: &mut String<A>,
) -> Result<(), AllocError>
    ensures { OnOk result (AppendsText text.old text.new (auth_slice_fault_text fault.now)) }
{
    match fault {
        ip_auth::HeaderSliceError::Len(fault) => push_len_fault(fault, text),
        ip_auth::HeaderSliceError::Content(fault) => push_auth_fault(fault, text),
    }
}

/// Appends the text of an error in an IPv6 chain.
fn push_content_fault<A: Allocator>(
    fault: &HeaderError,
    text: &mut String<A>,
) -> Result<(), AllocError>
    ensures { OnOk result (AppendsText text.old text.new (content_fault_text fault.now)) }
{
    match fault {
        HeaderError::HopByHopNotAtStart => text.push_str("fault HopByHopNotAtStart"),
        HeaderError::IpAuth(fault) => push_auth_fault(fault, text),
    }
}

/// Appends the text of the error that ended an IPv6 chain.
pub fn push_chain_fault<A: Allocator>(
    fault: &HeaderSliceError,
    text: &mut String<A>,
) -> Result<(), AllocError>
    ensures { OnOk result (AppendsText text.old text.new (chain_fault_text fault.now)) }
{
    match fault {
        HeaderSliceError::Len(fault) => push_len_fault(fault, text),
        HeaderSliceError::Content(fault) => push_content_fault(fault, text),
    }
}

/// Appends the text of an error in a base header.
fn push_base_fault<A: Allocator>(
    fault: &ip::HeaderError,
    text: &mut String<A>,
) -> Result<(), AllocError>
    ensures { OnOk result (AppendsText text.old text.new (base_fault_text fault.now)) }
{
    match fault {
        ip::HeaderError::UnsupportedIpVersion { version_number } => {
            write!(text, "fault UnsupportedIpVersion {version_number}")
        }
        ip::HeaderError::Ipv4HeaderLengthSmallerThanHeader { ihl } => {
            write!(text, "fault Ipv4HeaderLengthSmallerThanHeader {ihl}")
        }
    }
}

/// Appends the text of a packet's error.
pub fn push_packet_fault<A: Allocator>(
    fault: &ip::SliceError,
    text: &mut String<A>,
) -> Result<(), AllocError>
    ensures { OnOk result (AppendsText text.old text.new (packet_fault_text fault.now)) }
{
    match fault {
        ip::SliceError::Len(fault) => push_len_fault(fault, text),
        ip::SliceError::IpHeaders(ip::HeadersError::Ip(fault)) => push_base_fault(fault, text),
        ip::SliceError::IpHeaders(ip::HeadersError::Ipv4Ext(fault)) => push_auth_fault(fault, text),
        ip::SliceError::IpHeaders(ip::HeadersError::Ipv6Ext(fault)) => {
            push_content_fault(fault, text)
        }
    }
}
