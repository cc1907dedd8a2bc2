//! Parts of answers that several forms share.
ghost use Rattle.std.specs.Prelude.{◌≡◌, OnOk};
ghost use Rattle.ipexts_tool.specs.Text.{AppendsText};
ghost use Rattle.ip_ext_slices.specs.Ipv4Longest.{authentication_chain};
ghost use Rattle.ipexts_tool.specs.Parts.{header_name, header_line, header_lines, next_line, written_line, ok_line, chain_end_line, ipv4_end_line};

use crate::faults::{push_auth_slice_fault, push_chain_fault};
use etherparse_ip::err::ipv6_exts::HeaderSliceError;
use etherparse_ip::err::{Layer, ip_auth};
use etherparse_ip::{IpAuthHeaderSlice, IpNumber, ip_number};
use std::alloc::{AllocError, Allocator};

/// Returns the name of the headers of a number.
fn header_name(number: IpNumber) -> &'static str
    ensures { result.now ≡ header_name number.0 }
{
    match number.0 {
        0 => "hopopt",
        43 => "route",
        44 => "frag",
        51 => "auth",
        60 => "dstopts",
        _ => "",
    }
}

/// Appends `offset name length` of a header.
pub fn push_header<A: Allocator>(
    offset: usize,
    number: IpNumber,
    len: usize,
    text: &mut String<A>,
) -> Result<(), AllocError>
    ensures { OnOk result (AppendsText text.old text.new (header_line offset number.0 len)) }
{
    let name = header_name(number);
    writeln!(text, "{offset} {name} {len}")
}

/// Appends a line for the authentication header of an IPv4 packet at the offset, if there is one.
pub fn push_authentication<A: Allocator>(
    header: Option<IpAuthHeaderSlice<'_>>,
    offset: usize,
    text: &mut String<A>,
) -> Result<(), AllocError>
    ensures { OnOk result
        (AppendsText text.old text.new (header_lines offset (authentication_chain header.entry))) }
{
    match header {
        Some(header) => push_header(offset, ip_number::AUTH, header.slice().len(), text),
        None => Ok(()),
    }
}

/// Appends the number of what follows the headers, and its length in bytes.
pub fn push_next<A: Allocator>(
    number: IpNumber,
    len: usize,
    text: &mut String<A>,
) -> Result<(), AllocError>
    ensures { OnOk result (AppendsText text.old text.new (next_line number.0 len)) }
{
    let number = number.0;
    writeln!(text, "next {number} rest {len}")
}

/// Appends the bytes written.
pub fn push_written<A: Allocator + Copy>(
    alloc: A,
    bytes: &[u8],
    text: &mut String<A>,
) -> Result<(), AllocError>
    ensures { OnOk result (AppendsText text.old text.new (written_line bytes.now)) }
{
    if bytes.is_empty() {
        return text.push_str("written -\n");
    }
    let digits = hex::encode(alloc, bytes)?;
    writeln!(text, "written {digits}")
}

/// Appends that there is no error.
pub fn push_ok<A: Allocator>(text: &mut String<A>) -> Result<(), AllocError>
    ensures { OnOk result (AppendsText text.old text.new ok_line) }
{
    text.push_str("ok\n")
}

/// Appends the end of an IPv6 chain.
pub fn push_chain_end<A: Allocator>(
    fault: Option<(HeaderSliceError, Layer)>,
    text: &mut String<A>,
) -> Result<(), AllocError>
    ensures { OnOk result (AppendsText text.old text.new (chain_end_line fault)) }
{
    let Some((fault, layer)) = fault else {
        return push_ok(text);
    };
    push_chain_fault(&fault, text)?;
    let layer = layer.name();
    writeln!(text, " in {layer}")
}

/// Appends the end of a chain of IPv4 extension headers.
pub fn push_ipv4_end<A: Allocator>(
    fault: Option<ip_auth::HeaderSliceError>,
    text: &mut String<A>,
) -> Result<(), AllocError>
    ensures { OnOk result (AppendsText text.old text.new (ipv4_end_line fault)) }
{
    let Some(fault) = fault else {
        return push_ok(text);
    };
    push_auth_slice_fault(&fault, text)?;
    text.push_str("\n")
}
