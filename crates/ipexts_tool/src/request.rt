//! The request in a line. A form of a line has a variant and an arm where the line is parsed, and an arm in `answer.rt`
//! where the request is answered.
ghost use Rattle.std.specs.Prelude.{◌≡◌, ◌≤◌, length};
ghost use Rattle.std.specs.Option.{option_map};
ghost use Rattle.ipexts_tool.specs.Lines.{max_line_len};
ghost use Rattle.ipexts_tool.specs.Request.{request_in, request_of, request_of_form};
ghost use Rattle.ipexts_tool.specs.LineFields.{spaced_fields};

use crate::line_fields::{BYTES_LEN, MAX_LINE_LEN, parse_hex_alone, parse_number_and_hex};
use crate::search::split_once;
use etherparse_ip::IpNumber;

/// The request in a line.
#[derive(Drop)]
pub enum Request<'a> {
    /// `exts6 N HEX`.
    Exts6(IpNumber, &'a [u8]),
    /// `exts4 N HEX`.
    Exts4(IpNumber, &'a [u8]),
    /// `rewrite6 N HEX`.
    Rewrite6(IpNumber, &'a [u8]),
    /// `rewriteall6 N HEX`.
    RewriteAll6(IpNumber, &'a [u8]),
    /// `packet HEX`.
    Packet(&'a [u8]),
    /// `dissect HEX`.
    Dissect(&'a [u8]),
}

/// Parses a line's request. Returns `None` if the line is too long or has no form. The bytes that its digits denote
/// are stored in `buffer`.
pub fn parse_request<'a>(line: &[u8], buffer: &'a mut [u8; BYTES_LEN]) -> Option<Request<'a>>
    ensures { option_map request_in result ≡ request_of line.now }
{
    if line.len() > MAX_LINE_LEN {
        return None;
    }
    let (form, arguments) = split_once(line, b' ')?;
    parse_form(form, arguments, buffer)
}

/// Parses the arguments of a form.
fn parse_form<'a>(
    form: &[u8],
    arguments: &[u8],
    buffer: &'a mut [u8; BYTES_LEN],
) -> Option<Request<'a>>
    requires { length arguments.now ≤ max_line_len }
    ensures { option_map request_in result ≡ request_of_form form.now (spaced_fields arguments.now) }
{
    if form == b"exts6".as_slice() {
        let (number, bytes) = parse_number_and_hex(arguments, buffer)?;
        return Some(Request::Exts6(number, bytes));
    }
    if form == b"exts4".as_slice() {
        let (number, bytes) = parse_number_and_hex(arguments, buffer)?;
        return Some(Request::Exts4(number, bytes));
    }
    if form == b"rewrite6".as_slice() {
        let (number, bytes) = parse_number_and_hex(arguments, buffer)?;
        return Some(Request::Rewrite6(number, bytes));
    }
    if form == b"rewriteall6".as_slice() {
        let (number, bytes) = parse_number_and_hex(arguments, buffer)?;
        return Some(Request::RewriteAll6(number, bytes));
    }
    if form == b"packet".as_slice() {
        let bytes = parse_hex_alone(arguments, buffer)?;
        return Some(Request::Packet(bytes));
    }
    if form == b"dissect".as_slice() {
        let bytes = parse_hex_alone(arguments, buffer)?;
        return Some(Request::Dissect(bytes));
    }
    None
}
