//! The tool's answers computed in the simplest way, in memory and line by line. It is slow, and shares no code with
//! the tool. It uses the library's parse and `write` for `rewrite6`, and its runs for `rewriteall6`.
ghost use Rattle.std.specs.Prelude.{◌≡◌, ◌==◌, ◌+◌, ◌^◌, ◌<◌, length, map};
ghost use Rattle.std.specs.Prelude.{[], ◌∷◌, slice_index, IfOk, OnOk};
ghost use Rattle.std.specs.List.{slice_split};
ghost use Rattle.std.specs.Option.{option_map};
ghost use Rattle.ipexts_tool.specs.Text.{AppendsText};
ghost use Rattle.ip_spec.specs.Chain.{bytes_of};
ghost use Rattle.ip_spec.specs.Encoding.{cleared_chain};
ghost use Rattle.check_reference.specs.PlainHeader.{plain_header_of};
ghost use Rattle.ipexts_tool.specs.Answers.{answers, answer_of};
ghost use Rattle.ipexts_tool.specs.Exts6.{exts6_answer};
ghost use Rattle.ipexts_tool.specs.Exts4.{exts4_answer};
ghost use Rattle.ipexts_tool.specs.Rewrite6.{rewrite6_answer};
ghost use Rattle.ipexts_tool.specs.RewriteAll6.{rewriteall6_answer};
ghost use Rattle.ipexts_tool.specs.Faults.{chain_fault_text};
ghost use Rattle.ipexts_tool.specs.LineFields.{decimal_of, bytes_of_hex, number_and_bytes};
ghost use Rattle.ipexts_tool.specs.Lines.{lines_of};
ghost use Rattle.ipexts_tool.specs.Request.{request_of_form, request_of_fields};
ghost use Rattle.ipexts_tool.specs.Parts.{header_name, header_line, header_lines, next_line};
ghost use Rattle.ipexts_tool.specs.Parts.{written_line, chain_end_line, ipv4_end_line, ok_line};
ghost use Rattle.hex.specs.Hex.{hex_digit_value, encode_lower, lower_digits};
ghost use Rattle.ip_base.specs.declared.len_source.LenSource.TheVariants.{Slice};
ghost use Rattle.ip_ext_headers.specs.HeaderFault.{auth_fault};
ghost use Rattle.ip_ext_chains.specs.Fitting.{fitting_chain};
ghost use Rattle.ip_ext_chains.specs.Ipv6Extensions.{value_of};
ghost use Rattle.check_reference.specs.Digits.{byte_of_digits};
ghost use Rattle.check_reference.specs.PlainRequest.{asked_by};

use crate::chain::{PlainHeader, next_len, plain_longest_chain};
use crate::dissect::push_dissect;
use crate::fault::plain_fault;
use crate::packet::push_packet;
use crate::runs::write_runs;
use ip_base::IpNumber;
use ip_base::err::Layer;
use ip_ext_chains::err::ipv6_exts::{HeaderError, HeaderSliceError};
use ip_ext_chains::{Ipv6Extensions, Ipv6ExtensionsSlice};
use std::alloc::{AllocError, Global};

/// The answer to a line that is not a request.
const BAD_LINE: &str = "bad line\n";

/// Returns the answers to all lines of `input`, in order. Returns an error only if memory runs out.
pub fn plain_answers(alloc: Global, input: &[u8]) -> Result<Vec<u8>, AllocError>
    ensures { IfOk result (λ text. text.items ≡ answers input.now) }
{
    let mut text = String::new(alloc);
    let lines = plain_lines(alloc, input)?;
    for line in &lines {
        push_answer(alloc, line, &mut text)?;
    }
    Ok(text.into_bytes())
}

/// Returns the parts of a text separated by a byte.
fn plain_parts<'a>(
    alloc: Global,
    separator: u8,
    text: &'a [u8],
) -> Result<Vec<&'a [u8]>, AllocError>
    ensures { IfOk result (λ parts.
        map (λ part. part.now) parts.items ≡ slice_split (λ b. b == separator) text.now) }
{
    text.split(|byte| *byte == separator).collect(alloc)
}

/// Returns the lines of an input.
#[tactic(auto, using(crate::proofs::AnswerLemmas::last_lines))]
fn plain_lines<'a>(alloc: Global, input: &'a [u8]) -> Result<Vec<&'a [u8]>, AllocError>
    ensures { IfOk result (λ lines. map (λ line. line.now) lines.items ≡ lines_of input.now) }
{
    let mut lines = plain_parts(alloc, b'\n', input)?;
    let Some(last) = lines.pop() else {
        return Ok(lines);
    };
    if last.is_empty() {
        return Ok(lines);
    }
    lines.push(last)?;
    Ok(lines)
}

/// Appends the answer to a line.
fn push_answer(alloc: Global, line: &[u8], text: &mut String) -> Result<(), AllocError>
    ensures { OnOk result (AppendsText text.old text.new (answer_of line.now)) }
{
    if line.len() > 8192 {
        return text.push_str(BAD_LINE);
    }
    let fields = plain_parts(alloc, b' ', line)?;
    match plain_request(alloc, &fields)? {
        Some(PlainRequest::Exts6(number, bytes)) => push_exts6(alloc, number, &bytes, text),
        Some(PlainRequest::Exts4(number, bytes)) => push_exts4(number, &bytes, text),
        Some(PlainRequest::Rewrite6(number, bytes)) => push_rewrite6(alloc, number, &bytes, text),
        Some(PlainRequest::RewriteAll6(number, bytes)) => {
            push_rewriteall6(alloc, number, &bytes, text)
        }
        Some(PlainRequest::Packet(bytes)) => push_packet(alloc, &bytes, text),
        Some(PlainRequest::Dissect(bytes)) => push_dissect(alloc, &bytes, text),
        None => text.push_str(BAD_LINE),
    }
}

/// The request in a line: a form, a number and bytes; or a packet's bytes.
#[derive(Drop)]
enum PlainRequest {
    Exts6(u8, Vec<u8>),
    Exts4(u8, Vec<u8>),
    Rewrite6(u8, Vec<u8>),
    RewriteAll6(u8, Vec<u8>),
    Packet(Vec<u8>),
    Dissect(Vec<u8>),
}

/// Parses the request in the fields of a line.
#[tactic(auto, using(crate::proofs::DissectLemmas::no_request_few, crate::proofs::DissectLemmas::no_request_many))]
fn plain_request(alloc: Global, fields: &[&[u8]]) -> Result<Option<PlainRequest>, AllocError>
    ensures { IfOk result (λ request. option_map asked_by request
        ≡ request_of_fields (map (λ field. field.now) fields.now)) }
{
    match fields {
        [form, digits] => plain_packet(alloc, form, digits),
        [form, number, digits] => plain_form(alloc, form, number, digits),
        _ => Ok(None),
    }
}

/// Parses the request of a form followed by one field.
fn plain_packet(
    alloc: Global,
    form: &[u8],
    digits: &[u8],
) -> Result<Option<PlainRequest>, AllocError>
    ensures { IfOk result (λ request. option_map asked_by request
        ≡ request_of_form form.now (digits.now ∷ [])) }
{
    if form == b"packet".as_slice() {
        let bytes = plain_bytes(alloc, digits)?;
        return Ok(bytes.map(PlainRequest::Packet));
    }
    if form == b"dissect".as_slice() {
        let bytes = plain_bytes(alloc, digits)?;
        return Ok(bytes.map(PlainRequest::Dissect));
    }
    Ok(None)
}

/// Parses the request of a form followed by two fields.
fn plain_form(
    alloc: Global,
    form: &[u8],
    number: &[u8],
    digits: &[u8],
) -> Result<Option<PlainRequest>, AllocError>
    ensures { IfOk result (λ request. option_map asked_by request
        ≡ request_of_form form.now (number.now ∷ digits.now ∷ [])) }
{
    if form == b"exts6".as_slice() {
        let asked = plain_arguments(alloc, number, digits)?;
        return Ok(asked.map(|(number, bytes)| PlainRequest::Exts6(number, bytes)));
    }
    if form == b"exts4".as_slice() {
        let asked = plain_arguments(alloc, number, digits)?;
        return Ok(asked.map(|(number, bytes)| PlainRequest::Exts4(number, bytes)));
    }
    if form == b"rewrite6".as_slice() {
        let asked = plain_arguments(alloc, number, digits)?;
        return Ok(asked.map(|(number, bytes)| PlainRequest::Rewrite6(number, bytes)));
    }
    if form == b"rewriteall6".as_slice() {
        let asked = plain_arguments(alloc, number, digits)?;
        return Ok(asked.map(|(number, bytes)| PlainRequest::RewriteAll6(number, bytes)));
    }
    Ok(None)
}

/// Parses the number and the bytes in two fields.
fn plain_arguments(
    alloc: Global,
    number: &[u8],
    digits: &[u8],
) -> Result<Option<(u8, Vec<u8>)>, AllocError>
    ensures { IfOk result (λ asked. option_map (λ a. (a.0, a.1.items)) asked
        ≡ number_and_bytes (number.now ∷ digits.now ∷ [])) }
{
    let Some(number) = plain_number(alloc, number)? else {
        return Ok(None);
    };
    let Some(bytes) = plain_bytes(alloc, digits)? else {
        return Ok(None);
    };
    Ok(Some((number, bytes)))
}

/// Parses a decimal numeral of a number below 256.
fn plain_number(alloc: Global, text: &[u8]) -> Result<Option<u8>, AllocError>
    ensures { IfOk result (λ number. number ≡ decimal_of text.now) }
{
    for number in 0..256u16 {
        if format!(in alloc; "{number}")?.as_bytes() == text {
            return Ok(Some(number as u8));
        }
    }
    Ok(None)
}

/// Returns the value of a hexadecimal digit of either case.
fn hex_digit_value(digit: u8) -> Option<u8>
    ensures { result ≡ hex_digit_value digit }
{
    match digit {
        b'0'..=b'9' => Some(digit - b'0'),
        b'a'..=b'f' => Some(digit - b'a' + 10),
        b'A'..=b'F' => Some(digit - b'A' + 10),
        _ => None,
    }
}

/// Returns the byte of two hexadecimal digits.
fn byte_of_digits(high: u8, low: u8) -> Option<u8>
    ensures { result ≡ byte_of_digits high low }
{
    Some(hex_digit_value(high)? * 16 + hex_digit_value(low)?)
}

/// Parses the hexadecimal digits of a text.
#[tactic(auto, using(crate::proofs::AnswerLemmas::bytes_so_far))]
fn plain_bytes(alloc: Global, text: &[u8]) -> Result<Option<Vec<u8>>, AllocError>
    ensures { IfOk result (λ bytes. option_map (λ b. b.items) bytes ≡ bytes_of_hex text.now) }
{
    let mut bytes = Vec::new(alloc);
    if text == b"-".as_slice() {
        return Ok(Some(bytes));
    }
    if text.is_empty() || text.len() % 2 == 1 {
        return Ok(None);
    }
    for pair in 0..text.len() / 2 {
        let Some(byte) = byte_of_digits(text[2 * pair], text[2 * pair + 1]) else {
            return Ok(None);
        };
        bytes.push(byte)?;
    }
    Ok(Some(bytes))
}

/// Appends the answer to `exts6` with this number and these bytes.
fn push_exts6(alloc: Global, number: u8, bytes: &[u8], text: &mut String) -> Result<(), AllocError>
    ensures { OnOk result (AppendsText text.old text.new (exts6_answer number bytes.now)) }
{
    let chain = plain_longest_chain(alloc, number, bytes)?;
    let offset = bytes.len() - chain.rest.len();
    push_headers(0, &chain.headers, text)?;
    push_next(chain.number, chain.rest.len(), text)?;
    let first = chain.headers.is_empty();
    push_chain_end(plain_fault(first, chain.number, chain.rest, offset), text)
}

/// Appends the answer to `exts4` with this number and these bytes.
fn push_exts4(number: u8, bytes: &[u8], text: &mut String) -> Result<(), AllocError>
    ensures { OnOk result (AppendsText text.old text.new (exts4_answer number bytes.now)) }
{
    if number != 51 {
        push_next(number, bytes.len(), text)?;
        return push_ok(text);
    }
    let Some(len) = next_len(true, 51, bytes) else {
        push_next(51, bytes.len(), text)?;
        return push_auth_fault(bytes, text);
    };
    push_header(0, 51, len, text)?;
    let (_, rest) = bytes.split_at(len);
    push_next(bytes[0], rest.len(), text)?;
    push_ok(text)
}

/// Appends the answer to `rewrite6` with this number and these bytes. The library parses and writes them; the lines
/// are built here.
fn push_rewrite6(
    alloc: Global,
    number: u8,
    bytes: &[u8],
    text: &mut String,
) -> Result<(), AllocError>
    ensures { OnOk result (AppendsText text.old text.new (rewrite6_answer number bytes.now)) }
{
    let (headers, next, rest, fault) = Ipv6Extensions::from_slice_lax(IpNumber(number), bytes);
    let written = rewritten(alloc, number, bytes, &headers)?;
    push_next(next.0, rest.len(), text)?;
    push_written(&written, text)?;
    push_chain_end(fault, text)
}

/// Writes the headers parsed from the bytes.
fn rewritten(
    alloc: Global,
    number: u8,
    bytes: &[u8],
    headers: &Ipv6Extensions,
) -> Result<Vec<u8>, AllocError>
    requires { headers.now ≡ value_of (fitting_chain number bytes.now) }
    ensures { IfOk result (λ written.
        written.items ≡ bytes_of (cleared_chain (fitting_chain number bytes.now))) }
{
    let mut written = Vec::new(alloc);
    if let Err(refused) = headers.write(&mut written, IpNumber(number)) {
        return Err(*refused.io().unwrap());
    }
    Ok(written)
}

/// Appends the answer to `rewriteall6` with this number and these bytes. The library parses, splits and writes them;
/// the lines are built here.
fn push_rewriteall6(
    alloc: Global,
    number: u8,
    bytes: &[u8],
    text: &mut String,
) -> Result<(), AllocError>
    ensures { OnOk result (AppendsText text.old text.new (rewriteall6_answer number bytes.now)) }
{
    let (count, written) = write_runs(alloc, IpNumber(number), bytes)?;
    let (_, next, rest, fault) = Ipv6ExtensionsSlice::from_slice_lax(IpNumber(number), bytes);
    write!(text, "runs {count} ")?;
    push_next(next.0, rest.len(), text)?;
    push_written(&written, text)?;
    push_chain_end(fault, text)
}

/// Appends the bytes written.
fn push_written(bytes: &[u8], text: &mut String) -> Result<(), AllocError>
    ensures { OnOk result (AppendsText text.old text.new (written_line bytes.now)) }
{
    if bytes.is_empty() {
        return text.push_str("written -\n");
    }
    text.push_str("written ")?;
    push_digits(bytes, text)?;
    text.push_str("\n")
}

/// Appends the hexadecimal digits of bytes.
#[tactic(auto, using(crate::proofs::AnswerLemmas::digits))]
fn push_digits(bytes: &[u8], text: &mut String) -> Result<(), AllocError>
    ensures { OnOk result (AppendsText text.old text.new (encode_lower bytes.now)) }
{
    for byte in bytes {
        push_digit(byte / 16, text)?;
        push_digit(byte % 16, text)?;
    }
    Ok(())
}

/// Appends the hexadecimal digit of a value below 16.
fn push_digit(value: u8, text: &mut String) -> Result<(), AllocError>
    requires { value < 16 }
    ensures { OnOk result (AppendsText text.old text.new (slice_index lower_digits value ∷ [])) }
{
    text.push(char::from(b"0123456789abcdef"[usize::from(value)]))
}

/// Appends the line of a header.
fn push_header(offset: usize, number: u8, len: usize, text: &mut String) -> Result<(), AllocError>
    ensures { OnOk result (AppendsText text.old text.new (header_line offset number len)) }
{
    let name = header_name(number);
    writeln!(text, "{offset} {name} {len}")
}

/// Appends that there is no error.
fn push_ok(text: &mut String) -> Result<(), AllocError>
    ensures { OnOk result (AppendsText text.old text.new ok_line) }
{
    text.push_str("ok\n")
}

/// Appends the error of an authentication header at the start of the bytes.
fn push_auth_fault(bytes: &[u8], text: &mut String) -> Result<(), AllocError>
    ensures { OnOk result
        (AppendsText text.old text.new (ipv4_end_line (auth_fault Slice (length bytes.now) 0 bytes.now))) }
{
    let Some((fault, _)) = plain_fault(true, 51, bytes, 0) else {
        return text.push_str("ok\n");
    };
    push_chain_fault(&fault, text)?;
    text.push_str("\n")
}

/// Appends the number of what follows the headers, and its length in bytes.
pub(crate) fn push_next(number: u8, len: usize, text: &mut String) -> Result<(), AllocError>
    ensures { OnOk result (AppendsText text.old text.new (next_line number len)) }
{
    writeln!(text, "next {number} rest {len}")
}

/// Appends a line for each header, the first of which is at the offset.
pub(crate) fn push_headers(
    start: usize,
    headers: &[PlainHeader<'_>],
    text: &mut String,
) -> Result<(), AllocError>
    requires { start + length (bytes_of (map plain_header_of headers.now)) < 2 ^ 64 }
    ensures { OnOk result
        (AppendsText text.old text.new (header_lines start (map plain_header_of headers.now))) }
{
    let mut offset = start;
    for header in headers {
        let len = header.bytes.len();
        push_header(offset, header.number, len, text)?;
        offset += len;
    }
    Ok(())
}

/// Returns the name of the headers of a number.
fn header_name(number: u8) -> &'static str
    ensures { result.now ≡ header_name number }
{
    match number {
        0 => "hopopt",
        43 => "route",
        44 => "frag",
        51 => "auth",
        60 => "dstopts",
        _ => "",
    }
}

/// Appends `ok`, or the error and its layer.
fn push_chain_end(
    fault: Option<(HeaderSliceError, Layer)>,
    text: &mut String,
) -> Result<(), AllocError>
    ensures { OnOk result (AppendsText text.old text.new (chain_end_line fault)) }
{
    let Some((fault, layer)) = fault else {
        return text.push_str("ok\n");
    };
    push_chain_fault(&fault, text)?;
    let layer = layer.name();
    writeln!(text, " in {layer}")
}

/// Appends an error.
fn push_chain_fault(fault: &HeaderSliceError, text: &mut String) -> Result<(), AllocError>
    ensures { OnOk result (AppendsText text.old text.new (chain_fault_text fault.now)) }
{
    match fault {
        HeaderSliceError::Len(e) => {
            let (required, len, offset) = (e.required_len, e.len, e.layer_start_offset);
            let (source, layer) = (e.len_source.name(), e.layer.name());
            write!(
                text,
                "fault len {required} of {len} {source} {layer} at {offset}"
            )
        }
        HeaderSliceError::Content(HeaderError::HopByHopNotAtStart) => {
            text.push_str("fault HopByHopNotAtStart")
        }
        HeaderSliceError::Content(HeaderError::IpAuth(_)) => text.push_str("fault ZeroPayloadLen"),
    }
}
