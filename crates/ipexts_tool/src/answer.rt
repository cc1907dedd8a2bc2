//! The answer to a line.
ghost use Rattle.std.specs.Prelude.{◌≡◌, OnOk, string_bytes};
ghost use Rattle.ipexts_tool.specs.Text.{AppendsText};
ghost use Rattle.ipexts_tool.specs.Answers.{answer_of};
ghost use Rattle.ipexts_tool.specs.Request.{request_in, answer_to};

use crate::dissect::push_dissect;
use crate::exts4::push_exts4;
use crate::exts6::push_exts6;
use crate::packet::push_packet;
use crate::request::{Request, parse_request};
use crate::rewrite6::push_rewrite6;
use crate::rewriteall6::push_rewriteall6;
use crate::scratch::Scratch;
use std::alloc::{AllocError, Allocator};

/// The answer to a line that is not a request.
const BAD_LINE: &str = "bad line\n";

/// Stores the answer to `line` in `scratch`.
pub fn answer<A: Allocator + Copy>(line: &[u8], scratch: &mut Scratch<A>) -> Result<(), AllocError>
    ensures { OnOk result (string_bytes scratch.new.text ≡ answer_of line.now) }
{
    scratch.text.clear();
    match parse_request(line, &mut scratch.bytes) {
        Some(request) => push_answer(scratch.alloc, request, &mut scratch.text),
        None => scratch.text.push_str(BAD_LINE),
    }
}

/// Appends the answer to a request.
fn push_answer<A: Allocator + Copy>(
    alloc: A,
    request: Request<'_>,
    text: &mut String<A>,
) -> Result<(), AllocError>
    ensures { OnOk result (AppendsText text.old text.new (answer_to (request_in request.entry))) }
{
    match request {
        Request::Exts6(number, bytes) => push_exts6(number, bytes, text),
        Request::Exts4(number, bytes) => push_exts4(number, bytes, text),
        Request::Rewrite6(number, bytes) => push_rewrite6(alloc, number, bytes, text),
        Request::RewriteAll6(number, bytes) => push_rewriteall6(alloc, number, bytes, text),
        Request::Packet(bytes) => push_packet(bytes, text),
        Request::Dissect(bytes) => push_dissect(bytes, text),
    }
}
