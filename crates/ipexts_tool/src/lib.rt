//! Answers lines with requests about IP extension headers: `run` reads them from any reader, and writes the answers to
//! any writer.
//!
//! - After `Ok` the reader is at its end, all lines are answered and the output is flushed.
//! - After `ToolError::Memory` the answers to some first lines were written, whole and flushed. A test shows that these
//!   are all lines before the one that lacked memory.
//! - After `ToolError::Io` nothing is known of the output.
//!
//! No clause is about readers and writers that don't know their bytes, such as standard input, nor says when an error
//! is returned. Tests show that a run succeeds, and reports an error where a read, a write, a flush or an allocation
//! failed and nowhere else. `answers_in_memory` in `check_uses/src/tool.rt` is a caller without a proof file.
//!
//! # Lines
//!
//! A line is the bytes before a newline. The last line may lack the newline; it counts unless it is empty. Fields are
//! separated by one space. `N` is 0 to 255 in decimal without leading zeros. `HEX` is an even number of hexadecimal
//! digits of either case, at least two, or `-` for no bytes. The answer to a line of more than 8,192 bytes, to an
//! empty line and to a line in none of the forms below is `bad line`.
//!
//! - `exts6 N HEX` parses the longest chain of IPv6 extension headers from number N at the start of the bytes (RFC
//!   8200, section 4). The answer has a line for each header, then `next N rest L`, then the end of the chain: `ok`,
//!   or the fault followed by ` in ` and its layer.
//! - `exts4 N HEX` parses the longest chain of IPv4 extension headers from number N at the start of the bytes: at
//!   most one authentication header (RFC 4302, section 2). The answer is that of `exts6`, but a fault has no layer.
//! - `rewrite6 N HEX` parses the longest chain of IPv6 extension headers with a free place for each of its headers,
//!   out of six places (RFC 8200, section 4.1), and writes it with its reserved bits set to zero. The answer is `next
//!   N rest L`, then `written HEX` in lower case, or `written -` for no bytes, then the end of the chain as in
//!   `exts6`. A number whose place is occupied ends the chain with `ok`.
//! - `rewriteall6 N HEX` parses the longest chain of IPv6 extension headers as `exts6` does into structs of these six
//!   places, and writes the structs one after the other. The answer is that of `rewrite6` with `runs I ` before it,
//!   where I is the number of structs.
//! - `packet HEX` parses the IP packet at the start of the bytes, of the version in its first byte (RFC 791, section
//!   3.1; RFC 8200, section 3). The answer is `ipv4 header H exts E payload P` or `ipv6 ..`, with the lengths of the
//!   base header, of the extension headers and of the payload in bytes; then `next N fragmented yes source S` or
//!   `no`, with the payload's number, whether it is a fragment, and the source of its length; then `ok`. If there is
//!   no packet, the answer is the fault alone, without a layer.
//!
//! - `dissect HEX` dissects the packet at the start of the bytes, whatever they are. It is not a form of etherparse's
//!   behaviour but this project's own. The answer is `ipv4 base H stated T` or `ipv6 ..`, where H is the length of the
//!   base header and T the packet's length that it states, in bytes, or `none`; a line for each header, with offsets
//!   from the start of the packet; `fragment none`, or `fragment K id I offset O`, where K is `atomic`, `first`,
//!   `middle` or `last` and O counts bytes; `next N rest L`; `missing M padding Q`, where M is the number of stated
//!   bytes that are not there, and Q that of bytes after the packet; then why the headers end: `payload`, `later
//!   fragment`, `truncated len R of L Slice Y at O`, or a fault. The last two end in ` in ` and the header's layer if
//!   it is an IPv6 extension header. Without a base header the answer is the last line alone.
//!
//! # Parts of answers
//!
//! Each line of an answer ends in a newline.
//!
//! - A header is `offset name length`, in bytes from the start of the first header, with the names `hopopt` (0),
//!   `route` (43), `frag` (44), `auth` (51) and `dstopts` (60).
//! - `next N rest L` has the number of what follows the headers, and its length in bytes.
//! - A fault is `fault len R of L S Y at O`: layer Y at offset O requires R bytes, and the length source S says that
//!   L are present; or `fault ZeroPayloadLen`; or `fault HopByHopNotAtStart`. A packet may also have `fault
//!   UnsupportedIpVersion V` or `fault Ipv4HeaderLengthSmallerThanHeader I`.
#![tactic(auto)]

ghost use Rattle.std.specs.Prelude.{ℕ, take, OnOk, IfOk, IfSome};
ghost use Rattle.std.specs.Bool.{OnFalse};
ghost use Rattle.std.specs.Io.KnownBytes.{Appends, IsAtEnd};
ghost use Rattle.ipexts_tool.specs.Answers.{answers, answers_to};
ghost use Rattle.ipexts_tool.specs.Lines.{lines_of};
ghost use Rattle.ipexts_tool.specs.Memory.{OnMemory};
ghost use Rattle.ipexts_tool.specs.Progress.{Advances, StopsWithin};

mod answer;
mod dissect;
mod exts4;
mod exts6;
mod faults;
mod feed;
mod hex_digits;
mod line_fields;
mod packet;
mod parts;
mod request;
mod rewrite6;
mod rewriteall6;
mod scratch;
mod search;
mod tool_error;

use arrayvec::ArrayVec;
use feed::{OpenLine, feed, finish};
use scratch::Scratch;
use std::alloc::Allocator;
use std::io;
use std::io::{ErrorKind, Read, Write};
pub use tool_error::ToolError;

/// The most bytes read at once.
const CHUNK_LEN: usize = 65536;

/// Answers each line of the input. Each answer is built first and written at once. The output is flushed after each
/// read that returned bytes and after a last line without a newline.
///
/// Returns `Io` if a read, a write or a flush fails; then nothing is known about the output. Also returns `Io` if the
/// input hasn't ended after 2^64 - 1 reads; a read that is interrupted is retried and counts. Returns `Memory` if
/// there is no memory for an answer; then the answers to all lines before have been written.
///
/// The clauses cover a reader and a writer whose bytes are known, as those of a slice and a vector are. They say
/// nothing about the contents of a file, standard input or standard output. Nor do they say when an error is
/// returned: that is tested.
pub fn run<A: Allocator + Copy, R: Read, W: Write>(
    alloc: A,
    input: &mut R,
    output: &mut W,
) -> Result<(), ToolError>
    ensures end { OnOk result (IsAtEnd (R.remaining input.new)) }
    ensures answers { OnOk result (IfSome (R.remaining input.old) (λ bytes.
        Appends (W.contents output.old) (W.contents output.new) (answers bytes))) }
    ensures memory { OnMemory result (IfSome (R.remaining input.old) (λ bytes. (n : ℕ)
        × Appends (W.contents output.old) (W.contents output.new)
        (answers_to (take n (lines_of bytes))))) }
{
    let mut chunk = [0; CHUNK_LEN];
    let mut line = ArrayVec::new();
    let mut scratch = Scratch::new(alloc);
    for _ in 0..u64::MAX {
        if !advance(input, output, &mut chunk, &mut line, &mut scratch)? {
            return finish(line.as_slice(), &mut scratch, output);
        }
    }
    Err(ToolError::Io(io::Error::from(ErrorKind::TimedOut)))
}

/// Reads once, answers the lines that end in the bytes read, and keeps in `line` what follows them. Returns whether
/// the input may have more.
fn advance<A: Allocator + Copy, R: Read, W: Write>(
    input: &mut R,
    output: &mut W,
    chunk: &mut [u8; CHUNK_LEN],
    line: &mut OpenLine,
    scratch: &mut Scratch<A>,
) -> Result<bool, ToolError>
    ensures ok { OnOk result (Advances (R.remaining input.old) (R.remaining input.new)
        (W.contents output.old) (W.contents output.new) line.old.items line.new.items) }
    ensures end { IfOk result (λ more. OnFalse more (IsAtEnd (R.remaining input.new))) }
    ensures memory { OnMemory result (StopsWithin (R.remaining input.old)
        (W.contents output.old) (W.contents output.new) line.old.items) }
{
    let n = match input.read(chunk) {
        Ok(0) => return Ok(false),
        Ok(n) => n,
        Err(e) if e.kind() == ErrorKind::Interrupted => return Ok(true),
        Err(e) => return Err(ToolError::Io(e)),
    };
    let answered = feed(&chunk[..n], line, scratch, output);
    // If memory ran out, the answers before are flushed too.
    output.flush()?;
    answered?;
    Ok(true)
}
