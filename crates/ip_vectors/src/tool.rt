//! Runs over memory, and over readers, writers and allocators that fail.
use ipexts_tool::{ToolError, run};
use linked_list_allocator::LocalHeap;
use std::alloc::{AllocError, Global};
use std::io;
use std::io::{ErrorKind, Read, Write};
use std::process::Abort;
use std::test::Fail;

/// A reader that returns one byte per call.
#[derive(Drop)]
struct Drip<'a> {
    bytes: &'a [u8],
    /// The number of interrupted calls before each byte.
    interruptions: u32,
    interrupted: u32,
    /// The error of the first read at the end.
    failure: Option<ErrorKind>,
    calls: u32,
}

impl Read for Drip<'_> {
    fn read(&mut self, buf: &mut [u8]) -> io::Result<usize> {
        self.calls = self.calls.wrapping_add(1);
        if self.interrupted < self.interruptions {
            self.interrupted += 1;
            return Err(io::Error::from(ErrorKind::Interrupted));
        }
        self.interrupted = 0;
        if let (Some((byte, rest)), Some(place)) = (self.bytes.split_first(), buf.first_mut()) {
            *place = *byte;
            self.bytes = rest;
            return Ok(1);
        }
        match self.failure.take() {
            Some(kind) => Err(io::Error::from(kind)),
            None => Ok(0),
        }
    }
}

/// A writer that counts its calls, and fails after some of each.
#[derive(Drop)]
struct Counter {
    written: Vec<u8>,
    writes: u32,
    writes_left: u32,
    flushes: u32,
    flushes_left: u32,
    flush_failure: ErrorKind,
}

impl Write for Counter {
    fn write(&mut self, buf: &[u8]) -> io::Result<usize> {
        if self.writes_left == 0 {
            return Err(io::Error::from(ErrorKind::PermissionDenied));
        }
        self.writes_left -= 1;
        self.writes = self.writes.wrapping_add(1);
        self.written.extend_from_slice(buf)?;
        Ok(buf.len())
    }

    fn flush(&mut self) -> io::Result<()> {
        if self.flushes_left == 0 {
            return Err(io::Error::from(self.flush_failure));
        }
        self.flushes_left -= 1;
        self.flushes = self.flushes.wrapping_add(1);
        Ok(())
    }
}

fn counting(alloc: Global) -> Counter {
    Counter {
        written: Vec::new(alloc),
        writes: 0,
        writes_left: u32::MAX,
        flushes: 0,
        flushes_left: u32::MAX,
        flush_failure: ErrorKind::BrokenPipe,
    }
}

fn dripping(bytes: &[u8]) -> Drip<'_> {
    Drip {
        bytes,
        interruptions: 0,
        interrupted: 0,
        failure: None,
        calls: 0,
    }
}

/// Returns whether a run failed with this kind of error.
fn failed_with(ended: &Result<(), ToolError>, kind: ErrorKind) -> bool {
    matches!(ended, Err(ToolError::Io(e)) if e.kind() == kind)
}

/// Returns the output of a run over these bytes.
pub(crate) fn output_of(alloc: Global, mut input: &[u8]) -> Result<Vec<u8>, ToolError> {
    let mut output = Vec::new(alloc);
    run(alloc, &mut input, &mut output)?;
    Ok(output)
}

/// Returns `part`, repeated `count` times.
fn repeated(alloc: Global, part: &[u8], count: usize) -> Result<Vec<u8>, AllocError> {
    let mut all = Vec::new(alloc);
    for _ in 0..count {
        all.extend_from_slice(part)?;
    }
    Ok(all)
}

/// A name, lines and their answers.
type Row = (&'static str, &'static [u8], &'static [u8]);

/// Single lines of all forms, and one without a form.
const ROWS: [Row; 9] = [
    (
        "a header and a fault after it",
        b"exts6 60 2b00000000000000\n",
        b"0 dstopts 8\nnext 43 rest 0\nfault len 8 of 0 Slice Ipv6ExtHeader at 8 in Ipv6RouteHeader\n",
    ),
    ("no header", b"exts6 17 00010203\n", b"next 17 rest 4\nok\n"),
    (
        "an IPv4 authentication header that isn't there",
        b"exts4 51 -\n",
        b"next 51 rest 0\nfault len 12 of 0 Slice IpAuthHeader at 0\n",
    ),
    (
        "no IPv4 extension header",
        b"exts4 0 -\n",
        b"next 0 rest 0\nok\n",
    ),
    (
        "reserved bits of a fragment header",
        b"rewrite6 44 11ff00e101020304\n",
        b"next 17 rest 0\nwritten 110000e101020304\nok\n",
    ),
    (
        "two runs",
        b"rewriteall6 60 2c000000000000002cff0000000000001100000000000000\n",
        b"runs 2 next 17 rest 0\nwritten 2c000000000000002c000000000000001100000000000000\nok\n",
    ),
    (
        "an IPv6 packet with a fault in its chain",
        b"packet 6000000000083c4000000000000000000000000000000000000000000000000000000000000000002b00000000000000\n",
        b"fault len 8 of 0 Ipv6HeaderPayloadLen Ipv6ExtHeader at 48\n",
    ),
    (
        "an IPv4 packet with an authentication header",
        b"packet 4500002000000000403300000a0000010a000002110100000000000000000000\n",
        b"ipv4 header 20 exts 12 payload 0\nnext 17 fragmented no source Ipv4HeaderTotalLen\nok\n",
    ),
    ("a number above 255", b"exts6 256 00\n", b"bad line\n"),
];

/// Further lines and their answers.
const MORE_ROWS: [Row; 21] = [
    (
        "hop by hop options again",
        b"exts6 0 0000000000000000\n",
        b"0 hopopt 8\nnext 0 rest 0\nfault HopByHopNotAtStart in Ipv6HopByHopHeader\n",
    ),
    (
        "an authentication header of length 0",
        b"exts6 51 110000000000000000000000\n",
        b"next 51 rest 12\nfault ZeroPayloadLen in IpAuthHeader\n",
    ),
    (
        "a truncated fragment header",
        b"exts6 44 2c00000000000001110000\n",
        b"0 frag 8\nnext 44 rest 3\nfault len 8 of 3 Slice Ipv6FragHeader at 8 in Ipv6FragHeader\n",
    ),
    (
        "digits of either case",
        b"exts6 60 2B0000000000000a\n",
        b"0 dstopts 8\nnext 43 rest 0\nfault len 8 of 0 Slice Ipv6ExtHeader at 8 in Ipv6RouteHeader\n",
    ),
    ("no bytes", b"exts6 255 -\n", b"next 255 rest 0\nok\n"),
    (
        "the last newline is missing",
        b"exts6 17 00010203\nexts6 17 00",
        b"next 17 rest 4\nok\nnext 17 rest 1\nok\n",
    ),
    ("no line", b"", b""),
    (
        "an IPv4 authentication header, and its number again",
        b"exts4 51 3301000000000000000000001101\n",
        b"0 auth 12\nnext 51 rest 2\nok\n",
    ),
    (
        "an IPv4 authentication header of length 0",
        b"exts4 51 110000000000000000000000\n",
        b"next 51 rest 12\nfault ZeroPayloadLen\n",
    ),
    (
        "reserved bits beside the flag of a fragment header",
        b"rewrite6 44 1100000601020304\n",
        b"next 17 rest 0\nwritten 1100000001020304\nok\n",
    ),
    (
        "reserved bits of an authentication header",
        b"rewrite6 51 1101ffff0000000100000002\n",
        b"next 17 rest 0\nwritten 110100000000000100000002\nok\n",
    ),
    (
        "an occupied place",
        b"rewrite6 60 3c000000000000001100000000000000\n",
        b"next 60 rest 8\nwritten 3c00000000000000\nok\n",
    ),
    (
        "nothing to write",
        b"rewrite6 0 -\n",
        b"next 0 rest 0\nwritten -\nfault len 8 of 0 Slice Ipv6ExtHeader at 0 in Ipv6HopByHopHeader\n",
    ),
    (
        "a header that is written, and a fault after it",
        b"rewrite6 60 2b00000000000000\n",
        b"next 43 rest 0\nwritten 2b00000000000000\nfault len 8 of 0 Slice Ipv6ExtHeader at 8 in Ipv6RouteHeader\n",
    ),
    (
        "an empty last run, and the fault after it",
        b"rewriteall6 44 2c00000000000000\n",
        b"runs 2 next 44 rest 0\nwritten 2c00000000000000\nfault len 8 of 0 Slice Ipv6FragHeader at 8 in Ipv6FragHeader\n",
    ),
    (
        "a packet without bytes",
        b"packet -\n",
        b"fault len 1 of 0 Slice IpHeader at 0\n",
    ),
    (
        "an IPv4 header length below the least",
        b"packet 44\n",
        b"fault Ipv4HeaderLengthSmallerThanHeader 4\n",
    ),
    (
        "another version",
        b"packet 10\n",
        b"fault UnsupportedIpVersion 1\n",
    ),
    (
        "an IPv6 packet with a fragment",
        b"packet 6000000000102c40000000000000000000000000000000000000000000000000000000000000000011000081010203040000000000000000\n",
        b"ipv6 header 40 exts 8 payload 8\nnext 17 fragmented yes source Ipv6HeaderPayloadLen\nok\n",
    ),
    (
        "an IPv6 packet whose fragment header has reserved bits alone",
        b"packet 6000000000102c40000000000000000000000000000000000000000000000000000000000000000011000006010203040000000000000000\n",
        b"ipv6 header 40 exts 8 payload 8\nnext 17 fragmented no source Ipv6HeaderPayloadLen\nok\n",
    ),
    (
        "a jumbogram with a fault in its chain",
        b"packet 6000000000003c4000000000000000000000000000000000000000000000000000000000000000002b00000000000000\n",
        b"fault len 8 of 0 Slice Ipv6ExtHeader at 48\n",
    ),
];

/// Returns the lines of `ROWS` and their answers. The last line has no newline.
fn lines_and_answers(alloc: Global) -> Result<(Vec<u8>, Vec<u8>), AllocError> {
    let mut lines = Vec::new(alloc);
    let mut answers = Vec::new(alloc);
    for (_, line, answer) in ROWS {
        lines.extend_from_slice(line)?;
        answers.extend_from_slice(answer)?;
    }
    lines.pop();
    Ok((lines, answers))
}

#[test]
fn known_answers(rt: HostRuntime) -> Result<(), Fail> {
    for rows in [ROWS.as_slice(), MORE_ROWS.as_slice()] {
        for (name, input, answer) in rows {
            assert_eq!(rt; output_of(rt.alloc(), input)?.as_slice(), *answer, "{name}");
        }
    }
    Ok(())
}

#[test]
fn bad_lines(rt: HostRuntime) -> Result<(), Fail> {
    let rows: [(&str, &[u8]); 25] = [
        ("an empty line", b""),
        ("a form alone", b"exts6"),
        ("a form and a space", b"exts6 "),
        ("no bytes field", b"exts6 17"),
        ("an empty bytes field", b"exts6 17 "),
        ("a field too many", b"exts6 17 00 00"),
        ("two spaces", b"exts6  17 00"),
        ("two spaces before the bytes", b"exts6 17  00"),
        ("a space at the front", b" exts6 17 00"),
        ("a space at the end", b"exts6 17 00 "),
        ("a carriage return", b"exts6 17 00\r"),
        ("a NUL", b"exts6 17 0\x000"),
        ("bytes that are no text", b"exts6 17 \xff\xfe"),
        ("another form", b"exts5 17 00"),
        ("a form in upper case", b"EXTS6 17 00"),
        ("a number of many digits", b"exts6 18446744073709551633 00"),
        ("a leading zero", b"exts6 017 00"),
        ("a plus", b"exts6 +17 00"),
        ("an odd number of digits", b"exts6 17 000"),
        ("a letter that is no digit", b"exts6 17 0g"),
        ("a dash and digits", b"exts6 17 -00"),
        ("a packet without a field", b"packet"),
        ("a packet with an empty field", b"packet "),
        ("a packet with a number", b"packet 17 00"),
        ("a packet of half a byte", b"packet 4"),
    ];
    for (name, line) in rows {
        let mut input = line.to_vec(rt.alloc())?;
        input.extend_from_slice(b"\nexts6 17 -\n")?;
        let output = output_of(rt.alloc(), &input)?;
        let answers = b"bad line\nnext 17 rest 0\nok\n".as_slice();
        assert_eq!(rt; output.as_slice(), answers, "{name}");
    }
    Ok(())
}

#[test]
fn long_lines(rt: HostRuntime) -> Result<(), Fail> {
    let mut digits = repeated(rt.alloc(), b"2c00000000000000", 511)?;
    digits.extend_from_slice(b"00000000\n")?;
    let mut input = b"exts6 0 ".to_vec(rt.alloc())?;
    input.extend_from_slice(&digits)?;
    assert_eq!(rt; input.len(), 8193, "8,192 bytes and a newline");
    let output = output_of(rt.alloc(), &input)?;
    assert!(rt; output.starts_with(b"0 hopopt 8\n8 frag 8\n"));
    let end =
        b"\n4080 frag 8\nnext 44 rest 4\nfault len 8 of 4 Slice Ipv6FragHeader at 4088 in Ipv6FragHeader\n";
    assert!(rt; output.ends_with(end));
    let lines = output.iter().filter(|byte| **byte == b'\n').count();
    assert_eq!(rt; lines, 513, "a line for each header and two more");

    let mut input = b"exts6 17 ".to_vec(rt.alloc())?;
    input.extend_from_slice(&digits)?;
    let output = output_of(rt.alloc(), &input)?;
    assert_eq!(rt; output.as_slice(), b"bad line\n".as_slice());

    let mut input = repeated(rt.alloc(), b"x", 200_000)?;
    input.extend_from_slice(b"\nexts6 17 -")?;
    let output = output_of(rt.alloc(), &input)?;
    let answers = b"bad line\nnext 17 rest 0\nok\n".as_slice();
    assert_eq!(rt; output.as_slice(), answers);
    Ok(())
}

#[test]
fn lines_come_in_pieces(rt: HostRuntime) -> Result<(), Fail> {
    let (lines, answers) = lines_and_answers(rt.alloc())?;
    for interruptions in [0, 1] {
        let mut output = Vec::new(rt.alloc());
        let mut input = Drip {
            interruptions,
            ..dripping(&lines)
        };
        run(rt.alloc(), &mut input, &mut output)?;
        assert_eq!(rt; output.as_slice(), answers.as_slice(), "{interruptions}");
    }
    // More bytes than a chunk, at once and one by one.
    let many = repeated(rt.alloc(), b"exts6 17 00010203\n", 5000)?;
    let answers = repeated(rt.alloc(), b"next 17 rest 4\nok\n", 5000)?;
    let output = output_of(rt.alloc(), &many)?;
    assert_eq!(rt; output.as_slice(), answers.as_slice());
    let mut output = Vec::new(rt.alloc());
    run(rt.alloc(), &mut dripping(&many), &mut output)?;
    assert_eq!(rt; output.as_slice(), answers.as_slice(), "90,000 reads");
    Ok(())
}

#[test]
fn a_million_reads(rt: HostRuntime) -> Result<(), Fail> {
    let mut output = Vec::new(rt.alloc());
    let mut input = Drip {
        interruptions: 91_000,
        ..dripping(b"exts6 17 -")
    };
    run(rt.alloc(), &mut input, &mut output)?;
    assert!(rt; input.calls > 1_000_000);
    assert_eq!(rt; output.as_slice(), b"next 17 rest 0\nok\n".as_slice());
    Ok(())
}

#[test]
fn each_answer_is_written_at_once(rt: HostRuntime) -> Result<(), Fail> {
    let many = repeated(rt.alloc(), b"exts6 17 00010203\n", 5000)?;
    let mut output = counting(rt.alloc());
    run(rt.alloc(), &mut many.as_slice(), &mut output)?;
    assert_eq!(rt; (output.writes, output.flushes), (5000, 2), "two chunks");

    let (lines, answers) = lines_and_answers(rt.alloc())?;
    let mut output = counting(rt.alloc());
    run(rt.alloc(), &mut lines.as_slice(), &mut output)?;
    let calls = (output.writes, output.flushes);
    assert_eq!(rt; calls, (9, 2), "a chunk and a last line");
    assert_eq!(rt; output.written.as_slice(), answers.as_slice());
    Ok(())
}

/// Returns whether the output is exactly the answers to the first `count` lines.
fn are_answers(output: &[u8], rows: &[Row], count: u32) -> bool {
    let mut left = output;
    for (_, _, answer) in rows.iter().take(count as usize) {
        match left.strip_prefix(*answer) {
            Some(rest) => left = rest,
            None => return false,
        }
    }
    left.is_empty()
}

#[test]
fn reads_that_fail(rt: HostRuntime) -> Result<(), Fail> {
    let (lines, _) = lines_and_answers(rt.alloc())?;
    for kind in [ErrorKind::PermissionDenied, ErrorKind::WouldBlock] {
        let mut output = Vec::new(rt.alloc());
        let mut input = Drip {
            failure: Some(kind),
            ..dripping(&lines)
        };
        let result = run(rt.alloc(), &mut input, &mut output);
        assert!(rt; failed_with(&result, kind), "{kind:?}");
        let calls = input.calls as usize;
        assert_eq!(rt; calls, lines.len() + 1, "{kind:?}: no call after it");
        let are_whole = are_answers(&output, &ROWS, 8);
        assert!(rt; are_whole, "{kind:?}: the last line has no answer");
    }
    Ok(())
}

#[test]
fn writes_that_fail(rt: HostRuntime) -> Result<(), Fail> {
    let (lines, _) = lines_and_answers(rt.alloc())?;
    for writes_left in 0..9 {
        let mut output = Counter {
            writes_left,
            ..counting(rt.alloc())
        };
        let result = run(rt.alloc(), &mut lines.as_slice(), &mut output);
        assert!(rt; failed_with(&result, ErrorKind::PermissionDenied));
        assert_eq!(rt; output.writes, writes_left, "no write after it");
        assert!(rt; are_answers(&output.written, &ROWS, writes_left));
    }
    for kind in [ErrorKind::BrokenPipe, ErrorKind::Interrupted] {
        for (flushes_left, writes) in [(0, 8), (1, 9)] {
            let mut output = Counter {
                flushes_left,
                flush_failure: kind,
                ..counting(rt.alloc())
            };
            let result = run(rt.alloc(), &mut lines.as_slice(), &mut output);
            let has_failed = failed_with(&result, kind);
            assert!(rt; has_failed, "{kind:?}: a flush isn't tried again");
            let calls = (output.writes, output.flushes);
            assert_eq!(rt; calls, (writes, flushes_left), "{kind:?}");
        }
    }
    Ok(())
}

/// A writer that takes a heap's memory, all but `room` bytes of it, after some number of answers.
#[derive(Drop)]
struct Taker<'a> {
    output: Counter,
    answers: u32,
    heap: &'a LocalHeap,
    room: usize,
    blocks: Vec<Vec<u8, &'a LocalHeap>>,
}

impl Taker<'_> {
    /// Takes the memory if it is time. The heap allocates blocks of multiples of 16 bytes.
    fn take(&mut self) -> Result<(), AllocError> {
        if self.output.writes != self.answers {
            return Ok(());
        }
        let room: Vec<u8, &LocalHeap> = Vec::with_capacity(self.heap, self.room)?;
        for _ in 0..self.heap.size() / 16 {
            match Vec::with_capacity(self.heap, 16) {
                Ok(block) => self.blocks.push(block)?,
                Err(_) => break,
            }
        }
        drop(room);
        Ok(())
    }
}

impl Write for Taker<'_> {
    fn write(&mut self, buf: &[u8]) -> io::Result<usize> {
        let len = self.output.write(buf)?;
        self.take()?;
        Ok(len)
    }

    fn flush(&mut self) -> io::Result<()> {
        self.output.flush()
    }
}

/// Runs over the lines. After `answers` of them there is memory for `room` bytes only: either the output is complete,
/// or it has the answers to the lines before the one that lacks memory. Returns the number of lines answered.
fn answered_within(
    rt: &impl Abort,
    alloc: Global,
    heap: &LocalHeap,
    rows: &[Row],
    answers: u32,
    room: usize,
) -> Result<u32, Fail> {
    let mut lines = Vec::new(alloc);
    for (_, line, _) in rows {
        lines.extend_from_slice(line)?;
    }
    let mut output = Taker {
        output: counting(alloc),
        answers,
        heap,
        room,
        blocks: Vec::new(alloc),
    };
    output.take()?;
    assert!(rt; answers > 0 || heap.free() == room);
    let ended = run(heap, &mut lines.as_slice(), &mut output);
    let writes = output.output.writes;
    assert!(rt; writes >= answers && are_answers(&output.output.written, rows, writes));
    assert_eq!(rt; output.output.flushes, 1);
    match ended {
        Ok(()) => assert!(rt; writes as usize == rows.len()),
        Err(ToolError::Memory(_)) => assert!(rt; (writes as usize) < rows.len()),
        Err(ToolError::Io(_)) => assert!(rt; false, "{answers}, {room}"),
    }
    Ok(writes)
}

#[test]
fn refused_memory_leaves_whole_answers(rt: HostRuntime) -> Result<(), Fail> {
    for first in 0..9u32 {
        let rows = &ROWS[first as usize..];
        for answers in 0..9u32.saturating_sub(first) {
            for room in 0..40usize {
                let heap = LocalHeap::new(rt.alloc(), 1024)?;
                let room_len = room * 16;
                let written = answered_within(&rt, rt.alloc(), &heap, rows, answers, room_len)?;
                // Each line needs memory if it is the first, and the fifth and sixth also after others.
                let next = first.saturating_add(answers);
                let is_refused = room == 0 && (answers == 0 || next == 4 || next == 5);
                assert!(rt; !is_refused || written == answers, "{first}, {answers}");
                let is_whole = written as usize == rows.len();
                assert!(rt; room < 39 || is_whole, "{first}, {answers}");
            }
        }
    }
    Ok(())
}

#[test]
fn errors_have_texts(rt: HostRuntime) -> Result<(), Fail> {
    let io = ToolError::from(io::Error::from(ErrorKind::TimedOut));
    let text = io.to_string(rt.alloc())?;
    assert_eq!(rt; text.as_str(), "input or output failed");
    let memory = ToolError::from(AllocError);
    assert_eq!(rt; memory.to_string(rt.alloc())?.as_str(), "out of memory");
    Ok(())
}
