//! Tests: classic files of two frames, the first 20 and 7 bytes of a packet of 1,439, by mergecap 4.0.17 of Wireshark. The
//! big-endian one has the same numbers in the other byte order. tshark reads all four with these times and lengths.
use ip_captures::{CaptureError, ClassicCapture, Next, Variant};
use std::process::Abort;

/// Times in microseconds.
const MICROSECONDS: [u8; 83] = [
    0xd4, 0xc3, 0xb2, 0xa1, 0x02, 0x00, 0x04, 0x00, 0x00, 0x00, 0x00, 0x00, 0x00, 0x00, 0x00, 0x00,
    0x00, 0x00, 0x04, 0x00, 0x01, 0x00, 0x00, 0x00, 0x19, 0xf1, 0x53, 0x65, 0xc0, 0x4b, 0x03, 0x00,
    0x14, 0x00, 0x00, 0x00, 0x9f, 0x05, 0x00, 0x00, 0x02, 0x00, 0x00, 0x00, 0x00, 0x01, 0x02, 0x00,
    0x00, 0x00, 0x00, 0x02, 0x86, 0xdd, 0x60, 0x00, 0x00, 0x00, 0x05, 0x69, 0x55, 0xf1, 0x53, 0x65,
    0xe0, 0xec, 0x0a, 0x00, 0x07, 0x00, 0x00, 0x00, 0x9f, 0x05, 0x00, 0x00, 0x02, 0x00, 0x00, 0x00,
    0x00, 0x01, 0x02,
];

/// Times in nanoseconds.
const NANOSECONDS: [u8; 83] = [
    0x4d, 0x3c, 0xb2, 0xa1, 0x02, 0x00, 0x04, 0x00, 0x00, 0x00, 0x00, 0x00, 0x00, 0x00, 0x00, 0x00,
    0x00, 0x00, 0x04, 0x00, 0x01, 0x00, 0x00, 0x00, 0x19, 0xf1, 0x53, 0x65, 0x00, 0xe6, 0xdf, 0x0c,
    0x14, 0x00, 0x00, 0x00, 0x9f, 0x05, 0x00, 0x00, 0x02, 0x00, 0x00, 0x00, 0x00, 0x01, 0x02, 0x00,
    0x00, 0x00, 0x00, 0x02, 0x86, 0xdd, 0x60, 0x00, 0x00, 0x00, 0x05, 0x69, 0x55, 0xf1, 0x53, 0x65,
    0x01, 0x4b, 0xad, 0x2a, 0x07, 0x00, 0x00, 0x00, 0x9f, 0x05, 0x00, 0x00, 0x02, 0x00, 0x00, 0x00,
    0x00, 0x01, 0x02,
];

/// The modified format.
const MODIFIED: [u8; 99] = [
    0x34, 0xcd, 0xb2, 0xa1, 0x02, 0x00, 0x04, 0x00, 0x00, 0x00, 0x00, 0x00, 0x00, 0x00, 0x00, 0x00,
    0x00, 0x00, 0x04, 0x00, 0x01, 0x00, 0x00, 0x00, 0x19, 0xf1, 0x53, 0x65, 0xc0, 0x4b, 0x03, 0x00,
    0x14, 0x00, 0x00, 0x00, 0x9f, 0x05, 0x00, 0x00, 0x00, 0x00, 0x00, 0x00, 0x00, 0x00, 0x00, 0x00,
    0x02, 0x00, 0x00, 0x00, 0x00, 0x01, 0x02, 0x00, 0x00, 0x00, 0x00, 0x02, 0x86, 0xdd, 0x60, 0x00,
    0x00, 0x00, 0x05, 0x69, 0x55, 0xf1, 0x53, 0x65, 0xe0, 0xec, 0x0a, 0x00, 0x07, 0x00, 0x00, 0x00,
    0x9f, 0x05, 0x00, 0x00, 0x00, 0x00, 0x00, 0x00, 0x00, 0x00, 0x00, 0x00, 0x02, 0x00, 0x00, 0x00,
    0x00, 0x01, 0x02,
];

/// Times in nanoseconds, in big-endian byte order.
const BIG_ENDIAN: [u8; 83] = [
    0xa1, 0xb2, 0x3c, 0x4d, 0x00, 0x02, 0x00, 0x04, 0x00, 0x00, 0x00, 0x00, 0x00, 0x00, 0x00, 0x00,
    0x00, 0x04, 0x00, 0x00, 0x00, 0x00, 0x00, 0x01, 0x65, 0x53, 0xf1, 0x19, 0x0c, 0xdf, 0xe6, 0x00,
    0x00, 0x00, 0x00, 0x14, 0x00, 0x00, 0x05, 0x9f, 0x02, 0x00, 0x00, 0x00, 0x00, 0x01, 0x02, 0x00,
    0x00, 0x00, 0x00, 0x02, 0x86, 0xdd, 0x60, 0x00, 0x00, 0x00, 0x05, 0x69, 0x65, 0x53, 0xf1, 0x55,
    0x2a, 0xad, 0x4b, 0x01, 0x00, 0x00, 0x00, 0x07, 0x00, 0x00, 0x05, 0x9f, 0x02, 0x00, 0x00, 0x00,
    0x00, 0x01, 0x02,
];

/// The time of the first frame, in nanoseconds.
const FIRST: u64 = 1_700_000_025_216_000_000;

/// That of the second one, in microseconds.
const SECOND: u64 = 1_700_000_085_716_000_000;

/// The bytes of the first frame.
const CAPTURED: [u8; 20] = [
    0x02, 0x00, 0x00, 0x00, 0x00, 0x01, 0x02, 0x00, 0x00, 0x00, 0x00, 0x02, 0x86, 0xdd, 0x60, 0x00,
    0x00, 0x00, 0x05, 0x69,
];

/// Checks that the next frame has this time and these bytes, and returns the bytes after its record.
fn assert_frame<'a>(
    rt: &impl Abort,
    capture: &mut ClassicCapture,
    bytes: &'a [u8],
    time: u64,
    captured: &[u8],
) -> &'a [u8] {
    match capture.next(bytes) {
        Next::Frame(frame) => {
            assert!(rt; *frame.captured == *captured, "{:?}", frame.captured);
            assert!(rt; frame.time == Some(time), "{:?} for {time}", frame.time);
            assert!(rt; frame.original_len == 1439, "{}", frame.original_len);
            assert!(rt; frame.link_type == 1, "{}", frame.link_type);
            bytes.get(frame.record_len..).unwrap_or(&[])
        }
        other => {
            assert!(rt; false, "{other:?}");
            &[]
        }
    }
}

/// Checks that a file has this variant and these two frames, the second one at this time.
fn assert_file(rt: &impl Abort, bytes: &[u8], variant: Variant, second: u64) {
    let Ok(Some(mut capture)) = ClassicCapture::begin(bytes, 20) else {
        assert!(rt; false, "no header");
        return;
    };
    assert!(rt; capture.header.variant == variant, "{:?}", capture.header);
    assert!(rt; capture.header.snap_len == 262_144, "{:?}", capture.header);
    let rest = bytes.get(24..).unwrap_or(&[]);
    let rest = assert_frame(rt, &mut capture, rest, FIRST, &CAPTURED);
    let rest = assert_frame(rt, &mut capture, rest, second, &[2, 0, 0, 0, 0, 1, 2]);
    let end = capture.next(rest);
    assert!(rt; end == Next::Ended, "{end:?}");
    let counted = capture.offset;
    assert!(rt; counted == bytes.len() as u64, "{counted}");
}

#[test]
fn files_of_two_frames(rt: HostRuntime) {
    assert_file(&rt, &MICROSECONDS, Variant::Microseconds, SECOND);
    assert_file(&rt, &NANOSECONDS, Variant::Nanoseconds, SECOND + 1);
    assert_file(&rt, &MODIFIED, Variant::Modified, SECOND);
    assert_file(&rt, &BIG_ENDIAN, Variant::Nanoseconds, SECOND + 1);
}

// tcpdump counts one frame in the first 82 bytes of the file, and reports a truncated one after it.
#[test]
fn frames_of_a_truncated_file(rt: HostRuntime) {
    let Ok(Some(capture)) = ClassicCapture::begin(&MICROSECONDS, 20) else {
        assert!(&rt; false, "no header");
        return;
    };
    let mut frames = capture.frames(&MICROSECONDS[24..82]);
    assert!(&rt; frames.next().is_some());
    assert!(&rt; frames.next().is_none());
    match frames.end() {
        Some((rest, Next::Needs(len))) => {
            assert!(&rt; rest.len() == 22, "{}", rest.len());
            assert!(&rt; len == 23, "{len}");
        }
        other => assert!(&rt; false, "{other:?}"),
    }
}

#[test]
fn errors(rt: HostRuntime) {
    let short = ClassicCapture::begin(&MICROSECONDS[..23], 20);
    assert!(&rt; short == Ok(None), "{short:?}");
    let text = ClassicCapture::begin(b"GET / HTTP/1.1\r\nHost: a\r\n", 20);
    assert!(&rt; text == Err(CaptureError::UnknownMagic), "{text:?}");
    let Ok(Some(mut capture)) = ClassicCapture::begin(&MICROSECONDS, 19) else {
        assert!(&rt; false, "no header");
        return;
    };
    let long = CaptureError::LongRecord {
        offset: 24,
        captured_len: 20,
        limit: 19,
    };
    let next = capture.next(&MICROSECONDS[24..]);
    assert!(&rt; next == Next::Error(long), "{next:?}");
    assert!(&rt; capture.offset == 24, "{}", capture.offset);
}

/// Checks that the header of the file and that of its first record are written as they are in it.
fn assert_written(rt: &impl Abort, bytes: &[u8]) {
    let Ok(Some(mut capture)) = ClassicCapture::begin(bytes, 20) else {
        assert!(rt; false, "no header");
        return;
    };
    let (header, rest) = bytes.split_at_checked(24).unwrap_or((&[], &[]));
    let written = capture.header.to_bytes();
    assert!(rt; written.as_slice() == header, "{written:?}");
    let Next::Frame(frame) = capture.next(rest) else {
        assert!(rt; false, "no frame");
        return;
    };
    let record = capture.header.record_header(&frame);
    let written = record.as_ref().map(|it| it.as_slice());
    assert!(rt; written == rest.get(..16), "{record:?}");
}

#[test]
fn headers_written(rt: HostRuntime) {
    assert_written(&rt, &MICROSECONDS);
    assert_written(&rt, &NANOSECONDS);
    assert_written(&rt, &BIG_ENDIAN);
}
