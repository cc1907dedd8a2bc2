//! Tests: a pcapng file of two sections, written out by the draft (draft-ietf-opsawg-pcapng). tshark 4.0.17 reads its four frames
//! with these times, lengths, interfaces and link types.
use ip_captures::{
    BlockError, Capture, CaptureError, CaptureErrorFields, CaptureFields, Interface, Next,
    RecordFields,
};
use std::process::Abort;

/// A little-endian section with two interfaces, the second one of raw IP, with a name, in nanoseconds and an hour ahead, and two
/// enhanced packet blocks, with interface statistics between them; then a big-endian section with an interface of raw IP in
/// 1,024ths of a second, of which it captures 6 bytes, a simple and an obsolete packet block and one of type 0x0BAD.
const SECTIONS: [u8; 376] = [
    0x0a, 0x0d, 0x0d, 0x0a, 0x1c, 0x00, 0x00, 0x00, 0x4d, 0x3c, 0x2b, 0x1a, 0x01, 0x00, 0x00, 0x00,
    0xff, 0xff, 0xff, 0xff, 0xff, 0xff, 0xff, 0xff, 0x1c, 0x00, 0x00, 0x00, 0x01, 0x00, 0x00, 0x00,
    0x14, 0x00, 0x00, 0x00, 0x01, 0x00, 0x00, 0x00, 0xff, 0xff, 0x00, 0x00, 0x14, 0x00, 0x00, 0x00,
    0x01, 0x00, 0x00, 0x00, 0x34, 0x00, 0x00, 0x00, 0x65, 0x00, 0x00, 0x00, 0x00, 0x00, 0x00, 0x00,
    0x02, 0x00, 0x04, 0x00, 0x65, 0x74, 0x68, 0x30, 0x09, 0x00, 0x01, 0x00, 0x09, 0x00, 0x00, 0x00,
    0x0e, 0x00, 0x08, 0x00, 0xf0, 0xf1, 0xff, 0xff, 0xff, 0xff, 0xff, 0xff, 0x00, 0x00, 0x00, 0x00,
    0x34, 0x00, 0x00, 0x00, 0x06, 0x00, 0x00, 0x00, 0x34, 0x00, 0x00, 0x00, 0x00, 0x00, 0x00, 0x00,
    0x24, 0x0a, 0x06, 0x00, 0x00, 0x04, 0x9f, 0x19, 0x12, 0x00, 0x00, 0x00, 0x9f, 0x05, 0x00, 0x00,
    0x02, 0x00, 0x00, 0x00, 0x00, 0x01, 0x02, 0x00, 0x00, 0x00, 0x00, 0x02, 0x86, 0xdd, 0x60, 0x00,
    0x00, 0x00, 0x00, 0x00, 0x34, 0x00, 0x00, 0x00, 0x05, 0x00, 0x00, 0x00, 0x18, 0x00, 0x00, 0x00,
    0x00, 0x00, 0x00, 0x00, 0x00, 0x00, 0x00, 0x00, 0x00, 0x00, 0x00, 0x00, 0x18, 0x00, 0x00, 0x00,
    0x06, 0x00, 0x00, 0x00, 0x38, 0x00, 0x00, 0x00, 0x01, 0x00, 0x00, 0x00, 0x12, 0x9d, 0x97, 0x17,
    0x01, 0x5d, 0x3c, 0x2b, 0x07, 0x00, 0x00, 0x00, 0x28, 0x00, 0x00, 0x00, 0x60, 0x00, 0x00, 0x00,
    0x00, 0x00, 0x3b, 0x00, 0x01, 0x00, 0x05, 0x00, 0x68, 0x65, 0x6c, 0x6c, 0x6f, 0x00, 0x00, 0x00,
    0x00, 0x00, 0x00, 0x00, 0x38, 0x00, 0x00, 0x00, 0x0a, 0x0d, 0x0d, 0x0a, 0x00, 0x00, 0x00, 0x1c,
    0x1a, 0x2b, 0x3c, 0x4d, 0x00, 0x01, 0x00, 0x00, 0xff, 0xff, 0xff, 0xff, 0xff, 0xff, 0xff, 0xff,
    0x00, 0x00, 0x00, 0x1c, 0x00, 0x00, 0x00, 0x01, 0x00, 0x00, 0x00, 0x20, 0x00, 0x65, 0x00, 0x00,
    0x00, 0x00, 0x00, 0x06, 0x00, 0x09, 0x00, 0x01, 0x8a, 0x00, 0x00, 0x00, 0x00, 0x00, 0x00, 0x00,
    0x00, 0x00, 0x00, 0x20, 0x00, 0x00, 0x00, 0x03, 0x00, 0x00, 0x00, 0x18, 0x00, 0x00, 0x00, 0x28,
    0x60, 0x00, 0x00, 0x00, 0x00, 0x00, 0x00, 0x00, 0x00, 0x00, 0x00, 0x18, 0x00, 0x00, 0x00, 0x02,
    0x00, 0x00, 0x00, 0x28, 0x00, 0x00, 0xff, 0xff, 0x00, 0x00, 0x01, 0x95, 0x4f, 0xc5, 0x92, 0x00,
    0x00, 0x00, 0x00, 0x05, 0x00, 0x00, 0x00, 0x28, 0x60, 0x00, 0x00, 0x00, 0x00, 0x00, 0x00, 0x00,
    0x00, 0x00, 0x00, 0x28, 0x00, 0x00, 0x0b, 0xad, 0x00, 0x00, 0x00, 0x14, 0x60, 0x00, 0x00, 0x00,
    0x00, 0x00, 0x3b, 0x40, 0x00, 0x00, 0x00, 0x14,
];

/// Interface memory that describes nothing.
const NO_INTERFACE: Interface = Interface {
    link_type: 0,
    snap_len: 0,
    ticks_per_second: 0,
    offset: 0,
};

/// A frame as tshark reads it: its time, captured and original length, interface and link type.
type Row = (Option<u64>, usize, u32, u32, u16);

/// What tshark reads.
const FRAMES: [Row; 4] = [
    (Some(1_700_000_025_216_000_000), 18, 1439, 0, 1),
    (Some(1_699_996_485_716_000_001), 7, 40, 1, 101),
    (None, 6, 40, 0, 101),
    (Some(1_700_000_100_500_000_000), 5, 40, 0, 101),
];

/// The types of the other blocks, in order.
const OTHERS: [u32; 7] = [0x0a0d_0d0a, 1, 1, 5, 0x0a0d_0d0a, 1, 0x0bad];

/// Checks the frames and the other blocks of the file, of which each call of `next` is given at most `step` bytes more than it asks
/// for.
fn assert_sections(rt: &impl Abort, step: usize) {
    let mut memory = [NO_INTERFACE; 2];
    let Ok(Some(mut capture)) = Capture::begin(&SECTIONS, 56, &mut memory) else {
        assert!(rt; false, "no capture");
        return;
    };
    let mut frames = FRAMES.iter();
    let mut others = OTHERS.iter();
    let mut rest: &[u8] = &SECTIONS;
    let mut given = step;
    for _ in 0..64 {
        match capture.next(rest.get(..given).unwrap_or(rest)) {
            Next::Frame(frame) => {
                let row = (
                    frame.time,
                    frame.captured.len(),
                    frame.original_len,
                    frame.interface,
                    frame.link_type,
                );
                let wanted = frames.next().copied();
                assert!(rt; Some(row) == wanted, "{row:?} for {wanted:?}");
                rest = rest.get(frame.record_len..).unwrap_or(&[]);
                given = step;
            }
            Next::Block(block) => {
                let wanted = others.next().copied();
                assert!(rt;
                    Some(block.block_type) == wanted,
                    "{block:?} for {wanted:?}"
                );
                rest = rest.get(block.record_len..).unwrap_or(&[]);
                given = step;
            }
            Next::Needs(len) => {
                assert!(rt; len > given && len <= rest.len(), "{len} of {}", rest.len());
                given = len;
            }
            Next::Ended => break,
            Next::Error(error) => assert!(rt; false, "{error}"),
        }
    }
    assert!(rt;
        rest.is_empty() && frames.next().is_none() && others.next().is_none(),
        "{rest:?}"
    );
    assert!(rt;
        capture.offset() == SECTIONS.len() as u64,
        "{}",
        capture.offset()
    );
}

#[test]
fn sections_at_once_and_bit_by_bit(rt: HostRuntime) {
    assert_sections(&rt, SECTIONS.len());
    assert_sections(&rt, 1);
}

/// Checks the first error of the file with a byte changed, and its offset.
fn assert_error(
    rt: &impl Abort,
    place: usize,
    byte: u8,
    room: usize,
    offset: u64,
    error: BlockError,
) {
    let mut bytes = SECTIONS;
    if let Some(changed) = bytes.get_mut(place) {
        *changed = byte;
    }
    let mut memory = [NO_INTERFACE; 2];
    let Some(memory) = memory.get_mut(..room) else {
        return;
    };
    let Ok(Some(mut capture)) = Capture::begin(&bytes, 56, memory) else {
        assert!(rt; false, "no capture");
        return;
    };
    let mut rest: &[u8] = &bytes;
    for _ in 0..64 {
        match capture.next(rest) {
            Next::Frame(frame) => rest = rest.get(frame.record_len..).unwrap_or(&[]),
            Next::Block(block) => rest = rest.get(block.record_len..).unwrap_or(&[]),
            end => {
                let wanted = Next::Error(CaptureError::Block { offset, error });
                assert!(rt; end == wanted, "{end:?} for {wanted:?}");
                return;
            }
        }
    }
}

// The offsets and numbers are those of the bytes above.
#[test]
fn errors_of_blocks(rt: HostRuntime) {
    let unknown = BlockError::UnknownByteOrder;
    assert_error(&rt, 9, 0, 2, 0, unknown);
    assert_error(&rt, 4, 0x1d, 2, 0, BlockError::Length { len: 29 });
    assert_error(&rt, 4, 0x18, 2, 0, BlockError::Length { len: 24 });
    assert_error(
        &rt,
        5,
        1,
        2,
        0,
        BlockError::Long {
            len: 284,
            limit: 56,
        },
    );
    assert_error(
        &rt,
        24,
        0x20,
        2,
        0,
        BlockError::Lengths {
            first: 28,
            last: 32,
        },
    );
    assert_error(
        &rt,
        12,
        2,
        2,
        0,
        BlockError::UnknownVersion { major: 2, minor: 0 },
    );
    assert_error(
        &rt,
        14,
        1,
        2,
        0,
        BlockError::UnknownVersion { major: 1, minor: 1 },
    );
    assert_error(
        &rt,
        0,
        0x0a,
        1,
        48,
        BlockError::TooManyInterfaces { room: 1 },
    );
    assert_error(
        &rt,
        108,
        2,
        2,
        100,
        BlockError::UnknownInterface { interface: 2 },
    );
    assert_error(
        &rt,
        120,
        21,
        2,
        100,
        BlockError::LongPacket {
            captured_len: 21,
            left: 20,
        },
    );
    assert_error(
        &rt,
        275,
        2,
        2,
        292,
        BlockError::Surplus {
            captured_len: 2,
            left: 8,
        },
    );
    assert_error(
        &rt,
        66,
        64,
        2,
        48,
        BlockError::LongOption { len: 64, left: 28 },
    );
    assert_error(
        &rt,
        214,
        64,
        2,
        176,
        BlockError::LongOption { len: 64, left: 12 },
    );
}

/// The fields of nothing.
const NO_RECORD: RecordFields = RecordFields {
    offset: 0,
    len: 0,
    record_len: 0,
    needed: 0,
    time: 0,
    error: CaptureErrorFields {
        offset: 0,
        value: 0,
        other: 0,
        kind: 0,
    },
    original_len: 0,
    interface: 0,
    block_type: 0,
    link_type: 0,
    has_time: 0,
    kind: 0,
};

/// Returns the row of a frame in plain numbers.
fn row_of(record: &RecordFields) -> Row {
    let time = if record.has_time == 1 {
        Some(record.time)
    } else {
        None
    };
    (
        time,
        record.len,
        record.original_len,
        record.interface,
        record.link_type,
    )
}

/// The offset of each frame's captured bytes in its block.
const OFFSETS: [usize; 4] = [28, 28, 12, 28];

#[test]
fn sections_in_plain_numbers(rt: HostRuntime) {
    let mut memory = [NO_INTERFACE; 2];
    let mut capture = CaptureFields {
        interfaces: &mut memory,
        interface_count: 9,
        offset: 9,
        limit: 56,
        snap_len: 9,
        link_type: 9,
        form: 9,
        byte_order: 9,
    };
    let mut error = NO_RECORD.error;
    let has_begun = capture.begin(&SECTIONS, &mut error);
    assert!(rt; has_begun && error == NO_RECORD.error, "{error:?}");
    let mut frames = FRAMES.iter().zip(OFFSETS.iter());
    let mut others = OTHERS.iter();
    let mut rest: &[u8] = &SECTIONS;
    let mut record = NO_RECORD;
    for _ in 0..64 {
        capture.next(rest, &mut record);
        if record.kind == 0 {
            let found = (row_of(&record), record.offset);
            let wanted = frames.next().map(|(row, offset)| (*row, *offset));
            assert!(rt; Some(found) == wanted, "{found:?} for {wanted:?}");
        } else if record.kind == 1 {
            let wanted = others.next().copied();
            assert!(rt; Some(record.block_type) == wanted, "{record:?}");
        } else {
            break;
        }
        rest = rest.get(record.record_len..).unwrap_or(&[]);
    }
    assert!(rt; record.kind == 3 && rest.is_empty(), "{record:?}");
    assert!(rt;
        frames.next().is_none() && others.next().is_none(),
        "{rest:?}"
    );
}
