//! Chains read from bytes in memory and from streams, with and without a limit.
use crate::checks::{assert_bytes, assert_same, assert_that};
use crate::readers::{STREAMS, front, stream_of};
use ip_base::err::{Layer, LenError};
use ip_base::{IpNumber, LenSource};
use ip_ext_chains::err::ipv6_exts::{HeaderError, HeaderLimitedReadError, HeaderReadError};
use ip_ext_chains::{Ipv4Extensions, Ipv6Extensions};
use ip_ext_headers::io::{ExactRead, LimitedReader};
use std::io::ErrorKind;
use std::process::Abort;
use std::test::Fail;

/// The result of a read: the number that follows the headers, or the error. Headers that differ from the expected
/// ones are `Other`.
#[derive(Debug, PartialEq, Eq, Drop)]
enum Outcome {
    Leads(u8),
    Other,
    HopByHopNotAtStart,
    ZeroPayloadLen,
    Len(LenError),
    Io(ErrorKind),
}

fn content(error: HeaderError) -> Outcome {
    match error {
        HeaderError::HopByHopNotAtStart => Outcome::HopByHopNotAtStart,
        HeaderError::IpAuth(_) => Outcome::ZeroPayloadLen,
    }
}

/// Reads headers and compares them with those at the start of the bytes.
fn read<T: ExactRead>(reader: &mut T, start: u8, bytes: &[u8]) -> Outcome {
    let (expected, _, _, _) = Ipv6Extensions::from_slice_lax(IpNumber(start), bytes);
    match Ipv6Extensions::read(reader, IpNumber(start)) {
        Ok((exts, number)) if exts == expected => Outcome::Leads(number.0),
        Ok(_) => Outcome::Other,
        Err(HeaderReadError::Io(e)) => Outcome::Io(e.kind()),
        Err(HeaderReadError::Content(e)) => content(e),
    }
}

/// Reads headers within a limit and compares them as `read` does.
fn read_limited<T: ExactRead>(reader: &mut LimitedReader<T>, start: u8, bytes: &[u8]) -> Outcome {
    let (expected, _, _, _) = Ipv6Extensions::from_slice_lax(IpNumber(start), bytes);
    match Ipv6Extensions::read_limited(reader, IpNumber(start)) {
        Ok((exts, number)) if exts == expected => Outcome::Leads(number.0),
        Ok(_) => Outcome::Other,
        Err(HeaderLimitedReadError::Io(e)) => Outcome::Io(e.kind()),
        Err(HeaderLimitedReadError::Len(e)) => Outcome::Len(e),
        Err(HeaderLimitedReadError::Content(e)) => content(e),
    }
}

/// Returns the layer's offset, limit and number of bytes read, and the layer.
fn state<T>(reader: &LimitedReader<T>) -> (usize, usize, usize, Layer) {
    (
        reader.layer_offset(),
        reader.max_len(),
        reader.read_len(),
        reader.layer(),
    )
}

fn missing(required_len: usize, len: usize, layer: Layer, offset: usize) -> LenError {
    LenError {
        required_len,
        len,
        len_source: LenSource::Ipv6HeaderPayloadLen,
        layer,
        layer_start_offset: offset,
    }
}

/// A header in each of the six places, from number 0 to 17, and two more bytes.
const SIX: [u8; 54] = [
    60, 0, 1, 2, 3, 4, 5, 6, 43, 0, 1, 2, 3, 4, 5, 6, 44, 0, 1, 2, 3, 4, 5, 6, 51, 0, 0, 0, 1, 2,
    3, 4, 60, 1, 0, 0, 1, 2, 3, 4, 5, 6, 7, 8, 17, 0, 1, 2, 3, 4, 5, 6, 9, 9,
];

/// The layers of these headers and their requests.
const SIX_REQUESTS: [(Layer, &[usize]); 6] = [
    (Layer::Ipv6ExtHeader, &[2, 6]),
    (Layer::Ipv6ExtHeader, &[2, 6]),
    (Layer::Ipv6ExtHeader, &[2, 6]),
    (Layer::Ipv6FragHeader, &[8]),
    (Layer::IpAuthHeader, &[12, 0]),
    (Layer::Ipv6ExtHeader, &[2, 6]),
];

/// Returns the result of a read of the six headers if the reader has `there` bytes, and the state of the limit after
/// it. The first request that exceeds the limit or the bytes ends it; the limit is checked first.
fn expected(
    there: usize,
    limit: usize,
    at_end: ErrorKind,
) -> (Outcome, (usize, usize, usize, Layer)) {
    let mut begins = 0usize;
    let mut state = (40, limit, 0, Layer::Ipv6Header);
    for (layer, requests) in SIX_REQUESTS {
        let offset = begins.saturating_add(40);
        let max_len = limit.saturating_sub(begins);
        let mut came = 0usize;
        for request in requests {
            let needed = came.saturating_add(*request);
            state = (offset, max_len, came, layer);
            if max_len < needed {
                return (Outcome::Len(missing(needed, max_len, layer, offset)), state);
            }
            if there < begins.saturating_add(needed) {
                return (Outcome::Io(at_end), state);
            }
            came = needed;
        }
        state = (offset, max_len, came, layer);
        begins = begins.saturating_add(came);
    }
    (Outcome::Leads(17), state)
}

/// Reads the six headers at offset 40 within a limit.
fn six_within<T: ExactRead + Drop>(
    source: T,
    limit: u8,
) -> (Outcome, (usize, usize, usize, Layer)) {
    let max_len = usize::from(limit);
    let len_source = LenSource::Ipv6HeaderPayloadLen;
    let mut reader = LimitedReader::new(source, max_len, len_source, 40, Layer::Ipv6Header);
    let outcome = read_limited(&mut reader, 0, &SIX);
    (outcome, state(&reader))
}

/// Reads a prefix of the six headers within a limit, from memory and from each stream.
fn check_six_within(rt: &impl Abort, there: usize, limit: u8) {
    let source = front(&SIX, there);
    let most = usize::from(limit);
    let wanted = expected(there, most, ErrorKind::UnexpectedEof);
    let got = six_within(source, limit);
    assert_same(rt, ("memory", there, limit), got, wanted);
    for (is_slow, failure) in STREAMS {
        let wanted = expected(there, most, failure.unwrap_or(ErrorKind::UnexpectedEof));
        let got = six_within(stream_of(source, is_slow, failure), limit);
        assert_same(rt, ("stream", there, limit, is_slow, failure), got, wanted);
    }
}

/// Reads a prefix of the six headers, from memory and from each stream. The two bytes after them are left.
fn check_six(rt: &impl Abort, there: usize) {
    let source = front(&SIX, there);
    let left_over = front(&[9, 9], there.saturating_sub(52));
    let (wanted, _) = expected(there, 54, ErrorKind::UnexpectedEof);
    let mut left = source;
    assert_same(rt, ("memory", there), read(&mut left, 0, &SIX), wanted);
    assert_that(rt, ("memory", there), there < 52 || left == left_over);
    for (is_slow, failure) in STREAMS {
        let (wanted, _) = expected(there, 54, failure.unwrap_or(ErrorKind::UnexpectedEof));
        let mut stream = stream_of(source, is_slow, failure);
        assert_same(
            rt,
            ("stream", there, is_slow, failure),
            read(&mut stream, 0, &SIX),
            wanted,
        );
        assert_same(rt, ("stream", there), stream.failed(), there < 52);
        let left = stream.into_inner().bytes;
        assert_that(rt, ("stream", there), there < 52 || left == left_over);
    }
}

#[test]
fn every_prefix_of_six_headers(rt: HostRuntime) {
    for there in 0..55usize {
        check_six(&rt, there);
        for limit in 0..55u8 {
            check_six_within(&rt, there, limit);
        }
    }
}

/// Destination options, a routing header, and two bytes.
const TWO: [u8; 18] = [43, 0, 0, 0, 0, 0, 0, 0, 17, 0, 0, 0, 0, 0, 0, 0, 9, 9];

#[test]
fn two_headers_and_what_is_left(rt: HostRuntime) {
    let mut left = TWO.as_slice();
    assert_same(&rt, "memory", read(&mut left, 60, &TWO), Outcome::Leads(17));
    assert_bytes(&rt, "bytes left", left, &[9, 9]);
    let len_source = LenSource::Ipv6HeaderPayloadLen;
    let layer = Layer::Ipv6ExtHeader;
    for (limit, outcome, after, unread) in [
        (16u8, Outcome::Leads(17), (48, 8, 8, layer), 2usize),
        (
            12,
            Outcome::Len(missing(8, 4, layer, 48)),
            (48, 4, 2, layer),
            8,
        ),
    ] {
        let mut reader = LimitedReader::new(
            TWO.as_slice(),
            usize::from(limit),
            len_source,
            40,
            Layer::Ipv6Header,
        );
        assert_same(&rt, limit, read_limited(&mut reader, 60, &TWO), outcome);
        assert_same(&rt, limit, state(&reader), after);
        assert_same(&rt, limit, reader.take_reader().len(), unread);
    }
    let mut reader = LimitedReader::new(&TWO[..12], 16, len_source, 40, Layer::Ipv6Header);
    let eof = Outcome::Io(ErrorKind::UnexpectedEof);
    assert_same(
        &rt,
        "end of the bytes",
        read_limited(&mut reader, 60, &TWO),
        eof,
    );
    assert_same(&rt, "end of the bytes", state(&reader), (48, 8, 2, layer));
}

/// Start number, bytes, the number that a read returns, and the number of bytes that it leaves.
const ENDS: [(&str, u8, &[u8], u8, usize); 5] = [
    (
        "second destination options",
        60,
        &[60, 0, 0, 0, 0, 0, 0, 0, 17, 0, 0, 0, 0, 0, 0, 0],
        60,
        8,
    ),
    (
        "second fragment header, truncated",
        44,
        &[44, 0, 0, 0, 0, 0, 0, 1, 17, 0, 0],
        44,
        3,
    ),
    (
        "third destination options",
        60,
        &[
            43, 0, 0, 0, 0, 0, 0, 0, 60, 0, 0, 0, 0, 0, 0, 0, 60, 0, 0, 0, 0, 0, 0, 0, 1,
        ],
        60,
        1,
    ),
    ("no extension number", 17, &[43, 0, 0, 0, 0, 0, 0, 0], 17, 8),
    ("number of no header", 59, &[], 59, 0),
];

#[test]
fn bytes_after_the_last_header_are_left(rt: HostRuntime) {
    for (name, start, bytes, number, unread) in ENDS {
        let mut left = bytes;
        assert_same(
            &rt,
            name,
            read(&mut left, start, bytes),
            Outcome::Leads(number),
        );
        assert_same(&rt, name, left.len(), unread);
        let mut stream = stream_of(bytes, true, Some(ErrorKind::PermissionDenied));
        assert_same(
            &rt,
            name,
            read(&mut stream, start, bytes),
            Outcome::Leads(number),
        );
        assert_that(&rt, name, !stream.failed());
        assert_same(&rt, name, stream.into_inner().bytes.len(), unread);
        let mut reader = LimitedReader::new(bytes, 100, LenSource::Slice, 7, Layer::IpHeader);
        assert_same(
            &rt,
            name,
            read_limited(&mut reader, start, bytes),
            Outcome::Leads(number),
        );
        assert_same(&rt, name, reader.take_reader().len(), unread);
    }
}

#[test]
fn no_header_leaves_the_reader_as_it_was(rt: HostRuntime) {
    let mut reader = LimitedReader::new(SIX.as_slice(), 50, LenSource::Slice, 7, Layer::IpHeader);
    let mut three = [0; 3];
    assert!(rt; reader.read_exact(&mut three).is_ok());
    for start in [1, 17, 50, 58, 59, 255] {
        assert_same(
            &rt,
            start,
            read_limited(&mut reader, start, &[]),
            Outcome::Leads(start),
        );
        let answer = Ipv4Extensions::read_limited(&mut reader, IpNumber(start));
        assert!(rt; matches!(answer, Ok((exts, number)) if exts.is_empty() && number.0 == start));
    }
    assert_same(&rt, "state", state(&reader), (7, 50, 3, Layer::IpHeader));
    assert_same(&rt, "bytes left", reader.take_reader().len(), 51);
}

/// Hop-by-hop options that aren't first, and an authentication header of length 0.
const WRONG: [(u8, &[u8], Outcome, usize, Layer); 3] = [
    (
        60,
        &[0, 0, 0, 0, 0, 0, 0, 0, 17, 0, 0, 0, 0, 0, 0, 0],
        Outcome::HopByHopNotAtStart,
        8,
        Layer::Ipv6ExtHeader,
    ),
    (
        0,
        &[0, 0, 0, 0, 0, 0, 0, 0],
        Outcome::HopByHopNotAtStart,
        0,
        Layer::Ipv6ExtHeader,
    ),
    (
        51,
        &[17, 0, 0, 0, 0, 0, 0, 0, 0, 0, 0, 0, 1],
        Outcome::ZeroPayloadLen,
        1,
        Layer::IpAuthHeader,
    ),
];

#[test]
fn wrong_content(rt: HostRuntime) {
    for (start, bytes, outcome, unread, layer) in WRONG {
        let mut left = bytes;
        assert_same(&rt, start, &read(&mut left, start, &[]), &outcome);
        assert_same(&rt, start, left.len(), unread);
        let mut stream = stream_of(bytes, true, Some(ErrorKind::PermissionDenied));
        assert_same(&rt, start, &read(&mut stream, start, &[]), &outcome);
        assert_that(&rt, start, !stream.failed());
        let mut reader = LimitedReader::new(bytes, 20, LenSource::Slice, 0, Layer::Ipv6Header);
        assert_same(&rt, start, read_limited(&mut reader, start, &[]), outcome);
        let read_len = bytes.len().saturating_sub(unread);
        assert_same(&rt, start, state(&reader), (0, 20, read_len, layer));
        assert_same(&rt, start, reader.take_reader().len(), unread);
    }
}

/// An authentication header and a second one.
const AUTHENTICATED: [u8; 24] = [
    51, 1, 0, 0, 0, 0, 0, 1, 0, 0, 0, 2, 17, 1, 0, 0, 0, 0, 0, 3, 0, 0, 0, 4,
];

#[test]
fn an_ipv4_chain_has_one_header(rt: HostRuntime) -> Result<(), Fail> {
    let all = AUTHENTICATED.as_slice();
    let (parsed, _, _) = Ipv4Extensions::from_slice(IpNumber(51), all)?;
    let mut left = all;
    let answer = Ipv4Extensions::read(&mut left, IpNumber(51));
    assert!(rt; matches!(answer, Ok((exts, IpNumber(51))) if exts == parsed));
    assert_same(&rt, "bytes left", left.len(), 12);
    let mut reader = LimitedReader::new(all, 12, LenSource::Slice, 20, Layer::Ipv4Header);
    let answer = Ipv4Extensions::read_limited(&mut reader, IpNumber(51));
    assert!(rt; matches!(answer, Ok((exts, IpNumber(51))) if exts == parsed));
    assert_same(
        &rt,
        "state",
        state(&reader),
        (20, 12, 12, Layer::IpAuthHeader),
    );
    Ok(())
}
