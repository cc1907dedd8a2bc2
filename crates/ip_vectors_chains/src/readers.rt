//! Single headers, and an IPv4 chain, read from bytes in memory and from streams, with and without a limit.
use crate::checks::{assert_bytes, assert_same, assert_that};
use ip_base::err::{Layer, LenError};
use ip_base::{IpNumber, LenSource};
use ip_ext_chains::Ipv4Extensions;
use ip_ext_headers::err::io::LimitedReadError;
use ip_ext_headers::err::ip_auth::{HeaderLimitedReadError, HeaderReadError};
use ip_ext_headers::io::{ExactRead, LimitedReader, OverRead};
use ip_ext_headers::{IpAuthHeader, Ipv6FragmentHeader, Ipv6RawExtHeader};
use std::io;
use std::io::{ErrorKind, Read};
use std::process::Abort;
use std::test::Fail;

/// A stream that returns as many bytes as requested, or one at a time and each after an interrupted call. After its
/// bytes it ends or fails.
#[derive(Drop)]
pub(crate) struct Stream<'a> {
    pub(crate) bytes: &'a [u8],
    is_slow: bool,
    waits: bool,
    failure: Option<ErrorKind>,
    /// The bytes that follow the first failure. If there are none, the stream keeps failing.
    later: &'a [u8],
}

impl Read for Stream<'_> {
    fn read(&mut self, buf: &mut [u8]) -> io::Result<usize> {
        self.waits = self.is_slow && !self.waits;
        if self.waits {
            return Err(io::Error::from(ErrorKind::Interrupted));
        }
        if let (true, Some(kind)) = (self.bytes.is_empty(), self.failure) {
            if !self.later.is_empty() {
                self.failure = None;
                self.bytes = self.later;
            }
            return Err(io::Error::from(kind));
        }
        let most = if self.is_slow {
            buf.len().min(1)
        } else {
            buf.len()
        };
        let (given, rest) = self.bytes.split_at(self.bytes.len().min(most));
        buf[..given.len()].copy_from_slice(given);
        self.bytes = rest;
        Ok(given.len())
    }
}

/// Whether a stream is slow, and how it fails after its bytes, or that it ends.
pub(crate) const STREAMS: [(bool, Option<ErrorKind>); 4] = [
    (false, None),
    (true, None),
    (false, Some(ErrorKind::PermissionDenied)),
    (true, Some(ErrorKind::PermissionDenied)),
];

/// Returns a stream of these bytes.
pub(crate) fn stream_of(
    bytes: &[u8],
    is_slow: bool,
    failure: Option<ErrorKind>,
) -> OverRead<Stream<'_>> {
    OverRead::new(Stream {
        bytes,
        is_slow,
        waits: false,
        failure,
        later: &[],
    })
}

/// The header to read, and the call that reads it.
#[derive(Clone, Copy, Debug, PartialEq, Eq)]
enum Kind {
    Raw,
    Fragment,
    Authentication,
    /// An authentication header read into an existing one.
    AuthenticationOver,
    /// An authentication header read as an IPv4 chain.
    Ipv4Chain,
}

/// The result of a read. A header whose bytes differ from those read is `Other`.
#[derive(Debug, PartialEq, Eq, Drop)]
enum Outcome {
    Header,
    Other,
    Content,
    Len(LenError),
    Io(ErrorKind),
}

fn header_if(same: bool) -> Outcome {
    if same {
        Outcome::Header
    } else {
        Outcome::Other
    }
}

/// Returns `Header` if the chain has only this header and the number that follows it.
fn chain_if(exts: &Ipv4Extensions, number: IpNumber, bytes: &[u8]) -> Outcome {
    match &exts.auth {
        Some(header) => header_if(
            header.to_bytes().as_slice() == bytes && bytes.first() == Some(&number.0),
        ),
        None => Outcome::Other,
    }
}

fn of_limit(error: LimitedReadError) -> Outcome {
    match error {
        LimitedReadError::Io(e) => Outcome::Io(e.kind()),
        LimitedReadError::Len(e) => Outcome::Len(e),
    }
}

fn of_auth(error: HeaderReadError) -> Outcome {
    match error {
        HeaderReadError::Io(e) => Outcome::Io(e.kind()),
        HeaderReadError::Content(_) => Outcome::Content,
    }
}

fn of_limited_auth(error: HeaderLimitedReadError) -> Outcome {
    match error {
        HeaderLimitedReadError::Io(e) => Outcome::Io(e.kind()),
        HeaderLimitedReadError::Len(e) => Outcome::Len(e),
        HeaderLimitedReadError::Content(_) => Outcome::Content,
    }
}

/// Reads a header and compares it with these bytes, in which reserved bits are zero.
fn read<T: ExactRead>(kind: Kind, bytes: &[u8], reader: &mut T) -> Outcome {
    match kind {
        Kind::Raw => match Ipv6RawExtHeader::read(reader) {
            Ok(header) => header_if(header.to_bytes().as_slice() == bytes),
            Err(e) => Outcome::Io(e.kind()),
        },
        Kind::Fragment => match Ipv6FragmentHeader::read(reader) {
            Ok(header) => header_if(header.to_bytes().as_slice() == bytes),
            Err(e) => Outcome::Io(e.kind()),
        },
        Kind::Authentication => match IpAuthHeader::read(reader) {
            Ok(header) => header_if(header.to_bytes().as_slice() == bytes),
            Err(e) => of_auth(e),
        },
        Kind::AuthenticationOver => {
            let mut header = IpAuthHeader::default();
            match header.read_over(reader) {
                Ok(()) => header_if(header.to_bytes().as_slice() == bytes),
                Err(e) => of_auth(e),
            }
        }
        Kind::Ipv4Chain => match Ipv4Extensions::read(reader, IpNumber(51)) {
            Ok((exts, number)) => chain_if(&exts, number, bytes),
            Err(e) => of_auth(e),
        },
    }
}

/// Reads a header within a limit and compares it as `read` does.
fn read_limited<T: ExactRead>(kind: Kind, bytes: &[u8], reader: &mut LimitedReader<T>) -> Outcome {
    match kind {
        Kind::Raw => match Ipv6RawExtHeader::read_limited(reader) {
            Ok(header) => header_if(header.to_bytes().as_slice() == bytes),
            Err(e) => of_limit(e),
        },
        Kind::Fragment => match Ipv6FragmentHeader::read_limited(reader) {
            Ok(header) => header_if(header.to_bytes().as_slice() == bytes),
            Err(e) => of_limit(e),
        },
        Kind::Authentication => match IpAuthHeader::read_limited(reader) {
            Ok(header) => header_if(header.to_bytes().as_slice() == bytes),
            Err(e) => of_limited_auth(e),
        },
        Kind::AuthenticationOver => {
            let mut header = IpAuthHeader::default();
            match header.read_over_limited(reader) {
                Ok(()) => header_if(header.to_bytes().as_slice() == bytes),
                Err(e) => of_limited_auth(e),
            }
        }
        Kind::Ipv4Chain => match Ipv4Extensions::read_limited(reader, IpNumber(51)) {
            Ok((exts, number)) => chain_if(&exts, number, bytes),
            Err(e) => of_limited_auth(e),
        },
    }
}

/// Returns the first `len` bytes, or all if there are fewer.
pub(crate) fn front(bytes: &[u8], len: usize) -> &[u8] {
    bytes.get(..len).unwrap_or(bytes)
}

fn missing(required_len: usize, len: usize, layer: Layer) -> LenError {
    LenError {
        required_len,
        len,
        len_source: LenSource::Ipv6HeaderPayloadLen,
        layer,
        layer_start_offset: 40,
    }
}

const RAW: [u8; 24] = [
    43, 2, 1, 2, 3, 4, 5, 6, 7, 8, 9, 10, 11, 12, 13, 14, 15, 16, 17, 18, 19, 20, 21, 22,
];

const FRAGMENT: [u8; 8] = [17, 0, 0x12, 0x81, 1, 2, 3, 4];

const AUTHENTICATION: [u8; 20] = [6, 3, 0, 0, 0, 0, 0, 7, 0, 0, 0, 9, 1, 2, 3, 4, 5, 6, 7, 8];

/// A header, the lengths of its requests in order, and its layer.
type Case<'a> = (Kind, &'a [u8], &'a [usize], Layer);

const CASES: [Case<'static>; 5] = [
    (Kind::Raw, &RAW, &[2, 22], Layer::Ipv6ExtHeader),
    (Kind::Fragment, &FRAGMENT, &[8], Layer::Ipv6FragHeader),
    (
        Kind::Authentication,
        &AUTHENTICATION,
        &[12, 8],
        Layer::IpAuthHeader,
    ),
    (
        Kind::AuthenticationOver,
        &AUTHENTICATION,
        &[12, 8],
        Layer::IpAuthHeader,
    ),
    (
        Kind::Ipv4Chain,
        &AUTHENTICATION,
        &[12, 8],
        Layer::IpAuthHeader,
    ),
];

/// Returns the result of a read if the reader has `there` bytes, and the length of the requests that succeed. The
/// first request that exceeds the limit or the bytes ends it; the limit is checked first.
fn expected(
    requests: &[usize],
    layer: Layer,
    there: usize,
    limit: usize,
    at_end: ErrorKind,
) -> (Outcome, usize) {
    let mut came = 0usize;
    for request in requests {
        let needed = came.saturating_add(*request);
        if limit < needed {
            return (Outcome::Len(missing(needed, limit, layer)), came);
        }
        if there < needed {
            return (Outcome::Io(at_end), came);
        }
        came = needed;
    }
    (Outcome::Header, came)
}

/// Reads a header at offset 40 within a limit. Returns the result, `read_len`, and whether the header's layer started
/// at 40 with the whole limit.
fn within<T: ExactRead + Drop>(
    kind: Kind,
    bytes: &[u8],
    layer: Layer,
    source: T,
    limit: u16,
) -> (Outcome, usize, bool) {
    let limit = usize::from(limit);
    let source_of_limit = LenSource::Ipv6HeaderPayloadLen;
    let mut reader = LimitedReader::new(source, limit, source_of_limit, 40, Layer::Ipv6Header);
    let outcome = read_limited(kind, bytes, &mut reader);
    let began = reader.max_len() == limit
        && reader.layer_offset() == 40
        && reader.layer() == layer
        && reader.len_source() == source_of_limit;
    (outcome, reader.read_len(), began)
}

/// Returns the layer's offset and limit, and the number of bytes read in it.
fn extent<T>(reader: &LimitedReader<T>) -> (usize, usize, usize) {
    (reader.layer_offset(), reader.max_len(), reader.read_len())
}

/// Reads the first bytes of a header within a limit, from memory and from each stream.
fn check_within(rt: &impl Abort, case: Case<'_>, there: usize, limit: u16) {
    let (kind, bytes, requests, layer) = case;
    let source = front(bytes, there);
    let most = usize::from(limit);
    let (outcome, came) = expected(requests, layer, there, most, ErrorKind::UnexpectedEof);
    assert_same(
        rt,
        ("memory", kind, there, limit),
        within(kind, bytes, layer, source, limit),
        (outcome, came, true),
    );
    for (is_slow, failure) in STREAMS {
        let at_end = failure.unwrap_or(ErrorKind::UnexpectedEof);
        let (outcome, came) = expected(requests, layer, there, most, at_end);
        let stream = stream_of(source, is_slow, failure);
        assert_same(
            rt,
            ("stream", kind, there, limit, is_slow, failure),
            within(kind, bytes, layer, stream, limit),
            (outcome, came, true),
        );
    }
}

/// Reads the first bytes of a header, from memory and from each stream. A stream has failed if the header isn't
/// complete, but not if only what follows the header fails.
fn check_read(rt: &impl Abort, case: Case<'_>, there: usize) {
    let (kind, bytes, requests, layer) = case;
    let most = usize::MAX;
    let (outcome, _) = expected(requests, layer, there, most, ErrorKind::UnexpectedEof);
    let is_whole = outcome == Outcome::Header;
    let mut left = front(bytes, there);
    let got = read(kind, bytes, &mut left);
    assert_same(rt, ("memory", kind, there), got, outcome);
    assert_that(rt, ("memory", kind, there), !is_whole || left.is_empty());
    for (is_slow, failure) in STREAMS {
        let at_end = failure.unwrap_or(ErrorKind::UnexpectedEof);
        let (outcome, _) = expected(requests, layer, there, most, at_end);
        let mut stream = stream_of(front(bytes, there), is_slow, failure);
        assert_same(
            rt,
            ("stream", kind, there, is_slow, failure),
            read(kind, bytes, &mut stream),
            outcome,
        );
        assert_same(rt, ("stream", kind, there), stream.failed(), !is_whole);
    }
}

#[test]
fn every_prefix_of_a_header(rt: HostRuntime) {
    for case in CASES {
        for there in 0..26usize {
            check_read(&rt, case, there);
            for limit in 0..26u16 {
                check_within(&rt, case, there, limit);
            }
        }
    }
}

#[test]
fn longest_headers(rt: HostRuntime) {
    let mut raw = [0u8; 2048];
    for (place, byte) in raw.iter_mut().enumerate() {
        *byte = (place % 251) as u8;
    }
    raw[1] = 255;
    let mut authentication = raw;
    authentication[2] = 0;
    authentication[3] = 0;
    let authentication = front(&authentication, 1028);
    let layer = Layer::IpAuthHeader;
    let requests: &[usize] = &[12, 1016];
    let cases: [(Case<'_>, u16); 4] = [
        ((Kind::Raw, &raw, &[2, 2046], Layer::Ipv6ExtHeader), 2048),
        (
            (Kind::Authentication, authentication, requests, layer),
            1028,
        ),
        (
            (Kind::AuthenticationOver, authentication, requests, layer),
            1028,
        ),
        ((Kind::Ipv4Chain, authentication, requests, layer), 1028),
    ];
    for (case, len) in cases {
        for there in [len.saturating_sub(1), len] {
            check_read(&rt, case, usize::from(there));
            check_within(&rt, case, usize::from(there), len);
            check_within(&rt, case, 2048, there);
        }
    }
}

/// Returns a stream that fails once. The bytes that the failed request consumed are lost, and the next read starts
/// after them.
fn failing_once<'a>(lost: &'a [u8], is_slow: bool, later: &'a [u8]) -> OverRead<Stream<'a>> {
    OverRead::new(Stream {
        bytes: lost,
        is_slow,
        waits: false,
        failure: Some(ErrorKind::WouldBlock),
        later,
    })
}

#[test]
fn reads_go_on_after_a_failure(rt: HostRuntime) {
    let failure = Outcome::Io(ErrorKind::WouldBlock);
    for (kind, bytes, _, layer) in CASES {
        for there in 0..bytes.len() {
            for is_slow in [false, true] {
                let lost = front(bytes, there);
                let mut stream = failing_once(lost, is_slow, bytes);
                assert_same(
                    &rt,
                    (kind, there),
                    &read(kind, bytes, &mut stream),
                    &failure,
                );
                let next = read(kind, bytes, &mut stream);
                assert_same(&rt, (kind, there), next, Outcome::Header);
                assert_that(&rt, (kind, there), stream.failed());
                let stream = failing_once(lost, is_slow, bytes);
                let mut reader = LimitedReader::new(stream, 60, LenSource::Slice, 0, layer);
                let first = read_limited(kind, bytes, &mut reader);
                assert_same(&rt, ("limited", kind, there), &first, &failure);
                let next = read_limited(kind, bytes, &mut reader);
                assert_same(&rt, ("limited", kind, there), next, Outcome::Header);
            }
        }
    }
}

/// Checks that a read consumes no byte after the header.
#[test]
fn bytes_after_a_header_are_left(rt: HostRuntime) -> Result<(), Fail> {
    for (kind, bytes, _, layer) in CASES {
        let mut more = Vec::new(rt.alloc());
        more.extend_from_slice(bytes)?;
        more.extend_from_slice(&[1, 2])?;
        let mut left = more.as_slice();
        assert_same(&rt, kind, read(kind, bytes, &mut left), Outcome::Header);
        assert_bytes(&rt, kind, left, &[1, 2]);
        let mut stream = stream_of(more.as_slice(), true, None);
        assert_same(&rt, kind, read(kind, bytes, &mut stream), Outcome::Header);
        assert_bytes(&rt, kind, stream.into_inner().bytes, &[1, 2]);
        let all = more.as_slice();
        let mut reader = LimitedReader::new(all, 60, LenSource::Slice, 0, layer);
        assert_same(
            &rt,
            kind,
            read_limited(kind, bytes, &mut reader),
            Outcome::Header,
        );
        assert_bytes(&rt, kind, reader.take_reader(), &[1, 2]);
    }
    Ok(())
}

#[test]
fn limits_that_end_within_a_header(rt: HostRuntime) {
    let options = [17, 0, 0, 0, 0, 0, 0, 0];
    for (limit, required_len, read_len) in [(7usize, 8, 2), (1, 2, 0)] {
        let source = LenSource::Ipv6HeaderPayloadLen;
        let mut reader = LimitedReader::new(
            options.as_slice(),
            limit,
            source,
            40,
            Layer::Ipv6Header,
        );
        let fault = missing(required_len, limit, Layer::Ipv6ExtHeader);
        let answer = read_limited(Kind::Raw, &options, &mut reader);
        assert_same(&rt, limit, answer, Outcome::Len(fault));
        assert_same(&rt, limit, reader.read_len(), read_len);
    }
    let authentication = [17, 2, 0, 0, 0, 0, 0, 1, 0, 0, 0, 2, 9, 8, 7, 6];
    let bytes = authentication.as_slice();
    let mut reader = LimitedReader::new(bytes, 12, LenSource::Slice, 0, Layer::IpHeader);
    let fault = LenError {
        required_len: 16,
        len: 12,
        len_source: LenSource::Slice,
        layer: Layer::IpAuthHeader,
        layer_start_offset: 0,
    };
    let answer = read_limited(Kind::Authentication, bytes, &mut reader);
    assert_same(&rt, "authentication", answer, Outcome::Len(fault));
    assert_same(&rt, "read", reader.read_len(), 12);
    assert_bytes(&rt, "bytes left", reader.take_reader(), &[9, 8, 7, 6]);
}

#[test]
fn a_length_of_zero_is_content(rt: HostRuntime) {
    let bytes = [17, 0, 0, 0, 0, 0, 0, 1, 0, 0, 0, 2, 9, 8, 7, 6];
    let mut left = bytes.as_slice();
    assert_same(
        &rt,
        "memory",
        read(Kind::Authentication, &bytes, &mut left),
        Outcome::Content,
    );
    assert_bytes(&rt, "bytes left", left, &[9, 8, 7, 6]);
    for (limit, outcome, read_len) in [
        (16, Outcome::Content, 12),
        (12, Outcome::Content, 12),
        (11, Outcome::Len(missing(12, 11, Layer::IpAuthHeader)), 0),
    ] {
        let layer = Layer::IpAuthHeader;
        let answer = within(Kind::Authentication, &bytes, layer, bytes.as_slice(), limit);
        assert_same(&rt, limit, answer, (outcome, read_len, true));
    }
}

/// Checks headers in a row: each layer starts where the one before ended, with the rest of its limit.
#[test]
fn layers_follow_one_another(rt: HostRuntime) -> Result<(), Fail> {
    let mut bytes = Vec::new(rt.alloc());
    bytes.extend_from_slice(&RAW)?;
    bytes.extend_from_slice(&FRAGMENT)?;
    bytes.extend_from_slice(&AUTHENTICATION)?;
    let all = bytes.as_slice();
    let source = LenSource::Ipv6HeaderPayloadLen;
    let mut reader = LimitedReader::new(all, 51, source, 40, Layer::Ipv6Header);
    assert_same(
        &rt,
        "raw",
        read_limited(Kind::Raw, &RAW, &mut reader),
        Outcome::Header,
    );
    assert_same(&rt, "raw", extent(&reader), (40, 51, 24));
    assert_same(
        &rt,
        "fragment",
        read_limited(Kind::Fragment, &FRAGMENT, &mut reader),
        Outcome::Header,
    );
    assert_same(&rt, "fragment", extent(&reader), (64, 27, 8));
    let fault = LenError {
        required_len: 20,
        len: 19,
        len_source: source,
        layer: Layer::IpAuthHeader,
        layer_start_offset: 72,
    };
    let answer = read_limited(Kind::Authentication, &AUTHENTICATION, &mut reader);
    assert_same(&rt, "authentication", answer, Outcome::Len(fault));
    assert_same(&rt, "authentication", extent(&reader), (72, 19, 12));
    Ok(())
}

#[test]
fn reads_of_a_limited_reader(rt: HostRuntime) {
    let bytes = [1, 2, 3, 4, 5];
    let mut reader = LimitedReader::new(bytes.as_slice(), 4, LenSource::Slice, 7, Layer::IpHeader);
    let mut three = [0; 3];
    assert!(rt; reader.read_exact(&mut three).is_ok());
    assert_same(&rt, "first three", three, [1, 2, 3]);
    let mut two = [0; 2];
    let fault = LenError {
        required_len: 5,
        len: 4,
        len_source: LenSource::Slice,
        layer: Layer::IpHeader,
        layer_start_offset: 7,
    };
    let answer = reader.read_exact(&mut two).map_err(of_limit);
    assert_same(&rt, "over the limit", answer, Err(Outcome::Len(fault)));
    assert_same(&rt, "read", reader.read_len(), 3);
    reader.start_layer(Layer::Icmpv4);
    assert_same(&rt, "new layer", extent(&reader), (10, 1, 0));
    let mut one = [0; 1];
    assert!(rt; reader.read_exact(&mut one).is_ok());
    assert_same(&rt, "fourth", one, [4]);
    assert_same(&rt, "layer", reader.layer(), Layer::Icmpv4);
    assert_bytes(&rt, "bytes left", reader.take_reader(), &[5]);
}
