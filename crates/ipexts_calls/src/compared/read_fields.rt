//! The result of a read, in C structs: the value as it is written, the number after it, the bytes left, the error,
//! and the state of the limit.
use crate::digests::chains::{layer_code, len_source_code};
use etherparse_ip::err::io::LimitedReadError;
use etherparse_ip::err::{Layer, LenError, ip_auth, ipv6_exts};
use etherparse_ip::io::{ExactRead, LimitedReader, OverRead};
use etherparse_ip::{
    IpAuthHeader, IpNumber, Ipv4Extensions, Ipv6Extensions, Ipv6FragmentHeader, Ipv6RawExtHeader,
    LenSource,
};
use std::alloc::Global;

/// The result of a read. A field without a value is 0.
#[repr(C)]
#[derive(Clone, Copy)]
pub struct IpextsRead {
    /// 0: none; 1: the limit leaves too few bytes; 2: an authentication header's length field is 0; 3: hop-by-hop
    /// options aren't first; 4: the reader failed.
    pub fault: u8,
    pub source: u8,
    pub layer: u8,
    /// The protocol number after the headers.
    pub next_header: u8,
    /// The occupied places, a bit for each.
    pub places: u8,
    pub required_len: usize,
    pub found_len: usize,
    pub offset: usize,
    /// The number of bytes that `write` appends for the value.
    pub written_len: usize,
    /// The number of bytes not yet read; 0 if the reader failed.
    pub left: usize,
    pub limit: IpextsLimit,
}

/// The state of a limited reader.
#[repr(C)]
#[derive(Clone, Copy)]
pub struct IpextsLimit {
    pub source: u8,
    pub layer: u8,
    pub max_len: usize,
    pub layer_offset: usize,
    pub read_len: usize,
}

/// The initial state of a limited reader.
#[repr(C)]
#[derive(Clone, Copy)]
pub struct IpextsStart {
    /// 0: the slice; 1: an IPv4 header; 2: an IPv6 header.
    pub source: u8,
    pub max_len: u32,
    pub layer_offset: u32,
    /// The number of bytes read before the header, in the reader's initial layer.
    pub before: u8,
}

/// No limit.
const NO_LIMIT: IpextsLimit = IpextsLimit {
    source: 0,
    layer: 0,
    max_len: 0,
    layer_offset: 0,
    read_len: 0,
};

/// A read without a result.
const NOTHING: IpextsRead = IpextsRead {
    fault: 0,
    source: 0,
    layer: 0,
    next_header: 0,
    places: 0,
    required_len: 0,
    found_len: 0,
    offset: 0,
    written_len: 0,
    left: 0,
    limit: NO_LIMIT,
};

/// The code of a reader's failure.
const IO: u8 = 4;

/// The value to read, by a number: 0 the uniform format (RFC 6564), 1 authentication, 2 fragment, 3 the IPv4 headers,
/// otherwise the IPv6 ones from the number `start`.
#[derive(Clone, Copy)]
struct What {
    kind: u8,
    start: IpNumber,
}

/// Returns an error without parts.
fn refused(fault: u8) -> IpextsRead {
    IpextsRead { fault, ..NOTHING }
}

/// Returns a length error.
fn too_few(fault: &LenError) -> IpextsRead {
    IpextsRead {
        fault: 1,
        source: len_source_code(&fault.len_source),
        layer: layer_code(&fault.layer),
        required_len: fault.required_len,
        found_len: fault.len,
        offset: fault.layer_start_offset,
        ..NOTHING
    }
}

/// Returns a limited reader's error.
fn of_limited_fault(fault: &LimitedReadError) -> IpextsRead {
    match fault {
        LimitedReadError::Io(_) => refused(IO),
        LimitedReadError::Len(fault) => too_few(fault),
    }
}

/// Returns a chain's content error.
fn of_content(fault: &ipv6_exts::HeaderError) -> IpextsRead {
    match fault {
        ipv6_exts::HeaderError::HopByHopNotAtStart => refused(3),
        ipv6_exts::HeaderError::IpAuth(ip_auth::HeaderError::ZeroPayloadLen) => refused(2),
    }
}

/// Returns the error of a limited read of an authentication header.
fn of_auth_fault(fault: &ip_auth::HeaderLimitedReadError) -> IpextsRead {
    match fault {
        ip_auth::HeaderLimitedReadError::Io(_) => refused(IO),
        ip_auth::HeaderLimitedReadError::Len(fault) => too_few(fault),
        ip_auth::HeaderLimitedReadError::Content(ip_auth::HeaderError::ZeroPayloadLen) => refused(
            2,
        ),
    }
}

/// Returns the error of a read of an authentication header without a limit.
fn of_auth_read_fault(fault: &ip_auth::HeaderReadError) -> IpextsRead {
    match fault {
        ip_auth::HeaderReadError::Io(_) => refused(IO),
        ip_auth::HeaderReadError::Content(ip_auth::HeaderError::ZeroPayloadLen) => refused(2),
    }
}

/// Returns the result for a single header with this next header.
fn of_header(next_header: IpNumber) -> IpextsRead {
    IpextsRead {
        next_header: next_header.0,
        ..NOTHING
    }
}

/// Returns the result for IPv4 headers.
fn of_ipv4(
    headers: &Ipv4Extensions,
    start: IpNumber,
    number: IpNumber,
    written: &mut Vec<u8>,
) -> IpextsRead {
    let _ = headers.write(written, start);
    IpextsRead {
        next_header: number.0,
        places: u8::from(headers.auth.is_some()),
        ..NOTHING
    }
}

/// Returns the result for IPv6 headers.
fn of_ipv6(
    exts: &Ipv6Extensions,
    start: IpNumber,
    number: IpNumber,
    written: &mut Vec<u8>,
) -> IpextsRead {
    let _ = exts.write(written, start);
    let last = match &exts.routing {
        Some(routing) => 4 | (u8::from(routing.final_destination_options.is_some()) << 5),
        None => 0,
    };
    IpextsRead {
        next_header: number.0,
        places: u8::from(exts.hop_by_hop_options.is_some())
            | (u8::from(exts.destination_options.is_some()) << 1)
            | (u8::from(exts.fragment.is_some()) << 3)
            | (u8::from(exts.auth.is_some()) << 4)
            | last,
        ..NOTHING
    }
}

/// Reads one value.
fn read<T: ExactRead>(what: What, reader: &mut T, written: &mut Vec<u8>) -> IpextsRead {
    match what.kind {
        0 => match Ipv6RawExtHeader::read(reader) {
            Ok(header) => {
                let _ = header.write(written);
                of_header(header.next_header)
            }
            Err(_) => refused(IO),
        },
        1 => match IpAuthHeader::read(reader) {
            Ok(header) => {
                let _ = header.write(written);
                of_header(header.next_header)
            }
            Err(fault) => of_auth_read_fault(&fault),
        },
        2 => match Ipv6FragmentHeader::read(reader) {
            Ok(header) => {
                let _ = header.write(written);
                of_header(header.next_header)
            }
            Err(_) => refused(IO),
        },
        3 => match Ipv4Extensions::read(reader, what.start) {
            Ok((headers, number)) => of_ipv4(&headers, what.start, number, written),
            Err(fault) => of_auth_read_fault(&fault),
        },
        _ => match Ipv6Extensions::read(reader, what.start) {
            Ok((exts, number)) => of_ipv6(&exts, what.start, number, written),
            Err(ipv6_exts::HeaderReadError::Io(_)) => refused(IO),
            Err(ipv6_exts::HeaderReadError::Content(fault)) => of_content(&fault),
        },
    }
}

/// Reads one value within a limit.
fn read_limited<T: ExactRead>(
    what: What,
    reader: &mut LimitedReader<T>,
    written: &mut Vec<u8>,
) -> IpextsRead {
    match what.kind {
        0 => match Ipv6RawExtHeader::read_limited(reader) {
            Ok(header) => {
                let _ = header.write(written);
                of_header(header.next_header)
            }
            Err(fault) => of_limited_fault(&fault),
        },
        1 => match IpAuthHeader::read_limited(reader) {
            Ok(header) => {
                let _ = header.write(written);
                of_header(header.next_header)
            }
            Err(fault) => of_auth_fault(&fault),
        },
        2 => match Ipv6FragmentHeader::read_limited(reader) {
            Ok(header) => {
                let _ = header.write(written);
                of_header(header.next_header)
            }
            Err(fault) => of_limited_fault(&fault),
        },
        3 => match Ipv4Extensions::read_limited(reader, what.start) {
            Ok((headers, number)) => of_ipv4(&headers, what.start, number, written),
            Err(fault) => of_auth_fault(&fault),
        },
        _ => match Ipv6Extensions::read_limited(reader, what.start) {
            Ok((exts, number)) => of_ipv6(&exts, what.start, number, written),
            Err(ipv6_exts::HeaderLimitedReadError::Io(_)) => refused(IO),
            Err(ipv6_exts::HeaderLimitedReadError::Len(fault)) => too_few(&fault),
            Err(ipv6_exts::HeaderLimitedReadError::Content(fault)) => of_content(&fault),
        },
    }
}

/// Returns a limited reader with this initial state.
fn begin<T>(reader: T, start: &IpextsStart) -> LimitedReader<T> {
    let source = match start.source {
        0 => LenSource::Slice,
        1 => LenSource::Ipv4HeaderTotalLen,
        _ => LenSource::Ipv6HeaderPayloadLen,
    };
    let (max_len, layer_offset) = (start.max_len as usize, start.layer_offset as usize);
    LimitedReader::new(reader, max_len, source, layer_offset, Layer::Ipv6Header)
}

/// Reads some bytes and then one value, and returns the state of the limit after it.
fn read_after<T: ExactRead>(
    what: What,
    start: &IpextsStart,
    reader: &mut LimitedReader<T>,
    written: &mut Vec<u8>,
) -> IpextsRead {
    let mut buffer = [0; 255];
    let before = usize::from(start.before).min(255);
    let told = match reader.read_exact(&mut buffer[..before]) {
        Ok(()) => read_limited(what, reader, written),
        Err(fault) => of_limited_fault(&fault),
    };
    IpextsRead {
        limit: IpextsLimit {
            source: len_source_code(&reader.len_source()),
            layer: layer_code(&reader.layer()),
            max_len: reader.max_len(),
            layer_offset: reader.layer_offset(),
            read_len: reader.read_len(),
        },
        ..told
    }
}

/// Returns the result with the bytes left and the bytes written.
fn with_ends(told: IpextsRead, left: usize, appended: &[u8], written: &mut [u8]) -> IpextsRead {
    let len = appended.len().min(written.len());
    written[..len].copy_from_slice(&appended[..len]);
    IpextsRead {
        left: if told.fault == IO { 0 } else { left },
        written_len: appended.len(),
        ..told
    }
}

/// Reads a value from bytes in memory, directly or through the standard library's reader of them.
#[unsafe(no_mangle)]
pub extern "C" fn ipexts_read_fields(
    alloc: Global,
    kind: u8,
    start: u8,
    is_over: bool,
    bytes: &[u8],
    written: &mut [u8],
    out: &mut IpextsRead,
) {
    let what = What {
        kind,
        start: IpNumber(start),
    };
    let mut appended = Vec::new(alloc);
    let (told, left) = if is_over {
        let mut reader = OverRead::new(bytes);
        let told = read(what, &mut reader, &mut appended);
        (told, reader.into_inner().len())
    } else {
        let mut reader = bytes;
        let told = read(what, &mut reader, &mut appended);
        (told, reader.len())
    };
    *out = with_ends(told, left, appended.as_slice(), written);
}

/// Reads a value within a limit, after some bytes.
#[unsafe(no_mangle)]
pub extern "C" fn ipexts_read_limited_fields(
    alloc: Global,
    kind: u8,
    start: u8,
    is_over: bool,
    limit: &IpextsStart,
    bytes: &[u8],
    written: &mut [u8],
    out: &mut IpextsRead,
) {
    let what = What {
        kind,
        start: IpNumber(start),
    };
    let mut appended = Vec::new(alloc);
    let (told, left) = if is_over {
        let mut reader = begin(OverRead::new(bytes), limit);
        let told = read_after(what, limit, &mut reader, &mut appended);
        (told, reader.take_reader().into_inner().len())
    } else {
        let mut reader = begin(bytes, limit);
        let told = read_after(what, limit, &mut reader, &mut appended);
        (told, reader.take_reader().len())
    };
    *out = with_ends(told, left, appended.as_slice(), written);
}
