//! Headers and chains read from bytes in memory, with and without a limit. `at` chooses the bytes of a header that
//! are read, so that the compiler can't omit any.
use crate::digests::chains::{of_bytes, of_content, of_len_error, with};
use crate::digests::owned::{of_owned_auth, of_owned_fragment, of_owned_raw};
use crate::digests::structs::of_answer;
use crate::measured::parses::Parse;
use etherparse_ip::err::Layer;
use etherparse_ip::err::ipv6_exts::{HeaderLimitedReadError, HeaderReadError};
use etherparse_ip::io::LimitedReader;
use etherparse_ip::{
    IpAuthHeader, IpNumber, Ipv4Extensions, Ipv6Extensions, Ipv6FragmentHeader, Ipv6RawExtHeader,
    LenSource,
};

/// The offset of the bytes of a limited read, after an IPv6 header.
const LAYER_OFFSET: usize = 40;

/// The limit, longer than any chain here.
const LIMIT: usize = 1_048_576;

/// The digest of a read that failed.
const REFUSED: u64 = 2;

/// A chain read into a struct, with all of it read.
pub struct StructRead;

/// A chain read into a struct within a limit, with all of it read.
pub struct StructReadLimited;

impl Parse for StructRead {
    fn digest(start: IpNumber, bytes: &[u8]) -> u64 {
        let mut reader = bytes;
        match Ipv6Extensions::read(&mut reader, start) {
            Ok((exts, number)) => of_answer(&exts, number, reader),
            Err(e) => of_refused(&e),
        }
    }
}

impl Parse for StructReadLimited {
    fn digest(start: IpNumber, bytes: &[u8]) -> u64 {
        let mut reader = limited(bytes);
        match Ipv6Extensions::read_limited(&mut reader, start) {
            Ok((exts, number)) => {
                let read = with(reader.layer_offset() as u64, reader.read_len() as u64);
                with(of_answer(&exts, number, reader.take_reader()), read)
            }
            Err(e) => of_refused_limited(&e),
        }
    }
}

/// Returns the digest of a chain read's error.
#[inline(never)]
fn of_refused(error: &HeaderReadError) -> u64 {
    match error {
        HeaderReadError::Io(_) => REFUSED,
        HeaderReadError::Content(e) => with(REFUSED, of_content(e)),
    }
}

/// Returns the digest of a limited chain read's error.
#[inline(never)]
fn of_refused_limited(error: &HeaderLimitedReadError) -> u64 {
    match error {
        HeaderLimitedReadError::Io(_) => REFUSED,
        HeaderLimitedReadError::Len(e) => with(REFUSED, of_len_error(e)),
        HeaderLimitedReadError::Content(e) => with(REFUSED, of_content(e)),
    }
}

/// Returns a limited reader of the bytes after an IPv6 header.
#[inline(always)]
fn limited(bytes: &[u8]) -> LimitedReader<&[u8]> {
    LimitedReader::new(
        bytes,
        LIMIT,
        LenSource::Ipv6HeaderPayloadLen,
        LAYER_OFFSET,
        Layer::Ipv6Header,
    )
}

/// Returns the digest of a limited reader's state and remaining bytes.
#[inline(always)]
fn of_limited(reader: LimitedReader<&[u8]>) -> u64 {
    let read = with(reader.max_len() as u64, reader.read_len() as u64);
    with(read, of_bytes(reader.take_reader()))
}

/// Reads a header in the uniform format (RFC 6564).
#[unsafe(no_mangle)]
pub extern "C" fn ipexts_raw_read(bytes: &[u8], at: usize) -> u64 {
    let mut reader = bytes;
    match Ipv6RawExtHeader::read(&mut reader) {
        Ok(header) => with(of_owned_raw(&header, at), of_bytes(reader)),
        Err(_) => REFUSED,
    }
}

/// Reads an authentication header.
#[unsafe(no_mangle)]
pub extern "C" fn ipexts_auth_read(bytes: &[u8], at: usize) -> u64 {
    let mut reader = bytes;
    match IpAuthHeader::read(&mut reader) {
        Ok(header) => with(of_owned_auth(&header, at), of_bytes(reader)),
        Err(_) => REFUSED,
    }
}

/// Reads a fragment header.
#[unsafe(no_mangle)]
pub extern "C" fn ipexts_fragment_read(bytes: &[u8], _at: usize) -> u64 {
    let mut reader = bytes;
    match Ipv6FragmentHeader::read(&mut reader) {
        Ok(header) => with(of_owned_fragment(&header), of_bytes(reader)),
        Err(_) => REFUSED,
    }
}

/// Reads a header in the uniform format (RFC 6564) within a limit.
#[unsafe(no_mangle)]
pub extern "C" fn ipexts_raw_read_limited(bytes: &[u8], at: usize) -> u64 {
    let mut reader = limited(bytes);
    match Ipv6RawExtHeader::read_limited(&mut reader) {
        Ok(header) => with(of_owned_raw(&header, at), of_limited(reader)),
        Err(_) => REFUSED,
    }
}

/// Reads an authentication header within a limit.
#[unsafe(no_mangle)]
pub extern "C" fn ipexts_auth_read_limited(bytes: &[u8], at: usize) -> u64 {
    let mut reader = limited(bytes);
    match IpAuthHeader::read_limited(&mut reader) {
        Ok(header) => with(of_owned_auth(&header, at), of_limited(reader)),
        Err(_) => REFUSED,
    }
}

/// Reads a fragment header within a limit.
#[unsafe(no_mangle)]
pub extern "C" fn ipexts_fragment_read_limited(bytes: &[u8], _at: usize) -> u64 {
    let mut reader = limited(bytes);
    match Ipv6FragmentHeader::read_limited(&mut reader) {
        Ok(header) => with(of_owned_fragment(&header), of_limited(reader)),
        Err(_) => REFUSED,
    }
}

/// Reads the IPv4 extension header, if the number is 51.
#[unsafe(no_mangle)]
pub extern "C" fn ipexts_ipv4_read(start: u8, bytes: &[u8]) -> u64 {
    let mut reader = bytes;
    match Ipv4Extensions::read(&mut reader, IpNumber(start)) {
        Ok((headers, number)) => {
            let header = match &headers.auth {
                Some(header) => of_owned_auth(header, 0),
                None => 1,
            };
            with(with(header, u64::from(number.0)), of_bytes(reader))
        }
        Err(_) => REFUSED,
    }
}

/// Reads a chain into six places.
#[unsafe(no_mangle)]
pub extern "C" fn ipexts_struct_read(start: u8, bytes: &[u8]) -> u64 {
    StructRead::digest(IpNumber(start), bytes)
}

/// Reads a chain into six places within a limit.
#[unsafe(no_mangle)]
pub extern "C" fn ipexts_struct_read_limited(start: u8, bytes: &[u8]) -> u64 {
    StructReadLimited::digest(IpNumber(start), bytes)
}
