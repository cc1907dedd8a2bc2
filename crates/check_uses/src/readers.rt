//! Callers of readers.
ghost use Rattle.std.specs.Prelude.{◌≡◌, ◌+◌, ◌++◌, ℕ, List, length, None, IfOk, IfSome, IfNone};
ghost use Rattle.std.specs.Bool.{OnTrue, OnFalse};
ghost use Rattle.std.specs.Int.{from_be_bytes, w16};
ghost use Rattle.std.specs.Io.KnownBytes.{Consumes};
ghost use Rattle.ip_base.specs.Prefix.{IsPrefix};
ghost use Rattle.ip_spec.specs.Header.{IsRawHeader, IsAuthHeader};
ghost use Rattle.ip_spec.specs.Fields.{raw_fields, auth_fields};
ghost use Rattle.ip_spec.specs.Decoding.{IsRawDecoding};
ghost use Rattle.ip_ext_chains.specs.Fitting.{IsFittingAnswer};

use ip_base::err::Layer;
use ip_base::{IpNumber, LenSource};
use ip_ext_chains::Ipv6Extensions;
use ip_ext_chains::err::ipv6_exts::HeaderLimitedReadError;
use ip_ext_headers::err::ip_auth::HeaderReadError;
use ip_ext_headers::io::{ExactRead, LimitedReader};
use ip_ext_headers::{IpAuthHeader, Ipv6RawExtHeader};
use std::io;

/// Reads a big-endian number of two bytes.
pub fn read_u16<T: ExactRead>(reader: &mut T) -> io::Result<u16>
    ensures { IfOk result (λ number. (b : List ℕ) × (from_be_bytes w16 b ≡ number)
        × Consumes (T.bytes_left reader.old) (T.bytes_left reader.new) b) }
{
    let mut bytes = [0; 2];
    reader.read_exact(&mut bytes)?;
    Ok(u16::from_be_bytes(bytes))
}

/// Reads the extension headers of an IPv6 packet from a stream that is positioned after its base header, with the
/// base header's next header and payload length. Returns the headers, the number of what follows them, how many bytes
/// of the payload are left, and the stream, from which nothing else was consumed. Offsets in length errors count from
/// the start of the base header.
pub fn read_under_payload_len<T: ExactRead + Drop>(
    stream: T,
    next_header: IpNumber,
    payload_len: u16,
) -> Result<(Ipv6Extensions, IpNumber, usize, T), HeaderLimitedReadError>
    ensures { IfOk result (λ x. (headers : List ℕ)
        × Consumes (T.bytes_left stream) (T.bytes_left x.3) headers
        × (x.2 + length headers ≡ payload_len)
        × ((rest : List ℕ)
        → IsFittingAnswer next_header.0 (headers ++ rest) x.0 x.1.0 rest None)) }
{
    let mut reader = LimitedReader::new(
        stream,
        usize::from(payload_len),
        LenSource::Ipv6HeaderPayloadLen,
        40,
        Layer::Ipv6Header,
    );
    match Ipv6Extensions::read_limited(&mut reader, next_header) {
        Ok((exts, number)) => {
            let left = reader.max_len() - reader.read_len();
            Ok((exts, number, left, reader.take_reader()))
        }
        Err(e) => Err(e),
    }
}

/// Reads options and the authentication header after them, header by header.
pub fn read_options_and_auth<T: ExactRead>(
    reader: &mut T,
) -> Result<(Ipv6RawExtHeader, IpAuthHeader), HeaderReadError>
    ensures { IfOk result (λ x. (options auth : List ℕ)
        × IsRawHeader options × (raw_fields options ≡ x.0)
        × IsAuthHeader auth × (auth_fields auth ≡ x.1)
        × Consumes (T.bytes_left reader.old) (T.bytes_left reader.new) (options ++ auth)) }
{
    let options = match Ipv6RawExtHeader::read(reader) {
        Ok(options) => options,
        Err(e) => return Err(HeaderReadError::Io(e)),
    };
    match IpAuthHeader::read(reader) {
        Ok(auth) => Ok((options, auth)),
        Err(e) => Err(e),
    }
}

/// Reads the next authentication header into this one. After an error this one is unchanged.
pub fn read_next_auth<T: ExactRead>(header: &mut IpAuthHeader, reader: &mut T) -> bool
    ensures next { OnTrue result ((b : List ℕ) × IsAuthHeader b × (auth_fields b ≡ header.new)
        × Consumes (T.bytes_left reader.old) (T.bytes_left reader.new) b) }
    ensures stays { OnFalse result (header.new ≡ header.old) }
{
    header.read_over(reader).is_ok()
}

/// Reads a header from bytes in memory, and removes it from them. The result is that of `from_slice` for these bytes,
/// with the rest left.
pub fn read_in_memory(bytes: &mut &[u8]) -> Option<Ipv6RawExtHeader>
    ensures decoding { IfSome result (λ h. IsRawDecoding bytes.old.now h bytes.new.now) }
    ensures none { IfNone result ((b : List ℕ) → IsRawHeader b → IsPrefix b bytes.old.now → ⊥) }
{
    match Ipv6RawExtHeader::read(bytes) {
        Ok(header) => Some(header),
        Err(_) => None,
    }
}
