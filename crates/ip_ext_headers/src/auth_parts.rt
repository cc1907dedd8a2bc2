//! The parts of an authentication header that a read consumes before the header is built.
ghost use Rattle.std.specs.Prelude.{◌≡◌, length, OnOk, OnErr, IfOk, IfErr, IfSome};
ghost use Rattle.std.specs.Io.KnownBytes.{Consumes};
ghost use Rattle.ip_base.specs.Prefix.{NoPrefix};
ghost use Rattle.ip_spec.specs.Header.{IsAuthHeader};
ghost use Rattle.ip_spec.specs.Fields.{auth_fields};
ghost use Rattle.ip_spec.specs.Lengths.{IsIcvLen};
ghost use Rattle.ip_base.specs.ExactRead.{IfSteady};
ghost use Rattle.ip_base.specs.LimitedReader.{inner_of, window};
ghost use Rattle.ip_base.specs.Reading.{IsHeaderConsumed, IsConsumedInLayer};
ghost use Rattle.ip_base.specs.declared.err.layer.Layer.TheVariants.{IpAuthHeader as AuthLayer};
ghost use Rattle.ip_ext_headers.specs.AuthReading.{auth_slice_fault, IsAuthRefused, IsAuthRefusedInLayer, IsSliceError, IsSliceErrorInLayer};
ghost use Rattle.ip_ext_headers.specs.AuthReadError.{io_of};
ghost use Rattle.ip_ext_headers.specs.AuthLimitedReadError.{io_of as limited_io_of};

use crate::err::ip_auth::{HeaderError, HeaderLimitedReadError, HeaderReadError};
use ip_base::IpNumber;
use ip_base::err::Layer;
use ip_base::io::{ExactRead, LimitedReader};

/// The parts of a header, with its check value in a buffer.
#[derive(Drop)]
pub(crate) struct AuthParts<'a> {
    pub(crate) next_header: IpNumber,
    pub(crate) spi: u32,
    pub(crate) sequence_number: u32,
    pub(crate) raw_icv: &'a [u8],
    ghost allowed: { IsIcvLen (length raw_icv.now) },
}

impl<'a> AuthParts<'a> {
    ghost use Rattle.ip_ext_headers.specs.AuthParts.{fields_in};

    /// Returns the parts of the header with these 12 bytes before its check value.
    #[inline(always)]
    fn of_bytes(start: [u8; 12], raw_icv: &'a [u8]) -> AuthParts<'a>
        requires { IsIcvLen (length raw_icv.now) }
        ensures { fields_in result ≡ record (auth_fields start) { raw_icv = raw_icv.now } }
    {
        AuthParts {
            next_header: IpNumber(start[0]),
            spi: u32::from_be_bytes([start[4], start[5], start[6], start[7]]),
            sequence_number: u32::from_be_bytes([start[8], start[9], start[10], start[11]]),
            raw_icv,
        }
    }

    /// Reads the parts of a header and its check value into the buffer: 12 bytes, then the number of bytes that they
    /// state, and no byte after those.
    #[inline(always)]
    pub(crate) fn take<T: ExactRead>(
        buffer: &'a mut [u8; 1016],
        reader: &mut T,
    ) -> Result<AuthParts<'a>, HeaderReadError>
        ensures header { IfOk result (λ p. IsHeaderConsumed IsAuthHeader auth_fields
            (Consumes (T.bytes_left reader.old) (T.bytes_left reader.new)) (fields_in p)) }
        ensures kept { OnOk result (T.has_failed reader.new ≡ T.has_failed reader.old) }
        ensures steady { T.is_steady reader.new ≡ T.is_steady reader.old }
        ensures none { OnErr result (IfSteady (T.is_steady reader.old) (T.bytes_left reader.old)
            (NoPrefix IsAuthHeader)) }
        ensures fault { IfErr result (IsSliceError auth_slice_fault (T.is_steady reader.old)
            (T.bytes_left reader.old)) }
        ensures refused { IfErr result (IsAuthRefused T.bytes_left T.is_steady T.has_failed
            reader.old reader.new) }
        ensures own { IfErr result (λ e. IfSome (io_of e) (T.has_given reader.new)) }
    {
        let mut start = [0; 12];
        match reader.read_exact(&mut start) {
            Ok(()) => {}
            Err(e) => return Err(HeaderReadError::Io(e)),
        }
        let payload_len = start[1];
        if payload_len == 0 {
            return Err(HeaderReadError::Content(HeaderError::ZeroPayloadLen));
        }
        let raw_icv = &mut buffer[..4 * usize::from(payload_len - 1)];
        match reader.read_exact(raw_icv) {
            Ok(()) => Ok(Self::of_bytes(start, raw_icv)),
            Err(e) => Err(HeaderReadError::Io(e)),
        }
    }

    /// Reads the parts of a header within a limit, as `take` does from the bytes that may still be read. It starts
    /// the layer `IpAuthHeader`.
    #[inline(always)]
    pub(crate) fn take_limited<T: ExactRead>(
        buffer: &'a mut [u8; 1016],
        reader: &mut LimitedReader<T>,
    ) -> Result<AuthParts<'a>, HeaderLimitedReadError>
        ensures header { IfOk result (λ p. IsHeaderConsumed IsAuthHeader auth_fields
            (IsConsumedInLayer T.bytes_left AuthLayer reader.old reader.new) (fields_in p)) }
        ensures kept { OnOk result
            (T.has_failed (inner_of reader.new) ≡ T.has_failed (inner_of reader.old)) }
        ensures steady { T.is_steady (inner_of reader.new) ≡ T.is_steady (inner_of reader.old) }
        ensures none { OnErr result (IfSteady (T.is_steady (inner_of reader.old))
            (window T.bytes_left reader.old) (NoPrefix IsAuthHeader)) }
        ensures fault { IfErr result (IsSliceErrorInLayer auth_slice_fault
            (T.is_steady (inner_of reader.old)) (window T.bytes_left reader.old)) }
        ensures refused { IfErr result (IsAuthRefusedInLayer T.bytes_left T.is_steady
            T.has_failed reader.old reader.new) }
        ensures own { IfErr result (λ e.
            IfSome (limited_io_of e) (T.has_given (inner_of reader.new))) }
    {
        reader.start_layer(Layer::IpAuthHeader);
        let mut start = [0; 12];
        match reader.read_exact(&mut start) {
            Ok(()) => {}
            Err(e) => return Err(HeaderLimitedReadError::of_limited(e)),
        }
        let payload_len = start[1];
        if payload_len == 0 {
            return Err(HeaderLimitedReadError::Content(HeaderError::ZeroPayloadLen));
        }
        let raw_icv = &mut buffer[..4 * usize::from(payload_len - 1)];
        match reader.read_exact(raw_icv) {
            Ok(()) => Ok(Self::of_bytes(start, raw_icv)),
            Err(e) => Err(HeaderLimitedReadError::of_limited(e)),
        }
    }
}
