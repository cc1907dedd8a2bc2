//! The extension headers of IPv4, read from a stream.
ghost use Rattle.std.specs.Prelude.{◌≡◌, ◌≢◌, IsOk, OnOk, IfOk, IfErr, IfSome};
ghost use Rattle.std.specs.Io.KnownBytes.{Consumes};
ghost use Rattle.ip_base.specs.declared.err.layer.Layer.TheVariants.{IpAuthHeader as AuthLayer};
ghost use Rattle.ip_spec.specs.Numbers.{AUTHENTICATION};
ghost use Rattle.ip_spec.specs.Header.{IsAuthHeader};
ghost use Rattle.ip_spec.specs.Fields.{auth_fields};
ghost use Rattle.ip_base.specs.LimitedReader.{inner_of, window};
ghost use Rattle.ip_base.specs.Reading.{IsHeaderConsumed, IsAnswerConsumed, IsConsumedInLayer};
ghost use Rattle.ip_ext_headers.specs.AuthReading.{IsAuthRefused, IsAuthRefusedInLayer, IsSliceError, IsSliceErrorInLayer};
ghost use Rattle.ip_ext_slices.specs.Ipv4Fault.{ipv4_chain_fault};
ghost use Rattle.ip_ext_chains.specs.Ipv4Reading.{Answers};
ghost use Rattle.ip_ext_headers.specs.AuthReadError.{io_of};
ghost use Rattle.ip_ext_headers.specs.AuthLimitedReadError.{io_of as limited_io_of};

use crate::Ipv4Extensions;
use crate::err::ip_auth::{HeaderLimitedReadError, HeaderReadError};
use ip_base::{IpNumber, ip_number};
use ip_ext_headers::IpAuthHeader;
use ip_ext_headers::io::{ExactRead, LimitedReader};

impl Ipv4Extensions {
    /// Reads the header of the number, and returns it with the next header number. If the number is not 51, nothing
    /// is read. The errors are those of the header's read.
    pub fn read<T: ExactRead>(
        reader: &mut T,
        start_ip_number: IpNumber,
    ) -> Result<(Ipv4Extensions, IpNumber), HeaderReadError>
        ensures answer { IfOk result (λ x.
            IsAnswerConsumed (Answers start_ip_number.0 x.0.auth x.1.0)
            (Consumes (T.bytes_left reader.old) (T.bytes_left reader.new))) }
        ensures header { IfOk result (λ x. IfSome x.0.auth (IsHeaderConsumed IsAuthHeader auth_fields
            (Consumes (T.bytes_left reader.old) (T.bytes_left reader.new)))) }
        ensures kept { OnOk result (T.has_failed reader.new ≡ T.has_failed reader.old) }
        ensures steady { T.is_steady reader.new ≡ T.is_steady reader.old }
        ensures fault { IfErr result (IsSliceError (ipv4_chain_fault start_ip_number.0)
            (T.is_steady reader.old) (T.bytes_left reader.old)) }
        ensures refused { IfErr result (IsAuthRefused T.bytes_left T.is_steady T.has_failed
            reader.old reader.new) }
        ensures own { IfErr result (λ e. IfSome (io_of e) (T.has_given reader.new)) }
        ensures stays { start_ip_number.0 ≢ AUTHENTICATION
            → IsOk result × (reader.new ≡ reader.old) }
    {
        if start_ip_number != ip_number::AUTH {
            return Ok((Ipv4Extensions { auth: None }, start_ip_number));
        }
        let mut header = IpAuthHeader::default();
        match header.read_over(reader) {
            Ok(()) => {
                let next_header = header.next_header;
                Ok((Ipv4Extensions { auth: Some(header) }, next_header))
            }
            Err(e) => Err(e),
        }
    }

    /// Reads the header of the number within a limit, as `read` does from the bytes that may still be read. If the
    /// number is not 51, nothing is read and no layer starts. The errors are those of the header's read.
    pub fn read_limited<T: ExactRead>(
        reader: &mut LimitedReader<T>,
        start_ip_number: IpNumber,
    ) -> Result<(Ipv4Extensions, IpNumber), HeaderLimitedReadError>
        ensures answer { IfOk result (λ x.
            IsAnswerConsumed (Answers start_ip_number.0 x.0.auth x.1.0)
            (Consumes (window T.bytes_left reader.old) (window T.bytes_left reader.new))) }
        ensures header { IfOk result (λ x. IfSome x.0.auth (IsHeaderConsumed IsAuthHeader auth_fields
            (IsConsumedInLayer T.bytes_left AuthLayer reader.old reader.new))) }
        ensures kept { OnOk result
            (T.has_failed (inner_of reader.new) ≡ T.has_failed (inner_of reader.old)) }
        ensures steady { T.is_steady (inner_of reader.new) ≡ T.is_steady (inner_of reader.old) }
        ensures fault { IfErr result (IsSliceErrorInLayer (ipv4_chain_fault start_ip_number.0)
            (T.is_steady (inner_of reader.old)) (window T.bytes_left reader.old)) }
        ensures refused { IfErr result (IsAuthRefusedInLayer T.bytes_left T.is_steady
            T.has_failed reader.old reader.new) }
        ensures own { IfErr result (λ e.
            IfSome (limited_io_of e) (T.has_given (inner_of reader.new))) }
        ensures stays { start_ip_number.0 ≢ AUTHENTICATION
            → IsOk result × (reader.new ≡ reader.old) }
    {
        if start_ip_number != ip_number::AUTH {
            return Ok((Ipv4Extensions { auth: None }, start_ip_number));
        }
        let mut header = IpAuthHeader::default();
        match header.read_over_limited(reader) {
            Ok(()) => {
                let next_header = header.next_header;
                Ok((Ipv4Extensions { auth: Some(header) }, next_header))
            }
            Err(e) => Err(e),
        }
    }
}
