//! Errors in plain fields, with the codes listed in `specs/FaultFields.antt`.
ghost use Rattle.std.specs.Prelude.{◌≡◌, IfSome, IfNone};
ghost use Rattle.ip_codes.specs.Codes.{layer_code, len_source_code};
ghost use Rattle.ip_base.specs.declared.err.layer.Layer.{Layer};
ghost use Rattle.ip_base.specs.declared.len_source.LenSource.{LenSource};
ghost use Rattle.ip_spans.specs.FaultFields.{len_fields, content_fields, no_fault};
ghost use Rattle.ip_spans.specs.FaultFields.{auth_error_fields, exts_error_fields};
ghost use Rattle.ip_spans.specs.FaultFields.{chain_fault_fields, ipv4_chain_fault_fields, base_error_fields};
ghost use Rattle.ip_spans.specs.FaultFields.{packet_fault_fields};
ghost use Rattle.ip_spans.specs.FaultFields.{ipv6_fault_fields};
ghost use Rattle.ip_spans.specs.DissectionParts.{end_fields};

use crate::fields::Fields;
use etherparse_ip::err::ipv6;
use ip_base::LenSource;
use ip_base::err::{Layer, LenError, ip};
use ip_codes::{header_code_of, kind, layer_code_of, len_source_code_of};
use ip_dissect::End;
use ip_ext_slices::err::{ip_auth, ipv6_exts};

/// An error. A field that its kind doesn't use is 0.
#[repr(C)]
#[derive(Clone, Copy, Debug, PartialEq, Eq)]
pub struct FaultFields {
    /// The number of bytes needed.
    pub required_len: usize,
    /// The number of bytes present.
    pub len: usize,
    /// The offset of the layer that needs more, or of the faulty extension header in `header`, in bytes from the start of
    /// the caller's bytes.
    pub offset: usize,
    /// The kind of error; 0 is none.
    pub kind: u8,
    /// The layer of the header that has a chain's error; 0 for an error of a packet.
    pub header: u8,
    /// The layer that needs more bytes.
    pub layer: u8,
    /// The source of `len`.
    pub len_source: u8,
    /// The wrong version or internet header length.
    pub value: u32,
}

impl Fields for FaultFields {
    #[inline(always)]
    fn put(&mut self, fields: FaultFields) {
        self.required_len = fields.required_len;
        self.len = fields.len;
        self.offset = fields.offset;
        self.kind = fields.kind;
        self.header = fields.header;
        self.layer = fields.layer;
        self.len_source = fields.len_source;
        self.value = fields.value;
    }
}

impl FaultFields {
    /// Returns the fields of no error.
    #[inline(always)]
    pub(crate) fn none() -> FaultFields
        ensures { result ≡ no_fault }
    {
        Self::of_content(0, kind::NONE, 0, 0)
    }

    /// Returns the fields of a length error.
    #[inline(always)]
    pub(crate) fn of_len(header: u8, error: &LenError) -> FaultFields
        ensures { result ≡ len_fields header error.now }
    {
        FaultFields {
            required_len: error.required_len,
            len: error.len,
            offset: error.layer_start_offset,
            kind: kind::TOO_SHORT,
            header,
            layer: layer_code_of(error.layer),
            len_source: len_source_code_of(error.len_source),
            value: 0,
        }
    }

    /// Returns the fields of an error in a header at this offset.
    #[inline(always)]
    fn of_content(header: u8, kind: u8, offset: usize, value: u8) -> FaultFields
        ensures { result ≡ content_fields header kind offset value }
    {
        FaultFields {
            required_len: 0,
            len: 0,
            offset,
            kind,
            header,
            layer: 0,
            len_source: 0,
            value: u32::from(value),
        }
    }

    /// Returns the fields of an error in an authentication header.
    #[inline(always)]
    fn of_auth_error(header: u8, offset: usize, error: &ip_auth::HeaderError) -> FaultFields
        ensures { result ≡ auth_error_fields header offset error.now }
    {
        match error {
            ip_auth::HeaderError::ZeroPayloadLen => {
                Self::of_content(header, kind::ZERO_PAYLOAD_LEN, offset, 0)
            }
        }
    }

    /// Returns the fields of an error in an IPv6 extension header.
    #[inline(always)]
    fn of_exts_error(header: u8, offset: usize, error: &ipv6_exts::HeaderError) -> FaultFields
        ensures { result ≡ exts_error_fields header offset error.now }
    {
        match error {
            ipv6_exts::HeaderError::HopByHopNotAtStart => {
                Self::of_content(header, kind::HOP_BY_HOP_NOT_AT_START, offset, 0)
            }
            ipv6_exts::HeaderError::IpAuth(error) => Self::of_auth_error(header, offset, error),
        }
    }

    /// Returns the fields of the error at the end of an IPv6 chain, which is at this offset.
    #[inline(always)]
    pub(crate) fn of_chain(
        offset: usize,
        fault: &Option<(ipv6_exts::HeaderSliceError, Layer)>,
    ) -> FaultFields
        ensures { result ≡ chain_fault_fields offset fault.now }
    {
        match fault {
            None => Self::none(),
            Some((ipv6_exts::HeaderSliceError::Len(error), header)) => {
                Self::of_len(layer_code_of(*header), error)
            }
            Some((ipv6_exts::HeaderSliceError::Content(error), header)) => {
                Self::of_exts_error(layer_code_of(*header), offset, error)
            }
        }
    }

    /// Returns the fields of the error at the end of an IPv4 chain, which is at this offset.
    #[inline(always)]
    pub(crate) fn of_ipv4_chain(
        offset: usize,
        fault: &Option<ip_auth::HeaderSliceError>,
    ) -> FaultFields
        ensures { result ≡ ipv4_chain_fault_fields offset fault.now }
    {
        let header = layer_code_of(Layer::IpAuthHeader);
        match fault {
            None => Self::none(),
            Some(ip_auth::HeaderSliceError::Len(error)) => Self::of_len(header, error),
            Some(ip_auth::HeaderSliceError::Content(error)) => {
                Self::of_auth_error(header, offset, error)
            }
        }
    }

    /// Returns the fields of an error in a base header.
    #[inline(always)]
    fn of_base_error(error: &ip::HeaderError) -> FaultFields
        ensures { result ≡ base_error_fields error.now }
    {
        match error {
            ip::HeaderError::UnsupportedIpVersion { version_number } => {
                Self::of_content(0, kind::UNSUPPORTED_IP_VERSION, 0, *version_number)
            }
            ip::HeaderError::Ipv4HeaderLengthSmallerThanHeader { ihl } => {
                Self::of_content(0, kind::IPV4_HEADER_LENGTH, 0, *ihl)
            }
        }
    }

    /// Returns the fields of the error of a packet whose extension headers end at this offset.
    #[inline(always)]
    pub(crate) fn of_packet(offset: usize, error: &ip::SliceError) -> FaultFields
        ensures { result ≡ packet_fault_fields offset error.now }
    {
        match error {
            ip::SliceError::Len(error) => Self::of_len(0, error),
            ip::SliceError::IpHeaders(ip::HeadersError::Ip(error)) => Self::of_base_error(error),
            ip::SliceError::IpHeaders(ip::HeadersError::Ipv4Ext(error)) => {
                Self::of_auth_error(0, offset, error)
            }
            ip::SliceError::IpHeaders(ip::HeadersError::Ipv6Ext(error)) => {
                Self::of_exts_error(0, offset, error)
            }
        }
    }

    /// Returns the fields of the error at the end of a dissection, whose headers end at this offset; those of no error if it
    /// ends without one.
    #[inline(always)]
    pub fn of_end(offset: usize, end: &End) -> FaultFields
        ensures { result ≡ end_fields offset end.now }
    {
        match end {
            End::Payload | End::LaterFragment => Self::none(),
            End::Truncated { error, header } => Self::of_len(header_code_of(*header), error),
            End::Fault { error, header } => FaultFields {
                header: header_code_of(*header),
                ..Self::of_packet(offset, error)
            },
        }
    }

    /// Returns the fields of an IPv6 packet's error.
    #[inline(always)]
    pub(crate) fn of_ipv6_packet(error: &ipv6::SliceError) -> FaultFields
        ensures { result ≡ ipv6_fault_fields error.now }
    {
        match error {
            ipv6::SliceError::Len(error) => Self::of_len(0, error),
            ipv6::SliceError::Header(ipv6::HeaderError::UnexpectedVersion { version_number }) => {
                Self::of_content(0, kind::UNSUPPORTED_IP_VERSION, 0, *version_number)
            }
            ipv6::SliceError::Exts(error) => Self::of_exts_error(0, 0, error),
        }
    }
}

/// Returns the layer with this code, if there is one.
pub(crate) fn layer_with_code(code: u8) -> Option<Layer>
    ensures some { IfSome result (λ layer. layer_code layer ≡ code) }
    ensures none { IfNone result ((layer : Layer) → layer_code layer ≡ code → ⊥) }
{
    match code {
        1 => Some(Layer::IpHeader),
        2 => Some(Layer::Ipv4Header),
        3 => Some(Layer::Ipv4Packet),
        4 => Some(Layer::IpAuthHeader),
        5 => Some(Layer::Ipv6Header),
        6 => Some(Layer::Ipv6Packet),
        7 => Some(Layer::Ipv6ExtHeader),
        8 => Some(Layer::Ipv6HopByHopHeader),
        9 => Some(Layer::Ipv6DestOptionsHeader),
        10 => Some(Layer::Ipv6RouteHeader),
        11 => Some(Layer::Ipv6FragHeader),
        12 => Some(Layer::Icmpv4),
        _ => None,
    }
}

/// Returns the length source with this code, if there is one.
pub(crate) fn len_source_of(code: u8) -> Option<LenSource>
    ensures some { IfSome result (λ source. len_source_code source ≡ code) }
    ensures none { IfNone result ((source : LenSource) → len_source_code source ≡ code → ⊥) }
{
    match code {
        1 => Some(LenSource::Slice),
        2 => Some(LenSource::Ipv4HeaderTotalLen),
        3 => Some(LenSource::Ipv6HeaderPayloadLen),
        _ => None,
    }
}
