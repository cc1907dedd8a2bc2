//! Header slices at the start of bytes.
use crate::checks::{assert_bytes, assert_same};
use ip_base::err::{Layer, LenError};
use ip_base::{IpNumber, LenSource};
use ip_ext_headers::err::ip_auth::{HeaderError, HeaderSliceError};
use ip_ext_headers::{IpAuthHeaderSlice, Ipv6FragmentHeaderSlice, Ipv6RawExtHeaderSlice};
use std::test::Fail;

/// Returns the error for this many bytes if a header at the start needs more.
pub(crate) fn missing(required_len: usize, len: usize, layer: Layer) -> LenError {
    LenError {
        required_len,
        len,
        len_source: LenSource::Slice,
        layer,
        layer_start_offset: 0,
    }
}

#[test]
fn authentication_faults_in_order(rt: HostRuntime) {
    let mut bytes = [0u8; 1028];
    let short = Err(HeaderSliceError::Len(missing(12, 11, Layer::IpAuthHeader)));
    let refused = IpAuthHeaderSlice::from_slice(&bytes[..11]);
    assert_same(&rt, "too short for the test of the length", refused, short);
    let zero = Err(HeaderSliceError::Content(HeaderError::ZeroPayloadLen));
    let refused = IpAuthHeaderSlice::from_slice(&bytes[..12]);
    assert_same(&rt, "a length of zero", refused, zero);
    bytes[1] = 2;
    let longer = Err(HeaderSliceError::Len(missing(16, 12, Layer::IpAuthHeader)));
    let refused = IpAuthHeaderSlice::from_slice(&bytes[..12]);
    assert_same(&rt, "longer than the bytes", refused, longer);
    bytes[1] = 255;
    let one_less = Err(HeaderSliceError::Len(missing(1028, 1027, Layer::IpAuthHeader)));
    let refused = IpAuthHeaderSlice::from_slice(&bytes[..1027]);
    assert_same(&rt, "one byte less than the longest", refused, one_less);
}

#[test]
fn longest_headers(rt: HostRuntime) -> Result<(), Fail> {
    let mut bytes = [7u8; 2050];
    bytes[1] = 255;
    let raw = Ipv6RawExtHeaderSlice::from_slice(&bytes)?;
    assert_same(&rt, "raw", raw.slice().len(), 2048);
    assert_same(&rt, "payload", raw.payload().len(), 2046);
    assert_same(&rt, "next header", raw.next_header().0, 7);
    let one_less = Err(missing(2048, 2047, Layer::Ipv6ExtHeader));
    let refused = Ipv6RawExtHeaderSlice::from_slice(&bytes[..2047]);
    assert_same(&rt, "one byte less", refused, one_less);
    let few = Err(missing(8, 7, Layer::Ipv6ExtHeader));
    let refused = Ipv6RawExtHeaderSlice::from_slice(&bytes[..7]);
    assert_same(&rt, "seven bytes", refused, few);
    let auth = IpAuthHeaderSlice::from_slice(&bytes)?;
    assert_same(&rt, "authentication", auth.slice().len(), 1028);
    assert_same(&rt, "ICV", auth.raw_icv().len(), 1016);
    Ok(())
}

#[test]
fn fields_of_slices(rt: HostRuntime) -> Result<(), Fail> {
    let auth = [17, 2, 0, 0, 0, 0, 0, 1, 0, 0, 0, 2, 9, 8, 7, 6];
    let header = IpAuthHeaderSlice::from_slice(&auth)?;
    assert_same(&rt, "next header", header.next_header().0, 17);
    assert_same(&rt, "SPI", header.spi(), 1);
    assert_same(&rt, "sequence number", header.sequence_number(), 2);
    assert_bytes(&rt, "ICV", header.raw_icv(), &[9, 8, 7, 6]);
    let fragment = [17, 0xff, 0, 0xe1, 1, 2, 3, 4];
    let header = Ipv6FragmentHeaderSlice::from_slice(&fragment)?;
    assert_bytes(&rt, "bytes", header.slice(), &fragment);
    assert_same(&rt, "next header", header.next_header().0, 17);
    assert_same(&rt, "offset", header.fragment_offset().value(), 28);
    assert!(rt; header.more_fragments());
    assert_same(&rt, "identification", header.identification(), 0x0102_0304);
    assert!(rt; header.is_fragmenting_payload());
    assert!(rt; header.clone()? == header);
    let few = Err(missing(8, 7, Layer::Ipv6FragHeader));
    let refused = Ipv6FragmentHeaderSlice::from_slice(&fragment[..7]);
    assert_same(&rt, "seven bytes", refused, few);
    Ok(())
}

#[test]
fn fragmenting_or_not(rt: HostRuntime) -> Result<(), Fail> {
    let rows = [
        ([0, 0, 0, 0, 1, 2, 3, 4], false),
        ([0, 0, 0, 1, 1, 2, 3, 4], true),
        ([0, 0, 0, 6, 1, 2, 3, 4], false),
        ([0, 0, 0, 8, 1, 2, 3, 4], true),
        ([0, 0, 0, 128, 1, 2, 3, 4], true),
        ([0, 0, 1, 0, 1, 2, 3, 4], true),
    ];
    for (bytes, fragments) in rows {
        let header = Ipv6FragmentHeaderSlice::from_slice(&bytes)?;
        assert_same(
            &rt,
            header.slice(),
            header.is_fragmenting_payload(),
            fragments,
        );
    }
    Ok(())
}

#[test]
fn raw_layout_by_number(rt: HostRuntime) {
    for number in 0..=255u8 {
        let expected = matches!(number, 0 | 43 | 60 | 135 | 139 | 140);
        let is_raw = Ipv6RawExtHeaderSlice::header_type_supported(IpNumber(number));
        assert_same(&rt, number, is_raw, expected);
    }
}
