//! Values that several tests compare with.
use ip_spans::{FaultFields, HeaderSpan};

/// No error.
pub(crate) const NO_FAULT: FaultFields = FaultFields {
    required_len: 0,
    len: 0,
    offset: 0,
    kind: 0,
    header: 0,
    layer: 0,
    len_source: 0,
    value: 0,
};

/// A value that no call stores in an array.
pub(crate) const STAYS: HeaderSpan = HeaderSpan {
    offset: 7,
    len: 7,
    number: 7,
    next_header: 7,
};

/// Returns a header's span: its offset, length, number and next header.
pub(crate) fn span(offset: usize, len: usize, number: u8, next_header: u8) -> HeaderSpan {
    HeaderSpan {
        offset,
        len,
        number,
        next_header,
    }
}
