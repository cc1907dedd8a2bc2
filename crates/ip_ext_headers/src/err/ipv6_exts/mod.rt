//! Errors of IPv6 extension headers.
mod ext_payload_len_error;

pub use ext_payload_len_error::ExtPayloadLenError;
