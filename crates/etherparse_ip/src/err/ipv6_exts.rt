//! Errors of IPv6 extension headers and of their chains.
pub use ip_ext_chains::err::ipv6_exts::{
    ExtsWalkError, HeaderError, HeaderLimitedReadError, HeaderReadError, HeaderSliceError,
    HeaderWriteError,
};
pub use ip_ext_headers::err::ipv6_exts::ExtPayloadLenError;
