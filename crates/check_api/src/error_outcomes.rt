//! Callers for each result of an error's accessor: it returns the value of its variant, and `None` for another
//! variant.
ghost use Rattle.std.specs.Prelude.{◌≡◌, Some, IsNone, IsFalse, IfOk};

use etherparse_ip::err::{LenError, io, ip_auth, ip_exts, ipv6_exts};
use std::alloc::AllocError;
use std::io::Error;

/// Returns the `io` of `io::LimitedReadError::Io`.
pub fn limited_read_io(inner: Error) -> Option<Error>
    ensures { result ≡ Some inner }
{
    io::LimitedReadError::Io(inner).io()
}

/// Returns the `io` of `io::LimitedReadError::Len`: `None`.
pub fn limited_read_io_of_len(inner: LenError) -> Option<Error>
    ensures { IsNone result }
{
    io::LimitedReadError::Len(inner).io()
}

/// Returns the `len` of `io::LimitedReadError::Len`.
pub fn limited_read_len(inner: LenError) -> Option<LenError>
    ensures { result ≡ Some inner }
{
    io::LimitedReadError::Len(inner).len()
}

/// Returns the `len` of `io::LimitedReadError::Io`: `None`.
pub fn limited_read_len_of_io(inner: Error) -> Option<LenError>
    ensures { IsNone result }
{
    io::LimitedReadError::Io(inner).len()
}

/// Returns the `io` of `ip_auth::HeaderReadError::Io`.
pub fn authentication_read_io(inner: Error) -> Option<Error>
    ensures { result ≡ Some inner }
{
    ip_auth::HeaderReadError::Io(inner).io()
}

/// Returns the `io` of `ip_auth::HeaderReadError::Content`: `None`.
pub fn authentication_read_io_of_content(inner: ip_auth::HeaderError) -> Option<Error>
    ensures { IsNone result }
{
    ip_auth::HeaderReadError::Content(inner).io()
}

/// Returns the `content` of `ip_auth::HeaderReadError::Content`.
pub fn authentication_read_content(inner: ip_auth::HeaderError) -> Option<ip_auth::HeaderError>
    ensures { result ≡ Some inner }
{
    ip_auth::HeaderReadError::Content(inner).content()
}

/// Returns the `content` of `ip_auth::HeaderReadError::Io`: `None`.
pub fn authentication_read_content_of_io(inner: Error) -> Option<ip_auth::HeaderError>
    ensures { IsNone result }
{
    ip_auth::HeaderReadError::Io(inner).content()
}

/// Returns the `io` of `ip_auth::HeaderLimitedReadError::Io`.
pub fn limited_authentication_read_io(inner: Error) -> Option<Error>
    ensures { result ≡ Some inner }
{
    ip_auth::HeaderLimitedReadError::Io(inner).io()
}

/// Returns the `io` of `ip_auth::HeaderLimitedReadError::Len`: `None`.
pub fn limited_authentication_read_io_of_len(inner: LenError) -> Option<Error>
    ensures { IsNone result }
{
    ip_auth::HeaderLimitedReadError::Len(inner).io()
}

/// Returns the `io` of `ip_auth::HeaderLimitedReadError::Content`: `None`.
pub fn limited_authentication_read_io_of_content(inner: ip_auth::HeaderError) -> Option<Error>
    ensures { IsNone result }
{
    ip_auth::HeaderLimitedReadError::Content(inner).io()
}

/// Returns the `len` of `ip_auth::HeaderLimitedReadError::Len`.
pub fn limited_authentication_read_len(inner: LenError) -> Option<LenError>
    ensures { result ≡ Some inner }
{
    ip_auth::HeaderLimitedReadError::Len(inner).len()
}

/// Returns the `len` of `ip_auth::HeaderLimitedReadError::Io`: `None`.
pub fn limited_authentication_read_len_of_io(inner: Error) -> Option<LenError>
    ensures { IsNone result }
{
    ip_auth::HeaderLimitedReadError::Io(inner).len()
}

/// Returns the `len` of `ip_auth::HeaderLimitedReadError::Content`: `None`.
pub fn limited_authentication_read_len_of_content(inner: ip_auth::HeaderError) -> Option<LenError>
    ensures { IsNone result }
{
    ip_auth::HeaderLimitedReadError::Content(inner).len()
}

/// Returns the `content` of `ip_auth::HeaderLimitedReadError::Content`.
pub fn limited_authentication_read_content(
    inner: ip_auth::HeaderError,
) -> Option<ip_auth::HeaderError>
    ensures { result ≡ Some inner }
{
    ip_auth::HeaderLimitedReadError::Content(inner).content()
}

/// Returns the `content` of `ip_auth::HeaderLimitedReadError::Io`: `None`.
pub fn limited_authentication_read_content_of_io(inner: Error) -> Option<ip_auth::HeaderError>
    ensures { IsNone result }
{
    ip_auth::HeaderLimitedReadError::Io(inner).content()
}

/// Returns the `content` of `ip_auth::HeaderLimitedReadError::Len`: `None`.
pub fn limited_authentication_read_content_of_len(inner: LenError) -> Option<ip_auth::HeaderError>
    ensures { IsNone result }
{
    ip_auth::HeaderLimitedReadError::Len(inner).content()
}

/// Returns the `io_error` of `ipv6_exts::HeaderReadError::Io`.
pub fn chain_read_io_error(inner: Error) -> Option<Error>
    ensures { result ≡ Some inner }
{
    ipv6_exts::HeaderReadError::Io(inner).io_error()
}

/// Returns the `io_error` of `ipv6_exts::HeaderReadError::Content`: `None`.
pub fn chain_read_io_error_of_content(inner: ipv6_exts::HeaderError) -> Option<Error>
    ensures { IsNone result }
{
    ipv6_exts::HeaderReadError::Content(inner).io_error()
}

/// Returns the `content_error` of `ipv6_exts::HeaderReadError::Content`.
pub fn chain_read_content_error(inner: ipv6_exts::HeaderError) -> Option<ipv6_exts::HeaderError>
    ensures { result ≡ Some inner }
{
    ipv6_exts::HeaderReadError::Content(inner).content_error()
}

/// Returns the `content_error` of `ipv6_exts::HeaderReadError::Io`: `None`.
pub fn chain_read_content_error_of_io(inner: Error) -> Option<ipv6_exts::HeaderError>
    ensures { IsNone result }
{
    ipv6_exts::HeaderReadError::Io(inner).content_error()
}

/// Returns the `io` of `ipv6_exts::HeaderLimitedReadError::Io`.
pub fn limited_chain_read_io(inner: Error) -> Option<Error>
    ensures { result ≡ Some inner }
{
    ipv6_exts::HeaderLimitedReadError::Io(inner).io()
}

/// Returns the `io` of `ipv6_exts::HeaderLimitedReadError::Len`: `None`.
pub fn limited_chain_read_io_of_len(inner: LenError) -> Option<Error>
    ensures { IsNone result }
{
    ipv6_exts::HeaderLimitedReadError::Len(inner).io()
}

/// Returns the `io` of `ipv6_exts::HeaderLimitedReadError::Content`: `None`.
pub fn limited_chain_read_io_of_content(inner: ipv6_exts::HeaderError) -> Option<Error>
    ensures { IsNone result }
{
    ipv6_exts::HeaderLimitedReadError::Content(inner).io()
}

/// Returns the `len` of `ipv6_exts::HeaderLimitedReadError::Len`.
pub fn limited_chain_read_len(inner: LenError) -> Option<LenError>
    ensures { result ≡ Some inner }
{
    ipv6_exts::HeaderLimitedReadError::Len(inner).len()
}

/// Returns the `len` of `ipv6_exts::HeaderLimitedReadError::Io`: `None`.
pub fn limited_chain_read_len_of_io(inner: Error) -> Option<LenError>
    ensures { IsNone result }
{
    ipv6_exts::HeaderLimitedReadError::Io(inner).len()
}

/// Returns the `len` of `ipv6_exts::HeaderLimitedReadError::Content`: `None`.
pub fn limited_chain_read_len_of_content(inner: ipv6_exts::HeaderError) -> Option<LenError>
    ensures { IsNone result }
{
    ipv6_exts::HeaderLimitedReadError::Content(inner).len()
}

/// Returns the `content` of `ipv6_exts::HeaderLimitedReadError::Content`.
pub fn limited_chain_read_content(inner: ipv6_exts::HeaderError) -> Option<ipv6_exts::HeaderError>
    ensures { result ≡ Some inner }
{
    ipv6_exts::HeaderLimitedReadError::Content(inner).content()
}

/// Returns the `content` of `ipv6_exts::HeaderLimitedReadError::Io`: `None`.
pub fn limited_chain_read_content_of_io(inner: Error) -> Option<ipv6_exts::HeaderError>
    ensures { IsNone result }
{
    ipv6_exts::HeaderLimitedReadError::Io(inner).content()
}

/// Returns the `content` of `ipv6_exts::HeaderLimitedReadError::Len`: `None`.
pub fn limited_chain_read_content_of_len(inner: LenError) -> Option<ipv6_exts::HeaderError>
    ensures { IsNone result }
{
    ipv6_exts::HeaderLimitedReadError::Len(inner).content()
}

/// Returns a copy of the `len_error` of `ipv6_exts::HeaderSliceError::Len`.
pub fn chain_len_error(inner: LenError) -> Result<LenError, AllocError>
    ensures { IfOk result (λ copy. copy ≡ inner) }
{
    let error = ipv6_exts::HeaderSliceError::Len(inner);
    match error.len_error() {
        Some(e) => e.clone(),
        None => unreachable!(),
    }
}

/// Returns whether `ipv6_exts::HeaderSliceError::Content` has a `len_error`, which it doesn't.
pub fn chain_len_error_of_content(inner: ipv6_exts::HeaderError) -> bool
    ensures { IsFalse result }
{
    ipv6_exts::HeaderSliceError::Content(inner)
        .len_error()
        .is_some()
}

/// Returns a copy of the `content` of `ipv6_exts::HeaderSliceError::Content`.
pub fn chain_content(inner: ipv6_exts::HeaderError) -> Result<ipv6_exts::HeaderError, AllocError>
    ensures { IfOk result (λ copy. copy ≡ inner) }
{
    let error = ipv6_exts::HeaderSliceError::Content(inner);
    match error.content() {
        Some(e) => e.clone(),
        None => unreachable!(),
    }
}

/// Returns whether `ipv6_exts::HeaderSliceError::Len` has a `content`, which it doesn't.
pub fn chain_content_of_len(inner: LenError) -> bool
    ensures { IsFalse result }
{
    ipv6_exts::HeaderSliceError::Len(inner).content().is_some()
}

/// Returns a copy of the `len_error` of `ip_exts::HeadersSliceError::Len`.
pub fn headers_len_error(inner: LenError) -> Result<LenError, AllocError>
    ensures { IfOk result (λ copy. copy ≡ inner) }
{
    let error = ip_exts::HeadersSliceError::Len(inner);
    match error.len_error() {
        Some(e) => e.clone(),
        None => unreachable!(),
    }
}

/// Returns whether `ip_exts::HeadersSliceError::Content` has a `len_error`, which it doesn't.
pub fn headers_len_error_of_content(inner: ip_exts::HeaderError) -> bool
    ensures { IsFalse result }
{
    ip_exts::HeadersSliceError::Content(inner)
        .len_error()
        .is_some()
}

/// Returns a copy of the `content` of `ip_exts::HeadersSliceError::Content`.
pub fn headers_content(inner: ip_exts::HeaderError) -> Result<ip_exts::HeaderError, AllocError>
    ensures { IfOk result (λ copy. copy ≡ inner) }
{
    let error = ip_exts::HeadersSliceError::Content(inner);
    match error.content() {
        Some(e) => e.clone(),
        None => unreachable!(),
    }
}

/// Returns whether `ip_exts::HeadersSliceError::Len` has a `content`, which it doesn't.
pub fn headers_content_of_len(inner: LenError) -> bool
    ensures { IsFalse result }
{
    ip_exts::HeadersSliceError::Len(inner).content().is_some()
}
