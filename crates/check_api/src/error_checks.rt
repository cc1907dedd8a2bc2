//! Checks of the errors that no call returns yet, like those of the others in `check_api`; of the errors that can
//! be hashed; and that each is an error with a text.
ghost use Rattle.std.specs.Prelude.{◌≡◌, ◌<◌, ◌+◌, ◌↔◌, IsTrue, IsFalse, IfOk};
ghost use Rattle.ip_base.specs.declared.err.ip.headers_slice_error.HeadersSliceError.TheVariants.{Len, Content};

use etherparse_ip::err::{
    ChainSource, LenError, PacketSource, Source, ValueTooBigError, io, ip, ip_auth, ip_exts, ipv4,
    ipv4_exts, ipv6, ipv6_exts,
};
use std::alloc::AllocError;
use std::error::Error;
use std::fmt::Debug;
use std::hash::Hash;

/// Returns whether two errors of a walk of either IP version are equal, and a copy of the first.
pub fn walk(
    a: &ip_exts::ExtsWalkError,
    b: &ip_exts::ExtsWalkError,
) -> Result<(bool, ip_exts::ExtsWalkError), AllocError>
    ensures same { IfOk result (λ r. IsTrue r.0 ↔ (a.now ≡ b.now)) }
    ensures copy { IfOk result (λ r. r.1 ≡ a.now) }
{
    Ok((a == b, a.clone()?))
}

/// Returns whether two content errors of extension headers of either IP version are equal, and a copy of the first.
pub fn content(
    a: &ip_exts::HeaderError,
    b: &ip_exts::HeaderError,
) -> Result<(bool, ip_exts::HeaderError), AllocError>
    ensures same { IfOk result (λ r. IsTrue r.0 ↔ (a.now ≡ b.now)) }
    ensures copy { IfOk result (λ r. r.1 ≡ a.now) }
{
    Ok((a == b, a.clone()?))
}

/// Returns whether two length errors of extension headers of either IP version are equal.
pub fn headers_error_of_len(a: LenError, b: LenError) -> bool
    ensures { IsTrue result ↔ (a ≡ b) }
{
    ip_exts::HeadersSliceError::Len(a) == ip_exts::HeadersSliceError::Len(b)
}

/// Returns whether two errors of extension headers of either IP version for their bytes are equal.
pub fn headers_error_of_content(a: ip_exts::HeaderError, b: ip_exts::HeaderError) -> bool
    ensures { IsTrue result ↔ (a ≡ b) }
{
    ip_exts::HeadersSliceError::Content(a) == ip_exts::HeadersSliceError::Content(b)
}

/// Returns whether a length error of extension headers of either IP version is equal to one for their bytes.
pub fn headers_errors_differ(a: LenError, b: ip_exts::HeaderError) -> bool
    ensures { IsFalse result }
{
    ip_exts::HeadersSliceError::Len(a) == ip_exts::HeadersSliceError::Content(b)
}

/// Returns a copy of an error of extension headers of either IP version.
pub fn headers_error_copy(
    e: &ip_exts::HeadersSliceError,
) -> Result<ip_exts::HeadersSliceError, AllocError>
    ensures { IfOk result (λ copy. copy ≡ e.now) }
{
    e.clone()
}

/// Returns whether two length errors of a packet's headers are equal.
pub fn packet_headers_error_of_len(a: LenError, b: LenError) -> bool
    ensures { IsTrue result ↔ (a ≡ b) }
{
    ip::HeadersSliceError::Len(a) == ip::HeadersSliceError::Len(b)
}

/// Returns whether two errors of a packet's headers for their bytes are equal.
pub fn packet_headers_error_of_content(a: ip::HeadersError, b: ip::HeadersError) -> bool
    ensures { IsTrue result ↔ (a ≡ b) }
{
    ip::HeadersSliceError::Content(a) == ip::HeadersSliceError::Content(b)
}

/// Returns whether a length error of a packet's headers is equal to one for their bytes.
pub fn packet_headers_errors_differ(a: LenError, b: ip::HeadersError) -> bool
    ensures { IsFalse result }
{
    ip::HeadersSliceError::Len(a) == ip::HeadersSliceError::Content(b)
}

/// Returns a copy of an error of a packet's headers.
pub fn packet_headers_error_copy(
    e: &ip::HeadersSliceError,
) -> Result<ip::HeadersSliceError, AllocError>
    ensures { IfOk result (λ copy. copy ≡ e.now) }
{
    e.clone()
}

/// Returns an error in extension headers with its offset counted from the start of their IPv6 packet.
pub fn after_ipv6(error: LenError) -> ip::HeadersSliceError
    requires { error.layer_start_offset < 2048 }
    ensures { result ≡ Len (record error { layer_start_offset = error.layer_start_offset + 40 }) }
{
    ip::HeadersSliceError::Len(error).add_slice_offset(40)
}

/// Returns a content error in extension headers, which is unchanged.
pub fn content_after_ipv6(error: ip::HeadersError) -> ip::HeadersSliceError
    ensures { result ≡ Content error }
{
    ip::HeadersSliceError::Content(error).add_slice_offset(40)
}

/// Requires an error that can be cloned, compared, hashed and printed.
fn is_value<T: Error + Clone + Eq + Hash>(a: &T) -> bool {
    *a == *a
}

/// Requires an error with a text. It may contain a reader's or an allocator's error.
fn has_text<T: Error>(_error: &T) {}

/// Requires a source that can be copied and printed.
fn is_shown<T: Copy + Debug>(source: &T) -> T {
    *source
}

/// Checks the errors of the base layer.
pub fn base(
    len: &LenError,
    value: &ValueTooBigError,
    ipv4: &ipv4::HeaderError,
    ipv4_slice: &ipv4::HeaderSliceError,
    ipv6: &ipv6::HeaderError,
    ipv6_slice: &ipv6::HeaderSliceError,
) -> bool {
    is_value(len)
        && is_value(value)
        && is_value(ipv4)
        && is_value(ipv4_slice)
        && is_value(ipv6)
        && is_value(ipv6_slice)
}

/// Checks the errors of single headers.
pub fn single_headers(
    auth: &ip_auth::HeaderError,
    slice: &ip_auth::HeaderSliceError,
    icv: &ip_auth::IcvLenError,
    payload: &ipv6_exts::ExtPayloadLenError,
) -> bool {
    is_value(auth) && is_value(slice) && is_value(icv) && is_value(payload)
}

/// Checks the errors of chains.
pub fn chains(
    walk4: &ipv4_exts::ExtsWalkError,
    walk6: &ipv6_exts::ExtsWalkError,
    content: &ipv6_exts::HeaderError,
    slice: &ipv6_exts::HeaderSliceError,
) -> bool {
    is_value(walk4) && is_value(walk6) && is_value(content) && is_value(slice)
}

/// Checks the errors of extension headers of either IP version.
pub fn either_version(
    walk: &ip_exts::ExtsWalkError,
    content: &ip_exts::HeaderError,
    slice: &ip_exts::HeadersSliceError,
) -> bool {
    is_value(walk) && is_value(content) && is_value(slice)
}

/// Checks the errors of packets.
pub fn packets(
    header: &ip::HeaderError,
    headers: &ip::HeadersError,
    headers_slice: &ip::HeadersSliceError,
    slice: &ip::SliceError,
    ipv4: &ipv4::SliceError,
    ipv6: &ipv6::SliceError,
) -> bool {
    is_value(header)
        && is_value(headers)
        && is_value(headers_slice)
        && is_value(slice)
        && is_value(ipv4)
        && is_value(ipv6)
}

/// Checks the errors of reads and of writes, which can't be cloned or compared.
pub fn reads_and_writes(
    limited: &io::LimitedReadError,
    auth: &ip_auth::HeaderReadError,
    auth_limited: &ip_auth::HeaderLimitedReadError,
    chain: &ipv6_exts::HeaderReadError,
    chain_limited: &ipv6_exts::HeaderLimitedReadError,
    write4: &ipv4_exts::HeaderWriteError,
    write6: &ipv6_exts::HeaderWriteError,
) {
    has_text(limited);
    has_text(auth);
    has_text(auth_limited);
    has_text(chain);
    has_text(chain_limited);
    has_text(write4);
    has_text(write6);
}

/// Checks the sources.
pub fn sources(source: Source<'_>, chain: ChainSource<'_>, packet: PacketSource<'_>) {
    let _ = is_shown(&source);
    let _ = is_shown(&chain);
    let _ = is_shown(&packet);
}
