//! Accessors of errors: each returns the value of its variant, and `None` for another; and errors with their offset
//! moved.
ghost use Rattle.std.specs.Prelude.{◌≡◌};

use crate::checks::assert_same;
use crate::samples::{denied, short, zero};
use etherparse_ip::err::io::LimitedReadError as LimitedRead;
use etherparse_ip::err::ip_auth::{
    HeaderLimitedReadError as LimitedAuth, HeaderReadError as AuthRead,
};
use etherparse_ip::err::ipv6_exts::{
    HeaderLimitedReadError as LimitedChain, HeaderReadError as ChainRead,
};
use etherparse_ip::err::{Layer, LenError, ip, ip_auth, ip_exts, ipv4_exts, ipv6_exts};
use etherparse_ip::{IpNumber, LenSource};
use std::alloc::AllocError;
use std::io::{Error, ErrorKind};
use std::test::Fail;

/// Returns the kind of a reader's error.
fn kind(error: Option<Error>) -> Option<ErrorKind> {
    error.map(|e| e.kind())
}

const DENIED: Option<ErrorKind> = Some(ErrorKind::PermissionDenied);

#[test]
fn limited_reads(rt: HostRuntime) {
    assert_same(&rt, "Io", kind(LimitedRead::Io(denied()).io()), DENIED);
    assert_same(&rt, "Io", LimitedRead::Io(denied()).len(), None);
    assert_same(&rt, "Len", kind(LimitedRead::Len(short()).io()), None);
    assert_same(&rt, "Len", LimitedRead::Len(short()).len(), Some(short()));
}

#[test]
fn reads_of_authentication_headers(rt: HostRuntime) {
    assert_same(&rt, "Io", kind(AuthRead::Io(denied()).io()), DENIED);
    assert_same(&rt, "Io", AuthRead::Io(denied()).content(), None);
    assert_same(&rt, "Content", kind(AuthRead::Content(zero()).io()), None);
    assert_same(
        &rt,
        "Content",
        AuthRead::Content(zero()).content(),
        Some(zero()),
    );
}

#[test]
fn limited_reads_of_authentication_headers(rt: HostRuntime) {
    assert_same(&rt, "Io", kind(LimitedAuth::Io(denied()).io()), DENIED);
    assert_same(&rt, "Io", LimitedAuth::Io(denied()).len(), None);
    assert_same(&rt, "Io", LimitedAuth::Io(denied()).content(), None);
    assert_same(&rt, "Len", kind(LimitedAuth::Len(short()).io()), None);
    assert_same(&rt, "Len", LimitedAuth::Len(short()).len(), Some(short()));
    assert_same(&rt, "Len", LimitedAuth::Len(short()).content(), None);
    assert_same(
        &rt,
        "Content",
        kind(LimitedAuth::Content(zero()).io()),
        None,
    );
    assert_same(&rt, "Content", LimitedAuth::Content(zero()).len(), None);
    assert_same(
        &rt,
        "Content",
        LimitedAuth::Content(zero()).content(),
        Some(zero()),
    );
}

fn not_at_start() -> ipv6_exts::HeaderError {
    ipv6_exts::HeaderError::HopByHopNotAtStart
}

#[test]
fn slices_of_chains(rt: HostRuntime) {
    let (len, content) = (short(), not_at_start());
    let of_len = ipv6_exts::HeaderSliceError::Len(short());
    assert_same(&rt, "Len", of_len.len_error(), Some(&len));
    let none = None;
    assert_same(&rt, "Len", of_len.content(), none);
    let of_content = ipv6_exts::HeaderSliceError::Content(not_at_start());
    assert_same(&rt, "Content", of_content.len_error(), None);
    assert_same(&rt, "Content", of_content.content(), Some(&content));
}

#[test]
fn slices_of_either_version(rt: HostRuntime) {
    let (len, content) = (short(), ip_exts::HeaderError::Ipv6Ext(not_at_start()));
    let of_len = ip_exts::HeadersSliceError::Len(short());
    assert_same(&rt, "Len", of_len.len_error(), Some(&len));
    let none = None;
    assert_same(&rt, "Len", of_len.content(), none);
    let of_content = ip_exts::HeadersSliceError::Content(ip_exts::HeaderError::Ipv6Ext(
        not_at_start(),
    ));
    assert_same(&rt, "Content", of_content.len_error(), None);
    assert_same(&rt, "Content", of_content.content(), Some(&content));
}

#[test]
fn reads_of_chains(rt: HostRuntime) {
    assert_same(&rt, "Io", kind(ChainRead::Io(denied()).io_error()), DENIED);
    assert_same(&rt, "Io", ChainRead::Io(denied()).content_error(), None);
    let content = ChainRead::Content(not_at_start());
    assert_same(&rt, "Content", kind(content.io_error()), None);
    let content = ChainRead::Content(not_at_start()).content_error();
    assert_same(&rt, "Content", content, Some(not_at_start()));
}

#[test]
fn limited_reads_of_chains(rt: HostRuntime) {
    assert_same(&rt, "Io", kind(LimitedChain::Io(denied()).io()), DENIED);
    assert_same(&rt, "Io", LimitedChain::Io(denied()).len(), None);
    assert_same(&rt, "Io", LimitedChain::Io(denied()).content(), None);
    assert_same(&rt, "Len", kind(LimitedChain::Len(short()).io()), None);
    assert_same(&rt, "Len", LimitedChain::Len(short()).len(), Some(short()));
    assert_same(&rt, "Len", LimitedChain::Len(short()).content(), None);
    let content = LimitedChain::Content(not_at_start());
    assert_same(&rt, "Content", kind(content.io()), None);
    let content = LimitedChain::Content(not_at_start());
    assert_same(&rt, "Content", content.len(), None);
    let content = LimitedChain::Content(not_at_start());
    assert_same(&rt, "Content", content.content(), Some(not_at_start()));
}

#[test]
fn writes(rt: HostRuntime) {
    let missing_ext = IpNumber(51);
    let memory = ipv4_exts::HeaderWriteError::Io(AllocError);
    assert_same(&rt, "IPv4, Io", memory.io(), Some(&AllocError));
    assert_same(&rt, "IPv4, Io", memory.content(), None);
    let walk = ipv4_exts::ExtsWalkError::ExtNotReferenced { missing_ext };
    let refused = ipv4_exts::HeaderWriteError::Content(walk);
    let walk = ipv4_exts::ExtsWalkError::ExtNotReferenced { missing_ext };
    assert_same(&rt, "IPv4, Content", refused.io(), None);
    assert_same(&rt, "IPv4, Content", refused.content(), Some(&walk));
    let memory = ipv6_exts::HeaderWriteError::Io(AllocError);
    assert_same(&rt, "IPv6, Io", memory.io(), Some(&AllocError));
    assert_same(&rt, "IPv6, Io", memory.content(), None);
    let walk = ipv6_exts::ExtsWalkError::HopByHopNotAtStart;
    let refused = ipv6_exts::HeaderWriteError::Content(
        ipv6_exts::ExtsWalkError::HopByHopNotAtStart,
    );
    assert_same(&rt, "IPv6, Content", refused.io(), None);
    assert_same(&rt, "IPv6, Content", refused.content(), Some(&walk));
}

/// Returns a length error with this offset.
fn at(layer_start_offset: usize) -> LenError
    ensures { result.layer_start_offset ≡ layer_start_offset }
{
    LenError {
        required_len: 1,
        len: 2,
        len_source: LenSource::Slice,
        layer: Layer::Icmpv4,
        layer_start_offset,
    }
}

#[test]
fn offsets_are_added_to_lengths_alone(rt: HostRuntime) -> Result<(), Fail> {
    let moved = ip_auth::HeaderSliceError::Len(at(3)).add_slice_offset(200);
    let wanted = ip_auth::HeaderSliceError::Len(at(203));
    assert_same(&rt, "authentication, Len", moved, wanted);
    let content = ip_auth::HeaderSliceError::Content(zero());
    let moved = content.clone()?.add_slice_offset(200);
    assert_same(&rt, "authentication, Content", moved, content);
    let moved = ipv6_exts::HeaderSliceError::Len(at(3)).add_slice_offset(200);
    let wanted = ipv6_exts::HeaderSliceError::Len(at(203));
    assert_same(&rt, "chain, Len", moved, wanted);
    let content = ipv6_exts::HeaderSliceError::Content(not_at_start());
    let moved = content.clone()?.add_slice_offset(200);
    assert_same(&rt, "chain, Content", moved, content);
    let moved = ip::HeadersSliceError::Len(at(3)).add_slice_offset(200);
    let wanted = ip::HeadersSliceError::Len(at(203));
    assert_same(&rt, "headers, Len", moved, wanted);
    let content = ip::HeadersSliceError::Content(ip::HeadersError::Ipv4Ext(zero()));
    let moved = content.clone()?.add_slice_offset(200);
    assert_same(&rt, "headers, Content", moved, content);
    Ok(())
}
