//! Why packets aren't rewritten.

use thiserror::Error;

/// A packet isn't rewritten.
#[derive(Clone, Copy, Debug, PartialEq, Eq, Hash, Error)]
pub enum RewriteError {
    /// There is no base header, or the extension headers are truncated or faulty; `ip_dissect::dissect` says why.
    #[error("the headers of the packet are truncated or faulty")]
    Headers,
    /// Fewer bytes are here than the base header states.
    #[error("bytes of the packet are missing")]
    Missing,
    /// The packet is an IPv4 fragment with an offset other than 0: no header precedes what is fragmented (RFC 791, section 3.2).
    #[error("the packet is a later fragment")]
    LaterFragment,
    /// The bytes aren't one extension header of the number, or it can't be in a packet of the version.
    #[error("the bytes are no extension header for the packet")]
    NotAHeader,
    /// The header can't be at the place (RFC 8200, section 4.1): the index is too high, hop-by-hop options would follow a header,
    /// or an IPv4 packet would have two.
    #[error("the header can't be at this place")]
    Misplaced,
    /// No header is selected.
    #[error("the packet has no such header")]
    NoHeader,
    /// The header says that the packet is a fragment. That of an atomic fragment can be removed.
    #[error("the header is that of a fragment")]
    FragmentHeader,
    /// The change is in the part of the packet that is fragmented: after the fragment header of a fragment, or in an IPv4
    /// fragment. `with_payload` changes no fragment but an atomic one, and `in_order` no fragment's order.
    #[error("the change is in the part that is fragmented")]
    Fragmented,
    /// `Authentication::Valid` was asked for, and an authentication header covers what is changed (RFC 4302, section 3.3.3): one
    /// that is kept, or one after a later fragment's header. It covers all but fragment headers before it; for `with_header`, all.
    #[error("an authentication header covers the change")]
    Authenticated,
    /// The payload would be read as an extension header.
    #[error("the payload would be read as an extension header")]
    HeaderFollows,
    /// The length would change, and the packet states none: its length field is 0, and it is no jumbogram (RFC 2675).
    #[error("the packet states no length")]
    NoLength,
    /// The packet would no longer be a jumbogram: without the header that states its length, with a fragment header, or with
    /// 65,535 bytes or fewer after its base header (RFC 2675, sections 2 and 3).
    #[error("the packet would no longer be a jumbogram")]
    NotAJumbogram,
    /// The length field, or the option of a jumbogram, can't state the length of the packet (RFC 791, section 3.1; RFC 8200,
    /// section 3; RFC 2675, section 2).
    #[error("the packet is too long for its length field")]
    TooLong,
    /// The buffer is too short.
    #[error("the buffer is too short for the packet")]
    NoRoom,
}
