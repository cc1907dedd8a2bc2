//! Why fragments are dropped, and whole packets aren't written.

use ip_reassembly::AddError;
use thiserror::Error;

/// A fragment can't be used, whatever other fragments there are.
#[derive(Clone, Copy, Debug, PartialEq, Eq, Hash, Error)]
pub enum FragmentError {
    /// The fragment's extension headers are truncated or faulty (RFC 7112), or its total length is below its header
    /// length.
    #[error("the headers of the fragment are truncated or faulty")]
    Headers,
    /// The base header states a length of 0, which no fragment has (RFC 2675, section 3).
    #[error("the fragment states no length")]
    NoLength,
    /// Fewer bytes are here than the base header states.
    #[error("bytes of the fragment are missing")]
    Missing,
}

/// A whole packet can't be written.
#[derive(Clone, Copy, Debug, PartialEq, Eq, Hash, Error)]
pub enum WholeError {
    /// The headers are no base header, or, in IPv6, have no byte at the offset of the number of what follows them.
    #[error("the headers are not those of a fragment")]
    Headers,
    /// The length field can't state the packet's length (RFC 791, section 3.1; RFC 8200, section 4.5).
    #[error("the packet is too long for its length field")]
    TooLong,
    /// The buffer is too short.
    #[error("the buffer is too short for the packet")]
    NoRoom,
}

/// A fragment isn't stored.
#[derive(Clone, Copy, Debug, PartialEq, Eq, Hash, Error)]
pub enum StoreError {
    /// The payload refuses it.
    #[error(transparent)]
    Payload(AddError),
    /// It is the first fragment, and its headers aren't those of a packet.
    #[error("the headers of the first fragment are not those of a packet")]
    Headers,
    /// It is the first fragment, and its headers are longer than the buffer for them.
    #[error("the headers of the first fragment are longer than the buffer")]
    HeadersTooLong,
    /// Some fragments of the packet are ECN-capable, and others aren't (RFC 3168, section 5.3). The packet is abandoned.
    #[error("some fragments of the packet are ECN-capable, and others are not")]
    MixedEcn,
}
