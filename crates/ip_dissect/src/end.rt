//! Why the headers of a packet end where they do, as a value.
use ip_base::err::ip::SliceError;
use ip_base::err::{Layer, LenError};

/// Why a dissection ends where it does. Offsets in errors count from the start of the packet.
#[derive(Clone, Debug, PartialEq, Eq, Drop)]
pub enum End {
    /// The payload follows the headers.
    Payload,
    /// The packet is a fragment with a non-zero offset: its payload continues that of an earlier fragment.
    LaterFragment,
    /// A header is incomplete here: a base header, or an extension header that lies within the length that the packet
    /// states, if it states one.
    Truncated {
        /// The bytes that the header needs, and those that are here. It needs as many as its length field states or, if that
        /// isn't here either, the least that it can have.
        error: LenError,
        /// The IPv6 extension header that is incomplete; `None` if it is another header.
        header: Option<Layer>,
    },
    /// A header doesn't fit the packet, or its bytes are malformed. For an extension header whose length field is here,
    /// that doesn't depend on how many of its other bytes are.
    Fault {
        /// The error.
        error: SliceError,
        /// The faulty IPv6 extension header; `None` if the fault is in another header.
        header: Option<Layer>,
    },
}
