//! What is to be changed in a packet.

ghost use Rattle.std.specs.Prelude.{◌≡◌};
ghost use Rattle.ip_rewrite.specs.Request.{clearing, ordering, leaving};

use crate::{Authentication, HeaderSet, Which};

/// Changes of a packet's extension headers, of which any number are made at once.
#[derive(Clone, Copy, Debug, PartialEq, Eq)]
pub struct Request {
    /// The headers that are left out: none for `Which::Headers(HeaderSet::default())`.
    pub without: Which,
    /// The reserved bits of the others are set to zero, as by `clear_reserved_bits`.
    pub clears: bool,
    /// The others are put in the recommended order, as by `in_order`.
    pub orders: bool,
    /// What may become of an authentication header that is kept.
    pub authentication: Authentication,
}

impl Request {
    /// Returns the request of `clear_reserved_bits`.
    #[inline(always)]
    pub(crate) fn clearing(authentication: Authentication) -> Request
        ensures { result ≡ clearing authentication }
    {
        Request {
            without: Which::Headers(HeaderSet::default()),
            clears: true,
            orders: false,
            authentication,
        }
    }

    /// Returns the request of `in_order`.
    #[inline(always)]
    pub(crate) fn ordering(authentication: Authentication) -> Request
        ensures { result ≡ ordering authentication }
    {
        Request {
            without: Which::Headers(HeaderSet::default()),
            clears: false,
            orders: true,
            authentication,
        }
    }

    /// Returns the request of `remove_header`.
    #[inline(always)]
    pub(crate) fn leaving(which: Which, authentication: Authentication) -> Request
        ensures { result ≡ leaving which authentication }
    {
        Request {
            without: which,
            clears: false,
            orders: false,
            authentication,
        }
    }
}
