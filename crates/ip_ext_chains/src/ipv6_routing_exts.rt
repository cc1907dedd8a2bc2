//! A routing header and the destination options after it.
ghost use Rattle.std.specs.Prelude.{◌≡◌, ◌+◌, ◌≤◌, None};
ghost use Rattle.std.specs.Option.{option_map_or};
ghost use Rattle.ip_spec.specs.Fields.{raw_len};

use ip_ext_headers::Ipv6RawExtHeader;
use std::alloc::AllocError;

/// An IPv6 routing header (RFC 8200, section 4.4) and the destination options after it, which only the final
/// destination processes (section 4.1).
#[derive(Debug, Drop)]
pub struct Ipv6RoutingExtensions {
    /// The routing header.
    pub routing: Ipv6RawExtHeader,
    /// Destination options after the routing header.
    pub final_destination_options: Option<Ipv6RawExtHeader>,
}

impl Ipv6RoutingExtensions {
    /// The smallest length of both headers, in bytes: a routing header without options after it.
    pub const MIN_LEN: usize = 8;

    /// The largest length of both headers, in bytes.
    pub const MAX_LEN: usize = 4096;

    /// Returns a routing header to be filled in its place, without destination options after it.
    #[inline(always)]
    pub(crate) fn blank() -> Ipv6RoutingExtensions
        ensures { result.final_destination_options ≡ None }
    {
        Ipv6RoutingExtensions {
            routing: Ipv6RawExtHeader::default(),
            final_destination_options: None,
        }
    }

    /// Returns the headers' length in bytes, `MIN_LEN` to `MAX_LEN`.
    pub fn header_len(&self) -> usize
        ensures len { result ≡ raw_len self.now.routing
            + option_map_or raw_len self.now.final_destination_options 0 }
        ensures least { 8 ≤ result }
        ensures most { result ≤ 4096 }
    {
        let len = self.routing.header_len();
        match &self.final_destination_options {
            Some(options) => len + options.header_len(),
            None => len,
        }
    }
}

impl Clone for Ipv6RoutingExtensions {
    ghost use Rattle.std.specs.Prelude.{⊤};

    ghost is_clone = { λ h copy. copy ≡ h };

    ghost is_infallible = { λ _. ⊤ };

    fn clone(&self) -> Result<Ipv6RoutingExtensions, AllocError> {
        Ok(Ipv6RoutingExtensions {
            routing: self.routing.clone()?,
            final_destination_options: self.final_destination_options.clone()?,
        })
    }
}

impl PartialEq for Ipv6RoutingExtensions {
    ghost use Rattle.std.specs.Prelude.{◌↔◌, IsTrue};
    ghost use Rattle.std.specs.Cmp.{partial_equiv_from_equiv};
    ghost use Rattle.ip_ext_chains.specs.ExtsEqual.{routing_equivalence, routing_equal};

    ghost eq = { routing_equal };

    ghost laws = { partial_equiv_from_equiv routing_equivalence };

    fn eq(&self, other: &Self) -> bool
        ensures answer { result ≡ routing_equal self.now other.now }
        ensures same { IsTrue result ↔ (self.now ≡ other.now) }
    {
        self.routing == other.routing
            && self.final_destination_options == other.final_destination_options
    }
}

impl Eq for Ipv6RoutingExtensions {
    ghost use Rattle.ip_ext_chains.specs.ExtsEqual.{routing_equivalence};

    ghost laws = { routing_equivalence };
}
