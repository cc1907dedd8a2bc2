//! Where a length comes from.
ghost use Rattle.std.specs.Prelude.{◌≡◌};

/// The source of a length.
#[derive(Clone, Copy, Debug, PartialEq, Eq, Hash)]
pub enum LenSource {
    /// The length of the caller's slice.
    Slice,
    /// The total length field of an IPv4 header.
    Ipv4HeaderTotalLen,
    /// The payload length field of an IPv6 header.
    Ipv6HeaderPayloadLen,
}

impl LenSource {
    ghost use Rattle.ip_base.specs.Names.{len_source_name};

    /// Returns the variant's name.
    pub fn name(&self) -> &'static str
        ensures { result.now ≡ len_source_name self.now }
    {
        match self {
            LenSource::Slice => "Slice",
            LenSource::Ipv4HeaderTotalLen => "Ipv4HeaderTotalLen",
            LenSource::Ipv6HeaderPayloadLen => "Ipv6HeaderPayloadLen",
        }
    }
}
