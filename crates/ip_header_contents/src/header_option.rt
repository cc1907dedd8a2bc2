//! One option of a header.
ghost use Rattle.std.specs.Prelude.{◌≡◌, ◌<◌, ◌≤◌, length, IfSome, IfNone};
ghost use Rattle.ip_header_contents.specs.Options.{OptionFields, StartsWithOption, option_of, option_bytes, unknown_option, may_change};

/// An option of a hop-by-hop or destination options header (RFC 8200, section 4.2).
#[derive(Clone, Copy, Debug)]
pub struct HeaderOption<'a> {
    /// The option's type; 0 is Pad1.
    pub option_type: u8,
    /// The option's data; Pad1 has none.
    pub data: &'a [u8],
}

/// What a node does with a packet if it doesn't know an option in it, by the two highest bits of the option's type
/// (RFC 8200, section 4.2).
#[derive(Clone, Copy, Debug, PartialEq, Eq)]
pub enum UnknownOption {
    /// Skips the option and goes on with the next one.
    Skip,
    /// Discards the packet.
    Discard,
    /// Discards the packet, and sends an ICMP Parameter Problem message to its source, even if the destination is multicast.
    Report,
    /// Discards the packet, and sends an ICMP Parameter Problem message to its source, unless the destination is multicast.
    ReportUnlessMulticast,
}

impl HeaderOption<'_> {
    /// Returns the option's length in bytes: 1 for Pad1, otherwise 2 and the length of its data.
    #[inline(always)]
    pub fn encoded_len(&self) -> usize
        ensures { result ≡ length (option_bytes (option_of self.now)) }
    {
        if self.option_type == 0 {
            1
        } else {
            2 + self.data.len()
        }
    }

    /// Returns what a node that doesn't know the option does with the packet.
    #[inline(always)]
    pub fn if_unknown(&self) -> UnknownOption
        ensures { result ≡ unknown_option self.now.option_type }
    {
        match self.option_type >> 6 {
            0 => UnknownOption::Skip,
            1 => UnknownOption::Discard,
            2 => UnknownOption::Report,
            _ => UnknownOption::ReportUnlessMulticast,
        }
    }

    /// Returns whether the option's data can change on the way, by the third-highest bit of its type.
    #[inline(always)]
    pub fn may_change(&self) -> bool
        ensures { result ≡ may_change self.now.option_type }
    {
        self.option_type & 0x20 != 0
    }
}

/// Returns the option at the start of `bytes`, or `None` if there is none that ends within them.
#[inline(always)]
pub fn option_at(bytes: &[u8]) -> Option<HeaderOption<'_>>
    ensures some { IfSome result (λ o. StartsWithOption bytes.now (option_of o)) }
    ensures within { IfSome result (λ o. length (option_bytes (option_of o)) ≤ length bytes.now) }
    ensures none { IfNone result ((o : OptionFields) → StartsWithOption bytes.now o → ⊥) }
{
    let [option_type, after @ ..] = bytes else {
        return None;
    };
    if *option_type == 0 {
        return Some(HeaderOption {
            option_type: 0,
            data: &[],
        });
    }
    let [len, after @ ..] = after else {
        return None;
    };
    let len = usize::from(*len);
    if after.len() < len {
        return None;
    }
    Some(HeaderOption {
        option_type: *option_type,
        data: &after[..len],
    })
}
