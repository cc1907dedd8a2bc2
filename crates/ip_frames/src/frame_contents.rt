//! What was found in a frame.
ghost use Rattle.std.specs.Prelude.{◌≡◌, ◌<◌, ◌^◌, ℕ, List, ◌++◌, length, option_and_then, option_to_list};
ghost use Rattle.ip_frames.specs.Numbers.{ip_version};
ghost use Rattle.ip_frames.specs.Headers.{vlan_tags};

use crate::ProtocolNumber;

/// Where the headers of a frame end.
#[derive(Clone, Copy, Debug, PartialEq, Eq)]
pub enum FrameEnd {
    /// At an IP packet.
    Ip,
    /// At something else.
    NotIp,
    /// At a header that is truncated.
    Truncated {
        /// How many bytes the header needs at least, counted from where it begins.
        needed: usize,
    },
}

/// The VLAN tags of a frame.
#[derive(Clone, Copy, Debug, PartialEq, Eq)]
pub struct VlanTags {
    /// How many tags there are.
    pub count: usize,
    /// The identifier of the first tag, or 0 if there is none.
    pub first: u16,
    /// The identifier of the second tag, or 0 if there is none.
    pub second: u16,
}

/// What the headers of a frame lead to.
#[derive(Clone, Copy, Debug, PartialEq, Eq)]
pub struct FrameContents {
    /// The length in bytes of all headers: where the IP packet begins, or what isn't IP, or a truncated header.
    pub offset: usize,
    /// What is there.
    pub end: FrameEnd,
    /// The last number that says what the frame carries.
    pub number: Option<ProtocolNumber>,
    /// The VLAN tags.
    pub vlans: VlanTags,
}

impl FrameContents {
    /// Returns the IP version that the frame announces, 4 or 6, or `None` if it announces none.
    #[inline(always)]
    pub fn announced_version(&self) -> Option<u8>
        ensures { result ≡ option_and_then ip_version self.now.number }
    {
        match &self.number {
            Some(number) => number.ip_version(),
            None => None,
        }
    }
}

impl VlanTags {
    /// No tags.
    pub const NONE: VlanTags = VlanTags {
        count: 0,
        first: 0,
        second: 0,
    };

    /// Returns these tags and, if there is one more after them, that one too.
    pub(crate) fn with(self, identifier: Option<u16>) -> VlanTags
        requires { self.count < 2 ^ 63 }
        ensures { (ids : List ℕ) → self ≡ vlan_tags ids
            → result ≡ vlan_tags (ids ++ option_to_list identifier) }
    {
        let Some(identifier) = identifier else {
            return self;
        };
        VlanTags {
            count: self.count + 1,
            first: if self.count == 0 {
                identifier
            } else {
                self.first
            },
            second: if self.count == 1 {
                identifier
            } else {
                self.second
            },
        }
    }
}
