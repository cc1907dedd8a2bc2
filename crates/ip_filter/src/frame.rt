//! What the frame of a packet was.
ghost use Rattle.std.specs.Prelude.{◌≡◌, Some};
ghost use Rattle.ip_filter.specs.Frames.{is_number, has_vlan, has_vlan_of, first_version, is_mismatched};

/// What a frame of a link layer was, which terms of frames ask. `ip_frames` finds all of it but the length.
#[derive(Clone, Copy, Debug, PartialEq, Eq)]
pub struct Frame {
    /// Its length on the wire in bytes, however many were captured.
    pub wire_len: u64,
    /// The EtherType that announced what it carries, after any VLAN tags (IEEE 802.3, section 3.2.6).
    pub ether_type: Option<u16>,
    /// The IP version that it announced, 4 or 6.
    pub version: Option<u8>,
    /// The identifier of its first VLAN tag (IEEE 802.1Q, section 9.6).
    pub outer_vlan: Option<u16>,
    /// The identifier of its second VLAN tag.
    pub inner_vlan: Option<u16>,
}

impl Frame {
    /// Returns whether the frame has a VLAN tag.
    pub(crate) fn has_vlan(&self) -> bool
        ensures { result ≡ has_vlan self.now }
    {
        self.outer_vlan.is_some() || self.inner_vlan.is_some()
    }

    /// Returns whether one of its VLAN tags has this identifier.
    pub(crate) fn has_vlan_of(&self, identifier: u64) -> bool
        ensures { result ≡ has_vlan_of identifier self.now }
    {
        is_number(identifier, self.outer_vlan) || is_number(identifier, self.inner_vlan)
    }

    /// Returns whether this is its EtherType.
    pub(crate) fn has_ether_type(&self, ether_type: u64) -> bool
        ensures { result ≡ is_number ether_type self.now.ether_type }
    {
        is_number(ether_type, self.ether_type)
    }

    /// Returns whether it announced one IP version, and its packet begins with this one, which is the other.
    pub(crate) fn is_mismatched(&self, version: u8) -> bool
        ensures { result ≡ is_mismatched version self.now }
    {
        let Some(announced) = self.version else {
            return false;
        };
        (version == 4 && announced == 6) || (version == 6 && announced == 4)
    }
}

/// Returns whether the number is there, and is this one.
fn is_number(wanted: u64, number: Option<u16>) -> bool
    ensures { result ≡ is_number wanted number }
{
    match number {
        Some(number) => u64::from(number) == wanted,
        None => false,
    }
}

/// Returns the version in the first four bits of a packet, and 0 without one.
pub(crate) fn first_version(packet: &[u8]) -> u8
    ensures { result ≡ first_version (Some packet.now) }
{
    if packet.is_empty() { 0 } else { packet[0] / 16 }
}
