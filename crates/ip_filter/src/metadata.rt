//! What the most frequent tests ask of a packet, in a few numbers.
ghost use Rattle.std.specs.Prelude.{◌≡◌, ◌==◌, ◌&&◌, ◌||◌, ℕ, length};
ghost use Rattle.ip_dissect.specs.Dissection.{dissected};
ghost use Rattle.ip_filter.specs.Flags.{AreFlags, AreKnown};
ghost use Rattle.ip_filter.specs.Tests.{compared, meets};
ghost use Rattle.ip_filter.specs.declared.term.Quantity.TheVariants.{Payload};

use crate::Test;
use crate::flags::Flags;
use crate::meets::{comparison_of, kind};
use ip_base::IpNumber;
use ip_dissect::{Packet, PacketStart, PacketVisitor};

/// What tests of metadata ask of a packet. Where many packets are tested, each such test is run on all of them before the next
/// one: that needs no branch on what a packet is, which no processor could predict.
#[derive(Clone, Copy, Debug)]
pub struct Metadata<'a> {
    /// The bytes that start with the packet.
    pub bytes: &'a [u8],
    flags: Flags,
    payload_len: usize,
    number: IpNumber,
    version: u8,
    ghost flags_are: { (m : ℕ) → AreFlags m (dissected bytes.now) flags },
    ghost payload_is: { payload_len ≡ length (dissected bytes.now).payload },
    ghost number_is: { number.0 ≡ (dissected bytes.now).number },
    ghost version_is: { version ≡ (dissected bytes.now).version },
}

impl<'a> Metadata<'a> {
    /// Returns what tests of metadata ask of the packet at the start of `bytes`, which may be any bytes.
    pub fn of(bytes: &'a [u8]) -> Metadata<'a>
        ensures { result.bytes.now ≡ bytes.now }
    {
        let mut flags = Flags::none();
        let packet = Packet::walk(bytes, &mut flags);
        Metadata::of_packet(&packet, flags.of(&packet))
    }

    /// Sets the metadata to that of the packet at the start of `bytes`, in its place: if it were returned, it would be moved.
    #[inline(always)]
    pub fn set(&mut self, bytes: &'a [u8])
        ensures { self.new.bytes.now ≡ bytes.now }
    {
        let _ = Packet::visit(bytes, &mut MetadataVisitor { metadata: self });
    }

    /// Returns what tests of metadata ask of a packet that has these flags.
    #[inline(always)]
    fn of_packet(packet: &Packet<'a>, flags: Flags) -> Metadata<'a>
        requires { AreKnown (dissected packet.now.bytes.now) flags }
        ensures { result.bytes.now ≡ packet.now.bytes.now }
    {
        Metadata {
            bytes: packet.bytes,
            flags: with_error(packet, flags),
            payload_len: packet.summary.payload_len,
            number: packet.summary.next_header,
            version: packet.summary.version,
        }
    }
}

/// Returns the flags of a packet, and those of its error, if there is one.
#[inline(always)]
fn with_error(packet: &Packet<'_>, flags: Flags) -> Flags
    requires { AreKnown (dissected packet.now.bytes.now) flags }
    ensures { (m : ℕ) → AreFlags m (dissected packet.now.bytes.now) result }
{
    if packet.summary.has_error {
        return flags.with_end(&packet.end());
    }
    flags
}

/// A visitor that sets a packet's metadata.
#[derive(Debug, Drop)]
struct MetadataVisitor<'b, 'a> {
    metadata: &'b mut Metadata<'a>,
}

impl<'a> PacketVisitor<'a> for MetadataVisitor<'_, 'a> {
    type Plain = ();

    type Slow = ();

    ghost plain = { λ old s new _. (new.metadata.ghost_name ≡ old.metadata.ghost_name)
        × (new.metadata.now.bytes.now ≡ s) };

    ghost slow = { λ old s new _. (new.metadata.ghost_name ≡ old.metadata.ghost_name)
        × (new.metadata.now.bytes.now ≡ s) };

    #[inline(always)]
    fn visit_plain(&mut self, packet: Packet<'a>) {
        *self.metadata = Metadata::of_packet(&packet, Flags::none().of(&packet));
    }

    #[inline(always)]
    fn visit_slow(&mut self, start: PacketStart<'a>) {
        let mut flags = Flags::none();
        let packet = start.walk(&mut flags);
        *self.metadata = Metadata::of_packet(&packet, flags.of(&packet));
    }
}

impl Test {
    /// Returns whether the test asks metadata: flags, the protocol number that follows the headers, with the version or
    /// without, or of the payload bytes that are here.
    #[inline(always)]
    pub fn asks_metadata(&self) -> bool
        ensures { result ≡ ((self.now.kind == 1) || (self.now.kind == 2) || (self.now.kind == 5) || (self.now.kind == 27)) }
    {
        matches!(
            self.kind,
            kind::FLAGS | kind::LEADS_TO | kind::PAYLOAD | kind::VERSION_LEADS_TO
        )
    }

    /// Returns whether the test asks metadata and the packet with this metadata meets it.
    #[inline(always)]
    pub fn is_met_by(&self, metadata: &Metadata<'_>) -> bool
        ensures { result ≡ (((self.now.kind == 1) || (self.now.kind == 2) || (self.now.kind == 5) || (self.now.kind == 27))
            && meets self.now (dissected metadata.now.bytes.now)) }
    {
        match self.kind {
            kind::FLAGS => metadata.flags.has_one_of(self.number),
            kind::LEADS_TO => (metadata.version != 0)
                & (u64::from(metadata.number.0) == self.number),
            kind::PAYLOAD => self.compares_payload(metadata),
            kind::VERSION_LEADS_TO => {
                (metadata.version == self.version) & (u64::from(metadata.number.0) == self.number)
            }
            _ => false,
        }
    }

    /// Returns whether the packet with this metadata has a base header, and its payload's length compares as the test asks.
    #[inline(always)]
    fn compares_payload(&self, metadata: &Metadata<'_>) -> bool
        ensures { result ≡ compared self.now Payload (dissected metadata.now.bytes.now) }
    {
        match comparison_of(self.comparison) {
            Some(comparison) => {
                (metadata.version != 0) & comparison.holds(metadata.payload_len as u64, self.number)
            }
            None => false,
        }
    }
}
