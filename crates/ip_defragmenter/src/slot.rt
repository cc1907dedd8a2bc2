//! Slots of packets.
ghost use Rattle.std.specs.Prelude.{◌≡◌, ◌<◌, length, Some, true};
ghost use Rattle.ip_defragmenter.specs.Slots.{has_key};
ghost use Rattle.ip_defragmenter.specs.Slot.{pending_in, free_slot, slot_with, front_of, padded};

use crate::{FragmentKey, Pending};
use ip_base::IpNumber;

/// A slot: that of a packet which isn't whole yet, or free.
///
/// It consists of numbers alone, so that it can lie in memory of other languages. It is free if all of them are 0.
#[repr(C)]
#[derive(Clone, Copy, Debug, PartialEq, Eq)]
pub struct Slot {
    /// When the packet's first fragment arrived.
    since: u64,
    /// The source address; of IPv4 in the first 4 bytes.
    source: [u8; 16],
    /// The destination address; of IPv4 in the first 4 bytes.
    destination: [u8; 16],
    /// The identification.
    identification: u32,
    /// The context in which the packet's fragments arrive.
    context: u32,
    /// The protocol number of an IPv4 packet.
    protocol: u8,
    /// The IP version, 4 or 6; if it is another number, the slot is free.
    version: u8,
}

/// Returns the first 4 bytes.
#[inline(always)]
fn front_of(bytes: &[u8; 16]) -> [u8; 4]
    ensures { result ≡ front_of bytes.now }
{
    [bytes[0], bytes[1], bytes[2], bytes[3]]
}

/// Returns 4 bytes with twelve zeros after them.
#[inline(always)]
fn padded(bytes: &[u8; 4]) -> [u8; 16]
    ensures { result ≡ padded bytes.now }
{
    [
        bytes[0], bytes[1], bytes[2], bytes[3], 0, 0, 0, 0, 0, 0, 0, 0, 0, 0, 0, 0,
    ]
}

impl Slot {
    /// Returns a free slot.
    pub fn free() -> Slot
        ensures { result ≡ free_slot }
    {
        Slot {
            since: 0,
            source: [0; 16],
            destination: [0; 16],
            identification: 0,
            context: 0,
            protocol: 0,
            version: 0,
        }
    }

    /// Returns the packet that has the slot, or `None` if the slot is free.
    #[inline(always)]
    pub fn pending(&self) -> Option<Pending>
        ensures { result ≡ pending_in self.now }
    {
        let key = match self.version {
            4 => FragmentKey::Ipv4 {
                source: front_of(&self.source),
                destination: front_of(&self.destination),
                protocol: IpNumber(self.protocol),
                identification: (self.identification % 65536) as u16,
            },
            6 => FragmentKey::Ipv6 {
                source: self.source,
                destination: self.destination,
                identification: self.identification,
            },
            _ => return None,
        };
        Some(Pending {
            context: self.context,
            key,
            since: self.since,
        })
    }

    /// Returns whether the slot is that of the packet with this key in this context. Compares the identification first, which
    /// differs most often.
    #[inline(always)]
    pub(crate) fn has_key(&self, context: u32, key: &FragmentKey) -> bool
        ensures { result ≡ has_key context key.now self.now }
    {
        match key {
            FragmentKey::Ipv4 {
                source,
                destination,
                protocol,
                identification,
            } => {
                self.identification % 65536 == u32::from(*identification)
                    && self.version == 4
                    && self.context == context
                    && self.protocol == protocol.0
                    && front_of(&self.source) == *source
                    && front_of(&self.destination) == *destination
            }
            FragmentKey::Ipv6 {
                source,
                destination,
                identification,
            } => {
                self.identification == *identification
                    && self.version == 6
                    && self.context == context
                    && self.source == *source
                    && self.destination == *destination
            }
        }
    }

    /// Makes the slot that of the packet with this key in this context, whose first fragment arrived at this time.
    #[inline(always)]
    pub(crate) fn hold(&mut self, context: u32, key: &FragmentKey, since: u64)
        ensures { self.new ≡ slot_with since context key.now }
    {
        self.since = since;
        self.context = context;
        match key {
            FragmentKey::Ipv4 {
                source,
                destination,
                protocol,
                identification,
            } => {
                self.source = padded(source);
                self.destination = padded(destination);
                self.identification = u32::from(*identification);
                self.protocol = protocol.0;
                self.version = 4;
            }
            FragmentKey::Ipv6 {
                source,
                destination,
                identification,
            } => {
                self.source = *source;
                self.destination = *destination;
                self.identification = *identification;
                self.protocol = 0;
                self.version = 6;
            }
        }
    }
}
