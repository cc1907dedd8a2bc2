//! The payload of one packet.

use crate::{AddError, Progress, ReassemblyState};
use ip_base::IpFragOffset;

/// The payload of one packet, reassembled from its fragments in a buffer of the caller's.
///
/// Fragments come in any order, and may be repeated. In a contract, `HasReceived` says what has been received, and
/// `WasGiven` which fragments were added.
#[derive(Drop)]
pub struct Reassembly<'a> {
    /// The bytes of the payload, at their offsets.
    buffer: &'a mut [u8],
    /// What has arrived.
    state: ReassemblyState,
}

impl<'a> Reassembly<'a> {
    ghost use Rattle.std.specs.Prelude.{◌≡◌, ◌+◌, ◌*◌, ◌≤◌, ◌<◌, ◌⊎◌, if◌then◌else◌, ℕ, [], ◌∷◌, min, length, true, false, Ok, None, Some, IfSome, OnErr, slice_index};
    ghost use Rattle.std.specs.List.{list_any};
    ghost use Rattle.std.specs.Option.{option_copied};
    ghost use Rattle.ip_reassembly.specs.Fragment.{fragment_at, has_byte};
    ghost use Rattle.ip_reassembly.specs.Received.{given_up, payload_in, outcome_of, received_after};
    ghost use Rattle.ip_reassembly.specs.Reassembly.{HasReceived, buffer_of};
    ghost use Rattle.ip_reassembly.specs.Split.{IsSplit, are_among, WasGiven};

    /// Returns a reassembly that has received nothing. The payload can be as long as the buffer, and at most 65,535
    /// bytes.
    ///
    /// After a conflict, an overlap or two ends, the caller calls `abandon` (RFC 5722; RFC 8200, section 4.5).
    pub fn new(buffer: &'a mut [u8]) -> Reassembly<'a>
        ensures given { WasGiven result (min (length buffer.old) 65535) false [] }
        ensures buffer { buffer_of result ≡ buffer.old }
    {
        Reassembly::begun(buffer, false)
    }

    /// Returns a reassembly that has received nothing, and that abandons the packet by itself after a conflict: an
    /// overlap or two ends (RFC 5722; RFC 8200, section 4.5). The payload can be as long as the buffer, and at most
    /// 65,535 bytes.
    pub fn abandoning(buffer: &'a mut [u8]) -> Reassembly<'a>
        ensures given { WasGiven result (min (length buffer.old) 65535) true [] }
        ensures buffer { buffer_of result ≡ buffer.old }
    {
        Reassembly::begun(buffer, true)
    }

    /// Returns a reassembly that has received nothing, and that abandons the packet by itself or not.
    fn begun(buffer: &'a mut [u8], abandons: bool) -> Reassembly<'a>
        ensures given { WasGiven result (min (length buffer.old) 65535) abandons [] }
        ensures buffer { buffer_of result ≡ buffer.old }
    {
        Reassembly {
            buffer,
            state: ReassemblyState::new(abandons),
        }
    }

    /// Adds a fragment with the offset, in units of 8 bytes, and the flag of its header. Returns whether the payload is
    /// whole; then `payload` returns it. An exact repetition of a fragment is accepted, and changes nothing.
    ///
    /// Returns an error and doesn't store the fragment if it is unaligned or too long, overlaps others or contradicts the
    /// end of the payload, or if the packet was abandoned (RFC 791, section 3.2; RFC 5722; RFC 8200, section 4.5).
    pub fn add(
        &mut self,
        offset: IpFragOffset,
        more: bool,
        bytes: &[u8],
    ) -> Result<Progress, AddError>
        ensures outcome { (s : _) → HasReceived self.old s
            → result ≡ outcome_of s (fragment_at offset more bytes.now) }
        ensures received { (s : _) → HasReceived self.old s
            → HasReceived self.new (received_after s (fragment_at offset more bytes.now)) }

        // Only the fragment's bytes are written, and none if it is refused.
        ensures outside { (i : ℕ) → (i < 8 * offset) ⊎ (8 * offset + length bytes.now ≤ i)
            → slice_index (buffer_of self.new) i ≡ slice_index (buffer_of self.old) i }
        ensures refused { OnErr result (buffer_of self.new ≡ buffer_of self.old) }
        ensures given { (limit abandons given : _) → WasGiven self.old limit abandons given
            → WasGiven self.new limit abandons (fragment_at offset more bytes.now ∷ given) }

        // The fragments of one payload, in any order and repeated, make it whole once each of them was added.
        ensures pieces { (payload pieces given limit abandons : _)
            → WasGiven self.old limit abandons given
            → IsSplit payload pieces → length payload ≤ limit
            → are_among (fragment_at offset more bytes.now ∷ given) pieces ≡ true
            → result ≡ Ok (if are_among pieces (fragment_at offset more bytes.now ∷ given)
            then Progress.Whole else Progress.MoreWanted) }
    {
        self.state.add(self.buffer, offset, more, bytes)
    }

    /// Returns the payload if it is whole and wasn't abandoned.
    pub fn payload(&self) -> Option<&[u8]>
        ensures received { (s : _) → HasReceived self.now s → option_copied result ≡ payload_in s }

        // After the fragments of one payload, in any order and repeated, it is that payload.
        ensures pieces { (payload pieces given limit abandons : _)
            → WasGiven self.now limit abandons given
            → IsSplit payload pieces → length payload ≤ limit → are_among given pieces ≡ true
            → option_copied result ≡ (if are_among pieces given then Some payload else None) }

        // After any fragments, each byte is one that a fragment had at its offset.
        ensures bytes { (given limit abandons : _) → WasGiven self.now limit abandons given
            → IfSome result (λ payload. (i : ℕ) → i < length payload.now
            → list_any (has_byte i (slice_index payload.now i)) given ≡ true) }
    {
        self.state.payload(self.buffer)
    }

    /// Abandons the packet, as after a conflict (RFC 5722). `add` refuses every further fragment, and `payload` returns
    /// `None`, until `clear` is called.
    pub fn abandon(&mut self)
        ensures received { (s : _) → HasReceived self.old s → HasReceived self.new (given_up s) }
        ensures buffer { buffer_of self.new ≡ buffer_of self.old }
    {
        self.state.abandon();
    }

    /// Returns whether the packet was abandoned.
    pub fn is_abandoned(&self) -> bool
        ensures { (s : _) → HasReceived self.now s → result ≡ s.abandoned }
    {
        self.state.is_abandoned()
    }

    /// Forgets all fragments, so that another packet can be reassembled in the same buffer, whose bytes stay. It isn't
    /// abandoned.
    pub fn clear(&mut self)
        ensures given { (s : _) → HasReceived self.old s → WasGiven self.new s.limit s.abandons [] }
        ensures buffer { buffer_of self.new ≡ buffer_of self.old }
    {
        self.state.clear();
    }
}
