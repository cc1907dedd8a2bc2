//! The fragments of one packet.
ghost use Rattle.std.specs.Prelude.{◌≡◌, ◌≤◌, nat_lt, length, None, false};
ghost use Rattle.ip_reassembly.specs.Fragment.{end_of, is_unaligned};
ghost use Rattle.ip_defragmenter.specs.FragmentOf.{parts_of};
ghost use Rattle.ip_defragmenter.specs.Memory.{piece_of, own_refusal};
ghost use Rattle.ip_defragmenter.specs.Whole.{stated_by};

use crate::points::{Points, is_congested, mixes, no_points, with_point};
use crate::whole::{are_headers, is_too_long, put_front};
use crate::{IpFragment, StoreError, WholeError, write_packet};
use ip_base::IpNumber;
use ip_reassembly::{AddError, Progress, ReassemblyState};

/// How long the headers of a first fragment can be, in bytes.
const HEAD: usize = 4096;

/// How long they can be beside the payload.
const SHORT_HEAD: usize = 64;

/// How long a payload can be, in bytes; one byte more than the longest one.
const PAYLOAD: usize = 65536;

/// How many bytes are missing to a multiple of 1,024.
const UNUSED: usize = 912;

/// The fragments of one packet: the headers of the first fragment, of at most 4,096 bytes, and the payload.
///
/// It consists of numbers alone, so that it can lie in memory of other languages. If all of them are 0, there are no
/// fragments; then only the first bytes of the memory are read, and only bytes that fragments need are written.
#[repr(C)]
#[derive(Drop)]
pub struct PacketMemory {
    /// What has arrived of the payload. Its last bytes, all fields up to the payload and the payload's first ones are in
    /// one page of memory or two: a short packet needs no others, nor does one of two fragments of 1,500 bytes, if the
    /// memory begins at a multiple of 1,024.
    state: ReassemblyState,
    /// The length in bytes of the headers of the first fragment.
    head_len: usize,
    /// The offset in its headers of the number of what follows them.
    link: usize,
    /// Not 0 if the first fragment has arrived.
    first_here: u8,
    /// The number of what the payload starts with.
    next_header: u8,
    /// The ECN code points of the fragments.
    points: Points,
    /// The headers of the first fragment, at the start, if they are that short.
    short_head: [u8; 64],
    /// The payload.
    payload: [u8; 65536],
    /// Longer headers of the first fragment, at the start.
    head: [u8; 4096],
    /// What fills the memory up to a multiple of 1,024 bytes. With whole pages, the fields of all packets would be in the
    /// same few lines of a cache.
    unused: [u8; 912],
}

/// Returns the end of a fragment in the payload, in bytes.
#[inline(always)]
fn end_of(fragment: &IpFragment<'_>) -> usize
    requires { length fragment.now.bytes.now ≤ 65535 }
    ensures { result ≡ end_of (piece_of (parts_of fragment.now)) }
{
    8 * usize::from(fragment.offset.value()) + fragment.bytes.len()
}

/// Returns whether more fragments follow, and the length is 0 or not a multiple of 8.
#[inline(always)]
fn is_unaligned(fragment: &IpFragment<'_>) -> bool
    ensures { result ≡ is_unaligned (piece_of (parts_of fragment.now)) }
{
    let len = fragment.bytes.len();
    fragment.more && (len == 0 || len % 8 != 0)
}

/// Returns whether a fragment ends where the length field of its packet can't.
#[inline(always)]
fn ends_too_late(fragment: &IpFragment<'_>) -> bool
    ensures late { result ≡ nat_lt 65535
        (stated_by fragment.now.headers.now (end_of (piece_of (parts_of fragment.now)))) }
    ensures short { result ≡ false → length fragment.now.bytes.now ≤ 65535 }
{
    fragment.bytes.len() > 65535 || is_too_long(fragment.headers, end_of(fragment))
}

/// Returns why a fragment is refused, whatever else has arrived.
#[inline(always)]
#[tactic(auto, unfolding(crate::specs::Memory::own_refusal))]
pub(crate) fn own_refusal(fragment: &IpFragment<'_>) -> Option<StoreError>
    ensures refusal { result ≡ own_refusal (parts_of fragment.now) }
    ensures short { result ≡ None → length fragment.now.bytes.now ≤ 65535 }
    ensures head { result ≡ None → fragment.now.offset ≡ 0 → length fragment.now.headers.now ≤ 4096 }
{
    if is_unaligned(fragment) {
        return Some(StoreError::Payload(AddError::Unaligned));
    }
    if ends_too_late(fragment) {
        return Some(StoreError::Payload(AddError::TooLong));
    }
    if fragment.offset.value() != 0 {
        return None;
    }
    if !are_headers(fragment.headers, fragment.link) {
        return Some(StoreError::Headers);
    }
    if fragment.headers.len() > HEAD {
        return Some(StoreError::HeadersTooLong);
    }
    None
}

impl PacketMemory {
    ghost use Rattle.std.specs.Prelude.{is_some, slice_index, ◌≡◌, ◌+◌, ◌*◌, ◌++◌, ◌<◌, ◌≤◌, ◌==◌, ◌||◌, ◌⊎◌, ℕ, List, [], ◌∷◌, length, max, true, false, None, Some, Ok, OnOk, OnErr, IfOk, IfSome, drop, if◌then◌else◌};
    ghost use Rattle.std.specs.List.{list_any};
    ghost use Rattle.std.specs.Result.{result_err, is_ok};
    ghost use Rattle.ip_reassembly.specs.Fragment.{Fragment, end_of};
    ghost use Rattle.ip_reassembly.specs.Reassembly.{is_set, reach_of};
    ghost use Rattle.ip_reassembly.specs.Received.{payload_in};
    ghost use Rattle.ip_reassembly.specs.Split.{IsSplit, are_among};
    ghost use Rattle.ip_defragmenter.specs.Ecn.{is_congested, marked};
    ghost use Rattle.ip_defragmenter.specs.Points.{HoldsPoints};
    ghost use Rattle.ip_defragmenter.specs.FragmentOf.{FragmentParts, parts_of};
    ghost use Rattle.ip_defragmenter.specs.Memory.{HasSameBytes, HasSameHeads, HoldsStored, IsZeroMemory, WasStored, FirstParts, kept_len, payload_buffer, IsWritable, AreJoinable, pieces_of, points_of, stored_all, kept_headers, first_in, first_of, first_after, exceeds, own_refusal, piece_of, refusal_after, stored_none, stored_outcome, stored_after, outcome_by, stored_by};
    ghost use Rattle.ip_defragmenter.specs.Whole.{whole_packet, whole_fault};

    /// Returns a memory without fragments.
    pub fn new() -> PacketMemory
        ensures stored { HoldsStored result (stored_none 65535) }
        ensures zero { IsZeroMemory result }
    {
        PacketMemory {
            state: ReassemblyState::new(true),
            head_len: 0,
            link: 0,
            first_here: 0,
            next_header: 0,
            points: no_points(),
            short_head: [0; SHORT_HEAD],
            payload: [0; PAYLOAD],
            head: [0; HEAD],
            unused: [0; UNUSED],
        }
    }

    /// Forgets whatever the memory was, so that there are no fragments. The bytes of headers and payload
    /// stay.
    pub fn reset(&mut self)
        ensures stored { HoldsStored self.new (stored_none 65535) }
        ensures bytes { HasSameBytes self.old self.new }
    {
        self.forget_headers();
        self.state.reset(true);
    }

    /// Forgets all fragments. The bytes of headers and payload stay.
    pub fn clear(&mut self)
        ensures stored { (s : _) → HoldsStored self.old s
            → HoldsStored self.new (stored_none s.payload.limit) }
        ensures first { first_in self.new ≡ None }
        ensures bytes { HasSameBytes self.old self.new }
    {
        self.forget_headers();
        self.state.clear();
    }

    /// Forgets the first fragment, and all ECN code points.
    #[inline(always)]
    fn forget_headers(&mut self)
        ensures first { first_in self.new ≡ None }
        ensures points { HoldsPoints self.new.points [] }
        ensures state { self.new.state ≡ self.old.state }
        ensures bytes { HasSameBytes self.old self.new }
    {
        self.first_here = 0;
        self.points = no_points();
    }

    /// Adds a fragment of the packet. Returns whether the packet is whole; then `write` writes it. Keeps the headers of the
    /// first fragment when it arrives.
    ///
    /// Returns an error and stores nothing if the payload refuses the fragment, as `Reassembly::add` does, if the packet would
    /// be too long for its length field, or if the fragment is the first and its headers are longer than their buffer, or
    /// none. After a conflict the packet is abandoned: an overlap or two ends (RFC 5722), or fragments of which some are
    /// ECN-capable and others aren't (RFC 3168, section 5.3).
    pub fn add(&mut self, fragment: &IpFragment<'_>) -> Result<Progress, StoreError>
        ensures outcome { (s : _) → HoldsStored self.old s
            → result ≡ stored_outcome s (parts_of fragment.now) }
        ensures stored { (s : _) → HoldsStored self.old s
            → HoldsStored self.new (stored_after s (parts_of fragment.now)) }
        ensures first { first_in self.new ≡ (if is_ok result
            then first_after (first_in self.old) (parts_of fragment.now) else first_in self.old) }

        // Only the fragment's bytes are written, and the headers of a first one; nothing if it is refused.
        ensures outside { (i : ℕ) → (i < 8 * fragment.now.offset) ⊎ (8 * fragment.now.offset + length fragment.now.bytes.now ≤ i)
            → slice_index (payload_buffer self.new) i ≡ slice_index (payload_buffer self.old) i }
        ensures heads { HasSameHeads (kept_len (parts_of fragment.now)) self.old self.new }
        ensures refused { OnErr result (HasSameBytes self.old self.new) }

        // A whole packet can be written.
        ensures whole { (s : _) → HoldsStored self.old s → result ≡ Ok Progress.Whole
            → (f : FirstParts) × ((payload : List ℕ) × IsWritable (stored_after s (parts_of fragment.now)) f payload) }

        // The fragments of one payload, in any order and repeated, make it whole once each of them was added.
        ensures pieces { (payload : List ℕ) (pieces : List Fragment) (limit : ℕ) (given : List FragmentParts)
            → WasStored self.old limit given → IsSplit payload pieces → length payload ≤ limit
            → are_among (pieces_of (parts_of fragment.now ∷ given)) pieces ≡ true
            → AreJoinable (length payload) (parts_of fragment.now ∷ given)
            → result ≡ Ok (if are_among pieces (pieces_of (parts_of fragment.now ∷ given))
            then Progress.Whole else Progress.MoreWanted) }
    {
        match own_refusal(fragment) {
            Some(error) => Err(error),
            None => self.add_sound(fragment),
        }
    }

    /// Adds a fragment that isn't refused by itself.
    pub(crate) fn add_sound(&mut self, fragment: &IpFragment<'_>) -> Result<Progress, StoreError>
        requires sound { own_refusal (parts_of fragment.now) ≡ None }
        requires short { length fragment.now.bytes.now ≤ 65535 }
        requires head { fragment.now.offset ≡ 0 → length fragment.now.headers.now ≤ 4096 }
        ensures outcome { (s : _) → HoldsStored self.old s
            → result ≡ outcome_by s (parts_of fragment.now) (refusal_after s (parts_of fragment.now)) }
        ensures stored { (s : _) → HoldsStored self.old s
            → HoldsStored self.new
            (stored_by s (parts_of fragment.now) (refusal_after s (parts_of fragment.now))) }
        ensures first { first_in self.new ≡ (if is_ok result
            then first_after (first_in self.old) (parts_of fragment.now) else first_in self.old) }
        ensures outside { (i : ℕ) → (i < 8 * fragment.now.offset) ⊎ (8 * fragment.now.offset + length fragment.now.bytes.now ≤ i)
            → slice_index (payload_buffer self.new) i ≡ slice_index (payload_buffer self.old) i }
        ensures heads { HasSameHeads (kept_len (parts_of fragment.now)) self.old self.new }
        ensures refused { OnErr result (HasSameBytes self.old self.new) }
    {
        if self.state.is_abandoned() {
            return Err(StoreError::Payload(AddError::Abandoned));
        }
        if mixes(self.points, fragment.ecn) {
            self.state.abandon();
            return Err(StoreError::MixedEcn);
        }
        if self.exceeds(fragment) {
            return Err(StoreError::Payload(AddError::TooLong));
        }
        match self.state.add(
            &mut self.payload,
            fragment.offset,
            fragment.more,
            fragment.bytes,
        ) {
            Ok(progress) => {
                self.note(fragment);
                Ok(self.progress(progress))
            }
            Err(error) => Err(StoreError::Payload(error)),
        }
    }

    /// Returns whether the packet would be too long for its length field with a fragment.
    #[inline(always)]
    fn exceeds(&self, fragment: &IpFragment<'_>) -> bool
        requires { length fragment.now.bytes.now ≤ 65535 }
        ensures { (s : _) → HoldsStored self.now s
            → result ≡ exceeds (first_after s.first (parts_of fragment.now))
            (max (reach_of s.payload.fragments) (end_of (piece_of (parts_of fragment.now)))) }
    {
        let end = self.state.reach().max(end_of(fragment));
        if self.has_first() {
            return is_too_long(self.headers(), end);
        }
        fragment.offset.value() == 0 && is_too_long(fragment.headers, end)
    }

    /// Returns whether the packet is whole, by whether its payload is.
    #[inline(always)]
    fn progress(&self, payload: Progress) -> Progress
        ensures { result ≡ (if is_some (first_in self.now) then payload else Progress.MoreWanted) }
    {
        if self.has_first() {
            payload
        } else {
            Progress::MoreWanted
        }
    }

    /// Notes what a fragment has besides its bytes: its headers, if it is the first one, and its ECN code point.
    #[inline(always)]
    fn note(&mut self, fragment: &IpFragment<'_>)
        requires { fragment.now.offset ≡ 0 → length fragment.now.headers.now ≤ 4096 }
        ensures first { first_in self.new ≡ first_after (first_in self.old) (parts_of fragment.now) }
        ensures points { (ps : List ℕ) → HoldsPoints self.old.points ps
            → HoldsPoints self.new.points (fragment.now.ecn ∷ ps) }
        ensures state { self.new.state ≡ self.old.state }
        ensures payload { self.new.payload ≡ self.old.payload }
        ensures heads { HasSameHeads (kept_len (parts_of fragment.now)) self.old self.new }
    {
        if fragment.offset.value() == 0 && !self.has_first() {
            self.keep_first(fragment);
        }
        self.points = with_point(self.points, fragment.ecn);
    }

    /// Returns whether the first fragment has arrived.
    #[inline(always)]
    fn has_first(&self) -> bool
        ensures has { result ≡ is_some (first_in self.now) }
        ensures within { result ≡ true → self.now.head_len ≤ length self.now.head }
    {
        self.first_here != 0 && self.head_len <= self.head.len()
    }

    /// Keeps headers in the first array that has room for them.
    #[inline(always)]
    fn keep_headers(&mut self, headers: &[u8])
        requires { length headers.now ≤ length self.old.head }
        ensures headers { kept_headers self.new.head_len self.new.short_head self.new.head ≡ headers.now }
        ensures within { self.new.head_len ≤ length self.new.head }
        ensures state { self.new.state ≡ self.old.state }
        ensures payload { self.new.payload ≡ self.old.payload }
        ensures points { self.new.points ≡ self.old.points }
        ensures heads { HasSameHeads (length headers.now) self.old self.new }
    {
        self.head_len = headers.len();
        if headers.len() <= SHORT_HEAD {
            put_front(&mut self.short_head, headers);
        } else {
            put_front(&mut self.head, headers);
        }
    }

    /// Returns the headers of the first fragment.
    #[inline(always)]
    fn headers(&self) -> &[u8]
        requires { self.now.head_len ≤ length self.now.head }
        ensures { result.now ≡ kept_headers self.now.head_len self.now.short_head self.now.head }
    {
        if self.head_len <= SHORT_HEAD {
            &self.short_head[..self.head_len]
        } else {
            &self.head[..self.head_len]
        }
    }

    /// Keeps the headers of the first fragment.
    fn keep_first(&mut self, fragment: &IpFragment<'_>)
        requires { length fragment.now.headers.now ≤ length self.old.head }
        ensures first { first_in self.new ≡ Some (first_of (parts_of fragment.now)) }
        ensures state { self.new.state ≡ self.old.state }
        ensures payload { self.new.payload ≡ self.old.payload }
        ensures points { self.new.points ≡ self.old.points }
        ensures heads { HasSameHeads (length fragment.now.headers.now) self.old self.new }
    {
        self.keep_headers(fragment.headers);
        self.first_here = 1;
        self.link = fragment.link;
        self.next_header = fragment.next_header.0;
    }

    /// Writes the whole packet to the start of `out`, as `write_packet` does, and returns its length in bytes. Returns
    /// `None` and leaves `out` as it is if the packet isn't whole, or was abandoned.
    pub fn write(&self, out: &mut [u8]) -> Result<Option<usize>, WholeError>
        ensures not_whole { (s : _) → HoldsStored self.now s
            → payload_in s.payload ≡ None → (result ≡ Ok None) × (out.new ≡ out.old) }
        ensures not_first { first_in self.now ≡ None → (result ≡ Ok None) × (out.new ≡ out.old) }
        ensures fault { (s f payload : _) → HoldsStored self.now s
            → payload_in s.payload ≡ Some payload → s.first ≡ Some f
            → result_err result ≡ whole_fault f.headers f.link (length payload) (length out.old) }
        ensures written { (s f payload : _) → HoldsStored self.now s
            → payload_in s.payload ≡ Some payload → s.first ≡ Some f
            → OnOk result ((result ≡ Ok (Some (length f.headers + length payload)))
            × (out.new ≡ whole_packet (marked (is_congested s.points) f.headers) f.link f.number payload
            ++ drop (length f.headers + length payload) out.old)) }
        ensures within { IfOk result (λ len. IfSome len (λ n. n ≤ length out.old)) }
        ensures stays { OnErr result (out.new ≡ out.old) }
        ensures nothing { result ≡ Ok None → out.new ≡ out.old }

        // After the fragments of one payload, in any order and repeated, it is that payload after the first one's headers.
        ensures pieces { (payload : List ℕ) (pieces : List Fragment) (limit : ℕ) (given : List FragmentParts) (f : FirstParts)
            → WasStored self.now limit given → IsSplit payload pieces → length payload ≤ limit
            → are_among (pieces_of given) pieces ≡ true → AreJoinable (length payload) given
            → are_among pieces (pieces_of given) ≡ true
            → (stored_all (stored_none limit) given).first ≡ Some f
            → OnOk result ((result ≡ Ok (Some (length f.headers + length payload)))
            × (out.new ≡ whole_packet (marked (is_congested (points_of given)) f.headers) f.link f.number payload
            ++ drop (length f.headers + length payload) out.old)) }
    {
        self.write_stored(out)
    }

    /// Writes the whole packet, by what has been stored.
    fn write_stored(&self, out: &mut [u8]) -> Result<Option<usize>, WholeError>
        ensures not_whole { (s : _) → HoldsStored self.now s
            → payload_in s.payload ≡ None → (result ≡ Ok None) × (out.new ≡ out.old) }
        ensures not_first { first_in self.now ≡ None → (result ≡ Ok None) × (out.new ≡ out.old) }
        ensures fault { (s f payload : _) → HoldsStored self.now s
            → payload_in s.payload ≡ Some payload → s.first ≡ Some f
            → result_err result ≡ whole_fault f.headers f.link (length payload) (length out.old) }
        ensures written { (s f payload : _) → HoldsStored self.now s
            → payload_in s.payload ≡ Some payload → s.first ≡ Some f
            → OnOk result ((result ≡ Ok (Some (length f.headers + length payload)))
            × (out.new ≡ whole_packet (marked (is_congested s.points) f.headers) f.link f.number payload
            ++ drop (length f.headers + length payload) out.old)) }
        ensures within { IfOk result (λ len. IfSome len (λ n. n ≤ length out.old)) }
        ensures stays { OnErr result (out.new ≡ out.old) }
        ensures nothing { result ≡ Ok None → out.new ≡ out.old }
    {
        if !self.has_first() {
            return Ok(None);
        }
        match self.state.payload(&self.payload) {
            Some(payload) => self.write_with(payload, out),
            None => Ok(None),
        }
    }

    /// Writes the whole packet, whose payload is this.
    #[inline(always)]
    fn write_with(&self, payload: &[u8], out: &mut [u8]) -> Result<Option<usize>, WholeError>
        requires { self.now.head_len ≤ length self.now.head }
        ensures fault { (f : FirstParts) → first_in self.now ≡ Some f
            → result_err result ≡ whole_fault f.headers f.link (length payload.now) (length out.old) }
        ensures written { (f : FirstParts) (points : List ℕ) → first_in self.now ≡ Some f
            → HoldsPoints self.now.points points
            → OnOk result ((result ≡ Ok (Some (length f.headers + length payload.now)))
            × (out.new ≡ whole_packet (marked (is_congested points) f.headers) f.link f.number payload.now
            ++ drop (length f.headers + length payload.now) out.old)) }
        ensures within { IfOk result (λ len. IfSome len (λ n. n ≤ length out.old)) }
        ensures stays { OnErr result (out.new ≡ out.old) }
        ensures some { result ≡ Ok None → out.new ≡ out.old }
    {
        let number = IpNumber(self.next_header);
        let congested = is_congested(self.points);
        match write_packet(self.headers(), self.link, number, congested, payload, out) {
            Ok(len) => Ok(Some(len)),
            Err(error) => Err(error),
        }
    }
}
