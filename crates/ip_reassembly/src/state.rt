//! What has arrived of a payload, whose bytes are in a buffer of the caller's.
ghost use Rattle.std.specs.Prelude.{◌≡◌, ◌%◌, ◌==◌, ◌&&◌, ◌||◌, not, false};
ghost use Rattle.ip_reassembly.specs.Reassembly.{first_mark, is_set};

use crate::marks::{are_free_by, is_fragment, mark_by_run, store, unmark};
use crate::run::Run;
use crate::{AddError, Progress};
use ip_base::IpFragOffset;

/// The largest length of an IP payload.
const MAX_PAYLOAD: usize = 65535;

/// How many bytes the marks of the longest payload have, which has 8,192 units of 8 bytes.
const MARKS: usize = 2048;

/// Returns the mark of the first unit of a fragment.
#[inline(always)]
fn first_mark_of(more: bool) -> u8
    ensures { result ≡ first_mark more }
{
    if more { 1 } else { 2 }
}

/// Returns whether a fragment that isn't the last has a length that is 0 or not a multiple of 8.
#[inline(always)]
fn is_unaligned(more: bool, len: usize) -> bool
    ensures { result ≡ (more && ((len == 0) || not (len % 8 == 0))) }
{
    more && (len == 0 || len % 8 != 0)
}

/// Returns whether a flag is set: isn't 0.
#[inline(always)]
fn is_set(flag: u8) -> bool
    ensures { result ≡ is_set flag }
{
    flag != 0
}

/// Returns a flag that is set, or 0.
#[inline(always)]
fn flag_of(value: bool) -> u8
    ensures set { is_set result ≡ value }
    ensures zero { value ≡ false → result ≡ 0 }
{
    if value { 1 } else { 0 }
}

/// Returns whether a last fragment has arrived, as a flag, after one more fragment.
#[inline(always)]
fn ended_after(ended: u8, more: bool) -> u8
    ensures { is_set result ≡ (is_set ended || not more) }
{
    if more { ended } else { 1 }
}

/// What has arrived of one packet's payload, whose bytes are in a buffer of the caller's: each call has the same buffer.
///
/// It consists of numbers alone, so that it can lie in memory of other languages. If all of them are 0, nothing has
/// arrived, and a conflict abandons the packet. In a contract, `HasArrived` says what has arrived.
#[repr(C)]
#[derive(Drop)]
pub struct ReassemblyState {
    /// A mark of two bits for each unit of 8 bytes after those of the run, the lowest bits first: 0 if it hasn't arrived,
    /// 1 if it is the first of a fragment, 2 if it is the first of the last fragment, 3 if it is a later one.
    marks: [u8; 2048],
    /// The largest end of a fragment.
    reach: usize,
    /// The number of bytes that have arrived.
    count: usize,
    /// Not 0 if a last fragment has arrived, so that `reach` is the end of the payload.
    ended: u8,
    /// Not 0 if the packet was abandoned.
    abandoned: u8,
    /// Not 0 if the packet is kept after a conflict.
    kept: u8,
    /// The fragments that arrived in order, of one length.
    run: Run,
}

impl ReassemblyState {
    ghost use Rattle.std.specs.Prelude.{◌≡◌, ◌+◌, ◌-◌, ◌*◌, ◌≤◌, ◌<◌, ◌==◌, ◌&&◌, ◌||◌, ◌⊎◌, if◌then◌else◌, not, nat_lt, ℕ, min, length, slice_index, true, false, Ok, None, Some, IfOk, OnErr, MatchResult, MatchBool, IsTrue, ◌↔◌};
    ghost use Rattle.std.specs.List.{list_any};
    ghost use Rattle.std.specs.Option.{option_copied};
    ghost use Rattle.ip_reassembly.specs.Fragment.{fragment_at, is_same};
    ghost use Rattle.ip_reassembly.specs.Refusal.{refusal, is_conflict};
    ghost use Rattle.ip_reassembly.specs.Received.{given_up, payload_in, received_none, with_fragment, progress_of, outcome_of, received_after};
    ghost use Rattle.ip_reassembly.specs.Reassembly.{HasArrived, IsNew, IsSound, IsZero, is_set, reach_of};
    ghost use Rattle.ip_reassembly.specs.Marks.{mark_of};
    ghost use Rattle.ip_reassembly.specs.Run.{mark_by};

    /// Returns a state in which nothing has arrived, of a packet that a conflict abandons or not: an overlap or two ends
    /// (RFC 5722; RFC 8200, section 4.5). The payload can be as long as the buffer, and at most 65,535 bytes.
    pub fn new(abandons: bool) -> ReassemblyState
        ensures arrived { (b : _) → HasArrived result b (received_none (min (length b) 65535) abandons) }
        ensures zero { abandons ≡ true → IsZero result }
    {
        ReassemblyState {
            marks: [0; MARKS],
            reach: 0,
            count: 0,
            ended: 0,
            abandoned: 0,
            kept: flag_of(!abandons),
            run: Run { units: 0, count: 0 },
        }
    }

    /// Forgets whatever the state was, so that nothing has arrived, of a packet that a conflict abandons or not.
    pub fn reset(&mut self, abandons: bool)
        ensures arrived { (b : _) → HasArrived self.new b (received_none (min (length b) 65535) abandons) }
        ensures zero { abandons ≡ true → IsZero self.new }
    {
        *self = ReassemblyState::new(abandons);
    }

    /// Adds a fragment with the offset, in units of 8 bytes, and the flag of its header. Returns whether the payload is
    /// whole; then `payload` returns it. An exact repetition of a fragment is accepted, and changes nothing.
    ///
    /// Returns an error and doesn't store the fragment if it is unaligned or too long, overlaps others or contradicts the
    /// end of the payload, or if the packet was abandoned (RFC 791, section 3.2; RFC 5722; RFC 8200, section 4.5).
    pub fn add(
        &mut self,
        buffer: &mut [u8],
        offset: IpFragOffset,
        more: bool,
        bytes: &[u8],
    ) -> Result<Progress, AddError>
        ensures outcome { (s : _) → HasArrived self.old buffer.old s
            → result ≡ outcome_of s (fragment_at offset more bytes.now) }
        ensures received { (s : _) → HasArrived self.old buffer.old s
            → HasArrived self.new buffer.new (received_after s (fragment_at offset more bytes.now)) }

        // Only the fragment's bytes are written, and none if it is refused.
        ensures outside { (i : ℕ) → (i < 8 * offset) ⊎ (8 * offset + length bytes.now ≤ i)
            → slice_index buffer.new i ≡ slice_index buffer.old i }
        ensures refused { OnErr result (buffer.new ≡ buffer.old) }
    {
        if is_set(self.abandoned) {
            return Err(AddError::Abandoned);
        }
        let first = usize::from(offset.value());
        match self.test(buffer, first, more, bytes) {
            Ok(true) => {
                self.keep(buffer, first, more, bytes);
                Ok(self.progress(buffer))
            }
            Ok(false) => Ok(self.progress(buffer)),
            Err(error) => {
                self.abandoned = self.abandoned_by(&error);
                Err(error)
            }
        }
    }

    /// Returns the payload, in the buffer, if it is whole and the packet wasn't abandoned.
    pub fn payload<'b>(&self, buffer: &'b [u8]) -> Option<&'b [u8]>
        ensures { (s : _) → HasArrived self.now buffer.now s → option_copied result ≡ payload_in s }
    {
        if !self.has_payload() {
            return None;
        }
        buffer.get(..self.reach)
    }

    /// Returns the largest end of a fragment, in bytes from the start of the payload, or 0 if none has arrived.
    #[inline(always)]
    pub fn reach(&self) -> usize
        ensures { (b s : _) → HasArrived self.now b s → result ≡ reach_of s.fragments }
    {
        self.reach
    }

    /// Abandons the packet, as after a conflict (RFC 5722). `add` refuses every further fragment, and `payload` returns
    /// `None`, until `clear` is called.
    pub fn abandon(&mut self)
        ensures { (b s : _) → HasArrived self.old b s → HasArrived self.new b (given_up s) }
    {
        self.abandoned = 1;
    }

    /// Returns whether the packet was abandoned.
    pub fn is_abandoned(&self) -> bool
        ensures { (b s : _) → HasArrived self.now b s → result ≡ s.abandoned }
    {
        is_set(self.abandoned)
    }

    /// Forgets all fragments, so that another packet can be reassembled in the same buffer. It isn't abandoned.
    pub fn clear(&mut self)
        ensures { (b s : _) → HasArrived self.old b s
            → HasArrived self.new b (received_none s.limit s.abandons) }
    {
        self.unmark();
        self.run = Run { units: 0, count: 0 };
        self.reach = 0;
        self.count = 0;
        self.ended = 0;
        self.abandoned = 0;
    }

    /// Removes all marks. If all fragments are in the run, there are none, and their memory is not touched.
    #[inline(always)]
    fn unmark(&mut self)
        ensures marks { (b s : _) → HasArrived self.old b s
            → (i : ℕ) → mark_of self.new.marks i ≡ 0 }
        ensures kept { self.new.kept ≡ self.old.kept }
    {
        if self.reach.div_ceil(8) <= self.run.end() {
            return;
        }
        let end = self.reach.div_ceil(32).min(MARKS);
        unmark(&mut self.marks, (self.run.end() / 4).min(end), end);
    }

    /// Returns the flag that says whether the packet is abandoned after a fragment was refused.
    #[inline(always)]
    fn abandoned_by(&self, error: &AddError) -> u8
        ensures { is_set result ≡ (not (is_set self.now.kept) && is_conflict error.now) }
    {
        flag_of(!is_set(self.kept) && error.is_conflict())
    }

    /// Returns whether all bytes up to the end have arrived.
    #[inline(always)]
    fn is_whole(&self) -> bool
        ensures { result ≡ (is_set self.now.ended && (self.now.count == self.now.reach)) }
    {
        is_set(self.ended) && self.count == self.reach
    }

    /// Returns whether all bytes have arrived, and the packet wasn't abandoned.
    #[inline(always)]
    fn has_payload(&self) -> bool
        ensures { result ≡ (not (is_set self.now.abandoned)
            && (is_set self.now.ended && (self.now.count == self.now.reach))) }
    {
        !is_set(self.abandoned) && self.is_whole()
    }

    /// Returns whether the payload is whole.
    #[inline(always)]
    fn progress(&self, buffer: &[u8]) -> Progress
        ensures { (s : _) → HasArrived self.now buffer.now s → result ≡ progress_of s.fragments }
    {
        let _ = buffer;
        if self.is_whole() {
            Progress::Whole
        } else {
            Progress::MoreWanted
        }
    }

    /// Returns whether these bytes repeat a fragment that was accepted.
    fn repeats(&self, buffer: &[u8], first: usize, more: bool, bytes: &[u8]) -> bool
        requires some { 0 < length bytes.now }
        requires within { 8 * first + length bytes.now ≤ length buffer.now }
        requires short { 8 * first + length bytes.now ≤ 65535 }
        ensures { (s : _) → HasArrived self.now buffer.now s
            → IsSound s.limit (fragment_at first more bytes.now)
            → result ≡ list_any (is_same (fragment_at first more bytes.now)) s.fragments }
    {
        let end = 8 * first + bytes.len();
        if !is_fragment(
            self.run,
            &self.marks,
            first,
            end.div_ceil(8),
            first_mark_of(more),
        ) {
            return false;
        }
        if !more && end != self.reach {
            return false;
        }
        &buffer[8 * first..end] == bytes
    }

    /// Returns whether a fragment that ends here contradicts the end of another one.
    fn ends_elsewhere(&self, end: usize, more: bool) -> bool
        ensures { result ≡ ((is_set self.now.ended && nat_lt self.now.reach end)
            || (not more && nat_lt end self.now.reach)) }
    {
        is_set(self.ended) && self.reach < end || !more && end < self.reach
    }

    /// Returns whether these units haven't arrived. Their marks are only read if a fragment ends after the first of them,
    /// so not if fragments arrive in order.
    #[inline(always)]
    fn are_free(&self, first: usize, end: usize) -> bool
        requires ordered { first ≤ end }
        requires within { end ≤ 8192 }
        ensures free { (b s : _) → HasArrived self.now b s → IsTrue result
            ↔ ((i : ℕ) → first ≤ i → i < end → mark_by self.now.run self.now.marks i ≡ 0) }
        ensures some { result ≡ false → first < end }
    {
        self.reach <= 8 * first || are_free_by(self.run, &self.marks, first, end)
    }

    /// Returns whether a fragment can be stored, or repeats another one, or why it is refused.
    fn test(&self, buffer: &[u8], first: usize, more: bool, bytes: &[u8]) -> Result<bool, AddError>
        requires { first ≤ 8191 }
        ensures within { IfOk result (λ is_new. is_new ≡ true
            → (8 * first + length bytes.now ≤ length buffer.now)
            × (8 * first + length bytes.now ≤ 65535)) }
        ensures verdict { (s : _) → HasArrived self.now buffer.now s → MatchResult result
            (λ is_new. MatchBool is_new (IsNew s (fragment_at first more bytes.now))
            ((refusal s.limit s.fragments (fragment_at first more bytes.now) ≡ None)
            × (list_any (is_same (fragment_at first more bytes.now)) s.fragments ≡ true)))
            (λ e. refusal s.limit s.fragments (fragment_at first more bytes.now) ≡ Some e) }
    {
        if is_unaligned(more, bytes.len()) {
            return Err(AddError::Unaligned);
        }
        let end = 8 * first + bytes.len();
        if end > buffer.len().min(MAX_PAYLOAD) {
            return Err(AddError::TooLong);
        }
        if !self.are_free(first, end.div_ceil(8)) {
            if self.repeats(buffer, first, more, bytes) {
                return Ok(false);
            }
            return Err(AddError::Overlap);
        }
        if self.ends_elsewhere(end, more) {
            return Err(AddError::TwoEnds);
        }
        Ok(true)
    }

    /// Stores a fragment.
    fn keep(&mut self, buffer: &mut [u8], first: usize, more: bool, bytes: &[u8])
        requires within { 8 * first + length bytes.now ≤ length buffer.old }
        requires short { 8 * first + length bytes.now ≤ 65535 }
        ensures kept { (s : _) → HasArrived self.old buffer.old s
            → IsNew s (fragment_at first more bytes.now)
            → HasArrived self.new buffer.new
            (record s { fragments = with_fragment s.fragments (fragment_at first more bytes.now) }) }
        ensures outside { (i : ℕ) → (i < 8 * first) ⊎ (8 * first + length bytes.now ≤ i)
            → slice_index buffer.new i ≡ slice_index buffer.old i }
    {
        let end = 8 * first + bytes.len();
        // read before the marks beside them are written: a load would wait for all stores before it
        let reach = self.reach.max(end);
        let count = self.count.saturating_add(bytes.len());
        let ended = ended_after(self.ended, more);
        store(buffer, 8 * first, bytes);
        self.run = mark_by_run(self.run, &mut self.marks, first, end.div_ceil(8), more);
        self.reach = reach;
        self.count = count;
        self.ended = ended;
    }
}
