//! Counts of what became of packets.
ghost use Rattle.std.specs.Prelude.{◌≡◌, ◌<◌, ◌≤◌, length, slice_index, slice_set};
ghost use Rattle.ip_defragmenter.specs.Counts.{outcome_code, error_code, store_error_code, drop_code, reason_code, loss_code, counted, counted_loss, one_more, no_counts};

use crate::{Added, DropReason, FragmentError, Loss, LossReason, Outcome, StoreError};
use ip_reassembly::AddError;

/// The number of outcomes.
const OUTCOMES: usize = 14;

/// The number of losses, with that of none.
const LOSSES: usize = 3;

/// Returns the code of why a fragment can't be used.
#[inline(always)]
fn error_code(error: FragmentError) -> u8
    ensures code { result ≡ error_code error }
    ensures within { result < 14 }
{
    match error {
        FragmentError::Headers => 3,
        FragmentError::NoLength => 4,
        FragmentError::Missing => 5,
    }
}

/// Returns the code of why a memory refuses a fragment.
#[inline(always)]
fn refusal_code(error: StoreError) -> u8
    ensures code { result ≡ store_error_code error }
    ensures within { result < 14 }
{
    match error {
        StoreError::Payload(AddError::Unaligned) => 6,
        StoreError::Payload(AddError::TooLong) => 7,
        StoreError::Payload(AddError::Overlap) => 8,
        StoreError::Payload(AddError::TwoEnds) => 9,
        StoreError::Payload(AddError::Abandoned) => 10,
        StoreError::Headers => 3,
        StoreError::HeadersTooLong => 11,
        StoreError::MixedEcn => 13,
    }
}

/// Returns the code of why a fragment was dropped.
#[inline(always)]
fn drop_code(reason: DropReason) -> u8
    ensures code { result ≡ drop_code reason }
    ensures within { result < 14 }
{
    match reason {
        DropReason::Unusable(error) => error_code(error),
        DropReason::Refused(error) => refusal_code(error),
        DropReason::NoSlot => 12,
    }
}

impl Outcome {
    /// Returns the code of the outcome, below 14: 0 if the packet is no fragment, 1 if more fragments are wanted, 2 if the
    /// packet is whole, and another one for each reason for which a fragment is dropped.
    #[inline(always)]
    pub fn code(self) -> u8
        ensures code { result ≡ outcome_code self }
        ensures within { result < 14 }
    {
        match self {
            Outcome::NotFragment => 0,
            Outcome::MoreWanted => 1,
            Outcome::Whole(_) => 2,
            Outcome::Dropped(reason) => drop_code(reason),
        }
    }
}

/// Returns the code of why a packet was given up.
#[inline(always)]
fn reason_code(reason: LossReason) -> u8
    ensures code { result ≡ reason_code reason }
    ensures within { result < 3 }
{
    match reason {
        LossReason::TimedOut => 1,
        LossReason::Displaced => 2,
    }
}

impl Added {
    /// Returns the code of the loss: 0 if no packet was given up, 1 if the packet timed out, 2 if it was displaced.
    #[inline(always)]
    pub fn loss_code(&self) -> u8
        ensures code { result ≡ loss_code self.now.lost }
        ensures within { result < 3 }
    {
        match self.lost {
            None => 0,
            Some(loss) => reason_code(loss.reason),
        }
    }
}

/// Adds 1 to the count at an index, unless it is the largest number.
#[inline(always)]
fn increment(counts: &mut [u64], index: usize)
    requires { index < length counts.old }
    ensures { counts.new ≡ slice_set counts.old index (one_more (slice_index counts.old index)) }
{
    counts[index] = counts[index].saturating_add(1);
}

/// Counts of packets that were added, by what became of them. Each stops at 2^64 - 1.
#[repr(C)]
#[derive(Clone, Copy, Debug, PartialEq, Eq)]
pub struct DefragmenterCounts {
    /// The packets that were added, by the code of the outcome (`Outcome::code`).
    pub outcomes: [u64; 14],
    /// The packets that were added, by the code of the loss (`Added::loss_code`), and those that `give_up` gave up.
    pub losses: [u64; 3],
}

impl DefragmenterCounts {
    /// Returns counts of no packets.
    pub fn new() -> DefragmenterCounts
        ensures { result ≡ no_counts }
    {
        DefragmenterCounts {
            outcomes: [0; OUTCOMES],
            losses: [0; LOSSES],
        }
    }

    /// Counts a packet that was added.
    #[inline(always)]
    pub fn count(&mut self, added: &Added)
        ensures { self.new ≡ counted self.old added.now }
    {
        increment(&mut self.outcomes, usize::from(added.outcome.code()));
        increment(&mut self.losses, usize::from(added.loss_code()));
    }

    /// Counts a packet that was given up by `give_up`, not for a packet that was added.
    #[inline(always)]
    pub fn count_loss(&mut self, loss: &Loss)
        ensures { self.new ≡ counted_loss self.old loss.now }
    {
        increment(&mut self.losses, usize::from(reason_code(loss.reason)));
    }
}
