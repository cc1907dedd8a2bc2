//! What became of packets, by codes.
ghost use Rattle.std.specs.Prelude.{◌≡◌, IfSome, IfNone};
ghost use Rattle.ip_defragmenter.specs.Counts.{outcome_code, drop_code, reason_code};
ghost use Rattle.ip_defragmenter.specs.declared.outcome.Outcome.{Outcome as Became};
ghost use Rattle.ip_defragmenter.specs.declared.outcome.DropReason.{DropReason as Why};
ghost use Rattle.ip_defragmenter.specs.declared.pending.LossReason.{LossReason as Reason};

use crate::{DropReason, FragmentError, LossReason, Outcome, StoreError};
use ip_reassembly::AddError;

impl Outcome {
    /// Returns an outcome with this code (`Outcome::code`), or `None` if no outcome has it. A whole packet's index is 0.
    pub fn with_code(code: u8) -> Option<Outcome>
        ensures some { IfSome result (λ outcome. outcome_code outcome ≡ code) }
        ensures none { IfNone result ((outcome : Became) → outcome_code outcome ≡ code → ⊥) }
    {
        match code {
            0 => Some(Outcome::NotFragment),
            1 => Some(Outcome::MoreWanted),
            2 => Some(Outcome::Whole(0)),
            _ => match drop_reason_with(code) {
                Some(reason) => Some(Outcome::Dropped(reason)),
                None => None,
            },
        }
    }
}

/// Returns a reason for which fragments are dropped with this code.
fn drop_reason_with(code: u8) -> Option<DropReason>
    ensures some { IfSome result (λ reason. drop_code reason ≡ code) }
    ensures none { IfNone result ((reason : Why) → drop_code reason ≡ code → ⊥) }
{
    match code {
        3 => Some(DropReason::Unusable(FragmentError::Headers)),
        4 => Some(DropReason::Unusable(FragmentError::NoLength)),
        5 => Some(DropReason::Unusable(FragmentError::Missing)),
        6 => Some(DropReason::Refused(StoreError::Payload(AddError::Unaligned))),
        7 => Some(DropReason::Refused(StoreError::Payload(AddError::TooLong))),
        8 => Some(DropReason::Refused(StoreError::Payload(AddError::Overlap))),
        9 => Some(DropReason::Refused(StoreError::Payload(AddError::TwoEnds))),
        10 => Some(DropReason::Refused(StoreError::Payload(AddError::Abandoned))),
        11 => Some(DropReason::Refused(StoreError::HeadersTooLong)),
        12 => Some(DropReason::NoSlot),
        13 => Some(DropReason::Refused(StoreError::MixedEcn)),
        _ => None,
    }
}

impl LossReason {
    /// Returns the reason with this code (`Added::loss_code`), or `None` if no reason has it.
    pub fn with_code(code: u8) -> Option<LossReason>
        ensures some { IfSome result (λ reason. reason_code reason ≡ code) }
        ensures none { IfNone result ((reason : Reason) → reason_code reason ≡ code → ⊥) }
    {
        match code {
            1 => Some(LossReason::TimedOut),
            2 => Some(LossReason::Displaced),
            _ => None,
        }
    }
}
