//! What became of a packet, as numbers.
ghost use Rattle.std.specs.Prelude.{◌≡◌};
ghost use Rattle.ip_defragmenter.specs.Counts.{added_fields, slot_index};

use crate::Added;

/// What became of a packet that was added, as numbers.
#[repr(C)]
#[derive(Clone, Copy, Debug, PartialEq, Eq)]
pub struct AddedFields {
    /// The index of its packet's slot, or 0 if it has none.
    pub slot: usize,
    /// The code of the outcome (`Outcome::code`).
    pub outcome: u8,
    /// The code of the loss (`Added::loss_code`).
    pub loss: u8,
}

/// Returns the index of a slot, or 0 without one.
#[inline(always)]
fn slot_index(slot: Option<usize>) -> usize
    ensures { result ≡ slot_index slot }
{
    match slot {
        Some(index) => index,
        None => 0,
    }
}

impl Added {
    /// Returns what became of the packet, as numbers.
    #[inline(always)]
    pub fn fields(&self) -> AddedFields
        ensures { result ≡ added_fields self.now }
    {
        AddedFields {
            slot: slot_index(self.slot),
            outcome: self.outcome.code(),
            loss: self.loss_code(),
        }
    }
}
