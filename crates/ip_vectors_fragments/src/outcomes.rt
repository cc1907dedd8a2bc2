//! What becomes of packets that are added, in words.
use crate::keys::push_loss;
use crate::piece::refusal;
use anyhow::{Result, ensure};
use ip_defragmenter::{Added, DropReason, FragmentError, Outcome, StoreError, WholeError};
use std::alloc::{AllocError, Global};

/// Returns why a fragment can't be used.
fn unusable(error: FragmentError) -> &'static str {
    match error {
        FragmentError::Headers => "headers",
        FragmentError::NoLength => "no-length",
        FragmentError::Missing => "missing",
    }
}

/// Returns why a memory refuses a fragment.
fn refused(error: StoreError) -> &'static str {
    match error {
        StoreError::Payload(error) => refusal(error),
        StoreError::Headers => "headers",
        StoreError::HeadersTooLong => "headers-too-long",
        StoreError::MixedEcn => "mixed-ecn",
    }
}

/// Returns why a whole packet isn't written.
fn not_written(error: WholeError) -> &'static str {
    match error {
        WholeError::Headers => "headers",
        WholeError::TooLong => "too-long",
        WholeError::NoRoom => "no-room",
    }
}

/// Appends what became of a packet.
fn push_outcome(text: &mut String, outcome: Outcome) -> Result<(), AllocError> {
    match outcome {
        Outcome::NotFragment => text.push_str("not-fragment"),
        Outcome::MoreWanted => text.push_str("more-wanted"),
        Outcome::Whole(index) => write!(text, "whole {index}"),
        Outcome::Dropped(DropReason::Unusable(error)) => write!(
            text,
            "unusable {}",
            unusable(error)
        ),
        Outcome::Dropped(DropReason::Refused(error)) => write!(text, "refused {}", refused(error)),
        Outcome::Dropped(DropReason::NoSlot) => text.push_str("no-slots"),
    }
}

/// Returns what became of a packet, whether it has no slot, and what was given up for it. A packet that is whole has the slot
/// with the index of its memory.
pub(crate) fn added_text(alloc: Global, added: &Added) -> Result<String> {
    let mut text = String::new(alloc);
    push_outcome(&mut text, added.outcome)?;
    if let Outcome::Whole(index) = added.outcome {
        ensure!(
            added.slot == Some(index),
            "the slot {:?} of a whole packet",
            added.slot
        );
    }
    if added.slot.is_none() {
        text.push_str(", no slot")?;
    }
    push_loss(&mut text, &added.lost)?;
    Ok(text)
}

/// Returns what was written: a packet, which is to begin the buffer, or nothing. The buffer has to be as it was after that.
pub(crate) fn written_text(
    alloc: Global,
    written: Result<Option<usize>, WholeError>,
    buffer: &[u8],
) -> Result<String> {
    let len = match written {
        Ok(Some(len)) => len,
        _ => 0,
    };
    let rest = buffer.get(len..).unwrap_or(&[]);
    ensure!(
        rest.iter().all(|byte| *byte == UNUSED),
        "bytes after the packet"
    );
    match written {
        Ok(Some(len)) => {
            let digits = hex::encode(alloc, buffer.get(..len).unwrap_or(&[]))?;
            Ok(format!(in alloc; "packet {digits}")?)
        }
        Ok(None) => Ok(String::from_str(alloc, "none")?),
        Err(error) => Ok(format!(in alloc; "error {}", not_written(error))?),
    }
}

/// The byte of a buffer where nothing was written.
pub(crate) const UNUSED: u8 = 0x5a;
