//! Frames of link layers.
ghost use Rattle.std.specs.Prelude.{◌≡◌, ◌≤◌, length, MatchOption, Some, None, IsTrue, is_some};
ghost use Rattle.ip_frames.specs.LinkTypes.{first_header};
ghost use Rattle.ip_frames.specs.Numbers.{after_ethertype};
ghost use Rattle.ip_frames.specs.Fields.{LeadsToFields};
ghost use Rattle.ip_frames.specs.declared.protocol_number.ProtocolNumber.TheVariants.{EtherType};

use crate::bytes::Bytes;
use ip_frames::{FrameFields, find_ip_after, store_ip};

/// Calls `store_ip`. Returns whether the link type is supported. If so, stores what was found in `found`, which is otherwise
/// unchanged.
#[unsafe(no_mangle)]
pub extern "C" fn wolfaren_find_ip(
    link_type: u32,
    frame: Bytes<'_>,
    found: &mut FrameFields,
) -> bool
    ensures supported { result ≡ is_some (first_header link_type) }
    ensures found { MatchOption (first_header link_type) (found.new ≡ found.old)
        (λ first. LeadsToFields first None frame.entry.slice.now found.new) }
    ensures within { IsTrue result → found.new.offset ≤ length frame.entry.slice.now }
{
    store_ip(link_type, frame.slice(), found)
}

/// Calls `find_ip_after` and stores its result in `found`.
#[unsafe(no_mangle)]
pub extern "C" fn wolfaren_find_ip_after(ethertype: u16, bytes: Bytes<'_>, found: &mut FrameFields)
    ensures found { LeadsToFields (after_ethertype ethertype) (Some (EtherType ethertype)) bytes.entry.slice.now found.new }
    ensures within { found.new.offset ≤ length bytes.entry.slice.now }
{
    *found = FrameFields::of(find_ip_after(ethertype, bytes.slice()));
}
