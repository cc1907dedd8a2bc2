//! Callers of frames.
ghost use Rattle.std.specs.Prelude.{◌≡◌, ◌≤◌, length, IfSome};
ghost use Rattle.ip_frames.specs.Reading.{word_at};
ghost use Rattle.ip_frames.specs.declared.frame_contents.FrameEnd.TheVariants.{Ip};

use ip_frames::{FrameContents, FrameEnd, each_frame_has_one_list_of_headers, find_ip};

/// Returns the IP packet in a frame, and what follows it.
pub fn packet_in(link_type: u32, frame: &[u8]) -> Option<&[u8]>
    ensures { IfSome result (λ packet. length packet.now ≤ length frame.now) }
{
    let found = find_ip(link_type, frame)?;
    match found.end {
        FrameEnd::Ip => Some(&frame[found.offset..]),
        FrameEnd::NotIp | FrameEnd::Truncated { .. } => None,
    }
}

/// Finds the packet in an Ethernet frame that announces IPv4: after the header of 14 bytes.
pub fn ipv4_in_ethernet(frame: &[u8]) -> Option<FrameContents>
    requires long { 14 ≤ length frame.now }
    requires ipv4 { word_at frame.now 12 ≡ 0x0800 }
    ensures { IfSome result (λ found. (found.offset ≡ 14) × (found.end ≡ Ip) × (found.vlans.count ≡ 0)) }
{
    each_frame_has_one_list_of_headers();
    find_ip(1, frame)
}
