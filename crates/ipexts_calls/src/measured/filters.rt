//! Packets filtered by `header 44`, and dissected for what that filter asks.
use crate::digests::chains::with;
use crate::measured::dissections::Dissected;
use crate::measured::whole_packets::{Packet, over_each};
use ip_dissect::{BaseHeader, dissect};
use ip_filter::Filter;

/// A packet that is dissected; whether it has a fragment header is read beside the parts that a filter needs.
pub struct Fragmented;

impl Packet for Fragmented {
    fn digest(bytes: &[u8]) -> u64 {
        let packet = dissect(bytes);
        let is_fragmented = match packet.base {
            Some(BaseHeader::Ipv6(_)) => packet.fragment.is_some(),
            _ => false,
        };
        if Dissected::of(&packet) == u64::MAX {
            return u64::MAX;
        }
        u64::from(is_fragmented)
    }
}

/// Filters packets by `header 44`. The packets follow one another, and end at `ends`.
#[unsafe(no_mangle)]
pub extern "C" fn ipexts_filter_packets(packets: &[u8], ends: &[usize]) -> u64 {
    let Ok(filter) = Filter::parse(b"header 44") else {
        return 0;
    };
    let mut start = 0;
    let mut sum = 0;
    for end in ends {
        let Some(packet) = packets.get(start..*end) else {
            break;
        };
        sum = with(sum, u64::from(filter.matches(packet)));
        start = *end;
    }
    sum
}

/// Dissects packets; reads whether each has a fragment header.
#[unsafe(no_mangle)]
pub extern "C" fn ipexts_fragmented_packets(packets: &[u8], ends: &[usize]) -> u64 {
    over_each::<Fragmented>(packets, ends)
}
