//! Statistics of packets: the counts.
ghost use Rattle.std.specs.Prelude.{◌≡◌};

/// Statistics of packets. Each count stops at 2^64 - 1.
#[repr(C)]
#[derive(Clone, Debug, PartialEq, Eq, Drop)]
pub struct Statistics {
    /// Packets.
    pub packets: u64,
    /// Packets that don't start with a whole IPv4 or IPv6 header.
    pub without_header: u64,
    /// Packets with an IPv4 header.
    pub ipv4: u64,
    /// Packets with an IPv6 header.
    pub ipv6: u64,
    /// Packets whose headers end at their payload.
    pub at_payload: u64,
    /// Packets whose headers end at the payload of a later fragment.
    pub at_later_fragment: u64,
    /// Packets with a truncated header.
    pub at_truncated_header: u64,
    /// Packets with a faulty header.
    pub at_fault: u64,
    /// Whole packets with a fragment header (RFC 6946).
    pub atomic_fragments: u64,
    /// First fragments.
    pub first_fragments: u64,
    /// Fragments that are neither first nor last.
    pub middle_fragments: u64,
    /// Last fragments.
    pub last_fragments: u64,
    /// Packets of which stated bytes are missing.
    pub incomplete: u64,
    /// Payload bytes that were present, of packets without a truncated or faulty header.
    pub payload_bytes: u64,
    /// Chains by their number of headers. The last element counts those of 16 or more.
    pub chain_headers: [u64; 17],
    /// Chains by their bytes: a count for each multiple of 4 below 256, then one from each power of two to the next.
    pub chain_bytes: [u64; 73],
    /// Extension headers by protocol number.
    pub headers: [u64; 256],
    /// Packets whose headers end at their payload, by the protocol number of the payload.
    pub payload_numbers: [u64; 256],
    /// Later fragments by the protocol number of their payload.
    pub later_fragment_numbers: [u64; 256],
    /// Truncated headers by the code of their layer.
    pub truncated_headers: [u64; 16],
    /// Faults by the codes of their kind and layer, at index 16 * kind + layer.
    pub faults: [u64; 128],
}

impl Statistics {
    ghost use Rattle.ip_statistics.specs.Statistics.{nothing};

    /// Returns the statistics of no packets.
    #[inline(always)]
    pub fn new() -> Statistics
        ensures { result ≡ nothing }
    {
        Statistics {
            packets: 0,
            without_header: 0,
            ipv4: 0,
            ipv6: 0,
            at_payload: 0,
            at_later_fragment: 0,
            at_truncated_header: 0,
            at_fault: 0,
            atomic_fragments: 0,
            first_fragments: 0,
            middle_fragments: 0,
            last_fragments: 0,
            incomplete: 0,
            payload_bytes: 0,
            chain_headers: [0; 17],
            chain_bytes: [0; 73],
            headers: [0; 256],
            payload_numbers: [0; 256],
            later_fragment_numbers: [0; 256],
            truncated_headers: [0; 16],
            faults: [0; 128],
        }
    }

    /// Sets all counts to 0.
    pub fn clear(&mut self)
        ensures { self.new ≡ nothing }
    {
        *self = Statistics::new();
    }
}
