//! Statistics merged.
ghost use Rattle.std.specs.Prelude.{◌≡◌};

use crate::Statistics;
use crate::counts::{add, add_all};

impl Statistics {
    ghost use Rattle.std.specs.Prelude.{ℕ, List, ◌++◌};
    ghost use Rattle.ip_statistics.specs.Counts.{added, all_added};
    ghost use Rattle.ip_statistics.specs.Statistics.{merged, nothing};
    ghost use Rattle.ip_statistics.specs.Lists.{statistics_of};

    /// Adds the counts of `other` to these. The result is the statistics of all packets of both.
    pub fn merge(&mut self, other: &Statistics)
        ensures counts { self.new ≡ merged self.old other.now }
        ensures none { other.now ≡ nothing → self.new ≡ self.old }
        ensures packets { (xs ys : List (List ℕ)) → self.old ≡ statistics_of xs
            → other.now ≡ statistics_of ys → self.new ≡ statistics_of (xs ++ ys) }
    {
        self.merge_packets(other);
        self.merge_ends(other);
        self.merge_lists(other);
    }

    /// Adds the counts of packets, whatever their headers end at.
    fn merge_packets(&mut self, other: &Statistics)
        ensures counts { self.new ≡ record self.old {
          packets = added self.old.packets other.now.packets;
          without_header = added self.old.without_header other.now.without_header;
          ipv4 = added self.old.ipv4 other.now.ipv4;
          ipv6 = added self.old.ipv6 other.now.ipv6;
          incomplete = added self.old.incomplete other.now.incomplete;
          payload_bytes = added self.old.payload_bytes other.now.payload_bytes;
        } }
        ensures none { other.now ≡ nothing → self.new ≡ self.old }
    {
        add(&mut self.packets, other.packets);
        add(&mut self.without_header, other.without_header);
        add(&mut self.ipv4, other.ipv4);
        add(&mut self.ipv6, other.ipv6);
        add(&mut self.incomplete, other.incomplete);
        add(&mut self.payload_bytes, other.payload_bytes);
    }

    /// Adds the counts of ends and of fragments.
    fn merge_ends(&mut self, other: &Statistics)
        ensures counts { self.new ≡ record self.old {
          at_payload = added self.old.at_payload other.now.at_payload;
          at_later_fragment = added self.old.at_later_fragment other.now.at_later_fragment;
          at_truncated_header = added self.old.at_truncated_header other.now.at_truncated_header;
          at_fault = added self.old.at_fault other.now.at_fault;
          atomic_fragments = added self.old.atomic_fragments other.now.atomic_fragments;
          first_fragments = added self.old.first_fragments other.now.first_fragments;
          middle_fragments = added self.old.middle_fragments other.now.middle_fragments;
          last_fragments = added self.old.last_fragments other.now.last_fragments;
        } }
        ensures none { other.now ≡ nothing → self.new ≡ self.old }
    {
        add(&mut self.at_payload, other.at_payload);
        add(&mut self.at_later_fragment, other.at_later_fragment);
        add(&mut self.at_truncated_header, other.at_truncated_header);
        add(&mut self.at_fault, other.at_fault);
        add(&mut self.atomic_fragments, other.atomic_fragments);
        add(&mut self.first_fragments, other.first_fragments);
        add(&mut self.middle_fragments, other.middle_fragments);
        add(&mut self.last_fragments, other.last_fragments);
    }

    /// Adds the counts by number, length, kind or layer.
    fn merge_lists(&mut self, other: &Statistics)
        ensures counts { self.new ≡ record self.old {
          chain_headers = all_added self.old.chain_headers other.now.chain_headers;
          chain_bytes = all_added self.old.chain_bytes other.now.chain_bytes;
          headers = all_added self.old.headers other.now.headers;
          payload_numbers = all_added self.old.payload_numbers other.now.payload_numbers;
          later_fragment_numbers
              = all_added self.old.later_fragment_numbers other.now.later_fragment_numbers;
          truncated_headers = all_added self.old.truncated_headers other.now.truncated_headers;
          faults = all_added self.old.faults other.now.faults;
        } }
        ensures none { other.now ≡ nothing → self.new ≡ self.old }
    {
        add_all(&mut self.chain_headers, &other.chain_headers);
        add_all(&mut self.chain_bytes, &other.chain_bytes);
        add_all(&mut self.headers, &other.headers);
        add_all(&mut self.payload_numbers, &other.payload_numbers);
        add_all(
            &mut self.later_fragment_numbers,
            &other.later_fragment_numbers,
        );
        add_all(&mut self.truncated_headers, &other.truncated_headers);
        add_all(&mut self.faults, &other.faults);
    }
}
