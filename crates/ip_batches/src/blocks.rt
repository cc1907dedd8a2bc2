//! Tests the packets of a batch in blocks: all packets of a block take a test before any takes the next one.
ghost use Rattle.std.specs.Prelude.{◌≡◌, ℕ, List, ◌+◌, ◌<◌, ◌≤◌, ◌==◌, ◌++◌, length, take, drop, slice_index_or};
ghost use Rattle.std.specs.List.{All};
ghost use Rattle.ip_spans.specs.HeaderSpan.{filled};
ghost use Rattle.ip_filter.specs.Program.{passes, tests_of};
ghost use Rattle.ip_filter.specs.declared.metadata.Metadata.{Metadata as TheMetadata};
ghost use Rattle.ip_batches.specs.Packets.{batch_packets};
ghost use Rattle.ip_batches.specs.Batch.{packet_at, matches_of};
ghost use Rattle.ip_batches.specs.Blocks.{after_test, met_by, AsksMetadata};
ghost use Rattle.ip_batches.specs.declared.batch.PacketSpan.{PacketSpan as TheSpan};

use crate::Batch;
use crate::matches::byte_of;
use ip_filter::{Filter, Metadata, Test};

/// The largest number of packets in a block. Twelve were no faster, and sixteen would take more than a kilobyte of stack.
const BLOCK_LEN: usize = 8;

/// The index to which a packet that passes is led.
const PASSED: u8 = 64;

impl<'a> Batch<'a> {
    /// Stores which packets a filter whose tests ask metadata matches, as `filter` does, block by block. It is not inlined, so that other
    /// filters don't need room for a block.
    #[inline(never)]
    #[tactic(auto, using(crate::proofs::BatchLemmas::all_stored))]
    pub(crate) fn filter_blocks(&self, filter: &Filter, matches: &mut [u8])
        requires { All AsksMetadata (tests_of filter.now) }
        ensures { matches.new ≡ filled (matches_of filter.now (batch_packets self.now)) matches.old }
    {
        let count = self.spans.len().min(matches.len());
        let mut metadata = [Metadata::of(&[]); BLOCK_LEN];
        let mut first = 0;
        'rounds: while first < count {
            let len = (count - first).min(BLOCK_LEN);
            self.filter_block(filter, first, &mut metadata[..len], matches);
            first += len;
        }
    }

    /// Stores which packets of a block the filter matches. The block starts at the packet with the index `first`, and has
    /// as many packets as `metadata` has room for.
    #[inline(always)]
    fn filter_block(
        &self,
        filter: &Filter,
        first: usize,
        metadata: &mut [Metadata<'a>],
        matches: &mut [u8],
    )
        requires metadata { All AsksMetadata (tests_of filter.now) }
        requires block { length metadata.old ≤ 8 }
        requires spans { first + length metadata.old ≤ length self.now.spans.now }
        requires room { first + length metadata.old ≤ length matches.old }
        ensures { (old : List ℕ) → length old ≡ length matches.old
            → matches.old ≡ take first (matches_of filter.now (batch_packets self.now)) ++ drop first old
            → matches.new ≡ take (first + length metadata.old) (matches_of filter.now (batch_packets self.now))
            ++ drop (first + length metadata.old) old }
    {
        self.put_metadata(first, metadata);
        let next = run_tests(filter.used_tests(), metadata);
        'packets: for index in 0..metadata.len() {
            matches[first + index] = byte_of(next[index] == PASSED);
        }
    }

    /// Fills `metadata` with those of the packets from the one with the index `first` on.
    #[inline(always)]
    fn put_metadata(&self, first: usize, metadata: &mut [Metadata<'a>])
        requires { first + length metadata.old ≤ length self.now.spans.now }
        ensures len { length metadata.new ≡ length metadata.old }
        ensures bytes { (j : ℕ) (d : TheMetadata) (e : TheSpan) → j < length metadata.old
            → (slice_index_or metadata.new j d).bytes.now
            ≡ packet_at self.now.buffer.now (slice_index_or self.now.spans.now (first + j) e) }
    {
        'packets: for index in 0..metadata.len() {
            metadata[index].set(self.packet(first + index));
        }
    }
}

/// Returns for each packet the index to which the tests lead it.
#[inline(always)]
fn run_tests(tests: &[Test], metadata: &[Metadata<'_>]) -> [u8; BLOCK_LEN]
    requires few { length tests.now ≤ 64 }
    requires metadata { All AsksMetadata tests.now }
    requires block { length metadata.now ≤ 8 }
    ensures { (j : ℕ) (d : TheMetadata) → j < length metadata.now → (slice_index_or result j 0 == 64)
        ≡ passes tests.now (met_by (slice_index_or metadata.now j d)) }
{
    let mut next = [0; BLOCK_LEN];
    'tests: for index in 0..tests.len() {
        take_test(&tests[index], index as u8, metadata, &mut next);
    }
    next
}

/// Leads those packets on that have been led to this test, which has this index.
#[inline(never)]
fn take_test(test: &Test, index: u8, metadata: &[Metadata<'_>], next: &mut [u8; BLOCK_LEN])
    requires metadata { AsksMetadata test.now }
    requires block { length metadata.now ≤ 8 }
    ensures { (j : ℕ) (d : TheMetadata) → j < length metadata.now → slice_index_or next.new j 0
        ≡ after_test test.now index (slice_index_or metadata.now j d) (slice_index_or next.old j 0) }
{
    // a copy: of a reference the compiler would think that each store to `next` may change the test
    let test = *test;
    'packets: for place in 0..metadata.len() {
        next[place] = index_after(&test, index, &metadata[place], next[place]);
    }
}

/// Returns the index to which a packet is led whose next test is the one with the index `next`.
#[inline(always)]
fn index_after(test: &Test, index: u8, metadata: &Metadata<'_>, next: u8) -> u8
    requires { AsksMetadata test.now }
    ensures { result ≡ after_test test.now index metadata.now next }
{
    let after = if test.is_met_by(metadata) {
        test.if_met
    } else {
        test.if_not
    };
    if index == next { after } else { next }
}
