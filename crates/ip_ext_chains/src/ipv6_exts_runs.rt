//! The runs of a chain: its headers in as few structs of six places as hold them.
ghost use Rattle.std.specs.Prelude.{◌≡◌, ◌≢◌, [], IsTrue, IsFalse};
ghost use Rattle.std.specs.List.{AllByRecursion};
ghost use Rattle.ip_spec.specs.Encoding.{AreBytes};
ghost use Rattle.ip_spec.specs.Chain.{leads_to, bytes_of};
ghost use Rattle.ip_spec.specs.Parse.{rest_after};
ghost use Rattle.ip_ext_slices.specs.Longest.{longest_chain};
ghost use Rattle.ip_ext_slices.specs.Ipv6ExtensionSliceIter.{headers_left};

use crate::borrowed::clear_run;
use crate::err::Layer;
use crate::err::ipv6_exts::HeaderSliceError;
use crate::places::Places;
use crate::run::{is_last, take_run};
use crate::{
    Ipv6ExtensionSlice, Ipv6ExtensionSliceIter, Ipv6Extensions, Ipv6ExtensionsSlice, fault_at,
};
use ip_base::IpNumber;

/// The headers of a chain in the fewest structs of six places, in order, and `None` from then on.
#[derive(Debug, Drop)]
pub struct Ipv6ExtensionsRuns<'a> {
    // No call reads it: the contracts of `next`, `next_number` and `end` refer to it.
    first: IpNumber,
    bytes: &'a [u8],
    headers: Ipv6ExtensionSliceIter<'a>,
    number: IpNumber,
    rest: &'a [u8],
    done: bool,
    pub ghost leads: { number.0 ≡ leads_to first.0 (longest_chain first.0 bytes.now) },
    pub ghost after: { rest.now ≡ rest_after (longest_chain first.0 bytes.now) bytes.now },
    // the remaining headers lead to the number to which the chain leads
    pub ghost ends: { number.0 ≡ leads_to number.0 (headers_left headers) },
    pub ghost are_bytes: { AreBytes (bytes_of (headers_left headers)) },
    pub ghost last: { IsTrue done → headers_left headers ≡ [] },
}

impl<'a> Ipv6ExtensionsRuns<'a> {
    ghost use Rattle.std.specs.Prelude.{◌+◌, ◌/◌, ◌≤◌, List, [], length, map, IfSome, IfNone};
    ghost use Rattle.ip_spec.specs.Chain.{ExtHeader};
    ghost use Rattle.ip_spec.specs.Encoding.{cleared_chain};
    ghost use Rattle.ip_spec.specs.Fits.{FitsPlaces};
    ghost use Rattle.ip_spec.specs.Runs.{AreRuns, joined, how_many};
    ghost use Rattle.ip_ext_slices.specs.ChainFault.{chain_fault};
    ghost use Rattle.ip_ext_slices.specs.Ipv6ExtensionsSlice.{bytes as bytes_in, headers_in};
    ghost use Rattle.ip_ext_chains.specs.RunsOf.{runs_from, runs_of, AreSpellings};
    ghost use Rattle.ip_ext_chains.specs.Ipv6Extensions.{value_of};
    ghost use Rattle.ip_ext_chains.specs.Ipv6ExtensionsRuns.{start, input, runs_left, values_left, number_before, number_left, PassesRun, TakesRun};

    /// Returns the runs of the longest chain at the start of the bytes, for the start number `first`. There is at
    /// least one run, and at most one per 8 bytes and one more. No header is lost: written one after the other, the
    /// first from `first` and each other from the number to which the one before leads, they are the chain with its
    /// reserved bits zero.
    pub fn new(first: IpNumber, bytes: &'a [u8]) -> Ipv6ExtensionsRuns<'a>
        ensures start { start result ≡ first.0 }
        ensures input { input result ≡ bytes.now }
        ensures number { number_left result ≡ first.0 }
        ensures runs { runs_left result ≡ runs_of first.0 bytes.now }
        ensures values { values_left result ≡ map value_of (runs_of first.0 bytes.now) }
        ensures partition { AreRuns (leads_to first.0 (longest_chain first.0 bytes.now))
            (longest_chain first.0 bytes.now) (runs_left result) }
        ensures only { (ps : List (List ExtHeader))
            → AreRuns (leads_to first.0 (longest_chain first.0 bytes.now))
            (longest_chain first.0 bytes.now) ps → ps ≡ runs_left result }
        ensures fewest { (ps : List (List ExtHeader)) → joined ps ≡ longest_chain first.0 bytes.now
            → AllByRecursion FitsPlaces ps → how_many (runs_left result) ≤ how_many ps }
        ensures spelled { AreSpellings first.0 (values_left result)
            (map cleared_chain (runs_left result)) }
        ensures written { (ds : List (List ExtHeader))
            → AreSpellings first.0 (values_left result) ds
            → bytes_of (joined ds) ≡ bytes_of (cleared_chain (longest_chain first.0 bytes.now)) }
        ensures least { 1 ≤ length (runs_left result) }
        ensures most { length (runs_left result) ≤ length bytes.now / 8 + 1 }
    {
        let (headers, number, rest, _) = Ipv6ExtensionsSlice::from_slice_lax(first, bytes);
        Ipv6ExtensionsRuns {
            first,
            bytes,
            headers: headers.into_iter(),
            number,
            rest,
            done: false,
        }
    }

    /// Returns the runs of a chain that is already parsed and leads to `number`, as `new` does for bytes. Nothing is
    /// parsed again. They start at the number of the first header, or at `number` if there is none. `end` is that of
    /// the headers' bytes alone.
    #[inline(always)]
    pub fn from_headers(
        headers: Ipv6ExtensionsSlice<'a>,
        number: IpNumber,
    ) -> Ipv6ExtensionsRuns<'a>
        requires leads { number.0 ≡ leads_to number.0 (headers_in headers) }
        ensures start { start result ≡ number_left result }
        ensures input { input result ≡ bytes_in headers.entry }
        ensures number { number_left result ≡ number_before number.0 (headers_in headers.entry) }
        ensures runs { runs_left result ≡ runs_from number.0 (headers_in headers.entry) }
        ensures values { values_left result
            ≡ map value_of (runs_from number.0 (headers_in headers.entry)) }
        ensures partition { AreRuns number.0 (headers_in headers.entry) (runs_left result) }
        ensures joined { joined (runs_left result) ≡ headers_in headers.entry }
        ensures only { (ps : List (List ExtHeader)) → AreRuns number.0 (headers_in headers.entry) ps
            → ps ≡ runs_left result }
        ensures fewest { (ps : List (List ExtHeader)) → joined ps ≡ headers_in headers.entry
            → AllByRecursion FitsPlaces ps → how_many (runs_left result) ≤ how_many ps }
        ensures spelled { AreSpellings (number_left result) (values_left result)
            (map cleared_chain (runs_left result)) }
        ensures written { (ds : List (List ExtHeader))
            → AreSpellings (number_left result) (values_left result) ds
            → bytes_of (joined ds) ≡ bytes_of (cleared_chain (headers_in headers.entry)) }
        ensures least { 1 ≤ length (runs_left result) }
        ensures most { length (runs_left result) ≤ length (bytes_in headers.entry) / 8 + 1 }
    {
        let first = headers.first_header().unwrap_or(number);
        let bytes = headers.slice();
        Ipv6ExtensionsRuns {
            first,
            bytes,
            headers: headers.into_iter(),
            number,
            rest: &bytes[bytes.len()..],
            done: false,
        }
    }

    /// Clears the reserved bits of the remaining headers in a copy of their bytes, as `clear_chain` does, and returns
    /// the number of remaining runs. Passes over the headers once, and makes no struct of them.
    pub fn clear_runs(self, copy: &mut [u8]) -> usize
        requires copied { copy.old ≡ bytes_of (joined (runs_left self)) }
        ensures cleared { copy.new ≡ bytes_of (cleared_chain (joined (runs_left self.entry))) }
        ensures count { result ≡ length (runs_left self.entry) }
    {
        let mut headers = self.headers;
        let mut done = self.done;
        let mut count: usize = 0;
        let mut at = 0;
        'runs: while !done {
            let (places, end) = clear_run(&mut headers, at, copy);
            done = is_last(&headers, &places, self.number);
            count += 1;
            at = end;
        }
        count
    }

    /// Returns the number from which the next run is to be written: at the start `first`, and then the number to
    /// which the run before leads. After the last run it is the number to which the chain leads.
    #[tactic(auto, using(crate::proofs::RunSpellingLemmas::numbers_left))]
    pub fn next_number(&self) -> IpNumber
        ensures number { result.0 ≡ number_left self.now }
        ensures spelled { AreSpellings result.0 (values_left self.now)
            (map cleared_chain (runs_left self.now)) }
        ensures end { values_left self.now ≡ []
            → result.0 ≡ leads_to (start self.now) (longest_chain (start self.now) (input self.now)) }
    {
        if self.headers.rest().is_empty() {
            return self.number;
        }
        self.headers.next_number()
    }

    /// Passes over the next run, as `next` does, and returns whether there was one. No struct is made of it, so
    /// counting the runs takes no more than passing over their headers.
    pub fn skip_run(&mut self) -> bool
        ensures some { IsTrue result → PassesRun self.old self.new }
        ensures none { IsFalse result → values_left self.old ≡ [] }
        ensures unchanged { IsFalse result → self.new ≡ self.old }
        ensures start { start self.new ≡ start self.old }
        ensures input { input self.new ≡ input self.old }
    {
        if self.done {
            return false;
        }
        let _ = self.take_places();
        true
    }

    /// Passes over the next run, which there is, and returns its headers in their places.
    #[inline(always)]
    fn take_places(&mut self) -> Places<Ipv6ExtensionSlice<'a>>
        requires { IsFalse self.old.done }
        ensures { TakesRun self.old result self.new }
    {
        let places = take_run(&mut self.headers);
        self.done = is_last(&self.headers, &places, self.number);
        places
    }

    /// Returns the end of the chain once no item is left, and `None` before: the number to which the chain leads, the
    /// bytes after it, and the error that ended it, if any, with its layer. Offsets in the error count from the start
    /// of the bytes given to `new`.
    #[tactic(auto, using(crate::proofs::RunsOfLemmas::some_value_left, ip_ext_slices::proofs::ParseLemmas::chain_fault_is, ip_ext_slices::proofs::ParseLemmas::len_after))]
    pub fn end(&self) -> Option<(IpNumber, &'a [u8], Option<(HeaderSliceError, Layer)>)>
        ensures before { IfNone result (values_left self.now ≢ []) }
        ensures last { IfSome result (λ _. values_left self.now ≡ []) }
        ensures number { IfSome result (λ e. e.0.0
            ≡ leads_to (start self.now) (longest_chain (start self.now) (input self.now))) }
        ensures rest { IfSome result (λ e. e.1.now
            ≡ rest_after (longest_chain (start self.now) (input self.now)) (input self.now)) }
        ensures fault { IfSome result (λ e. e.2 ≡ chain_fault (start self.now) (input self.now)) }
    {
        if !self.done {
            return None;
        }
        let len = self.bytes.len() - self.rest.len();
        let fault = fault_at(len == 0, self.number, self.rest, len);
        Some((self.number, self.rest, fault))
    }
}

impl<'a> Iterator for Ipv6ExtensionsRuns<'a> {
    type Item = Ipv6Extensions;

    ghost use Rattle.std.specs.Iterator.{item_count};
    ghost use Rattle.ip_ext_chains.specs.Ipv6ExtensionsRuns.{values_left, GivesRun};

    ghost next_gives = { GivesRun };

    ghost remaining = { item_count values_left };

    fn next(&mut self) -> Option<Ipv6Extensions> {
        if self.done {
            return None;
        }
        let places = self.take_places();
        let mut exts = Ipv6Extensions::default();
        exts.fill(&places);
        Some(exts)
    }
}
