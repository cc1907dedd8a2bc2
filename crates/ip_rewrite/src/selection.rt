//! What is known of the headers that are left out.
ghost use Rattle.std.specs.Prelude.{◌≡◌, ◌<◌, ◌+◌, ◌^◌, length};
ghost use Rattle.std.proofs.Common.{rules};
ghost use Rattle.ip_spec.specs.Header.{IsHeader};
ghost use Rattle.ip_spec.specs.Chain.{ExtHeader, bytes_of};
ghost use Rattle.ip_dissect.specs.Fragment.{fragments};
ghost use Rattle.ip_rewrite.specs.Without.{has_segments};
ghost use Rattle.ip_rewrite.specs.Writing.{empty_selection, selection_after, selection_with, facts_of};

use crate::Which;
use crate::header::{fragments, has_segments};
use ip_base::{IpNumber, ip_number};
use ip_dissect::HeaderVisitor;

/// What was seen of a packet's headers so far.
#[derive(Clone, Copy, Debug)]
pub(crate) struct Selection {
    /// The headers that are to be left out.
    pub(crate) which: Which,
    /// Some header is selected.
    pub(crate) selects: bool,
    /// The fragment header of a fragment is selected.
    pub(crate) selects_fragmenting: bool,
    /// A header is selected that is fragmented.
    pub(crate) selects_fragmented: bool,
    /// A header is selected that an authentication header covers if there is one.
    pub(crate) selects_covered: bool,
    /// A routing header with segments left is selected.
    pub(crate) selects_segments: bool,
    /// What follows is fragmented.
    pub(crate) is_fragmented: bool,
    /// There is an authentication header.
    pub(crate) has_authentication: bool,
    /// An authentication header is kept.
    pub(crate) keeps_authentication: bool,
    /// The length in bytes of the headers that are kept.
    pub(crate) kept_len: usize,
}

/// What matters of a header.
#[derive(Clone, Copy, Debug)]
pub(crate) struct HeaderFacts {
    /// It is selected.
    pub(crate) is_selected: bool,
    /// It is the fragment header of a fragment.
    pub(crate) fragments: bool,
    /// It is a fragment header.
    pub(crate) is_fragment_header: bool,
    /// It is an authentication header.
    pub(crate) authenticates: bool,
    /// It is a routing header with segments left.
    pub(crate) has_segments: bool,
    /// Its length in bytes.
    pub(crate) len: usize,
}

impl HeaderVisitor for Selection {
    ghost visited = { λ old k c new. old.kept_len + length (bytes_of c) < 2 ^ 64 → new ≡ selection_after old c };

    ghost none = { λ v k fits. Prim.search rules };

    #[inline(always)]
    fn visit(&mut self, number: IpNumber, header: &[u8], index: usize, _offset: usize) {
        let facts = facts_of(self.which, number, header, index);
        self.add(facts);
    }
}

/// Returns what matters of a header.
#[inline(always)]
fn facts_of(which: Which, number: IpNumber, header: &[u8], index: usize) -> HeaderFacts
    requires { IsHeader number.0 header.now }
    ensures { (h : ExtHeader) → h ≡ record { number = number.0; bytes = header.now }
        → result ≡ facts_of which index h }
{
    HeaderFacts {
        is_selected: which.selects(number, index),
        fragments: fragments(number, header),
        is_fragment_header: number == ip_number::IPV6_FRAG,
        authenticates: number == ip_number::AUTH,
        has_segments: has_segments(number, header),
        len: header.len(),
    }
}

impl Selection {
    /// Returns what is known before the first header.
    #[inline(always)]
    pub(crate) fn new(which: Which) -> Selection
        ensures { result ≡ empty_selection which }
    {
        Selection {
            which,
            selects: false,
            selects_fragmenting: false,
            selects_fragmented: false,
            selects_covered: false,
            selects_segments: false,
            is_fragmented: false,
            has_authentication: false,
            keeps_authentication: false,
            kept_len: 0,
        }
    }

    /// Adds one more header.
    #[inline(always)]
    fn add(&mut self, facts: HeaderFacts)
        ensures { self.old.kept_len + facts.len < 2 ^ 64 → self.new ≡ selection_with self.old facts }
    {
        self.selects |= facts.is_selected;
        self.selects_fragmenting |= facts.is_selected & facts.fragments;
        self.selects_fragmented |= self.is_fragmented & facts.is_selected;
        let is_covered = self.has_authentication | !facts.is_fragment_header;
        self.selects_covered |= facts.is_selected & is_covered;
        self.selects_segments |= facts.is_selected & facts.has_segments;
        self.is_fragmented |= facts.fragments;
        self.has_authentication |= facts.authenticates;
        self.keeps_authentication |= !facts.is_selected & facts.authenticates;
        if !facts.is_selected {
            self.kept_len = self.kept_len.saturating_add(facts.len);
        }
    }
}
