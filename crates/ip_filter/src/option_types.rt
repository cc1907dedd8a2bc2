//! Which types the options of a packet have.
ghost use Rattle.std.specs.Prelude.{◌≡◌, ◌==◌, ◌||◌, ℕ};
ghost use Rattle.std.specs.List.{list_any};
ghost use Rattle.ip_ext_headers.specs.Ipv6RawExtHeaderSlice.{bytes};
ghost use Rattle.ip_ext_slices.specs.Longest.{longest_chain};
ghost use Rattle.ip_ext_slices.specs.Ipv6ExtensionSlice.{header_of};
ghost use Rattle.ip_filter.specs.HeaderFields.{has_option, has_option_type};
ghost use Rattle.ip_filter.specs.OptionTypes.{has_type};

use ip_base::IpNumber;
use ip_ext_headers::Ipv6RawExtHeaderSlice;
use ip_ext_slices::{Ipv6ExtensionSlice, Ipv6ExtensionsCursor};
use ip_header_contents::HeaderOptions;

/// A set of types of options, of which each has one bit.
#[derive(Clone, Copy, Debug)]
pub(crate) struct OptionTypes {
    words: [u64; 4],
}

impl OptionTypes {
    ghost use Rattle.std.specs.Prelude.{false};

    /// Returns the empty set.
    #[inline(always)]
    pub(crate) fn none() -> OptionTypes
        ensures { (n : ℕ) → has_type result n ≡ false }
    {
        OptionTypes { words: [0; 4] }
    }

    /// Returns the types of the options in the longest chain.
    pub(crate) fn of_headers(first: IpNumber, bytes: &[u8]) -> OptionTypes
        ensures { (n : ℕ) → has_type result n ≡ list_any (has_option n) (longest_chain first.0 bytes.now) }
    {
        let mut types = OptionTypes::none();
        'headers: for header in Ipv6ExtensionsCursor::new(first, bytes) {
            types.insert_header(&header);
        }
        types
    }

    /// Returns whether the set has the type.
    #[inline(always)]
    pub(crate) fn has(&self, option_type: u64) -> bool
        ensures { result ≡ has_type self.now option_type }
    {
        if option_type > 255 {
            return false;
        }
        (self.words[(option_type / 64) as usize] >> (option_type % 64)) & 1 == 1
    }

    /// Inserts the types of the options of a header, which may have none.
    fn insert_header(&mut self, header: &Ipv6ExtensionSlice<'_>)
        ensures { (n : ℕ) → has_type self.new n ≡ (has_type self.old n || has_option n (header_of header.now)) }
    {
        match header {
            Ipv6ExtensionSlice::HopByHop(header) => self.insert_options(header),
            Ipv6ExtensionSlice::DestinationOptions(header) => self.insert_options(header),
            _ => {}
        }
    }

    /// Inserts the types of the options of a hop-by-hop or destination options header.
    fn insert_options(&mut self, header: &Ipv6RawExtHeaderSlice<'_>)
        ensures { (n : ℕ) → has_type self.new n ≡ (has_type self.old n || has_option_type n (bytes header.now)) }
    {
        'options: for option in HeaderOptions::of(header) {
            self.insert(option.option_type);
        }
    }

    /// Inserts a type.
    #[inline(always)]
    fn insert(&mut self, option_type: u8)
        ensures { (n : ℕ) → has_type self.new n ≡ (has_type self.old n || (option_type == n)) }
    {
        self.words[usize::from(option_type / 64)] |= 1 << (option_type % 64);
    }
}
