//! An iterator over the options of a header.
ghost use Rattle.std.specs.Prelude.{◌≡◌, ◌≤◌, length};

use crate::header_option::{HeaderOption, option_at};
use ip_ext_headers::Ipv6RawExtHeaderSlice;

/// The options of a hop-by-hop or destination options header (RFC 8200, section 4.2), once and in order, and `None` from
/// then on. A malformed option ends them: it would go past the end of the header.
#[derive(Clone, Copy, Debug)]
pub struct HeaderOptions<'a> {
    header: &'a [u8],
    offset: usize,
    pub ghost within: { offset ≤ length header.now },
}

impl<'a> HeaderOptions<'a> {
    ghost use Rattle.std.specs.Prelude.{◌≢◌, ◌⊎◌, ◌<◌, [], drop, IfSome, IfNone};
    ghost use Rattle.ip_ext_headers.specs.Ipv6RawExtHeaderSlice.{bytes};
    ghost use Rattle.ip_header_contents.specs.Options.{header_bytes, position, options_left, options_in};

    /// Returns the options of a hop-by-hop or destination options header. They begin at offset 2.
    #[inline(always)]
    pub fn of(header: &Ipv6RawExtHeaderSlice<'a>) -> HeaderOptions<'a>
        ensures header { header_bytes result ≡ bytes header.now }
        ensures position { position result ≡ 2 }
        ensures options { options_left result ≡ options_in (drop 2 (bytes header.now)) }
    {
        HeaderOptions {
            header: header.slice(),
            offset: 2,
        }
    }

    /// Returns the offset of the next option, in bytes from the start of the header; after the last option, the header's
    /// length, or the offset of a malformed option.
    #[inline(always)]
    pub fn offset(&self) -> usize
        ensures { result ≡ position self.now }
    {
        self.offset
    }

    /// Returns the offset of a malformed option, in bytes from the start of the header, once no option is left before it.
    #[inline(always)]
    #[tactic(auto, using(crate::proofs::OptionLemmas::has_first, crate::proofs::OptionLemmas::none))]
    pub fn malformed(&self) -> Option<usize>
        ensures end { IfSome result (λ _. options_left self.now ≡ []) }
        ensures offset { IfSome result (λ k. k ≡ position self.now) }
        ensures within { IfSome result (λ k. k < length (header_bytes self.now)) }
        ensures none { IfNone result ((options_left self.now ≢ [])
            ⊎ (position self.now ≡ length (header_bytes self.now))) }
    {
        let left = self.left();
        if left.is_empty() {
            return None;
        }
        match option_at(left) {
            Some(_) => None,
            None => Some(self.offset),
        }
    }

    /// Returns the bytes from the position on.
    #[inline(always)]
    fn left(&self) -> &'a [u8]
        ensures { result.now ≡ drop (position self.now) (header_bytes self.now) }
    {
        &self.header[self.offset..]
    }
}

impl<'a> Iterator for HeaderOptions<'a> {
    type Item = HeaderOption<'a>;

    ghost use Rattle.std.specs.Iterator.{item_count};
    ghost use Rattle.ip_header_contents.specs.Options.{options_left, GivesOption};

    ghost next_gives = { GivesOption };

    ghost remaining = { item_count options_left };

    #[inline(always)]
    #[tactic(auto, using(crate::proofs::OptionLemmas::none))]
    fn next(&mut self) -> Option<HeaderOption<'a>> {
        let Some(option) = option_at(self.left()) else {
            return None;
        };
        self.offset += option.encoded_len();
        Some(option)
    }
}
