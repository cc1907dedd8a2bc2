//! A visitor that finds the fragment header of an IPv6 packet.
ghost use Rattle.std.specs.Prelude.{◌≡◌, ◌+◌, ℕ, List, [], Some, None, if◌then◌else◌, length};
ghost use Rattle.ip_spec.specs.Header.{IsHeader};
ghost use Rattle.ip_spec.specs.Chain.{ExtHeader};
ghost use Rattle.ip_dissect.specs.Fragment.{fragments};
ghost use Rattle.ip_defragmenter.specs.Finder.{found_at, found_after};

use ip_base::{IpFragOffset, IpNumber, ip_number};
use ip_dissect::HeaderVisitor;
use ip_ext_headers::Ipv6FragmentHeaderSlice;

/// A fragment header that fragments the payload.
#[derive(Clone, Copy, Debug)]
pub(crate) struct FoundHeader {
    /// How many bytes of the packet precede it.
    pub(crate) start: usize,
    /// Its length in bytes.
    pub(crate) len: usize,
    /// The number of what follows it.
    pub(crate) next_header: IpNumber,
    /// The fragment offset.
    pub(crate) offset: IpFragOffset,
    /// Whether more fragments follow.
    pub(crate) more: bool,
    /// The identification.
    pub(crate) identification: u32,
}

/// What was found among the headers so far.
#[derive(Clone, Copy, Debug)]
pub(crate) struct Finder {
    /// The first fragment header that fragments the payload.
    pub(crate) header: Option<FoundHeader>,
    /// Where the number of that header stands, or of the header after all so far, in bytes from the start of the packet.
    pub(crate) link: usize,
}

impl Finder {
    /// Returns a finder that has seen no header.
    #[inline(always)]
    pub(crate) fn new() -> Finder
        ensures { (k : ℕ) → result ≡ found_after k [] }
    {
        Finder {
            header: None,
            link: 6,
        }
    }
}

impl HeaderVisitor for Finder {
    ghost visited = { λ old k c new. old ≡ found_after k [] → new ≡ found_after k c };

    ghost none = { λ v k e. e };

    #[inline(always)]
    fn visit(&mut self, number: IpNumber, header: &[u8], _index: usize, offset: usize) {
        if self.header.is_some() {
            return;
        }
        match fragmenting_header(number, header, offset) {
            Some(found) => self.header = Some(found),
            None => self.link = offset,
        }
    }
}

/// Returns what a header says if it fragments the payload.
#[inline(always)]
fn fragmenting_header(number: IpNumber, header: &[u8], start: usize) -> Option<FoundHeader>
    requires { IsHeader number.0 header.now }
    ensures { (h : ExtHeader) → h ≡ record { number = number.0; bytes = header.now }
        → result ≡ (if fragments h then Some (found_at start h) else None) }
{
    if number != ip_number::IPV6_FRAG {
        return None;
    }
    match Ipv6FragmentHeaderSlice::from_slice(header) {
        Ok(fields) => {
            if !fields.is_fragmenting_payload() {
                return None;
            }
            Some(FoundHeader {
                start,
                len: header.len(),
                next_header: fields.next_header(),
                offset: fields.fragment_offset(),
                more: fields.more_fragments(),
                identification: fields.identification(),
            })
        }
        Err(_) => None,
    }
}
