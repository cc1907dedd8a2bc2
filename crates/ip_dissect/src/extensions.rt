//! The extension headers of a dissection, one by one.
ghost use Rattle.std.specs.Prelude.{◌≡◌, ◌==◌, ◌≤◌, ℕ, List, length, IfSome, is_some};
ghost use Rattle.ip_ext_slices.specs.Ipv4Longest.{authentication_chain};
ghost use Rattle.ip_ext_slices.specs.Ipv6ExtensionsSlice as ipv6_exts;
ghost use Rattle.ip_dissect.specs.Dissection.{HasParts, dissected, version_of};

use crate::{BaseHeader, Dissection};
use ip_ext_headers::IpAuthHeaderSlice;
use ip_ext_slices::{Ipv6ExtensionsSlice, authentication_header_at};

impl<'a> Dissection<'a> {
    /// Returns the extension headers of an IPv6 packet, and `None` if there is no IPv6 base header.
    pub fn ipv6_extensions(&self) -> Option<Ipv6ExtensionsSlice<'a>>
        ensures ipv6 { is_some result ≡ (version_of self.now == 6) }
        ensures headers { IfSome result (λ x. (s : List ℕ) → HasParts (dissected s) self.now
            → ipv6_exts.headers_in x ≡ (dissected s).headers) }
        ensures within { IfSome result (λ x.
            length (ipv6_exts.bytes x) ≤ length self.now.extensions.now) }
    {
        match self.base {
            Some(BaseHeader::Ipv6(base)) => {
                let start = base.next_header();
                Some(Ipv6ExtensionsSlice::from_slice_lax(start, self.extensions).0)
            }
            Some(BaseHeader::Ipv4(_)) => None,
            None => None,
        }
    }

    /// Returns the authentication header of an IPv4 packet, its only extension header. Returns `None` if it has none,
    /// and if there is no IPv4 base header.
    #[tactic(auto, using(crate::proofs::JoinedLemmas::ipv4_found))]
    pub fn ipv4_authentication(&self) -> Option<IpAuthHeaderSlice<'a>>
        ensures ipv4 { IfSome result (λ _. version_of self.now ≡ 4) }
        ensures headers { version_of self.now ≡ 4 → (s : List ℕ) → HasParts (dissected s) self.now
            → authentication_chain result ≡ (dissected s).headers }
    {
        match self.base {
            Some(BaseHeader::Ipv4(base)) => {
                match authentication_header_at(base.protocol(), self.extensions) {
                    Ok(header) => header,
                    Err(_) => None,
                }
            }
            Some(BaseHeader::Ipv6(_)) => None,
            None => None,
        }
    }
}
