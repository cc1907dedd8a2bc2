//! The length of a run, by the numbers of its headers.
ghost use Rattle.std.specs.Prelude.{◌≡◌, ◌≤◌, ℕ, length, take};
ghost use Rattle.ip_spec.specs.Demand.{KeepsBeginning};
ghost use Rattle.ip_ext_chains.specs.InPlaces.{AreInPlaces};

use crate::places::Places;
use ip_base::IpNumber;

/// What has a protocol number, as a header does.
pub trait HasNumber {
    ghost number_of: { Self → ℕ };

    /// Returns the number.
    fn number(&self) -> IpNumber
        ensures { result.0 ≡ number_of self.now };
}

/// Returns how many of the headers, from the first on, fit one struct of six places: all, or those before the first
/// whose place is occupied or that is not an extension header. In a chain they are its first run; the header after
/// them starts the next, so each call returns the length of one more run (RFC 8200, section 4.1).
pub fn run_len<H: HasNumber>(headers: &[H]) -> usize
    ensures within { result ≤ length headers.now }
    ensures run { KeepsBeginning (AreInPlaces H.number_of) headers.now (take result headers.now) }
{
    let mut places = Places::new();
    'lens: for len in 0..headers.len() {
        let Some(place) = places.next_place(headers[len].number()) else {
            return len;
        };
        places.put(place, ());
    }
    headers.len()
}
