//! Where a header belongs among those of a packet.
ghost use Rattle.std.specs.Prelude.{◌≡◌, ℕ, Some, None, refl};
ghost use Rattle.std.specs.Option.{option_or};
ghost use Rattle.ip_dissect.specs.Dissection.{dissected};
ghost use Rattle.ip_rewrite.specs.Order.{recommended_index};
ghost use Rattle.ip_rewrite.specs.Writing.{first_above};

use crate::order::{Contents, rank};
use ip_base::IpNumber;
use ip_dissect::{HeaderVisitor, Packet};

/// What was seen of the place for a header.
#[derive(Clone, Copy, Debug)]
struct Place {
    /// The rank of the header.
    rank: u8,
    /// The index of the last routing header, or 0 without one.
    last_routing: usize,
    /// The index of the first header of a higher rank.
    index: Option<usize>,
}

impl HeaderVisitor for Place {
    ghost visited = { λ old k c new. (new.rank ≡ old.rank)
        × (new.last_routing ≡ old.last_routing)
        × (new.index ≡ option_or old.index (first_above old.rank old.last_routing 0 c)) };

    ghost none = { λ v k. (
      refl,
      refl,
      elim v.index as (λ o. o ≡ option_or o None) [ None ↦ refl | Some i ↦ refl ],
    ) };

    #[inline(always)]
    fn visit(&mut self, number: IpNumber, _header: &[u8], index: usize, _offset: usize) {
        let is_higher = rank(number, index, self.last_routing) > self.rank;
        self.index = self.index.or(is_higher.then_some(index));
    }
}

/// Returns the index at which `with_header` inserts a header of this number in the order that RFC 8200, section 4.1,
/// recommends: before the first header that comes later in this order, or after all. Destination options come last.
pub fn recommended_index(packet: &[u8], number: IpNumber) -> usize
    ensures { result ≡ recommended_index number.0 (dissected packet.now).headers }
{
    let mut contents = Contents::default();
    let packet = Packet::walk(packet, &mut contents);
    let mut place = Place {
        rank: rank(number, 0, 0),
        last_routing: contents.last_routing,
        index: None,
    };
    Packet::walk(packet.bytes, &mut place);
    place.index.unwrap_or(packet.summary.header_count)
}
