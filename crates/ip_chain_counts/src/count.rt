//! Chains that are counted.
ghost use Rattle.std.specs.Prelude.{◌≡◌, ◌++◌, ◌∷◌, [], ℕ, List};
ghost use Rattle.std.proofs.Common.{rules};
ghost use Rattle.ip_dissect.specs.Dissection.{dissected};
ghost use Rattle.ip_key_counts.specs.Counts.{Counts, keys_counted};
ghost use Rattle.ip_key_counts.specs.Table.{counts_in, room_of, IsTable};
ghost use Rattle.ip_chain_counts.specs.Chain.{chain_end, chain_of, numbers_of, keys_of, keys_of_all};
ghost use Rattle.ip_chain_counts.specs.Counted.{IsChainCounted};
ghost use Rattle.ip_chain_counts.specs.KeyBytes.{HasBytes};
ghost use Rattle.ip_statistics.specs.Packet.{counts_of};
ghost use Rattle.ip_statistics.specs.Statistics.{merged};

use crate::key_bytes::KeyBytes;
use ip_base::IpNumber;
use ip_dissect::{End, HeaderVisitor, Packet, WalkVisitor};
use ip_key_counts::KeyCounts;
use ip_statistics::Statistics;

/// Returns how a chain ends: 0 as a whole, 1 at a fault, 2 truncated.
#[inline(always)]
fn chain_end(end: &End) -> u8
    ensures { result ≡ chain_end end.now }
{
    match end {
        End::Payload | End::LaterFragment => 0,
        End::Fault { .. } => 1,
        End::Truncated { .. } => 2,
    }
}

/// A visitor that counts the chain of a packet after a path.
#[derive(Drop)]
pub(crate) struct ChainVisitor<'v, 'm> {
    /// Where it is counted.
    counts: &'v mut KeyCounts<'m>,
    /// The path of the packets that carry it.
    path: &'v [u8],
    /// The path, room for what comes before the numbers of the extension headers, and these as far as they were visited.
    key: KeyBytes,
}

impl HeaderVisitor for ChainVisitor<'_, '_> {
    ghost use Rattle.ip_spec.specs.Chain.{ExtHeader};

    ghost visited = { λ old k c new. (new.counts.ghost_name ≡ old.counts.ghost_name)
        × (new.counts.now ≡ old.counts.now)
        × (new.path.now ≡ old.path.now)
        × ((xs : List ℕ) → HasBytes old.key xs → HasBytes new.key (xs ++ numbers_of c)) };

    ghost none = { Prim.search rules };

    /// Appends the number of the header.
    #[inline(always)]
    fn visit(&mut self, number: IpNumber, _header: &[u8], _index: usize, _offset: usize) {
        self.key.push(number.0);
    }
}

impl WalkVisitor for ChainVisitor<'_, '_> {
    ghost walked = { IsChainCounted };

    /// Counts the chain: without a base header there is none.
    #[inline(always)]
    fn end(&mut self, packet: &Packet<'_>) {
        if packet.summary.version == 0 {
            return;
        }
        let end = chain_end(&packet.end());
        let summary = &packet.summary;
        self.key.put(self.path.len(), summary.version, summary.next_header.0, end);
        match self.key.get() {
            Some(key) => self.counts.count(key, 1),
            None => self.counts.count_too_long(1),
        }
    }
}

/// Counts the chain of the packet at the start of `bytes`, which may be any bytes, after the path of the packets that carry it:
/// without a base header there is none.
#[inline(always)]
pub fn count_chain(counts: &mut KeyCounts<'_>, path: &[u8], bytes: &[u8])
    ensures counts { IsTable counts.old → counts_in counts.new
        ≡ keys_counted (room_of counts.old) (counts_in counts.old) (keys_of path.now (dissected bytes.now)) }
    ensures packets { (c : Counts) (xs : List (List ℕ)) → IsTable counts.old
        → counts_in counts.old ≡ keys_counted (room_of counts.old) c (keys_of_all path.now xs)
        → counts_in counts.new ≡ keys_counted (room_of counts.old) c (keys_of_all path.now (xs ++ bytes.now ∷ [])) }
    ensures table { IsTable counts.old → IsTable counts.new }
    ensures room { room_of counts.new ≡ room_of counts.old }
    ensures seed { counts.new.seed ≡ counts.old.seed }
{
    let key = KeyBytes::after(path);
    let mut visitor = ChainVisitor { counts, path, key };
    Packet::walk_through(bytes, &mut visitor);
}

/// Counts the packet at the start of `bytes`, which may be any bytes, and its chain as `count_chain` does, in one walk over its
/// extension headers.
#[inline(always)]
pub fn count_packet_and_chain(
    statistics: &mut Statistics,
    counts: &mut KeyCounts<'_>,
    path: &[u8],
    bytes: &[u8],
)
    ensures statistics { statistics.new ≡ merged statistics.old (counts_of (dissected bytes.now)) }
    ensures counts { IsTable counts.old → counts_in counts.new
        ≡ keys_counted (room_of counts.old) (counts_in counts.old) (keys_of path.now (dissected bytes.now)) }
    ensures packets { (c : Counts) (xs : List (List ℕ)) → IsTable counts.old
        → counts_in counts.old ≡ keys_counted (room_of counts.old) c (keys_of_all path.now xs)
        → counts_in counts.new ≡ keys_counted (room_of counts.old) c (keys_of_all path.now (xs ++ bytes.now ∷ [])) }
    ensures table { IsTable counts.old → IsTable counts.new }
    ensures room { room_of counts.new ≡ room_of counts.old }
    ensures seed { counts.new.seed ≡ counts.old.seed }
{
    let key = KeyBytes::after(path);
    let mut visitor = ChainVisitor { counts, path, key };
    statistics.count_and_visit(bytes, &mut visitor);
}
