//! A visitor of the headers that are kept.
ghost use Rattle.std.specs.Prelude.{◌≡◌, ◌<◌, ◌+◌, ◌^◌, ℕ, List, length, refl};
ghost use Rattle.ip_spec.specs.Chain.{ExtHeader, bytes_of};
ghost use Rattle.ip_rewrite.specs.Selection.{kept};

use crate::Which;
use ip_base::IpNumber;
use ip_dissect::HeaderVisitor;

/// Passes the headers that are kept on to a visitor, as if there were no others.
#[derive(Clone, Copy, Debug)]
pub(crate) struct Kept<V> {
    /// The visitor.
    pub(crate) visitor: V,
    /// The headers that are left out.
    which: Which,
    /// How many headers are kept.
    count: usize,
    /// The length of these in bytes.
    len: usize,
}

impl<V> Kept<V> {
    ghost use Rattle.std.specs.Prelude.{◌≡◌};

    /// Returns a visitor that has seen nothing.
    #[inline(always)]
    pub(crate) fn new(which: Which, visitor: V) -> Kept<V>
        ensures which { result.which ≡ which }
        ensures visitor { result.visitor ≡ visitor }
        ensures count { result.count ≡ 0 }
        ensures len { result.len ≡ 0 }
    {
        Kept {
            visitor,
            which,
            count: 0,
            len: 0,
        }
    }
}

impl<V: HeaderVisitor> HeaderVisitor for Kept<V> {
    ghost visited = { λ old k c new. (new.which ≡ old.which)
        × (old.count ≡ 0 → old.len ≡ 0
        → (length c < 2 ^ 64 → new.count ≡ length (kept old.which c))
        × (length (bytes_of c) < 2 ^ 64 → new.len ≡ length (bytes_of (kept old.which c)))
        × V.visited old.visitor 0 (kept old.which c) new.visitor) };

    ghost none = { λ v k. (refl, λ first start. (λ few. first, λ small. start, V.none v.visitor 0)) };

    #[inline(always)]
    fn visit(&mut self, number: IpNumber, header: &[u8], index: usize, _offset: usize) {
        if !self.which.selects(number, index) {
            self.visitor.visit(number, header, self.count, self.len);
            self.count = self.count.saturating_add(1);
            self.len = self.len.saturating_add(header.len());
        }
    }
}
