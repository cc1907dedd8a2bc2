//! Two visitors in one walk.
ghost use Rattle.std.specs.Prelude.{◌≡◌};

use ip_base::IpNumber;
use ip_dissect::HeaderVisitor;

/// Two visitors that see the same headers.
#[derive(Clone, Copy, Debug)]
pub(crate) struct Both<A, B> {
    /// The first.
    pub(crate) first: A,
    /// The second.
    pub(crate) second: B,
}

impl<A: HeaderVisitor, B: HeaderVisitor> HeaderVisitor for Both<A, B> {
    ghost visited = { λ old k c new. A.visited old.first k c new.first × B.visited old.second k c new.second };

    ghost none = { λ v k. (A.none v.first k, B.none v.second k) };

    #[inline(always)]
    fn visit(&mut self, number: IpNumber, header: &[u8], index: usize, offset: usize) {
        self.first.visit(number, header, index, offset);
        self.second.visit(number, header, index, offset);
    }
}
