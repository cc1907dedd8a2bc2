//! The ECN code points of a packet's fragments.
ghost use Rattle.std.specs.Prelude.{◌≡◌, ◌∷◌, [], List, ℕ};
ghost use Rattle.ip_defragmenter.specs.Ecn.{are_mixed, is_congested};
ghost use Rattle.ip_defragmenter.specs.Points.{HoldsPoints, no_points};

/// Which ECN code points the fragments of a packet have (RFC 3168, section 5): numbers alone, with C's layout, all 0 at first.
#[repr(C)]
#[derive(Clone, Copy, Debug)]
pub(crate) struct Points {
    /// Not 0 if a fragment isn't ECN-capable.
    incapable: u8,
    /// Not 0 if one is.
    capable: u8,
    /// Not 0 if one is marked with congestion.
    congested: u8,
}

/// Returns those of no fragments.
#[inline(always)]
pub(crate) fn no_points() -> Points
    ensures none { HoldsPoints result [] }
    ensures zero { result ≡ no_points }
{
    Points {
        incapable: 0,
        capable: 0,
        congested: 0,
    }
}

/// Returns those with one more.
#[inline(always)]
pub(crate) fn with_point(points: Points, point: u8) -> Points
    ensures { (ps : List ℕ) → HoldsPoints points ps → HoldsPoints result (point ∷ ps) }
{
    Points {
        incapable: if point == 0 { 1 } else { points.incapable },
        capable: if point == 0 { points.capable } else { 1 },
        congested: if point == 3 { 1 } else { points.congested },
    }
}

/// Returns whether some fragments are ECN-capable and others aren't, with one of this code point.
#[inline(always)]
pub(crate) fn mixes(points: Points, point: u8) -> bool
    ensures { (ps : List ℕ) → HoldsPoints points ps → result ≡ are_mixed (point ∷ ps) }
{
    (point == 0 || points.incapable != 0) && (point != 0 || points.capable != 0)
}

/// Returns whether a fragment is marked with congestion.
#[inline(always)]
pub(crate) fn is_congested(points: Points) -> bool
    ensures { (ps : List ℕ) → HoldsPoints points ps → result ≡ is_congested ps }
{
    points.congested != 0
}
