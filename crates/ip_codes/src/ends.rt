//! The codes of fragments and of ends.
ghost use Rattle.std.specs.Prelude.{◌≡◌};
ghost use Rattle.ip_codes.specs.Codes.{kind_code, end_code};

use ip_dissect::{End, FragmentKind};

/// Returns the code of a kind of fragment: 1 atomic, 2 first, 3 middle, 4 last.
#[inline(always)]
pub fn kind_code_of(kind: FragmentKind) -> u16
    ensures { result ≡ kind_code kind }
{
    match kind {
        FragmentKind::Atomic => 1,
        FragmentKind::First => 2,
        FragmentKind::Middle => 3,
        FragmentKind::Last => 4,
    }
}

/// Returns the code of an end: 0 at the payload, 1 at that of a later fragment, 2 truncated, 3 faulty.
#[inline(always)]
pub fn end_code_of(end: &End) -> u16
    ensures { result ≡ end_code end.now }
{
    match end {
        End::Payload => 0,
        End::LaterFragment => 1,
        End::Truncated { .. } => 2,
        End::Fault { .. } => 3,
    }
}
