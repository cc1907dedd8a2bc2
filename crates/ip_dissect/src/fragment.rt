//! Which fragment a packet is.
ghost use Rattle.std.specs.Prelude.{◌≡◌, ◌≤◌};
ghost use Rattle.ip_dissect.specs.Fragment.{kind_of, fragment_with, is_atomic};

/// Which fragment of a packet this is.
#[derive(Clone, Copy, Debug, PartialEq, Eq)]
pub enum FragmentKind {
    /// The whole packet, with a fragment header (RFC 6946).
    Atomic,
    /// The first fragment: more follow.
    First,
    /// Neither the first nor the last fragment.
    Middle,
    /// The last fragment.
    Last,
}

/// What a packet says about its fragmentation (RFC 791, section 3.2; RFC 8200, section 4.5).
#[derive(Clone, Copy, Debug, PartialEq, Eq)]
pub struct Fragment {
    /// The identification, equal in all fragments of a packet.
    pub identification: u32,
    /// The fragment offset, in bytes.
    pub offset: u16,
    /// Which fragment it is.
    pub kind: FragmentKind,
}

impl Fragment {
    /// Returns the fragment with this flag and this offset, in units of 8 bytes.
    #[inline(always)]
    pub(crate) fn new(identification: u32, more_fragments: bool, offset: u16) -> Fragment
        requires { offset ≤ 8191 }
        ensures { result ≡ fragment_with identification more_fragments offset }
    {
        Fragment {
            identification,
            offset: 8 * offset,
            kind: FragmentKind::of(more_fragments, offset),
        }
    }

    /// Returns whether it is a whole packet.
    #[inline(always)]
    pub(crate) fn is_atomic(&self) -> bool
        ensures { result ≡ is_atomic self.now }
    {
        matches!(self.kind, FragmentKind::Atomic)
    }
}

impl FragmentKind {
    /// Returns the kind for this flag and this offset.
    #[inline(always)]
    fn of(more_fragments: bool, offset: u16) -> FragmentKind
        ensures { result ≡ kind_of more_fragments offset }
    {
        match (offset == 0, more_fragments) {
            (true, false) => FragmentKind::Atomic,
            (true, true) => FragmentKind::First,
            (false, true) => FragmentKind::Middle,
            (false, false) => FragmentKind::Last,
        }
    }
}
