//! Fragments that arrive in order.
ghost use Rattle.std.specs.Prelude.{◌≡◌, ◌+◌, ◌-◌, ◌*◌, ◌≤◌, ◌<◌, ◌⊎◌, IfSome, true};
ghost use Rattle.ip_reassembly.specs.Run.{run_end, IsLonger};

/// A run: fragments that arrived in order from the start of the payload on, of one length, each with more fragments
/// after it. Their units need no marks.
#[repr(C)]
#[derive(Clone, Copy, Drop)]
pub(crate) struct Run {
    /// How many units of 8 bytes each fragment has.
    pub(crate) units: u16,
    /// How many fragments there are.
    pub(crate) count: u16,
}

impl Run {
    /// Returns the unit after the run.
    #[inline(always)]
    pub(crate) fn end(self) -> usize
        ensures { result ≡ run_end self }
    {
        usize::from(self.units) * usize::from(self.count)
    }

    /// Returns the run with one more fragment, of the units from `first` to `end`, if the fragment continues it.
    #[inline(always)]
    pub(crate) fn with(self, first: usize, end: usize, more: bool) -> Option<Run>
        requires ordered { first ≤ end }
        requires within { end ≤ 8192 }
        ensures { IfSome result (λ run. (more ≡ true) × IsLonger self run first end) }
    {
        if !more || first != self.end() {
            return None;
        }
        let units = (end - first) as u16;
        if self.count == 0 {
            return Some(Run { units, count: 1 });
        }
        if units != self.units || self.count == u16::MAX {
            return None;
        }
        Some(Run {
            units,
            count: self.count + 1,
        })
    }
}
