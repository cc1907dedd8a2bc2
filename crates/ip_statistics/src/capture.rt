//! Statistics of captures, as C has them.
ghost use Rattle.std.specs.Prelude.{◌≡◌, ◌&&◌, true, false};

use crate::Statistics;
use crate::counts::add;

/// The version of the counts.
const VERSION: u32 = 1;

/// The size of `CaptureStatistics` in bytes.
const SIZE: u32 = 8152;

/// Statistics of a capture: of its packets and of its frames. C has the same struct, which names its version and size.
#[repr(C)]
#[derive(Clone, Debug, PartialEq, Eq, Drop)]
pub struct CaptureStatistics {
    /// The version of the counts: 1.
    pub version: u32,
    /// The size of the struct in bytes.
    pub size: u32,
    /// Frames without an IP packet.
    pub other_frames: u64,
    /// Frames that the snap length truncated.
    pub truncated_frames: u64,
    /// The statistics of the packets.
    pub packets: Statistics,
}

impl CaptureStatistics {
    ghost use Rattle.ip_statistics.specs.Counts.{added};
    ghost use Rattle.ip_statistics.specs.Capture.{no_frames, is_current, captures_merged};

    /// Sets all counts to 0, and the version and the size to theirs.
    pub fn clear(&mut self)
        ensures { self.new ≡ no_frames }
    {
        self.version = VERSION;
        self.size = SIZE;
        self.other_frames = 0;
        self.truncated_frames = 0;
        self.packets.clear();
    }

    /// Counts a frame that has no IP packet.
    pub fn count_other_frame(&mut self)
        ensures { self.new ≡ record self.old { other_frames = added self.old.other_frames 1 } }
    {
        add(&mut self.other_frames, 1);
    }

    /// Counts a frame that the snap length truncated, besides its packet.
    pub fn count_truncated_frame(&mut self)
        ensures { self.new
            ≡ record self.old { truncated_frames = added self.old.truncated_frames 1 } }
    {
        add(&mut self.truncated_frames, 1);
    }

    /// Adds the counts of `other` to these, and returns true. If the version or the size of either is another, returns
    /// false and changes nothing.
    pub fn merge(&mut self, other: &CaptureStatistics) -> bool
        ensures current { result ≡ (is_current self.old && is_current other.now) }
        ensures counts { result ≡ true → self.new ≡ captures_merged self.old other.now }
        ensures same { result ≡ false → self.new ≡ self.old }
    {
        if !self.is_current() || !other.is_current() {
            return false;
        }
        add(&mut self.other_frames, other.other_frames);
        add(&mut self.truncated_frames, other.truncated_frames);
        self.packets.merge(&other.packets);
        true
    }

    /// Returns whether the version and the size are those of this struct.
    fn is_current(&self) -> bool
        ensures { result ≡ is_current self.now }
    {
        self.version == VERSION && self.size == SIZE
    }
}
