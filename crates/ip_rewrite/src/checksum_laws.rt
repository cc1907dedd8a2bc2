//! A law of the checksum that is written, proved as the contract of a call.
ghost use Rattle.std.specs.Prelude.{◌≡◌, ◌<◌, None};
ghost use Rattle.ip_spec.specs.Encoding.{AreBytes};
ghost use Rattle.ip_base.specs.Checksum.{ones_sum};
ghost use Rattle.ip_dissect.specs.Dissection.{dissected};
ghost use Rattle.ip_rewrite.specs.Headers.{number_of_first};
ghost use Rattle.ip_rewrite.specs.Rewritten.{base_for, room_fault};

/// Proves that the checksum of the base header of a written IPv4 packet is right: the one's complement sum of the header's
/// words is 65,535 (RFC 791, section 3.1; RFC 1071, section 1).
pub fn written_checksums_are_right()
    ensures { (s c m q room : _) → let p = dissected s in AreBytes s → p.version ≡ 4 → number_of_first c m < 256
        → room_fault p c q room ≡ None → ones_sum (base_for p c m q) ≡ 65535 }
{}
