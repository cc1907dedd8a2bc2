//! A law of headers that are inserted, proved as the contract of a call.
ghost use Rattle.std.specs.Prelude.{◌≡◌, ◌++◌, None, true, is_some};
ghost use Rattle.ip_spec.specs.Encoding.{AreBytes};
ghost use Rattle.ip_base.specs.BaseHeaderFields.{ipv4_checksum};
ghost use Rattle.ip_base.specs.Checksum.{checksum_of, with_word};
ghost use Rattle.ip_dissect.specs.Dissection.{dissected};
ghost use Rattle.ip_rewrite.specs.Rewritten.{rewritten_parts, restated};
ghost use Rattle.ip_rewrite.specs.Without.{packet_fault, without, without_fault};
ghost use Rattle.ip_rewrite.specs.Insertion.{inserted, insertion_fault};
ghost use Rattle.ip_rewrite.specs.declared.which.Which.TheVariants.{Index};

/// Proves that `remove_header` can leave out the header that `with_header` inserted, and writes the old packet: without padding,
/// and with the length and IPv4's checksum stated anew. That is the old packet byte by byte in IPv6, and in IPv4 if its
/// length was stated and its checksum was right.
pub fn what_was_inserted_can_be_left_out()
    ensures accepted { (s authentication index room h : _)
        → let p = dissected s in insertion_fault authentication index h p room ≡ None
        → without_fault (Index index) authentication
        (rewritten_parts p (inserted index h p.headers) p.number p.payload) room ≡ None }
    ensures left_out { (s authentication index room h : _)
        → let p = dissected s in insertion_fault authentication index h p room ≡ None
        → without (Index index) (rewritten_parts p (inserted index h p.headers) p.number p.payload)
        ≡ restated p }
    ensures ipv6 { (s : _) → let p = dissected s in AreBytes s → packet_fault p ≡ None → p.version ≡ 6
        → restated p ++ p.padding ≡ s }
    ensures ipv4 { (s : _) → let p = dissected s in AreBytes s → packet_fault p ≡ None → p.version ≡ 4
        → is_some p.stated ≡ true → ipv4_checksum p.base ≡ checksum_of (with_word p.base 10 0)
        → restated p ++ p.padding ≡ s }
{}
