//! Laws of single headers, proved as the contracts of calls.
ghost use Rattle.std.specs.Prelude.{◌≡◌, length, slice_range};
ghost use Rattle.ip_spec.specs.LongestOf.{OnlyOne};
ghost use Rattle.ip_spec.specs.Numbers.{FRAGMENT, AUTHENTICATION};
ghost use Rattle.ip_spec.specs.Header.{IsRawHeader, IsFragmentHeader, IsAuthHeader};
ghost use Rattle.ip_spec.specs.Fields.{raw_fields, fragment_fields, auth_fields, raw_len, auth_len};
ghost use Rattle.ip_spec.specs.Encoding.{cleared_header, AreBytes, IsRawEncoding, IsFragmentEncoding, IsAuthEncoding};
ghost use Rattle.ip_spec.specs.Decoding.{IsRawDecoding, IsFragmentDecoding, IsAuthDecoding};

/// Proves that bytes start with at most one header of a format: its fields and the rest after it are unique.
pub fn one_decoding()
    ensures raw { (s v w r q : _) → IsRawDecoding s v r → IsRawDecoding s w q → v ≡ w }
    ensures raw_rest { (s v w r q : _) → IsRawDecoding s v r → IsRawDecoding s w q → r ≡ q }
    ensures fragment { (s v w r q : _) → IsFragmentDecoding s v r → IsFragmentDecoding s w q
        → v ≡ w }
    ensures fragment_rest { (s v w r q : _) → IsFragmentDecoding s v r → IsFragmentDecoding s w q
        → r ≡ q }
    ensures auth { (s v w r q : _) → IsAuthDecoding s v r → IsAuthDecoding s w q → v ≡ w }
    ensures auth_rest { (s v w r q : _) → IsAuthDecoding s v r → IsAuthDecoding s w q → r ≡ q }
{}

/// Proves that fields have at most one encoding.
pub fn one_encoding()
    ensures raw { (v : _) → OnlyOne (IsRawEncoding v) }
    ensures fragment { (v : _) → OnlyOne (IsFragmentEncoding v) }
    ensures auth { (v : _) → OnlyOne (IsAuthEncoding v) }
{}

/// Proves that a header whose reserved bits are set to zero is a header with the same fields, and that setting them
/// to zero again changes nothing. A header in the uniform format (RFC 6564) has no reserved bits.
pub fn cleared_header_says_the_same()
    ensures fragment { (b : _) → IsFragmentHeader b → IsFragmentHeader (cleared_header FRAGMENT b)
        × (fragment_fields (cleared_header FRAGMENT b) ≡ fragment_fields b)
        × (cleared_header FRAGMENT (cleared_header FRAGMENT b) ≡ cleared_header FRAGMENT b) }
    ensures auth { (b : _) → IsAuthHeader b → IsAuthHeader (cleared_header AUTHENTICATION b)
        × (auth_fields (cleared_header AUTHENTICATION b) ≡ auth_fields b)
        × (cleared_header AUTHENTICATION (cleared_header AUTHENTICATION b) ≡ cleared_header AUTHENTICATION b) }
{}

/// Proves that a header whose reserved bits are set to zero encodes its fields, if its numbers are bytes.
pub fn cleared_header_encodes()
    ensures raw { (b : _) → IsRawHeader b → AreBytes (slice_range b 1 2)
        → IsRawEncoding (raw_fields b) b }
    ensures fragment { (b : _) → IsFragmentHeader b → AreBytes (slice_range b 1 8)
        → IsFragmentEncoding (fragment_fields b) (cleared_header FRAGMENT b) }
    ensures auth { (b : _) → IsAuthHeader b → AreBytes (slice_range b 1 12)
        → IsAuthEncoding (auth_fields b) (cleared_header AUTHENTICATION b) }
{}

/// Proves that the fields determine the length.
pub fn encoding_len()
    ensures raw { (v b : _) → IsRawEncoding v b → length b ≡ raw_len v }
    ensures fragment { (v b : _) → IsFragmentEncoding v b → length b ≡ 8 }
    ensures auth { (v b : _) → IsAuthEncoding v b → length b ≡ auth_len v }
{}
