//! The fields, options and addresses of single headers.
ghost use Rattle.std.specs.Prelude.{◌≡◌, ℕ, List, false, IsTrue};
ghost use Rattle.ip_base.specs.Prefix.{IsPrefix};
ghost use Rattle.ip_spec.specs.Header.{IsRawHeader, IsFragmentHeader, IsAuthHeader};
ghost use Rattle.ip_header_contents.specs.Options.{OptionFields, StartsWithOption};
ghost use Rattle.ip_spans.specs.HeaderFields.{BeginsWithFragmentHeader, BeginsWithAuthHeader};
ghost use Rattle.ip_spans.specs.OptionCursor.{header_rest, IsOptionSpan};
ghost use Rattle.ip_spans.specs.RoutingFields.{StartsWithRoutingHeader, IsRoutingAddress, HasNoAddress};

use crate::results::put_some;
use ip_spans::{
    AuthFields, FragmentFields, OptionCursor, OptionSpan, RoutingFields, auth_fields,
    fragment_fields, routing_address, routing_fields,
};

/// Calls `fragment_fields`. Returns whether the bytes start with a fragment header; if so, stores its fields in
/// `fields`, which is otherwise unchanged.
#[unsafe(no_mangle)]
pub extern "C" fn wolfaren_fragment_fields(bytes: &[u8], fields: &mut FragmentFields) -> bool
    ensures some { IsTrue result → BeginsWithFragmentHeader bytes.now fields.new }
    ensures none { result ≡ false
        → (b : List ℕ) → IsFragmentHeader b → IsPrefix b bytes.now → ⊥ }
    ensures same { result ≡ false → fields.new ≡ fields.old }
{
    put_some(fragment_fields(bytes), fields)
}

/// Calls `auth_fields`. Returns whether the bytes start with an authentication header; if so, stores its fields in
/// `fields`, which is otherwise unchanged.
#[unsafe(no_mangle)]
pub extern "C" fn wolfaren_authentication_fields(bytes: &[u8], fields: &mut AuthFields) -> bool
    ensures some { IsTrue result → BeginsWithAuthHeader bytes.now fields.new }
    ensures none { result ≡ false
        → (b : List ℕ) → IsAuthHeader b → IsPrefix b bytes.now → ⊥ }
    ensures same { result ≡ false → fields.new ≡ fields.old }
{
    put_some(auth_fields(bytes), fields)
}

/// Calls `OptionCursor::next_option`. Returns whether an option follows; if so, stores it in `option`, which is otherwise
/// unchanged.
#[unsafe(no_mangle)]
pub extern "C" fn wolfaren_next_option(
    cursor: &mut OptionCursor,
    bytes: &[u8],
    option: &mut OptionSpan,
) -> bool
    ensures option { IsTrue result → IsOptionSpan cursor.old cursor.new bytes.now option.new }
    ensures end { result ≡ false → (o : OptionFields)
        → StartsWithOption (header_rest cursor.old bytes.now) o → ⊥ }
    ensures same { result ≡ false → (cursor.new ≡ cursor.old) × (option.new ≡ option.old) }
{
    put_some(cursor.next_option(bytes), option)
}

/// Calls `routing_fields`. Returns whether the bytes start with a routing header; if so, stores its fields in `fields`,
/// which is otherwise unchanged.
#[unsafe(no_mangle)]
pub extern "C" fn wolfaren_routing_fields(bytes: &[u8], fields: &mut RoutingFields) -> bool
    ensures some { IsTrue result → StartsWithRoutingHeader bytes.now fields.new }
    ensures none { result ≡ false
        → (b : List ℕ) → IsRawHeader b → IsPrefix b bytes.now → ⊥ }
    ensures same { result ≡ false → fields.new ≡ fields.old }
{
    put_some(routing_fields(bytes), fields)
}

/// Calls `routing_address`. Returns whether there is an address with the index; if so, stores it in `address`, which is
/// otherwise unchanged.
#[unsafe(no_mangle)]
pub extern "C" fn wolfaren_routing_address(
    bytes: &[u8],
    index: usize,
    destination: &[u8; 16],
    address: &mut [u8; 16],
) -> bool
    ensures some { IsTrue result → IsRoutingAddress bytes.now index destination.now address.new }
    ensures none { result ≡ false → HasNoAddress bytes.now index }
    ensures same { result ≡ false → address.new ≡ address.old }
{
    put_some(routing_address(bytes, index, destination), address)
}
