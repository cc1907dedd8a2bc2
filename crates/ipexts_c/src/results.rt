//! What was found, stored for the caller.
ghost use Rattle.std.specs.Prelude.{◌≡◌, false, IsTrue, Some, None, Ok, Err};

use ip_spans::{FaultFields, Fields};

/// Stores what was found in `fields`, or the error in `fault`, and nothing in the other. Returns whether it was found.
#[inline(always)]
pub(crate) fn put_result<T: Fields>(
    found: Result<T, FaultFields>,
    fields: &mut T,
    fault: &mut FaultFields,
) -> bool
    ensures found { IsTrue result → (found ≡ Ok fields.new) × (fault.new ≡ fault.old) }
    ensures fault { result ≡ false → (found ≡ Err fault.new) × (fields.new ≡ fields.old) }
{
    match found {
        Ok(found) => {
            fields.put(found);
            true
        }
        Err(found) => {
            fault.put(found);
            false
        }
    }
}

/// Stores what was found, if it was. Returns whether it was found.
#[inline(always)]
pub(crate) fn put_some<T: Copy>(found: Option<T>, place: &mut T) -> bool
    ensures found { IsTrue result → found ≡ Some place.new }
    ensures none { result ≡ false → (found ≡ None) × (place.new ≡ place.old) }
{
    match found {
        Some(found) => {
            *place = found;
            true
        }
        None => false,
    }
}
