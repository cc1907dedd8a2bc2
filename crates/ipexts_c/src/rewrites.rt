//! Packets with other extension headers.
ghost use Rattle.std.specs.Prelude.{◌≡◌, ◌++◌, ◌↔◌, length, drop, take, not, true, false, IsTrue, IsOkAnd, IfSome, IfNone, Some, None};
ghost use Rattle.std.specs.List.{list_any};
ghost use Rattle.std.specs.Result.{result_err};
ghost use Rattle.ip_spec.specs.Chain.{ExtHeader};
ghost use Rattle.ip_spec.specs.Encoding.{cleared_chain};
ghost use Rattle.ip_dissect.specs.Dissection.{dissected};
ghost use Rattle.ip_rewrite.specs.Rewritten.{rewritten as packet_with, rewritten_len, rewritten_parts};
ghost use Rattle.ip_rewrite.specs.Without.{without, parts_without, without_fault, has_segments, keeps_checksums};
ghost use Rattle.ip_rewrite.specs.Request.{concerns, request_fault, requested, requested_len, requested_parts};
ghost use Rattle.ip_rewrite.specs.Clearing.{clearing_fault, has_reserved};
ghost use Rattle.ip_rewrite.specs.Payload.{payload_fault};
ghost use Rattle.ip_rewrite.specs.Insertion.{inserted, insertion_fault};
ghost use Rattle.ip_rewrite.specs.Order.{in_order, is_in_order, ordering_fault, recommended_index};
ghost use Rattle.ip_rewrite.specs.declared.err.RewriteError.{RewriteError as Refusal};
ghost use Rattle.ip_rewrite.specs.declared.which.Which.TheVariants.{Index};
ghost use Rattle.ipexts_c.specs.Rewrites.{with_number, authentication, refusal_code, rewritten_fields, fields_without, refused_fields, fields_of_none, unwritten_fields, request_of};

use crate::bytes::Bytes;
use ip_base::IpNumber;
use ip_rewrite::{
    Authentication, HeaderSet, Request, RewriteError, Rewritten, Which, clear_reserved_bits,
    has_reserved_bits, in_order, is_in_order, recommended_index, remove_header, rewrite,
    with_header, with_payload,
};

/// A packet that was written, or why none was, as numbers.
#[repr(C)]
#[derive(Clone, Copy, Debug, PartialEq, Eq)]
pub struct RewrittenFields {
    /// Its length in bytes, or 0.
    pub len: usize,
    /// The code of why none was written, or 0.
    pub refusal: u8,
    /// 1 if a packet was written and transport checksums hold as before, otherwise 0.
    pub keeps_checksums: u8,
}

/// Changes of a packet's extension headers, each of them 0 for no.
#[repr(C)]
#[derive(Clone, Copy, Debug, PartialEq, Eq)]
pub struct RequestFields {
    /// Hop-by-hop options are left out.
    pub without_hop_by_hop: u8,
    /// Routing headers are left out.
    pub without_routing: u8,
    /// Fragment headers are left out.
    pub without_fragment: u8,
    /// Authentication headers are left out.
    pub without_authentication: u8,
    /// Destination options are left out.
    pub without_destination_options: u8,
    /// The reserved bits of the other headers are set to zero.
    pub clears: u8,
    /// The other headers are put in the recommended order.
    pub orders: u8,
    /// The check value of an authentication header that is kept may become wrong.
    pub may_be_invalid: u8,
}

impl RequestFields {
    /// Returns the request that is meant.
    #[inline(always)]
    fn request(&self) -> Request
        ensures { result ≡ request_of self.now }
    {
        let without = HeaderSet {
            hop_by_hop: self.without_hop_by_hop != 0,
            routing: self.without_routing != 0,
            fragment: self.without_fragment != 0,
            authentication: self.without_authentication != 0,
            destination_options: self.without_destination_options != 0,
        };
        Request {
            without: Which::Headers(without),
            clears: self.clears != 0,
            orders: self.orders != 0,
            authentication: authentication(self.may_be_invalid != 0),
        }
    }
}

/// Returns the code of why a packet isn't rewritten.
fn refusal_code(error: RewriteError) -> u8
    ensures { result ≡ refusal_code error }
{
    match error {
        RewriteError::Headers => 1,
        RewriteError::Missing => 2,
        RewriteError::LaterFragment => 3,
        RewriteError::NotAHeader => 4,
        RewriteError::NoHeader => 5,
        RewriteError::FragmentHeader => 6,
        RewriteError::Misplaced => 7,
        RewriteError::Fragmented => 8,
        RewriteError::Authenticated => 9,
        RewriteError::HeaderFollows => 10,
        RewriteError::NoLength => 11,
        RewriteError::TooLong => 12,
        RewriteError::NoRoom => 13,
        RewriteError::NotAJumbogram => 14,
    }
}

/// Returns why a packet isn't rewritten by the code of that, or `None` if no reason has the code.
pub(crate) fn refusal_with_code(code: u8) -> Option<RewriteError>
    ensures some { IfSome result (λ error. refusal_code error ≡ code) }
    ensures none { IfNone result ((error : Refusal) → refusal_code error ≡ code → ⊥) }
{
    match code {
        1 => Some(RewriteError::Headers),
        2 => Some(RewriteError::Missing),
        3 => Some(RewriteError::LaterFragment),
        4 => Some(RewriteError::NotAHeader),
        5 => Some(RewriteError::NoHeader),
        6 => Some(RewriteError::FragmentHeader),
        7 => Some(RewriteError::Misplaced),
        8 => Some(RewriteError::Fragmented),
        9 => Some(RewriteError::Authenticated),
        10 => Some(RewriteError::HeaderFollows),
        11 => Some(RewriteError::NoLength),
        12 => Some(RewriteError::TooLong),
        13 => Some(RewriteError::NoRoom),
        14 => Some(RewriteError::NotAJumbogram),
        _ => None,
    }
}

impl RewrittenFields {
    /// Returns the numbers of a packet that was written.
    #[inline(always)]
    fn of(rewritten: Rewritten) -> RewrittenFields
        ensures { result ≡ rewritten_fields rewritten.len rewritten.keeps_checksums }
    {
        RewrittenFields {
            len: rewritten.len,
            refusal: 0,
            keeps_checksums: u8::from(rewritten.keeps_checksums),
        }
    }

    /// Returns the numbers of why none was written.
    #[inline(always)]
    fn refused(error: RewriteError) -> RewrittenFields
        ensures { result ≡ refused_fields error }
    {
        RewrittenFields::unwritten(refusal_code(error))
    }

    /// Returns the numbers of a packet that the request doesn't change.
    #[inline(always)]
    fn unchanged() -> RewrittenFields
        ensures { result ≡ unwritten_fields None }
    {
        RewrittenFields::unwritten(0)
    }

    /// Returns the numbers if none was written, with the code of why.
    #[inline(always)]
    fn unwritten(refusal: u8) -> RewrittenFields
        ensures { result ≡ fields_of_none refusal }
    {
        RewrittenFields {
            len: 0,
            refusal,
            keeps_checksums: 0,
        }
    }
}

/// Returns what may become of an authentication header that is kept.
#[inline(always)]
fn authentication(may_be_invalid: bool) -> Authentication
    ensures { result ≡ authentication may_be_invalid }
{
    if may_be_invalid {
        Authentication::Invalid
    } else {
        Authentication::Valid
    }
}

/// Stores the length of a packet that was written, or why none was. Returns whether one was.
#[inline(always)]
fn stored(outcome: Result<Rewritten, RewriteError>, rewritten: &mut RewrittenFields) -> bool
    ensures written { IsTrue result
        → IsOkAnd outcome (λ r. rewritten.new ≡ rewritten_fields r.len r.keeps_checksums) }
    ensures refused { result ≡ false
        → (e : Refusal) × (rewritten.new ≡ refused_fields e) × (result_err outcome ≡ Some e) }
{
    match outcome {
        Ok(written) => {
            *rewritten = RewrittenFields::of(written);
            true
        }
        Err(error) => {
            *rewritten = RewrittenFields::refused(error);
            false
        }
    }
}

/// Calls `remove_header`, as `wolfaren_remove_headers` does. With one caller `remove_header` is inlined, and its result isn't moved.
fn write_without(
    bytes: &[u8],
    which: Which,
    may_be_invalid: bool,
    out: &mut [u8],
    rewritten: &mut RewrittenFields,
) -> bool
    ensures accepted { IsTrue result
        → without_fault which (authentication may_be_invalid) (dissected bytes.now) (length out.old) ≡ None }
    ensures fields { IsTrue result → rewritten.new ≡ fields_without which (dissected bytes.now) }
    ensures written { IsTrue result
        → out.new ≡ without which (dissected bytes.now) ++ drop rewritten.new.len out.old }
    ensures dissects { IsTrue result
        → dissected (take rewritten.new.len out.new) ≡ parts_without which (dissected bytes.now) }
    ensures refused { result ≡ false → (e : Refusal) × (rewritten.new ≡ refused_fields e)
        × (without_fault which (authentication may_be_invalid) (dissected bytes.now) (length out.old)
        ≡ Some e) }
    ensures same { result ≡ false → out.new ≡ out.old }
{
    let outcome = remove_header(bytes, which, authentication(may_be_invalid), out);
    stored(outcome, rewritten)
}

/// Calls `remove_header` for all headers with a number. Returns whether the packet was written, and stores its length or why it
/// wasn't written in `rewritten`.
#[unsafe(no_mangle)]
pub extern "C" fn wolfaren_remove_headers(
    bytes: Bytes<'_>,
    number: u8,
    may_be_invalid: bool,
    out: &mut [u8],
    rewritten: &mut RewrittenFields,
) -> bool
    ensures accepted { IsTrue result → without_fault (with_number number) (authentication may_be_invalid)
        (dissected bytes.entry.slice.now) (length out.old) ≡ None }
    ensures fields { IsTrue result
        → rewritten.new ≡ fields_without (with_number number) (dissected bytes.entry.slice.now) }
    ensures written { IsTrue result → out.new
        ≡ without (with_number number) (dissected bytes.entry.slice.now) ++ drop rewritten.new.len out.old }
    ensures dissects { IsTrue result → dissected (take rewritten.new.len out.new)
        ≡ parts_without (with_number number) (dissected bytes.entry.slice.now) }
    ensures refused { result ≡ false → (e : Refusal) × (rewritten.new ≡ refused_fields e)
        × (without_fault (with_number number) (authentication may_be_invalid)
        (dissected bytes.entry.slice.now) (length out.old) ≡ Some e) }
    ensures same { result ≡ false → out.new ≡ out.old }
{
    let which = Which::Number(IpNumber(number));
    write_without(bytes.slice(), which, may_be_invalid, out, rewritten)
}

/// Calls `remove_header` for the header with an index, as `wolfaren_remove_headers` does for those with a number.
#[unsafe(no_mangle)]
pub extern "C" fn wolfaren_remove_header(
    bytes: Bytes<'_>,
    index: usize,
    may_be_invalid: bool,
    out: &mut [u8],
    rewritten: &mut RewrittenFields,
) -> bool
    ensures accepted { IsTrue result → without_fault (Index index) (authentication may_be_invalid)
        (dissected bytes.entry.slice.now) (length out.old) ≡ None }
    ensures fields { IsTrue result
        → rewritten.new ≡ fields_without (Index index) (dissected bytes.entry.slice.now) }
    ensures written { IsTrue result → out.new
        ≡ without (Index index) (dissected bytes.entry.slice.now) ++ drop rewritten.new.len out.old }
    ensures dissects { IsTrue result → dissected (take rewritten.new.len out.new)
        ≡ parts_without (Index index) (dissected bytes.entry.slice.now) }
    ensures refused { result ≡ false → (e : Refusal) × (rewritten.new ≡ refused_fields e)
        × (without_fault (Index index) (authentication may_be_invalid)
        (dissected bytes.entry.slice.now) (length out.old) ≡ Some e) }
    ensures same { result ≡ false → out.new ≡ out.old }
{
    let which = Which::Index(index);
    write_without(bytes.slice(), which, may_be_invalid, out, rewritten)
}

/// Calls `with_header`, as `wolfaren_remove_headers` calls `remove_header`.
#[unsafe(no_mangle)]
pub extern "C" fn wolfaren_with_header(
    bytes: Bytes<'_>,
    number: u8,
    header: Bytes<'_>,
    index: usize,
    may_be_invalid: bool,
    out: &mut [u8],
    rewritten: &mut RewrittenFields,
) -> bool
    ensures accepted { IsTrue result
        → let h : ExtHeader = record { number = number; bytes = header.entry.slice.now } in
        insertion_fault (authentication may_be_invalid) index h
        (dissected bytes.entry.slice.now) (length out.old) ≡ None }
    ensures fields { IsTrue result
        → let h : ExtHeader = record { number = number; bytes = header.entry.slice.now } in
        let p = dissected bytes.entry.slice.now in rewritten.new
        ≡ rewritten_fields (rewritten_len p (inserted index h p.headers) p.payload) (not (has_segments h)) }
    ensures written { IsTrue result
        → let h : ExtHeader = record { number = number; bytes = header.entry.slice.now } in
        let p = dissected bytes.entry.slice.now in out.new
        ≡ packet_with p (inserted index h p.headers) p.number p.payload ++ drop rewritten.new.len out.old }
    ensures dissects { IsTrue result
        → let h : ExtHeader = record { number = number; bytes = header.entry.slice.now } in
        let p = dissected bytes.entry.slice.now in dissected (take rewritten.new.len out.new)
        ≡ rewritten_parts p (inserted index h p.headers) p.number p.payload }
    ensures refused { result ≡ false → (e : Refusal) × (rewritten.new ≡ refused_fields e)
        × (let h : ExtHeader = record { number = number; bytes = header.entry.slice.now } in
        insertion_fault (authentication may_be_invalid) index h
        (dissected bytes.entry.slice.now) (length out.old) ≡ Some e) }
    ensures same { result ≡ false → out.new ≡ out.old }
{
    let authentication = authentication(may_be_invalid);
    let (number, header) = (IpNumber(number), header.slice());
    let outcome = with_header(bytes.slice(), number, header, index, authentication, out);
    stored(outcome, rewritten)
}

/// Calls `recommended_index`.
#[unsafe(no_mangle)]
pub extern "C" fn wolfaren_recommended_index(bytes: Bytes<'_>, number: u8) -> usize
    ensures { result ≡ recommended_index number (dissected bytes.entry.slice.now).headers }
{
    recommended_index(bytes.slice(), IpNumber(number))
}

/// Calls `with_payload`, as `wolfaren_remove_headers` calls `remove_header`.
#[unsafe(no_mangle)]
pub extern "C" fn wolfaren_with_payload(
    bytes: Bytes<'_>,
    number: u8,
    payload: Bytes<'_>,
    may_be_invalid: bool,
    out: &mut [u8],
    rewritten: &mut RewrittenFields,
) -> bool
    ensures accepted { IsTrue result
        → payload_fault (authentication may_be_invalid) number payload.entry.slice.now
        (dissected bytes.entry.slice.now) (length out.old) ≡ None }
    ensures fields { IsTrue result → let p = dissected bytes.entry.slice.now in rewritten.new
        ≡ rewritten_fields (rewritten_len p p.headers payload.entry.slice.now) false }
    ensures written { IsTrue result → let p = dissected bytes.entry.slice.now in out.new
        ≡ packet_with p p.headers number payload.entry.slice.now ++ drop rewritten.new.len out.old }
    ensures dissects { IsTrue result → let p = dissected bytes.entry.slice.now in
        dissected (take rewritten.new.len out.new)
        ≡ rewritten_parts p p.headers number payload.entry.slice.now }
    ensures refused { result ≡ false → (e : Refusal) × (rewritten.new ≡ refused_fields e)
        × (payload_fault (authentication may_be_invalid) number payload.entry.slice.now
        (dissected bytes.entry.slice.now) (length out.old) ≡ Some e) }
    ensures same { result ≡ false → out.new ≡ out.old }
{
    let authentication = authentication(may_be_invalid);
    let (number, payload) = (IpNumber(number), payload.slice());
    let outcome = with_payload(bytes.slice(), number, payload, authentication, out);
    stored(outcome, rewritten)
}

/// Calls `has_reserved_bits`.
#[unsafe(no_mangle)]
pub extern "C" fn wolfaren_has_reserved_bits(bytes: Bytes<'_>) -> bool
    ensures found { result ≡ list_any has_reserved (dissected bytes.entry.slice.now).headers }
    ensures unchanged { let c = (dissected bytes.entry.slice.now).headers in
        result ≡ false ↔ (cleared_chain c ≡ c) }
{
    has_reserved_bits(bytes.slice())
}

/// Calls `clear_reserved_bits`, as `wolfaren_remove_headers` calls `remove_header`.
#[unsafe(no_mangle)]
pub extern "C" fn wolfaren_clear_reserved_bits(
    bytes: Bytes<'_>,
    may_be_invalid: bool,
    out: &mut [u8],
    rewritten: &mut RewrittenFields,
) -> bool
    ensures accepted { IsTrue result → clearing_fault (authentication may_be_invalid)
        (dissected bytes.entry.slice.now) (length out.old) ≡ None }
    ensures fields { IsTrue result → let p = dissected bytes.entry.slice.now in rewritten.new
        ≡ rewritten_fields (rewritten_len p (cleared_chain p.headers) p.payload) true }
    ensures written { IsTrue result → let p = dissected bytes.entry.slice.now in out.new
        ≡ packet_with p (cleared_chain p.headers) p.number p.payload ++ drop rewritten.new.len out.old }
    ensures dissects { IsTrue result → let p = dissected bytes.entry.slice.now in
        dissected (take rewritten.new.len out.new)
        ≡ rewritten_parts p (cleared_chain p.headers) p.number p.payload }
    ensures refused { result ≡ false → (e : Refusal) × (rewritten.new ≡ refused_fields e)
        × (clearing_fault (authentication may_be_invalid)
        (dissected bytes.entry.slice.now) (length out.old) ≡ Some e) }
    ensures same { result ≡ false → out.new ≡ out.old }
{
    let outcome = clear_reserved_bits(bytes.slice(), authentication(may_be_invalid), out);
    stored(outcome, rewritten)
}

/// Calls `is_in_order`.
#[unsafe(no_mangle)]
pub extern "C" fn wolfaren_is_in_order(bytes: Bytes<'_>) -> bool
    ensures ranks { result ≡ is_in_order (dissected bytes.entry.slice.now).headers }
    ensures unchanged { let c = (dissected bytes.entry.slice.now).headers in
        IsTrue result ↔ (in_order c ≡ c) }
{
    is_in_order(bytes.slice())
}

/// Calls `in_order`, as `wolfaren_remove_headers` calls `remove_header`.
#[unsafe(no_mangle)]
pub extern "C" fn wolfaren_in_order(
    bytes: Bytes<'_>,
    may_be_invalid: bool,
    out: &mut [u8],
    rewritten: &mut RewrittenFields,
) -> bool
    ensures accepted { IsTrue result → ordering_fault (authentication may_be_invalid)
        (dissected bytes.entry.slice.now) (length out.old) ≡ None }
    ensures fields { IsTrue result → let p = dissected bytes.entry.slice.now in rewritten.new
        ≡ rewritten_fields (rewritten_len p (in_order p.headers) p.payload) true }
    ensures written { IsTrue result → let p = dissected bytes.entry.slice.now in out.new
        ≡ packet_with p (in_order p.headers) p.number p.payload ++ drop rewritten.new.len out.old }
    ensures dissects { IsTrue result → let p = dissected bytes.entry.slice.now in
        dissected (take rewritten.new.len out.new)
        ≡ rewritten_parts p (in_order p.headers) p.number p.payload }
    ensures refused { result ≡ false → (e : Refusal) × (rewritten.new ≡ refused_fields e)
        × (ordering_fault (authentication may_be_invalid)
        (dissected bytes.entry.slice.now) (length out.old) ≡ Some e) }
    ensures same { result ≡ false → out.new ≡ out.old }
{
    let outcome = in_order(bytes.slice(), authentication(may_be_invalid), out);
    stored(outcome, rewritten)
}

/// Calls `rewrite`, as `wolfaren_remove_headers` calls `remove_header`. If the request changes no header, the refusal is 0.
#[unsafe(no_mangle)]
pub extern "C" fn wolfaren_rewrite(
    bytes: Bytes<'_>,
    request: &RequestFields,
    out: &mut [u8],
    rewritten: &mut RewrittenFields,
) -> bool
    ensures accepted { IsTrue result → request_fault (request_of request.now)
        (dissected bytes.entry.slice.now) (length out.old) ≡ None }
    ensures changes { IsTrue result
        → concerns (request_of request.now) (dissected bytes.entry.slice.now).headers ≡ true }
    ensures fields { IsTrue result
        → let r = request_of request.now in let p = dissected bytes.entry.slice.now in rewritten.new
        ≡ rewritten_fields (requested_len r p) (keeps_checksums r.without p) }
    ensures written { IsTrue result
        → let r = request_of request.now in let p = dissected bytes.entry.slice.now in out.new
        ≡ requested r p ++ drop rewritten.new.len out.old }
    ensures dissects { IsTrue result
        → let r = request_of request.now in let p = dissected bytes.entry.slice.now in
        dissected (take rewritten.new.len out.new) ≡ requested_parts r p }
    ensures refused { result ≡ false → rewritten.new ≡ unwritten_fields (request_fault
        (request_of request.now) (dissected bytes.entry.slice.now) (length out.old)) }
    ensures unchanged { result ≡ false
        → let r = request_of request.now in let p = dissected bytes.entry.slice.now in
        request_fault r p (length out.old) ≡ None → concerns r p.headers ≡ false }
    ensures same { result ≡ false → out.new ≡ out.old }
{
    match rewrite(bytes.slice(), request.request(), out) {
        Ok(Some(packet)) => {
            *rewritten = RewrittenFields::of(packet);
            true
        }
        Ok(None) => {
            *rewritten = RewrittenFields::unchanged();
            false
        }
        Err(error) => {
            *rewritten = RewrittenFields::refused(error);
            false
        }
    }
}
