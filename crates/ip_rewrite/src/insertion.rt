//! Packets with one more extension header.
ghost use Rattle.std.specs.Prelude.{◌≡◌, ◌≤◌, ◌<◌, ◌+◌, ◌^◌, ◌++◌, ◌==◌, ◌||◌, ◌&&◌, not, ℕ, List, [], ◌∷◌, length, drop, take, true, None, if◌then◌else◌, IfOk, OnOk, OnErr};
ghost use Rattle.std.specs.List.{list_any};
ghost use Rattle.std.specs.Result.{result_err};
ghost use Rattle.std.proofs.Common.{rules};
ghost use Rattle.ip_spec.specs.Header.{IsHeader};
ghost use Rattle.ip_spec.specs.Chain.{ExtHeader, bytes_of};
ghost use Rattle.ip_dissect.specs.Dissection.{DissectedParts, dissected};
ghost use Rattle.ip_dissect.specs.Fragment.{fragments};
ghost use Rattle.ip_dissect.specs.Summary.{summary_of};
ghost use Rattle.ip_rewrite.specs.Rewritten.{rewritten, rewritten_len, rewritten_field, rewritten_parts};
ghost use Rattle.ip_rewrite.specs.Without.{is_authentication, has_segments, packet_fault};
ghost use Rattle.ip_rewrite.specs.Headers.{is_options};
ghost use Rattle.ip_rewrite.specs.Jumbogram.{jumbo_offset};
ghost use Rattle.ip_rewrite.specs.Insertion.{inserted, is_header, is_misplaced, header_fault, insertion_fault};
ghost use Rattle.ip_rewrite.specs.Writing.{AreWritten, HasOption, inserted_so_far};

use crate::buffer::{append, put_at};
use crate::header::{fragments, has_segments};
use crate::jumbogram::test_jumbogram;
use crate::payload::is_extension_number;
use crate::removal::{authentication_follows, test_packet};
use crate::write::{base_of, finish, number_offset, test_room};
use crate::{Authentication, RewriteError, Rewritten};
use ip_base::{IpNumber, ip_number};
use ip_dissect::{HeaderVisitor, Packet, Summary};

/// What was seen of the headers around a place in the chain.
#[derive(Clone, Copy, Debug)]
struct Around {
    /// The index of the place.
    index: usize,
    /// A header before it fragments what follows.
    is_fragmented: bool,
    /// There is an authentication header.
    has_authentication: bool,
    /// The first header has hop-by-hop options.
    starts_with_options: bool,
}

impl HeaderVisitor for Around {
    ghost visited = { λ old k c new. (new.index ≡ old.index)
        × (new.is_fragmented ≡ (old.is_fragmented || list_any fragments (take old.index c)))
        × (new.has_authentication ≡ (old.has_authentication || list_any is_authentication c))
        × (new.starts_with_options ≡ (old.starts_with_options || list_any is_options (take 1 c))) };

    ghost none = { λ v k. Prim.search rules };

    #[inline(always)]
    fn visit(&mut self, number: IpNumber, header: &[u8], index: usize, _offset: usize) {
        let fragments = fragments(number, header);
        self.is_fragmented |= (index < self.index) & fragments;
        self.has_authentication |= number == ip_number::AUTH;
        self.starts_with_options |= (index < 1) & (number == ip_number::IPV6_HOP_BY_HOP);
    }
}

/// Returns whether bytes are exactly one header of this number (RFC 8200, section 4; RFC 4302, section 2.2).
#[inline(always)]
fn is_header(number: IpNumber, bytes: &[u8]) -> bool
    ensures { result ≡ is_header number.0 bytes.now }
{
    if bytes.len() < 8 {
        return false;
    }
    let units = usize::from(bytes[1]);
    if number == ip_number::IPV6_FRAG {
        return bytes.len() == 8;
    }
    if number == ip_number::AUTH {
        return units != 0 && bytes.len() == 4 * (units + 2);
    }
    is_extension_number(number) && bytes.len() == 8 * (units + 1)
}

/// The headers of a packet with one more, written to the front of a buffer.
#[derive(Debug, Drop)]
struct Inserter<'a, 'o> {
    /// The index of the new header.
    index: usize,
    /// Its number.
    number: IpNumber,
    /// Its bytes.
    header: &'a [u8],
    /// The buffer.
    out: &'o mut [u8],
    /// How many bytes are written.
    len: usize,
    /// The offset of the number of what follows them.
    link: usize,
    ghost header_is: { is_header number.0 header.now ≡ true },
}

impl Inserter<'_, '_> {
    /// Writes one more header, whose length is added to that of the bytes before it.
    #[inline(always)]
    fn push(&mut self, number: IpNumber, header: &[u8])
        requires { IsHeader number.0 header.now }
        ensures same { self.new.out.ghost_name ≡ self.old.out.ghost_name }
        ensures index { self.new.index ≡ self.old.index }
        ensures number { self.new.number ≡ self.old.number }
        ensures header { self.new.header.now ≡ self.old.header.now }
        ensures written { (l : ℕ) (b buffer : List ℕ) (c : List ExtHeader) (h : ExtHeader) → h ≡ record { number = number.0; bytes = header.now }
            → AreWritten l b buffer c self.old.out.now self.old.len self.old.link
            → length b + length (bytes_of (c ++ h ∷ [])) ≤ length buffer → length buffer < 2 ^ 64
            → AreWritten l b buffer (c ++ h ∷ []) self.new.out.now self.new.len self.new.link }
    {
        append(self.out, self.len, self.link, number, header);
        self.link = self.len;
        self.len = self.len.saturating_add(header.len());
    }
}

impl HeaderVisitor for Inserter<'_, '_> {
    ghost visited = { λ old k c new. (new.out.ghost_name ≡ old.out.ghost_name)
        × (new.index ≡ old.index)
        × (new.number ≡ old.number)
        × (new.header.now ≡ old.header.now)
        × ((l : ℕ) (b buffer : List ℕ) (h : ExtHeader) → h ≡ record { number = old.number.0; bytes = old.header.now }
        → AreWritten l b buffer [] old.out.now old.len old.link
        → length b + length (bytes_of (inserted_so_far old.index h c)) ≤ length buffer → length buffer < 2 ^ 64
        → AreWritten l b buffer (inserted_so_far old.index h c) new.out.now new.len new.link) };

    ghost none = { Prim.search rules };

    #[inline(always)]
    fn visit(&mut self, number: IpNumber, header: &[u8], index: usize, _offset: usize) {
        if index == self.index {
            self.push(self.number, self.header);
            self.push(number, header);
        } else {
            self.push(number, header);
        }
    }
}

/// Returns whether the header can't be at its place.
#[inline(always)]
fn is_misplaced(summary: &Summary, around: &Around, number: IpNumber) -> bool
    ensures { (p : DissectedParts) (h : ExtHeader) → summary.now ≡ summary_of p → h.number ≡ number.0
        → around.now.starts_with_options ≡ list_any is_options (take 1 p.headers)
        → result ≡ is_misplaced around.now.index h p }
{
    if summary.header_count < around.index {
        return true;
    }
    if summary.version == 4 && summary.header_count != 0 {
        return true;
    }
    if around.index == 0 {
        around.starts_with_options
    } else {
        number == ip_number::IPV6_HOP_BY_HOP
    }
}

/// Returns why the header can't be inserted.
#[inline(always)]
fn test_header(
    summary: &Summary,
    around: &Around,
    number: IpNumber,
    header: &[u8],
    authentication: Authentication,
) -> Result<(), RewriteError>
    ensures fault { (p : DissectedParts) (h : ExtHeader) → summary.now ≡ summary_of p
        → h ≡ record { number = number.0; bytes = header.now }
        → around.now.starts_with_options ≡ list_any is_options (take 1 p.headers)
        → around.now.is_fragmented ≡ list_any fragments (take around.now.index p.headers)
        → around.now.has_authentication ≡ list_any is_authentication p.headers
        → result_err result ≡ header_fault authentication around.now.index h p }
    ensures header { OnOk result (is_header number.0 header.now ≡ true) }
{
    let is_ipv4 = summary.version == 4;
    if !is_header(number, header) || is_ipv4 && number != ip_number::AUTH {
        return Err(RewriteError::NotAHeader);
    }
    if fragments(number, header) {
        return Err(RewriteError::FragmentHeader);
    }
    if is_misplaced(summary, around, number) {
        return Err(RewriteError::Misplaced);
    }
    if is_ipv4 & summary.fragment.is_some() | around.is_fragmented {
        return Err(RewriteError::Fragmented);
    }
    let has_authentication = around.has_authentication | authentication_follows(summary);
    if has_authentication && authentication == Authentication::Valid {
        return Err(RewriteError::Authenticated);
    }
    Ok(())
}

/// Returns the number for the length field, or why the packet can't be written with one more header.
#[inline(always)]
fn test(
    packet: &Packet<'_>,
    around: &Around,
    number: IpNumber,
    header: &[u8],
    authentication: Authentication,
    room: usize,
) -> Result<u16, RewriteError>
    requires options { around.now.starts_with_options
        ≡ list_any is_options (take 1 (dissected packet.now.bytes.now).headers) }
    requires fragmented { around.now.is_fragmented
        ≡ list_any fragments (take around.now.index (dissected packet.now.bytes.now).headers) }
    requires authentication { around.now.has_authentication
        ≡ list_any is_authentication (dissected packet.now.bytes.now).headers }
    requires small { length packet.now.bytes.now < 2 ^ 63 }
    requires new { length header.now < 2 ^ 63 }
    ensures fault { (h : ExtHeader) → h ≡ record { number = number.0; bytes = header.now }
        → result_err result ≡ insertion_fault authentication around.now.index h (dissected packet.now.bytes.now) room }
    ensures field { IfOk result (λ n. (h : ExtHeader) → h ≡ record { number = number.0; bytes = header.now }
        → n ≡ rewritten_field (dissected packet.now.bytes.now)
        (inserted around.now.index h (dissected packet.now.bytes.now).headers) (dissected packet.now.bytes.now).payload) }
    ensures fits { OnOk result (length (dissected packet.now.bytes.now).base
        + (length (bytes_of (dissected packet.now.bytes.now).headers) + length header.now)
        + length (dissected packet.now.bytes.now).payload ≤ room) }
    ensures base { OnOk result ((if (dissected packet.now.bytes.now).version == 4 then 20 else 40)
        ≤ length (dissected packet.now.bytes.now).base) }
    ensures header { OnOk result (is_header number.0 header.now ≡ true) }
{
    let summary = &packet.summary;
    test_packet(summary)?;
    test_header(summary, around, number, header, authentication)?;
    test_jumbogram(packet, number == ip_number::IPV6_FRAG)?;
    let exts_len = summary.extensions_len + header.len();
    test_room(packet, exts_len, summary.payload_len, room)
}

/// How far the headers are written.
#[derive(Clone, Copy, Debug)]
pub(crate) struct Written {
    /// How many bytes are written.
    pub(crate) len: usize,
    /// The offset of the number of what follows them.
    pub(crate) link: usize,
}

/// Writes the base header and the headers with one more, if it comes before one of them.
#[inline(always)]
fn write_so_far(
    packet: &Packet<'_>,
    index: usize,
    number: IpNumber,
    header: &[u8],
    offset: usize,
    out: &mut [u8],
) -> Written
    requires header { is_header number.0 header.now ≡ true }
    requires small { length out.old < 2 ^ 64 }
    requires link { offset < length (dissected packet.now.bytes.now).base }
    requires fits { length (dissected packet.now.bytes.now).base
        + (length (bytes_of (dissected packet.now.bytes.now).headers) + length header.now) ≤ length out.old }
    ensures { (h : ExtHeader) → h ≡ record { number = number.0; bytes = header.now }
        → AreWritten offset (dissected packet.now.bytes.now).base out.old
        (inserted_so_far index h (dissected packet.now.bytes.now).headers) out.new result.len result.link }
{
    let base = base_of(packet);
    put_at(out, 0, base);
    let mut inserter = Inserter {
        index,
        number,
        header,
        out,
        len: base.len(),
        link: offset,
    };
    Packet::walk(packet.bytes, &mut inserter);
    Written {
        len: inserter.len,
        link: inserter.link,
    }
}

/// Writes the base header and the headers with one more. Returns the offset of the number of what follows them.
#[inline(always)]
fn write_headers(
    packet: &Packet<'_>,
    index: usize,
    number: IpNumber,
    header: &[u8],
    offset: usize,
    out: &mut [u8],
) -> usize
    requires header { is_header number.0 header.now ≡ true }
    requires index { index ≤ length (dissected packet.now.bytes.now).headers }
    requires small { length out.old < 2 ^ 64 }
    requires link { offset < length (dissected packet.now.bytes.now).base }
    requires fits { length (dissected packet.now.bytes.now).base
        + (length (bytes_of (dissected packet.now.bytes.now).headers) + length header.now) ≤ length out.old }
    ensures { (h : ExtHeader) → h ≡ record { number = number.0; bytes = header.now }
        → AreWritten offset (dissected packet.now.bytes.now).base out.old
        (inserted index h (dissected packet.now.bytes.now).headers) out.new
        (length (dissected packet.now.bytes.now).base
        + length (bytes_of (inserted index h (dissected packet.now.bytes.now).headers))) result }
{
    let written = write_so_far(packet, index, number, header, offset, out);
    let count = packet.summary.header_count;
    if index == count {
        append(out, written.len, written.link, number, header);
        return written.len;
    }
    written.link
}

/// Writes the packet with one more header.
#[tactic(auto, using(crate::proofs::InsertionLemmas::inserted_len))]
#[inline(always)]
fn write_inserted(
    packet: &Packet<'_>,
    index: usize,
    number: IpNumber,
    header: &[u8],
    field: u16,
    out: &mut [u8],
)
    requires header { is_header number.0 header.now ≡ true }
    requires index { index ≤ length (dissected packet.now.bytes.now).headers }
    requires small { length out.old < 2 ^ 64 }
    requires base { (if (dissected packet.now.bytes.now).version == 4 then 20 else 40)
        ≤ length (dissected packet.now.bytes.now).base }
    requires field { (h : ExtHeader) → h ≡ record { number = number.0; bytes = header.now }
        → field ≡ rewritten_field (dissected packet.now.bytes.now)
        (inserted index h (dissected packet.now.bytes.now).headers) (dissected packet.now.bytes.now).payload }
    requires option { (h : ExtHeader) → h ≡ record { number = number.0; bytes = header.now }
        → HasOption (jumbo_offset (dissected packet.now.bytes.now))
        (inserted index h (dissected packet.now.bytes.now).headers) }
    requires fits { length (dissected packet.now.bytes.now).base
        + (length (bytes_of (dissected packet.now.bytes.now).headers) + length header.now)
        + length (dissected packet.now.bytes.now).payload ≤ length out.old }
    ensures { (h : ExtHeader) → h ≡ record { number = number.0; bytes = header.now }
        → out.new ≡ rewritten (dissected packet.now.bytes.now)
        (inserted index h (dissected packet.now.bytes.now).headers) (dissected packet.now.bytes.now).number
        (dissected packet.now.bytes.now).payload
        ++ drop (rewritten_len (dissected packet.now.bytes.now)
        (inserted index h (dissected packet.now.bytes.now).headers) (dissected packet.now.bytes.now).payload) out.old }
{
    let summary = &packet.summary;
    let offset = number_offset(summary.version);
    let link = write_headers(packet, index, number, header, offset, out);
    let payload = packet.payload();
    let exts_len = summary.extensions_len + header.len();
    finish(
        packet,
        exts_len,
        link,
        summary.next_header,
        payload,
        field,
        out,
    );
}

/// Writes a packet to the front of `out` with one more extension header, before the one with this index, or after all
/// `index` of them. The bytes are the header's, whose next header is set.
#[tactic(auto, using(crate::proofs::InsertionLemmas::inserted_len))]
pub fn with_header(
    packet: &[u8],
    number: IpNumber,
    header: &[u8],
    index: usize,
    authentication: Authentication,
    out: &mut [u8],
) -> Result<Rewritten, RewriteError>
    ensures fault { let h : ExtHeader = record { number = number.0; bytes = header.now } in
        result_err result ≡ insertion_fault authentication index h (dissected packet.now) (length out.old) }
    ensures len { let h : ExtHeader = record { number = number.0; bytes = header.now } in
        let p = dissected packet.now in
        IfOk result (λ r. r.len ≡ rewritten_len p (inserted index h p.headers) p.payload) }
    ensures checksums { let h : ExtHeader = record { number = number.0; bytes = header.now } in
        IfOk result (λ r. r.keeps_checksums ≡ not (has_segments h)) }
    ensures written { let h : ExtHeader = record { number = number.0; bytes = header.now } in
        let p = dissected packet.now in IfOk result (λ r. out.new
        ≡ rewritten p (inserted index h p.headers) p.number p.payload ++ drop r.len out.old) }
    ensures dissects { let h : ExtHeader = record { number = number.0; bytes = header.now } in
        let p = dissected packet.now in IfOk result (λ r. dissected (take r.len out.new)
        ≡ rewritten_parts p (inserted index h p.headers) p.number p.payload) }
    ensures stays { OnErr result (out.new ≡ out.old) }
{
    let mut around = Around {
        index,
        is_fragmented: false,
        has_authentication: false,
        starts_with_options: false,
    };
    let packet = Packet::walk(packet, &mut around);
    match test(&packet, &around, number, header, authentication, out.len()) {
        Ok(field) => {
            let summary = &packet.summary;
            let exts_len = summary.extensions_len + header.len();
            let len = summary.base_len + exts_len + summary.payload_len;
            let keeps_checksums = !has_segments(number, header);
            write_inserted(&packet, index, number, header, field, out);
            Ok(Rewritten {
                len,
                keeps_checksums,
            })
        }
        Err(error) => Err(error),
    }
}
