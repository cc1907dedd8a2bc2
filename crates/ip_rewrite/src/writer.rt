//! Writes the headers of a packet that are kept: cleared if that is asked for, in their order or in the recommended one.
ghost use Rattle.std.specs.Prelude.{◌≡◌, ◌≤◌, ◌<◌, ◌+◌, ◌^◌, ◌++◌, ◌∷◌, [], ℕ, List, length, true, false};
ghost use Rattle.std.proofs.Common.{refl, subst, sym, append-nil};
ghost use Rattle.ip_spec.specs.Header.{IsHeader};
ghost use Rattle.ip_spec.specs.Chain.{ExtHeader, bytes_of};
ghost use Rattle.ip_dissect.specs.Dissection.{dissected};
ghost use Rattle.ip_rewrite.specs.Order.{in_order};
ghost use Rattle.ip_rewrite.specs.Selection.{kept};
ghost use Rattle.ip_rewrite.specs.Request.{cleared_if, changed_headers};
ghost use Rattle.ip_rewrite.specs.Planning.{is_chosen, chosen, none_chosen};
ghost use Rattle.ip_rewrite.specs.Writing.{AreWritten, routing_index};

use crate::buffer::{append, put_at};
use crate::clearing::clear_at;
use crate::insertion::Written;
use crate::order::{RANKS, rank};
use crate::write::base_of;
use crate::{Request, Which};
use ip_base::IpNumber;
use ip_dissect::{HeaderVisitor, Packet};

/// Which headers are written, and how.
#[derive(Clone, Copy, Debug)]
pub(crate) struct Choice {
    /// Only those of a rank are written, otherwise all.
    orders: bool,
    /// The rank.
    rank: u8,
    /// The index of the last routing header, or 0 without one.
    last_routing: usize,
    /// Their reserved bits are cleared.
    clears: bool,
}

impl Choice {
    /// Returns whether the header with this number and index is written.
    #[inline(always)]
    fn has(self, number: IpNumber, index: usize) -> bool
        ensures { (h : ExtHeader) → h.number ≡ number.0 → result ≡ is_chosen self index h }
    {
        !self.orders || rank(number, index, self.last_routing) == self.rank
    }
}

/// Writes one more header after `len` bytes, as `append` does, with its reserved bits cleared if `clears` is true.
#[inline(always)]
fn append_as(out: &mut [u8], len: usize, link: usize, number: IpNumber, header: &[u8], clears: bool)
    requires { IsHeader number.0 header.now }
    ensures { (l : ℕ) (b buffer : List ℕ) (c : List ExtHeader) (h : ExtHeader) → h ≡ record { number = number.0; bytes = header.now }
        → AreWritten l b buffer c out.old len link
        → length b + length (bytes_of (c ++ h ∷ [])) ≤ length buffer → length buffer < 2 ^ 64
        → AreWritten l b buffer (c ++ cleared_if clears (h ∷ [])) out.new (len + length header.now) len }
{
    append(out, len, link, number, header);
    if clears {
        clear_at(number, len, out);
    }
}

/// Headers that are written to a buffer after others.
#[derive(Debug, Drop)]
struct Writer<'o> {
    /// The buffer.
    out: &'o mut [u8],
    /// The headers that are left out.
    which: Which,
    /// Which of the others are written.
    choice: Choice,
    /// How many of the headers are not left out.
    count: usize,
    /// How many bytes are written.
    len: usize,
    /// The offset of the number of what follows them.
    link: usize,
}

impl Writer<'_> {
    /// Writes one more header, which `index` headers that are kept precede, if it is chosen.
    #[inline(always)]
    fn push(&mut self, number: IpNumber, header: &[u8], index: usize)
        requires { IsHeader number.0 header.now }
        ensures same { self.new.out.ghost_name ≡ self.old.out.ghost_name }
        ensures which { self.new.which ≡ self.old.which }
        ensures choice { self.new.choice ≡ self.old.choice }
        ensures count { self.new.count ≡ self.old.count }
        ensures written { (l : ℕ) (b buffer : List ℕ) (d c : List ExtHeader) (h : ExtHeader) → h ≡ record { number = number.0; bytes = header.now }
            → index ≡ length c
            → AreWritten l b buffer (d ++ chosen self.old.choice c) self.old.out.now self.old.len self.old.link
            → length b + length (bytes_of (d ++ chosen self.old.choice (c ++ h ∷ []))) ≤ length buffer → length buffer < 2 ^ 64
            → AreWritten l b buffer (d ++ chosen self.old.choice (c ++ h ∷ [])) self.new.out.now self.new.len self.new.link }
    {
        if self.choice.has(number, index) {
            let clears = self.choice.clears;
            append_as(self.out, self.len, self.link, number, header, clears);
            self.link = self.len;
            self.len = self.len.saturating_add(header.len());
        }
    }
}

impl HeaderVisitor for Writer<'_> {
    ghost visited = { λ old k c new. (new.out.ghost_name ≡ old.out.ghost_name)
        × (new.which ≡ old.which)
        × (new.choice ≡ old.choice)
        × (old.count ≡ 0 → length c < 2 ^ 64 → new.count ≡ length (kept old.which c))
        × ((l : ℕ) (b buffer : List ℕ) (d : List ExtHeader) → old.count ≡ 0 → AreWritten l b buffer d old.out.now old.len old.link
        → length b + length (bytes_of (d ++ chosen old.choice (kept old.which c))) ≤ length buffer → length buffer < 2 ^ 64
        → AreWritten l b buffer (d ++ chosen old.choice (kept old.which c)) new.out.now new.len new.link) };

    ghost none = { λ v k. (
      refl,
      refl,
      refl,
      λ first few. first,
      λ l b buffer d first w fits small.
          subst (λ x. AreWritten l b buffer (d ++ x) v.out.now v.len v.link) (sym (none_chosen v.choice))
          (subst (λ x. AreWritten l b buffer x v.out.now v.len v.link) (sym (append-nil d)) w),
    ) };

    #[inline(always)]
    fn visit(&mut self, number: IpNumber, header: &[u8], index: usize, _offset: usize) {
        if !self.which.selects(number, index) {
            let count = self.count;
            self.push(number, header, count);
            self.count = count.saturating_add(1);
        }
    }
}

/// Writes those of the headers that are kept that are chosen, after what is written.
#[inline(always)]
fn write_chosen(
    packet: &Packet<'_>,
    which: Which,
    choice: Choice,
    written: Written,
    out: &mut [u8],
) -> Written
    ensures { (l : ℕ) (b buffer : List ℕ) (c : List ExtHeader) → AreWritten l b buffer c out.old written.len written.link
        → length b + length (bytes_of (c ++ chosen choice (kept which (dissected packet.now.bytes.now).headers))) ≤ length buffer
        → length buffer < 2 ^ 64
        → AreWritten l b buffer (c ++ chosen choice (kept which (dissected packet.now.bytes.now).headers)) out.new result.len result.link }
{
    let mut writer = Writer {
        out,
        which,
        choice,
        count: 0,
        len: written.len,
        link: written.link,
    };
    Packet::walk(packet.bytes, &mut writer);
    Written {
        len: writer.len,
        link: writer.link,
    }
}

/// Writes the base header.
#[inline(always)]
fn write_base(packet: &Packet<'_>, offset: usize, out: &mut [u8]) -> Written
    requires link { offset < length (dissected packet.now.bytes.now).base }
    requires fits { length (dissected packet.now.bytes.now).base ≤ length out.old }
    ensures { AreWritten offset (dissected packet.now.bytes.now).base out.old [] out.new result.len result.link }
{
    let base = base_of(packet);
    put_at(out, 0, base);
    Written {
        len: base.len(),
        link: offset,
    }
}

/// Writes the base header and the headers that are kept, in the recommended order. Returns the offset of the number of what
/// follows them.
#[inline(always)]
fn write_in_order(
    packet: &Packet<'_>,
    request: Request,
    last_routing: usize,
    offset: usize,
    out: &mut [u8],
) -> usize
    requires routing { last_routing ≡ routing_index (kept request.without (dissected packet.now.bytes.now).headers) }
    requires small { length out.old < 2 ^ 64 }
    requires link { offset < length (dissected packet.now.bytes.now).base }
    requires fits { length (dissected packet.now.bytes.now).base
        + length (bytes_of (kept request.without (dissected packet.now.bytes.now).headers)) ≤ length out.old }
    ensures { AreWritten offset (dissected packet.now.bytes.now).base out.old
        (in_order (cleared_if request.clears (kept request.without (dissected packet.now.bytes.now).headers))) out.new
        (length (dissected packet.now.bytes.now).base
        + length (bytes_of (kept request.without (dissected packet.now.bytes.now).headers))) result }
{
    let mut written = write_base(packet, offset, out);
    for rank in 0..RANKS {
        let choice = Choice {
            orders: true,
            rank,
            last_routing,
            clears: request.clears,
        };
        written = write_chosen(packet, request.without, choice, written, out);
    }
    written.link
}

/// Writes the base header and the headers that are kept, one after another as before. Returns the offset of the number of
/// what follows them.
#[inline(always)]
fn write_as_before(packet: &Packet<'_>, request: Request, offset: usize, out: &mut [u8]) -> usize
    requires small { length out.old < 2 ^ 64 }
    requires link { offset < length (dissected packet.now.bytes.now).base }
    requires fits { length (dissected packet.now.bytes.now).base
        + length (bytes_of (kept request.without (dissected packet.now.bytes.now).headers)) ≤ length out.old }
    ensures { AreWritten offset (dissected packet.now.bytes.now).base out.old
        (cleared_if request.clears (kept request.without (dissected packet.now.bytes.now).headers)) out.new
        (length (dissected packet.now.bytes.now).base
        + length (bytes_of (kept request.without (dissected packet.now.bytes.now).headers))) result }
{
    let choice = Choice {
        orders: false,
        rank: 0,
        last_routing: 0,
        clears: request.clears,
    };
    let base = write_base(packet, offset, out);
    let written = write_chosen(packet, request.without, choice, base, out);
    written.link
}

/// Writes the base header and the headers as the request changes them. Returns the offset of the number of what follows
/// them.
#[inline(always)]
pub(crate) fn write_changed(
    packet: &Packet<'_>,
    request: Request,
    last_routing: usize,
    offset: usize,
    out: &mut [u8],
) -> usize
    requires routing { last_routing ≡ routing_index (kept request.without (dissected packet.now.bytes.now).headers) }
    requires small { length out.old < 2 ^ 64 }
    requires link { offset < length (dissected packet.now.bytes.now).base }
    requires fits { length (dissected packet.now.bytes.now).base
        + length (bytes_of (kept request.without (dissected packet.now.bytes.now).headers)) ≤ length out.old }
    ensures { AreWritten offset (dissected packet.now.bytes.now).base out.old
        (changed_headers request (dissected packet.now.bytes.now).headers) out.new
        (length (dissected packet.now.bytes.now).base
        + length (bytes_of (kept request.without (dissected packet.now.bytes.now).headers))) result }
{
    if request.orders {
        write_in_order(packet, request, last_routing, offset, out)
    } else {
        write_as_before(packet, request, offset, out)
    }
}
