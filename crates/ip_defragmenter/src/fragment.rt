//! The fragment that a packet is.
ghost use Rattle.std.specs.Prelude.{◌-◌, take, drop, ◌≡◌, ◌+◌, ◌≤◌, ℕ, length, [], Some, None, Ok, Err, true, if◌then◌else◌, is_some, IfSome};
ghost use Rattle.std.specs.Option.{option_map};
ghost use Rattle.std.specs.Result.{result_map_both, result_err};
ghost use Rattle.ip_spec.specs.Chain.{bytes_of};
ghost use Rattle.ip_dissect.specs.Dissection.{dissected, DissectedParts};
ghost use Rattle.ip_dissect.specs.declared.dissection.BaseHeader.TheVariants.{Ipv4, Ipv6};
ghost use Rattle.ip_dissect.specs.Summary.{summary_of};
ghost use Rattle.ip_base.specs.Ipv4Header.{is_ipv4_fragmenting};
ghost use Rattle.ip_base.specs.Ipv4HeaderSlice as ipv4_header;
ghost use Rattle.ip_base.specs.Ipv6HeaderSlice as ipv6_header;
ghost use Rattle.ip_defragmenter.specs.Finder.{found_after};
ghost use Rattle.ip_defragmenter.specs.FragmentOf.{parts_of, packet_fragment, ipv4_fragment_parts, ipv6_fragment_parts, unusable, fragmented};

use crate::finder::{Finder, FoundHeader};
use crate::{FragmentError, FragmentKey};
use ip_base::{IpFragOffset, IpNumber, Ipv4HeaderSlice, Ipv6HeaderSlice};
use ip_dissect::{BaseHeader, Packet, PacketStart, PacketVisitor, Summary};

/// A fragment of a packet, borrowed from its bytes.
#[derive(Clone, Copy, Debug)]
pub struct IpFragment<'a> {
    /// What all fragments of the packet have in common.
    pub key: FragmentKey,
    /// The base header of IPv4. Of IPv6 the base header and the extension headers before the fragment header, which
    /// follows them.
    pub headers: &'a [u8],
    /// The offset in `headers` of the field with the number of what follows them.
    pub link: usize,
    /// The number of what the packet's payload starts with: the protocol of IPv4, the fragment header's next header of
    /// IPv6.
    pub next_header: IpNumber,
    /// The ECN code point (RFC 3168, section 5).
    pub ecn: u8,
    /// The fragment offset.
    pub offset: IpFragOffset,
    /// Whether more fragments follow.
    pub more: bool,
    /// The fragment's bytes: those after the base header of IPv4, or after the fragment header of IPv6.
    pub bytes: &'a [u8],
}

/// Returns the fragment that the packet at the start of `bytes` is, which may be any bytes. Returns `None` if the packet
/// isn't a fragment, or if it is an atomic fragment, which is a packet by itself (RFC 6946).
///
/// Returns an error if the fragment can't be used: its headers are truncated or faulty (RFC 7112), it states no length,
/// or bytes are missing.
#[inline(always)]
pub fn fragment_of(bytes: &[u8]) -> Result<Option<IpFragment<'_>>, FragmentError>
    ensures { result_map_both (option_map parts_of) (λ e. e) result ≡ packet_fragment (dissected bytes.now) }
{
    let mut reading = Reading::new();
    reading.read(bytes);
    reading.fragment
}

/// A visitor of packets that reads which fragment each is.
#[derive(Clone, Copy, Debug)]
pub(crate) struct Reading<'a> {
    /// The fragment that the packet is, as `fragment_of` returns it. It isn't moved: it is large.
    pub(crate) fragment: Result<Option<IpFragment<'a>>, FragmentError>,
}

impl<'a> Reading<'a> {
    /// Returns a visitor that has read no packet.
    #[inline(always)]
    pub(crate) fn new() -> Reading<'a> {
        Reading { fragment: Ok(None) }
    }

    /// Reads which fragment a packet is, by what was found among its headers.
    #[inline(always)]
    fn read_packet(&mut self, packet: &Packet<'a>, finder: &Finder)
        requires { finder.now ≡ found_after (length (dissected packet.now.bytes.now).base)
            (dissected packet.now.bytes.now).headers }
        ensures { result_map_both (option_map parts_of) (λ e. e) self.new.fragment
            ≡ packet_fragment (dissected packet.now.bytes.now) }
    {
        match packet.base {
            Some(BaseHeader::Ipv4(base)) => self.read_ipv4(packet, base),
            Some(BaseHeader::Ipv6(base)) => self.read_ipv6(packet, base, finder),
            None => self.fragment = Ok(None),
        }
    }

    /// Reads which fragment an IPv4 packet is.
    #[inline(always)]
    fn read_ipv4(&mut self, packet: &Packet<'a>, base: Ipv4HeaderSlice<'a>)
        requires { packet.now.base ≡ Some (Ipv4 base) }
        ensures { result_map_both (option_map parts_of) (λ e. e) self.new.fragment
            ≡ packet_fragment (dissected packet.now.bytes.now) }
    {
        if !base.is_fragmenting_payload() {
            self.fragment = Ok(None);
            return;
        }
        match test(&packet.summary) {
            Ok(()) => self.fragment = Ok(Some(ipv4_fragment(packet, base))),
            Err(error) => self.fragment = Err(error),
        }
    }

    /// Reads which fragment an IPv6 packet is, by what was found among its headers.
    #[inline(always)]
    fn read_ipv6(&mut self, packet: &Packet<'a>, base: Ipv6HeaderSlice<'a>, finder: &Finder)
        requires base { packet.now.base ≡ Some (Ipv6 base) }
        requires found { finder.now ≡ found_after (length (dissected packet.now.bytes.now).base)
            (dissected packet.now.bytes.now).headers }
        ensures { result_map_both (option_map parts_of) (λ e. e) self.new.fragment
            ≡ packet_fragment (dissected packet.now.bytes.now) }
    {
        match finder.header {
            Some(header) => match test(&packet.summary) {
                Ok(()) => self.fragment = Ok(Some(ipv6_fragment(packet, base, finder, &header))),
                Err(error) => self.fragment = Err(error),
            },
            None => self.fragment = Ok(None),
        }
    }

    /// Reads which fragment the packet at the start of `bytes` is.
    #[inline(always)]
    pub(crate) fn read(&mut self, bytes: &'a [u8])
        ensures { result_map_both (option_map parts_of) (λ e. e) self.new.fragment
            ≡ packet_fragment (dissected bytes.now) }
    {
        let _ = Packet::visit(bytes, self);
    }
}

impl<'a> PacketVisitor<'a> for Reading<'a> {
    type Plain = ();

    type Slow = ();

    ghost plain = { λ old s new _. result_map_both (option_map parts_of) (λ e. e) new.fragment ≡ packet_fragment (dissected s) };

    ghost slow = { λ old s new _. result_map_both (option_map parts_of) (λ e. e) new.fragment ≡ packet_fragment (dissected s) };

    #[inline(always)]
    fn visit_plain(&mut self, packet: Packet<'a>) {
        self.read_packet(&packet, &Finder::new());
    }

    #[inline(always)]
    fn visit_slow(&mut self, start: PacketStart<'a>) {
        let mut finder = Finder::new();
        let packet = start.walk(&mut finder);
        self.read_packet(&packet, &finder);
    }
}

/// Returns why a fragment can't be used, by the summary of its packet.
#[inline(always)]
fn test(summary: &Summary) -> Result<(), FragmentError>
    ensures { (p : DissectedParts) → summary.now ≡ summary_of p
        → result_err result ≡ unusable p }
{
    if summary.has_error {
        return Err(FragmentError::Headers);
    }
    if summary.stated_len.is_none() {
        return Err(FragmentError::NoLength);
    }
    if summary.missing != 0 {
        return Err(FragmentError::Missing);
    }
    Ok(())
}

/// Returns the fragment that an IPv4 packet is.
#[inline(always)]
fn ipv4_fragment<'a>(packet: &Packet<'a>, base: Ipv4HeaderSlice<'a>) -> IpFragment<'a>
    requires base { packet.now.base ≡ Some (Ipv4 base) }
    requires fragments { is_ipv4_fragmenting (ipv4_header.bytes base) ≡ true }
    ensures { Some (parts_of result) ≡ ipv4_fragment_parts (dissected packet.now.bytes.now) }
{
    let start = packet.summary.base_len;
    IpFragment {
        key: FragmentKey::Ipv4 {
            source: base.source(),
            destination: base.destination(),
            protocol: base.protocol(),
            identification: base.identification(),
        },
        headers: base.slice(),
        link: 9,
        next_header: base.protocol(),
        ecn: base.ecn(),
        offset: base.fragments_offset(),
        more: base.more_fragments(),
        bytes: part(packet.bytes, start, end_of(packet)),
    }
}

/// Returns the fragment that an IPv6 packet is, with this fragment header.
#[inline(always)]
fn ipv6_fragment<'a>(
    packet: &Packet<'a>,
    base: Ipv6HeaderSlice<'a>,
    finder: &Finder,
    header: &FoundHeader,
) -> IpFragment<'a>
    requires base { packet.now.base ≡ Some (Ipv6 base) }
    requires found { finder.now ≡ found_after (length (dissected packet.now.bytes.now).base)
        (dissected packet.now.bytes.now).headers }
    requires header { finder.now.header ≡ Some header.now }
    ensures { Some (parts_of result) ≡ ipv6_fragment_parts (dissected packet.now.bytes.now) }
{
    IpFragment {
        key: FragmentKey::Ipv6 {
            source: base.source(),
            destination: base.destination(),
            identification: header.identification,
        },
        headers: front(packet.bytes, header.start),
        link: finder.link,
        next_header: header.next_header,
        ecn: base.traffic_class() % 4,
        offset: header.offset,
        more: header.more,
        bytes: part(packet.bytes, header.start + header.len, end_of(packet)),
    }
}

/// Returns the first `len` bytes.
#[inline(always)]
fn front(bytes: &[u8], len: usize) -> &[u8]
    requires { len ≤ length bytes.now }
    ensures { result.now ≡ take len bytes.now }
{
    &bytes[..len]
}

/// Returns the bytes from `start` to `end`.
#[inline(always)]
fn part(bytes: &[u8], start: usize, end: usize) -> &[u8]
    requires ordered { start ≤ end }
    requires within { end ≤ length bytes.now }
    ensures { result.now ≡ take (end - start) (drop start bytes.now) }
{
    &bytes[start..end]
}

/// Returns where the packet ends in its bytes.
#[inline(always)]
fn end_of(packet: &Packet<'_>) -> usize
    ensures is { result ≡ length (dissected packet.now.bytes.now).base
        + length (bytes_of (dissected packet.now.bytes.now).headers)
        + length (dissected packet.now.bytes.now).payload }
    ensures within { result ≤ length packet.now.bytes.now }
{
    packet.summary.base_len + packet.summary.extensions_len + packet.summary.payload_len
}
