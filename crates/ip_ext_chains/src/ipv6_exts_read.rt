//! Headers read from a stream into six places.
ghost use Rattle.std.specs.Prelude.{◌≡◌, ℕ, [], length, IsOk, IfOk, IfErr, IfSome, true, is_some};
ghost use Rattle.ip_spec.specs.Numbers.{ROUTING};
ghost use Rattle.ip_spec.specs.Header.{IsRawHeader, IsRawNumber, IsExtensionNumber};
ghost use Rattle.ip_spec.specs.Fields.{raw_fields};
ghost use Rattle.ip_spec.specs.Lengths.{IsPayloadLen};
ghost use Rattle.ip_spec.specs.Places.{number_in, final_destination};
ghost use Rattle.ip_base.specs.LimitedReader.{inner_of, window};
ghost use Rattle.ip_base.specs.Reading.{IsHeaderConsumed};
ghost use Rattle.ip_base.specs.declared.err.layer.Layer.TheVariants.{Ipv6ExtHeader};
ghost use Rattle.ip_ext_chains.specs.Place.{as_place};
ghost use Rattle.ip_ext_chains.specs.Ipv6Extensions.{value_of};
ghost use Rattle.ip_ext_chains.specs.ReadError.{IsSliceError, IsSliceErrorInLayers};
ghost use Rattle.ip_ext_chains.specs.ChainReading.{AreConsumed, AreConsumedInLayers, IsChainConsumed, IsChainRefused, IsHeaderRefused, IsHeaderRefusedInLayer, IsReadInto, IsHeaderRead, routing_fields, layer_of};

use crate::err::Layer;
use crate::err::ipv6_exts::{HeaderLimitedReadError, HeaderReadError};
use crate::header_source::{HeaderSource, Limited, Unlimited};
use crate::places::{Place, Places};
use crate::{Ipv6Extensions, Ipv6RoutingExtensions};
use ip_base::{IpNumber, ip_number};
use ip_ext_headers::Ipv6RawExtHeader;
use ip_ext_headers::io::{ExactRead, LimitedReader};

impl Ipv6Extensions {
    ghost use Rattle.ip_ext_chains.specs.ChainReadError.{io_of};

    /// Reads the chain of headers from the number, each into its place, and returns them with the number of what
    /// follows. No byte after them is consumed: the read ends at a number that is not an extension header's, or whose
    /// place is occupied. If the start number is not an extension header's, nothing is read.
    ///
    /// Returns `Content` if the bytes of a header are malformed, or if a header's next header is hop-by-hop options,
    /// which must be first (RFC 8200, section 4.1). `Io` is the reader's error; after it the number of consumed bytes
    /// is not known.
    pub fn read<T: ExactRead>(
        reader: &mut T,
        start_ip_number: IpNumber,
    ) -> Result<(Ipv6Extensions, IpNumber), HeaderReadError>
        ensures answer { IfOk result (λ x.
            IsChainConsumed (AreConsumed T.bytes_left T.is_steady T.has_failed)
            reader.old reader.new start_ip_number.0 x.0 x.1.0) }
        ensures refused { IfErr result (λ e.
            IsChainRefused (AreConsumed T.bytes_left T.is_steady T.has_failed)
            (IsHeaderRefused T.bytes_left T.is_steady T.has_failed e)
            reader.old reader.new start_ip_number.0) }
        ensures own { IfErr result (λ e. IfSome (io_of e) (T.has_given reader.new)) }
        ensures fault { IfErr result (IsSliceError start_ip_number.0 (T.is_steady reader.old)
            (T.bytes_left reader.old)) }
        ensures steady { T.is_steady reader.new ≡ T.is_steady reader.old }
        ensures stays { (IsExtensionNumber start_ip_number.0 → ⊥)
            → IsOk result × (reader.new ≡ reader.old) }
    {
        let mut exts = Self::default();
        match exts.read_headers::<Unlimited<T>>(reader, start_ip_number) {
            Ok(number) => Ok((exts, number)),
            Err(e) => Err(e),
        }
    }

    /// Reads the headers into their places, which are all free, and returns the number of what follows them. It is
    /// kept out of line, so that the struct isn't moved (docs/DECISIONS.md, "Moves of large values").
    #[inline(never)]
    fn read_headers<S: HeaderSource>(
        &mut self,
        reader: &mut S::Reader,
        start_ip_number: IpNumber,
    ) -> Result<IpNumber, S::Error>
        requires empty { self.old ≡ value_of [] }
        ensures answer { IfOk result (λ m. IsChainConsumed S.have_read
            reader.old reader.new start_ip_number.0 self.new m.0) }
        ensures refused { IfErr result (λ e. IsChainRefused S.have_read (S.is_refused e)
            reader.old reader.new start_ip_number.0) }
        ensures own { IfErr result (S.has_given reader.new) }
        ensures steady { S.is_steady reader.new ≡ S.is_steady reader.old }
        ensures stays { (IsExtensionNumber start_ip_number.0 → ⊥)
            → IsOk result × (reader.new ≡ reader.old) }
    {
        let mut buffer = [0; Ipv6RawExtHeader::MAX_PAYLOAD_LEN];
        let mut number = start_ip_number;
        let mut is_first = true;
        let mut occupied = Places::new();
        'headers: while let Some(place) = occupied.next_in_chain(is_first, number) {
            match self.read_into::<S>(place, &mut buffer, reader) {
                Ok(next_header) => number = next_header,
                Err(e) => return Err(e),
            }
            occupied.put(place, ());
            is_first = false;
        }
        if number == ip_number::IPV6_HOP_BY_HOP {
            return Err(S::misplaced());
        }
        Ok(number)
    }

    /// Reads a header into the place, which is free, and returns its next header. The buffer holds the payload bytes
    /// read.
    #[inline(always)]
    fn read_into<S: HeaderSource>(
        &mut self,
        place: Place,
        buffer: &mut [u8; 2046],
        reader: &mut S::Reader,
    ) -> Result<IpNumber, S::Error>
        requires { as_place place ≡ final_destination → is_some self.old.routing ≡ true }
        ensures ok { IfOk result (λ m.
            IsReadInto (S.has_read (layer_of (number_in (as_place place))) reader.old reader.new)
            (as_place place) m.0 self.old self.new) }
        ensures steady { S.is_steady reader.new ≡ S.is_steady reader.old }
        ensures refused { IfErr result (λ e.
            S.is_refused e true (number_in (as_place place)) reader.old reader.new) }
        ensures own { IfErr result (S.has_given reader.new) }
    {
        match place {
            Place::HopByHop => read_raw::<S>(&mut self.hop_by_hop_options, buffer, reader),
            Place::Destination => read_raw::<S>(&mut self.destination_options, buffer, reader),
            Place::Routing => read_routing::<S>(&mut self.routing, buffer, reader),
            Place::Fragment => S::read_fragment(&mut self.fragment, reader),
            Place::Authentication => S::read_auth(&mut self.auth, reader),
            Place::FinalDestination => match &mut self.routing {
                Some(routing) => {
                    read_raw::<S>(&mut routing.final_destination_options, buffer, reader)
                }
                None => unreachable!(),
            },
        }
    }
}

impl Ipv6Extensions {
    ghost use Rattle.ip_ext_chains.specs.ChainLimitedReadError.{io_of};

    /// Reads the headers within a limit, as `read` does from the bytes that may still be read. Each header starts a
    /// layer of its own: `Ipv6ExtHeader`, `Ipv6FragHeader` or `IpAuthHeader`. If the number is not an extension
    /// header's, nothing is read and no layer starts.
    ///
    /// Returns `Len` for the first request that exceeds the limit, which consumes nothing; `Content` and `Io` are
    /// those of `read`. After `HopByHopNotAtStart`, layer and `read_len` are those of the last header that was read.
    /// After any other error the layer is that of the header that could not be read, and `read_len` is the number of
    /// its bytes read before the error.
    pub fn read_limited<T: ExactRead>(
        reader: &mut LimitedReader<T>,
        start_ip_number: IpNumber,
    ) -> Result<(Ipv6Extensions, IpNumber), HeaderLimitedReadError>
        ensures answer { IfOk result (λ x.
            IsChainConsumed (AreConsumedInLayers T.bytes_left T.is_steady T.has_failed)
            reader.old reader.new start_ip_number.0 x.0 x.1.0) }
        ensures refused { IfErr result (λ e.
            IsChainRefused (AreConsumedInLayers T.bytes_left T.is_steady T.has_failed)
            (IsHeaderRefusedInLayer T.bytes_left T.is_steady T.has_failed e)
            reader.old reader.new start_ip_number.0) }
        ensures own { IfErr result (λ e. IfSome (io_of e) (T.has_given (inner_of reader.new))) }
        ensures fault { IfErr result (IsSliceErrorInLayers start_ip_number.0
            (T.is_steady (inner_of reader.old)) (window T.bytes_left reader.old)) }
        ensures steady { T.is_steady (inner_of reader.new) ≡ T.is_steady (inner_of reader.old) }
        ensures stays { (IsExtensionNumber start_ip_number.0 → ⊥)
            → IsOk result × (reader.new ≡ reader.old) }
    {
        let mut exts = Self::default();
        let number = exts.read_headers::<Limited<T>>(reader, start_ip_number)?;
        Ok((exts, number))
    }
}

/// Reads a header in the uniform format (RFC 6564), with its payload in the buffer. Returns its next header and the
/// payload.
#[inline(always)]
fn take_raw<'a, S: HeaderSource>(
    buffer: &'a mut [u8; 2046],
    reader: &mut S::Reader,
) -> Result<(IpNumber, &'a [u8]), S::Error>
    ensures header { IfOk result (λ x. IsHeaderConsumed IsRawHeader raw_fields
        (S.has_read Ipv6ExtHeader reader.old reader.new)
        record { next_header = x.0.0; payload = x.1.now }) }
    ensures allowed { IfOk result (λ x. IsPayloadLen (length x.1.now)) }
    ensures steady { S.is_steady reader.new ≡ S.is_steady reader.old }
    ensures refused { IfErr result (λ e. (m : ℕ) → IsRawNumber m
        → S.is_refused e true m reader.old reader.new) }
    ensures own { IfErr result (S.has_given reader.new) }
{
    S::start_layer(reader, Layer::Ipv6ExtHeader);
    let mut start = [0; 2];
    match S::read_exact(reader, &mut start) {
        Ok(()) => {}
        Err(e) => return Err(e),
    }
    let [next_header, hdr_ext_len] = start;
    let payload = &mut buffer[..8 * usize::from(hdr_ext_len) + 6];
    match S::read_exact(reader, payload) {
        Ok(()) => Ok((IpNumber(next_header), payload)),
        Err(e) => Err(e),
    }
}

/// Sets the header, in place, to this next header and a payload of an allowed length.
#[inline(always)]
fn make_raw(header: &mut Ipv6RawExtHeader, next_header: IpNumber, payload: &[u8])
    requires { IsPayloadLen (length payload.now) }
    ensures { header.new ≡ record { next_header = next_header.0; payload = payload.now } }
{
    header.next_header = next_header;
    let _ = header.set_payload(payload);
}

/// Reads a header in the uniform format (RFC 6564) into the place, and returns its next header.
fn read_raw<S: HeaderSource>(
    place: &mut Option<Ipv6RawExtHeader>,
    buffer: &mut [u8; 2046],
    reader: &mut S::Reader,
) -> Result<IpNumber, S::Error>
    ensures ok { IfOk result (λ m. IsHeaderRead IsRawHeader raw_fields
        (S.has_read Ipv6ExtHeader reader.old reader.new) m.0 place.new) }
    ensures steady { S.is_steady reader.new ≡ S.is_steady reader.old }
    ensures refused { IfErr result (λ e. (m : ℕ) → IsRawNumber m
        → S.is_refused e true m reader.old reader.new) }
    ensures own { IfErr result (S.has_given reader.new) }
{
    match take_raw::<S>(buffer, reader) {
        Ok((next_header, payload)) => {
            let header = place.insert(Ipv6RawExtHeader::default());
            make_raw(header, next_header, payload);
            Ok(next_header)
        }
        Err(e) => Err(e),
    }
}

/// Reads a routing header into its place, without destination options after it, and returns its next header.
fn read_routing<S: HeaderSource>(
    place: &mut Option<Ipv6RoutingExtensions>,
    buffer: &mut [u8; 2046],
    reader: &mut S::Reader,
) -> Result<IpNumber, S::Error>
    ensures ok { IfOk result (λ m. IsHeaderRead IsRawHeader routing_fields
        (S.has_read Ipv6ExtHeader reader.old reader.new) m.0 place.new) }
    ensures steady { S.is_steady reader.new ≡ S.is_steady reader.old }
    ensures refused { IfErr result (λ e. S.is_refused e true ROUTING reader.old reader.new) }
    ensures own { IfErr result (S.has_given reader.new) }
{
    match take_raw::<S>(buffer, reader) {
        Ok((next_header, payload)) => {
            let headers = place.insert(Ipv6RoutingExtensions::blank());
            make_raw(&mut headers.routing, next_header, payload);
            Ok(next_header)
        }
        Err(e) => Err(e),
    }
}
