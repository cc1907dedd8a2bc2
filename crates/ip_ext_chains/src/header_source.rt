//! What the headers of a chain are read from: a reader, or a reader within a limit.
ghost use Rattle.std.specs.Prelude.{◌≡◌, ◌≤◌, ◌++◌, ◌∷◌, ℕ, Bool, true, false, List, [], length, OnOk, IfOk, IfErr, IfSome, IsTrue};
ghost use Rattle.std.proofs.Common.{rules, arith, length-append};
ghost use Rattle.std.proofs.lemmas.Grind.{common_steps};
ghost use Rattle.ip_spec.specs.Numbers.{HOP_BY_HOP, FRAGMENT, AUTHENTICATION};
ghost use Rattle.ip_spec.specs.Header.{IsFragmentHeader, IsAuthHeader};
ghost use Rattle.ip_spec.specs.Fields.{fragment_fields, auth_fields};
ghost use Rattle.ip_spec.specs.Requests.{Asks};
ghost use Rattle.ip_spec.specs.Chain.{ExtHeader};
ghost use Rattle.ip_spec.proofs.ChainLemmas.{bytes_of-more};
ghost use Rattle.ip_base.specs.LimitedReader.{inner_of};
ghost use Rattle.ip_base.specs.declared.err.layer.Layer.{Layer};
ghost use Rattle.ip_base.specs.declared.err.layer.Layer.TheVariants.{Ipv6FragHeader, IpAuthHeader as AuthLayer};
ghost use Rattle.ip_ext_chains.specs.ChainReading.{IsRead, IsReadInLayer, AreConsumed, AreConsumedInLayers, IsHeaderRefused, IsHeaderRefusedInLayer, IsHeaderRead, layer_of, limits_after-more};
ghost use Rattle.ip_ext_chains.specs.ChainReadError.{io_of};
ghost use Rattle.ip_ext_chains.specs.ChainLimitedReadError.{io_of as limited_io_of};

use crate::err::ipv6_exts::{HeaderError, HeaderLimitedReadError, HeaderReadError};
use crate::err::{Layer, ip_auth};
use ip_base::IpNumber;
use ip_ext_headers::io::{ExactRead, LimitedReader};
use ip_ext_headers::{IpAuthHeader, Ipv6FragmentHeader};
use std::marker::PhantomData;

/// What the headers of a chain are read from. `read` and `read_limited` of the six places differ only in this.
pub(crate) trait HeaderSource {
    /// The reader.
    type Reader;

    /// The error of a read.
    type Error;

    /// These bytes of a header, which starts this layer, were read between two states of the reader.
    ghost has_read: { Layer → Self.Reader → Self.Reader → List ℕ → Type 0 };

    /// These headers were read.
    ghost have_read: { Self.Reader → Self.Reader → List ExtHeader → Type 0 };

    /// Why a header isn't read, from whether it would be the first, its number, and the reader before and after.
    ghost is_refused: { Self.Error → Bool → ℕ → Self.Reader → Self.Reader → Type 0 };

    /// Whether the reader refuses only if too few bytes are left, now and later.
    ghost is_steady: { Self.Reader → Bool };

    /// The errors that the last read may have returned.
    ghost has_given: { Self.Reader → Self.Error → Type 0 };

    /// Starts the layer of a header.
    fn start_layer(reader: &mut Self::Reader, layer: Layer)
        ensures begun { has_read layer reader.old reader.new [] }
        ensures steady { is_steady reader.new ≡ is_steady reader.old };

    /// Fills the buffer with the next bytes of a header.
    fn read_exact(reader: &mut Self::Reader, buf: &mut [u8]) -> Result<(), Self::Error>
        requires { length buf.old ≤ 2048 }
        ensures more { OnOk result ((layer : Layer) (old : Self.Reader) (done : List ℕ)
            → has_read layer old reader.old done → has_read layer old reader.new (done ++ buf.new)) }
        ensures steady { is_steady reader.new ≡ is_steady reader.old }
        ensures refused { IfErr result (λ e. (m : ℕ) (old : Self.Reader) (done : List ℕ)
            → has_read (layer_of m) old reader.old done → Asks m done (length buf.old)
            → is_refused e true m old reader.new) }
        ensures own { IfErr result (has_given reader.new) };

    /// Reads a fragment header into its place, and returns its next header.
    fn read_fragment(
        place: &mut Option<Ipv6FragmentHeader>,
        reader: &mut Self::Reader,
    ) -> Result<IpNumber, Self::Error>
        ensures ok { IfOk result (λ m. IsHeaderRead IsFragmentHeader fragment_fields
            (has_read Ipv6FragHeader reader.old reader.new) m.0 place.new) }
        ensures steady { is_steady reader.new ≡ is_steady reader.old }
        ensures refused { IfErr result (λ e. is_refused e true FRAGMENT reader.old reader.new) }
        ensures own { IfErr result (has_given reader.new) };

    /// Reads an authentication header into its place, and returns its next header.
    fn read_auth(
        place: &mut Option<IpAuthHeader>,
        reader: &mut Self::Reader,
    ) -> Result<IpNumber, Self::Error>
        ensures ok { IfOk result (λ m. IsHeaderRead IsAuthHeader auth_fields
            (has_read AuthLayer reader.old reader.new) m.0 place.new) }
        ensures steady { is_steady reader.new ≡ is_steady reader.old }
        ensures refused { IfErr result (λ e. is_refused e true AUTHENTICATION reader.old reader.new) }
        ensures own { IfErr result (has_given reader.new) };

    /// Returns the error for hop-by-hop options after another header.
    fn misplaced() -> Self::Error
        ensures refused { (reader : Self.Reader) → is_refused result false HOP_BY_HOP reader reader }
        ensures own { (reader : Self.Reader) → has_given reader result };

    /// At the start no header was read.
    ghost reads_none: { (reader : Self.Reader) → have_read reader reader [] };

    /// After the headers c one more was read.
    ghost reads_next: { (old mid new : Self.Reader) (c : List ExtHeader) (h : ExtHeader) (m : ℕ)
        → h.number ≡ m → have_read old mid c → has_read (layer_of m) mid new h.bytes
        → have_read old new (c ++ h ∷ []) };

    /// A header refused as the first of a chain is refused wherever its number may stand.
    ghost refuses_there: { (e : Self.Error) (first : Bool) (m j : ℕ) (old new : Self.Reader)
        → is_refused e true j old new → m ≡ j → (m ≡ 0 → IsTrue first) → is_refused e first m old new };
}

/// A reader.
pub(crate) struct Unlimited<T>(PhantomData<T>);

impl<T: ExactRead> HeaderSource for Unlimited<T> {
    type Reader = T;

    type Error = HeaderReadError;

    ghost has_read = { λ _. IsRead T.bytes_left T.is_steady T.has_failed };

    ghost have_read = { AreConsumed T.bytes_left T.is_steady T.has_failed };

    ghost is_refused = { IsHeaderRefused T.bytes_left T.is_steady T.has_failed };

    ghost is_steady = { T.is_steady };

    ghost has_given = { λ reader e. IfSome (io_of e) (T.has_given reader) };

    ghost reads_none = { Prim.search rules };

    ghost reads_next = { Prim.grind (arith, common_steps, bytes_of-more) };

    ghost refuses_there = { Prim.search rules };

    #[inline(always)]
    fn start_layer(_reader: &mut T, _layer: Layer) {}

    #[inline(always)]
    fn read_exact(reader: &mut T, buf: &mut [u8]) -> Result<(), Self::Error> {
        match reader.read_exact(buf) {
            Ok(()) => Ok(()),
            Err(e) => Err(HeaderReadError::Io(e)),
        }
    }

    fn read_fragment(
        place: &mut Option<Ipv6FragmentHeader>,
        reader: &mut T,
    ) -> Result<IpNumber, Self::Error> {
        match Ipv6FragmentHeader::read(reader) {
            Ok(header) => {
                let next_header = header.next_header;
                *place = Some(header);
                Ok(next_header)
            }
            Err(e) => Err(HeaderReadError::Io(e)),
        }
    }

    fn read_auth(
        place: &mut Option<IpAuthHeader>,
        reader: &mut T,
    ) -> Result<IpNumber, Self::Error> {
        let header = place.insert(IpAuthHeader::default());
        match header.read_over(reader) {
            Ok(()) => Ok(header.next_header),
            Err(ip_auth::HeaderReadError::Io(e)) => Err(HeaderReadError::Io(e)),
            Err(ip_auth::HeaderReadError::Content(e)) => {
                Err(HeaderReadError::Content(HeaderError::IpAuth(e)))
            }
        }
    }

    #[inline(always)]
    fn misplaced() -> Self::Error {
        HeaderReadError::Content(HeaderError::HopByHopNotAtStart)
    }
}

/// A reader within a limit. Each header starts a layer of its own.
pub(crate) struct Limited<T>(PhantomData<T>);

impl<T: ExactRead> HeaderSource for Limited<T> {
    type Reader = LimitedReader<T>;

    type Error = HeaderLimitedReadError;

    ghost has_read = { IsReadInLayer T.bytes_left T.is_steady T.has_failed };

    ghost have_read = { AreConsumedInLayers T.bytes_left T.is_steady T.has_failed };

    ghost is_refused = { IsHeaderRefusedInLayer T.bytes_left T.is_steady T.has_failed };

    ghost is_steady = { λ reader. T.is_steady (inner_of reader) };

    ghost has_given = { λ reader e. IfSome (limited_io_of e) (T.has_given (inner_of reader)) };

    ghost reads_none = { Prim.search rules };

    ghost reads_next = { Prim.grind (arith, common_steps, bytes_of-more, length-append, limits_after-more) };

    ghost refuses_there = { Prim.search rules };

    #[inline(always)]
    fn start_layer(reader: &mut LimitedReader<T>, layer: Layer) {
        reader.start_layer(layer);
    }

    #[inline(always)]
    fn read_exact(reader: &mut LimitedReader<T>, buf: &mut [u8]) -> Result<(), Self::Error> {
        match reader.read_exact(buf) {
            Ok(()) => Ok(()),
            Err(e) => Err(HeaderLimitedReadError::of_limited(e)),
        }
    }

    fn read_fragment(
        place: &mut Option<Ipv6FragmentHeader>,
        reader: &mut LimitedReader<T>,
    ) -> Result<IpNumber, Self::Error> {
        match Ipv6FragmentHeader::read_limited(reader) {
            Ok(header) => {
                let next_header = header.next_header;
                *place = Some(header);
                Ok(next_header)
            }
            Err(e) => Err(HeaderLimitedReadError::of_limited(e)),
        }
    }

    fn read_auth(
        place: &mut Option<IpAuthHeader>,
        reader: &mut LimitedReader<T>,
    ) -> Result<IpNumber, Self::Error> {
        let header = place.insert(IpAuthHeader::default());
        match header.read_over_limited(reader) {
            Ok(()) => Ok(header.next_header),
            Err(ip_auth::HeaderLimitedReadError::Io(e)) => Err(HeaderLimitedReadError::Io(e)),
            Err(ip_auth::HeaderLimitedReadError::Len(e)) => Err(HeaderLimitedReadError::Len(e)),
            Err(ip_auth::HeaderLimitedReadError::Content(e)) => {
                Err(HeaderLimitedReadError::Content(HeaderError::IpAuth(e)))
            }
        }
    }

    #[inline(always)]
    fn misplaced() -> Self::Error {
        HeaderLimitedReadError::Content(HeaderError::HopByHopNotAtStart)
    }
}
