//! A reader up to a limit.
ghost use Rattle.std.specs.Prelude.{◌≡◌, ◌≤◌, ◌<◌, ◌+◌, ◌^◌, length, OnOk, OnErr, IfErr, IfSome};
ghost use Rattle.std.specs.Io.KnownBytes.{Consumes};

use crate::LenSource;
use crate::err::io::LimitedReadError;
use crate::err::{Layer, LenError};
use crate::io::ExactRead;

/// A reader that returns no more bytes than a limit. A request past the limit is a length error of the layer that is
/// being read.
///
/// `max_len() - read_len()` bytes may still be read. Both count from the start of the layer: `start_layer` starts the
/// next one at the current position.
#[derive(Debug, Drop)]
pub struct LimitedReader<T> {
    reader: T,
    max_len: usize,
    len_source: LenSource,
    layer: Layer,
    layer_offset: usize,
    read_len: usize,
    ghost within: { read_len ≤ max_len },
    ghost room: { layer_offset + max_len + 2048 < 2 ^ 64 },
}

impl<T> LimitedReader<T> {
    ghost use Rattle.ip_base.specs.Limits.{started};
    ghost use Rattle.ip_base.specs.LimitedReader.{inner_of, limits_of};

    /// Returns a reader of at most `max_len` bytes. `len_source` names the source of that length, and `layer` starts
    /// `layer_offset` bytes from where offsets are counted. The offset, the limit and 2048, the length of the longest
    /// header, must add up to less than 2^64.
    pub fn new(
        reader: T,
        max_len: usize,
        len_source: LenSource,
        layer_offset: usize,
        layer: Layer,
    ) -> LimitedReader<T>
        requires { layer_offset + max_len + 2048 < 2 ^ 64 }
        ensures reader { inner_of result ≡ reader }
        ensures limits { limits_of result ≡ record {
          max_len = max_len;
          len_source = len_source;
          layer = layer;
          layer_offset = layer_offset;
          read_len = 0;
        } }
    {
        LimitedReader {
            reader,
            max_len,
            len_source,
            layer,
            layer_offset,
            read_len: 0,
        }
    }

    /// Returns the most bytes that may be read of the layer and what follows it.
    pub fn max_len(&self) -> usize
        ensures value { result ≡ (limits_of self.now).max_len }
        ensures room { (limits_of self.now).layer_offset + result + 2048 < 2 ^ 64 }
    {
        self.max_len
    }

    /// Returns the source of the limit.
    pub fn len_source(&self) -> LenSource
        ensures { result ≡ (limits_of self.now).len_source }
    {
        self.len_source
    }

    /// Returns the layer that is being read.
    pub fn layer(&self) -> Layer
        ensures { result ≡ (limits_of self.now).layer }
    {
        self.layer
    }

    /// Returns the layer's offset, in bytes.
    pub fn layer_offset(&self) -> usize
        ensures { result ≡ (limits_of self.now).layer_offset }
    {
        self.layer_offset
    }

    /// Returns the number of bytes read of the layer.
    pub fn read_len(&self) -> usize
        ensures value { result ≡ (limits_of self.now).read_len }
        ensures within { result ≤ (limits_of self.now).max_len }
    {
        self.read_len
    }

    /// Starts a layer at the current position. The number of bytes that may still be read stays the same.
    #[inline(always)]
    pub fn start_layer(&mut self, layer: Layer)
        ensures reader { inner_of self.new ≡ inner_of self.old }
        ensures limits { limits_of self.new ≡ started layer (limits_of self.old) }
        ensures end { (limits_of self.new).layer_offset + (limits_of self.new).max_len
            ≡ (limits_of self.old).layer_offset + (limits_of self.old).max_len }
    {
        self.layer_offset += self.read_len;
        self.max_len -= self.read_len;
        self.read_len = 0;
        self.layer = layer;
    }

    /// Returns the inner reader in its current state.
    pub fn take_reader(self) -> T
        ensures { result ≡ inner_of self }
    {
        self.reader
    }
}

impl<T: ExactRead> LimitedReader<T> {
    ghost use Rattle.ip_base.specs.Limits.{left, advanced, limit_error};
    ghost use Rattle.ip_base.specs.LimitedReader.{inner_of, limits_of, IsLimitedRefusal};
    ghost use Rattle.ip_base.specs.LimitedReadError.{io_of};

    /// Fills the buffer with the next bytes. Returns `Len` if the limit doesn't leave that many; then nothing has
    /// changed. Returns `Io` if the inner reader fails; then `read_len` is unchanged.
    #[inline(always)]
    pub fn read_exact(&mut self, buf: &mut [u8]) -> Result<(), LimitedReadError>
        requires { (limits_of self.old).read_len + length buf.old < 2 ^ 64 }
        ensures takes { OnOk result (Consumes (T.bytes_left (inner_of self.old))
            (T.bytes_left (inner_of self.new)) buf.new) }
        ensures within { OnOk result (length buf.old ≤ left (limits_of self.old)) }
        ensures limits { OnOk result
            (limits_of self.new ≡ advanced (length buf.old) (limits_of self.old)) }
        ensures kept { OnOk result
            (T.has_failed (inner_of self.new) ≡ T.has_failed (inner_of self.old)) }
        ensures steady { T.is_steady (inner_of self.new) ≡ T.is_steady (inner_of self.old) }
        ensures refuses { IfErr result (IsLimitedRefusal T.bytes_left T.is_steady T.has_failed
            self.old self.new (length buf.old)) }
        ensures own { IfErr result (λ e. IfSome (io_of e) (T.has_given (inner_of self.new))) }
        ensures stays { OnErr result (limits_of self.new ≡ limits_of self.old) }
    {
        if self.max_len - self.read_len < buf.len() {
            return Err(LimitedReadError::Len(self.past_limit(buf.len())));
        }
        match self.reader.read_exact(buf) {
            Ok(()) => {
                self.read_len += buf.len();
                Ok(())
            }
            Err(e) => Err(LimitedReadError::Io(e)),
        }
    }

    /// Returns the error of a request for `count` bytes that exceeds the limit. It is not inlined, for the reason
    /// given at `too_few`.
    #[cold]
    #[inline(never)]
    fn past_limit(&self, count: usize) -> LenError
        requires { (limits_of self.now).read_len + count < 2 ^ 64 }
        ensures { result ≡ limit_error count (limits_of self.now) }
    {
        LenError {
            required_len: self.read_len + count,
            len: self.max_len,
            len_source: self.len_source,
            layer: self.layer,
            layer_start_offset: self.layer_offset,
        }
    }
}
