//! The blocks of pcapng files, written.
ghost use Rattle.std.specs.Prelude.{◌≡◌, ◌≢◌, ◌==◌, if◌then◌else◌, None, [], ◌∷◌, IfSome, ◌≤◌, ◌<◌, ◌+◌, ◌-◌, ◌%◌, ◌*◌, ◌/◌, ◌^◌, ◌++◌, ℕ, List, length, take, drop, Some, IfOk, IfErr, OnErr};
ghost use Rattle.ip_captures.specs.Numbers.{number_at, short_number_at, long_number_at};
ghost use Rattle.ip_captures.specs.Interface.{resolution, ticks_in, offset_in};
ghost use Rattle.ip_captures.specs.Options.{padded, option_value, options_error};
ghost use Rattle.ip_captures.specs.Block.{order_of, ticks_at};
ghost use Rattle.ip_captures.specs.BlockWriter.{IsDescription, IsDescriptionError, description_len, IsOptionWith, IsOptionError, IsSectionHeader, IsPacketBlock, IsWriteError, AreOptions, packet_block_len};

use crate::interface::ticks_per_second;
use crate::options::check_options;
use crate::{ByteOrder, Interface, WriteError};

/// Copies bytes to an offset of a buffer, and returns the offset after them.
#[inline(always)]
fn put(out: &mut [u8], offset: usize, bytes: &[u8]) -> usize
    requires { offset + length bytes.now ≤ length out.old }
    ensures end { result ≡ offset + length bytes.now }
    ensures put { take result out.new ≡ take offset out.old ++ bytes.now }
    ensures rest { (k : ℕ) → result ≤ k → drop k out.new ≡ drop k out.old }
    ensures len { length out.new ≡ length out.old }
{
    let end = offset + bytes.len();
    out[offset..end].copy_from_slice(bytes);
    end
}

/// Copies zero bytes that pad so many bytes to a multiple of 4 to an offset of a buffer, and returns the offset after them.
#[inline(always)]
fn put_padding(out: &mut [u8], offset: usize, len: usize) -> usize
    requires { offset + padded len ≤ len + length out.old }
    ensures padding { (z : List ℕ) × (padded len ≡ len + length z) × (result ≡ offset + length z)
        × (take result out.new ≡ take offset out.old ++ z) }
    ensures rest { (k : ℕ) → result ≤ k → drop k out.new ≡ drop k out.old }
    ensures len { length out.new ≡ length out.old }
{
    match len % 4 {
        0 => offset,
        1 => put(out, offset, &[0; 3]),
        2 => put(out, offset, &[0; 2]),
        _ => put(out, offset, &[0]),
    }
}

/// Copies the parts of a block to the start of a buffer, and pads the frame. Returns the length of the block, in bytes.
#[inline(always)]
fn put_parts(out: &mut [u8], head: &[u8], frame: &[u8], options: &[u8], last: &[u8]) -> usize
    requires { length head.now + padded (length frame.now) + length options.now + length last.now ≤ length out.old }
    ensures parts { (z : List ℕ) × (padded (length frame.now) ≡ length frame.now + length z)
        × (take result out.new ≡ (((head.now ++ frame.now) ++ z) ++ options.now) ++ last.now) }
    ensures rest { drop result out.new ≡ drop result out.old }
    ensures len { result ≡ length head.now + padded (length frame.now) + length options.now + length last.now }
{
    let at = put(out, 0, head);
    let at = put(out, at, frame);
    let at = put_padding(out, at, frame.len());
    let at = put(out, at, options);
    put(out, at, last)
}

/// Writes an option with this code and value to the start of `out`, and returns its length in bytes, with its padding. Returns
/// an error, and leaves `out` as it is, if the value has more than 65,535 bytes, or if `out` is too short
/// (draft-ietf-opsawg-pcapng, section 3.5).
pub fn write_option(
    order: ByteOrder,
    code: u16,
    value: &[u8],
    out: &mut [u8],
) -> Result<usize, WriteError>
    ensures len { IfOk result (λ n. (n ≡ 4 + padded (length value.now)) × (n ≤ length out.old)) }
    ensures option { IfOk result (λ n. IsOptionWith order code value.now (take n out.new)) }
    ensures rest { IfOk result (λ n. drop n out.new ≡ drop n out.old) }
    ensures error { IfErr result (IsOptionError (length value.now) (length out.old)) }
    ensures stays { OnErr result (out.new ≡ out.old) }
{
    let Ok(value_len) = u16::try_from(value.len()) else {
        return Err(WriteError::TooLong);
    };
    let needed = 4 + (value.len() + 3) / 4 * 4;
    if out.len() < needed {
        return Err(WriteError::NoRoom { needed });
    }
    let head = option_head(order, code, value_len);
    Ok(put_parts(out, &head, value, &[], &[]))
}

/// Returns the code of an option and the length of its value.
#[inline(always)]
fn option_head(order: ByteOrder, code: u16, value_len: u16) -> [u8; 4]
    ensures code { short_number_at order result 0 ≡ code }
    ensures len { short_number_at order result 2 ≡ value_len }
{
    let a = order.short_bytes_of(code);
    let b = order.short_bytes_of(value_len);
    [a[0], a[1], b[0], b[1]]
}

impl ByteOrder {
    /// Returns the 8 bytes of a number.
    fn long_bytes_of(self, number: u64) -> [u8; 8]
        ensures { long_number_at self result 0 ≡ number }
    {
        match self {
            ByteOrder::LittleEndian => number.to_le_bytes(),
            ByteOrder::BigEndian => number.to_be_bytes(),
        }
    }

    /// Returns the 28 bytes of a section header of version 1.0, without options, whose section may have any length
    /// (draft-ietf-opsawg-pcapng, section 4.1).
    pub fn section_header(self) -> [u8; 28]
        ensures { IsSectionHeader self result }
    {
        match self {
            ByteOrder::LittleEndian => [
                0x0a, 0x0d, 0x0d, 0x0a, 28, 0, 0, 0, 0x4d, 0x3c, 0x2b, 0x1a, 1, 0, 0, 0, 0xff,
                0xff, 0xff, 0xff, 0xff, 0xff, 0xff, 0xff, 28, 0, 0, 0,
            ],
            ByteOrder::BigEndian => [
                0x0a, 0x0d, 0x0d, 0x0a, 0, 0, 0, 28, 0x1a, 0x2b, 0x3c, 0x4d, 0, 1, 0, 0, 0xff,
                0xff, 0xff, 0xff, 0xff, 0xff, 0xff, 0xff, 0, 0, 0, 28,
            ],
        }
    }
}

/// Returns the first value of if_tsresol that stands for so many ticks of a second.
fn resolution_code(ticks: u64) -> Option<u8>
    ensures found { IfSome result (λ b. resolution b ≡ ticks) }
    ensures none { result ≡ None → (b : ℕ) → b < 256 → resolution b ≢ ticks }
{
    'codes: for code in 0..256u16 {
        if ticks_per_second(code as u8) == ticks {
            return Some(code as u8);
        }
    }
    None
}

/// Returns the option if_tsresol with this value.
fn resolution_option(order: ByteOrder, code: u8) -> [u8; 8]
    ensures { IsOptionWith order 9 (code ∷ []) result }
{
    let head = option_head(order, 9, 1);
    [head[0], head[1], head[2], head[3], code, 0, 0, 0]
}

impl Interface {
    /// Writes the option that states the ticks of a second, unless they are 10^6, to the start of a buffer, and returns its
    /// length in bytes.
    fn put_resolution(&self, order: ByteOrder, out: &mut [u8]) -> Result<usize, WriteError>
        requires { length out.old ≡ 24 }
        ensures len { IfOk result (λ n. n ≡ (if self.now.ticks_per_second == 1000000 then 0 else 8)) }
        ensures right { IfOk result (λ n. (t : List ℕ) → options_error order (take n out.new ++ t) ≡ options_error order t) }
        ensures ticks { IfOk result (λ n. (t : List ℕ) → option_value order 9 t ≡ None → ticks_in order (take n out.new ++ t) ≡ self.now.ticks_per_second) }
        ensures offset { IfOk result (λ n. (t : List ℕ) → option_value order 14 (take n out.new ++ t) ≡ option_value order 14 t) }
        ensures error { IfErr result (λ e. (room : ℕ) → IsDescriptionError self.now room e) }
        ensures size { length out.new ≡ 24 }
    {
        if self.ticks_per_second == 1_000_000 {
            return Ok(0);
        }
        match resolution_code(self.ticks_per_second) {
            Some(code) => Ok(put(out, 0, &resolution_option(order, code))),
            None => Err(WriteError::Resolution {
                ticks_per_second: self.ticks_per_second,
            }),
        }
    }

    /// Writes the option that states the seconds to add, unless they are 0, to an offset of a buffer, and returns the offset after
    /// it.
    fn put_offset(&self, order: ByteOrder, out: &mut [u8], at: usize) -> usize
        requires room { at + 12 ≤ length out.old }
        ensures put { (z : List ℕ) × (take result out.new ≡ take at out.old ++ z) × (length z ≡ (if self.now.offset == 0 then 0 else 12))
            × (result ≡ at + length z) × ((t : List ℕ) → options_error order (z ++ t) ≡ options_error order t)
            × ((t : List ℕ) → option_value order 9 (z ++ t) ≡ option_value order 9 t)
            × ((t : List ℕ) → option_value order 14 t ≡ None → offset_in order (z ++ t) ≡ self.now.offset) }
        ensures size { length out.new ≡ length out.old }
    {
        if self.offset == 0 {
            return at;
        }
        let at = put(out, at, &option_head(order, 14, 8));
        put(out, at, &order.long_bytes_of(self.offset))
    }

    /// Writes the options of the description to a buffer, and returns their length in bytes.
    fn put_options(&self, order: ByteOrder, out: &mut [u8]) -> Result<usize, WriteError>
        requires { length out.old ≡ 24 }
        ensures len { IfOk result (λ n. (20 + n ≡ description_len self.now) × (n ≤ 24)) }
        ensures options { IfOk result (λ n. AreOptions order (take n out.new)) }
        ensures ticks { IfOk result (λ n. ticks_in order (take n out.new) ≡ self.now.ticks_per_second) }
        ensures offset { IfOk result (λ n. offset_in order (take n out.new) ≡ self.now.offset) }
        ensures error { IfErr result (λ e. (room : ℕ) → IsDescriptionError self.now room e) }
        ensures size { length out.new ≡ 24 }
    {
        let at = match self.put_resolution(order, out) {
            Ok(at) => at,
            Err(error) => return Err(error),
        };
        let at = self.put_offset(order, out, at);
        Ok(put_end(out, at))
    }

    /// Returns what precedes the options in a block of so many bytes.
    #[inline(always)]
    fn head(&self, order: ByteOrder, len: u32) -> [u8; 16]
        ensures order { (o : ByteOrder) → order_of o result ≡ Some o }
        ensures kind { number_at order result 0 ≡ 1 }
        ensures len { number_at order result 4 ≡ len }
        ensures link_type { short_number_at order result 8 ≡ self.now.link_type }
        ensures snap_len { number_at order result 12 ≡ self.now.snap_len }
    {
        let kind = match order {
            ByteOrder::LittleEndian => [1, 0, 0, 0],
            ByteOrder::BigEndian => [0, 0, 0, 1],
        };
        let a = order.bytes_of(len);
        let b = order.short_bytes_of(self.link_type);
        let c = order.bytes_of(self.snap_len);
        [
            kind[0], kind[1], kind[2], kind[3], a[0], a[1], a[2], a[3], b[0], b[1], 0, 0, c[0],
            c[1], c[2], c[3],
        ]
    }

    /// Writes the interface's description to the start of `out`, in a section of this byte order, and returns its length in bytes:
    /// 20, and up to 24 for options. Ticks of 10^6 and an offset of 0 are left out. Returns an error, and leaves `out`
    /// as it is, if the ticks of a second are no power of 10 or 2, or if `out` is too short
    /// (draft-ietf-opsawg-pcapng, section 4.2).
    pub fn write(&self, order: ByteOrder, out: &mut [u8]) -> Result<usize, WriteError>
        ensures len { IfOk result (λ n. (n ≡ description_len self.now) × (n ≤ length out.old)) }
        ensures described { IfOk result (λ n. IsDescription order self.now (take n out.new)) }
        ensures rest { IfOk result (λ n. drop n out.new ≡ drop n out.old) }
        ensures error { IfErr result (IsDescriptionError self.now (length out.old)) }
        ensures stays { OnErr result (out.new ≡ out.old) }
    {
        let mut options = [0; 24];
        let options_len = match self.put_options(order, &mut options) {
            Ok(len) => len,
            Err(error) => return Err(error),
        };
        let needed = 20 + options_len;
        if out.len() < needed {
            return Err(WriteError::NoRoom { needed });
        }
        let head = self.head(order, needed as u32);
        let last = order.bytes_of(needed as u32);
        Ok(put_parts(out, &head, &[], &options[..options_len], &last))
    }
}

/// Ends options of so many bytes, if there are any, and returns the offset after them.
fn put_end(out: &mut [u8], at: usize) -> usize
    requires { at + 4 ≤ length out.old }
    ensures put { (z : List ℕ) × (take result out.new ≡ take at out.old ++ z) × (length z ≡ (if at == 0 then 0 else 4))
        × (result ≡ at + length z) × ((o : _) → options_error o z ≡ None) × ((o : _) (code : ℕ) → option_value o code z ≡ None) }
    ensures size { length out.new ≡ length out.old }
{
    if at == 0 {
        return 0;
    }
    put(out, at, &[0; 4])
}

/// Returns the high and the low 32 bits of a number.
#[inline(always)]
fn halves(number: u64) -> (u32, u32)
    ensures { result.0 * 2 ^ 32 + result.1 ≡ number }
{
    (
        (number / 4_294_967_296) as u32,
        (number % 4_294_967_296) as u32,
    )
}

/// A packet to be written in an enhanced packet block (draft-ietf-opsawg-pcapng, section 4.3).
#[repr(C)]
#[derive(Clone, Copy, Debug, PartialEq, Eq)]
pub struct EnhancedPacket<'a> {
    /// The captured bytes.
    pub captured: &'a [u8],
    /// The options, padded, and with their end if they have one; empty for none.
    pub options: &'a [u8],
    /// The time of capture in ticks of the interface's clock.
    pub ticks: u64,
    /// The length of the packet when it was captured, in bytes.
    pub original_len: u32,
    /// The number of the interface in the section, which has to be described before the packet.
    pub interface: u32,
}

impl EnhancedPacket<'_> {
    /// Returns the length of the block, in bytes.
    #[inline(always)]
    fn block_len(&self, order: ByteOrder) -> Result<u32, WriteError>
        ensures len { IfOk result (λ n. n ≡ packet_block_len self.now) }
        ensures options { IfOk result (λ n. AreOptions order self.now.options.now) }
        ensures error { IfErr result (λ e. (room : ℕ) → IsWriteError order (packet_block_len self.now) self.now.options.now room e) }
    {
        if self.options.len() % 4 != 0 || check_options(order, self.options).is_err() {
            return Err(WriteError::Options);
        }
        let (Ok(captured_len), Ok(options_len)) = (
            u32::try_from(self.captured.len()),
            u32::try_from(self.options.len()),
        ) else {
            return Err(WriteError::TooLong);
        };
        let len = 32 + (u64::from(captured_len) + 3) / 4 * 4 + u64::from(options_len);
        match u32::try_from(len) {
            Ok(len) => Ok(len),
            Err(_) => Err(WriteError::TooLong),
        }
    }

    /// Returns what precedes the captured bytes in a block of so many bytes.
    #[inline(always)]
    fn head(&self, order: ByteOrder, len: u32) -> [u8; 28]
        requires { length self.now.captured.now < 2 ^ 32 }
        ensures order { (o : ByteOrder) → order_of o result ≡ Some o }
        ensures kind { number_at order result 0 ≡ 6 }
        ensures len { number_at order result 4 ≡ len }
        ensures interface { number_at order result 8 ≡ self.now.interface }
        ensures ticks { ticks_at order result 12 ≡ self.now.ticks }
        ensures captured { number_at order result 20 ≡ length self.now.captured.now }
        ensures original { number_at order result 24 ≡ self.now.original_len }
    {
        let kind = match order {
            ByteOrder::LittleEndian => [6, 0, 0, 0],
            ByteOrder::BigEndian => [0, 0, 0, 6],
        };
        let a = order.bytes_of(len);
        let b = order.bytes_of(self.interface);
        let (high, low) = halves(self.ticks);
        let c = order.bytes_of(high);
        let d = order.bytes_of(low);
        let e = order.bytes_of(self.captured.len() as u32);
        let f = order.bytes_of(self.original_len);
        [
            kind[0], kind[1], kind[2], kind[3], a[0], a[1], a[2], a[3], b[0], b[1], b[2], b[3],
            c[0], c[1], c[2], c[3], d[0], d[1], d[2], d[3], e[0], e[1], e[2], e[3], f[0], f[1],
            f[2], f[3],
        ]
    }

    /// Writes the packet's block to the start of `out`, in a section of this byte order, and returns its length in bytes. Returns
    /// an error, and leaves `out` as it is, if the options aren't whole, if 32 bits don't hold the length, or if `out` is
    /// too short (draft-ietf-opsawg-pcapng, sections 3.1, 3.5 and 4.3).
    pub fn write(&self, order: ByteOrder, out: &mut [u8]) -> Result<usize, WriteError>
        ensures len { IfOk result (λ n. (n ≡ packet_block_len self.now) × (n ≤ length out.old)) }
        ensures block { IfOk result (λ n. IsPacketBlock order self.now (take n out.new)) }
        ensures rest { IfOk result (λ n. drop n out.new ≡ drop n out.old) }
        ensures error { IfErr result (IsWriteError order (packet_block_len self.now) self.now.options.now (length out.old)) }
        ensures stays { OnErr result (out.new ≡ out.old) }
    {
        let len = match self.block_len(order) {
            Ok(len) => len,
            Err(error) => return Err(error),
        };
        if out.len() < len as usize {
            return Err(WriteError::NoRoom {
                needed: len as usize,
            });
        }
        let head = self.head(order, len);
        let last = order.bytes_of(len);
        Ok(put_parts(out, &head, self.captured, self.options, &last))
    }
}
