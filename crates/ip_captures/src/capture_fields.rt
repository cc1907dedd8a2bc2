//! A reader of captures in plain numbers, for C.
ghost use Rattle.std.specs.Prelude.{◌≡◌, ◌≢◌, ◌≤◌, ◌<◌, length, Some, None, [], false, IsTrue};
ghost use Rattle.ip_captures.specs.Numbers.{number_at};
ghost use Rattle.ip_captures.specs.ClassicHeader.{IsHeaderError};
ghost use Rattle.ip_captures.specs.ClassicRecord.{header_len};
ghost use Rattle.ip_captures.specs.ClassicNext.{IsNext};
ghost use Rattle.ip_captures.specs.PcapngNext.{IsNextBlock, offset_next, section_next};
ghost use Rattle.ip_captures.specs.ErrorFields.{error_fields, no_error};
ghost use Rattle.ip_captures.specs.RecordFields.{IsRecordOf};
ghost use Rattle.ip_captures.specs.CaptureFields.{variant_in, order_in, order_code, header_in, classic_in, section_in, captured_at, IsBegunIn, IsNextOf, IsKept, section_then};
ghost use Rattle.ip_captures.specs.declared.err.CaptureError.{CaptureError as IsError};
ghost use Rattle.ip_captures.specs.declared.next.Next.{Next as IsNextThing};

use crate::block::order_of;
use crate::block_reader::BlockReader;
use crate::{
    BlockKind, ByteOrder, CaptureErrorFields, ClassicCapture, ClassicHeader, Interface,
    RecordFields, Variant,
};

/// A reader of a capture file of either form, as `Capture`, in plain numbers, all of which may have any value.
#[repr(C)]
#[derive(Debug, Drop)]
pub struct CaptureFields<'m> {
    /// Memory for the interfaces of a section of pcapng.
    pub interfaces: &'m mut [Interface],
    /// How many interfaces the section describes so far.
    pub interface_count: usize,
    /// The offset of the next record or block, in bytes from the start of the capture.
    pub offset: u64,
    /// The greatest number of captured bytes that a record may state, and the greatest length of a block.
    pub limit: u32,
    /// The length to which the packets of a classic file were truncated, in bytes.
    pub snap_len: u32,
    /// The link type of a classic file, such as 1 for Ethernet.
    pub link_type: u16,
    /// Classic with times in microseconds 1, classic with times in nanoseconds 2, the modified format 3, pcapng any other.
    pub form: u8,
    /// The least significant byte of a number first 0, last any other.
    pub byte_order: u8,
}

/// Returns where the captured bytes begin in the block that begins `bytes`, if it has a frame.
#[inline(always)]
fn captured_at(order: ByteOrder, bytes: &[u8]) -> usize
    ensures { 12 ≤ length bytes.now → result ≡ captured_at order bytes.now }
{
    if bytes.len() < 12 {
        return 0;
    }
    let order = order_of(order, bytes).unwrap_or(order);
    match BlockKind::of_type(order.u32_at(bytes, 0)) {
        BlockKind::SimplePacket => 12,
        _ => 28,
    }
}

impl ByteOrder {
    /// Returns the byte order with a code, for C: the least significant byte first 0, last any other.
    #[inline(always)]
    pub fn with_code(code: u8) -> ByteOrder
        ensures { result ≡ order_in code }
    {
        if code == 0 {
            ByteOrder::LittleEndian
        } else {
            ByteOrder::BigEndian
        }
    }

    /// Returns the code of a byte order.
    #[inline(always)]
    fn code(self) -> u8
        ensures value { result ≡ order_code self }
        ensures again { order_in result ≡ self }
    {
        match self {
            ByteOrder::LittleEndian => 0,
            ByteOrder::BigEndian => 1,
        }
    }
}

impl Variant {
    /// Returns the code of a variant.
    fn code(self) -> u8
        ensures { variant_in result ≡ Some self }
    {
        match self {
            Variant::Microseconds => 1,
            Variant::Nanoseconds => 2,
            Variant::Modified => 3,
        }
    }
}

impl CaptureFields<'_> {
    /// Begins to read the capture that begins with `bytes`; `offset` says where its first record or block is. The caller sets the
    /// memory for interfaces and the limit before. Returns false if there are fewer than 24 bytes, and, with the error, if they
    /// begin no capture.
    pub fn begin(&mut self, bytes: &[u8], error: &mut CaptureErrorFields) -> bool
        ensures begun { IsTrue result → (24 ≤ length bytes.now) × IsBegunIn bytes.now self.new }
        ensures short { length bytes.now < 24 → result ≡ false }
        ensures no_error { IsTrue result → error.new ≡ no_error }
        ensures short_error { length bytes.now < 24 → error.new ≡ no_error }
        ensures error { result ≡ false → 24 ≤ length bytes.now → (e : IsError) × IsHeaderError bytes.now e
            × (error.new ≡ error_fields e) × (number_at ByteOrder.LittleEndian bytes.now 0 ≢ 0x0a0d_0d0a) }
        ensures kept { (self.new.limit ≡ self.old.limit) × (length self.new.interfaces.now ≡ length self.old.interfaces.now) }
        ensures same { result ≡ false → self.new ≡ self.old }
    {
        *error = CaptureErrorFields::none();
        if bytes.len() < ClassicHeader::LEN {
            return false;
        }
        if ByteOrder::LittleEndian.u32_at(bytes, 0) == 0x0a0d_0d0a {
            self.begin_pcapng();
            return true;
        }
        match ClassicHeader::parse(bytes) {
            Ok(Some(header)) => {
                self.begin_classic(header);
                true
            }
            Ok(None) => false,
            Err(wrong) => {
                *error = CaptureErrorFields::of(wrong);
                false
            }
        }
    }

    /// Begins to read a pcapng file.
    fn begin_pcapng(&mut self)
        ensures form { variant_in self.new.form ≡ None }
        ensures interfaces { (section_in self.new).interfaces ≡ [] }
        ensures offset { self.new.offset ≡ 0 }
        ensures kept { (self.new.limit ≡ self.old.limit) × (length self.new.interfaces.now ≡ length self.old.interfaces.now) }
    {
        self.form = 0;
        self.byte_order = 0;
        self.interface_count = 0;
        self.offset = 0;
        self.snap_len = 0;
        self.link_type = 0;
    }

    /// Begins to read a classic file.
    fn begin_classic(&mut self, header: ClassicHeader)
        ensures form { variant_in self.new.form ≡ Some header.variant }
        ensures header { header_in header.variant self.new ≡ header }
        ensures offset { self.new.offset ≡ 24 }
        ensures kept { (self.new.limit ≡ self.old.limit) × (length self.new.interfaces.now ≡ length self.old.interfaces.now) }
    {
        self.form = header.variant.code();
        self.byte_order = header.byte_order.code();
        self.interface_count = 0;
        self.offset = 24;
        self.snap_len = header.snap_len;
        self.link_type = header.link_type;
    }

    /// Returns what the records of a classic file are like, or `None` for pcapng.
    #[inline(always)]
    fn variant(&self) -> Option<Variant>
        ensures { result ≡ variant_in self.now.form }
    {
        match self.form {
            1 => Some(Variant::Microseconds),
            2 => Some(Variant::Nanoseconds),
            3 => Some(Variant::Modified),
            _ => None,
        }
    }

    /// Stores what comes next in `fields`, and moves past it if it is a frame or another block, as `Capture::next` does. `bytes`
    /// are those from the next record or block on: as many as there are, or as the caller has read so far.
    #[inline(always)]
    pub fn next(&mut self, bytes: &[u8], fields: &mut RecordFields)
        ensures next { (x : IsNextThing) × IsNextOf self.old bytes.now x × IsRecordOf bytes.now x fields.new
            × (section_in self.new ≡ section_then self.old bytes.now x) × (self.new.offset ≡ offset_next self.old.offset x) }
        ensures kept { IsKept self.old self.new }
    {
        match self.variant() {
            Some(variant) => self.next_record(variant, bytes, fields),
            None => self.next_block(bytes, fields),
        }
    }

    /// Stores what comes next in a classic file.
    #[inline(always)]
    fn next_record(&mut self, variant: Variant, bytes: &[u8], fields: &mut RecordFields)
        ensures next { (x : IsNextThing) × IsNext (classic_in variant self.old) bytes.now x × IsRecordOf bytes.now x fields.new
            × (section_in self.new ≡ section_in self.old) × (self.new.offset ≡ offset_next self.old.offset x) }
        ensures kept { IsKept self.old self.new }
    {
        let header = ClassicHeader {
            byte_order: ByteOrder::with_code(self.byte_order),
            variant,
            snap_len: self.snap_len,
            link_type: self.link_type,
        };
        let mut capture = ClassicCapture {
            header,
            limit: self.limit,
            offset: self.offset,
        };
        let next = capture.next(bytes);
        self.offset = capture.offset;
        *fields = RecordFields::of(variant.record_header_len(), &next);
    }

    /// Stores what comes next in a pcapng file.
    #[inline(always)]
    fn next_block(&mut self, bytes: &[u8], fields: &mut RecordFields)
        ensures next { (x : IsNextThing) × IsNextBlock self.old.limit (length self.old.interfaces.now) (section_in self.old) self.old.offset bytes.now x
            × IsRecordOf bytes.now x fields.new × (section_in self.new ≡ section_next (section_in self.old) bytes.now x)
            × (self.new.offset ≡ offset_next self.old.offset x) }
        ensures kept { IsKept self.old self.new }
    {
        let byte_order = ByteOrder::with_code(self.byte_order);
        let offset = captured_at(byte_order, bytes);
        let mut reader = BlockReader {
            byte_order,
            count: self.interface_count.min(self.interfaces.len()),
            limit: self.limit,
            offset: self.offset,
        };
        let next = reader.next(self.interfaces, bytes);
        self.byte_order = reader.byte_order.code();
        self.interface_count = reader.count;
        self.offset = reader.offset;
        *fields = RecordFields::of(offset, &next);
    }
}
