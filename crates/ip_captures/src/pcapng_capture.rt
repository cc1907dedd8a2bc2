//! A reader of pcapng captures.
ghost use Rattle.std.specs.Prelude.{◌≤◌, length};

use crate::block_reader::BlockReader;
use crate::{ByteOrder, Interface, Next};

/// A reader of a pcapng capture (draft-ietf-opsawg-pcapng), with memory of the caller's for the interfaces of a section.
#[derive(Debug, Drop)]
pub struct PcapngCapture<'m> {
    reader: BlockReader,
    interfaces: &'m mut [Interface],
    pub ghost within: { reader.count ≤ length interfaces.now },
}

impl<'m> PcapngCapture<'m> {
    ghost use Rattle.std.specs.Prelude.{◌≡◌, []};
    ghost use Rattle.ip_captures.specs.PcapngNext.{IsNextBlock, offset_next, section_next};
    ghost use Rattle.ip_captures.specs.PcapngCapture.{section_of, room_of, limit_of, offset_of};

    /// Returns a reader before its first block: a section header. Blocks may have at most `limit` bytes, and a section as many
    /// interfaces as there are places.
    pub fn new(limit: u32, interfaces: &'m mut [Interface]) -> PcapngCapture<'m>
        ensures interfaces { (section_of result).interfaces ≡ [] }
        ensures limits { (limit_of result ≡ limit) × (offset_of result ≡ 0) }
        ensures room { room_of result ≡ length interfaces.old }
    {
        PcapngCapture {
            reader: BlockReader {
                byte_order: ByteOrder::LittleEndian,
                count: 0,
                limit,
                offset: 0,
            },
            interfaces,
        }
    }

    /// Returns the offset of the next block, in bytes from the start of the capture.
    pub fn offset(&self) -> u64
        ensures { result ≡ offset_of self.now }
    {
        self.reader.offset
    }

    /// Returns what comes next, and moves past it if it is a frame or another block. `bytes` are those from the next block
    /// on: as many as there are, or as the caller has read so far. More bytes change no frame, no block and no error.
    #[inline]
    pub fn next<'a>(&mut self, bytes: &'a [u8]) -> Next<'a>
        ensures next { IsNextBlock (limit_of self.old) (room_of self.old) (section_of self.old) (offset_of self.old) bytes.now result }
        ensures section { section_of self.new ≡ section_next (section_of self.old) bytes.now result }
        ensures offset { offset_of self.new ≡ offset_next (offset_of self.old) result }
        ensures kept { (limit_of self.new ≡ limit_of self.old) × (room_of self.new ≡ room_of self.old) }
    {
        self.reader.next(self.interfaces, bytes)
    }
}
