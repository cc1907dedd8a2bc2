//! Reads the blocks of a pcapng capture one by one.
ghost use Rattle.std.specs.Prelude.{◌≡◌, ◌<◌, ◌≤◌, ◌+◌, ◌-◌, ◌%◌, ◌^◌, min, length, Some, None, IfOk, IfErr};
ghost use Rattle.ip_captures.specs.Block.{kind_of, block_type, total_len, least_len, whole_error, entered};
ghost use Rattle.ip_captures.specs.BlockGiven.{IsGiven};
ghost use Rattle.ip_captures.specs.PcapngNext.{IsNextBlock, offset_next, section_next};
ghost use Rattle.ip_captures.specs.PcapngCapture.{section_at};

use crate::block::BlockHead;
use crate::packet_block::read_block;
use crate::{BlockError, BlockKind, ByteOrder, CaptureError, Interface, Next};

/// Where a reader of a pcapng capture is. The interfaces of its section are in memory of the caller's.
#[derive(Clone, Copy, Debug)]
pub(crate) struct BlockReader {
    /// The order of the bytes of its section.
    pub(crate) byte_order: ByteOrder,
    /// How many interfaces its section describes so far.
    pub(crate) count: usize,
    /// The greatest length of a block, in bytes.
    pub(crate) limit: u32,
    /// The offset of the next block, in bytes from the start of the capture.
    pub(crate) offset: u64,
}

impl BlockReader {
    /// Moves past a block, which may begin a section or describe an interface.
    #[inline]
    fn enter(&mut self, interfaces: &mut [Interface], head: BlockHead, block: &[u8])
        requires least { least_len (kind_of head.block_type) ≤ length block.now }
        requires within { self.old.count ≤ length interfaces.old }
        requires room { kind_of head.block_type ≡ BlockKind.InterfaceDescription → self.old.count < length interfaces.old }
        ensures section { section_at self.new interfaces.new ≡ entered (section_at self.old interfaces.old) head.order (kind_of head.block_type) block.now }
        ensures offset { self.new.offset ≡ min (self.old.offset + head.len) (2 ^ 64 - 1) }
        ensures kept { (self.new.limit ≡ self.old.limit) × (length interfaces.new ≡ length interfaces.old) }
        ensures within { self.new.count ≤ length interfaces.new }
    {
        self.offset = self.offset.saturating_add(u64::from(head.len));
        match BlockKind::of_type(head.block_type) {
            BlockKind::SectionHeader => {
                self.byte_order = head.order;
                self.count = 0;
            }
            BlockKind::InterfaceDescription => {
                interfaces[self.count] = Interface::of_block(head.order, block);
                self.count += 1;
            }
            BlockKind::ObsoletePacket => {}
            BlockKind::SimplePacket => {}
            BlockKind::InterfaceStatistics => {}
            BlockKind::EnhancedPacket => {}
            BlockKind::Other => {}
        }
    }

    /// Returns what a whole block gives, or what is wrong with it.
    #[inline]
    fn read<'a>(
        &self,
        interfaces: &[Interface],
        head: BlockHead,
        block: &'a [u8],
    ) -> Result<Next<'a>, BlockError>
        requires kind { head.block_type ≡ block_type head.order block.now }
        requires len { head.len ≡ total_len head.order block.now }
        requires all { length block.now ≡ head.len }
        requires whole { head.len % 4 ≡ 0 }
        requires least { least_len (kind_of head.block_type) ≤ head.len }
        requires within { self.now.count ≤ length interfaces.now }
        ensures right { IfOk result (λ x. whole_error (length interfaces.now) (section_at self.now interfaces.now).interfaces head.order block.now ≡ None) }
        ensures given { IfOk result (IsGiven (section_at self.now interfaces.now).interfaces head.order block.now) }
        ensures error { IfErr result (λ e. whole_error (length interfaces.now) (section_at self.now interfaces.now).interfaces head.order block.now ≡ Some e) }
    {
        read_block(&interfaces[..self.count], interfaces.len(), head, block)
    }

    /// Returns an error at the next block.
    #[cold]
    fn error<'a>(&self, error: BlockError) -> Next<'a>
        ensures { result ≡ Next.Error (CaptureError.Block self.now.offset error) }
    {
        Next::Error(CaptureError::Block {
            offset: self.offset,
            error,
        })
    }

    /// Returns what comes next, and moves past it if it is a frame or another block.
    #[inline]
    pub(crate) fn next<'a>(&mut self, interfaces: &mut [Interface], bytes: &'a [u8]) -> Next<'a>
        requires { self.old.count ≤ length interfaces.old }
        ensures next { IsNextBlock self.old.limit (length interfaces.old) (section_at self.old interfaces.old) self.old.offset bytes.now result }
        ensures section { section_at self.new interfaces.new ≡ section_next (section_at self.old interfaces.old) bytes.now result }
        ensures offset { self.new.offset ≡ offset_next self.old.offset result }
        ensures kept { (self.new.limit ≡ self.old.limit) × (length interfaces.new ≡ length interfaces.old) }
        ensures within { self.new.count ≤ length interfaces.new }
    {
        if bytes.is_empty() {
            return Next::Ended;
        }
        if bytes.len() < 12 {
            return Next::Needs(12);
        }
        let head = match BlockHead::parse(self.byte_order, self.limit, bytes) {
            Ok(head) => head,
            Err(error) => return self.error(error),
        };
        let len = head.len as usize;
        if bytes.len() < len {
            return Next::Needs(len);
        }
        let block = bytes.split_at(len).0;
        let next = match self.read(interfaces, head, block) {
            Ok(next) => next,
            Err(error) => return self.error(error),
        };
        self.enter(interfaces, head, block);
        next
    }
}
