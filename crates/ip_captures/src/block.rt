//! The blocks of a pcapng capture: their heads and their fields.
ghost use Rattle.std.specs.Prelude.{◌≡◌, ◌≤◌, ◌%◌, ◌+◌, ◌-◌, length, Some, None, IfOk, IfErr};
ghost use Rattle.ip_captures.specs.Numbers.{number_at};
ghost use Rattle.ip_captures.specs.Block.{kind_of, order_of, block_type, total_len, least_len, head_error};

use crate::ByteOrder;
use crate::err::BlockError;

/// The kind of a block, by its type.
#[derive(Clone, Copy, Debug, PartialEq, Eq)]
pub enum BlockKind {
    /// A section header block (type 0x0A0D0D0A; draft-ietf-opsawg-pcapng, section 4.1).
    SectionHeader,
    /// An interface description block (type 1; section 4.2).
    InterfaceDescription,
    /// An obsolete packet block (type 2; appendix A).
    ObsoletePacket,
    /// A simple packet block (type 3; section 4.4).
    SimplePacket,
    /// An interface statistics block (type 5; section 4.6).
    InterfaceStatistics,
    /// An enhanced packet block (type 6; section 4.3).
    EnhancedPacket,
    /// A block of any other type.
    Other,
}

impl BlockKind {
    /// Returns the kind of a block of this type.
    #[inline]
    pub fn of_type(block_type: u32) -> BlockKind
        ensures { result ≡ kind_of block_type }
    {
        match block_type {
            0x0a0d_0d0a => BlockKind::SectionHeader,
            1 => BlockKind::InterfaceDescription,
            2 => BlockKind::ObsoletePacket,
            3 => BlockKind::SimplePacket,
            5 => BlockKind::InterfaceStatistics,
            6 => BlockKind::EnhancedPacket,
            _ => BlockKind::Other,
        }
    }

    /// Returns the length of the fields that a block of this kind has, in bytes.
    #[inline]
    fn least_len(self) -> u32
        ensures { result ≡ least_len self }
    {
        match self {
            BlockKind::SectionHeader => 28,
            BlockKind::InterfaceDescription => 20,
            BlockKind::ObsoletePacket | BlockKind::EnhancedPacket => 32,
            BlockKind::SimplePacket => 16,
            BlockKind::InterfaceStatistics => 24,
            BlockKind::Other => 12,
        }
    }
}

/// What the first 12 bytes of a block say.
#[derive(Clone, Copy)]
pub(crate) struct BlockHead {
    /// The order of its bytes.
    pub(crate) order: ByteOrder,
    /// Its type.
    pub(crate) block_type: u32,
    /// Its total length, in bytes.
    pub(crate) len: u32,
}

impl BlockHead {
    /// Parses the head of a block of a section with this byte order, which may have at most `limit` bytes.
    #[inline]
    pub(crate) fn parse(order: ByteOrder, limit: u32, bytes: &[u8]) -> Result<BlockHead, BlockError>
        requires { 12 ≤ length bytes.now }
        ensures right { IfOk result (λ h. head_error limit order bytes.now ≡ None) }
        ensures order { IfOk result (λ h. order_of order bytes.now ≡ Some h.order) }
        ensures fields { IfOk result (λ h. (h.block_type ≡ block_type h.order bytes.now) × (h.len ≡ total_len h.order bytes.now)) }
        ensures least { IfOk result (λ h. (least_len (kind_of h.block_type) ≤ h.len) × (h.len % 4 ≡ 0) × (h.len ≤ limit)) }
        ensures error { IfErr result (λ e. head_error limit order bytes.now ≡ Some e) }
    {
        let Some(order) = order_of(order, bytes) else {
            return Err(BlockError::UnknownByteOrder);
        };
        let block_type = order.u32_at(bytes, 0);
        let len = order.u32_at(bytes, 4);
        if len < BlockKind::of_type(block_type).least_len() || len % 4 != 0 {
            return Err(BlockError::Length { len });
        }
        if len > limit {
            return Err(BlockError::Long { len, limit });
        }
        Ok(BlockHead {
            order,
            block_type,
            len,
        })
    }
}

/// Returns the order of the bytes of a block: of a section header its own, of others that of the section.
#[inline]
pub(crate) fn order_of(order: ByteOrder, bytes: &[u8]) -> Option<ByteOrder>
    requires { 12 ≤ length bytes.now }
    ensures { result ≡ order_of order bytes.now }
{
    if ByteOrder::LittleEndian.u32_at(bytes, 0) != 0x0a0d_0d0a {
        Some(order)
    } else if ByteOrder::LittleEndian.u32_at(bytes, 8) == 0x1a2b_3c4d {
        Some(ByteOrder::LittleEndian)
    } else if ByteOrder::BigEndian.u32_at(bytes, 8) == 0x1a2b_3c4d {
        Some(ByteOrder::BigEndian)
    } else {
        None
    }
}
