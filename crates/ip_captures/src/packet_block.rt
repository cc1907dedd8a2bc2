//! The fields of the blocks of a pcapng capture.
ghost use Rattle.std.specs.Prelude.{◌≡◌, ◌≤◌, ◌<◌, ◌+◌, ◌-◌, ◌%◌, [], length, slice_range, slice_get, Some, None, IfOk, IfErr};
ghost use Rattle.std.specs.Option.{option_map_or, option_or};
ghost use Rattle.ip_captures.specs.Numbers.{number_at};
ghost use Rattle.ip_captures.specs.Frame.{contents};
ghost use Rattle.ip_captures.specs.Block.{kind_of, block_type, total_len, least_len, whole_error, fields_error, timed_packet_error, simple_packet_error, packet_in, simple_len, ticks_at};
ghost use Rattle.ip_captures.specs.BlockGiven.{IsGiven};

use crate::block::BlockHead;
use crate::options::check_options;
use crate::{Block, BlockError, BlockKind, ByteOrder, Frame, Interface, Next};

/// Returns the interface with a number, or that it isn't described.
#[inline]
fn interface_at(interfaces: &[Interface], interface: u32) -> Result<&Interface, BlockError>
    ensures found { IfOk result (λ i. slice_get interfaces.now interface ≡ Some i.now) }
    ensures within { IfOk result (λ i. interface < length interfaces.now) }
    ensures none { IfErr result (λ e. (length interfaces.now ≤ interface) × (e ≡ BlockError.UnknownInterface interface)) }
{
    match interfaces.get(interface as usize) {
        Some(described) => Ok(described),
        None => Err(BlockError::UnknownInterface { interface }),
    }
}

/// Returns the frame of an enhanced or obsolete packet block of an interface.
#[inline]
fn packet<'a>(
    interfaces: &[Interface],
    order: ByteOrder,
    block: &'a [u8],
    interface: u32,
) -> Result<Frame<'a>, BlockError>
    requires least { 32 ≤ length block.now }
    requires whole { length block.now % 4 ≡ 0 }
    ensures right { IfOk result (λ f. timed_packet_error interfaces.now order interface block.now ≡ None) }
    ensures frame { IfOk result (λ f. contents f ≡ packet_in interfaces.now block.now interface (Some (ticks_at order block.now 12))
        (number_at order block.now 24) (slice_range block.now 28 (28 + number_at order block.now 20))) }
    ensures error { IfErr result (λ e. timed_packet_error interfaces.now order interface block.now ≡ Some e) }
{
    let described = interface_at(interfaces, interface)?;
    let captured_len = order.u32_at(block, 20);
    let left = block.len() - 32;
    if captured_len as usize > left {
        return Err(BlockError::LongPacket { captured_len, left });
    }
    let options_at = 28 + (captured_len as usize + 3) / 4 * 4;
    check_options(order, &block[options_at..block.len() - 4])?;
    let ticks = u64::from(order.u32_at(block, 12)) * 4_294_967_296
        + u64::from(order.u32_at(block, 16));
    Ok(Frame {
        captured: &block[28..28 + captured_len as usize],
        original_len: order.u32_at(block, 24),
        time: described.time_of(ticks),
        interface,
        link_type: described.link_type,
        record_len: block.len(),
    })
}

impl Interface {
    /// Returns the captured length of a packet of which only the original length is known.
    #[inline]
    fn simple_len(&self, original_len: u32) -> u32
        ensures { result ≡ simple_len self.now original_len }
    {
        if self.snap_len == 0 {
            original_len
        } else {
            original_len.min(self.snap_len)
        }
    }
}

/// Returns the frame of a simple packet block.
#[inline]
fn simple_packet<'a>(
    interfaces: &[Interface],
    order: ByteOrder,
    block: &'a [u8],
) -> Result<Frame<'a>, BlockError>
    requires { 16 ≤ length block.now }
    ensures right { IfOk result (λ f. simple_packet_error interfaces.now order block.now ≡ None) }
    ensures frame { IfOk result (λ f. contents f ≡ packet_in interfaces.now block.now 0 None (number_at order block.now 8)
        (slice_range block.now 12 (12 + option_map_or (λ i. simple_len i (number_at order block.now 8)) (slice_get interfaces.now 0) 0))) }
    ensures error { IfErr result (λ e. simple_packet_error interfaces.now order block.now ≡ Some e) }
{
    let described = interface_at(interfaces, 0)?;
    let original_len = order.u32_at(block, 8);
    let captured_len = described.simple_len(original_len);
    let left = block.len() - 16;
    if captured_len as usize > left {
        return Err(BlockError::LongPacket { captured_len, left });
    }
    if (captured_len as usize + 3) / 4 * 4 < left {
        return Err(BlockError::Surplus { captured_len, left });
    }
    Ok(Frame {
        captured: &block[12..12 + captured_len as usize],
        original_len,
        time: None,
        interface: 0,
        link_type: described.link_type,
        record_len: block.len(),
    })
}

/// Returns the type and the body of a block.
#[inline]
fn other(block_type: u32, block: &[u8]) -> Block<'_>
    requires { 12 ≤ length block.now }
    ensures body { result.body.now ≡ slice_range block.now 8 (length block.now - 4) }
    ensures others { (result.block_type ≡ block_type) × (result.record_len ≡ length block.now) }
{
    Block {
        block_type,
        body: &block[8..block.len() - 4],
        record_len: block.len(),
    }
}

/// Checks the version and the options of a section header block.
fn check_section(order: ByteOrder, block: &[u8]) -> Result<(), BlockError>
    requires { 28 ≤ length block.now }
    ensures right { IfOk result (λ _. fields_error 0 [] order BlockKind.SectionHeader block.now ≡ None) }
    ensures error { IfErr result (λ e. fields_error 0 [] order BlockKind.SectionHeader block.now ≡ Some e) }
{
    let major = order.u16_at(block, 12);
    let minor = order.u16_at(block, 14);
    if major != 1 || (minor != 0 && minor != 2) {
        return Err(BlockError::UnknownVersion { major, minor });
    }
    check_options(order, &block[24..block.len() - 4])
}

/// Checks that there is memory for the interface of an interface description block, and its options.
fn check_interface(
    interfaces: &[Interface],
    room: usize,
    order: ByteOrder,
    block: &[u8],
) -> Result<(), BlockError>
    requires { 20 ≤ length block.now }
    ensures right { IfOk result (λ _. fields_error room interfaces.now order BlockKind.InterfaceDescription block.now ≡ None) }
    ensures error { IfErr result (λ e. fields_error room interfaces.now order BlockKind.InterfaceDescription block.now ≡ Some e) }
{
    if interfaces.len() >= room {
        return Err(BlockError::TooManyInterfaces { room });
    }
    check_options(order, &block[16..block.len() - 4])
}

/// Returns what a whole block gives, where there is memory for `room` interfaces, or what is wrong with it.
#[inline]
pub(crate) fn read_block<'a>(
    interfaces: &[Interface],
    room: usize,
    head: BlockHead,
    block: &'a [u8],
) -> Result<Next<'a>, BlockError>
    requires kind { head.block_type ≡ block_type head.order block.now }
    requires len { head.len ≡ total_len head.order block.now }
    requires all { length block.now ≡ head.len }
    requires whole { head.len % 4 ≡ 0 }
    requires least { least_len (kind_of head.block_type) ≤ head.len }
    ensures right { IfOk result (λ x. whole_error room interfaces.now head.order block.now ≡ None) }
    ensures given { IfOk result (IsGiven interfaces.now head.order block.now) }
    ensures error { IfErr result (λ e. whole_error room interfaces.now head.order block.now ≡ Some e) }
{
    let last = head.order.u32_at(block, block.len() - 4);
    if last != head.len {
        return Err(BlockError::Lengths {
            first: head.len,
            last,
        });
    }
    match BlockKind::of_type(head.block_type) {
        BlockKind::SectionHeader => {
            check_section(head.order, block)?;
            Ok(Next::Block(other(head.block_type, block)))
        }
        BlockKind::InterfaceDescription => {
            check_interface(interfaces, room, head.order, block)?;
            Ok(Next::Block(other(head.block_type, block)))
        }
        BlockKind::ObsoletePacket => {
            let interface = u32::from(head.order.u16_at(block, 8));
            Ok(Next::Frame(packet(interfaces, head.order, block, interface)?))
        }
        BlockKind::EnhancedPacket => {
            let interface = head.order.u32_at(block, 8);
            Ok(Next::Frame(packet(interfaces, head.order, block, interface)?))
        }
        BlockKind::SimplePacket => {
            Ok(Next::Frame(simple_packet(interfaces, head.order, block)?))
        }
        BlockKind::InterfaceStatistics => {
            check_options(head.order, &block[20..block.len() - 4])?;
            Ok(Next::Block(other(head.block_type, block)))
        }
        BlockKind::Other => Ok(Next::Block(other(head.block_type, block))),
    }
}
