//! Blocks of pcapng files, written.
ghost use Rattle.std.specs.Prelude.{◌≡◌, ◌≢◌, ◌≤◌, ◌<◌, ◌+◌, length, take, drop, IfOk, IfErr};
ghost use Rattle.ip_captures.specs.CaptureFields.{order_in};
ghost use Rattle.ip_captures.specs.BlockWriter.{IsSectionHeader, IsDescription, IsOptionWith, IsPacketBlock, IsWriteError, IsOptionError, IsDescriptionError, packet_block_len, description_len, write_code, len_needed};
ghost use Rattle.ip_captures.specs.Options.{padded};
ghost use Rattle.ip_captures.specs.declared.err.WriteError.{WriteError as IsError};

use crate::bytes::Bytes;
use ip_captures::{ByteOrder, EnhancedPacket, Interface, WriteError, write_option};

/// Stores a length, or the one that is needed, and returns the code of the error, or 0.
#[inline(always)]
fn store(written: Result<usize, WriteError>, len: &mut usize) -> u8
    ensures written { IfOk written (λ n. (result ≡ 0) × (len.new ≡ n)) }
    ensures error { IfErr written (λ e. (result ≢ 0) × (result ≡ write_code e) × (len.new ≡ len_needed e)) }
{
    match written {
        Ok(bytes) => {
            *len = bytes;
            0
        }
        Err(error) => {
            *len = error.needed();
            error.code()
        }
    }
}

/// Calls `ByteOrder::section_header`, and copies it to `out` if there is room.
#[unsafe(no_mangle)]
pub extern "C" fn wolfaren_write_section(byte_order: u8, out: &mut [u8], len: &mut usize) -> u8
    ensures len { len.new ≡ 28 }
    ensures written { result ≡ 0 → (28 ≤ length out.old) × IsSectionHeader (order_in byte_order) (take 28 out.new)
        × (drop 28 out.new ≡ drop 28 out.old) }
    ensures no_room { result ≢ 0 → (result ≡ 1) × (length out.old < 28) × (out.new ≡ out.old) }
{
    let header = ByteOrder::with_code(byte_order).section_header();
    *len = header.len();
    if out.len() < header.len() {
        return 1;
    }
    out[..28].copy_from_slice(&header);
    0
}

/// Calls `Interface::write`.
#[unsafe(no_mangle)]
pub extern "C" fn wolfaren_write_interface(
    byte_order: u8,
    interface: &Interface,
    out: &mut [u8],
    len: &mut usize,
) -> u8
    ensures len { result ≡ 0 → (len.new ≡ description_len interface.now) × (len.new ≤ length out.old) }
    ensures written { result ≡ 0 → IsDescription (order_in byte_order) interface.now (take len.new out.new) }
    ensures rest { result ≡ 0 → drop len.new out.new ≡ drop len.new out.old }
    ensures error { result ≢ 0 → (e : IsError) × IsDescriptionError interface.now (length out.old) e
        × (result ≡ write_code e) × (len.new ≡ len_needed e) }
    ensures stays { result ≢ 0 → out.new ≡ out.old }
{
    store(interface.write(ByteOrder::with_code(byte_order), out), len)
}

/// Calls `write_option`.
#[unsafe(no_mangle)]
pub extern "C" fn wolfaren_write_option(
    byte_order: u8,
    code: u16,
    value: Bytes<'_>,
    out: &mut [u8],
    len: &mut usize,
) -> u8
    ensures len { result ≡ 0 → (len.new ≡ 4 + padded (length value.entry.slice.now)) × (len.new ≤ length out.old) }
    ensures written { result ≡ 0 → IsOptionWith (order_in byte_order) code value.entry.slice.now (take len.new out.new) }
    ensures rest { result ≡ 0 → drop len.new out.new ≡ drop len.new out.old }
    ensures error { result ≢ 0 → (e : IsError) × IsOptionError (length value.entry.slice.now) (length out.old) e
        × (result ≡ write_code e) × (len.new ≡ len_needed e) }
    ensures stays { result ≢ 0 → out.new ≡ out.old }
{
    store(
        write_option(ByteOrder::with_code(byte_order), code, value.slice(), out),
        len,
    )
}

/// Calls `EnhancedPacket::write`.
#[unsafe(no_mangle)]
pub extern "C" fn wolfaren_write_enhanced_packet(
    byte_order: u8,
    packet: &EnhancedPacket<'_>,
    out: &mut [u8],
    len: &mut usize,
) -> u8
    ensures len { result ≡ 0 → (len.new ≡ packet_block_len packet.now) × (len.new ≤ length out.old) }
    ensures written { result ≡ 0 → IsPacketBlock (order_in byte_order) packet.now (take len.new out.new) }
    ensures rest { result ≡ 0 → drop len.new out.new ≡ drop len.new out.old }
    ensures error { result ≢ 0 → (e : IsError) × IsWriteError (order_in byte_order) (packet_block_len packet.now) packet.now.options.now (length out.old) e
        × (result ≡ write_code e) × (len.new ≡ len_needed e) }
    ensures stays { result ≢ 0 → out.new ≡ out.old }
{
    store(packet.write(ByteOrder::with_code(byte_order), out), len)
}
