//! Reads and writes capture files: classic captures (draft-ietf-opsawg-pcap, and the modified format) and pcapng
//! (draft-ietf-opsawg-pcapng). The caller holds the bytes, and gives the reader as many as it has: of a file, a pipe or
//! a decompressed stream. Nothing is copied or allocated.
//!
//! | To | Call |
//! |---|---|
//! | read either form, as bytes arrive | `Capture::begin` with the first 24 bytes or more and memory for interfaces, then `next` with the bytes from `offset` on |
//! | parse the file header of a classic file | `ClassicHeader::parse` |
//! | write a classic file | `ClassicHeader::to_bytes` once, then `record_header` before each frame's bytes |
//! | write a pcapng file | `ByteOrder::section_header` once, then `Interface::write` for each interface and `EnhancedPacket::write` for each packet; `write_option` for a comment or another option |
//! | read a classic file frame by frame | `ClassicCapture::begin`, then `next`, which moves past a frame |
//! | get all frames of the bytes that are there | `ClassicCapture::frames`, an iterator; after the last frame `end` returns the bytes that are left, and why no record begins them |
//!
//! `CaptureFields` is a `Capture` in plain numbers, for C, and `RecordFields` is what comes next.
//!
//! | `next` returns | Then |
//! |---|---|
//! | `Frame`, `Block` | go on `record_len` bytes later |
//! | `Needs(n)` | read on until there are `n` bytes |
//! | `Ended` | read on: no byte is left |
//! | `Error` | stop |
//!
//! The laws say that more bytes change no frame, block or error, and that calls return the longest list of blocks one by
//! one; `ClassicCapture::frames` does so for records. What is written is read again (`written_blocks_are_read_again`). `next_captured` and `next_captured_in_numbers` in
//! `check_uses/src/captures.rt` are callers.
//!
//! Blocks that the reader knows are checked with the lengths of their options; of other blocks only the two total lengths are.
#![tactic(auto)]

mod block;
mod block_laws;
mod block_reader;
mod block_writer;
mod byte_order;
mod capture;
mod capture_fields;
mod classic_capture;
mod classic_frames;
mod classic_header;
mod classic_writer;
mod err;
mod error_fields;
mod frame;
mod interface;
mod next;
mod options;
mod packet_block;
mod pcapng_capture;
mod record_fields;
mod record_laws;

pub use block::BlockKind;
pub use block_laws::{
    joined_blocks_are_read_again, more_bytes_change_no_block, next_returns_the_first_block,
    one_longest_list_of_blocks, written_blocks_are_read_again,
};
pub use block_writer::{EnhancedPacket, write_option};
pub use byte_order::ByteOrder;
pub use capture::Capture;
pub use capture_fields::CaptureFields;
pub use classic_capture::ClassicCapture;
pub use classic_frames::ClassicFrames;
pub use classic_header::{ClassicHeader, Variant};
pub use err::{BlockError, CaptureError, WriteError};
pub use error_fields::CaptureErrorFields;
pub use frame::{Block, Frame};
pub use interface::Interface;
pub use next::Next;
pub use pcapng_capture::PcapngCapture;
pub use record_fields::RecordFields;
pub use record_laws::{more_bytes_change_no_record, one_longest_list_of_records};
