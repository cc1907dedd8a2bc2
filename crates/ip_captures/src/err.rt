//! What is wrong with a capture.
ghost use Rattle.std.specs.Prelude.{◌≡◌};
ghost use Rattle.ip_captures.specs.BlockWriter.{write_code, len_needed};

use thiserror::Error;

/// An error in a capture. Offsets count from the start of the capture.
#[derive(Clone, Copy, Debug, PartialEq, Eq, Hash, Error)]
pub enum CaptureError {
    /// The first 4 bytes are no magic number of a capture file (draft-ietf-opsawg-pcap, section 4).
    #[error("file header at offset 0 begins with no magic number of capture files")]
    UnknownMagic,
    /// The major version isn't 2 (draft-ietf-opsawg-pcap, section 4).
    #[error("file header at offset 0 states version {major}, not 2")]
    UnknownVersion {
        /// The major version.
        major: u16,
    },
    /// A record states more captured bytes than the caller allows (draft-ietf-opsawg-pcap, section 5).
    #[error("record at offset {offset} states {captured_len} bytes, more than {limit}")]
    LongRecord {
        /// The offset of the record, in bytes.
        offset: u64,
        /// The number of captured bytes that it states.
        captured_len: u32,
        /// The greatest number that the caller allows.
        limit: u32,
    },
    /// A block of pcapng isn't as it should be (draft-ietf-opsawg-pcapng, section 3).
    #[error("block at offset {offset} {error}")]
    Block {
        /// The offset of the block, in bytes.
        offset: u64,
        /// What is wrong with it.
        error: BlockError,
    },
}

/// What is wrong with a block of pcapng.
#[derive(Clone, Copy, Debug, PartialEq, Eq, Hash, Error)]
pub enum BlockError {
    /// A section header has no byte-order magic (draft-ietf-opsawg-pcapng, section 4.1).
    #[error("has no byte-order magic")]
    UnknownByteOrder,
    /// The total length is less than the fields of the block have, or no multiple of 4 (section 3.1).
    #[error("states {len} bytes, which is too few or no multiple of 4")]
    Length {
        /// The total length.
        len: u32,
    },
    /// The total length is greater than the caller allows (section 3.1).
    #[error("states {len} bytes, more than {limit}")]
    Long {
        /// The total length.
        len: u32,
        /// The greatest length that the caller allows.
        limit: u32,
    },
    /// The two total lengths differ (section 3.1).
    #[error("states {first} bytes at its start and {last} at its end")]
    Lengths {
        /// The total length at the start.
        first: u32,
        /// The total length at the end.
        last: u32,
    },
    /// The version of a section is neither 1.0 nor 1.2 (section 4.1).
    #[error("states version {major}.{minor}, not 1.0 or 1.2")]
    UnknownVersion {
        /// The major version.
        major: u16,
        /// The minor version.
        minor: u16,
    },
    /// The caller has no memory for another interface of the section (section 4.2).
    #[error("describes one interface more than the {room} that there is memory for")]
    TooManyInterfaces {
        /// The number of interfaces that there is memory for.
        room: usize,
    },
    /// The section describes no such interface before the packet (sections 4.3 and 4.4).
    #[error("has a packet of interface {interface}, which isn't described")]
    UnknownInterface {
        /// The number of the interface.
        interface: u32,
    },
    /// The block has fewer captured bytes than it states (sections 4.3 and 4.4).
    #[error("states {captured_len} captured bytes, {left} are left")]
    LongPacket {
        /// The number of captured bytes that it states.
        captured_len: u32,
        /// The number of bytes after its fields.
        left: usize,
    },
    /// An option has fewer bytes than it states (section 3.5).
    #[error("has an option of {len} bytes, {left} are left")]
    LongOption {
        /// The length of its value.
        len: u16,
        /// The number of bytes after its code and its length.
        left: usize,
    },
    /// A simple packet block has more bytes than its packet and the padding (section 4.4).
    #[error("states {captured_len} captured bytes, and {left} are left")]
    Surplus {
        /// The number of captured bytes that it states.
        captured_len: u32,
        /// The number of bytes after its fields.
        left: usize,
    },
}

/// Why a block of pcapng isn't written.
#[derive(Clone, Copy, Debug, PartialEq, Eq, Hash, Error)]
pub enum WriteError {
    /// The buffer is too short for the block.
    #[error("the buffer has fewer than {needed} bytes")]
    NoRoom {
        /// The length of the block, in bytes.
        needed: usize,
    },
    /// The length doesn't fit its field: 32 bits in a block (section 3.1), 16 in an option (section 3.5).
    #[error("its length field can't hold the length")]
    TooLong,
    /// An option has fewer bytes than it states, or the options aren't padded (section 3.5).
    #[error("an option is truncated or isn't padded")]
    Options,
    /// The ticks of a second are neither a power of 10 nor one of 2 (section 4.2).
    #[error("{ticks_per_second} ticks of a second are no power of 10 or 2")]
    Resolution {
        /// The ticks of a second.
        ticks_per_second: u64,
    },
}

impl WriteError {
    /// Returns a number that stands for the kind of the error, for C: no room 1, a length that is too long 2, options 3, ticks 4.
    #[inline(always)]
    pub fn code(&self) -> u8
        ensures { result ≡ write_code self.now }
    {
        match self {
            WriteError::NoRoom { .. } => 1,
            WriteError::TooLong => 2,
            WriteError::Options => 3,
            WriteError::Resolution { .. } => 4,
        }
    }

    /// Returns the number of bytes that the buffer has to have, or 0 if a longer one doesn't help.
    #[inline(always)]
    pub fn needed(&self) -> usize
        ensures { result ≡ len_needed self.now }
    {
        match self {
            WriteError::NoRoom { needed } => *needed,
            WriteError::TooLong | WriteError::Options | WriteError::Resolution { .. } => 0,
        }
    }
}
