//! A filter: tests of a packet, each of which leads on to another.

/// A test of a packet, in plain numbers. Fields that its kind doesn't use are ignored. No packet meets a test whose kind or
/// other code is unknown, or whose number is too large.
///
/// Flags are bits: that of the number of an extension header, 0, 43, 44, 51 or 60, says that there is one; 4 and 6 are the
/// versions, 8 a first and 9 a later fragment, 10 missing bytes, 11 a truncated header, and 12 to 16 a faulty one, in the
/// order of `FaultKind`.
#[repr(C)]
#[derive(Clone, Copy, Debug, PartialEq, Eq)]
pub struct Test {
    /// The flags of which one has to be set, the protocol number, security parameters index, identification, type or code of
    /// ICMP, type of routing, what a number of the packet is compared with, the lowest port, the flags of TCP that are set, the
    /// code of a layer, or what bytes are compared with.
    pub number: u64,
    /// The high 64 bits of a network's address, as a number in network byte order; not used for IPv4. Of bytes, their offset.
    pub address_high: u64,
    /// The other bits of a network's address, the highest port, the flags of TCP that count, the flags of which one has to be
    /// set by an error in a layer, or the bits of bytes that count.
    pub address_low: u64,
    /// What is tested: 1 flags, 2 the protocol number that follows the headers, 3 the number of extension headers, 4 their
    /// bytes, 5 the bytes of payload that are here, 6 the security parameters index of an authentication header, 7 the
    /// identification of a fragment, 8 the source, 9 the destination, 10 either address, 11 the stated length, 12 the hop
    /// limit, 13 the code point of differentiated services, 14 explicit congestion notification, 15 the flow label, 16 the
    /// source, 17 the destination, 18 either port, 19 whether an upper layer's header should be there but isn't, 20 the
    /// type, 21 the code of ICMP, 22 flags of TCP, 23 the type, 24 the segments left of a routing header, 25 the type of
    /// an option, 26 flags by an error in a layer, 27 the protocol number that follows the headers of a packet of this
    /// version, 28 the type, 29 the code of ICMPv6, 30 whether no length is stated, 31 bytes from the base header on, 32
    /// bytes from the header of a protocol on; of the frame, 33 the length on the wire, 34 whether there is a VLAN tag, 35 the
    /// identifier of one, 36 the EtherType, 37 whether it announced the version that the packet doesn't begin with.
    pub kind: u8,
    /// How a quantity or the number in bytes is compared: 1 equal, 2 not equal, 3 less, 4 at most, 5 greater, 6 at least.
    pub comparison: u8,
    /// The version of a network's address or of a base header, 4 or 6; for kind 32, the number of the protocol.
    pub version: u8,
    /// How many bits of a network's address count, or how many bytes are read: 1, 2 or 4.
    pub prefix_len: u8,
    /// The index of the test that follows if the packet meets this one.
    pub if_met: u8,
    /// The index of the test that follows if not.
    pub if_not: u8,
}

/// A filter is a program of tests. A packet is tested by the first test, and then by each test that it is led to. It passes if it
/// is led to index 64. A test that leads back, or to any other index without a test, lets it pass no more. Any contents are
/// a filter; one without tests lets no packet pass.
#[repr(C)]
#[derive(Clone, Copy, Debug, PartialEq, Eq)]
pub struct Filter {
    /// How many tests there are, of which at most 64 are used.
    pub count: usize,
    /// The tests, of which the first `count` are used.
    pub tests: [Test; 64],
}
