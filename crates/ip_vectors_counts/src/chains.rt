//! Chains of packets, each counted in a table of two entries. The keys are worked out by hand from RFC 791, RFC 4302 and RFC
//! 8200.
use ip_chain_counts::{count_chain, count_packet_and_chain};
use ip_key_counts::{CountedKey, KeyCounts};
use ip_statistics::Statistics;
use std::process::Abort;
use std::test::Fail;

/// An IPv4 packet with a UDP header.
const UDP: &[u8] = &[
    0x45, 0, 0, 28, 0, 0, 0, 0, 64, 17, 0, 0, 192, 0, 2, 1, 192, 0, 2, 2, 0, 9, 0, 9, 0, 8, 0, 0,
];

/// An IPv6 packet without addresses, with hop-by-hop options and a fragment header before UDP.
const OPTIONS: &[u8] = &[
    0x60, 0, 0, 0, 0, 24, 0, 64, 0, 0, 0, 0, 0, 0, 0, 0, 0, 0, 0, 0, 0, 0, 0, 0, 0, 0, 0, 0, 0, 0,
    0, 0, 0, 0, 0, 0, 0, 0, 0, 0, 44, 0, 1, 4, 0, 0, 0, 0, 17, 0, 0, 0, 0, 0, 0, 7, 0, 9, 0, 9, 0,
    8, 0, 0,
];

/// Asserts that an entry has a key and a count.
fn assert_entry(
    rt: &impl Abort,
    table: &KeyCounts<'_>,
    index: usize,
    key: &[u8],
    count: u64,
) -> Result<(), Fail> {
    let entry = table.listed().get(index).ok_or("no entry")?;
    assert_eq!(rt; entry.key(), key);
    assert_eq!(rt; entry.count, count);
    Ok(())
}

#[test]
fn chains_are_listed_in_their_order(rt: HostRuntime) -> Result<(), Fail> {
    let mut entries = [CountedKey::unused(); 2];
    let mut newest = [0; 2];
    let mut table = KeyCounts::new(&mut entries, &mut newest, [1, 2]);
    count_chain(&mut table, &[], OPTIONS);
    count_chain(&mut table, &[], UDP);
    count_chain(&mut table, &[], OPTIONS);
    assert_entry(&rt, &table, 0, &[6, 17, 0, 0, 44], 2)?;
    assert_entry(&rt, &table, 1, &[4, 17, 0], 1)?;

    // A truncated chain is another one, for which there is no entry left.
    count_chain(&mut table, &[], &OPTIONS[..50]);
    assert_eq!(rt; table.listed().len(), 2);
    assert_eq!(rt; table.other, 1);

    // Without a base header there is no chain.
    count_chain(&mut table, &[], &UDP[..19]);
    assert_eq!(rt; table.other, 1);
    Ok(())
}

#[test]
fn packets_are_counted_with_their_chains(rt: HostRuntime) -> Result<(), Fail> {
    let mut entries = [CountedKey::unused(); 2];
    let mut newest = [0; 2];
    let mut table = KeyCounts::new(&mut entries, &mut newest, [1, 2]);
    let mut statistics = Statistics::new();
    count_packet_and_chain(&mut statistics, &mut table, &[], OPTIONS);
    count_packet_and_chain(&mut statistics, &mut table, &[0x41, 0], UDP);
    count_packet_and_chain(&mut statistics, &mut table, &[], &UDP[..19]);
    assert_entry(&rt, &table, 0, &[6, 17, 0, 0, 44], 1)?;
    assert_entry(&rt, &table, 1, &[0x41, 0, 4, 17, 0], 1)?;
    assert_eq!(rt; table.other, 0);
    assert_eq!(rt; statistics.packets, 3);
    assert_eq!(rt; statistics.without_header, 1);
    assert_eq!(rt; statistics.headers[44], 1);
    Ok(())
}

#[test]
fn errors_and_paths_are_part_of_a_key(rt: HostRuntime) -> Result<(), Fail> {
    let mut entries = [CountedKey::unused(); 3];
    let mut newest = [0; 1];
    let mut table = KeyCounts::new(&mut entries, &mut newest, [1, 2]);
    count_chain(&mut table, &[], &OPTIONS[..50]);
    count_chain(&mut table, &[0x41, 0], UDP);

    // Hop-by-hop options of 2,048 bytes don't fit the packet.
    let mut faulty = [0u8; 64];
    faulty.copy_from_slice(OPTIONS);
    faulty[41] = 255;
    count_chain(&mut table, &[], &faulty);
    assert_entry(&rt, &table, 0, &[6, 44, 2, 0], 1)?;
    assert_entry(&rt, &table, 1, &[0x41, 0, 4, 17, 0], 1)?;
    assert_entry(&rt, &table, 2, &[6, 0, 1], 1)
}

/// The length of a packet of 64 destination options headers, and of one more.
const LONG: usize = 40 + 8 * 65;

/// Counts a packet of `count` destination options headers in a table of one entry.
fn count_long(rt: &impl Abort, count: u8, listed: usize, other: u64) {
    let mut packet = [0u8; LONG];
    packet[0] = 0x60;
    packet[6] = 60;
    let len = 8 * usize::from(count);
    packet[4] = (len / 256 % 256) as u8;
    packet[5] = (len % 256) as u8;
    for index in 0..65 {
        packet[40 + 8 * index] = if index + 1 < usize::from(count) {
            60
        } else {
            59
        };
        packet[42 + 8 * index] = 1;
        packet[43 + 8 * index] = 4;
    }
    let mut entries = [CountedKey::unused(); 1];
    let mut newest = [0; 1];
    let mut table = KeyCounts::new(&mut entries, &mut newest, [1, 2]);
    count_chain(&mut table, &[], &packet);
    assert_eq!(rt; table.listed().len(), listed);
    assert_eq!(rt; table.other, other);
}

#[test]
fn chains_of_more_than_64_headers_are_other_ones(rt: HostRuntime) {
    count_long(&rt, 64, 1, 0);
    count_long(&rt, 65, 0, 1);
}

#[test]
fn tables_are_merged(rt: HostRuntime) -> Result<(), Fail> {
    let (mut entries, mut more_entries) = ([CountedKey::unused(); 2], [CountedKey::unused(); 2]);
    let (mut newest, mut more_newest) = ([0; 2], [0; 2]);
    let mut table = KeyCounts::new(&mut entries, &mut newest, [1, 2]);
    let mut more = KeyCounts::new(&mut more_entries, &mut more_newest, [3, 4]);
    table.count(b"a", 5);
    table.count(b"b", u64::MAX);
    more.count(b"b", 2);
    more.count(b"c", 3);
    more.count(b"d", 4);
    table.merge(&more);
    assert_entry(&rt, &table, 0, b"a", 5)?;
    assert_entry(&rt, &table, 1, b"b", u64::MAX)?;
    assert_eq!(rt; table.other, 7);
    Ok(())
}
