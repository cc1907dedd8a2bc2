//! Writes into vectors on a heap without free memory.
use crate::checks::{assert_bytes, assert_same};
use crate::long_chains::SIX;
use ip_base::{IpFragOffset, IpNumber};
use ip_ext_chains::err::{ipv4_exts, ipv6_exts};
use ip_ext_chains::{Ipv4Extensions, Ipv6Extensions, Ipv6RoutingExtensions};
use ip_ext_headers::{IpAuthHeader, Ipv6FragmentHeader, Ipv6RawExtHeader};
use linked_list_allocator::LocalHeap;
use std::alloc::{AllocError, Global};
use std::process::Abort;
use std::test::Fail;

/// Takes all free memory of the heap, which allocates blocks of multiples of 16 bytes. Until these blocks are
/// dropped, each allocation fails.
pub(crate) fn take_all<'a>(
    rt: &impl Abort,
    alloc: Global,
    heap: &'a LocalHeap,
) -> Result<Vec<Vec<u8, &'a LocalHeap>>, AllocError> {
    let mut blocks = Vec::new(alloc);
    for _ in 0..heap.size() / 16 {
        match Vec::with_capacity(heap, 16) {
            Ok(block) => blocks.push(block)?,
            Err(_) => break,
        }
    }
    assert_same(rt, "free memory", heap.free(), 0);
    Ok(blocks)
}

/// A header to write, or a chain from this number.
#[derive(Drop)]
enum Item {
    Raw(Ipv6RawExtHeader),
    Fragment(Ipv6FragmentHeader),
    Authentication(IpAuthHeader),
    Ipv4Chain(Ipv4Extensions, u8),
    Ipv6Chain(Ipv6Extensions, u8),
}

/// The result of a write.
#[derive(Clone, Copy, Debug, PartialEq)]
enum Outcome {
    Written,
    OutOfMemory,
    NotReferenced(u8),
    HopByHopNotAtStart,
}

fn of_header(written: Result<(), AllocError>) -> Outcome {
    match written {
        Ok(()) => Outcome::Written,
        Err(_) => Outcome::OutOfMemory,
    }
}

fn of_ipv4(written: Result<(), ipv4_exts::HeaderWriteError>) -> Outcome {
    match written {
        Ok(()) => Outcome::Written,
        Err(ipv4_exts::HeaderWriteError::Io(_)) => Outcome::OutOfMemory,
        Err(
            ipv4_exts::HeaderWriteError::Content(
                ipv4_exts::ExtsWalkError::ExtNotReferenced { missing_ext },
            ),
        ) => Outcome::NotReferenced(missing_ext.0),
    }
}

fn of_ipv6(written: Result<(), ipv6_exts::HeaderWriteError>) -> Outcome {
    match written {
        Ok(()) => Outcome::Written,
        Err(ipv6_exts::HeaderWriteError::Io(_)) => Outcome::OutOfMemory,
        Err(ipv6_exts::HeaderWriteError::Content(e)) => match e {
            ipv6_exts::ExtsWalkError::ExtNotReferenced { missing_ext } => {
                Outcome::NotReferenced(missing_ext.0)
            }
            ipv6_exts::ExtsWalkError::HopByHopNotAtStart => Outcome::HopByHopNotAtStart,
        },
    }
}

fn write(item: &Item, out: &mut Vec<u8, &LocalHeap>) -> Outcome {
    match item {
        Item::Raw(header) => of_header(header.write(out)),
        Item::Fragment(header) => of_header(header.write(out)),
        Item::Authentication(header) => of_header(header.write(out)),
        Item::Ipv4Chain(exts, first) => of_ipv4(exts.write(out, IpNumber(*first))),
        Item::Ipv6Chain(exts, first) => of_ipv6(exts.write(out, IpNumber(*first))),
    }
}

/// A name, the item to write, the room that it requests first, the bytes that it then appends, and the result.
type Row<'a> = (&'a str, Item, u16, &'a [u8], Outcome);

/// Writes into a vector of three bytes with `room` for more, without free memory and then with it.
fn check_room(rt: &impl Abort, alloc: Global, room: u16, row: &Row<'_>) -> Result<(), Fail> {
    let (name, item, needed, bytes, outcome) = row;
    let heap = LocalHeap::new(alloc, 512)?;
    let mut out: Vec<u8, &LocalHeap> = Vec::with_capacity(&heap, usize::from(room) + 3)?;
    let mut expected: Vec<u8> = Vec::from_slice(alloc, &[1, 2, 3])?;
    out.extend_from_slice(&[1, 2, 3])?;
    let blocks = take_all(rt, alloc, &heap)?;
    if room < *needed {
        let written = write(item, &mut out);
        assert_same(rt, (name, room), written, Outcome::OutOfMemory);
    } else {
        expected.extend_from_slice(bytes)?;
        assert_same(rt, (name, room), write(item, &mut out), *outcome);
    }
    assert_bytes(rt, (name, room), &out, &expected);
    drop(blocks);
    expected.extend_from_slice(bytes)?;
    assert_same(rt, (name, room), write(item, &mut out), *outcome);
    assert_bytes(rt, (name, room), &out, &expected);
    Ok(())
}

/// Checks each row without room, with a byte less than it needs, and with as much as it needs.
fn check(rt: &impl Abort, alloc: Global, rows: &[Row<'_>]) -> Result<(), Fail> {
    for row in rows {
        let (_, _, needed, _, _) = row;
        for room in [0, needed.saturating_sub(1), *needed] {
            check_room(rt, alloc, room, row)?;
        }
    }
    Ok(())
}

#[test]
fn headers_are_written_into_the_room_they_need(rt: HostRuntime) -> Result<(), Fail> {
    let raw_bytes = [17, 1, 1, 2, 3, 4, 5, 6, 7, 8, 9, 10, 11, 12, 13, 14];
    let raw = Ipv6RawExtHeader::new_raw(IpNumber(17), &raw_bytes[2..])?;
    let fragment = Ipv6FragmentHeader::new(IpNumber(17), IpFragOffset::try_new(1)?, true, 3);
    let auth_bytes = [17, 2, 0, 0, 0, 0, 0, 1, 0, 0, 0, 2, 9, 8, 7, 6];
    let auth = IpAuthHeader::new(IpNumber(17), 1, 2, &[9, 8, 7, 6])?;
    let chain = Ipv4Extensions {
        auth: Some(auth.clone()?),
    };
    let done = Outcome::Written;
    let rows: [Row<'_>; 5] = [
        ("raw", Item::Raw(raw), 16, &raw_bytes, done),
        (
            "fragment",
            Item::Fragment(fragment),
            8,
            &[17, 0, 0, 9, 0, 0, 0, 3],
            done,
        ),
        (
            "authentication",
            Item::Authentication(auth),
            16,
            &auth_bytes,
            done,
        ),
        ("IPv4", Item::Ipv4Chain(chain, 51), 16, &auth_bytes, done),
        (
            "none of IPv4",
            Item::Ipv4Chain(Ipv4Extensions::default(), 51),
            0,
            &[],
            done,
        ),
    ];
    check(&rt, rt.alloc(), &rows)
}

fn raw(next: u8) -> Ipv6RawExtHeader {
    let mut header = Ipv6RawExtHeader::default();
    header.next_header = IpNumber(next);
    header
}

fn fragment(next: u8) -> Result<Ipv6FragmentHeader, Fail> {
    Ok(Ipv6FragmentHeader::new(IpNumber(next), IpFragOffset::try_new(0)?, false, 0))
}

/// The smallest header in each of the six places, not linked yet.
pub(crate) fn six_headers() -> Result<Ipv6Extensions, Fail> {
    Ok(Ipv6Extensions {
        hop_by_hop_options: Some(raw(0)),
        destination_options: Some(raw(0)),
        routing: Some(Ipv6RoutingExtensions {
            routing: raw(0),
            final_destination_options: Some(raw(0)),
        }),
        fragment: Some(fragment(0)?),
        auth: Some(IpAuthHeader::new(IpNumber(0), 0, 0, &[])?),
    })
}

#[test]
fn six_places_are_written_into_the_room_they_need(rt: HostRuntime) -> Result<(), Fail> {
    let mut six = six_headers()?;
    six.set_next_headers(IpNumber(17));
    let mut unreached = Ipv6Extensions::default();
    unreached.fragment = Some(fragment(60)?);
    unreached.destination_options = Some(raw(17));
    let mut late = Ipv6Extensions::default();
    late.hop_by_hop_options = Some(raw(17));
    late.fragment = Some(fragment(0)?);
    let none = Ipv6Extensions::default();
    let rows: [Row<'_>; 4] = [
        ("six", Item::Ipv6Chain(six, 0), 52, &SIX, Outcome::Written),
        ("none", Item::Ipv6Chain(none, 0), 0, &[], Outcome::Written),
        (
            "a fragment header that nothing names",
            Item::Ipv6Chain(unreached, 60),
            16,
            &[17, 0, 0, 0, 0, 0, 0, 0],
            Outcome::NotReferenced(44),
        ),
        (
            "hop by hop options after a header",
            Item::Ipv6Chain(late, 44),
            16,
            &[0, 0, 0, 0, 0, 0, 0, 0],
            Outcome::HopByHopNotAtStart,
        ),
    ];
    check(&rt, rt.alloc(), &rows)
}
