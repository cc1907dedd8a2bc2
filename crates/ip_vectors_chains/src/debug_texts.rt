//! `Debug` texts of six places, as Rust's derive prints the same fields.
use crate::checks::assert_same;
use ip_base::{IpFragOffset, IpNumber};
use ip_ext_chains::{Ipv6Extensions, Ipv6RoutingExtensions};
use ip_ext_headers::{IpAuthHeader, Ipv6FragmentHeader, Ipv6RawExtHeader};
use std::test::Fail;

/// The text of six places on several lines.
const SIX_ON_LINES: &str = "Ipv6Extensions {
    hop_by_hop_options: Some(
        Ipv6RawExtHeader {
            payload: [
                1,
                2,
                3,
                4,
                5,
                6,
            ],
            next_header: 60 (IPv6-Opts - Destination Options for IPv6),
        },
    ),
    destination_options: Some(
        Ipv6RawExtHeader {
            payload: [
                7,
                8,
                9,
                10,
                11,
                12,
            ],
            next_header: 43 (IPv6-Route - Routing Header for IPv6),
        },
    ),
    routing: Some(
        Ipv6RoutingExtensions {
            routing: Ipv6RawExtHeader {
                payload: [
                    13,
                    14,
                    15,
                    16,
                    17,
                    18,
                ],
                next_header: 44 (IPv6-Frag - Fragment Header for IPv6),
            },
            final_destination_options: Some(
                Ipv6RawExtHeader {
                    payload: [
                        19,
                        20,
                        21,
                        22,
                        23,
                        24,
                    ],
                    next_header: 17,
                },
            ),
        },
    ),
    fragment: Some(
        Ipv6FragmentHeader {
            next_header: 51 (AH - Authentication Header),
            fragment_offset: IpFragOffset(
                3,
            ),
            more_fragments: true,
            identification: 4,
        },
    ),
    auth: Some(
        IpAuthHeader {
            raw_icv: [
                9,
                8,
                7,
                6,
            ],
            spi: 7,
            sequence_number: 8,
            next_header: 60 (IPv6-Opts - Destination Options for IPv6),
        },
    ),
}";

/// The text of a routing header alone.
const ROUTING: &str =
    "Ipv6Extensions { hop_by_hop_options: None, destination_options: None, routing: Some(Ipv6RoutingExtensions { routing: Ipv6RawExtHeader { payload: [1, 2, 3, 4, 5, 6], next_header: 17 }, final_destination_options: None }), fragment: None, auth: None }";

/// Returns a raw header whose payload of 6 bytes counts up from `first`, and was longer before.
fn raw(next: u8, first: u8) -> Result<Ipv6RawExtHeader, Fail> {
    let mut payload = [first; 6];
    for (i, byte) in payload.iter_mut().enumerate() {
        *byte = first.wrapping_add((i % 6) as u8);
    }
    let mut header = Ipv6RawExtHeader::new_raw(IpNumber(next), &[200; 62])?;
    header.set_payload(&payload)?;
    Ok(header)
}

/// Returns all six places occupied, each linked to the next.
fn all_six() -> Result<Ipv6Extensions, Fail> {
    let offset = IpFragOffset::try_new(3)?;
    Ok(Ipv6Extensions {
        hop_by_hop_options: Some(raw(60, 1)?),
        destination_options: Some(raw(43, 7)?),
        routing: Some(Ipv6RoutingExtensions {
            routing: raw(44, 13)?,
            final_destination_options: Some(raw(17, 19)?),
        }),
        fragment: Some(Ipv6FragmentHeader::new(IpNumber(51), offset, true, 4)),
        auth: Some(IpAuthHeader::new(IpNumber(60), 7, 8, &[9, 8, 7, 6])?),
    })
}

#[test]
fn debug_texts_of_six_places(rt: HostRuntime) -> Result<(), Fail> {
    let mut exts = all_six()?;
    let got = format!(in rt.alloc(); "{exts:#?}")?;
    assert_same(&rt, "six headers", got.as_str(), SIX_ON_LINES);
    exts = Ipv6Extensions::default();
    exts.routing = Some(Ipv6RoutingExtensions {
        routing: raw(17, 1)?,
        final_destination_options: None,
    });
    let got = format!(in rt.alloc(); "{exts:?}")?;
    assert_same(&rt, "a routing header", got.as_str(), ROUTING);
    Ok(())
}
