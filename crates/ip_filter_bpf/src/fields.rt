//! Fields of base headers that tests compare with a number.
ghost use Rattle.std.specs.Prelude.{◌≡◌};
ghost use Rattle.ip_filter_bpf.specs.Fields.{field_of};
ghost use Rattle.ip_filter_bpf.specs.declared.version.Version.TheVariants as version;

use crate::version::Version;
use ip_bpf::Width;

/// The kinds of tests of such fields.
mod kind {
    pub(crate) const HOP_LIMIT: u8 = 12;

    pub(crate) const DSCP: u8 = 13;

    pub(crate) const ECN: u8 = 14;

    pub(crate) const FLOW_LABEL: u8 = 15;
}

/// A field: the number in the bytes at an offset, without its lowest bits, and of the others those in a mask.
#[derive(Clone, Copy)]
pub(crate) struct Field {
    pub(crate) width: Width,
    pub(crate) offset: u32,
    pub(crate) shift: u32,
    pub(crate) mask: u32,
}

/// Returns the field that a test of this kind compares, if a base header of this version has it.
pub(crate) fn field_of(kind: u8, version: Version) -> Option<Field>
    ensures { result ≡ field_of kind version }
{
    match version {
        Version::None => None,
        Version::Ipv4 => ipv4_field(kind),
        Version::Ipv6 => ipv6_field(kind),
    }
}

/// Returns the field of an IPv4 header that a test of this kind compares, if there is one.
fn ipv4_field(kind: u8) -> Option<Field>
    ensures { result ≡ field_of kind version.Ipv4 }
{
    let field = match kind {
        kind::HOP_LIMIT => Field {
            width: Width::Byte,
            offset: 8,
            shift: 0,
            mask: u32::MAX,
        },
        kind::DSCP => Field {
            width: Width::Byte,
            offset: 1,
            shift: 2,
            mask: u32::MAX,
        },
        kind::ECN => Field {
            width: Width::Byte,
            offset: 1,
            shift: 0,
            mask: 3,
        },
        _ => return None,
    };
    Some(field)
}

/// Returns the field of an IPv6 header that a test of this kind compares, if there is one.
fn ipv6_field(kind: u8) -> Option<Field>
    ensures { result ≡ field_of kind version.Ipv6 }
{
    let field = match kind {
        kind::HOP_LIMIT => Field {
            width: Width::Byte,
            offset: 7,
            shift: 0,
            mask: u32::MAX,
        },
        kind::DSCP => Field {
            width: Width::HalfWord,
            offset: 0,
            shift: 6,
            mask: 63,
        },
        kind::ECN => Field {
            width: Width::HalfWord,
            offset: 0,
            shift: 4,
            mask: 3,
        },
        kind::FLOW_LABEL => Field {
            width: Width::Word,
            offset: 0,
            shift: 0,
            mask: 0xf_ffff,
        },
        _ => return None,
    };
    Some(field)
}
