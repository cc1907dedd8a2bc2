//! What the fragments of a packet have in common, and packets that are given up.
use crate::text::Words;
use anyhow::{Context, Result, bail};
use ip_base::IpNumber;
use ip_defragmenter::{FragmentKey, Loss, LossReason};
use std::alloc::AllocError;
use std::net::{Ipv4Addr, Ipv6Addr};

/// Returns the next word as a hexadecimal number.
fn identification(words: &mut Words<'_>) -> Result<u32> {
    let word = words.word()?;
    u32::from_str_radix(word, 16).context("an identification is expected")
}

/// Returns the next word as an IPv4 address.
fn ipv4_address(words: &mut Words<'_>) -> Result<[u8; 4]> {
    let word = words.word()?;
    let address = word.parse::<Ipv4Addr>();
    Ok(address.context("an IPv4 address is expected")?.octets())
}

/// Returns the next word as an IPv6 address.
fn ipv6_address(words: &mut Words<'_>) -> Result<[u8; 16]> {
    let word = words.word()?;
    let address = word.parse::<Ipv6Addr>();
    Ok(address.context("an IPv6 address is expected")?.octets())
}

/// Returns the key that the next words describe: `ipv4 SOURCE DESTINATION PROTOCOL IDENTIFICATION` or
/// `ipv6 SOURCE DESTINATION IDENTIFICATION`.
pub(crate) fn parse_key(words: &mut Words<'_>) -> Result<FragmentKey> {
    match words.word()? {
        "ipv4" => {
            let source = ipv4_address(words)?;
            let destination = ipv4_address(words)?;
            let protocol = IpNumber(words.number()?);
            let identification = u16::try_from(identification(words)?)?;
            Ok(FragmentKey::Ipv4 {
                source,
                destination,
                protocol,
                identification,
            })
        }
        "ipv6" => {
            let source = ipv6_address(words)?;
            let destination = ipv6_address(words)?;
            let identification = identification(words)?;
            Ok(FragmentKey::Ipv6 {
                source,
                destination,
                identification,
            })
        }
        version => bail!("'{version}' is neither 'ipv4' nor 'ipv6'"),
    }
}

/// Returns the key with the identification that comes so many after another one.
pub(crate) fn later_key(key: FragmentKey, count: u32) -> FragmentKey {
    match key {
        FragmentKey::Ipv6 {
            source,
            destination,
            identification,
        } => FragmentKey::Ipv6 {
            source,
            destination,
            identification: identification.wrapping_add(count),
        },
        other => other,
    }
}

/// Appends a key, as `parse_key` reads it.
pub(crate) fn push_key(text: &mut String, key: &FragmentKey) -> Result<(), AllocError> {
    match key {
        FragmentKey::Ipv4 {
            source,
            destination,
            protocol,
            identification,
        } => {
            let (source, destination) = (Ipv4Addr::from(*source), Ipv4Addr::from(*destination));
            let protocol = protocol.0;
            write!(
                text,
                "ipv4 {source} {destination} {protocol} {identification:04x}"
            )
        }
        FragmentKey::Ipv6 {
            source,
            destination,
            identification,
        } => {
            let (source, destination) = (Ipv6Addr::from(*source), Ipv6Addr::from(*destination));
            write!(text, "ipv6 {source} {destination} {identification:08x}")
        }
    }
}

/// Appends the packet that was given up, if one was.
pub(crate) fn push_loss(text: &mut String, loss: &Option<Loss>) -> Result<(), AllocError> {
    let Some(loss) = loss else {
        return Ok(());
    };
    let reason = match loss.reason {
        LossReason::TimedOut => "timed-out",
        LossReason::Displaced => "displaced",
    };
    write!(text, ", lost {reason} {} ", loss.context)?;
    push_key(text, &loss.key)
}
