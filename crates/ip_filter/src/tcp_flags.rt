//! Flags of TCP, as a filter's text writes them.
ghost use Rattle.std.specs.Prelude.{◌≡◌};
ghost use Rattle.ip_filter.specs.Numbers.{tcp_flag_of, tcp_flag_list, tcp_flags_of};

use crate::TcpFlags;
use crate::numbers::index_of;

/// Returns the flags that the word writes: a list of those that are set, and after a slash a list of all that count.
pub(crate) fn parse_tcp_flags(word: &[u8]) -> Option<TcpFlags>
    ensures { result ≡ tcp_flags_of word.now }
{
    let slash = index_of(word, b'/');
    let set = parse_list(&word[..slash])?;
    let mask = match &word[slash..] {
        [] => set,
        [_, names @ ..] => parse_list(names)?,
    };
    if set & mask == set {
        Some(TcpFlags { set, mask })
    } else {
        None
    }
}

/// Returns the bits of the flags that the list names.
#[tactic(auto, using(crate::proofs::TcpFlagLemmas::last_name, crate::proofs::TcpFlagLemmas::next_name, crate::proofs::TcpFlagLemmas::other_name))]
fn parse_list(list: &[u8]) -> Option<u8>
    ensures { result ≡ tcp_flag_list list.now }
{
    let mut flags = 0;
    let mut rest = list;
    'names: loop {
        let comma = index_of(rest, b',');
        flags |= parse_tcp_flag(&rest[..comma])?;
        match &rest[comma..] {
            [] => return Some(flags),
            [_, names @ ..] => rest = names,
        }
    }
}

/// Returns the bit of the flag that the word names.
fn parse_tcp_flag(word: &[u8]) -> Option<u8>
    ensures { result ≡ tcp_flag_of word.now }
{
    match word {
        b"fin" => Some(1),
        b"syn" => Some(2),
        b"rst" => Some(4),
        b"psh" => Some(8),
        b"ack" => Some(16),
        b"urg" => Some(32),
        b"ece" => Some(64),
        b"cwr" => Some(128),
        _ => None,
    }
}
