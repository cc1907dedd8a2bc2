//! Lists of fragments in every order and at random, compared with a plain program that looks at each byte.
use crate::piece::{Piece, add, byte_at, has_payload};
use anyhow::{Context, Result, ensure};
use ip_reassembly::Reassembly;

/// No fragment.
const NO_PIECE: Piece = Piece {
    offset: 0,
    more: false,
    len: 0,
    other: false,
};

/// The plain program: the fragments that were accepted.
#[derive(Drop)]
struct Plain {
    accepted: [Piece; 16],
    count: usize,
    limit: usize,
}

/// Returns whether some byte is in both fragments.
fn share_a_byte(a: Piece, b: Piece) -> bool {
    (a.start()..a.end()).any(|i| b.has(i))
}

/// Returns whether one is the last fragment and the other has bytes after it or another end.
fn ends_differ(a: Piece, b: Piece) -> bool {
    let last = !a.more && b.end() > a.end() || !b.more && a.end() > b.end();
    last || !a.more && !b.more && a.end() != b.end()
}

impl Plain {
    /// Returns the plain program without fragments.
    fn new(limit: usize) -> Plain {
        Plain {
            accepted: [NO_PIECE; 16],
            count: 0,
            limit,
        }
    }

    /// Returns the end of the payload, if a last fragment was accepted.
    fn end(&self) -> Option<usize> {
        self.accepted
            .iter()
            .take(self.count)
            .find(|piece| !piece.more)
            .map(|piece| piece.end())
    }

    /// Returns the byte at an offset, if it was accepted.
    fn byte(&self, offset: usize) -> Option<u8> {
        self.accepted
            .iter()
            .take(self.count)
            .find(|piece| piece.has(offset))
            .map(|piece| byte_at(offset, piece.other))
    }

    /// Returns whether the payload is whole.
    fn is_whole(&self) -> bool {
        match self.end() {
            Some(end) => (0..end).all(|i| self.byte(i).is_some()),
            None => false,
        }
    }

    /// Returns what becomes of a fragment that is accepted, in a word.
    fn progress(&self) -> &'static str {
        if self.is_whole() {
            "whole"
        } else {
            "more-wanted"
        }
    }

    /// Returns whether a fragment that was accepted passes a test.
    fn any<F: Fn(Piece) -> bool>(&self, test: F) -> bool
        requires { F.IsAlwaysCallable test }
    {
        self.accepted
            .iter()
            .take(self.count)
            .any(|piece| test(*piece))
    }

    /// Adds a fragment. Returns what becomes of it, in a word.
    fn add(&mut self, piece: Piece) -> &'static str {
        if piece.more && (piece.len == 0 || piece.len % 8 != 0) {
            return "unaligned";
        }
        if piece.end() > self.limit {
            return "too-long";
        }
        if self.any(|other| other == piece) {
            return self.progress();
        }
        if self.any(|other| share_a_byte(other, piece)) {
            return "overlap";
        }
        if self.any(|other| ends_differ(other, piece)) {
            return "two-ends";
        }
        if let Some(place) = self.accepted.get_mut(self.count) {
            *place = piece;
            self.count = self.count.saturating_add(1);
        }
        self.progress()
    }

    /// Returns whether a payload is that of the plain program.
    fn has_payload(&self, reassembly: &Reassembly<'_>) -> bool {
        match reassembly.payload() {
            Some(payload) => {
                self.end() == Some(payload.len())
                    && payload
                        .iter()
                        .enumerate()
                        .all(|(i, byte)| self.byte(i) == Some(*byte))
            }
            None => !self.is_whole(),
        }
    }
}

/// The fragments of a payload of 29 bytes, in order: offset, flag and length.
const FOUR: [(u16, bool, u16); 4] = [(0, true, 8), (1, true, 8), (2, true, 8), (3, false, 5)];

/// Adds four of these fragments, and checks that the payload is whole once all have been added, and not before.
fn add_four(indexes: [usize; 4]) -> Result<()> {
    let mut buffer = [0u8; 29];
    let mut reassembly = Reassembly::new(&mut buffer);
    let all = (0..4usize).all(|index| indexes.contains(&index));
    let mut last = "more-wanted";
    for index in indexes {
        ensure!(last == "more-wanted", "{last} too early in {indexes:?}");
        let (offset, more, len) = *FOUR.get(index).context("the index")?;
        last = add(&mut reassembly, Piece::own(offset, more, len))?;
    }
    let wanted = if all { "whole" } else { "more-wanted" };
    ensure!(last == wanted, "{last} for {wanted} at {indexes:?}");
    ensure!(
        has_payload(&reassembly, 29) == all,
        "the payload of {indexes:?}"
    );
    Ok(())
}

/// Adds four fragments in every order, also some of them more than once.
pub(crate) fn every_order() -> Result<()> {
    for number in 0..256usize {
        add_four([number / 64, number / 16 % 4, number / 4 % 4, number % 4])?;
    }
    Ok(())
}

/// Returns the next number below a limit, from a simple generator.
fn next_below(state: &mut u32, limit: u32) -> u32 {
    *state = state.wrapping_mul(1_664_525).wrapping_add(1_013_904_223);
    if limit == 0 {
        0
    } else {
        (*state >> 16) % limit
    }
}

/// Returns a fragment within 48 bytes.
fn any_piece(state: &mut u32) -> Piece {
    let offset = next_below(state, 6).min(5) as u16;
    let more = next_below(state, 3) != 0;
    let units = next_below(state, 3).min(2) as u16;
    let rest = if next_below(state, 4) == 0 { 3 } else { 0 };
    let len = 8 * units + rest;
    Piece {
        offset,
        more,
        len,
        other: len != 0 && next_below(state, 8) == 0,
    }
}

/// Adds fragments to a reassembly and to the plain program, and compares each outcome and the payload. Returns the last
/// outcome.
fn compare(pieces: &[Piece], limit: usize) -> Result<&'static str> {
    let mut buffer = [0xa5u8; 64];
    let buffer = buffer.get_mut(..limit).context("the limit")?;
    let mut reassembly = Reassembly::new(buffer);
    let mut plain = Plain::new(limit);
    let mut last = "more-wanted";
    for piece in pieces {
        last = add(&mut reassembly, *piece)?;
        let wanted = plain.add(*piece);
        ensure!(
            last == wanted,
            "{last} for {wanted} at {piece:?} of {pieces:?}"
        );
        ensure!(
            plain.has_payload(&reassembly),
            "the payload after {pieces:?}"
        );
    }
    Ok(last)
}

/// Compares so many random lists of 16 fragments with the plain program. Returns how many make a payload whole.
pub(crate) fn random_lists(seed: u32, lists: u32) -> Result<u32> {
    let mut state = seed;
    let mut whole = 0u32;
    for _ in 0..lists {
        let mut pieces = [NO_PIECE; 16];
        for piece in pieces.iter_mut() {
            *piece = any_piece(&mut state);
        }
        if compare(&pieces, 40)? == "whole" {
            whole = whole.saturating_add(1);
        }
    }
    Ok(whole)
}

/// The fragments of a payload of 2,003 bytes: offset, flag and length.
const TWELVE: [(u16, bool, u16); 12] = [
    (0, true, 8),
    (1, true, 1280),
    (161, true, 16),
    (163, true, 24),
    (166, true, 320),
    (206, true, 8),
    (207, true, 8),
    (208, true, 64),
    (216, true, 128),
    (232, true, 96),
    (244, true, 40),
    (249, false, 11),
];

/// Adds twelve fragments 120 times, at random, and checks that the payload is whole once all have been added.
fn shuffle(state: &mut u32) -> Result<()> {
    let mut buffer = [0u8; 2048];
    let mut reassembly = Reassembly::new(&mut buffer);
    let mut seen = [false; 12];
    for _ in 0..120u32 {
        let index = next_below(state, 12) as usize;
        if let Some(seen) = seen.get_mut(index) {
            *seen = true;
        }
        let all = seen.iter().all(|seen| *seen);
        let (offset, more, len) = *TWELVE.get(index).context("the index")?;
        let outcome = add(&mut reassembly, Piece::own(offset, more, len))?;
        let wanted = if all { "whole" } else { "more-wanted" };
        ensure!(outcome == wanted, "{outcome} for {wanted}");
        ensure!(has_payload(&reassembly, 2003) == all, "the payload");
    }
    Ok(())
}

/// Adds twelve fragments in so many random orders, with repetitions.
pub(crate) fn shuffles(seed: u32, rounds: u32) -> Result<()> {
    let mut state = seed;
    for _ in 0..rounds {
        shuffle(&mut state)?;
    }
    Ok(())
}
