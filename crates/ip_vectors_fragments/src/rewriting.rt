//! Packets with other headers.
use crate::case::Case;
use crate::outcomes::UNUSED;
use crate::report::Report;
use crate::text::{Words, yes};
use anyhow::{Result, bail, ensure};
use ip_base::IpNumber;
use ip_rewrite::{
    Authentication, RewriteError, Rewritten, Which, clear_reserved_bits, has_reserved_bits,
    in_order, is_in_order, recommended_index, remove_header, with_header, with_payload,
};
use std::alloc::Global;

/// How much room there is for packets that are written, and whether authentication headers have to stay valid.
#[derive(Clone, Copy)]
struct Room {
    len: usize,
    authentication: Authentication,
}

/// Returns why a packet isn't rewritten, in a word.
fn not_rewritten(error: RewriteError) -> &'static str {
    match error {
        RewriteError::Headers => "headers",
        RewriteError::Missing => "missing",
        RewriteError::LaterFragment => "later-fragment",
        RewriteError::NotAHeader => "not-a-header",
        RewriteError::Misplaced => "misplaced",
        RewriteError::NoHeader => "no-header",
        RewriteError::FragmentHeader => "fragment-header",
        RewriteError::Fragmented => "fragmented",
        RewriteError::Authenticated => "authenticated",
        RewriteError::HeaderFollows => "header-follows",
        RewriteError::NoLength => "no-length",
        RewriteError::NotAJumbogram => "not-a-jumbogram",
        RewriteError::TooLong => "too-long",
        RewriteError::NoRoom => "no-room",
    }
}

/// Returns the next word as a protocol number.
fn number(words: &mut Words<'_>) -> Result<IpNumber> {
    Ok(IpNumber(words.number()?))
}

/// Returns which headers the next words select: `index INDEX` or `number NUMBER`.
fn which(words: &mut Words<'_>) -> Result<Which> {
    match words.word()? {
        "index" => Ok(Which::Index(words.number()?)),
        "number" => Ok(Which::Number(number(words)?)),
        other => bail!("'{other}' is neither 'index' nor 'number'"),
    }
}

/// Returns whether authentication headers have to stay valid.
fn authentication(words: &mut Words<'_>) -> Result<Authentication> {
    match words.word()? {
        "valid" => Ok(Authentication::Valid),
        "invalid" => Ok(Authentication::Invalid),
        other => bail!("'{other}' is neither 'valid' nor 'invalid'"),
    }
}

/// Runs a case: `rewrite ROOM valid|invalid`, with so many bytes for each packet that is written.
pub(crate) fn run(case: &Case<'_>, words: &mut Words<'_>, report: &mut Report<'_>) -> Result<()> {
    let room = Room {
        len: words.number()?,
        authentication: authentication(words)?,
    };
    words.end()?;
    for line in case.steps {
        let mut words = Words::new(line.text);
        let answer = step(case, room, &mut words);
        report.add(case, line, words, answer)?;
    }
    Ok(())
}

/// Does a step. Returns its answer.
fn step(case: &Case<'_>, room: Room, words: &mut Words<'_>) -> Result<String> {
    let alloc = case.alloc;
    match words.word()? {
        "has-reserved-bits" => {
            let has = has_reserved_bits(&case.names.bytes(words)?);
            Ok(String::from_str(alloc, yes(has))?)
        }
        "is-in-order" => {
            let is = is_in_order(&case.names.bytes(words)?);
            Ok(String::from_str(alloc, yes(is))?)
        }
        "recommended-index" => {
            let number = number(words)?;
            let index = recommended_index(&case.names.bytes(words)?, number);
            Ok(format!(in alloc; "{index}")?)
        }
        call => {
            let mut buffer = vec![in alloc; UNUSED; room.len]?;
            let out = buffer.as_mut_slice();
            let written = write(case, call, room.authentication, words, out)?;
            rewritten_text(alloc, written, &buffer)
        }
    }
}

/// Writes a packet with other headers or another payload:
///
/// - `without WHICH`, `cleared` or `in-order` and the packet;
/// - `with-header NUMBER INDEX` or `with-payload NUMBER`, the bytes of header or payload, `/`, and the packet.
fn write(
    case: &Case<'_>,
    call: &str,
    authentication: Authentication,
    words: &mut Words<'_>,
    out: &mut [u8],
) -> Result<Result<Rewritten, RewriteError>> {
    let names = case.names;
    Ok(match call {
        "without" => {
            let which = which(words)?;
            remove_header(&names.bytes(words)?, which, authentication, out)
        }
        "cleared" => clear_reserved_bits(&names.bytes(words)?, authentication, out),
        "in-order" => in_order(&names.bytes(words)?, authentication, out),
        "with-header" => {
            let number = number(words)?;
            let index = words.number()?;
            let header = names.bytes(words)?;
            let packet = names.bytes(words)?;
            with_header(&packet, number, &header, index, authentication, out)
        }
        "with-payload" => {
            let number = number(words)?;
            let payload = names.bytes(words)?;
            let packet = names.bytes(words)?;
            with_payload(&packet, number, &payload, authentication, out)
        }
        other => bail!("there is no step '{other}'"),
    })
}

/// Returns whether checksums hold as before, and the packet, which is to begin the buffer, or the error. The buffer has to be as
/// it was after that.
fn rewritten_text(
    alloc: Global,
    written: Result<Rewritten, RewriteError>,
    buffer: &[u8],
) -> Result<String> {
    let len = written.map_or(0, |rewritten| rewritten.len);
    let rest = buffer.get(len..).unwrap_or(&[]);
    ensure!(
        rest.iter().all(|byte| *byte == UNUSED),
        "bytes after the packet"
    );
    match written {
        Ok(rewritten) => {
            let holds = if rewritten.keeps_checksums {
                "holds"
            } else {
                "changes"
            };
            let digits = hex::encode(alloc, buffer.get(..len).unwrap_or(&[]))?;
            Ok(format!(in alloc; "checksum {holds}, packet {digits}")?)
        }
        Err(error) => Ok(format!(in alloc; "error {}", not_rewritten(error))?),
    }
}
