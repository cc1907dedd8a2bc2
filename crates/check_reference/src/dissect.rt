//! The answer to `dissect`, built in the simplest way.
ghost use Rattle.std.specs.Prelude.{◌≡◌, ◌++◌, codes, OnOk};
ghost use Rattle.ipexts_tool.specs.Text.{AppendsText};
ghost use Rattle.ipexts_tool.specs.DissectAnswer.{stated_text, base_line, fragment_line, kind_name, missing_line};
ghost use Rattle.ipexts_tool.specs.DissectAnswer.{in_header, truncated_text, end_line, dissect_answer};

use crate::answers::{push_headers, push_next};
use crate::packet::{push_fault_text, push_len};
use crate::plain_dissection::plain_dissection;
use ip_base::err::{Layer, LenError};
use ip_dissect::{End, Fragment, FragmentKind};
use std::alloc::{AllocError, Global};

/// Appends the answer to `dissect` with these bytes.
#[tactic(auto, using(crate::proofs::DissectLemmas::answer_none))]
pub(crate) fn push_dissect(alloc: Global, bytes: &[u8], text: &mut String) -> Result<(), AllocError>
    ensures { OnOk result (AppendsText text.old text.new (dissect_answer bytes.now)) }
{
    let packet = plain_dissection(alloc, bytes)?;
    if packet.version == 0 {
        return push_end(&packet.end, text);
    }
    push_base(packet.version, packet.base_len, packet.stated, text)?;
    push_headers(packet.base_len, &packet.headers, text)?;
    push_fragment(packet.fragment, text)?;
    push_next(packet.number, packet.payload_len, text)?;
    push_missing(packet.missing, packet.padding_len, text)?;
    push_end(&packet.end, text)
}

/// Appends the version, the length of the base header and the length that it states.
fn push_base(
    version: u8,
    base_len: usize,
    stated: Option<usize>,
    text: &mut String,
) -> Result<(), AllocError>
    ensures { OnOk result (AppendsText text.old text.new (base_line version base_len stated)) }
{
    write!(text, "ipv{version} base {base_len} stated ")?;
    push_stated(stated, text)?;
    text.push_str("\n")
}

/// Appends a stated length, or that there is none.
fn push_stated(stated: Option<usize>, text: &mut String) -> Result<(), AllocError>
    ensures { OnOk result (AppendsText text.old text.new (stated_text stated)) }
{
    match stated {
        Some(stated) => write!(text, "{stated}"),
        None => text.push_str("none"),
    }
}

/// Appends which fragment the packet is.
fn push_fragment(fragment: Option<Fragment>, text: &mut String) -> Result<(), AllocError>
    ensures { OnOk result (AppendsText text.old text.new (fragment_line fragment)) }
{
    let Some(fragment) = fragment else {
        return text.push_str("fragment none\n");
    };
    let kind = kind_name(fragment.kind);
    let id = fragment.identification;
    let offset = fragment.offset;
    writeln!(text, "fragment {kind} id {id} offset {offset}")
}

/// Returns the name of a kind of fragment.
fn kind_name(kind: FragmentKind) -> &'static str
    ensures { result.now ≡ kind_name kind }
{
    match kind {
        FragmentKind::Atomic => "atomic",
        FragmentKind::First => "first",
        FragmentKind::Middle => "middle",
        FragmentKind::Last => "last",
    }
}

/// Appends how many stated bytes are not here, and how many bytes follow the packet.
fn push_missing(missing: usize, padding: usize, text: &mut String) -> Result<(), AllocError>
    ensures { OnOk result (AppendsText text.old text.new (missing_line missing padding)) }
{
    writeln!(text, "missing {missing} padding {padding}")
}

/// Appends why the headers end.
fn push_end(end: &End, text: &mut String) -> Result<(), AllocError>
    ensures { OnOk result (AppendsText text.old text.new (end_line end.now)) }
{
    match end {
        End::Payload => text.push_str("payload\n"),
        End::LaterFragment => text.push_str("later fragment\n"),
        End::Truncated { error, header } => {
            push_truncated(error, text)?;
            push_in(*header, text)
        }
        End::Fault { error, header } => {
            push_fault_text(error, text)?;
            push_in(*header, text)
        }
    }
}

/// Appends that a header is incomplete here.
fn push_truncated(e: &LenError, text: &mut String) -> Result<(), AllocError>
    ensures { OnOk result (AppendsText text.old text.new (truncated_text e.now)) }
{
    text.push_str("truncated ")?;
    push_len(e, text)
}

/// Appends the IPv6 extension header that an error is in, if it is in one, and ends the line.
fn push_in(header: Option<Layer>, text: &mut String) -> Result<(), AllocError>
    ensures { OnOk result (AppendsText text.old text.new (in_header header ++ codes "\n")) }
{
    let Some(layer) = header else {
        return text.push_str("\n");
    };
    let layer = layer.name();
    writeln!(text, " in {layer}")
}
