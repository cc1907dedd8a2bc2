//! Filters from their texts.
ghost use Rattle.std.specs.Prelude.{◌≡◌, ◌≤◌, IfOk, IfErr, IfSome, IfNone};
ghost use Rattle.ip_filter.specs.Parsed.{IsParsedFilter, IsFirstError};
ghost use Rattle.ip_filter.specs.declared.parse_error.Expected.{Expected as WasExpected};
ghost use Rattle.ip_spans.specs.FilterError.{expected_code};

use ip_filter::{Expected, Filter};

/// Where the text of a filter is wrong, and what is expected there.
#[repr(C)]
#[derive(Clone, Copy, Debug, PartialEq, Eq)]
pub struct FilterError {
    /// The offset of the first word that can't be there, in bytes from the start of the text. The length of the text if
    /// it ends too early.
    pub offset: usize,
    /// What is expected there, by the codes of `expected_code` in `specs/FilterError.antt`.
    pub expected: u8,
}

/// Parses the text of a filter, as `ip_filter::Filter::parse` does, and stores it in `filter`. The error says what was
/// expected where, as that of `parse` does. After an error `filter` is unchanged.
pub fn parse_filter(text: &[u8], filter: &mut Filter) -> Result<(), FilterError>
    ensures ok { IfOk result (λ _. IsParsedFilter text.now filter.new) }
    ensures most { IfOk result (λ _. filter.new.count ≤ 64) }
    ensures err { IfErr result (λ e. (x : WasExpected) × (e.expected ≡ expected_code x)
        × IsFirstError text.now e.offset x) }
    ensures same { IfErr result (λ _. filter.new ≡ filter.old) }
{
    match Filter::parse(text) {
        Ok(parsed) => {
            *filter = parsed;
            Ok(())
        }
        Err(error) => Err(FilterError {
            offset: error.offset,
            expected: code_of(error.expected),
        }),
    }
}

/// Returns the code of what is expected.
fn code_of(expected: Expected) -> u8
    ensures { result ≡ expected_code expected }
{
    match expected {
        Expected::Operand => 1,
        Expected::OperatorOrEnd => 2,
        Expected::OperatorOrClose => 3,
        Expected::Version => 4,
        Expected::Header => 5,
        Expected::Protocol => 6,
        Expected::Comparison => 7,
        Expected::Count => 8,
        Expected::Number => 9,
        Expected::Network => 10,
        Expected::FewerTerms => 11,
        Expected::LessNesting => 12,
        Expected::Byte => 13,
        Expected::NetworkOrPort => 14,
        Expected::Address => 15,
        Expected::Ports => 16,
        Expected::TcpFlags => 17,
        Expected::IcmpType => 18,
        Expected::Icmp6Type => 19,
        Expected::Source => 20,
        Expected::Destination => 21,
        Expected::Mask => 22,
        Expected::MaskOrComparison => 23,
        Expected::Bits => 24,
        Expected::JoinedBits => 25,
        Expected::JoinedBitsEnd => 26,
    }
}

/// Returns what is expected by its code, if there is such a code.
pub(crate) fn expected_of(code: u8) -> Option<Expected>
    ensures some { IfSome result (λ expected. expected_code expected ≡ code) }
    ensures none { IfNone result ((expected : WasExpected) → expected_code expected ≡ code → ⊥) }
{
    match code {
        1 => Some(Expected::Operand),
        2 => Some(Expected::OperatorOrEnd),
        3 => Some(Expected::OperatorOrClose),
        4 => Some(Expected::Version),
        5 => Some(Expected::Header),
        6 => Some(Expected::Protocol),
        7 => Some(Expected::Comparison),
        8 => Some(Expected::Count),
        9 => Some(Expected::Number),
        10 => Some(Expected::Network),
        11 => Some(Expected::FewerTerms),
        12 => Some(Expected::LessNesting),
        13 => Some(Expected::Byte),
        14 => Some(Expected::NetworkOrPort),
        15 => Some(Expected::Address),
        16 => Some(Expected::Ports),
        17 => Some(Expected::TcpFlags),
        18 => Some(Expected::IcmpType),
        19 => Some(Expected::Icmp6Type),
        20 => Some(Expected::Source),
        21 => Some(Expected::Destination),
        22 => Some(Expected::Mask),
        23 => Some(Expected::MaskOrComparison),
        24 => Some(Expected::Bits),
        25 => Some(Expected::JoinedBits),
        26 => Some(Expected::JoinedBitsEnd),
        _ => None,
    }
}
