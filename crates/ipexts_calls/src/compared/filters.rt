//! Filters parsed from a text and evaluated.
use ip_filter::Filter;

/// Parses the text, and returns 1 if the filter matches the packet, plus 2 if it matches a frame that is not IP. If the
/// text isn't a filter, returns 32, plus 32 times the offset of the error, plus the index of what is expected among the
/// variants of `Expected`.
#[unsafe(no_mangle)]
pub extern "C" fn ipexts_filter(text: &[u8], packet: &[u8]) -> u64 {
    match Filter::parse(text) {
        Ok(filter) => u64::from(filter.matches(packet)) + 2 * u64::from(filter.matches_other()),
        Err(error) => (error.offset as u64)
            .wrapping_add(1)
            .wrapping_mul(32)
            .wrapping_add(error.expected as u64),
    }
}
