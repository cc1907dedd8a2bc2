//! A position among the options of a header, and the step to the next option.
ghost use Rattle.std.specs.Prelude.{◌≡◌, IfSome, IfNone};
ghost use Rattle.ip_header_contents.specs.Options.{OptionFields, StartsWithOption};
ghost use Rattle.ip_spans.specs.OptionCursor.{header_rest, IsOptionSpan};

use ip_header_contents::option_at;

/// A position among the options of a hop-by-hop or destination options header (RFC 8200, section 4.2), and the end of the
/// header. A walk starts 2 bytes after the start of the header. Any two numbers are a valid cursor. Where a walk stops
/// before the end, an option is malformed: it would go past the end.
#[repr(C)]
#[derive(Clone, Copy, Debug, PartialEq, Eq)]
pub struct OptionCursor {
    /// The position, in bytes from the start of the caller's bytes.
    pub offset: usize,
    /// The end of the header, in bytes from the start of the caller's bytes.
    pub end: usize,
}

/// The span of an option in the caller's bytes, and what its type says.
#[repr(C)]
#[derive(Clone, Copy, Debug, PartialEq, Eq)]
pub struct OptionSpan {
    /// The option's offset, in bytes from the start of the caller's bytes.
    pub offset: usize,
    /// The offset of the option's data, in bytes from the start of the caller's bytes.
    pub data_offset: usize,
    /// The length of the option's data in bytes; 0 for Pad1.
    pub data_len: usize,
    /// The option's type; 0 is Pad1.
    pub option_type: u8,
    /// What a node does with the packet if it doesn't know the option: 0 skips the option, 1 discards the packet, 2
    /// discards it and reports that to its source, 3 does so unless the destination is multicast.
    pub if_unknown: u8,
    /// 1 if the option's data can change on the way, otherwise 0.
    pub may_change: u8,
}

impl OptionCursor {
    /// Returns the option at the cursor and moves the cursor past it. Returns `None` if there is none that ends within the
    /// header and within the bytes; then the cursor is unchanged.
    #[inline(always)]
    pub fn next_option(&mut self, bytes: &[u8]) -> Option<OptionSpan>
        ensures option { IfSome result (λ span. IsOptionSpan self.old self.new bytes.now span) }
        ensures end { IfNone result ((o : OptionFields)
            → StartsWithOption (header_rest self.old bytes.now) o → ⊥) }
        ensures same { IfNone result (self.new ≡ self.old) }
    {
        let Some(option) = option_at(self.left(bytes)) else {
            return None;
        };
        let offset = self.offset;
        let len = option.encoded_len();
        self.offset += len;
        Some(OptionSpan {
            offset,
            data_offset: offset + (len - option.data.len()),
            data_len: option.data.len(),
            option_type: option.option_type,
            if_unknown: option.option_type / 64,
            may_change: u8::from(option.may_change()),
        })
    }

    /// Returns the bytes from the cursor's offset to its end.
    #[inline(always)]
    fn left<'a>(&self, bytes: &'a [u8]) -> &'a [u8]
        ensures { result.now ≡ header_rest self.now bytes.now }
    {
        let end = self.end.min(bytes.len());
        if self.offset < end {
            &bytes[self.offset..end]
        } else {
            &[]
        }
    }
}
