//! A base header whose length field is changed.
ghost use Rattle.std.specs.Prelude.{◌≡◌, ◌≤◌, ◌==◌, if◌then◌else◌, length};
ghost use Rattle.ip_rewrite.specs.Base.{base_stating, ipv4_stating};

use ip_base::{internet_checksum, put_word};

/// Sets the total length and the checksum of an IPv4 base header (RFC 791, section 3.1).
fn state_ipv4(base: &mut [u8], total_len: u16)
    requires { 20 ≤ length base.old }
    ensures { base.new ≡ ipv4_stating base.old total_len }
{
    put_word(base, 2, total_len);
    put_word(base, 10, 0);
    let sum = internet_checksum(base);
    put_word(base, 10, sum);
}

/// Sets the length field of a base header of IPv4 or IPv6, and the checksum of IPv4.
pub(crate) fn state(base: &mut [u8], version: u8, field: u16)
    requires { (if version == 4 then 20 else 40) ≤ length base.old }
    ensures { base.new ≡ base_stating version base.old field }
{
    if version == 4 {
        state_ipv4(base, field);
    } else {
        put_word(base, 4, field);
    }
}
