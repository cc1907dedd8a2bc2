//! What a program can compare with the header it was compiled with. `scripts/abi` writes both numbers.
ghost use Rattle.std.specs.Prelude.{◌≡◌};

/// The version: 10000 * major + 100 * minor + patch.
const VERSION: u32 = 100;

/// The checksum of the header's structs, codes and calls.
const ABI: u32 = 3201130622;

/// Returns the library's version.
#[unsafe(no_mangle)]
pub extern "C" fn wolfaren_version() -> u32
    ensures { result ≡ 100 }
{
    VERSION
}

/// Returns the checksum of the structs, codes and calls.
#[unsafe(no_mangle)]
pub extern "C" fn wolfaren_abi() -> u32
    ensures { result ≡ 3201130622 }
{
    ABI
}
