//! The version of the library, which is that of `otel.h`.

ghost use Rattle.std.specs.Prelude.{◌≡◌};

use crate::status::OTEL_OK;

pub const OTEL_VERSION_MAJOR: u32 = 0;

pub const OTEL_VERSION_MINOR: u32 = 1;

pub const OTEL_VERSION_PATCH: u32 = 0;

/// Says the version of the library.
#[unsafe(no_mangle)]
pub extern "C" fn otel_version(major: &mut u32, minor: &mut u32, patch: &mut u32) -> u32
    ensures ok { result ≡ 0 }
    ensures version { (major.new ≡ OTEL_VERSION_MAJOR) × (minor.new ≡ OTEL_VERSION_MINOR)
        × (patch.new ≡ OTEL_VERSION_PATCH) }
{
    *major = OTEL_VERSION_MAJOR;
    *minor = OTEL_VERSION_MINOR;
    *patch = OTEL_VERSION_PATCH;
    OTEL_OK
}
