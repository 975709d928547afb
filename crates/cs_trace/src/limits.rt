//! The limits of a trace that depend on its version.
ghost use Rattle.std.specs.Prelude.{◌≡◌};
ghost use Rattle.cs_trace.specs.Limits.{most_bytes};

use cs_names::limits::FILE_BYTES;
use cs_trace_lines::Version;

/// The most bytes of a file in a trace of version 4: 1 GiB. Before, it is FILE_BYTES.
pub const LARGE_FILE_BYTES: u64 = 1_073_741_824;

/// The greatest size of a file in a trace of this version, in bytes: LARGE_FILE_BYTES in version 4,
/// FILE_BYTES (16 MiB) before.
pub fn most_bytes(version: Version) -> u64
    ensures { result ≡ most_bytes version }
{
    if version.is_fourth() {
        LARGE_FILE_BYTES
    } else {
        FILE_BYTES
    }
}
