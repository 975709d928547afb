//! The bits of an open's mode and of a file's permissions, and what each of them asks for (open(5),
//! stat(5)).
ghost use Rattle.std.specs.Prelude.{◌≡◌};
ghost use Rattle.cs_permit.specs.Modes.{are_bad_permissions, asks_execute, asks_read, asks_write};
ghost use Rattle.cs_permit.specs.Modes.{covers_read, covers_write, given_bits, has_bit_outside};
ghost use Rattle.cs_permit.specs.Modes.{is_append_or_exclusive, is_bad_open_mode, removes_on_close};
ghost use Rattle.cs_permit.specs.Modes.{truncates};

use cs_tree_model::{DMAPPEND, DMDIR, DMEXCL, DMTMP, is_directory_mode};
use cs_users::has_bit;

/// A bit of an open's mode: the open empties the file (open(5)).
pub const OTRUNC: u8 = 0x10;
/// A bit of an open's mode: the file is removed when the open ends (open(5)).
pub const ORCLOSE: u8 = 0x40;
/// All bits that an open's mode may have: the low two, OTRUNC and ORCLOSE.
pub const OPEN_BITS: u8 = 0x53;
/// All bits that a client may give a file: DMDIR, DMAPPEND, DMEXCL, DMTMP and the permissions.
/// DMSYMLINK isn't among them, so no client makes a symbolic link.
pub const GIVEN_BITS: u32 = DMDIR | DMAPPEND | DMEXCL | DMTMP | 0o777;

/// Whether an open in that mode needs the right to read: its low two bits are 0 or 2.
pub fn asks_read(mode: u8) -> bool
    ensures { result ≡ asks_read mode }
{
    mode % 4 == 0 || mode % 4 == 2
}

/// Whether an open in that mode needs the right to write: its low two bits are 1 or 2, or it
/// empties the file.
pub fn asks_write(mode: u8) -> bool
    ensures { result ≡ asks_write mode }
{
    covers_write(mode) || truncates(mode)
}

/// Whether an open in that mode needs the right to execute: its low two bits are 3.
pub fn asks_execute(mode: u8) -> bool
    ensures { result ≡ asks_execute mode }
{
    mode % 4 == 3
}

/// Whether an open in that mode empties the file: it has OTRUNC.
pub fn truncates(mode: u8) -> bool
    ensures { result ≡ truncates mode }
{
    mode & OTRUNC != 0
}

/// Whether the end of an open in that mode removes the file: it has ORCLOSE.
pub fn removes_on_close(mode: u8) -> bool
    ensures { result ≡ removes_on_close mode }
{
    mode & ORCLOSE != 0
}

/// Whether an open in that mode allows reads: its low two bits are 0, 2 or 3. So what is open for
/// execution may be read without the right to read.
pub fn covers_read(mode: u8) -> bool
    ensures { result ≡ covers_read mode }
{
    asks_read(mode) || asks_execute(mode)
}

/// Whether an open in that mode allows writes: its low two bits are 1 or 2.
pub fn covers_write(mode: u8) -> bool
    ensures { result ≡ covers_write mode }
{
    mode % 4 == 1 || mode % 4 == 2
}

/// Whether the mode has a bit outside OPEN_BITS, which no open's mode may have.
pub fn is_bad_open_mode(mode: u8) -> bool
    ensures { result ≡ is_bad_open_mode mode }
{
    mode & OPEN_BITS != mode
}

/// Whether the mode of a file has DMAPPEND or DMEXCL, which no directory may have.
pub fn is_append_or_exclusive(mode: u32) -> bool
    ensures { result ≡ is_append_or_exclusive mode }
{
    has_bit(mode, DMAPPEND) || has_bit(mode, DMEXCL)
}

/// Whether the mode of a file has a bit outside GIVEN_BITS, which no client may give.
pub fn has_bit_outside_given(mode: u32) -> bool
    ensures { result ≡ has_bit_outside given_bits mode }
{
    mode & GIVEN_BITS != mode
}

/// Whether a create can't have these permissions and this open mode (rule C5). They may not have a
/// bit that no client may give. A directory may not be append-only or exclusive, and is opened only
/// in mode 0. `is_bad_mode` of `wstat` has the same tests of the bits.
pub fn are_bad_permissions(perm: u32, mode: u8) -> bool
    ensures { result ≡ are_bad_permissions perm mode }
{
    has_bit_outside_given(perm)
        || (is_directory_mode(perm) && is_append_or_exclusive(perm))
        || (is_directory_mode(perm) && mode != 0)
}
