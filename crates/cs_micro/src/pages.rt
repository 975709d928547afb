//! The pages of a file. ext4 and XFS were seen to leave sizes and zeros up to the end of a page:
//! docs/MODEL.md, "Sizes in steps" and "The zeroed page".
ghost use Rattle.std.specs.Prelude.{◌≡◌, ◌+◌, ◌<◌, ◌≤◌, replicate};
ghost use Rattle.cs_micro.specs.Pages.{grows_past_page, page_end, zeros_behind};

use cs_trace::LARGE_FILE_BYTES;

/// Bytes of a page, whatever the size of a block is. cs_state has the same constant in
/// `file_steps`, by which it reads files.
pub const PAGE_BYTES: u64 = 4_096;

/// The end of the page that an offset is in; of an offset at which a page ends, 0 too, the offset
/// itself.
pub fn page_end(offset: u64) -> u64
    requires { offset ≤ LARGE_FILE_BYTES }
    ensures value { result ≡ page_end offset }
    ensures within { result ≤ LARGE_FILE_BYTES }
{
    (offset + (PAGE_BYTES - 1)) / PAGE_BYTES * PAGE_BYTES
}

/// Whether a file of `size` bytes that grows to `end` bytes passes the end of its last page, which
/// is only partly used.
pub fn grows_past_page(size: u64, end: u64) -> bool
    requires grows { size < end }
    requires limit { end ≤ LARGE_FILE_BYTES }
    ensures { result ≡ grows_past_page size end }
{
    let page = page_end(size);
    size < page && page < end
}

/// How many bytes are zeroed before a file of `size` bytes is cut to `to` bytes: those from `to` to
/// the end of the page or of the file, whichever comes first. 0 if the file isn't cut, or is cut
/// between two pages.
pub fn count_zeros(size: u64, to: u64) -> usize
    requires { to ≤ LARGE_FILE_BYTES }
    ensures zeros { replicate result 0 ≡ zeros_behind size to }
    ensures page { result < PAGE_BYTES }
    ensures limit { to + result ≤ LARGE_FILE_BYTES }
{
    let end = page_end(to).min(size);
    end.saturating_sub(to) as usize
}
