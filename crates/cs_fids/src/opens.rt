//! The numbers of a connection's open fids, from the greatest to the least, so that the least is
//! the last of the vector.
ghost use Rattle.std.specs.Prelude.{◌≡◌, ℕ, ◌<◌, ◌≤◌, ◌==◌, ◌&&◌, ◌||◌, false, length, not, true};
ghost use Rattle.std.specs.Prelude.{vec_capacity, vec_len};
ghost use Rattle.std.specs.List.{AllWithin};
ghost use Rattle.cs_fids.specs.Opens.{IsDescending, is_among};

/// Adds the number of a fid that was opened, at the index that keeps the numbers descending. The
/// number isn't among them yet, and the caller has reserved memory for it.
pub(crate) fn add_open_fid(opens: &mut Vec<u32>, fid: u32)
    requires descending { IsDescending opens.old.items }
    requires new { is_among fid opens.old.items ≡ false }
    requires room { vec_len opens.old < vec_capacity opens.old }
    ensures among { (n : ℕ)
        → is_among n opens.new.items ≡ (n == fid || is_among n opens.old.items) }
    ensures descending { IsDescending opens.new.items }
    ensures capacity { vec_capacity opens.new ≡ vec_capacity opens.old }
{
    let index = index_among_open(opens.as_slice(), fid);
    match opens.insert(index, fid) {
        Ok(()) => {}
        // the caller has reserved the memory: `room`
        Err(_) => unreachable!(),
    }
}

/// Removes the number of a fid that is no longer open. The number is among them. The others keep
/// their order, and the vector its memory.
pub(crate) fn remove_open_fid(opens: &mut Vec<u32>, fid: u32)
    requires descending { IsDescending opens.old.items }
    requires there { is_among fid opens.old.items ≡ true }
    ensures among { (n : ℕ)
        → is_among n opens.new.items ≡ (not (n == fid) && is_among n opens.old.items) }
    ensures descending { IsDescending opens.new.items }
    ensures capacity { vec_capacity opens.new ≡ vec_capacity opens.old }
{
    let index = index_among_open(opens.as_slice(), fid);
    opens.remove(index);
}

/// The index at which `fid` is, or would be inserted, among numbers that descend: that of the first
/// one that isn't greater, or the length if all are greater.
fn index_among_open(opens: &[u32], fid: u32) -> usize
    requires { IsDescending opens.now }
    ensures within { result ≤ length opens.now }
    ensures greater { AllWithin (λ n. fid < n) opens.now 0 result }
    ensures rest { AllWithin (λ n. n ≤ fid) opens.now result (length opens.now) }
{
    opens.partition_point(|number| *number > fid)
}
