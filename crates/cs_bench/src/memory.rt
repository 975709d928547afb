//! How much memory the program has, as Linux reports it.

use std::rt::Files;
use std::{fs, io};

/// The bytes that the program has in memory; 0 if the text that Linux gives has no such number.
pub fn resident(rt: &(impl Files + AllocGlobal)) -> io::Result<u64> {
    let text = fs::read_to_string(rt, "/proc/self/statm")?;
    let word = text.as_str().split(' ').nth(1);
    let pages = match word {
        Some(word) => word.parse::<u64>().unwrap_or(0),
        None => 0,
    };
    Ok(pages.wrapping_mul(4_096))
}
