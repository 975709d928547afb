//! The entries of a directory by their names, whatever a state has there. Entries are in the order
//! of their directories' numbers and then of names, as bytes.
ghost use Rattle.std.specs.Prelude.{◌≡◌, ◌<◌, ◌≤◌, ℕ, length};
ghost use Rattle.std.specs.Option.{option_copied, option_map};
ghost use Rattle.cs_entries.specs.Paths.{entry_in};
ghost use Rattle.cs_apm.specs.Slots.{AreAscending};
ghost use Rattle.cs_state.specs.Named.{place_of_entry, AreAfterName};

use cs_apm::walk::range_of;
use cs_entries::Entry;
use cs_names::Name;

/// The place of the entry with this name in the directory; None if the trace has no such entry.
pub fn place_of_entry(entries: &[Entry], directory: u32, name: &str) -> Option<usize>
    requires { AreAscending entries.now }
    ensures { result ≡ place_of_entry entries.now (entry_in directory name.now) }
{
    let (first, end) = range_of(entries, directory);
    let run = &entries[first..end];
    let place = run.partition_point(|entry| entry.name.as_str() < name);
    if place < run.len() && run[place].name.as_str() == name {
        Some(first + place)
    } else {
        None
    }
}

/// The range of the places of those of the directory's entries whose names come after `last`, or of
/// all of them if `last` is None: the first place, and the one after the last. Both are the same if
/// there are none.
pub fn range_after(entries: &[Entry], directory: u32, last: Option<&Name>) -> (usize, usize)
    requires { AreAscending entries.now }
    ensures order { result.0 ≤ result.1 }
    ensures within { result.1 ≤ length entries.now }
    ensures names { AreAfterName entries.now directory (option_copied last.entry) result.0
        result.1 }
{
    let (first, end) = range_of(entries, directory);
    let run = &entries[first..end];
    let passed = match last {
        None => 0,
        Some(last) => run.partition_point(|entry| entry.name.as_str() <= last.as_str()),
    };
    (first + passed, end)
}
