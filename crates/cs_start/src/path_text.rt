//! A path as the text of a line spells it: checked without taking memory, and copied only later. A
//! text spells a path if it is `/`, or has a legal name after each `/`.
ghost use Rattle.std.specs.Prelude.{◌≡◌, ◌<◌, ◌+◌, ◌↔◌, IfOk, IsTrue, Some, length};
ghost use Rattle.cs_names.specs.declared.limits.TheConstants.{TRACE_PATH_NAMES};
ghost use Rattle.cs_start.specs.Names.{entry_path_of, path_of, spelled_path};

use cs_names::Path;
use cs_names::limits::TRACE_PATH_NAMES;
use std::alloc::{AllocError, Global};
use std::marker::Model;

/// A text that spells a path, and how many names the path has. Contracts see the path.
#[derive(Drop)]
pub struct PathText<'a> {
    /// The text, which spells a path.
    text: &'a str,
    /// How many names the path has; 0 for the root.
    count: usize,
}

impl<'a> Model for PathText<'a> {
    ghost use Rattle.std.specs.Prelude.{◌≡◌, List, ℕ, Some, length};
    ghost use Rattle.cs_start.specs.Names.{path_of, spelled_path};

    ghost Value = { List (List ℕ) };

    ghost view = { λ path. spelled_path path.text.now };

    ghost invariant = { λ path. (path_of path.text.now ≡ Some (spelled_path path.text.now))
        × (path.count ≡ length (spelled_path path.text.now)) };
}

impl<'a> PathText<'a> {
    /// The path that the text spells, which may be the root; None if it spells none.
    pub fn of(text: &'a str) -> Option<PathText<'a>>
        ensures { result ≡ path_of text.now }
    {
        match Path::check(text) {
            Ok(count) => Some(PathText { text, count }),
            Err(_) => None,
        }
    }

    /// The path that the text spells; None if it spells none, or the root, which is no entry of a
    /// directory.
    pub fn of_entry(text: &'a str) -> Option<PathText<'a>>
        ensures { result ≡ entry_path_of text.now }
    {
        let path = PathText::of(text)?;
        if path.len() == 0 {
            return None;
        }
        Some(path)
    }

    /// The path of a text that is known to spell a path of `count` names. The text isn't checked
    /// again.
    pub(crate) fn of_checked(text: &'a str, count: usize) -> PathText<'a>
        requires legal { path_of text.now ≡ Some (spelled_path text.now) }
        requires count { count ≡ length (spelled_path text.now) }
        ensures { result ≡ spelled_path text.now }
    {
        PathText { text, count }
    }

    /// The text that spells the path.
    pub fn text(&self) -> &'a str
        ensures { path_of result.now ≡ Some self.now }
    {
        self.text
    }

    /// How many names the path has; 0 for the root.
    pub fn len(&self) -> usize
        ensures { result ≡ length self.now }
    {
        self.count
    }

    /// The path that the text spells, copied as a Path. An error means out of memory.
    pub fn to_path(&self, alloc: Global) -> Result<Path, AllocError>
        ensures { IfOk result (λ path. path ≡ self.now) }
    {
        Path::from_text(alloc, self.text)
    }

    /// Whether the path has more than TRACE_PATH_NAMES + 1 names. The text of such a directory
    /// isn't kept, since each path in it is TooLarge.
    pub(crate) fn is_long(&self) -> bool
        ensures { IsTrue result ↔ (TRACE_PATH_NAMES + 1 < length self.now) }
    {
        self.len() > TRACE_PATH_NAMES + 1
    }
}
