//! The directory above the path of a start line, with the text that spells it. Most often the path
//! of the next line is in the same directory, and its text begins with that text: then only its
//! last name is checked.
ghost use Rattle.std.specs.Prelude.{◌≡◌, ◌<◌, ◌∷◌, ◌++◌, ℕ, List, [], IfOk, IfSome, Some, length};
ghost use Rattle.cs_names.specs.Legal.{IsLegalName};
ghost use Rattle.cs_tree_model.specs.Tree.{parent_path};
ghost use Rattle.cs_start.specs.Names.{entry_path_of, path_of};

use crate::path_text::PathText;
use cs_names::{Name, Path};
use std::alloc::{AllocError, Global};
use std::marker::Model;

/// A directory of the start, with the text that spells its path if that is known: that of the last
/// start line, or the one whose entries are kept apart. Contracts see the path.
#[derive(Drop)]
pub struct LastDirectory {
    /// The path.
    path: Path,
    /// The text that spells the path, empty for the root: with a `/` and a name, it spells a path
    /// in the directory. None if the text isn't known.
    text: Option<String>,
    /// How many names the path has; 0 if the text isn't known.
    count: usize,
}

impl Model for LastDirectory {
    ghost use Rattle.std.specs.Prelude.{List, ℕ, option_map, string_bytes};
    ghost use Rattle.cs_start.specs.Names.{MaySpell};

    ghost Value = { List (List ℕ) };

    ghost view = { λ directory. directory.path };

    ghost invariant = { λ directory.
        MaySpell directory.count (option_map string_bytes directory.text) directory.path };
}

/// The parent of the path that the text spells, with the text that spells the parent: the part
/// before the last `/`. None if the parent is the root, or if that part spells no path or what
/// follows is no legal name.
fn text_above<'a>(text: &'a str) -> Option<PathText<'a>>
    ensures above { IfSome result (λ above. (p : List (List ℕ))
        → path_of text.now ≡ Some p → above ≡ parent_path p) }
    ensures some { IfSome result (λ above. 0 < length above) }
{
    let (above, name) = text.rsplit_once('/')?;
    match Name::check(name.as_bytes()) {
        Ok(_) => PathText::of_entry(above),
        Err(_) => None,
    }
}

/// The name that follows `above` and a `/` in the text, if it is a legal name; None for any other
/// text.
fn name_after<'a>(text: &'a str, above: &str) -> Option<&'a str>
    ensures cut { IfSome result (λ name. text.now ≡ above.now ++ 47 ∷ name.now) }
    ensures legal { IfSome result (λ name. IsLegalName name.now) }
{
    let rest = text.as_bytes().strip_prefix(above.as_bytes())?;
    let last = rest.strip_prefix(b"/".as_slice())?;
    match Name::check(last) {
        Ok(name) => Some(name),
        Err(_) => None,
    }
}

impl LastDirectory {
    /// The directory with this path, whose text isn't known unless it is the root.
    fn without_text(alloc: Global, path: Path) -> LastDirectory
        ensures { result ≡ path }
    {
        if path.names().is_empty() {
            return LastDirectory {
                path,
                text: Some(String::new(alloc)),
                count: 0,
            };
        }
        LastDirectory {
            path,
            text: None,
            count: 0,
        }
    }

    /// The directory above the path, which `text` spells, too; above the root is the root. The text
    /// of the directory is known then, unless its path has too many names (`PathText::is_long`).
    pub fn parent_of(
        alloc: Global,
        path: &Path,
        text: &PathText<'_>,
    ) -> Result<LastDirectory, AllocError>
        requires { text.now ≡ path.now }
        ensures { IfOk result (λ directory. directory ≡ parent_path path.now) }
    {
        let above = Path::of(alloc, &path.names().parent())?;
        match text_above(text.text()) {
            Some(spelled) if !spelled.is_long() => Ok(LastDirectory {
                path: above,
                text: Some(String::from_str(alloc, spelled.text())?),
                count: spelled.len(),
            }),
            _ => Ok(LastDirectory::without_text(alloc, above)),
        }
    }

    /// The path of the directory.
    pub fn path(&self) -> &Path
        ensures { result.now ≡ self.now }
    {
        &self.path
    }

    /// Whether the text of the directory has 64 bytes or more: a rough bound, from which on whole
    /// paths in the directory are slow to compare. False if the text isn't known. No clause says
    /// so, since it decides only how entries are kept. (`PathText::is_long` counts names.)
    pub fn has_long_text(&self) -> bool {
        match &self.text {
            Some(text) => text.len() >= 64,
            None => false,
        }
    }

    /// The path of the name in the directory, as a new Path.
    pub fn child(&self, alloc: Global, name: &str) -> Result<Path, AllocError>
        requires { IsLegalName name.now }
        ensures { IfOk result (λ path. path ≡ self.now ++ name.now ∷ []) }
    {
        self.path.child(alloc, name)
    }

    /// A copy of the directory, with its text if that is known.
    pub fn try_clone(&self, alloc: Global) -> Result<LastDirectory, AllocError>
        ensures { IfOk result (λ copy. copy ≡ self.now) }
    {
        Ok(LastDirectory {
            path: self.path.try_clone(alloc)?,
            text: match &self.text {
                Some(text) => Some(text.clone()?),
                None => None,
            },
            count: self.count,
        })
    }

    /// The last name of the path that the text spells, if the text is that of the directory, a `/`
    /// and a legal name; only that name is checked. None for any other text, which may still spell
    /// a path in the directory; and for every text if that of the directory isn't known. It takes
    /// no memory.
    pub fn name_in_text<'a>(&self, text: &'a str) -> Option<&'a str>
        ensures entry { IfSome result (λ name.
            entry_path_of text.now ≡ Some (self.now ++ name.now ∷ [])) }
        ensures legal { IfSome result (λ name. IsLegalName name.now) }
    {
        match &self.text {
            Some(above) => name_after(text, above.as_str()),
            None => None,
        }
    }

    /// The path that the text spells, with its last name, if `name_in_text` finds that name; None
    /// for any other text, which may still spell a path. It takes no memory.
    pub fn path_in<'a>(&self, text: &'a str) -> Option<(PathText<'a>, &'a str)>
        ensures path { IfSome result (λ parts. entry_path_of text.now ≡ Some parts.0) }
        ensures named { IfSome result (λ parts. parts.0 ≡ self.now ++ parts.1.now ∷ []) }
    {
        let Some(above) = &self.text else {
            return None;
        };
        let Some(name) = name_after(text, above.as_str()) else {
            return None;
        };
        Some((PathText::of_checked(text, self.count + 1), name))
    }
}
