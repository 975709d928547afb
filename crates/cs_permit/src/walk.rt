//! One element of a walk: the step from a file by one name (walk(5)). K6 is "not a directory", K7
//! "no search right", K8 "no such name".
ghost use Rattle.std.specs.Prelude.{◌≡◌};
ghost use Rattle.std.specs.Option.{option_map};
ghost use Rattle.cs_tree_model.specs.Record.{metadata_of_ref};
ghost use Rattle.cs_permit.specs.Refusals.{first_failing};
ghost use Rattle.cs_permit.specs.Rules.{file_at};
ghost use Rattle.cs_permit.specs.Walks.{element, element_rules, is_up, number_by_name};

use crate::rules::{is_directory, may_access};
use cs_names::{Name, RuleId, UserName};
use cs_tree_model::{Metadata, TreeRead};
use cs_users::{Right, Users};

/// Whether the name is `..`, which leads to the parent.
fn is_up(name: &str) -> bool
    ensures { result ≡ is_up name.now }
{
    name == ".."
}

/// The number of the file to which a name leads from the file `number`. `..` leads to the parent,
/// and from the root to the root; another legal name leads to the entry of that name. None if the
/// name isn't legal or there is no such file.
// a walk spends a good part of its time on these few calls
#[inline(always)]
fn next_number<T: TreeRead>(tree: &T, number: u64, name: &str) -> Option<u64>
    ensures { result ≡ number_by_name (T.tree tree.now) number name.now }
{
    if is_up(name) {
        return tree.parent_of(number);
    }
    let name = Name::check(name.as_bytes()).ok()?;
    tree.find_number(number, name)
}

/// Walks one element from the file of that number: the number of the file to which it leads, or the
/// first of K6, K7 and K8 that stops it. `file` is the record of that number, which the caller has
/// looked up; without a record only K8 can stop it. It allocates nothing, and looks up a name but
/// no record.
// a record is large: out of line, it would be passed in memory
#[inline(always)]
pub fn walk_element<T: TreeRead>(
    tree: &T,
    users: &Users,
    user: &UserName,
    number: u64,
    file: Option<Metadata>,
    name: &str,
) -> Result<u64, RuleId>
    requires { option_map metadata_of_ref file ≡ file_at (T.tree tree.now) number }
    ensures { result ≡ element (T.tree tree.now) users.now user.now number name.now }
{
    if let Some(file) = file {
        if !is_directory(&file) {
            return Err(RuleId::K6);
        }
        if !may_access(users, user, Right::Execute, &file) {
            return Err(RuleId::K7);
        }
    }
    next_number(tree, number, name).ok_or(RuleId::K8)
}

/// Walks one element as `walk_element` does, but looks up the record of `number` itself. If no file
/// has the number, K8 stops it. It allocates nothing.
pub fn walk_element_at<T: TreeRead>(
    tree: &T,
    users: &Users,
    user: &UserName,
    number: u64,
    name: &str,
) -> Result<u64, RuleId>
    ensures { result ≡ element (T.tree tree.now) users.now user.now number name.now }
{
    walk_element(tree, users, user, number, tree.record(number), name)
}

/// The first of K6, K7 and K8 that stops one element of a walk from the file of that number; None
/// if the element leads to a file.
pub fn first_of_element<T: TreeRead>(
    tree: &T,
    users: &Users,
    user: &UserName,
    number: u64,
    name: &str,
) -> Option<RuleId>
    ensures { result
        ≡ first_failing (element_rules (T.tree tree.now) users.now user.now number name.now) }
{
    walk_element_at(tree, users, user, number, name).err()
}
