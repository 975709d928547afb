//! Laws: no call that changes an overlay changes the lower tree. Each law is the contract of a
//! function that makes the call; no command calls them.
ghost use Rattle.std.specs.Prelude.{◌≡◌, ◌≢◌, ◌+◌, ◌<◌, ◌^◌, ℕ, List, None, IfOk, IfSome, IsSome};
ghost use Rattle.std.specs.Prelude.{length};
ghost use Rattle.std.specs.Arc.{arc_value};
ghost use Rattle.cs_tree_model.specs.Stores.{tree_with_change, tree_with_file, tree_without_file};
ghost use Rattle.cs_tree_model.specs.Stores.{written_to, CanStamp, CanStampParent};
ghost use Rattle.cs_tree_model.specs.Stores.{IsDirectoryNumbered, KeepsKind};
ghost use Rattle.cs_tree_model.specs.Tree.{content_numbered, number_in, parent_numbered};
ghost use Rattle.cs_tree_model.specs.Tree.{record_numbered};

use crate::overlay::Overlay;
use cs_names::Name;
use cs_tree_model::{Change, New, Stamp, TreeRead, TreeStore};
use std::alloc::{AllocError, Global};
use std::sync::Arc;

/// A write into an overlay doesn't change the lower tree: a second overlay, made over it
/// afterwards, starts with the same tree as the first did. Returns both, the written one first. The
/// only error is that memory runs out.
pub fn lower_stays<L: TreeRead + Drop>(
    alloc: Global,
    lower: &Arc<L>,
    number: u64,
    offset: u64,
    bytes: &[u8],
    stamp: Stamp,
) -> Result<(Overlay<L>, Overlay<L>), AllocError>
    requires file { IsSome (content_numbered (L.tree (arc_value lower.now)) number) }
    requires some { 0 < length bytes.now }
    requires room { offset + length bytes.now < 2 ^ 63 }
    requires vers { CanStamp (L.tree (arc_value lower.now)) number }
    ensures first { IfOk result
        (λ both. both.0 ≡ written_to number offset bytes.now stamp (L.tree (arc_value lower.now))) }
    ensures second { IfOk result (λ both. both.1 ≡ L.tree (arc_value lower.now)) }
{
    let mut first = Overlay::over(alloc, lower.clone()?);
    first.write_at(alloc, number, offset, bytes, stamp)?;
    let second = Overlay::over(alloc, lower.clone()?);
    Ok((first, second))
}

/// An `add` to an overlay doesn't change the lower tree: a second overlay, made over it afterwards,
/// starts with the same tree as the first did. Returns both, the one with the new file first. The
/// only error is that memory runs out.
pub fn lower_stays_after_add<L: TreeRead + Drop>(
    alloc: Global,
    lower: &Arc<L>,
    directory: u64,
    name: Name,
    new: New,
    stamp: Stamp,
) -> Result<(Overlay<L>, Overlay<L>), AllocError>
    requires directory { IsDirectoryNumbered (L.tree (arc_value lower.now)) directory }
    requires free { number_in (L.tree (arc_value lower.now)) directory name ≡ None }
    requires vers { CanStamp (L.tree (arc_value lower.now)) directory }
    requires next { (L.tree (arc_value lower.now)).next < 2 ^ 64 }
    ensures first { IfOk result
        (λ both. both.0 ≡ tree_with_file directory name new stamp (L.tree (arc_value lower.now))) }
    ensures second { IfOk result (λ both. both.1 ≡ L.tree (arc_value lower.now)) }
{
    let mut first = Overlay::over(alloc, lower.clone()?);
    first.add(alloc, directory, name, new, stamp)?;
    let second = Overlay::over(alloc, lower.clone()?);
    Ok((first, second))
}

/// A `remove` from an overlay doesn't change the lower tree: a second overlay, made over it
/// afterwards, starts with the same tree as the first did. Returns both, the one without the file
/// first. The only error is that memory runs out.
pub fn lower_stays_after_remove<L: TreeRead + Drop>(
    alloc: Global,
    lower: &Arc<L>,
    number: u64,
    stamp: Stamp,
) -> Result<(Overlay<L>, Overlay<L>), AllocError>
    requires not_root { number ≢ 0 }
    requires there { IsSome (record_numbered (L.tree (arc_value lower.now)) number) }
    requires empty { (x : List ℕ) → number_in (L.tree (arc_value lower.now)) number x ≡ None }
    requires vers { CanStampParent (L.tree (arc_value lower.now)) number }
    ensures first { IfOk result
        (λ both. both.0 ≡ tree_without_file number stamp (L.tree (arc_value lower.now))) }
    ensures second { IfOk result (λ both. both.1 ≡ L.tree (arc_value lower.now)) }
{
    let mut first = Overlay::over(alloc, lower.clone()?);
    first.remove(alloc, number, stamp)?;
    let second = Overlay::over(alloc, lower.clone()?);
    Ok((first, second))
}

/// A `change` in an overlay doesn't change the lower tree: a second overlay, made over it
/// afterwards, starts with the same tree as the first did. Returns both, the changed one first. The
/// only error is that memory runs out.
pub fn lower_stays_after_change<L: TreeRead + Drop>(
    alloc: Global,
    lower: &Arc<L>,
    number: u64,
    change: &Change,
    stamp: Stamp,
) -> Result<(Overlay<L>, Overlay<L>), AllocError>
    requires there { IsSome (record_numbered (L.tree (arc_value lower.now)) number) }
    requires vers { CanStamp (L.tree (arc_value lower.now)) number }
    requires file { IsSome change.now.length
        → IsSome (content_numbered (L.tree (arc_value lower.now)) number) }
    requires room { IfSome change.now.length (λ n. n < 2 ^ 63) }
    requires kind { KeepsKind change.now (record_numbered (L.tree (arc_value lower.now)) number) }
    requires not_root { IsSome change.now.name → number ≢ 0 }
    requires free { IfSome change.now.name
        (λ y. IfSome (parent_numbered (L.tree (arc_value lower.now)) number)
        (λ d. number_in (L.tree (arc_value lower.now)) d y ≡ None)) }
    requires vers_above { IsSome change.now.name
        → CanStampParent (L.tree (arc_value lower.now)) number }
    ensures first { IfOk result
        (λ both. both.0 ≡ tree_with_change number change.now stamp (L.tree (arc_value lower.now))) }
    ensures second { IfOk result (λ both. both.1 ≡ L.tree (arc_value lower.now)) }
{
    let mut first = Overlay::over(alloc, lower.clone()?);
    first.change(alloc, number, change, stamp)?;
    let second = Overlay::over(alloc, lower.clone()?);
    Ok((first, second))
}
