//! Which micro-operations of a trace set the owner, group and permissions of a file or of a
//! directory. In the names here, `owner` and `rights` mean all three. A row is a list of places,
//! ascending. In an allowed set, the members of a row are the first of it, by P2 or P7.
ghost use Rattle.std.specs.Prelude.{◌≡◌, ◌<◌, ◌^◌, ℕ, length, true, IfOk, IsSome, OnOk};
ghost use Rattle.std.specs.BTreeMap.{get};
ghost use Rattle.std.specs.Ordering.{nat_cmp};
ghost use Rattle.cs_apm.specs.Owners.{directory_left, owner_left};
ghost use Rattle.cs_state.specs.Numbers.{kept_at};
ghost use Rattle.cs_state.specs.Owners.{rights_places, row_in, sets_rights, AreOwnerSteps};
ghost use Rattle.cs_state.specs.Owners.{directory_places, directory_set, AreDirectoryRows};
ghost use Rattle.cs_state.specs.Owners.{AreRightsRows};
ghost use Rattle.cs_state.specs.Shares.{mark_at};
ghost use Rattle.cs_state.specs.Steps.{members_in};

use crate::members::count_members;
use cs_apm::owners::{directory_after, owner_after};
use cs_entries::Node;
use cs_micro::MicroOp;
use cs_paths::passing::push_if;
use cs_trace::{Rights, Target};
use std::alloc::{AllocError, Global};
use std::collections::BTreeMap;

/// The places of the micro-operations that set the owner, group and permissions of files and
/// directories.
#[derive(Debug, Drop)]
pub struct OwnerSteps {
    /// For each file whose owner, group and permissions some micro-operation sets, by the file's
    /// number: the places of all that do. The making of a file isn't one of them.
    pub rows: BTreeMap<u32, Vec<u32>>,
    /// For each directory that some micro-operation makes, or whose owner, group and permissions
    /// one sets, by the directory's number: the places of all that do.
    pub directories: BTreeMap<u32, Vec<u32>>,
}

/// Whether the micro-operation sets the owner, group and permissions of the file: a `set_attr`.
fn sets_rights(file: u32, op: &MicroOp) -> bool
    ensures { result ≡ sets_rights file op.now }
{
    match op {
        MicroOp::SetAttr {
            target: Target::File(other),
            ..
        } => *other == file,
        _ => false,
    }
}

/// The places of the micro-operations that set the owner, group and permissions of the file.
fn rights_places(alloc: Global, file: u32, ops: &[MicroOp]) -> Result<Vec<u32>, AllocError>
    requires { length ops.now < 2 ^ 20 }
    ensures { IfOk result (λ places. places.items ≡ rights_places ops.now file) }
{
    let mut places = Vec::new(alloc);
    for place in 0..ops.len() {
        push_if(&mut places, place, sets_rights(file, &ops[place]))?;
    }
    Ok(places)
}

/// Adds the file's row: the places of the micro-operations that set its owner, group and
/// permissions. If the file has a row, nothing changes. After an error no row was added.
/// (`add_directory_row`, and `add_page_row` of `file_steps`, have the same body.)
fn add_file_row(
    alloc: Global,
    rows: &mut BTreeMap<u32, Vec<u32>>,
    file: u32,
    ops: &[MicroOp],
) -> Result<(), AllocError>
    requires { length ops.now < 2 ^ 20 }
    ensures each { OnOk result
        (AreRightsRows ops.now (get nat_cmp rows.old)
        → AreRightsRows ops.now (get nat_cmp rows.new)) }
    ensures keeps { OnOk result
        ((other : ℕ) → IsSome (get nat_cmp rows.old other) → IsSome (get nat_cmp rows.new other)) }
    ensures there { OnOk result (IsSome (get nat_cmp rows.new file)) }
{
    if rows.contains_key(&file) {
        return Ok(());
    }
    let row = rights_places(alloc, file, ops)?;
    rows.insert(file, row)?;
    Ok(())
}

/// The number of the directory that the micro-operation makes, or whose owner, group and
/// permissions it sets; None if it does neither. (`directory_set` of cs_same_states has the same
/// body.)
fn directory_set(op: &MicroOp) -> Option<u32>
    ensures { result ≡ directory_set op.now }
{
    match op {
        MicroOp::CreateDirEntry {
            node: Node::Directory(number),
            ..
        } => Some(*number),
        MicroOp::SetAttr {
            target: Target::Directory { number, .. },
            ..
        } => Some(*number),
        _ => None,
    }
}

/// The places of the micro-operations that make the directory or set its owner, group and
/// permissions.
fn directory_places(alloc: Global, directory: u32, ops: &[MicroOp]) -> Result<Vec<u32>, AllocError>
    requires { length ops.now < 2 ^ 20 }
    ensures { IfOk result (λ places. places.items ≡ directory_places ops.now directory) }
{
    let mut places = Vec::new(alloc);
    for place in 0..ops.len() {
        push_if(
            &mut places,
            place,
            directory_set(&ops[place]) == Some(directory),
        )?;
    }
    Ok(places)
}

/// Adds the directory's row: the places of the micro-operations that make it or set its owner,
/// group and permissions. If the directory has a row, nothing changes. After an error no row was
/// added. (`add_file_row`, and `add_page_row` of `file_steps`, have the same body.)
fn add_directory_row(
    alloc: Global,
    rows: &mut BTreeMap<u32, Vec<u32>>,
    directory: u32,
    ops: &[MicroOp],
) -> Result<(), AllocError>
    requires { length ops.now < 2 ^ 20 }
    ensures each { OnOk result
        (AreDirectoryRows ops.now (get nat_cmp rows.old)
        → AreDirectoryRows ops.now (get nat_cmp rows.new)) }
    ensures keeps { OnOk result
        ((other : ℕ) → IsSome (get nat_cmp rows.old other) → IsSome (get nat_cmp rows.new other)) }
    ensures there { OnOk result (IsSome (get nat_cmp rows.new directory)) }
{
    if rows.contains_key(&directory) {
        return Ok(());
    }
    let row = directory_places(alloc, directory, ops)?;
    rows.insert(directory, row)?;
    Ok(())
}

/// The rows of all files that have one: those whose owner, group and permissions some
/// micro-operation sets.
fn file_rows(alloc: Global, ops: &[MicroOp]) -> Result<BTreeMap<u32, Vec<u32>>, AllocError>
    requires { length ops.now < 2 ^ 20 }
    ensures { IfOk result
        (λ rows. (file : ℕ) → row_in rows file ≡ rights_places ops.now file) }
{
    let mut rows = BTreeMap::new(alloc);
    for op in ops {
        if let MicroOp::SetAttr {
            target: Target::File(file),
            ..
        } = op
        {
            add_file_row(alloc, &mut rows, *file, ops)?;
        }
    }
    Ok(rows)
}

/// The rows of all directories that have one: those that some micro-operation makes, or whose
/// owner, group and permissions one sets.
fn directory_rows(alloc: Global, ops: &[MicroOp]) -> Result<BTreeMap<u32, Vec<u32>>, AllocError>
    requires { length ops.now < 2 ^ 20 }
    ensures { IfOk result
        (λ rows. (directory : ℕ) → row_in rows directory ≡ directory_places ops.now directory) }
{
    let mut rows = BTreeMap::new(alloc);
    for op in ops {
        if let Some(directory) = directory_set(op) {
            add_directory_row(alloc, &mut rows, directory, ops)?;
        }
    }
    Ok(rows)
}

impl OwnerSteps {
    /// The rows of all files and directories of a trace with these micro-operations.
    pub fn of(alloc: Global, ops: &[MicroOp]) -> Result<OwnerSteps, AllocError>
        requires { length ops.now < 2 ^ 20 }
        ensures { IfOk result (AreOwnerSteps ops.now) }
    {
        let rows = file_rows(alloc, ops)?;
        let directories = directory_rows(alloc, ops)?;
        Ok(OwnerSteps { rows, directories })
    }

    /// The places of the micro-operations that make the directory or set its owner, group and
    /// permissions; empty if none does.
    pub fn directory_row(&self, directory: u32) -> &[u32]
        ensures { result.now ≡ row_in self.now.directories directory }
    {
        match self.directories.get(&directory) {
            Some(row) => row,
            None => &[],
        }
    }

    /// The places of the micro-operations that set the owner, group and permissions of the file,
    /// without its making; empty if none does.
    pub fn row(&self, file: u32) -> &[u32]
        ensures { result.now ≡ row_in self.now.rows file }
    {
        match self.rows.get(&file) {
            Some(row) => row,
            None => &[],
        }
    }
}

/// The owner, group and permissions of the file after the members: those that the last member in
/// `places` sets, or `owner`, those at the start or as it is made, if none is a member. `places` is
/// the file's row, of which the members must be the first. (`owner_left` of cs_apm finds the same,
/// and looks at all members.)
pub fn owner_after_members<'a>(
    file: u32,
    owner: &'a Rights,
    ops: &'a [MicroOp],
    places: &[u32],
    members: &[bool],
) -> &'a Rights
    requires places { places.now ≡ rights_places ops.now file }
    requires first { (i j : ℕ) → i < j → j < length places.now
        → mark_at members.now (kept_at places.now j) ≡ true
        → mark_at members.now (kept_at places.now i) ≡ true }
    requires long { length members.now ≡ length ops.now }
    ensures { result.now ≡ owner_left file owner.now ops.now (members_in members.now) }
{
    let count = count_members(members, places);
    if count == 0 {
        return owner;
    }
    owner_after(file, owner, &ops[places[count - 1] as usize])
}

/// The owner, group and permissions of the directory after the members: those that the last member
/// in `places` makes it with or sets, or `owner`, those at the start, if none is a member. `places`
/// is the directory's row, of which the members must be the first. (`directory_left` of cs_apm
/// finds the same, and looks at all members.)
pub fn directory_after_members<'a>(
    directory: u32,
    owner: &'a Rights,
    ops: &'a [MicroOp],
    places: &[u32],
    members: &[bool],
) -> &'a Rights
    requires places { places.now ≡ directory_places ops.now directory }
    requires first { (i j : ℕ) → i < j → j < length places.now
        → mark_at members.now (kept_at places.now j) ≡ true
        → mark_at members.now (kept_at places.now i) ≡ true }
    requires long { length members.now ≡ length ops.now }
    ensures { result.now ≡ directory_left directory owner.now ops.now (members_in members.now) }
{
    let count = count_members(members, places);
    if count == 0 {
        return owner;
    }
    directory_after(directory, owner, &ops[places[count - 1] as usize])
}
