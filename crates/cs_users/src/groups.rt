//! The leader and the members that each line of a users file names. They are kept as places: the
//! indexes of their rows.
ghost use Rattle.std.specs.Prelude.{◌≡◌, ◌==◌, ◌<◌, ◌++◌, ◌∷◌, [], false, length, IfOk, IfSome};
ghost use Rattle.std.specs.List.{filter_map, list_any};
ghost use Rattle.std.specs.List.Sorted.{IsStrictlyIncreasing};
ghost use Rattle.std.specs.Option.{option_map_or};
ghost use Rattle.cs_users.specs.Groups.{somebody_at};
ghost use Rattle.cs_users.specs.Kept.{AreGroups, IsGroup};
ghost use Rattle.cs_users.specs.Marks.{AreMarks, is_marked};
ghost use Rattle.cs_users.specs.Rows.{AreNamed};

use crate::marks::Marks;
use crate::row::Row;
use crate::rows::Rows;
use std::alloc::{AllocError, Global};

/// The leader and the members of one line's group, as places of rows. A name that no row has is
/// left out, and so is `none`. Only `groups_of` makes one, so members and marks agree.
#[derive(Debug, Drop)]
pub(crate) struct Group {
    // None if the line names no leader, or one that no row has, or `none`
    leader: Option<usize>,
    // in ascending order, each once
    members: Vec<usize>,
    // the members again, as bits; None if they are few
    marks: Option<Marks>,
}

/// A group has marks if it has more than one member for this many rows. Of fewer members the marks
/// would take more than sixteen times the memory, so these are found by binary search.
const FEW_AMONG: usize = 1024;

/// The places of the members that the line lists, in its order and as often as it lists them. Names
/// that no row has, and `none`, are left out. The only error is that memory runs out.
fn listed_members(alloc: Global, rows: &Rows, row: &Row) -> Result<Vec<usize>, AllocError>
    ensures { IfOk result
        (λ places. places.items ≡ filter_map (somebody_at rows.now) row.now.members) }
{
    row.members()
        .filter_map(|name| rows.place_unless_none(name))
        .collect(alloc)
}

/// The places of the members that the line lists, and after them that of the line's own name, which
/// is a member of its group (unless it is `none`). A place may come twice. The only error is that
/// memory runs out.
fn all_members(alloc: Global, rows: &Rows, row: &Row) -> Result<Vec<usize>, AllocError>
    ensures { IfOk result
        (λ places. places.items
        ≡ filter_map (somebody_at rows.now) (row.now.members ++ row.now.name ∷ [])) }
{
    let mut places = listed_members(alloc, rows, row)?;
    if let Some(own) = rows.place_unless_none(row.name()) {
        places.push(own)?;
    }
    Ok(places)
}

/// The members' marks among `count` rows; None if the members are so few that a search is enough.
/// The only error is that memory runs out.
fn marks_if_many(
    alloc: Global,
    count: usize,
    members: &[usize],
) -> Result<Option<Marks>, AllocError>
    ensures { IfOk result
        (λ kept. IfSome kept (λ marks. AreMarks count members.now marks.words.items)) }
{
    if members.len() <= count / FEW_AMONG {
        return Ok(None);
    }
    Ok(Some(Marks::of(alloc, count, members)?))
}

impl Group {
    /// The group of the row at that place, which must exist: its leader, and each of its members
    /// once. The row's own name is a member, unless it is `none`. The only error is that memory
    /// runs out.
    fn of(alloc: Global, rows: &Rows, place: usize) -> Result<Group, AllocError>
        requires { place < length rows.now }
        ensures { IfOk result (IsGroup rows.now place) }
    {
        let row = rows.at(place);
        let mut members = all_members(alloc, rows, row)?;
        members.sort_unstable();
        members.dedup();
        let marks = marks_if_many(alloc, rows.len(), members.as_slice())?;
        Ok(Group {
            leader: rows.place_unless_none(row.leader()),
            members,
            marks,
        })
    }

    /// The places of the members, in ascending order.
    pub(crate) fn members(&self) -> &[usize]
        ensures { result.now ≡ self.now.members.items }
    {
        self.members.as_slice()
    }

    /// Whether the user at that place is a member. The members must ascend, and the marks, if there
    /// are any, must be theirs, as in each group that `groups_of` makes.
    pub(crate) fn contains(&self, user: usize) -> bool
        requires ascending { IsStrictlyIncreasing self.now.members.items }
        requires marked { IfSome self.now.marks
            (λ marks. is_marked marks.words.items user
            ≡ list_any (λ place. place == user) self.now.members.items) }
        ensures { result ≡ list_any (λ place. place == user) self.now.members.items }
    {
        match &self.marks {
            Some(marks) => marks.is_marked(user),
            None => self.members.binary_search(&user).is_ok(),
        }
    }

    /// Whether the line names the user at that place as the leader; false if it names no leader, or
    /// one that no row has, or `none`.
    pub(crate) fn is_led_by(&self, user: usize) -> bool
        ensures { result ≡ option_map_or (λ place. place == user) self.now.leader false }
    {
        match self.leader {
            Some(leader) => leader == user,
            None => false,
        }
    }
}

/// The group of each row, in the order of the rows. The only error is that memory runs out.
pub(crate) fn groups_of(alloc: Global, rows: &Rows) -> Result<Vec<Group>, AllocError>
    ensures named { AreNamed rows.now }
    ensures groups { IfOk result (λ groups. AreGroups rows.now (length rows.now) groups.items) }
{
    let mut groups = Vec::new(alloc);
    for place in 0..rows.len() {
        let group = Group::of(alloc, rows, place)?;
        groups.push(group)?;
    }
    Ok(groups)
}
