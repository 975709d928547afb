//! Which users are known, which belong to a group, and which lead it.
ghost use Rattle.std.specs.Prelude.{◌≡◌, ◌⊎◌, ◌↔◌, ◌<◌, Ok, Err, length, IfErr, IfOk, IfSome};
ghost use Rattle.std.specs.Prelude.{IsSome, IsTrue};
ghost use Rattle.cs_names.specs.Legal.{IsUserName};
ghost use Rattle.cs_names.specs.Pieces.{pieces};
ghost use Rattle.cs_names.specs.Reading.{ReadsAs};
ghost use Rattle.cs_names.specs.Texts.{is_text};
ghost use Rattle.cs_users.specs.Groups.{members_of, name_at};
ghost use Rattle.cs_users.specs.Members.{IsKnown, IsMember, IsLeader, is_known, is_member};
ghost use Rattle.cs_users.specs.Members.{is_leader};
ghost use Rattle.cs_users.specs.Reading.{rows_or_fault, users_in};
ghost use Rattle.cs_users.specs.Rows.{AreNamed};

use crate::fault::UsersFault;
use crate::groups::{Group, groups_of};
use crate::keeping::rows_of_lines;
use crate::reading::check_lines;
use crate::rows::Rows;
use cs_names::is_text;
use std::alloc::{AllocError, Global};
use std::marker::Model;

/// The users and groups of a users file, users(6), with legal names that are all different.
/// Contracts see the list of the file's rows, in the order of its lines.
#[derive(Debug, Drop)]
pub struct Users {
    rows: Rows,
    // the group of each row
    groups: Vec<Group>,
}

impl Model for Users {
    ghost use Rattle.std.specs.Prelude.{List};
    ghost use Rattle.cs_users.specs.Rows.{Row};

    ghost Value = { List Row };

    ghost use Rattle.cs_users.specs.Kept.{AreKept};

    ghost view = { λ users. users.rows };

    ghost invariant = { λ users. AreKept users.rows users.groups.items };
}

impl Users {
    /// The users file that the bytes spell, users(6): lines `id:name:leader:members`, the members
    /// with commas between them; empty lines and those that begin with `#` are skipped. An error is
    /// NotText, or the first of FieldCount, EmptyName, LongName and Twice on the first bad line. It
    /// is Memory only if the file has no fault. An empty file has no users.
    pub fn read(alloc: Global, bytes: &[u8]) -> Result<Users, UsersFault>
        ensures exact { ReadsAs UsersFault.Memory result (users_in bytes.now) }
        ensures named { IfOk result AreNamed }
    {
        if !is_text(bytes) {
            return Err(UsersFault::NotText);
        }
        match Users::from_text(alloc, bytes) {
            Ok(users) => Ok(users),
            Err(UsersFault::Memory) => {
                check_lines(bytes)?;
                Err(UsersFault::Memory)
            }
            Err(fault) => Err(fault),
        }
    }

    /// Reads bytes that are text as `read` does, but the error is Memory as soon as an allocation
    /// fails, even if a later line has a fault.
    fn from_text(alloc: Global, text: &[u8]) -> Result<Users, UsersFault>
        requires { IsTrue (is_text text.now) }
        ensures kept { IfOk result (λ users. rows_or_fault (pieces 10 text.now) ≡ Ok users) }
        ensures named { IfOk result AreNamed }
        ensures fault { IfErr result
            (λ fault. (fault ≡ UsersFault.Memory)
            ⊎ (rows_or_fault (pieces 10 text.now) ≡ Err fault)) }
    {
        let rows = rows_of_lines(alloc, text)?;
        let groups = groups_of(alloc, &rows)?;
        Ok(Users { rows, groups })
    }

    /// A copy of the users; its groups are made from the copied rows. The only error is that memory
    /// runs out. No command copies users.
    pub fn try_clone(&self, alloc: Global) -> Result<Users, AllocError>
        ensures { IfOk result (λ copy. copy ≡ self.now) }
    {
        let rows = self.rows.try_clone(alloc)?;
        let groups = groups_of(alloc, &rows)?;
        Ok(Users { rows, groups })
    }

    /// Whether a line has that name, which is then a legal user name. Users and groups are known
    /// alike; `none` is known only if a line has it.
    pub fn knows(&self, name: &[u8]) -> bool
        ensures test { result ≡ is_known self.now name.now }
        ensures known { IsTrue result ↔ IsKnown self.now name.now }
        ensures legal { IsTrue result → IsUserName name.now }
    {
        self.rows.knows(name)
    }

    /// Whether the user is a member of the group: both are known, the user is not `none`, and is
    /// the group itself or listed on its line. A member of a member isn't one.
    pub fn is_member(&self, user: &[u8], group: &[u8]) -> bool
        ensures test { result ≡ is_member self.now user.now group.now }
        ensures member { IsTrue result ↔ IsMember self.now user.now group.now }
    {
        let Some(place) = self.rows.place_of_name(user) else {
            return false;
        };
        match self.rows.place_of_name(group) {
            Some(line) => self.has_member(line, place),
            None => false,
        }
    }

    /// Whether the user leads the group: both are known, the user is not `none`, and is the group's
    /// leader, or the leader's field is empty and the user is a member. If the field has a name
    /// that no line has, nobody leads the group.
    pub fn is_leader(&self, user: &[u8], group: &[u8]) -> bool
        ensures test { result ≡ is_leader self.now user.now group.now }
        ensures leader { IsTrue result ↔ IsLeader self.now user.now group.now }
    {
        let Some(place) = self.rows.place_of_name(user) else {
            return false;
        };
        match self.rows.place_of_name(group) {
            Some(line) => self.has_leader(line, place),
            None => false,
        }
    }

    /// The members of the group at that place, as places of rows: from 0 and in ascending order.
    /// None past the last row. No command asks for them.
    pub fn members(&self, group: usize) -> Option<&[usize]>
        ensures some { IsSome result ↔ (group < length self.now) }
        ensures members { IfSome result (λ places. places.now ≡ members_of self.now group) }
    {
        if group >= self.groups.len() {
            return None;
        }
        Some(self.groups[group].members())
    }

    /// Whether the user at that place is a member of the group at that place. Both places must be
    /// those of rows.
    fn has_member(&self, group: usize, user: usize) -> bool
        requires group { group < length self.now }
        requires user { user < length self.now }
        ensures { result ≡ is_member self.now (name_at self.now user) (name_at self.now group) }
    {
        self.groups[group].contains(user)
    }

    /// Whether the user at that place leads the group at that place, also as a member of a group
    /// without a leader. Both places must be those of rows.
    fn has_leader(&self, group: usize, user: usize) -> bool
        requires group { group < length self.now }
        requires user { user < length self.now }
        ensures { result ≡ is_leader self.now (name_at self.now user) (name_at self.now group) }
    {
        let row = self.rows.at(group);
        self.groups[group].is_led_by(user)
            || (row.leader().is_empty() && self.has_member(group, user))
    }
}
