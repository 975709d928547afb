//! The works that are timed: one question after another, each of another user.

use crate::lists::{Size, name};
use cs_bench::Work;
use cs_users::{Right, Users, has_right};
use std::alloc::Global;

/// How many users are asked for in a round.
const ASKED: u64 = 500;

/// What each group's file has: all rights for its group, and none for others.
const GROUP_ALONE: u32 = 0o070;

/// The names of members of the group, all over the file.
fn names_of_members(alloc: Global, size: Size) -> Option<Vec<String>> {
    let mut names = Vec::new(alloc);
    for index in 0..ASKED {
        let place = size.member(index.wrapping_mul(7_919));
        names.push(name(alloc, place).ok()?).ok()?;
    }
    Some(names)
}

/// Whether users are members of `staff`.
#[derive(Drop)]
pub struct Membership<'a> {
    users: &'a Users,
    names: Vec<String>,
}

impl<'a> Membership<'a> {
    pub fn of(alloc: Global, users: &'a Users, size: Size) -> Option<Membership<'a>> {
        let names = names_of_members(alloc, size)?;
        Some(Membership { users, names })
    }
}

impl Work for Membership<'_> {
    fn run(&mut self, _alloc: Global) -> u64 {
        let mut done = 0u64;
        for name in &self.names {
            let is_member = self.users.is_member(name.as_bytes(), b"staff".as_slice());
            done = done.wrapping_add(u64::from(is_member));
        }
        done
    }
}

/// Whether users may read a file of `staff`.
#[derive(Drop)]
pub struct MayRead<'a> {
    users: &'a Users,
    names: Vec<String>,
}

impl<'a> MayRead<'a> {
    pub fn of(alloc: Global, users: &'a Users, size: Size) -> Option<MayRead<'a>> {
        let names = names_of_members(alloc, size)?;
        Some(MayRead { users, names })
    }
}

fn may_read(users: &Users, user: &[u8]) -> bool {
    let group = b"staff".as_slice();
    has_right(users, user, group, group, GROUP_ALONE, Right::Read)
}

impl Work for MayRead<'_> {
    fn run(&mut self, _alloc: Global) -> u64 {
        let mut done = 0u64;
        for name in &self.names {
            let may = may_read(self.users, name.as_bytes());
            done = done.wrapping_add(u64::from(may));
        }
        done
    }
}
