//! Memberships and rights, timed among users of few lines and of many. Run by hand with the word
//! `time`, each row says how long its work takes, and whether it is within its bound.
#![tactic(auto)]

mod asking;
mod lists;

use crate::asking::{MayRead, Membership};
use crate::lists::{Size, list};
use cs_bench::{Row, Work, compare};
use std::rt::Clock;
use std::{env, io};

/// A short users file, a long one, one whose group is the largest that binary search is used for,
/// and one in which all are members of the group.
const FEW: Size = Size {
    lines: 5,
    members: 4,
};

const MANY: Size = Size {
    lines: 20_000,
    members: 100,
};

const SEARCHED: Size = Size {
    lines: 20_000,
    members: 18,
};

const ALL: Size = Size {
    lines: 20_000,
    members: 19_999,
};

/// How often a work is done if it is timed.
const ROUNDS: u64 = 200;

/// Times a work among the users of a long list, and the same among those of a short one.
fn row<W: Work + Drop>(
    rt: &(impl Clock + Print + AllocGlobal),
    what: &str,
    many: Option<W>,
    few: Option<W>,
    timed: bool,
) -> io::Result<()> {
    let (Some(mut many), Some(mut few)) = (many, few) else {
        return println!(rt; "out of memory");
    };
    let row = Row {
        what,
        beside: "of 5",
        most: 2.0,
        rounds: ROUNDS,
    };
    compare(rt, &row, &mut many, &mut few, timed)
}

/// Both questions of a list of users, compared with those of the short one.
fn rows(
    rt: &(impl Clock + Print + AllocGlobal),
    (size, is): (Size, &str),
    timed: bool,
) -> io::Result<()> {
    let alloc = rt.alloc();
    let (Some(many), Some(few)) = (list(alloc, size), list(alloc, FEW)) else {
        return println!(rt; "out of memory");
    };
    let what = format!(in alloc; "a membership of {is}")?;
    let (first, second) = (
        Membership::of(alloc, &many, size),
        Membership::of(alloc, &few, FEW),
    );
    row(rt, what.as_str(), first, second, timed)?;
    let what = format!(in alloc; "a right by a group's bits, of {is}")?;
    let (first, second) = (
        MayRead::of(alloc, &many, size),
        MayRead::of(alloc, &few, FEW),
    );
    row(rt, what.as_str(), first, second, timed)
}

fn main(rt: HostRuntime) -> io::Result<()> {
    let timed = env::args(&rt)?.count() > 1;
    rows(&rt, (MANY, "20,000 lines and 100 members"), timed)?;
    rows(&rt, (SEARCHED, "20,000 lines and 18 members"), timed)?;
    rows(&rt, (ALL, "20,000 lines, all of them members"), timed)
}
