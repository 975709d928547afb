//! Messages with each growth refused in turn: the reply is out of memory, nothing has changed, and
//! the same message again has its usual reply. A clunk or a remove has freed its fid.

use super::dialogues::{CREATES, FIRST, REMOVES, SHARED, WSTATS};
use super::rows::FEW;
use super::scene::start_world;
use super::talking::{Asked, Told, ask, asked_by, push_asked, push_told, tells_memory};
use cs_test_memory::{End, Hoard, Subject, sweep};
use cs_world::World;
use std::alloc::Global;
use std::process::Abort;

/// A line of a dialogue, by how many are before it.
#[derive(Clone, Copy)]
struct Row {
    dialogue: &'static str,
    place: usize,
}

impl Row {
    fn line(&self) -> Option<&'static str> {
        self.dialogue.lines().nth(self.place)
    }

    /// Sends what the lines before it ask.
    fn replay(&self, alloc: Global, world: &mut World) -> Option<()> {
        for line in self.dialogue.lines().take(self.place) {
            let asked = asked_by(alloc, line)?;
            ask(alloc, world, &asked)?;
        }
        Some(())
    }

    /// Whether the line has that word.
    fn has(&self, word: &str) -> bool {
        match self.line() {
            Some(line) => line.contains(word),
            None => false,
        }
    }

    /// Whether a fid is free also if it is out of memory.
    fn frees_fid(&self) -> bool {
        self.has(" clunk ") || self.has(" remove ")
    }
}

/// A world, and the message that comes next.
#[derive(Drop)]
struct Kept {
    world: World,
    asked: Asked,
    shows_fids: bool,
}

/// The paths in the dialogues.
const PATHS: [&str; 7] = ["f", "g", "d", "d/new", "p", "p/new", "p/sub"];

/// Messages about the file at a path, after a walk to it as fid 9.
const FILE: [&str; 4] = ["stat 9", "open 9 0", "read 9 0 512", "clunk 9"];

/// Messages about the fids that dialogues make.
const FIDS: [&str; 6] = [
    "stat 1",
    "read 1 0 1",
    "stat 2",
    "read 2 0 1",
    "stat 3",
    "read 3 0 1",
];

/// Adds the reply that a connection gets.
fn push_answers(
    alloc: Global,
    world: &mut World,
    text: &mut String,
    conn: u32,
    asked: &[&str],
) -> Option<()> {
    for words in asked {
        let line = format!(in alloc; "{conn} {words}").ok()?;
        push_asked(alloc, world, text, line.as_str())?;
    }
    Some(())
}

/// Adds what a connection sees of the files.
fn push_files(alloc: Global, world: &mut World, text: &mut String, conn: u32) -> Option<()> {
    for path in &PATHS {
        let walk = format!(in alloc; "{conn} walk 0 9 {path}").ok()?;
        push_asked(alloc, world, text, walk.as_str())?;
        push_answers(alloc, world, text, conn, &FILE)?;
    }
    Some(())
}

impl Subject for Kept {
    type Row = Row;

    type Answer = Told;

    fn start(alloc: Global, row: &Row) -> Option<Kept> {
        let asked = asked_by(alloc, row.line()?)?;
        let mut world = start_world(alloc)?;
        row.replay(alloc, &mut world)?;
        Some(Kept {
            world,
            asked,
            shows_fids: !row.frees_fid(),
        })
    }

    fn call(&mut self, alloc: Global, _row: &Row) -> Option<End<Told>> {
        let told = ask(alloc, &mut self.world, &self.asked)?;
        if tells_memory(&told) {
            return Some(End::Short);
        }
        Some(End::Done(told))
    }

    fn push(told: Told, said: &mut String) -> Option<()> {
        push_told(said, &told)
    }

    fn tell(&mut self, alloc: Global, told: &mut String) -> Option<()> {
        for conn in 0..3u32 {
            push_files(alloc, &mut self.world, told, conn)?;
            if self.shows_fids {
                push_answers(alloc, &mut self.world, told, conn, &FIDS)?;
            }
        }
        Some(())
    }

    fn spent(row: &Row, said: &str) -> Option<bool> {
        if row.has(" clunk ") {
            return Some(said == "Rerror tag 1 ename \"N1 unknown fid\"");
        }
        if row.has(" remove ") {
            return Some(said == "Rerror tag 1 ename \"M1 unknown fid\"");
        }
        None
    }
}

/// How often a growth of the line's message was refused.
fn refusals(rt: &(impl Abort + AllocGlobal), hoard: &mut Hoard, row: &Row) -> usize {
    match sweep::<Kept>(rt.alloc(), hoard, row, FEW) {
        Ok(count) => count,
        Err(fault) => {
            let place = row.place;
            assert!(rt; false, "{place}: {fault:?}");
            0
        }
    }
}

/// Adds the line if its message meets no growth.
fn push_unmet(rt: &(impl Abort + AllocGlobal), hoard: &mut Hoard, unmet: &mut String, row: &Row) {
    if row.has(" hangup ") || refusals(rt, hoard, row) > 0 {
        return;
    }
    unmet
        .push_str(row.line().unwrap_or(""))
        .expect(rt, "memory");
    unmet.push('\n').expect(rt, "memory");
}

/// Sends each message of a dialogue with its growths refused in turn. Returns those that need none.
fn expect_refused(rt: &(impl Abort + AllocGlobal), dialogue: &'static str, wanted: &str) {
    let mut hoard = Hoard::new(rt.alloc()).expect(rt, "memory");
    let mut unmet = String::new(rt.alloc());
    for place in 0..dialogue.lines().count() {
        let row = Row { dialogue, place };
        push_unmet(rt, &mut hoard, &mut unmet, &row);
    }
    assert!(rt; unmet.as_str() == wanted, "{unmet}");
}

/// Version, attach, walk, open, read, stat. The clunk of the open fid needs no growth.
#[test]
fn the_first_exchange_is_answered_out_of_memory(rt: HostRuntime) {
    // the close of an open that is there and doesn't remove its file
    expect_refused(&rt, FIRST, "0 clunk 1 => Rclunk tag 1\n");
}

/// ann creates a file in `/d`, and a file and a directory in `/p`.
#[test]
fn creates_are_answered_out_of_memory(rt: HostRuntime) {
    expect_refused(&rt, CREATES, "");
}

/// ann opens `/f` with 0x41, cat takes w on the root away, and ann's open with 0x40 on another
/// connection is O9.
#[test]
fn who_may_remove_on_close_is_answered_out_of_memory(rt: HostRuntime) {
    expect_refused(&rt, REMOVES, "");
}

/// bob's wstat of `/f` is Q12, and his of nothing is granted. ann's to `nosuch` is Q13, to `cat`
/// Q14; to `ann`, and to another name, mode and length at once, it is granted.
#[test]
fn wstats_are_answered_out_of_memory(rt: HostRuntime) {
    expect_refused(&rt, WSTATS, "");
}

/// ann writes `HI` in run `0/a`. bob reads `hello` in `0/b`, and cat `HIllo` in `0/a`. ann removes
/// `/f` by her open fid: after a refusal the second Tremove is M1. cat's clunk of a file that is
/// gone needs no growth.
#[test]
fn those_who_share_a_run_are_answered_out_of_memory(rt: HostRuntime) {
    expect_refused(&rt, SHARED, "2 clunk 1 => Rclunk tag 1\n");
}
