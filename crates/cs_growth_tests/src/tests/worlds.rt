//! The steps of a world, and lists of them.

use super::rows::{Row, expect_no_growth, expect_swept};
use super::scene::{of_world, start_users};
use cs_fids::NOFID;
use cs_names::{RunName, Text, Texts};
use cs_plan::Scene;
use cs_session::{AttachMessage, CallMessage, TableStep, WalkMessage};
use cs_test_memory::{End, Subject};
use cs_users::Users;
use cs_wire::{RBody, RMessage};
use cs_world::{ConnectionStep, Reply, RunCall, Step, World};
use std::alloc::Global;
use std::sync::Arc;

/// A step of connection 0, or another call.
#[derive(Clone, Copy)]
enum Word {
    New,
    Publish,
    Reload,
    Find,
    Attach,
    /// A walk of the fid 0 to `/d`, as the fid 1.
    Walk,
    /// That walk as a message.
    Message,
    HangUp,
    /// Versions on three connections.
    Run,
    /// What of the steps before the walk reaches the run.
    Project,
}

fn text(alloc: Global, text: &str) -> Option<Text> {
    Text::copy_of(alloc, text).ok()
}

fn taken(conn: u32, step: ConnectionStep) -> Step {
    Step::On { conn, now: 7, step }
}

fn begin(alloc: Global, conn: u32) -> Option<Step> {
    let change = TableStep::Version {
        msize: 8192,
        version: text(alloc, "9P2000")?,
    };
    Some(taken(conn, ConnectionStep::Table(change)))
}

fn find(alloc: Global) -> Option<Step> {
    let message = AttachMessage {
        fid: 0,
        afid: NOFID,
        uname: text(alloc, "ann")?,
        aname: text(alloc, "0/x")?,
    };
    Some(taken(0, ConnectionStep::Find(message)))
}

fn walk(alloc: Global) -> Option<Step> {
    let mut names = Vec::new(alloc);
    names.push(String::from_str(alloc, "d").ok()?).ok()?;
    let message = CallMessage::Walk(WalkMessage {
        fid: 0,
        newfid: 1,
        names: Texts::new(names),
    });
    Some(taken(0, ConnectionStep::Call(message)))
}

const ATTACH: Step = Step::On {
    conn: 0,
    now: 7,
    step: ConnectionStep::Attach,
};

/// The steps before the one of a word.
fn before(alloc: Global, word: Word) -> Option<Vec<Step>> {
    let mut steps = Vec::new(alloc);
    if let Word::Find | Word::Attach | Word::Walk | Word::Message = word {
        steps.push(Step::Publish(0)).ok()?;
        steps.push(begin(alloc, 0)?).ok()?;
    }
    if let Word::Attach | Word::Walk | Word::Message = word {
        steps.push(find(alloc)?).ok()?;
    }
    if let Word::Walk | Word::Message = word {
        steps.push(ATTACH).ok()?;
    }
    Some(steps)
}

/// The input of a word's call.
#[derive(Drop)]
enum Given {
    /// The walk's bytes.
    Nothing,
    World(Arc<Scene>, Arc<Users>),
    Step(Step),
    Steps(Vec<Step>),
}

fn give(alloc: Global, word: Word) -> Option<Given> {
    Some(Given::Step(match word {
        Word::New => {
            let (scene, users) = of_world(alloc)?;
            return Some(Given::World(scene, users));
        }
        Word::Run => {
            let mut steps = Vec::new(alloc);
            for conn in 0..3u32 {
                steps.push(begin(alloc, conn)?).ok()?;
            }
            return Some(Given::Steps(steps));
        }
        Word::Project => return Some(Given::Steps(before(alloc, Word::Walk)?)),
        Word::Message | Word::HangUp => return Some(Given::Nothing),
        Word::Publish => Step::Publish(0),
        Word::Reload => Step::Reload(start_users(alloc)?),
        Word::Find => find(alloc)?,
        Word::Attach => ATTACH,
        Word::Walk => walk(alloc)?,
    }))
}

/// The answer to a call.
#[derive(Drop)]
enum Told {
    Nothing,
    Reply(Reply),
    Replies(Vec<Reply>),
    Message(RMessage),
    Closed(cs_session::Reply),
    Calls(Vec<RunCall>),
}

/// A world, what its next call is given, and a run's name.
#[derive(Drop)]
struct Kept {
    world: World,
    given: Option<Given>,
    name: RunName,
    /// Whether a call that is refused leaves the connection.
    keeps_connection: bool,
}

fn end_of(reply: Reply) -> Option<End<Told>> {
    if reply.says_out_of_memory() {
        return Some(End::Short);
    }
    Some(End::Done(Told::Reply(reply)))
}

/// None of the steps needs memory.
fn end_of_all(replies: Vec<Reply>) -> Option<End<Told>> {
    for reply in &replies {
        if reply.says_out_of_memory() {
            return None;
        }
    }
    Some(End::Done(Told::Replies(replies)))
}

/// The walk.
const WALK: &[u8] = b"\x14\x00\x00\x00n\x01\x00\x00\x00\x00\x00\x01\x00\x00\x00\x01\x00\x01\x00d";

/// A stat of the fid 0, and of the fid 1.
const STATS: [&[u8]; 2] = [b"\x0b\0\0\0|\x01\0\0\0\0\0", b"\x0b\0\0\0|\x01\0\x01\0\0\0"];

impl Kept {
    fn renew(&mut self, alloc: Global, scene: Arc<Scene>, users: Arc<Users>) -> Option<End<Told>> {
        match World::new(alloc, scene, users) {
            Ok(world) => {
                self.world = world;
                Some(End::Done(Told::Nothing))
            }
            Err(_) => Some(End::Short),
        }
    }

    fn message(&mut self, alloc: Global) -> Option<End<Told>> {
        let reply = self.world.message(alloc, 0, 7, WALK);
        if let RBody::Error { ename } = &reply.body {
            if ename.as_str() == "out of memory" {
                return Some(End::Short);
            }
        }
        Some(End::Done(Told::Message(reply)))
    }

    fn say(&mut self, alloc: Global, word: Word) -> Option<End<Told>> {
        match word {
            Word::Message => self.message(alloc),
            _ => Some(End::Done(Told::Closed(self.world.hang_up(alloc, 0, 7)))),
        }
    }

    fn project(&self, alloc: Global, steps: &[Step]) -> Option<End<Told>> {
        match self.world.project(alloc, steps, 0, &self.name) {
            Ok(calls) => Some(End::Done(Told::Calls(calls))),
            Err(_) => Some(End::Short),
        }
    }
}

impl Kept {
    /// After a refusal the steps are given again, as they came back.
    fn run(&mut self, alloc: Global, steps: Vec<Step>) -> Option<End<Told>> {
        match self.world.run(alloc, steps) {
            Ok(replies) => end_of_all(replies),
            Err((steps, _)) => {
                self.given = Some(Given::Steps(steps));
                Some(End::Short)
            }
        }
    }

    fn take_steps(&mut self, alloc: Global, word: Word, steps: Vec<Step>) -> Option<End<Told>> {
        match word {
            Word::Run => self.run(alloc, steps),
            _ => self.project(alloc, &steps),
        }
    }
}

impl Subject for Kept {
    type Row = Row<Word>;

    type Answer = Told;

    fn start(alloc: Global, row: &Row<Word>) -> Option<Kept> {
        let name = RunName::read(alloc, b"x").ok()?;
        let (scene, users) = of_world(alloc)?;
        let mut world = World::new(alloc, scene, users).ok()?;
        world.run(alloc, before(alloc, row.1)?).ok()?;
        Some(Kept {
            world,
            given: give(alloc, row.1),
            name,
            keeps_connection: !matches!(row.1, Word::Attach),
        })
    }

    fn call(&mut self, alloc: Global, row: &Row<Word>) -> Option<End<Told>> {
        let given = match self.given.take() {
            Some(given) => given,
            None => give(alloc, row.1)?,
        };
        match given {
            Given::Nothing => self.say(alloc, row.1),
            Given::World(scene, users) => self.renew(alloc, scene, users),
            Given::Step(step) => end_of(self.world.step(alloc, step)),
            Given::Steps(steps) => self.take_steps(alloc, row.1, steps),
        }
    }

    fn push(answer: Told, said: &mut String) -> Option<()> {
        match answer {
            Told::Nothing => Some(()),
            Told::Reply(reply) => write!(said, "{reply:?}").ok(),
            Told::Replies(replies) => write!(said, "{replies:?}").ok(),
            Told::Message(reply) => write!(said, "{reply}").ok(),
            Told::Closed(reply) => write!(said, "{reply:?}").ok(),
            Told::Calls(calls) => write!(said, "{calls:?}").ok(),
        }
    }

    fn tell(&mut self, alloc: Global, told: &mut String) -> Option<()> {
        write!(told, "{} runs", self.world.run_count()).ok()?;
        if self.keeps_connection {
            for stat in &STATS {
                let reply = self.world.message(alloc, 0, 7, stat);
                write!(told, " {reply}").ok()?;
            }
        }
        Some(())
    }

    fn spent(row: &Row<Word>, said: &str) -> Option<bool> {
        match row.1 {
            // the find counts, and is no longer awaited
            Word::Attach => Some(said == "Connection(Error(S5))"),
            _ => None,
        }
    }
}

const ROWS: [Row<Word>; 9] = [
    Row("cs_world World::new", Word::New),
    Row("cs_world World::step", Word::Publish),
    Row("cs_world World::step", Word::Reload),
    Row("cs_world World::step", Word::Find),
    Row("cs_world World::step", Word::Attach),
    Row("cs_world World::step", Word::Walk),
    Row("cs_world World::message", Word::Message),
    Row("cs_world World::run", Word::Run),
    Row("cs_world World::project", Word::Project),
];

const NO_GROWTH: [Row<Word>; 1] = [Row("cs_world World::hang_up", Word::HangUp)];

/// Steps of a world; a message; a list of steps, for whose replies memory runs out before any step;
/// a projection. A refused attach is no longer awaited. A hang-up with nothing open needs no
/// growth.
#[test]
fn a_world_stays_as_it_was(rt: HostRuntime) {
    expect_swept::<Word, Kept>(&rt, &ROWS);
    expect_no_growth::<Word, Kept>(&rt, &NO_GROWTH);
}
