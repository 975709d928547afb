//! A port over one run of the start tree, and the first exchange.

use cs_journal::{Pass, Run, can_grow};
use cs_names::{Path, RuleId, Text, UserName};
use cs_permit::{AttachCall, Call, TreeName};
use cs_run::Answer;
use cs_session::{FindFault, PassFault, Port};
use cs_tree::PlainTree;
use cs_tree_model::{Content, DMDIR, Record};
use cs_users::Users;
use std::alloc::Global;
use std::process::Abort;
use std::sync::Arc;

/// The requests of the first exchange: version, attach, walk, open, read, stat, clunk.
pub const REQUESTS: &[u8] =
    b"\x13\x00\x00\x00d\xff\xff\x00 \x00\x00\x06\x009P2000\x19\x00\x00\x00h\x01\x00\x00\x00\x00\x00\xff\xff\xff\xff\x03\x00ann\x03\x000/x\x14\x00\x00\x00n\x01\x00\x00\x00\x00\x00\x01\x00\x00\x00\x01\x00\x01\x00f\x0c\x00\x00\x00p\x01\x00\x01\x00\x00\x00\x00\x17\x00\x00\x00t\x01\x00\x01\x00\x00\x00\x00\x00\x00\x00\x00\x00\x00\x00@\x00\x00\x00\x0b\x00\x00\x00|\x01\x00\x01\x00\x00\x00\x0b\x00\x00\x00x\x01\x00\x01\x00\x00\x00";

/// Their replies.
pub const REPLIES: &[u8] =
    b"\x13\x00\x00\x00e\xff\xff\x00 \x00\x00\x06\x009P2000\x14\x00\x00\x00i\x01\x00\x80\x00\x00\x00\x00\x00\x00\x00\x00\x00\x00\x00\x00\x16\x00\x00\x00o\x01\x00\x01\x00\x00\x00\x00\x00\x00\x04\x00\x00\x00\x00\x00\x00\x00\x18\x00\x00\x00q\x01\x00\x00\x00\x00\x00\x00\x04\x00\x00\x00\x00\x00\x00\x00\x00\x00\x00\x00\x10\x00\x00\x00u\x01\x00\x05\x00\x00\x00helloF\x00\x00\x00}\x01\x00=\x00;\x00\x00\x00\x00\x00\x00\x00\x00\x00\x00\x00\x00\x04\x00\x00\x00\x00\x00\x00\x00\xb4\x01\x00\x00\x00\x00\x00\x00\x00\x00\x00\x00\x05\x00\x00\x00\x00\x00\x00\x00\x01\x00f\x03\x00ann\x05\x00staff\x03\x00ann\x07\x00\x00\x00y\x01\x00";

/// How many bytes of requests end with a message, and how many bytes their replies have.
pub struct Whole(pub usize, pub usize);

pub const WHOLE: [Whole; 8] = [
    Whole(0, 0),
    Whole(19, 19),
    Whole(44, 39),
    Whole(64, 61),
    Whole(76, 85),
    Whole(99, 101),
    Whole(110, 171),
    Whole(121, 178),
];

fn record(
    rt: &impl Abort,
    alloc: Global,
    number: u64,
    owner: &[u8],
    mode: u32,
    content: Content,
) -> Record {
    Record {
        number,
        vers: 0,
        owner: UserName::read(alloc, owner).expect(rt, "a value"),
        group: UserName::read(alloc, b"staff").expect(rt, "a value"),
        mode,
        atime: 0,
        mtime: 0,
        muid: UserName::read(alloc, owner).expect(rt, "a value"),
        content,
    }
}

/// The root and `/f`, which has the number 4.
fn tree(rt: &impl Abort, alloc: Global) -> PlainTree {
    let root = record(rt, alloc, 0, b"cat", DMDIR | 0o775, Content::directory());
    let bytes = Vec::from_slice(alloc, b"hello").expect(rt, "memory");
    let file = record(rt, alloc, 4, b"ann", 0o664, Content::file(bytes));
    let mut records = Vec::new(alloc);
    records.push((Path::root(alloc), root)).expect(rt, "memory");
    records
        .push((Path::read(alloc, "/f").expect(rt, "a value"), file))
        .expect(rt, "a value");
    PlainTree::try_from_records(alloc, records).expect(rt, "a value")
}

fn run(rt: &impl Abort, alloc: Global) -> Run<PlainTree> {
    let users = Users::read(alloc, b"1:ann::\n3:cat::\n4:staff:ann:ann\n").expect(rt, "a value");
    let lower = Arc::new(alloc, tree(rt, alloc)).expect(rt, "memory");
    assert!(rt; can_grow(&*lower));
    Run::fresh(alloc, lower, Arc::new(alloc, users).expect(rt, "memory")).expect(rt, "memory")
}

/// One run, and the passes that it gave.
#[derive(Drop)]
pub struct Alone {
    run: Run<PlainTree>,
    passes: Vec<Pass>,
}

impl Alone {
    pub fn new(rt: &impl Abort, alloc: Global) -> Alone {
        Alone {
            run: run(rt, alloc),
            passes: Vec::new(alloc),
        }
    }

    /// How many files are open.
    pub fn opens(&self) -> usize {
        let mut opens = 0usize;
        for pass in &self.passes {
            opens = opens.saturating_add(pass.reserved());
        }
        opens
    }
}

impl Port for Alone {
    ghost gives = { λ p question told p'. Unit {0} };

    fn find(&mut self, _alloc: Global, _name: &TreeName) -> Result<u32, FindFault> {
        Ok(0)
    }

    fn attach(
        &mut self,
        alloc: Global,
        now: u32,
        _run: u32,
        user: Text,
    ) -> Result<(u32, Answer), PassFault> {
        let Ok(pass) = self.run.new_pass(alloc) else {
            return Err(PassFault::Memory);
        };
        let place = pass.number();
        if self.passes.push(pass).is_err() {
            return Err(PassFault::Memory);
        }
        let call = Call::Attach(AttachCall { user });
        Ok((place, self.call(alloc, now, 0, place, call)))
    }

    fn call(&mut self, alloc: Global, now: u32, _run: u32, pass: u32, call: Call<'_>) -> Answer {
        let Some(pass) = self.passes.get_mut(pass as usize) else {
            return Answer::Denied(RuleId::S5);
        };
        if !self.run.fits(pass) {
            return Answer::Denied(RuleId::S5);
        }
        self.run.step(alloc, pass, now, call)
    }
}
