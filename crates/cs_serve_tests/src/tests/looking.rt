//! A connection while another run is looked at, under its lock.

use crate::tests::server::{BOB_TO_B, Client, STAT, Standing, VERSION, come, counted, server_of};
use cs_connection::{Server, serve_connection};
use cs_journal::Run;
use cs_names::RunName;
use cs_plan::Built;
use cs_session::ServeFault;
use cs_shared_runs::{AnyScene, Look, SharedRun};
use cs_stream::Counted;
use std::alloc::Global;
use std::process::Abort;
use std::sync::atomic::{AtomicU32, Ordering};
use std::sync::{Arc, Wait};
use std::thread;

/// Looks at a run until a client had three replies.
#[derive(Drop)]
struct UntilReplied<'f> {
    looking: &'f AtomicU32,
    replied: &'f AtomicU32,
}

impl<'f> Look<bool> for UntilReplied<'f> {
    ghost use Rattle.std.specs.Prelude.{⊤};

    ghost may_return = { λ look run found. ⊤ };

    fn look(self, run: &Run<Built>) -> bool {
        self.looking.store(1, Ordering::SeqCst);
        come(self.replied, 3) && run.entries() == 0
    }
}

fn look<R: Wait>(
    rt: &R,
    run: &SharedRun<AnyScene>,
    looking: &AtomicU32,
    replied: &AtomicU32,
) -> bool {
    let looked: Option<bool> = run.inspect(rt, UntilReplied { looking, replied });
    looked == Some(true)
}

const BOB_ELSEWHERE: [&[u8]; 3] = [VERSION, BOB_TO_B, STAT];

/// Serves a client of another run, which goes on once the first is looked at.
fn stat_elsewhere<R: Wait + Abort>(
    rt: &R,
    alloc: Global,
    server: &Server<AnyScene>,
    looking: &Arc<AtomicU32>,
    replied: &Arc<AtomicU32>,
) -> Result<(), ServeFault> {
    let mut stream = Counted::new(Client::new(rt, &BOB_ELSEWHERE, replied, looking));
    serve_connection(rt, alloc, server, &mut stream, &mut Standing).result()
}

/// The run `0/a`.
fn run_of_a<R: Wait + Abort>(
    rt: &R,
    alloc: Global,
    server: &Server<AnyScene>,
) -> SharedRun<AnyScene> {
    let name = RunName::read(alloc, b"a").expect(rt, "a value");
    server
        .registry()
        .find(rt, alloc, 0, &name)
        .expect(rt, "memory")
}

/// While one thread looks at run `0/a` under its lock, a connection attaches to `0/b` and has its
/// stat, or the look gives up after ten million looks.
#[test]
fn a_connection_is_answered_while_another_run_is_locked(rt: HostRuntime) {
    let alloc = rt.alloc();
    let server = server_of(&rt, alloc);
    let a = run_of_a(&rt, alloc, &server);
    let (looking, replied) = (counted(&rt, alloc, 0), counted(&rt, alloc, 0));
    let looked = thread::join(
        &rt,
        || look(&rt, &a, &looking, &replied),
        || stat_elsewhere(&rt, alloc, &server, &looking, &replied),
    );
    assert!(rt; looked == (true, Ok(())));
}
