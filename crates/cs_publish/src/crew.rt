//! The workers: each takes numbers from one channel, makes their states, and sends them.
ghost use Rattle.std.specs.Prelude.{◌≡◌, Err, IfOk, None, Some};
ghost use Rattle.cs_publish.specs.Crews.{is_crew};

use crate::fault::Lost;
use crate::gate::{Gate, ask};
use crate::stage::{FromWorker, Made, Stage, Staged};
use crossbeam_channel::{Receiver, Sender, bounded};
use cs_names::limits::WORKERS;
use cs_plan::MakeFault;
use std::alloc::Global;
use std::sync::Wait;
use std::thread::Scope;

/// How many made states may wait in the channel to be published. A worker waits if there are as
/// many, so that memory stays bounded.
const STATES_IN_FLIGHT: u32 = 64;

/// Whether there may be so many workers: 1 to WORKERS.
pub(crate) fn is_crew(workers: u32) -> bool
    ensures { result ≡ is_crew workers }
{
    workers >= 1 && workers <= WORKERS
}

/// A channel with the numbers below `count`, in ascending order, for the workers to take. The error
/// is Memory if the channel can't be made. (It is never Channel: there is room for each number, and
/// the receiver exists.)
pub(crate) fn channel_of_numbers<R: Wait>(
    rt: &R,
    alloc: Global,
    count: u32,
) -> Result<Receiver<u32>, Lost> {
    let Ok((to, numbers)) = bounded(alloc, count as usize) else {
        return Err(Lost::Memory);
    };
    for number in 0..count {
        if to.send(rt, number).is_err() {
            return Err(Lost::Channel);
        }
    }
    Ok(numbers)
}

/// What a worker sends for a state that it made or didn't: the state, or that memory ran out. None,
/// so nothing is sent, if the plan has no such number.
fn sent_for<N: Staged>(made: Result<Made<N>, MakeFault>) -> Option<FromWorker<N>>
    ensures state { IfOk made (λ state. result ≡ Some (FromWorker.State state)) }
    ensures memory { made ≡ Err MakeFault.Memory → result ≡ Some FromWorker.NoMemory }
    ensures none { made ≡ Err MakeFault.NoSuchState → result ≡ None }
{
    match made {
        Ok(state) => Some(FromWorker::State(state)),
        Err(MakeFault::Memory) => Some(FromWorker::NoMemory),
        Err(MakeFault::NoSuchState) => None,
    }
}

/// Does a worker's work: takes a number, makes its state and sends it, until no number is left or
/// the receiver of the states is dropped. If memory runs out for a state, the worker sends NoMemory
/// in its place, and takes the next number.
fn work<N: Staged, R: Wait, G: Gate>(
    rt: &R,
    alloc: Global,
    stage: &Stage<N>,
    numbers: &Receiver<u32>,
    states: Sender<FromWorker<N>>,
    gate: &G,
) {
    for _ in rt.forever() {
        let Ok(number) = numbers.recv(rt) else {
            return;
        };
        // never None, since the numbers are those below the plan's length; but no contract says
        // what comes out of a channel, so not `unreachable!()`
        let Some(made) = sent_for(stage.make(alloc, ask(gate, number))) else {
            continue;
        };
        if states.send(rt, made).is_err() {
            return;
        }
    }
}

/// Starts `workers` workers, and returns the receiver of their states. The workers end when no
/// number is left, or when the receiver is dropped. The error is Memory if the channel can't be
/// made or a worker can't be started; the workers that were started before end then, because the
/// receiver is dropped.
pub(crate) fn hire<'s, E, N: Staged, R: Wait + Sync, G: Gate>(
    scope: &'s Scope<'s, E>,
    rt: &'s R,
    alloc: Global,
    stage: &'s Stage<N>,
    numbers: &'s Receiver<u32>,
    workers: u32,
    gate: &'s G,
) -> Result<Receiver<FromWorker<N>>, Lost> {
    let Ok((states, made)) = bounded(alloc, STATES_IN_FLIGHT as usize) else {
        return Err(Lost::Memory);
    };
    for _ in 0..workers {
        let Ok(states) = states.clone() else {
            return Err(Lost::Memory);
        };
        let worker = scope.spawn(move || work(rt, alloc, stage, numbers, states, gate));
        if worker.is_err() {
            return Err(Lost::Memory);
        }
    }
    Ok(made)
}

/// Waits for the next state that a worker made, and returns the state. The error is Memory if a
/// worker ran out of memory instead; Channel if all workers have ended.
pub(crate) fn next_made<N: Staged, R: Wait>(
    rt: &R,
    made: &Receiver<FromWorker<N>>,
) -> Result<Made<N>, Lost> {
    match made.recv(rt) {
        Ok(FromWorker::State(state)) => Ok(state),
        Ok(FromWorker::NoMemory) => Err(Lost::Memory),
        Err(_) => Err(Lost::Channel),
    }
}
