//! The command `script`, after its files were read.
ghost use Rattle.std.specs.Prelude.{◌≡◌, ◌≤◌, ℕ, IfErr, IfOk, List, Option};
ghost use Rattle.cs_names.specs.declared.limits.TheConstants.{CONNECTION_READS};
ghost use Rattle.cs_stream.specs.Streams.{KeepsFaults, saturating_sum};
ghost use Rattle.cs_script.specs.Scripted.{Begins, Scripts};
ghost use Rattle.cs_inputs.specs.Ended.{reported};
ghost use Rattle.cs_inputs.specs.Written.{Blames};

use crate::publishing::world_of;
use crate::reading::read_all;
use crate::running::run_lines;
use crate::script::{ScriptLine, read_script};
use cs_inputs::{Inputs, ProgramFault, exit_status, scene_of, users_of};
use cs_stream::{Stream, TwoEnded};
use cs_world::World;
use std::alloc::Global;
use std::io::{Read, Write};

/// What a script begins with: the world that its lines are run in, and the lines.
#[derive(Drop)]
struct Prepared {
    /// All states are published in it.
    world: World,
    /// All lines of the script, each legal.
    lines: Vec<ScriptLine>,
}

/// Publishes all states in a new world, reads all of the input, and checks every line of it. It
/// writes nothing, and returns the world and the lines. The error is a fault of the inputs, of the
/// script, of its stream, or out of memory; none, some or all of the input was read then.
fn prepare<S: Stream>(
    alloc: Global,
    inputs: &Inputs,
    stream: &mut S,
) -> Result<Prepared, ProgramFault>
    ensures begins { IfOk result (λ prepared. Begins inputs.now (S.remaining stream.old)
        (S.remaining stream.new) prepared.world prepared.lines.items) }
    ensures contents { S.contents stream.new ≡ S.contents stream.old }
    ensures fault { IfErr result (Blames (S.counts stream.old) (S.counts stream.new)) }
    ensures faults { KeepsFaults (S.counts stream.old) (S.counts stream.new) }
    ensures bounded { (S.counts stream.new).reads
        ≤ saturating_sum CONNECTION_READS (S.counts stream.old).reads }
{
    let scene = scene_of(alloc, inputs)?;
    let users = users_of(alloc, inputs.users)?;
    let world = world_of(alloc, scene, users)?;
    let script = read_all(alloc, stream)?;
    let lines = read_script(alloc, script.as_slice())?;
    Ok(Prepared { world, lines })
}

/// The command `script` over a stream, which gives the script and takes what it prints: publishes
/// all states, reads all of the input, checks every line, and then runs the lines one after the
/// other, with a line of output for each. No line runs if one is illegal. After an error nothing
/// was written, or some of what the first lines print, from the front; a fault of the inputs or of
/// the script comes before any output. If the inputs are verbose, `err` also gets each message and
/// its reply as text.
pub fn script_over<S: Stream, E: Write>(
    alloc: Global,
    inputs: &Inputs,
    stream: &mut S,
    err: &mut E,
) -> Result<(), ProgramFault>
    ensures printed { Scripts inputs.now result (S.remaining stream.old) (S.remaining stream.new)
        (S.contents stream.old) (S.contents stream.new) }
    ensures fault { IfErr result (Blames (S.counts stream.old) (S.counts stream.new)) }
    ensures bounded { (S.counts stream.new).reads
        ≤ saturating_sum CONNECTION_READS (S.counts stream.old).reads }
{
    let Prepared { mut world, lines } = prepare(alloc, inputs, stream)?;
    run_lines(
        alloc,
        &mut world,
        lines.as_slice(),
        stream,
        inputs.verbose,
        err,
    )
}

/// The command `script`, over a reader and a writer that it takes: what `script_over` does. The
/// program calls this one. Returns the exit status and the writer, which is flushed: 0, or 1 if it
/// failed, which one line on `err` reports; what was written before stays.
pub fn script_with<R: Read + Drop, W: Write, E: Write>(
    alloc: Global,
    inputs: &Inputs,
    input: R,
    out: W,
    err: &mut E,
) -> (u8, W)
    ensures status { result.0 ≤ 1 }
    ensures printed { (left : Option (List ℕ)) × Scripts inputs.now (reported result.0)
        (R.remaining input) left (W.contents out) (W.contents result.1) }
{
    let mut stream = TwoEnded::new(input, out);
    let done = script_over(alloc, inputs, &mut stream, err);
    let mut out = stream.into_writer();
    let status = exit_status(done, ProgramFault::Output, &mut out, err);
    (status, out)
}

/// Library surface: no command calls it. The command `script`, over a reader and a writer that it
/// borrows, as `script_with` does it. Returns the exit status. Nothing is said of what the two have
/// afterwards: use `script_with` or `script_over`.
pub fn script_of<R: Read, W: Write, E: Write>(
    alloc: Global,
    inputs: &Inputs,
    input: &mut R,
    out: &mut W,
    err: &mut E,
) -> u8
    ensures { result ≤ 1 }
{
    let mut stream = TwoEnded::new(input, &mut *out);
    let done = script_over(alloc, inputs, &mut stream, err);
    exit_status(done, ProgramFault::Output, out, err)
}
