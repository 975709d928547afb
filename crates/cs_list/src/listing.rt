//! The command `list`, from its inputs to what it prints. The text is made in `text`.
ghost use Rattle.std.specs.Prelude.{◌≡◌, ◌≤◌, IfErr, IfOk};
ghost use Rattle.cs_inputs.specs.Ended.{IsTextOf, WritesSuch, reported};
ghost use Rattle.cs_inputs.specs.Written.{BlamesOutput, IsOfNoStream};
ghost use Rattle.cs_plan.specs.Lists.{list_text};
ghost use Rattle.cs_stream.specs.Streams.{KeepsReads};
ghost use Rattle.cs_list.specs.Listings.{IsListing};

use crate::additions::scene_with_families;
use crate::text::{plain_text, text_of};
use cs_inputs::{Inputs, ProgramFault, exit_status, print, print_to, scene_of};
use cs_options::ListOptions;
use cs_stream::Stream;
use std::alloc::Global;
use std::io::Write;
use std::sync::Arc;

/// The text of the list of the inputs, with what the options ask for. An error is a fault of the
/// inputs, PlanTooLarge if the options' families make the plan too large, or out of memory.
fn listing_of(alloc: Global, inputs: &Inputs, options: ListOptions) -> Result<Vec<u8>, ProgramFault>
    ensures { IfOk result (λ text. IsListing inputs.now options text.items) }
{
    let scene = scene_with_families(alloc, inputs, options)?;
    let Ok(scene) = Arc::new(alloc, scene) else {
        return Err(ProgramFault::Memory);
    };
    text_of(alloc, inputs.trace, &scene, options)
}

/// Writes the list to a writer. Nothing is written before all of the text is made. After a fault of
/// the output a first part of the text is written; after any other error nothing is.
fn print_list<W: Write>(
    alloc: Global,
    inputs: &Inputs,
    options: ListOptions,
    out: &mut W,
) -> Result<(), ProgramFault>
    ensures { WritesSuch (IsListing inputs.now options) result
        (W.contents out.old) (W.contents out.new) }
{
    let text = listing_of(alloc, inputs, options)?;
    print_to(out, &text)
}

/// The command `list`, with options: writes the micro-operations of the trace, and then the states
/// of its plan, a line each. Returns the exit status: 0, or 1 if it failed, which one line on `err`
/// reports; what was written before stays.
pub fn list_with<W: Write, E: Write>(
    alloc: Global,
    inputs: &Inputs,
    options: ListOptions,
    out: &mut W,
    err: &mut E,
) -> u8
    ensures status { result ≤ 1 }
    ensures printed { WritesSuch (IsListing inputs.now options) (reported result)
        (W.contents out.old) (W.contents out.new) }
{
    let done = print_list(alloc, inputs, options, out);
    exit_status(done, ProgramFault::Output, out, err)
}

/// The text of the list of the inputs, without options. An error is a fault of the inputs, or out
/// of memory.
fn plain_listing_of(alloc: Global, inputs: &Inputs) -> Result<Vec<u8>, ProgramFault>
    ensures text { IfOk result (λ text. IsTextOf inputs.now list_text text.items) }
    ensures fault { IfErr result IsOfNoStream }
{
    let scene = scene_of(alloc, inputs)?;
    plain_text(alloc, &scene)
}

/// Writes the list without options to a writer, as `print_list` does, with the same errors.
fn print_plain<W: Write>(alloc: Global, inputs: &Inputs, out: &mut W) -> Result<(), ProgramFault>
    ensures { WritesSuch (IsTextOf inputs.now list_text) result
        (W.contents out.old) (W.contents out.new) }
{
    let text = plain_listing_of(alloc, inputs)?;
    print_to(out, &text)
}

/// Library surface: no command calls it. It is the command `list` without options: it writes to
/// `out`, and returns the exit status, as `list_with` does.
pub fn list_of<W: Write, E: Write>(alloc: Global, inputs: &Inputs, out: &mut W, err: &mut E) -> u8
    ensures status { result ≤ 1 }
    ensures printed { WritesSuch (IsTextOf inputs.now list_text) (reported result)
        (W.contents out.old) (W.contents out.new) }
{
    let done = print_plain(alloc, inputs, out);
    exit_status(done, ProgramFault::Output, out, err)
}

/// Library surface: no command calls it. It writes the list without options to a stream, whose
/// counts of faults say whether an error is the stream's. An error is a fault of the inputs, of the
/// output, or out of memory. Memory for the whole text is taken before any of it is written. After
/// an error nothing was written, or some of the text, from the front.
pub fn list_to<S: Stream>(
    alloc: Global,
    inputs: &Inputs,
    stream: &mut S,
) -> Result<(), ProgramFault>
    ensures printed { WritesSuch (IsTextOf inputs.now list_text) result (S.contents stream.old)
        (S.contents stream.new) }
    ensures fault { IfErr result (BlamesOutput (S.counts stream.old) (S.counts stream.new)) }
    ensures reads { KeepsReads (S.counts stream.old) (S.counts stream.new) }
{
    let text = plain_listing_of(alloc, inputs)?;
    print(stream, &text)
}
