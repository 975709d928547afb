//! The program `crashfs`: prints the states in which a crash may leave an application's files, and
//! serves them over 9P2000. It passes files, options and streams to the five commands.
#![tactic(auto)]

use clap::Error;
use clap::error::ErrorKind;
use cs_command_line::ask_of;
use cs_files::{FAULT, InputFiles, Output, out_of_memory};
use cs_inputs::Inputs;
use cs_list::list_with;
use cs_names::limits::WORKERS;
use cs_options::{Ask, Job, PicksOptions, ProfileName, Serving};
use cs_picks::{Family, PickSets, Profile, picks_of};
use cs_reasons::explain;
use cs_script::script_with;
use cs_serve::{ReadsFiles, serve_of};
use cs_tar_states::tar_of;
use std::io::{self, BufWriter, IsTerminal, Write};
use std::net::{Net, TcpListener, TcpStream};
use std::process::ExitCode;
use std::rt::{Clock, Env, Files};
use std::sync::{Mutex, Wait};
use std::thread;
use std::thread::Threads;

/// The exit status of a command line that is refused.
const REFUSED: u8 = 2;

/// How many workers there are: `workers`, or if that is 0 one for each processor, at most WORKERS.
/// One if the number of processors isn't known.
fn workers_of(rt: &impl Threads, workers: u32) -> u32 {
    if workers > 0 {
        return workers;
    }
    match thread::available_parallelism(rt) {
        Ok(processors) => u32::try_from(processors.get())
            .unwrap_or(WORKERS)
            .min(WORKERS),
        Err(_) => 1,
    }
}

/// The profile of cs_trace that has this name.
fn profile_named(name: ProfileName) -> Profile {
    match name {
        ProfileName::Blocks => Profile::Blocks,
        ProfileName::Ordered => Profile::Ordered,
        ProfileName::Journal => Profile::Journal,
    }
}

/// The sets that the options of `picks` ask for. At least one of `--lost`, `--files`, `--every` and
/// `--sample` is given: the command line is refused otherwise.
fn sets_of(options: PicksOptions) -> PickSets {
    if let Some(sample) = options.sample {
        return PickSets::Sample(sample.seed, sample.count);
    }
    if options.count {
        return PickSets::Count;
    }
    if options.every {
        return match (options.profile.map(profile_named), options.different) {
            (Some(profile), true) => PickSets::DifferentUnder(profile, options.most),
            (Some(profile), false) => PickSets::EveryUnder(profile, options.most),
            (None, true) => PickSets::Different(options.most),
            (None, false) => PickSets::Every(options.most),
        };
    }
    match (options.lost, options.files) {
        (true, true) => PickSets::Of(Family::Both),
        (true, false) => PickSets::Of(Family::Lost),
        _ => PickSets::Of(Family::Files),
    }
}

/// Runs the command `serve`, and returns its status. Its threads share a buffer that is written to
/// `err`; if there is no memory for it, that is printed, and nothing is served.
fn run_serve<R, W: Write, E: Write + Send>(
    rt: &R,
    inputs: &Inputs,
    serving: Serving,
    out: &mut W,
    err: &mut E,
) -> u8
where
    R: ReadsFiles + Input + Eprint + AllocGlobal + Clock + Threads + Wait + Sync,
    R: Net<Listener = TcpListener, Stream = TcpStream>,
    R::Reader: Send,
{
    let Ok(err) = BufWriter::new(rt.alloc(), err) else {
        return out_of_memory(rt);
    };
    let err = Mutex::new(err);
    serve_of(rt, rt.alloc(), inputs, serving, rt.reader(), out, &err)
}

/// Reads the files, does what is asked for, and returns the status. After a fault `err` gets what
/// more is known of it, after the lines of the command. If the reader of standard output has gone
/// away, `err` gets neither from `list`, `tar` and `picks`. The error is the status too: if a file
/// can't be read or memory runs out before the command begins, which is printed already.
fn run_job<R, E: Write + Send>(rt: &R, err: &mut E, on_terminal: bool, ask: &Ask) -> Result<u8, u8>
where
    R: Files + ReadsFiles + Input + Print + Eprint + AllocGlobal + Clock + Threads + Wait + Sync,
    R: Net<Listener = TcpListener, Stream = TcpStream>,
    R::Reader: Send,
{
    let given = InputFiles::read(rt, ask, err)?;
    let inputs = given.inputs(ask);
    let alloc = rt.alloc();
    let Ok(out) = BufWriter::new(alloc, io::writer(rt)) else {
        return Err(out_of_memory(rt));
    };
    let mut out = Output::new(out);
    let mut faults = Vec::new(alloc);
    let status = match &ask.job {
        Job::List(options) => list_with(alloc, &inputs, *options, &mut out, &mut faults),
        Job::Tar(options) => tar_of(alloc, &inputs, options, &mut out, &mut faults),
        Job::Picks(options) => {
            picks_of(alloc, &inputs, sets_of(*options), &mut out, &mut faults)
        }
        // its writes are counted, so they have no buffer
        Job::Script => {
            let (status, _out) = script_with(alloc, &inputs, rt.reader(), io::writer(rt), err);
            status
        }
        Job::Serve(serving) => {
            let serving = Serving {
                workers: workers_of(rt, serving.workers),
                progress: on_terminal,
                ..*serving
            };
            run_serve(rt, &inputs, serving, &mut out, err)
        }
    };
    if status == FAULT && !out.is_closed() {
        let _unheard = err.write_all(&faults);
        match out.fault() {
            Some(error) => {
                let _unheard = writeln!(err, "crashfs: standard output: {error}");
            }
            None => explain(alloc, &inputs, ask, err),
        }
    }
    Ok(status)
}

/// Prints the help, the version, or what is wrong with the command line, and returns the status: 0,
/// or REFUSED if something is wrong. A help or version that can't be printed is a fault.
fn print_help_or_refusal<R: Print + Eprint>(rt: &R, error: &Error) -> u8 {
    if error.kind() == ErrorKind::OutOfMemory {
        return out_of_memory(rt);
    }
    let printed = error.print(rt);
    if error.use_stderr() {
        REFUSED
    } else if printed.is_err() {
        FAULT
    } else {
        0
    }
}

/// Runs the command line of these words, and returns the status. Faults are printed on `err`, and
/// progress if that is on a terminal.
fn run<R, E: Write + Send>(rt: &R, err: &mut E, on_terminal: bool, words: &[&str]) -> u8
where
    R: Files + ReadsFiles + Input + Print + Eprint + AllocGlobal + Clock + Threads + Wait + Sync,
    R: Net<Listener = TcpListener, Stream = TcpStream>,
    R::Reader: Send,
{
    match ask_of(rt.alloc(), words) {
        Ok(ask) => match run_job(rt, err, on_terminal, &ask) {
            Ok(status) | Err(status) => status,
        },
        Err(error) => print_help_or_refusal(rt, &error),
    }
}

/// The words of the command line, the program's name first. An error other than out of memory means
/// that one of them isn't text.
fn words_of<R: Env + AllocGlobal>(rt: &R) -> io::Result<Vec<String>> {
    let mut words = Vec::new(rt.alloc());
    for word in std::env::args(rt)? {
        words.push(word)?;
    }
    Ok(words)
}

/// Runs the program, which ends with the status of its command line.
fn main(rt: HostRuntime) -> ExitCode {
    let words = match words_of(&rt) {
        Ok(words) => words,
        Err(error) if error.kind() == io::ErrorKind::OutOfMemory => {
            return ExitCode::from(out_of_memory(&rt));
        }
        Err(_) => {
            let _unheard = eprintln!(rt; "crashfs: the command line is no text");
            return ExitCode::from(REFUSED);
        }
    };
    let mut texts: Vec<&str> = Vec::new(rt.alloc());
    for word in &words {
        if texts.push(word.as_str()).is_err() {
            return ExitCode::from(out_of_memory(&rt));
        }
    }
    let mut err = rt.stderr();
    let on_terminal = err.is_terminal();
    ExitCode::from(run(&rt, &mut err, on_terminal, &texts))
}
