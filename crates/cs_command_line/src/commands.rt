//! The commands and their options, as the command line has them. The only error of these functions
//! is out of memory.
use crate::version::VERSION;
use clap::{Arg, ArgAction, ArgGroup, Command, value_parser};
use cs_names::limits::WORKERS;
use std::alloc::{AllocError, Global};

/// What the exit statuses mean, for the end of the help.
const STATUSES: &str =
    "Exit status: 0 success; 1 a fault, which standard error names; 2 the command line is refused.";

/// The names of clients, as `serving_of` reads them.
const CLIENTS: [&str; 2] = ["plan9", "linux"];

/// The names of profiles, as `profile_of` reads them: change both.
const PROFILES: [&str; 3] = ["blocks", "ordered", "journal"];

/// The most workers, and the most connections.
const MOST: i64 = WORKERS as i64;

/// The option `--name` with a value, which the help shows as `shown`.
fn value_argument<'a>(alloc: Global, name: &'a str, shown: &'a str, help: &'a str) -> Arg<'a> {
    Arg::new(alloc, name)
        .long(name)
        .value_name(shown)
        .help(help)
        .action(ArgAction::Set)
}

/// An option whose value is a number from 1 to MOST.
fn count_argument<'a>(alloc: Global, name: &'a str, help: &'a str) -> Arg<'a> {
    value_argument(alloc, name, "N", help).value_parser(value_parser!(u32).range(1..=MOST))
}

/// An option without a value.
fn flag<'a>(alloc: Global, name: &'a str, help: &'a str) -> Arg<'a> {
    Arg::new(alloc, name)
        .long(name)
        .help(help)
        .action(ArgAction::SetTrue)
}

/// A group of two arguments, exactly one of which must be given.
fn one_of<'a>(
    alloc: Global,
    name: &'a str,
    first: &'a str,
    second: &'a str,
) -> Result<ArgGroup<'a>, AllocError> {
    let group = ArgGroup::new(alloc, name).required(true);
    group.arg(first)?.arg(second)
}

/// The command with the trace, as an argument or as the option `--trace`: exactly one of them must
/// be given.
fn with_trace<'a>(alloc: Global, command: Command<'a>) -> Result<Command<'a>, AllocError> {
    let help = "The trace, one JSON object a line; - is standard input";
    let file = Arg::new(alloc, "file")
        .value_name("TRACE")
        .help(help)
        .action(ArgAction::Set);
    command
        .arg(file)?
        .arg(value_argument(alloc, "trace", "FILE", "The same as TRACE"))?
        .group(one_of(alloc, "input", "file", "trace")?)
}

/// The command with the trace, and the options that add states.
fn with_states<'a>(alloc: Global, command: Command<'a>) -> Result<Command<'a>, AllocError> {
    let holes = flag(alloc, "holes", "Adds the states of prefixes with a hole");
    let help = "Adds the states of these sets, one JSON array of places a line";
    let picks = value_argument(alloc, "picks", "FILE", help);
    with_trace(alloc, command)?.arg(holes)?.arg(picks)
}

/// The option `--users`, with this text of help.
fn users_argument<'a>(alloc: Global, help: &'a str) -> Arg<'a> {
    value_argument(alloc, "users", "FILE", help)
}

/// The command `list` and its options.
fn list_command<'a>(alloc: Global) -> Result<Command<'a>, AllocError> {
    let lines = "Adds each operation's line of the trace, and the path of a file that changes";
    let same = "Adds to each state the first one that has an equal tree";
    let json = "Prints one JSON object a line, with lines, files, needs and equal states";
    let lost = "Adds the states of the sets that picks --lost prints, each once";
    let files = "Adds the states of the sets that picks --files prints, each once";
    let list = Command::new(alloc, "list")
        .about("Prints the micro-operations and the crash states")
        .after_help("Example: crashfs list store.trace --holes --lines --same")
        .arg(flag(alloc, "lines", lines))?
        .arg(flag(alloc, "same", same))?
        .arg(flag(alloc, "json", json))?
        .arg(flag(alloc, "lost", lost))?
        .arg(flag(alloc, "files", files))?;
    with_states(alloc, list)
}

/// The command `tar` and its options. A refusal of `--states` needs it by itself.
pub fn tar_command<'a>(alloc: Global) -> Result<Command<'a>, AllocError> {
    let state = value_argument(alloc, "state", "N", "The state of that number").value_parser(
        value_parser!(u32),
    );
    let help = "The states of a list, as 3,7-9, each below a directory of its number";
    let states = value_argument(alloc, "states", "LIST", help);
    let one_of = one_of(alloc, "which", "state", "states")?;
    let changes =
        "Only what differs from the start tree: new and changed files below N/, and a file N.missing of the paths that are gone, each with a NUL after it";
    let sparse =
        "Write files of at least 65,536 bytes, half of whose pages are zeros, without the zeros";
    let tar = Command::new(alloc, "tar")
        .about("Writes the files of crash states as a tar archive")
        .after_help("Example: crashfs tar store.trace --holes --state 18 | tar -x -C dir")
        .arg(state)?
        .arg(states)?
        .arg(flag(alloc, "changes", changes))?
        .arg(flag(alloc, "sparse", sparse))?
        .group(one_of)?;
    with_states(alloc, tar)
}

/// The argument, which is refused together with `--lost` or `--files`.
fn without_families<'a>(arg: Arg<'a>) -> Result<Arg<'a>, AllocError> {
    arg.conflicts_with("lost")?.conflicts_with("files")
}

/// The argument, which is refused without `--every`, and together with `--lost`, `--files` or
/// `--sample`.
fn of_every<'a>(arg: Arg<'a>) -> Result<Arg<'a>, AllocError> {
    // what needs `--every` is refused with whatever `--every` is refused with
    without_families(arg.requires_arg("every")?)?.conflicts_with("sample")
}

/// The command with `--every` of `picks` and the options that go with it.
fn with_every<'a>(alloc: Global, command: Command<'a>) -> Result<Command<'a>, AllocError> {
    let every = "All sets that a crash may leave";
    let different = "Of these only the first of those that leave equal states";
    let count = "Only how many sets there are";
    let most = "The most sets that are printed, 1 to 16777216; default 1000000";
    let profile = "Of these only those that a file system of the profile may leave too";
    let every = without_families(flag(alloc, "every", every))?;
    let profile = value_argument(alloc, "profile", "PROFILE", profile).value_parser(
        PROFILES.as_slice(),
    );
    let profile = of_every(profile)?.conflicts_with("count")?;
    let different = of_every(flag(alloc, "different", different))?.conflicts_with("count")?;
    let count = of_every(flag(alloc, "count", count))?;
    let most = value_argument(alloc, "most", "N", most).value_parser(value_parser!(u32).range(
        1..=16_777_216,
    ));
    let most = of_every(most)?.conflicts_with("count")?;
    command
        .arg(every)?
        .arg(profile)?
        .arg(different)?
        .arg(count)?
        .arg(most)
}

/// The command with `--sample` and `--seed` of `picks`, of which each needs the other.
fn with_sample<'a>(alloc: Global, command: Command<'a>) -> Result<Command<'a>, AllocError> {
    let sample = "Sets that are drawn one after the other, 1 to 16384";
    let seed = "The number by which they are drawn";
    let sample = value_argument(alloc, "sample", "M", sample)
        .value_parser(value_parser!(u32).range(1..=16_384))
        .requires_arg("seed")?;
    let sample = without_families(sample)?.conflicts_with("every")?;
    let seed = value_argument(alloc, "seed", "S", seed)
        .value_parser(value_parser!(u64))
        .requires_arg("sample")?;
    let seed = without_families(seed)?.conflicts_with("every")?;
    command.arg(sample)?.arg(seed)
}

/// The command `picks` and its options.
fn picks_command<'a>(alloc: Global) -> Result<Command<'a>, AllocError> {
    let lost = "For each operation the smallest set that still has it";
    let files = "For each prefix and each file, the disk without its changes that no sync covers";
    let sets = ArgGroup::new(alloc, "sets").required(true).multiple(true);
    let sets = sets.arg("lost")?.arg("files")?.arg("every")?.arg("sample")?;
    let picks = Command::new(alloc, "picks")
        .about("Prints sets of micro-operations as a file for --picks")
        .after_help("Example: crashfs picks store.trace --lost > lost.picks")
        .arg(flag(alloc, "lost", lost))?
        .arg(flag(alloc, "files", files))?;
    let picks = with_sample(alloc, with_every(alloc, picks)?)?;
    with_trace(alloc, picks.group(sets)?)
}

/// The command `script` and its options.
fn script_command<'a>(alloc: Global) -> Result<Command<'a>, AllocError> {
    let verbose = "Prints each message and its reply as text on standard error";
    let script = Command::new(alloc, "script")
        .about("Runs the 9P2000 messages of standard input, one a line, and prints the replies")
        .after_help("Example: crashfs script store.trace --users users < messages")
        .arg(users_argument(alloc, "The users file, as users(6) has it").required(true))?
        .arg(flag(alloc, "verbose", verbose))?;
    with_states(alloc, script)
}

/// The command `serve` with the address, which must be given, and the numbers of workers and
/// connections.
fn with_counts<'a>(alloc: Global, command: Command<'a>) -> Result<Command<'a>, AllocError> {
    let listen = "The address and port to listen on; port 0 lets the system choose one";
    let workers = "How many threads make the states, 1 to 64; default: one a processor";
    let connections =
        "How many connections are served: before the end, or at once; 1 to 64, default 64";
    command
        .arg(value_argument(alloc, "listen", "ADDR", listen).required(true))?
        .arg(count_argument(alloc, "workers", workers))?
        .arg(count_argument(alloc, "connections", connections))
}

/// The command `serve` and its options.
fn serve_command<'a>(alloc: Global) -> Result<Command<'a>, AllocError> {
    let again = "Accepts another connection when one ends, until standard input ends";
    let until_killed = "As --again, but until a signal ends it: standard input isn't read";
    let ready = "Makes all states before it listens";
    let reload = "Reads the users file again for each connection: later runs have its users";
    let verbose = "Prints connections, messages with their replies, and attaches on standard error";
    let users = "The users file, as users(6) has it; default: the owners and groups of the trace";
    let client = "Whose clients connect: Linux's own needs other texts of errors";
    let client = value_argument(alloc, "client", "CLIENT", client)
        .value_parser(CLIENTS.as_slice())
        .default_value("plan9");
    let serve = Command::new(alloc, "serve")
        .about("Serves the states over TCP, each connection in a thread of its own")
        .after_help(
            "Examples:\n  crashfs serve store.trace --users users --listen localhost:5640 --connections 4\n  sleep infinity | crashfs serve store.trace --users users --listen localhost:5640 --again --reload",
        )
        .arg(flag(alloc, "again", again))?
        .arg(flag(alloc, "until-killed", until_killed))?
        .arg(flag(alloc, "ready", ready))?
        .arg(flag(alloc, "reload", reload))?
        .arg(client)?
        .arg(flag(alloc, "verbose", verbose))?;
    let serve = with_counts(alloc, serve.arg(users_argument(alloc, users))?)?;
    with_states(alloc, serve)
}

/// The command line of the program: its version, its help and its five commands. The error is out
/// of memory.
pub fn command<'a>(alloc: Global) -> Result<Command<'a>, AllocError> {
    Command::new(alloc, "crashfs")
        .about(
            "Shows the states in which a crash may leave an application's files, and serves them over 9P2000",
        )
        .version(VERSION)
        .after_help(STATUSES)
        .subcommand_required(true)
        .subcommand(list_command(alloc)?)?
        .subcommand(tar_command(alloc)?)?
        .subcommand(picks_command(alloc)?)?
        .subcommand(script_command(alloc)?)?
        .subcommand(serve_command(alloc)?)
}
