//! A command with its options, and the files that it is given.
use crate::list::ListOptions;
use crate::picks::PicksOptions;
use crate::serve::Serving;
use crate::tar::TarOptions;

/// Which crash states a command is about.
#[derive(Clone, Copy, Debug)]
pub struct Wanted<'a> {
    /// The path of the trace; `-` is standard input.
    pub trace: &'a str,
    /// Whether the states of prefixes with a hole are among them.
    pub holes: bool,
    /// The path of a file of further sets; None without `--picks`.
    pub picks: Option<&'a str>,
}

/// What the command does with these states.
#[derive(Debug, Drop)]
pub enum Job<'a> {
    /// Lists the micro-operations and the states.
    List(ListOptions),
    /// Writes the trees of some states as an archive.
    Tar(TarOptions),
    /// Prints sets of micro-operations as a picks file.
    Picks(PicksOptions),
    /// Runs a script from standard input.
    Script,
    /// Serves connections over TCP.
    Serve(Serving<'a>),
}

/// What the command line asks for.
#[derive(Debug, Drop)]
pub struct Ask<'a> {
    /// The trace, and its states.
    pub wanted: Wanted<'a>,
    /// The path of the users file. None if the command has no `--users`, and for `serve` without
    /// it.
    pub users: Option<&'a str>,
    /// Whether messages are printed as text on standard error: of `script` and `serve`.
    pub verbose: bool,
    /// The command, with its own options.
    pub job: Job<'a>,
}
