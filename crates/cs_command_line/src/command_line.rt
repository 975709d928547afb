//! Reading the command line. The commands and options that it may have are in `commands`. The
//! functions below are given what clap made of the words. Their only error is out of memory, except
//! that of `ask_of`.
use crate::commands::{command, tar_command};
use clap::error::ErrorKind;
use clap::{ArgMatches, Error};
use cs_options::{
    Ask, Client, Job, ListOptions, PicksOptions, ProfileName, Sample, Serving, StateRange, States,
    TarOptions, Wanted,
};
use std::alloc::{AllocError, Global};

/// How many connections are served if the command line doesn't say.
const CONNECTIONS: u32 = 64;

/// How many sets are printed at most if the command line doesn't say.
const MOST_SETS: u32 = 1_000_000;

/// The path of the trace: the argument, else the value of `--trace`. Exactly one of them is given:
/// the command line is refused otherwise.
fn path_of_trace<'a>(matches: &ArgMatches<'a>) -> &'a str {
    match matches.get_str("file") {
        Some(path) => path,
        None => matches.get_str("trace").unwrap_or(""),
    }
}

/// The trace, and which of its states the command is about. `picks` has neither option, so no holes
/// and no picks.
fn wanted_of<'a>(matches: &ArgMatches<'a>) -> Wanted<'a> {
    Wanted {
        trace: path_of_trace(matches),
        holes: matches.get_flag("holes"),
        picks: matches.get_str("picks"),
    }
}

/// What the options of `list` ask for.
fn options_of(matches: &ArgMatches) -> ListOptions {
    ListOptions {
        lines: matches.get_flag("lines"),
        same: matches.get_flag("same"),
        json: matches.get_flag("json"),
        lost: matches.get_flag("lost"),
        files: matches.get_flag("files"),
    }
}

/// The range that a text `N` or `A-B` means, with both ends. None if the text is neither, if a
/// number is greater than 4,294,967,295, or if A is greater than B.
fn range_of(text: &str) -> Option<StateRange> {
    let (first, last) = text.split_once('-').unwrap_or((text, text));
    let first = first.parse().ok()?;
    let last = last.parse().ok()?;
    if first > last {
        return None;
    }
    Some(StateRange { first, last })
}

/// The ranges of a text, which are separated by commas. None if one of its parts isn't a range, as
/// the empty text isn't.
fn ranges_of(alloc: Global, text: &str) -> Result<Option<Vec<StateRange>>, AllocError> {
    let mut ranges = Vec::new(alloc);
    for item in text.split(',') {
        let Some(range) = range_of(item) else {
            return Ok(None);
        };
        ranges.push(range)?;
    }
    Ok(Some(ranges))
}

/// The states that `tar` writes. None if the value of `--states` isn't a list of ranges. (One of
/// `--state` and `--states` is given: the command line is refused otherwise.)
fn states_of(alloc: Global, matches: &ArgMatches) -> Result<Option<States>, AllocError> {
    let changes = matches.get_flag("changes");
    if let Some(text) = matches.get_str("states") {
        let ranges = ranges_of(alloc, text)?;
        return Ok(if changes {
            ranges.map(States::Changes)
        } else {
            ranges.map(States::Each)
        });
    }
    let Some(number) = matches.get_one("state") else {
        return Ok(None);
    };
    if !changes {
        return Ok(Some(States::One(number)));
    }
    let mut ranges = Vec::new(alloc);
    ranges.push(StateRange {
        first: number,
        last: number,
    })?;
    Ok(Some(States::Changes(ranges)))
}

/// The profile that `--profile` names; None without it. Clap refuses other names.
fn profile_of(matches: &ArgMatches) -> Option<ProfileName> {
    match matches.get_str("profile") {
        Some("blocks") => Some(ProfileName::Blocks),
        Some("ordered") => Some(ProfileName::Ordered),
        // no other name is taken
        Some(_) => Some(ProfileName::Journal),
        None => None,
    }
}

/// What `picks` prints. One of the options that say so is given, and `--sample` and `--seed` go
/// together: the command line is refused otherwise.
fn picks_of(matches: &ArgMatches) -> PicksOptions {
    let count: Option<u32> = matches.get_one("sample");
    PicksOptions {
        lost: matches.get_flag("lost"),
        files: matches.get_flag("files"),
        every: matches.get_flag("every"),
        profile: profile_of(matches),
        different: matches.get_flag("different"),
        count: matches.get_flag("count"),
        most: matches.get_one("most").unwrap_or(MOST_SETS),
        sample: match count {
            Some(count) => Some(Sample {
                count,
                seed: matches.get_one("seed").unwrap_or(0),
            }),
            None => None,
        },
    }
}

/// What `serve` serves, and how. `--listen` is given: the command line is refused otherwise.
/// Without `--workers` there are 0 workers, which the program's `workers_of` replaces; it also
/// decides whether progress is printed.
fn serving_of<'a>(matches: &ArgMatches<'a>) -> Serving<'a> {
    Serving {
        listen: matches.get_str("listen").unwrap_or(""),
        workers: matches.get_one("workers").unwrap_or(0),
        connections: matches.get_one("connections").unwrap_or(CONNECTIONS),
        again: matches.get_flag("again") || matches.get_flag("until-killed"),
        until_killed: matches.get_flag("until-killed"),
        ready: matches.get_flag("ready"),
        reload: if matches.get_flag("reload") {
            matches.get_str("users")
        } else {
            None
        },
        client: match matches.get_str("client") {
            Some("linux") => Client::Linux,
            // `plan9`, which is also the default
            _ => Client::Plan9,
        },
        progress: false,
    }
}

/// What the command of this name does; a name that is none of the four others is `serve`. None if
/// the value of `--states` isn't a list of ranges; only `tar` has one.
fn job_of<'a>(
    alloc: Global,
    name: &str,
    matches: &ArgMatches<'a>,
) -> Result<Option<Job<'a>>, AllocError> {
    Ok(match name {
        "list" => Some(Job::List(options_of(matches))),
        "tar" => match states_of(alloc, matches)? {
            Some(states) => Some(Job::Tar(TarOptions {
                states,
                sparse: matches.get_flag("sparse"),
            })),
            None => None,
        },
        "picks" => Some(Job::Picks(picks_of(matches))),
        "script" => Some(Job::Script),
        _ => Some(Job::Serve(serving_of(matches))),
    })
}

/// The refusal of a value of `--states` that isn't a list of ranges, in the form in which clap
/// refuses values. `text` is the value.
fn refusal_of_list(alloc: Global, text: &str) -> Result<Error, AllocError> {
    let text = format!(in alloc;
        "invalid value '{text}' for '--states <LIST>': numbers N and ranges A-B, with commas"
    )?;
    let mut tar = tar_command(alloc)?.bin_name("crashfs tar")?;
    tar.error(ErrorKind::ValueValidation, text.as_str())
}

/// What the words of the command line ask for; the first is the program's name. The error has a
/// text for the user: the help, the version, or what is wrong with the words. It may be out of
/// memory too (ErrorKind::OutOfMemory). Nothing is printed, and no file is read.
pub fn ask_of<'a>(alloc: Global, words: &'a [&'a str]) -> Result<Ask<'a>, Error> {
    let matches = command(alloc)?.try_get_matches_from(words)?;
    // a command line without a command was refused
    let (name, inner) = matches.subcommand().unwrap_or(("list", &matches));
    let Some(job) = job_of(alloc, name, inner)? else {
        return Err(refusal_of_list(alloc, inner.get_str("states").unwrap_or(""))?);
    };
    Ok(Ask {
        wanted: wanted_of(inner),
        users: inner.get_str("users"),
        verbose: inner.get_flag("verbose"),
        job,
    })
}
