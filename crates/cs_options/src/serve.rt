//! The options of `serve`.

/// A client of 9P2000.
#[derive(Clone, Copy, Debug, PartialEq, Eq)]
pub enum Client {
    /// One that takes every text of an Rerror, as Plan 9's do.
    Plan9,
    /// Linux's own, which knows errors by other texts than Plan 9's clients, and fills in fields of
    /// a Twstat that its user doesn't change.
    Linux,
}

/// What is served, and to whom.
#[derive(Clone, Copy, Debug, PartialEq, Eq)]
pub struct Serving<'a> {
    /// The address to listen on: an IP address or a host's name, a colon and a port. With the port
    /// 0 the system chooses one.
    pub listen: &'a str,
    /// How many threads make the states, from 1 to 64. The command line gives 0 without
    /// `--workers`, which the program replaces: with 0 publishing fails.
    pub workers: u32,
    /// How many connections are served before the end; with `again`, how many at once.
    pub connections: u32,
    /// Whether another connection is accepted when one ends, until the input ends.
    pub again: bool,
    /// Whether the end of the input ends nothing. Only with `again`.
    pub until_killed: bool,
    /// Whether all states are published before the first connection is accepted.
    pub ready: bool,
    /// The path of the users file, if it is read again after each accept.
    pub reload: Option<&'a str>,
    /// Which kind of client connects.
    pub client: Client,
    /// Whether it prints how many states are published so far. The program sets it if standard
    /// error is a terminal.
    pub progress: bool,
}
