//! The address that the server listens on, as it is printed.

use std::fmt;

/// An address as the command line gave it, and the port that the system took.
#[derive(Clone, Copy, Debug)]
pub(crate) struct Address<'a> {
    /// HOST:PORT, as the command line has it.
    pub(crate) given: &'a str,
    /// The port that the listener has.
    pub(crate) taken: u16,
}

impl fmt::Display for Address<'_> {
    /// Writes the address as it was given. In place of a port 0 it writes the port that was taken.
    fn fmt<W: fmt::Write>(&self, f: &mut fmt::Formatter<W>) -> fmt::Result {
        let given = self.given;
        match given.rsplit_once(':') {
            Some((host, port)) if port.parse::<u16>() == Ok(0) => {
                let taken = self.taken;
                write!(f, "{host}:{taken}")
            }
            _ => f.write_str(given),
        }
    }
}
