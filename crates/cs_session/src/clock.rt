//! What gives a connection the time.

/// A clock, in seconds since 1970.
pub trait Clock {
    /// The time now, in seconds since 1970. A later call may return an earlier time.
    fn now(&mut self) -> u32;
}
