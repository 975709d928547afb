//! The time of the machine, as the clock of a session.
ghost use Rattle.std.specs.Prelude.{◌≡◌, ◌<◌, ◌≤◌, ◌^◌};

use cs_session::Clock;
use std::rt;
use std::time::{SystemTime, UNIX_EPOCH};

/// The seconds in the 32 bits of a time in 9P; 0 if they don't fit, which is from 2106 on.
fn seconds(whole: u64) -> u32
    ensures fits { whole < 2 ^ 32 → result ≡ whole }
    ensures none { 2 ^ 32 ≤ whole → result ≡ 0 }
{
    u32::try_from(whole).unwrap_or(0)
}

/// The clock of the machine.
#[derive(Drop)]
pub(crate) struct WallClock<'a, R> {
    /// The runtime that reads the machine's clock.
    rt: &'a R,
}

impl<'a, R> WallClock<'a, R> {
    /// The clock that this runtime has.
    pub(crate) fn new(rt: &'a R) -> WallClock<'a, R> {
        WallClock { rt }
    }
}

impl<R: rt::Clock> Clock for WallClock<'_, R> {
    /// The seconds since 1970; 0 if the clock can't be read, is before 1970, or they don't fit.
    fn now(&mut self) -> u32 {
        let Ok(now) = SystemTime::now(self.rt) else {
            return 0;
        };
        match now.duration_since(UNIX_EPOCH) {
            Ok(since) => seconds(since.as_secs()),
            Err(_) => 0,
        }
    }
}
