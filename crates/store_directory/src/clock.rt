//! The machine's clock.
ghost use Rattle.std.specs.Prelude.{◌≡◌, None};
ghost use Rattle.store_directory.specs.Moments.{ms_of, moment_of};

use ice_store::Clock;
use std::io;
use std::time::{SystemTime, UNIX_EPOCH};

/// The greatest moment that a clock may give.
const LAST_MOMENT: u64 = 9_223_372_036_854_775_807;

/// A moment in milliseconds since 1970 UTC: 0 before that, and at most the greatest 64-bit number.
pub fn ms_since_1970(time: SystemTime) -> u64
    ensures { result ≡ ms_of time }
{
    match time.duration_since(UNIX_EPOCH) {
        Ok(since) => u64::try_from(since.as_millis()).unwrap_or(u64::MAX),
        Err(_) => 0,
    }
}

// The moment that a reading of the clock tells.
fn moment_of(read: io::Result<SystemTime>) -> u64
    ensures { result ≡ moment_of read }
{
    match read {
        Ok(time) => ms_since_1970(time).min(LAST_MOMENT),
        Err(_) => 0,
    }
}

/// The machine's clock. It answers 0 where it can't be read or stands before 1970, and tells no moments.
#[derive(Clone, Copy)]
pub struct MachineClock {
    rt: HostRuntime,
}

impl MachineClock {
    /// Takes no memory.
    pub fn new(rt: HostRuntime) -> MachineClock {
        MachineClock { rt }
    }
}

impl Clock for MachineClock {
    ghost given = { λ _. None };

    fn now_ms(&mut self) -> u64 {
        moment_of(SystemTime::now(&self.rt))
    }
}
