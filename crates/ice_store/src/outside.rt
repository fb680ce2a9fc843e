//! The clock, the source of identifiers and the sinks.
ghost use Rattle.std.specs.Prelude.{◌<◌, ◌^◌, ℕ, List, Option};
ghost use Rattle.ice_store.specs.Given.{Gives, Takes, SinkCause};

/// A clock. It need not be steady.
pub trait Clock {
    /// The moments given so far, where they are told.
    ghost given: { Self → Option (List ℕ) };

    /// The moment now, in milliseconds since 1970 UTC, at most `LARGEST_LONG`.
    fn now_ms(&mut self) -> u64
        ensures given { Gives (given self.old) (given self.new) result }
        ensures small { result < 2 ^ 63 };
}

/// A source of identifiers. No uniqueness is promised.
pub trait Ids {
    /// The identifiers given so far, where they are told.
    ghost given: { Self → Option (List ℕ) };

    /// The next identifier.
    fn next(&mut self) -> u128
        ensures { Gives (given self.old) (given self.new) result };
}

/// A put of a sink that failed.
#[derive(Debug, Clone, Copy, PartialEq, Eq)]
pub struct Failed;

/// What takes the report, or the message.
pub trait Sink {
    /// What was taken so far, where it is told.
    ghost contents: { Self → Option (List ℕ) };

    /// How often the sink has failed, up to the greatest 64-bit number.
    ghost faults: { Self → ℕ };

    /// Puts all of the bytes, or fails after a prefix of them.
    fn put(&mut self, bytes: &[u8]) -> Result<(), Failed>
        ensures contents { Takes (contents self.old) (contents self.new) bytes.now result }
        ensures cause { SinkCause (faults self.old) (faults self.new) result };
}
