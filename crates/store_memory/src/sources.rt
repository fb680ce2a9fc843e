//! A clock and a source of identifiers in memory.
ghost use Rattle.std.specs.Prelude.{◌≡◌, ◌+◌, ◌-◌, ◌<◌, ◌^◌, true, min};
ghost use Rattle.ice_store.specs.Given.{Gives};
ghost use Rattle.store_memory.specs.Neighbours.{next_moment};
ghost use Rattle.store_memory.specs.Given.{told_below, moment_at, are_moments};

use ice_store::{Clock, Ids, Items};

/// A list of numbers.
pub type NumberList = Items<u64>;

/// A clock that gives some moments in their order, and then the last one again; 0 where there is none.
#[derive(Debug, Drop)]
pub struct FixedClock {
    pub moments: NumberList,
    /// How many moments were given, up to the greatest 64-bit number.
    pub count: u64,
    ghost small: { are_moments moments ≡ true },
}

impl FixedClock {
    /// A clock that gives these moments, each of them at most 9223372036854775807. Takes no memory.
    pub fn new(moments: NumberList) -> FixedClock
        requires { are_moments moments ≡ true }
        ensures moments { result.moments ≡ moments }
        ensures count { result.count ≡ 0 }
    {
        FixedClock { moments, count: 0 }
    }
}

impl Clock for FixedClock {
    ghost given = { λ c. told_below (2 ^ 64 - 1) (moment_at c.moments) c.count };

    fn now_ms(&mut self) -> u64
        ensures given { Gives (told_below (2 ^ 64 - 1) (moment_at self.old.moments) self.old.count) (told_below (2 ^ 64 - 1) (moment_at self.new.moments) self.new.count) result }
        ensures small { result < 2 ^ 63 }
        ensures value { result ≡ moment_at self.old.moments self.old.count }
        ensures moments { self.new.moments ≡ self.old.moments }
        ensures count { self.new.count ≡ next_moment self.old.count }
    {
        let count = self.count;
        self.count = count.saturating_add(1);
        moment_in(self.moments.inner(), count)
    }
}

fn moment_in(moments: &[u64], count: u64) -> u64
    ensures { result ≡ moment_at moments.now count }
{
    let last = moments.len().saturating_sub(1);
    let index = if count < last as u64 {
        count as usize
    } else {
        last
    };
    moments.get(index).copied().unwrap_or(0)
}

/// A source of the identifiers 1, 2, 3 and so on. At the greatest number it stays.
#[derive(Debug, Drop)]
pub struct CountIds {
    /// How many identifiers were given.
    pub count: u128,
}

impl CountIds {
    /// Takes no memory.
    pub fn new() -> CountIds
        ensures { result.count ≡ 0 }
    {
        CountIds { count: 0 }
    }
}

impl Ids for CountIds {
    ghost given = { λ c. told_below (2 ^ 128 - 1) (λ n. n + 1) c.count };

    fn next(&mut self) -> u128
        ensures given { Gives (told_below (2 ^ 128 - 1) (λ n. n + 1) self.old.count) (told_below (2 ^ 128 - 1) (λ n. n + 1) self.new.count) result }
        ensures value { result ≡ min (self.old.count + 1) (2 ^ 128 - 1) }
        ensures count { self.new.count ≡ result }
    {
        self.count = self.count.saturating_add(1);
        self.count
    }
}
