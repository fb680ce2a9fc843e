//! Identifiers from a random number.
ghost use Rattle.std.specs.Prelude.{◌≡◌, ◌+◌, ◌-◌, ◌%◌, ◌^◌, min, IfOk};
ghost use Rattle.store_directory.specs.Identifiers.{identifiers_given};
ghost use Rattle.ice_store.specs.Given.{Gives};

use ice_store::Ids;
use std::io;
use std::random::RandomSource;

/// Identifiers: one random number, and the numbers after it, modulo 2^128. It tells which it gave.
#[derive(Debug, Drop)]
pub struct RandomIds {
    /// The identifier that is given first.
    pub first: u128,
    /// How many identifiers were given, up to the greatest 128-bit number.
    pub count: u128,
}

impl RandomIds {
    /// Draws the first identifier, which isn't given yet; fails where the random source does. Takes no memory.
    pub fn draw(rt: &HostRuntime) -> io::Result<RandomIds>
        ensures count { IfOk result (λ ids. ids.count ≡ 0) }
    {
        let mut bytes = [0u8; 16];
        rt.fill_bytes(&mut bytes)?;
        Ok(RandomIds {
            first: u128::from_le_bytes(bytes),
            count: 0,
        })
    }
}

impl Ids for RandomIds {
    ghost given = { λ ids. identifiers_given ids.first ids.count };

    fn next(&mut self) -> u128
        ensures given { Gives (identifiers_given self.old.first self.old.count) (identifiers_given self.new.first self.new.count) result }
        ensures value { result ≡ (self.old.first + self.old.count) % 2 ^ 128 }
        ensures first { self.new.first ≡ self.old.first }
        ensures count { self.new.count ≡ min (self.old.count + 1) (2 ^ 128 - 1) }
    {
        let id = self.first.wrapping_add(self.count);
        self.count = self.count.saturating_add(1);
        id
    }
}
