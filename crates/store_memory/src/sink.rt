//! A sink in memory.
ghost use Rattle.std.specs.Prelude.{◌≡◌, ◌+◌, ◌-◌, ◌≤◌, ◌++◌, [], Some, IfOk, IsOk, IsTrue, ◌↔◌, length, vec_len, vec_capacity, nat_eq};
ghost use Rattle.std.specs.List.{list_any};
ghost use Rattle.ice_store.specs.Given.{Takes, SinkCause};
ghost use Rattle.store_memory.specs.Neighbours.{next_moment};
ghost use Rattle.store_memory.specs.Sinks.{taken_of, is_taken};

use crate::NumberList;
use ice_store::{Failed, Sink};
use std::alloc::{AllocError, Global};

/// A sink in memory, which takes as many bytes as it has room for.
#[derive(Debug, Drop)]
pub struct MemSink {
    pub contents: Vec<u8>,
    /// How many bytes it may hold, which are reserved.
    pub room: usize,
    /// The numbers, counted from 0, of the puts that take nothing and fail.
    pub fails: NumberList,
    /// How many puts there were, up to the greatest 64-bit number.
    pub puts: u64,
    /// How often a put has failed, up to the greatest 64-bit number.
    pub faults: u64,
    ghost reserved: { room ≤ vec_capacity contents },
    ghost within: { vec_len contents ≤ room },
}

impl MemSink {
    /// An empty sink, which takes its room at once.
    pub fn new(alloc: Global, room: usize, fails: NumberList) -> Result<MemSink, AllocError>
        ensures contents { IfOk result (λ s. s.contents.items ≡ []) }
        ensures room { IfOk result (λ s. s.room ≡ room) }
        ensures fails { IfOk result (λ s. s.fails ≡ fails) }
        ensures puts { IfOk result (λ s. s.puts ≡ 0) }
        ensures faults { IfOk result (λ s. s.faults ≡ 0) }
    {
        Ok(MemSink {
            contents: Vec::with_capacity(alloc, room)?,
            room,
            fails,
            puts: 0,
            faults: 0,
        })
    }

    /// What was put. Takes no memory.
    pub fn bytes(&self) -> &[u8]
        ensures { result.now ≡ self.now.contents.items }
    {
        self.contents.as_slice()
    }
}

impl Sink for MemSink {
    ghost contents = { λ s. Some s.contents.items };

    ghost faults = { λ s. s.faults };

    fn put(&mut self, bytes: &[u8]) -> Result<(), Failed>
        ensures contents { Takes (Some self.old.contents.items) (Some self.new.contents.items) bytes.now result }
        ensures cause { SinkCause self.old.faults self.new.faults result }
        ensures taken { self.new.contents.items ≡ self.old.contents.items ++ taken_of self.old.fails self.old.puts (self.old.room - vec_len self.old.contents) bytes.now }
        ensures succeeds { IsOk result ↔ IsTrue (is_taken self.old.fails self.old.puts (self.old.room - vec_len self.old.contents) bytes.now) }
        ensures room { self.new.room ≡ self.old.room }
        ensures fails { self.new.fails ≡ self.old.fails }
        ensures puts { self.new.puts ≡ next_moment self.old.puts }
    {
        let put = self.puts;
        self.puts = put.saturating_add(1);
        if is_listed(self.fails.inner(), put) {
            self.faults = self.faults.saturating_add(1);
            return Err(Failed);
        }
        let left = self.room - self.contents.len();
        if bytes.len() > left {
            push_reserved(&mut self.contents, &bytes[..left]);
            self.faults = self.faults.saturating_add(1);
            return Err(Failed);
        }
        push_reserved(&mut self.contents, bytes);
        Ok(())
    }
}

fn is_listed(numbers: &[u64], number: u64) -> bool
    ensures { result ≡ list_any (λ n. nat_eq n number) numbers.now }
{
    numbers.iter().any(|n| *n == number)
}

// There is room for them.
fn push_reserved(contents: &mut Vec<u8>, more: &[u8])
    requires { vec_len contents.old + length more.now ≤ vec_capacity contents.old }
    ensures items { contents.new.items ≡ contents.old.items ++ more.now }
    ensures capacity { vec_capacity contents.old ≤ vec_capacity contents.new }
{
    let _ = contents.extend_from_slice(more);
}
