//! Output streams as sinks.
ghost use Rattle.std.specs.Prelude.{◌≡◌, None};
ghost use Rattle.ice_store.specs.Given.{Takes, SinkCause};
ghost use Rattle.store_directory.specs.Whole.{TakesFront};

use crate::whole::put_whole;
use ice_store::{Failed, Sink};
use std::io::Write;

/// An output stream. As a sink it tells no contents, and counts its failures.
#[derive(Debug, Drop)]
pub struct StreamSink<W> {
    /// The stream itself, whose contents may be known.
    pub stream: W,
    /// How often the stream has failed, up to the greatest 64-bit number.
    pub faults: u64,
}

impl<W> StreamSink<W> {
    /// The sink over this stream, which hasn't failed yet. Takes no memory.
    pub fn new(stream: W) -> StreamSink<W>
        ensures faults { result.faults ≡ 0 }
        ensures stream { result.stream ≡ stream }
    {
        StreamSink { stream, faults: 0 }
    }
}

impl<W: Write> Sink for StreamSink<W> {
    ghost contents = { λ _. None };

    ghost faults = { λ s. s.faults };

    fn put(&mut self, bytes: &[u8]) -> Result<(), Failed>
        ensures contents { Takes None None bytes.now result }
        ensures cause { SinkCause self.old.faults self.new.faults result }
        ensures stream { TakesFront (W.contents self.old.stream) (W.contents self.new.stream) bytes.now result }
    {
        if let Err(failed) = put_whole(&mut self.stream, bytes) {
            self.faults = self.faults.saturating_add(1);
            return Err(failed);
        }
        Ok(())
    }
}
