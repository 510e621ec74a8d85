//! Standard output as a sink.
ghost use Rattle.std.specs.Prelude.{◌≡◌, ◌≤◌, ℕ, None};

use crate::count::raise;
use crate::pipe::write_file;
use crate::{Sink, SinkFault};
use std::io;

/// Standard output. It tells no content.
#[derive(Drop)]
pub struct StdSink {
    rt: HostRuntime,
    faults: u64,
    error: Option<io::Error>,
}

impl StdSink {
    /// The standard output of this runtime. This call takes no memory, nor does a write.
    pub fn new(rt: HostRuntime) -> Self
        ensures faults { (⟦<StdSink as Sink>⟧.seen result).faults ≡ 0 }
        ensures error { result.error ≡ None }
    {
        StdSink {
            rt,
            faults: 0,
            error: None,
        }
    }

    /// What the system said of the last write that it refused.
    pub fn error(&self) -> Option<io::Error>
        ensures { result ≡ self.now.error }
    {
        self.error
    }
}

impl Sink for StdSink {
    ghost seen = { λ sink. record { written = None; faults = sink.faults } };

    fn write(&mut self, bytes: &[u8]) -> Result<(), SinkFault> {
        let Err(error) = write_file(&mut io::writer(&self.rt), bytes) else {
            return Ok(());
        };
        self.error = Some(error);
        raise(&mut self.faults);
        Err(SinkFault::Failed)
    }
}
