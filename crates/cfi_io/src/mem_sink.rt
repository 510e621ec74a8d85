//! A sink in memory, some of whose calls fail.
ghost use Rattle.std.specs.Prelude.{◌≡◌, ◌≢◌, ◌≤◌, ◌++◌, [], Some, Contains, OnOk, OnErr, IsErrOf};
ghost use Rattle.std.specs.Io.KnownBytes.{Appends};
ghost use Rattle.cfi_io.specs.declared.fault.SinkFault.TheVariants.{Failed, Memory};
ghost use Rattle.cfi_io.specs.Count.{Rose, next_count};
ghost use Rattle.cfi_io.specs.Told.{AppendsPrefix};
ghost use Rattle.cfi_io.specs.Held.{bytes_held, sink_calls, sink_fails, sink_faults, sink_seen};

use crate::count::{Calls, raise};
use crate::{Sink, SinkFault};
use std::alloc::Global;

/// Bytes in memory, which tells them. Its calls are numbered from 0.
#[derive(Debug, Drop)]
pub struct MemSink {
    bytes: Vec<u8>,
    calls: Calls,
}

impl MemSink {
    /// A sink without bytes, whose calls with these numbers fail.
    ///
    /// Later calls take their memory from `alloc`; this one takes none.
    pub fn new(alloc: Global, fails: Vec<u32>) -> Self
        ensures bytes { bytes_held result ≡ [] }
        ensures fails { sink_fails result ≡ fails.items }
        ensures calls { sink_calls result ≡ 0 }
        ensures faults { (⟦<MemSink as Sink>⟧.seen result).faults ≡ 0 }
    {
        MemSink {
            bytes: Vec::new(alloc),
            calls: Calls::new(fails),
        }
    }

    /// The bytes so far. This is no numbered call.
    pub fn written(&self) -> &[u8]
        ensures { result.now ≡ bytes_held self.now }
    {
        &self.bytes
    }
}

impl Sink for MemSink {
    ghost seen = { sink_seen };

    fn write(&mut self, bytes: &[u8]) -> Result<(), SinkFault>
        ensures ok { OnOk result (bytes_held self.new ≡ bytes_held self.old ++ bytes.now) }
        ensures failed { IsErrOf result Failed →
            Rose (sink_faults self.old) (sink_faults self.new) }
        ensures numbered { IsErrOf result Failed →
            Contains (sink_fails self.old) (sink_calls self.old) }
        ensures fails { Contains (sink_fails self.old) (sink_calls self.old) → result ≡ Err Failed }
        ensures part { IsErrOf result Failed →
            AppendsPrefix (Some (bytes_held self.old)) (Some (bytes_held self.new)) bytes.now }
        ensures err { OnErr result (bytes_held self.new ≡ bytes_held self.old) }
        ensures memory { IsErrOf result Memory →
            Some (bytes_held self.new) ≡ Some (bytes_held self.old) }
        ensures faults { sink_faults self.old ≤ sink_faults self.new }
        ensures still { (result ≢ Err Failed) → sink_faults self.new ≡ sink_faults self.old }
        ensures counted { sink_calls self.new ≡ next_count (sink_calls self.old) }
        ensures same_fails { sink_fails self.new ≡ sink_fails self.old }
    {
        if self.calls.fails_now() {
            raise(&mut self.calls.faults);
            return Err(SinkFault::Failed);
        }
        self.bytes.extend_from_slice(bytes)?;
        Ok(())
    }
}
