//! A sink, which takes the text of the program.
ghost use Rattle.std.specs.Prelude.{◌≡◌, ◌≤◌, OnOk, IsErrOf};
ghost use Rattle.std.specs.Io.KnownBytes.{Appends};
ghost use Rattle.cfi_io.specs.declared.fault.SinkFault.TheVariants.{Failed, Memory};
ghost use Rattle.cfi_io.specs.Count.{Rose};
ghost use Rattle.cfi_io.specs.Seen.{SinkView};
ghost use Rattle.cfi_io.specs.Told.{AppendsPrefix};

use crate::SinkFault;

/// Takes bytes, one piece after another.
///
/// A count that is said to rise stands still at `u64::MAX`. No count ever falls.
pub trait Sink {
    /// The bytes so far, where the sink tells them, and how often it has failed.
    ghost seen: { Self → SinkView };

    /// Appends these bytes.
    ///
    /// `Failed` where the sink failed: some of the bytes were appended, from the first on. `Memory`: none was.
    fn write(&mut self, bytes: &[u8]) -> Result<(), SinkFault>
        ensures ok { OnOk result
            (Appends (seen self.old).written (seen self.new).written bytes.now) }
        ensures failed { IsErrOf result Failed
            → Rose (seen self.old).faults (seen self.new).faults }
        ensures part { IsErrOf result Failed →
            AppendsPrefix (seen self.old).written (seen self.new).written bytes.now }
        ensures memory { IsErrOf result Memory → (seen self.new).written ≡ (seen self.old).written }
        ensures faults { (seen self.old).faults ≤ (seen self.new).faults };
}
