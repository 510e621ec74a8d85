ghost use Rattle.std.specs.Prelude.{◌≤◌, ◌⊎◌};
ghost use Rattle.cfi_request.specs.Outside.{IsStarved, IsDelivered, KeepsLast};

use crate::output::{DONE, MEMORY, Output, WRITE_FAULT};
use cfi_io::{Shelf, ShelfFault, Sink, SinkFault};

/// Hands an output to the sink or the shelf, and answers the status that the program ends with.
///
/// The sink is not asked to take an empty text.
pub fn deliver<F: Shelf, S: Sink>(shelf: &mut F, sink: &mut S, output: &Output) -> u8
    ensures delivered { let shelf_old = F.seen shelf.old in
        let shelf_new = F.seen shelf.new in
        let sink_old = S.seen sink.old in
        let sink_new = S.seen sink.new in
        IsStarved shelf_old shelf_new sink_old sink_new result
        ⊎ IsDelivered output.now shelf_old shelf_new sink_old sink_new result }
    ensures last { KeepsLast output.now (F.seen shelf.old) (F.seen shelf.new) }
    ensures faults { (F.seen shelf.old).faults ≤ (F.seen shelf.new).faults }
    ensures misses { (F.seen shelf.old).misses ≤ (F.seen shelf.new).misses }
{
    match output {
        Output::Print(status, text) if text.as_slice().is_empty() => *status,
        Output::Print(status, text) => match sink.write(text.as_slice()) {
            Ok(()) => *status,
            Err(SinkFault::Failed) => WRITE_FAULT,
            Err(SinkFault::Memory) => MEMORY,
        },
        Output::Save(name, bytes) => match shelf.write(name.as_str(), bytes.as_slice()) {
            Ok(()) => DONE,
            Err(ShelfFault::Memory) => MEMORY,
            Err(_) => WRITE_FAULT,
        },
    }
}
