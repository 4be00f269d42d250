// What a sink promises to those who write into it.
ghost use Rattle.std.specs.{Prelude.{◌≡◌, ◌+◌, ◌<◌, ◌≤◌, ◌^◌, length, IsOk}, Result.{result_ok}};
ghost use Rattle.std.specs.Io.KnownBytes.{WriteAppends};
ghost use Rattle.byte_flow.specs.{Flow.{HasCause, MakesHeadway, room_spent}, Models.{SinkModel}};

use crate::Failed;

/// A place that takes bytes in order.
pub trait Sink {
    /// What the sink took, and what its writes may answer and leave.
    ghost model: { SinkModel Self };

    /// Takes a front of the piece and returns its length: at least one byte if the piece is not
    /// empty.
    fn write(&mut self, piece: &[u8]) -> Result<usize, Failed>
        ensures headway { MakesHeadway result piece.now }
        ensures bytes { WriteAppends (model.taken self.old)
            (model.taken self.new) result piece.now }
        ensures cause { HasCause (model.faults self.old) (model.faults self.new) result }
        ensures room { 0 < length piece.now → length piece.now ≤ model.room self.old → IsOk result }
        ensures room_left { model.room self.old ≤ model.room self.new + room_spent result }
        ensures gives { model.write_gives self.old piece.now (result_ok result) self.new };

    /// The count of faults fits into 64 bits.
    ghost counted: { (sink : Self) → model.faults sink < 2 ^ 64 };
}
