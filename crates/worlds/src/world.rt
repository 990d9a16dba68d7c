ghost use Rattle.std.specs.Prelude.{◌≡◌};
ghost use Rattle.worlds.specs.Told.{Told, wrote_of, rest_of};
ghost use Rattle.worlds.specs.Calls.{StartsRead, ReadsNext, StartsWrite, Finishes, Prints, IsIdle};

use crate::world_fault::WorldFault;
use byte_sink::Sink;

/// Files and a place to print on. As a sink it is the file that `start_write` began.
///
/// `Failed` comes only where a count of faults rose in the call: that of input in `start_read` and
/// `read`, that of output in the others. No other answer changes a count, and after `NoMemory` all
/// that is told is as before. An empty piece is answered by 0, and changes nothing.
pub trait World: Sink {
    /// All that it tells.
    ghost told: { Self → Told };

    /// Opens a file for reading, from its beginning. A name that isn't there may fail or have no
    /// bytes.
    fn start_read(&mut self, name: &str) -> Result<(), WorldFault>
        ensures { StartsRead (told self.old) (told self.new) name.now result };

    /// The next bytes of the file being read, and how many; 0 into a piece that isn't empty is the
    /// end.
    fn read(&mut self, into: &mut [u8]) -> Result<usize, WorldFault>
        ensures next { ReadsNext (told self.old) (told self.new) into.new result }
        ensures empty { IsIdle (told self.old) (told self.new) into.old result };

    /// Makes a file with no bytes, and begins it.
    fn start_write(&mut self, name: &str) -> Result<(), WorldFault>
        ensures { StartsWrite (told self.old) (told self.new) name.now result };

    /// Ends the file that was begun, if any.
    fn finish(&mut self) -> Result<(), WorldFault>
        ensures { Finishes (told self.old) (told self.new) result };

    /// Prints some of the first bytes, at least one if there is one, and answers how many.
    fn print(&mut self, from: &[u8]) -> Result<usize, WorldFault>
        ensures some { Prints (told self.old) (told self.new) from.now result }
        ensures empty { IsIdle (told self.old) (told self.new) from.now result };

    /// What the sink wrote is what the begun file has, and its faults are those of output.
    ghost sink_is_begun: { (w : Self) → (Self.wrote w ≡ wrote_of (told w)) × (Self.faults w ≡ (told w).out_faults) };

    /// Where `others` is the same, all but the begun file's bytes and the faults of output is.
    ghost others_is_rest: { (v w : Self) → Self.others v ≡ Self.others w → rest_of (told v) ≡ rest_of (told w) };
}
