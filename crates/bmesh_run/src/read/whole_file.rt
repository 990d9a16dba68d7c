ghost use Rattle.std.specs.Prelude.{◌+◌, IfOk};
ghost use Rattle.bmesh_run.specs.Whole.{IsWhole, IsLeft, OnlyReads, GainsStart, CausesIn};
ghost use Rattle.worlds.specs.declared.start.Purpose.TheVariants.{Reading};

use std::alloc::Global;
use worlds::{World, WorldFault};

// How many bytes are read at once.
const PIECE: usize = 4096;

/// The bytes of a file to its end, or to one byte past the limit.
pub fn read_all<W: World>(
    alloc: Global,
    world: &mut W,
    name: &str,
    limit: usize,
) -> Result<Vec<u8>, WorldFault>
    ensures whole { IfOk result (λ v. IsWhole (W.told world.old) name.now limit v.items) }
    ensures only { OnlyReads (W.told world.old) (W.told world.new) }
    ensures started { GainsStart result (W.told world.old) (W.told world.new) name.now Reading }
    ensures left { IfOk result (λ _. IsLeft (W.told world.old) (W.told world.new) name.now (limit + 1)) }
    ensures cause { CausesIn result (W.told world.old) (W.told world.new) }
{
    world.start_read(name)?;
    let mut out = Vec::new(alloc);
    let mut piece = [0; PIECE];
    while out.len() <= limit {
        let most = (limit - out.len()).min(PIECE - 1) + 1;
        let n = world.read(&mut piece[..most])?;
        if n == 0 {
            break;
        }
        out.extend_from_slice(&piece[..n])?;
    }
    Ok(out)
}
