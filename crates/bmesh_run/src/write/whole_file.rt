ghost use Rattle.std.specs.Prelude.{◌≡◌, ◌≤◌, OnOk, Some};
ghost use Rattle.std.specs.Option.{option_map};
ghost use Rattle.mesh_model.specs.Valid.{IsValid};
ghost use Rattle.byte_sink.specs.Wrote.{with_after};
ghost use Rattle.obj_format.specs.Fixed.{BeginsFixed};
ghost use Rattle.obj_writer.specs.Whole.{text};
ghost use Rattle.worlds.specs.Files.{put};
ghost use Rattle.worlds.specs.Told.{with_start};
ghost use Rattle.bmesh_run.specs.Whole.{MakesPart, OnlyWrites, GainsStart, PrintsPart, CausesOut};
ghost use Rattle.worlds.specs.declared.start.Purpose.TheVariants.{Writing};

use mesh_model::Shape;
use obj_text::write;
use std::alloc::Global;
use worlds::{World, WorldFault};

/// Writes a shape's text to a file. A fault may leave a prefix of the text.
pub fn write_file<W: World, S: Shape>(
    alloc: Global,
    world: &mut W,
    name: &str,
    shape: &S,
    scale: u8,
) -> Result<(), WorldFault>
    requires valid { IsValid (S.complex shape.now) }
    requires fixed { BeginsFixed (S.complex shape.now) }
    requires scale { scale ≤ 6 }
    ensures ok { OnOk result (W.told world.new ≡ record (with_start (W.told world.old) name.now Writing) {
      made = option_map (put name.now (text scale (S.complex shape.now))) (W.told world.old).made;
      begun = None;
    }) }
    ensures part { MakesPart (W.told world.old) (W.told world.new) name.now (text scale (S.complex shape.now)) }
    ensures only { OnlyWrites (W.told world.old) (W.told world.new) }
    ensures started { GainsStart result (W.told world.old) (W.told world.new) name.now Writing }
    ensures cause { CausesOut result (W.told world.old) (W.told world.new) }
{
    begin_file(alloc, world, name, shape, scale)?;
    world.finish()?;
    Ok(())
}

/// Begins a file with a shape's text. A fault may leave a prefix of the text.
pub fn begin_file<W: World, S: Shape>(
    alloc: Global,
    world: &mut W,
    name: &str,
    shape: &S,
    scale: u8,
) -> Result<(), WorldFault>
    requires valid { IsValid (S.complex shape.now) }
    requires fixed { BeginsFixed (S.complex shape.now) }
    requires scale { scale ≤ 6 }
    ensures ok { OnOk result (W.told world.new ≡ record (with_start (W.told world.old) name.now Writing) {
      made = option_map (put name.now (text scale (S.complex shape.now))) (W.told world.old).made;
      begun = Some name.now;
    }) }
    ensures part { MakesPart (W.told world.old) (W.told world.new) name.now (text scale (S.complex shape.now)) }
    ensures only { OnlyWrites (W.told world.old) (W.told world.new) }
    ensures started { GainsStart result (W.told world.old) (W.told world.new) name.now Writing }
    ensures cause { CausesOut result (W.told world.old) (W.told world.new) }
{
    world.start_write(name)?;
    write(alloc, shape, scale, world)?;
    Ok(())
}

/// Prints all the bytes. A fault may leave a prefix of them.
pub fn print_all<W: World>(world: &mut W, bytes: &[u8]) -> Result<(), WorldFault>
    ensures ok { OnOk result (W.told world.new ≡ record (W.told world.old) {
      printed =
          with_after (W.told world.old).printed bytes.now;
    }) }
    ensures part { PrintsPart (W.told world.old) (W.told world.new) bytes.now }
    ensures cause { CausesOut result (W.told world.old) (W.told world.new) }
{
    let mut done = 0;
    while done < bytes.len() {
        done += world.print(&bytes[done..])?;
    }
    Ok(())
}
