//! The model and the script, read and judged.

ghost use Rattle.std.specs.Prelude.{◌≡◌, ◌≤◌, ℕ, true, false, Some, IfOk};
ghost use Rattle.mesh_model.specs.Valid.{IsSound};
ghost use Rattle.obj_reader.specs.Obj.{read_text};
ghost use Rattle.mesh_model.specs.Complex.{fixed_layers};
ghost use Rattle.script_text.specs.Layers.{AreDeclarable};
ghost use Rattle.script_text.specs.Script.{script_of};
ghost use Rattle.worlds.specs.Files.{Files};
ghost use Rattle.bmesh_run.specs.Job.{is_grid, is_tour, model_starts, script_starts};
ghost use Rattle.bmesh_run.specs.Run.{grid_refusal, model_of, script_named, model_most, script_most};
ghost use Rattle.bmesh_run.specs.Stops.{Judges, CausesStop, AsksBefore, LeavesRest};
ghost use Rattle.bmesh_run.specs.Whole.{OnlyReads};

use crate::read::whole_file::read_all;
use crate::stop::Stop;
use mesh_model::Draft;
use obj_text::{ObjFault, ObjRefusal, ObjWhy, Reader};
use script_text::{Script, ScriptFault, ScriptRefusal, ScriptWhy, parse};
use std::alloc::Global;
use text_words::is_text;
use worlds::{World, WorldFault};

// How many bytes of a model are read at most, but for one more.
const MODEL_LIMIT: usize = 268_435_456;

// How many bytes of a script are read at most, but for one more.
const SCRIPT_LIMIT: usize = 1_048_576;

/// The complex of the model with this name at a scale: read to its end, or to one byte past the limit, and then
/// judged. No file is read for a model that is made from a number.
pub fn read_model<W: World>(
    alloc: Global,
    world: &mut W,
    name: &str,
    scale: u8,
) -> Result<Draft, Stop<ObjRefusal>>
    requires { scale ≤ 6 }
    ensures judged { (files : Files) → (W.told world.old).files ≡ Some files
        → Judges result (model_of scale name.now files) }
    ensures grid { is_grid name.now ≡ true → result ≡ Err (Stop.Refused grid_refusal) }
    ensures sound { IfOk result (λ d. IsSound d) }
    ensures fixed { IfOk result (λ d. d.layers ≡ fixed_layers) }
    ensures still { is_grid name.now ≡ true → W.told world.new ≡ W.told world.old }
    ensures only { OnlyReads (W.told world.old) (W.told world.new) }
    ensures asked { AsksBefore result (model_starts name.now) (W.told world.old) (W.told world.new) }
    ensures left { is_grid name.now ≡ false
        → LeavesRest result (W.told world.old) (W.told world.new) name.now model_most }
    ensures cause { CausesStop result (W.told world.old) (W.told world.new) }
{
    if is_grid(name) {
        return Err(Stop::Refused(ObjRefusal {
            line: 0,
            why: ObjWhy::NotYet,
        }));
    }
    match read_all(alloc, world, name, MODEL_LIMIT) {
        Ok(bytes) => judge_model(alloc, scale, &bytes),
        Err(WorldFault::Failed) => Err(Stop::Failed),
        Err(WorldFault::NoMemory) => Err(Stop::NoMemory),
    }
}

// The complex of a model's bytes.
fn judge_model(alloc: Global, scale: u8, bytes: &[u8]) -> Result<Draft, Stop<ObjRefusal>>
    requires { scale ≤ 6 }
    ensures judged { Judges result (read_text scale bytes.now) }
    ensures sound { IfOk result (λ d. IsSound d) }
    ensures fixed { IfOk result (λ d. d.layers ≡ fixed_layers) }
    ensures never { result ≡ Err Stop.Failed → ⊥ }
{
    let mut reader = Reader::new(alloc, scale);
    let Ok(()) = reader.feed(bytes) else {
        return Err(Stop::NoMemory);
    };
    match reader.end() {
        Ok(draft) => Ok(draft),
        Err(ObjFault::Refused(r)) => Err(Stop::Refused(r)),
        Err(ObjFault::NoMemory) => Err(Stop::NoMemory),
    }
}

/// The script with this name, likewise. No file is read for the program's own script.
pub fn read_script<W: World>(
    alloc: Global,
    world: &mut W,
    name: &str,
) -> Result<Script, Stop<ScriptRefusal>>
    ensures judged { (files : Files) → (W.told world.old).files ≡ Some files
        → Judges result (script_named name.now files) }
    ensures layers { IfOk result (λ s. AreDeclarable s.layers) }
    ensures still { is_tour name.now ≡ true → W.told world.new ≡ W.told world.old }
    ensures only { OnlyReads (W.told world.old) (W.told world.new) }
    ensures asked { AsksBefore result (script_starts name.now) (W.told world.old) (W.told world.new) }
    ensures left { is_tour name.now ≡ false
        → LeavesRest result (W.told world.old) (W.told world.new) name.now script_most }
    ensures cause { CausesStop result (W.told world.old) (W.told world.new) }
{
    if is_tour(name) {
        return Err(Stop::Refused(ScriptRefusal {
            line: 0,
            why: ScriptWhy::NotYet,
        }));
    }
    match read_all(alloc, world, name, SCRIPT_LIMIT) {
        Ok(bytes) => judge_script(alloc, &bytes),
        Err(WorldFault::Failed) => Err(Stop::Failed),
        Err(WorldFault::NoMemory) => Err(Stop::NoMemory),
    }
}

// The script of some bytes.
fn judge_script(alloc: Global, bytes: &[u8]) -> Result<Script, Stop<ScriptRefusal>>
    ensures judged { Judges result (script_of bytes.now) }
    ensures layers { IfOk result (λ s. AreDeclarable s.layers) }
    ensures never { result ≡ Err Stop.Failed → ⊥ }
{
    match parse(alloc, bytes) {
        Ok(script) => Ok(script),
        Err(ScriptFault::Refused(r)) => Err(Stop::Refused(r)),
        Err(ScriptFault::NoMemory) => Err(Stop::NoMemory),
    }
}

// Whether a model is made from a number: its name begins with `@grid:`.
fn is_grid(name: &str) -> bool
    ensures { result ≡ is_grid name.now }
{
    name.as_bytes().starts_with(b"@grid:")
}

// Whether a script is the program's own: its name is `@tour`.
fn is_tour(name: &str) -> bool
    ensures { result ≡ is_tour name.now }
{
    is_text(b"@tour", name.as_bytes())
}
