//! Undo and redo.
ghost use Rattle.std.specs.Prelude.{◌≡◌, IfOk, OnOk, OnErr, option_map};
ghost use Rattle.std.specs.List.{All};
ghost use Rattle.mesh_model.specs.Valid.{IsValid, IsSound};
ghost use Rattle.mesh_core.specs.Seen.{now};
ghost use Rattle.mesh_session.specs.Performing.{Goes};

use crate::entry::Entry;
use crate::history::copy_of;
use mesh_core::{Mesh, NoMemory};
use mesh_model::Draft;
use op_slots::Binding;

/// A step to an entry, and the entry's binding.
#[derive(Drop)]
pub struct Gone {
    pub binding: Option<Binding>,
}

// Goes to the last entry of a list, if there is one; the complex before stands last in the other list then, with the
// same binding. After `NoMemory` all is as before. It takes time that grows with both complexes.
pub fn go(
    mesh: &mut Mesh,
    from: &mut Vec<Entry>,
    onto: &mut Vec<Entry>,
) -> Result<Option<Gone>, NoMemory>
    requires same { mesh.old.base ≡ now mesh.old }
    requires sound { All (λ e. IsSound e.complex) from.old.items }
    ensures goes { IfOk result (λ gone. Goes (option_map (λ g. g.binding) gone) (now mesh.old) (now mesh.new)
        from.old.items from.new.items onto.old.items onto.new.items) }
    ensures err { OnErr result (now mesh.new ≡ now mesh.old) }
    ensures from_err { OnErr result (from.new.items ≡ from.old.items) }
    ensures onto_err { OnErr result (onto.new.items ≡ onto.old.items) }
    ensures same { mesh.new.base ≡ now mesh.new }
{
    onto.reserve(1)?;
    let Some(entry) = from.pop() else {
        return Ok(None);
    };
    match go_to(mesh, &entry) {
        Ok((complex, binding)) => {
            onto.push_reserved(Entry {
                complex,
                binding: entry.binding,
            });
            Ok(Some(Gone { binding }))
        }
        Err(NoMemory) => {
            from.push_reserved(entry);
            Err(NoMemory)
        }
    }
}

// Makes the mesh the complex of an entry, and gives the complex before, and an equal binding.
fn go_to(mesh: &mut Mesh, entry: &Entry) -> Result<(Draft, Option<Binding>), NoMemory>
    requires same { mesh.old.base ≡ now mesh.old }
    requires valid { IsValid entry.now.complex }
    ensures before { IfOk result (λ gone. gone.0 ≡ now mesh.old) }
    ensures binding { IfOk result (λ gone. gone.1 ≡ entry.now.binding) }
    ensures now { OnOk result (now mesh.new ≡ entry.now.complex) }
    ensures err { OnErr result (now mesh.new ≡ now mesh.old) }
    ensures same { mesh.new.base ≡ now mesh.new }
{
    let binding = copy_of(&entry.binding)?;
    let before = mesh.snapshot()?;
    mesh.load(&entry.complex, &[])?;
    Ok((before, binding))
}
