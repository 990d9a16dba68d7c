//! With ample memory neither the length of the list of what can be undone nor the number of terms ends a session.
ghost use Rattle.mesh_model.specs.Valid.{IsSound};

use crate::commands::{delete, with_model};
use crate::confirm::confirm;
use crate::told::{Answer, counts};
use mesh_model::{Draft, Elem, NoMemory, VertName};
use mesh_session::Session;
use sample_drafts::row_of_verts;
use std::alloc::Global;
use std::test::Fail;

// The vertices from one number to another.
fn verts(alloc: Global, from: u32, to: u32) -> Result<Vec<Elem>, NoMemory> {
    let mut elems = Vec::new(alloc);
    for n in from..to {
        elems.push(Elem::Vert(VertName(n)))?;
    }
    Ok(elems)
}

// Deletes vertices one by one. How many commands from the first one on are done.
fn delete_each(alloc: Global, session: &mut Session, count: u32) -> Result<u32, NoMemory> {
    for n in 0..count {
        let answer = delete(alloc, session, &[Elem::Vert(VertName(n))])?;
        if answer != Answer::Done([0, 0, 0]) {
            return Ok(n);
        }
    }
    Ok(count)
}

// Deletes the vertices from 40 to 1,000 at once.
fn delete_rest(alloc: Global, session: &mut Session) -> Result<Answer, NoMemory> {
    let rest = verts(alloc, 40, 1_000)?;
    delete(alloc, session, &rest)
}

// Deletes 40 of 1,000 vertices one by one, and the others at once. How many were deleted one by one, the answer to
// the last command, and the counts then.
fn delete_all(alloc: Global, session: &mut Session) -> Result<(u32, Answer, [usize; 6]), NoMemory> {
    let singly = delete_each(alloc, session, 40)?;
    let answer = delete_rest(alloc, session)?;
    Ok((singly, answer, counts(session)))
}

// The same in a session with a model.
fn deleted_of(alloc: Global, draft: &Draft) -> Result<(u32, Answer, [usize; 6]), NoMemory>
    requires { IsSound draft.now }
{
    let mut session = with_model(alloc, draft)?;
    delete_all(alloc, &mut session)
}

// The same with 1,000 vertices in a row.
fn deleted(alloc: Global) -> Result<(u32, Answer, [usize; 6]), NoMemory> {
    let draft = row_of_verts(alloc, 1_000)?;
    deleted_of(alloc, &draft)
}

#[test]
fn many_commands_and_many_terms(rt: HostRuntime) -> Result<(), Fail> {
    let (singly, answer, counts) = deleted(rt.alloc())?;
    confirm(&rt, "one by one", singly == 40);
    confirm(&rt, "the others at once", answer == Answer::Done([0, 0, 0]));
    confirm(&rt, "counts", counts == [1_000, 0, 0, 0, 41, 0]);
    Ok(())
}
