//! Commands on a square.
ghost use Rattle.mesh_model.specs.Valid.{IsSound};

use crate::confirm::confirm;
use crate::told::{Answer, answer_of, counts, edge, least, verts};
use mesh_model::{Draft, EdgeName, Elem, FaceName, Place, Refusal, VertName, Why};
use mesh_session::Session;
use op_slots::{Command, Context, Expr, Op, Term, What};
use sample_drafts::square;
use sequence::NoMemory;
use std::alloc::Global;
use std::process::Abort;
use std::test::Fail;

// A command that deletes elements with the context of vertices.
fn command(alloc: Global, elems: &[Elem]) -> Result<Command, NoMemory> {
    let mut geom = Expr::new(alloc);
    for elem in elems {
        geom.push(Term::One(*elem))?;
    }
    let context = Context::Verts;
    Ok(Command {
        line: 1,
        bind: None,
        what: What::Run(Op::Delete { geom, context }),
    })
}

// Runs a command.
fn run(session: &mut Session, command: &Command) -> Result<Answer, NoMemory> {
    let reply = session.step(command)?;
    Ok(answer_of(&reply))
}

/// Deletes elements with the context of vertices.
pub(crate) fn delete(
    alloc: Global,
    session: &mut Session,
    elems: &[Elem],
) -> Result<Answer, NoMemory> {
    let command = command(alloc, elems)?;
    run(session, &command)
}

/// A session with a model.
pub(crate) fn with_model(alloc: Global, draft: &Draft) -> Result<Session, NoMemory>
    requires { IsSound draft.now }
{
    let mut session = Session::new(alloc);
    session.load(draft, &[])?;
    Ok(session)
}

// A session with the square.
fn with_square(alloc: Global) -> Result<Session, NoMemory> {
    let draft = square(alloc, 0, 5)?;
    with_model(alloc, &draft)
}

// What is seen of a session: its counts, its least names, the vertices and two edges that are there.
#[derive(Clone, Copy)]
struct Seen {
    counts: [usize; 6],
    least: (Option<VertName>, Option<EdgeName>, Option<FaceName>),
    verts: [bool; 4],
    second: Option<([VertName; 2], bool)>,
    last: Option<([VertName; 2], bool)>,
}

// Looks at a session.
fn look(session: &Session) -> Seen {
    Seen {
        counts: counts(session),
        least: least(session),
        verts: verts(session),
        second: edge(session, 1),
        last: edge(session, 3),
    }
}

// Deletes elements. The answer, and the session then.
fn delete_and_look(
    alloc: Global,
    session: &mut Session,
    elems: &[Elem],
) -> Result<(Answer, Seen), NoMemory> {
    let answer = delete(alloc, session, elems)?;
    Ok((answer, look(session)))
}

// Deletes elements of the square.
fn deleted(alloc: Global, elems: &[Elem]) -> Result<(Answer, Seen), NoMemory> {
    let mut session = with_square(alloc)?;
    delete_and_look(alloc, &mut session, elems)
}

// The square is as it was, and nothing can be undone.
fn is_square(rt: &impl Abort, seen: Seen) {
    confirm(rt, "counts", seen.counts == [4, 4, 1, 4, 0, 0]);
    let least = (Some(VertName(0)), Some(EdgeName(0)), Some(FaceName(0)));
    confirm(rt, "least names", seen.least == least);
    confirm(rt, "vertices", seen.verts == [true; 4]);
    let second = Some(([VertName(1), VertName(2)], false));
    confirm(rt, "an edge of the face", seen.second == second);
    let last = Some(([VertName(3), VertName(0)], false));
    confirm(rt, "its last edge", seen.last == last);
}

// A session with the square alone.
fn loaded(alloc: Global) -> Result<Seen, NoMemory> {
    let session = with_square(alloc)?;
    Ok(look(&session))
}

#[test]
fn a_square_is_loaded(rt: HostRuntime) -> Result<(), Fail> {
    let seen = loaded(rt.alloc())?;
    is_square(&rt, seen);
    Ok(())
}

// The vertex goes with its two edges and the face, and the other edges are loose.
#[test]
fn a_vertex_is_deleted(rt: HostRuntime) -> Result<(), Fail> {
    let (answer, seen) = deleted(rt.alloc(), &[Elem::Vert(VertName(0))])?;
    confirm(&rt, "done", answer == Answer::Done([0, 0, 0]));
    confirm(&rt, "counts", seen.counts == [4, 4, 1, 0, 1, 0]);
    let least = (Some(VertName(1)), Some(EdgeName(1)), None);
    confirm(&rt, "least names", seen.least == least);
    confirm(&rt, "vertices", seen.verts == [false, true, true, true]);
    let second = Some(([VertName(1), VertName(2)], true));
    confirm(&rt, "a loose edge", seen.second == second);
    confirm(&rt, "no edge", seen.last == None);
    Ok(())
}

// A command is refused for this reason and element, and the square stays.
fn is_refused(rt: &impl Abort, told: (Answer, Seen), why: Why, elem: Elem) {
    let place = Place::Elem(elem);
    let refusal = Answer::Refused(Refusal { why, place });
    confirm(rt, "the reason", told.0 == refusal);
    is_square(rt, told.1);
}

#[test]
fn the_first_missing_vertex_is_named(rt: HostRuntime) -> Result<(), Fail> {
    let elems = [
        Elem::Vert(VertName(0)),
        Elem::Vert(VertName(9)),
        Elem::Vert(VertName(8)),
    ];
    let told = deleted(rt.alloc(), &elems)?;
    is_refused(&rt, told, Why::NoSuch, Elem::Vert(VertName(9)));
    Ok(())
}

#[test]
fn an_edge_is_of_the_wrong_kind(rt: HostRuntime) -> Result<(), Fail> {
    let elems = [
        Elem::Vert(VertName(0)),
        Elem::Edge(EdgeName(1)),
        Elem::Vert(VertName(9)),
    ];
    let told = deleted(rt.alloc(), &elems)?;
    is_refused(&rt, told, Why::WrongKind, Elem::Edge(EdgeName(1)));
    Ok(())
}

#[test]
fn a_face_is_of_the_wrong_kind(rt: HostRuntime) -> Result<(), Fail> {
    let told = deleted(rt.alloc(), &[Elem::Face(FaceName(0))])?;
    is_refused(&rt, told, Why::WrongKind, Elem::Face(FaceName(0)));
    Ok(())
}

#[test]
fn nothing_to_delete_is_refused(rt: HostRuntime) -> Result<(), Fail> {
    let (answer, seen) = deleted(rt.alloc(), &[])?;
    let refusal = Refusal {
        why: Why::Empty,
        place: Place::Nowhere,
    };
    confirm(&rt, "the reason", answer == Answer::Refused(refusal));
    is_square(&rt, seen);
    Ok(())
}
