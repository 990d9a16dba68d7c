//! What is seen of a session and of a reply, in plain numbers.

use mesh_model::{EdgeName, Elem, FaceName, Refusal, Shape, VertName};
use mesh_session::{Reply, Session};

/// A reply: the numbers of vertices, edges and faces that a done command gives back, or the refusal.
#[derive(Clone, Copy, Debug, PartialEq)]
pub(crate) enum Answer {
    Done([usize; 3]),
    Refused(Refusal),
}

/// What a reply says.
pub(crate) fn answer_of(reply: &Reply) -> Answer {
    match reply {
        Reply::Done(slots) => Answer::Done([
            slots.geom.verts().len(),
            slots.geom.edges().len(),
            slots.geom.faces().len(),
        ]),
        Reply::Refused(refusal) => Answer::Refused(*refusal),
    }
}

/// The next names, the number of corners, and the lengths of the lists of what can be undone and redone.
pub(crate) fn counts(session: &Session) -> [usize; 6] {
    let counters = session.counters();
    [
        counters.verts as usize,
        counters.edges as usize,
        counters.faces as usize,
        counters.corners as usize,
        session.undo_len(),
        session.redo_len(),
    ]
}

/// The least names.
pub(crate) fn least(session: &Session) -> (Option<VertName>, Option<EdgeName>, Option<FaceName>) {
    (
        session.vert_from(0),
        session.edge_from(0),
        session.face_from(0),
    )
}

/// Which of the vertices 0 to 3 are there.
pub(crate) fn verts(session: &Session) -> [bool; 4] {
    [
        session.has(Elem::Vert(VertName(0))),
        session.has(Elem::Vert(VertName(1))),
        session.has(Elem::Vert(VertName(2))),
        session.has(Elem::Vert(VertName(3))),
    ]
}

/// An edge's ends, and whether it is loose.
pub(crate) fn edge(session: &Session, e: u32) -> Option<([VertName; 2], bool)> {
    if !session.has(Elem::Edge(EdgeName(e))) {
        return None;
    }
    Some((session.ends(EdgeName(e)), session.is_loose(EdgeName(e))))
}
