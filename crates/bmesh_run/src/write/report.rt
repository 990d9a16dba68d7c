//! The report: a line for each command, one for each declared layer, and one for the end.

ghost use Rattle.std.specs.Prelude.{◌≡◌, ◌++◌, ◌&&◌, length, is_some, IfOk};
ghost use Rattle.std.specs.String.{string_bytes};
ghost use Rattle.std.specs.List.{count_by, list_any, flat_map};
ghost use Rattle.mesh_model.specs.Table.{at, live};
ghost use Rattle.mesh_model.specs.Incidence.{is_loose};
ghost use Rattle.mesh_model.specs.Valid.{IsValid};
ghost use Rattle.bmesh_run.specs.Report.{count_line, reply_line, reply_lines, refused_line, done_line, is_refused};
ghost use Rattle.bmesh_run.specs.Report.{loose_count};
ghost use Rattle.bmesh_run.specs.Report.{element_counts, command_counts, end_line, report};

use crate::write::layers::push_layers;
use mesh_model::{EdgeName, Elem, FaceName, LayerDecl, NoMemory, Place, Refusal, Shape, VertName};
use mesh_session::{Reply, Session};
use op_slots::{Command, Slots};
use std::alloc::Global;

/// The report of some commands by their replies, of declared layers, and of the session after them. In time
/// proportional to the commands and the names of the session's complex, and to the numbers of the elements of each kind
/// that a layer is of.
pub fn report(
    alloc: Global,
    commands: &[Command],
    replies: &[Reply],
    layers: &[LayerDecl],
    session: &Session,
) -> Result<Vec<u8>, NoMemory>
    requires long { length replies.now ≡ length commands.now }
    requires valid { IsValid session.now.state.now }
    ensures { IfOk result (λ t. t.items ≡ report commands.now replies.now layers.now session.now.state) }
{
    let mut text = Vec::new(alloc);
    let lines = reply_lines(alloc, commands, replies)?;
    text.extend_from_slice(lines.as_bytes())?;
    push_layers(alloc, session, layers, &mut text)?;
    let end = end_line(alloc, refused_count(replies), session)?;
    text.extend_from_slice(end.as_bytes())?;
    Ok(text)
}

/// Whether a command was refused.
pub fn some_refused(replies: &[Reply]) -> bool
    ensures { result ≡ list_any is_refused replies.now }
{
    replies.iter().any(|r| is_refused(r))
}

fn refused_count(replies: &[Reply]) -> usize
    ensures { result ≡ count_by is_refused replies.now }
{
    replies.iter().filter(|r| is_refused(r)).count()
}

fn is_refused(reply: &Reply) -> bool
    ensures { result ≡ is_refused reply.now }
{
    match reply {
        Reply::Done(_) => false,
        Reply::Refused(_) => true,
    }
}

fn reply_lines(alloc: Global, commands: &[Command], replies: &[Reply]) -> Result<String, NoMemory>
    requires { length replies.now ≡ length commands.now }
    ensures { IfOk result (λ t. string_bytes t ≡ reply_lines commands.now replies.now) }
{
    let mut text = String::new(alloc);
    for i in 0..commands.len() {
        let command = &commands[i];
        let reply = &replies[i];
        let line = reply_line(alloc, command.line, reply)?;
        text.push_str(line.as_str())?;
    }
    Ok(text)
}

fn reply_line(alloc: Global, line: u32, reply: &Reply) -> Result<String, NoMemory>
    ensures { IfOk result (λ t. string_bytes t ≡ reply_line line reply.now) }
{
    match reply {
        Reply::Done(slots) => done_line(alloc, line, slots),
        Reply::Refused(refusal) => refused_line(alloc, line, *refusal),
    }
}

fn done_line(alloc: Global, line: u32, slots: &Slots) -> Result<String, NoMemory>
    ensures { IfOk result (λ t. string_bytes t ≡ done_line line slots.now) }
{
    let geom = &slots.geom;
    count_line(
        alloc,
        line,
        geom.verts().len(),
        geom.edges().len(),
        geom.faces().len(),
    )
}

fn count_line(
    alloc: Global,
    line: u32,
    verts: usize,
    edges: usize,
    faces: usize,
) -> Result<String, NoMemory>
    ensures { IfOk result (λ t. string_bytes t ≡ count_line line verts edges faces) }
{
    format!(in alloc; "{line} done verts={verts} edges={edges} faces={faces}\n")
}

fn refused_line(alloc: Global, line: u32, refusal: Refusal) -> Result<String, NoMemory>
    ensures { IfOk result (λ t. string_bytes t ≡ refused_line line refusal refusal.place) }
{
    let why = refusal.why;
    match refusal.place {
        Place::Nowhere => format!(in alloc; "{line} refused {why}\n"),
        Place::Elem(x) => format!(in alloc; "{line} refused {why} {x}\n"),
        Place::Kind(kind) => format!(in alloc; "{line} refused {why} {kind}\n"),
    }
}

fn end_line(alloc: Global, refused: usize, session: &Session) -> Result<String, NoMemory>
    ensures { IfOk result (λ t. string_bytes t ≡ end_line refused session.now.state) }
{
    let mut text = element_counts(alloc, session)?;
    let rest = command_counts(alloc, refused, session)?;
    text.push_str(rest.as_str())?;
    Ok(text)
}

fn element_counts(alloc: Global, session: &Session) -> Result<String, NoMemory>
    ensures { IfOk result (λ t. string_bytes t ≡ element_counts session.now.state.now) }
{
    let verts = vert_count(session);
    let edges = edge_count(session);
    let faces = face_count(session);
    let corners = session.counters().corners;
    let text = format!(in alloc;
        "end verts={verts} edges={edges} faces={faces} corners={corners}"
    )?;
    Ok(text)
}

fn command_counts(alloc: Global, refused: usize, session: &Session) -> Result<String, NoMemory>
    ensures { IfOk result (λ t. string_bytes t ≡ command_counts refused session.now.state) }
{
    let loose = loose_count(session);
    let undo = session.undo_len();
    let redo = session.redo_len();
    let text = format!(in alloc; " loose={loose} refused={refused} undo={undo} redo={redo}\n")?;
    Ok(text)
}

// The number of live vertices.
fn vert_count<S: Shape>(shape: &S) -> u32
    ensures { result ≡ live (S.complex shape.now).verts }
{
    let mut count = 0;
    for n in 0..shape.counters().verts {
        if shape.has(Elem::Vert(VertName(n))) {
            count += 1;
        }
    }
    count
}

// The number of live edges.
fn edge_count<S: Shape>(shape: &S) -> u32
    ensures { result ≡ live (S.complex shape.now).edges }
{
    let mut count = 0;
    for n in 0..shape.counters().edges {
        if shape.has(Elem::Edge(EdgeName(n))) {
            count += 1;
        }
    }
    count
}

// The number of live faces.
fn face_count<S: Shape>(shape: &S) -> u32
    ensures { result ≡ live (S.complex shape.now).faces }
{
    let mut count = 0;
    for n in 0..shape.counters().faces {
        if shape.has(Elem::Face(FaceName(n))) {
            count += 1;
        }
    }
    count
}

// The number of live edges with no corner.
fn loose_count<S: Shape>(shape: &S) -> u32
    ensures { result ≡ loose_count (S.complex shape.now) }
{
    let mut count = 0;
    for n in 0..shape.counters().edges {
        if is_wire(shape, EdgeName(n)) {
            count += 1;
        }
    }
    count
}

// Whether an edge is there and has no corner.
fn is_wire<S: Shape>(shape: &S, e: EdgeName) -> bool
    ensures { result ≡ (is_some (at (S.complex shape.now).edges e.0) && is_loose (S.complex shape.now) e) }
{
    shape.has(Elem::Edge(e)) && shape.is_loose(e)
}
