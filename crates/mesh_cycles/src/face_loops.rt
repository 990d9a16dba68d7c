//! Loop cycles: the loops of a face.
ghost use Rattle.std.specs.Prelude.{◌≡◌, ◌<◌, ◌^◌, ℕ, [], ◌∷◌, ◌++◌, None, Some, length};
ghost use Rattle.std.specs.Option.{option_map};
ghost use Rattle.raw_pool.specs.Slots.{IsLive};
ghost use Rattle.link_ring.specs.Members.{HasMember};
ghost use Rattle.mesh_store.specs.Stored.{with_face_loop, with_face_len, change_face};
ghost use Rattle.mesh_cycles.specs.Owners.{face_of, first_round};
ghost use Rattle.mesh_cycles.specs.Lists.{same_round, without, with_behind, turned_to, reversed};
ghost use Rattle.mesh_cycles.specs.Cycles.{AreCycles, round_of, IsInNoRound, IsCounted};
ghost use Rattle.mesh_cycles.specs.Edits.{EditsRound};

use crate::in_face::corners_of_face;
use crate::members::{push_last, take_member};
use link_ring::{insert_after, reverse, start_ring};
use mesh_store::{Round, Slot, Store};

/// Makes a loop the only one of its face, whose length is then 1.
///
/// The face is live and has no loop. The loop names the face, and is in no loop cycle. Constant time.
pub fn loop_make(st: &mut Store, f: Slot, l: Slot)
    requires cycles { AreCycles st.old }
    requires live { IsLive st.old.faces.cells f.0 }
    requires empty { first_round st.old f.0 ≡ None }
    requires face { face_of st.old l ≡ Some f.0 }
    requires apart { IsInNoRound st.old l }
    ensures { EditsRound st.old st.new f.0 (record { 0 = l } ∷ []) (record { 0 = l } ∷ []) }
{
    start_ring(st, Round(l));
    set_first_round(st, f, Some(Round(l)));
    st.set_face_len(f, 1);
}

/// Puts a loop right behind another one of its face. The first loop stays, and the face's length is then the number of
/// its loops.
///
/// `after` is in a loop cycle. `l` names the same face, and is in no loop cycle. The loops of the face are counted, so
/// the time grows with their number; see [`loop_insert_counted`].
pub fn loop_insert(st: &mut Store, after: Slot, l: Slot)
    requires cycles { AreCycles st.old }
    requires member { (f : ℕ) × HasMember (round_of st.old f) (record { 0 = after }) }
    requires same { face_of st.old l ≡ face_of st.old after }
    requires apart { IsInNoRound st.old l }
    ensures { (f : ℕ) → face_of st.old after ≡ Some f
        → EditsRound st.old st.new f (record { 0 = l } ∷ round_of st.old f)
        (with_behind same_round (record { 0 = after }) (record { 0 = l }) (round_of st.old f)) }
{
    let face = st.loop_face(after);
    count_loops(st, face);
    loop_insert_counted(st, after, l);
}

/// As [`loop_insert`], where the face's length is the number of its loops. Constant time.
pub fn loop_insert_counted(st: &mut Store, after: Slot, l: Slot)
    requires cycles { AreCycles st.old }
    requires member { (f : ℕ) × HasMember (round_of st.old f) (record { 0 = after }) }
    requires counted { (f : ℕ) → face_of st.old after ≡ Some f → IsCounted st.old f }
    requires same { face_of st.old l ≡ face_of st.old after }
    requires apart { IsInNoRound st.old l }
    ensures { (f : ℕ) → face_of st.old after ≡ Some f
        → EditsRound st.old st.new f (record { 0 = l } ∷ round_of st.old f)
        (with_behind same_round (record { 0 = after }) (record { 0 = l }) (round_of st.old f)) }
{
    let face = st.loop_face(after);
    let len = st.face_len(face);
    insert_after(st, Round(after), Round(l));
    st.set_face_len(face, len + 1);
}

/// Takes a loop out of the loop cycle of its face. The others keep their order, the loop behind a first one comes
/// first, and the face's length is then the number of its loops.
///
/// The face is live, and the loop is in its loop cycle. The loops of the face are counted, so the time grows with their
/// number; see [`loop_remove_counted`].
pub fn loop_remove(st: &mut Store, f: Slot, l: Slot)
    requires cycles { AreCycles st.old }
    requires live { IsLive st.old.faces.cells f.0 }
    requires member { HasMember (round_of st.old f.0) (record { 0 = l }) }
    ensures edits { EditsRound st.old st.new f.0 (round_of st.old f.0)
        (without same_round (record { 0 = l }) (round_of st.old f.0)) }
    ensures out { IsInNoRound st.new l }
{
    count_loops(st, f);
    loop_remove_counted(st, f, l);
}

/// As [`loop_remove`], where the face's length is the number of its loops. Constant time.
pub fn loop_remove_counted(st: &mut Store, f: Slot, l: Slot)
    requires cycles { AreCycles st.old }
    requires live { IsLive st.old.faces.cells f.0 }
    requires member { HasMember (round_of st.old f.0) (record { 0 = l }) }
    requires counted { IsCounted st.old f.0 }
    ensures edits { EditsRound st.old st.new f.0 (round_of st.old f.0)
        (without same_round (record { 0 = l }) (round_of st.old f.0)) }
    ensures out { IsInNoRound st.new l }
{
    let first = first_round(st, f);
    let head = take_member(st, first, Round(l));
    let len = st.face_len(f);
    set_first_round(st, f, head);
    st.set_face_len(f, len - 1);
}

/// Puts a loop last around its face, whose length is the number of its loops, and stays so. The first loop stays, and
/// where there is none it is the new one.
///
/// The face is live. The loop names it, and is in no loop cycle. Constant time.
pub fn loop_append(st: &mut Store, f: Slot, l: Slot)
    requires cycles { AreCycles st.old }
    requires live { IsLive st.old.faces.cells f.0 }
    requires counted { IsCounted st.old f.0 }
    requires face { face_of st.old l ≡ Some f.0 }
    requires apart { IsInNoRound st.old l }
    ensures { EditsRound st.old st.new f.0 (record { 0 = l } ∷ round_of st.old f.0)
        (round_of st.old f.0 ++ record { 0 = l } ∷ []) }
{
    let first = first_round(st, f);
    let len = st.face_len(f);
    let head = push_last(st, first, Round(l));
    set_first_round(st, f, head);
    st.set_face_len(f, len + 1);
}

/// Makes another loop the first one of its face: the others follow it around the face. The face's length is the number
/// of its loops, and stays so.
///
/// The face is live, and the loop is in its loop cycle. Constant time.
pub fn loop_turn(st: &mut Store, f: Slot, l: Slot)
    requires cycles { AreCycles st.old }
    requires live { IsLive st.old.faces.cells f.0 }
    requires counted { IsCounted st.old f.0 }
    requires member { HasMember (round_of st.old f.0) (record { 0 = l }) }
    ensures { EditsRound st.old st.new f.0 [] (turned_to same_round (record { 0 = l }) (round_of st.old f.0)) }
{
    st.set_face_loop(f, Some(l));
}

/// Turns the loops of a face round: from the first one, which stays, they come in opposite order. The loops keep their
/// vertices and their edges, so each edge that joined a loop's vertex to the next one's then joins it to the one
/// before. The face's length is the number of its loops, and stays so.
///
/// The face is live. It takes time that grows with the number of its loops.
pub fn loop_reverse(st: &mut Store, f: Slot)
    requires cycles { AreCycles st.old }
    requires live { IsLive st.old.faces.cells f.0 }
    requires counted { IsCounted st.old f.0 }
    ensures { EditsRound st.old st.new f.0 (round_of st.old f.0) (reversed (round_of st.old f.0)) }
{
    if let Some(first) = first_round(st, f) {
        reverse(st, first);
    }
}

// Writes the number of a face's loops as its length. The time grows with that number.
fn count_loops(st: &mut Store, f: Slot)
    requires cycles { AreCycles st.old }
    requires live { IsLive st.old.faces.cells f.0 }
    ensures { st.new ≡ change_face (with_face_len (length (round_of st.old f.0))) st.old f.0 }
{
    let count = corners_of_face(st, f).count();
    st.set_face_len(f, count as u32);
}

/// The loop with which the loop cycle of a live face begins. There are never as many loops as 32 bits could count.
/// Constant time.
pub fn first_round(st: &Store, f: Slot) -> Option<Round>
    requires { IsLive st.now.faces.cells f.0 }
    ensures first { result ≡ first_round st.now f.0 }
    ensures few { length st.now.loops < 2 ^ 32 }
{
    st.face_loop(f).map(|first| Round(first))
}

// Writes a face's first loop by its place in the loop cycle.
fn set_first_round(st: &mut Store, f: Slot, head: Option<Round>)
    requires { IsLive st.old.faces.cells f.0 }
    ensures { st.new ≡ change_face (with_face_loop (option_map (λ l. l.0) head)) st.old f.0 }
{
    st.set_face_loop(f, head.map(|first| first.0));
}
