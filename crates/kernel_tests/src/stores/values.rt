//! Layers of each part, and rows by slot.
ghost use Rattle.std.specs.Prelude.{◌≡◌, ◌≤◌, IfOk};
ghost use Rattle.cust_data.specs.Layers.{total};
ghost use Rattle.mesh_store.specs.Parts.{table_of};
ghost use Rattle.mesh_store.specs.declared.layers.Part.TheVariants.{Face};

use crate::confirm::confirm;
use crate::named::face;
use mesh_store::{LayerFault, NoMemory, Part, Rule, Store};
use std::process::Abort;
use std::test::Fail;

// Makes room for so many faces in a store that has few, and no other element.
fn widen(rt: &impl Abort, st: &mut Store, faces: usize) -> Result<(), NoMemory>
    requires { faces ≤ 9_000 }
{
    confirm(rt, "no vertices", st.places(Part::Vert) == 0);
    confirm(rt, "no edges", st.places(Part::Edge) == 0);
    confirm(rt, "no loops", st.places(Part::Loop) == 0);
    confirm(rt, "few faces", st.places(Part::Face) < 10_000);
    st.reserve(0, 0, 0, faces, [0, 0, 3])
}

// Makes room for three faces, with a layer of two numbers that are mixed and one of a number that is copied.
fn declare(rt: &impl Abort, st: &mut Store) -> Result<(), LayerFault>
    ensures { IfOk result (λ _. total (table_of Face st.new.values).layers ≡ 3) }
{
    widen(rt, st, 3)?;
    st.add_layer(Part::Face, b"slope", 2, Rule::Mix)?;
    st.add_layer(Part::Face, b"material", 1, Rule::Copy)?;
    confirm(rt, "three numbers", st.total(Part::Face) == 3);
    Ok(())
}

// A part without a layer.
fn has_none(st: &Store, part: Part) -> bool {
    st.layers(part) == 0 && st.total(part) == 0 && st.find_layer(part, b"slope").is_none()
}

// Finds the layers, and reads what each is.
fn read_layers(rt: &impl Abort, st: &Store) {
    confirm(rt, "vertices", has_none(st, Part::Vert));
    confirm(rt, "edges", has_none(st, Part::Edge));
    confirm(rt, "loops", has_none(st, Part::Loop));
    let found = [
        st.find_layer(Part::Face, b"slope"),
        st.find_layer(Part::Face, b"material"),
        st.find_layer(Part::Face, b"mat"),
    ];
    confirm(rt, "found", found == [Some(0), Some(1), None]);
    confirm(rt, "two layers", st.layers(Part::Face) == 2);
    let name = st.layer_name(Part::Face, 1);
    confirm(rt, "a name", name == b"material".as_slice());
    let widths = [st.layer_width(Part::Face, 0), st.layer_width(Part::Face, 1)];
    confirm(rt, "widths", widths == [2, 1]);
    let rules = [st.layer_rule(Part::Face, 0), st.layer_rule(Part::Face, 1)];
    confirm(rt, "rules", rules == [Rule::Mix, Rule::Copy]);
}

// Adds a face.
fn put_face(rt: &impl Abort, st: &mut Store, name: u32)
    ensures { st.new.values ≡ st.old.values }
{
    confirm(rt, "a place for a face", st.spare(Part::Face) > 0);
    confirm(rt, "a place for its name", name < st.reach()[2]);
    confirm(rt, "a new name", st.face_slot(name).is_none());
    st.add_face(name);
}

// Adds faces 0, 1 and 2.
fn three_faces(rt: &impl Abort, st: &mut Store)
    ensures { st.new.values ≡ st.old.values }
{
    put_face(rt, st, 0);
    put_face(rt, st, 1);
    put_face(rt, st, 2);
}

// The row of a face.
fn row(rt: &impl Abort, st: &Store, name: u32) -> [i64; 3]
    requires { total (table_of Face st.now.values).layers ≡ 3 }
{
    let mut row = [7; 3];
    st.row(Part::Face, face(rt, st, name), &mut row);
    row
}

// The rows of faces 0, 1 and 2.
fn rows(rt: &impl Abort, st: &Store) -> [[i64; 3]; 3]
    requires { total (table_of Face st.now.values).layers ≡ 3 }
{
    [row(rt, st, 0), row(rt, st, 1), row(rt, st, 2)]
}

// Writes the row of a face.
fn write(rt: &impl Abort, st: &mut Store, name: u32, row: [i64; 3])
    requires { total (table_of Face st.old.values).layers ≡ 3 }
    ensures { total (table_of Face st.new.values).layers ≡ 3 }
{
    let s = face(rt, st, name);
    st.set_row(Part::Face, s, &row);
}

// Writes two of three rows.
fn write_two(rt: &impl Abort, st: &mut Store)
    requires { total (table_of Face st.old.values).layers ≡ 3 }
    ensures { total (table_of Face st.new.values).layers ≡ 3 }
{
    confirm(rt, "zeros", rows(rt, st) == [[0; 3]; 3]);
    write(rt, st, 0, [10, -10, 5]);
    write(rt, st, 2, [20, 11, 6]);
    let written = [[10, -10, 5], [0, 0, 0], [20, 11, 6]];
    confirm(rt, "written", rows(rt, st) == written);
}

// Mixes the rows of faces 0 and 1 into that of face 2.
fn mix_halves(rt: &impl Abort, st: &mut Store)
    requires { total (table_of Face st.old.values).layers ≡ 3 }
    ensures { total (table_of Face st.new.values).layers ≡ 3 }
{
    let a = face(rt, st, 0);
    let b = face(rt, st, 1);
    let c = face(rt, st, 2);
    st.mix_row(Part::Face, a, b, 1, 2, c);
}

// Copies the row of a face.
fn copy(rt: &impl Abort, st: &mut Store, from: u32, to: u32)
    requires { total (table_of Face st.old.values).layers ≡ 3 }
    ensures { total (table_of Face st.new.values).layers ≡ 3 }
{
    let from = face(rt, st, from);
    let to = face(rt, st, to);
    st.copy_row(Part::Face, from, to);
}

// Makes the row of a face zeros.
fn clear(rt: &impl Abort, st: &mut Store, name: u32)
    requires { total (table_of Face st.old.values).layers ≡ 3 }
    ensures { total (table_of Face st.new.values).layers ≡ 3 }
{
    let s = face(rt, st, name);
    st.clear_row(Part::Face, s);
}

// Mixes, copies and clears rows.
fn mix_and_copy(rt: &impl Abort, st: &mut Store)
    requires { total (table_of Face st.old.values).layers ≡ 3 }
{
    write(rt, st, 0, [10, -10, 5]);
    write(rt, st, 1, [20, 11, 6]);
    mix_halves(rt, st);
    confirm(rt, "mixed", row(rt, st, 2) == [15, 0, 5]);
    copy(rt, st, 1, 2);
    confirm(rt, "copied", row(rt, st, 2) == [20, 11, 6]);
    clear(rt, st, 1);
    let left = [[10, -10, 5], [0, 0, 0], [20, 11, 6]];
    confirm(rt, "cleared", rows(rt, st) == left);
}

// Declares layers, and reads, writes, mixes, copies and clears rows.
fn change_rows(rt: &impl Abort, st: &mut Store) -> Result<(), LayerFault> {
    declare(rt, st)?;
    read_layers(rt, st);
    three_faces(rt, st);
    write_two(rt, st);
    mix_and_copy(rt, st);
    Ok(())
}

#[test]
fn layers_and_rows(rt: HostRuntime) -> Result<(), Fail> {
    let mut st = Store::new(rt.alloc());
    change_rows(&rt, &mut st)?;
    Ok(())
}

// A row stays with its slot while room is made, and is there for the next element at the slot.
fn use_again(rt: &impl Abort, st: &mut Store) -> Result<(), LayerFault> {
    declare(rt, st)?;
    put_face(rt, st, 0);
    write(rt, st, 0, [1, 2, 3]);
    widen(rt, st, 9_000)?;
    confirm(rt, "three numbers", st.total(Part::Face) == 3);
    confirm(rt, "stays", row(rt, st, 0) == [1, 2, 3]);
    let s = face(rt, st, 0);
    st.drop_face(s);
    put_face(rt, st, 1);
    confirm(rt, "the same slot", st.face_slot(1) == Some(s));
    confirm(rt, "is there", row(rt, st, 1) == [1, 2, 3]);
    Ok(())
}

#[test]
fn rows_stay_at_their_slots(rt: HostRuntime) -> Result<(), Fail> {
    let mut st = Store::new(rt.alloc());
    use_again(&rt, &mut st)?;
    Ok(())
}
