//! Commands of each kind, by whole runs over files in memory. In a row a bar stands for a line feed.

use crate::runs::{ends_long, gives, repeated};
use sequence::NoMemory;
use std::alloc::Global;
use std::test::Fail;

// One face.
pub(crate) const SQUARE: &str = "v 0 0 0|v 4 0 0|v 4 4 0|v 0 4 0|f 1 2 3 4|";

// Two faces side by side: e1 is the edge of both, e0, e2 and e3 are the others of f0, and e4, e5 and e6 those of f1.
pub(crate) const STRIP: &str =
    "v 0 0 0|v 4 0 0|v 8 0 0|v 0 4 0|v 4 4 0|v 8 4 0|f 1 2 5 4|f 2 3 6 5|";

// Three faces on the edge e0.
pub(crate) const FIN: &str = "v 0 0 0|v 0 0 4|v 4 0 0|v 0 4 0|v -4 0 0|f 1 2 3|f 1 2 4|f 1 2 5|";

// A text with line feeds for bars.
fn unbarred(alloc: Global, text: &str) -> Result<String, NoMemory> {
    let mut lines = String::new(alloc);
    for c in text.chars() {
        lines.push(if c == '|' { '\n' } else { c })?;
    }
    Ok(lines)
}

// Whether a run of a model and a script ends with this status, and makes and prints these texts.
pub(crate) fn makes(
    alloc: Global,
    model: &str,
    script: &str,
    code: u8,
    made: &str,
    printed: &str,
) -> Result<bool, NoMemory> {
    let model = unbarred(alloc, model)?;
    let script = unbarred(alloc, script)?;
    let made = unbarred(alloc, made)?;
    let printed = unbarred(alloc, printed)?;
    gives(
        alloc,
        model.as_str(),
        script.as_str(),
        code,
        Some(made.as_str()),
        printed.as_str(),
    )
}

// Whether a command that deletes is done, makes this text and leaves so many elements.
fn deletes(
    alloc: Global,
    model: &str,
    command: &str,
    made: &str,
    counts: &str,
) -> Result<bool, NoMemory> {
    let printed = format!(in alloc;
        "1 done verts=0 edges=0 faces=0|end {counts} refused=0 undo=1 redo=0|"
    )?;
    makes(alloc, model, command, 0, made, printed.as_str())
}

// Whether a command is refused so on the square, which stays as it is.
pub(crate) fn refuses(alloc: Global, command: &str, why: &str) -> Result<bool, NoMemory> {
    let printed = format!(in alloc;
        "1 refused {why}|end verts=4 edges=4 faces=1 corners=4 loose=0 refused=1 undo=0 redo=0|"
    )?;
    makes(alloc, SQUARE, command, 1, SQUARE, printed.as_str())
}

#[test]
fn making_vertices_and_edges(rt: HostRuntime) -> Result<(), Fail> {
    for (model, script, code, made, printed) in [
        (
            "",
            "make_vert at=0,0,0|make_vert at=4,0,0|make_vert at=0,4,0|make_edge verts=v0,v1|make_edge verts=v1,v0",
            1,
            "v 0 0 0|v 4 0 0|v 0 4 0|l 1 2|",
            "\
            1 done verts=1 edges=0 faces=0|2 done verts=1 edges=0 faces=0|3 done verts=1 edges=0 faces=0|\
            4 done verts=0 edges=1 faces=0|5 refused Exists e0|\
            end verts=3 edges=1 faces=0 corners=0 loose=1 refused=1 undo=4 redo=0|",
        ),
        (
            SQUARE,
            "make_edge verts=v2,v0|make_edge verts=v3,v0|make_edge verts=v0,v2",
            1,
            "v 0 0 0|v 4 0 0|v 4 4 0|v 0 4 0|l 3 1|f 1 2 3 4|",
            "\
            1 done verts=0 edges=1 faces=0|2 refused Exists e3|3 refused Exists e4|\
            end verts=4 edges=5 faces=1 corners=4 loose=1 refused=2 undo=1 redo=0|",
        ),
        (
            "",
            "make_vert at=1000000000,-1000000000,0",
            0,
            "v 1000000000 -1000000000 0|",
            "1 done verts=1 edges=0 faces=0|end verts=1 edges=0 faces=0 corners=0 loose=0 refused=0 undo=1 redo=0|",
        ),
    ] {
        assert!(rt;
            makes(rt.alloc(), model, script, code, made, printed)?,
            "{script}"
        );
    }
    Ok(())
}

#[test]
fn moving_and_turning_over(rt: HostRuntime) -> Result<(), Fail> {
    for (model, script, code, made, printed) in [
        (
            SQUARE,
            "translate verts=v1,all,v1 by=1,-2,3",
            0,
            "v 1 -2 3|v 5 -2 3|v 5 2 3|v 1 2 3|f 1 2 3 4|",
            "1 done verts=4 edges=0 faces=0|end verts=4 edges=4 faces=1 corners=4 loose=0 refused=0 undo=1 redo=0|",
        ),
        (
            "v 999999999 0 0",
            "translate verts=v0 by=1,0,0|translate verts=v0 by=1,0,0",
            1,
            "v 1000000000 0 0|",
            "\
            1 done verts=1 edges=0 faces=0|2 refused OutOfGrid v0|\
            end verts=1 edges=0 faces=0 corners=0 loose=0 refused=1 undo=1 redo=0|",
        ),
        (
            SQUARE,
            "translate verts=v1 by=0,0,0",
            0,
            SQUARE,
            "1 done verts=1 edges=0 faces=0|end verts=4 edges=4 faces=1 corners=4 loose=0 refused=0 undo=1 redo=0|",
        ),
        (
            STRIP,
            "reverse faces=all",
            0,
            "v 0 0 0|v 4 0 0|v 8 0 0|v 0 4 0|v 4 4 0|v 8 4 0|f 1 4 5 2|f 2 5 6 3|",
            "1 done verts=0 edges=0 faces=2|end verts=6 edges=7 faces=2 corners=8 loose=0 refused=0 undo=1 redo=0|",
        ),
        (
            "v 0 0 0|v 4 0 0|v 0 4 0|vt 0 0|vt 1 0|vt 0 1|f 1/1 2/2 3/3",
            "reverse faces=f0",
            0,
            "v 0 0 0|v 4 0 0|v 0 4 0|vt 0.000000 0.000000|vt 0.000000 1.000000|vt 1.000000 0.000000|f 1/1 3/2 2/3|",
            "1 done verts=0 edges=0 faces=1|end verts=3 edges=3 faces=1 corners=3 loose=0 refused=0 undo=1 redo=0|",
        ),
    ] {
        assert!(rt;
            makes(rt.alloc(), model, script, code, made, printed)?,
            "{script}"
        );
    }
    Ok(())
}

#[test]
fn deleting_edges(rt: HostRuntime) -> Result<(), Fail> {
    for (script, made, counts) in [
        (
            "delete geom=e0 context=edges",
            "v 0 0 0|v 4 0 0|v 8 0 0|v 0 4 0|v 4 4 0|v 8 4 0|l 5 4|l 4 1|f 2 3 6 5|",
            "verts=6 edges=6 faces=1 corners=4 loose=2",
        ),
        (
            "delete geom=e3,e0 context=edges",
            "v 4 0 0|v 8 0 0|v 0 4 0|v 4 4 0|v 8 4 0|l 4 3|f 1 2 5 4|",
            "verts=5 edges=5 faces=1 corners=4 loose=1",
        ),
        (
            "delete geom=e3,e0 context=edges_faces",
            "v 0 0 0|v 4 0 0|v 8 0 0|v 0 4 0|v 4 4 0|v 8 4 0|l 5 4|f 2 3 6 5|",
            "verts=6 edges=5 faces=1 corners=4 loose=1",
        ),
        (
            "delete geom=e1 context=edges",
            "v 0 0 0|v 4 0 0|v 8 0 0|v 0 4 0|v 4 4 0|v 8 4 0|l 1 2|l 5 4|l 4 1|l 2 3|l 3 6|l 6 5|",
            "verts=6 edges=6 faces=0 corners=0 loose=6",
        ),
        (
            "delete geom=all context=edges",
            "",
            "verts=0 edges=0 faces=0 corners=0 loose=0",
        ),
        (
            "delete geom=all.e context=edges_faces",
            "v 0 0 0|v 4 0 0|v 8 0 0|v 0 4 0|v 4 4 0|v 8 4 0|",
            "verts=6 edges=0 faces=0 corners=0 loose=0",
        ),
    ] {
        assert!(rt;
            deletes(rt.alloc(), STRIP, script, made, counts)?,
            "{script}"
        );
    }
    Ok(())
}

#[test]
fn deleting_faces(rt: HostRuntime) -> Result<(), Fail> {
    for (model, script, made, counts) in [
        (
            STRIP,
            "delete geom=f0 context=faces_only",
            "v 0 0 0|v 4 0 0|v 8 0 0|v 0 4 0|v 4 4 0|v 8 4 0|l 1 2|l 5 4|l 4 1|f 2 3 6 5|",
            "verts=6 edges=7 faces=1 corners=4 loose=3",
        ),
        (
            STRIP,
            "delete geom=f0 context=faces",
            "v 4 0 0|v 8 0 0|v 4 4 0|v 8 4 0|f 1 2 4 3|",
            "verts=4 edges=4 faces=1 corners=4 loose=0",
        ),
        (
            STRIP,
            "delete geom=f0 context=faces_keep_boundary",
            "v 0 0 0|v 4 0 0|v 8 0 0|v 0 4 0|v 4 4 0|v 8 4 0|l 1 2|l 5 4|l 4 1|f 2 3 6 5|",
            "verts=6 edges=7 faces=1 corners=4 loose=3",
        ),
        (
            STRIP,
            "delete geom=f1,f0 context=faces_keep_boundary",
            "v 0 0 0|v 4 0 0|v 8 0 0|v 0 4 0|v 4 4 0|v 8 4 0|l 1 2|l 5 4|l 4 1|l 2 3|l 3 6|l 6 5|",
            "verts=6 edges=6 faces=0 corners=0 loose=6",
        ),
        (
            FIN,
            "delete geom=f0-f1 context=faces",
            "v 0 0 0|v 0 0 4|v -4 0 0|f 1 2 3|",
            "verts=3 edges=3 faces=1 corners=3 loose=0",
        ),
        (
            FIN,
            "delete geom=f0-f9 context=faces_keep_boundary",
            "v 0 0 0|v 0 0 4|v 4 0 0|v 0 4 0|v -4 0 0|l 2 3|l 3 1|l 2 4|l 4 1|l 2 5|l 5 1|",
            "verts=5 edges=6 faces=0 corners=0 loose=6",
        ),
    ] {
        assert!(rt;
            deletes(rt.alloc(), model, script, made, counts)?,
            "{script}"
        );
    }
    Ok(())
}

#[test]
fn making_is_refused(rt: HostRuntime) -> Result<(), Fail> {
    for (command, why) in [
        ("make_vert at=1000000001,0,0", "BadValue"),
        ("make_vert at=0,0,-999999999999999999", "BadValue"),
        ("make_edge verts=v0", "BadValue"),
        ("make_edge verts=v1,v2,v1", "BadValue"),
        ("make_edge verts=v0,v0", "Repeated v0"),
        ("make_edge verts=v1,v0", "Exists e0"),
        ("make_edge verts=v0,v9,v8", "NoSuch v9"),
        ("make_edge verts=v9,v9", "NoSuch v9"),
        ("make_face verts=v0,v1", "TooShort"),
        ("make_face verts=v0,v0", "TooShort"),
        ("make_face verts=v2,v1,v0,v2,v1", "Repeated v1"),
        ("make_face verts=v3,v1,v0,v2", "Exists f0"),
        ("make_face verts=v0,v9,v0", "NoSuch v9"),
    ] {
        assert!(rt; refuses(rt.alloc(), command, why)?, "{command}");
    }
    Ok(())
}

#[test]
fn moving_is_refused(rt: HostRuntime) -> Result<(), Fail> {
    for (command, why) in [
        ("translate verts=e0 by=0,0,0", "WrongKind e0"),
        ("translate verts=v9,e0 by=0,0,0", "NoSuch v9"),
        ("translate verts=v0,e9 by=0,0,0", "WrongKind e9"),
        ("translate verts=all.f by=0,0,0", "WrongKind"),
        ("translate verts=e0-e9 by=0,0,0", "WrongKind"),
        ("translate verts=$a.faces,v9 by=0,0,0", "WrongKind"),
        ("translate verts=$a,v9 by=0,0,0", "NoSlot"),
        ("translate verts=v4-v9 by=0,0,0", "Empty"),
        ("translate verts=all by=0,1000000000,0", "OutOfGrid v2"),
        (
            "translate verts=v3,v2 by=0,999999999999999999,0",
            "OutOfGrid v2",
        ),
        ("reverse faces=v0", "WrongKind v0"),
        ("reverse faces=f1", "NoSuch f1"),
        ("reverse faces=f1-f2", "Empty"),
    ] {
        assert!(rt; refuses(rt.alloc(), command, why)?, "{command}");
    }
    Ok(())
}

#[test]
fn deleting_is_refused(rt: HostRuntime) -> Result<(), Fail> {
    for (command, why) in [
        ("delete geom=e0", "WrongKind e0"),
        ("delete geom=f0 context=edges", "WrongKind f0"),
        ("delete geom=v0 context=edges_faces", "WrongKind v0"),
        ("delete geom=all.v context=faces", "WrongKind"),
        ("delete geom=e4 context=edges", "NoSuch e4"),
        ("delete geom=f9 context=faces_only", "NoSuch f9"),
        ("delete geom=f1-f9 context=faces_keep_boundary", "Empty"),
    ] {
        assert!(rt; refuses(rt.alloc(), command, why)?, "{command}");
    }
    Ok(())
}

#[test]
fn nothing_to_undo_or_redo(rt: HostRuntime) -> Result<(), Fail> {
    for (command, why) in [("undo", "NothingToUndo"), ("redo", "NothingToRedo")] {
        assert!(rt; refuses(rt.alloc(), command, why)?, "{command}");
    }
    Ok(())
}

#[test]
fn undoing_and_redoing(rt: HostRuntime) -> Result<(), Fail> {
    for (model, script, code, made, printed) in [
        (
            "",
            "undo|redo",
            1,
            "",
            "\
            1 refused NothingToUndo|2 refused NothingToRedo|\
            end verts=0 edges=0 faces=0 corners=0 loose=0 refused=2 undo=0 redo=0|",
        ),
        (
            "",
            "make_vert at=0,0,0|undo|make_vert at=5,5,5|translate verts=v0 by=1,1,1|redo",
            1,
            "v 6 6 6|",
            "\
            1 done verts=1 edges=0 faces=0|2 done verts=0 edges=0 faces=0|3 done verts=1 edges=0 faces=0|\
            4 done verts=1 edges=0 faces=0|5 refused NothingToRedo|\
            end verts=1 edges=0 faces=0 corners=0 loose=0 refused=1 undo=2 redo=0|",
        ),
        (
            STRIP,
            "delete geom=f0 context=faces|delete geom=e4-e5 context=edges|undo|undo",
            0,
            STRIP,
            "\
            1 done verts=0 edges=0 faces=0|2 done verts=0 edges=0 faces=0|3 done verts=0 edges=0 faces=0|\
            4 done verts=0 edges=0 faces=0|\
            end verts=6 edges=7 faces=2 corners=8 loose=0 refused=0 undo=0 redo=2|",
        ),
        (
            "v 0 0 0",
            "translate verts=v0 by=1,0,0|translate verts=v0 by=1,0,0|undo|undo|undo|redo",
            1,
            "v 1 0 0|",
            "\
            1 done verts=1 edges=0 faces=0|2 done verts=1 edges=0 faces=0|3 done verts=0 edges=0 faces=0|\
            4 done verts=0 edges=0 faces=0|5 refused NothingToUndo|6 done verts=0 edges=0 faces=0|\
            end verts=1 edges=0 faces=0 corners=0 loose=0 refused=1 undo=1 redo=1|",
        ),
        (
            SQUARE,
            "reverse faces=f0|undo|delete geom=v9|redo",
            1,
            "v 0 0 0|v 4 0 0|v 4 4 0|v 0 4 0|f 1 4 3 2|",
            "\
            1 done verts=0 edges=0 faces=1|2 done verts=0 edges=0 faces=0|3 refused NoSuch v9|\
            4 done verts=0 edges=0 faces=0|\
            end verts=4 edges=4 faces=1 corners=4 loose=0 refused=1 undo=1 redo=0|",
        ),
        (
            SQUARE,
            "delete geom=v0|undo|redo|undo|redo|undo|make_edge verts=v0,v2|undo|make_edge verts=v2,v0",
            0,
            "v 0 0 0|v 4 0 0|v 4 4 0|v 0 4 0|l 3 1|f 1 2 3 4|",
            "\
            1 done verts=0 edges=0 faces=0|2 done verts=0 edges=0 faces=0|3 done verts=0 edges=0 faces=0|\
            4 done verts=0 edges=0 faces=0|5 done verts=0 edges=0 faces=0|6 done verts=0 edges=0 faces=0|\
            7 done verts=0 edges=1 faces=0|8 done verts=0 edges=0 faces=0|9 done verts=0 edges=1 faces=0|\
            end verts=4 edges=5 faces=1 corners=4 loose=1 refused=0 undo=1 redo=0|",
        ),
    ] {
        assert!(rt;
            makes(rt.alloc(), model, script, code, made, printed)?,
            "{script}"
        );
    }
    Ok(())
}

#[test]
fn names_are_used_later(rt: HostRuntime) -> Result<(), Fail> {
    for (script, code, made, printed) in [
        (
            "\
            a = make_vert at=0,0,4|b = make_edge verts=v0,v4|translate verts=$a by=1,0,0|\
            c = translate verts=$a.verts,v3 by=0,0,1|translate verts=$c by=0,0,1",
            0,
            "v 0 0 0|v 4 0 0|v 4 4 0|v 0 4 2|v 1 0 6|l 1 5|f 1 2 3 4|",
            "\
            1 done verts=1 edges=0 faces=0|2 done verts=0 edges=1 faces=0|3 done verts=1 edges=0 faces=0|\
            4 done verts=2 edges=0 faces=0|5 done verts=2 edges=0 faces=0|\
            end verts=5 edges=5 faces=1 corners=4 loose=1 refused=0 undo=5 redo=0|",
        ),
        (
            "a = reverse faces=all|b = reverse faces=$a.faces|delete geom=$b,$a context=faces_only|reverse faces=$b",
            1,
            "v 0 0 0|v 4 0 0|v 4 4 0|v 0 4 0|l 1 2|l 2 3|l 3 4|l 4 1|",
            "\
            1 done verts=0 edges=0 faces=1|2 done verts=0 edges=0 faces=1|3 done verts=0 edges=0 faces=0|\
            4 refused Empty|end verts=4 edges=4 faces=0 corners=0 loose=4 refused=1 undo=3 redo=0|",
        ),
        (
            "\
            a = make_vert at=0,0,4|b = make_edge verts=v0,v4|reverse faces=$a|translate verts=$b by=0,0,1|\
            translate verts=$b.edges by=0,0,1|delete geom=$b context=edges|delete geom=$b context=edges|\
            translate verts=$a by=0,0,1",
            1,
            SQUARE,
            "\
            1 done verts=1 edges=0 faces=0|2 done verts=0 edges=1 faces=0|3 refused Empty|4 refused Empty|\
            5 refused WrongKind|6 done verts=0 edges=0 faces=0|7 refused Empty|8 refused Empty|\
            end verts=4 edges=4 faces=1 corners=4 loose=0 refused=5 undo=3 redo=0|",
        ),
        (
            "a = make_vert at=1,1,1|undo|delete geom=$a.verts|redo|delete geom=$a.verts",
            1,
            SQUARE,
            "\
            1 done verts=1 edges=0 faces=0|2 done verts=0 edges=0 faces=0|3 refused NoSlot|\
            4 done verts=0 edges=0 faces=0|5 done verts=0 edges=0 faces=0|\
            end verts=4 edges=4 faces=1 corners=4 loose=0 refused=1 undo=2 redo=0|",
        ),
        (
            "a = delete geom=v9|delete geom=$a|b = delete geom=v0|delete geom=$b|undo|delete geom=$b",
            1,
            SQUARE,
            "\
            1 refused NoSuch v9|2 refused NoSlot|3 done verts=0 edges=0 faces=0|4 refused Empty|\
            5 done verts=0 edges=0 faces=0|6 refused NoSlot|\
            end verts=4 edges=4 faces=1 corners=4 loose=0 refused=4 undo=0 redo=1|",
        ),
        (
            "\
            a = make_vert at=1,1,1|translate verts=$a by=0,0,1|undo|translate verts=$a by=0,0,5|undo|undo|\
            b = make_vert at=2,2,2|translate verts=$a by=0,0,1|translate verts=$b by=0,0,1",
            1,
            "v 0 0 0|v 4 0 0|v 4 4 0|v 0 4 0|v 2 2 3|f 1 2 3 4|",
            "\
            1 done verts=1 edges=0 faces=0|2 done verts=1 edges=0 faces=0|3 done verts=0 edges=0 faces=0|\
            4 done verts=1 edges=0 faces=0|5 done verts=0 edges=0 faces=0|6 done verts=0 edges=0 faces=0|\
            7 done verts=1 edges=0 faces=0|8 refused NoSlot|9 done verts=1 edges=0 faces=0|\
            end verts=5 edges=4 faces=1 corners=4 loose=0 refused=1 undo=2 redo=0|",
        ),
    ] {
        assert!(rt;
            makes(rt.alloc(), SQUARE, script, code, made, printed)?,
            "{script}"
        );
    }
    Ok(())
}

#[test]
fn scripts_are_refused(rt: HostRuntime) -> Result<(), Fail> {
    for (script, line) in [
        ("frob\n", "script line 1: UnknownWord\n"),
        ("delete\n", "script line 1: MissingArgument\n"),
        ("translate verts=all\n", "script line 1: MissingArgument\n"),
        ("delete geom=x\n", "script line 1: BadExpression\n"),
        ("delete geom=v0 geom=v0\n", "script line 1: TwiceGiven\n"),
        ("make_vert at=0,0,z\n", "script line 1: BadNumber\n"),
        ("undo x\n", "script line 1: BadExpression\n"),
        ("undo\na = redo\n", "script line 2: BadExpression\n"),
        (
            "a = make_vert at=0,0,0\na = undo\n",
            "script line 2: Rebound\n",
        ),
        (
            "redo\nlayer verts w width=1 rule=mix\n",
            "script line 2: LateLayer\n",
        ),
        ("undo\npoke faces=\n", "script line 2: NotYet\n"),
        (
            "layer verts w width=5 rule=mix\n",
            "script line 1: BadLayer\n",
        ),
        (
            "layer corners w width=2 rule=mix\nlayer corners uv width=2 rule=mix\n",
            "script line 2: BadLayer\n",
        ),
        ("layer points\n", "script line 1: UnknownWord\n"),
    ] {
        assert!(rt;
            gives(rt.alloc(), "v 0 0 0\n", script, 4, None, line)?,
            "{script}"
        );
    }
    Ok(())
}

#[test]
fn a_long_way_back_and_forth(rt: HostRuntime) -> Result<(), Fail> {
    let script = repeated(
        rt.alloc(),
        "translate verts=v0 by=1,0,0\nundo\nredo\n",
        1_000,
    )?;
    let end = "end verts=1 edges=0 faces=0 corners=0 loose=0 refused=0 undo=1000 redo=0\n";
    let ended = ends_long(rt.alloc(), "v 0 0 0\n", script.as_str(), end)?;
    assert_eq!(rt; ended, (0, 1_000, "v 1000 0 0\n".len(), true));
    Ok(())
}

#[test]
fn making_faces(rt: HostRuntime) -> Result<(), Fail> {
    for (model, script, code, made, printed) in [
        (
            "",
            "make_vert at=0,0,0|make_vert at=4,0,0|make_vert at=0,4,0|make_face verts=v0,v1,v2|\
            make_face verts=v2,v1,v0|make_edge verts=v0,v1|make_edge verts=v0,v0",
            1,
            "v 0 0 0|v 4 0 0|v 0 4 0|f 1 2 3|",
            "\
            1 done verts=1 edges=0 faces=0|2 done verts=1 edges=0 faces=0|3 done verts=1 edges=0 faces=0|\
            4 done verts=0 edges=3 faces=1|5 refused Exists f0|6 refused Exists e0|7 refused Repeated v0|\
            end verts=3 edges=3 faces=1 corners=3 loose=0 refused=3 undo=4 redo=0|",
        ),
        (
            SQUARE,
            "a = make_face verts=v0,v2,v1|reverse faces=$a|delete geom=$a.edges context=edges",
            0,
            SQUARE,
            "\
            1 done verts=0 edges=1 faces=1|2 done verts=0 edges=0 faces=1|3 done verts=0 edges=0 faces=0|\
            end verts=4 edges=4 faces=1 corners=4 loose=0 refused=0 undo=3 redo=0|",
        ),
    ] {
        assert!(rt;
            makes(rt.alloc(), model, script, code, made, printed)?,
            "{script}"
        );
    }
    Ok(())
}

#[test]
fn scaling_is_refused(rt: HostRuntime) -> Result<(), Fail> {
    for (command, why) in [
        ("scale verts=e0 about=0,0,0 num=1 den=0", "WrongKind e0"),
        ("scale verts=all about=0,0,0 num=1 den=0", "BadValue"),
        ("scale verts=all about=0,0,0 num=1 den=-1", "BadValue"),
        ("scale verts=all about=0,0,0 num=1 den=1000001", "BadValue"),
        ("scale verts=all about=0,0,0 num=1000001 den=1", "BadValue"),
        ("scale verts=all about=0,0,0 num=-1000001 den=1", "BadValue"),
        (
            "scale verts=all about=0,1000000001,0 num=1 den=1",
            "BadValue",
        ),
        (
            "scale verts=all about=-1000000000,0,0 num=2 den=1",
            "OutOfGrid v1",
        ),
    ] {
        assert!(rt; refuses(rt.alloc(), command, why)?, "{command}");
    }
    Ok(())
}

#[test]
fn scaling(rt: HostRuntime) -> Result<(), Fail> {
    for (model, script, made, count) in [
        (
            SQUARE,
            "scale verts=all about=4,4,-1 num=-1 den=2",
            "v 6 6 -2|v 4 6 -2|v 4 4 -2|v 6 4 -2|f 1 2 3 4|",
            4,
        ),
        (
            SQUARE,
            "scale verts=v1,v2 about=0,0,0 num=1000000 den=999999",
            SQUARE,
            2,
        ),
        (
            SQUARE,
            "scale verts=v2 about=0,0,0 num=0 den=1",
            "v 0 0 0|v 4 0 0|v 0 0 0|v 0 4 0|f 1 2 3 4|",
            1,
        ),
    ] {
        let counts = "verts=4 edges=4 faces=1 corners=4 loose=0";
        let printed = format!(in rt.alloc();
            "1 done verts={count} edges=0 faces=0|end {counts} refused=0 undo=1 redo=0|"
        )?;
        assert!(rt;
            makes(rt.alloc(), model, script, 0, made, printed.as_str())?,
            "{script}"
        );
    }
    Ok(())
}

#[test]
fn mirroring_is_refused(rt: HostRuntime) -> Result<(), Fail> {
    for (command, why) in [
        ("mirror verts=e0 axis=x about=1000000001", "WrongKind e0"),
        ("mirror verts=all axis=x about=1000000001", "BadValue"),
        ("mirror verts=all axis=x about=-500000000", "OutOfGrid v1"),
    ] {
        assert!(rt; refuses(rt.alloc(), command, why)?, "{command}");
    }
    Ok(())
}

#[test]
fn mirroring(rt: HostRuntime) -> Result<(), Fail> {
    for (model, script, made, count) in [
        (
            SQUARE,
            "mirror verts=all axis=x about=3",
            "v 6 0 0|v 2 0 0|v 2 4 0|v 6 4 0|f 1 2 3 4|",
            4,
        ),
        (
            SQUARE,
            "mirror verts=v1,v0 axis=y about=1",
            "v 0 2 0|v 4 2 0|v 4 4 0|v 0 4 0|f 1 2 3 4|",
            2,
        ),
        (
            SQUARE,
            "mirror verts=v3 axis=z about=-2",
            "v 0 0 0|v 4 0 0|v 4 4 0|v 0 4 -4|f 1 2 3 4|",
            1,
        ),
    ] {
        let counts = "verts=4 edges=4 faces=1 corners=4 loose=0";
        let printed = format!(in rt.alloc();
            "1 done verts={count} edges=0 faces=0|end {counts} refused=0 undo=1 redo=0|"
        )?;
        assert!(rt;
            makes(rt.alloc(), model, script, 0, made, printed.as_str())?,
            "{script}"
        );
    }
    Ok(())
}
