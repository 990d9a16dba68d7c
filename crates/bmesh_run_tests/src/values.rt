//! Values set, by whole runs over files in memory. In a row a bar stands for a line feed.

use crate::commands::{SQUARE, STRIP, makes, refuses};
use std::test::Fail;

#[test]
fn setting_is_refused(rt: HostRuntime) -> Result<(), Fail> {
    for (command, why) in [
        ("set of=verts geom=f0 layer=x values=1", "WrongKind f0"),
        ("set of=corners geom=v0 layer=uv values=1,2", "WrongKind v0"),
        ("set of=corners geom=f9 layer=x values=1", "NoSuch f9"),
        ("set of=edges geom=$a layer=x values=1", "NoSlot"),
        ("set of=verts geom=all layer=uv values=1,2", "NoLayer"),
        ("set of=faces geom=f0 layer=uv values=1", "NoLayer"),
        ("set of=corners geom=f0 layer=uv values=1", "BadValue"),
        ("set of=corners geom=f0 layer=uv values=1,2,3", "BadValue"),
        (
            "set of=corners geom=f0 layer=uv values=1,1000000001",
            "BadValue",
        ),
        ("set of=faces geom=f0 layer=material values=1", "BadValue"),
        ("set of=faces geom=f0 layer=material values=-1", "BadValue"),
        ("set of=faces geom=f0 layer=smooth values=-1", "BadValue"),
    ] {
        assert!(rt; refuses(rt.alloc(), command, why)?, "{command}");
    }
    Ok(())
}

#[test]
fn setting(rt: HostRuntime) -> Result<(), Fail> {
    for (model, script, made, printed) in [
        (
            SQUARE,
            "set of=corners geom=f0 layer=uv values=250000,-500000",
            "v 0 0 0|v 4 0 0|v 4 4 0|v 0 4 0|vt 0.250000 -0.500000|f 1/1 2/1 3/1 4/1|",
            "1 done verts=0 edges=0 faces=1|end verts=4 edges=4 faces=1 corners=4 loose=0 refused=0 undo=1 redo=0|",
        ),
        (
            STRIP,
            "set of=faces geom=f1 layer=smooth values=3|a = set of=faces geom=all layer=smooth values=1000000000|undo",
            "v 0 0 0|v 4 0 0|v 8 0 0|v 0 4 0|v 4 4 0|v 8 4 0|f 1 2 5 4|s 3|f 2 3 6 5|",
            "\
            1 done verts=0 edges=0 faces=1|2 done verts=0 edges=0 faces=2|3 done verts=0 edges=0 faces=0|\
            end verts=6 edges=7 faces=2 corners=8 loose=0 refused=0 undo=1 redo=1|",
        ),
        (
            "usemtl wood|v 0 0 0|v 4 0 0|v 8 0 0|v 0 4 0|v 4 4 0|v 8 4 0|f 1 2 5 4|f 2 3 6 5|usemtl glass|",
            "set of=faces geom=f0 layer=material values=2|set of=faces geom=f1 layer=material values=0",
            "v 0 0 0|v 4 0 0|v 8 0 0|v 0 4 0|v 4 4 0|v 8 4 0|usemtl glass|f 1 2 5 4|usemtl|f 2 3 6 5|",
            "\
            1 done verts=0 edges=0 faces=1|2 done verts=0 edges=0 faces=1|\
            end verts=6 edges=7 faces=2 corners=8 loose=0 refused=0 undo=2 redo=0|",
        ),
    ] {
        assert!(rt;
            makes(rt.alloc(), model, script, 0, made, printed)?,
            "{script}"
        );
    }
    Ok(())
}
