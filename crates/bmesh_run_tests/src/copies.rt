//! Copies, by whole runs over files in memory. In a row a bar stands for a line feed.

use crate::commands::{FIN, SQUARE, STRIP, makes, refuses};
use std::test::Fail;

#[test]
fn copying_is_refused(rt: HostRuntime) -> Result<(), Fail> {
    for (command, why) in [
        ("duplicate geom=f9", "NoSuch f9"),
        ("duplicate geom=v0,e0,f0,e9", "NoSuch e9"),
        ("duplicate geom=$a", "NoSlot"),
        ("split geom=v9,$a", "NoSuch v9"),
        ("split geom=f1-f9", "Empty"),
    ] {
        assert!(rt; refuses(rt.alloc(), command, why)?, "{command}");
    }
    Ok(())
}

#[test]
fn duplicating(rt: HostRuntime) -> Result<(), Fail> {
    for (model, script, code, made, printed) in [
        (
            FIN,
            "duplicate geom=all.f",
            0,
            "\
            v 0 0 0|v 0 0 4|v 4 0 0|v 0 4 0|v -4 0 0|v 0 0 0|v 0 0 4|v 4 0 0|v 0 4 0|v -4 0 0|\
            f 1 2 3|f 1 2 4|f 1 2 5|f 6 7 8|f 6 7 9|f 6 7 10|",
            "\
            1 done verts=5 edges=7 faces=3|\
            end verts=10 edges=14 faces=6 corners=18 loose=0 refused=0 undo=1 redo=0|",
        ),
        (
            SQUARE,
            "a = duplicate geom=all|undo|delete geom=$a.verts|redo|delete geom=$a.verts",
            1,
            SQUARE,
            "\
            1 done verts=4 edges=4 faces=1|2 done verts=0 edges=0 faces=0|3 refused NoSlot|\
            4 done verts=0 edges=0 faces=0|5 done verts=0 edges=0 faces=0|\
            end verts=4 edges=4 faces=1 corners=4 loose=0 refused=1 undo=2 redo=0|",
        ),
        (
            "v 0 0 0|v 4 0 0|v 0 4 0|vt 0 0|vt 1 0|vt 0 1|usemtl wood|s 2|f 1/1 2/2 3/3|",
            "duplicate geom=f0",
            0,
            "\
            v 0 0 0|v 4 0 0|v 0 4 0|v 0 0 0|v 4 0 0|v 0 4 0|\
            vt 0.000000 0.000000|vt 1.000000 0.000000|vt 0.000000 1.000000|\
            usemtl wood|s 2|f 1/1 2/2 3/3|f 4/1 5/2 6/3|",
            "1 done verts=3 edges=3 faces=1|end verts=6 edges=6 faces=2 corners=6 loose=0 refused=0 undo=1 redo=0|",
        ),
        (
            SQUARE,
            "a = duplicate geom=e1|translate verts=$a by=0,0,9",
            0,
            "v 0 0 0|v 4 0 0|v 4 4 0|v 0 4 0|v 4 0 9|v 4 4 9|l 5 6|f 1 2 3 4|",
            "\
            1 done verts=2 edges=1 faces=0|2 done verts=2 edges=0 faces=0|\
            end verts=6 edges=5 faces=1 corners=4 loose=1 refused=0 undo=2 redo=0|",
        ),
    ] {
        assert!(rt;
            makes(rt.alloc(), model, script, code, made, printed)?,
            "{script}"
        );
    }
    Ok(())
}

#[test]
fn splitting(rt: HostRuntime) -> Result<(), Fail> {
    for (model, script, made, printed) in [
        (
            STRIP,
            "split geom=f0",
            "\
            v 4 0 0|v 8 0 0|v 4 4 0|v 8 4 0|v 0 0 0|v 4 0 0|v 0 4 0|v 4 4 0|\
            f 1 2 4 3|f 5 6 8 7|",
            "1 done verts=4 edges=4 faces=1|end verts=8 edges=8 faces=2 corners=8 loose=0 refused=0 undo=1 redo=0|",
        ),
        (
            "v 1 2 3|",
            "split geom=v0",
            "v 1 2 3|",
            "1 done verts=1 edges=0 faces=0|end verts=1 edges=0 faces=0 corners=0 loose=0 refused=0 undo=1 redo=0|",
        ),
        (
            "v 0 0 0|v 1 0 0|l 1 2|",
            "split geom=e0",
            "v 0 0 0|v 1 0 0|l 1 2|",
            "1 done verts=2 edges=1 faces=0|end verts=2 edges=1 faces=0 corners=0 loose=1 refused=0 undo=1 redo=0|",
        ),
        (
            FIN,
            "split geom=f0",
            "\
            v 0 0 0|v 0 0 4|v 0 4 0|v -4 0 0|v 0 0 0|v 0 0 4|v 4 0 0|\
            f 1 2 3|f 1 2 4|f 5 6 7|",
            "1 done verts=3 edges=3 faces=1|end verts=7 edges=8 faces=3 corners=9 loose=0 refused=0 undo=1 redo=0|",
        ),
    ] {
        assert!(rt;
            makes(rt.alloc(), model, script, 0, made, printed)?,
            "{script}"
        );
    }
    Ok(())
}
