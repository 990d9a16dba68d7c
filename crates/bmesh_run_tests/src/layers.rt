//! Declared layers and their sums, by whole runs over files in memory. In a row a bar stands for a line feed.

use crate::commands::{SQUARE, STRIP, makes};
use std::test::Fail;

// A script's layers have a line each, in the order declared, between the commands and the end. OUT has none of them.
#[test]
fn layers_are_reported(rt: HostRuntime) -> Result<(), Fail> {
    for (model, script, code, made, printed) in [
        (
            SQUARE,
            "layer verts weight width=1 rule=mix",
            0,
            SQUARE,
            "layer verts weight sum=0|end verts=4 edges=4 faces=1 corners=4 loose=0 refused=0 undo=0 redo=0|",
        ),
        (
            SQUARE,
            "\
            layer faces b width=1 rule=copy|layer corners a width=4 rule=mix|# so|layer edges b width=2 rule=mix|\
            layer verts w.1 width=3 rule=copy||delete geom=v9|delete geom=f0 context=faces|undo",
            1,
            SQUARE,
            "\
            7 refused NoSuch v9|8 done verts=0 edges=0 faces=0|9 done verts=0 edges=0 faces=0|\
            layer faces b sum=0|layer corners a sum=0,0,0,0|layer edges b sum=0,0|layer verts w.1 sum=0,0,0|\
            end verts=4 edges=4 faces=1 corners=4 loose=0 refused=1 undo=0 redo=1|",
        ),
        (
            "",
            "layer corners w width=2 rule=mix|layer corners v width=1 rule=mix|make_vert at=0,0,1",
            0,
            "v 0 0 1|",
            "\
            3 done verts=1 edges=0 faces=0|layer corners w sum=0,0|layer corners v sum=0|\
            end verts=1 edges=0 faces=0 corners=0 loose=0 refused=0 undo=1 redo=0|",
        ),
    ] {
        assert!(rt;
            makes(rt.alloc(), model, script, code, made, printed)?,
            "{script}"
        );
    }
    Ok(())
}

// Numbers of every kind of layer are summed, over what is there at the end alone, and in the last layer of a kind too.
#[test]
fn sums_are_reported(rt: HostRuntime) -> Result<(), Fail> {
    for (model, script, code, made, printed) in [
        (
            STRIP,
            "\
            layer verts w width=1 rule=mix|layer edges c width=2 rule=copy|layer corners t width=3 rule=mix|\
            layer faces p width=1 rule=copy|set of=verts geom=all layer=w values=10|\
            set of=verts geom=v0,v3 layer=w values=-3|set of=edges geom=e0-e2 layer=c values=1,-2|\
            set of=corners geom=f0 layer=t values=1,0,-5|set of=faces geom=all layer=p values=1000000000",
            0,
            STRIP,
            "\
            5 done verts=6 edges=0 faces=0|6 done verts=2 edges=0 faces=0|7 done verts=0 edges=3 faces=0|\
            8 done verts=0 edges=0 faces=1|9 done verts=0 edges=0 faces=2|\
            layer verts w sum=34|layer edges c sum=3,-6|layer corners t sum=4,0,-20|layer faces p sum=2000000000|\
            end verts=6 edges=7 faces=2 corners=8 loose=0 refused=0 undo=5 redo=0|",
        ),
        (
            STRIP,
            "\
            layer faces p width=1 rule=copy|layer corners t width=2 rule=copy|layer edges c width=1 rule=mix|\
            layer verts w width=1 rule=mix|set of=verts geom=all layer=w values=10|\
            set of=verts geom=v5 layer=w values=1000|set of=edges geom=all layer=c values=-7|\
            set of=corners geom=all.f layer=t values=1,2|set of=corners geom=f1 layer=t values=5,6|\
            set of=faces geom=f0 layer=p values=-4|set of=faces geom=f1 layer=p values=100|\
            delete geom=f1 context=faces",
            0,
            "v 0 0 0|v 4 0 0|v 0 4 0|v 4 4 0|f 1 2 4 3|",
            "\
            5 done verts=6 edges=0 faces=0|6 done verts=1 edges=0 faces=0|7 done verts=0 edges=7 faces=0|\
            8 done verts=0 edges=0 faces=2|9 done verts=0 edges=0 faces=1|10 done verts=0 edges=0 faces=1|\
            11 done verts=0 edges=0 faces=1|12 done verts=0 edges=0 faces=0|\
            layer faces p sum=-4|layer corners t sum=4,8|layer edges c sum=-28|layer verts w sum=40|\
            end verts=4 edges=4 faces=1 corners=4 loose=0 refused=0 undo=8 redo=0|",
        ),
        (
            STRIP,
            "\
            layer corners t width=2 rule=copy|layer verts w width=1 rule=mix|\
            set of=corners geom=all.f layer=t values=1,2|set of=corners geom=f1 layer=t values=5,6|\
            set of=verts geom=v5 layer=w values=7|delete geom=f1 context=faces|undo|undo|redo",
            0,
            STRIP,
            "\
            3 done verts=0 edges=0 faces=2|4 done verts=0 edges=0 faces=1|5 done verts=1 edges=0 faces=0|\
            6 done verts=0 edges=0 faces=0|7 done verts=0 edges=0 faces=0|8 done verts=0 edges=0 faces=0|\
            9 done verts=0 edges=0 faces=0|layer corners t sum=24,32|layer verts w sum=7|\
            end verts=6 edges=7 faces=2 corners=8 loose=0 refused=0 undo=3 redo=1|",
        ),
        (
            SQUARE,
            "\
            layer verts w width=1 rule=mix|layer corners t width=4 rule=mix|\
            set of=verts geom=all layer=w values=3|set of=corners geom=f0 layer=t values=1,-2,3,-4|\
            duplicate geom=f0|make_vert at=9,9,9|split geom=f1",
            0,
            "\
            v 0 0 0|v 4 0 0|v 4 4 0|v 0 4 0|v 9 9 9|v 0 0 0|v 4 0 0|v 4 4 0|v 0 4 0|f 1 2 3 4|f 6 7 8 9|",
            "\
            3 done verts=4 edges=0 faces=0|4 done verts=0 edges=0 faces=1|5 done verts=4 edges=4 faces=1|\
            6 done verts=1 edges=0 faces=0|7 done verts=4 edges=4 faces=1|\
            layer verts w sum=24|layer corners t sum=8,-16,24,-32|\
            end verts=9 edges=8 faces=2 corners=8 loose=0 refused=0 undo=5 redo=0|",
        ),
        (
            SQUARE,
            "\
            layer verts a width=2 rule=mix|layer verts b width=1 rule=copy|layer verts z width=1 rule=mix|\
            layer faces uv width=2 rule=mix|set of=verts geom=v3 layer=z values=-999999999|\
            set of=verts geom=v0-v1 layer=b values=4|set of=verts geom=v0 layer=a values=1|\
            set of=edges geom=all layer=a values=1,2|set of=corners geom=f0 layer=uv values=5,6|\
            set of=faces geom=f0 layer=uv values=7,8|set of=verts geom=v0 layer=z values=1000000001",
            1,
            "v 0 0 0|v 4 0 0|v 4 4 0|v 0 4 0|vt 0.000005 0.000006|f 1/1 2/1 3/1 4/1|",
            "\
            5 done verts=1 edges=0 faces=0|6 done verts=2 edges=0 faces=0|7 refused BadValue|8 refused NoLayer|\
            9 done verts=0 edges=0 faces=1|10 done verts=0 edges=0 faces=1|11 refused BadValue|\
            layer verts a sum=0,0|layer verts b sum=8|layer verts z sum=-999999999|layer faces uv sum=7,8|\
            end verts=4 edges=4 faces=1 corners=4 loose=0 refused=3 undo=4 redo=0|",
        ),
    ] {
        assert!(rt;
            makes(rt.alloc(), model, script, code, made, printed)?,
            "{script}"
        );
    }
    Ok(())
}
