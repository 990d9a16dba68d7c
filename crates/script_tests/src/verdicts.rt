//! The verdicts of many texts.

use crate::confirm::confirm;
use script_text::{ScriptFault, parse};
use sequence::NoMemory;
use std::alloc::Global;
use std::test::Fail;
use text_words::{cut, lines};

// A row is a verdict, a colon and a text: `ok` where the text is a script, else the line and the word of its
// refusal. A bar stands for a line feed in the text.
const ROWS: &[u8] = b"\
ok:\n\
ok: \t\r\n\
ok:# only a comment\n\
ok:|# so|\n\
ok:delete geom=v0\n\
ok:delete geom=v0 context=verts\n\
ok:delete context=verts geom=v0,v007,v999999999\n\
ok:  delete\tgeom=all # everything\r\n\
ok:delete geom=v0#x\n\
ok:delete geom=v3-v3\n\
ok:delete geom=v003-v3\n\
ok:delete geom=e0,f1-f2,all.v,all.e,all.f,$a,$b_2.verts,$c.edges,$d.faces\n\
ok:delete geom=v0,v0,v0\n\
ok:delete geom=v0||delete geom=v1|\n\
ok:a = delete geom=v0\n\
ok:a = delete geom=v0|A = delete geom=$a|a_ = delete geom=$A.verts\n\
ok:undo = delete geom=v0\n\
ok:layer = delete geom=all # so\n\
ok:abcdefghijklmnopqrstuvwxyzabcdefghijklmnopqrstuvwxyzABCDEFGHI_0 = delete geom=v0\n\
ok:delete geom=$abcdefghijklmnopqrstuvwxyzabcdefghijklmnopqrstuvwxyzABCDEFGHI_0\n\
ok:undo\n\
ok:redo # so\n\
ok:undo#x|redo|undo|undo\n\
ok:a = make_vert at=0,0,0|undo|b = translate verts=$a by=1,1,1\n\
ok:redo = reverse faces=all\n\
ok:delete geom=e0 context=edges\n\
ok:delete geom=e0 context=edges_faces\n\
ok:delete geom=f0 context=faces_only\n\
ok:delete context=faces geom=f0\n\
ok:delete geom=f0 context=faces_keep_boundary\n\
ok:make_vert at=1,-2,3\n\
ok:make_vert at=-0,007,-999999999999999999\n\
ok:make_edge verts=v0,v1\n\
ok:make_edge verts=v007,v7,v999999999\n\
ok:translate verts=$a by=0,0,64\n\
ok:translate by=-1,2,-3 verts=v0-v9,$b.verts,f0\n\
ok:reverse faces=f0\n\
1 MissingArgument:make_face\n\
1 BadExpression:make_face verts=v0,v1,\n\
1 MissingArgument:scale verts=all about=0,0,0 num=1\n\
1 TwiceGiven:scale num=1 num=\n\
1 BadNumber:scale verts=all about=0,0 num=1 den=1\n\
1 BadNumber:scale den=0,1\n\
1 UnknownWord:mirror verts=all axis=w about=0\n\
1 MissingArgument:mirror verts=all axis=z\n\
1 BadNumber:mirror about=z\n\
1 MissingArgument:layer\n\
1 MissingArgument:layer verts\n\
1 MissingArgument:layer verts w\n\
1 MissingArgument:layer verts w width=1\n\
1 MissingArgument:layer verts w rule=mix\n\
1 MissingArgument:layer verts w width=9\n\
ok:layer verts w width=1 rule=mix\n\
ok:layer edges w rule=copy width=4 # so\n\
ok:layer corners = width=2 rule=mix|layer faces w width=3 rule=copy\n\
ok:layer verts uv width=1 rule=mix|layer edges material width=1 rule=mix|layer corners smooth width=1 rule=mix\n\
ok:layer verts w width=1 rule=mix||layer edges w width=1 rule=mix|a = delete geom=v0\n\
ok:layer verts w width=004 rule=copy\n\
ok:layer verts abcdefghijklmnopqrstuvwxyzabcdefghijklmnopqrstuvwxyzABCDEFGHI-! width=1 rule=mix\n\
1 UnknownWord:layer points\n\
1 UnknownWord:layer vert w width=1 rule=mix\n\
1 UnknownWord:layer all w width=1 rule=mix\n\
1 UnknownWord:layer verts w 1 mix\n\
1 UnknownWord:layer verts w wide=1 rule=mix\n\
1 UnknownWord:layer verts w rule=Mix width=x\n\
1 UnknownWord:layer verts w rule= width=1\n\
1 TwiceGiven:layer verts w width=1 width=x rule=mix\n\
1 TwiceGiven:layer verts w rule=mix width=1 rule=mix\n\
1 BadNumber:layer verts w width=x\n\
1 BadNumber:layer verts w width= rule=mix\n\
1 BadExpression:layer verts abcdefghijklmnopqrstuvwxyzabcdefghijklmnopqrstuvwxyzABCDEFGHI-!x width=1 rule=mix\n\
1 BadLayer:layer verts w width=0 rule=mix\n\
1 BadLayer:layer verts w width=5 rule=mix\n\
1 BadLayer:layer verts w width=-1 rule=mix\n\
1 BadLayer:layer verts w width=256 rule=mix\n\
1 BadLayer:layer corners uv width=2 rule=mix\n\
1 BadLayer:layer faces material width=1 rule=copy\n\
1 BadLayer:layer faces smooth width=4 rule=mix\n\
2 BadLayer:layer verts w width=1 rule=mix|layer verts w width=2 rule=copy\n\
3 BadLayer:layer edges w width=1 rule=mix||layer edges w width=1 rule=mix|x\n\
ok:make_face verts=v0,v1,v2\n\
ok:set values=1,-2,3,4 layer=x geom=all of=corners\n\
ok:set of=verts geom=$a.verts layer=a-b+c values=-000000000000000007\n\
1 MissingArgument:set of=faces geom=all layer=x\n\
1 UnknownWord:set of=loops\n\
1 BadNumber:set values=1,2,3,4,5\n\
1 BadNumber:set values=\n\
1 BadExpression:set layer=\n\
1 TwiceGiven:set layer=x layer=\n\
ok:scale verts=all about=0,0,0 num=3 den=2\n\
ok:mirror verts=all axis=y about=-0\n\
ok:duplicate geom=all\n\
ok:b = duplicate geom=e0,v1-v3,all.f,$a\n\
ok:split geom=f0,v1\n\
1 MissingArgument:duplicate\n\
1 UnknownWord:split faces=f0\n\
1 BadExpression:split geom=$a.map\n\
1 NotYet:connect verts=v0,v2\n\
1 NotYet:dissolve_edges edges=e0\n\
1 NotYet:dissolve_faces faces=all\n\
1 NotYet:dissolve_verts verts=v1\n\
1 NotYet:extrude_region faces=all.f\n\
1 NotYet:extrude_edges edges=$a.edges\n\
1 NotYet:extrude_verts verts=v0\n\
1 NotYet:bridge b=all a=e0\n\
1 NotYet:subdivide edges=e0 cuts=1\n\
1 NotYet:weld map=v0:v1,v2:v1\n\
1 NotYet:merge_doubles verts=all dist=999999999999999999\n\
1 NotYet:collapse edges=e0,e1\n\
1 NotYet:edge_split edges=all\n\
1 NotYet:triangulate method=fan faces=all\n\
1 NotYet:poke\n\
1 NotYet:a = poke faces=\n\
3 NotYet:|delete geom=v0|poke|x\x01\n\
1 NotText:delete geom=v0\x01\n\
1 NotText:# \x80\n\
1 NotText:x \0\n\
1 NotText:\x7f\n\
1 NotText:undo\x0b\n\
2 NotText:delete geom=v0|layer \x01\n\
1 UnknownWord:Delete geom=v0\n\
1 UnknownWord:deletes geom=v0\n\
1 UnknownWord:geom=v0 delete\n\
1 UnknownWord:delete v0\n\
1 UnknownWord:delete geo=v0\n\
1 UnknownWord:delete =v0\n\
1 UnknownWord:delete geom=v0 verts=v1\n\
1 UnknownWord:delete geom=v0 context=vert\n\
1 UnknownWord:delete context=\n\
1 UnknownWord:delete context=verts=\n\
1 UnknownWord:delete x geom=\n\
1 UnknownWord:delete layer = delete\n\
1 UnknownWord:= x\n\
1 UnknownWord:x = foo geom=\n\
1 UnknownWord:a = layer verts w width=1 rule=mix\n\
1 UnknownWord:layers verts w width=1 rule=mix\n\
1 UnknownWord:undo=\n\
1 UnknownWord:a=delete geom=v0\n\
1 UnknownWord:Undo\n\
1 UnknownWord:undo = x\n\
1 UnknownWord:= undo\n\
1 UnknownWord:make_vert verts=v0\n\
1 UnknownWord:make_edge v0,v1\n\
1 UnknownWord:translate geom=all\n\
1 UnknownWord:reverse geom=f0\n\
1 UnknownWord:delete context=face geom=f0\n\
1 MissingArgument:delete\n\
1 MissingArgument:delete context=verts\n\
1 MissingArgument:a = delete # geom=v0\n\
1 MissingArgument:a =\n\
1 MissingArgument:undo =\n\
1 MissingArgument:layer =\n\
1 MissingArgument:make_vert\n\
1 MissingArgument:make_edge\n\
1 MissingArgument:translate verts=all\n\
1 MissingArgument:translate by=0,0,0\n\
1 MissingArgument:a = reverse\n\
1 TwiceGiven:delete geom=v0 geom=v1\n\
1 TwiceGiven:delete geom=v0 geom=\n\
1 TwiceGiven:delete context=verts context=faces geom=v0\n\
1 TwiceGiven:make_vert at=0,0,0 at=\n\
1 TwiceGiven:translate by=0,0,0 by=x\n\
1 TwiceGiven:reverse faces=f0 faces=f0\n\
1 BadNumber:make_vert at=\n\
1 BadNumber:make_vert at=1,2\n\
1 BadNumber:make_vert at=1,2,3,4\n\
1 BadNumber:make_vert at=1, 2,3\n\
1 BadNumber:make_vert at=1,2,+3\n\
1 BadNumber:make_vert at=1,2,1234567890123456789\n\
1 BadNumber:translate by=0,0,- verts=\n\
1 BadExpression:delete geom=\n\
1 BadExpression:delete geom= x\n\
1 BadExpression:delete geom=v\n\
1 BadExpression:delete geom=V0\n\
1 BadExpression:delete geom=v0,\n\
1 BadExpression:delete geom=,v0\n\
1 BadExpression:delete geom=v1-v0\n\
1 BadExpression:delete geom=v0-e1\n\
1 BadExpression:delete geom=v0-1\n\
1 BadExpression:delete geom=v0-v1-v2\n\
1 BadExpression:delete geom=v-1\n\
1 BadExpression:delete geom=v1234567890\n\
1 BadExpression:delete geom=c0\n\
1 BadExpression:delete geom=x geom=v0\n\
1 BadExpression:delete geom=$\n\
1 BadExpression:delete geom=$1a\n\
1 BadExpression:delete geom=$a.\n\
1 BadExpression:delete geom=$a.map\n\
1 BadExpression:delete geom=$a.verts.verts\n\
1 BadExpression:delete geom=$abcdefghijklmnopqrstuvwxyzabcdefghijklmnopqrstuvwxyzABCDEFGHIJ_0\n\
1 BadExpression:delete geom=all.x\n\
1 BadExpression:delete geom=all.corners\n\
1 BadExpression:delete geom=v0:v1\n\
1 BadExpression:delete context=faces geom=\n\
1 BadExpression:make_edge verts=\n\
1 BadExpression:make_edge verts=v0,e1\n\
1 BadExpression:make_edge verts=v0-v1\n\
1 BadExpression:make_edge verts=all\n\
1 BadExpression:make_edge verts=$a\n\
1 BadExpression:translate verts= by=0,0\n\
1 BadExpression:reverse faces=f\n\
1 BadExpression:undo x\n\
1 BadExpression:undo undo\n\
1 BadExpression:undo layer verts\n\
1 BadExpression:redo =x\n\
1 BadExpression:a = undo\n\
1 BadExpression:a = redo geom=v0\n\
1 BadExpression:redo = redo\n\
1 BadExpression:= = x\n\
1 BadExpression:1a = foo\n\
1 BadExpression:_a = delete geom=v0\n\
1 BadExpression:a-b = delete geom=v0\n\
1 BadExpression:a.b =\n\
1 BadExpression:abcdefghijklmnopqrstuvwxyzabcdefghijklmnopqrstuvwxyzABCDEFGHIJ_0 = delete geom=v0\n\
2 Rebound:a = delete geom=v0|a = delete geom=v1\n\
2 Rebound:a = delete geom=v0|a =\n\
4 Rebound:a = delete geom=v0|b = delete geom=v0||b = undo\n\
3 Rebound:a = make_vert at=0,0,0|undo|a = make_vert at=0,0,0\n\
2 LateLayer:delete geom=v0|layer\n\
2 LateLayer:undo|layer verts w width=1 rule=mix\n\
3 LateLayer:delete geom=v0|# so|layer points\n\
2 UnknownWord:delete geom=v0|Delete|delete\n\
2 UnknownWord:a = delete geom=v0|b = a";

// What a text is: `ok`, or the line and the word of its refusal.
fn verdict_of(alloc: Global, text: &[u8]) -> Result<String, NoMemory> {
    match parse(alloc, text) {
        Ok(_) => String::from_str(alloc, "ok"),
        Err(ScriptFault::Refused(refusal)) => {
            format!(in alloc; "{} {}", refusal.line, refusal.why)
        }
        Err(ScriptFault::NoMemory) => Err(NoMemory),
    }
}

// A text with line feeds for bars.
fn unbarred(alloc: Global, text: &[u8]) -> Result<Vec<u8>, NoMemory> {
    let mut bytes = Vec::new(alloc);
    for b in text {
        bytes.push(if *b == b'|' { b'\n' } else { *b })?;
    }
    Ok(bytes)
}

// Whether a row's text has its verdict.
fn holds(alloc: Global, row: &[u8]) -> Result<bool, NoMemory> {
    match cut(row, b':') {
        Some((wanted, text)) => {
            let text = unbarred(alloc, text)?;
            let verdict = verdict_of(alloc, &text)?;
            Ok(verdict.as_bytes() == wanted)
        }
        None => Ok(false),
    }
}

// The place of the first row that doesn't hold, or the number of rows.
fn first_other(alloc: Global, rows: &[&[u8]]) -> Result<usize, NoMemory> {
    for (k, row) in rows.iter().enumerate() {
        if !holds(alloc, row)? {
            return Ok(k);
        }
    }
    Ok(rows.len())
}

#[test]
fn texts_have_their_verdicts(rt: HostRuntime) -> Result<(), Fail> {
    let rows = lines(rt.alloc(), ROWS)?;
    confirm(&rt, "there are rows", rows.len() > 160);
    let other = first_other(rt.alloc(), &rows)?;
    confirm(&rt, "each row holds", other == rows.len());
    Ok(())
}
