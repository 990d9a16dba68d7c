//! Whole runs over files in memory.

use bmesh_run::run;
use mesh_session::Session;
use sequence::NoMemory;
use std::alloc::Global;
use std::test::Fail;
use worlds::{MemoryWorld, SureWorld, World};

const SQUARE: &str = "v 0 0 0\nv 4 0 0\nv 4 4 0\nv 0 4 0\nf 1 2 3 4\n";

const CUT: &str = "delete geom=v0 context=verts\n";

const CUT_SQUARE: &str = "v 4 0 0\nv 4 4 0\nv 0 4 0\nl 1 2\nl 2 3\n";

const CUT_REPORT: &str =
    "1 done verts=0 edges=0 faces=0\nend verts=3 edges=2 faces=0 corners=0 loose=2 refused=0 undo=1 redo=0\n";

// The words of a command line.
fn words_of(alloc: Global, texts: &[&str]) -> Result<Vec<String>, NoMemory> {
    let mut words = Vec::new(alloc);
    for text in texts {
        words.push(String::from_str(alloc, text)?)?;
    }
    Ok(words)
}

// A world with a model and a script.
fn world_of(alloc: Global, model: &str, script: &str) -> Result<MemoryWorld, NoMemory> {
    let mut world = MemoryWorld::new(alloc);
    world.add_file("model", model.as_bytes())?;
    world.add_file("script", script.as_bytes())?;
    Ok(world)
}

// How a run of these words ends, and how many commands can be undone after it.
fn run_words<W: World>(
    alloc: Global,
    texts: &[&str],
    world: &mut W,
) -> Result<(u8, usize), NoMemory> {
    let words = words_of(alloc, texts)?;
    let mut session = Session::new(alloc);
    let status = run(alloc, &words, &mut session, world);
    Ok((status.code(), session.undo_len()))
}

const WORDS: [&str; 5] = ["model", "script", "out", "--scale", "0"];

// Whether a run by these words, over a model that no command changes, writes this text.
fn writes_by(alloc: Global, words: &[&str], model: &str, made: &str) -> Result<bool, NoMemory> {
    let mut world = world_of(alloc, model, "")?;
    let ended = run_words(alloc, words, &mut world)?;
    Ok(ended == (0, 0) && is_made(&world, Some(made)))
}

// The same at a scale.
fn writes_at(alloc: Global, scale: &str, model: &str, made: &str) -> Result<bool, NoMemory> {
    writes_by(
        alloc,
        &["model", "script", "out", "--scale", scale],
        model,
        made,
    )
}

#[test]
fn each_scale(rt: HostRuntime) -> Result<(), Fail> {
    for (scale, made) in [
        ("0", "v 1 -2 0\n"),
        ("1", "v 1.0 -2.0 0.0\n"),
        ("2", "v 1.00 -2.00 0.00\n"),
        ("3", "v 1.000 -2.000 0.000\n"),
        ("4", "v 1.0000 -2.0000 0.0000\n"),
        ("5", "v 1.00000 -2.00000 0.00000\n"),
        ("6", "v 1.000000 -2.000000 0.000000\n"),
    ] {
        assert!(rt;
            writes_at(rt.alloc(), scale, "v 1.0 -2 +.0\n", made)?,
            "{scale}"
        );
    }
    Ok(())
}

#[test]
fn six_places_without_the_option(rt: HostRuntime) -> Result<(), Fail> {
    let words = ["model", "script", "out"];
    let made = "v 1.000000 -2.000000 0.000001\n";
    assert!(rt; writes_by(rt.alloc(), &words, "v 1.0 -2 +.000001\n", made)?);
    Ok(())
}

#[test]
fn the_option_in_one_word(rt: HostRuntime) -> Result<(), Fail> {
    let words = ["model", "--scale=2", "script", "out"];
    assert!(rt; writes_by(rt.alloc(), &words, "v 1.0 -2 +.0\n", "v 1.00 -2.00 0.00\n")?);
    Ok(())
}

/// Whether a run of a model and a script ends, makes and prints as expected.
pub(crate) fn gives(
    alloc: Global,
    model: &str,
    script: &str,
    code: u8,
    made: Option<&str>,
    printed: &str,
) -> Result<bool, NoMemory> {
    let mut world = world_of(alloc, model, script)?;
    let ended = run_words(alloc, &WORDS, &mut world)?;
    Ok(ended.0 == code && is_made(&world, made) && world.printed_bytes() == printed.as_bytes())
}

fn is_made(world: &MemoryWorld, made: Option<&str>) -> bool {
    match (world.made_file("out"), made) {
        (Some(bytes), Some(text)) => bytes == text.as_bytes(),
        (None, None) => true,
        _ => false,
    }
}

#[test]
fn a_corner_is_cut_off_a_square(rt: HostRuntime) -> Result<(), Fail> {
    assert!(rt; gives(rt.alloc(), SQUARE, CUT, 0, Some(CUT_SQUARE), CUT_REPORT)?);
    Ok(())
}

#[test]
fn nothing_gives_nothing(rt: HostRuntime) -> Result<(), Fail> {
    let report = "end verts=0 edges=0 faces=0 corners=0 loose=0 refused=0 undo=0 redo=0\n";
    assert!(rt; gives(rt.alloc(), "", "", 0, Some(""), report)?);
    Ok(())
}

#[test]
fn a_missing_vertex_is_refused(rt: HostRuntime) -> Result<(), Fail> {
    let script = "delete geom=v9 context=verts\n";
    let report =
        "1 refused NoSuch v9\nend verts=4 edges=4 faces=1 corners=4 loose=0 refused=1 undo=0 redo=0\n";
    assert!(rt; gives(rt.alloc(), SQUARE, script, 1, Some(SQUARE), report)?);
    Ok(())
}

#[test]
fn several_commands_in_order(rt: HostRuntime) -> Result<(), Fail> {
    let script =
        "delete geom=v0,v7 context=verts\n\ndelete geom=v3,v0 context=verts\ndelete geom=v1,v3 context=verts";
    let report =
        "1 refused NoSuch v7\n3 done verts=0 edges=0 faces=0\n4 refused NoSuch v3\nend verts=2 edges=1 faces=0 corners=0 loose=1 refused=2 undo=1 redo=0\n";
    assert!(rt;
        gives(
            rt.alloc(),
            SQUARE,
            script,
            1,
            Some("v 4 0 0\nv 4 4 0\nl 1 2\n"),
            report
        )?
    );
    Ok(())
}

#[test]
fn refused_inputs_print_one_line(rt: HostRuntime) -> Result<(), Fail> {
    for (model, script, code, line) in [
        ("v 0 0 0\nl 1 2\n", CUT, 3, "model line 2: BadIndex\n"),
        (
            "v 0 0 0\nf 1 1 1\n",
            "poke\n",
            3,
            "model line 2: Repeated\n",
        ),
        ("v 0 0 0\n", "poke\n", 4, "script line 1: NotYet\n"),
        (
            SQUARE,
            "\n\ndelete geom=v0, context=verts\n",
            4,
            "script line 3: BadExpression\n",
        ),
    ] {
        assert!(rt;
            gives(rt.alloc(), model, script, code, None, line)?,
            "{line}"
        );
    }
    Ok(())
}

// Whether words end with this status and line, with nothing made.
fn words_give(alloc: Global, texts: &[&str], code: u8, line: &str) -> Result<bool, NoMemory> {
    let mut world = world_of(alloc, SQUARE, CUT)?;
    let ended = run_words(alloc, texts, &mut world)?;
    Ok(ended == (code, 0) && is_made(&world, None) && world.printed_bytes() == line.as_bytes())
}

const USAGE: &str = "usage: bmesh MODEL SCRIPT OUT [--scale N]\n";

#[test]
fn other_words_are_refused(rt: HostRuntime) -> Result<(), Fail> {
    let cases: [&[&str]; 10] = [
        &[],
        &["model", "script"],
        &["model", "script", "out", "more"],
        &["model", "script", "out", "--scale"],
        &["model", "script", "out", "--scale", "7"],
        &["model", "script", "out", "--scale", "x"],
        &["model", "script", "out", "--scales", "0"],
        &["--scale", "0", "model", "script", "out", "--scale", "0"],
        &["--help"],
        &["model", "script", "out", "-h"],
    ];
    for case in cases {
        assert!(rt; words_give(rt.alloc(), case, 2, USAGE)?);
    }
    Ok(())
}

#[test]
fn names_with_a_dash_are_refused(rt: HostRuntime) -> Result<(), Fail> {
    for (model, script, out) in [
        ("-model", "script", "out"),
        ("model", "-script", "out"),
        ("model", "script", "-out"),
        ("model", "script", "--out"),
    ] {
        let words = [model, script, out, "--scale", "0"];
        assert!(rt; words_give(rt.alloc(), &words, 2, USAGE)?);
    }
    Ok(())
}

// Whether a corner is cut off a square by these words.
fn cuts_by(alloc: Global, words: &[&str]) -> Result<bool, NoMemory> {
    let mut world = world_of(alloc, SQUARE, CUT)?;
    let ended = run_words(alloc, words, &mut world)?;
    Ok(ended == (0, 1) && is_made(&world, Some(CUT_SQUARE)))
}

#[test]
fn the_option_anywhere(rt: HostRuntime) -> Result<(), Fail> {
    let cases: [&[&str]; 8] = [
        &["--scale", "0", "model", "script", "out"],
        &["model", "--scale", "0", "script", "out"],
        &["model", "script", "--scale", "0", "out"],
        &["model", "script", "out", "--scale=0"],
        &["--scale=+0", "model", "script", "out"],
        &["model", "script", "out", "--scale", "00"],
        &["--scale", "0", "--", "model", "script", "out"],
        &["model", "--scale=0", "script", "--", "out"],
    ];
    for case in cases {
        assert!(rt; cuts_by(rt.alloc(), case)?);
    }
    Ok(())
}

#[test]
fn names_that_are_no_files(rt: HostRuntime) -> Result<(), Fail> {
    let grid = "model line 0: NotYet\n";
    let tour = "script line 0: NotYet\n";
    for (model, script, code, line) in [
        ("@grid:4", "script", 3, grid),
        ("@grid:", "script", 3, grid),
        ("model", "@tour", 4, tour),
    ] {
        let words = [model, script, "out", "--scale", "0"];
        assert!(rt;
            words_give(rt.alloc(), &words, code, line)?,
            "{model} {script}"
        );
    }
    Ok(())
}

// Whether a corner is cut where the model and the script have these names.
fn cuts_named(alloc: Global, model: &str, script: &str) -> Result<bool, NoMemory> {
    let mut world = MemoryWorld::new(alloc);
    world.add_file(model, SQUARE.as_bytes())?;
    world.add_file(script, CUT.as_bytes())?;
    let ended = run_words(alloc, &[model, script, "out", "--scale", "0"], &mut world)?;
    Ok(ended == (0, 1) && is_made(&world, Some(CUT_SQUARE)))
}

#[test]
fn names_nearly_like_those(rt: HostRuntime) -> Result<(), Fail> {
    assert!(rt; cuts_named(rt.alloc(), "@grid", "@tour2")?);
    Ok(())
}

#[test]
fn a_lone_dash_and_no_bytes_are_names(rt: HostRuntime) -> Result<(), Fail> {
    assert!(rt; cuts_named(rt.alloc(), "-", "")?);
    Ok(())
}

// So many line feeds.
fn line_feeds(alloc: Global, count: usize) -> Result<Vec<u8>, NoMemory> {
    let mut bytes = Vec::new(alloc);
    for _ in 0..count {
        bytes.push(b'\n')?;
    }
    Ok(bytes)
}

// Whether a run of a model and a script of so many line feeds ends with this status and text.
fn feeds_give(
    alloc: Global,
    model: usize,
    script: usize,
    code: u8,
    printed: &str,
) -> Result<bool, NoMemory> {
    let mut world = MemoryWorld::new(alloc);
    world.add_file("model", &line_feeds(alloc, model)?)?;
    world.add_file("script", &line_feeds(alloc, script)?)?;
    let ended = run_words(alloc, &WORDS, &mut world)?;
    Ok(ended == (code, 0) && world.printed_bytes() == printed.as_bytes())
}

#[test]
fn texts_at_the_limit(rt: HostRuntime) -> Result<(), Fail> {
    let report = "end verts=0 edges=0 faces=0 corners=0 loose=0 refused=0 undo=0 redo=0\n";
    for (model, script, code, printed) in [
        (65_536, 1_048_576, 0, report),
        (65_536, 1_048_577, 4, "script line 0: TooLarge\n"),
    ] {
        assert!(rt;
            feeds_give(rt.alloc(), model, script, code, printed)?,
            "{model} {script}"
        );
    }
    Ok(())
}

// How the cutting of a corner ends where a call fails: the status, how many commands can be undone, and how
// much was made (99 where nothing was) and printed.
fn cut_failing(alloc: Global, k: u64) -> Result<(u8, usize, usize, usize), NoMemory> {
    let mut world = world_of(alloc, SQUARE, CUT)?;
    world.fail_call(k)?;
    let ended = run_words(alloc, &WORDS, &mut world)?;
    Ok((
        ended.0,
        ended.1,
        made_length(&world),
        world.printed_bytes().len(),
    ))
}

fn made_length(world: &MemoryWorld) -> usize {
    match world.made_file("out") {
        Some(bytes) => bytes.len(),
        None => 99,
    }
}

// The calls are: open, read and read to the end of both inputs, begin, write and end OUT, print.
#[test]
fn each_call_failing_in_turn(rt: HostRuntime) -> Result<(), Fail> {
    for k in 0..6 {
        assert_eq!(rt; cut_failing(rt.alloc(), k)?, (5, 0, 99, 0), "call {k}");
    }
    for (k, made) in [
        (6, 99),
        (7, 0),
        (8, CUT_SQUARE.len()),
        (9, CUT_SQUARE.len()),
    ] {
        assert_eq!(rt; cut_failing(rt.alloc(), k)?, (6, 1, made, 0), "call {k}");
    }
    let whole = (0, 1, CUT_SQUARE.len(), CUT_REPORT.len());
    assert_eq!(rt; cut_failing(rt.alloc(), 10)?, whole);
    Ok(())
}

// How a refused model ends where its line can't be printed.
fn refusal_failing(alloc: Global) -> Result<(u8, usize, usize), NoMemory> {
    let mut world = world_of(alloc, "q\n", CUT)?;
    world.fail_call(3)?;
    let ended = run_words(alloc, &WORDS, &mut world)?;
    Ok((ended.0, made_length(&world), world.printed_bytes().len()))
}

#[test]
fn a_line_that_cannot_be_printed(rt: HostRuntime) -> Result<(), Fail> {
    assert_eq!(rt; refusal_failing(rt.alloc())?, (6, 99, 0));
    Ok(())
}

// Whether a corner is cut where each read, write and print handles at most so many bytes.
fn cuts_in_pieces(alloc: Global, most: usize) -> Result<bool, NoMemory> {
    let mut world = world_of(alloc, SQUARE, CUT)?;
    if most > 0 {
        world.limit_pieces(most);
    }
    let ended = run_words(alloc, &WORDS, &mut world)?;
    Ok(
        ended == (0, 1)
            && is_made(&world, Some(CUT_SQUARE))
            && world.printed_bytes() == CUT_REPORT.as_bytes(),
    )
}

#[test]
fn pieces_of_any_length(rt: HostRuntime) -> Result<(), Fail> {
    for most in [1, 2, 7, 30] {
        assert!(rt; cuts_in_pieces(rt.alloc(), most)?, "{most} bytes");
    }
    Ok(())
}

// What a run over a world that never fails makes of a model that is there, or of none.
fn surely(alloc: Global, model: Option<&str>) -> Result<(u8, usize), NoMemory> {
    let mut world = SureWorld::new(alloc);
    if let Some(text) = model {
        world.add_file("model", text.as_bytes())?;
    }
    let ended = run_words(alloc, &WORDS, &mut world)?;
    match world.made_file("out") {
        Some(bytes) => Ok((ended.0, bytes.len())),
        None => Ok((ended.0, 99)),
    }
}

#[test]
fn a_world_that_never_fails(rt: HostRuntime) -> Result<(), Fail> {
    assert_eq!(rt; surely(rt.alloc(), Some(SQUARE))?, (0, SQUARE.len()));
    assert_eq!(rt; surely(rt.alloc(), None)?, (0, 0));
    assert_eq!(rt; surely(rt.alloc(), Some("q"))?, (3, 99));
    Ok(())
}

// Whether a corner is cut in a world that never fails and handles at most so many bytes.
fn cuts_surely(alloc: Global, most: usize) -> Result<bool, NoMemory> {
    let mut world = SureWorld::new(alloc);
    world.add_file("model", SQUARE.as_bytes())?;
    world.add_file("script", CUT.as_bytes())?;
    if most > 0 {
        world.limit_pieces(most);
    }
    let ended = run_words(alloc, &WORDS, &mut world)?;
    Ok(ended == (0, 1) && world.printed_bytes() == CUT_REPORT.as_bytes())
}

#[test]
fn pieces_in_a_world_that_never_fails(rt: HostRuntime) -> Result<(), Fail> {
    for most in [1, 7] {
        assert!(rt; cuts_surely(rt.alloc(), most)?, "{most} bytes");
    }
    Ok(())
}

/// So many times a text.
pub(crate) fn repeated(alloc: Global, text: &str, count: usize) -> Result<String, NoMemory> {
    let mut all = String::new(alloc);
    for _ in 0..count {
        all.push_str(text)?;
    }
    Ok(all)
}

/// How a run of a model and a script ends with ample memory: the status, how many commands can be
/// undone, how much was made, and whether the report ends so.
pub(crate) fn ends_long(
    alloc: Global,
    model: &str,
    script: &str,
    end: &str,
) -> Result<(u8, usize, usize, bool), NoMemory> {
    let mut world = world_of(alloc, model, script)?;
    let ended = run_words(alloc, &WORDS, &mut world)?;
    let is_reported = world.printed_bytes().ends_with(end.as_bytes());
    Ok((ended.0, ended.1, made_length(&world), is_reported))
}

#[test]
fn a_long_script(rt: HostRuntime) -> Result<(), Fail> {
    let script = repeated(rt.alloc(), "delete geom=v9 context=verts\n", 2_000)?;
    let end = "loose=0 refused=2000 undo=0 redo=0\n";
    let ended = ends_long(rt.alloc(), SQUARE, script.as_str(), end)?;
    assert_eq!(rt; ended, (1, 0, SQUARE.len(), true));
    Ok(())
}

#[test]
fn a_long_model_and_many_terms(rt: HostRuntime) -> Result<(), Fail> {
    let model = repeated(rt.alloc(), "v 1 2 3\n", 8_000)?;
    let terms = repeated(rt.alloc(), "v0,", 3_000)?;
    let script = format!(in rt.alloc(); "delete geom={terms}v1 context=verts\n")?;
    let end = "loose=0 refused=0 undo=1 redo=0\n";
    let ended = ends_long(rt.alloc(), model.as_str(), script.as_str(), end)?;
    assert_eq!(rt; ended, (0, 1, 63_984, true));
    Ok(())
}

// A script of so many commands, each of which deletes one vertex more.
fn deletions(alloc: Global, count: usize) -> Result<String, NoMemory> {
    let mut script = String::new(alloc);
    for v in 0..count {
        let line = format!(in alloc; "delete geom=v{v} context=verts\n")?;
        script.push_str(line.as_str())?;
    }
    Ok(script)
}

#[test]
fn many_commands_that_are_done(rt: HostRuntime) -> Result<(), Fail> {
    let model = repeated(rt.alloc(), "v 1 2 3\n", 40)?;
    let script = deletions(rt.alloc(), 40)?;
    let end = "end verts=0 edges=0 faces=0 corners=0 loose=0 refused=0 undo=40 redo=0\n";
    let ended = ends_long(rt.alloc(), model.as_str(), script.as_str(), end)?;
    assert_eq!(rt; ended, (0, 40, 0, true));
    Ok(())
}
