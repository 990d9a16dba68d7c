//! The program: it runs a script of commands over a Wavefront OBJ model.
#![tactic(auto)]

ghost use Rattle.std.specs.Prelude.{◌≡◌};

use bmesh_run::run;
use mesh_session::Session;
use std::io::ErrorKind;
use std::process::ExitCode;
use std::{env, io};
use worlds::HostWorld;

// Exits with the run's status, or with that of the fault where the words can't be got.
fn main(rt: HostRuntime) -> ExitCode {
    let alloc = rt.alloc();
    match words_of(&rt) {
        Ok(words) => {
            let mut session = Session::new(alloc);
            let mut world = HostWorld::new(rt);
            let status = run(alloc, &words, &mut session, &mut world);
            ExitCode::from(status.code())
        }
        Err(fault) => ExitCode::from(code_without_words(fault.kind())),
    }
}

// The exit status where the words can't be got: 7 for want of memory, and 8 for any other cause.
fn code_without_words(fault: ErrorKind) -> u8
    ensures memory { fault ≡ ErrorKind.OutOfMemory → result ≡ 7 }
    ensures other { (fault ≡ ErrorKind.OutOfMemory → ⊥) → result ≡ 8 }
{
    match fault {
        ErrorKind::OutOfMemory => 7,
        _ => 8,
    }
}

// The words after the program's name.
fn words_of(rt: &HostRuntime) -> io::Result<Vec<String>> {
    let mut words = Vec::new(rt.alloc());
    for word in env::args(rt)?.skip(1) {
        words.push(word)?;
    }
    Ok(words)
}
