//! How a run ends.

use obj_text::ObjRefusal;
use script_text::ScriptRefusal;

/// How a run ended.
#[derive(Clone, Copy, Debug, PartialEq, Eq)]
pub enum Status {
    /// Each command was done.
    Done,
    /// At least one command was refused. The file and the report are written all the same.
    SomeRefused,
    /// The words of the command line are not accepted.
    Usage,
    /// The model is not accepted.
    ModelRefused(ObjRefusal),
    /// The script is not accepted.
    ScriptRefused(ScriptRefusal),
    /// A file could not be read.
    InFault,
    /// The file or the report could not be written.
    OutFault,
    /// Memory ran out.
    NoMemory,
}

impl Status {
    ghost use Rattle.std.specs.Prelude.{◌≡◌};
    ghost use Rattle.bmesh_run.specs.Ends.{code_of};

    /// The exit status of the program.
    pub fn code(self) -> u8
        ensures { result ≡ code_of self }
    {
        match self {
            Status::Done => 0,
            Status::SomeRefused => 1,
            Status::Usage => 2,
            Status::ModelRefused(_) => 3,
            Status::ScriptRefused(_) => 4,
            Status::InFault => 5,
            Status::OutFault => 6,
            Status::NoMemory => 7,
        }
    }
}
