//! The whole run.

ghost use Rattle.std.specs.Prelude.{◌≡◌, ◌≤◌, ◌⊎◌, [], true, None, Some, length, map, if◌then◌else◌};
ghost use Rattle.std.specs.String.{string_bytes};
ghost use Rattle.std.specs.List.{list_any};
ghost use Rattle.mesh_model.specs.Valid.{IsValid, IsSound};
ghost use Rattle.mesh_session.specs.State.{fresh_state, IsSoundState, CyclesHoldIn};
ghost use Rattle.byte_sink.specs.Wrote.{with_after};
ghost use Rattle.mesh_model.specs.Complex.{fixed_layers};
ghost use Rattle.obj_format.specs.Fixed.{BeginsFixed};
ghost use Rattle.script_text.specs.Layers.{AreDeclarable};
ghost use Rattle.bmesh_run.specs.Job.{out_starts};
ghost use Rattle.bmesh_run.specs.Run.{model_line, script_line, usage_line, replies_outcome, commands_outcome};
ghost use Rattle.bmesh_run.specs.Report.{report, is_refused};
ghost use Rattle.bmesh_run.specs.Whole.{PrintsPart};
ghost use Rattle.bmesh_run.specs.Ends.{is_answer, is_delivered, is_past_model, is_past_script, Ends, Caused, EndsBy};
ghost use Rattle.bmesh_run.specs.Ends.{IsOnTheWay, RefusesWords};
ghost use Rattle.bmesh_run.specs.Promise.{PrintsRefusal, named, modelled, RunsAs, IsRun};

use crate::commands::run_commands;
use crate::read::inputs::{read_model, read_script};
use crate::status::Status;
use crate::stop::Stop;
use crate::write::report::{report, some_refused};
use crate::write::whole_file::{print_all, write_file};
use command_line::{Job, JobFault, job_of};
use mesh_model::Draft;
use mesh_session::{Reply, Session};
use obj_text::ObjRefusal;
use script_text::{Script, ScriptRefusal};
use std::alloc::Global;
use worlds::{World, WorldFault};

// What is printed for words that are not accepted.
const USAGE: &str = "usage: bmesh MODEL SCRIPT OUT [--scale N]\n";

/// Runs a command line: reads the model and the script, declares its layers, gives its commands in order, writes the
/// last complex and prints the report, which has the sums of each declared layer.
///
/// `words` are those after the program's name, `MODEL SCRIPT OUT [--scale N]` as `command_line::job_of` reads
/// them, and the session is fresh. The words are judged first, then the model, and then the script: SCRIPT is
/// opened only where the model is accepted, and OUT only where the script is. The report is printed once OUT is
/// whole. Whatever the status, every disk, radial and loop cycle of the session's mesh visits exactly its members, each
/// once.
pub fn run<W: World>(
    alloc: Global,
    words: &[String],
    session: &mut Session,
    world: &mut W,
) -> Status
    requires { session.old.state ≡ fresh_state }
    ensures ran { IsRun (map string_bytes words.now) result session.new.state (W.told world.old) (W.told world.new) }
    ensures cycles { CyclesHoldIn session.new }
{
    let status = run_words(alloc, words, session, world);
    session.cycles_hold();
    status
}

// The same, without a word on cycles.
fn run_words<W: World>(
    alloc: Global,
    words: &[String],
    session: &mut Session,
    world: &mut W,
) -> Status
    requires { session.old.state ≡ fresh_state }
    ensures { IsRun (map string_bytes words.now) result session.new.state (W.told world.old) (W.told world.new) }
{
    match job_of(alloc, words) {
        Ok(job) => run_job(alloc, job, session, world),
        Err(JobFault::Refused) => refuse_words(world),
        Err(JobFault::NoMemory) => Status::NoMemory,
    }
}

// With accepted words: reads the model.
fn run_job<W: World>(alloc: Global, job: Job<'_>, session: &mut Session, world: &mut W) -> Status
    requires fresh { session.old.state ≡ fresh_state }
    requires scale { job.scale ≤ 6 }
    ensures runs { RunsAs
        (named (record {
          model = job.entry.model.now;
          script = job.entry.script.now;
          out = job.entry.out.now;
          scale = job.entry.scale;
        })) result session.new.state (W.told world.old) (W.told world.new) }
    ensures usage { RefusesWords (Some (record {
      model = job.entry.model.now;
      script = job.entry.script.now;
      out = job.entry.out.now;
      scale = job.entry.scale;
    })) result }
{
    match read_model(alloc, world, job.model, job.scale) {
        Ok(draft) => run_model(
            alloc, &draft, job.script, job.out, job.scale, session, world,
        ),
        Err(Stop::Refused(refusal)) => refuse_model(alloc, refusal, world),
        Err(Stop::Failed) => Status::InFault,
        Err(Stop::NoMemory) => Status::NoMemory,
    }
}

// With an accepted model: reads the script.
fn run_model<W: World>(
    alloc: Global,
    draft: &Draft,
    script: &str,
    out: &str,
    scale: u8,
    session: &mut Session,
    world: &mut W,
) -> Status
    requires fresh { session.old.state ≡ fresh_state }
    requires sound { IsSound draft.now }
    requires fixed { draft.now.layers ≡ fixed_layers }
    requires scale { scale ≤ 6 }
    ensures runs { RunsAs (modelled scale draft.now script.now out.now) result session.new.state (W.told world.old)
        (W.told world.new) }
    ensures accepted { is_past_model result ≡ true }
{
    match read_script(alloc, world, script) {
        Ok(script) => deliver(alloc, draft, &script, out, scale, session, world),
        Err(Stop::Refused(refusal)) => refuse_script(alloc, refusal, world),
        Err(Stop::Failed) => Status::InFault,
        Err(Stop::NoMemory) => Status::NoMemory,
    }
}

// With an accepted script: gives its commands in order, and writes what they make.
fn deliver<W: World>(
    alloc: Global,
    draft: &Draft,
    script: &Script,
    out: &str,
    scale: u8,
    session: &mut Session,
    world: &mut W,
) -> Status
    requires fresh { session.old.state ≡ fresh_state }
    requires sound { IsSound draft.now }
    requires fixed { draft.now.layers ≡ fixed_layers }
    requires layers { AreDeclarable script.now.layers }
    requires scale { scale ≤ 6 }
    ensures ends { Ends (commands_outcome scale draft.now script.now) out.now result session.new.state
        (W.told world.old)
        (W.told world.new) }
    ensures no_memory { result ≡ Status.NoMemory
        → (session.new.state ≡ fresh_state) ⊎ IsOnTheWay draft.now script.now session.new.state }
    ensures goes_on { is_past_script result ≡ true }
    ensures cause { Caused result (W.told world.old) (W.told world.new) }
    ensures by_status { EndsBy [] [] (out_starts out.now) result session.new.state (W.told world.old)
        (W.told world.new) }
    ensures rest { (W.told world.new).rest ≡ (W.told world.old).rest }
    ensures finished { is_delivered result ≡ true → (W.told world.new).begun ≡ None }
    ensures sound { IsSoundState session.new.state }
{
    let layers = script.layers.as_slice();
    let Ok(()) = session.load(draft, layers) else {
        return Status::NoMemory;
    };
    let commands = script.commands.as_slice();
    match run_commands(alloc, session, commands) {
        Ok(replies) => {
            let replies = replies.as_slice();
            conclude(alloc, session, script, replies, out, scale, world)
        }
        Err(_) => Status::NoMemory,
    }
}

// Writes the session's complex, and then prints the report.
fn conclude<W: World>(
    alloc: Global,
    session: &Session,
    script: &Script,
    replies: &[Reply],
    out: &str,
    scale: u8,
    world: &mut W,
) -> Status
    requires sound { IsSoundState session.now.state }
    requires fixed { BeginsFixed session.now.state.now }
    requires scale { scale ≤ 6 }
    requires long { length replies.now ≡ length script.now.commands }
    ensures ends { Ends
        (replies_outcome scale script.now.commands script.now.layers replies.now session.now.state) out.now result
        session.now.state (W.told world.old) (W.told world.new) }
    ensures goes_on { is_past_script result ≡ true }
    ensures cause { Caused result (W.told world.old) (W.told world.new) }
    ensures by_status { EndsBy [] [] (out_starts out.now) result session.now.state (W.told world.old)
        (W.told world.new) }
    ensures rest { (W.told world.new).rest ≡ (W.told world.old).rest }
    ensures finished { is_delivered result ≡ true → (W.told world.new).begun ≡ None }
{
    match write_file(alloc, world, out, session, scale) {
        Ok(()) => print_report(alloc, session, script, replies, world),
        Err(WorldFault::Failed) => Status::OutFault,
        Err(WorldFault::NoMemory) => Status::NoMemory,
    }
}

// Prints the report.
fn print_report<W: World>(
    alloc: Global,
    session: &Session,
    script: &Script,
    replies: &[Reply],
    world: &mut W,
) -> Status
    requires long { length replies.now ≡ length script.now.commands }
    requires valid { IsValid session.now.state.now }
    ensures status { is_answer result ≡ true
        → result ≡ (if list_any is_refused replies.now then Status.SomeRefused else Status.Done) }
    ensures all { is_answer result ≡ true
        → W.told world.new ≡ record (W.told world.old) {
          printed =
              with_after (W.told world.old).printed
              (report script.now.commands replies.now script.now.layers session.now.state);
        } }
    ensures part { PrintsPart (W.told world.old) (W.told world.new)
        (report script.now.commands replies.now script.now.layers session.now.state) }
    ensures goes_on { is_past_script result ≡ true }
    ensures cause { Caused result (W.told world.old) (W.told world.new) }
{
    let commands = script.commands.as_slice();
    let layers = script.layers.as_slice();
    let Ok(text) = report(alloc, commands, replies, layers, session) else {
        return Status::NoMemory;
    };
    match print_all(world, &text) {
        Ok(()) => status_of(replies),
        Err(WorldFault::Failed) => Status::OutFault,
        Err(WorldFault::NoMemory) => Status::NoMemory,
    }
}

// How a run ends whose commands have these replies.
fn status_of(replies: &[Reply]) -> Status
    ensures status { result ≡ (if list_any is_refused replies.now then Status.SomeRefused else Status.Done) }
    ensures goes_on { is_past_script result ≡ true }
{
    if some_refused(replies) {
        Status::SomeRefused
    } else {
        Status::Done
    }
}

// Prints the one line for words that are not accepted.
fn refuse_words<W: World>(world: &mut W) -> Status
    ensures { PrintsRefusal Status.Usage usage_line result (W.told world.old) (W.told world.new) }
{
    refuse(Status::Usage, USAGE.as_bytes(), world)
}

// Prints the one line for a model that is not accepted.
fn refuse_model<W: World>(alloc: Global, refusal: ObjRefusal, world: &mut W) -> Status
    ensures { PrintsRefusal (Status.ModelRefused refusal) (model_line refusal) result (W.told world.old)
        (W.told world.new) }
{
    let line = refusal.line;
    let why = refusal.why;
    let Ok(text) = format!(in alloc; "model line {line}: {why}\n") else {
        return Status::NoMemory;
    };
    refuse(Status::ModelRefused(refusal), text.as_bytes(), world)
}

// Prints the one line for a script that is not accepted.
fn refuse_script<W: World>(alloc: Global, refusal: ScriptRefusal, world: &mut W) -> Status
    ensures { PrintsRefusal (Status.ScriptRefused refusal) (script_line refusal) result (W.told world.old)
        (W.told world.new) }
{
    let line = refusal.line;
    let why = refusal.why;
    let Ok(text) = format!(in alloc; "script line {line}: {why}\n") else {
        return Status::NoMemory;
    };
    refuse(Status::ScriptRefused(refusal), text.as_bytes(), world)
}

// Prints the one line of a refusal.
fn refuse<W: World>(refusal: Status, line: &[u8], world: &mut W) -> Status
    ensures { PrintsRefusal refusal line.now result (W.told world.old) (W.told world.new) }
{
    match print_all(world, line) {
        Ok(()) => refusal,
        Err(WorldFault::Failed) => Status::OutFault,
        Err(WorldFault::NoMemory) => Status::NoMemory,
    }
}
