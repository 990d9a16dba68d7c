//! The words of the command line.

ghost use Rattle.std.specs.Prelude.{◌≡◌, ◌≤◌, Some, None, Err, map, IfOk, false};
ghost use Rattle.std.specs.String.{string_bytes};
ghost use Rattle.clap.specs.Words.{app_of, found_of, kind_of, rule_of};
ghost use Rattle.command_line.specs.Job.{command, job_of, name, scale};
ghost use Rattle.command_line.specs.Found.{fault_of_kind, HasAll, IsFound, IsThere};

use clap::error::ErrorKind;
use clap::{Arg, ArgAction, ArgMatches, Command, Error};
use std::alloc::{AllocError, Global};

/// The names that the words of a command line give, and how many decimal places the grid has.
#[derive(Clone, Copy, Debug)]
pub struct Job<'a> {
    /// The model's file, or the name of a model that is made.
    pub model: &'a str,
    /// The script's file, or the name of the program's own script.
    pub script: &'a str,
    /// The file to write.
    pub out: &'a str,
    /// How many decimal places the grid has, 0 to 6.
    pub scale: u8,
}

/// Why words give no job.
#[derive(Clone, Copy, Debug, PartialEq, Eq)]
pub enum JobFault {
    /// `clap` refuses the words, or they ask for help.
    Refused,
    /// Memory ran out.
    NoMemory,
}

/// What the words after the program's name give: three names, and `--scale` with a number from 0 to 6, which
/// is 6 where it isn't given.
///
/// The option stands anywhere, as `--scale N` or `--scale=N`, and at most once. A name is any word that doesn't
/// begin with a dash, the empty one too, or a lone dash; after the word `--` it is any word.
///
/// # Errors
/// `Refused` exactly where `clap`'s own definition of this command refuses the words; a call for help is refused.
/// `NoMemory` where memory runs out.
///
/// Time proportional to the words' bytes.
pub fn job_of<'a>(alloc: Global, words: &'a [String]) -> Result<Job<'a>, JobFault>
    ensures told { IfOk result (λ j. job_of (map string_bytes words.entry.now) ≡ Some (record {
      model = j.model.now;
      script = j.script.now;
      out = j.out.now;
      scale = j.scale;
    })) }
    ensures there { IfOk result (λ j. IsThere j.model.now j.script.now j.out.now (map string_bytes words.entry.now)) }
    ensures within { IfOk result (λ j. j.scale ≤ 6) }
    ensures refused { result ≡ Err JobFault.Refused → job_of (map string_bytes words.entry.now) ≡ None }
{
    let command = match command(alloc) {
        Ok(command) => command,
        Err(_) => return Err(JobFault::NoMemory),
    };
    match command.try_get_matches_from(words) {
        Ok(matches) => Ok(job_from(&matches)),
        Err(error) => Err(fault_of(error)),
    }
}

// The command, as `clap` is told of it.
fn command<'a>(alloc: Global) -> Result<Command<'a>, AllocError>
    ensures { IfOk result (λ c. app_of c ≡ command) }
{
    let bare = Command::new(alloc, "bmesh").no_binary_name(true);
    let models = bare.arg(name(alloc, "MODEL"))?;
    let scripts = models.arg(name(alloc, "SCRIPT"))?;
    let outs = scripts.arg(name(alloc, "OUT"))?;
    outs.arg(scale(alloc))
}

// A name that must be given, by its place.
fn name<'a>(alloc: Global, id: &'a str) -> Arg<'a>
    ensures rule { rule_of result ≡ name id.entry.now }
    ensures local { result.global ≡ false }
{
    Arg::new(alloc, id).required(true).action(ArgAction::Set)
}

// The option for the scale.
fn scale<'a>(alloc: Global) -> Arg<'a>
    ensures rule { rule_of result ≡ scale }
    ensures local { result.global ≡ false }
{
    Arg::new(alloc, "scale")
        .long("scale")
        .action(ArgAction::Set)
        .value_parser(clap::value_parser!(u8).range(0..=6))
        .default_value("6")
}

// What is left of an error of `clap`.
fn fault_of(error: Error) -> JobFault
    ensures { result ≡ fault_of_kind (kind_of error) }
{
    match error.kind() {
        ErrorKind::OutOfMemory => JobFault::NoMemory,
        _ => JobFault::Refused,
    }
}

// The job of what `clap` found.
fn job_from<'a>(matches: &ArgMatches<'a>) -> Job<'a>
    requires { HasAll (found_of matches.now) }
    ensures found { IsFound result.model.now result.script.now result.out.now result.scale (found_of matches.now) }
    ensures within { result.scale ≤ 6 }
{
    let model = matches.get_str("MODEL").unwrap();
    let script = matches.get_str("SCRIPT").unwrap();
    let out = matches.get_str("OUT").unwrap();
    let scale = matches.get_one::<u8>("scale").unwrap();
    Job {
        model,
        script,
        out,
        scale,
    }
}
