//! The box as a program: the words that it is called with, and what is said of what ended it.

ghost use Rattle.std.specs.Prelude.{◌≡◌, IfErr};
ghost use Rattle.std.specs.Process.{exit_status};
ghost use Rattle.end.specs.Ends.{head_of};
ghost use Rattle.heads.specs.Any.{kind_of};
ghost use Rattle.serial.specs.Program.{MadeFor, OfWords, ProgramRan, Told, answer as answered};
ghost use Rattle.serial.specs.Turns.{end_of};

use crate::arguments::{Arguments, ArgumentsError};
use crate::outside::Outside;
use crate::port::Port;
use crate::silence::Finish;
use heads::AnyHead;
use std::env::Env;
use std::process::ExitCode;
use std::{env, io};
use thiserror::Error;

/// How to call the program.
const USAGE: &str = "\
usage: r3 HEAD [TICK_MS [QUIET]]
  HEAD     block, dome or stalled (a dome that is stalled)
  TICK_MS  how long a tick is, in milliseconds: 1 to 60000, or 20 if it is left out
  QUIET    after how many quiet reads in a row to end; never, if it is left out";

/// Why it ends with status 1.
#[derive(Debug, Drop, Error)]
pub enum Failure {
    #[error("{0}\n{usage}", usage = USAGE)]
    Arguments(#[from] ArgumentsError),
    #[error(transparent)]
    Io(#[from] io::Error),
    #[error("the line has gone: reads end at once, with nothing read")]
    LineGone,
}

// The words behind the program's name, read as arguments.
fn words_read<R: Env + AllocGlobal>(rt: &R) -> io::Result<Result<Arguments, ArgumentsError>> {
    let heap = rt.alloc();
    let words: Vec<String> = env::args(rt)?.skip(1).collect(heap)?;
    let texts: Vec<&str> = words.iter().map(|word| word.as_str()).collect(heap)?;
    Ok(Arguments::parse(texts.as_slice()))
}

fn arguments<R: Env + AllocGlobal>(rt: &R) -> Result<Arguments, Failure>
    ensures { IfErr result OfWords }
{
    match words_read(rt) {
        Ok(arguments) => arguments.map_err(Failure::Arguments),
        Err(error) => Err(Failure::Io(error)),
    }
}

// A box over one of our heads, whichever it is: a type with no parameters, which statements can name.
#[derive(Drop)]
struct AnyBox {
    port: Port<AnyHead>,
}

// The box that they ask for.
fn box_for(arguments: Arguments) -> AnyBox
    ensures made { MadeFor arguments result.port }
    ensures kind { kind_of (head_of (end_of result.port)) ≡ arguments.head }
{
    let head = AnyHead::new(arguments.head);
    AnyBox {
        port: Port::new(head, arguments.tick, arguments.quiet),
    }
}

fn answer(served: io::Result<Finish>) -> Result<(), Failure>
    ensures { result ≡ answered served }
{
    match served {
        Ok(Finish::Quiet) => Ok(()),
        Ok(Finish::Gone) => Err(Failure::LineGone),
        Err(error) => Err(Failure::Io(error)),
    }
}

/// Serves with a box as the words of the program say, until the line is quiet or something fails.
pub fn run<R: Env + AllocGlobal, O: Outside>(rt: &R, outside: &mut O) -> Result<(), Failure>
    ensures { ProgramRan O.operated outside.old result outside.new }
{
    let arguments = arguments(rt)?;
    answer(box_for(arguments).port.serve(outside))
}

/// Runs it, tells a failure on the standard error, and gives the status: 1 for a failure, 0 else.
pub fn run_and_tell<R: Env + AllocGlobal + Eprint, O: Outside>(rt: &R, outside: &mut O) -> ExitCode
    ensures { Told O.operated outside.old (exit_status result) outside.new }
{
    match run(rt, outside) {
        Ok(()) => ExitCode::SUCCESS,
        Err(failure) => {
            // Where even that cannot be written, the status tells.
            let _ = eprintln!(rt; "r3: {failure}");
            ExitCode::FAILURE
        }
    }
}
