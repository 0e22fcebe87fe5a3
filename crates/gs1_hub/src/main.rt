//! The program: GS1 barcodes from the command line.
#![tactic(auto)]

ghost use Rattle.std.specs.Prelude.{◌≡◌, [], IfOk, IfSome, IsOk, OnOk, false};
ghost use Rattle.std.specs.Process.{exit_status};
ghost use Rattle.gs1_hub.specs.inner.Endings.{TookHelp, status_of, words_status};

mod help;
mod patient;
mod remedies;

use crate::help::write_help;
use crate::patient::Patient;
use crate::remedies::remedy;
use command_line::{Asked, LiveOptions, WholeInput, WordsFault, read_words, sentence};
use command_runs::{CommandFault, run_buffered, run_live};
use digits_core::{FromReader, Sink, Source, ToWriter};
use hub_core::OpenGate;
use std::env::{self, Env};
use std::io::{self, Input, IsTerminal};
use std::process::ExitCode;
use std::sync::Wait;
use std::thread::Threads;
use std::time::Clock;
use wire_core::Wired;

/// The exit status of a command that has run. It writes a refusal to standard error, at a terminal with what to do
/// about it.
fn finish(rt: &impl Eprint, ran: Result<(), CommandFault>, terminal: bool) -> io::Result<ExitCode>
    ensures status { IfOk result (λ code. exit_status code ≡ status_of ran) }
    ensures quiet { OnOk ran (IsOk result) }
{
    match ran {
        Ok(()) => Ok(ExitCode::SUCCESS),
        Err(fault) => {
            eprintln!(rt; "{fault}")?;
            if terminal && let Some(said) = remedy(fault.refusal().kind) {
                eprintln!(rt; "{said}")?;
            }
            Ok(ExitCode::from(1))
        }
    }
}

/// The exit status if the arguments ask for no command. Help goes to the sink. An error in the arguments, or of
/// writing the help, goes to standard error.
fn explain<W: Sink>(
    rt: &impl Eprint,
    fault: &WordsFault,
    sink: &mut W,
    terminal: bool,
) -> io::Result<ExitCode>
    ensures status { W.failed sink.old ≡ false
        → IfOk result (λ code. exit_status code ≡ words_status fault.now (W.failed sink.new)) }
    ensures took { W.failed sink.old ≡ false
        → TookHelp fault.now (W.failed sink.new) (W.taken sink.old) (W.taken sink.new) }
{
    match fault {
        WordsFault::Help(text) => finish(rt, write_help(text.as_str(), sink), terminal),
        WordsFault::Words => {
            eprintln!(rt; "{fault}")?;
            Ok(ExitCode::from(2))
        }
        WordsFault::NoMemory => finish(rt, Err(CommandFault::NoMemory), terminal),
    }
}

/// The arguments, beginning with the name of the program.
fn words_given<R: Env + AllocGlobal>(rt: &R) -> Result<Vec<String>, WordsFault> {
    match env::args(rt) {
        Ok(args) => match args.collect::<Vec<String>>(rt.alloc()) {
            Ok(words) => Ok(words),
            Err(_) => Err(WordsFault::NoMemory),
        },
        Err(error) if error.kind() == io::ErrorKind::OutOfMemory => Err(WordsFault::NoMemory),
        Err(_) => Err(WordsFault::Words),
    }
}

/// Runs a command over a whole source, with a buffer in front of the sink.
fn run_over<R: Threads + Wait + Sync + AllocGlobal, S: Source, W: Sink + Drop>(
    rt: &R,
    batch: WholeInput,
    source: &mut S,
    sink: W,
) -> Result<(), CommandFault>
    requires sound { W.failed sink ≡ false }
    requires fresh { IfSome (W.taken sink) (λ bytes. bytes ≡ []) }
{
    let (_, ran) = run_buffered(rt, rt.alloc(), batch, source, sink, &OpenGate);
    ran
}

/// Runs a command over all of standard input, with buffers for it and for standard output.
fn run_over_input<R: Threads + Wait + Sync + Clock + Input + Print + AllocGlobal>(
    rt: &R,
    batch: WholeInput,
) -> Result<(), CommandFault> {
    let Ok(reader) = io::BufReader::new(rt.alloc(), Patient::new(rt, rt.reader())) else {
        return Err(CommandFault::NoMemory);
    };
    let mut source = FromReader::new(reader);
    let sink = ToWriter::new(Patient::new(rt, io::writer(rt)));
    run_over(rt, batch, &mut source, sink)
}

/// Runs `live` on standard input and output without buffers, so that a read returns what is there and an answer goes
/// out at once.
fn run_as_input_comes<R: Threads + Wait + Sync + Clock + Input + Print + AllocGlobal>(
    rt: &R,
    options: LiveOptions,
) -> Result<(), CommandFault> {
    // In a box: the compiler takes minutes if a large reader moves with its wire.
    let Ok(reader) = Box::new(rt.alloc(), rt.reader()) else {
        return Err(CommandFault::NoMemory);
    };
    let source = FromReader::new(Patient::new(rt, reader));
    let wire = Wired::new(source, ToWriter::new(Patient::new(rt, io::writer(rt))));
    let (_, ended) = run_live(rt, rt.alloc(), options, wire, &OpenGate);
    ended
}

/// Runs the command that the arguments ask for. If they are wrong, a terminal gets what clap says about them after
/// the refusal.
fn answer_words<R: Threads + Wait + Sync + Clock + Input + Print + Eprint + AllocGlobal>(
    rt: &R,
    words: &[String],
    terminal: bool,
) -> io::Result<ExitCode> {
    match read_words(rt.alloc(), words).map(Asked::batch) {
        Ok(Ok(batch)) => finish(rt, run_over_input(rt, batch), terminal),
        Ok(Err(options)) => finish(rt, run_as_input_comes(rt, options), terminal),
        Err(fault) => {
            let status = explain(rt, &fault, &mut ToWriter::new(io::writer(rt)), terminal)?;
            if terminal && let Some(text) = sentence(rt.alloc(), words) {
                eprint!(rt; "{text}")?;
            }
            Ok(status)
        }
    }
}

fn main(rt: HostRuntime) -> io::Result<ExitCode> {
    let terminal = rt.stderr().is_terminal();
    match words_given(&rt) {
        Ok(words) => answer_words(&rt, words.as_slice(), terminal),
        Err(fault) => explain(&rt, &fault, &mut ToWriter::new(io::writer(&rt)), terminal),
    }
}
