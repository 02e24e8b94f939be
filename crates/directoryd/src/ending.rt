// From the words of the command line to the end of the process. What they order is done and returns a
// status or a fault; a fault's line goes to the errors. `main` only passes on the process's own words and
// streams, so that all of this is in one contract.
ghost use Rattle.std.specs.Prelude.{◌≡◌, map, Result};
ghost use Rattle.textio.specs.declared.program_fault.ProgramFault.{ProgramFault};
ghost use Rattle.audits.specs.declared.judging.Verdict.{Verdict};
ghost use Rattle.audits.specs.Verdicts.{JudgesAt, TellsOfFile};
ghost use Rattle.directoryd.specs.Orders.{values_in};
ghost use Rattle.directoryd.specs.Programs.{verdict_outcome, with_zero, EndsAs, Obeys, RunsProgram, StartsProgram};

use crate::keyed::{ask_keyed, listen_keyed, serve_keyed};
use crate::order::{Order, order};
use crate::refusing::{refuse, refuse_bytes};
use crate::{audit, judge_at, play, prove, root};
use audits::JudgeOrder;
use nodehash::GroupSize;
use std::alloc::Global;
use std::convert::AsStr;
use std::fs::{File, Files};
use std::io::{self, BufRead, Write};
use std::net::{Net, TcpListener, TcpStream};
use std::time::Clock;
use textio::ProgramFault;

/// How the process ends.
#[derive(Clone, Copy)]
pub struct Ending {
    pub status: u8,
    /// Whether the line of a fault, where there is one, was written whole.
    pub is_told: bool,
}

/// Judges the file of an order, and answers the status of the verdict.
fn judge<F: Files, W: Write, E: Write>(
    alloc: Global,
    files: &F,
    order: JudgeOrder<'_>,
    writer: &mut W,
    errors: &mut E,
) -> Result<u8, ProgramFault>
    ensures { (verdict : Result Verdict ProgramFault) × (result ≡ verdict_outcome verdict)
        × JudgesAt order.entry.signing_key.now (W.contents writer.old) verdict (W.contents writer.new)
        × TellsOfFile order.entry.file.now verdict (E.contents errors.old) (E.contents errors.new) }
{
    match judge_at(alloc, files, order, writer, errors) {
        Ok(verdict) => Ok(verdict.status()),
        Err(fault) => Err(fault),
    }
}

/// Status 0, if a program that has no other came to its end.
fn done(outcome: Result<(), ProgramFault>) -> Result<u8, ProgramFault>
    ensures { result ≡ with_zero outcome }
{
    match outcome {
        Ok(()) => Ok(0),
        Err(fault) => Err(fault),
    }
}

/// Does what is ordered, and answers the status.
fn obey<N, R, W, E>(
    alloc: Global,
    system: &N,
    order: Order<'_>,
    reader: &mut R,
    writer: &mut W,
    errors: &mut E,
) -> Result<u8, ProgramFault>
where
    N: Net<Listener = TcpListener, Stream = TcpStream> + Clock + Files<File = File>,
    R: BufRead,
    W: Write,
    E: Write,
    ensures { Obeys N (values_in order.entry) (R.remaining reader.old) (W.contents writer.old) (W.contents writer.new)
        (E.contents errors.old) (E.contents errors.new) result }
{
    match order {
        Order::Root(order) => {
            let size = GroupSize::faster(system);
            done(root(alloc, order, size, reader, writer))
        }
        Order::Prove(order) => {
            let size = GroupSize::faster(system);
            done(prove(alloc, order, size, reader, writer))
        }
        Order::Audit(order) => done(audit(alloc, order, reader, writer)),
        Order::Judge(order) => judge(alloc, system, order, writer, errors),
        Order::Play => done(play(alloc, reader, writer)),
        Order::Serve(order, keys) => done(serve_keyed(
            alloc, system, order, keys, reader, writer, errors,
        )),
        Order::Listen(order, keys) => {
            done(listen_keyed(alloc, system, order, keys, reader, errors))
        }
        Order::Ask(order, texts) => ask_keyed(alloc, system, order, texts, reader, writer, errors),
    }
}

/// Does what the words order, or says why they order nothing.
fn run<N, S, R, W, E>(
    alloc: Global,
    system: &N,
    words: &[S],
    reader: &mut R,
    writer: &mut W,
    errors: &mut E,
) -> Result<u8, ProgramFault>
where
    N: Net<Listener = TcpListener, Stream = TcpStream> + Clock + Files<File = File>,
    S: AsStr,
    R: BufRead,
    W: Write,
    E: Write,
    ensures { RunsProgram N (map S.text words.now) (R.remaining reader.old) (W.contents writer.old) (W.contents writer.new)
        (E.contents errors.old) (E.contents errors.new) result }
{
    match order(alloc, words) {
        Ok(order) => obey(alloc, system, order, reader, writer, errors),
        Err(error) => refuse(alloc, &error, writer, errors),
    }
}

/// Does what the process's words order, if there are words and an input.
fn start<N, R, W, E>(
    alloc: Global,
    system: &N,
    words: &io::Result<Vec<String>>,
    reader: &mut io::Result<R>,
    writer: &mut W,
    errors: &mut E,
) -> Result<u8, ProgramFault>
where
    N: Net<Listener = TcpListener, Stream = TcpStream> + Clock + Files<File = File>,
    R: BufRead,
    W: Write,
    E: Write,
    ensures { StartsProgram N R.remaining words.now reader.old (W.contents writer.old) (W.contents writer.new)
        (E.contents errors.old) (E.contents errors.new) result }
{
    match words {
        Ok(words) => match reader {
            Ok(reader) => run(alloc, system, words.as_slice(), reader, writer, errors),
            // The buffer of the input is all that can fail.
            Err(_) => Err(ProgramFault::OutOfMemory),
        },
        Err(error) => refuse_bytes(error, errors),
    }
}

/// Writes the line of a fault, if there is one, and says how the process ends.
fn ended<E: Write>(outcome: Result<u8, ProgramFault>, errors: &mut E) -> Ending
    ensures { EndsAs outcome (E.contents errors.old) (E.contents errors.new) result }
{
    match outcome {
        Ok(status) => Ending {
            status,
            is_told: true,
        },
        Err(fault) => {
            let is_told = fault.tell(errors).is_ok();
            Ending {
                status: fault.status(),
                is_told,
            }
        }
    }
}

/// Does what the words order, from the input to the output, and says how the process ends: with the
/// status that the program returns; or with status 1 and the fault's line on the errors; or, if the
/// words order nothing, with clap's text: on the output with status 0 if they ask for help, else on the
/// errors with status 2.
pub fn end<N, R, W, E>(
    alloc: Global,
    system: &N,
    words: &io::Result<Vec<String>>,
    reader: &mut io::Result<R>,
    writer: &mut W,
    errors: &mut E,
) -> Ending
where
    N: Net<Listener = TcpListener, Stream = TcpStream> + Clock + Files<File = File>,
    R: BufRead,
    W: Write,
    E: Write,
    ensures { (outcome : _) × (errors_between : _)
        × StartsProgram N R.remaining words.now reader.old (W.contents writer.old) (W.contents writer.new)
        (E.contents errors.old) errors_between outcome
        × EndsAs outcome errors_between (E.contents errors.new) result }
{
    let outcome = start(alloc, system, words, reader, writer, errors);
    ended(outcome, errors)
}
