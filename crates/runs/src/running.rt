// A run of questions over a connection. Contracts do not know what a socket or a file has.
ghost use Rattle.std.specs.Prelude.{◌≡◌, ◌⊎◌, ◌↔◌, ◌++◌, ℕ, List, Err, IfErr, IfOk, IfSome, None, Some, MatchResult, Ok};
ghost use Rattle.std.specs.Io.KnownBytes.{Appends, Keeps};
ghost use Rattle.textio.specs.Output.{WritesSome};
ghost use Rattle.textio.specs.declared.program_fault.ProgramFault.TheVariants.{BadHex};
ghost use Rattle.runs.specs.AskOptions.{ask_keys_of, ask_values};
ghost use Rattle.runs.specs.Ending.{AsksAs, AsksOverSocket, FailsAs, FailsLate, FailsOverSocket, IsNewFor, IsUnknown, RunsAs, TellsFault};
ghost use Rattle.runs.specs.Lateness.{stale_line, IsSameLimit};
ghost use Rattle.asking.specs.Exchanges.{ExchangesFrames};
ghost use Rattle.runs.specs.Marking.{LeavesMarked};
ghost use Rattle.runs.specs.RunFaults.{AsksInput, IsRunFault};
ghost use Rattle.runs.specs.Runs.{lines_asked, Grows};
ghost use Rattle.runs.specs.Saves.{Act, LeavesTold};
ghost use Rattle.runs.specs.declared.run.RunEnd.TheVariants.{Whole, Unwritten, Stale};

use crate::connecting::Connection;
use crate::keeper::Keeper;
use crate::lateness::write_stale;
use crate::run::{Run, RunEnd};
use crate::settling::{name_to_settle, settle_over};
use crate::state_files::StateFiles;
use crate::{AskKeys, AskOrder};
use asking::Checks;
use encoding::Hash32;
use nodehash::NodeHash;
use sigiface::Verifier;
use std::alloc::Global;
use std::fs::{File, Files};
use std::io::{BufRead, Read, Write};
use std::net::{Net, TcpListener, TcpStream};
use std::time::Clock;
use textio::{ProgramFault, hex32_or_zeros, option_hex32};
use vrfiface::VufCheck;

/// The words for a directory that does not answer.
const NO_REPLY: &[u8] = b"no reply\n";

/// Those for one to which no connection comes about.
const NO_CONNECTION: &[u8] = b"cannot connect\n";

/// Asks what the words of an order ask, or the lines of the input, over a connection to its address, and
/// writes the line of each answer. The words of refusals go to the errors. Words that settle a name ask nothing. Returns
/// the status: 3 if evidence or an alarm is told, also one of an earlier run, or the last epoch is not as late as it is
/// wanted; else 1 if the directory or the client refused, no reply came, or too many roots are new; else 0.
///
/// # Errors
///
/// `BadHex`, before all else, if a text of the order is not 64 hexadecimal digits; `NotACommand` at the first
/// line that is no command, or that says something to a session; `BadItem` at a line of the state that is not as a run
/// wrote it; `CannotRead`; `CannotWrite`; `OutOfMemory`.
pub fn ask<'a, N, R, W, E>(
    alloc: Global,
    system: &'a N,
    order: AskOrder<'a>,
    reader: &mut R,
    writer: &mut W,
    errors: &mut E,
) -> Result<u8, ProgramFault>
where
    N: Net<Listener = TcpListener, Stream = TcpStream> + Clock + Files<File = File>,
    R: BufRead,
    W: Write,
    E: Write,
    ensures bad_hex { (result ≡ Err BadHex) ↔ (ask_keys_of (ask_values order.entry) ≡ None) }
    ensures silent { result ≡ Err BadHex → Keeps (W.contents writer.old) (W.contents writer.new) × Keeps (E.contents errors.old) (E.contents errors.new) }
    ensures unread { (result ≡ Err BadHex) ⊎ (¬ AsksInput (ask_values order.entry).words) → reader.new ≡ reader.old }
    ensures faults { IfErr result (λ fault. (fault ≡ BadHex) ⊎ IsRunFault (ask_values order.entry) (R.remaining reader.old) fault) }
    ensures grows { Grows (W.contents writer.old) (W.contents writer.new) }
    ensures runs { IfOk result (λ status. AsksOverSocket N (ask_values order.entry) (R.remaining reader.old) status (W.contents writer.old) (W.contents writer.new)) }
    ensures fails { IfErr result (λ fault. FailsOverSocket N (ask_values order.entry) (R.remaining reader.old) fault (W.contents writer.old) (W.contents writer.new)) }
{
    match keys_of(&order) {
        Ok(keys) => ask_under(alloc, system, keys, order, reader, writer, errors),
        Err(fault) => Err(fault),
    }
}

/// The provider's public key and the operator's token.
fn keys_of(order: &AskOrder<'_>) -> Result<AskKeys, ProgramFault>
    ensures { MatchResult result (λ keys. ask_keys_of (ask_values order.now) ≡ Some (keys.signing_key, keys.token))
        (λ fault. (fault ≡ BadHex) × (ask_keys_of (ask_values order.now) ≡ None)) }
{
    let signing_key = option_hex32(order.signing_key)?;
    let token = hex32_or_zeros(order.token)?;
    Ok(AskKeys {
        signing_key: Hash32::new(signing_key),
        token: Hash32::new(token),
    })
}

/// Settles a name, or asks, under these keys.
fn ask_under<'a, N, R, W, E>(
    alloc: Global,
    system: &'a N,
    keys: AskKeys,
    order: AskOrder<'a>,
    reader: &mut R,
    writer: &mut W,
    errors: &mut E,
) -> Result<u8, ProgramFault>
where
    N: Net<Listener = TcpListener, Stream = TcpStream> + Clock + Files<File = File>,
    R: BufRead,
    W: Write,
    E: Write,
    ensures faults { IfErr result (IsRunFault (ask_values order.entry) (R.remaining reader.old)) }
    ensures unread { ¬ AsksInput (ask_values order.entry).words → reader.new ≡ reader.old }
    ensures grows { Grows (W.contents writer.old) (W.contents writer.new) }
    ensures runs { ask_keys_of (ask_values order.entry) ≡ Some (keys.signing_key, keys.token)
        → IfOk result (λ status. AsksOverSocket N (ask_values order.entry) (R.remaining reader.old) status (W.contents writer.old) (W.contents writer.new)) }
    ensures fails { ask_keys_of (ask_values order.entry) ≡ Some (keys.signing_key, keys.token)
        → IfErr result (λ fault. FailsOverSocket N (ask_values order.entry) (R.remaining reader.old) fault (W.contents writer.old) (W.contents writer.new)) }
{
    if let Some(name) = name_to_settle(alloc, &order)? {
        let mut keeper = StateFiles::new(alloc, system, order.state.unwrap_or(""))?;
        let checks = Checks::keyed(keys.signing_key);
        return settle_over(alloc, &mut keeper, checks, &keys, &name, writer, errors);
    }
    ask_connected(alloc, system, keys, order, reader, writer, errors)
}

/// Connects, and asks under these keys.
fn ask_connected<'a, N, R, W, E>(
    alloc: Global,
    system: &'a N,
    keys: AskKeys,
    order: AskOrder<'a>,
    reader: &mut R,
    writer: &mut W,
    errors: &mut E,
) -> Result<u8, ProgramFault>
where
    N: Net<Listener = TcpListener, Stream = TcpStream> + Clock + Files<File = File>,
    R: BufRead,
    W: Write,
    E: Write,
    ensures faults { IfErr result (IsRunFault (ask_values order.entry) (R.remaining reader.old)) }
    ensures unread { ¬ AsksInput (ask_values order.entry).words → reader.new ≡ reader.old }
    ensures grows { Grows (W.contents writer.old) (W.contents writer.new) }
    ensures runs { ask_keys_of (ask_values order.entry) ≡ Some (keys.signing_key, keys.token)
        → IfOk result (λ status. AsksOverSocket N (ask_values order.entry) (R.remaining reader.old) status (W.contents writer.old) (W.contents writer.new)) }
    ensures fails { ask_keys_of (ask_values order.entry) ≡ Some (keys.signing_key, keys.token)
        → IfErr result (λ fault. FailsOverSocket N (ask_values order.entry) (R.remaining reader.old) fault (W.contents writer.old) (W.contents writer.new)) }
{
    let mut connection = Connection::to(alloc, system, &order);
    let silence = if connection.is_there() {
        NO_REPLY
    } else {
        NO_CONNECTION
    };
    let mut keeper = StateFiles::new(alloc, system, order.state.unwrap_or(""))?;
    let mut run = Run::of(alloc, &order, silence)?;
    let ended = ask_in(
        &mut run,
        &mut keeper,
        &mut connection,
        Checks::keyed(keys.signing_key),
        keys,
        order,
        reader,
        writer,
        errors,
    )?;
    Ok(ended.status())
}

/// Asks what the words of an order ask, or the lines of the input, over a stream to a directory, and writes the
/// line of each answer. The words of refusals go to the errors. Where the order has a state, the keeper keeps it. Returns
/// how the run ended, with the status of `ask`.
///
/// # Errors
///
/// Those of `ask`, but `BadHex`.
pub fn ask_over<'a, K, T, R, W, E, H, V, S>(
    alloc: Global,
    keeper: &mut K,
    stream: &mut T,
    checks: Checks<H, V, S>,
    keys: AskKeys,
    order: AskOrder<'a>,
    reader: &mut R,
    writer: &mut W,
    errors: &mut E,
) -> Result<RunEnd, ProgramFault>
where
    K: Keeper,
    T: Read + Write,
    R: BufRead,
    W: Write,
    E: Write,
    H: NodeHash + Drop,
    V: VufCheck + Drop,
    S: Verifier + Drop,
    ensures runs { IfOk result (λ ended. RunsAs H.digest_of V.accepted S.verified (ExchangesFrames T.contents T.remaining) keys.signing_key keys.token (ask_values order.entry)
        (order.entry.state ≡ None) stream.old stream.new (R.remaining reader.old) ended (W.contents writer.old) (W.contents writer.new)) }
    ensures fails { IfErr result (λ fault. FailsAs H.digest_of V.accepted S.verified (ExchangesFrames T.contents T.remaining) keys.signing_key keys.token (ask_values order.entry)
        (order.entry.state ≡ None) stream.old (R.remaining reader.old) fault (W.contents writer.old) (W.contents writer.new)) }
    ensures keeps { (old : List ℕ) (acts : List Act) → W.contents writer.old ≡ Some old → K.has keeper.old acts
        → LeavesTold H.digest_of V.accepted S.verified (lines_asked (ask_values order.entry).words (R.remaining reader.old)) None keys.signing_key old (λ done. K.has keeper.new (done ++ acts)) }
    ensures marks { (status : ℕ) → result ≡ Ok (Whole status) → (old : List ℕ) (acts : List Act) → W.contents writer.old ≡ Some old → K.has keeper.old acts
        → LeavesMarked H.digest_of V.accepted S.verified (ExchangesFrames T.contents T.remaining) keys.signing_key keys.token (ask_values order.entry) (order.entry.state ≡ None) stream.old stream.new (R.remaining reader.old) status
        (W.contents writer.old) (W.contents writer.new) old (λ done. K.has keeper.new (done ++ acts)) }
    ensures faults { IfErr result (IsRunFault (ask_values order.entry) (R.remaining reader.old)) }
    ensures unread { ¬ AsksInput (ask_values order.entry).words → reader.new ≡ reader.old }
    ensures grows { Grows (W.contents writer.old) (W.contents writer.new) }
{
    let mut run = Run::of(alloc, &order, NO_REPLY)?;
    ask_in(
        &mut run, keeper, stream, checks, keys, order, reader, writer, errors,
    )
}

/// Asks what an order asks in a run that begins, and tells behind all else if its last epoch is not as late as it is wanted.
fn ask_in<K, T, R, W, E, H, V, S>(
    run: &mut Run,
    keeper: &mut K,
    stream: &mut T,
    checks: Checks<H, V, S>,
    keys: AskKeys,
    order: AskOrder<'_>,
    reader: &mut R,
    writer: &mut W,
    errors: &mut E,
) -> Result<RunEnd, ProgramFault>
where
    K: Keeper,
    T: Read + Write,
    R: BufRead,
    W: Write,
    E: Write,
    H: NodeHash + Drop,
    V: VufCheck + Drop,
    S: Verifier + Drop,
    ensures runs { IsNewFor (ask_values order.entry) run.old → IfOk result (λ ended. RunsAs H.digest_of V.accepted S.verified (ExchangesFrames T.contents T.remaining) keys.signing_key keys.token (ask_values order.entry)
        (order.entry.state ≡ None) stream.old stream.new (R.remaining reader.old) ended (W.contents writer.old) (W.contents writer.new)) }
    ensures fails { IsNewFor (ask_values order.entry) run.old → IfErr result (λ fault. FailsAs H.digest_of V.accepted S.verified (ExchangesFrames T.contents T.remaining) keys.signing_key keys.token (ask_values order.entry)
        (order.entry.state ≡ None) stream.old (R.remaining reader.old) fault (W.contents writer.old) (W.contents writer.new)) }
    ensures keeps { IsNewFor (ask_values order.entry) run.old → (old : List ℕ) (acts : List Act) → W.contents writer.old ≡ Some old → K.has keeper.old acts
        → LeavesTold H.digest_of V.accepted S.verified (lines_asked (ask_values order.entry).words (R.remaining reader.old)) None keys.signing_key old (λ done. K.has keeper.new (done ++ acts)) }
    ensures marks { IsNewFor (ask_values order.entry) run.old → (status : ℕ) → result ≡ Ok (Whole status) → (old : List ℕ) (acts : List Act) → W.contents writer.old ≡ Some old → K.has keeper.old acts
        → LeavesMarked H.digest_of V.accepted S.verified (ExchangesFrames T.contents T.remaining) keys.signing_key keys.token (ask_values order.entry) (order.entry.state ≡ None) stream.old stream.new (R.remaining reader.old) status
        (W.contents writer.old) (W.contents writer.new) old (λ done. K.has keeper.new (done ++ acts)) }
    ensures faults { IsNewFor (ask_values order.entry) run.old → IfErr result (IsRunFault (ask_values order.entry) (R.remaining reader.old)) }
    ensures unread { ¬ AsksInput (ask_values order.entry).words → reader.new ≡ reader.old }
    ensures grows { Grows (W.contents writer.old) (W.contents writer.new) }
{
    let ended = ask_to_end(
        run, keeper, stream, checks, keys, order, reader, writer, errors,
    );
    tell_late(ended, run.stale(), writer, errors)
}

/// Asks what an order asks in a run that begins.
fn ask_to_end<K, T, R, W, E, H, V, S>(
    run: &mut Run,
    keeper: &mut K,
    stream: &mut T,
    checks: Checks<H, V, S>,
    keys: AskKeys,
    order: AskOrder<'_>,
    reader: &mut R,
    writer: &mut W,
    errors: &mut E,
) -> Result<RunEnd, ProgramFault>
where
    K: Keeper,
    T: Read + Write,
    R: BufRead,
    W: Write,
    E: Write,
    H: NodeHash + Drop,
    V: VufCheck + Drop,
    S: Verifier + Drop,
    ensures runs { IsNewFor (ask_values order.entry) run.old → IfOk result (λ ended. AsksAs H.digest_of V.accepted S.verified (ExchangesFrames T.contents T.remaining) keys.signing_key keys.token (ask_values order.entry)
        (order.entry.state ≡ None) stream.old stream.new (R.remaining reader.old) (λ after last. (run.new).limit.last ≡ Some last) ended (W.contents writer.old) (W.contents writer.new)) }
    ensures fails { IsNewFor (ask_values order.entry) run.old → IfErr result (λ fault. FailsLate H.digest_of V.accepted S.verified (ExchangesFrames T.contents T.remaining) keys.signing_key keys.token (ask_values order.entry)
        (order.entry.state ≡ None) stream.old (R.remaining reader.old) (λ after last. (run.new).limit.last ≡ Some last) (IsUnknown (order.entry.state ≡ None) fault × ((run.new).limit.last ≡ None)) fault (W.contents writer.old) (W.contents writer.new)) }
    ensures keeps { IsNewFor (ask_values order.entry) run.old → (old : List ℕ) (acts : List Act) → W.contents writer.old ≡ Some old → K.has keeper.old acts
        → LeavesTold H.digest_of V.accepted S.verified (lines_asked (ask_values order.entry).words (R.remaining reader.old)) None keys.signing_key old (λ done. K.has keeper.new (done ++ acts)) }
    ensures marks { IsNewFor (ask_values order.entry) run.old → (status : ℕ) → result ≡ Ok (Whole status) → (old : List ℕ) (acts : List Act) → W.contents writer.old ≡ Some old → K.has keeper.old acts
        → LeavesMarked H.digest_of V.accepted S.verified (ExchangesFrames T.contents T.remaining) keys.signing_key keys.token (ask_values order.entry) (order.entry.state ≡ None) stream.old stream.new (R.remaining reader.old) status
        (W.contents writer.old) (W.contents writer.new) old (λ done. K.has keeper.new (done ++ acts)) }
    ensures faults { IsNewFor (ask_values order.entry) run.old → IfErr result (IsRunFault (ask_values order.entry) (R.remaining reader.old)) }
    ensures unread { ¬ AsksInput (ask_values order.entry).words → reader.new ≡ reader.old }
    ensures grows { Grows (W.contents writer.old) (W.contents writer.new) }
    ensures limit { IsSameLimit (run.old).limit (run.new).limit }
{
    let outcome = run.ask(keeper, stream, checks, &keys, order, reader, writer, errors);
    keeper.tell_unsaved(errors);
    run.end(outcome, writer, errors)
}

/// The end of a run. If the last epoch is not as late as it is wanted, this is told; a fault of such a run is told before, and is
/// not returned.
fn tell_late<W: Write, E: Write>(
    ended: Result<RunEnd, ProgramFault>,
    stale: Option<u64>,
    writer: &mut W,
    errors: &mut E,
) -> Result<RunEnd, ProgramFault>
    ensures late { stale ≡ None → (result ≡ ended) × (writer.new ≡ writer.old) × (errors.new ≡ errors.old) }
    ensures stale { IfSome stale (λ epoch. ((result ≡ Ok (Stale epoch)) × Appends (W.contents writer.old) (W.contents writer.new) (stale_line epoch))
        ⊎ ((result ≡ Ok Unwritten) × WritesSome (W.contents writer.old) (W.contents writer.new) (stale_line epoch))) }
    ensures err { IfErr result (λ fault. ended ≡ Err fault) }
    ensures tells { (epoch : ℕ) → result ≡ Ok (Stale epoch) → TellsFault ended (E.contents errors.old) (E.contents errors.new) }
    ensures grows { Grows (W.contents writer.old) (W.contents writer.new) }
{
    let Some(epoch) = stale else {
        return ended;
    };
    if let Err(fault) = ended {
        let _told = fault.tell(errors);
    }
    match write_stale(writer, epoch) {
        Ok(()) => Ok(RunEnd::Stale(epoch)),
        Err(fault) => {
            let _told = fault.tell(errors);
            Ok(RunEnd::Unwritten)
        }
    }
}
