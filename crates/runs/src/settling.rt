// The command that settles the alarms of a name: they are dropped from what is remembered, and nothing is asked.
ghost use Rattle.std.specs.Prelude.{◌≡◌, ◌++◌, ◌<◌, ◌≤◌, Err, List, ℕ, IfErr, IfOk, MatchOption, OnErr, OnOk, Option, Some};
ghost use Rattle.std.specs.Io.KnownBytes.{Appends};
ghost use Rattle.memory.specs.Memories.{Memory};
ghost use Rattle.textio.specs.Output.{WritesSome};
ghost use Rattle.runs.specs.AskOptions.{ask_values};
ghost use Rattle.asking.specs.Recalled.{evidence_again};
ghost use Rattle.asking.specs.Reports.{report_of};
ghost use Rattle.runs.specs.RunFaults.{IsFaultOfState};
ghost use Rattle.runs.specs.Runs.{emptied, Grows};
ghost use Rattle.runs.specs.Saves.{Act, LeavesTold};
ghost use Rattle.runs.specs.Settling.{settled_line, settled_text, IsSettling, Settles, SettlesPart};
ghost use Rattle.runs.specs.Standing.{IsFresh};
ghost use Rattle.asking.specs.declared.said.TheConstants.{CAUGHT};

use crate::keeper::Keeper;
use crate::lateness::Limit;
use crate::run::Run;
use crate::{AskKeys, AskOrder};
use asking::{CAUGHT, Checks, Said};
use encoding::Name;
use hex::FromHexError;
use nodehash::NodeHash;
use play::{push_hex, push_number};
use sigiface::Verifier;
use std::alloc::{AllocError, Global};
use std::io::Write;
use textio::ProgramFault;
use vrfiface::VufCheck;

/// The name that an order settles, if it settles one.
pub(crate) fn name_to_settle(
    alloc: Global,
    order: &AskOrder<'_>,
) -> Result<Option<Name>, AllocError>
    ensures { IfOk result (λ found. MatchOption found ((name : List ℕ) → ¬ IsSettling (ask_values order.now) name) (IsSettling (ask_values order.now))) }
{
    let (Some(command), Some(digits), None, None) = (
        order.command,
        order.first,
        order.second,
        order.third,
    ) else {
        return Ok(None);
    };
    if command != "settle" || order.state.is_none() {
        return Ok(None);
    }
    match hex::decode(alloc, digits.as_bytes()) {
        Ok(bytes) => match Name::new(&bytes) {
            Ok(name) => Ok(Some(name)),
            Err(_) => Ok(None),
        },
        Err(FromHexError::OutOfMemory) => Err(AllocError),
        Err(_) => Ok(None),
    }
}

/// Settles the alarms of a name in what a keeper keeps, and tells how many there were, behind evidence of earlier runs.
/// Returns the status. Behind evidence a fault is told, and is no error.
///
/// # Errors
///
/// Those of a state that cannot be read or written; `OutOfMemory`.
pub fn settle_over<K, W, E, H, V, S>(
    alloc: Global,
    keeper: &mut K,
    checks: Checks<H, V, S>,
    keys: &AskKeys,
    name: &Name,
    writer: &mut W,
    errors: &mut E,
) -> Result<u8, ProgramFault>
where
    K: Keeper,
    W: Write,
    E: Write,
    H: NodeHash + Drop,
    V: VufCheck + Drop,
    S: Verifier + Drop,
    ensures settles { IfOk result (λ status. Settles name.now status (W.contents writer.old) (W.contents writer.new)) }
    ensures part { OnErr result (SettlesPart name.now (W.contents writer.old) (W.contents writer.new)) }
    ensures err { IfErr result IsFaultOfState }
    ensures keeps { (lines : Option (List (List ℕ))) (old : List ℕ) (acts : List Act) → W.contents writer.old ≡ Some old → K.has keeper.old acts
        → LeavesTold H.digest_of V.accepted S.verified lines (Some name.now) keys.now.signing_key old (λ done. K.has keeper.new (done ++ acts)) }
    ensures grows { Grows (W.contents writer.old) (W.contents writer.new) }
{
    let mut run = Run::new(alloc, true, Limit::none(), b"");
    let settled = settle_in(&mut run, keeper, checks, keys, name, writer, errors);
    end_settled(settled, run.status(), errors)
}

/// Settles the alarms of a name in a run, and writes what is told.
fn settle_in<K, W, E, H, V, S>(
    run: &mut Run,
    keeper: &mut K,
    checks: Checks<H, V, S>,
    keys: &AskKeys,
    name: &Name,
    writer: &mut W,
    errors: &mut E,
) -> Result<(), ProgramFault>
where
    K: Keeper,
    W: Write,
    E: Write,
    H: NodeHash + Drop,
    V: VufCheck + Drop,
    S: Verifier + Drop,
    ensures settles { OnOk result (report_of (run.old).said ≡ emptied 0 → (known : Memory) × (count : ℕ)
        × ((run.new).said.status ≡ (evidence_again known).status) × Appends (W.contents writer.old) (W.contents writer.new) (settled_text known name.now count)) }
    ensures part { OnErr result (report_of (run.old).said ≡ emptied 0 → (known : Memory) × (count : ℕ)
        × ((run.new).said.status ≡ (evidence_again known).status) × WritesSome (W.contents writer.old) (W.contents writer.new) (settled_text known name.now count)) }
    ensures err { IfErr result IsFaultOfState }
    ensures kept { IsFresh (run.old).state → (lines : Option (List (List ℕ))) (old : List ℕ) (acts : List Act) → W.contents writer.old ≡ Some old → K.has keeper.old acts
        → LeavesTold H.digest_of V.accepted S.verified lines (Some name.now) keys.now.signing_key old (λ done. K.has keeper.new (done ++ acts)) }
    ensures grows { Grows (W.contents writer.old) (W.contents writer.new) }
{
    let settled = run.settle_alarms(keeper, checks, keys, name, writer);
    keeper.tell_unsaved(errors);
    let written = run.write(writer, errors);
    settled?;
    written?;
    Ok(())
}

/// The status of an order that settles a name, or its fault. That of evidence stays, even if a fault follows.
fn end_settled<E: Write>(
    settled: Result<(), ProgramFault>,
    status: u8,
    errors: &mut E,
) -> Result<u8, ProgramFault>
    ensures ok { IfOk result (λ given. (given ≡ status) × (OnErr settled (CAUGHT ≤ status))) }
    ensures err { IfErr result (λ fault. (settled ≡ Err fault) × (status < CAUGHT)) }
{
    match settled {
        Err(fault) if status < CAUGHT => Err(fault),
        Err(fault) => {
            let _told = fault.tell(errors);
            Ok(status)
        }
        Ok(()) => Ok(status),
    }
}

/// Tells how many alarms of a name were dropped, whole or not at all.
pub(crate) fn tell_settled(
    alloc: Global,
    name: &Name,
    count: usize,
    said: &mut Said,
) -> Result<(), AllocError>
    ensures tells { OnOk result ((said.new.text.items ≡ said.old.text.items ++ settled_line name.now count) × (said.new.status ≡ said.old.status)) }
    ensures untold { OnErr result (report_of said.new ≡ report_of said.old) }
{
    let mut line = Vec::from_slice(alloc, b"settled ")?;
    push_hex(&mut line, name.bytes())?;
    line.push(b' ')?;
    push_number(&mut line, count as u64)?;
    line.push(b'\n')?;
    said.text.extend_from_slice(&line)
}
