// A run: each line of the input is asked, what is told of it is written, and the state is kept.
ghost use Rattle.std.specs.Prelude.{◌≡◌, ◌≢◌, ◌⊎◌, ◌↔◌, ◌<◌, ◌≤◌, ◌++◌, List, ℕ, [], false, true, Err, IfErr, IfOk, IfSome, IsTrue, None, Ok, OnErr, OnOk, Option, Some, option_map, ⊤};
ghost use Rattle.std.specs.Io.KnownBytes.{Appends};
ghost use Rattle.textio.specs.Lines.{lines_of};
ghost use Rattle.textio.specs.Output.{WritesSome};
ghost use Rattle.textio.specs.declared.program_fault.ProgramFault.{ProgramFault};
ghost use Rattle.textio.specs.declared.program_fault.ProgramFault.TheVariants.{CannotWrite, NotACommand, OutOfMemory};
ghost use Rattle.play.specs.Scripts.{ask_seen, line_of, Ask as Asked};
ghost use Rattle.runs.specs.AskOptions.{ask_values};
ghost use Rattle.asking.specs.FinalBindings.{IsKnownIn};
ghost use Rattle.asking.specs.Asking.{HearsHead};
ghost use Rattle.asking.specs.Catching.{CatchesSome, StopsBelow};
ghost use Rattle.runs.specs.Ending.{AdvancesPart, AsksPart, AsksSomeLine, BeginsNone, DoesSome, end_status, EndsEarly, EndsWith, FailsWith, HoldsBack, IsNewFor, LoadsNone, LooksSome, NotesFirst, PreparesSome, RunsLate};
ghost use Rattle.asking.specs.Exchanges.{ExchangesFrames, HoldsFrame};
ghost use Rattle.asking.specs.Following.{IsBelow, StopsList};
ghost use Rattle.runs.specs.Lateness.{Finds, HasNoted, HasNotedAs, IsLast, IsLimitOf, IsSameLimit};
ghost use Rattle.runs.specs.Keeping.{AddsTo, IsKeptUp, IsSettled, IsStillKept, KeepsUp, SavesTo};
ghost use Rattle.runs.specs.Marking.{IsUnlooked, LeavesMarked, MarksOn, RunsMarked};
ghost use Rattle.asking.specs.Recalled.{evidence_again};
ghost use Rattle.asking.specs.Reports.{report_of, told_after, Report};
ghost use Rattle.runs.specs.RunFaults.{AsksInput, CannotBeAsked, IsFaultOfSaving, IsFaultOfState, IsFaultWith, IsFirstUnasked, StopsOr};
ghost use Rattle.runs.specs.Runs.{AdvancesOnce, AsksLine, AsksLines, BeginsAsking, CatchesUpBy, DoesLine, emptied, Grows, IsSoundFor, KeepsAll, new_background, background_of, lines_asked, Prepares, with_word, words_line, Writes};
ghost use Rattle.asking.specs.declared.ask_fault.AskFault.{AskFault};
ghost use Rattle.asking.specs.declared.ask_fault.AskFault.TheVariants.{OutOfMemory as NoMemory, Stopped};
ghost use Rattle.runs.specs.declared.run_fault.RunFault.TheVariants.{Ask as OfQuestion, Program};
ghost use Rattle.runs.specs.declared.run.RunEnd.TheVariants.{Whole};
ghost use Rattle.asking.specs.declared.said.TheConstants.{CAUGHT};
ghost use Rattle.asking.specs.Scenes.{scene, Scene, StartsAtHead};
ghost use Rattle.runs.specs.Saves.{Act, Found, IsSaid, LeavesTold};
ghost use Rattle.runs.specs.Settling.{settled_text};
ghost use Rattle.runs.specs.Standing.{standing, AreNew, AsksAmong, DropsAlarms, Fits, HasBegun, HasFailed, HasLoaded, HasNoChanges, IsFresh, IsLeft, IsUpTo, LeavesState, RunStands, SettlesState, StateIsKept, StateIsSaved, StateStands};
ghost use Rattle.memory.specs.Memories.{Memory};
ghost use Rattle.asking.specs.Visiting.{TestsAll};
ghost use Rattle.wire.specs.Frames.{Frame};

use crate::keeper::Keeper;
use crate::lateness::Limit;
use crate::run_fault::RunFault;
use crate::settling::tell_settled;
use crate::state::{State, copies_of};
use crate::{AskKeys, AskOrder};
use asking::{AskFault, Asker, CAUGHT, Checks, MAX_LISTS, REFUSED, Reply, Said};
use encoding::Name;
use memory::Memory;
use nodehash::NodeHash;
use play::{Ask, Line, next_line, push_number, read_line};
use rootchain::SignedPromise;
use sigiface::Verifier;
use std::alloc::{AllocError, Global};
use std::io::{BufRead, Read, Write};
use textio::{ProgramFault, write_text};
use vrfiface::VufCheck;

/// How a run ended, with its status: 3 if evidence or an alarm is told, also one of an earlier run, or the last epoch is not
/// as late as it is wanted; else 1 if the directory or the client refused, or it did not come to all; else 0.
#[derive(Clone, Copy, Debug, PartialEq, Eq)]
pub enum RunEnd {
    /// All was asked.
    Whole(u8),
    /// No reply came, new roots were refused or too many, or a fault followed evidence or an alarm. The status is 1, or 3
    /// after evidence or an alarm.
    Stopped(u8),
    /// A write failed, and evidence or an alarm had been found, or a last epoch that is not late enough, of which perhaps not
    /// all is told. The status is 3.
    Unwritten,
    /// The last epoch is this one, which is not as late as it is wanted. This is told behind all else. The status is 3.
    Stale(u64),
}

impl RunEnd {
    /// The status of the program.
    pub fn status(self) -> u8
        ensures { result ≡ end_status self }
    {
        match self {
            RunEnd::Whole(status) | RunEnd::Stopped(status) => status,
            RunEnd::Unwritten | RunEnd::Stale(_) => CAUGHT,
        }
    }
}

/// What a run works with: the state, if it has one, and what is said.
#[derive(Drop)]
pub(crate) struct Run {
    alloc: Global,
    state: Option<State>,
    said: Said,
    /// What its last epoch has to be above.
    limit: Limit,
    /// The words for a directory that does not answer.
    silence: &'static [u8],
}

/// The line of the words.
pub(crate) fn line_of_words(alloc: Global, order: AskOrder<'_>) -> Result<Vec<u8>, AllocError>
    ensures { IfOk result (λ line. line.items ≡ words_line (ask_values order.entry).words) }
{
    let mut line = Vec::new(alloc);
    push_word(&mut line, order.command)?;
    push_word(&mut line, order.first)?;
    push_word(&mut line, order.second)?;
    push_word(&mut line, order.third)?;
    Ok(line)
}

/// Appends a word, if there is one, behind a space if it is not the first.
fn push_word(line: &mut Vec<u8>, word: Option<&str>) -> Result<(), AllocError>
    ensures { OnOk result (line.new.items ≡ with_word line.old.items (option_map (λ text. text.now) word.entry)) }
{
    let Some(word) = word else {
        return Ok(());
    };
    if !line.is_empty() {
        line.extend_from_slice(b" ")?;
    }
    line.extend_from_slice(word.as_bytes())
}

impl Run {
    /// A run that has a state, or none, with a limit, and with the words for a directory that does not answer.
    pub(crate) fn new(alloc: Global, has_state: bool, limit: Limit, silence: &'static [u8]) -> Self
        ensures none { has_state ≡ false → result.state ≡ None }
        ensures some { result.state ≡ None → has_state ≡ false }
        ensures fresh { IsFresh result.state }
        ensures looks { IsUnlooked result.state }
        ensures said { report_of result.said ≡ emptied 0 }
        ensures limit { result.limit ≡ limit }
    {
        let state = if has_state {
            Some(State::new(alloc))
        } else {
            None
        };
        Run {
            alloc,
            state,
            said: Said::new(alloc),
            limit,
            silence,
        }
    }

    /// The run of an order.
    pub(crate) fn of(
        alloc: Global,
        order: &AskOrder<'_>,
        silence: &'static [u8],
    ) -> Result<Self, AllocError>
        ensures { IfOk result (IsNewFor (ask_values order.now)) }
    {
        let limit = Limit::of(alloc, order)?;
        Ok(Run::new(alloc, order.state.is_some(), limit, silence))
    }

    /// The last epoch, if it is not as late as it is wanted.
    pub(crate) fn stale(&self) -> Option<u64>
        ensures { Finds (self.now).limit result }
    {
        self.limit.stale()
    }

    /// Ends a run with its status. That of evidence or an alarm stays, even if a fault follows.
    pub(crate) fn end<W: Write, E: Write>(
        &mut self,
        outcome: Result<(), RunFault>,
        writer: &mut W,
        errors: &mut E,
    ) -> Result<RunEnd, ProgramFault>
        ensures ok { OnOk outcome ((result ≡ Ok (Whole (self.old).said.status)) × (writer.new ≡ writer.old)) }
        ensures stopped { OnErr outcome (IfOk result (EndsWith (outcome ≡ Err (Program CannotWrite)) (self.old).said (W.contents writer.old) (W.contents writer.new))) }
        ensures failed { OnErr outcome (IfErr result (FailsWith (outcome ≡ Err (Program CannotWrite)) (self.old).said (W.contents writer.old) (W.contents writer.new))) }
        ensures gives { IfErr result (λ given. IsFaultOfSaving given ⊎ (outcome ≡ Err (Program given))) }
        ensures fails { (fault : ProgramFault) → outcome ≡ Err (Program fault) → (self.old).said.status < CAUGHT → IfOk result (λ ended. ⊥) }
        ensures grows { Grows (W.contents writer.old) (W.contents writer.new) }
        ensures limit { (self.new).limit ≡ (self.old).limit }
    {
        let fault = match outcome {
            Ok(()) => return Ok(RunEnd::Whole(self.said.status)),
            Err(fault) => fault,
        };
        match self.conclude(fault, writer, errors) {
            Err(fault) if self.said.status < CAUGHT => Err(fault),
            Err(fault) => {
                let _told = fault.tell(errors);
                match fault {
                    ProgramFault::CannotWrite => Ok(RunEnd::Unwritten),
                    _ => Ok(RunEnd::Stopped(CAUGHT)),
                }
            }
            Ok(()) if self.said.status < CAUGHT => Ok(RunEnd::Stopped(REFUSED)),
            Ok(()) => Ok(RunEnd::Stopped(CAUGHT)),
        }
    }

    /// Writes what was said before a fault stopped the run. Returns the fault, if it is one of the program.
    fn conclude<W: Write, E: Write>(
        &mut self,
        fault: RunFault,
        writer: &mut W,
        errors: &mut E,
    ) -> Result<(), ProgramFault>
        ensures status { (self.new).said.status ≡ (self.old).said.status }
        ensures some { WritesSome (W.contents writer.old) (W.contents writer.new) (self.old).said.text.items }
        ensures written { OnOk result ((fault ≢ Program CannotWrite) × Appends (W.contents writer.old) (W.contents writer.new) (self.old).said.text.items) }
        ensures unwritten { IfErr result (λ given. ((fault ≢ Program CannotWrite) × Appends (W.contents writer.old) (W.contents writer.new) (self.old).said.text.items) ⊎ (given ≡ CannotWrite)) }
        ensures gives { IfErr result (λ given. IsFaultOfSaving given ⊎ (fault ≡ Program given)) }
        ensures fails { OnOk result ((given : ProgramFault) → fault ≢ Program given) }
        ensures grows { Grows (W.contents writer.old) (W.contents writer.new) }
        ensures limit { (self.new).limit ≡ (self.old).limit }
    {
        match fault {
            RunFault::Program(fault) => {
                self.write(writer, errors)?;
                Err(fault)
            }
            RunFault::Ask(AskFault::OutOfMemory) => {
                self.write(writer, errors)?;
                Err(ProgramFault::OutOfMemory)
            }
            RunFault::Ask(AskFault::Stopped) => self.write(writer, errors),
            RunFault::Ask(AskFault::NoReply) => {
                // What was told is written even if memory runs out here.
                let noted = self.said.words.extend_from_slice(self.silence);
                self.write(writer, errors)?;
                noted?;
                Ok(())
            }
        }
    }

    /// Asks what an order asks, and leaves the files of the state without lines that no longer hold.
    pub(crate) fn ask<K, T, R, W, E, H, V, S>(
        &mut self,
        keeper: &mut K,
        stream: &mut T,
        checks: Checks<H, V, S>,
        keys: &AskKeys,
        order: AskOrder<'_>,
        reader: &mut R,
        writer: &mut W,
        errors: &mut E,
    ) -> Result<(), RunFault>
    where
        K: Keeper,
        T: Read + Write,
        R: BufRead,
        W: Write,
        E: Write,
        H: NodeHash + Drop,
        V: VufCheck + Drop,
        S: Verifier + Drop,
        ensures runs { OnOk result (report_of (self.old).said ≡ emptied 0 → IsLimitOf (ask_values order.entry) (self.old).limit → RunsLate H.digest_of V.accepted S.verified (ExchangesFrames T.contents T.remaining) keys.now.signing_key keys.now.token (ask_values order.entry)
            ((self.old).state ≡ None) stream.old stream.new (R.remaining reader.old) (λ after last. (self.new).limit.last ≡ Some last) (self.new).said.status (W.contents writer.old) (W.contents writer.new)) }
        ensures faults { IfErr result (StopsOr (IsFaultWith (¬ ((self.old).state ≡ None)) (AsksInput (ask_values order.entry).words)
            (λ number. IfSome (lines_asked (ask_values order.entry).words (R.remaining reader.old)) (λ lines. IsFirstUnasked 1 lines number)))) }
        ensures part { OnErr result (report_of (self.old).said ≡ emptied 0 → IsLimitOf (ask_values order.entry) (self.old).limit → EndsEarly H.digest_of V.accepted S.verified (ExchangesFrames T.contents T.remaining) keys.now.signing_key keys.now.token (ask_values order.entry)
            ((self.old).state ≡ None) stream.old (R.remaining reader.old) (W.contents writer.old) (λ after last. (self.new).limit.last ≡ Some last)
            (LoadsNone ((self.old).state ≡ None) result (self.old).limit (self.new).limit (self.new).said.status) (HoldsBack (result ≡ Err (Program CannotWrite)) (W.contents writer.new) (self.new).said)) }
        ensures kept { IsFresh (self.old).state → (old : List ℕ) (acts : List Act) → W.contents writer.old ≡ Some old → K.has keeper.old acts
            → LeavesTold H.digest_of V.accepted S.verified (lines_asked (ask_values order.entry).words (R.remaining reader.old)) None keys.now.signing_key old (λ done. K.has keeper.new (done ++ acts)) }
        ensures marks { OnOk result (IsFresh (self.old).state → IsUnlooked (self.old).state → report_of (self.old).said ≡ emptied 0 → (old : List ℕ) (acts : List Act) → W.contents writer.old ≡ Some old → K.has keeper.old acts
            → LeavesMarked H.digest_of V.accepted S.verified (ExchangesFrames T.contents T.remaining) keys.now.signing_key keys.now.token (ask_values order.entry) ((self.old).state ≡ None) stream.old stream.new (R.remaining reader.old) (self.new).said.status
            (W.contents writer.old) (W.contents writer.new) old (λ done. K.has keeper.new (done ++ acts))) }
        ensures unread { ¬ AsksInput (ask_values order.entry).words → reader.new ≡ reader.old }
        ensures grows { Grows (W.contents writer.old) (W.contents writer.new) }
        ensures rises { (self.old).said.status ≤ (self.new).said.status }
        ensures limit { IsSameLimit (self.old).limit (self.new).limit }
    {
        let mut still_kept = None;
        let asked = self.ask_all(
            &mut still_kept,
            keeper,
            stream,
            checks,
            keys,
            order,
            reader,
            writer,
            errors,
        );
        self.leave(asked, still_kept, keeper, writer)
    }

    /// Begins with the chain of the state, or with the directory's head, and asks what an order asks. Notes which promises
    /// the client still keeps.
    fn ask_all<K, T, R, W, E, H, V, S>(
        &mut self,
        still_kept: &mut Option<Vec<SignedPromise>>,
        keeper: &mut K,
        stream: &mut T,
        checks: Checks<H, V, S>,
        keys: &AskKeys,
        order: AskOrder<'_>,
        reader: &mut R,
        writer: &mut W,
        errors: &mut E,
    ) -> Result<(), RunFault>
    where
        K: Keeper,
        T: Read + Write,
        R: BufRead,
        W: Write,
        E: Write,
        H: NodeHash + Drop,
        V: VufCheck + Drop,
        S: Verifier + Drop,
        ensures runs { OnOk result (report_of (self.old).said ≡ emptied 0 → IsLimitOf (ask_values order.entry) (self.old).limit → RunsLate H.digest_of V.accepted S.verified (ExchangesFrames T.contents T.remaining) keys.now.signing_key keys.now.token (ask_values order.entry)
            ((self.old).state ≡ None) stream.old stream.new (R.remaining reader.old) (λ after last. (self.new).limit.last ≡ Some last) (self.new).said.status (W.contents writer.old) (W.contents writer.new)) }
        ensures faults { IfErr result (StopsOr (IsFaultWith (¬ ((self.old).state ≡ None)) (AsksInput (ask_values order.entry).words)
            (λ number. IfSome (lines_asked (ask_values order.entry).words (R.remaining reader.old)) (λ lines. IsFirstUnasked 1 lines number)))) }
        ensures part { report_of (self.old).said ≡ emptied 0 → IsLimitOf (ask_values order.entry) (self.old).limit → EndsEarly H.digest_of V.accepted S.verified (ExchangesFrames T.contents T.remaining) keys.now.signing_key keys.now.token (ask_values order.entry)
            ((self.old).state ≡ None) stream.old (R.remaining reader.old) (W.contents writer.old) (λ after last. (self.new).limit.last ≡ Some last)
            (LoadsNone ((self.old).state ≡ None) result (self.old).limit (self.new).limit (self.new).said.status) (HoldsBack (result ≡ Err (Program CannotWrite)) (W.contents writer.new) (self.new).said) }
        ensures kept { IsFresh (self.old).state → (old : List ℕ) (acts : List Act) → W.contents writer.old ≡ Some old → K.has keeper.old acts
            → IsLeft H.digest_of V.accepted S.verified (lines_asked (ask_values order.entry).words (R.remaining reader.old)) keys.now.signing_key old (λ done. K.has keeper.new (done ++ acts)) (self.new).state (W.contents writer.new) }
        ensures marks { OnOk result (IsFresh (self.old).state → IsUnlooked (self.old).state → report_of (self.old).said ≡ emptied 0 → (old : List ℕ) (acts : List Act) → W.contents writer.old ≡ Some old → K.has keeper.old acts
            → RunsMarked H.digest_of V.accepted S.verified (ExchangesFrames T.contents T.remaining) keys.now.signing_key keys.now.token (ask_values order.entry) ((self.old).state ≡ None) stream.old stream.new (R.remaining reader.old) (self.new).said.status
            (W.contents writer.old) (W.contents writer.new) old (λ done. K.has keeper.new (done ++ acts)) (self.new).state) }
        ensures unread { ¬ AsksInput (ask_values order.entry).words → reader.new ≡ reader.old }
        ensures grows { Grows (W.contents writer.old) (W.contents writer.new) }
        ensures rises { (self.old).said.status ≤ (self.new).said.status }
        ensures limit { IsSameLimit (self.old).limit (self.new).limit }
    {
        let mut asker = self.begin(keeper, stream, checks, keys)?;
        self.prepare(&mut asker, still_kept, keeper, stream, writer, errors)?;
        match order.command {
            Some(_) => {
                let line = line_of_words(self.alloc, order)?;
                let asked = self.ask_line(&mut asker, keeper, stream, &line, 1, writer, errors);
                self.note_kept(&asker, asked, still_kept)
            }
            None => {
                let asked = self.ask_lines(&mut asker, keeper, stream, reader, writer, errors);
                self.note_kept(&asker, asked, still_kept)
            }
        }
    }

    /// Notes which promises the client still keeps: those that it dropped were tested. Where a write failed or memory ran out,
    /// nothing is noted: the root under which one was found kept may not be in the state. Returns what came of the questions.
    fn note_kept<H, V, S>(
        &self,
        asker: &Asker<H, V, S>,
        asked: Result<(), RunFault>,
        still_kept: &mut Option<Vec<SignedPromise>>,
    ) -> Result<(), RunFault>
    where
        H: NodeHash + Drop,
        V: VufCheck + Drop,
        S: Verifier + Drop,
        ensures same { result ≡ asked }
        ensures kept { IsStillKept (self.now).state asker.now.client.promises asked (option_map (λ copies. copies.items) still_kept.new) }
    {
        *still_kept = match &self.state {
            Some(_) if is_kept_up(&asked) => { copies_of(self.alloc, asker.client.promises()).ok() }
            _ => None,
        };
        asked
    }

    /// Notes the same where a fault stopped the questions. Else it is noted behind what is asked next.
    fn note_stopped<H, V, S>(
        &self,
        asker: &Asker<H, V, S>,
        asked: Result<(), RunFault>,
        still_kept: &mut Option<Vec<SignedPromise>>,
    ) -> Result<(), RunFault>
    where
        H: NodeHash + Drop,
        V: VufCheck + Drop,
        S: Verifier + Drop,
        ensures same { result ≡ asked }
    {
        if asked.is_ok() {
            return asked;
        }
        self.note_kept(asker, asked, still_kept)
    }

    /// Leaves the files of the state without lines that no longer hold. Returns what came of the questions, or the fault
    /// of this if all was asked: after another fault the files have at least what they are to have.
    fn leave<K: Keeper, W: Write>(
        &mut self,
        asked: Result<(), RunFault>,
        still_kept: Option<Vec<SignedPromise>>,
        keeper: &mut K,
        writer: &W,
    ) -> Result<(), RunFault>
        ensures ok { OnOk result (asked ≡ Ok tt) }
        ensures err { IfErr result (λ fault. (asked ≡ Err fault) ⊎ ((asked ≡ Ok tt) × StopsOr IsFaultOfSaving fault)) }
        ensures said { (self.new).said ≡ (self.old).said }
        ensures hands { (acts : List Act) → K.has keeper.old acts → LeavesState (K.has keeper.new) acts (self.old).state (W.contents writer.now) }
        ensures limit { (self.new).limit ≡ (self.old).limit }
    {
        let Some(state) = self.state.as_mut() else {
            return asked;
        };
        let written = state.finish(still_kept, keeper, writer);
        asked?;
        written?;
        Ok(())
    }

    /// What asks: with the chain of the state, or else from the directory's head on.
    fn begin<K, T, H, V, S>(
        &mut self,
        keeper: &mut K,
        stream: &mut T,
        checks: Checks<H, V, S>,
        keys: &AskKeys,
    ) -> Result<Asker<H, V, S>, RunFault>
    where
        K: Keeper,
        T: Read + Write,
        H: NodeHash + Drop,
        V: VufCheck + Drop,
        S: Verifier + Drop,
        ensures begins { IfOk result (λ asker. BeginsAsking H.digest_of V.accepted S.verified (ExchangesFrames T.contents T.remaining) keys.now.signing_key keys.now.token ((self.old).state ≡ None)
            stream.old (background_of asker) asker.client stream.new) }
        ensures knows { IfOk result (λ asker. (asker.key ≡ keys.now.signing_key) × (asker.token ≡ keys.now.token) × (asker.monitors.items ≡ [])) }
        ensures finals { IfOk result (λ asker. IsKnownIn asker.known asker.finals) }
        ensures said { IfOk result (λ asker. report_of (self.new).said ≡ told_after (report_of (self.old).said) (evidence_again asker.known)) }
        ensures none { OnErr result (BeginsNone S.verified (ExchangesFrames T.contents T.remaining) keys.now.signing_key stream.old (report_of (self.old).said) (report_of (self.new).said)) }
        ensures faults { IfErr result (StopsOr (λ fault. ((¬ ((self.old).state ≡ None)) × IsFaultOfState fault) ⊎ (fault ≡ OutOfMemory))) }
        ensures stands { IfOk result (λ asker. IsFresh (self.old).state → (lines : Option (List (List ℕ))) (old : List ℕ) (acts : List Act) → K.has keeper.old acts
            → (start : Found) × RunStands H.digest_of V.accepted S.verified lines start old (λ done. K.has keeper.new (done ++ acts)) asker (self.new).said.text.items (self.new).state (Some old)) }
        ensures left { OnErr result (IsFresh (self.old).state → (lines : Option (List (List ℕ))) (old : List ℕ) (acts : List Act) → K.has keeper.old acts
            → IsLeft H.digest_of V.accepted S.verified lines keys.now.signing_key old (λ done. K.has keeper.new (done ++ acts)) (self.new).state (Some old)) }
        ensures looks { IsUnlooked (self.old).state → IsUnlooked (self.new).state }
        ensures still { ((self.new).state ≡ None) ↔ ((self.old).state ≡ None) }
        ensures rises { (self.old).said.status ≤ (self.new).said.status }
        ensures limit { IsSameLimit (self.old).limit (self.new).limit }
        ensures notes { IfOk result (λ asker. HasNoted asker (self.new).limit) }
        ensures first { OnErr result (report_of (self.old).said ≡ emptied 0 → NotesFirst H.digest_of V.accepted S.verified keys.now.signing_key ((self.old).state ≡ None) result (self.old).limit (self.new).limit (self.new).said.status) }
    {
        match self.load(keeper, checks, keys)? {
            Ok(asker) => {
                self.limit.note(&asker);
                self.tell_evidence(&asker.known)?;
                Ok(asker)
            }
            Err(unused) => self.begin_at_head(stream, unused, keys),
        }
    }

    /// Tells the evidence of earlier runs again, whole or not at all.
    fn tell_evidence(&mut self, known: &Memory) -> Result<(), AllocError>
        ensures tells { OnOk result (report_of (self.new).said ≡ told_after (report_of (self.old).said) (evidence_again known.now)) }
        ensures untold { OnErr result (report_of (self.new).said ≡ report_of (self.old).said) }
        ensures still { (self.new).state ≡ (self.old).state }
        ensures limit { (self.new).limit ≡ (self.old).limit }
    {
        let now = evidence_said(self.alloc, known)?;
        self.said.join(now)
    }

    /// What asks with the chain of the state, or gives back the checks if there is none yet.
    fn load<K, H, V, S>(
        &mut self,
        keeper: &mut K,
        checks: Checks<H, V, S>,
        keys: &AskKeys,
    ) -> Result<Result<Asker<H, V, S>, Checks<H, V, S>>, ProgramFault>
    where
        K: Keeper,
        H: NodeHash + Drop,
        V: VufCheck + Drop,
        S: Verifier + Drop,
        ensures none { (self.old).state ≡ None → result ≡ Ok (Err checks) }
        ensures knows { IfOk result (λ loaded. IfOk loaded (λ asker. (asker.key ≡ keys.now.signing_key) × (asker.token ≡ keys.now.token) × (asker.monitors.items ≡ []))) }
        ensures sound { IfOk result (λ loaded. IfOk loaded (λ asker. IsSoundFor H.digest_of V.accepted S.verified keys.now.signing_key asker.client)) }
        ensures kept { IfOk result (λ loaded. IfOk loaded (λ asker. KeepsAll asker.client asker.earlier.items)) }
        ensures finals { IfOk result (λ loaded. IfOk loaded (λ asker. IsKnownIn asker.known asker.finals)) }
        ensures loads { IfOk result (λ loaded. IfOk loaded (λ asker. HasLoaded (K.has keeper.old) (K.has keeper.new) asker (self.new).state)) }
        ensures fresh { IfOk result (λ loaded. IfErr loaded (λ unused. HasBegun (K.has keeper.old) (K.has keeper.new) (self.old).state (self.new).state)) }
        ensures fails { OnErr result (HasFailed (K.has keeper.old) (K.has keeper.new) (self.old).state (self.new).state) }
        ensures looks { IsUnlooked (self.old).state → IsUnlooked (self.new).state }
        ensures counts { IsFresh (self.old).state → HasNoChanges (self.new).state }
        ensures err { IfErr result IsFaultOfState }
        ensures still { ((self.new).state ≡ None) ↔ ((self.old).state ≡ None) }
        ensures said { report_of (self.new).said ≡ report_of (self.old).said }
        ensures limit { (self.new).limit ≡ (self.old).limit }
    {
        match self.state.as_mut() {
            Some(state) => state.load(keeper, checks, keys.signing_key, keys.token, &mut self.said),
            None => Ok(Err(checks)),
        }
    }

    /// What asks from the directory's head on. If there is a state, this is said.
    fn begin_at_head<T, H, V, S>(
        &mut self,
        stream: &mut T,
        checks: Checks<H, V, S>,
        keys: &AskKeys,
    ) -> Result<Asker<H, V, S>, RunFault>
    where
        T: Read + Write,
        H: NodeHash + Drop,
        V: VufCheck + Drop,
        S: Verifier + Drop,
        ensures begins { IfOk result (λ asker. StartsAtHead S.verified (ExchangesFrames T.contents T.remaining) keys.now.signing_key stream.old asker.client stream.new) }
        ensures knows { IfOk result (λ asker. (background_of asker ≡ new_background keys.now.signing_key keys.now.token) × (asker.monitors.items ≡ [])) }
        ensures changes { IfOk result (λ asker. asker.changes.items ≡ []) }
        ensures finals { IfOk result (λ asker. IsKnownIn asker.known asker.finals) }
        ensures said { IfOk result (λ asker. report_of (self.new).said ≡ report_of (self.old).said) }
        ensures none { OnErr result (BeginsNone S.verified (ExchangesFrames T.contents T.remaining) keys.now.signing_key stream.old (report_of (self.old).said) (report_of (self.new).said)) }
        ensures faults { IfErr result (StopsOr (λ fault. fault ≡ OutOfMemory)) }
        ensures still { (self.new).state ≡ (self.old).state }
        ensures rises { (self.old).said.status ≤ (self.new).said.status }
        ensures limit { IsSameLimit (self.old).limit (self.new).limit }
        ensures notes { IfOk result (λ asker. HasNoted asker (self.new).limit) }
        ensures first { OnErr result ((self.new).limit.last ≡ Some 0) }
    {
        self.limit.begin();
        let said = &mut self.said;
        let asker = Asker::start_at_head(
            self.alloc,
            stream,
            checks,
            keys.signing_key,
            keys.token,
            said,
        )?;
        if self.state.is_some() {
            tell_epoch(b"state: begins at epoch ", asker.head(), said)?;
        }
        self.limit.note(&asker);
        Ok(asker)
    }

    /// Lets the client take the roots that are new, and tests the promises that are due. Where a fault stops it, notes which the
    /// client still keeps.
    fn prepare<K, T, W, E, H, V, S>(
        &mut self,
        asker: &mut Asker<H, V, S>,
        still_kept: &mut Option<Vec<SignedPromise>>,
        keeper: &mut K,
        stream: &mut T,
        writer: &mut W,
        errors: &mut E,
    ) -> Result<(), RunFault>
    where
        K: Keeper,
        T: Read + Write,
        W: Write,
        E: Write,
        H: NodeHash + Drop,
        V: VufCheck + Drop,
        S: Verifier + Drop,
        ensures prepares { OnOk result (Writes (Prepares H.digest_of V.accepted S.verified (ExchangesFrames T.contents T.remaining) (background_of asker.old) ((self.old).state ≡ None))
            (scene asker.old (self.old).said stream.old) (W.contents writer.old) (W.contents writer.new) (scene asker.new (self.new).said stream.new)) }
        ensures part { OnErr result ((reached : Scene T) × PreparesSome H.digest_of V.accepted S.verified (ExchangesFrames T.contents T.remaining) (background_of asker.old) ((self.old).state ≡ None) (scene asker.old (self.old).said stream.old) reached
            × HoldsBack (result ≡ Err (Program CannotWrite)) (W.contents writer.new) (self.new).said reached.told (W.contents writer.old)) }
        ensures stands { (lines : Option (List (List ℕ))) (start : Found) (old : List ℕ) (acts : List Act) → RunStands H.digest_of V.accepted S.verified lines start old (λ done. K.has keeper.old (done ++ acts)) asker.old (self.old).said.text.items (self.old).state (W.contents writer.old)
            → StateIsKept H.digest_of V.accepted S.verified lines (asker.old).key start old (λ done. K.has keeper.new (done ++ acts)) (self.new).state (W.contents writer.new)
            × OnOk result (RunStands H.digest_of V.accepted S.verified lines start old (λ done. K.has keeper.new (done ++ acts)) asker.new (self.new).said.text.items (self.new).state (W.contents writer.new)) }
        ensures marks { OnOk result ((lines : Option (List (List ℕ))) (start : Found) (old : List ℕ) (acts : List Act) → RunStands H.digest_of V.accepted S.verified lines start old (λ done. K.has keeper.old (done ++ acts)) asker.old (self.old).said.text.items (self.old).state (W.contents writer.old)
            → MarksOn (self.old).state asker.old.monitors.items (self.new).state asker.new.monitors.items) }
        ensures stays { background_of asker.new ≡ background_of asker.old }
        ensures faults { IfErr result (StopsOr IsFaultOfSaving) }
        ensures grows { Grows (W.contents writer.old) (W.contents writer.new) }
        ensures rises { (self.old).said.status ≤ (self.new).said.status }
        ensures limit { IsSameLimit (self.old).limit (self.new).limit }
        ensures notes { OnOk result (HasNoted asker.new (self.new).limit) }
        ensures noted { HasNoted asker.old (self.old).limit → (seen : Scene T) × ((seen ≡ scene asker.old (self.old).said stream.old)
            ⊎ PreparesSome H.digest_of V.accepted S.verified (ExchangesFrames T.contents T.remaining) (background_of asker.old) ((self.old).state ≡ None) (scene asker.old (self.old).said stream.old) seen)
            × HasNotedAs (IsLast (asker.old).marks.items seen.client seen.monitors) (self.new).limit }
    {
        // Without a state the chain begins at the latest root.
        if self.state.is_none() {
            return self.settle(asker, Ok(()), keeper, writer, errors);
        }
        let reply = match asker.send(stream, &Ask::Head) {
            Ok(reply) => reply,
            // The root at which a chain began is kept all the same.
            Err(fault) => return self.settle(asker, Err(fault), keeper, writer, errors),
        };
        self.catch_up(asker, reply.epoch(), keeper, stream, writer, errors)?;
        let prepared = self.look_around(asker, &reply, stream);
        let settled = self.settle(asker, prepared, keeper, writer, errors);
        self.note_stopped(asker, settled, still_kept)
    }

    /// Takes the roots up to an epoch. What is told of a list that does not get there is written, and the state kept, before
    /// the next one is asked for. After 1,024 lists that do not get there it stops.
    fn catch_up<K, T, W, E, H, V, S>(
        &mut self,
        asker: &mut Asker<H, V, S>,
        epoch: u64,
        keeper: &mut K,
        stream: &mut T,
        writer: &mut W,
        errors: &mut E,
    ) -> Result<(), RunFault>
    where
        K: Keeper,
        T: Read + Write,
        W: Write,
        E: Write,
        H: NodeHash + Drop,
        V: VufCheck + Drop,
        S: Verifier + Drop,
        ensures catches { OnOk result (CatchesUpBy H.digest_of V.accepted S.verified (ExchangesFrames T.contents T.remaining) epoch (scene asker.old (self.old).said stream.old) (W.contents writer.old) (W.contents writer.new) (scene asker.new (self.new).said stream.new)) }
        ensures stops { result ≡ Err (OfQuestion Stopped) → (reached : Scene T) × StopsBelow H.digest_of V.accepted S.verified (ExchangesFrames T.contents T.remaining) epoch (scene asker.old (self.old).said stream.old) reached
            × HoldsBack ⊥ (W.contents writer.new) (self.new).said reached.told (W.contents writer.old) }
        ensures part { OnErr result ((reached : Scene T) × (CatchesSome H.digest_of V.accepted S.verified (ExchangesFrames T.contents T.remaining) epoch (scene asker.old (self.old).said stream.old) reached ⊎ StopsBelow H.digest_of V.accepted S.verified (ExchangesFrames T.contents T.remaining) epoch (scene asker.old (self.old).said stream.old) reached)
            × HoldsBack (result ≡ Err (Program CannotWrite)) (W.contents writer.new) (self.new).said reached.told (W.contents writer.old)) }
        ensures stands { (lines : Option (List (List ℕ))) (start : Found) (old : List ℕ) (acts : List Act) → RunStands H.digest_of V.accepted S.verified lines start old (λ done. K.has keeper.old (done ++ acts)) asker.old (self.old).said.text.items (self.old).state (W.contents writer.old)
            → StateIsKept H.digest_of V.accepted S.verified lines (asker.old).key start old (λ done. K.has keeper.new (done ++ acts)) (self.new).state (W.contents writer.new)
            × OnOk result (RunStands H.digest_of V.accepted S.verified lines start old (λ done. K.has keeper.new (done ++ acts)) asker.new (self.new).said.text.items (self.new).state (W.contents writer.new)) }
        ensures marks { OnOk result ((lines : Option (List (List ℕ))) (start : Found) (old : List ℕ) (acts : List Act) → RunStands H.digest_of V.accepted S.verified lines start old (λ done. K.has keeper.old (done ++ acts)) asker.old (self.old).said.text.items (self.old).state (W.contents writer.old)
            → MarksOn (self.old).state asker.old.monitors.items (self.new).state asker.new.monitors.items) }
        ensures stays { background_of asker.new ≡ background_of asker.old }
        ensures changes { asker.new.changes ≡ asker.old.changes }
        ensures faults { IfErr result (StopsOr IsFaultOfSaving) }
        ensures grows { Grows (W.contents writer.old) (W.contents writer.new) }
        ensures rises { (self.old).said.status ≤ (self.new).said.status }
        ensures limit { IsSameLimit (self.old).limit (self.new).limit }
        ensures none { OnOk result ((self.old).state ≡ None → (self.new).state ≡ None) }
        ensures low { OnOk result ((lines : Option (List (List ℕ))) (start : Found) (old : List ℕ) (acts : List Act) → RunStands H.digest_of V.accepted S.verified lines start old (λ done. K.has keeper.old (done ++ acts)) asker.old (self.old).said.text.items (self.old).state (W.contents writer.old)
            → (low : ℕ) → IsUpTo asker.old.client low → epoch ≤ low → IfSome (self.new).state (λ state. Fits low state.memory)) }
        ensures noted { HasNoted asker.old (self.old).limit → (seen : Scene T) × ((seen ≡ scene asker.old (self.old).said stream.old)
            ⊎ (CatchesSome H.digest_of V.accepted S.verified (ExchangesFrames T.contents T.remaining) epoch (scene asker.old (self.old).said stream.old) seen ⊎ StopsBelow H.digest_of V.accepted S.verified (ExchangesFrames T.contents T.remaining) epoch (scene asker.old (self.old).said stream.old) seen))
            × HasNotedAs (IsLast (asker.old).marks.items seen.client seen.monitors) (self.new).limit }
    {
        for _list in 0..MAX_LISTS {
            if !self.advance(asker, epoch, keeper, stream, writer, errors)? {
                return Ok(());
            }
        }
        self.settle(asker, Err(AskFault::Stopped), keeper, writer, errors)
    }

    /// Takes the next list of roots on the way to an epoch. If one more is needed behind it, what is told is written, and the
    /// state kept. Returns whether that was done.
    fn advance<K, T, W, E, H, V, S>(
        &mut self,
        asker: &mut Asker<H, V, S>,
        epoch: u64,
        keeper: &mut K,
        stream: &mut T,
        writer: &mut W,
        errors: &mut E,
    ) -> Result<bool, RunFault>
    where
        K: Keeper,
        T: Read + Write,
        W: Write,
        E: Write,
        H: NodeHash + Drop,
        V: VufCheck + Drop,
        S: Verifier + Drop,
        ensures advances { IfOk result (λ goes. AdvancesOnce H.digest_of V.accepted S.verified (ExchangesFrames T.contents T.remaining) epoch (scene asker.old (self.old).said stream.old) (W.contents writer.old) goes (W.contents writer.new) (scene asker.new (self.new).said stream.new)) }
        ensures part { OnErr result ((reached : Scene T) × AdvancesPart H.digest_of V.accepted S.verified (ExchangesFrames T.contents T.remaining) epoch (scene asker.old (self.old).said stream.old) reached
            × HoldsBack (result ≡ Err (Program CannotWrite)) (W.contents writer.new) (self.new).said reached.told (W.contents writer.old)) }
        ensures stops { result ≡ Err (OfQuestion Stopped) → (reached : Scene T) × IsBelow epoch asker.old.client × StopsList H.digest_of S.verified (ExchangesFrames T.contents T.remaining) (scene asker.old (self.old).said stream.old) reached
            × HoldsBack ⊥ (W.contents writer.new) (self.new).said reached.told (W.contents writer.old) }
        ensures waits { result ≡ Ok false → (self.new).state ≡ (self.old).state }
        ensures none { OnOk result ((self.old).state ≡ None → (self.new).state ≡ None) }
        ensures keeps { result ≡ Ok true → (told : List ℕ) × Appends (W.contents writer.old) (W.contents writer.new) told × KeepsUp asker.new told (self.old).state (self.new).state }
        ensures stands { (lines : Option (List (List ℕ))) (start : Found) (old : List ℕ) (acts : List Act) → RunStands H.digest_of V.accepted S.verified lines start old (λ done. K.has keeper.old (done ++ acts)) asker.old (self.old).said.text.items (self.old).state (W.contents writer.old)
            → StateIsKept H.digest_of V.accepted S.verified lines (asker.old).key start old (λ done. K.has keeper.new (done ++ acts)) (self.new).state (W.contents writer.new)
            × OnOk result (RunStands H.digest_of V.accepted S.verified lines start old (λ done. K.has keeper.new (done ++ acts)) asker.new (self.new).said.text.items (self.new).state (W.contents writer.new)) }
        ensures marks { OnOk result ((lines : Option (List (List ℕ))) (start : Found) (old : List ℕ) (acts : List Act) → RunStands H.digest_of V.accepted S.verified lines start old (λ done. K.has keeper.old (done ++ acts)) asker.old (self.old).said.text.items (self.old).state (W.contents writer.old)
            → MarksOn (self.old).state asker.old.monitors.items (self.new).state asker.new.monitors.items) }
        ensures stays { background_of asker.new ≡ background_of asker.old }
        ensures changes { asker.new.changes ≡ asker.old.changes }
        ensures faults { IfErr result (StopsOr IsFaultOfSaving) }
        ensures grows { Grows (W.contents writer.old) (W.contents writer.new) }
        ensures rises { (self.old).said.status ≤ (self.new).said.status }
        ensures limit { IsSameLimit (self.old).limit (self.new).limit }
        ensures notes { result ≡ Ok true → HasNoted asker.new (self.new).limit }
        ensures noted { HasNoted asker.old (self.old).limit → (seen : Scene T) × ((seen ≡ scene asker.old (self.old).said stream.old)
            ⊎ AdvancesPart H.digest_of V.accepted S.verified (ExchangesFrames T.contents T.remaining) epoch (scene asker.old (self.old).said stream.old) seen)
            × HasNotedAs (IsLast (asker.old).marks.items seen.client seen.monitors) (self.new).limit }
    {
        let advanced = asker.advance(stream, epoch, &mut self.said);
        if advanced == Ok(false) {
            return Ok(false);
        }
        self.settle(asker, answered(advanced), keeper, writer, errors)?;
        Ok(true)
    }

    /// Hears the latest root, and tests the promises that are due, which is said.
    fn look_around<T, H, V, S>(
        &mut self,
        asker: &mut Asker<H, V, S>,
        reply: &Reply,
        stream: &mut T,
    ) -> Result<(), AskFault>
    where
        T: Read + Write,
        H: NodeHash + Drop,
        V: VufCheck + Drop,
        S: Verifier + Drop,
        ensures looks { (frame : Frame) → HoldsFrame reply.now.bytes.items frame → OnOk result ((middle : Scene T) × HearsHead H.digest_of V.accepted S.verified (ExchangesFrames T.contents T.remaining) reply.now.held frame (scene asker.old (self.old).said stream.old) middle
            × TestsAll H.digest_of V.accepted (ExchangesFrames T.contents T.remaining) (asker.old).marks.items middle (scene asker.new (self.new).said stream.new)) }
        ensures reaches { (frame : Frame) → HoldsFrame reply.now.bytes.items frame → (reached : Scene T) × LooksSome H.digest_of V.accepted S.verified (ExchangesFrames T.contents T.remaining) (background_of asker.old) reply.now.held frame (scene asker.old (self.old).said stream.old) reached × (report_of (self.new).said ≡ reached.told) }
        ensures stands { result ≢ Err NoMemory → (frame : Frame) → HoldsFrame reply.now.bytes.items frame → (reached : Scene T) × LooksSome H.digest_of V.accepted S.verified (ExchangesFrames T.contents T.remaining) (background_of asker.old) reply.now.held frame (scene asker.old (self.old).said stream.old) reached
            × (report_of (self.new).said ≡ reached.told) × (asker.new.client ≡ reached.client) × (asker.new.monitors.items ≡ reached.monitors) }
        ensures stays { background_of asker.new ≡ background_of asker.old }
        ensures still { (self.new).state ≡ (self.old).state }
        ensures changes { asker.new.changes ≡ asker.old.changes }
        ensures limit { (self.new).limit ≡ (self.old).limit }
    {
        asker.hear_head(reply, &mut self.said)?;
        asker.test_promises(stream, &mut self.said)
    }

    /// Asks each line of the input.
    fn ask_lines<K, T, R, W, E, H, V, S>(
        &mut self,
        asker: &mut Asker<H, V, S>,
        keeper: &mut K,
        stream: &mut T,
        reader: &mut R,
        writer: &mut W,
        errors: &mut E,
    ) -> Result<(), RunFault>
    where
        K: Keeper,
        T: Read + Write,
        R: BufRead,
        W: Write,
        E: Write,
        H: NodeHash + Drop,
        V: VufCheck + Drop,
        S: Verifier + Drop,
        ensures asks { OnOk result (IfSome (R.remaining reader.old) (λ input. AsksLines H.digest_of V.accepted S.verified (ExchangesFrames T.contents T.remaining) (background_of asker.old) (lines_of input)
            (scene asker.old (self.old).said stream.old) (W.contents writer.old) (W.contents writer.new) (scene asker.new (self.new).said stream.new))) }
        ensures part { IfSome (R.remaining reader.old) (λ input. (told : Report) × (now : Option (List ℕ)) × AsksPart H.digest_of V.accepted S.verified (ExchangesFrames T.contents T.remaining) (background_of asker.old) (lines_of input)
            (scene asker.old (self.old).said stream.old) told (W.contents writer.old) now × HoldsBack (result ≡ Err (Program CannotWrite)) (W.contents writer.new) (self.new).said told now) }
        ensures stands { (start : Found) (old : List ℕ) (acts : List Act) → RunStands H.digest_of V.accepted S.verified (option_map lines_of (R.remaining reader.old)) start old (λ done. K.has keeper.old (done ++ acts)) asker.old (self.old).said.text.items (self.old).state (W.contents writer.old)
            → StateIsKept H.digest_of V.accepted S.verified (option_map lines_of (R.remaining reader.old)) (asker.old).key start old (λ done. K.has keeper.new (done ++ acts)) (self.new).state (W.contents writer.new) }
        ensures marks { OnOk result ((start : Found) (old : List ℕ) (acts : List Act) → RunStands H.digest_of V.accepted S.verified (option_map lines_of (R.remaining reader.old)) start old (λ done. K.has keeper.old (done ++ acts)) asker.old (self.old).said.text.items (self.old).state (W.contents writer.old)
            → RunStands H.digest_of V.accepted S.verified (option_map lines_of (R.remaining reader.old)) start old (λ done. K.has keeper.new (done ++ acts)) asker.new (self.new).said.text.items (self.new).state (W.contents writer.new)
            × (asker.new.key ≡ asker.old.key) × MarksOn (self.old).state asker.old.monitors.items (self.new).state asker.new.monitors.items) }
        ensures faults { IfErr result (StopsOr (IsFaultWith ⊥ ⊤ (λ number. IfSome (R.remaining reader.old) (λ input. IsFirstUnasked 1 (lines_of input) number)))) }
        ensures grows { Grows (W.contents writer.old) (W.contents writer.new) }
        ensures rises { (self.old).said.status ≤ (self.new).said.status }
        ensures limit { IsSameLimit (self.old).limit (self.new).limit }
    {
        let mut line = Vec::new(self.alloc);
        // Every loop of Rattle has an end: this one's is past any input.
        for number in 1..u64::MAX {
            if !next_line(reader, &mut line)? {
                return Ok(());
            }
            self.ask_line(asker, keeper, stream, &line, number, writer, errors)?;
        }
        Err(RunFault::Program(ProgramFault::CannotRead))
    }

    /// Asks the line of this number.
    fn ask_line<K, T, W, E, H, V, S>(
        &mut self,
        asker: &mut Asker<H, V, S>,
        keeper: &mut K,
        stream: &mut T,
        line: &[u8],
        number: u64,
        writer: &mut W,
        errors: &mut E,
    ) -> Result<(), RunFault>
    where
        K: Keeper,
        T: Read + Write,
        W: Write,
        E: Write,
        H: NodeHash + Drop,
        V: VufCheck + Drop,
        S: Verifier + Drop,
        ensures asks { OnOk result (Writes (AsksLine H.digest_of V.accepted S.verified (ExchangesFrames T.contents T.remaining) (background_of asker.old) line.now)
            (scene asker.old (self.old).said stream.old) (W.contents writer.old) (W.contents writer.new) (scene asker.new (self.new).said stream.new)) }
        ensures part { (reached : Scene T) × AsksSomeLine H.digest_of V.accepted S.verified (ExchangesFrames T.contents T.remaining) (background_of asker.old) line.now (scene asker.old (self.old).said stream.old) reached
            × HoldsBack (result ≡ Err (Program CannotWrite)) (W.contents writer.new) (self.new).said reached.told (W.contents writer.old) }
        ensures stands { (lines : Option (List (List ℕ))) (start : Found) (old : List ℕ) (acts : List Act) → AsksAmong lines line.now
            → RunStands H.digest_of V.accepted S.verified lines start old (λ done. K.has keeper.old (done ++ acts)) asker.old (self.old).said.text.items (self.old).state (W.contents writer.old)
            → StateIsKept H.digest_of V.accepted S.verified lines (asker.old).key start old (λ done. K.has keeper.new (done ++ acts)) (self.new).state (W.contents writer.new)
            × OnOk result (RunStands H.digest_of V.accepted S.verified lines start old (λ done. K.has keeper.new (done ++ acts)) asker.new (self.new).said.text.items (self.new).state (W.contents writer.new)) }
        ensures marks { OnOk result ((lines : Option (List (List ℕ))) (start : Found) (old : List ℕ) (acts : List Act) → AsksAmong lines line.now
            → RunStands H.digest_of V.accepted S.verified lines start old (λ done. K.has keeper.old (done ++ acts)) asker.old (self.old).said.text.items (self.old).state (W.contents writer.old)
            → RunStands H.digest_of V.accepted S.verified lines start old (λ done. K.has keeper.new (done ++ acts)) asker.new (self.new).said.text.items (self.new).state (W.contents writer.new)
            × MarksOn (self.old).state asker.old.monitors.items (self.new).state asker.new.monitors.items) }
        ensures stays { background_of asker.new ≡ background_of asker.old }
        ensures faults { IfErr result (StopsOr (λ fault. IsFaultOfSaving fault ⊎ ((fault ≡ NotACommand number) × CannotBeAsked (line_of line.now)))) }
        ensures grows { Grows (W.contents writer.old) (W.contents writer.new) }
        ensures rises { (self.old).said.status ≤ (self.new).said.status }
        ensures limit { IsSameLimit (self.old).limit (self.new).limit }
        ensures notes { OnOk result (HasNoted asker.new (self.new).limit) }
        ensures noted { HasNoted asker.old (self.old).limit → (seen : Scene T) × AsksSomeLine H.digest_of V.accepted S.verified (ExchangesFrames T.contents T.remaining) (background_of asker.old) line.now (scene asker.old (self.old).said stream.old) seen
            × HasNotedAs (IsLast (asker.old).marks.items seen.client seen.monitors) (self.new).limit }
    {
        let not_a_command = Err(RunFault::Program(ProgramFault::NotACommand(number)));
        let Some(line) = read_line(self.alloc, line)? else {
            return not_a_command;
        };
        match &line {
            Line::Pass => self.settle(asker, Ok(()), keeper, writer, errors),
            Line::Ask(ask) => self.ask_directory(asker, keeper, stream, ask, writer, errors),
            Line::Watch { name, key } => {
                let watched = asker.watch(stream, name, key.as_ref(), &mut self.said);
                self.settle(asker, watched, keeper, writer, errors)
            }
            Line::Piece { .. } => not_a_command,
            Line::End { .. } => not_a_command,
        }
    }

    /// Asks the directory something. The roots up to its reply are taken before that is heard.
    fn ask_directory<K, T, W, E, H, V, S>(
        &mut self,
        asker: &mut Asker<H, V, S>,
        keeper: &mut K,
        stream: &mut T,
        ask: &Ask,
        writer: &mut W,
        errors: &mut E,
    ) -> Result<(), RunFault>
    where
        K: Keeper,
        T: Read + Write,
        W: Write,
        E: Write,
        H: NodeHash + Drop,
        V: VufCheck + Drop,
        S: Verifier + Drop,
        ensures asks { OnOk result (Writes (DoesLine H.digest_of V.accepted S.verified (ExchangesFrames T.contents T.remaining) (background_of asker.old) (Asked (ask_seen ask.now)))
            (scene asker.old (self.old).said stream.old) (W.contents writer.old) (W.contents writer.new) (scene asker.new (self.new).said stream.new)) }
        ensures part { (reached : Scene T) × DoesSome H.digest_of V.accepted S.verified (ExchangesFrames T.contents T.remaining) (background_of asker.old) (Asked (ask_seen ask.now)) (scene asker.old (self.old).said stream.old) reached
            × HoldsBack (result ≡ Err (Program CannotWrite)) (W.contents writer.new) (self.new).said reached.told (W.contents writer.old) }
        ensures stands { (lines : Option (List (List ℕ))) (start : Found) (old : List ℕ) (acts : List Act) → IsSaid lines (Asked (ask_seen ask.now)) → RunStands H.digest_of V.accepted S.verified lines start old (λ done. K.has keeper.old (done ++ acts)) asker.old (self.old).said.text.items (self.old).state (W.contents writer.old)
            → StateIsKept H.digest_of V.accepted S.verified lines (asker.old).key start old (λ done. K.has keeper.new (done ++ acts)) (self.new).state (W.contents writer.new)
            × OnOk result (RunStands H.digest_of V.accepted S.verified lines start old (λ done. K.has keeper.new (done ++ acts)) asker.new (self.new).said.text.items (self.new).state (W.contents writer.new)) }
        ensures marks { OnOk result ((lines : Option (List (List ℕ))) (start : Found) (old : List ℕ) (acts : List Act) → IsSaid lines (Asked (ask_seen ask.now)) → RunStands H.digest_of V.accepted S.verified lines start old (λ done. K.has keeper.old (done ++ acts)) asker.old (self.old).said.text.items (self.old).state (W.contents writer.old)
            → MarksOn (self.old).state asker.old.monitors.items (self.new).state asker.new.monitors.items) }
        ensures stays { background_of asker.new ≡ background_of asker.old }
        ensures faults { IfErr result (StopsOr IsFaultOfSaving) }
        ensures grows { Grows (W.contents writer.old) (W.contents writer.new) }
        ensures rises { (self.old).said.status ≤ (self.new).said.status }
        ensures limit { IsSameLimit (self.old).limit (self.new).limit }
        ensures notes { OnOk result (HasNoted asker.new (self.new).limit) }
        ensures noted { HasNoted asker.old (self.old).limit → (seen : Scene T) × DoesSome H.digest_of V.accepted S.verified (ExchangesFrames T.contents T.remaining) (background_of asker.old) (Asked (ask_seen ask.now)) (scene asker.old (self.old).said stream.old) seen
            × HasNotedAs (IsLast (asker.old).marks.items seen.client seen.monitors) (self.new).limit }
    {
        let reply = asker.send(stream, ask)?;
        self.catch_up(asker, reply.epoch(), keeper, stream, writer, errors)?;
        let heard = asker.hear(stream, ask, &reply, &mut self.said);
        self.settle(asker, heard, keeper, writer, errors)
    }

    /// Keeps the roots, promises and evidence that are new, and from where names are watched, writes what is said, and then
    /// keeps the alarms and how far names were watched: so a promise that is told is kept, unless keeping it is what fails,
    /// and an alarm that a stop leaves untold is found again. Returns what came of the questions.
    fn settle<K, W, E, H, V, S>(
        &mut self,
        asker: &Asker<H, V, S>,
        asked: Result<(), AskFault>,
        keeper: &mut K,
        writer: &mut W,
        errors: &mut E,
    ) -> Result<(), RunFault>
    where
        K: Keeper,
        W: Write,
        E: Write,
        H: NodeHash + Drop,
        V: VufCheck + Drop,
        S: Verifier + Drop,
        ensures asked { OnOk result (asked ≡ Ok tt) }
        ensures gives { (fault : AskFault) → result ≡ Err (OfQuestion fault) → asked ≡ Err fault }
        ensures writes { OnOk result (Appends (W.contents writer.old) (W.contents writer.new) (self.old).said.text.items × (report_of (self.new).said ≡ emptied (self.old).said.status)) }
        ensures leaves { HoldsBack (result ≡ Err (Program CannotWrite)) (W.contents writer.new) (self.new).said (report_of (self.old).said) (W.contents writer.old) }
        ensures keeps { IsSettled result → KeepsUp asker.now (self.old).said.text.items (self.old).state (self.new).state }
        ensures kept { (lines : Option (List (List ℕ))) (key : List ℕ) (start : Found) (old : List ℕ) (acts : List Act) → AreNew lines start.known (self.old).state asker.now.changes.items → StateIsSaved H.digest_of V.accepted S.verified lines key start old (λ done. K.has keeper.old (done ++ acts)) (self.old).state (W.contents writer.old)
            → (asked ≢ Err NoMemory → StateStands H.digest_of V.accepted S.verified lines key start old (λ done. K.has keeper.old (done ++ acts)) (self.old).state (W.contents writer.old) asker.now.changes.items (standing asker.now.client asker.now.monitors.items (self.old).said.text.items))
            → StateIsKept H.digest_of V.accepted S.verified lines key start old (λ done. K.has keeper.new (done ++ acts)) (self.new).state (W.contents writer.new) }
        ensures stands { OnOk result ((lines : Option (List (List ℕ))) (key : List ℕ) (start : Found) (old : List ℕ) (acts : List Act) → AreNew lines start.known (self.old).state asker.now.changes.items
            → StateStands H.digest_of V.accepted S.verified lines key start old (λ done. K.has keeper.old (done ++ acts)) (self.old).state (W.contents writer.old) asker.now.changes.items (standing asker.now.client asker.now.monitors.items (self.old).said.text.items)
            → StateStands H.digest_of V.accepted S.verified lines key start old (λ done. K.has keeper.new (done ++ acts)) (self.new).state (W.contents writer.new) asker.now.changes.items (standing asker.now.client asker.now.monitors.items [])) }
        ensures faults { IfErr result (StopsOr IsFaultOfSaving) }
        ensures grows { Grows (W.contents writer.old) (W.contents writer.new) }
        ensures status { (self.new).said.status ≡ (self.old).said.status }
        ensures limit { IsSameLimit (self.old).limit (self.new).limit }
        ensures notes { OnOk result (HasNoted asker.now (self.new).limit) }
        ensures noted { ((asked ≢ Err NoMemory) × HasNoted asker.now (self.new).limit) ⊎ ((¬ IsSettled result) × ((self.new).limit ≡ (self.old).limit)) }
    {
        let told = Vec::from_slice(self.alloc, &self.said.text)?;
        self.add(asker, &told, keeper, writer)?;
        self.explain_stop(asker.head(), &asked)?;
        self.write(writer, errors)?;
        self.save(asker, &told, &asked, keeper, writer)?;
        asked?;
        Ok(())
    }

    /// Says after which epoch no root is taken, if roots stopped the questions.
    fn explain_stop(&mut self, head: u64, asked: &Result<(), AskFault>) -> Result<(), AllocError>
        ensures said { report_of (self.new).said ≡ report_of (self.old).said }
        ensures still { (self.new).state ≡ (self.old).state }
        ensures limit { (self.new).limit ≡ (self.old).limit }
    {
        if *asked != Err(AskFault::Stopped) {
            return Ok(());
        }
        tell_epoch(b"no root is taken after epoch ", head, &mut self.said)
    }

    /// Adds what is new to the files of the state, if there is one, before this is told.
    fn add<K, W, H, V, S>(
        &mut self,
        asker: &Asker<H, V, S>,
        told: &[u8],
        keeper: &mut K,
        writer: &W,
    ) -> Result<(), ProgramFault>
    where
        K: Keeper,
        W: Write,
        H: NodeHash + Drop,
        V: VufCheck + Drop,
        S: Verifier + Drop,
        ensures adds { OnOk result (AddsTo asker.now told.now (self.old).state (self.new).state) }
        ensures kept { (lines : Option (List (List ℕ))) (key : List ℕ) (start : Found) (old : List ℕ) (acts : List Act) → AreNew lines start.known (self.old).state asker.now.changes.items → StateIsSaved H.digest_of V.accepted S.verified lines key start old (λ done. K.has keeper.old (done ++ acts)) (self.old).state (W.contents writer.now)
            → StateIsKept H.digest_of V.accepted S.verified lines key start old (λ done. K.has keeper.new (done ++ acts)) (self.new).state (W.contents writer.now) }
        ensures stands { OnOk result ((lines : Option (List (List ℕ))) (key : List ℕ) (start : Found) (old : List ℕ) (acts : List Act) (said : List ℕ) → AreNew lines start.known (self.old).state asker.now.changes.items
            → StateStands H.digest_of V.accepted S.verified lines key start old (λ done. K.has keeper.old (done ++ acts)) (self.old).state (W.contents writer.now) asker.now.changes.items (standing asker.now.client asker.now.monitors.items said)
            → StateStands H.digest_of V.accepted S.verified lines key start old (λ done. K.has keeper.new (done ++ acts)) (self.new).state (W.contents writer.now) asker.now.changes.items (standing asker.now.client asker.now.monitors.items said)) }
        ensures up_to { OnOk result (IfSome (self.new).state (λ state. IsUpTo asker.now.client state.epoch)) }
        ensures said { (self.new).said ≡ (self.old).said }
        ensures err { IfErr result IsFaultOfSaving }
        ensures limit { (self.new).limit ≡ (self.old).limit }
    {
        match self.state.as_mut() {
            Some(state) => state.add(keeper, writer, asker, told),
            None => Ok(()),
        }
    }

    /// Notes the last epoch, and adds the alarms and how far names were watched to the files of the state, if there is one,
    /// once this is told. Where memory ran out in a question, an alarm may be untold, and nothing is noted or added.
    fn save<K, W, H, V, S>(
        &mut self,
        asker: &Asker<H, V, S>,
        told: &[u8],
        asked: &Result<(), AskFault>,
        keeper: &mut K,
        writer: &W,
    ) -> Result<(), ProgramFault>
    where
        K: Keeper,
        W: Write,
        H: NodeHash + Drop,
        V: VufCheck + Drop,
        S: Verifier + Drop,
        ensures saves { OnOk result (asked.now ≢ Err NoMemory → SavesTo asker.now told.now (self.old).state (self.new).state) }
        ensures kept { (lines : Option (List (List ℕ))) (key : List ℕ) (start : Found) (old : List ℕ) (acts : List Act) → IfSome (self.old).state (λ state. IsUpTo asker.now.client state.epoch)
            → StateStands H.digest_of V.accepted S.verified lines key start old (λ done. K.has keeper.old (done ++ acts)) (self.old).state (W.contents writer.now) asker.now.changes.items (standing asker.now.client asker.now.monitors.items [])
            → StateIsKept H.digest_of V.accepted S.verified lines key start old (λ done. K.has keeper.new (done ++ acts)) (self.new).state (W.contents writer.now)
            × OnOk result (StateStands H.digest_of V.accepted S.verified lines key start old (λ done. K.has keeper.new (done ++ acts)) (self.new).state (W.contents writer.now) asker.now.changes.items (standing asker.now.client asker.now.monitors.items [])) }
        ensures none { asked.now ≡ Err NoMemory → ((self.new).state ≡ (self.old).state) × (keeper.new ≡ keeper.old) × ((self.new).limit ≡ (self.old).limit) }
        ensures said { (self.new).said ≡ (self.old).said }
        ensures err { IfErr result IsFaultOfSaving }
        ensures limit { IsSameLimit (self.old).limit (self.new).limit }
        ensures notes { asked.now ≢ Err NoMemory → HasNoted asker.now (self.new).limit }
    {
        if *asked == Err(AskFault::OutOfMemory) {
            return Ok(());
        }
        self.limit.note(asker);
        match self.state.as_mut() {
            Some(state) => state.save(keeper, writer, asker, told),
            None => Ok(()),
        }
    }

    /// Drops the alarms of a name from what is remembered, and tells how many there were, behind evidence of earlier runs.
    pub(crate) fn settle_alarms<K, W, H, V, S>(
        &mut self,
        keeper: &mut K,
        checks: Checks<H, V, S>,
        keys: &AskKeys,
        name: &Name,
        writer: &W,
    ) -> Result<(), ProgramFault>
    where
        K: Keeper,
        W: Write,
        H: NodeHash + Drop,
        V: VufCheck + Drop,
        S: Verifier + Drop,
        ensures settles { OnOk result (report_of (self.old).said ≡ emptied 0 → (known : Memory) × (count : ℕ)
            × ((self.new).said.text.items ≡ settled_text known name.now count) × ((self.new).said.status ≡ (evidence_again known).status)) }
        ensures part { report_of (self.old).said ≡ emptied 0 → (known : Memory) × (count : ℕ) × (rest : List ℕ) × (settled_text known name.now count ≡ (self.new).said.text.items ++ rest)
            × ((self.new).said.status ≡ (evidence_again known).status) }
        ensures drops { OnOk result (IsFresh (self.old).state → report_of (self.old).said ≡ emptied 0
            → IfSome (self.new).state (λ state. (count : ℕ) × ((self.new).said.text.items ≡ settled_text state.memory name.now count) × ((self.new).said.status ≡ (evidence_again state.memory).status))) }
        ensures kept { IsFresh (self.old).state → (lines : Option (List (List ℕ))) (old : List ℕ) (acts : List Act) → W.contents writer.now ≡ Some old → K.has keeper.old acts
            → LeavesTold H.digest_of V.accepted S.verified lines (Some name.now) keys.now.signing_key old (λ done. K.has keeper.new (done ++ acts)) }
        ensures err { IfErr result IsFaultOfState }
    {
        self.recall(keeper, checks, keys)?;
        let count = self.drop_alarms(keeper, name, writer)?;
        tell_settled(self.alloc, name, count, &mut self.said)?;
        Ok(())
    }

    /// Loads the state, and tells the evidence of earlier runs again.
    fn recall<K, H, V, S>(
        &mut self,
        keeper: &mut K,
        checks: Checks<H, V, S>,
        keys: &AskKeys,
    ) -> Result<(), ProgramFault>
    where
        K: Keeper,
        H: NodeHash + Drop,
        V: VufCheck + Drop,
        S: Verifier + Drop,
        ensures tells { OnOk result (report_of (self.old).said ≡ emptied 0 → (known : Memory) × (report_of (self.new).said ≡ evidence_again known)) }
        ensures knows { OnOk result (IsFresh (self.old).state → report_of (self.old).said ≡ emptied 0 → IfSome (self.new).state (λ state. report_of (self.new).said ≡ evidence_again state.memory)) }
        ensures untold { OnErr result (report_of (self.new).said ≡ report_of (self.old).said) }
        ensures left { IsFresh (self.old).state → (lines : Option (List (List ℕ))) (old : List ℕ) (acts : List Act) → K.has keeper.old acts
            → IsLeft H.digest_of V.accepted S.verified lines keys.now.signing_key old (λ done. K.has keeper.new (done ++ acts)) (self.new).state (Some old) }
        ensures err { IfErr result IsFaultOfState }
    {
        let Ok(asker) = self.load(keeper, checks, keys)? else {
            return Ok(());
        };
        self.tell_evidence(&asker.known)?;
        Ok(())
    }

    /// Drops the alarms of a name from the files of the state. Returns how many there were.
    fn drop_alarms<K: Keeper, W: Write>(
        &mut self,
        keeper: &mut K,
        name: &Name,
        writer: &W,
    ) -> Result<usize, ProgramFault>
        ensures said { (self.new).said ≡ (self.old).said }
        ensures hands { (acts : List Act) → K.has keeper.old acts → SettlesState name.now (K.has keeper.new) acts (self.old).state (W.contents writer.now) }
        ensures drops { IfOk result (λ count. DropsAlarms name.now (K.has keeper.old) (K.has keeper.new) count (self.old).state (self.new).state (W.contents writer.now)) }
        ensures err { IfErr result IsFaultOfSaving }
    {
        let Some(state) = self.state.as_mut() else {
            return Ok(0);
        };
        let count = state.settle(name);
        state.finish(None, keeper, writer)?;
        Ok(count)
    }

    /// The status so far.
    pub(crate) fn status(&self) -> u8
        ensures { result ≡ (self.now).said.status }
    {
        self.said.status
    }

    /// Writes what is said: the lines to the output, the words to the errors.
    pub(crate) fn write<W: Write, E: Write>(
        &mut self,
        writer: &mut W,
        errors: &mut E,
    ) -> Result<(), ProgramFault>
        ensures writes { OnOk result (Appends (W.contents writer.old) (W.contents writer.new) (self.old).said.text.items × ((self.new).said.text.items ≡ [])) }
        ensures some { WritesSome (W.contents writer.old) (W.contents writer.new) (self.old).said.text.items }
        ensures emptied { (self.new).said.text.items ≡ [] }
        ensures words { OnOk result (Appends (E.contents errors.old) (E.contents errors.new) (self.old).said.words.items) }
        ensures still { (self.new).state ≡ (self.old).state }
        ensures status { (self.new).said.status ≡ (self.old).said.status }
        ensures err { IfErr result (λ fault. fault ≡ CannotWrite) }
        ensures grows { Grows (W.contents writer.old) (W.contents writer.new) }
        ensures limit { (self.new).limit ≡ (self.old).limit }
    {
        let told = write_text(writer, &self.said.text);
        self.said.text.clear();
        told?;
        let told = write_text(errors, &self.said.words);
        self.said.words.clear();
        told?;
        Ok(())
    }
}

/// What is said of the evidence of earlier runs.
fn evidence_said(alloc: Global, known: &Memory) -> Result<Said, AllocError>
    ensures { IfOk result (λ said. report_of said ≡ evidence_again known.now) }
{
    let mut said = Said::new(alloc);
    known.tell_evidence(&mut said.text)?;
    if known.evidence().is_empty() {
        return Ok(said);
    }
    said.raise(CAUGHT);
    Ok(said)
}

/// Whether the state was kept up with what was asked: no write failed, and memory did not run out.
fn is_kept_up(asked: &Result<(), RunFault>) -> bool
    ensures { IsTrue result ↔ IsKeptUp asked.now }
{
    match asked {
        Ok(()) => true,
        Err(RunFault::Ask(fault)) => *fault != AskFault::OutOfMemory,
        Err(RunFault::Program(fault)) => {
            *fault != ProgramFault::CannotWrite && *fault != ProgramFault::OutOfMemory
        }
    }
}

/// The fault of a question, if it had one.
fn answered(asked: Result<bool, AskFault>) -> Result<(), AskFault>
    ensures ok { OnOk asked (result ≡ Ok tt) }
    ensures err { IfErr asked (λ fault. result ≡ Err fault) }
{
    match asked {
        Ok(_) => Ok(()),
        Err(fault) => Err(fault),
    }
}

/// Says something of an epoch, in a line of the errors.
fn tell_epoch(what: &[u8], epoch: u64, said: &mut Said) -> Result<(), AllocError>
    ensures { report_of said.new ≡ report_of said.old }
{
    said.words.extend_from_slice(what)?;
    push_number(&mut said.words, epoch)?;
    said.words.push(b'\n')?;
    Ok(())
}
