ghost use Rattle.std.specs.Prelude.{◌≡◌, ◌≢◌, ◌⊎◌, ◌++◌, ◌∷◌, ◌<◌, ◌≤◌, ℕ, [], Contains, List, None, Ok, Option, Some};
ghost use Rattle.std.specs.List.{AllByRecursion};
ghost use Rattle.encoding.specs.declared.bound_key.BoundKey.{BoundKey};
ghost use Rattle.client.specs.declared.client_refusal.Refusal.{Refusal};
ghost use Rattle.client.specs.declared.client_refusal.Refusal.TheVariants.{RootDiffers};
ghost use Rattle.client.specs.declared.due.Due.TheVariants.{Broken};
ghost use Rattle.memory.specs.Memories.{Memory};
ghost use Rattle.memory.specs.Texts.{Spells};
ghost use Rattle.memory.specs.declared.alarm.Alarm.{Alarm as Warned};
ghost use Rattle.memory.specs.declared.final_seen.FinalSeen.{FinalSeen};
ghost use Rattle.memory.specs.declared.mark.Mark.{Mark};
ghost use Rattle.monitor.specs.Monitors.{Monitor};
ghost use Rattle.monitor.specs.declared.step.Step.TheVariants.{Alarm};
ghost use Rattle.proofs.specs.declared.broken_promise.BrokenPromise.{BrokenPromise};
ghost use Rattle.proofs.specs.declared.statement.Statement.{Statement};
ghost use Rattle.rootchain.specs.declared.evidence.RootEvidence.{RootEvidence};
ghost use Rattle.rootchain.specs.declared.signed_promise.SignedPromise.{SignedPromise};
ghost use Rattle.rootchain.specs.declared.signed_root.SignedRoot.{SignedRoot};
ghost use Rattle.runs.specs.AskOptions.{AskOptions};
ghost use Rattle.runs.specs.Ending.{stopped_status};
ghost use Rattle.asking.specs.Exchanges.{ExchangesFrames};
ghost use Rattle.runs.specs.Marking.{IsFrom, IsToWatch, StoresMarks};
ghost use Rattle.asking.specs.Recalled.{evidence_again, TellsAlarms};
ghost use Rattle.asking.specs.Refused.{client_refuses};
ghost use Rattle.asking.specs.Reports.{refused, told_after, Report};
ghost use Rattle.runs.specs.Runs.{lines_asked, RunsWhole};
ghost use Rattle.runs.specs.Saves.{stored_after, HasMark, IsAsked, Stored, WasOwn};
ghost use Rattle.runs.specs.StateRuns.{left_by, LeavesAwaited, LeavesUnsettled, AllRunUnder, WasToldUnder, RunOrder, StateRun, WasAskedFor};
ghost use Rattle.asking.specs.Testing.{due_told};
ghost use Rattle.runs.specs.Told.{TellsWatched};
ghost use Rattle.asking.specs.Visiting.{HasMonitor, IsMarked};
ghost use Rattle.asking.specs.Watching.{step_told};

use nodehash::NodeHash;
use sigiface::Verifier;
use std::io::{Read, Write};
use vrfiface::VufCheck;

/// What is told has status 3 where the provider is caught: by roots that contradict the chain, by a promise that was not
/// kept, or by evidence of an earlier run; and where a name is not as its owner expects, also by an alarm of an earlier run.
/// Any other refusal has status 1. Behind a 3 a run ends with 3, whatever else is told, also if it is stopped.
pub fn statuses_tell_who_is_caught()
    ensures evidence { (what : List ℕ) (roots : RootEvidence) → (client_refuses what (RootDiffers roots)).status ≡ 3 }
    ensures broken { (broken : BrokenPromise) → (due_told (Ok (Broken broken))).status ≡ 3 }
    ensures known { (known : Memory) → known.evidence ≢ [] → (evidence_again known).status ≡ 3 }
    ensures alarm { (name : List ℕ) (epoch at : ℕ) (found : Statement) → (step_told name epoch (Alarm at found)).status ≡ 3 }
    ensures alarms { (name : List ℕ) (known : Memory) (told : Report) → TellsAlarms name known told → told.lines ≢ [] → told.status ≡ 3 }
    ensures refused { (line : List ℕ) → (refused line).status ≡ 1 }
    ensures refuses { (what : List ℕ) (why : Refusal) → ((roots : RootEvidence) → why ≢ RootDiffers roots) → (client_refuses what why).status ≡ 1 }
    ensures stays { (before told : Report) → before.status ≡ 3 → told.status ≤ 3 → (told_after before told).status ≡ 3 }
    ensures stopped { stopped_status 3 ≡ 3 }
{}

/// Each epoch that a monitor watched in a whole run is told: the output has the line of a step for it, which compares
/// what an accepted reply states with what the owner expected there.
pub fn watched_epochs_are_told<T: Read + Write, H: NodeHash, V: VufCheck, S: Verifier>()
    ensures { (key token : List ℕ) (options : AskOptions) (stream left : T) (input : Option (List ℕ)) (status : ℕ) (old : List ℕ) (new : Option (List ℕ)) (lines : List (List ℕ)) → lines_asked options.words input ≡ Some lines
        → (run : RunsWhole H.digest_of V.accepted S.verified (ExchangesFrames T.contents T.remaining) key token options (options.state ≡ None) stream left input status (Some old) new)
        → (text : List ℕ) × (new ≡ Some (old ++ text)) × AllByRecursion (TellsWatched H.digest_of V.accepted text) run.last.monitors }
{}

/// Whatever runs there were over one state, and wherever each was stopped: what is saved loads as a memory. Each root of
/// the state that a mark of it says was watched is told in the output of one of the runs, against what its owner expected
/// there, before the last act of that run that is left; or it was watched before all of them. No root is lost, and no mark of an
/// earlier run: the memory has one of the same name that begins no later, and that is as far over the roots that were there.
/// Nor is evidence lost that one stored, or a reply that stated a key with Final; nor an alarm, unless a run settles those of its
/// name. Each promise that it has for a change of the owner's own is for one that a line of some run asks for, or was remembered
/// so before all of them; and none of these is lost as long as a mark awaits it. Where what a run left has marks for monitors, as
/// it has for all those of a whole run without a stale epoch, each root from the first of such a monitor on was told for its
/// name, or is still to be watched.
pub fn stored_marks_are_told<H: NodeHash, V: VufCheck, S: Verifier>()
    ensures loads { (key : List ℕ) (first : Stored) (runs : List (StateRun RunOrder)) → AllRunUnder H.digest_of V.accepted S.verified key first runs
        → (before : Memory) → Spells first.text (Ok before) → (known : Memory) × Spells (left_by first runs).text (Ok known) }
    ensures told { (key : List ℕ) (first : Stored) (runs : List (StateRun RunOrder)) → AllRunUnder H.digest_of V.accepted S.verified key first runs
        → (known : Memory) → Spells (left_by first runs).text (Ok known) → (mark : Mark) → Contains known.marks mark
        → (root : SignedRoot) → Contains (left_by first runs).roots root → mark.since < root.body.epoch → root.body.epoch ≤ mark.epoch
        → WasToldUnder H.digest_of V.accepted S.verified key first runs mark.name root }
    ensures grow { (key : List ℕ) (first : Stored) (later earlier : List (StateRun RunOrder)) → AllRunUnder H.digest_of V.accepted S.verified key first (later ++ earlier)
        → (more : List SignedRoot) × ((left_by first (later ++ earlier)).roots ≡ (left_by first earlier).roots ++ more) }
    ensures stay { (key : List ℕ) (first : Stored) (later earlier : List (StateRun RunOrder)) → AllRunUnder H.digest_of V.accepted S.verified key first (later ++ earlier)
        → (before known : Memory) → Spells (left_by first earlier).text (Ok before) → Spells (left_by first (later ++ earlier)).text (Ok known) → (old : Mark) → Contains before.marks old → HasMark (left_by first earlier).roots known.marks old }
    ensures evidence { (key : List ℕ) (first : Stored) (later earlier : List (StateRun RunOrder)) → AllRunUnder H.digest_of V.accepted S.verified key first (later ++ earlier)
        → (before known : Memory) → Spells (left_by first earlier).text (Ok before) → Spells (left_by first (later ++ earlier)).text (Ok known) → (line : List ℕ) → Contains before.evidence line → Contains known.evidence line }
    ensures finals { (key : List ℕ) (first : Stored) (later earlier : List (StateRun RunOrder)) → AllRunUnder H.digest_of V.accepted S.verified key first (later ++ earlier)
        → (before known : Memory) → Spells (left_by first earlier).text (Ok before) → Spells (left_by first (later ++ earlier)).text (Ok known) → (seen : FinalSeen) → Contains before.finals seen → Contains known.finals seen }
    ensures alarms { (key : List ℕ) (first : Stored) (later earlier : List (StateRun RunOrder)) → AllRunUnder H.digest_of V.accepted S.verified key first (later ++ earlier)
        → (before known : Memory) → Spells (left_by first earlier).text (Ok before) → Spells (left_by first (later ++ earlier)).text (Ok known)
        → (alarm : Warned) → Contains before.alarms alarm → AllByRecursion (LeavesUnsettled alarm.name) later → Contains known.alarms alarm }
    ensures own { (key : List ℕ) (first : Stored) (runs : List (StateRun RunOrder)) → AllRunUnder H.digest_of V.accepted S.verified key first runs
        → (known : Memory) → Spells (left_by first runs).text (Ok known) → (signed : SignedPromise) → WasOwn known signed → WasAskedFor first runs signed }
    ensures awaits { (key : List ℕ) (first : Stored) (later earlier : List (StateRun RunOrder)) → AllRunUnder H.digest_of V.accepted S.verified key first (later ++ earlier)
        → (before known : Memory) → Spells (left_by first earlier).text (Ok before) → Spells (left_by first (later ++ earlier)).text (Ok known)
        → (signed : SignedPromise) → WasOwn before signed → AllByRecursion (LeavesAwaited signed) later → WasOwn known signed }
    ensures watched { (key : List ℕ) (first : Stored) (later earlier : List (StateRun RunOrder)) (run : StateRun RunOrder) (monitors : List Monitor)
        → AllRunUnder H.digest_of V.accepted S.verified key first (later ++ run ∷ earlier) → StoresMarks (stored_after run.left) monitors
        → (known : Memory) → Spells (left_by first (later ++ run ∷ earlier)).text (Ok known) → (monitor : Monitor) → Contains monitors monitor
        → (root : SignedRoot) → Contains (left_by first (later ++ run ∷ earlier)).roots root → IsFrom monitor root
        → WasToldUnder H.digest_of V.accepted S.verified key first (later ++ run ∷ earlier) monitor.name root ⊎ IsToWatch known.marks monitor.name root }
{}

/// Each name that a line of a whole run asks to be watched has a monitor at its end, or a mark of an earlier run.
pub fn asked_names_are_watched<T: Read + Write, H: NodeHash, V: VufCheck, S: Verifier>()
    ensures { (key token : List ℕ) (options : AskOptions) (stream left : T) (input : Option (List ℕ)) (status : ℕ) (old new : Option (List ℕ)) (lines : List (List ℕ)) → lines_asked options.words input ≡ Some lines
        → (run : RunsWhole H.digest_of V.accepted S.verified (ExchangesFrames T.contents T.remaining) key token options (options.state ≡ None) stream left input status old new)
        → (name : List ℕ) (given : Option BoundKey) → IsAsked (Some lines) name given → HasMonitor run.last.monitors name ⊎ IsMarked run.background.marks name }
{}
