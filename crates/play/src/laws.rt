ghost use Rattle.std.specs.Prelude.{ℕ, List};
ghost use Rattle.std.specs.List.{AllByRecursion};
ghost use Rattle.commands.specs.Operations.{Operation};
ghost use Rattle.book.specs.declared.reply.Reply.{Reply};
ghost use Rattle.book.specs.Books.{Book};
ghost use Rattle.book.specs.Honest.{IsHonestRun};
ghost use Rattle.book.specs.ProviderLaws.{KeepsLaws};
ghost use Rattle.book.specs.Shows.{index_of, Provider};
ghost use Rattle.book.specs.Sound.{IsSound};
ghost use Rattle.book.specs.Turns.{Run};
ghost use Rattle.hub.specs.DeskRuns.{AreResponses, ShowReplies};
ghost use Rattle.hub.specs.Runs.{Line};
ghost use Rattle.play.specs.Answering.{AnswersAreTold, LookupsAreShown};
ghost use Rattle.play.specs.Calls.{CallsAreHonest};
ghost use Rattle.play.specs.Checking.{LooksAreTold, StepsAreTold};
ghost use Rattle.play.specs.Hearing.{AreHeardAs, AsksWhatReaches, FramesAsk, IsGranted, IsOfBytes, RunsAreHeard};
ghost use Rattle.play.specs.InTime.{MonitorsAreInTime, PromisesAreLater};
ghost use Rattle.play.specs.Laws.{HistoryGoesOn, LinesArePlain, MonitorsGoOn, NothingIsRefused};
ghost use Rattle.play.specs.Scripts.{token};

use book::Keeper;
use hub::Service;
use sigiface::Verifier;
use vrfiface::VufCheck;

/// What users see of an honest provider's run (`IsHonestRun`, which the runs of a directory and of a hub
/// ensure) decides what their own calls return, if memory does not run out: looks and promises are accepted
/// (but for the look at a double index), promises are found kept, a monitor's step is `Kept` exactly where
/// the page has what the owner expects, no look finds a final binding changed, an auditor follows the roots, and
/// nothing that was issued is evidence.
pub fn honest<V: VufCheck, S: Verifier>()
    ensures { (provider : Provider) (key : List ℕ) (before after : Book) (commands : List Operation) (replies : List Reply)
        → IsHonestRun provider V.accepted S.verified key before after commands replies
        → CallsAreHonest provider V.accepted S.verified key before after commands replies }
{}

/// No line of a script is evidence, and a client refuses nothing but the proof of a double index. Where
/// the names that are looked up and watched have indices of their own, it refuses nothing.
pub fn lines_are_plain()
    ensures always { LinesArePlain }
    ensures apart { NothingIsRefused }
{}

/// The definition of scripts asks of a directory what the messages of sessions ask of it, and tells what
/// the frames of their replies say, if no command was refused for want of memory or since a record was not
/// kept, and each message is bytes. The other premises are what `Hub::run` and the clause `well` of
/// `Hub::head` ensure.
pub fn sessions_are_heard<V: VufCheck, S: Verifier, K: Keeper>()
    ensures asks { AsksWhatReaches }
    ensures frames { FramesAsk }
    ensures told { (provider : Provider) (key : List ℕ) (before after : Book) (keeper later : K) (lines : List Line) (commands : List Operation) (replies : List Reply)
        → IsSound (index_of provider) before
        → AllByRecursion IsOfBytes lines → AllByRecursion IsGranted replies
        → (shown : ShowReplies token lines commands replies)
        → Run provider K.kept K.failed before keeper commands replies after later
        → AreResponses token lines commands replies shown
        → IsHonestRun provider V.accepted S.verified key before after commands replies
        → AreHeardAs (index_of provider) before lines after }
{}

/// What a client makes of an honest provider's reply to a look-up, and a monitor of one for its name, is
/// what the definition of scripts prints of the page: also at a double index, whose proof is refused with 5.
/// Want of memory aside, no other refusal comes.
pub fn checks_are_told<V: VufCheck, S: Verifier>()
    ensures looks { (provider : Provider) (key : List ℕ) → KeepsLaws V.accepted S.verified key provider → LooksAreTold provider V.accepted S.verified }
    ensures steps { (provider : Provider) (key : List ℕ) → KeepsLaws V.accepted S.verified key provider → StepsAreTold provider V.accepted S.verified }
{}

/// Who has the pages of a sound book up to one of them, and asks for those from the next epoch on, is told the
/// pages behind it, up to the number that was asked for. A monitor that has that page behind it watches them.
pub fn pages_go_on()
    ensures history { HistoryGoesOn }
    ensures monitors { MonitorsGoOn }
{}

/// The messages of a run of a hub, of whichever sessions, are those that the definition of scripts hears of
/// its events, and each session then holds what the definition says. Any service may stand behind the hub.
pub fn runs_are_heard<D: Service>()
    ensures { RunsAreHeard D.answers }
{}

/// A promise that is handed to a monitor is above all changes that it expects. (That no later epoch was
/// watched is not said here.)
pub fn promises_are_in_time()
    ensures monitors { MonitorsAreInTime }
    ensures promises { PromisesAreLater }
{}

/// What a directory answers to a line that asks is what the definition of scripts says of the line, unless
/// memory ran out or a record was not kept: the line of its response, or, to a look-up, a reply of which
/// `checks_are_told` says what a client makes of it.
pub fn answers_are_told<K: Keeper>()
    ensures answers { (provider : Provider) → AnswersAreTold provider K.kept K.failed }
    ensures lookups { (provider : Provider) → LookupsAreShown provider K.kept K.failed }
{}
