ghost use Rattle.std.specs.Prelude.{◌≡◌, ◌⊎◌, ℕ, List};
ghost use Rattle.std.specs.List.{AllZip};
ghost use Rattle.book.specs.Salts.{GivesSalts};
ghost use Rattle.epochs.specs.DirectoryStates.{book};
ghost use Rattle.hub.specs.DeskRuns.{IsSoundDesk, RefuseAlike, ShowHonestRun};
ghost use Rattle.hub.specs.Desks.{DeskState, DeskAnswers};
ghost use Rattle.hub.specs.Events.{BySession, Happening, HubState};
ghost use Rattle.hub.specs.Laws.{CutsBringTheSame};
ghost use Rattle.hub.specs.Runs.{bytes_of, each, unanswered, AllAnswered, AreOutputs, BringTheSame, Line, Runs};

use book::Keeper;
use nodehash::NodeHash;
use rand_core::Rng;
use sigiface::Signer;
use vrfiface::Vuf;

/// The messages that a desk answered one after another, of whichever sessions, show a run of its
/// directory: each reply shows the book as the commands of all messages before it leave it. The users
/// see of it what those of an honest provider see. This needs that each salt to come has 32 bytes, or that
/// the desk after them is known to be sound, as clause `well` of `Hub::head` ensures.
pub fn replies_are_honest<H: NodeHash, V: Vuf, S: Signer, R: Rng, K: Keeper>()
    ensures { (before after : DeskState R K) (lines : List Line)
        → IsSoundDesk H.digest_of V.value_of S.signature_of R.stream V.accepted S.verified before
        → GivesSalts (R.stream before.directory.salts) ⊎ IsSoundDesk H.digest_of V.value_of S.signature_of R.stream V.accepted S.verified after
        → AllAnswered (DeskAnswers H.digest_of V.value_of S.signature_of R.stream K.kept K.failed) before lines after
        → ShowHonestRun H.digest_of V.value_of S.signature_of R.stream K.kept K.failed V.accepted S.verified before lines after }
{}

/// Where the streams are cut does not matter. Two lists of events that bring the same messages in the
/// same order get the same replies, if memory does not run out and the keeper fails alike. They leave
/// the same book, and each session gets the same bytes.
pub fn cuts_do_not_matter<H: NodeHash, V: Vuf, S: Signer, R: Rng, K: Keeper>()
    ensures bring { CutsBringTheSame }
    ensures tell { (before after left : HubState (DeskState R K)) (events others : List Happening) (lines told : List Line) (outputs given : BySession (List ℕ))
        → IsSoundDesk H.digest_of V.value_of S.signature_of R.stream V.accepted S.verified before.service
        → BringTheSame (each unanswered before.sessions) events others
        → AllZip RefuseAlike lines told
        → Runs (DeskAnswers H.digest_of V.value_of S.signature_of R.stream K.kept K.failed) before events lines after
        → Runs (DeskAnswers H.digest_of V.value_of S.signature_of R.stream K.kept K.failed) before others told left
        → AreOutputs (each unanswered before.sessions) events lines outputs → AreOutputs (each unanswered before.sessions) others told given
        → (lines ≡ told) × (book R.stream after.service.directory ≡ book R.stream left.service.directory)
        × ((session : ℕ) → bytes_of outputs session ≡ bytes_of given session) }
{}
