ghost use Rattle.std.specs.Prelude.{◌≡◌, ◌⊎◌, ℕ, ◌<◌, List, [], ◌∷◌, ◌++◌, length, map, All, AllPairs, Bool, Option, unwrap_or};
ghost use Rattle.std.specs.List.{AllZip};
ghost use Rattle.encoding.specs.Bytes.{Is32Bytes};
ghost use Rattle.rand_core.specs.Stream.{fill_bytes, Stream};
ghost use Rattle.book.specs.Steps.{Answer, Answers, step};
ghost use Rattle.commands.specs.Operations.{Operation, Edit, IsCommand, Turn};
ghost use Rattle.rootchain.specs.Promises.{IsEpoch};
ghost use Rattle.rootchain.specs.declared.body.Body.{Body};
ghost use Rattle.book.specs.Books.{Book, Page, pages};
ghost use Rattle.book.specs.Folds.{Fate, TellsOutcome, steps_under_fates};
ghost use Rattle.book.specs.Fresh.{fresh};
ghost use Rattle.book.specs.Honest.{IsHonestRun};
ghost use Rattle.book.specs.Keeps.{fails_next, keeps_next};
ghost use Rattle.book.specs.ProviderLaws.{KeepsLaws};
ghost use Rattle.encoding.specs.Maps.{at, overwritten};
ghost use Rattle.book.specs.Salted.{salted};
ghost use Rattle.book.specs.Salts.{GivesSalts};
ghost use Rattle.book.specs.Replies.{reply_content, FailAlike};
ghost use Rattle.book.specs.Shows.{index_of, IsReplyOf, Provider};
ghost use Rattle.book.specs.Sound.{IsSound};
ghost use Rattle.book.specs.Turns.{Run};
ghost use Rattle.book.specs.declared.reply.Reply.{Reply};

use crate::Keeper;
use sigiface::Verifier;
use vrfiface::VufCheck;

/// Whatever is asked of a directory, and whatever is kept of it: the users of an honest provider see
/// one chain of roots, accept each reply with what the pages have, and have each promise kept. Only
/// the reply to a look-up that meets another name with its index is not accepted: checking refuses it
/// for just that. This needs that each salt to come has 32 bytes, or that the book after the run is known
/// to be sound, as that of a directory is.
pub fn honest<V: VufCheck, S: Verifier, K: Keeper>()
    ensures { (provider : Provider) (key : List ℕ) (book after : Book) (keeper keeper_after : K) (commands : List Operation) (replies : List Reply)
        → KeepsLaws V.accepted S.verified key provider
        → IsSound (index_of provider) book
        → GivesSalts book.left ⊎ IsSound (index_of provider) after
        → All IsCommand commands
        → Run provider K.kept K.failed book keeper commands replies after keeper_after
        → IsHonestRun provider V.accepted S.verified key book after commands replies }
{}

/// A book begins sound, and is sound after each run from a sound book, whatever is asked and kept, if
/// each salt to come has 32 bytes. So do the salts that are left after the run.
pub fn soundness_stays<K: Keeper>()
    ensures fresh { (index_of : List ℕ → List ℕ) (epoch : ℕ) (nonce : List ℕ) (salts : Stream)
        → IsEpoch epoch → Is32Bytes nonce → GivesSalts salts
        → IsSound index_of (fresh epoch nonce salts) × GivesSalts (fresh epoch nonce salts).left }
    ensures runs { (provider : Provider) (book after : Book) (keeper keeper_after : K) (commands : List Operation) (replies : List Reply)
        → IsSound (index_of provider) book → GivesSalts book.left
        → All IsCommand commands
        → Run provider K.kept K.failed book keeper commands replies after keeper_after
        → IsSound (index_of provider) after × GivesSalts after.left }
{}

/// A run with any keeper is one with a list that says of each record whether it was kept.
pub fn keeps_are_listed<K: Keeper>()
    ensures { (provider : Provider) (book after : Book) (keeper keeper_after : K) (commands : List Operation) (replies : List Reply)
        → Run provider K.kept K.failed book keeper commands replies after keeper_after
        → (keeps : List Bool) × Run provider keeps_next fails_next book keeps commands replies after [] }
{}

/// Runs one after another are a run.
pub fn runs_join<K: Keeper>()
    ensures { (provider : Provider) (book middle after : Book) (keeper keeper_between keeper_after : K) (commands others : List Operation) (replies answers : List Reply)
        → Run provider K.kept K.failed book keeper commands replies middle keeper_between
        → Run provider K.kept K.failed middle keeper_between others answers after keeper_after
        → Run provider K.kept K.failed book keeper (commands ++ others) (replies ++ answers) after keeper_after }
{}

/// The commands settle a run, whatever keeps the records: where no call runs out of memory, and the
/// keepers fail alike, another run of the same commands has the same replies, and leaves the same book.
pub fn runs_are_settled<K: Keeper, L: Keeper>()
    ensures { (provider : Provider) (book after left : Book) (keeper later : K) (beside behind : L) (commands : List Operation) (replies others : List Reply)
        → IsSound (index_of provider) book
        → AllZip FailAlike replies others
        → Run provider K.kept K.failed book keeper commands replies after later
        → Run provider L.kept L.failed book beside commands others left behind
        → (after ≡ left) × (map reply_content replies ≡ map reply_content others) }
{}

/// A run, with whatever keeper, is the fold of the steps of its commands under some fate of each:
/// it ends in the run's last book, and each reply is the outcome's refusal, or is of its answer's
/// kind. What a reply shows is in the run.
pub fn runs_are_folds<K: Keeper>()
    ensures { (provider : Provider) (book after : Book) (keeper keeper_after : K)
        → (commands : List Operation) (replies : List Reply)
        → Run provider K.kept K.failed book keeper commands replies after keeper_after
        → (fates : List Fate) × (length fates ≡ length commands)
        × ((steps_under_fates (index_of provider) book commands fates).1 ≡ after)
        × AllZip TellsOutcome (steps_under_fates (index_of provider) book commands fates).0 replies }
{}

/// A close that is not refused makes a page of its epoch and nonce, of the last page's map overwritten
/// by what waited. Every earlier page stays as it was, and nothing waits.
pub fn closing_overwrites()
    ensures { (index_of : List ℕ → List ℕ) (book after : Book) (epoch : ℕ) (nonce : Option (List ℕ)) (answer : Answer)
        → step index_of book (Edit (Turn epoch nonce)) ≡ (Answers answer, after)
        → (after.last.epoch ≡ epoch) × (after.last.nonce ≡ unwrap_or nonce book.last.nonce)
        × (after.last.bindings ≡ overwritten book.last.bindings book.pending)
        × (after.earlier ≡ pages book) × (after.pending ≡ []) }
{}

/// After a run from a sound book the pages are those before, followed by others, and their epochs
/// ascend.
pub fn pages_grow<K: Keeper>()
    ensures { (provider : Provider) (book after : Book) (keeper keeper_after : K)
        → (commands : List Operation) (replies : List Reply)
        → IsSound (index_of provider) book
        → Run provider K.kept K.failed book keeper commands replies after keeper_after
        → (more : List Page) × (pages after ≡ pages book ++ more)
        × AllPairs (λ earlier later. earlier.epoch < later.epoch) (pages after) }
{}

/// A stream with salts in front gives them first, and then is the stream.
pub fn salts_come_first()
    ensures { (salt : List ℕ) (more : List (List ℕ)) (salts : Stream) → fill_bytes 32 (salted (salt ∷ more) salts) ≡ (salt, salted more salts) }
{}

/// Each look-up has a reply.
pub fn replies_exist()
    ensures { (provider : Provider) → ((text : List ℕ) → Is32Bytes (provider.hash text)) → (page : Page) (body : Body) (name : List ℕ)
        → (text : List ℕ) × IsReplyOf provider page body name (at page.bindings name) text }
{}
