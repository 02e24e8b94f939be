ghost use Rattle.std.specs.Prelude.{◌≡◌, ◌⊎◌, ◌<◌, ◌≤◌, ℕ, List, [], ◌++◌, length, Some};
ghost use Rattle.rand_core.specs.Stream.{Stream};
ghost use Rattle.commands.specs.Operations.{Operation};
ghost use Rattle.book.specs.declared.reply.Reply.{Reply};
ghost use Rattle.book.specs.Books.{Book};
ghost use Rattle.book.specs.Shows.{index_of, Provider};
ghost use Rattle.journal.specs.declared.beginning.Beginning.{Beginning};
ghost use Rattle.journal.specs.Journals.{JournalState};
ghost use Rattle.journal.specs.Openings.{HasOtherKeys, IsBad, IsCut, OpensTo};
ghost use Rattle.journal.specs.Records.{start_bytes, IsStart};
ghost use Rattle.journal.specs.Reopened.{begun, with_stream, KeepsRun, OpensInto};

use std::io::Write;

/// Any beginning of what a journal holds after a run opens to a beginning of the run, or is shorter than
/// the start. What is held as a whole opens to the whole run.
pub fn journals_open_to_their_runs<W: Write + Drop>()
    ensures { (provider : Provider) (beginning : Beginning) (salts later : Stream) (keeper keeper_after : JournalState W) (after : Book)
        → (commands : List Operation) (replies : List Reply) (bytes front more : List ℕ)
        → IsStart beginning → 0 < beginning.epoch
        → W.contents keeper.writer ≡ Some (start_bytes beginning)
        → KeepsRun provider W.contents (begun beginning salts) keeper commands replies after keeper_after
        → W.contents keeper_after.writer ≡ Some bytes → bytes ≡ front ++ more
        → IsCut start_bytes IsStart front
        ⊎ ((middle : Book) × OpensInto provider W.contents beginning.signing_key beginning.vuf_key later (begun beginning salts) keeper commands replies front middle × (more ≡ [] → middle ≡ after)) }
{}

/// The same of a journal that a run goes on with: what it holds then is the bytes that it held, which open
/// as a whole to the book from which the run starts, and behind them what the run keeps. Any beginning
/// that is no shorter than these bytes opens to a beginning of the run.
pub fn journals_go_on<W: Write + Drop>()
    ensures { (provider : Provider) (signing_key vuf_key : List ℕ) (later : Stream) (keeper keeper_after : JournalState W) (book after : Book)
        → (commands : List Operation) (replies : List Reply) (held bytes front more : List ℕ)
        → W.contents keeper.writer ≡ Some held
        → OpensTo (index_of provider) signing_key vuf_key later held (with_stream later book) (length held)
        → KeepsRun provider W.contents book keeper commands replies after keeper_after
        → W.contents keeper_after.writer ≡ Some bytes → bytes ≡ front ++ more → length held ≤ length front
        → (middle : Book) × OpensInto provider W.contents signing_key vuf_key later book keeper commands replies front middle × (more ≡ [] → middle ≡ after) }
{}

/// Bytes that open do so in one way: to one book, by one number of bytes. They have no fault, and are no
/// start that was cut short.
pub fn openings_are_settled()
    ensures { (index_of : List ℕ → List ℕ) (signing_key vuf_key : List ℕ) (salts : Stream) (bytes : List ℕ) (book other : Book) (taken count : ℕ)
        → OpensTo index_of signing_key vuf_key salts bytes book taken
        → (OpensTo index_of signing_key vuf_key salts bytes other count → (other ≡ book) × (count ≡ taken))
        × (¬ IsCut start_bytes IsStart bytes) × (¬ IsBad index_of signing_key vuf_key salts bytes) × (¬ HasOtherKeys signing_key vuf_key bytes) }
{}

/// Bytes have at most one fault, and a start that was cut short has none.
pub fn faults_are_settled()
    ensures { (index_of : List ℕ → List ℕ) (signing_key vuf_key : List ℕ) (salts : Stream) (bytes : List ℕ)
        → (IsCut start_bytes IsStart bytes → (¬ IsBad index_of signing_key vuf_key salts bytes) × (¬ HasOtherKeys signing_key vuf_key bytes))
        × (IsBad index_of signing_key vuf_key salts bytes → ¬ HasOtherKeys signing_key vuf_key bytes) }
{}
