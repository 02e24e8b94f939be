// Where a run keeps its state. Contracts know what is handed to it, and what was written to the output before that.
ghost use Rattle.std.specs.Prelude.{◌≡◌, ◌∷◌, ℕ, [], List, IfErr, IfOk, OnErr};
ghost use Rattle.textio.specs.Output.{WritesSome};
ghost use Rattle.asking.specs.Askers.{asker_changes, asker_client, asker_earlier, asker_finals, asker_key, asker_known, asker_marks, asker_monitors, asker_token};
ghost use Rattle.asking.specs.FinalBindings.{IsKnownIn};
ghost use Rattle.runs.specs.Remembering.{AreWithin};
ghost use Rattle.asking.specs.Reports.{report_of};
ghost use Rattle.runs.specs.RunFaults.{IsFaultOfSaving, IsFaultOfState};
ghost use Rattle.runs.specs.Runs.{KeepsAll};
ghost use Rattle.runs.specs.Saves.{roots_above, stored_nothing, Act, AddsLines, AddsRoots, AreEarlier, HasOneOfEachName, Loads, LoadsFor, Writes};

use asking::{Asker, Checks, Said};
use client::Client;
use encoding::Hash32;
use memory::Memory;
use nodehash::NodeHash;
use sigiface::Verifier;
use std::io::Write;
use textio::ProgramFault;
use vrfiface::VufCheck;

/// What was kept of earlier runs.
#[derive(Drop)]
pub struct Loaded<H, V, S>
where
    H: NodeHash + Drop,
    V: VufCheck + Drop,
    S: Verifier + Drop,
{
    /// What asks with the chain, and knows what is remembered.
    pub asker: Asker<H, V, S>,
    /// The same memory once more. It grows while the run goes on.
    pub memory: Memory,
    /// How many bytes are kept of it.
    pub size: usize,
}

/// Where a run keeps its state: the roots of a chain, and the memory beside them. Lines are added to both while the run goes
/// on, and are there before a call returns. At its end the memory may be written anew.
pub trait Keeper {
    // These acts have happened, the latest first.
    ghost has: { Self → List Act → Type 0 };

    /// Opens what is kept, and reads it. The checks come back if there is no chain yet.
    ///
    /// # Errors
    ///
    /// `CannotRead`; `CannotWrite`; `BadItem` at the first line that is not as a run wrote it; `OutOfMemory`.
    fn load<H, V, S>(
        &mut self,
        checks: Checks<H, V, S>,
        key: Hash32,
        token: Hash32,
        said: &mut Said,
    ) -> Result<Result<Loaded<H, V, S>, Checks<H, V, S>>, ProgramFault>
    where
        H: NodeHash + Drop,
        V: VufCheck + Drop,
        S: Verifier + Drop,
        ensures loads { IfOk result (λ loaded. IfOk loaded (λ found. LoadsFor (has self.old) (has self.new) found.asker)) }
        ensures fresh { IfOk result (λ loaded. IfErr loaded (λ unused. (acts : List Act) → has self.old acts → has self.new (Loads stored_nothing ∷ acts))) }
        ensures fails { OnErr result ((acts : List Act) → has self.old acts → has self.new acts) }
        ensures knows { IfOk result (λ loaded. IfOk loaded (λ found. (asker_key found.asker ≡ key) × (asker_token found.asker ≡ token) × (asker_monitors found.asker ≡ []) × (asker_changes found.asker ≡ []))) }
        ensures chain { IfOk result (λ loaded. IfOk loaded (λ found. (asker_client found.asker).chain.key ≡ key)) }
        ensures kept { IfOk result (λ loaded. IfOk loaded (λ found. KeepsAll (asker_client found.asker) (asker_earlier found.asker))) }
        ensures own { IfOk result (λ loaded. IfOk loaded (λ found. AreEarlier (asker_known found.asker) (asker_earlier found.asker))) }
        ensures memory { IfOk result (λ loaded. IfOk loaded (λ found. (found.memory ≡ asker_known found.asker) × (asker_marks found.asker ≡ found.memory.marks))) }
        ensures marks { IfOk result (λ loaded. IfOk loaded (λ found. AreWithin (asker_client found.asker).chain found.memory × HasOneOfEachName found.memory)) }
        ensures finals { IfOk result (λ loaded. IfOk loaded (λ found. IsKnownIn (asker_known found.asker) (asker_finals found.asker))) }
        ensures said { report_of said.new ≡ report_of said.old }
        ensures err { IfErr result IsFaultOfState };

    /// Adds the roots of a client's chain that are above an epoch. After a fault some of them may be there.
    ///
    /// # Errors
    ///
    /// `CannotWrite`; `OutOfMemory`.
    fn add_roots<H, V, S, W>(
        &mut self,
        client: &Client<H, V, S>,
        epoch: u64,
        writer: &W,
    ) -> Result<(), ProgramFault>
    where
        H: NodeHash + Drop,
        V: VufCheck + Drop,
        S: Verifier + Drop,
        W: Write,
        ensures acts { (acts : List Act) → has self.old acts → has self.new (AddsRoots (roots_above epoch client.now.chain.roots) (W.contents writer.now) ∷ acts) }
        ensures err { IfErr result IsFaultOfSaving };

    /// Adds lines to the text of the memory. After a fault some of them may be there.
    ///
    /// # Errors
    ///
    /// `CannotWrite`; `OutOfMemory`.
    fn add<W: Write>(&mut self, lines: &[u8], writer: &W) -> Result<(), ProgramFault>
        ensures acts { (acts : List Act) → has self.old acts → has self.new (AddsLines lines.now (W.contents writer.now) ∷ acts) }
        ensures err { IfErr result IsFaultOfSaving };

    /// Writes the text of the memory anew. After a fault there is what was there, or all of it.
    ///
    /// # Errors
    ///
    /// `CannotWrite`; `OutOfMemory`.
    fn replace<W: Write>(&mut self, text: &[u8], writer: &W) -> Result<(), ProgramFault>
        ensures acts { (acts : List Act) → has self.old acts → has self.new (Writes text.now (W.contents writer.now) ∷ acts) }
        ensures err { IfErr result IsFaultOfSaving };

    /// Says why something could not be added or written, in a line of the errors, if anything could not.
    fn tell_unsaved<E: Write>(&self, errors: &mut E)
        ensures { (text : List ℕ) × WritesSome (E.contents errors.old) (E.contents errors.new) text };
}
