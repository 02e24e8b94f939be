// The lines of the files in which a client's chain and what it keeps are stored between runs.
ghost use Rattle.hex.specs.Hex.{decode_of};
ghost use Rattle.std.specs.Prelude.{◌≡◌, ◌↔◌, ◌++◌, ◌∷◌, [], List, map, Err, IfErr, IfOk, IsTrue, Ok, OnOk};
ghost use Rattle.std.specs.List.{AllByRecursion};
ghost use Rattle.std.specs.List.Sorted.{IsNonDecreasingBy, IsPermutation, IsStableByKey};
ghost use Rattle.std.specs.Ordering.{nat_cmp};
ghost use Rattle.textio.specs.Lines.{lines_of};
ghost use Rattle.rootchain.specs.Promises.{IsSignedPromise};
ghost use Rattle.rootchain.specs.declared.signed_promise.SignedPromise.{SignedPromise as Signed};
ghost use Rattle.memory.specs.Lines.{IsSound};
ghost use Rattle.memory.specs.Lists.{HasNoRepeat};
ghost use Rattle.memory.specs.Memories.{name_of};
ghost use Rattle.memory.specs.Texts.{Spells, TakesLine};
ghost use Rattle.memory.specs.declared.item.Item.TheVariants as items;
ghost use Rattle.asking.specs.FinalBindings.{IsFinalIn, IsKnownIn};
ghost use Rattle.runs.specs.Loading.{fault_at, IsAccepted, IsFaultAt, IsNoHex, KeepsItem, KeepsLine, KeepsLines, RefusesItem, RefusesNext, RefusesRoot, TakesNext, TakesRoot, TakesRoots};
ghost use Rattle.runs.specs.Remembering.{own_of, AreOwnOf, AreWithin, IsOwnOf, IsWithin};
ghost use Rattle.runs.specs.RunFaults.{IsFaultOfState};
ghost use Rattle.runs.specs.Saves.{AreEarlier};
ghost use Rattle.client.specs.Clients.{with_promise, HasRootOf, IsPromised};
ghost use Rattle.runs.specs.Runs.{IsSameAsker, StillKeeps};

use asking::{Asker, Checks, Finals, is_final_in};
use client::Client;
use hex::FromHexError;
use memory::{FinalSeen, Item, Memory, Promised, copied_marks, first_line, read_item};
use nodehash::NodeHash;
use play::push_hex;
use rootchain::{Chain, Promise, SignedPromise};
use sigiface::Verifier;
use std::alloc::{AllocError, Global};
use textio::ProgramFault;
use vrfiface::VufCheck;

/// The bytes that a line of a file gives in hexadecimal digits.
pub(crate) fn line_bytes(alloc: Global, line: &[u8], number: u64) -> Result<Vec<u8>, ProgramFault>
    ensures bytes { IfOk result (λ bytes. decode_of line.now ≡ Ok bytes.items) }
    ensures names { IfErr result (IsFaultAt (λ bad. (bad ≡ number) × IsNoHex line.now)) }
    ensures err { IfErr result IsFaultOfState }
{
    match hex::decode(alloc, line) {
        Ok(bytes) => Ok(bytes),
        Err(FromHexError::OutOfMemory) => Err(ProgramFault::OutOfMemory),
        Err(_) => Err(ProgramFault::BadItem(number)),
    }
}

/// The fault for a line of a file that the client refuses.
pub(crate) fn fault_of(why: &client::Refusal, number: u64) -> ProgramFault
    ensures fault { result ≡ fault_at number why.now }
    ensures err { IsFaultOfState result }
{
    match why {
        client::Refusal::Memory => ProgramFault::OutOfMemory,
        client::Refusal::Root(_)
        | client::Refusal::Proof(_)
        | client::Refusal::UnknownRoot
        | client::Refusal::RootDiffers(_)
        | client::Refusal::NoPromise => ProgramFault::BadItem(number),
    }
}

/// Appends the list of one root, which these bytes are.
fn push_list(list: &mut Vec<u8>, root: &[u8]) -> Result<(), AllocError>
    ensures { OnOk result (list.new.items ≡ list.old.items ++ (0 ∷ 1 ∷ root.now)) }
{
    list.extend_from_slice(&[0, 1])?;
    list.extend_from_slice(root)
}

/// Takes the roots of the lines behind the first one of a text.
pub(crate) fn take_lines<H, V, S>(
    asker: &mut Asker<H, V, S>,
    behind: &[u8],
) -> Result<(), ProgramFault>
where
    H: NodeHash + Drop,
    V: VufCheck + Drop,
    S: Verifier + Drop,
    ensures same { IsSameAsker asker.old asker.new }
    ensures takes { OnOk result (TakesRoots H.digest_of S.verified 2 (lines_of behind.now) (asker.old).client (Ok (asker.new).client)) }
    ensures names { IfErr result (IsFaultAt (λ bad. TakesRoots H.digest_of S.verified 2 (lines_of behind.now) (asker.old).client (Err bad))) }
    ensures earlier { (asker.new).earlier ≡ (asker.old).earlier }
    ensures known { ((asker.new).known ≡ (asker.old).known) × ((asker.new).marks ≡ (asker.old).marks) × ((asker.new).changes ≡ (asker.old).changes) }
    ensures finals { (asker.new).finals ≡ (asker.old).finals }
    ensures err { IfErr result IsFaultOfState }
{
    let mut rest = behind;
    let mut number: u64 = 1;
    while !rest.is_empty() {
        let (line, more) = first_line(rest);
        number += 1;
        take_line(asker, line, number)?;
        rest = more;
    }
    Ok(())
}

/// Remembers what the lines of the second file have, with the promises for own changes in the order of their epochs.
/// Returns a memory of it that grows in the run.
pub(crate) fn remember<H, V, S>(
    asker: &mut Asker<H, V, S>,
    text: &[u8],
) -> Result<Memory, ProgramFault>
where
    H: NodeHash + Drop,
    V: VufCheck + Drop,
    S: Verifier + Drop,
    ensures same { IsSameAsker asker.old asker.new }
    ensures kept { OnOk result (StillKeeps asker.old asker.new) }
    ensures keeps { OnOk result (KeepsLines H.digest_of V.accepted S.verified 1 (lines_of text.now) (asker.old).client (Ok (asker.new).client)) }
    ensures names { IfErr result (IsFaultAt (λ bad. KeepsLines H.digest_of V.accepted S.verified 1 (lines_of text.now) (asker.old).client (Err bad))) }
    ensures spells { IfOk result (λ memory. Spells text.now (Ok memory) × (memory ≡ (asker.new).known)) }
    ensures marks { OnOk result ((asker.new).marks.items ≡ (asker.new).known.marks) }
    ensures earlier { OnOk result ((own : List Signed) × AreOwnOf (lines_of text.now) own × IsPermutation ((asker.old).earlier.items ++ own) (asker.new).earlier.items) }
    ensures own { OnOk result ((asker.old).earlier.items ≡ [] → AreEarlier (asker.new).known (asker.new).earlier.items) }
    ensures formed { OnOk result (AllByRecursion IsSignedPromise (asker.old).earlier.items → AllByRecursion IsSignedPromise (asker.new).earlier.items) }
    ensures chain { (asker.new).client.chain ≡ (asker.old).client.chain }
    ensures changes { (asker.new).changes ≡ (asker.old).changes }
    ensures within { OnOk result (AreWithin (asker.old).client.chain (asker.new).known) }
    ensures finals { OnOk result (IsKnownIn (asker.new).known (asker.new).finals) }
    ensures once { OnOk result (HasNoRepeat (map name_of (asker.new).known.marks)) }
    ensures err { IfErr result IsFaultOfState }
{
    let memory = remember_lines(asker, text)?;
    asker.marks = copied_marks(asker.alloc, memory.marks())?;
    asker.known = memory.copied(asker.alloc)?;
    asker.finals = Finals::remembered(asker.alloc, &asker.known)?;
    sort_promises(&mut asker.earlier)?;
    Ok(memory)
}

/// Remembers the lines one after another.
fn remember_lines<H, V, S>(asker: &mut Asker<H, V, S>, text: &[u8]) -> Result<Memory, ProgramFault>
where
    H: NodeHash + Drop,
    V: VufCheck + Drop,
    S: Verifier + Drop,
    ensures same { IsSameAsker asker.old asker.new }
    ensures kept { OnOk result (StillKeeps asker.old asker.new) }
    ensures keeps { OnOk result (KeepsLines H.digest_of V.accepted S.verified 1 (lines_of text.now) (asker.old).client (Ok (asker.new).client)) }
    ensures names { IfErr result (IsFaultAt (λ bad. KeepsLines H.digest_of V.accepted S.verified 1 (lines_of text.now) (asker.old).client (Err bad))) }
    ensures spells { IfOk result (λ memory. Spells text.now (Ok memory)) }
    ensures earlier { OnOk result ((own : List Signed) × AreOwnOf (lines_of text.now) own × ((asker.new).earlier.items ≡ (asker.old).earlier.items ++ own)) }
    ensures chain { (asker.new).client.chain ≡ (asker.old).client.chain }
    ensures changes { (asker.new).changes ≡ (asker.old).changes }
    ensures within { IfOk result (λ memory. AreWithin (asker.old).client.chain memory) }
    ensures err { IfErr result IsFaultOfState }
{
    let mut memory = Memory::new(asker.alloc);
    let mut rest = text;
    let mut number: u64 = 0;
    while !rest.is_empty() {
        let (line, behind) = first_line(rest);
        number += 1;
        remember_line(asker, line, number, &mut memory)?;
        rest = behind;
    }
    Ok(memory)
}

/// Takes the root of a line. An empty line is passed over.
fn take_line<H, V, S>(
    asker: &mut Asker<H, V, S>,
    line: &[u8],
    number: u64,
) -> Result<(), ProgramFault>
where
    H: NodeHash + Drop,
    V: VufCheck + Drop,
    S: Verifier + Drop,
    ensures same { IsSameAsker asker.old asker.new }
    ensures takes { OnOk result (TakesNext (TakesRoot H.digest_of S.verified) line.now (asker.old).client (asker.new).client) }
    ensures names { IfErr result (IsFaultAt (λ bad. (bad ≡ number) × RefusesNext (RefusesRoot H.digest_of S.verified) line.now (asker.old).client)) }
    ensures earlier { (asker.new).earlier ≡ (asker.old).earlier }
    ensures known { ((asker.new).known ≡ (asker.old).known) × ((asker.new).marks ≡ (asker.old).marks) × ((asker.new).changes ≡ (asker.old).changes) }
    ensures finals { (asker.new).finals ≡ (asker.old).finals }
    ensures err { IfErr result IsFaultOfState }
{
    if line.is_empty() {
        return Ok(());
    }
    let root = line_bytes(asker.alloc, line, number)?;
    let mut list = Vec::new(asker.alloc);
    push_list(&mut list, &root)?;
    let checks = &mut asker.checks;
    match asker
        .client
        .update(&mut checks.hash, &checks.verifier, &list)
    {
        Ok(()) => Ok(()),
        Err(why) => Err(fault_of(&why, number)),
    }
}

/// Remembers what a line of the second file has. A promise is one that the client accepts, and no mark is above the
/// chain's head. An empty line is passed over.
fn remember_line<H, V, S>(
    asker: &mut Asker<H, V, S>,
    line: &[u8],
    number: u64,
    memory: &mut Memory,
) -> Result<(), ProgramFault>
where
    H: NodeHash + Drop,
    V: VufCheck + Drop,
    S: Verifier + Drop,
    ensures same { IsSameAsker asker.old asker.new }
    ensures kept { OnOk result (StillKeeps asker.old asker.new) }
    ensures keeps { OnOk result (TakesNext (KeepsLine H.digest_of V.accepted S.verified) line.now (asker.old).client (asker.new).client) }
    ensures names { IfErr result (IsFaultAt (λ bad. (bad ≡ number) × RefusesNext (RefusesItem H.digest_of V.accepted S.verified) line.now (asker.old).client)) }
    ensures takes { OnOk result (TakesLine line.now number memory.old memory.new (Ok tt)) }
    ensures earlier { OnOk result ((own : List Signed) × IsOwnOf line.now own × ((asker.new).earlier.items ≡ (asker.old).earlier.items ++ own)) }
    ensures chain { (asker.new).client.chain ≡ (asker.old).client.chain }
    ensures changes { (asker.new).changes ≡ (asker.old).changes }
    ensures within { OnOk result (AreWithin (asker.old).client.chain memory.old → AreWithin (asker.old).client.chain memory.new) }
    ensures err { IfErr result IsFaultOfState }
{
    if line.is_empty() {
        return Ok(());
    }
    let Some(item) = read_item(asker.alloc, line)? else {
        return Err(ProgramFault::BadItem(number));
    };
    accept(asker, &item, number)?;
    let _new = memory.take(item)?;
    Ok(())
}

/// Keeps the promise of an item. Refuses a mark above the chain's head, and a reply that does not state a key with Final, or is
/// not accepted under the chain's root of its epoch.
fn accept<H, V, S>(asker: &mut Asker<H, V, S>, item: &Item, number: u64) -> Result<(), ProgramFault>
where
    H: NodeHash + Drop,
    V: VufCheck + Drop,
    S: Verifier + Drop,
    ensures same { IsSameAsker asker.old asker.new }
    ensures kept { OnOk result (StillKeeps asker.old asker.new) }
    ensures keeps { OnOk result (IsSound item.now → KeepsItem H.digest_of V.accepted S.verified item.now (asker.old).client (asker.new).client) }
    ensures names { IfErr result (IsFaultAt (λ bad. (bad ≡ number) × ¬ IsAccepted H.digest_of V.accepted S.verified (asker.old).client.chain item.now)) }
    ensures earlier { OnOk result (IsSound item.now → (asker.new).earlier.items ≡ (asker.old).earlier.items ++ own_of item.now) }
    ensures marks { OnOk result (IsWithin (asker.old).client.chain item.now) }
    ensures chain { (asker.new).client.chain ≡ (asker.old).client.chain }
    ensures changes { (asker.new).changes ≡ (asker.old).changes }
    ensures err { IfErr result IsFaultOfState }
{
    match item {
        Item::Promised(promised) => keep_earlier(asker, promised, number),
        Item::Watched(mark) if asker.head() < mark.epoch => Err(ProgramFault::BadItem(number)),
        Item::Watched(_) => Ok(()),
        Item::Final(seen) => accept_final(asker, seen, number),
        Item::Alarm(_) => Ok(()),
        Item::Evidence(_) => Ok(()),
    }
}

/// Refuses a reply that does not state a key with Final, or is not accepted for its name under the chain's root of its epoch.
fn accept_final<H, V, S>(
    asker: &mut Asker<H, V, S>,
    seen: &FinalSeen,
    number: u64,
) -> Result<(), ProgramFault>
where
    H: NodeHash + Drop,
    V: VufCheck + Drop,
    S: Verifier + Drop,
    ensures same { IsSameAsker asker.old asker.new }
    ensures client { (asker.new).client ≡ (asker.old).client }
    ensures earlier { (asker.new).earlier ≡ (asker.old).earlier }
    ensures changes { (asker.new).changes ≡ (asker.old).changes }
    ensures shown { OnOk result (IsFinalIn H.digest_of V.accepted (asker.old).client.chain seen.now) }
    ensures names { IfErr result (IsFaultAt (λ bad. (bad ≡ number) × ¬ IsFinalIn H.digest_of V.accepted (asker.old).client.chain seen.now)) }
    ensures err { IfErr result IsFaultOfState }
{
    let checks = &mut asker.checks;
    if is_final_in(asker.client.chain(), checks, seen) {
        Ok(())
    } else {
        Err(ProgramFault::BadItem(number))
    }
}

/// Keeps a promise of an earlier run. One for a change of the owner's own is expected by monitors that begin.
fn keep_earlier<H, V, S>(
    asker: &mut Asker<H, V, S>,
    promised: &Promised,
    number: u64,
) -> Result<(), ProgramFault>
where
    H: NodeHash + Drop,
    V: VufCheck + Drop,
    S: Verifier + Drop,
    ensures same { IsSameAsker asker.old asker.new }
    ensures kept { OnOk result (StillKeeps asker.old asker.new) }
    ensures keeps { OnOk result (IsSignedPromise promised.now.signed → KeepsItem H.digest_of V.accepted S.verified (items.Promised promised.now) (asker.old).client (asker.new).client) }
    ensures names { IfErr result (IsFaultAt (λ bad. (bad ≡ number) × ¬ IsPromised H.digest_of S.verified (asker.old).client.chain promised.now.signed)) }
    ensures earlier { OnOk result (IsSignedPromise promised.now.signed → (asker.new).earlier.items ≡ (asker.old).earlier.items ++ own_of (items.Promised promised.now)) }
    ensures chain { (asker.new).client.chain ≡ (asker.old).client.chain }
    ensures changes { (asker.new).changes ≡ (asker.old).changes }
    ensures err { IfErr result IsFaultOfState }
{
    keep_again(asker, &promised.signed, number)?;
    if !promised.is_own {
        return Ok(());
    }
    asker.earlier.push(promised.signed.copied())?;
    Ok(())
}

/// Keeps a promise once more.
fn keep_again<H, V, S>(
    asker: &mut Asker<H, V, S>,
    signed: &SignedPromise,
    number: u64,
) -> Result<(), ProgramFault>
where
    H: NodeHash + Drop,
    V: VufCheck + Drop,
    S: Verifier + Drop,
    ensures same { IsSameAsker asker.old asker.new }
    ensures kept { OnOk result ((asker.new).client ≡ with_promise (asker.old).client signed.now) }
    ensures promised { OnOk result (IsPromised H.digest_of S.verified (asker.old).client.chain signed.now) }
    ensures names { IfErr result (IsFaultAt (λ bad. (bad ≡ number) × ¬ IsPromised H.digest_of S.verified (asker.old).client.chain signed.now)) }
    ensures earlier { (asker.new).earlier ≡ (asker.old).earlier }
    ensures chain { (asker.new).client.chain ≡ (asker.old).client.chain }
    ensures changes { (asker.new).changes ≡ (asker.old).changes }
    ensures err { IfErr result IsFaultOfState }
{
    let checks = &mut asker.checks;
    if !is_promised(asker.client.chain(), checks, signed) {
        return Err(ProgramFault::BadItem(number));
    }
    match asker.client.keep_read(signed.copied()) {
        Ok(()) => Ok(()),
        Err(_) => Err(ProgramFault::OutOfMemory),
    }
}

/// Whether a promise is one of the chain's provider, and of a root of the chain.
fn is_promised<H, V, S>(
    chain: &Chain<H, S>,
    checks: &mut Checks<H, V, S>,
    signed: &SignedPromise,
) -> bool
where
    H: NodeHash + Drop,
    V: VufCheck + Drop,
    S: Verifier + Drop,
    ensures { IsTrue result ↔ IsPromised H.digest_of S.verified chain.now signed.now }
{
    is_formed(signed)
        && signed.verifies(&checks.verifier, chain.key())
        && has_root_of(chain, &mut checks.hash, &signed.promise)
}

/// Whether a promise has a form: its epoch is not 0.
fn is_formed(signed: &SignedPromise) -> bool
    ensures { IsTrue result ↔ IsSignedPromise signed.now }
{
    // What `bytes` ensures of the parts: they have their lengths.
    let promise = &signed.promise;
    let _name = promise.name.bytes();
    let _key = promise.key.bytes();
    let _signature = signed.signature.bytes();
    let (_hash, _index) = (promise.body_hash.bytes(), promise.index.bytes());
    promise.epoch != 0
}

/// Whether a root of the chain has the epoch and the hash of a promise.
fn has_root_of<H, S>(chain: &Chain<H, S>, hash: &mut H, promise: &Promise) -> bool
where
    H: NodeHash + Drop,
    S: Verifier + Drop,
    ensures { IsTrue result ↔ HasRootOf H.digest_of chain.now promise.now }
{
    match chain.at(promise.epoch) {
        Some(root) => promise.body_hash == hash.digest(root.body.write().bytes()),
        None => false,
    }
}

/// The lines of the roots of a client's chain above an epoch.
pub(crate) fn roots_text<H, V, S>(
    alloc: Global,
    client: &Client<H, V, S>,
    epoch: u64,
) -> Result<Vec<u8>, AllocError>
where
    H: NodeHash + Drop,
    V: VufCheck + Drop,
    S: Verifier + Drop,
{
    let mut text = Vec::new(alloc);
    let mut last = epoch;
    // Every loop of Rattle has an end: this one's is past any chain.
    for _ in 0..u64::MAX {
        let Some(root) = client.chain().after(last) else {
            break;
        };
        push_hex(&mut text, root.write().bytes())?;
        text.push(b'\n')?;
        last = root.body.epoch;
    }
    Ok(text)
}

/// Puts promises in the order of their epochs, in which monitors take them. Those of one epoch stay as they stand.
fn sort_promises(promises: &mut Vec<SignedPromise>) -> Result<(), AllocError>
    ensures permutation { IsPermutation promises.old.items promises.new.items }
    ensures ascend { OnOk result (IsNonDecreasingBy (λ (signed : Signed). signed.promise.epoch) promises.new.items) }
    ensures stable { OnOk result (IsStableByKey (λ (signed : Signed). signed.promise.epoch) nat_cmp promises.old.items promises.new.items) }
{
    promises.sort_by_key(|signed| signed.promise.epoch)?;
    Ok(())
}
