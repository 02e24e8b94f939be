ghost use Rattle.std.specs.Prelude.{◌≡◌, ◌≢◌, [], Err, IfErr, IfOk, Ok};
ghost use Rattle.rootchain.specs.Chains.{IsHead};
ghost use Rattle.rootchain.specs.declared.signed_root.SignedRoot.{SignedRoot};
ghost use Rattle.client.specs.Starting.{Starts};
ghost use Rattle.memory.specs.Memories.{nothing};
ghost use Rattle.asking.specs.Askers.{asker_changes, asker_client, asker_earlier, asker_finals, asker_key, asker_known, asker_marks, asker_monitors, asker_token};
ghost use Rattle.asking.specs.Exchanges.{ExchangesFrames};
ghost use Rattle.asking.specs.FinalBindings.{no_finals};
ghost use Rattle.asking.specs.Reports.{report_of};
ghost use Rattle.asking.specs.Scenes.{StartsAtHead, StopsAtHead};
ghost use Rattle.asking.specs.declared.ask_fault.AskFault.TheVariants.{Stopped};

use crate::answering::body_of;
use crate::checking::tell_client;
use crate::exchange::{exchange, frame_in};
use crate::{AskFault, Finals, Said};
use client::{Client, Refusal};
use encoding::Hash32;
use memory::{Mark, Memory};
use monitor::Monitor;
use nodehash::NodeHash;
use play::{Ask, Checks};
use rootchain::SignedPromise;
use sigiface::Verifier;
use std::alloc::Global;
use std::io::{Read, Write};
use vrfiface::VufCheck;

/// A client that asks a directory, with the monitors of the names that it watches. Its fields are open to what keeps them from
/// run to run.
#[derive(Drop)]
pub struct Asker<H, V, S>
where
    H: NodeHash + Drop,
    V: VufCheck + Drop,
    S: Verifier + Drop,
{
    /// Where its memory comes from.
    pub alloc: Global,
    /// The functions that it checks with.
    pub checks: Checks<H, V, S>,
    /// The provider's public key.
    pub key: Hash32,
    /// The operator's token, or zeros.
    pub token: Hash32,
    /// The client that follows the chain and checks replies.
    pub client: Client<H, V, S>,
    /// The monitors of this run, in the order in which they began.
    pub monitors: Vec<Monitor<H, V, S>>,
    /// What is remembered of earlier runs.
    pub known: Memory,
    /// How far names were watched in them, as `known` has it.
    pub marks: Vec<Mark>,
    /// What the client was promised for its own changes in earlier runs, which a monitor that begins expects.
    pub earlier: Vec<SignedPromise>,
    /// What it was promised for those of this run.
    pub changes: Vec<SignedPromise>,
    /// What it knows of final bindings, from earlier runs and from this one.
    pub finals: Finals,
}

impl<H, V, S> Asker<H, V, S>
where
    H: NodeHash + Drop,
    V: VufCheck + Drop,
    S: Verifier + Drop,
{
    /// One whose client starts with the signed root that these bytes spell.
    ///
    /// # Errors
    ///
    /// Those of `Client::start`.
    pub fn start(
        alloc: Global,
        checks: Checks<H, V, S>,
        key: Hash32,
        token: Hash32,
        root: &[u8],
    ) -> Result<Self, Refusal>
        ensures ok { IfOk result (λ asker. Starts S.verified key root.now (Ok (asker_client asker))) }
        ensures keys { IfOk result (λ asker. (asker_key asker ≡ key) × (asker_token asker ≡ token)) }
        ensures none { IfOk result (λ asker. (asker_monitors asker ≡ []) × (asker_marks asker ≡ []) × (asker_earlier asker ≡ []) × (asker_changes asker ≡ []) × (asker_known asker ≡ nothing) × (asker_finals asker ≡ no_finals)) }
        ensures err { IfErr result (λ why. Starts S.verified key root.now (Err why)) }
    {
        match Client::start(alloc, &checks.verifier, key, root) {
            Ok(client) => Ok(Asker {
                alloc,
                checks,
                key,
                token,
                client,
                monitors: Vec::new(alloc),
                known: Memory::new(alloc),
                marks: Vec::new(alloc),
                earlier: Vec::new(alloc),
                changes: Vec::new(alloc),
                finals: Finals::new(alloc),
            }),
            Err(why) => Err(why),
        }
    }

    /// One whose client starts with the directory's latest root. A refusal is told.
    ///
    /// # Errors
    ///
    /// `NoReply`; `Stopped` if the directory replies no root, or the client refuses it; `OutOfMemory`.
    pub fn start_at_head<T: Read + Write>(
        alloc: Global,
        stream: &mut T,
        checks: Checks<H, V, S>,
        key: Hash32,
        token: Hash32,
        said: &mut Said,
    ) -> Result<Self, AskFault>
        ensures starts { IfOk result (λ asker. StartsAtHead S.verified (ExchangesFrames T.contents T.remaining) key stream.old (asker_client asker) stream.new) }
        ensures keys { IfOk result (λ asker. (asker_key asker ≡ key) × (asker_token asker ≡ token)) }
        ensures none { IfOk result (λ asker. (asker_monitors asker ≡ []) × (asker_marks asker ≡ []) × (asker_earlier asker ≡ []) × (asker_changes asker ≡ []) × (asker_known asker ≡ nothing) × (asker_finals asker ≡ no_finals)) }
        ensures said { IfOk result (λ asker. said.new ≡ said.old) }
        ensures stops { IfErr result (λ fault. fault ≡ Stopped → StopsAtHead S.verified (ExchangesFrames T.contents T.remaining) key stream.old (report_of said.old) stream.new (report_of said.new)) }
        ensures halts { IfErr result (λ fault. fault ≢ Stopped → report_of said.new ≡ report_of said.old) }
    {
        let reply = exchange(alloc, stream, &Ask::Head.request(token))?;
        let frame = frame_in(&reply)?;
        let Some(root) = body_of(alloc, &Ask::Head, &frame, said)? else {
            return Err(AskFault::Stopped);
        };
        match Asker::start(alloc, checks, key, token, root) {
            Ok(asker) => Ok(asker),
            Err(why) => {
                tell_client(alloc, b"client refuses root", why, said)?;
                Err(AskFault::Stopped)
            }
        }
    }

    /// The epoch of the head of the client's chain.
    pub fn head(&self) -> u64
        ensures { (root : SignedRoot) × IsHead (self.now).client.chain root × (result ≡ root.body.epoch) }
    {
        self.client.chain().head().body.epoch
    }
}
