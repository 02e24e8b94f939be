ghost use Rattle.std.specs.Prelude.{◌≡◌, ◌<◌, ◌^◌, ℕ, List, IfOk, IfSome, OnErr, map, take};
ghost use Rattle.encoding.specs.Bytes.{Is32Bytes, IsBytes};
ghost use Rattle.commands.specs.Operations.{asked, question, revision, IsCommand, MayChange, MayRead, Edit as EditOf, Put as PutOf, Query as QueryOf};
ghost use Rattle.book.specs.declared.reply.Reply.{Reply};
ghost use Rattle.book.specs.Honest.{IsHonestRun};
ghost use Rattle.book.specs.Turns.{ReadsOnly, Run, Turn};
ghost use Rattle.epochs.specs.DirectoryStates.{book, provider, HasKeysOf};
ghost use Rattle.epochs.specs.Replied.{TellsRoots};
ghost use Rattle.epochs.specs.Replied as replied;

use super::Directory;
use book::{Keeper, Refusal, Reply};
use commands::{Command, Edit, Put, Query, Verb};
use encoding::{Hash32, ProofText};
use nodehash::NodeHash;
use rand_core::Rng;
use rootchain::{SignedPromise, SignedRoot};
use sigiface::Signer;
use std::alloc::{AllocError, Global};
use vrfiface::Vuf;

impl<H: NodeHash, V: Vuf, S: Signer, R: Rng> Directory<H, V, S, R> {
    /// Answers commands in order. The reply to a command that is refused, also for want of memory,
    /// is its refusal, and the next ones follow.
    ///
    /// # Errors
    ///
    /// `AllocError` if memory for the replies runs out. Some beginning of the list was then carried
    /// out, and the replies to it are lost.
    pub fn run<K: Keeper>(
        &mut self,
        keeper: &mut K,
        commands: &[Command<'_>],
    ) -> Result<Vec<Reply>, AllocError>
        ensures ok { IfOk result (λ replies. Run (provider H.digest_of V.value_of S.signature_of self.old) K.kept K.failed
            (book R.stream self.old) keeper.old (map asked commands.now) replies.items (book R.stream self.new) keeper.new) }
        ensures err { OnErr result ((replies : List Reply) × (n : ℕ) × Run (provider H.digest_of V.value_of S.signature_of self.old) K.kept K.failed
            (book R.stream self.old) keeper.old (map asked (take n commands.now)) replies (book R.stream self.new) keeper.new) }
        ensures honest { IfOk result (λ replies. IsHonestRun (provider H.digest_of V.value_of S.signature_of self.old) V.accepted S.verified (self.old).signing_key
            (book R.stream self.old) (book R.stream self.new) (map asked commands.now) replies.items) }
        ensures keys { HasKeysOf self.old self.new }
    {
        let mut replies = Vec::new(self.alloc);
        for command in commands {
            replies.reserve(1)?;
            is_command(command);
            let reply = self.answer(keeper, command)?;
            replies.push_reserved(reply);
        }
        // What this ensures: the book is sound, and the provider's functions keep their laws.
        self.head();
        Ok(replies)
    }

    /// Answers one command.
    fn answer<K: Keeper>(
        &mut self,
        keeper: &mut K,
        command: &Command<'_>,
    ) -> Result<Reply, AllocError>
        ensures ok { IfOk result (λ reply. Turn (provider H.digest_of V.value_of S.signature_of self.old) K.kept K.failed
            (book R.stream self.old) keeper.old (asked command.now) reply (book R.stream self.new) keeper.new) }
        ensures err { OnErr result ((book R.stream self.new ≡ book R.stream self.old) × (keeper.new ≡ keeper.old)) }
        ensures keys { HasKeysOf self.old self.new }
    {
        match command {
            Command::Query(query) => self.read(query),
            Command::Edit(edit) => Ok(self.edit(keeper, edit)),
        }
    }

    /// Answers a query.
    fn read(&mut self, query: &Query<'_>) -> Result<Reply, AllocError>
        ensures ok { IfOk result (ReadsOnly (provider H.digest_of V.value_of S.signature_of self.old) (book R.stream self.old) (QueryOf (question query.now))) }
        ensures stays { book R.stream self.new ≡ book R.stream self.old }
        ensures keys { HasKeysOf self.old self.new }
    {
        match *query {
            Query::Promise { name } => Ok(promised(self.promise(name))),
            Query::Lookup { name, epoch } => Ok(found(self.lookup(name, epoch))),
            Query::History { from, count } => told(self.alloc, self.history(from, count)),
            Query::Head => Ok(Reply::Last(self.head().copied())),
        }
    }

    /// Makes an edit.
    fn edit<K: Keeper>(&mut self, keeper: &mut K, edit: &Edit<'_>) -> Reply
        ensures turn { Turn (provider H.digest_of V.value_of S.signature_of self.old) K.kept K.failed
            (book R.stream self.old) keeper.old (EditOf (revision edit.now)) result (book R.stream self.new) keeper.new }
        ensures keys { HasKeysOf self.old self.new }
    {
        match *edit {
            Edit::Put(put) => promised(self.put(keeper, put)),
            Edit::Turn { epoch, nonce } => last(self.turn(keeper, epoch, nonce)),
        }
    }

    /// Puts a key to a name.
    fn put<K: Keeper>(&mut self, keeper: &mut K, put: Put<'_>) -> Result<SignedPromise, Refusal>
        ensures turn { Turn (provider H.digest_of V.value_of S.signature_of self.old) K.kept K.failed (book R.stream self.old) keeper.old
            (EditOf (PutOf put.entry.verb put.entry.name.now (put.entry.key.now, put.entry.policy))) (replied.promised result) (book R.stream self.new) keeper.new }
        ensures keys { HasKeysOf self.old self.new }
    {
        match put.verb {
            Verb::Register => self.register_with(keeper, put.name, put.key, put.policy),
            Verb::Change => self.change_with(keeper, put.name, put.key, put.policy),
        }
    }
}

/// What the type of a command says of it; it does nothing.
fn is_command(command: &Command<'_>)
    ensures { IsCommand (asked command.now) }
{
    match command {
        Command::Query(query) => is_query(query),
        Command::Edit(edit) => is_edit(edit),
    }
}

/// What the type of a query says of it.
fn is_query(query: &Query<'_>)
    ensures { MayRead (question query.now) }
{
    match *query {
        Query::Promise { name } | Query::Lookup { name, .. } => are_bytes(name),
        Query::History { .. } | Query::Head => {}
    }
}

/// What the type of an edit says of it.
fn is_edit(edit: &Edit<'_>)
    ensures { MayChange (revision edit.now) }
{
    match edit {
        Edit::Put(put) => is_put(put),
        Edit::Turn { epoch, nonce } => {
            is_epoch(*epoch);
            is_nonce(nonce);
        }
    }
}

/// What the type of a key that is put to a name says of it.
fn is_put(put: &Put<'_>)
    ensures { IsBytes put.now.name.now × IsBytes put.now.key.now }
{
    are_bytes(put.name);
    are_bytes(put.key);
}

/// What the type of a slice of bytes says of it.
fn are_bytes(bytes: &[u8])
    ensures { IsBytes bytes.now }
{}

/// What the type of an epoch says of it.
fn is_epoch(epoch: u64)
    ensures { epoch < 2 ^ 64 }
{}

/// What the type of a nonce says of it.
fn is_nonce(nonce: &Option<Hash32>)
    ensures { IfSome nonce.now Is32Bytes }
{
    if let Some(nonce) = nonce {
        nonce.bytes();
    }
}

fn promised(answer: Result<SignedPromise, Refusal>) -> Reply
    ensures { result ≡ replied.promised answer }
{
    match answer {
        Ok(promise) => Reply::Promised(promise),
        Err(why) => Reply::Refused(why),
    }
}

fn found(answer: Result<ProofText, Refusal>) -> Reply
    ensures { result ≡ replied.found answer }
{
    match answer {
        Ok(text) => Reply::Found(text),
        Err(why) => Reply::Refused(why),
    }
}

fn last(answer: Result<SignedRoot, Refusal>) -> Reply
    ensures { result ≡ replied.last answer }
{
    match answer {
        Ok(root) => Reply::Last(root),
        Err(why) => Reply::Refused(why),
    }
}

/// The roots in a list of their own.
fn told(alloc: Global, answer: Result<&[SignedRoot], Refusal>) -> Result<Reply, AllocError>
    ensures { IfOk result (TellsRoots answer.entry) }
{
    match answer {
        Ok(roots) => {
            let mut told = Vec::with_capacity(alloc, roots.len())?;
            for root in roots {
                told.push(root.copied())?;
            }
            Ok(Reply::Told(told))
        }
        Err(why) => Ok(Reply::Refused(why)),
    }
}
