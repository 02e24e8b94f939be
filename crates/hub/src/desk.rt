ghost use Rattle.std.specs.Prelude.{◌≡◌, ◌+◌, ◌≤◌, ◌++◌, ℕ, List, length, IfOk, vec_len, vec_capacity};
ghost use Rattle.commands.specs.declared.edit.Verb.TheVariants.{Change, Register};
ghost use Rattle.commands.specs.Operations.{question, Lookup, Promise};
ghost use Rattle.rootchain.specs.declared.root_list.TheConstants.{MAX_ROOTS};
ghost use Rattle.book.specs.declared.reply.Reply.{Reply};
ghost use Rattle.book.specs.Shows.{IsRootOf};
ghost use Rattle.epochs.specs.DirectoryStates.{book, provider};
ghost use Rattle.epochs.specs.Replied.{last, promised, TellsRoots};
ghost use Rattle.wire.specs.Frames.{frame_bytes};
ghost use Rattle.wire.specs.Requests.{request_seen};
ghost use Rattle.wire.specs.Requests as asks;
ghost use Rattle.wire.specs.Responses.{answer_frame, HasFewRoots};
ghost use Rattle.hub.specs.DeskRuns.{IsSoundDesk};
ghost use Rattle.hub.specs.Desks.{reply_frame, ServesRequest};
ghost use Rattle.wire.specs.declared.answer.TheConstants.{MAX_ANSWER_LEN};

use crate::Service;
use crate::drain::write_refused;
use book::{Keeper, Refusal};
use commands::{Put, Query, Verb};
use encoding::Hash32;
use epochs::Directory;
use nodehash::NodeHash;
use rand_core::Rng;
use rootchain::{SignedPromise, SignedRoot};
use sigiface::Signer;
use std::alloc::{AllocError, Global};
use std::marker::Model;
use vrfiface::Vuf;
use wire::{Answer, Request, begin_proof, end_proof};

/// The number of the refusal of a closing or a rotation without the operator's token.
const NOT_OPERATOR: u8 = 12;

/// A directory with its keeper and the token of its operator, who alone may close an epoch.
#[derive(Drop)]
pub struct Desk<H: NodeHash, V: Vuf, S: Signer, R: Rng, K: Keeper> {
    directory: Directory<H, V, S, R>,
    keeper: K,
    token: Hash32,
}

impl<H: NodeHash, V: Vuf, S: Signer, R: Rng, K: Keeper> Model for Desk<H, V, S, R, K> {
    ghost use Rattle.hub.specs.Desks.{DeskState};

    ghost Value = { DeskState R K };

    ghost view = { λ desk. record { directory = desk.directory; keeper = desk.keeper; token = desk.token } };
}

impl<H: NodeHash, V: Vuf, S: Signer, R: Rng, K: Keeper> Desk<H, V, S, R, K> {
    /// A desk at which this directory answers.
    pub fn new(directory: Directory<H, V, S, R>, keeper: K, token: Hash32) -> Self
        ensures { result ≡ record { directory = directory; keeper = keeper; token = token } }
    {
        Desk {
            directory,
            keeper,
            token,
        }
    }

    /// The latest root of the directory.
    pub(crate) fn head(&self) -> &SignedRoot
        ensures head { IsRootOf (provider H.digest_of V.value_of S.signature_of (self.now).directory) (book R.stream (self.now).directory) (self.now).directory.last result.now }
        ensures well { IsSoundDesk H.digest_of V.value_of S.signature_of R.stream V.accepted S.verified self.now }
    {
        self.directory.head()
    }

    /// Answers a request by one call of the directory, and writes the reply.
    fn serve(&mut self, request: &Request<'_>, output: &mut Vec<u8>)
        requires { vec_len output.old + MAX_ANSWER_LEN ≤ vec_capacity output.old }
        ensures { (reply : List ℕ) × ServesRequest H.digest_of V.value_of S.signature_of R.stream K.kept K.failed self.old (request_seen request.now) reply self.new
            × (output.new.items ≡ output.old.items ++ reply) }
    {
        match request {
            Request::Query(query) => self.read(query, output),
            Request::Put(put) => self.put(put, output),
            Request::Turn {
                token,
                epoch,
                nonce,
            } => self.turn(token, *epoch, *nonce, output),
        }
    }

    /// Answers a query.
    fn read(&mut self, query: &Query<'_>, output: &mut Vec<u8>)
        requires { vec_len output.old + MAX_ANSWER_LEN ≤ vec_capacity output.old }
        ensures { (reply : List ℕ) × ServesRequest H.digest_of V.value_of S.signature_of R.stream K.kept K.failed self.old (asks.Query (question query.now)) reply self.new
            × (output.new.items ≡ output.old.items ++ reply) }
    {
        match *query {
            Query::Promise { name } => self.promise(name, output),
            Query::Lookup { name, epoch } => self.look_up(name, epoch, output),
            Query::History { from, count } => {
                write_roots(self.directory.history(from, count), output)
            }
            Query::Head => write(&Answer::Root(self.directory.head()), output),
        }
    }

    /// Puts a key to a name.
    fn put(&mut self, put: &Put<'_>, output: &mut Vec<u8>)
        requires { vec_len output.old + MAX_ANSWER_LEN ≤ vec_capacity output.old }
        ensures { (reply : List ℕ) × ServesRequest H.digest_of V.value_of S.signature_of R.stream K.kept K.failed self.old (asks.Put put.now.verb put.now.name.now (put.now.key.now, put.now.policy)) reply self.new
            × (output.new.items ≡ output.old.items ++ reply) }
    {
        match put.verb {
            Verb::Register => self.register(put, output),
            Verb::Change => self.change(put, output),
        }
    }

    /// Each of these calls has a function of its own that is not inlined, since a function clears the room
    /// of all its replies when it is entered.
    #[inline(never)]
    fn register(&mut self, put: &Put<'_>, output: &mut Vec<u8>)
        requires { vec_len output.old + MAX_ANSWER_LEN ≤ vec_capacity output.old }
        ensures { (reply : List ℕ) × ServesRequest H.digest_of V.value_of S.signature_of R.stream K.kept K.failed self.old (asks.Put Register put.now.name.now (put.now.key.now, put.now.policy)) reply self.new
            × (output.new.items ≡ output.old.items ++ reply) }
    {
        let keeper = &mut self.keeper;
        let promise = self
            .directory
            .register_with(keeper, put.name, put.key, put.policy);
        write_promise(promise, output)
    }

    /// Changes the key of a name.
    #[inline(never)]
    fn change(&mut self, put: &Put<'_>, output: &mut Vec<u8>)
        requires { vec_len output.old + MAX_ANSWER_LEN ≤ vec_capacity output.old }
        ensures { (reply : List ℕ) × ServesRequest H.digest_of V.value_of S.signature_of R.stream K.kept K.failed self.old (asks.Put Change put.now.name.now (put.now.key.now, put.now.policy)) reply self.new
            × (output.new.items ≡ output.old.items ++ reply) }
    {
        let keeper = &mut self.keeper;
        let promise = self
            .directory
            .change_with(keeper, put.name, put.key, put.policy);
        write_promise(promise, output)
    }

    /// Answers with the promise that waits for a name.
    #[inline(never)]
    fn promise(&mut self, name: &[u8], output: &mut Vec<u8>)
        requires { vec_len output.old + MAX_ANSWER_LEN ≤ vec_capacity output.old }
        ensures { (reply : List ℕ) × ServesRequest H.digest_of V.value_of S.signature_of R.stream K.kept K.failed self.old (asks.Query (Promise name.now)) reply self.new
            × (output.new.items ≡ output.old.items ++ reply) }
    {
        write_promise(self.directory.promise(name), output)
    }

    /// Looks a name up.
    #[inline(never)]
    fn look_up(&mut self, name: &[u8], epoch: u64, output: &mut Vec<u8>)
        requires { vec_len output.old + MAX_ANSWER_LEN ≤ vec_capacity output.old }
        ensures { (reply : List ℕ) × ServesRequest H.digest_of V.value_of S.signature_of R.stream K.kept K.failed self.old (asks.Query (Lookup name.now epoch)) reply self.new
            × (output.new.items ≡ output.old.items ++ reply) }
    {
        let start = output.len();
        let begun = begin_proof(output).is_ok();
        prove!(begun);
        match self.directory.lookup_into(name, epoch, output) {
            Ok(()) => end_proof(output, start),
            Err(why) => {
                output.truncate(start);
                write_refused(why.number(), output)
            }
        }
    }

    /// Ends the epoch for whoever has the token.
    #[inline(never)]
    fn turn(&mut self, token: &Hash32, epoch: u64, nonce: Option<Hash32>, output: &mut Vec<u8>)
        requires { vec_len output.old + MAX_ANSWER_LEN ≤ vec_capacity output.old }
        ensures { (reply : List ℕ) × ServesRequest H.digest_of V.value_of S.signature_of R.stream K.kept K.failed self.old (asks.Turn token.now epoch nonce) reply self.new
            × (output.new.items ≡ output.old.items ++ reply) }
    {
        if *token != self.token {
            return write_refused(NOT_OPERATOR, output);
        }
        write_root(self.directory.turn(&mut self.keeper, epoch, nonce), output)
    }
}

impl<H: NodeHash, V: Vuf, S: Signer, R: Rng, K: Keeper> Service for Desk<H, V, S, R, K> {
    ghost use Rattle.hub.specs.Desks.{DeskAnswers};

    ghost answers = { DeskAnswers H.digest_of V.value_of S.signature_of R.stream K.kept K.failed };

    fn answer(&mut self, kind: u8, body: &[u8], output: &mut Vec<u8>) {
        match Request::read(kind, body) {
            Ok(request) => self.serve(&request, output),
            Err(refusal) => write_refused(refusal.number(), output),
        }
    }

    fn report(&self, alloc: Global) -> Result<String, AllocError> {
        let epoch = self.directory.head().body.epoch;
        let (names, waiting) = (self.directory.count_names(), self.directory.count_waiting());
        format!(in alloc; "epoch={epoch} names={names} waiting={waiting}")
    }
}

/// Appends a frame, into room that is there.
fn write(answer: &Answer<'_>, output: &mut Vec<u8>)
    requires few { HasFewRoots answer.now }
    requires room { vec_len output.old + MAX_ANSWER_LEN ≤ vec_capacity output.old }
    ensures { output.new.items ≡ output.old.items ++ frame_bytes (answer_frame answer.now) }
{
    let written = answer.write(output).is_ok();
    prove!(written);
}

#[inline(never)]
fn write_promise(answer: Result<SignedPromise, Refusal>, output: &mut Vec<u8>)
    requires { vec_len output.old + MAX_ANSWER_LEN ≤ vec_capacity output.old }
    ensures { output.new.items ≡ output.old.items ++ frame_bytes (reply_frame (promised answer)) }
{
    match answer {
        Ok(promise) => write(&Answer::Promise(&promise), output),
        Err(why) => write_refused(why.number(), output),
    }
}

fn write_roots(answer: Result<&[SignedRoot], Refusal>, output: &mut Vec<u8>)
    requires few { IfOk answer (λ roots. length roots.now ≤ MAX_ROOTS) }
    requires room { vec_len output.old + MAX_ANSWER_LEN ≤ vec_capacity output.old }
    ensures { (told : Reply) → TellsRoots answer.entry told → output.new.items ≡ output.old.items ++ frame_bytes (reply_frame told) }
{
    match answer {
        Ok(roots) => write(&Answer::Roots(roots), output),
        Err(why) => write_refused(why.number(), output),
    }
}

fn write_root(answer: Result<SignedRoot, Refusal>, output: &mut Vec<u8>)
    requires { vec_len output.old + MAX_ANSWER_LEN ≤ vec_capacity output.old }
    ensures { output.new.items ≡ output.old.items ++ frame_bytes (reply_frame (last answer)) }
{
    match answer {
        Ok(root) => write(&Answer::Root(&root), output),
        Err(why) => write_refused(why.number(), output),
    }
}
