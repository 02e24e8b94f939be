//! A request in place in the body of its frame. The kind byte says which parts the body has. `read` takes
//! them from the front, and keeps names and keys where they lie; a body that is too short for them, or
//! goes on behind them, is refused. `write` appends the same parts in the same order, in one frame.
ghost use Rattle.std.specs.Prelude.{◌≡◌, ◌↔◌, ◌+◌, ◌<◌, ◌≤◌, ◌++◌, length, OnOk, OnErr, IsOk, IsTrue, vec_len, vec_capacity};
ghost use Rattle.encoding.specs.Reading.{read_as, Gives};
ghost use Rattle.commands.specs.Operations.{question};
ghost use Rattle.wire.specs.Frames.{frame_bytes, frame_size, IsFrame};
ghost use Rattle.wire.specs.Requests as asks;
ghost use Rattle.wire.specs.Requests.{read_request, request_frame, request_seen, GivesRequest, IsAsked, ReadsRequest};
ghost use Rattle.wire.specs.Tables.{reader, Both, Text};
ghost use Rattle.wire.specs.declared.frame.TheConstants.{MAX_FRAME_LEN};

use crate::ReadRefusal;
use crate::frame::MAX_FRAME_LEN;
use crate::writing::{append_frame, length_bytes};
use commands::{Put, Query, Verb};
use encoding::{Cursor, Fault, FixedText, Hash32};
use std::alloc::AllocError;

/// The most bytes that stand behind a length in two bytes.
const MAX_COUNTED_LEN: usize = 65535;

/// The kind bytes of requests.
const REGISTER: u8 = 1;

const CHANGE: u8 = 2;

const PROMISE: u8 = 3;

const LOOKUP: u8 = 4;

const HISTORY: u8 = 5;

const HEAD: u8 = 6;

const CLOSE: u8 = 7;

const ROTATE: u8 = 8;

const REGISTER_WITH_POLICY: u8 = 10;

const CHANGE_WITH_POLICY: u8 = 11;

/// What a session asks of a directory: a command, where a new page has the operator's token beside it.
#[derive(Debug, Drop)]
pub enum Request<'a> {
    /// To read it.
    Query(Query<'a>),
    /// To put a key to a name.
    Put(Put<'a>),
    /// To end the epoch; the next has this number, and this nonce, or that of the last. Only the operator
    /// has the token.
    Turn {
        token: Hash32,
        epoch: u64,
        nonce: Option<Hash32>,
    },
}

impl<'a> Request<'a> {
    /// The request that a frame of this kind with this body is.
    ///
    /// # Errors
    ///
    /// `BadKind` if no request is of the kind, else `BadBody` if the body does not spell one.
    #[tactic(auto, using(crate::proofs::Requests::reads_none, crate::proofs::Requests::reads_more, crate::proofs::Requests::is_unknown))]
    pub fn read(kind: u8, body: &'a [u8]) -> Result<Request<'a>, ReadRefusal>
        ensures { ReadsRequest kind body.entry.now result }
    {
        let mut cursor = Cursor::new(body);
        match read_parts(kind, &mut cursor) {
            Ok(request) => match cursor.end() {
                Ok(()) => Ok(request),
                Err(_) => Err(ReadRefusal::BadBody),
            },
            Err(refusal) => Err(refusal),
        }
    }

    /// Whether the request has no more bytes than a frame may have.
    pub fn fits(&self) -> bool
        ensures { IsTrue result ↔ (frame_size (request_frame (request_seen self.now)) ≤ MAX_FRAME_LEN) }
    {
        match self {
            Request::Query(Query::Promise { name }) => name.len() < MAX_FRAME_LEN - 2,
            Request::Query(Query::Lookup { name, .. }) => name.len() < MAX_FRAME_LEN - 10,
            Request::Query(Query::History { .. } | Query::Head) => true,
            Request::Put(put) => {
                let len = put.name.len().saturating_add(put.key.len());
                match put.policy {
                    None => len < MAX_FRAME_LEN - 4,
                    Some(_) => len < MAX_FRAME_LEN - 5,
                }
            }
            // Always so: a token and a nonce have 32 bytes, which their `bytes` ensures.
            Request::Turn {
                token,
                nonce: None,
                ..
            } => token.bytes().len() < MAX_FRAME_LEN - 8,
            Request::Turn {
                token,
                nonce: Some(nonce),
                ..
            } => token.bytes().len() + nonce.bytes().len() < MAX_FRAME_LEN - 8,
        }
    }

    /// Appends the request's frame. An `Err` appends nothing, and is not returned where there is room.
    /// The frame is one that a stream may have, and `read` accepts its body as this request.
    pub fn write(&self, output: &mut Vec<u8>) -> Result<(), AllocError>
        requires { frame_size (request_frame (request_seen self.now)) ≤ MAX_FRAME_LEN }
        ensures ok { OnOk result (output.new.items ≡ output.old.items ++ frame_bytes (request_frame (request_seen self.now))) }
        ensures err { OnErr result (output.new.items ≡ output.old.items) }
        ensures room { vec_len output.old + 4 + frame_size (request_frame (request_seen self.now)) ≤ vec_capacity output.old → IsOk result }
        ensures form { IsAsked (request_seen self.now) × IsFrame (request_frame (request_seen self.now)) }
    {
        match self {
            Request::Query(query) => write_query(query, output),
            Request::Put(put) => write_put(put, output),
            Request::Turn {
                token,
                epoch,
                nonce,
            } => write_turn(token, *epoch, nonce, output),
        }
    }
}

/// Appends the frame of a key that is put to a name.
fn write_put(put: &Put<'_>, output: &mut Vec<u8>) -> Result<(), AllocError>
    requires { frame_size (request_frame (asks.Put put.now.verb put.now.name.now (put.now.key.now, put.now.policy))) ≤ MAX_FRAME_LEN }
    ensures ok { OnOk result (output.new.items ≡ output.old.items ++ frame_bytes (request_frame (asks.Put put.now.verb put.now.name.now (put.now.key.now, put.now.policy)))) }
    ensures err { OnErr result (output.new.items ≡ output.old.items) }
    ensures room { vec_len output.old + 4 + frame_size (request_frame (asks.Put put.now.verb put.now.name.now (put.now.key.now, put.now.policy))) ≤ vec_capacity output.old → IsOk result }
    ensures form { IsAsked (asks.Put put.now.verb put.now.name.now (put.now.key.now, put.now.policy)) × IsFrame (request_frame (asks.Put put.now.verb put.now.name.now (put.now.key.now, put.now.policy))) }
{
    match put.policy {
        None => append_frame(
            output,
            put_kind(put.verb),
            &length_bytes(put.name),
            put.name,
            &length_bytes(put.key),
            put.key,
        ),
        Some(policy) => {
            let mut front = FixedText::<3>::new();
            front.push(policy);
            front.push_slice(&length_bytes(put.name));
            append_frame(
                output,
                policy_kind(put.verb),
                front.bytes(),
                put.name,
                &length_bytes(put.key),
                put.key,
            )
        }
    }
}

/// Appends the frame of the end of an epoch.
fn write_turn(
    token: &Hash32,
    epoch: u64,
    nonce: &Option<Hash32>,
    output: &mut Vec<u8>,
) -> Result<(), AllocError>
    requires { frame_size (request_frame (asks.Turn token.now epoch nonce.now)) ≤ MAX_FRAME_LEN }
    ensures ok { OnOk result (output.new.items ≡ output.old.items ++ frame_bytes (request_frame (asks.Turn token.now epoch nonce.now))) }
    ensures err { OnErr result (output.new.items ≡ output.old.items) }
    ensures room { vec_len output.old + 4 + frame_size (request_frame (asks.Turn token.now epoch nonce.now)) ≤ vec_capacity output.old → IsOk result }
    ensures form { IsAsked (asks.Turn token.now epoch nonce.now) × IsFrame (request_frame (asks.Turn token.now epoch nonce.now)) }
{
    let token = token.bytes();
    let mut number = FixedText::<8>::new();
    number.push_u64(epoch);
    match nonce {
        None => append_frame(output, CLOSE, token, number.bytes(), &[], &[]),
        Some(nonce) => append_frame(output, ROTATE, token, number.bytes(), nonce.bytes(), &[]),
    }
}

/// Appends the frame of a query.
fn write_query(query: &Query<'_>, output: &mut Vec<u8>) -> Result<(), AllocError>
    requires { frame_size (request_frame (asks.Query (question query.now))) ≤ MAX_FRAME_LEN }
    ensures ok { OnOk result (output.new.items ≡ output.old.items ++ frame_bytes (request_frame (asks.Query (question query.now)))) }
    ensures err { OnErr result (output.new.items ≡ output.old.items) }
    ensures room { vec_len output.old + 4 + frame_size (request_frame (asks.Query (question query.now))) ≤ vec_capacity output.old → IsOk result }
    ensures form { IsAsked (asks.Query (question query.now)) × IsFrame (request_frame (asks.Query (question query.now))) }
{
    match query {
        Query::Promise { name } => append_frame(
            output,
            PROMISE,
            &length_bytes(name),
            name,
            &[],
            &[],
        ),
        Query::Lookup { name, epoch } => {
            let mut front = FixedText::<10>::new();
            front.push_u64(*epoch);
            front.push_slice(&length_bytes(name));
            append_frame(output, LOOKUP, front.bytes(), name, &[], &[])
        }
        Query::History { from, count } => {
            let mut front = FixedText::<10>::new();
            front.push_u64(*from);
            front.push_u16(*count);
            append_frame(output, HISTORY, front.bytes(), &[], &[], &[])
        }
        Query::Head => append_frame(output, HEAD, &[], &[], &[], &[]),
    }
}

/// The kind byte of a key that is put to a name.
fn put_kind(verb: Verb) -> u8
    ensures { result ≡ asks.put_kind verb }
{
    match verb {
        Verb::Register => REGISTER,
        Verb::Change => CHANGE,
    }
}

/// The kind byte of a key with a policy that is put to a name.
fn policy_kind(verb: Verb) -> u8
    ensures { result ≡ asks.policy_kind verb }
{
    match verb {
        Verb::Register => REGISTER_WITH_POLICY,
        Verb::Change => CHANGE_WITH_POLICY,
    }
}

/// The parts of a request of this kind, from the front of a body.
#[tactic(auto, unfolding(crate::specs::Requests::read_request))]
fn read_parts<'a>(kind: u8, cursor: &mut Cursor<'a>) -> Result<Request<'a>, ReadRefusal>
    ensures { GivesRequest result cursor.new (read_request kind cursor.old) }
{
    Ok(match kind {
        REGISTER => Request::Put(read_put(Verb::Register, None, cursor)?),
        CHANGE => Request::Put(read_put(Verb::Change, None, cursor)?),
        PROMISE => Request::Query(Query::Promise {
            name: cursor.counted(0, MAX_COUNTED_LEN)?,
        }),
        LOOKUP => {
            let epoch = cursor.u64()?;
            let name = cursor.counted(0, MAX_COUNTED_LEN)?;
            Request::Query(Query::Lookup { name, epoch })
        }
        HISTORY => Request::Query(Query::History {
            from: cursor.u64()?,
            count: cursor.u16()?,
        }),
        HEAD => Request::Query(Query::Head),
        CLOSE => Request::Turn {
            token: cursor.hash32()?,
            epoch: cursor.u64()?,
            nonce: None,
        },
        ROTATE => Request::Turn {
            token: cursor.hash32()?,
            epoch: cursor.u64()?,
            nonce: Some(cursor.hash32()?),
        },
        REGISTER_WITH_POLICY => Request::Put(read_put(Verb::Register, Some(cursor.u8()?), cursor)?),
        CHANGE_WITH_POLICY => Request::Put(read_put(Verb::Change, Some(cursor.u8()?), cursor)?),
        _ => return Err(ReadRefusal::BadKind),
    })
}

/// A name and the key that is put to it, from the front of what is left of a body.
fn read_put<'a>(verb: Verb, policy: Option<u8>, cursor: &mut Cursor<'a>) -> Result<Put<'a>, Fault>
    ensures { Gives (λ put. asks.Put put.verb put.name.now (put.key.now, put.policy)) result cursor.new (read_as (λ held. asks.Put verb held.0 (held.1, policy)) (reader (Both Text Text)) cursor.old) }
{
    Ok(Put {
        verb,
        policy,
        name: cursor.counted(0, MAX_COUNTED_LEN)?,
        key: cursor.counted(0, MAX_COUNTED_LEN)?,
    })
}
