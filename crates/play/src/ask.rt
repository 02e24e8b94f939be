// What a line asks of the directory: how its words are read, and the request that asks it.

ghost use Rattle.std.specs.Prelude.{◌≡◌, ◌↔◌, IfOk, IsTrue, MatchOption, None, Some, option_map};
ghost use Rattle.encoding.specs.Policies.{policy_named};
ghost use Rattle.commands.specs.Operations as asked;
ghost use Rattle.wire.specs.Requests as asks;
ghost use Rattle.wire.specs.Requests.{request_seen};
ghost use Rattle.textio.specs.Digits.{hex32};
ghost use Rattle.play.specs.Scripts.{ask_seen, asked_line, asking, count_word, epoch_word, hex_word, other_verbs, putting_with, said_among, token, verbs, with_no_word, with_one_word, with_three_words, with_token, with_two_words, words_behind, RequestFits};

use crate::word::{one_word, read_bytes, read_count, read_epoch, three_words, two_words};
use commands::{Put, Query, Verb};
use encoding::{Hash32, Policy};
use std::alloc::{AllocError, Global};
use textio::hex32;
use wire::Request;

/// The token of the operator.
pub(crate) fn token() -> Hash32
    ensures { result ≡ token }
{
    Hash32::new([0; 32])
}

/// What a line asks of the directory, through session 0.
#[derive(Debug, Drop)]
pub enum Ask {
    Put {
        verb: Verb,
        name: Vec<u8>,
        key: Vec<u8>,
        /// The byte of a policy: of `register2` and `change2`.
        policy: Option<u8>,
    },
    Promise {
        name: Vec<u8>,
    },
    Lookup {
        name: Vec<u8>,
        epoch: u64,
    },
    History {
        from: u64,
        count: u16,
    },
    Head,
    /// `close`, or `rotate` where there is a nonce.
    Turn {
        epoch: u64,
        nonce: Option<Hash32>,
    },
}

impl Ask {
    /// The request that asks it, with this token of the operator.
    pub fn request(&self, token: Hash32) -> Request<'_>
        ensures { request_seen result ≡ with_token token (ask_seen self.now) }
    {
        match self {
            Ask::Put {
                verb,
                name,
                key,
                policy,
            } => Request::Put(Put {
                verb: *verb,
                name,
                key,
                policy: *policy,
            }),
            Ask::Promise { name } => Request::Query(Query::Promise { name }),
            Ask::Lookup { name, epoch } => Request::Query(Query::Lookup {
                name,
                epoch: *epoch,
            }),
            Ask::History { from, count } => Request::Query(Query::History {
                from: *from,
                count: *count,
            }),
            Ask::Head => Request::Query(Query::Head),
            Ask::Turn { epoch, nonce } => Request::Turn {
                token,
                epoch: *epoch,
                nonce: *nonce,
            },
        }
    }

    /// Whether a frame has room for the request that asks it.
    pub(crate) fn fits(&self) -> bool
        ensures { IsTrue result ↔ RequestFits (ask_seen self.now) }
    {
        // A `match`, since a function that only holds a request does not prove.
        match self.request(token()) {
            Request::Query(query) => Request::Query(query).fits(),
            Request::Put(put) => Request::Put(put).fits(),
            turn => turn.fits(),
        }
    }
}

/// What a verb asks with the words behind it, or `None` if it is none that asks.
pub(crate) fn read_ask(
    alloc: Global,
    verb: &[u8],
    behind: Option<&[u8]>,
) -> Result<Option<Option<Ask>>, AllocError>
    ensures { IfOk result (λ read. MatchOption read
        (said_among verbs verb.now (words_behind (option_map (λ text. text.now) behind.entry)) ≡ said_among other_verbs verb.now (words_behind (option_map (λ text. text.now) behind.entry)))
        (λ ask. option_map asked_line ask ≡ said_among verbs verb.now (words_behind (option_map (λ text. text.now) behind.entry)))) }
{
    // Tests one after another, as the definition has them: a `match` on byte strings does not prove.
    if verb == b"register".as_slice() {
        return Ok(Some(read_put(alloc, Verb::Register, behind)?));
    }
    if verb == b"change".as_slice() {
        return Ok(Some(read_put(alloc, Verb::Change, behind)?));
    }
    if verb == b"register2".as_slice() {
        return Ok(Some(read_put_with(alloc, Verb::Register, behind)?));
    }
    if verb == b"change2".as_slice() {
        return Ok(Some(read_put_with(alloc, Verb::Change, behind)?));
    }
    if verb == b"promise".as_slice() {
        return Ok(Some(read_promise(alloc, behind)?));
    }
    if verb == b"close".as_slice() {
        return Ok(Some(read_close(behind)));
    }
    if verb == b"rotate".as_slice() {
        return Ok(Some(read_rotate(behind)));
    }
    if verb == b"head".as_slice() {
        return Ok(Some(read_head(behind)));
    }
    if verb == b"lookup".as_slice() {
        return Ok(Some(read_lookup(alloc, behind)?));
    }
    if verb == b"history".as_slice() {
        return Ok(Some(read_history(behind)));
    }
    Ok(None)
}

/// `head`
fn read_head(behind: Option<&[u8]>) -> Option<Ask>
    ensures { option_map asked_line result ≡ with_no_word (asking (asks.Query asked.Head)) (words_behind (option_map (λ text. text.now) behind.entry)) }
{
    match behind {
        None => fitting(Ask::Head),
        Some(_) => None,
    }
}

/// `promise NAME`
fn read_promise(alloc: Global, behind: Option<&[u8]>) -> Result<Option<Ask>, AllocError>
    ensures { IfOk result (λ read. option_map asked_line read ≡ with_one_word hex_word (λ name. asking (asks.Query (asked.Promise name))) (words_behind (option_map (λ text. text.now) behind.entry))) }
{
    let Some(name) = one_word(behind) else {
        return Ok(None);
    };
    match read_bytes(alloc, name)? {
        Some(name) => Ok(fitting(Ask::Promise { name })),
        None => Ok(None),
    }
}

/// `close EPOCH`
fn read_close(behind: Option<&[u8]>) -> Option<Ask>
    ensures { option_map asked_line result ≡ with_one_word epoch_word (λ epoch. asking (asks.Turn token epoch None)) (words_behind (option_map (λ text. text.now) behind.entry)) }
{
    let epoch = read_epoch(one_word(behind)?)?;
    fitting(Ask::Turn { epoch, nonce: None })
}

/// `rotate EPOCH NONCE`
fn read_rotate(behind: Option<&[u8]>) -> Option<Ask>
    ensures { option_map asked_line result ≡ with_two_words epoch_word hex32 (λ epoch nonce. asking (asks.Turn token epoch (Some nonce))) (words_behind (option_map (λ text. text.now) behind.entry)) }
{
    let (epoch, nonce) = two_words(behind)?;
    let epoch = read_epoch(epoch)?;
    let nonce = Hash32::new(hex32(nonce)?);
    fitting(Ask::Turn {
        epoch,
        nonce: Some(nonce),
    })
}

/// `register NAME KEY`, `change NAME KEY`
fn read_put(alloc: Global, verb: Verb, behind: Option<&[u8]>) -> Result<Option<Ask>, AllocError>
    ensures { IfOk result (λ read. option_map asked_line read ≡ with_two_words hex_word hex_word (λ name key. asking (asks.Put verb name (key, None))) (words_behind (option_map (λ text. text.now) behind.entry))) }
{
    let Some((name, key)) = two_words(behind) else {
        return Ok(None);
    };
    match (read_bytes(alloc, name)?, read_bytes(alloc, key)?) {
        (Some(name), Some(key)) => Ok(fitting(Ask::Put {
            verb,
            name,
            key,
            policy: None,
        })),
        _ => Ok(None),
    }
}

/// `register2 NAME KEY POLICY`, `change2 NAME KEY POLICY`
fn read_put_with(
    alloc: Global,
    verb: Verb,
    behind: Option<&[u8]>,
) -> Result<Option<Ask>, AllocError>
    ensures { IfOk result (λ read. option_map asked_line read ≡ with_three_words hex_word hex_word policy_named (putting_with verb) (words_behind (option_map (λ text. text.now) behind.entry))) }
{
    let Some((name, key, policy)) = three_words(behind) else {
        return Ok(None);
    };
    match (
        read_bytes(alloc, name)?,
        read_bytes(alloc, key)?,
        Policy::of_word(policy),
    ) {
        (Some(name), Some(key), Some(policy)) => Ok(fitting(Ask::Put {
            verb,
            name,
            key,
            policy: Some(policy.byte()),
        })),
        _ => Ok(None),
    }
}

/// `lookup NAME EPOCH`
fn read_lookup(alloc: Global, behind: Option<&[u8]>) -> Result<Option<Ask>, AllocError>
    ensures { IfOk result (λ read. option_map asked_line read ≡ with_two_words hex_word epoch_word (λ name epoch. asking (asks.Query (asked.Lookup name epoch))) (words_behind (option_map (λ text. text.now) behind.entry))) }
{
    let Some((name, epoch)) = two_words(behind) else {
        return Ok(None);
    };
    match (read_bytes(alloc, name)?, read_epoch(epoch)) {
        (Some(name), Some(epoch)) => Ok(fitting(Ask::Lookup { name, epoch })),
        _ => Ok(None),
    }
}

/// `history FROM COUNT`
fn read_history(behind: Option<&[u8]>) -> Option<Ask>
    ensures { option_map asked_line result ≡ with_two_words epoch_word count_word (λ from count. asking (asks.Query (asked.History from count))) (words_behind (option_map (λ text. text.now) behind.entry)) }
{
    let (from, count) = two_words(behind)?;
    let from = read_epoch(from)?;
    let count = read_count(count)?;
    fitting(Ask::History { from, count })
}

/// What is asked, if a frame has room for it.
fn fitting(ask: Ask) -> Option<Ask>
    ensures { option_map asked_line result ≡ asking (ask_seen ask) }
{
    if ask.fits() { Some(ask) } else { None }
}
