// Whether a reply answers what was asked. Only then it is checked.
ghost use Rattle.std.specs.Prelude.{◌≡◌, ◌≢◌, ◌↔◌, ◌≤◌, codes, option_map, IfErr, IfOk, IsTrue, OnErr, OnOk};
ghost use Rattle.std.specs.List.{AllByRecursion};
ghost use Rattle.encoding.specs.Policies.{policy_byte};
ghost use Rattle.commands.specs.Operations.{asked_key};
ghost use Rattle.wire.specs.Frames.{Frame};
ghost use Rattle.wire.specs.FrameViews.{frame_seen};
ghost use Rattle.wire.specs.Refusals.{read_refusal_number};
ghost use Rattle.wire.specs.Responses.{response_seen, Refused};
ghost use Rattle.play.specs.Hearing.{response_text};
ghost use Rattle.play.specs.Scripts.{ask_seen, with_token};
ghost use Rattle.asking.specs.Answering.{IsAnswerAt, IsAnswerTo, IsTimely};
ghost use Rattle.asking.specs.Exchanges.{ExchangesFrames};
ghost use Rattle.asking.specs.Refused.{other_reply, refuses_text};
ghost use Rattle.asking.specs.Scenes.{miss_told, GivesBody};
ghost use Rattle.asking.specs.Reports.{refused, report_of, Tells};
ghost use Rattle.asking.specs.declared.ask_fault.AskFault.TheVariants.{Stopped};

use crate::AskFault;
use crate::exchange::{exchange, frame_in};
use crate::said::{REFUSED, Said, directory_words};
use encoding::{BoundKey, Hash32, Name, Policy};
use play::{Ask, push_number, tell_response};
use rootchain::RootList;
use std::alloc::{AllocError, Global};
use std::io::{Read, Write};
use wire::{FrameView, ReadRefusal, Response};

/// Whether a response is one to what was asked: of its kind, and about what it names.
pub(crate) fn answers(ask: &Ask, response: &Response<'_>) -> bool
    ensures { IsTrue result ↔ IsAnswerTo (ask_seen ask.now) (response_seen response.now) }
{
    match (ask, response) {
        (
            Ask::Put {
                name,
                key,
                policy,
                ..
            },
            Response::Promise(signed),
        ) => {
            signed.promise.name.bytes() == name.as_slice()
                && is_key(&signed.promise.key, key, *policy)
        }
        (Ask::Promise { name }, Response::Promise(signed)) => {
            signed.promise.name.bytes() == name.as_slice()
        }
        (Ask::Lookup { name, epoch }, Response::Proof(found)) => {
            Name::new(name).is_ok() && (*epoch == 0 || found.body().epoch == *epoch)
        }
        (Ask::History { from, count }, Response::Roots(roots)) => {
            roots.len() <= usize::from(*count) && are_from(*from, roots)
        }
        (Ask::Head, Response::Root(_)) => true,
        (Ask::Turn { epoch, nonce: None }, Response::Root(root)) => root.body.epoch == *epoch,
        (
            Ask::Turn {
                epoch,
                nonce: Some(nonce),
            },
            Response::Root(root),
        ) => root.body.epoch == *epoch && root.body.nonce == *nonce,
        _ => false,
    }
}

/// Whether a key is the one that was asked for, with the policy of this byte or none.
fn is_key(key: &BoundKey, value: &[u8], policy: Option<u8>) -> bool
    ensures { IsTrue result ↔ (asked_key key.now ≡ (value.now, policy)) }
{
    is_policy(key.policy, policy) && key.bytes() == value
}

/// Whether a policy is the one of this byte, or there is neither.
fn is_policy(policy: Option<Policy>, byte: Option<u8>) -> bool
    ensures { IsTrue result ↔ (option_map policy_byte policy ≡ byte) }
{
    match (policy, byte) {
        (None, None) => true,
        (Some(own), Some(byte)) => own.byte() == byte,
        (None, Some(_)) => false,
        (Some(_), None) => false,
    }
}

/// Whether each of these roots is of this epoch or a later one.
fn are_from(from: u64, roots: &RootList<'_>) -> bool
    ensures { IsTrue result ↔ AllByRecursion (λ root. from ≤ root.body.epoch) roots.now }
{
    let mut rest = roots.copied();
    for _ in 0..rest.len() {
        let Some(root) = rest.next() else {
            unreachable!()
        };
        if root.body.epoch < from {
            return false;
        }
    }
    true
}

/// Whether a response is over a root that is not older than one of this epoch, if it has to be.
fn is_timely(held: u64, ask: &Ask, response: &Response<'_>) -> bool
    ensures { IsTrue result ↔ IsTimely held (ask_seen ask.now) (response_seen response.now) }
{
    match (ask, response) {
        (_, Response::Promise(signed)) => held <= signed.promise.epoch,
        (Ask::Lookup { epoch, .. }, Response::Proof(found)) => {
            *epoch != 0 || held <= found.body().epoch
        }
        _ => true,
    }
}

/// Whether a response is one to what was asked when the chain had a head of this epoch.
pub(crate) fn answers_at(held: u64, ask: &Ask, response: &Response<'_>) -> bool
    ensures { IsTrue result ↔ IsAnswerAt held (ask_seen ask.now) (response_seen response.now) }
{
    answers(ask, response) && is_timely(held, ask, response)
}

/// Tells a refusal of the directory.
pub(crate) fn tell_refused(code: u8, said: &mut Said) -> Result<(), AllocError>
    ensures { OnOk result (Tells said.old (refused (response_text (Refused code))) said.new) }
{
    tell_response(&mut said.text, Response::Refused(code))?;
    said.words.extend_from_slice(b"refused ")?;
    push_number(&mut said.words, u64::from(code))?;
    said.explain(directory_words(code))?;
    said.raise(REFUSED);
    Ok(())
}

/// The body of a frame that answers what was asked; else tells why it does not, whole or not at all.
pub(crate) fn body_of<'a>(
    alloc: Global,
    ask: &Ask,
    frame: &FrameView<'a>,
    said: &mut Said,
) -> Result<Option<&'a [u8]>, AllocError>
    ensures gives { IfOk result (λ body. GivesBody (ask_seen ask.now) (frame_seen frame.now) said.old (option_map (λ bytes. bytes.now) body) said.new) }
    ensures untold { OnErr result (report_of said.new ≡ report_of said.old) }
{
    match Response::read(frame.kind, frame.body) {
        Ok(response) => {
            if answers(ask, &response) {
                return Ok(Some(frame.body));
            }
            let mut now = Said::new(alloc);
            tell_miss(response, &mut now)?;
            said.join(now)?;
            Ok(None)
        }
        Err(why) => {
            let mut now = Said::new(alloc);
            tell_unread(alloc, why, &mut now)?;
            said.join(now)?;
            Ok(None)
        }
    }
}

/// Tells that a reply does not answer what was asked, whole or not at all.
pub(crate) fn tell_other(alloc: Global, said: &mut Said) -> Result<(), AllocError>
    ensures tells { OnOk result (Tells said.old other_reply said.new) }
    ensures untold { OnErr result (report_of said.new ≡ report_of said.old) }
{
    let mut now = Said::new(alloc);
    now.refuse_other()?;
    said.join(now)?;
    Ok(())
}

/// Tells a response that does not answer what was asked: a refusal of the directory, or one to something else.
fn tell_miss(response: Response<'_>, said: &mut Said) -> Result<(), AllocError>
    ensures { OnOk result (Tells said.old (miss_told (response_seen response.entry)) said.new) }
{
    match response {
        Response::Refused(code) => tell_refused(code, said),
        Response::Promise(_) => said.refuse_other(),
        Response::Proof(_) => said.refuse_other(),
        Response::Roots(_) => said.refuse_other(),
        Response::Root(_) => said.refuse_other(),
    }
}

/// Tells that a frame is no response.
pub(crate) fn tell_unread(
    alloc: Global,
    why: ReadRefusal,
    said: &mut Said,
) -> Result<(), AllocError>
    ensures { OnOk result (Tells said.old (refused (refuses_text (codes "client refuses reply") (read_refusal_number why))) said.new) }
{
    let words = format!(in alloc; "{why}")?;
    said.refuse(b"client refuses reply", why.number(), words.as_bytes())
}

/// Asks, and returns the body of the reply if it is an answer; else tells why it is none, whole or not at all.
///
/// # Errors
///
/// Those of `exchange`.
pub(crate) fn ask_for<T: Read + Write>(
    alloc: Global,
    stream: &mut T,
    token: Hash32,
    ask: &Ask,
    said: &mut Said,
) -> Result<Option<Vec<u8>>, AskFault>
    ensures gives { IfOk result (λ body. (frame : Frame) × ExchangesFrames T.contents T.remaining stream.old (with_token token (ask_seen ask.now)) frame stream.new
        × GivesBody (ask_seen ask.now) frame said.old (option_map (λ bytes. bytes.items) body) said.new) }
    ensures err { IfErr result (λ fault. fault ≢ Stopped) }
    ensures untold { OnErr result (report_of said.new ≡ report_of said.old) }
{
    let reply = exchange(alloc, stream, &ask.request(token))?;
    match body_of(alloc, ask, &frame_in(&reply)?, said)? {
        Some(body) => Ok(Some(Vec::from_slice(alloc, body)?)),
        None => Ok(None),
    }
}
