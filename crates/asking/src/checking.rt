// What the client makes of the reply to what was asked.
ghost use Rattle.std.specs.Prelude.{◌≡◌, ◌≢◌, ◌⊎◌, OnErr, OnOk, Result};
ghost use Rattle.encoding.specs.Limits.{IsName};
ghost use Rattle.wire.specs.FrameViews.{frame_seen};
ghost use Rattle.wire.specs.Responses.{response_seen};
ghost use Rattle.wire.specs.Responses as responds;
ghost use Rattle.client.specs.Looking.{Looks};
ghost use Rattle.client.specs.Promising.{KeepsPromise};
ghost use Rattle.client.specs.declared.client_refusal.Refusal.{Refusal};
ghost use Rattle.client.specs.declared.client_refusal.Refusal.TheVariants.{Memory};
ghost use Rattle.proofs.specs.declared.statement.Statement.{Statement};
ghost use Rattle.audits.specs.Files.{evidence_text};
ghost use Rattle.play.specs.Scripts.{ask_seen};
ghost use Rattle.asking.specs.Checking.{look_told, promise_told, HearsFrame, HearsResponse, IsTellable};
ghost use Rattle.asking.specs.Refused.{client_refuses, evidence_told};
ghost use Rattle.asking.specs.Reports.{caught, report_of, Report, Tells};

use crate::answering::{answers_at, tell_refused, tell_unread};
use crate::placing::{place_all, place_latest};
use crate::said::CAUGHT;
use crate::wanted::Wanted;
use crate::{Checks, Said};
use auditor::Evidence;
use audits::evidence_json;
use client::{Client, Refusal};
use encoding::Name;
use nodehash::NodeHash;
use play::{Ask, tell_response, tell_statement};
use rootchain::SignedPromise;
use sigiface::Verifier;
use std::alloc::{AllocError, Global};
use vrfiface::VufCheck;
use wire::{FrameView, Response};

/// Tells evidence, as JSON.
pub(crate) fn tell_evidence(
    alloc: Global,
    evidence: &Evidence,
    said: &mut Said,
) -> Result<(), AllocError>
    ensures { OnOk result (Tells said.old (caught (evidence_text evidence.now)) said.new) }
{
    let json = evidence_json(alloc, evidence)?;
    said.text.extend_from_slice(json.as_bytes())?;
    said.text.push(b'\n')?;
    said.raise(CAUGHT);
    Ok(())
}

/// Tells the evidence of a refusal, if it has some.
fn tell_roots(alloc: Global, why: Refusal, said: &mut Said) -> Result<(), AllocError>
    ensures { OnOk result (Tells said.old (evidence_told why) said.new) }
{
    match why {
        Refusal::RootDiffers(roots) => tell_evidence(alloc, &Evidence::Root(roots), said),
        Refusal::Root(_)
        | Refusal::Proof(_)
        | Refusal::UnknownRoot
        | Refusal::Memory
        | Refusal::NoPromise => Ok(()),
    }
}

/// Tells a refusal of the client, behind the evidence if there is some, whole or not at all.
pub(crate) fn tell_client(
    alloc: Global,
    what: &[u8],
    why: Refusal,
    said: &mut Said,
) -> Result<(), AllocError>
    ensures told { OnOk result (Tells said.old (client_refuses what.now why) said.new) }
    ensures known { OnOk result (why ≢ Memory) }
    ensures untold { OnErr result (report_of said.new ≡ report_of said.old) }
{
    let mut now = Said::new(alloc);
    tell_refusal(alloc, what, why, &mut now)?;
    said.join(now)?;
    Ok(())
}

/// Tells a refusal of the client, behind the evidence if there is some.
fn tell_refusal(alloc: Global, what: &[u8], why: Refusal, said: &mut Said) -> Result<(), AllocError>
    ensures told { OnOk result (Tells said.old (client_refuses what.now why) said.new) }
    ensures known { OnOk result (why ≢ Memory) }
{
    if why == Refusal::Memory {
        return Err(AllocError);
    }
    let words = format!(in alloc; "{why}")?;
    let number = why.number();
    tell_roots(alloc, why, said)?;
    said.refuse(what, number, words.as_bytes())
}

/// What the client makes of the frame that came back for what was asked, when its chain had a head of this epoch. A
/// promise is kept.
///
/// # Errors
///
/// `AllocError` if memory runs out. Then nothing is told, but the client may be as after a reply that was told.
pub fn hear<H, V, S>(
    alloc: Global,
    client: &mut Client<H, V, S>,
    checks: &mut Checks<H, V, S>,
    held: u64,
    ask: &Ask,
    frame: &FrameView<'_>,
    said: &mut Said,
) -> Result<(), AllocError>
where
    H: NodeHash + Drop,
    V: VufCheck + Drop,
    S: Verifier + Drop,
    ensures hears { OnOk result ((told : Report) × HearsFrame H.digest_of V.accepted S.verified held client.old (ask_seen ask.now) (frame_seen frame.now) told client.new × Tells said.old told said.new) }
    ensures client { (client.new ≡ client.old) ⊎ ((told : Report) × HearsFrame H.digest_of V.accepted S.verified held client.old (ask_seen ask.now) (frame_seen frame.now) told client.new) }
    ensures untold { OnErr result (report_of said.new ≡ report_of said.old) }
{
    let mut now = Said::new(alloc);
    hear_frame(alloc, client, checks, held, ask, frame, &mut now)?;
    said.join(now)?;
    Ok(())
}

/// What the client makes of a frame.
fn hear_frame<H, V, S>(
    alloc: Global,
    client: &mut Client<H, V, S>,
    checks: &mut Checks<H, V, S>,
    held: u64,
    ask: &Ask,
    frame: &FrameView<'_>,
    said: &mut Said,
) -> Result<(), AllocError>
where
    H: NodeHash + Drop,
    V: VufCheck + Drop,
    S: Verifier + Drop,
    ensures hears { OnOk result ((told : Report) × HearsFrame H.digest_of V.accepted S.verified held client.old (ask_seen ask.now) (frame_seen frame.now) told client.new × Tells said.old told said.new) }
    ensures client { (client.new ≡ client.old) ⊎ ((told : Report) × HearsFrame H.digest_of V.accepted S.verified held client.old (ask_seen ask.now) (frame_seen frame.now) told client.new) }
{
    match Response::read(frame.kind, frame.body) {
        Ok(response) => {
            hear_response(alloc, client, checks, held, ask, response, frame.body, said)
        }
        Err(why) => tell_unread(alloc, why, said),
    }
}

/// What the client makes of a response. One that does not answer what was asked is not checked.
fn hear_response<H, V, S>(
    alloc: Global,
    client: &mut Client<H, V, S>,
    checks: &mut Checks<H, V, S>,
    held: u64,
    ask: &Ask,
    response: Response<'_>,
    body: &[u8],
    said: &mut Said,
) -> Result<(), AllocError>
where
    H: NodeHash + Drop,
    V: VufCheck + Drop,
    S: Verifier + Drop,
    ensures hears { OnOk result ((told : Report) × HearsResponse H.digest_of V.accepted S.verified held client.old body.now (ask_seen ask.now) (response_seen response.entry) told client.new × Tells said.old told said.new) }
    ensures client { (client.new ≡ client.old) ⊎ ((told : Report) × HearsResponse H.digest_of V.accepted S.verified held client.old body.now (ask_seen ask.now) (response_seen response.entry) told client.new) }
{
    let is_answer = answers_at(held, ask, &response);
    match response {
        Response::Refused(code) => tell_refused(code, said),
        Response::Promise(signed) => {
            if !is_answer {
                return said.refuse_other();
            }
            keep(alloc, client, checks, signed, body, said)
        }
        Response::Root(root) => {
            if !is_answer {
                return said.refuse_other();
            }
            place_latest(alloc, client, checks, held, root, said)
        }
        Response::Proof(found) => {
            if !is_answer {
                return said.refuse_other();
            }
            let Ask::Lookup { name, .. } = ask else {
                unreachable!()
            };
            look(alloc, client, checks, name, found.body().epoch, body, said)
        }
        Response::Roots(roots) => {
            if !is_answer {
                return said.refuse_other();
            }
            let Ask::History { from, count } = ask else {
                unreachable!()
            };
            let (from, count) = (*from, *count);
            let wanted = Wanted { held, from, count };
            place_all(alloc, client, checks, &wanted, roots, said)
        }
    }
}

/// Looks at a reply to a look-up under the root of this epoch, which is its own.
fn look<H, V, S>(
    alloc: Global,
    client: &mut Client<H, V, S>,
    checks: &mut Checks<H, V, S>,
    name: &[u8],
    epoch: u64,
    reply: &[u8],
    said: &mut Said,
) -> Result<(), AllocError>
where
    H: NodeHash + Drop,
    V: VufCheck + Drop,
    S: Verifier + Drop,
    requires named { IsName name.now }
    ensures tells { OnOk result ((answer : Result Statement Refusal) × (Looks H.digest_of V.accepted client.old name.now epoch reply.now answer client.new × IsTellable answer) × Tells said.old (look_told epoch answer) said.new) }
    ensures client { (client.new ≡ client.old) ⊎ ((answer : Result Statement Refusal) × Looks H.digest_of V.accepted client.old name.now epoch reply.now answer client.new × IsTellable answer) }
{
    let Ok(name) = Name::new(name) else {
        unreachable!()
    };
    match client.look(&mut checks.hash, &checks.vuf, &name, epoch, reply) {
        Ok(statement) => tell_statement(&mut said.text, epoch, statement),
        Err(why) => tell_client(alloc, b"client refuses proof", why, said),
    }
}

/// Keeps a promise, if it is one of the client's provider over a root of the chain.
fn keep<H, V, S>(
    alloc: Global,
    client: &mut Client<H, V, S>,
    checks: &mut Checks<H, V, S>,
    signed: SignedPromise,
    promise: &[u8],
    said: &mut Said,
) -> Result<(), AllocError>
where
    H: NodeHash + Drop,
    V: VufCheck + Drop,
    S: Verifier + Drop,
    ensures tells { OnOk result ((answer : Result (Unit {0}) Refusal) × (KeepsPromise H.digest_of S.verified client.old promise.now answer client.new × IsTellable answer) × Tells said.old (promise_told (responds.Promise signed) answer) said.new) }
    ensures client { (client.new ≡ client.old) ⊎ ((answer : Result (Unit {0}) Refusal) × KeepsPromise H.digest_of S.verified client.old promise.now answer client.new × IsTellable answer) }
{
    match client.keep_promise(&mut checks.hash, &checks.verifier, promise) {
        Ok(()) => tell_response(&mut said.text, Response::Promise(signed)),
        Err(why) => tell_client(alloc, b"client refuses promise", why, said),
    }
}
