//! Of `wire`: responses that are written.
ghost use Rattle.wire.specs.Responses.{HasFewRoots};

use encoding::{PROOF_TEXT_ROOM, ProofText};
use questions::Case;
use rootchain::{MAX_ROOTS, RootList, SignedRoot};
use wire::{Answer, Response};

/// `answer KIND BODY`: a response, read and then written as a frame.
pub(crate) fn written(case: &mut Case<'_>) {
    let kind = case.number_to(255) as u8;
    let body = case.bytes();
    match Response::read(kind, body) {
        Ok(response) => write_response(case, response, body),
        Err(refusal) => case.refuse(refusal.number(), refusal),
    }
}

fn write_response(case: &mut Case<'_>, response: Response<'_>, body: &[u8]) {
    match response {
        Response::Promise(promise) => write(case, &Answer::Promise(&promise)),
        Response::Proof(_) => write_proof(case, body),
        Response::Roots(list) => write_roots(case, list),
        Response::Root(root) => write(case, &Answer::Root(&root)),
        Response::Refused(code) => write(case, &Answer::Refused(code)),
    }
}

fn write(case: &mut Case<'_>, answer: &Answer<'_>)
    requires { HasFewRoots answer.now }
{
    let mut frame = Vec::new(case.alloc());
    match answer.write(&mut frame) {
        Ok(()) => case.say_bytes(&frame),
        Err(_) => case.lack_memory(),
    }
}

fn write_proof(case: &mut Case<'_>, reply: &[u8]) {
    if PROOF_TEXT_ROOM < reply.len() {
        return case.spoil();
    }
    let mut text = ProofText::new();
    text.push_slice(reply);
    write(case, &Answer::Proof(&text));
}

fn write_roots(case: &mut Case<'_>, list: RootList<'_>) {
    let roots = roots_of(case, list);
    if MAX_ROOTS < roots.len() {
        return case.spoil();
    }
    write(case, &Answer::Roots(&roots));
}

fn roots_of(case: &mut Case<'_>, list: RootList<'_>) -> Vec<SignedRoot> {
    let mut list = list;
    let mut roots = Vec::new(case.alloc());
    for _ in 0..list.len() {
        if let Some(root) = list.next() {
            if roots.push(root).is_err() {
                case.lack_memory();
            }
        }
    }
    roots
}
