//! Of `wire`: requests, responses, and a feed, which stays for the next lines. Responses are written in
//! `answers`.

use crate::answers::written;
use crate::root_lists::say_list;
use crate::roots::{say_body, say_promise};
use commands::{Put, Query, Verb};
use questions::Case;
use wire::{Feed, FeedRefusal, Next, Request, Response};

pub(crate) fn answer(case: &mut Case<'_>, feed: &mut Feed) {
    match case.word() {
        b"request" => request(case),
        b"response" => response(case),
        b"answer" => written(case),
        b"new" => *feed = Feed::new(case.alloc()),
        b"feed" => fed(case, feed),
        _ => case.spoil(),
    }
}

/// `request KIND BODY`: its parts, and `yes` and its frame where one has so much room.
fn request(case: &mut Case<'_>) {
    let kind = case.number_to(255) as u8;
    match Request::read(kind, case.bytes()) {
        Ok(request) => {
            say_request(case, &request);
            write_request(case, &request);
        }
        Err(refusal) => case.refuse(refusal.number(), refusal),
    }
}

fn say_request(case: &mut Case<'_>, request: &Request<'_>) {
    match request {
        Request::Query(query) => say_query(case, query),
        Request::Put(put) => say_put(case, put),
        Request::Turn {
            token,
            epoch,
            nonce,
        } => {
            case.say(if nonce.is_none() { "close" } else { "rotate" });
            case.say_bytes(token.bytes());
            case.say_shown(*epoch);
            if let Some(nonce) = nonce {
                case.say_bytes(nonce.bytes());
            }
        }
    }
}

fn say_query(case: &mut Case<'_>, query: &Query<'_>) {
    match query {
        Query::Promise { name } => {
            case.say("promise");
            case.say_bytes(name);
        }
        Query::Lookup { name, epoch } => {
            case.say("lookup");
            case.say_shown(*epoch);
            case.say_bytes(name);
        }
        Query::History { from, count } => {
            case.say("history");
            case.say_shown(*from);
            case.say_shown(*count);
        }
        Query::Head => case.say("head"),
    }
}

fn say_put(case: &mut Case<'_>, put: &Put<'_>) {
    match put.policy {
        None => case.say(match put.verb {
            Verb::Register => "register",
            Verb::Change => "change",
        }),
        Some(policy) => {
            case.say(match put.verb {
                Verb::Register => "register2",
                Verb::Change => "change2",
            });
            case.say_shown(policy);
        }
    }
    case.say_bytes(put.name);
    case.say_bytes(put.key);
}

fn write_request(case: &mut Case<'_>, request: &Request<'_>) {
    if !request.fits() {
        return case.say("no");
    }
    case.say("yes");
    let mut frame = Vec::new(case.alloc());
    match request.write(&mut frame) {
        Ok(()) => case.say_bytes(&frame),
        Err(_) => case.lack_memory(),
    }
}

/// `response KIND BODY`
fn response(case: &mut Case<'_>) {
    let kind = case.number_to(255) as u8;
    match Response::read(kind, case.bytes()) {
        Ok(response) => say_response(case, response),
        Err(refusal) => case.refuse(refusal.number(), refusal),
    }
}

fn say_response(case: &mut Case<'_>, response: Response<'_>) {
    match response {
        Response::Promise(signed) => say_promise(case, &signed.promise),
        Response::Proof(view) => case.say_bytes(view.siblings()),
        Response::Roots(list) => say_list(case, list),
        Response::Root(root) => say_body(case, &root.body),
        Response::Refused(code) => case.say_shown(code),
    }
}

/// `feed PIECE`: each frame that the piece completes, after whether it is ready, and whether the feed then
/// waits or has failed. Each piece has its own line, since a line may be tried again.
fn fed(case: &mut Case<'_>, feed: &mut Feed) {
    match feed.feed(case.bytes()) {
        Ok(()) => say_frames(case, feed),
        Err(FeedRefusal::Memory) => case.lack_memory(),
        Err(refusal) => case.refuse(refusal.number(), refusal),
    }
}

fn say_frames(case: &mut Case<'_>, feed: &mut Feed) {
    // No piece completes so many messages.
    for _ in 0..u64::MAX {
        case.say_truth(feed.ready());
        match feed.next() {
            Next::Frame(kind, body) => {
                case.say_shown(kind);
                case.say_bytes(body);
            }
            Next::Wait => return case.say("waits"),
            Next::Failed => return case.say("failed"),
        }
    }
}
