//! The lines of what users see, in the words of scripts.

use auditor::Evidence;
use audits::evidence_json;
use client::Refusal;
use proofs::Statement;
use rootchain::RootEvidence;
use std::alloc::Global;
use std::fmt::Display;
use std::io::Write;
use wire::Response;

/// The lines so far. Want of memory is kept in it and told at the end, so that no call has to pass it on.
#[derive(Drop)]
pub(crate) struct Printed {
    text: Vec<u8>,
    lacks_memory: bool,
}

impl Printed {
    /// No line.
    pub(crate) fn new(alloc: Global) -> Printed {
        Printed {
            text: Vec::new(alloc),
            lacks_memory: false,
        }
    }

    pub(crate) fn text(&self) -> &[u8] {
        &self.text
    }

    /// Whether memory ran out, here or in another call.
    pub(crate) fn lacks_memory(&self) -> bool {
        self.lacks_memory
    }

    pub(crate) fn lack_memory(&mut self) {
        self.lacks_memory = true;
    }

    fn push(&mut self, bytes: &[u8]) {
        if self.text.extend_from_slice(bytes).is_err() {
            self.lack_memory();
        }
    }

    fn push_gap(&mut self) {
        if !self.text.is_empty() && !self.text.ends_with(b"\n") {
            self.push(b" ");
        }
    }

    /// A word of the line.
    pub(crate) fn say(&mut self, word: &str) {
        self.push_gap();
        self.push(word.as_bytes());
    }

    /// A number, as a word of the line.
    pub(crate) fn say_shown<T: Display + Drop>(&mut self, shown: T) {
        self.push_gap();
        if write!(&mut self.text, "{shown}").is_err() {
            self.lack_memory();
        }
    }

    pub(crate) fn end_line(&mut self) {
        self.push(b"\n");
    }
}

/// Tells a response. A proof is told by its epoch alone.
pub(crate) fn tell_response(printed: &mut Printed, kind: u8, body: &[u8]) {
    match Response::read(kind, body) {
        Ok(response) => {
            if play::tell_response(&mut printed.text, response).is_err() {
                printed.lack_memory();
            }
        }
        Err(_) => printed.end_line(),
    }
}

/// Tells what the client accepted at an epoch.
pub(crate) fn tell_statement(printed: &mut Printed, epoch: u64, statement: Statement<'_>) {
    if play::tell_statement(&mut printed.text, epoch, statement).is_err() {
        printed.lack_memory();
    }
}

/// Tells that the client refuses.
pub(crate) fn tell_client(alloc: Global, printed: &mut Printed, why: Refusal) {
    match why {
        Refusal::Memory => printed.lack_memory(),
        Refusal::Root(why) => say_refused(printed, "client refuses root", why.number()),
        Refusal::Proof(why) => say_refused(printed, "client refuses proof", why.number()),
        Refusal::RootDiffers(evidence) => tell_evidence(alloc, printed, evidence),
        Refusal::UnknownRoot => say_refused(
            printed,
            "client refuses",
            Refusal::UnknownRoot.number(),
        ),
        Refusal::NoPromise => say_refused(printed, "client refuses", Refusal::NoPromise.number()),
    }
}

/// Tells evidence, as JSON.
fn tell_evidence(alloc: Global, printed: &mut Printed, roots: RootEvidence) {
    match evidence_json(alloc, &Evidence::Root(roots)) {
        Ok(text) => {
            printed.say(text.as_str());
            printed.end_line();
        }
        Err(_) => printed.lack_memory(),
    }
}

fn say_refused(printed: &mut Printed, words: &str, number: u8) {
    printed.say(words);
    printed.say_shown(number);
    printed.end_line();
}
