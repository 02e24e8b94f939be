//! Answers questions on directories and their users, one a line: the tests of the upper crates as data.
//!
//! A question is a subject, a verb, and arguments; the crate `questions` says how words are read. The
//! subjects are `directory`, `hub`, `serve`, `client`, `monitor`, `auditor`, `evidence`, `script` and
//! `text`. Those whose names end in `-sum` hash by sums of bytes, and a name is its own value. The stored
//! answers come from `scripts/questions/stored.py`, which computes them from the definitions alone.
//!
//! The public calls of the libraries, and the verbs that ask them:
//!
//! | Subject | Calls | Verbs |
//! |---|---|---|
//! | `directory` | `Directory::new`, `head` | `new`, `head` |
//! | | `register`, `change`, `register2`, `change2`, `promise`, `close` | the same words |
//! | | `rotate`, which calls `turn` and `Tree::renew_with_all` | `rotate` |
//! | | `lookup`, `lookup_into`, which calls `write_front` | `lookup` |
//! | | `history`; `run`; `replay` | `history`; `run`; `replay` |
//! | | `journal::open`, under the salts that `records` numbers, which calls `foresee`, `short_commit_text` | `open` |
//! | `hub` | `Hub::new`, which calls `Hub::over` and `Desk::new` | `new` |
//! | | `event`, which calls `Service::answer`, `begin_proof` and `end_proof` | `open`, `bytes`, `end` |
//! | | `head` | `head`, `seen`, `seen-sum` |
//! | | `run` | `run`, `run-on`, `seen`, `seen-sum` |
//! | `serve` | `serve_directory` without a journal, which calls `serve` | `run`, `keys` |
//! | `client` | `Client::start`, `update`, `look`, `look_next` | `start`, `update`, `look`, `look-next` |
//! | | of them `update` calls `Chain::take_bytes`; `update_from`, which calls `take_part` and `take_piece`; `RootFeed::new`, `done` | `from`; `feed`, `done` |
//! | | `update`, `update_from` of clients of their own; where memory runs out for their room | `ways`; `room-whole`, `room`, `room-more` |
//! | | `keep_promise`, `due`, `due_epoch` | `keep`, `due`, `due-epoch` |
//! | | `finality` | `finality` |
//! | | `key`, `chain` | `key`, `head` |
//! | | `reconcile` | `reconcile`, `reconcile-self`; `put-aside` makes the client the other one |
//! | | `start`, `update`, `keep_promise` under a verifier that accepts all | `any` |
//! | `monitor` | `Monitor::new`, `new2`, `update`, `update_from` | `new`, `new2`, `update`, `from` |
//! | | `next_epoch`, `step` | `next`, `step` |
//! | | `expect_change`, `expect_change2` with `read_promise` and `keep_read` of a client | `expect`, `expect2` |
//! | | `expected`, `name`, `client` | `expected`, `name`, `client` |
//! | | `update`, `expect_change` under a verifier that accepts all | `any` |
//! | `auditor` | `Auditor::new`, `observe`, `compare`, `chain` | `new`, `observe`, `compare`, `chain` |
//! | | `observe` under a verifier that accepts all | `any` |
//! | | `judge` | `judge` |
//! | `evidence` | `evidence_json`, `read_evidence` | `json`, `read` |
//! | | `judge_file`; `audit` | `judge`, `altered`; `audit` |
//! | `text` | refusals of memory, of a keeper and of streams | `refusal` |
//! | `script` | `play`, in which all of them come together | |
//! | | with `read_line`, `next_line`, `push_hex`, `push_number`, `Ask::request` of its crate | |
//! | | and `tell_response`, `tell_statement`, `tell_step` | |
//!
//! Of the public calls of the upper crates that no verb asks, `scripts/drive/statuses.sh` asks `judge_at` and
//! `Verdict::status`, and `order`, `end`, `refuse` and `refuse_bytes` of `directoryd`; `scripts/drive/listen.sh`
//! asks `listen`, which calls `answer_all` and `Places::free` of `connections`, `Hub::part` and `Feed::part`;
//! `scripts/drive/journal.sh` asks `listen` and `serve_directory` with a journal; and `scripts/drive/asks.py` asks `ask`
//! of `runs`, which calls `Checks::keyed`, `ask_over`, `settle_over`, `RunEnd::status` and `Client::promises`,
//! and of `asking` `hear`, `Reply::epoch`, `Said::new`, `raise`, `join`, and `Asker::start`, `start_at_head`,
//! `head`, `send`, `advance`, `hear`, `hear_head`, `go_on`, `watch` and `test_promises`.
//! The crate `faults` has keepers, readers and writers that fail, and asks `Journal` as the keeper of a
//! directory, and `answer_all` and `Places::free`.
#![tactic(auto)]

mod auditors;
mod clients;
mod directories;
mod evidences;
mod feeds;
mod hubs;
mod journals;
mod lists;
mod monitors;
mod refusals;
mod script;
mod seen;
mod serving;
mod stand_ins;

use anyhow::Result;
use auditor::Auditor;
use auditors::KeyedAuditor;
use clients::{Clients, KeyedClients, SummedClients};
use directories::{KeyedDirectory, SummedDirectory};
use hubs::KeptHub;
use monitors::KeyedMonitor;
use questions::{Case, Subjects, answer_all};
use rootchain::RootFeed;
use std::alloc::Global;
use std::fs::{File, Files};
use std::io::{self, BufReader};

/// What a line leaves for the lines after it.
#[derive(Drop)]
struct State<'a, F: Files<File = File>> {
    files: &'a F,
    directory: Option<KeyedDirectory>,
    summed_directory: Option<SummedDirectory>,
    hub: KeptHub,
    clients: KeyedClients,
    summed_clients: SummedClients,
    monitor: Option<KeyedMonitor>,
    auditor: KeyedAuditor,
}

impl<'a, F: Files<File = File>> State<'a, F> {
    fn new(alloc: Global, files: &'a F) -> Self {
        State {
            files,
            directory: None,
            summed_directory: None,
            hub: KeptHub::new(alloc),
            clients: Clients {
                client: None,
                other: None,
                feed: RootFeed::new(),
            },
            summed_clients: Clients {
                client: None,
                other: None,
                feed: RootFeed::new(),
            },
            monitor: None,
            auditor: Auditor::new(alloc),
        }
    }
}

impl<F: Files<File = File>> Subjects for State<'_, F> {
    fn answer(&mut self, case: &mut Case<'_>) {
        match case.word() {
            b"directory" => directories::answer_keyed(case, &mut self.directory),
            b"directory-sum" => directories::answer_summed(case, &mut self.summed_directory),
            b"hub" => hubs::answer(case, &mut self.hub),
            b"serve" => serving::answer(case, self.files),
            b"client" => clients::answer_keyed(case, &mut self.clients),
            b"client-sum" => clients::answer_summed(case, &mut self.summed_clients),
            b"monitor" => monitors::answer(case, &mut self.clients, &mut self.monitor),
            b"auditor" => auditors::answer(case, &mut self.auditor),
            b"evidence" => evidences::answer(case),
            b"script" => script::answer(case, self.files),
            b"text" => refusals::answer(case),
            _ => case.spoil(),
        }
    }
}

fn main(rt: HostRuntime) -> Result<()> {
    let alloc = rt.alloc();
    let mut reader = BufReader::new(alloc, rt.reader())?;
    let mut state = State::new(alloc, &rt);
    answer_all(alloc, &mut state, &mut reader, &mut io::writer(&rt))
}
