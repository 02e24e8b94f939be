//! Answers questions on the libraries, one a line: test vectors for any implementation.
//!
//! A question begins with a subject and a verb; `questions` says what words a line may have. The stored
//! questions and answers come from `scripts/questions/stored.py`, which computes them from the definitions alone.
//!
//! The public calls of the libraries, and the verbs that ask them:
//!
//! | Subject | Calls | Verbs |
//! |---|---|---|
//! | `bits` | `bit`, `cut`, `agree`, `with_one` | `bit`, `cut`, `agree`, `with-one` |
//! | | `Index`, `Hash32`, and `<` of them | `index`, `hash`; `order`, `order-hash` |
//! | | `Name`, `KeyData`, `Small`: `new`, `copied` | `name`, `key`, `small` |
//! | | `<` of them | `order-name`, `order-key`, `order-small` |
//! | | `Cursor`; `FixedText` | `read`; `text` |
//! | `nodes` | `NodeHash::digest`, `count`, `digest_all` | `sha256`, `sum`; `all`, `all-eight`, `all-sum` |
//! | | `keyed_digest`, `sha256_four`, `sha256_eight` | `keyed`, `four`, `eight` |
//! | | `empty_text`, `leaf_text`, `interior_text` | `empty`, `leaf`, `interior` |
//! | | `commit`, `commit_text` | `commit`, `commit2` |
//! | `stand-ins` | `Vuf::public`, `value`, by `small_keyed_digest`; `VufCheck::accepts` | `value`, `accepts`, `plain-value`, `plain-accepts` |
//! | | `index_of` | `index` |
//! | | `Signer::public`, `sign`; `Verifier::verify` | `sign`, `verify` |
//! | `roots` | `read`, `write`, `copied`, `verifies` of each form | `body`, `root`, `promise`, `signed-promise` |
//! | | `Form::read_whole`; `read_from`, which calls `read_parts` | the same; `front` |
//! | | `RootList`; `write_list`, `list_len` | `list`; `write-list` |
//! | | `RootEvidence::holds` | `fork`, `link`, `skip` |
//! | `chains` | `Chain::start`, `extend`, `place`, `take` | `start`, `extend`, `place`, `take` |
//! | | `take_list`, `at`, `after`, `head`, `key` | `take-list`, `at`, `after`, `head`, `key` |
//! | | `take_list`, `take_bytes` where memory runs out for their room | `room`, `room-bytes` |
//! | | `compare` | `compare`, `compare-sum` |
//! | | `take`, `extend` under a verifier that accepts all | `any`, `any-extended` |
//! | `trees` | `Tree::new`, `with`, `copy` | `new`, `with`, `copy` |
//! | | `placed`, which calls `placed_within`; `from_items`, `with_all`; `root_of_items` | `from`, `more`; `bare` |
//! | | `renew`, which calls `renew_with_all` | `renew` |
//! | | `root`, `get`; `path`, `Path::level`, `path_end`, `write_siblings` | `root`, `get`; `path` |
//! | | `end_text`, `joined_text`, `climb`, `leads`, `Path::leads` | `end-text`, `joined`, `climb`, `leads` |
//! | `replies` | `ReplyView::read`, `statement`, `siblings` | `read` |
//! | | `accept`, which calls `check` | `accept`, `accept-sum` |
//! | | `Accepted` and its `again`; `Statement::binds` | `accepted`; `binds`, `binds2` |
//! | | `compare_replies`, `same_or_collision` | `compare`, `compare-sum`, `same`, `same-any` |
//! | | `make` | `make` |
//! | `frames` | `Request::read`, `fits`, `write` | `request` |
//! | | `Response::read`, `Answer::write` | `response`, `answer` |
//! | | `Feed::new`, `feed`; `ready` and `next`, which call `front_of`, `is_frame_size` | `new`; `feed` |
//! | `journal` | `Journal::new`; `keep`, which calls `write_record` | `start`, `register`, `register2`, `change`, `change2`, `turn`, `rotate` |
//! | | `records` | `records` |
//! | `text` | `hex_digits`, `hex32`, `option_hex32`, `hex32_or_zeros` | `digits`, `hex32`, `option-hex`, `hex32-or-zeros` |
//! | | `ProgramFault::status`, `tell` | `fault` |
//! | | the texts of refusals that only a device or a want of memory gives | `refusal` |
//! | `items` | `root`; `prove`, which calls `path_of_items`, `Path::root` | `root`; `prove` |
//!
//! `number` of each refusal is told with the refusal. `next_line` and `write_text` read and write each line.
//! `trees count` tells how many digests a change of the tree took. No verb asks the laws, which have no
//! code, `BrokenPromise`, which is evidence, and `read_some`, which shows more where a reader fails. Files
//! are read by the built program: `scripts/drive/statuses.sh` and `scripts/drive/journal.sh` ask `file_fault`.
#![tactic(auto)]

mod accepted;
mod answers;
mod any_vuf;
mod bits;
mod chains;
mod comparing;
mod digests;
mod evidence;
mod fixed_texts;
mod frames;
mod fronts;
mod journals;
mod listings;
mod made_replies;
mod nodes;
mod reading;
mod replies;
mod room;
mod root_lists;
mod roots;
mod stand_ins;
mod texts;
mod trees;
mod values;
mod ways;

use anyhow::Result;
use nodehash::Sha256Hash;
use questions::{Case, Subjects, answer_all};
use rootchain::Chain;
use sigiface::KeyedSign;
use std::io::{self, BufReader};
use trees::Grown;
use wire::Feed;

/// What a line leaves for the lines after it.
#[derive(Drop)]
struct State {
    grown: Grown,
    chain: Option<Chain<Sha256Hash, KeyedSign>>,
    feed: Feed,
}

impl Subjects for State {
    fn answer(&mut self, case: &mut Case<'_>) {
        match case.word() {
            b"bits" => bits::answer(case),
            b"nodes" => nodes::answer(case),
            b"stand-ins" => stand_ins::answer(case),
            b"roots" => roots::answer(case),
            b"chains" => chains::answer(case, &mut self.chain),
            b"trees" => trees::answer(case, &mut self.grown),
            b"replies" => replies::answer(case),
            b"frames" => frames::answer(case, &mut self.feed),
            b"journal" => journals::answer(case),
            b"text" => texts::answer(case),
            b"items" => listings::answer(case),
            _ => case.spoil(),
        }
    }
}

fn main(rt: HostRuntime) -> Result<()> {
    let alloc = rt.alloc();
    let mut state = State {
        grown: Grown::new(alloc)?,
        chain: None,
        feed: Feed::new(alloc),
    };
    let mut reader = BufReader::new(alloc, rt.reader())?;
    answer_all(alloc, &mut state, &mut reader, &mut io::writer(&rt))
}
