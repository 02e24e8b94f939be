//! Of `items`: the programs on a list of items.

use items::{HashChoice, ProveOrder, RootOrder, prove, root};
use nodehash::GroupSize;
use questions::{Case, say_ended};

pub(crate) fn answer(case: &mut Case<'_>) {
    match case.word() {
        b"root" => root_of_items(case),
        b"prove" => path_in_items(case),
        _ => case.spoil(),
    }
}

/// The hash function `sha256` or `sum`, and the text of a nonce or `none`.
fn order<'a>(case: &mut Case<'a>) -> RootOrder<'a> {
    let hash = match case.word() {
        b"sha256" => HashChoice::Sha256,
        b"sum" => HashChoice::Sum,
        _ => {
            case.spoil();
            HashChoice::Sum
        }
    };
    RootOrder {
        hash,
        nonce: case.option_text(),
    }
}

/// `root HASH NONCE INPUT`: how it ended, and what was written; `prove` alike.
fn root_of_items(case: &mut Case<'_>) {
    let order = order(case);
    let mut input = case.bytes();
    let mut output = Vec::new(case.alloc());
    let ended = root(
        case.alloc(),
        order,
        GroupSize::Eight,
        &mut input,
        &mut output,
    );
    say_ended(case, ended);
    case.say_text(&output);
}

/// `prove HASH NONCE INDEX INPUT`
fn path_in_items(case: &mut Case<'_>) {
    let root = order(case);
    let index = case.text();
    let mut input = case.bytes();
    let mut output = Vec::new(case.alloc());
    let order = ProveOrder { index, root };
    let ended = prove(
        case.alloc(),
        order,
        GroupSize::Four,
        &mut input,
        &mut output,
    );
    say_ended(case, ended);
    case.say_text(&output);
}
