//! Of `encoding`: the bits of an index. What else `bits` asks stands in `values`, `reading` and
//! `fixed_texts`.

use crate::fixed_texts::text;
use crate::reading::read;
use crate::values;
use encoding::{agree, bit, cut, with_one};
use questions::Case;

pub(crate) fn answer(case: &mut Case<'_>) {
    match case.word() {
        b"bit" => one_bit(case),
        b"cut" => cut_short(case),
        b"agree" => agreed(case),
        b"with-one" => set_one(case),
        b"order" => order(case),
        b"read" => read(case),
        b"text" => text(case),
        verb => values::answer(case, verb),
    }
}

/// `bit INDEX K`
fn one_bit(case: &mut Case<'_>) {
    let index = case.index();
    let place = case.number_to(255);
    case.say_truth(bit(&index, place));
}

/// `cut INDEX N`
fn cut_short(case: &mut Case<'_>) {
    let index = case.index();
    let count = case.number_to(1000);
    case.say_bytes(cut(&index, count).bytes());
}

/// `agree INDEX INDEX N`
fn agreed(case: &mut Case<'_>) {
    let first = case.index();
    let second = case.index();
    let count = case.number_to(1000);
    case.say_truth(agree(&first, &second, count));
}

/// `with-one PREFIX K`
fn set_one(case: &mut Case<'_>) {
    let prefix = case.index();
    let place = case.number_to(255);
    case.say_bytes(with_one(&prefix, place).bytes());
}

/// `order INDEX INDEX`: whether the first is below the second.
fn order(case: &mut Case<'_>) {
    let first = case.index();
    let second = case.index();
    case.say_truth(first < second);
}
