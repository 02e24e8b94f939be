//! Of `encoding`: hashes, indices, names, keys and small values.

use encoding::{KeyData, Name, Small};
use questions::Case;

pub(crate) fn answer(case: &mut Case<'_>, verb: &[u8]) {
    match verb {
        b"hash" => hash(case),
        b"index" => index(case),
        b"name" => name(case),
        b"key" => key(case),
        b"small" => small(case),
        b"order-hash" => order_hashes(case),
        b"order-name" => order_names(case),
        b"order-key" => order_keys(case),
        b"order-small" => order_smalls(case),
        _ => case.spoil(),
    }
}

/// `hash HEX32`: the bytes as they are lent, and by value.
fn hash(case: &mut Case<'_>) {
    let hash = case.hash();
    case.say_bytes(hash.bytes());
    case.say_bytes(&hash.to_bytes());
}

/// `index HEX32`: the bytes as they are lent, and by value.
fn index(case: &mut Case<'_>) {
    let index = case.index();
    case.say_bytes(index.bytes());
    case.say_bytes(&index.to_bytes());
}

/// `name BYTES`
fn name(case: &mut Case<'_>) {
    match Name::new(case.bytes()) {
        Ok(name) => case.say_bytes(name.copied().bytes()),
        Err(fault) => case.refuse(fault.number(), fault),
    }
}

/// `key BYTES`
fn key(case: &mut Case<'_>) {
    match KeyData::new(case.bytes()) {
        Ok(key) => case.say_bytes(key.copied().bytes()),
        Err(fault) => case.refuse(fault.number(), fault),
    }
}

/// `small BYTES`
fn small(case: &mut Case<'_>) {
    match Small::new(case.bytes()) {
        Ok(small) => case.say_bytes(small.copied().bytes()),
        Err(fault) => case.refuse(fault.number(), fault),
    }
}

/// `order-hash HASH HASH`: whether the first is below the second.
fn order_hashes(case: &mut Case<'_>) {
    let first = case.hash();
    let second = case.hash();
    case.say_truth(first < second);
}

/// `order-name NAME NAME`: whether the first is below the second.
fn order_names(case: &mut Case<'_>) {
    let first = case.name();
    let second = case.name();
    case.say_truth(first < second);
}

/// `order-key KEY KEY`: whether the first is below the second.
fn order_keys(case: &mut Case<'_>) {
    let first = case.key();
    let second = case.key();
    case.say_truth(first < second);
}

/// `order-small SMALL SMALL`: whether the first is below the second.
fn order_smalls(case: &mut Case<'_>) {
    let first = case.small();
    let second = case.small();
    case.say_truth(first < second);
}
