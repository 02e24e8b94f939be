//! Of `vrfiface` and `sigiface`: values, indices and signatures of the stand-ins.

use nodehash::{Sha256Hash, SumHash};
use questions::Case;
use sigiface::{KeyedSign, Signer, Verifier};
use vrfiface::{KeyedVuf, PlainVuf, Vuf, index_of};

pub(crate) fn answer(case: &mut Case<'_>) {
    match case.word() {
        b"value" => keyed_value(case),
        b"plain-value" => value(case, &PlainVuf),
        b"accepts" => keyed_accepts(case),
        b"plain-accepts" => accepts(case, &PlainVuf),
        b"index" => index(case),
        b"sign" => sign(case),
        b"verify" => verify(case),
        _ => case.spoil(),
    }
}

/// `value SECRET NAME`
fn keyed_value(case: &mut Case<'_>) {
    let vuf = KeyedVuf::new(case.hash());
    value(case, &vuf);
}

/// The public key and the value of a name.
fn value<V: Vuf>(case: &mut Case<'_>, vuf: &V) {
    let name = case.name();
    case.say_bytes(vuf.public().bytes());
    case.say_bytes(vuf.value(&name).bytes());
}

/// `accepts SECRET KEY NAME VALUE`
fn keyed_accepts(case: &mut Case<'_>) {
    let vuf = KeyedVuf::new(case.hash());
    accepts(case, &vuf);
}

fn accepts<V: Vuf>(case: &mut Case<'_>, vuf: &V) {
    let key = case.hash();
    let name = case.name();
    let value = case.bytes();
    case.say_truth(vuf.accepts(&key, &name, value));
}

/// `index VALUE`: by SHA-256 and by sums.
fn index(case: &mut Case<'_>) {
    let value = case.bytes();
    case.say_bytes(index_of(&mut Sha256Hash::new(), value).bytes());
    case.say_bytes(index_of(&mut SumHash::new(), value).bytes());
}

/// `sign SECRET MESSAGE`
fn sign(case: &mut Case<'_>) {
    let signer = KeyedSign::new(case.hash());
    let message = case.bytes();
    case.say_bytes(signer.public().bytes());
    case.say_bytes(signer.sign(message).bytes());
}

/// `verify SECRET KEY MESSAGE SIGNATURE`
fn verify(case: &mut Case<'_>) {
    let signer = KeyedSign::new(case.hash());
    let key = case.hash();
    let message = case.bytes();
    let signature = case.bytes();
    case.say_truth(signer.verify(&key, message, signature));
}
