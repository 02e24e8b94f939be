//! Of `server`: one session of a directory that is begun for it.

use questions::{Case, say_ended, tells_of_memory};
use server::{DirectoryOrder, serve_directory};
use std::fs::{File, Files};
use std::num::NonZeroU64;

const SIGN: &str = "0101010101010101010101010101010101010101010101010101010101010101";

const VUF: &str = "0202020202020202020202020202020202020202020202020202020202020202";

const SALT: &str = "0000000000000000000000000000000000000000000000000000000000000000";

const TOKEN: &str = "0404040404040404040404040404040404040404040404040404040404040404";

pub(crate) fn answer<F: Files<File = File>>(case: &mut Case<'_>, files: &F) {
    match case.word() {
        b"run" => run(case, files),
        b"keys" => keys(case, files),
        _ => case.spoil(),
    }
}

/// `run EPOCH NONCE INPUT`
fn run<F: Files<File = File>>(case: &mut Case<'_>, files: &F) {
    let Some(epoch) = NonZeroU64::new(case.number()) else {
        return case.spoil();
    };
    let order = DirectoryOrder {
        signing_key: SIGN,
        vuf_key: VUF,
        salt_key: SALT,
        token: TOKEN,
        epoch,
        nonce: case.option_text(),
        journal: None,
    };
    serve(case, files, order);
}

/// `keys SIGN VUF SALT TOKEN INPUT`
fn keys<F: Files<File = File>>(case: &mut Case<'_>, files: &F) {
    let order = DirectoryOrder {
        signing_key: case.text(),
        vuf_key: case.text(),
        salt_key: case.text(),
        token: case.text(),
        epoch: NonZeroU64::MIN,
        nonce: None,
        journal: None,
    };
    serve(case, files, order);
}

/// Serves the bytes of the next word.
fn serve<F: Files<File = File>>(case: &mut Case<'_>, files: &F, order: DirectoryOrder<'_>) {
    let mut reader = case.bytes();
    let mut output = Vec::new(case.alloc());
    let mut errors = Vec::new(case.alloc());
    let served = serve_directory(
        case.alloc(),
        files,
        order,
        &mut reader,
        &mut output,
        &mut errors,
    );
    if tells_of_memory(&output) {
        case.lack_memory();
    }
    say_ended(case, served);
    case.say_bytes(&output);
}
