//! What bench/ measures. The first argument chooses a program, and its numbers follow.
//!
//! A program runs in steps. At the end of each it prints a number that depends on the step's work,
//! so that the compiler cannot leave the work out, and waits for a line. Meanwhile bench/bench.py
//! reads how much time and memory the process has used.
#![tactic(auto)]

mod auditing;
mod chains;
mod changes;
mod digests;
mod directory;
mod feeding;
mod finals;
mod held;
mod keeping;
mod looking;
mod pages;
mod reconciling;
mod replies;
mod roots;
mod run;
mod sessions;
mod texts;
mod tree;
mod updating;
mod watching;

use run::Run;
use std::process::ExitCode;
use std::{env, io};

const USAGE: &str = "usage: measure digests BYTES COUNT | texts COUNT ROUNDS \
    | tree GROWN MORE DIGESTS | whole ITEMS TIMES DIGESTS \
    | changes ITEMS CHANGES LISTS ROUNDS DIGESTS | replies SIBLINGS REPLIES ROUNDS DIGESTS \
    | chains ROOTS SHARED ROUNDS | epochs NAMES CHANGES ROUNDS LOOK_UPS LOOK_UP_ROUNDS DIGESTS \
    | journal NAMES DIGESTS | hub NAMES FRAMES PIECE ROUNDS | feed FRAMES TIMES \
    | audit ROOTS MORE SIBLINGS TIMES DIGESTS | updates BEFORE LISTS DIGESTS PIECE \
    | looks NAMES SIBLINGS ROOTS EPOCHS ROUNDS | finality SIBLINGS LOOKS INDICES TIMES \
    | watch SIBLINGS EPOCHS ROUNDS | clients SIBLINGS NAMES SHARED EPOCHS ROUNDS | all";

/// Each program, on small numbers.
const ALL: [(&str, &[usize]); 18] = [
    ("digests", &[64, 3]),
    ("texts", &[9, 1]),
    ("tree", &[5, 2, 1]),
    ("whole", &[5, 2, 1]),
    ("changes", &[5, 3, 2, 2, 1]),
    ("replies", &[4, 3, 2, 1]),
    ("chains", &[5, 3, 2]),
    ("epochs", &[5, 3, 2, 4, 2, 1]),
    ("journal", &[5, 1]),
    ("hub", &[5, 3, 16, 2]),
    ("feed", &[3, 2]),
    ("audit", &[5, 3, 2, 2, 1]),
    ("looks", &[3, 12, 4, 2, 2]),
    ("finality", &[12, 3, 2, 2]),
    ("updates", &[1, 2, 1, 0]),
    ("updates", &[1, 2, 1, 64]),
    ("watch", &[12, 2, 2]),
    ("clients", &[12, 3, 1, 2, 2]),
];

/// Runs the program of this name.
fn program(run: &Run, name: &str, numbers: &[usize]) {
    match name {
        "digests" => digests::measure(run, numbers),
        "texts" => texts::measure(run, numbers),
        "tree" => tree::measure(run, numbers),
        "whole" => changes::measure_whole(run, numbers),
        "changes" => changes::measure(run, numbers),
        "replies" => replies::measure(run, numbers),
        "chains" => chains::measure(run, numbers),
        _ => program_of_parties(run, name, numbers),
    }
}

/// The same of those on directories, sessions, auditors, clients and monitors.
fn program_of_parties(run: &Run, name: &str, numbers: &[usize]) {
    match name {
        "epochs" => directory::measure(run, numbers),
        "journal" => keeping::measure(run, numbers),
        "hub" => sessions::measure(run, numbers),
        "feed" => feeding::measure(run, numbers),
        "audit" => auditing::measure(run, numbers),
        "looks" => looking::measure(run, numbers),
        "finality" => finals::measure(run, numbers),
        "updates" => updating::measure(run, numbers),
        "watch" => watching::measure(run, numbers),
        "clients" => reconciling::measure(run, numbers),
        _ => run.fail(),
    }
}

/// Runs each program once, on small numbers: this shows that they still work.
fn all(run: &Run) {
    for (name, numbers) in &ALL {
        program(run, name, numbers);
    }
}

/// The numbers that these words write.
fn numbers_of(run: &Run, words: &[String]) -> Vec<usize> {
    let mut numbers = run.list(words.len());
    for word in words {
        match word.parse::<usize>() {
            Ok(number) => run.push(&mut numbers, number),
            Err(_) => run.fail(),
        }
    }
    numbers
}

/// Runs the program that these words name.
fn run_words(run: &Run, words: &[String]) {
    match words {
        [_, name] if name.as_str() == "all" => all(run),
        [_, name, rest @ ..] => {
            program(run, name, &numbers_of(run, rest));
        }
        _ => run.fail(),
    }
}

/// The words of the command line, the program's name first.
fn words(rt: &HostRuntime) -> io::Result<Vec<String>> {
    Ok(env::args(rt)?.collect(rt.alloc())?)
}

fn main(rt: HostRuntime) -> ExitCode {
    let run = Run::new(rt);
    match words(&rt) {
        Ok(words) => run_words(&run, &words),
        Err(_) => run.fail(),
    }
    run.end(USAGE)
}
