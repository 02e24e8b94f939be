//! The key directory's programs. The command line chooses one. What each does is in a crate below; here
//! are the command line, the choice, and how the process ends.
#![tactic(auto)]

mod ending;
mod keyed;
mod keys;
mod naming;
mod order;
mod refusing;
mod streams;
mod unusable;

pub use audits::{audit, evidence_json, judge_at, judge_file, read_evidence};
pub use ending::{Ending, end};
pub use items::{prove, root};
pub use order::{AskTexts, Order, order};
pub use play::play;
pub use runs::ask;
pub use server::{listen, serve, serve_directory};
use std::env;
use std::io::{self, BufReader};
use std::process::ExitCode;
use streams::hold_streams;
pub use textio::ProgramFault;
use textio::write_text;

/// The status of a program that could not begin.
const FAILURE: u8 = 1;

/// The words of the command line, the program's name first.
fn words(rt: &HostRuntime) -> io::Result<Vec<String>> {
    Ok(env::args(rt)?.collect(rt.alloc())?)
}

fn main(rt: HostRuntime) -> ExitCode {
    let Ok(_held) = hold_streams(&rt) else {
        let _told = write_text(&mut rt.stderr(), b"cannot open /dev/null\n");
        return ExitCode::from(FAILURE);
    };
    let ending = end(
        rt.alloc(),
        &rt,
        &words(&rt),
        &mut BufReader::new(rt.alloc(), rt.reader()),
        &mut io::writer(&rt),
        &mut rt.stderr(),
    );
    ExitCode::from(ending.status)
}
