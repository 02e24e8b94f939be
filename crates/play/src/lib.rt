//! Scripts: what a directory is asked, line by line, and what its users see of it.
//!
//! A script has one hub, one client, one auditor, and monitors of names. Each line is a command to the
//! directory, a piece of another session, or the watching of a name, and prints what comes of it. What it
//! prints is the definition `printed`, which computes. `play` plays a script.
//!
//! Callers can rely on this: `play` writes exactly what the definition prints for the script that it reads, up
//! to the first line that is no command, or a beginning of that if a read or a write fails or memory runs
//! out. The contract speaks of the text alone, and not of who asks and checks. The definition has no line for
//! evidence. What users see of an honest provider's run decides what their own calls return.
#![tactic(auto)]

mod ask;
mod beginning;
mod checks;
mod engine;
mod laws;
mod line;
mod lines;
mod playing;
mod telling;
mod word;
mod worked;

pub use ask::Ask;
pub use checks::Checks;
pub use laws::{
    answers_are_told, checks_are_told, honest, lines_are_plain, pages_go_on, promises_are_in_time,
    runs_are_heard, sessions_are_heard,
};
pub use line::{Line, read_line};
pub use lines::next_line;
pub use playing::play;
pub use telling::{push_hex, push_number, tell_response, tell_statement, tell_step};
pub use worked::{
    lines_that_stop, long_names, monitor_scripts, names_and_epochs, one_index_scripts,
    policy_scripts, rotation_scripts, session_scripts, worked_scripts,
};
