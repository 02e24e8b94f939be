//! Sweeps over failing devices: each read, each write and each record that is to be kept fails in turn.
//!
//! A line of the input is a question of the crate `questions`: what is run, how a device fails, the most
//! bytes of a read or a write, and an input. The run is made once without a failure, and its output told.
//! Then it is made again and again, and the device fails at its first call, at its second call, and so on,
//! until a run ends before that call. The answer tells how these runs ended: how many in a row, with which
//! fault, and how many bytes were written, or `other` where these are no beginning of the whole output.
//! What a failing writer leaves of a journal is opened: the answer tells after how many commands of the
//! run the directory stands, or `other` where it is no beginning of the run.
//!
//! `crowd` answers many connections at once, which do what a script says; `reports` does so with reports. `piece`
//! tells what a session's one piece brings, and what an empty piece brings behind it where memory ran out.
//!
//! The stored answers come from `scripts/model/fault_answers.py`, which computes them from the definitions.
#![tactic(auto)]

mod crowd;
mod devices;
mod echoes;
mod job;
mod keeping;
mod peers;
mod provider;
mod row;
mod stopping;
mod sweep;

use anyhow::Result;
use job::Job;
use questions::{Case, Subjects, answer_all};
use std::io::{self, BufReader};

/// A sweep leaves nothing for the next line.
#[derive(Drop)]
struct Sweeps;

impl Subjects for Sweeps {
    fn answer(&mut self, case: &mut Case<'_>) {
        match case.word() {
            b"crowd" => crowd::crowd(case),
            b"reports" => crowd::reports(case),
            b"directory" => keeping::directory(case),
            b"hub" => keeping::hub(case),
            b"piece" => keeping::piece(case),
            b"journal" => stopping::journal(case),
            verb => match Job::read(verb, case) {
                Some(job) => sweep::sweep(case, &job),
                None => case.spoil(),
            },
        }
    }
}

fn main(rt: HostRuntime) -> Result<()> {
    let alloc = rt.alloc();
    let mut reader = BufReader::new(alloc, rt.reader())?;
    answer_all(alloc, &mut Sweeps, &mut reader, &mut io::writer(&rt))
}
