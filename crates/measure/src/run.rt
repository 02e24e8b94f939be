use nodehash::{GroupSize, Sha256Hash};
use std::alloc::Global;
use std::cell::Cell;
use std::io;
use std::process::ExitCode;

/// A run of a program. That something failed is kept here, in a cell, so that each function has one way out,
/// and passes on what it has at no cost to the prover.
#[derive(Drop)]
pub(crate) struct Run {
    rt: HostRuntime,
    group_size: GroupSize,
    has_failed: Cell<bool>,
}

/// Prints a number, and waits for a line or for the end of the input.
fn print_and_wait(rt: &HostRuntime, number: u64) -> io::Result<()> {
    println!(rt; "{number}")?;
    let mut line = String::new(rt.alloc());
    rt.read_line(&mut line)?;
    Ok(())
}

impl Run {
    pub(crate) fn new(rt: HostRuntime) -> Run {
        Run {
            rt,
            group_size: GroupSize::faster(&rt),
            has_failed: Cell::new(false),
        }
    }

    pub(crate) fn alloc(&self) -> Global {
        self.rt.alloc()
    }

    /// The hash function, with no digest computed yet. It digests as many texts at once as `directoryd` does.
    pub(crate) fn hash(&self) -> Sha256Hash {
        Sha256Hash::in_groups(self.group_size)
    }

    /// The numbers of a program, which has to be given as many.
    pub(crate) fn numbers<const N: usize>(&self, numbers: &[usize]) -> [usize; N] {
        match numbers.try_into() {
            Ok(numbers) => numbers,
            Err(_) => {
                self.fail();
                [0; N]
            }
        }
    }

    /// Something failed. From now on no step is told.
    pub(crate) fn fail(&self) {
        self.has_failed.set(true);
    }

    /// Ends a step: prints its number, and waits for a line or for the end of the input.
    pub(crate) fn step(&self, number: u64) {
        if !self.has_failed.get() && print_and_wait(&self.rt, number).is_err() {
            self.fail();
        }
    }

    /// How the process ends.
    pub(crate) fn end(&self, usage: &str) -> ExitCode {
        if !self.has_failed.get() {
            return ExitCode::SUCCESS;
        }
        let _ = eprintln!(&self.rt; "the program failed, or is none of these; {usage}");
        ExitCode::FAILURE
    }

    /// A list with room for so many values.
    pub(crate) fn list<T: Drop>(&self, count: usize) -> Vec<T> {
        match Vec::with_capacity(self.alloc(), count) {
            Ok(list) => list,
            Err(_) => {
                self.fail();
                Vec::new(self.alloc())
            }
        }
    }

    /// A list of the same value, so many times.
    pub(crate) fn filled<T: Copy + Drop>(&self, value: T, count: usize) -> Vec<T> {
        match vec![in self.alloc(); value; count] {
            Ok(list) => list,
            Err(_) => {
                self.fail();
                Vec::new(self.alloc())
            }
        }
    }

    /// Puts a value at the end of a list.
    pub(crate) fn push<T: Drop>(&self, list: &mut Vec<T>, value: T) {
        if list.push(value).is_err() {
            self.fail();
        }
    }

    /// Puts bytes at the end of others.
    pub(crate) fn append(&self, list: &mut Vec<u8>, bytes: &[u8]) {
        if list.extend_from_slice(bytes).is_err() {
            self.fail();
        }
    }

    /// The values from one place to below another.
    pub(crate) fn part<'a, T>(&self, values: &'a [T], first: usize, end: usize) -> &'a [T] {
        match values.get(first..end) {
            Some(part) => part,
            None => {
                self.fail();
                &[]
            }
        }
    }
}
