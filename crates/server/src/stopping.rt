//! The end of standard input as an order to stop. What comes before the end is passed over.

use crate::sockets::INPUT;
use mio::unix::SourceFd;
use mio::{Interest, Registry};
use std::io::{BufRead, ErrorKind};
use std::os::fd::RawFd;

/// The file handle of standard input.
const STANDARD_INPUT: RawFd = 0;

/// How often an input is read that needs no report, before others have their turn.
const READS_AT_ONCE: usize = 64;

/// How an input is known to be readable.
#[derive(Clone, Copy, Debug, PartialEq, Eq)]
enum Readiness {
    /// The system reports it. A read without a report may wait.
    Reported,
    /// It never waits, as a file.
    Always,
}

/// The input whose end is an order to stop, if there is one.
#[derive(Drop)]
pub(crate) struct StopInput<'a, R> {
    input: Option<&'a mut R>,
    readiness: Readiness,
    may_read: bool,
}

impl<'a, R: BufRead> StopInput<'a, R> {
    pub(crate) fn none() -> Self {
        StopInput {
            input: None,
            readiness: Readiness::Reported,
            may_read: false,
        }
    }

    pub(crate) fn new(registry: &Registry, input: &'a mut R) -> Self {
        let registered = registry.register(
            &mut SourceFd(&STANDARD_INPUT),
            INPUT,
            Interest::READABLE,
        );
        // The system cannot report a file.
        let readiness = if registered.is_err() {
            Readiness::Always
        } else {
            Readiness::Reported
        };
        StopInput {
            input: Some(input),
            readiness,
            may_read: readiness == Readiness::Always,
        }
    }

    /// The input was reported.
    pub(crate) fn mark(&mut self) {
        self.may_read = true;
    }

    /// Whether nothing of it can be read now.
    pub(crate) fn waits(&self) -> bool {
        self.input.is_none() || !self.may_read
    }

    /// Passes over what can be read, and says whether the input has ended. One that cannot be read has. This
    /// is said once.
    pub(crate) fn has_ended(&mut self, registry: &Registry) -> bool {
        for _ in 0..READS_AT_ONCE {
            if self.waits() {
                return false;
            }
            if self.read_once() {
                self.forget();
                return true;
            }
            if self.readiness == Readiness::Reported {
                // What is left, if anything is, is reported again.
                self.may_read = false;
                let again = registry.reregister(
                    &mut SourceFd(&STANDARD_INPUT),
                    INPUT,
                    Interest::READABLE,
                );
                if again.is_err() {
                    self.forget();
                    return true;
                }
            }
        }
        false
    }

    /// Nothing more comes of the input, so nothing of it can be read.
    fn forget(&mut self) {
        self.input = None;
    }

    /// Passes over what one read gives, and says whether the input has ended.
    fn read_once(&mut self) -> bool {
        let Some(input) = &mut self.input else {
            return false;
        };
        let count = match input.fill_buf() {
            Ok(bytes) => bytes.len(),
            Err(error) => {
                return !matches!(error.kind(), ErrorKind::Interrupted | ErrorKind::WouldBlock);
            }
        };
        input.consume(count);
        count == 0
    }
}
