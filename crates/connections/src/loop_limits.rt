/// What a loop over connections allows, and how often it reports.
#[derive(Clone, Copy, Debug, PartialEq, Eq)]
pub struct Limits {
    /// How many connections are taken; 0 for no end.
    pub count: u64,
    /// For how many milliseconds a connection may be idle; 0 for ever. It is idle from the end of the round in which
    /// something was last read from it or taken by it, or else in which it was taken.
    pub idle: u64,
    /// Every how many milliseconds a report is written; 0 for never.
    pub report: u64,
}

/// Where more bytes than these wait for a connection, nothing is read from it, and its session hears
/// nothing.
pub(crate) const FULL_OUTPUT: usize = 65536;

/// Of an empty buffer, room for so many bytes is kept as long as the connection is open.
pub(crate) const KEPT_ROOM: usize = 4096;

/// For how many milliseconds a larger room is kept for what comes next: one that is given back and taken anew in
/// each round costs more than an answer.
pub(crate) const KEPT_MILLISECONDS: u64 = 1000;

/// For how many milliseconds after an order to stop answers may still be taken.
pub(crate) const LAST_MILLISECONDS: u64 = 5000;

/// The most milliseconds that a round waits, so that a connection which could not be taken for want of file
/// handles is tried again.
pub(crate) const LONGEST_WAIT: u64 = 1000;
