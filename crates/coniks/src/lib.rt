//! The checks of a client, for any language that calls C. Whether a signature verifies and whether a value is
//! accepted for a name the caller finds out with a library of its own, and says so; the rest is checked here. The frames
//! of requests are written, and those of responses read.
//! include/coniks.h is the manual.
//!
//! Callers can rely on this, for each export: what it answers is what the definitions say of the caller's bytes and
//! the caller's answers, for whatever bytes. It allocates nothing, and keeps nothing between two calls.
#![tactic(auto)]

mod asking;
mod checking;
mod comparing;
mod exports;
mod finals;
mod hearing;
mod laws;
mod parts;
mod promises;
mod roots;
mod trusting;
