ghost use Rattle.std.specs.Prelude.{◌≡◌, ◌≢◌, ◌≤◌, ◌++◌, ◌||◌, ℕ, Bool, List, [], take, length, IfErr, IfOk, OnOk};
ghost use Rattle.connections.specs.declared.ending.SessionFault.{SessionFault};

use crate::SessionFault;
use std::alloc::{AllocError, Global};

/// Sessions that hear bytes and are answered, each by its number.
pub trait Sessions {
    // The sessions before, the number of one, and the sessions once it is opened.
    ghost opens: { Self → ℕ → Self → Type 0 };

    // The sessions, the number of one that cannot be opened, and why.
    ghost refuses: { Self → ℕ → SessionFault → Type 0 };

    // The sessions before, the number of one, the part that it hears, what it is answered, and the sessions
    // after.
    ghost hears: { Self → ℕ → List ℕ → List ℕ → Self → Type 0 };

    // The sessions before, the number of one, the part that it does not hear, why, and the sessions after.
    ghost misses: { Self → ℕ → List ℕ → SessionFault → Self → Type 0 };

    // The sessions before, the number of one, and the sessions once it is ended.
    ghost ends: { Self → ℕ → Self → Type 0 };

    // Whether an answer says that what was asked could not be kept.
    ghost is_unkept: { List ℕ → Bool };

    // Whether one of these sessions was answered so.
    ghost any_unkept: { Self → Bool };

    /// Opens a session.
    ///
    /// # Errors
    ///
    /// `Refused` if its number is in use or too many are open; `Memory`. Nothing is done.
    fn open(&mut self, session: usize) -> Result<(), SessionFault>
        ensures ok { OnOk result (opens self.old session self.new) }
        ensures err { IfErr result (λ fault. (self.new ≡ self.old) × refuses self.old session fault) };

    /// Has a session hear a part of the bytes, from their front on, of so many that it returns. What it is
    /// answered is appended to the output.
    ///
    /// # Errors
    ///
    /// `Memory`, or `Refused` if its number is not in use. The session is to be ended.
    fn hear(
        &mut self,
        session: usize,
        bytes: &[u8],
        output: &mut Vec<u8>,
    ) -> Result<usize, SessionFault>
        requires { bytes.now ≢ [] }
        ensures ok { IfOk result (λ count. (1 ≤ count) × (count ≤ length bytes.now)
            × (reply : List ℕ) × hears self.old session (take count bytes.now) reply self.new
            × (output.new.items ≡ output.old.items ++ reply)) }
        ensures err { IfErr result (λ fault. (count : ℕ) × (1 ≤ count) × (count ≤ length bytes.now) × misses self.old session (take count bytes.now) fault self.new) };

    /// Ends a session.
    fn end(&mut self, session: usize)
        ensures { ends self.old session self.new };

    /// Whether an answer so far said that what was asked could not be kept.
    fn has_unkept(&self) -> bool
        ensures { result ≡ any_unkept self.now };

    /// Says what they were asked so far, for a report, in words `key=value`. No clause speaks of them.
    fn report(&self, alloc: Global) -> Result<String, AllocError>;

    // Only an answer changes that.
    ghost opens_as: { (before : Self) (session : ℕ) (after : Self) → opens before session after → any_unkept after ≡ any_unkept before };

    ghost hears_as: { (before : Self) (session : ℕ) (part reply : List ℕ) (after : Self) → hears before session part reply after → any_unkept after ≡ (is_unkept reply || any_unkept before) };

    ghost misses_as: { (before : Self) (session : ℕ) (part : List ℕ) (why : SessionFault) (after : Self) → misses before session part why after → any_unkept after ≡ any_unkept before };

    ghost ends_as: { (before : Self) (session : ℕ) (after : Self) → ends before session after → any_unkept after ≡ any_unkept before };
}
