ghost use Rattle.std.specs.Prelude.{◌≡◌, ◌+◌, ◌≤◌, ◌++◌, List, ℕ, vec_len, vec_capacity};
ghost use Rattle.wire.specs.Frames.{Frame};
ghost use Rattle.wire.specs.declared.answer.TheConstants.{MAX_ANSWER_LEN};

use std::alloc::{AllocError, Global};

/// What answers the frames of sessions, one at a time.
pub trait Service {
    // The service before, a frame, the bytes of the reply, and the service after.
    ghost answers: { Self → Frame → List ℕ → Self → Type 0 };

    /// Answers a frame, into room for the longest reply.
    fn answer(&mut self, kind: u8, body: &[u8], output: &mut Vec<u8>)
        requires { vec_len output.old + MAX_ANSWER_LEN ≤ vec_capacity output.old }
        ensures { (reply : List ℕ) × answers self.old (record { kind = kind; body = body.now }) reply self.new
            × (output.new.items ≡ output.old.items ++ reply) };

    /// Says how it stands, in words `key=value`. No clause speaks of them.
    fn report(&self, alloc: Global) -> Result<String, AllocError>;
}
