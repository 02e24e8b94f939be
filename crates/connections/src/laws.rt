ghost use Rattle.std.specs.Prelude.{◌≡◌, ℕ, ◌∷◌};
ghost use Rattle.connections.specs.Histories.{History, On, Closes, course};
ghost use Rattle.connections.specs.Soundness.{Here, IsHeard, IsSoundHistory, IsTaken};
ghost use Rattle.connections.specs.Laws.{AlwaysWaitWithin, AreAnsweredWithin, AreInOrder};
ghost use Rattle.connections.specs.declared.ending.Ending.TheVariants.{Done};
ghost use Rattle.textio.specs.declared.some_bytes.TheConstants.{PIECE_SIZE};
ghost use Rattle.connections.specs.declared.loop_limits.TheConstants.{FULL_OUTPUT, LAST_MILLISECONDS, LONGEST_WAIT};

/// A read gives at most 4,096 bytes, nothing is read or heard while more than 65,536 bytes of answers wait,
/// for 5,000 milliseconds after an order to stop answers may still be taken, and a round waits for at most
/// 1,000.
pub fn limits_have_their_values()
    ensures piece { PIECE_SIZE ≡ 4096 }
    ensures output { FULL_OUTPUT ≡ 65536 }
    ensures last { LAST_MILLISECONDS ≡ 5000 }
    ensures wait { LONGEST_WAIT ≡ 1000 }
{}

/// In a sound history, each connection has taken a beginning of what its session was answered, and the
/// session has heard a beginning of what was read, in order and each byte once.
pub fn bytes_stay_in_order()
    ensures { (idle : ℕ) (acts : History) (place : ℕ) → IsSoundHistory idle acts → AreInOrder (course acts place) }
{}

/// A connection that is closed as done has taken all that its session was answered, and the session has
/// heard all that was read.
pub fn done_is_whole()
    ensures { (idle : ℕ) (acts : History) (place : ℕ) → IsSoundHistory idle (On place (Closes Done) ∷ acts) → Here (course acts place) (λ of. IsHeard of × IsTaken of) }
{}

/// Where no part is answered with more than so many bytes, no more than 64 KiB and one such answer ever wait for
/// a connection.
pub fn outputs_are_bounded()
    ensures { (idle most : ℕ) (acts : History) → IsSoundHistory idle acts → AreAnsweredWithin most acts → AlwaysWaitWithin most acts }
{}
