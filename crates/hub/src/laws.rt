ghost use Rattle.std.specs.Prelude.{◌≡◌, ◌++◌, ℕ, List};
ghost use Rattle.wire.specs.Streams.{Remainder};
ghost use Rattle.hub.specs.Exchanges.{Exchange, Exchanges};
ghost use Rattle.hub.specs.Laws.{RunsTellTheirOwn, SessionsHearTheirOwn};
ghost use Rattle.hub.specs.Runs.{lines, AllAnswered, Line};
ghost use Rattle.hub.specs.declared.desk.TheConstants.{NOT_OPERATOR};
ghost use Rattle.hub.specs.declared.sessions.TheConstants.{MAX_SESSIONS};

use crate::Service;

/// At most 1,024 sessions are open at once, and a closing or a rotation without the operator's token is refused
/// with 12.
pub fn numbers_have_their_values()
    ensures sessions { MAX_SESSIONS ≡ 1024 }
    ensures not_operator { NOT_OPERATOR ≡ 12 }
{}

/// The messages of a session are those of its own streams, whatever the other sessions send, and
/// also where it is ended and opened again: of each stream those of its pieces, joined. The session
/// is told their replies.
pub fn sessions_hear_their_own<D: Service>()
    ensures messages { SessionsHearTheirOwn }
    ensures told { RunsTellTheirOwn D.answers }
{}

/// The messages that one call of `Hub::event` answers are answered one after another, and so are those
/// of several calls. So what the calls ensure leads to what `replies_are_honest` requires.
pub fn events_join<D: Service>()
    ensures event { (before after : D) (held left : Remainder) (exchanges : List Exchange) (session : ℕ)
        → Exchanges D.answers before held exchanges after left → AllAnswered D.answers before (lines session exchanges) after }
    ensures join { (before middle after : D) (earlier later : List Line)
        → AllAnswered D.answers before earlier middle → AllAnswered D.answers middle later after
        → AllAnswered D.answers before (earlier ++ later) after }
{}
