ghost use Rattle.std.specs.Prelude.{◌≡◌};
ghost use Rattle.hub.specs.Events.{event_seen, number};

/// What happens to a session.
#[derive(Clone, Copy, Debug)]
pub enum Event<'a> {
    /// The session begins.
    Open(u32),
    /// The next piece of the session's stream comes.
    Bytes(u32, &'a [u8]),
    /// The session ends, and what is held of its stream is dropped.
    End(u32),
}

impl Event<'_> {
    /// The number of the session.
    pub(crate) fn session(&self) -> u32
        ensures { result ≡ number (event_seen self.now) }
    {
        match self {
            Event::Open(session) | Event::Bytes(session, _) | Event::End(session) => *session,
        }
    }
}
