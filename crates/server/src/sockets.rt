//! The sockets behind a server. Readiness is edge-triggered: a mark says that a read or a write may get
//! through; it is set by a report, and cleared by a read or a write that gets no further. A call without its mark
//! answers "wait", and asks the system nothing. Contracts know nothing of the bytes of a socket:
//! `scripts/drive/listen.sh` shows what these calls do.

ghost use Rattle.std.specs.Prelude.{◌≡◌, ◌≤◌, ℕ, length, IfOk};
ghost use Rattle.std.specs.Io.{ReadsAtMost};

use crate::disk::Disk;
use crate::stopping::StopInput;
use connections::{Connections, Ending, Reading, Sessions, Writing};
use hub::MAX_SESSIONS;
use mio::event::Event;
use mio::net::{TcpListener, TcpStream};
use mio::{Events, Interest, Poll, Token};
use std::alloc::{AllocError, Global};
use std::io::{self, BufRead, Error, ErrorKind, Read, Write};
use std::net::{Net, Shutdown, SocketAddr, ToSocketAddrs};
use std::time::{Clock, Duration, Instant};

/// The most reports that one wait gives: one for each connection, the listener and standard input.
const MOST_EVENTS: usize = MAX_SESSIONS + 2;

/// How often an `accept` is tried in one call that was interrupted, or whose connection had gone.
const MOST_TRIES: usize = 64;

/// How many bytes are passed over at once, and how often, where a connection is closed that may send more.
const DRAINED_SIZE: usize = 4096;

const MOST_DRAINS: usize = 64;

/// The token of the listener. Those of connections are their places.
const LISTENER: Token = Token(usize::MAX);

/// The token of standard input.
pub(crate) const INPUT: Token = Token(usize::MAX - 1);

/// A connection at its place.
#[derive(Drop)]
struct Socket {
    stream: TcpStream,
    may_read: bool,
    may_write: bool,
    /// The peer sends no more, or has gone: a short read need not be the last.
    is_closing: bool,
}

/// The connections of a listener.
#[derive(Drop)]
pub(crate) struct Sockets<'a, N, R> {
    clock: &'a N,
    start: Instant,
    poll: Poll,
    events: Events,
    listener: TcpListener,
    may_take: bool,
    places: Vec<Option<Socket>>,
    disk: Option<&'a Disk>,
    stop: StopInput<'a, R>,
}

/// Listens on the first of the address's addresses that it can.
fn bind<N: Net>(net: &N, address: &str) -> io::Result<TcpListener> {
    for address in address.to_socket_addrs(net)? {
        if let Ok(listener) = TcpListener::bind(net, address) {
            return Ok(listener);
        }
    }
    Err(Error::from(ErrorKind::AddrNotAvailable))
}

/// Tries again as long as a call is interrupted.
fn read_some<R: Read>(reader: &mut R, room: &mut [u8]) -> io::Result<usize>
    ensures room { length room.new ≡ length room.old }
    ensures bound { ReadsAtMost result room.new }
{
    for _ in 0..u64::MAX {
        match reader.read(room) {
            Err(error) if error.kind() == ErrorKind::Interrupted => {}
            other => return other,
        }
    }
    Err(Error::from(ErrorKind::Interrupted))
}

/// Tries again as long as a call is interrupted.
fn write_some<W: Write>(writer: &mut W, bytes: &[u8]) -> io::Result<usize>
    ensures bound { IfOk result (λ count. count ≤ length bytes.now) }
{
    for _ in 0..u64::MAX {
        match writer.write(bytes) {
            Err(error) if error.kind() == ErrorKind::Interrupted => {}
            other => return other,
        }
    }
    Err(Error::from(ErrorKind::Interrupted))
}

impl Socket {
    fn new(stream: TcpStream) -> Self {
        Socket {
            stream,
            may_read: true,
            may_write: true,
            is_closing: false,
        }
    }

    /// Marks what a report tells of.
    fn mark(&mut self, event: &Event) {
        let has_failed = event.is_error();
        if event.is_readable() || event.is_read_closed() || has_failed {
            self.may_read = true;
        }
        if event.is_writable() || event.is_write_closed() || has_failed {
            self.may_write = true;
        }
        if event.is_read_closed() || has_failed {
            self.is_closing = true;
        }
    }

    fn read(&mut self, room: &mut [u8]) -> Reading
        ensures room { length room.new ≡ length room.old }
        ensures count { (count : ℕ) → result ≡ Reading.Bytes count → (1 ≤ count) × (count ≤ length room.new) }
    {
        if !self.may_read {
            return Reading::Wait;
        }
        match read_some(&mut self.stream, room) {
            Ok(0) => Reading::End,
            Ok(count) => {
                // Fewer bytes than there is room for: what comes later is reported.
                if count < room.len() && !self.is_closing {
                    self.may_read = false;
                }
                Reading::Bytes(count)
            }
            Err(error) if error.kind() == ErrorKind::WouldBlock => {
                self.may_read = false;
                Reading::Wait
            }
            Err(_) => Reading::Fault,
        }
    }

    fn write(&mut self, bytes: &[u8]) -> Writing
        ensures count { (count : ℕ) → result ≡ Writing.Took count → (1 ≤ count) × (count ≤ length bytes.now) }
    {
        if !self.may_write {
            return Writing::Wait;
        }
        match write_some(&mut self.stream, bytes) {
            Ok(0) => Writing::Fault,
            Ok(count) => {
                // Fewer bytes than there were: when it takes more, that is reported.
                if count < bytes.len() && !self.is_closing {
                    self.may_write = false;
                }
                Writing::Took(count)
            }
            Err(error) if error.kind() == ErrorKind::WouldBlock => {
                self.may_write = false;
                Writing::Wait
            }
            Err(_) => Writing::Fault,
        }
    }

    /// Sends no more, and passes over what has come: a socket that is closed with bytes unread is reset, and
    /// its peer may lose answers that it has not read yet. One that takes nothing may be reset.
    fn finish(&mut self) {
        if !self.may_write || self.stream.shutdown(Shutdown::Write).is_err() {
            return;
        }
        let mut room = [0; DRAINED_SIZE];
        for _ in 0..MOST_DRAINS {
            match read_some(&mut self.stream, &mut room) {
                Ok(0) | Err(_) => return,
                Ok(_) => {}
            }
        }
    }
}

/// The time since a reading of the clock, in milliseconds.
fn millis_since<N: Clock>(clock: &N, start: Instant) -> io::Result<u64> {
    let millis = start.elapsed(clock)?.as_millis();
    Ok(u64::try_from(millis).unwrap_or(u64::MAX))
}

impl<'a, N: Net + Clock, R: BufRead> Sockets<'a, N, R> {
    /// Listens on the address, with places for so many connections.
    pub(crate) fn listen(
        alloc: Global,
        system: &'a N,
        address: &str,
        sessions: usize,
        disk: Option<&'a Disk>,
    ) -> io::Result<Self> {
        let poll = Poll::new(system)?;
        let mut listener = bind(system, address)?;
        poll.registry()
            .register(&mut listener, LISTENER, Interest::READABLE)?;
        let mut places = Vec::with_capacity(alloc, sessions)?;
        for _ in 0..sessions {
            places.push(None)?;
        }
        Ok(Sockets {
            clock: system,
            start: Instant::now(system)?,
            poll,
            events: Events::with_capacity(alloc, MOST_EVENTS)?,
            listener,
            may_take: true,
            places,
            disk,
            stop: StopInput::none(),
        })
    }

    /// Takes the end of an input as an order to stop.
    pub(crate) fn stop_at_end_of(&mut self, input: &'a mut R) {
        self.stop = StopInput::new(self.poll.registry(), input);
    }

    /// The address that it listens on, with the port that the system chose.
    pub(crate) fn address(&self) -> io::Result<SocketAddr> {
        self.listener.local_addr()
    }

    /// Puts a connection into a place.
    fn place(&mut self, place: usize, mut stream: TcpStream) -> io::Result<()> {
        // A reply is sent at once. If this fails, it only comes later.
        let _set = stream.set_nodelay(true);
        self.poll.registry().register(
            &mut stream,
            Token(place),
            Interest::READABLE | Interest::WRITABLE,
        )?;
        if let Some(free) = self.places.get_mut(place) {
            *free = Some(Socket::new(stream));
        }
        Ok(())
    }

    /// Waits until something is reported, but for no longer than this, and marks what is.
    fn poll_for(&mut self, timeout: Duration) {
        if self.poll.poll(&mut self.events, Some(timeout)).is_ok() {
            self.mark();
        }
    }

    /// Marks what the last poll reported.
    fn mark(&mut self) {
        for event in &self.events {
            match event.token() {
                LISTENER => self.may_take = true,
                INPUT => self.stop.mark(),
                Token(place) => {
                    if let Some(Some(socket)) = self.places.get_mut(place) {
                        socket.mark(event);
                    }
                }
            }
        }
    }
}

impl<N: Net + Clock, R: BufRead, S: Sessions> Connections<S> for Sockets<'_, N, R> {
    ghost use Rattle.std.specs.Prelude.{⊤};

    // Contracts do not know what happens to a socket.
    ghost has = { λ _ _. ⊤ };

    ghost passes = { λ _ _ _ _ _ _. tt };

    fn wait(&mut self, _sessions: &S, most: u64) -> u64 {
        let most = if self.stop.waits() { most } else { 0 };
        if most > 0 {
            self.poll_for(Duration::from_millis(most));
        }
        let now = millis_since(self.clock, self.start).unwrap_or(0);
        // All that came by now is marked: a process that was suspended is not told of it by the wait, which a signal
        // ends with no report.
        self.poll_for(Duration::ZERO);
        now
    }

    fn is_stopped(&mut self, _sessions: &S) -> bool {
        self.stop.has_ended(self.poll.registry())
    }

    fn take(&mut self, place: usize) -> bool {
        if !self.may_take {
            return false;
        }
        for _ in 0..MOST_TRIES {
            match self.listener.accept() {
                Ok((stream, _)) => {
                    if self.place(place, stream).is_ok() {
                        return true;
                    }
                }
                Err(error) => match error.kind() {
                    ErrorKind::Interrupted | ErrorKind::ConnectionAborted => {}
                    ErrorKind::WouldBlock => {
                        self.may_take = false;
                        return false;
                    }
                    // Perhaps no file handle is free. A later round tries again.
                    _ => return false,
                },
            }
        }
        false
    }

    fn read(&mut self, place: usize, room: &mut [u8]) -> Reading {
        match self.places.get_mut(place) {
            Some(Some(socket)) => socket.read(room),
            _ => Reading::Fault,
        }
    }

    fn write(&mut self, place: usize, bytes: &[u8]) -> Writing {
        match self.places.get_mut(place) {
            Some(Some(socket)) => socket.write(bytes),
            _ => Writing::Fault,
        }
    }

    fn close(&mut self, _sessions: &S, place: usize, why: Ending) {
        let Some(slot) = self.places.get_mut(place) else {
            return;
        };
        if let Some(socket) = slot {
            match why {
                // All is read, or nothing more can be.
                Ending::Done | Ending::Fault => {}
                Ending::Idle
                | Ending::Stopped
                | Ending::Unsynced
                | Ending::Memory
                | Ending::Refused => socket.finish(),
            }
        }
        *slot = None;
    }

    fn report(&self, alloc: Global) -> Result<String, AllocError> {
        let open = self.places.iter().filter(|place| place.is_some()).count();
        let Some(disk) = self.disk else {
            return format!(in alloc; "connections={open}");
        };
        // A journal that once failed takes no record any more.
        let end = match disk.error() {
            Some(_) => " edits=refused",
            None => "",
        };
        match disk.size() {
            Ok(size) => format!(in alloc; "connections={open} journal={size}{end}"),
            Err(_) => format!(in alloc; "connections={open} journal=unknown{end}"),
        }
    }

    fn sync(&mut self, _sessions: &S) -> bool {
        match self.disk {
            Some(disk) => disk.sync().is_ok(),
            None => true,
        }
    }
}
