// A connection that may not have come about. A directory that does not answer in time is given up: else one that sends a
// byte now and then would hold a run for good, and what the run found would not be told.
ghost use Rattle.std.specs.Prelude.{◌≡◌, ◌⊎◌, ◌≤◌, ◌-◌, ℕ, OnOk};
ghost use Rattle.std.specs.Duration.{as_nanos};

use crate::AskOrder;
use std::alloc::Global;
use std::io::{self, Read, Write};
use std::net::{Net, TcpListener, TcpStream, ToSocketAddrs};
use std::time::{Clock, Duration, Instant};

/// How many seconds a connection is waited for.
const CONNECTING: u64 = 60;

/// How many seconds a whole reply is waited for.
const REPLY: u64 = 60;

/// How many seconds all replies to the words of an order are waited for together. Lines of input may go on for any time.
const WORDS: u64 = 420;

/// A connection to a directory, or none: then a read gives nothing, and a write takes nothing.
#[derive(Drop)]
pub(crate) struct Connection<'a, N> {
    clock: &'a N,
    stream: Option<TcpStream>,
    /// How long the reply that is waited for may still take.
    reply_left: Duration,
    /// How long all replies may still take.
    run_left: Duration,
}

impl<'a, N> Connection<'a, N>
where
    N: Net<Listener = TcpListener, Stream = TcpStream> + Clock,
{
    /// One to one of the addresses of an order's host, the first that answers, or none.
    pub(crate) fn to(alloc: Global, system: &'a N, order: &AskOrder<'_>) -> Self {
        let stream = connected(alloc, system, order.address);
        if let Some(stream) = &stream {
            // A request is sent at once. If this fails, it only takes longer.
            let _set = stream.set_nodelay(true);
        }
        Connection {
            clock: system,
            stream,
            reply_left: Duration::from_secs(REPLY),
            run_left: if order.command.is_some() {
                Duration::from_secs(WORDS)
            } else {
                Duration::MAX
            },
        }
    }

    /// Whether it came about.
    pub(crate) fn is_there(&self) -> bool {
        self.stream.is_some()
    }
}

impl<'a, N: Clock> Connection<'a, N> {
    /// How long the next read or write may take.
    fn left(&self) -> Duration
        ensures reply { as_nanos result ≤ as_nanos (self.now).reply_left }
        ensures run { as_nanos result ≤ as_nanos (self.now).run_left }
        ensures one { (result ≡ (self.now).reply_left) ⊎ (result ≡ (self.now).run_left) }
    {
        if self.reply_left < self.run_left {
            self.reply_left
        } else {
            self.run_left
        }
    }

    /// Takes off the time since a read or a write began.
    fn spend(&mut self, begun: Instant) -> io::Result<()>
        ensures { OnOk result ((taken : ℕ) × (as_nanos (self.new).reply_left ≡ as_nanos (self.old).reply_left - taken) × (as_nanos (self.new).run_left ≡ as_nanos (self.old).run_left - taken)) }
    {
        let taken = begun.elapsed(self.clock)?;
        self.reply_left = self.reply_left.saturating_sub(taken);
        self.run_left = self.run_left.saturating_sub(taken);
        Ok(())
    }
}

impl<'a, N: Clock> Read for Connection<'a, N> {
    fn read(&mut self, buf: &mut [u8]) -> io::Result<usize> {
        let left = self.left();
        let Some(stream) = self.stream.as_mut() else {
            return Ok(0);
        };
        // A timeout of zero is refused, which ends the run.
        stream.set_read_timeout(Some(left))?;
        let begun = Instant::now(self.clock)?;
        let read = stream.read(buf);
        self.spend(begun)?;
        read
    }
}

impl<'a, N: Clock> Write for Connection<'a, N> {
    fn write(&mut self, buf: &[u8]) -> io::Result<usize> {
        // What is written is a request, or the rest of one, whose reply has all its time.
        self.reply_left = Duration::from_secs(REPLY);
        let left = self.left();
        let Some(stream) = self.stream.as_mut() else {
            return Ok(0);
        };
        stream.set_write_timeout(Some(left))?;
        let begun = Instant::now(self.clock)?;
        let written = stream.write(buf);
        self.spend(begun)?;
        written
    }

    fn flush(&mut self) -> io::Result<()> {
        Ok(())
    }
}

/// A stream to one of the addresses of a host, the first that answers. All of them have the time of one together: the
/// host's owner chooses how many there are.
fn connected<N>(alloc: Global, system: &N, address: &str) -> Option<TcpStream>
where
    N: Net<Listener = TcpListener, Stream = TcpStream> + Clock,
{
    let begun = Instant::now(system).ok()?;
    let mut addresses = Vec::new(alloc);
    for address in address.to_socket_addrs(system).ok()? {
        addresses.push(address).ok()?;
    }
    let mut count = u32::try_from(addresses.len()).ok()?;
    for address in &addresses {
        let left = Duration::from_secs(CONNECTING).saturating_sub(begun.elapsed(system).ok()?);
        // A silent address leaves a share of the time to each behind it.
        let share = left / count.max(1);
        if share.is_zero() {
            break;
        }
        if let Ok(stream) = TcpStream::connect_timeout(system, address, share) {
            return Some(stream);
        }
        count = count.saturating_sub(1);
    }
    None
}
