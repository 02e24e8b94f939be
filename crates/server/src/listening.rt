// Connections over TCP, many at once, each a session of one hub. Contracts do not know what a socket
// carries, so the clauses say what the directory does: it answers messages, which show one run of it, in a
// history that keeps the limits of the order. That the sockets had that very history is what the loop
// (`answer_all` of `connections`) says of connections of which contracts know what they carry.
// `scripts/drive/listen.sh` covers the rest.
ghost use Rattle.std.specs.Prelude.{◌≡◌, ◌≢◌, ◌↔◌, ◌⊎◌, Bool, List, [], Err, IfErr, IsErr, None, false};
ghost use Rattle.book.specs.Salts.{chacha_salts};
ghost use Rattle.connections.specs.Fitting.{size_of, AreFree};
ghost use Rattle.connections.specs.Histories.{History};
ghost use Rattle.connections.specs.Laws.{AlwaysWaitWithin};
ghost use Rattle.connections.specs.Telling.{TellsAll, TellsSome};
ghost use Rattle.hub.specs.Desks.{DeskAnswers};
ghost use Rattle.hub.specs.Runs.{Line};
ghost use Rattle.nodehash.specs.Sha256.{sha256};
ghost use Rattle.sigiface.specs.StandIn.{keyed_signature};
ghost use Rattle.vrfiface.specs.StandIns.{keyed_value};
ghost use Rattle.textio.specs.declared.program_fault.ProgramFault.TheVariants.{BadHex};
ghost use Rattle.wire.specs.declared.answer.TheConstants.{MAX_ANSWER_LEN};
ghost use Rattle.server.specs.ConnectionOptions.{connections_of, idle_limit, most_open, report_every};
ghost use Rattle.server.specs.DirectoryOptions.{directory_values};
ghost use Rattle.server.specs.Directories.{keys_of};
ghost use Rattle.server.specs.Listening.{AnswersConnections, KeepsLimits, ListenTells, TellsAddress, TellsAddressLine, TellsKept, TellsUnkept};
ghost use Rattle.server.specs.Programs.{ShownBy};
ghost use Rattle.server.specs.Sessions.{is_unkept, AreLines};

use crate::ListenOrder;
use crate::disk::Disk;
use crate::keys::{Keys, ServedDesk};
use crate::opening::{open_file, open_journal};
use crate::sessions::HubSessions;
use crate::sockets::Sockets;
use book::{Keeper, NoKeeper};
use connections::{Connections, Limits, Places, answer_all};
use hub::{Hub, MAX_SESSIONS};
use nodehash::GroupSize;
use std::alloc::Global;
use std::fs::{File, Files};
use std::io::{BufRead, Write};
use std::net::{Net, SocketAddr};
use std::time::Clock;
use textio::{ProgramFault, write_text};

/// How many milliseconds a second has.
const MILLISECONDS_PER_SECOND: u64 = 1000;

/// Writes the line that says where a server listens.
fn tell_address<E: Write>(
    alloc: Global,
    address: SocketAddr,
    errors: &mut E,
) -> Result<(), ProgramFault>
    ensures tells { TellsAddressLine (E.contents errors.old) result (E.contents errors.new) }
    ensures good_hex { IfErr result (λ fault. fault ≢ BadHex) }
{
    let address = format!(in alloc; "{address}")?;
    let mut line = Vec::from_slice(alloc, b"listening on ")?;
    line.extend_from_slice(address.as_bytes())?;
    line.push(b'\n')?;
    write_text(errors, &line)?;
    Ok(())
}

/// Answers connections by the sessions of a hub. Each connection takes a beginning of the replies to its own
/// messages, which are those in the bytes that its session heard, and the messages of all show one run of the
/// directory, as those of `Hub::run` do. No more than 64 KiB and the longest reply ever wait for a connection.
fn answer_crowd<K, C, E>(
    alloc: Global,
    places: Places,
    sessions: &mut HubSessions<ServedDesk<K>>,
    connections: &mut C,
    limits: Limits,
    errors: &mut E,
)
where
    K: Keeper + Drop,
    C: Connections<HubSessions<ServedDesk<K>>>,
    E: Write,
    requires { AreFree places }
    ensures tells { (told : Bool) × TellsSome limits.report told (E.contents errors.old) (E.contents errors.new) }
    ensures shown { C.has connections.old [] → (acts : History) × C.has connections.new acts
        × KeepsLimits limits.idle limits.count (size_of places) acts × AlwaysWaitWithin MAX_ANSWER_LEN acts
        × ((lines : List Line) × AreLines (DeskAnswers sha256 keyed_value keyed_signature chacha_salts K.kept K.failed) sessions.old.hub acts sessions.new.hub lines × ShownBy K.kept K.failed sessions.old.hub.service lines sessions.new.hub.service)
        × TellsAll is_unkept limits.report sessions.old.has_unkept acts (E.contents errors.old) (E.contents errors.new) }
{
    // What the two calls of `head` ensure: the book is sound before and after, and the provider's
    // functions keep their laws.
    sessions.head();
    answer_all(alloc, places, sessions, connections, limits, errors);
    sessions.head();
}

/// What an order allows. Its seconds are milliseconds here.
fn limits_of(order: ListenOrder<'_>) -> Limits
    ensures count { result.count ≡ order.entry.count }
    ensures idle { result.idle ≡ idle_limit (connections_of order.entry) }
    ensures report { result.report ≡ report_every (connections_of order.entry) }
{
    Limits {
        count: order.count,
        idle: order.idle.saturating_mul(MILLISECONDS_PER_SECOND),
        report: order.report.saturating_mul(MILLISECONDS_PER_SECOND),
    }
}

/// How many connections are open at once.
fn most_open(order: ListenOrder<'_>) -> usize
    ensures { result ≡ most_open (connections_of order.entry) }
{
    order.sessions.clamp(1, MAX_SESSIONS as u64) as usize
}

/// Answers connections as ordered, by the sessions of a hub that has none yet.
fn answer_ordered<K, C, E>(
    alloc: Global,
    places: Places,
    hub: Hub<ServedDesk<K>>,
    connections: &mut C,
    order: ListenOrder<'_>,
    errors: &mut E,
)
where
    K: Keeper + Drop,
    C: Connections<HubSessions<ServedDesk<K>>>,
    E: Write,
    requires free { AreFree places }
    requires size { size_of places ≡ most_open (connections_of order) }
    requires none { hub.sessions ≡ [] }
    ensures { C.has connections.old [] → AnswersConnections K.kept K.failed (connections_of order.entry) hub.service (E.contents errors.old) (E.contents errors.new) }
{
    let mut sessions = HubSessions::new(alloc, hub);
    answer_crowd(
        alloc,
        places,
        &mut sessions,
        connections,
        limits_of(order),
        errors,
    );
}

/// Listens on the address, and answers connections from the hub.
fn listen_from<N, K, R, E>(
    alloc: Global,
    system: &N,
    hub: Hub<ServedDesk<K>>,
    disk: Option<&Disk>,
    order: ListenOrder<'_>,
    input: &mut R,
    errors: &mut E,
) -> Result<(), ProgramFault>
where
    N: Net + Clock,
    K: Keeper + Drop,
    R: BufRead,
    E: Write,
    requires { hub.sessions ≡ [] }
    ensures good_hex { IfErr result (λ fault. fault ≢ BadHex) }
    ensures tells { TellsAddress (AnswersConnections K.kept K.failed (connections_of order.entry) hub.service) (E.contents errors.old) result (E.contents errors.new) }
    ensures unread { (order.entry.until_eof ≡ false) ⊎ IsErr result → input.new ≡ input.old }
{
    let count = most_open(order);
    let places = Places::free(alloc, count)?;
    let Ok(mut sockets) = Sockets::listen(alloc, system, order.address, count, disk) else {
        return Err(ProgramFault::CannotListen);
    };
    let Ok(address) = sockets.address() else {
        return Err(ProgramFault::CannotListen);
    };
    tell_address(alloc, address, errors)?;
    // Two calls, so that the proof knows in which case the input is lent.
    if order.until_eof {
        sockets.stop_at_end_of(input);
        answer_ordered(alloc, places, hub, &mut sockets, order, errors);
        return Ok(());
    }
    answer_ordered(alloc, places, hub, &mut sockets, order, errors);
    Ok(())
}

/// Listens with a directory that is kept nowhere.
fn listen_unkept<N, R, E>(
    alloc: Global,
    system: &N,
    order: ListenOrder<'_>,
    input: &mut R,
    errors: &mut E,
) -> Result<(), ProgramFault>
where
    N: Net + Clock,
    R: BufRead,
    E: Write,
    ensures bad_hex { (result ≡ Err BadHex) ↔ (keys_of (directory_values order.entry.directory) ≡ None) }
    ensures tells { TellsUnkept (directory_values order.entry.directory) (connections_of order.entry) (E.contents errors.old) result (E.contents errors.new) }
    ensures unread { (order.entry.until_eof ≡ false) ⊎ IsErr result → input.new ≡ input.old }
{
    let keys = Keys::read(&order.directory, GroupSize::faster(system))?;
    let directory = keys.begin(alloc)?;
    let hub = Hub::new(alloc, directory, NoKeeper, keys.token());
    listen_from(alloc, system, hub, None, order, input, errors)
}

/// Listens with the directory that is kept in the file of this path.
fn listen_kept<N, R, E>(
    alloc: Global,
    system: &N,
    order: ListenOrder<'_>,
    path: &str,
    input: &mut R,
    errors: &mut E,
) -> Result<(), ProgramFault>
where
    N: Net + Clock + Files<File = File>,
    R: BufRead,
    E: Write,
    ensures bad_hex { (result ≡ Err BadHex) ↔ (keys_of (directory_values order.entry.directory) ≡ None) }
    ensures tells { TellsKept (directory_values order.entry.directory) path.now (connections_of order.entry) (E.contents errors.old) result (E.contents errors.new) }
    ensures unread { (order.entry.until_eof ≡ false) ⊎ IsErr result → input.new ≡ input.old }
{
    let keys = Keys::read(&order.directory, GroupSize::faster(system))?;
    let disk = match open_file(alloc, system, path, errors) {
        Ok(disk) => disk,
        Err(fault) => return Err(fault),
    };
    let hub = match open_journal(alloc, &keys, &disk, path, errors) {
        Ok(hub) => hub,
        Err(fault) => return Err(fault),
    };
    listen_from(alloc, system, hub, Some(&disk), order, input, errors)
}

/// Listens on the address, and answers connections, many at once, from a directory that begins with it, or
/// from one that is kept in the order's journal. A journal is opened first, and a line to the errors says how
/// many records were taken, and how many bytes were cut off, if any were. Once it listens, it writes a line
/// to the errors: `listening on` and the address, with the port that the system chose if port 0 was asked
/// for. A connection that is closed for want of memory is told of in a line behind it; and so is, once, that an edit was
/// refused because its record could not be kept, or that a sync failed. Reports come between these lines, if the order wants
/// them. The input is read only if its end is an order to stop, and not before the address is told.
///
/// # Errors
///
/// `BadHex`, before all else, if a text of the order is not 64 hexadecimal digits; then those of the
/// journal, as `serve_directory` has them, with its line; `OutOfMemory`; `CannotListen` if it cannot listen on the
/// address; `CannotWrite` if one of these lines cannot be written. A connection that fails is closed, and is
/// not a fault of `listen`.
pub fn listen<N, R, E>(
    alloc: Global,
    system: &N,
    order: ListenOrder<'_>,
    input: &mut R,
    errors: &mut E,
) -> Result<(), ProgramFault>
where
    N: Net + Clock + Files<File = File>,
    R: BufRead,
    E: Write,
    ensures bad_hex { (result ≡ Err BadHex) ↔ (keys_of (directory_values order.entry.directory) ≡ None) }
    ensures tells { ListenTells (directory_values order.entry.directory) (connections_of order.entry) (E.contents errors.old) result (E.contents errors.new) }
    ensures unread { (order.entry.until_eof ≡ false) ⊎ IsErr result → input.new ≡ input.old }
{
    match order.directory.journal {
        None => listen_unkept(alloc, system, order, input, errors),
        Some(path) => listen_kept(alloc, system, order, path, input, errors),
    }
}
