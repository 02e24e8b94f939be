// Servers, and questions, with keys of which some may stand in a file.
ghost use Rattle.std.specs.Prelude.{option_map};
ghost use Rattle.runs.specs.AskOptions.{ask_values};
ghost use Rattle.server.specs.ConnectionOptions.{connections_of};
ghost use Rattle.server.specs.DirectoryOptions.{directory_values};
ghost use Rattle.directoryd.specs.Orders.{texts_of};
ghost use Rattle.directoryd.specs.Programs.{AsksFrom, AsksKeyed, ListensKeyed, ServesKeyed};

use crate::keys::{KeysKind, ask_with, directory_with, keys_at, listen_with, provided};
use crate::naming::{digits_of, with_digits};
use crate::order::AskTexts;
use crate::refusing::{refuse_line, wrong_line};
use crate::unusable::{refuse_key, unusable_ask, unusable_line};
use crate::{ask, listen, serve_directory};
use runs::AskOrder;
use server::{DirectoryOrder, ListenOrder};
use std::alloc::Global;
use std::fs::{File, Files};
use std::io::{BufRead, Read, Write};
use std::net::{Net, TcpListener, TcpStream};
use std::time::Clock;
use textio::ProgramFault;

/// Serves one session of a directory.
pub(crate) fn serve_keyed<F, R, W, E>(
    alloc: Global,
    files: &F,
    order: DirectoryOrder<'_>,
    keys: Option<&str>,
    reader: &mut R,
    writer: &mut W,
    errors: &mut E,
) -> Result<(), ProgramFault>
where
    F: Files<File = File>,
    R: Read,
    W: Write,
    E: Write,
    ensures { ServesKeyed (directory_values order.entry) (option_map (λ path. path.now) keys.entry) (R.remaining reader.old) (W.contents writer.old) (W.contents writer.new)
        (E.contents errors.old) (E.contents errors.new) result }
{
    match keys_at(alloc, files, KeysKind::Secret, keys, errors) {
        Ok(file) => {
            let order = directory_with(order, file.as_str());
            match unusable_line(&order) {
                Some(line) => Err(refuse_key(line, errors)),
                None => serve_directory(alloc, files, order, reader, writer, errors),
            }
        }
        Err(fault) => Err(fault),
    }
}

/// Answers connections of a directory.
pub(crate) fn listen_keyed<N, R, E>(
    alloc: Global,
    system: &N,
    order: ListenOrder<'_>,
    keys: Option<&str>,
    input: &mut R,
    errors: &mut E,
) -> Result<(), ProgramFault>
where
    N: Net + Clock + Files<File = File>,
    R: BufRead,
    E: Write,
    ensures { ListensKeyed (directory_values order.entry.directory) (connections_of order.entry) (option_map (λ path. path.now) keys.entry) (E.contents errors.old) (E.contents errors.new) result }
{
    match keys_at(alloc, system, KeysKind::Secret, keys, errors) {
        Ok(file) => {
            let order = listen_with(order, file.as_str());
            match unusable_line(&order.directory) {
                Some(line) => Err(refuse_key(line, errors)),
                None => listen(alloc, system, order, input, errors),
            }
        }
        Err(fault) => Err(fault),
    }
}

/// Asks a directory that listens. A name that is text has to be among the words, and what has a last epoch, if one is wanted.
pub(crate) fn ask_keyed<N, R, W, E>(
    alloc: Global,
    system: &N,
    order: AskOrder<'_>,
    texts: AskTexts<'_>,
    reader: &mut R,
    writer: &mut W,
    errors: &mut E,
) -> Result<u8, ProgramFault>
where
    N: Net<Listener = TcpListener, Stream = TcpStream> + Clock + Files<File = File>,
    R: BufRead,
    W: Write,
    E: Write,
    ensures { AsksKeyed N (ask_values order.entry) (texts_of texts.entry) (R.remaining reader.old) (W.contents writer.old) (W.contents writer.new)
        (E.contents errors.old) (E.contents errors.new) result }
{
    if let Some(line) = wrong_line(&order, &texts) {
        return refuse_line(line, errors);
    }
    match digits_of(alloc, &order, texts.is_text) {
        Ok(digits) => {
            let order = with_digits(order, &digits);
            ask_from(alloc, system, order, texts, reader, writer, errors)
        }
        Err(_) => Err(ProgramFault::OutOfMemory),
    }
}

/// Asks a directory with the keys of the files.
fn ask_from<N, R, W, E>(
    alloc: Global,
    system: &N,
    order: AskOrder<'_>,
    texts: AskTexts<'_>,
    reader: &mut R,
    writer: &mut W,
    errors: &mut E,
) -> Result<u8, ProgramFault>
where
    N: Net<Listener = TcpListener, Stream = TcpStream> + Clock + Files<File = File>,
    R: BufRead,
    W: Write,
    E: Write,
    ensures { AsksFrom N (ask_values order.entry) (texts_of texts.entry) (R.remaining reader.old) (W.contents writer.old) (W.contents writer.new)
        (E.contents errors.old) (E.contents errors.new) result }
{
    let public = match keys_at(alloc, system, KeysKind::Public, texts.provider, errors) {
        Ok(file) => file,
        Err(fault) => return Err(fault),
    };
    let order = provided(order, public.as_str());
    match keys_at(alloc, system, KeysKind::Secret, texts.keys, errors) {
        Ok(file) => {
            let order = ask_with(order, file.as_str());
            match unusable_ask(&order) {
                Some(line) => Err(refuse_key(line, errors)),
                None => ask(alloc, system, order, reader, writer, errors),
            }
        }
        Err(fault) => Err(fault),
    }
}
