// Keys that stand in a file, where other users of the machine do not see them. A line is an option's name, a
// space and 64 hexadecimal digits; of a name that stands there twice, the first counts. An option on the command
// line wins over the file, unless it is empty. Contracts do not know which bytes a file has.
ghost use Rattle.std.specs.Prelude.{◌≡◌, ◌⊎◌, Decides, IfErr, IfOk, MatchOption, MatchResult, OnOk, Some, false, option_map, string_bytes, true};
ghost use Rattle.std.specs.Io.KnownBytes.{Keeps};
ghost use Rattle.runs.specs.AskOptions.{ask_values};
ghost use Rattle.server.specs.DirectoryOptions.{directory_values};
ghost use Rattle.directoryd.specs.KeyFiles.{HasKeyLines, IsKeysFile, IsKeysText, IsNotRead, RefusesFile, RefusesKeys, TellsLine, ask_with, complaint, complaint_line, directory_with, gives, has_secrets, is_key_line, key_in, name_in, option_of, option_or, provided, text_or, value_in};
ghost use Rattle.server.specs.ConnectionOptions.{connections_of};

use files::{file_line, read_at, tell_error};
use runs::AskOrder;
use server::{DirectoryOrder, ListenOrder};
use std::alloc::{AllocError, Global};
use std::fs::Files;
use std::io::Write;
use textio::{ProgramFault, hex32, write_text};

/// Which keys a file has to have.
#[derive(Clone, Copy)]
pub(crate) enum KeysKind {
    /// The provider's public keys alone: everybody may read them.
    Public,
    /// Keys of which some are secret.
    Secret,
}

impl KeysKind {
    /// The option that a file of this kind is given to, as a line about it begins.
    fn option(self) -> &'static str
        ensures { result.now ≡ option_of self }
    {
        match self {
            KeysKind::Public => "provider: ",
            KeysKind::Secret => "keys: ",
        }
    }
}

/// The name and the digits of a line that is a name, a space and 64 hexadecimal digits.
fn key_line(line: &str) -> Option<(&str, &str)>
    ensures { MatchOption result (is_key_line line.now ≡ false)
        (λ pair. (is_key_line line.now ≡ true) × (pair.0.now ≡ name_in line.now) × (pair.1.now ≡ value_in line.now)) }
{
    let (name, digits) = line.split_once(' ')?;
    match hex32(digits.as_bytes()) {
        Some(_) => Some((name, digits)),
        None => None,
    }
}

/// The digits that a line gives the option of this name.
fn value_of<'a>(line: &'a str, option: &str) -> Option<&'a str>
    ensures { MatchOption result (gives option.now line.now ≡ false)
        (λ digits. (gives option.now line.now ≡ true) × (digits.now ≡ value_in line.now)) }
{
    match key_line(line) {
        Some((name, digits)) if name == option => Some(digits),
        _ => None,
    }
}

/// Whether each line is a name, a space and 64 hexadecimal digits.
fn has_key_lines(text: &str) -> bool
    ensures { Decides result (HasKeyLines text.now) }
{
    for line in text.lines() {
        if key_line(line).is_none() {
            return false;
        }
    }
    true
}

/// The text of these bytes.
///
/// # Errors
///
/// `BadHex` exactly if they are not those of a file of keys; `OutOfMemory`.
fn keys_text(alloc: Global, bytes: &[u8]) -> Result<String, ProgramFault>
    ensures { MatchResult result (λ text. IsKeysFile bytes.now × (string_bytes text ≡ bytes.now))
        (λ fault. ((fault ≡ ProgramFault.BadHex) × ¬ (IsKeysFile bytes.now)) ⊎ (fault ≡ ProgramFault.OutOfMemory)) }
{
    match str::from_utf8(bytes) {
        Ok(text) if has_key_lines(text) => Ok(String::from_str(alloc, text)?),
        _ => Err(ProgramFault::BadHex),
    }
}

/// The text of the file of this path, which an option of this kind has. Where it cannot be read, a line says why.
///
/// # Errors
///
/// `CannotRead` and `OutOfMemory`; `BadHex` if a line is not an option's name, a space and 64 hexadecimal
/// digits.
fn text_at<F: Files, E: Write>(
    alloc: Global,
    files: &F,
    kind: KeysKind,
    path: &str,
    errors: &mut E,
) -> Result<String, ProgramFault>
    ensures ok { IfOk result (λ text. IsKeysFile (string_bytes text)) }
    ensures still { OnOk result (errors.new ≡ errors.old) }
    ensures err { IfErr result (λ fault. IsNotRead kind path.now fault (E.contents errors.old) (E.contents errors.new)) }
{
    match read_at(alloc, files, path) {
        Ok(bytes) => keys_text(alloc, &bytes),
        Err(why) => {
            tell_error(alloc, kind.option(), path, &why.error, errors);
            Err(why.fault)
        }
    }
}

/// Whether a text gives a secret key.
fn has_secrets(file: &str) -> bool
    ensures { result ≡ has_secrets file.now }
{
    key_in(file, "sign-key").is_some()
        || key_in(file, "vuf-key").is_some()
        || key_in(file, "salt-key").is_some()
        || key_in(file, "token").is_some()
}

/// What is said of a text that is not of the kind that is wanted.
fn complaint(kind: KeysKind, file: &str) -> Option<&'static str>
    ensures { option_map (λ what. what.now) result ≡ complaint kind file.now }
{
    let has_secrets = has_secrets(file);
    let has_provider = key_in(file, "provider").is_some();
    match kind {
        KeysKind::Public if has_secrets => Some("has secret keys"),
        KeysKind::Public if !has_provider => Some("has no public key"),
        KeysKind::Secret if has_provider && !has_secrets => Some("has public keys alone"),
        _ => None,
    }
}

/// The line about the file of a path.
fn complaint_line(
    alloc: Global,
    kind: KeysKind,
    path: &str,
    what: &str,
) -> Result<Vec<u8>, AllocError>
    ensures { IfOk result (λ line. line.items ≡ complaint_line kind path.now what.now) }
{
    file_line(alloc, kind.option(), path, what)
}

/// Says what is wrong with the file of a path. Returns the fault that is told behind it.
fn complain<E: Write>(
    alloc: Global,
    kind: KeysKind,
    path: &str,
    what: &str,
    errors: &mut E,
) -> ProgramFault
    ensures { ((result ≡ ProgramFault.OutOfMemory) × Keeps (E.contents errors.old) (E.contents errors.new))
        ⊎ TellsLine (complaint_line kind path.now what.now) result (E.contents errors.old) (E.contents errors.new) }
{
    match complaint_line(alloc, kind, path, what) {
        Ok(line) => match write_text(errors, &line) {
            Ok(()) => ProgramFault::BadHex,
            Err(_) => ProgramFault::CannotWrite,
        },
        Err(_) => ProgramFault::OutOfMemory,
    }
}

/// The text of the file of this path, if it is of this kind.
fn text_of_kind<F: Files, E: Write>(
    alloc: Global,
    files: &F,
    kind: KeysKind,
    path: &str,
    errors: &mut E,
) -> Result<String, ProgramFault>
    ensures ok { IfOk result (λ text. IsKeysText kind (Some path.now) (string_bytes text)) }
    ensures still { OnOk result (errors.new ≡ errors.old) }
    ensures err { IfErr result (λ fault. RefusesFile kind path.now fault (E.contents errors.old) (E.contents errors.new)) }
{
    let text = text_at(alloc, files, kind, path, errors)?;
    match complaint(kind, text.as_str()) {
        Some(what) => Err(complain(alloc, kind, path, what, errors)),
        None => Ok(text),
    }
}

/// The text of the file of this path, or no text if there is none. A line says what is wrong with a file that is not of
/// this kind.
///
/// # Errors
///
/// `CannotRead` and `OutOfMemory`; `BadHex` if a line is not an option's name, a space and 64 hexadecimal
/// digits, or the file is not of this kind; `CannotWrite`.
pub(crate) fn keys_at<F: Files, E: Write>(
    alloc: Global,
    files: &F,
    kind: KeysKind,
    path: Option<&str>,
    errors: &mut E,
) -> Result<String, ProgramFault>
    ensures ok { IfOk result (λ text. IsKeysText kind (option_map (λ path. path.now) path.entry) (string_bytes text)) }
    ensures still { OnOk result (errors.new ≡ errors.old) }
    ensures err { IfErr result (λ fault. RefusesKeys kind (option_map (λ path. path.now) path.entry) fault (E.contents errors.old) (E.contents errors.new)) }
{
    match path {
        Some(path) => text_of_kind(alloc, files, kind, path, errors),
        None => Ok(String::new(alloc)),
    }
}

/// The digits that a file has for an option.
fn key_in<'a>(file: &'a str, option: &str) -> Option<&'a str>
    ensures { option_map (λ digits. digits.now) result ≡ key_in file.now option.now }
{
    for line in file.lines() {
        if let Some(digits) = value_of(line, option) {
            return Some(digits);
        }
    }
    None
}

/// The text of an option, or if that is empty what a file has for it.
fn text_or<'a>(given: &'a str, file: &'a str, option: &str) -> &'a str
    ensures { result.now ≡ text_or given.entry.now (key_in file.now option.now) }
{
    if !given.is_empty() {
        return given;
    }
    match key_in(file, option) {
        Some(digits) => digits,
        None => given,
    }
}

/// The text of an option that need not be given, or else what a file has for it.
fn option_or<'a>(given: Option<&'a str>, file: &'a str, option: &str) -> Option<&'a str>
    ensures { option_map (λ text. text.now) result ≡ option_or (option_map (λ text. text.now) given.entry) (key_in file.now option.now) }
{
    match given {
        Some(text) => Some(text_or(text, file, option)),
        None => key_in(file, option),
    }
}

/// The order, with the keys that were not given from a file.
pub(crate) fn directory_with<'a>(order: DirectoryOrder<'a>, file: &'a str) -> DirectoryOrder<'a>
    ensures { directory_values result ≡ directory_with file.now (directory_values order.entry) }
{
    DirectoryOrder {
        signing_key: text_or(order.signing_key, file, "sign-key"),
        vuf_key: text_or(order.vuf_key, file, "vuf-key"),
        salt_key: text_or(order.salt_key, file, "salt-key"),
        token: text_or(order.token, file, "token"),
        epoch: order.epoch,
        nonce: option_or(order.nonce, file, "nonce"),
        journal: order.journal,
    }
}

/// The same of an order to listen. How it takes connections stays.
pub(crate) fn listen_with<'a>(order: ListenOrder<'a>, file: &'a str) -> ListenOrder<'a>
    ensures directory { directory_values result.directory ≡ directory_with file.now (directory_values order.entry.directory) }
    ensures connections { connections_of result ≡ connections_of order.entry }
{
    ListenOrder {
        directory: directory_with(order.directory, file),
        count: order.count,
        sessions: order.sessions,
        idle: order.idle,
        report: order.report,
        until_eof: order.until_eof,
        address: order.address,
    }
}

/// What is asked of a directory, with the public key from a provider's file.
pub(crate) fn provided<'a>(order: AskOrder<'a>, file: &'a str) -> AskOrder<'a>
    ensures { ask_values result ≡ provided file.now (ask_values order.entry) }
{
    AskOrder {
        signing_key: text_or(order.signing_key, file, "provider"),
        ..order
    }
}

/// The same with the keys that were not given from a file.
pub(crate) fn ask_with<'a>(order: AskOrder<'a>, file: &'a str) -> AskOrder<'a>
    ensures { ask_values result ≡ ask_with file.now (ask_values order.entry) }
{
    AskOrder {
        signing_key: text_or(order.signing_key, file, "provider"),
        token: option_or(order.token, file, "token"),
        state: order.state,
        address: order.address,
        command: order.command,
        first: order.first,
        second: order.second,
        third: order.third,
        after: order.after,
    }
}
