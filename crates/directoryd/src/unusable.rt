//! Keys that are missing, or are not 64 hexadecimal digits.
ghost use Rattle.std.specs.Prelude.{◌≡◌, option_map};
ghost use Rattle.runs.specs.AskOptions.{ask_values};
ghost use Rattle.server.specs.DirectoryOptions.{directory_values};
ghost use Rattle.directoryd.specs.KeyFiles.{RefusesKey, unusable_ask, unusable_line, no_key_line, option_line, or_else};

use runs::AskOrder;
use server::DirectoryOrder;
use std::io::Write;
use textio::{ProgramFault, hex32, write_text};

/// The line about the text of a key that cannot be used: the first if there is none, the second if it is not 64 hexadecimal
/// digits.
fn no_key_line<'a>(text: &str, missing: &'a [u8], wrong: &'a [u8]) -> Option<&'a [u8]>
    ensures { option_map (λ line. line.now) result ≡ no_key_line missing.entry.now wrong.entry.now text.now }
{
    if text.is_empty() {
        return Some(missing);
    }
    match hex32(text.as_bytes()) {
        Some(_) => None,
        None => Some(wrong),
    }
}

/// The first line, or the other if there is none.
fn or_else<'a>(line: Option<&'a [u8]>, other: Option<&'a [u8]>) -> Option<&'a [u8]>
    ensures { option_map (λ line. line.now) result ≡ or_else (option_map (λ line. line.now) line.entry) (option_map (λ line. line.now) other.entry) }
{
    match line {
        Some(line) => Some(line),
        None => other,
    }
}

/// The line about the first key of an order that cannot be used, if there is one.
pub(crate) fn unusable_line<'a>(order: &DirectoryOrder<'_>) -> Option<&'a [u8]>
    ensures { option_map (λ line. line.now) result ≡ unusable_line (directory_values order.now) }
{
    let sign = no_key_line(
        order.signing_key,
        b"sign-key is missing\n",
        b"sign-key is not 64 hexadecimal digits\n",
    );
    let vuf = no_key_line(
        order.vuf_key,
        b"vuf-key is missing\n",
        b"vuf-key is not 64 hexadecimal digits\n",
    );
    let salt = no_key_line(
        order.salt_key,
        b"salt-key is missing\n",
        b"salt-key is not 64 hexadecimal digits\n",
    );
    let token = no_key_line(
        order.token,
        b"token is missing\n",
        b"token is not 64 hexadecimal digits\n",
    );
    let keys = or_else(or_else(or_else(sign, vuf), salt), token);
    let nonce = option_line(
        order.nonce,
        b"nonce is missing\n",
        b"nonce is not 64 hexadecimal digits\n",
    );
    or_else(keys, nonce)
}

/// The same of what is asked of a directory.
pub(crate) fn unusable_ask<'a>(order: &AskOrder<'_>) -> Option<&'a [u8]>
    ensures { option_map (λ line. line.now) result ≡ unusable_ask (ask_values order.now) }
{
    let key = no_key_line(
        order.signing_key,
        b"provider is missing\n",
        b"provider is not 64 hexadecimal digits\n",
    );
    let token = option_line(
        order.token,
        b"token is missing\n",
        b"token is not 64 hexadecimal digits\n",
    );
    or_else(key, token)
}

/// The line about a text that may be left out.
fn option_line<'a>(text: Option<&str>, missing: &'a [u8], wrong: &'a [u8]) -> Option<&'a [u8]>
    ensures { option_map (λ line. line.now) result ≡ option_line missing.entry.now wrong.entry.now (option_map (λ text. text.now) text.entry) }
{
    match text {
        Some(text) => no_key_line(text, missing, wrong),
        None => None,
    }
}

/// Says which key cannot be used, and returns the fault that is told behind it. A line that cannot be written is passed over.
pub(crate) fn refuse_key<E: Write>(line: &[u8], errors: &mut E) -> ProgramFault
    ensures { RefusesKey line.now result (E.contents errors.old) (E.contents errors.new) }
{
    let _told = write_text(errors, line);
    ProgramFault::BadHex
}
