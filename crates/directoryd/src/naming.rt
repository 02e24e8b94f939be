// A name among the words of a question that is text: a directory is asked for it in hexadecimal digits.
ghost use Rattle.std.specs.Prelude.{◌≡◌, IfOk, None, if◌then◌else◌, option_map, string_bytes};
ghost use Rattle.runs.specs.AskOptions.{ask_values};
ghost use Rattle.directoryd.specs.TextNames.{name_digits, takes_name, with_digits};

use runs::AskOrder;
use std::alloc::{AllocError, Global};

/// Whether the first word behind this command is a name.
fn takes_name(command: &str) -> bool
    ensures { result ≡ takes_name command.now }
{
    command == "register"
        || command == "change"
        || command == "register2"
        || command == "change2"
        || command == "promise"
        || command == "lookup"
        || command == "watch"
        || command == "watch2"
        || command == "settle"
}

/// The hexadecimal digits of the name among the words, if there is one.
fn name_digits(alloc: Global, order: &AskOrder<'_>) -> Result<Option<String>, AllocError>
    ensures { IfOk result (λ digits. option_map string_bytes digits ≡ name_digits (ask_values order.now).words) }
{
    let (Some(command), Some(name)) = (order.command, order.first) else {
        return Ok(None);
    };
    if !takes_name(command) {
        return Ok(None);
    }
    Ok(Some(hex::encode(alloc, name.as_bytes())?))
}

/// The same, if names are text.
pub(crate) fn digits_of(
    alloc: Global,
    order: &AskOrder<'_>,
    is_text: bool,
) -> Result<Option<String>, AllocError>
    ensures { IfOk result (λ digits. option_map string_bytes digits ≡ (if is_text then name_digits (ask_values order.now).words else None)) }
{
    if is_text {
        name_digits(alloc, order)
    } else {
        Ok(None)
    }
}

/// The order, with these digits, if there are some, as the first word behind the command.
pub(crate) fn with_digits<'a>(order: AskOrder<'a>, digits: &'a Option<String>) -> AskOrder<'a>
    ensures { ask_values result ≡ record (ask_values order.entry) { words = with_digits (option_map string_bytes digits.entry.now) (ask_values order.entry).words } }
{
    match digits {
        Some(digits) => AskOrder {
            first: Some(digits.as_str()),
            ..order
        },
        None => order,
    }
}
