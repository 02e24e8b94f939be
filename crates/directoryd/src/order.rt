ghost use Rattle.std.specs.Prelude.{◌≡◌, ◌⊎◌, ◌≤◌, IfOk, IfErr, Some, codes, false, map, option_map};
ghost use Rattle.std.specs.NonZero.{non_zero_u64_get};
ghost use Rattle.clap.specs.Words.{app_of, first_of, found_of, kind_of, rows_of, rule_of};
ghost use Rattle.clap.specs.declared.builder.command.Command.TheViews.{out-Command};
ghost use Rattle.clap.specs.declared.builder.value_parser.ValueParser.{ValueParser};
ghost use Rattle.clap.specs.declared.error.kind.ErrorKind.TheVariants.{OutOfMemory};
ghost use Rattle.directoryd.specs.CommandLine.{bare_app, directory_app, IsHashNames, RefusesWords};
ghost use Rattle.directoryd.specs.Tables.{app_in, apps_in, rule_in};
ghost use Rattle.items.specs.TreeOptions.{tree_values};
ghost use Rattle.server.specs.DirectoryOptions.{directory_values};
ghost use Rattle.runs.specs.AskOptions.{ask_values};
ghost use Rattle.directoryd.specs.Orders.{after_in, asked_in, asking_in, connections_in, directory_in, flag_in, hash_named, number_from, task_in, text_in, texts_in, texts_of, the_connections, values_in, IsTask};

mod subcommands;
mod tables;

use audits::{AuditOrder, JudgeOrder};
use clap::builder::ValueParser;
use clap::{Arg, ArgAction, ArgMatches, Command, Error};
use items::{HashChoice, ProveOrder, RootOrder};
use runs::AskOrder;
use server::{DirectoryOrder, ListenOrder};
use std::alloc::{AllocError, Global};
use std::convert::AsStr;
use std::num::NonZeroU64;
pub use subcommands::{AskTexts, Order};
use tables::{Argument, Kind, SUBCOMMANDS, Subcommand, help_below};

/// What `--version` prints behind the program's name: its version, and the kit that it was last proved with.
static VERSION: &str = "\
0.1.0
rattle-kit-13f logic dac8208d650f15bf";

/// What stands below the subcommands.
static HELP: &str = "\
In each epoch the directory binds the keys of all users into one root and signs it, and each reply to a
look-up carries a proof against that root. `audit` and `judge` are for those who watch a provider.
The signatures and the verifiable function are stand-ins without any security: this program protects
nobody yet.

Status 0: done, or help or the version was asked for. Status 1: a fault, which is one line on standard
error; or `ask` was refused something. Status 2: the command line is wrong. Status 3: `judge` printed
`no evidence`; or `ask` caught the provider, or found that a name is not as expected or an epoch stale.

`directoryd COMMAND --help` shows the options of a command, and an example. In the repository, README.md
says what this is, docs/OPERATING.md how to run a directory, and docs/FORMATS.md what each byte means.

Example: directoryd root --hash sum < examples/items.txt";

/// The names of the hash functions.
static HASHES: [&str; 2] = ["sha256", "sum"];

fn hash_names<'a>() -> ValueParser<'a>
    ensures { IsHashNames result }
{
    ValueParser::Names(HASHES.as_slice())
}

/// The argument of a row.
fn argument<'a>(alloc: Global, row: &Argument, names: ValueParser<'a>) -> Arg<'a>
    ensures rule { rule_of result ≡ rule_in names.entry row.now }
    ensures local { result.global ≡ false }
{
    let named = Arg::new(alloc, row.name).help(row.help);
    match row.kind {
        Kind::Word => named.value_name(row.value),
        Kind::Positional => named.value_name(row.value).required(true),
        Kind::Text => named.long(row.name).value_name(row.value),
        Kind::Required => named.long(row.name).value_name(row.value).required(true),
        Kind::Number(least, most, default) => named
            .long(row.name)
            .value_name(row.value)
            .default_value(default)
            .value_parser(ValueParser::unsigned(least, most)),
        Kind::Optional(least, most) => named
            .long(row.name)
            .value_name(row.value)
            .value_parser(ValueParser::unsigned(least, most)),
        Kind::Flag => named.long(row.name).action(ArgAction::SetTrue),
        Kind::Hash => named
            .long(row.name)
            .default_value("sha256")
            .value_parser(names),
    }
}

/// The subcommand of a row, with its arguments.
fn subcommand<'a>(
    alloc: Global,
    row: &Subcommand,
    names: ValueParser<'a>,
) -> Result<Command<'a>, AllocError>
    ensures app { IfOk result (λ c. app_of c ≡ app_in names.entry row.now) }
    ensures local { IfOk result (λ c. (out-Command c).has_globals ≡ false) }
{
    let mut command = Command::new(alloc, row.name)
        .about(row.about)
        .after_help(help_below(row.name));
    for taken in row.arguments {
        command = command.arg(argument(alloc, taken, names))?;
    }
    Ok(command)
}

/// The rows of the command line.
fn table<'a>() -> &'a [Subcommand]
    ensures { (names : ValueParser) → apps_in names bare_app result.now ≡ directory_app names }
{
    SUBCOMMANDS.as_slice()
}

/// The subcommands, of which one has to be there.
fn command<'a>(alloc: Global) -> Result<Command<'a>, AllocError>
    ensures { IfOk result (λ c. (names : _) × IsHashNames names × (app_of c ≡ directory_app names)) }
{
    let names = hash_names();
    let mut directoryd = Command::new(alloc, "directoryd")
        .about("A CONIKS key directory")
        .after_help(HELP)
        .version(VERSION)
        .subcommand_required(true);
    for row in table() {
        directoryd = directoryd.subcommand(subcommand(alloc, row, names)?)?;
    }
    Ok(directoryd)
}

/// The hash function of a name that `--hash` takes.
fn hash_choice(name: Option<&str>) -> HashChoice
    ensures { result ≡ hash_named (option_map (λ text. text.now) name.entry) }
{
    match name {
        Some("sum") => HashChoice::Sum,
        _ => HashChoice::Sha256,
    }
}

/// The text of an option, which is empty where none was given.
fn text<'a>(found: &ArgMatches<'a>, name: &str) -> &'a str
    ensures { result.now ≡ text_in name.now (rows_of (found_of found.now)) }
{
    found.get_str(name).unwrap_or("")
}

/// The number of an option that clap takes from `least` on.
fn number(found: &ArgMatches<'_>, name: &str, least: u64) -> u64
    ensures is { result ≡ number_from least (text_in name.now (rows_of (found_of found.now))) }
    ensures least { least ≤ result }
{
    match text(found, name).parse::<u64>() {
        Ok(number) if least <= number => number,
        _ => least,
    }
}

/// The options of a tree, as a subcommand has them.
fn root_order<'a>(found: &ArgMatches<'a>) -> RootOrder<'a>
    ensures { tree_values result ≡ asked_in (rows_of (found_of found.now)) }
{
    RootOrder {
        hash: hash_choice(found.get_str("hash")),
        nonce: found.get_str("nonce"),
    }
}

/// The first epoch of a directory.
fn first_epoch(found: &ArgMatches<'_>) -> NonZeroU64
    ensures { non_zero_u64_get result ≡ number_from 1 (text_in (codes "epoch") (rows_of (found_of found.now))) }
{
    match NonZeroU64::new(number(found, "epoch", 1)) {
        Some(epoch) => epoch,
        None => unreachable!(),
    }
}

/// Whether an option without a value is given.
fn flag(found: &ArgMatches<'_>, name: &str) -> bool
    ensures { result ≡ flag_in name.now (rows_of (found_of found.now)) }
{
    text(found, name) == "true"
}

/// The options of a directory, as a subcommand has them.
fn directory_order<'a>(found: &ArgMatches<'a>) -> DirectoryOrder<'a>
    ensures { directory_values result ≡ directory_in (rows_of (found_of found.now)) }
{
    DirectoryOrder {
        signing_key: text(found, "sign-key"),
        vuf_key: text(found, "vuf-key"),
        salt_key: text(found, "salt-key"),
        token: text(found, "token"),
        epoch: first_epoch(found),
        nonce: found.get_str("nonce"),
        journal: found.get_str("journal"),
    }
}

/// The options of `listen`, and its file of keys.
fn listen_order<'a>(found: &ArgMatches<'a>) -> Order<'a>
    ensures { values_in result ≡ the_connections (directory_in (rows_of (found_of found.now))) (connections_in (rows_of (found_of found.now))) (first_of (codes "keys") (rows_of (found_of found.now))) }
{
    let order = ListenOrder {
        directory: directory_order(found),
        count: number(found, "count", 0),
        sessions: number(found, "sessions", 1),
        idle: number(found, "idle", 0),
        report: number(found, "report", 0),
        until_eof: flag(found, "until-eof"),
        address: text(found, "address"),
    };
    Order::Listen(order, found.get_str("keys"))
}

/// The epoch that the last one has to be above, if one is given.
fn after(found: &ArgMatches<'_>) -> Option<u64>
    ensures { result ≡ after_in (rows_of (found_of found.now)) }
{
    match found.get_str("after") {
        Some(_) => Some(number(found, "after", 0)),
        None => None,
    }
}

/// What is asked of a directory, as a subcommand has it.
fn ask_order<'a>(found: &ArgMatches<'a>) -> AskOrder<'a>
    ensures { ask_values result ≡ asking_in (rows_of (found_of found.now)) }
{
    AskOrder {
        signing_key: "",
        token: found.get_str("token"),
        state: found.get_str("state"),
        address: text(found, "address"),
        command: found.get_str("command"),
        first: found.get_str("first"),
        second: found.get_str("second"),
        third: found.get_str("third"),
        after: after(found),
    }
}

/// From where the texts of what is asked come, as a subcommand has it.
fn ask_texts<'a>(found: &ArgMatches<'a>) -> AskTexts<'a>
    ensures { texts_of result ≡ texts_in (rows_of (found_of found.now)) }
{
    AskTexts {
        provider: found.get_str("provider"),
        keys: found.get_str("keys"),
        is_text: flag(found, "text"),
    }
}

/// What a subcommand orders.
fn named_order<'a>(name: &str, found: &ArgMatches<'a>) -> Order<'a>
    ensures { values_in result ≡ task_in name.now (rows_of (found_of found.now)) }
{
    match name {
        "prove" => Order::Prove(ProveOrder {
            index: text(found, "index"),
            root: root_order(found),
        }),
        "audit" => Order::Audit(AuditOrder {
            signing_key: text(found, "key"),
        }),
        "judge" => Order::Judge(JudgeOrder {
            signing_key: text(found, "key"),
            file: text(found, "file"),
        }),
        "play" => Order::Play,
        "serve" => Order::Serve(directory_order(found), found.get_str("keys")),
        "listen" => listen_order(found),
        "ask" => Order::Ask(ask_order(found), ask_texts(found)),
        _ => Order::Root(root_order(found)),
    }
}

/// What the words of a command line order, the program's name first.
///
/// # Errors
///
/// clap's, of words that it refuses or that ask for help, or of memory that ran out.
pub fn order<'a, S: AsStr>(alloc: Global, words: &'a [S]) -> Result<Order<'a>, Error>
    ensures ok { IfOk result (λ order. IsTask (map S.text words.entry.now) (values_in order)) }
    ensures err { IfErr result (λ fault. (kind_of fault ≡ OutOfMemory) ⊎ RefusesWords (map S.text words.entry.now) fault) }
{
    let matches = command(alloc)?.try_get_matches_from(words)?;
    let Some((name, found)) = matches.subcommand() else {
        unreachable!()
    };
    Ok(named_order(name, found))
}
