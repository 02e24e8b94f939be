// The subcommands and their arguments as data, with what help says of them.
use server::MAX_SESSIONS;

/// How an argument is given, and what its value has to be.
pub(super) enum Kind {
    /// A value that may stand alone.
    Word,
    /// A value that stands alone, and has to be given.
    Positional,
    /// `--NAME VALUE`.
    Text,
    /// `--NAME VALUE`, which has to be given.
    Required,
    /// `--NAME N`, a number from the first to the second, with a default.
    Number(u64, u64, &'static str),
    /// `--NAME N`, such a number, without a default.
    Optional(u64, u64),
    /// `--NAME` without a value.
    Flag,
    /// `--NAME HASH`, the name of a hash function.
    Hash,
}

/// An argument, and what help says of it.
pub(super) struct Argument {
    pub(super) name: &'static str,
    /// What help calls its value, if it names one.
    pub(super) value: &'static str,
    pub(super) help: &'static str,
    pub(super) kind: Kind,
}

/// A subcommand, and what help says of it.
pub(super) struct Subcommand {
    pub(super) name: &'static str,
    pub(super) about: &'static str,
    pub(super) arguments: &'static [Argument],
}

/// What stands below the options of `root`: the format of its input, and an example.
const ROOT_HELP: &str = "\
Items: one a line, INDEX COMMITMENT, each 64 hexadecimal digits, with one space between.
Prints `root HASH`.

Example: directoryd root --hash sum < items.txt";

/// What stands below the options of `prove`.
const PROVE_HELP: &str = "\
Items: one a line, INDEX COMMITMENT, each 64 hexadecimal digits, with one space between.
Prints `level N`, then `present COMMITMENT`, `empty` or `other INDEX COMMITMENT`, then N lines
`sibling HASH` from the root down, then `root HASH`.

Example: directoryd prove --index 4000000000000000000000000000000000000000000000000000000000000000 < items.txt";

/// What stands below the options of `audit`.
const AUDIT_HELP: &str = "\
Signed roots of one provider: one a line, in hexadecimal digits.
Answers each line with `started`, `extended`, `known`, `ahead`, `before start`, evidence as JSON,
`refused 1` (not a signed root) or `refused 2` (its signature does not verify).

Example: directoryd audit --key $KEY < roots.txt";

/// What stands below the options of `judge`.
const JUDGE_HELP: &str = "\
Prints `evidence`, with status 0, or `no evidence`, with status 3.

Example: directoryd judge --key $KEY evidence.json";

/// What stands below the options of `play`: the lines of a script, and a whole one.
const PLAY_HELP: &str = "\
A script has one directory, a client that checks look-ups, an auditor, and monitors of names. All is in
memory, with keys that are always the same. Each line is a command, and prints what comes of it:

    register NAME KEY, change NAME KEY, promise NAME, lookup NAME EPOCH, history FROM COUNT, head,
    register2 NAME KEY POLICY, change2 NAME KEY POLICY, close EPOCH, rotate EPOCH NONCE, watch NAME KEY,
    watch2 NAME KEY POLICY, bytes SESSION HEX, end SESSION

NAME, KEY and HEX are hexadecimal digits, or `-` for no bytes; the key of `watch` is the one that is
expected, or `-` for none. NONCE is 64 digits, POLICY `open` or `final`. A look-up at epoch 0 asks for the latest
one. A line that is empty or begins with `#` prints nothing. The first line that is no command ends the run:
`line N: not a command`.

In this script alice (616c696365) registers the key 6b31, and her monitor finds it in epoch 2:

    watch 616c696365 -
    register 616c696365 6b31
    lookup 616c696365 0
    close 2
    lookup 616c696365 0

It prints:

    kept 616c696365 1
    promise 1
    absent 1
    root 2 after 1
    kept 616c696365 2
    present 2 6b31

Example: directoryd play < examples/day.script";

/// What stands below the options of `serve`.
const SERVE_HELP: &str = "\
Reads the frames of one session from standard input, and writes their replies to standard output.
The directory is new, and nothing of it is kept at the end, unless --journal is given: then it goes on
as the file has it, and everything is kept there.

Example: directoryd serve --keys keys.txt < requests";

/// What stands below the options of `listen`.
const LISTEN_HELP: &str = "\
Answers many connections at once, all from one directory. A connection with a fault is closed, and so is
one that is idle for too long. The directory is new, and nothing of it is kept at the end, unless --journal
is given: then it goes on as the file has it, and everything is kept there.

Example: directoryd listen --keys keys.txt 127.0.0.1:7000";

/// What stands below the options of `ask`.
const ASK_HELP: &str = "\
Asks the directory that listens on ADDR what the words ask, or without words each line of standard input,
checks each reply as a client, and prints the line that `play` prints:

    register NAME KEY, change NAME KEY, promise NAME, lookup NAME EPOCH, history FROM COUNT, head,
    register2 NAME KEY POLICY, change2 NAME KEY POLICY, close EPOCH, rotate EPOCH NONCE, watch NAME KEY,
    watch2 NAME KEY POLICY

NAME and KEY are hexadecimal digits, here and in what is printed: alice is 616c696365. POLICY is `open` or
`final`. With --text, NAME of the words is text, and KEY still digits. Lines of standard input have no text:
--text without words is refused.

--provider is all that a user needs: a file with the line `provider` and 64 hexadecimal digits, and no secret
key. `close` and `rotate` are the operator's, who gives --keys, a file with `provider` and `token`, or --token.

What is refused is also told on standard error. FILE of --state has the client's chain, one signed root a line,
which `audit` reads too, and FILE.kept what is remembered beside it; without them the client begins at the
directory's latest root. Evidence and alarms of earlier runs are told again; the words `settle NAME` drop the
alarms of a name from FILE.kept, and ask ADDR nothing.

With --after EPOCH the words `watch NAME KEY`, `watch2 NAME KEY POLICY` and `head` end with the line `stale E` and
status 3 if E, the last epoch that was watched of the name, or the head's, is not above EPOCH. Before any was
watched, E is 0.

Status 3: the provider was caught, by evidence or a promise that was not kept, a name is not as expected, or an
epoch is stale.
Status 1: nothing can be said today, since something was refused, no reply came, or more roots are new than a run
takes.

Example: directoryd ask --provider provider.txt --state roots.txt --text 127.0.0.1:7000 lookup alice 0";

/// What stands below the options of a subcommand. The rows do not have it: the checker takes no table of so many bytes.
pub(super) fn help_below(name: &str) -> &'static str {
    match name {
        "root" => ROOT_HELP,
        "prove" => PROVE_HELP,
        "audit" => AUDIT_HELP,
        "judge" => JUDGE_HELP,
        "play" => PLAY_HELP,
        "serve" => SERVE_HELP,
        "listen" => LISTEN_HELP,
        _ => ASK_HELP,
    }
}

/// The most connections that `--sessions` allows at once: what `listen` can hold.
const MOST_SESSIONS: u64 = MAX_SESSIONS as u64;

const HASH: Argument = Argument {
    name: "hash",
    value: "",
    help: "The hash function of the tree; sum is for tests",
    kind: Kind::Hash,
};

const NONCE: Argument = Argument {
    name: "nonce",
    value: "HEX",
    help: "The nonce of the tree, 64 hexadecimal digits; 64 zeros if not given",
    kind: Kind::Text,
};

const KEY: Argument = Argument {
    name: "key",
    value: "HEX",
    help: "The provider's public key, 64 hexadecimal digits",
    kind: Kind::Required,
};

const SIGN_KEY: Argument = Argument {
    name: "sign-key",
    value: "HEX",
    help: "The key that signs roots and promises, 64 hexadecimal digits",
    kind: Kind::Text,
};

const VUF_KEY: Argument = Argument {
    name: "vuf-key",
    value: "HEX",
    help: "The key that gives names their indices, 64 hexadecimal digits",
    kind: Kind::Text,
};

const SALT_KEY: Argument = Argument {
    name: "salt-key",
    value: "HEX",
    help: "The key of the salts of commitments, 64 hexadecimal digits",
    kind: Kind::Text,
};

const TOKEN: Argument = Argument {
    name: "token",
    value: "HEX",
    help: "The token of the operator, who alone closes epochs, 64 hexadecimal digits",
    kind: Kind::Text,
};

const KEYS: Argument = Argument {
    name: "keys",
    value: "FILE",
    help: "A file of secret keys: lines of an option's name, a space and its 64 hexadecimal digits",
    kind: Kind::Text,
};

const EPOCH: Argument = Argument {
    name: "epoch",
    value: "E",
    help: "The first epoch, a number from 1 on",
    kind: Kind::Number(1, u64::MAX, "1"),
};

const JOURNAL: Argument = Argument {
    name: "journal",
    value: "FILE",
    help: "The file in which the directory is kept; in memory alone if not given",
    kind: Kind::Text,
};

/// The subcommands, in the order of the help.
pub(super) static SUBCOMMANDS: [Subcommand; 8] = [
    Subcommand {
        name: "root",
        about: "Prints the root of the items on standard input",
        arguments: &[HASH, NONCE],
    },
    Subcommand {
        name: "prove",
        about: "Prints the path of an index among the items on standard input",
        arguments: &[
            Argument {
                name: "index",
                value: "HEX",
                help: "The index, 64 hexadecimal digits",
                kind: Kind::Required,
            },
            HASH,
            NONCE,
        ],
    },
    Subcommand {
        name: "audit",
        about: "Audits the signed roots on standard input",
        arguments: &[KEY],
    },
    Subcommand {
        name: "judge",
        about: "Says whether a file is evidence against a provider",
        arguments: &[
            KEY,
            Argument {
                name: "file",
                value: "FILE",
                help: "The file of evidence",
                kind: Kind::Positional,
            },
        ],
    },
    Subcommand {
        name: "play",
        about: "Plays the script on standard input",
        arguments: &[],
    },
    Subcommand {
        name: "serve",
        about: "Answers one session on standard input and output",
        arguments: &[
            SIGN_KEY, VUF_KEY, SALT_KEY, TOKEN, KEYS, EPOCH, NONCE, JOURNAL,
        ],
    },
    Subcommand {
        name: "listen",
        about: "Answers connections, many at once",
        arguments: &[
            SIGN_KEY,
            VUF_KEY,
            SALT_KEY,
            TOKEN,
            KEYS,
            EPOCH,
            NONCE,
            JOURNAL,
            Argument {
                name: "count",
                value: "N",
                help: "How many connections are answered; 0 for no end",
                kind: Kind::Number(0, u64::MAX, "0"),
            },
            Argument {
                name: "sessions",
                value: "N",
                help: "How many connections are open at once, 1 to 1024",
                kind: Kind::Number(1, MOST_SESSIONS, "1000"),
            },
            Argument {
                name: "idle",
                value: "SECONDS",
                help: "After how many idle seconds a connection is closed; 0 for never",
                kind: Kind::Number(0, u64::MAX, "60"),
            },
            Argument {
                name: "report",
                value: "SECONDS",
                help: "Every how many seconds a report is written to standard error; 0 for never",
                kind: Kind::Number(0, u64::MAX, "0"),
            },
            Argument {
                name: "until-eof",
                value: "",
                help: "Take the end of standard input as an order to stop",
                kind: Kind::Flag,
            },
            Argument {
                name: "address",
                value: "ADDR",
                help: "The address to listen on, such as 127.0.0.1:7000",
                kind: Kind::Positional,
            },
        ],
    },
    Subcommand {
        name: "ask",
        about: "Asks a directory that listens, and checks its replies",
        arguments: &[
            Argument {
                name: "provider",
                value: "FILE",
                help: "The file of the provider's public keys, which everybody may read",
                kind: Kind::Text,
            },
            Argument {
                name: "token",
                value: "HEX",
                help: "The token of the operator, 64 hexadecimal digits; 64 zeros if not given",
                kind: Kind::Text,
            },
            KEYS,
            Argument {
                name: "state",
                value: "FILE",
                help: "The file of the client's chain; not kept if not given",
                kind: Kind::Text,
            },
            Argument {
                name: "text",
                value: "",
                help: "Take NAME of the words as text, such as alice",
                kind: Kind::Flag,
            },
            Argument {
                name: "after",
                value: "EPOCH",
                help: "Tell with status 3 if no later epoch is known, of the name of `watch` or `watch2`, or of `head`",
                kind: Kind::Optional(0, u64::MAX),
            },
            Argument {
                name: "address",
                value: "ADDR",
                help: "The address of the directory",
                kind: Kind::Positional,
            },
            Argument {
                name: "command",
                value: "COMMAND",
                help: "What is asked",
                kind: Kind::Word,
            },
            Argument {
                name: "first",
                value: "WORD",
                help: "Its first word",
                kind: Kind::Word,
            },
            Argument {
                name: "second",
                value: "WORD",
                help: "Its second word",
                kind: Kind::Word,
            },
            Argument {
                name: "third",
                value: "WORD",
                help: "Its third word",
                kind: Kind::Word,
            },
        ],
    },
];
