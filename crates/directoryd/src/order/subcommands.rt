use audits::{AuditOrder, JudgeOrder};
use items::{ProveOrder, RootOrder};
use runs::AskOrder;
use server::{DirectoryOrder, ListenOrder};

/// What a command line orders.
#[derive(Debug, Drop)]
pub enum Order<'a> {
    Root(RootOrder<'a>),
    Prove(ProveOrder<'a>),
    Audit(AuditOrder<'a>),
    Judge(JudgeOrder<'a>),
    /// The script on standard input.
    Play,
    /// A directory for one session. A key that is not given stands in the file of this path.
    Serve(DirectoryOrder<'a>, Option<&'a str>),
    /// One for connections, and the file of its keys.
    Listen(ListenOrder<'a>, Option<&'a str>),
    /// Questions to a directory that listens, and from where their texts come.
    Ask(AskOrder<'a>, AskTexts<'a>),
}

/// From where the texts of questions come.
#[derive(Clone, Copy, Debug)]
pub struct AskTexts<'a> {
    /// The path of the file of the provider's public keys.
    pub provider: Option<&'a str>,
    /// The path of a file of keys of which some are secret.
    pub keys: Option<&'a str>,
    /// Whether the name among the words is text, and not in hexadecimal digits.
    pub is_text: bool,
}
