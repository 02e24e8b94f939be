ghost use Rattle.std.specs.Prelude.{◌≡◌, ◌++◌, [], OnErr, OnOk};
ghost use Rattle.asking.specs.Refused.{other_reply, refuses_text};
ghost use Rattle.asking.specs.Reports.{refused, report_of, worse, Tells};

use encoding::Name;
use play::{push_hex, push_number};
use std::alloc::{AllocError, Global};

/// The status of a run in which nothing can be said of something: the directory or the client refused, or no reply came.
pub const REFUSED: u8 = 1;

/// The status of a run in which the provider is caught, by evidence or a broken promise, or a name is not as its owner
/// expects.
pub const CAUGHT: u8 = 3;

/// The number of the refusal of a reply that does not answer what was asked.
const OTHER_REPLY: u8 = 25;

/// The number of the refusal of a promise whose name has another index than it says.
pub(crate) const OTHER_INDEX: u8 = 26;

/// What is said to a line.
#[derive(Drop)]
pub struct Said {
    /// The lines for the output.
    pub text: Vec<u8>,
    /// The words of refusals, for the errors.
    pub words: Vec<u8>,
    /// The status so far.
    pub status: u8,
}

impl Said {
    /// Nothing.
    pub fn new(alloc: Global) -> Said
        ensures text { result.text.items ≡ [] }
        ensures status { result.status ≡ 0 }
    {
        Said {
            text: Vec::new(alloc),
            words: Vec::new(alloc),
            status: 0,
        }
    }

    /// Raises the status to this one.
    pub fn raise(&mut self, status: u8)
        ensures text { (self.new).text ≡ (self.old).text }
        ensures words { (self.new).words ≡ (self.old).words }
        ensures status { (self.new).status ≡ worse (self.old).status status }
    {
        if self.status < status {
            self.status = status;
        }
    }

    /// Says behind it what another one says: all of its lines, or none.
    pub fn join(&mut self, other: Said) -> Result<(), AllocError>
        ensures tells { OnOk result (Tells self.old (report_of other) self.new) }
        ensures untold { OnErr result (report_of self.new ≡ report_of self.old) }
    {
        self.words.extend_from_slice(&other.words)?;
        self.text.extend_from_slice(&other.text)?;
        self.raise(other.status);
        Ok(())
    }

    /// Tells that the client refuses something, by the number of the refusal: a `root`, a `promise`, a `proof` or
    /// a `reply`.
    pub(crate) fn refuse(&mut self, what: &[u8], number: u8, words: &[u8]) -> Result<(), AllocError>
        ensures { OnOk result (Tells self.old (refused (refuses_text what.now number)) self.new) }
    {
        push_refusal(&mut self.text, what, number)?;
        self.text.push(b'\n')?;
        push_refusal(&mut self.words, what, number)?;
        self.explain(words)?;
        self.raise(REFUSED);
        Ok(())
    }

    /// Begins a line of the errors with a name and what is done for it.
    pub(crate) fn begin(&mut self, what: &[u8], name: &Name) -> Result<(), AllocError>
        ensures text { OnOk result ((self.new).text ≡ (self.old).text) }
        ensures status { OnOk result ((self.new).status ≡ (self.old).status) }
    {
        self.words.extend_from_slice(what)?;
        push_hex(&mut self.words, name.bytes())
    }

    /// Tells that a reply does not answer what was asked.
    pub(crate) fn refuse_other(&mut self) -> Result<(), AllocError>
        ensures { OnOk result (Tells self.old other_reply self.new) }
    {
        self.refuse(
            b"client refuses reply",
            OTHER_REPLY,
            b"the reply is not to what was asked",
        )
    }

    /// Ends a line of the errors by these words.
    pub(crate) fn explain(&mut self, words: &[u8]) -> Result<(), AllocError>
        ensures text { (self.new).text ≡ (self.old).text }
        ensures status { (self.new).status ≡ (self.old).status }
    {
        self.words.extend_from_slice(b": ")?;
        self.words.extend_from_slice(words)?;
        self.words.extend_from_slice(b"\n")
    }
}

fn push_refusal(text: &mut Vec<u8>, what: &[u8], number: u8) -> Result<(), AllocError>
    ensures { OnOk result (text.new.items ≡ text.old.items ++ refuses_text what.now number) }
{
    text.extend_from_slice(what)?;
    text.extend_from_slice(b" ")?;
    push_number(text, u64::from(number))
}

/// The words for a refusal of the directory.
pub(crate) fn directory_words(code: u8) -> &'static [u8] {
    match code {
        1 => b"the stream had a length that no frame has",
        2 => b"no message is of this kind",
        3 => b"the body is not of the form of its kind",
        4 => b"the name has no byte, or more than 255",
        5 => b"the key has no byte, or more than 2,048",
        6 => b"the latest epoch has the name",
        7 => b"the latest epoch lacks the name",
        8 => b"an operation on the name waits for the next epoch",
        9 => b"another name has the index of this one",
        10 => b"there is no such epoch",
        11 => b"the epoch is not above the latest",
        12 => b"the token is not the operator's",
        13 => b"no operation on the name waits",
        14 => b"out of memory",
        15 => b"no root is asked for, or more than 64",
        19 => b"the record was not kept",
        25 => b"the binding of the name in the latest epoch is final",
        26 => b"the policy is neither open nor final",
        _ => b"no reason is known by this number",
    }
}
