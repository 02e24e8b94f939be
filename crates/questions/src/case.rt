ghost use Rattle.std.specs.Prelude.{◌≤◌};

use crate::word::{Word, number};
use encoding::{BoundKey, Hash32, Index, KeyData, Name, Policy, Small};
use sha2::{Digest, Sha256};
use std::alloc::Global;
use std::fmt::Display;
use std::io::Write;

/// The most bytes that are told in digits. Of more, the length and the digest are told.
const SHORT_BYTES: usize = 80;

/// The most bytes of a text that is told as it is.
const SHORT_TEXT: usize = 400;

/// What is wrong with a case. It is told at the end of the line, so that no verb has to pass it on.
#[derive(Clone, Copy, Debug, PartialEq, Eq)]
enum Trouble {
    Nothing,
    BadQuestion,
    OutOfMemory,
}

/// A question and its answer. Where an argument is not there or not of its form, some other value
/// stands for it, and the answer is `bad question`.
#[derive(Drop)]
pub struct Case<'a> {
    alloc: Global,
    words: &'a [Word<'a>],
    next: usize,
    answer: Vec<u8>,
    trouble: Trouble,
}

impl<'a> Case<'a> {
    /// A case of these words, whose answer takes this room.
    pub(crate) fn new(alloc: Global, words: &'a [Word<'a>], room: Vec<u8>) -> Self {
        Case {
            alloc,
            words,
            next: 0,
            answer: room,
            trouble: Trouble::Nothing,
        }
    }

    /// The allocator of the program.
    pub fn alloc(&self) -> Global {
        self.alloc
    }

    pub(crate) fn into_room(self) -> Vec<u8> {
        self.answer
    }

    /// Begins at the first word, with no answer.
    pub(crate) fn begin(&mut self) {
        self.next = 0;
        self.answer.clear();
        self.trouble = Trouble::Nothing;
    }

    /// Whether the first word is this one.
    pub(crate) fn begins_with(&self, word: &[u8]) -> bool {
        match self.words.first() {
            Some(first) => first.text == word,
            None => false,
        }
    }

    /// Whether a call of this question lacked memory.
    pub fn lacks_memory(&self) -> bool {
        self.trouble == Trouble::OutOfMemory
    }

    /// Whether an argument was not there or not of its form.
    pub fn is_spoiled(&self) -> bool {
        self.trouble == Trouble::BadQuestion
    }

    /// A call lacked memory. The question is tried again.
    pub fn lack_memory(&mut self) {
        self.trouble = Trouble::OutOfMemory;
    }

    /// The question has no answer.
    pub fn spoil(&mut self) {
        if self.trouble == Trouble::Nothing {
            self.trouble = Trouble::BadQuestion;
        }
    }

    /// The line of the answer.
    pub(crate) fn line(&mut self) -> &[u8] {
        if self.trouble == Trouble::BadQuestion {
            self.answer.clear();
            self.say("bad question");
        }
        self.push(b"\n");
        self.answer.as_slice()
    }

    /// How many words are left.
    pub fn left(&self) -> usize {
        self.words.len().saturating_sub(self.next)
    }

    fn take(&mut self) -> Option<&'a Word<'a>> {
        let place = self.next;
        self.next = place.saturating_add(1);
        self.words.get(place)
    }

    /// The next word as it stands.
    pub fn word(&mut self) -> &'a [u8] {
        match self.take() {
            Some(word) => word.text,
            None => &[],
        }
    }

    /// The next word's bytes.
    pub fn bytes(&mut self) -> &'a [u8] {
        match self.take() {
            Some(
                Word {
                    bytes: Some(bytes),
                    ..
                },
            ) => bytes.as_slice(),
            _ => {
                self.spoil();
                &[]
            }
        }
    }

    /// The next word's bytes, or `None` if the word is `none`.
    pub fn option(&mut self) -> Option<&'a [u8]> {
        match self.words.get(self.next) {
            Some(word) if word.text == b"none".as_slice() => {
                self.next = self.next.saturating_add(1);
                None
            }
            _ => Some(self.bytes()),
        }
    }

    fn text_of(&mut self, bytes: &'a [u8]) -> &'a str {
        match str::from_utf8(bytes) {
            Ok(text) => text,
            Err(_) => {
                self.spoil();
                ""
            }
        }
    }

    /// The next word's bytes, as a text.
    pub fn text(&mut self) -> &'a str {
        let bytes = self.bytes();
        self.text_of(bytes)
    }

    /// The next word's bytes, as a text, or `None` if the word is `none`.
    pub fn option_text(&mut self) -> Option<&'a str> {
        match self.option() {
            Some(bytes) => Some(self.text_of(bytes)),
            None => None,
        }
    }

    /// The next word's number.
    pub fn number(&mut self) -> u64 {
        match number(self.word()) {
            Some(number) => number,
            None => {
                self.spoil();
                0
            }
        }
    }

    /// The next word's number, which is at most this.
    pub fn number_to(&mut self, most: usize) -> usize
        ensures { result ≤ most }
    {
        let number = self.number() as usize;
        if number <= most {
            return number;
        }
        self.spoil();
        most
    }

    fn array(&mut self) -> [u8; 32] {
        match self.bytes().try_into() {
            Ok(bytes) => bytes,
            Err(_) => {
                self.spoil();
                [0; 32]
            }
        }
    }

    /// The next word's 32 bytes, as a hash.
    pub fn hash(&mut self) -> Hash32 {
        Hash32::new(self.array())
    }

    /// The next word's 32 bytes, as an index.
    pub fn index(&mut self) -> Index {
        Index::new(self.array())
    }

    /// The next word's bytes, as a name.
    pub fn name(&mut self) -> Name {
        match Name::new(self.bytes()) {
            Ok(name) => name,
            Err(_) => {
                self.spoil();
                some_name()
            }
        }
    }

    /// The next word's bytes, as a key.
    pub fn key(&mut self) -> KeyData {
        match KeyData::new(self.bytes()) {
            Ok(key) => key,
            Err(_) => {
                self.spoil();
                some_key()
            }
        }
    }

    /// The next word, the name of a policy.
    pub fn policy(&mut self) -> Policy {
        match Policy::of_word(self.word()) {
            Some(policy) => policy,
            None => {
                self.spoil();
                Policy::Open
            }
        }
    }

    /// The next word's bytes, as a key; the word behind it is its policy, if it has one.
    pub fn bound_key(&mut self, has_policy: bool) -> BoundKey {
        let value = self.key();
        let policy = if has_policy {
            Some(self.policy())
        } else {
            None
        };
        BoundKey { value, policy }
    }

    /// The next word's bytes, as a small value.
    pub fn small(&mut self) -> Small {
        match Small::new(self.bytes()) {
            Ok(small) => small,
            Err(_) => {
                self.spoil();
                some_small()
            }
        }
    }

    fn push(&mut self, bytes: &[u8]) {
        if self.answer.extend_from_slice(bytes).is_err() {
            self.lack_memory();
        }
    }

    /// Begins the next word of the answer.
    fn push_gap(&mut self) {
        if !self.answer.is_empty() {
            self.push(b" ");
        }
    }

    /// A word of the answer.
    pub fn say(&mut self, word: &str) {
        self.push_gap();
        self.push(word.as_bytes());
    }

    /// Text that goes on with the last word of the answer.
    pub fn join(&mut self, text: &str) {
        self.push(text.as_bytes());
    }

    /// Lines, of which the answer then consists.
    pub fn say_lines(&mut self, lines: &[u8]) {
        match lines {
            [before @ .., b'\n'] => self.push(before),
            _ => self.push(lines),
        }
    }

    /// What prints as words of the answer, such as a number or a refusal.
    pub fn say_shown<T: Display + Drop>(&mut self, shown: T) {
        self.push_gap();
        self.join_shown(shown);
    }

    fn join_shown<T: Display + Drop>(&mut self, shown: T) {
        if write!(&mut self.answer, "{shown}").is_err() {
            self.lack_memory();
        }
    }

    /// The number of a refusal, and what it prints.
    pub fn refuse<T: Display + Drop>(&mut self, number: u8, why: T) {
        self.say("refused");
        self.say_shown(number);
        self.say_shown(why);
    }

    fn push_digits(&mut self, bytes: &[u8]) {
        for byte in bytes {
            let mut digits = [0; 2];
            let fits = hex::encode_to_slice(&[*byte], &mut digits).is_ok();
            prove!(fits);
            self.push(&digits);
        }
    }

    /// The length and the digest of bytes.
    fn join_digest(&mut self, bytes: &[u8]) {
        self.join_shown(bytes.len());
        self.push(b"/");
        self.push_digits(&Sha256::digest(bytes));
    }

    /// Bytes in digits, or their length and digest, in the same word.
    pub fn join_bytes(&mut self, bytes: &[u8]) {
        if bytes.len() > SHORT_BYTES {
            return self.join_digest(bytes);
        }
        if bytes.is_empty() {
            return self.push(b"-");
        }
        self.push_digits(bytes);
    }

    /// Bytes in digits, or their length and digest.
    pub fn say_bytes(&mut self, bytes: &[u8]) {
        self.push_gap();
        self.join_bytes(bytes);
    }

    /// A text that a program printed, with `|` for each LF, or its length and digest.
    pub fn say_text(&mut self, text: &[u8]) {
        self.push_gap();
        if text.len() > SHORT_TEXT {
            return self.join_digest(text);
        }
        if text.is_empty() {
            return self.push(b"-");
        }
        for byte in text {
            self.push(&[if *byte == b'\n' { b'|' } else { *byte }]);
        }
    }

    /// Yes or no.
    pub fn say_truth(&mut self, truth: bool) {
        self.say(if truth { "yes" } else { "no" });
    }
}

fn some_name() -> Name {
    let Ok(name) = Name::new(b"?") else {
        unreachable!()
    };
    name
}

fn some_key() -> KeyData {
    let Ok(key) = KeyData::new(b"?") else {
        unreachable!()
    };
    key
}

fn some_small() -> Small {
    let Ok(small) = Small::new(b"?") else {
        unreachable!()
    };
    small
}
