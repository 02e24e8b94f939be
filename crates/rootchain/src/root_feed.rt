//! A list of roots in pieces. Where nothing is held, a root that is whole in a piece is read where it lies.
//! Else the bytes of the next root are held: first up to the length of its signature, and then up to its
//! end. A root that is whole is returned, and the held bytes are dropped. If its signature is too long, its bytes
//! are only counted, up to its end. Bytes that no list has there, and bytes after the last root, end the feed.
//! A piece that is too short for any of this is only held: that is quick, since it makes no room for a root.
ghost use Rattle.std.specs.Prelude.{◌≡◌, ◌⊎◌, ◌↔◌, ◌+◌, ◌<◌, ◌≤◌, ◌++◌, [], length, IsTrue};
ghost use Rattle.encoding.specs.Reading.{Gives};
ghost use Rattle.rootchain.specs.FeedViews.{held_of, HasSpelledRoot, IsFront, TakesPart, TellsNext, TellsPassed};
ghost use Rattle.rootchain.specs.RootFeeds.{front, held_bytes, least_len, owed_by, read_signature_len, Counts, Done, Failed, MayBeHeld, Owes, Part};
ghost use Rattle.rootchain.specs.declared.signed_root.TheConstants.{MAX_SIGNED_ROOT_LEN};

use crate::SignedRoot;
use crate::body::BODY_LEN;
use crate::root_list::{COUNT_LEN, MAX_ROOTS, read_count};
use crate::signed_root::{FIXED_LEN, SignedRootText};
use encoding::{Cursor, Fault, Form, MAX_SMALL_LEN};
use std::marker::Model;

/// What a feed has next.
#[derive(Debug, Drop)]
pub(crate) enum Next<'a> {
    /// A whole root, and the bytes of the piece that are left.
    Root(SignedRoot, &'a [u8]),
    /// Less than a root.
    Wait,
    /// Bytes that no list has there.
    Failed,
}

/// What comes next in a list.
#[derive(Clone, Copy, Debug)]
enum Stage {
    /// The number of roots.
    Count,
    /// So many roots.
    Roots(usize),
    /// So many roots, and of the first, whose signature is too long, so many bytes that are missing.
    Overlong { left: usize, missing: usize },
    /// Nothing more: bytes came that no list has there, or a root was refused.
    Failed,
}

/// A list of signed roots whose bytes come in pieces, cut anywhere. It holds the bytes of the next root,
/// at most 404, and takes no memory from the heap.
#[derive(Debug, Drop)]
pub struct RootFeed {
    stage: Stage,
    held: SignedRootText,
}

impl Model for RootFeed {
    ghost use Rattle.rootchain.specs.FeedViews.{held_of};
    ghost use Rattle.rootchain.specs.RootFeeds.{FeedState, MayBeHeld};

    ghost Value = { FeedState };

    ghost view = { λ feed. held_of feed.stage feed.held };

    ghost invariant = { λ feed. MayBeHeld (held_of feed.stage feed.held) };
}

impl RootFeed {
    /// A list of which nothing has come.
    pub fn new() -> RootFeed
        ensures { result ≡ Counts [] }
    {
        RootFeed {
            stage: Stage::Count,
            held: SignedRootText::new(),
        }
    }

    /// Whether the list has come whole, and nothing after it.
    // Clause `held` stands here, since callers learn what holds of each feed from a call alone.
    pub fn done(&self) -> bool
        ensures done { IsTrue result ↔ (self.now ≡ Done) }
        ensures held { length (held_bytes self.now) ≤ MAX_SIGNED_ROOT_LEN }
    {
        matches!(self.stage, Stage::Roots(0))
    }

    /// Whether bytes came that no list has there, or a root was refused.
    pub(crate) fn has_failed(&self) -> bool
        ensures { IsTrue result ↔ (self.now ≡ Failed) }
    {
        matches!(self.stage, Stage::Failed)
    }

    /// The most roots that are still to come.
    pub(crate) fn owed(&self) -> usize
        ensures { result ≡ owed_by self.now }
    {
        match self.stage {
            Stage::Count => MAX_ROOTS,
            Stage::Roots(left) => left,
            Stage::Overlong { left, .. } => left,
            Stage::Failed => 0,
        }
    }

    /// Takes no more pieces from here on.
    pub(crate) fn fail(&mut self)
        ensures { self.new ≡ Failed }
    {
        self.stage = Stage::Failed;
    }

    /// A copy of the feed.
    pub(crate) fn copied(&self) -> RootFeed
        ensures { result ≡ self.now }
    {
        let mut held = SignedRootText::new();
        held.push_slice(self.held.bytes());
        RootFeed {
            stage: self.stage,
            held,
        }
    }

    /// Takes the piece where it is too short to make a root whole, and returns whether it took it. A piece
    /// with the end of the number of roots, or of the length of a signature, is left to `next`.
    #[inline(always)]
    pub(crate) fn take_part(&mut self, piece: &[u8]) -> bool
        ensures { TakesPart self.old piece.now result self.new }
    {
        add_part(self.stage, &mut self.held, piece)
    }

    /// Takes the first root that the piece makes whole. If there is none, the feed takes the piece.
    pub(crate) fn next<'a>(&mut self, piece: &'a [u8]) -> Next<'a>
        ensures tells { TellsNext self.old piece.entry.now result self.new }
        ensures form { HasSpelledRoot result }
    {
        advance(&mut self.stage, &mut self.held, piece)
    }
}

/// `RootFeed::take_part` on the fields of a feed.
#[inline(always)]
fn add_part(stage: Stage, held: &mut SignedRootText, piece: &[u8]) -> bool
    requires { MayBeHeld (held_of stage held.old) }
    ensures part { TakesPart (held_of stage held.old) piece.now result (held_of stage held.new) }
    ensures held { MayBeHeld (held_of stage held.new) }
{
    let missing = least_len(stage, held.bytes()).saturating_sub(held.bytes().len());
    if missing <= piece.len() {
        return false;
    }
    // Storing one byte is faster than copying a slice.
    match piece {
        [byte] => held.push(*byte),
        _ => held.push_slice(piece),
    }
    true
}

/// How many bytes there are at least once the number of roots, or the first root, is whole; 0 where no bytes are
/// to be held.
fn least_len(stage: Stage, held: &[u8]) -> usize
    requires { MayBeHeld (held_of stage held.now) }
    ensures { result ≡ least_len (held_of stage held.now) }
{
    match stage {
        Stage::Count => COUNT_LEN,
        Stage::Roots(0) => 0,
        Stage::Roots(_) => match read_signature_len(&mut Cursor::new(held)) {
            Ok(signature_len) => FIXED_LEN + signature_len,
            Err(_) => FIXED_LEN,
        },
        Stage::Overlong { .. } => 0,
        Stage::Failed => 0,
    }
}

/// `RootFeed::next` on the fields of a feed.
fn advance<'a>(stage: &mut Stage, held: &mut SignedRootText, piece: &'a [u8]) -> Next<'a>
    requires { MayBeHeld (held_of stage.old held.old) }
    ensures tells { TellsNext (held_of stage.old held.old) piece.entry.now result (held_of stage.new held.new) }
    ensures held { MayBeHeld (held_of stage.new held.new) }
    ensures form { HasSpelledRoot result }
{
    match *stage {
        Stage::Failed => Next::Failed,
        Stage::Roots(left) => next_of(stage, left, held, piece),
        Stage::Overlong { left, missing } => pass(stage, left, missing, piece),
        Stage::Count => {
            let rest = fill(held, COUNT_LEN, piece);
            match read_count(&mut Cursor::new(held.bytes())) {
                Ok(count) => {
                    *held = SignedRootText::new();
                    next_of(stage, count, held, rest)
                }
                Err(Fault::Short) => Next::Wait,
                Err(_) => {
                    *stage = Stage::Failed;
                    Next::Failed
                }
            }
        }
    }
}

/// The next of so many roots that are still to come. Holds what is less than a root.
fn next_of<'a>(
    stage: &mut Stage,
    left: usize,
    held: &mut SignedRootText,
    piece: &'a [u8],
) -> Next<'a>
    requires { MayBeHeld (Owes left held.old) }
    ensures tells { TellsNext (Owes left held.old) piece.entry.now result (held_of stage.new held.new) }
    ensures held { MayBeHeld (held_of stage.new held.new) }
    ensures form { HasSpelledRoot result }
{
    if left == 0 {
        if piece.is_empty() {
            *stage = Stage::Roots(0);
            return Next::Wait;
        }
        *stage = Stage::Failed;
        return Next::Failed;
    }
    // A piece of at most `FIXED_LEN` bytes has no whole root, since a signature has at least one byte.
    if held.bytes().is_empty() && FIXED_LEN < piece.len() {
        if let Ok(root) = SignedRoot::read_from(&mut Cursor::new(piece)) {
            let rest = piece.split_at(root.written_len()).1;
            *stage = Stage::Roots(left - 1);
            return Next::Root(root, rest);
        }
    }
    first_held(stage, left, held, piece)
}

/// The first of so many roots, by way of the bytes that are held.
fn first_held<'a>(
    stage: &mut Stage,
    left: usize,
    held: &mut SignedRootText,
    piece: &'a [u8],
) -> Next<'a>
    requires some { 0 < left }
    requires held { front held.old ≡ Part }
    ensures front { IsFront left (held.old ++ piece.entry.now) result (held_of stage.new held.new) }
    ensures form { HasSpelledRoot result }
{
    *stage = Stage::Roots(left);
    let rest = fill(held, FIXED_LEN, piece);
    let Ok(signature_len) = read_signature_len(&mut Cursor::new(held.bytes())) else {
        return Next::Wait;
    };
    if MAX_SMALL_LEN < signature_len {
        *held = SignedRootText::new();
        return pass(stage, left, signature_len, rest);
    }
    let len = FIXED_LEN + signature_len;
    let rest = fill(held, len, rest);
    if held.bytes().len() < len {
        return Next::Wait;
    }
    match SignedRoot::read_whole(held.bytes()) {
        Ok(root) => {
            *held = SignedRootText::new();
            *stage = Stage::Roots(left - 1);
            Next::Root(root, rest)
        }
        Err(_) => {
            *stage = Stage::Failed;
            Next::Failed
        }
    }
}

/// Passes over so many bytes of a root whose signature is too long. Once all have come, the feed fails.
fn pass<'a>(stage: &mut Stage, left: usize, missing: usize, piece: &'a [u8]) -> Next<'a>
    ensures tells { TellsPassed left missing piece.entry.now result stage.new }
    ensures form { HasSpelledRoot result }
{
    if piece.len() < missing {
        *stage = Stage::Overlong {
            left,
            missing: missing - piece.len(),
        };
        return Next::Wait;
    }
    *stage = Stage::Failed;
    Next::Failed
}

/// The length of the signature of the root at the front of bytes.
#[tactic(auto, unfolding(crate::specs::RootFeeds::read_signature_len))]
fn read_signature_len(cursor: &mut Cursor<'_>) -> Result<usize, Fault>
    ensures { Gives (λ len. len) result cursor.new (read_signature_len cursor.old) }
{
    cursor.take(BODY_LEN)?;
    Ok(usize::from(cursor.u16()?))
}

/// Moves bytes of the piece to those that are held until these are so many, and returns what is left.
fn fill<'a>(held: &mut SignedRootText, len: usize, piece: &'a [u8]) -> &'a [u8]
    requires { len ≤ MAX_SIGNED_ROOT_LEN }
    ensures joined { held.new ++ result.now ≡ held.old ++ piece.entry.now }
    ensures full { (len ≤ length held.new) ⊎ (result.now ≡ []) }
    ensures most { length held.old ≤ len → length held.new ≤ len }
    ensures stays { len ≤ length held.old → held.new ≡ held.old }
{
    let missing = len.saturating_sub(held.bytes().len());
    let (front, rest) = piece.split_at(missing.min(piece.len()));
    held.push_slice(front);
    rest
}
