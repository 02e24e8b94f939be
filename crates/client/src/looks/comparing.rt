//! Looks of two clients compared. Looks of one name and epoch stand beside each other, so for each look of
//! the one client only those of the other that it is compared with are read. They are found from the look's
//! own place, without copying a name.
ghost use Rattle.std.specs.Prelude.{◌≡◌, ◌↔◌, ◌<◌, IsTrue, IsSomeAnd, MatchOption};
ghost use Rattle.client.specs.Agreements.{AllState, AllStateBelow, AreBeside, AreFirstUnlike, IsFirstOther, LooksAgree, SpellsOne};
ghost use Rattle.client.specs.Clients.{Look};
ghost use Rattle.std.specs.List.{AllByRecursion};
ghost use Rattle.proofs.specs.Accepts.{stated};
ghost use Rattle.proofs.specs.Replies.{Reply, SpellsReply};
ghost use Rattle.proofs.specs.Views.{key_stated};

use super::{LookPlace, Looks};
use proofs::{ReplyView, Statement};
use std::rc::Rc;

/// Two looks for one name and epoch whose replies state two things.
#[derive(Drop)]
pub(crate) struct Unlike<'a> {
    /// How many looks the first client accepted before this one.
    number: usize,
    pub(crate) name: &'a [u8],
    pub(crate) one: &'a [u8],
    pub(crate) other: &'a [u8],
}

/// What a reply states that was accepted.
pub(crate) fn statement(reply: &[u8]) -> Statement<'_>
    requires { SpellsOne reply.now }
    ensures { (read : Reply) → SpellsReply reply.entry.now read → key_stated result ≡ stated read.end }
{
    let Ok(view) = ReplyView::read(reply) else {
        unreachable!()
    };
    view.statement()
}

/// The bytes of a reply.
fn bytes(reply: &Rc<Vec<u8>>) -> &[u8]
    ensures { result.now ≡ reply.entry.now.value.items }
{
    reply.as_slice()
}

/// Whether an accepted reply states this.
fn states(reply: &[u8], told: &Statement<'_>) -> bool
    requires { SpellsOne reply.now }
    ensures { (read : Reply) → SpellsReply reply.entry.now read → IsTrue result ↔ (stated read.end ≡ key_stated told.entry.now) }
{
    statement(reply) == *told
}

impl LookPlace {
    /// Whether the other place is one for the same name and epoch.
    fn is_beside(&self, other: &LookPlace) -> bool
        ensures { IsTrue result ↔ AreBeside self.now other.now }
    {
        self.asked == other.asked
    }
}

impl Looks {
    /// The reply of the first look for the name and epoch of a place that does not state this.
    ///
    /// The place may be that of another client's look. The looks for its name and epoch lie just below and
    /// above where it would stand here.
    fn first_other<'a>(&'a self, place: &LookPlace, told: &Statement<'_>) -> Option<&'a [u8]>
        requires { AllByRecursion (λ look. SpellsOne look.reply) self.now }
        ensures { MatchOption result
            (AllState self.entry.now place.entry.now.asked.name.items place.entry.now.asked.epoch (key_stated told.entry.now))
            (λ reply. IsFirstOther self.entry.now place.entry.now.asked.name.items place.entry.now.asked.epoch (key_stated told.entry.now) reply.now) }
    {
        match self.first_other_below(place, told) {
            Some(reply) => Some(reply),
            None => self.first_other_above(place, told),
        }
    }

    /// The same, among the looks below the place.
    fn first_other_below<'a>(&'a self, place: &LookPlace, told: &Statement<'_>) -> Option<&'a [u8]>
        requires { AllByRecursion (λ look. SpellsOne look.reply) self.now }
        ensures { MatchOption result
            (AllStateBelow self.entry.now place.entry.now.asked.name.items place.entry.now.asked.epoch (key_stated told.entry.now) place.entry.now.number)
            (λ reply. IsFirstOther self.entry.now place.entry.now.asked.name.items place.entry.now.asked.epoch (key_stated told.entry.now) reply.now) }
    {
        let mut found: Option<&'a [u8]> = None;
        for (other, reply) in self.replies.range(..place).rev() {
            if !place.is_beside(other) {
                return found;
            }
            if !states(bytes(reply), told) {
                found = Some(bytes(reply));
            }
        }
        found
    }

    /// The same, if those below the place state this.
    fn first_other_above<'a>(&'a self, place: &LookPlace, told: &Statement<'_>) -> Option<&'a [u8]>
        requires ones { AllByRecursion (λ look. SpellsOne look.reply) self.now }
        requires below { AllStateBelow self.now place.now.asked.name.items place.now.asked.epoch (key_stated told.now) place.now.number }
        ensures { MatchOption result
            (AllState self.entry.now place.entry.now.asked.name.items place.entry.now.asked.epoch (key_stated told.entry.now))
            (λ reply. IsFirstOther self.entry.now place.entry.now.asked.name.items place.entry.now.asked.epoch (key_stated told.entry.now) reply.now) }
    {
        for (other, reply) in self.replies.range(place..) {
            if !place.is_beside(other) {
                return None;
            }
            if !states(bytes(reply), told) {
                return Some(bytes(reply));
            }
        }
        None
    }

    /// The first two looks for one name and epoch whose replies state two things.
    pub(crate) fn first_unlike<'a>(&'a self, others: &'a Looks) -> Option<Unlike<'a>>
        requires ones { AllByRecursion (λ look. SpellsOne look.reply) self.now }
        requires others { AllByRecursion (λ look. SpellsOne look.reply) others.now }
        ensures { MatchOption result
            (LooksAgree self.entry.now others.entry.now)
            (λ unlike. (look also : Look) × AreFirstUnlike self.entry.now others.entry.now look also
            × (unlike.name.now ≡ look.name) × (unlike.one.now ≡ look.reply) × (unlike.other.now ≡ also.reply)) }
    {
        let mut found: Option<Unlike<'a>> = None;
        for (place, reply) in self.replies.iter() {
            if is_before(&found, place.number) {
                continue;
            }
            let Some(other) = others.first_other(place, &statement(bytes(reply))) else {
                continue;
            };
            found = Some(Unlike {
                number: place.number,
                name: &place.asked.name,
                one: bytes(reply),
                other,
            });
        }
        found
    }
}

/// Whether a look was found that was accepted before the one of this number.
fn is_before(found: &Option<Unlike<'_>>, number: usize) -> bool
    ensures { IsTrue result ↔ IsSomeAnd found.entry.now (λ unlike. unlike.number < number) }
{
    match found {
        Some(unlike) => unlike.number < number,
        None => false,
    }
}
