// Lists that lose what is no longer needed.

ghost use Rattle.std.specs.Prelude.{◌≡◌, ◌≢◌, ◌↔◌, ◌+◌, map, length, All, Any, IsTrue};
ghost use Rattle.memory.specs.Leaving.{IsNeeded};
ghost use Rattle.memory.specs.Watching.{IsAwaited};
ghost use Rattle.memory.specs.Lists.{HasNoRepeat, IsLeft};
ghost use Rattle.memory.specs.Memories.{signed_of};

use crate::{Alarm, Mark, Promised, is_awaited};
use encoding::Name;
use rootchain::SignedPromise;

pub(crate) fn drop_alarms(alarms: &mut Vec<Alarm>, name: &Name) -> usize
    ensures left { IsLeft (λ alarm. alarm.name ≢ name.now) alarms.old.items alarms.new.items }
    ensures counted { result + length alarms.new.items ≡ length alarms.old.items }
    ensures once { HasNoRepeat alarms.old.items → HasNoRepeat alarms.new.items }
{
    let before = alarms.len();
    alarms.retain(|alarm| alarm.name != *name);
    before - alarms.len()
}

pub(crate) fn leave_promises(promises: &mut Vec<Promised>, marks: &[Mark], tested: &[SignedPromise])
    ensures left { IsLeft (IsNeeded tested.now marks.now) promises.old.items promises.new.items }
    ensures once { HasNoRepeat (map signed_of promises.old.items) → HasNoRepeat (map signed_of promises.new.items) }
{
    promises.retain(|promised| is_needed(promised, marks, tested));
}

/// Whether a promise is not among these, or is the owner's own and awaited by a mark.
fn is_needed(promised: &Promised, marks: &[Mark], tested: &[SignedPromise]) -> bool
    ensures { IsTrue result ↔ IsNeeded tested.now marks.now promised.now }
{
    is_untested(&promised.signed, tested)
        || promised.is_own && has_awaiting(&promised.signed, marks)
}

/// Whether a promise is not among these.
fn is_untested(signed: &SignedPromise, tested: &[SignedPromise]) -> bool
    ensures { IsTrue result ↔ All (λ other. other ≢ signed.now) tested.now }
{
    for other in tested {
        if is_same(other, signed) {
            return false;
        }
    }
    true
}

/// Whether two promises are the same. Most differ in their names, and are not compared further.
fn is_same(one: &SignedPromise, other: &SignedPromise) -> bool
    ensures { IsTrue result ↔ (one.now ≡ other.now) }
{
    one.promise.name == other.promise.name && *one == *other
}

/// Whether a mark awaits the promise.
fn has_awaiting(signed: &SignedPromise, marks: &[Mark]) -> bool
    ensures { IsTrue result ↔ Any (IsAwaited signed.now) marks.now }
{
    for mark in marks {
        if is_awaited(signed, mark) {
            return true;
        }
    }
    false
}
