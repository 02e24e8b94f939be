// The line of a promise, of which no more is read than the epoch.

ghost use Rattle.std.specs.Prelude.{◌≡◌, ◌++◌, ◌∷◌, [], OnOk, codes, decimal};
ghost use Rattle.encoding.specs.Reading.{read_both, read_number, read_version, Gives};
ghost use Rattle.rootchain.specs.Promises.{promise_kind, SpellsPromise};
ghost use Rattle.rootchain.specs.declared.signed_promise.SignedPromise.{SignedPromise as Signed};

use crate::telling::push_number;
use encoding::{Cursor, Fault};
use rootchain::PROMISE;
use std::alloc::AllocError;

/// Appends the line of a promise.
pub(super) fn tell_promise(text: &mut Vec<u8>, promise: &[u8]) -> Result<(), AllocError>
    requires { (signed : Signed) × SpellsPromise promise.now signed }
    ensures { (signed : Signed) → SpellsPromise promise.now signed → OnOk result (text.new.items ≡ text.old.items ++ (codes "promise " ++ decimal signed.promise.epoch) ++ 10 ∷ []) }
{
    text.extend_from_slice(b"promise ")?;
    push_number(text, promise_epoch(promise))?;
    text.push(b'\n')?;
    Ok(())
}

/// The epoch of a promise.
fn promise_epoch(promise: &[u8]) -> u64
    requires { (signed : Signed) × SpellsPromise promise.now signed }
    ensures { (signed : Signed) → SpellsPromise promise.now signed → result ≡ signed.promise.epoch }
{
    let mut cursor = Cursor::new(promise);
    match read_front(&mut cursor) {
        Ok((_, epoch)) => epoch,
        Err(_) => unreachable!(),
    }
}

/// Whether the promise at the front of the bytes has a policy, and its epoch.
fn read_front(cursor: &mut Cursor<'_>) -> Result<(bool, u64), Fault>
    ensures { Gives (λ read. read) result cursor.new (read_both (read_version promise_kind) (read_number 8) cursor.old) }
{
    Ok((cursor.version(PROMISE)?, cursor.u64()?))
}
