// The promises that a client keeps. Those that are tested stand at the front, as a rule. They are passed over, and removed
// together once they are more than half of all, so that the others are seldom moved.
ghost use Rattle.std.specs.Prelude.{◌≡◌, ◌<◌, ◌≤◌, ◌++◌, ◌∷◌, [], OnErr, OnOk, drop, length, remove};

use rootchain::SignedPromise;
use std::alloc::{AllocError, Global};
use std::marker::Model;

/// Promises in the order in which they came.
#[derive(Drop)]
pub(crate) struct KeptPromises {
    list: Vec<SignedPromise>,
    /// How many at the front of the list are no longer kept.
    gone: usize,
}

impl Model for KeptPromises {
    ghost use Rattle.std.specs.Prelude.{◌≤◌, List, drop, length};
    ghost use Rattle.rootchain.specs.declared.signed_promise.SignedPromise.{SignedPromise};

    ghost Value = { List SignedPromise };

    ghost view = { λ kept. drop kept.gone kept.list.items };

    ghost invariant = { λ kept. kept.gone ≤ length kept.list.items };
}

impl KeptPromises {
    /// No promises.
    pub(crate) fn new(alloc: Global) -> Self
        ensures { result ≡ [] }
    {
        KeptPromises {
            list: Vec::new(alloc),
            gone: 0,
        }
    }

    /// All of them.
    pub(crate) fn all(&self) -> &[SignedPromise]
        ensures { result.now ≡ self.now }
    {
        behind(&self.list, self.gone)
    }

    /// Puts a promise behind the others. An `Err` leaves them as they were.
    pub(crate) fn push(&mut self, signed: SignedPromise) -> Result<(), AllocError>
        ensures ok { OnOk result (self.new ≡ self.old ++ signed ∷ []) }
        ensures err { OnErr result (self.new ≡ self.old) }
    {
        put_behind(&mut self.list, self.gone, signed)
    }

    /// Drops the promise at a place.
    pub(crate) fn remove(&mut self, place: usize)
        requires { place < length self.old }
        ensures { self.new ≡ remove self.old place }
    {
        self.gone = drop_at(&mut self.list, self.gone, place);
    }
}

/// The promises behind the first ones.
fn behind(list: &[SignedPromise], gone: usize) -> &[SignedPromise]
    requires { gone ≤ length list.now }
    ensures { result.now ≡ drop gone list.entry.now }
{
    list.split_at(gone).1
}

/// Puts a promise behind a list, of which the first ones are gone.
fn put_behind(
    list: &mut Vec<SignedPromise>,
    gone: usize,
    signed: SignedPromise,
) -> Result<(), AllocError>
    requires { gone ≤ length list.old.items }
    ensures ok { OnOk result (drop gone list.new.items ≡ drop gone list.old.items ++ signed ∷ []) }
    ensures err { OnErr result (list.new.items ≡ list.old.items) }
    ensures len { gone ≤ length list.new.items }
{
    list.push(signed)?;
    Ok(())
}

/// Drops the promise at a place of a list, of which the first ones are gone. Returns how many are gone then.
fn drop_at(list: &mut Vec<SignedPromise>, gone: usize, place: usize) -> usize
    requires there { gone ≤ length list.old.items }
    requires place { place < length (drop gone list.old.items) }
    ensures drops { drop result list.new.items ≡ remove (drop gone list.old.items) place }
    ensures len { result ≤ length list.new.items }
{
    if 0 < place {
        let _ = list.remove(gone + place);
        return gone;
    }
    let gone = gone + 1;
    if gone <= list.len() - gone {
        return gone;
    }
    cut(list, gone);
    0
}

/// Removes the first promises of a list.
fn cut(list: &mut Vec<SignedPromise>, gone: usize)
    requires { gone ≤ length list.old.items }
    ensures { list.new.items ≡ drop gone list.old.items }
{
    list.drain(..gone);
}
