//! Of `rootchain`: a list comes to a chain that is there for one question alone, once more where memory runs out.

use crate::roots::{signed_root, verifier};
use nodehash::Sha256Hash;
use questions::{Case, refuse_root};
use rootchain::{Chain, ListRefusal, PieceRefusal, RootList};
use sigiface::KeyedSign;

/// What takes a list.
#[derive(Clone, Copy, Debug)]
pub(crate) enum Taker {
    /// `take_list`
    List,
    /// `take_bytes`
    Bytes,
}

/// `room KEY ROOT LIST`: by `take_list`. `room-bytes KEY ROOT LIST`: by `take_bytes`.
pub(crate) fn room(case: &mut Case<'_>, taker: Taker) {
    let key = case.hash();
    let Ok(root) = signed_root(case) else {
        return case.spoil();
    };
    let list = case.bytes();
    match Chain::start(case.alloc(), &verifier(), key, root) {
        Ok(mut chain) => {
            say_head(case, &chain);
            if !tell(case, &mut chain, taker, list) && !tell(case, &mut chain, taker, list) {
                case.lack_memory();
            }
        }
        Err(refusal) => refuse_root(case, refusal),
    }
}

/// Tells what comes of a list, and the head then. Returns whether there was memory for it.
fn tell(
    case: &mut Case<'_>,
    chain: &mut Chain<Sha256Hash, KeyedSign>,
    taker: Taker,
    list: &[u8],
) -> bool {
    let taken = take(chain, taker, list);
    let had_memory = !matches!(&taken, Err(PieceRefusal::Memory));
    match taken {
        Ok(()) => case.say("taken"),
        Err(why) => case.say_shown(why),
    }
    say_head(case, chain);
    had_memory
}

fn say_head(case: &mut Case<'_>, chain: &Chain<Sha256Hash, KeyedSign>) {
    case.say_bytes(chain.head().write().bytes());
}

fn take(
    chain: &mut Chain<Sha256Hash, KeyedSign>,
    taker: Taker,
    bytes: &[u8],
) -> Result<(), PieceRefusal> {
    match taker {
        Taker::Bytes => chain.take_bytes(&mut Sha256Hash::new(), &verifier(), bytes),
        Taker::List => match RootList::read(bytes) {
            Ok(list) => take_list(chain, list),
            Err(_) => Err(PieceRefusal::Malformed),
        },
    }
}

/// `take_list`, whose refusals are told as those of `take_bytes`.
fn take_list(
    chain: &mut Chain<Sha256Hash, KeyedSign>,
    list: RootList<'_>,
) -> Result<(), PieceRefusal> {
    match chain.take_list(&mut Sha256Hash::new(), &verifier(), list) {
        Ok(()) => Ok(()),
        Err(ListRefusal::Memory) => Err(PieceRefusal::Memory),
        Err(why) => Err(PieceRefusal::Root(why)),
    }
}
