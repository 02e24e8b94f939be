use crate::held::{Held, key_of, keyed, tree_around};
use crate::pages::{Following, keep_look, started, update};
use crate::roots::{after, list_of};
use crate::run::Run;
use encoding::{Hash32, Name, Policy};
use proofs::{BrokenFinal, make};
use rootchain::Body;
use std::slice;
use vrfiface::{KeyedVuf, Vuf};

/// The client takes one more root, and keeps a look of the first name under it, bound with Final to this key. The
/// root has the VUF key of this number, which gives the name an index of its own.
fn look_next(run: &Run, client: &mut Following, siblings: usize, number: usize, key: u8) {
    let vuf = KeyedVuf::new(Hash32::new(key_of(number as u64, 3)));
    let mut held = Held::under(&vuf, 0);
    held.key = keyed(&[key; 32]);
    held.key.policy = Some(Policy::Final);
    let Some(tree) = tree_around(run, slice::from_ref(&held), siblings) else {
        return run.fail();
    };
    let body = Body {
        root: tree.root(),
        vuf_key: vuf.public(),
        ..after(&client.chain().head().body, 1)
    };
    update(run, client, &list_of(run, slice::from_ref(&body)));
    let reply = make(&body, &held.value, &held.end(), &tree.path(&held.index));
    keep_look(run, client, &held.name, &body, &reply);
}

/// A final binding that was changed, where each reply has so many siblings.
pub(crate) fn broken_final(run: &Run, siblings: usize) -> Option<BrokenFinal> {
    let mut client = started(run, Hash32::default())?;
    look_next(run, &mut client, siblings, 0, 1);
    look_next(run, &mut client, siblings, 0, 2);
    client.finality(&Held::new(0).name)
}

/// The step of asking what the looks show of the name's final bindings, so often: counts how often they show a
/// change.
fn find_changes(run: &Run, client: &Following, name: &Name, times: usize) {
    let mut found: u64 = 0;
    for _ in 0..times {
        if client.finality(name).is_some() {
            found = found.saturating_add(1);
        }
    }
    run.step(found);
}

/// `finality SIBLINGS LOOKS INDICES TIMES`. The steps of a client that kept so many looks of one name, which have so
/// many indices in turn and state one key: what they show of its final bindings, so often; one more look, of another
/// key with the last index; and what they show then.
pub(crate) fn measure(run: &Run, numbers: &[usize]) {
    let [siblings, looks, indices, times] = run.numbers::<4>(numbers);
    let Some(mut client) = started(run, Hash32::default()) else {
        return run.fail();
    };
    let mut number = 0;
    for place in 0..looks {
        number = place % indices.max(1);
        look_next(run, &mut client, siblings, number, 1);
    }
    let name = Held::new(0).name;
    run.step(0);
    find_changes(run, &client, &name, times);
    look_next(run, &mut client, siblings, number, 2);
    run.step(0);
    find_changes(run, &client, &name, times);
}
