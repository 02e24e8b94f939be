//! Of `rootchain`: lists of roots.
ghost use Rattle.std.specs.Prelude.{◌≤◌, length};
ghost use Rattle.rootchain.specs.declared.root_list.TheConstants.{MAX_ROOTS};

use crate::roots::signed_root;
use questions::Case;
use rootchain::{MAX_ROOTS, RootList, SignedRoot, list_len, write_list};

/// `list BYTES`: the epochs and signatures of its roots.
pub(crate) fn list(case: &mut Case<'_>) {
    match RootList::read(case.bytes()) {
        Ok(list) => say_list(case, list),
        Err(refusal) => case.refuse(refusal.number(), refusal),
    }
}

pub(crate) fn say_list(case: &mut Case<'_>, list: RootList<'_>) {
    let mut list = list;
    case.say_shown(list.len());
    for _ in 0..list.len() {
        if let Some(root) = list.next() {
            case.say_shown(root.body.epoch);
            case.say_bytes(root.signature.bytes());
        }
    }
}

/// `write-list ROOT..`: the bytes of the list, and how many it was told to have.
pub(crate) fn written_list(case: &mut Case<'_>) {
    let mut roots = Vec::new(case.alloc());
    for _ in 0..case.left() {
        push_root(case, &mut roots);
    }
    if roots.len() <= MAX_ROOTS {
        say_written(case, &roots);
    } else {
        case.spoil();
    }
}

fn push_root(case: &mut Case<'_>, roots: &mut Vec<SignedRoot>) {
    let Ok(root) = signed_root(case) else {
        return case.spoil();
    };
    if roots.push(root).is_err() {
        case.lack_memory();
    }
}

fn say_written(case: &mut Case<'_>, roots: &[SignedRoot])
    requires { length roots.now ≤ MAX_ROOTS }
{
    let mut list = Vec::new(case.alloc());
    match write_list(roots, &mut list) {
        Ok(()) => case.say_bytes(&list),
        Err(_) => case.lack_memory(),
    }
    case.say_shown(list_len(roots));
}
