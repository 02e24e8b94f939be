use crate::held::{Held, tree_around};
use crate::roots::{bodies, first_body, lists_of, provider, provider_vuf, signed};
use crate::run::Run;
use crate::tree::Plain;
use client::Client;
use encoding::{Hash32, Name, ProofText};
use nodehash::{NodeHash, Sha256Hash};
use proofs::{ReplyView, check, make};
use rootchain::Body;
use sigiface::{KeyedSign, Signer};
use vrfiface::KeyedVuf;

/// A client of the provider.
pub(crate) type Following = Client<Sha256Hash, KeyedVuf, KeyedSign>;

/// Names, their tree, and the bodies of a chain of roots that all have this tree.
#[derive(Drop)]
pub(crate) struct Pages {
    pub(crate) held: Vec<Held>,
    tree: Plain,
    pub(crate) bodies: Vec<Body>,
}

/// A reply to a look-up of a name, and the body of the root that it asks under.
#[derive(Drop)]
pub(crate) struct Answered {
    pub(crate) name: Name,
    pub(crate) body: Body,
    pub(crate) reply: Vec<u8>,
}

/// A client that has the first root alone, with this root of the tree.
pub(crate) fn started(run: &Run, root: Hash32) -> Option<Following> {
    let verifier = provider();
    let root = signed(first_body(root)).write();
    Client::start(run.alloc(), &verifier, verifier.public(), root.bytes()).ok()
}

/// The client takes a list whole.
pub(crate) fn update(run: &Run, client: &mut Following, list: &[u8]) {
    if client
        .update(&mut Sha256Hash::new(), &provider(), list)
        .is_err()
    {
        run.fail();
    }
}

/// The client keeps the reply to a look-up of a name under a root.
pub(crate) fn keep_look(
    run: &Run,
    client: &mut Following,
    name: &Name,
    body: &Body,
    reply: &ProofText,
) {
    let (mut hash, vuf) = (Sha256Hash::new(), provider_vuf());
    if client
        .look(&mut hash, &vuf, name, body.epoch, reply.bytes())
        .is_err()
    {
        run.fail();
    }
}

impl Pages {
    /// So many names, whose replies have so many siblings, at most 256, and so many roots.
    pub(crate) fn new(run: &Run, names: usize, siblings: usize, roots: usize) -> Option<Pages> {
        let mut held = run.list(names);
        for number in 0..names as u64 {
            run.push(&mut held, Held::new(number));
        }
        match tree_around(run, &held, siblings) {
            Some(tree) => {
                let bodies = bodies(run, tree.root(), roots);
                Some(Pages { held, tree, bodies })
            }
            None => None,
        }
    }

    /// A client that has all roots, and kept no look.
    pub(crate) fn client(&self, run: &Run) -> Option<Following> {
        let lists = lists_of(run, &self.bodies);
        match started(run, self.tree.root()) {
            Some(mut client) => {
                for list in &lists {
                    update(run, &mut client, list);
                }
                Some(client)
            }
            None => None,
        }
    }

    /// The reply to a look-up of a name.
    pub(crate) fn reply(&self, held: &Held, body: &Body) -> ProofText {
        make(body, &held.value, &held.end(), &self.tree.path(&held.index))
    }

    /// The reply to a look-up of a name under a root.
    fn answered(&self, run: &Run, held: &Held, body: &Body) -> Answered {
        let mut reply = run.list(0);
        run.append(&mut reply, self.reply(held, body).bytes());
        Answered {
            name: held.name.copied(),
            body: *body,
            reply,
        }
    }

    /// The replies to look-ups of the first names, so many, under the roots from one place to below another.
    pub(crate) fn answers(
        &self,
        run: &Run,
        names: usize,
        first: usize,
        end: usize,
    ) -> Vec<Answered> {
        let held = run.part(&self.held, 0, names);
        let mut answers = run.list(0);
        for body in run.part(&self.bodies, first, end) {
            for one in held {
                let answer = self.answered(run, one, body);
                run.push(&mut answers, answer);
            }
        }
        answers
    }

    /// A client looks the names from one number to below another up under each of the first roots, so many,
    /// root by root. Returns the bytes of the replies that it keeps.
    pub(crate) fn keep_looks(
        &self,
        run: &Run,
        client: &mut Following,
        names: (usize, usize),
        places: usize,
    ) -> u64 {
        let held = run.part(&self.held, names.0, names.1);
        let mut bytes: u64 = 0;
        for body in run.part(&self.bodies, 0, places) {
            for one in held {
                let reply = self.reply(one, body);
                keep_look(run, client, &one.name, body, &reply);
                bytes = bytes.saturating_add(reply.bytes().len() as u64);
            }
        }
        bytes
    }
}

/// Reads and checks a reply.
fn check_one(run: &Run, hash: &mut Sha256Hash, answer: &Answered) {
    match ReplyView::read(&answer.reply) {
        Ok(view) => {
            if check(hash, &provider_vuf(), &answer.body, &answer.name, &view).is_err() {
                run.fail();
            }
        }
        Err(_) => run.fail(),
    }
}

/// The step of reading and checking all replies: counts the digests.
pub(crate) fn check_all(run: &Run, answers: &[Answered]) {
    let mut hash = Sha256Hash::new();
    for answer in answers {
        check_one(run, &mut hash, answer);
    }
    run.step(hash.count());
}
