//! A provider shows two keys for one name, and its own replies are the evidence against it.
//!
//! Its tree is hashed by the sum of the bytes, so that the keys "ab" and "ba" have one commitment.
//! The provider opens it as either key, and a client accepts each reply under the one signed root.
//! `compare_replies` answers with the evidence: two different texts that have one digest.
#![tactic(auto)]

ghost use Rattle.std.specs.Prelude.{IfOk, Ok, OnErr};
ghost use Rattle.nodehash.specs.Collisions.{IsCollision};
ghost use Rattle.nodehash.specs.Digests.{byte_sum};
ghost use Rattle.proofs.specs.declared.comparing.SameOr.TheVariants.{Collision};
ghost use Rattle.two_replies.specs.Evidence.{ComparesByStandIns, IsNoCollision};

mod provider;

use anyhow::{Result, bail};
use encoding::{Hash32, Name, Text};
use nodehash::{NodeHash, SumHash};
use proofs::{ReplyView, SameOr, Statement, check, compare_replies};
use rootchain::{Body, Chain};
use sigiface::{KeyedSign, Signer};
use vrfiface::PlainVuf;

/// The evidence of two replies for one name: two different texts with one digest.
fn evidence(body: &Body, name: &Name, first: &[u8], second: &[u8]) -> Result<(Text, Text)>
    ensures collision { IfOk result (λ texts. IsCollision byte_sum texts.0 texts.1) }
    ensures found { IfOk result (λ texts. ComparesByStandIns body.now name.now first.now second.now (Ok (Collision texts.0 texts.1))) }
    ensures none { OnErr result ((answer : _) × ComparesByStandIns body.now name.now first.now second.now answer × IsNoCollision answer) }
{
    match compare_replies(&mut SumHash::new(), &PlainVuf, body, name, first, second)? {
        SameOr::Collision(x, y) => Ok((x, y)),
        _ => bail!("the replies are no evidence"),
    }
}

fn main(rt: HostRuntime) -> Result<()> {
    let alloc = rt.alloc();
    let mut hash = SumHash::new();
    let name = Name::new(b"a")?;
    let signer = KeyedSign::new(Hash32::new([1; 32]));
    let shown = provider::show_two_keys(alloc, &signer, &name)?;
    println!(rt; "name {}", name.bytes().escape_ascii())?;

    // A client verifies the signature of the root, and then checks each reply under it.
    let key = signer.public();
    let chain: Chain<SumHash, KeyedSign> = Chain::start(alloc, &signer, key, shown.root)?;
    let body = &chain.head().body;
    println!(rt; "signed root {}", hex::encode(alloc, body.root.bytes())?)?;
    for (which, reply) in [("first", &shown.first), ("second", &shown.second)] {
        let view = ReplyView::read(reply.bytes())?;
        let accepted = check(&mut hash, &PlainVuf, body, &name, &view)?;
        if let Statement::Present(key, _) = accepted.statement() {
            println!(rt; "{which} reply states {}", key.escape_ascii())?;
        }
    }

    // Whoever has both replies has evidence against the provider.
    let (x, y) = evidence(body, &name, shown.first.bytes(), shown.second.bytes())?;
    let digest = hash.digest(x.bytes());
    println!(rt; "one digest {}", hex::encode(alloc, digest.bytes())?)?;
    println!(rt; "first text {}", hex::encode(alloc, x.bytes())?)?;
    println!(rt; "second text {}", hex::encode(alloc, y.bytes())?)?;
    Ok(())
}
