//! A provider changes a binding that is final, and its own replies are the evidence against it.
//!
//! In epoch 3 it shows the key "k1" with Final, and in epoch 7 the key "k2". A client accepts each reply under the
//! signed root of its epoch. `finality` answers with the evidence, which anyone can judge who has the provider's
//! public key.
#![tactic(auto)]

ghost use Rattle.std.specs.Prelude.{IfOk, OnErr};
ghost use Rattle.broken_final.specs.Evidence.{IsEvidenceByStandIns, ShowNoChange};

mod provider;

use anyhow::{Result, bail};
use auditor::{Evidence, judge};
use audits::evidence_json;
use client::Client;
use encoding::{Hash32, Name, Policy};
use nodehash::Sha256Hash;
use proofs::Statement;
use provider::{Page, bind};
use rootchain::{SignedRoot, write_list};
use sigiface::{KeyedSign, Signer};
use std::alloc::Global;
use vrfiface::KeyedVuf;

type KeyedClient = Client<Sha256Hash, KeyedVuf, KeyedSign>;

/// The evidence of a client that saw a final binding of this name change.
fn evidence(client: &KeyedClient, name: &Name) -> Result<Evidence>
    ensures found { IfOk result (IsEvidenceByStandIns client.now.chain.key) }
    ensures none { OnErr result (ShowNoChange name.now client.now.looks) }
{
    match client.finality(name) {
        Some(broken) => Ok(Evidence::Final(broken)),
        None => bail!("the looks are no evidence"),
    }
}

/// A client that takes the signed roots of both epochs, and looks the name up under each.
fn shown(rt: &HostRuntime, signer: &KeyedSign, vuf: &KeyedVuf, name: &Name) -> Result<KeyedClient> {
    let alloc = rt.alloc();
    let first = bind(alloc, signer, vuf, name, b"k1", 3, None)?;
    let later = bind(alloc, signer, vuf, name, b"k2", 7, Some(&first))?;
    let root = first.root.write();
    let mut client = Client::start(alloc, signer, signer.public(), root.bytes())?;
    follow(alloc, &mut client, signer, &later.root)?;
    look(rt, &mut client, vuf, name, &first)?;
    look(rt, &mut client, vuf, name, &later)?;
    Ok(client)
}

/// The client takes the signed root that comes next.
fn follow(
    alloc: Global,
    client: &mut KeyedClient,
    signer: &KeyedSign,
    root: &SignedRoot,
) -> Result<()> {
    let mut roots = Vec::new(alloc);
    write_list(&[root.copied()], &mut roots)?;
    client.update(&mut Sha256Hash::new(), signer, &roots)?;
    Ok(())
}

/// The client looks the name up under a root, and tells which key is stated with Final.
fn look(
    rt: &HostRuntime,
    client: &mut KeyedClient,
    vuf: &KeyedVuf,
    name: &Name,
    page: &Page,
) -> Result<()> {
    let (epoch, reply) = (page.root.body.epoch, page.reply.bytes());
    let stated = client.look(&mut Sha256Hash::new(), vuf, name, epoch, reply)?;
    if let Statement::Present(key, Some(Policy::Final)) = stated {
        println!(rt; "epoch {epoch} states {}, final", key.escape_ascii())?;
    }
    Ok(())
}

fn main(rt: HostRuntime) -> Result<()> {
    let name = Name::new(b"alice")?;
    let signer = KeyedSign::new(Hash32::new([1; 32]));
    let vuf = KeyedVuf::new(Hash32::new([2; 32]));
    let client = shown(&rt, &signer, &vuf, &name)?;

    // Its looks are evidence against the provider, whoever judges them.
    let evidence = evidence(&client, &name)?;
    let mut hash = Sha256Hash::new();
    if judge(&mut hash, &vuf, &signer, client.key(), &evidence) {
        println!(rt; "judged: evidence")?;
    }
    println!(rt; "{}", evidence_json(rt.alloc(), &evidence)?)?;
    Ok(())
}
