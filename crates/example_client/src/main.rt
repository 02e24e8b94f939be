//! A client of a directory, to copy: it registers a key for a name, and watches the name. The `Asker` tells what
//! comes of each reply, in the lines of docs/FORMATS.md. A real client also stores its roots and promises.
#![tactic(auto)]

use anyhow::{Context, Result, bail, ensure};
use asking::{AskFault, Asker, Checks, MAX_LISTS, Said};
use commands::Verb;
use encoding::{BoundKey, Hash32, KeyData, Name};
use nodehash::NodeHash;
use play::Ask;
use sigiface::Verifier;
use std::net::TcpStream;
use std::time::Duration;
use std::{env, str, thread};
use textio::option_hex32;
use vrfiface::VufCheck;

fn main(rt: HostRuntime) -> Result<()> {
    let alloc = rt.alloc();
    let words: Vec<String> = env::args(&rt)?.collect(alloc)?;
    let [_, address, signing_key, name, key, seconds] = words.as_slice() else {
        bail!("usage: example_client ADDRESS PROVIDER_KEY NAME KEY SECONDS");
    };
    let signing_key = Hash32::new(option_hex32(signing_key).context("reading PROVIDER_KEY")?);
    let owned = Name::new(name.as_bytes()).context("reading NAME")?;
    let key = hex::decode(alloc, key.as_bytes()).context("reading KEY")?;
    let expected = BoundKey {
        value: KeyData::new(&key).context("reading KEY")?,
        policy: None,
    };
    let seconds = seconds.parse::<u64>().context("reading SECONDS")?;

    // Start at the directory's latest root. The token is that of the operator, which a user does not have.
    let stream = &mut TcpStream::connect(&rt, address).context("connecting")?;
    let said = &mut Said::new(alloc);
    let token = Hash32::default();
    let checks = Checks::keyed(signing_key);
    let begun = Asker::start_at_head(alloc, stream, checks, signing_key, token, said);
    let mut asker = tell(&rt, begun, said)?;
    // Look the name up, and watch it from the latest epoch on. If it has a key, that has to be the owner's.
    let name = Vec::from_slice(alloc, owned.bytes())?;
    let asked = ask(&mut asker, stream, &Ask::Lookup { name, epoch: 0 }, said);
    let is_bound = said.text.starts_with(b"present");
    tell(&rt, asked, said)?;
    let expected = if is_bound { Some(&expected) } else { None };
    tell(&rt, asker.watch(stream, &owned, expected, said), said)?;
    if !is_bound {
        // The client keeps the promise, and the monitor expects the key from the next epoch on.
        let verb = Verb::Register;
        let name = Vec::from_slice(alloc, owned.bytes())?;
        let put = Ask::Put {
            verb,
            name,
            key,
            policy: None,
        };
        let asked = ask(&mut asker, stream, &put, said);
        tell(&rt, asked, said)?;
    }
    // Follow the chain. At each new root, the monitor looks the name up, and the promise is tested if it is due.
    for _ in 0..seconds {
        thread::sleep(&rt, Duration::from_secs(1));
        tell(&rt, follow(&mut asker, stream, said), said)?;
    }
    Ok(())
}

/// Takes the roots up to an epoch, list by list. A real client stores them behind each.
fn catch_up<H, V, S>(
    asker: &mut Asker<H, V, S>,
    stream: &mut TcpStream,
    epoch: u64,
    said: &mut Said,
) -> Result<(), AskFault>
where
    H: NodeHash + Drop,
    V: VufCheck + Drop,
    S: Verifier + Drop,
{
    for _ in 0..MAX_LISTS {
        if !asker.advance(stream, epoch, said)? {
            return Ok(());
        }
    }
    Err(AskFault::Stopped)
}

/// Asks something, and hears the reply.
fn ask<H, V, S>(
    asker: &mut Asker<H, V, S>,
    stream: &mut TcpStream,
    ask: &Ask,
    said: &mut Said,
) -> Result<(), AskFault>
where
    H: NodeHash + Drop,
    V: VufCheck + Drop,
    S: Verifier + Drop,
{
    let reply = asker.send(stream, ask)?;
    catch_up(asker, stream, reply.epoch(), said)?;
    asker.hear(stream, ask, &reply, said)
}

/// Takes the roots that are new, looks the name up in each, and tests promises.
fn follow<H, V, S>(
    asker: &mut Asker<H, V, S>,
    stream: &mut TcpStream,
    said: &mut Said,
) -> Result<(), AskFault>
where
    H: NodeHash + Drop,
    V: VufCheck + Drop,
    S: Verifier + Drop,
{
    let reply = asker.send(stream, &Ask::Head)?;
    catch_up(asker, stream, reply.epoch(), said)?;
    asker.hear_head(&reply, said)?;
    asker.go_on(stream, said)
}

/// Prints what was said, and fails if something was refused or no reply came. An alarm is no failure.
fn tell<T: Drop>(rt: &HostRuntime, asked: Result<T, AskFault>, said: &mut Said) -> Result<T> {
    print!(rt; "{}", str::from_utf8(&said.text)?)?;
    said.text.clear();
    ensure!(said.words.is_empty(), "{}", str::from_utf8(&said.words)?);
    asked.context("asking")
}
