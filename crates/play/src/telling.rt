// The words of the lines that a script prints. Each function appends to the text; an `Err` says that memory
// ran out, and some of the words may then stand behind what the text was.

ghost use Rattle.std.specs.Prelude.{◌≡◌, ◌++◌, ◌∷◌, [], OnErr, OnOk, codes, decimal};
ghost use Rattle.std.specs.Io.{StartsWith};
ghost use Rattle.hex.specs.Hex.{encode_lower};
ghost use Rattle.proofs.specs.Refusals.{reply_refusal_number};
ghost use Rattle.proofs.specs.Views.{key_stated};
ghost use Rattle.proofs.specs.declared.reply_refusal.Refusal.{Refusal as ProofRefusal};
ghost use Rattle.wire.specs.Responses.{response_seen, Roots};
ghost use Rattle.client.specs.declared.client_refusal.Refusal.TheVariants as clients;
ghost use Rattle.play.specs.Lines.{key_text, statement_text};
ghost use Rattle.play.specs.Watchers.{alarm_key};
ghost use Rattle.play.specs.Hearing.{response_text};
ghost use Rattle.play.specs.Telling.{placed_text, step_text};
ghost use Rattle.play.specs.Wanting.{IsOfLook};

use encoding::Policy;
use itoa::Buffer;
use monitor::Step;
use proofs::Statement;
use rootchain::RootList;
use std::alloc::AllocError;
use textio::{HASH_SIZE, hex_digits};
use wire::Response;

/// Appends a number in decimal digits.
pub fn push_number(text: &mut Vec<u8>, number: u64) -> Result<(), AllocError>
    ensures ok { OnOk result (text.new.items ≡ text.old.items ++ decimal number) }
    ensures err { OnErr result (text.new.items ≡ text.old.items) }
{
    let mut digits = Buffer::new();
    text.extend_from_slice(digits.format(number).as_bytes())
}

/// Appends a word, and a number in decimal digits.
fn push_numbered(text: &mut Vec<u8>, word: &[u8], number: u64) -> Result<(), AllocError>
    ensures ok { OnOk result (text.new.items ≡ text.old.items ++ word.now ++ decimal number) }
    ensures grows { StartsWith text.new.items text.old.items }
{
    text.extend_from_slice(word)?;
    push_number(text, number)
}

/// Appends bytes in hexadecimal digits, as many bytes at once as a hash has.
pub fn push_hex(text: &mut Vec<u8>, bytes: &[u8]) -> Result<(), AllocError>
    ensures ok { OnOk result (text.new.items ≡ text.old.items ++ encode_lower bytes.now) }
    ensures grows { StartsWith text.new.items text.old.items }
{
    let mut rest = bytes;
    while rest.len() >= HASH_SIZE {
        let (front, behind) = rest.split_at(HASH_SIZE);
        text.extend_from_slice(&hex_digits(front))?;
        rest = behind;
    }
    push_each(text, rest)
}

/// Appends bytes in hexadecimal digits, one byte after another.
#[tactic(auto, unfolding(hex::specs::Hex::encode_with))]
fn push_each(text: &mut Vec<u8>, bytes: &[u8]) -> Result<(), AllocError>
    ensures ok { OnOk result (text.new.items ≡ text.old.items ++ encode_lower bytes.now) }
    ensures grows { StartsWith text.new.items text.old.items }
{
    for byte in bytes {
        let mut digits = [0; 2];
        let fits = hex::encode_to_slice(&[*byte], &mut digits).is_ok();
        prove!(fits);
        text.extend_from_slice(&digits)?;
    }
    Ok(())
}

/// Appends the line of a response.
pub fn tell_response(text: &mut Vec<u8>, response: Response<'_>) -> Result<(), AllocError>
    ensures ok { OnOk result (text.new.items ≡ text.old.items ++ response_text (response_seen response.entry) ++ 10 ∷ []) }
    ensures grows { StartsWith text.new.items text.old.items }
{
    match response {
        Response::Promise(signed) => push_numbered(text, b"promise ", signed.promise.epoch)?,
        Response::Proof(reply) => push_numbered(text, b"proof ", reply.body().epoch)?,
        Response::Roots(roots) => tell_roots(text, roots)?,
        Response::Root(root) => {
            push_numbered(text, b"root ", root.body.epoch)?;
            push_numbered(text, b" after ", root.body.previous_epoch)?;
        }
        Response::Refused(code) => push_numbered(text, b"refused ", u64::from(code))?,
    }
    text.push(b'\n')?;
    Ok(())
}

fn tell_roots(text: &mut Vec<u8>, roots: RootList<'_>) -> Result<(), AllocError>
    ensures ok { OnOk result (text.new.items ≡ text.old.items ++ response_text (Roots roots.entry)) }
    ensures grows { StartsWith text.new.items text.old.items }
{
    let mut roots = roots;
    text.extend_from_slice(b"roots")?;
    for _ in 0..roots.len() {
        if let Some(root) = roots.next() {
            push_numbered(text, b" ", root.body.epoch)?;
        }
    }
    Ok(())
}

/// Appends the line of what the client accepted at an epoch.
pub fn tell_statement(
    text: &mut Vec<u8>,
    epoch: u64,
    statement: Statement<'_>,
) -> Result<(), AllocError>
    ensures ok { OnOk result (text.new.items ≡ text.old.items ++ statement_text epoch (key_stated statement.entry) ++ 10 ∷ []) }
    ensures grows { StartsWith text.new.items text.old.items }
{
    match statement {
        Statement::Present(key, policy) => {
            push_numbered(text, b"present ", epoch)?;
            text.push(b' ')?;
            push_key(text, key, policy)?;
        }
        Statement::Absent => push_numbered(text, b"absent ", epoch)?,
    }
    text.push(b'\n')?;
    Ok(())
}

/// Appends the line of what a monitor of a name found at an epoch.
pub fn tell_step(
    text: &mut Vec<u8>,
    name: &[u8],
    epoch: u64,
    step: Step<'_>,
) -> Result<(), AllocError>
    ensures ok { OnOk result (text.new.items ≡ text.old.items ++ step_text name.now epoch step.entry ++ 10 ∷ []) }
    ensures grows { StartsWith text.new.items text.old.items }
{
    match step {
        Step::Kept => {
            tell_place(text, b"kept ", name, epoch)?;
            text.push(b'\n')?;
            Ok(())
        }
        Step::Alarm { epoch, found } => {
            tell_place(text, b"alarm ", name, epoch)?;
            text.push(b' ')?;
            tell_found(text, found)
        }
    }
}

/// Appends a key, and the name of its policy behind it, if it has one.
fn push_key(text: &mut Vec<u8>, key: &[u8], policy: Option<Policy>) -> Result<(), AllocError>
    ensures ok { OnOk result (text.new.items ≡ text.old.items ++ key_text (record { value = key.now; policy = policy })) }
    ensures grows { StartsWith text.new.items text.old.items }
{
    push_hex(text, key)?;
    if let Some(policy) = policy {
        text.push(b' ')?;
        text.extend_from_slice(policy.word())?;
    }
    Ok(())
}

/// Appends the end of an alarm's line: what was found.
fn tell_found(text: &mut Vec<u8>, found: Statement<'_>) -> Result<(), AllocError>
    ensures ok { OnOk result (text.new.items ≡ text.old.items ++ alarm_key (key_stated found.entry) ++ 10 ∷ []) }
    ensures grows { StartsWith text.new.items text.old.items }
{
    match found {
        Statement::Present(key, policy) => push_key(text, key, policy)?,
        Statement::Absent => text.extend_from_slice(b"absent")?,
    }
    text.push(b'\n')?;
    Ok(())
}

fn tell_place(text: &mut Vec<u8>, word: &[u8], name: &[u8], epoch: u64) -> Result<(), AllocError>
    ensures ok { OnOk result (text.new.items ≡ text.old.items ++ placed_text word.now name.now epoch) }
    ensures grows { StartsWith text.new.items text.old.items }
{
    text.extend_from_slice(word)?;
    push_hex(text, name)?;
    push_numbered(text, b" ", epoch)
}

/// Appends the line of a refusal of a look, of which no other comes than that of a proof.
pub(crate) fn tell_refusal(text: &mut Vec<u8>, why: client::Refusal) -> Result<(), AllocError>
    requires { IsOfLook why }
    ensures { OnOk result ((refused : ProofRefusal) × (why ≡ clients.Proof refused) × (text.new.items ≡ text.old.items ++ codes "client refuses proof " ++ decimal (reply_refusal_number refused) ++ 10 ∷ [])) }
{
    match why {
        client::Refusal::Proof(refused) => tell_refused(text, refused),
        client::Refusal::Memory => Err(AllocError),
        client::Refusal::Root(_) => unreachable!(),
        client::Refusal::UnknownRoot => unreachable!(),
        client::Refusal::RootDiffers(_) => unreachable!(),
        client::Refusal::NoPromise => unreachable!(),
    }
}

/// Appends the line of a proof that the client refuses.
fn tell_refused(text: &mut Vec<u8>, why: proofs::Refusal) -> Result<(), AllocError>
    ensures { OnOk result (text.new.items ≡ text.old.items ++ codes "client refuses proof " ++ decimal (reply_refusal_number why) ++ 10 ∷ []) }
{
    push_numbered(text, b"client refuses proof ", u64::from(why.number()))?;
    text.push(b'\n')?;
    Ok(())
}
