// An input is audited line by line: each line is observed, and its answer is written, before the next one
// is read.
ghost use Rattle.std.specs.Prelude.{◌≡◌, Err, string_bytes, IfOk};
ghost use Rattle.textio.specs.declared.program_fault.ProgramFault.TheVariants.{BadHex};
ghost use Rattle.audits.specs.Auditing.{answer_line, AuditsInput, AuditsText};
ghost use Rattle.audits.specs.Steps.{AnswersLine, TellsLine};

use crate::orders::AuditOrder;
use crate::writing::evidence_json;
use auditor::{Auditor, Evidence, Observed};
use encoding::Hash32;
use hex::FromHexError;
use nodehash::{NodeHash, Sha256Hash};
use rootchain::Refusal;
use sigiface::{KeyedSign, Verifier};
use std::alloc::{AllocError, Global};
use std::io::{BufRead, Write};
use textio::{ProgramFault, next_line, option_hex32, write_text};

/// The bytes of a line that are kept: one more than the digits of the longest signed root. They are an odd
/// number, so a longer line is not read as one of whole bytes.
const LINE_KEPT: usize = 809;

/// The line for an auditor's answer.
fn line_of(alloc: Global, answer: Result<Observed, Refusal>) -> Result<String, AllocError>
    ensures { IfOk result (λ text. string_bytes text ≡ answer_line answer) }
{
    match answer {
        Ok(Observed::Started) => String::from_str(alloc, "started\n"),
        Ok(Observed::Extended) => String::from_str(alloc, "extended\n"),
        Ok(Observed::Known) => String::from_str(alloc, "known\n"),
        Ok(Observed::Ahead) => String::from_str(alloc, "ahead\n"),
        Ok(Observed::BeforeStart) => String::from_str(alloc, "before start\n"),
        Ok(Observed::Evidence(roots)) => {
            let mut line = evidence_json(alloc, &Evidence::Root(roots))?;
            line.push_str("\n")?;
            Ok(line)
        }
        Err(why) => {
            let number = why.number();
            format!(in alloc; "refused {number}\n")
        }
    }
}

/// What the auditor answers to a line. One that is not bytes in hexadecimal digits is not a signed
/// root.
fn observe_line<H: NodeHash + Drop, S: Verifier + Drop>(
    alloc: Global,
    auditor: &mut Auditor<H, S>,
    hash: &mut H,
    verifier: &S,
    key: &Hash32,
    line: &[u8],
) -> Result<Observed, Refusal>
    ensures { AnswersLine H.digest_of S.verified key.now auditor.old line.now result auditor.new }
{
    match hex::decode(alloc, line) {
        Ok(bytes) => auditor.observe(hash, verifier, key, &bytes),
        Err(FromHexError::OutOfMemory) => Err(Refusal::Memory),
        Err(_) => Err(Refusal::Malformed),
    }
}

/// The line that answers a line.
fn answer<H: NodeHash + Drop, S: Verifier + Drop>(
    alloc: Global,
    auditor: &mut Auditor<H, S>,
    hash: &mut H,
    verifier: &S,
    key: &Hash32,
    line: &[u8],
) -> Result<String, ProgramFault>
    ensures { TellsLine H.digest_of S.verified key.now string_bytes auditor.old line.now result auditor.new }
{
    match observe_line(alloc, auditor, hash, verifier, key, line) {
        Err(Refusal::Memory) => Err(ProgramFault::OutOfMemory),
        answer => Ok(line_of(alloc, answer)?),
    }
}

/// Answers each line of the input, as an auditor of the provider of this key.
fn audit_under<H: NodeHash + Drop, S: Verifier + Drop, R: BufRead, W: Write>(
    alloc: Global,
    hash: &mut H,
    verifier: &S,
    key: &Hash32,
    reader: &mut R,
    writer: &mut W,
) -> Result<(), ProgramFault>
    ensures { AuditsInput H.digest_of S.verified key.now (R.remaining reader.old) (R.remaining reader.new) (W.contents writer.old) result (W.contents writer.new) }
{
    let mut auditor: Auditor<H, S> = Auditor::new(alloc);
    // Every loop of Rattle has an end: this one's is past any input.
    for _ in 0..u64::MAX {
        let Some(line) = next_line::<LINE_KEPT, R>(reader)? else {
            return Ok(());
        };
        let answer = answer(alloc, &mut auditor, hash, verifier, key, line.bytes())?;
        write_text(writer, answer.as_bytes())?;
    }
    Err(ProgramFault::CannotRead)
}

/// Reads signed roots of one provider, one a line in hexadecimal digits of either case, and answers each
/// with a line: `started`, `extended`, `known`, `ahead`, `before start`, evidence as JSON, `refused 1` for
/// a line that is not a signed root, or `refused 2` for a root that does not verify under the provider's key.
///
/// # Errors
///
/// `BadHex`, before anything is read, if the key's text is not 64 hexadecimal digits; `CannotRead`, with an
/// answer written to each line that was read; `OutOfMemory` and `CannotWrite`, with one to each but the last
/// line that was read, and of `CannotWrite` less than the whole answer to that.
pub fn audit<R: BufRead, W: Write>(
    alloc: Global,
    order: AuditOrder<'_>,
    reader: &mut R,
    writer: &mut W,
) -> Result<(), ProgramFault>
    ensures audits { AuditsText order.entry.signing_key.now (R.remaining reader.old) (R.remaining reader.new) (W.contents writer.old) result (W.contents writer.new) }
    ensures unread { result ≡ Err BadHex → (reader.new ≡ reader.old) × (writer.new ≡ writer.old) }
{
    let key = Hash32::new(option_hex32(order.signing_key)?);
    let verifier = KeyedSign::new(key);
    audit_under(
        alloc,
        &mut Sha256Hash::new(),
        &verifier,
        &key,
        reader,
        writer,
    )
}
