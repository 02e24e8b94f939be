ghost use Rattle.std.specs.Prelude.{◌≡◌};
ghost use Rattle.nodehash.specs.Sha256.{sha256};
ghost use Rattle.audits.specs.Verdicts.{verdict_line, verdict_status, IsVerdict, Judges, JudgesAt, JudgesFile, TellsOfFile};
ghost use Rattle.vrfiface.specs.StandIns.{KeyedAccepts};
ghost use Rattle.sigiface.specs.StandIn.{KeyedVerifies};

use crate::orders::JudgeOrder;
use crate::reading::read_evidence;
use auditor::{Evidence, judge};
use encoding::Hash32;
use files::{read_at, tell_error};
use nodehash::{NodeHash, Sha256Hash};
use sigiface::{KeyedSign, Verifier};
use std::alloc::Global;
use std::fs::Files;
use std::io::Write;
use textio::{ProgramFault, option_hex32, write_text};
use vrfiface::{KeyedVuf, VufCheck};

/// Whether a file is evidence against a provider.
#[derive(Clone, Copy, Debug, PartialEq, Eq)]
pub enum Verdict {
    Evidence,
    NoEvidence,
}

impl Verdict {
    /// The status that the program ends with.
    pub fn status(self) -> u8
        ensures { result ≡ verdict_status self }
    {
        match self {
            Verdict::Evidence => 0,
            Verdict::NoEvidence => 3,
        }
    }

    fn line(self) -> &'static [u8]
        ensures { result.now ≡ verdict_line self }
    {
        match self {
            Verdict::Evidence => b"evidence\n",
            Verdict::NoEvidence => b"no evidence\n",
        }
    }
}

fn judged<H: NodeHash, V: VufCheck, S: Verifier>(
    hash: &mut H,
    vuf: &V,
    verifier: &S,
    key: &Hash32,
    evidence: &Evidence,
) -> Verdict
    ensures { IsVerdict H.digest_of V.accepted S.verified key.now evidence.now result }
{
    if judge(hash, vuf, verifier, key, evidence) {
        Verdict::Evidence
    } else {
        Verdict::NoEvidence
    }
}

/// Judges a file against the provider of this key, and writes the verdict.
fn judge_under<H: NodeHash, V: VufCheck, S: Verifier, W: Write>(
    alloc: Global,
    hash: &mut H,
    vuf: &V,
    verifier: &S,
    key: &Hash32,
    file: &[u8],
    writer: &mut W,
) -> Result<Verdict, ProgramFault>
    ensures { Judges H.digest_of V.accepted S.verified key.now file.now (W.contents writer.old) result (W.contents writer.new) }
{
    let evidence = read_evidence(alloc, file)?;
    let verdict = judged(hash, vuf, verifier, key, &evidence);
    write_text(writer, verdict.line())?;
    Ok(verdict)
}

/// Judges a file by the stand-ins that check with this key.
fn judge_keyed<W: Write>(
    alloc: Global,
    key: Hash32,
    file: &[u8],
    writer: &mut W,
) -> Result<Verdict, ProgramFault>
    ensures { Judges sha256 KeyedAccepts KeyedVerifies key file.now (W.contents writer.old) result (W.contents writer.new) }
{
    let hash = &mut Sha256Hash::new();
    let vuf = KeyedVuf::new(key);
    let verifier = KeyedSign::new(key);
    judge_under(alloc, hash, &vuf, &verifier, &key, file, writer)
}

/// Reads the bytes of a file of evidence, and writes whether it is evidence against the provider of this
/// public key, given as 64 hexadecimal digits: `evidence` or `no evidence`.
///
/// # Errors
///
/// `BadHex`, before the file is read, if the key's text is not 64 hexadecimal digits; `NotEvidence`;
/// `OutOfMemory`; `CannotWrite`, with a beginning of the line written.
pub fn judge_file<W: Write>(
    alloc: Global,
    key: &str,
    file: &[u8],
    writer: &mut W,
) -> Result<Verdict, ProgramFault>
    ensures judges { JudgesFile key.now file.now (W.contents writer.old) result (W.contents writer.new) }
{
    let key = Hash32::new(option_hex32(key)?);
    judge_keyed(alloc, key, file, writer)
}

/// Opens the file of the order's name, reads it whole, and judges it as `judge_file` does.
///
/// # Errors
///
/// `BadHex`, before the file is opened; `CannotRead` if the file cannot be opened or read, with a line to the errors that says
/// why; then those of `judge_file`.
pub fn judge_at<F: Files, W: Write, E: Write>(
    alloc: Global,
    files: &F,
    order: JudgeOrder<'_>,
    writer: &mut W,
    errors: &mut E,
) -> Result<Verdict, ProgramFault>
    ensures judges { JudgesAt order.entry.signing_key.now (W.contents writer.old) result (W.contents writer.new) }
    ensures tells { TellsOfFile order.entry.file.now result (E.contents errors.old) (E.contents errors.new) }
{
    let key = Hash32::new(option_hex32(order.signing_key)?);
    match read_at(alloc, files, order.file) {
        Ok(file) => judge_keyed(alloc, key, &file, writer),
        Err(why) => {
            tell_error(alloc, "", order.file, &why.error, errors);
            Err(why.fault)
        }
    }
}
