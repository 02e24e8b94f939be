// The files of a state: in one stand the signed roots of a chain, one a line in hexadecimal digits, and in a second one
// beside it what is remembered. Both only grow while a run goes on, the first one ahead of the second, and each line is on
// the disk before more is told. At the end of a run a new second file, without the lines that no longer hold, takes the
// place of the old one. A line without its LF was cut short, and is dropped. Contracts do not know what a file holds:
// `scripts/drive/states.py` shows it.
ghost use Rattle.std.specs.Prelude.{◌≡◌, ◌≢◌, ◌⊎◌, ◌<◌, ◌≤◌, ◌++◌, ℕ, [], All, length, List, Err, IfErr, IfOk, Ok, option_map};
ghost use Rattle.textio.specs.declared.program_fault.ProgramFault.TheVariants.{OutOfMemory};
ghost use Rattle.textio.specs.Lines.{lines_of};
ghost use Rattle.memory.specs.Memories.{nothing};
ghost use Rattle.memory.specs.Texts.{HasWholeLines, Spells};
ghost use Rattle.runs.specs.Loading.{IsFaultAt, IsSecond, LoadsClient, StartsFrom};
ghost use Rattle.asking.specs.FinalBindings.{no_finals, IsKnownIn};
ghost use Rattle.runs.specs.Remembering.{AreWithin};
ghost use Rattle.asking.specs.Reports.{report_of};
ghost use Rattle.runs.specs.RunFaults.{IsFaultOfSaving, IsFaultOfState};
ghost use Rattle.runs.specs.Runs.{KeepsAll};
ghost use Rattle.runs.specs.Saves.{AreEarlier, HasOneOfEachName};

use crate::keeper::{Keeper, Loaded};
use crate::lines::{fault_of, line_bytes, remember, roots_text, take_lines};
use asking::{Asker, Checks, Said};
use client::Client;
use encoding::Hash32;
use files::{
    FileFault, LockFault, append, cut, error_line, open_existing, open_kept, open_locked,
    read_rest, replace,
};
use memory::{Memory, first_line};
use nodehash::NodeHash;
use play::{push_hex, push_number};
use sigiface::Verifier;
use std::alloc::{AllocError, Global};
use std::fs::{File, Files};
use std::io::{ErrorKind, Write};
use textio::{ProgramFault, write_text};
use vrfiface::VufCheck;

/// How a line about a file of the state begins.
const STATE: &str = "state: ";

/// A file that was read.
#[derive(Drop)]
struct LineFile {
    file: File,
    bytes: Vec<u8>,
}

/// The files of a state.
#[derive(Drop)]
pub(crate) struct StateFiles<'a, F> {
    alloc: Global,
    files: &'a F,
    path: &'a str,
    beside: String,
    roots: Option<File>,
    kept: Option<File>,
    /// The line that says why something could not be saved; empty if all was.
    unsaved: Vec<u8>,
}

/// The front of the bytes up to the last LF.
fn whole_lines(bytes: &[u8]) -> &[u8]
    ensures size { length result.now ≤ length bytes.now }
    ensures whole { HasWholeLines result.now }
    ensures rest { (rest : List ℕ) × (bytes.now ≡ result.now ++ rest) × All (λ byte. byte ≢ 10) rest }
{
    match bytes.iter().rposition(|byte| *byte == b'\n') {
        Some(place) => bytes.split_at(place + 1).0,
        None => &[],
    }
}

/// Says something of a file of the state, in a line of the errors.
fn tell_file(said: &mut Said, path: &str, what: &[u8]) -> Result<(), AllocError>
    ensures { report_of said.new ≡ report_of said.old }
{
    push_words(&mut said.words, path, what)
}

/// Appends what is said of a file of the state.
fn push_words(words: &mut Vec<u8>, path: &str, what: &[u8]) -> Result<(), AllocError> {
    words.extend_from_slice(STATE.as_bytes())?;
    words.extend_from_slice(path.as_bytes())?;
    words.extend_from_slice(b": ")?;
    words.extend_from_slice(what)?;
    words.extend_from_slice(b"\n")
}

/// A fault that a file of the state has. Where it is of a line, the file is named in a line of the errors.
fn fault_in(path: &str, fault: ProgramFault, said: &mut Said) -> ProgramFault
    ensures fault { IsFaultOfState fault → IsFaultOfState result }
    ensures same { (result ≡ fault) ⊎ (result ≡ OutOfMemory) }
    ensures said { report_of said.new ≡ report_of said.old }
{
    if !matches!(fault, ProgramFault::BadItem(_)) {
        return fault;
    }
    match tell_file(said, path, b"not as a run wrote it") {
        Ok(()) => fault,
        Err(_) => ProgramFault::OutOfMemory,
    }
}

/// The fault of the system for a file of the state. What the system said is said in a line of the errors, where there is
/// memory for it.
fn system_fault(alloc: Global, path: &str, why: &FileFault, said: &mut Said) -> ProgramFault
    ensures fault { result ≡ why.now.fault }
    ensures said { report_of said.new ≡ report_of said.old }
{
    if let Ok(line) = error_line(alloc, STATE, path, &why.error) {
        let _said = said.words.extend_from_slice(&line);
    }
    why.fault
}

/// Drops the end of a file that was cut short, and says so.
fn drop_rest(
    alloc: Global,
    path: &str,
    read: &LineFile,
    said: &mut Said,
) -> Result<(), ProgramFault>
    ensures err { IfErr result IsFaultOfSaving }
    ensures said { report_of said.new ≡ report_of said.old }
{
    let whole = whole_lines(&read.bytes).len();
    let rest = read.bytes.len() - whole;
    if rest == 0 {
        return Ok(());
    }
    let mut what = Vec::new(alloc);
    push_number(&mut what, rest as u64)?;
    what.extend_from_slice(b" bytes cut off")?;
    tell_file(said, path, &what)?;
    match cut(&read.file, whole) {
        Ok(()) => Ok(()),
        Err(why) => Err(system_fault(alloc, path, &why, said)),
    }
}

/// Whether there is a file of this path.
fn is_there<F: Files<File = File>>(files: &F, path: &str) -> bool {
    match files.metadata(path) {
        Ok(_) => true,
        Err(error) => error.kind() != ErrorKind::NotFound,
    }
}

/// Opens the file of the roots, made empty if it is not there, locks it, and reads it.
fn open_roots<F: Files<File = File>>(
    alloc: Global,
    files: &F,
    path: &str,
    said: &mut Said,
) -> Result<LineFile, ProgramFault>
    ensures err { IfErr result IsFaultOfState }
    ensures said { report_of said.new ≡ report_of said.old }
{
    match open_locked(files, path) {
        Ok(file) => read_lines(alloc, path, file, said),
        Err(LockFault::Taken) => {
            tell_file(said, path, b"another run has it")?;
            Err(ProgramFault::CannotWrite)
        }
        Err(LockFault::File(why)) => Err(system_fault(alloc, path, &why, said)),
    }
}

/// Opens the second file and reads it, if it is there.
fn open_second<F: Files<File = File>>(
    alloc: Global,
    files: &F,
    path: &str,
    said: &mut Said,
) -> Result<Option<LineFile>, ProgramFault>
    ensures err { IfErr result IsFaultOfState }
    ensures said { report_of said.new ≡ report_of said.old }
{
    match open_existing(files, path) {
        Ok(Some(file)) => Ok(Some(read_lines(alloc, path, file, said)?)),
        Ok(None) => Ok(None),
        Err(why) => Err(system_fault(alloc, path, &why, said)),
    }
}

/// Reads a file.
fn read_lines(
    alloc: Global,
    path: &str,
    mut file: File,
    said: &mut Said,
) -> Result<LineFile, ProgramFault>
    ensures err { IfErr result IsFaultOfState }
    ensures said { report_of said.new ≡ report_of said.old }
{
    match read_rest(alloc, &mut file) {
        Ok(bytes) => Ok(LineFile { file, bytes }),
        Err(why) => Err(system_fault(alloc, path, &why, said)),
    }
}

/// What asks with the roots of these lines.
fn asker_from<H, V, S>(
    alloc: Global,
    lines: &[u8],
    checks: Checks<H, V, S>,
    key: Hash32,
    token: Hash32,
) -> Result<Asker<H, V, S>, ProgramFault>
where
    H: NodeHash + Drop,
    V: VufCheck + Drop,
    S: Verifier + Drop,
    requires { 0 < length lines.now }
    ensures starts { IfOk result (λ asker. StartsFrom H.digest_of S.verified key (lines_of lines.now) (Ok asker.client)) }
    ensures names { IfErr result (IsFaultAt (λ bad. StartsFrom H.digest_of S.verified key (lines_of lines.now) (Err bad))) }
    ensures knows { IfOk result (λ asker. (asker.key ≡ key) × (asker.token ≡ token) × (asker.monitors.items ≡ [])) }
    ensures chain { IfOk result (λ asker. asker.client.chain.key ≡ key) }
    ensures none { IfOk result (λ asker. asker.earlier.items ≡ []) }
    ensures known { IfOk result (λ asker. asker.known ≡ nothing) }
    ensures marks { IfOk result (λ asker. asker.marks.items ≡ []) }
    ensures changes { IfOk result (λ asker. asker.changes.items ≡ []) }
    ensures finals { IfOk result (λ asker. asker.finals ≡ no_finals) }
    ensures err { IfErr result IsFaultOfState }
{
    let (line, behind) = first_line(lines);
    let first = line_bytes(alloc, line, 1)?;
    let mut asker = match Asker::start(alloc, checks, key, token, &first) {
        Ok(asker) => asker,
        Err(why) => return Err(fault_of(&why, 1)),
    };
    take_lines(&mut asker, behind)?;
    Ok(asker)
}

/// The fault of saving, where a file could not be opened or written.
fn saving_fault(fault: ProgramFault) -> ProgramFault
    ensures { IsFaultOfSaving result }
{
    match fault {
        ProgramFault::OutOfMemory => ProgramFault::OutOfMemory,
        _ => ProgramFault::CannotWrite,
    }
}

/// The outcome of saving something in the file of a path. The line about what the system said first is kept, where there is
/// memory for it.
fn saved(
    alloc: Global,
    path: &str,
    outcome: Result<(), FileFault>,
    unsaved: &mut Vec<u8>,
) -> Result<(), ProgramFault>
    ensures { IfErr result IsFaultOfSaving }
{
    match outcome {
        Ok(()) => Ok(()),
        Err(why) => {
            if unsaved.is_empty() {
                if let Ok(line) = error_line(alloc, STATE, path, &why.error) {
                    *unsaved = line;
                }
            }
            Err(saving_fault(why.fault))
        }
    }
}

impl<'a, F: Files<File = File>> StateFiles<'a, F> {
    /// Those of this path, not yet opened.
    pub(crate) fn new(alloc: Global, files: &'a F, path: &'a str) -> Result<Self, AllocError> {
        Ok(StateFiles {
            alloc,
            files,
            path,
            beside: format!(in alloc; "{path}.kept")?,
            roots: None,
            kept: None,
            unsaved: Vec::new(alloc),
        })
    }
}

impl<F: Files<File = File>> StateFiles<'_, F> {
    /// What asks with the roots of these lines, and knows what the second file has, if it is there.
    fn loaded<H, V, S>(
        &self,
        lines: &[u8],
        second: Option<&LineFile>,
        checks: Checks<H, V, S>,
        key: Hash32,
        token: Hash32,
        said: &mut Said,
    ) -> Result<Loaded<H, V, S>, ProgramFault>
    where
        H: NodeHash + Drop,
        V: VufCheck + Drop,
        S: Verifier + Drop,
        requires { 0 < length lines.now }
        ensures loads { IfOk result (λ found. LoadsClient H.digest_of V.accepted S.verified key lines.now (option_map (λ file. (file.now).bytes.items) second.entry) (Ok found.asker.client)) }
        ensures names { IfErr result (IsFaultAt (λ bad. LoadsClient H.digest_of V.accepted S.verified key lines.now (option_map (λ file. (file.now).bytes.items) second.entry) (Err bad))) }
        ensures spells { IfOk result (λ found. (text : List ℕ) × IsSecond (option_map (λ file. (file.now).bytes.items) second.entry) text × Spells text (Ok found.asker.known)) }
        ensures knows { IfOk result (λ found. (found.asker.key ≡ key) × (found.asker.token ≡ token) × (found.asker.monitors.items ≡ []) × (found.asker.changes.items ≡ [])) }
        ensures chain { IfOk result (λ found. found.asker.client.chain.key ≡ key) }
        ensures kept { IfOk result (λ found. KeepsAll found.asker.client found.asker.earlier.items) }
        ensures own { IfOk result (λ found. AreEarlier found.asker.known found.asker.earlier.items) }
        ensures memory { IfOk result (λ found. (found.memory ≡ found.asker.known) × (found.asker.marks.items ≡ found.memory.marks)) }
        ensures marks { IfOk result (λ found. AreWithin found.asker.client.chain found.memory × HasOneOfEachName found.memory) }
        ensures finals { IfOk result (λ found. IsKnownIn found.asker.known found.asker.finals) }
        ensures text { IfOk result (λ found. (text : List ℕ) × HasWholeLines text × Spells text (Ok found.asker.known)) }
        ensures said { report_of said.new ≡ report_of said.old }
        ensures err { IfErr result IsFaultOfState }
    {
        let mut asker = match asker_from(self.alloc, lines, checks, key, token) {
            Ok(asker) => asker,
            Err(fault) => return Err(fault_in(self.path, fault, said)),
        };
        let Some(second) = second else {
            let memory = Memory::new(self.alloc);
            return Ok(Loaded {
                asker,
                memory,
                size: 0,
            });
        };
        let lines = whole_lines(&second.bytes);
        match remember(&mut asker, lines) {
            Ok(memory) => Ok(Loaded {
                asker,
                memory,
                size: lines.len(),
            }),
            Err(fault) => Err(fault_in(self.beside.as_str(), fault, said)),
        }
    }

    /// Says that evidence and alarms are of an earlier run, in a line of the errors for each.
    fn explain_earlier(&self, known: &Memory, said: &mut Said) -> Result<(), AllocError>
        ensures { report_of said.new ≡ report_of said.old }
    {
        let mut words = Vec::new(self.alloc);
        for _ in known.evidence() {
            push_words(
                &mut words,
                self.beside.as_str(),
                b"evidence of an earlier run",
            )?;
        }
        for alarm in known.alarms() {
            let mut what = Vec::from_slice(self.alloc, b"alarm of an earlier run for ")?;
            push_hex(&mut what, alarm.name.bytes())?;
            what.extend_from_slice(b" at epoch ")?;
            push_number(&mut what, alarm.epoch)?;
            push_words(&mut words, self.beside.as_str(), &what)?;
        }
        said.words.extend_from_slice(&words)
    }
}

impl<F: Files<File = File>> Keeper for StateFiles<'_, F> {
    ghost use Rattle.std.specs.Prelude.{⊤};

    // Contracts do not know what a file holds.
    ghost has = { λ _ _. ⊤ };

    fn load<H, V, S>(
        &mut self,
        checks: Checks<H, V, S>,
        key: Hash32,
        token: Hash32,
        said: &mut Said,
    ) -> Result<Result<Loaded<H, V, S>, Checks<H, V, S>>, ProgramFault>
    where
        H: NodeHash + Drop,
        V: VufCheck + Drop,
        S: Verifier + Drop,
    {
        if is_there(self.files, self.beside.as_str()) && !is_there(self.files, self.path) {
            return Err(fault_in(self.path, ProgramFault::BadItem(1), said));
        }
        let roots = open_roots(self.alloc, self.files, self.path, said)?;
        let second = open_second(self.alloc, self.files, self.beside.as_str(), said)?;
        let lines = whole_lines(&roots.bytes);
        if lines.is_empty() {
            if second.is_some() {
                return Err(fault_in(self.path, ProgramFault::BadItem(1), said));
            }
            drop_rest(self.alloc, self.path, &roots, said)?;
            self.roots = Some(roots.file);
            return Ok(Err(checks));
        }
        let loaded = self.loaded(lines, second.as_ref(), checks, key, token, said)?;
        drop_rest(self.alloc, self.path, &roots, said)?;
        if let Some(second) = second {
            drop_rest(self.alloc, self.beside.as_str(), &second, said)?;
            self.kept = Some(second.file);
        }
        self.roots = Some(roots.file);
        self.explain_earlier(&loaded.memory, said)?;
        Ok(Ok(loaded))
    }

    fn add_roots<H, V, S, W>(
        &mut self,
        client: &Client<H, V, S>,
        epoch: u64,
        _writer: &W,
    ) -> Result<(), ProgramFault>
    where
        H: NodeHash + Drop,
        V: VufCheck + Drop,
        S: Verifier + Drop,
        W: Write,
    {
        let lines = roots_text(self.alloc, client, epoch)?;
        match self.roots.as_mut() {
            Some(file) => {
                let outcome = append(file, &lines);
                saved(self.alloc, self.path, outcome, &mut self.unsaved)
            }
            None => Err(ProgramFault::CannotWrite),
        }
    }

    fn add<W: Write>(&mut self, lines: &[u8], _writer: &W) -> Result<(), ProgramFault> {
        if self.kept.is_none() {
            match open_kept(self.files, self.beside.as_str()) {
                Ok(file) => self.kept = Some(file),
                Err(why) => {
                    let path = self.beside.as_str();
                    return saved(self.alloc, path, Err(why), &mut self.unsaved);
                }
            }
        }
        match self.kept.as_mut() {
            Some(file) => {
                let outcome = append(file, lines);
                saved(self.alloc, self.beside.as_str(), outcome, &mut self.unsaved)
            }
            None => Err(ProgramFault::CannotWrite),
        }
    }

    fn replace<W: Write>(&mut self, text: &[u8], _writer: &W) -> Result<(), ProgramFault> {
        self.kept = None;
        let outcome = replace(self.alloc, self.files, self.beside.as_str(), text);
        saved(self.alloc, self.beside.as_str(), outcome, &mut self.unsaved)
    }

    fn tell_unsaved<E: Write>(&self, errors: &mut E) {
        let _told = write_text(errors, &self.unsaved);
    }
}
