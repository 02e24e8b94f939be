//! Evidence against a provider as JSON, which anybody can judge, and the programs `audit` and `judge`. After
//! CONIKS, section 4; the form of a file and the lines of the programs are this directory's own.
//!
//! To the layers above: `evidence_json` writes exactly the definition's bytes, and `read_evidence` reads
//! exactly the files of evidence, so what was written is read back. It also reads white space, the keys
//! in another order and hexadecimal digits in upper case. `audit` writes exactly an auditor's answers to
//! the lines that it reads, and `judge_file` exactly the verdict on the bytes of a file.
//!
//! ```text
//! let file = evidence_json(alloc, &evidence)?;
//! let again = read_evidence(alloc, file.as_bytes())?;
//! ```
#![tactic(auto)]

mod auditing;
mod judging;
mod laws;
mod orders;
mod read_fault;
mod reading;
mod writing;

pub use auditing::audit;
pub use judging::{Verdict, judge_at, judge_file};
pub use laws::{file_is_one_evidence, text_is_compact, text_is_file};
pub use orders::{AuditOrder, JudgeOrder};
pub use read_fault::ReadFault;
pub use reading::read_evidence;
pub use writing::evidence_json;
