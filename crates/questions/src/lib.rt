//! Questions on libraries, one a line, and their answers: what the programs of test vectors share.
//!
//! A question is words with a space between each two: a verb, and arguments in hexadecimal digits or
//! decimal numbers. Its answer is one line. Empty lines and lines that begin with `#` are passed over.
//!
//! A word that is bytes has parts with a `+` between each two. A part is `-` (no byte), digits such as
//! `07ff`, digits that are repeated such as `07*255`, bytes that were named such as `$root`, or some of
//! them such as `$root/8/40`, from one place to below another. `let NAME WORD` names bytes.
//!
//! A call that lacks memory is made once more: if one allocation fails, the output stays the same.
//!
//! ```text
//! impl Subjects for State {
//!     fn answer(&mut self, case: &mut Case<'_>) {
//!         match case.word() {
//!             b"root" => self.root(case),
//!             _ => case.spoil(),
//!         }
//!     }
//! }
//! answer_all(alloc, &mut state, &mut reader, &mut writer)
//! ```
#![tactic(auto)]

mod any_sign;
mod case;
mod lines;
mod messages;
mod named;
mod saying;
mod word;

pub use any_sign::AnySign;
pub use case::Case;
pub use lines::{Subjects, answer_all};
pub use messages::{read_commands, tells_of_memory};
pub use saying::{
    refuse_root, say_ended, say_evidence, say_fault, say_place, say_policy, say_statement,
};
