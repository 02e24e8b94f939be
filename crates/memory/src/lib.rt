//! What an owner's client remembers between runs beside the chain of roots: promises, how far names were
//! watched, replies that stated keys with Final, alarms and evidence. The lines are this directory's own.
//!
//! Callers can rely on this: a line is of one item, and `read_item` reads exactly the lines of items. `take` changes the
//! memory by one item, `leave` drops exactly the promises that nobody needs, `settle` exactly the alarms of a
//! name. No item is kept twice. Whole lines that spell a memory, with those behind them that it appends as it learns, spell
//! it as it is then, and so does the text of `write`.
#![tactic(auto)]

mod alarm;
mod copying;
mod evidence_line;
mod final_seen;
mod item;
mod kind;
mod laws;
mod learning;
mod leaving;
mod mark;
mod memory;
mod promised;
mod promises;
mod putting;
mod read_fault;
mod reading;
mod recalling;
mod reply_text;
mod telling;
mod watching;
mod words;
mod writing;

pub use alarm::Alarm;
pub use copying::{copied_finals, copied_marks};
pub use evidence_line::EvidenceLine;
pub use final_seen::FinalSeen;
pub use item::Item;
pub use kind::Kind;
pub use laws::{
    changed_memory_is_spelled, line_is_one_item, lines_extend_memory, memory_stays_sound,
    memory_text_is_whole_lines, spelled_memory_is_sound, text_is_one_memory, text_spells_memory,
};
pub use learning::begins_behind;
pub use mark::Mark;
pub use memory::Memory;
pub use promised::Promised;
pub use read_fault::ReadFault;
pub use reading::read_item;
pub use recalling::{first_line, read_memory};
pub use reply_text::ReplyText;
pub use watching::{is_awaited, watched_up_to};
