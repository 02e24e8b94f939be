ghost use Rattle.std.specs.Prelude.{◌≡◌, ◌++◌, [], ℕ, List, Result, Ok};
ghost use Rattle.rootchain.specs.declared.signed_promise.SignedPromise.{SignedPromise};
ghost use Rattle.memory.specs.declared.item.Item.{Item};
ghost use Rattle.memory.specs.Leaving.{Leaves, Settles};
ghost use Rattle.memory.specs.Lines.{IsLineOf};
ghost use Rattle.memory.specs.Memories.{Memory, HoldsEachOnce};
ghost use Rattle.memory.specs.declared.read_fault.ReadFault.{ReadFault};
ghost use Rattle.memory.specs.Texts.{items_text, memory_text, HasWholeLines, HoldsSound, Spells, TakesAll};

/// A line is of one item.
pub fn line_is_one_item()
    ensures { (line : List ℕ) (one other : Item) → IsLineOf line one → IsLineOf line other → one ≡ other }
{}

/// The text of a memory spells it, if each of its items has a line.
pub fn text_spells_memory()
    ensures { (memory : Memory) → HoldsEachOnce memory → HoldsSound memory → Spells (memory_text memory) (Ok memory) }
{}

/// A text spells one memory, or has one first line that is no item.
pub fn text_is_one_memory()
    ensures { (text : List ℕ) (one other : Result Memory ReadFault) → Spells text one → Spells text other → one ≡ other }
{}

/// Whole lines that spell a memory, with the lines of items that it takes behind them, spell the memory as it is then.
/// They are whole lines again. Without lines it takes nothing.
pub fn lines_extend_memory()
    ensures spells { (text : List ℕ) (before after : Memory) (news : List Item) → HasWholeLines text → Spells text (Ok before) → TakesAll news before after → Spells (text ++ items_text news) (Ok after) }
    ensures none { (news : List Item) (before after : Memory) → TakesAll news before after → items_text news ≡ [] → after ≡ before }
    ensures whole { (text : List ℕ) (items : List Item) → HasWholeLines text → HasWholeLines (text ++ items_text items) }
{}

/// The text of a memory has whole lines.
pub fn memory_text_is_whole_lines()
    ensures { (memory : Memory) → HasWholeLines (memory_text memory) }
{}

/// Each item of a memory that a text spells has a line, and none is there twice.
pub fn spelled_memory_is_sound()
    ensures sound { (text : List ℕ) (memory : Memory) → Spells text (Ok memory) → HoldsSound memory }
    ensures once { (text : List ℕ) (memory : Memory) → Spells text (Ok memory) → HoldsEachOnce memory }
{}

/// Each item still has a line after a memory took items, lost promises, or lost alarms.
pub fn memory_stays_sound()
    ensures takes { (news : List Item) (before after : Memory) → TakesAll news before after → HoldsSound before → HoldsSound after }
    ensures leaves { (tested : List SignedPromise) (before after : Memory) → Leaves tested before after → HoldsSound before → HoldsSound after }
    ensures settles { (name : List ℕ) (before after : Memory) → Settles name before after → HoldsSound before → HoldsSound after }
{}

/// If a text spells a memory, which takes items and then loses promises or alarms, the text of what is left spells it.
pub fn changed_memory_is_spelled()
    ensures leaves { (text : List ℕ) (before learned after : Memory) (news : List Item) (tested : List SignedPromise) → Spells text (Ok before) → TakesAll news before learned
        → Leaves tested learned after → Spells (memory_text after) (Ok after) }
    ensures settles { (text : List ℕ) (before learned after : Memory) (news : List Item) (name : List ℕ) → Spells text (Ok before) → TakesAll news before learned
        → Settles name learned after → Spells (memory_text after) (Ok after) }
{}
