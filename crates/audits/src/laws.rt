ghost use Rattle.std.specs.Prelude.{◌≡◌, ℕ, List};
ghost use Rattle.serde_json.specs.Written.{compact_text};
ghost use Rattle.auditor.specs.declared.evidence.Evidence.{Evidence};
ghost use Rattle.audits.specs.Files.{evidence_text, value_of, IsFileOf};
ghost use Rattle.audits.specs.Parts.{evidence_parts, IsFormed};

/// The text of well-formed evidence is what `serde_json` writes, with no space, of an object with its kind
/// and its parts in hexadecimal digits.
pub fn text_is_compact()
    ensures { (evidence : Evidence) → IsFormed evidence → evidence_text evidence ≡ compact_text (value_of (evidence_parts evidence)) }
{}

/// The text of well-formed evidence is a file of it.
pub fn text_is_file()
    ensures { (evidence : Evidence) → IsFormed evidence → IsFileOf (evidence_text evidence) evidence }
{}

/// A file is of one evidence.
pub fn file_is_one_evidence()
    ensures { (bytes : List ℕ) (one other : Evidence) → IsFileOf bytes one → IsFileOf bytes other → one ≡ other }
{}
