/// What is looked for among the lines that were told.
#[derive(Clone, Copy)]
pub enum Kind {
    Alarms,
    EvidenceLines,
}
