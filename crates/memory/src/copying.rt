// Copies of a memory's lists.

ghost use Rattle.std.specs.Prelude.{◌≡◌, IfOk};

use crate::{Alarm, EvidenceLine, FinalSeen, Mark};
use std::alloc::{AllocError, Global};

/// Copies of marks.
///
/// # Errors
///
/// `AllocError` if memory runs out.
pub fn copied_marks(alloc: Global, marks: &[Mark]) -> Result<Vec<Mark>, AllocError>
    ensures { IfOk result (λ copies. copies.items ≡ marks.now) }
{
    let mut copies = Vec::new(alloc);
    for mark in marks {
        copies.push(mark.copied())?;
    }
    Ok(copies)
}

/// Copies of replies.
///
/// # Errors
///
/// `AllocError` if memory runs out.
pub fn copied_finals(alloc: Global, finals: &[FinalSeen]) -> Result<Vec<FinalSeen>, AllocError>
    ensures { IfOk result (λ copies. copies.items ≡ finals.now) }
{
    let mut copies = Vec::new(alloc);
    for seen in finals {
        copies.push(seen.copied(alloc)?)?;
    }
    Ok(copies)
}

pub(crate) fn copied_alarms(alloc: Global, alarms: &[Alarm]) -> Result<Vec<Alarm>, AllocError>
    ensures { IfOk result (λ copies. copies.items ≡ alarms.now) }
{
    let mut copies = Vec::new(alloc);
    for alarm in alarms {
        copies.push(alarm.copied())?;
    }
    Ok(copies)
}

pub(crate) fn copied_lines(
    alloc: Global,
    evidence: &[EvidenceLine],
) -> Result<Vec<EvidenceLine>, AllocError>
    ensures { IfOk result (λ copies. copies.items ≡ evidence.now) }
{
    let mut copies = Vec::new(alloc);
    for line in evidence {
        copies.push(line.copied(alloc)?)?;
    }
    Ok(copies)
}
