// Runs of a sweep in a row, which are told at once.
use questions::Case;
use std::fmt::{self, Display};

/// So many runs in a row that ended the same.
#[derive(Clone, Copy, Debug)]
pub(crate) struct Row<T> {
    runs: u64,
    end: T,
}

impl<T: Display> Display for Row<T> {
    fn fmt<W: fmt::Write>(&self, f: &mut fmt::Formatter<W>) -> fmt::Result {
        let runs = self.runs;
        let end = &self.end;
        write!(f, "{runs} {end};")
    }
}

/// Counts a run to those before it that ended the same, or tells them and begins to count anew.
pub(crate) fn counted<T>(case: &mut Case<'_>, row: Option<Row<T>>, end: T) -> Row<T>
where
    T: Copy + Display + Drop + PartialEq,
{
    match row {
        Some(row) if row.end == end => Row {
            runs: row.runs.saturating_add(1),
            end,
        },
        _ => {
            tell(case, row);
            Row { runs: 1, end }
        }
    }
}

pub(crate) fn tell<T: Copy + Display + Drop>(case: &mut Case<'_>, row: Option<Row<T>>) {
    if let Some(row) = row {
        case.say_shown(row);
    }
}
