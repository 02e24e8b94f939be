// Each session that is open at the start of a run has an output from there on, and each later one from its opening;
// what it is told is appended. The outputs are returned by the sessions' numbers, ascending.
ghost use Rattle.std.specs.Prelude.{◌≡◌, ◌++◌, [], ℕ, map, IfOk, OnOk};
ghost use Rattle.std.specs.List.Sorted.{IsStrictlySortedBy};
ghost use Rattle.std.specs.Map.{keys_of};
ghost use Rattle.std.specs.Option.{option_map};
ghost use Rattle.std.specs.Ordering.{nat_cmp};
ghost use Rattle.hub.specs.Events.{at_session};
ghost use Rattle.hub.specs.Outputs.{pair_seen, Appends};

use std::alloc::{AllocError, Global};
use std::collections::BTreeMap;
use std::marker::Model;
use wire::Feed;

/// What one session is told.
#[derive(Drop)]
struct Output {
    bytes: Vec<u8>,
}

impl Model for Output {
    ghost use Rattle.std.specs.Prelude.{List, ℕ};

    ghost Value = { List ℕ };

    ghost view = { λ output. output.bytes.items };
}

impl Output {
    /// An output of these bytes.
    fn new(alloc: Global, bytes: &[u8]) -> Result<Output, AllocError>
        ensures { IfOk result (λ output. output ≡ bytes.now) }
    {
        Ok(Output {
            bytes: Vec::from_slice(alloc, bytes)?,
        })
    }

    /// Appends bytes.
    fn append(&mut self, bytes: &[u8]) -> Result<(), AllocError>
        ensures { OnOk result (self.new ≡ self.old ++ bytes.now) }
    {
        self.bytes.extend_from_slice(bytes)
    }
}

/// The outputs of sessions, by their numbers.
#[derive(Drop)]
pub(crate) struct Outputs {
    alloc: Global,
    map: BTreeMap<u32, Output>,
}

impl Model for Outputs {
    ghost use Rattle.std.specs.Prelude.{List, ℕ};

    ghost Value = { List (ℕ × List ℕ) };

    ghost view = { λ outputs. outputs.map.entries };
}

impl Outputs {
    /// An empty output for each of these sessions.
    pub(crate) fn of_sessions(
        alloc: Global,
        sessions: &BTreeMap<u32, Feed>,
    ) -> Result<Outputs, AllocError>
        ensures empty { IfOk result (λ outputs. (session : ℕ) → at_session outputs session ≡ option_map (λ _. []) (at_session sessions.now.entries session)) }
        ensures ascend { IsStrictlySortedBy nat_cmp (keys_of sessions.now.entries) }
    {
        let mut outputs = Outputs {
            alloc,
            map: BTreeMap::new(alloc),
        };
        for (session, _) in sessions {
            outputs.append(*session, &[])?;
        }
        Ok(outputs)
    }

    /// Appends to the output of a session, which begins here if there is none.
    pub(crate) fn append(&mut self, session: u32, bytes: &[u8]) -> Result<(), AllocError>
        ensures { OnOk result (Appends self.old session bytes.now self.new) }
    {
        match self.map.get_mut(&session) {
            Some(output) => output.append(bytes),
            None => {
                let output = Output::new(self.alloc, bytes)?;
                self.map.insert(session, output)?;
                Ok(())
            }
        }
    }

    /// The outputs as a list, ascending by the numbers of their sessions.
    pub(crate) fn into_pairs(self) -> Result<Vec<(u32, Vec<u8>)>, AllocError>
        ensures outputs { IfOk result (λ pairs. map pair_seen pairs.items ≡ self) }
        ensures ascend { IsStrictlySortedBy nat_cmp (keys_of self) }
    {
        let mut pairs = Vec::with_capacity(self.alloc, self.map.len())?;
        for (session, output) in self.map {
            pairs.push((session, output.bytes))?;
        }
        Ok(pairs)
    }
}
