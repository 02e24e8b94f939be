ghost use Rattle.std.specs.Prelude.{◌≡◌};

use encoding::Name;

/// How far a name was watched: each root of the chain above `since`, up to `epoch`.
#[derive(Drop, PartialEq, Eq)]
pub struct Mark {
    pub name: Name,
    pub since: u64,
    pub epoch: u64,
}

impl Mark {
    /// A copy.
    pub fn copied(&self) -> Mark
        ensures { result ≡ self.now }
    {
        Mark {
            name: self.name.copied(),
            since: self.since,
            epoch: self.epoch,
        }
    }
}
