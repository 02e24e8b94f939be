ghost use Rattle.std.specs.Prelude.{◌≡◌};

use encoding::{BoundKey, Name};

/// A key with its policy, or absence, that the owner of a name did not expect at an epoch.
#[derive(Drop, PartialEq, Eq)]
pub struct Alarm {
    pub name: Name,
    pub epoch: u64,
    /// The key that was found, with its policy if it has one, or `None` for absence.
    pub found: Option<BoundKey>,
}

impl Alarm {
    /// A copy.
    pub fn copied(&self) -> Alarm
        ensures { result ≡ self.now }
    {
        Alarm {
            name: self.name.copied(),
            epoch: self.epoch,
            found: copy_of(&self.found),
        }
    }
}

fn copy_of(found: &Option<BoundKey>) -> Option<BoundKey>
    ensures { result ≡ found.now }
{
    match found {
        Some(key) => Some(key.copied()),
        None => None,
    }
}
