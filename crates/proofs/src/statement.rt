ghost use Rattle.std.specs.Prelude.{◌≡◌, ◌↔◌, IsTrue, Some};
ghost use Rattle.proofs.specs.BrokenFinals.{states_final};
ghost use Rattle.proofs.specs.Views.{key_stated};

use encoding::{BoundKey, Policy};

/// What an accepted reply states of a name.
#[derive(Clone, Copy, Debug, PartialEq, Eq)]
pub enum Statement<'a> {
    /// The name is bound to this key, with this policy if the binding is of version 2.
    Present(&'a [u8], Option<Policy>),
    /// The name is bound to no key.
    Absent,
}

impl Statement<'_> {
    /// Whether the name is bound to this key, with its policy or with none.
    pub fn binds(self, key: &BoundKey) -> bool
        ensures { IsTrue result ↔ (key_stated self.entry ≡ Some key.now) }
    {
        match self {
            Statement::Present(stated, its) => stated == key.bytes() && its == key.policy,
            Statement::Absent => false,
        }
    }

    /// Whether the name is bound to a key that is never to change.
    pub fn is_final(self) -> bool
        ensures { result ≡ states_final (key_stated self.entry) }
    {
        match self {
            Statement::Present(_, Some(Policy::Final)) => true,
            Statement::Present(_, Some(Policy::Open)) => false,
            Statement::Present(_, None) => false,
            Statement::Absent => false,
        }
    }
}
