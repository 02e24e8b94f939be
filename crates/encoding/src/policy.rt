ghost use Rattle.std.specs.Prelude.{◌≡◌, ◌≢◌, ◌≤◌, length, None, Some, MatchOption, MatchResult};
ghost use Rattle.encoding.specs.declared.fault.Fault.TheVariants.{OutOfRange};
ghost use Rattle.encoding.specs.Policies.{policy_byte, policy_bytes, policy_named, policy_of, policy_word, version_of};
ghost use Rattle.encoding.specs.declared.policy.Policy.{Policy as Named};

use crate::Fault;

/// What a binding of version 2 promises. One of version 1 has no policy, which is neither of these.
#[derive(Clone, Copy, Debug, PartialEq, Eq)]
pub enum Policy {
    /// The key may be changed.
    Open,
    /// The key is never changed.
    Final,
}

impl Policy {
    /// The policy of this byte. The only refusal is `OutOfRange`.
    pub fn new(byte: u8) -> Result<Policy, Fault>
        ensures { MatchResult result (λ policy. policy_of byte ≡ Some policy) (λ fault. (policy_of byte ≡ None) × (fault ≡ OutOfRange)) }
    {
        match byte {
            1 => Ok(Policy::Open),
            2 => Ok(Policy::Final),
            _ => Err(Fault::OutOfRange),
        }
    }

    /// The policy of this name in a line of text, if there is one.
    pub fn of_word(word: &[u8]) -> Option<Policy>
        ensures named { result ≡ policy_named word.now }
        ensures word { MatchOption result ((policy : Named) → word.now ≢ policy_word policy) (λ policy. word.now ≡ policy_word policy) }
    {
        if word == b"open".as_slice() {
            return Some(Policy::Open);
        }
        if word == b"final".as_slice() {
            return Some(Policy::Final);
        }
        None
    }

    /// The name in a line of text.
    pub fn word(self) -> &'static [u8]
        ensures { result.now ≡ policy_word self }
    {
        match self {
            Policy::Open => b"open",
            Policy::Final => b"final",
        }
    }

    /// The byte.
    pub fn byte(self) -> u8
        ensures { result ≡ policy_byte self }
    {
        match self {
            Policy::Open => 1,
            Policy::Final => 2,
        }
    }
}

/// How many bytes a policy has where there is one, and 0 where there is none.
pub fn policy_len(policy: Option<Policy>) -> usize
    ensures value { result ≡ length (policy_bytes policy) }
    ensures most { result ≤ 1 }
{
    match policy {
        None => 0,
        Some(_) => 1,
    }
}

/// The version of a form: 1 without a policy, 2 with one.
pub fn version_of(policy: Option<Policy>) -> u8
    ensures { result ≡ version_of policy }
{
    match policy {
        None => 1,
        Some(_) => 2,
    }
}
