ghost use Rattle.std.specs.Prelude.{◌≡◌, ◌+◌, ◌<◌, ◌≤◌, ◌^◌, [], length, MatchOption};
ghost use Rattle.encoding.specs.Policies.{policy_bytes};
ghost use Rattle.nodehash.specs.Digests.{one_more};
ghost use Rattle.commit.specs.Commitments.{commitment_bytes};
ghost use Rattle.commit.specs.declared.commitment.TheConstants.{LEN_BESIDE, SHORT_LEN};

use encoding::{BoundKey, FixedText, Hash32, Name, Policy, Text, policy_len, version_of};
use nodehash::{LEAF_LEN, NodeHash, NodeText};

/// The kind byte of a commitment: the letter C.
const COMMITMENT: u8 = 0x43;

/// The bytes of a text beside those of the policy, the name and the key.
pub const LEN_BESIDE: usize = 38;

/// The most bytes of a policy, a name and its key together whose text is no longer than that of a leaf.
pub const SHORT_LEN: usize = LEAF_LEN - LEN_BESIDE;

/// The text of the commitment that binds a key to a name under a salt: 38 bytes beside those of the
/// name and the key, and one more with a policy.
pub fn commit_text(salt: &Hash32, name: &Name, key: &BoundKey) -> Text
    ensures value { result ≡ commitment_bytes salt.now name.now key.now }
    ensures len { length result ≡ LEN_BESIDE + length (policy_bytes key.now.policy) + length name.now + length key.now.value }
{
    let mut text = Text::new();
    write_commitment(&mut text, salt, name.bytes(), key.bytes(), key.policy);
    text
}

/// The text of the commitment that binds a key to a name under a salt, unless it is longer than that of a leaf,
/// of 101 bytes.
pub fn short_commit_text(
    salt: &Hash32,
    name: &[u8],
    key: &[u8],
    policy: Option<Policy>,
) -> Option<NodeText>
    ensures { MatchOption result (SHORT_LEN < length (policy_bytes policy) + length name.now + length key.now) (λ text. text ≡ commitment_bytes salt.now name.now (record { value = key.now; policy = policy })) }
{
    let room = SHORT_LEN - policy_len(policy);
    if name.len() > room {
        return None;
    }
    if key.len() > room - name.len() {
        return None;
    }
    let mut text = NodeText::new();
    write_commitment(&mut text, salt, name, key, policy);
    Some(text)
}

/// Writes the text of a commitment into an empty room.
fn write_commitment<const ROOM: usize>(
    text: &mut FixedText<ROOM>,
    salt: &Hash32,
    name: &[u8],
    key: &[u8],
    policy: Option<Policy>,
)
    requires empty { text.old ≡ [] }
    requires short_name { length name.now < 2 ^ 16 }
    requires short_key { length key.now < 2 ^ 16 }
    requires room { LEN_BESIDE + length (policy_bytes policy) + length name.now + length key.now ≤ ROOM }
    ensures value { text.new ≡ commitment_bytes salt.now name.now (record { value = key.now; policy = policy }) }
    ensures len { length text.new ≡ LEN_BESIDE + length (policy_bytes policy) + length name.now + length key.now }
{
    text.push(COMMITMENT);
    text.push(version_of(policy));
    text.push_policy(policy);
    text.push_slice(salt.bytes());
    text.push_counted(name);
    text.push_counted(key);
}

/// The commitment that binds a key to a name under a salt, for one digest.
pub fn commit<H: NodeHash>(hash: &mut H, salt: &Hash32, name: &Name, key: &BoundKey) -> Hash32
    ensures value { result ≡ H.digest_of (commitment_bytes salt.now name.now key.now) }
    ensures count { H.digests hash.new ≡ one_more (H.digests hash.old) }
{
    // The text is written where it is read: `commit_text` hands out a copy of its room.
    let mut text = Text::new();
    write_commitment(&mut text, salt, name.bytes(), key.bytes(), key.policy);
    hash.digest(text.bytes())
}
