ghost use Rattle.std.specs.Prelude.{◌≡◌, ℕ, List, [], ◌++◌, Option};
ghost use Rattle.encoding.specs.declared.bound_key.BoundKey.{BoundKey};
ghost use Rattle.prefixtree.specs.Placement.{Items};
ghost use Rattle.rootchain.specs.declared.body.Body.{Body};
ghost use Rattle.proofs.specs.Accepts.{stated, Accepts, NamedReply};
ghost use Rattle.proofs.specs.Comparisons.{Answers, Refuses};
ghost use Rattle.proofs.specs.Honest.{IsHonest};
ghost use Rattle.proofs.specs.declared.reply_refusal.Refusal.{Refusal};
ghost use Rattle.proofs.specs.declared.comparing.SameOr.TheVariants.{TwoValues};
ghost use Rattle.proofs.specs.Replies.{reply_bytes, Reply, SpellsReply};

use nodehash::NodeHash;
use vrfiface::{UniqueVuf, VufCheck};

/// Bytes spell at most one reply.
pub fn bytes_spell_one_reply()
    ensures { (bytes : List ℕ) (first second : Reply) → SpellsReply bytes first → SpellsReply bytes second → first ≡ second }
{}

/// A reply has one spelling.
pub fn reply_has_one_spelling()
    ensures { (first second : List ℕ) (reply : Reply) → SpellsReply first reply → SpellsReply second reply → first ≡ second }
{}

/// No spelling of a reply begins another.
pub fn no_spelling_begins_another()
    ensures { (front rest : List ℕ) (first second : Reply) → SpellsReply front first → SpellsReply (front ++ rest) second → rest ≡ [] }
{}

/// What `make` writes of a tree's own path is accepted, with the statement of its end.
pub fn honest_replies_are_accepted<H: NodeHash, V: VufCheck>()
    ensures { (name : List ℕ) (items : Items) (reply : Reply) → IsHonest H.digest_of V.accepted name items reply
        → Accepts H.digest_of V.accepted reply.body name (reply_bytes reply) (stated reply.end) }
{}

/// A reply that is refused is not accepted, whatever it states; and one that is accepted is not refused.
pub fn refused_is_not_accepted<H: NodeHash, V: VufCheck>()
    ensures refused { (body : Body) (name bytes : List ℕ) (refusal : Refusal) → Refuses H.digest_of V.accepted body name bytes refusal
        → (statement : Option BoundKey) → ¬ Accepts H.digest_of V.accepted body name bytes statement }
    ensures accepted { (body : Body) (name bytes : List ℕ) (statement : Option BoundKey) → Accepts H.digest_of V.accepted body name bytes statement
        → (refusal : Refusal) → ¬ Refuses H.digest_of V.accepted body name bytes refusal }
{}

/// Under a function that accepts one value for a key and a name, a comparison never returns two values.
pub fn unique_values_never_differ<H: NodeHash, V: UniqueVuf>()
    ensures { (first second : NamedReply) → ¬ Answers H.digest_of V.accepted first second TwoValues }
{}
