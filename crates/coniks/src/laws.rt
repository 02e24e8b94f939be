ghost use Rattle.std.specs.Prelude.{◌↔◌, ℕ, List, Bool, Option};
ghost use Rattle.encoding.specs.declared.bound_key.BoundKey.{BoundKey};
ghost use Rattle.rootchain.specs.declared.body.Body.{Body};
ghost use Rattle.proofs.specs.Accepts.{Accepts};
ghost use Rattle.proofs.specs.Comparisons.{Refuses};
ghost use Rattle.proofs.specs.declared.reply_refusal.Refusal.{Refusal};
ghost use Rattle.coniks.specs.Told.{told, IsRight};

use nodehash::NodeHash;
use vrfiface::VufCheck;

/// Where what the caller says is right of its scheme, a reply is accepted and refused as under that scheme.
pub fn right_answers_decide<H: NodeHash, V: VufCheck>()
    ensures accepted { (body : Body) (name bytes : List ℕ) (is_accepted : Bool) (statement : Option BoundKey) → IsRight V.accepted body name bytes is_accepted
        → Accepts H.digest_of (told is_accepted) body name bytes statement ↔ Accepts H.digest_of V.accepted body name bytes statement }
    ensures refused { (body : Body) (name bytes : List ℕ) (is_accepted : Bool) (refusal : Refusal) → IsRight V.accepted body name bytes is_accepted
        → Refuses H.digest_of (told is_accepted) body name bytes refusal ↔ Refuses H.digest_of V.accepted body name bytes refusal }
{}
