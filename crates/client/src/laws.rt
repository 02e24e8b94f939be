ghost use Rattle.client.specs.Agreements.{IsReconciled};
ghost use Rattle.client.specs.Clients.{Client};
ghost use Rattle.client.specs.UpdatingFrom.{UpdatesAsItsChain, UpdatesComeToOne, UpdatesMayBeCut};
ghost use Rattle.client.specs.declared.outcome.Outcome.TheVariants.{TwoValues};

use nodehash::NodeHash;
use sigiface::Verifier;
use vrfiface::UniqueVuf;

/// Under a function that accepts one value for a key and a name, `reconcile` never returns two values.
pub fn two_values_are_never_told<H: NodeHash, V: UniqueVuf>()
    ensures { (one other : Client) → ¬ IsReconciled H.digest_of V.accepted one other TwoValues }
{}

/// Where the bytes of a list of roots are cut into pieces for `Client::update_from` does not matter, unless
/// memory runs out: the roots up to the first that `Client::update` would refuse are taken.
pub fn cuts_of_a_list_do_not_matter<H: NodeHash, S: Verifier>()
    ensures { UpdatesMayBeCut H.digest_of S.verified }
{}

/// Pieces of any bytes for `Client::update_from` come to what they would come to as one piece, unless memory
/// runs out: to the same first refusal, client and feed.
pub fn pieces_come_to_one<H: NodeHash, S: Verifier>()
    ensures { UpdatesComeToOne H.digest_of S.verified }
{}

/// Pieces for `Client::update_from` come to what they come to for the client's chain, with the client's numbers for
/// its refusals: so the laws of `rootchain` on pieces hold for it.
pub fn pieces_come_to_the_chain<H: NodeHash, S: Verifier>()
    ensures { UpdatesAsItsChain H.digest_of S.verified }
{}
