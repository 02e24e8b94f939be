ghost use Rattle.std.specs.Prelude.{◌≡◌, ◌<◌, ◌≤◌, ℕ, List};
ghost use Rattle.std.specs.List.{AllByRecursion};
ghost use Rattle.rootchain.specs.Chains.{KeyedRoots};
ghost use Rattle.rootchain.specs.declared.signed_root.SignedRoot.{SignedRoot};
ghost use Rattle.proofs.specs.Views.{key_stated};
ghost use Rattle.proofs.specs.declared.statement.Statement.{Statement};
ghost use Rattle.monitor.specs.declared.step.Step.TheVariants as step;
ghost use Rattle.memory.specs.Lines.{IsAlarm, IsLineOf};
ghost use Rattle.memory.specs.declared.item.Item.TheVariants as items;
ghost use Rattle.play.specs.Telling.{step_text};
ghost use Rattle.asking.specs.Checking.{AreTold};
ghost use Rattle.asking.specs.Reports.{refused, Report};
ghost use Rattle.asking.specs.Wanted.{last_epoch, roots_sent, AreWanted, BeginFrom, IsOfChain, IsReached};
ghost use Rattle.asking.specs.declared.following.TheConstants.{MAX_LISTS};
ghost use Rattle.asking.specs.declared.said.TheConstants.{OTHER_INDEX, OTHER_REPLY};

use nodehash::NodeHash;
use sigiface::Verifier;

/// A reply that does not answer what was asked is refused with 25, and a promise whose name has another index than
/// it says with 26.
pub fn refusals_have_their_numbers()
    ensures reply { OTHER_REPLY ≡ 25 }
    ensures index { OTHER_INDEX ≡ 26 }
{}

/// The limit of the lists of roots that are taken for one reply is 1,024.
pub fn lists_are_few()
    ensures { MAX_LISTS ≡ 1024 }
{}

/// Of the roots that a directory has, where each names the one before, and none comes before the first, it sends so many
/// from an epoch on. If they go up to the head that a chain had, and the chain has got as far as those that are sent, these
/// are what was asked for.
pub fn sent_roots_are_wanted<H: NodeHash>()
    ensures { (chain : KeyedRoots) (held from count : ℕ) (all : List SignedRoot) → BeginFrom H.digest_of 0 all → held ≤ last_epoch 0 all → IsReached chain (roots_sent from count all)
        → AreWanted H.digest_of chain (record { held = held; from = from; count = count }) (roots_sent from count all) }
{}

/// Roots that are told without a refusal are those of the chain, and older ones.
pub fn told_roots_are_of_the_chain<H: NodeHash, S: Verifier>()
    ensures { (chain : KeyedRoots) (held from count : ℕ) (roots : List SignedRoot) (told : Report) → AreTold H.digest_of S.verified chain (record { held = held; from = from; count = count }) roots roots told
        → told.status ≡ 0 → AllByRecursion (IsOfChain chain) roots }
{}

/// The line that tells an alarm is the one of which a memory has it.
pub fn told_alarms_are_items()
    ensures { (name : List ℕ) (at epoch : ℕ) (found : Statement) → IsAlarm (record { name = name; epoch = epoch; found = key_stated found })
        → IsLineOf (step_text name at (step.Alarm epoch found)) (items.Alarm (record { name = name; epoch = epoch; found = key_stated found })) }
{}
