ghost use Rattle.std.specs.Prelude.{◌≡◌};
ghost use Rattle.commit.specs.Commitments.{EqualTextsOpenAlike};
ghost use Rattle.commit.specs.declared.commitment.TheConstants.{LEN_BESIDE, SHORT_LEN};

/// A text has 38 bytes beside those of the policy, the name and the key; in one that is no longer than a leaf's
/// these have at most 63 together.
pub fn lengths_have_their_values()
    ensures beside { LEN_BESIDE ≡ 38 }
    ensures short { SHORT_LEN ≡ 63 }
{}

/// Equal texts of commitments have equal salt, name, key and policy.
pub fn equal_texts_open_alike()
    ensures { EqualTextsOpenAlike }
{}
