ghost use Rattle.std.specs.Prelude.{◌≡◌};
ghost use Rattle.encoding.specs.BitLaws.{BitsOfCut, BitsOfWithOne, AgreementOfBits};
ghost use Rattle.encoding.specs.Fields.{BytesAreField, ByteIsField, NumbersAreFields, CountedAreFields, PolicyIsField};
ghost use Rattle.encoding.specs.declared.bounded.TheConstants.{MIN_LEN};
ghost use Rattle.encoding.specs.declared.key_data.TheConstants.{MAX_KEY_DATA_LEN};
ghost use Rattle.encoding.specs.declared.name.TheConstants.{MAX_NAME_LEN};
ghost use Rattle.encoding.specs.declared.small.TheConstants.{MAX_SMALL_LEN};

/// A name has 1 to 255 bytes, a key 1 to 2,048, and a signature or the value of a verifiable function 1 to 256.
pub fn limits_have_their_values()
    ensures least { MIN_LEN ≡ 1 }
    ensures name { MAX_NAME_LEN ≡ 255 }
    ensures key { MAX_KEY_DATA_LEN ≡ 2048 }
    ensures small { MAX_SMALL_LEN ≡ 256 }
{}

/// The first `n` bits of a prefix are the index's, the others zero.
pub fn bits_of_cut()
    ensures { BitsOfCut }
{}

/// A prefix with its bit `k` set has a one there, and its other bits are as they were.
pub fn bits_of_with_one()
    ensures { BitsOfWithOne }
{}

/// Two indices agree in `n` bits exactly where their first `n` bits are the same, one by one.
pub fn agreement_of_bits()
    ensures { AgreementOfBits }
{}

/// A reader of `count` bytes reads exactly those bytes, whatever follows.
pub fn bytes_are_read()
    ensures { BytesAreField }
{}

/// A reader of one byte reads exactly that byte, whatever follows.
pub fn byte_is_read()
    ensures { ByteIsField }
{}

/// A number is read exactly where the bytes begin with its spelling, whatever follows.
pub fn numbers_are_read()
    ensures { NumbersAreFields }
{}

/// Counted bytes are read exactly where the bytes begin with their spelling, whatever follows.
pub fn counted_are_read()
    ensures { CountedAreFields }
{}

/// A policy is read exactly where the bytes begin with its byte, whatever follows.
pub fn policy_is_read()
    ensures { PolicyIsField }
{}
