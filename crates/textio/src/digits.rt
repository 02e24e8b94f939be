ghost use Rattle.std.specs.Prelude.{◌≡◌, ℕ, length, MatchResult, None, Some, option_map};
ghost use Rattle.std.specs.Result.{result_ok};
ghost use Rattle.hex.specs.Hex.{encode_lower, hex_digit_value, pair_value};
ghost use Rattle.textio.specs.declared.digits.TheConstants.{HASH_SIZE};
ghost use Rattle.textio.specs.Digits.{digit_of, hex32, hex32_or_zeros};

use crate::digit_values::DIGIT_VALUES;
use crate::program_fault::ProgramFault;

/// The bytes of a hash, an index or a nonce.
pub const HASH_SIZE: usize = 32;

/// Their hexadecimal digits.
pub const HASH_DIGITS: usize = 2 * HASH_SIZE;

/// The 64 hexadecimal digits of 32 bytes, in lower case.
pub fn hex_digits(bytes: &[u8]) -> [u8; HASH_DIGITS]
    requires { length bytes.now ≡ HASH_SIZE }
    ensures { result ≡ encode_lower bytes.now }
{
    let mut digits = [0; HASH_DIGITS];
    let fits = hex::encode_to_slice(bytes, &mut digits).is_ok();
    prove!(fits);
    digits
}

/// The value of a hexadecimal digit of either case, or a greater number than any digit has. A table takes the
/// same time for figures and letters, where tests would be guessed wrong half the time.
#[inline(always)]
fn digit_value(digit: u8) -> u8
    ensures { digit_of result ≡ hex_digit_value digit }
{
    DIGIT_VALUES[digit as usize]
}

/// The byte of two digits.
#[inline(always)]
fn pair(high: u8, low: u8) -> Option<u8>
    ensures { (place : ℕ) → result ≡ result_ok (pair_value high low place) }
{
    let high = digit_value(high);
    if high > 15 {
        return None;
    }
    let low = digit_value(low);
    if low > 15 {
        return None;
    }
    Some(16 * high + low)
}

/// The 32 bytes that 64 hexadecimal digits of either case give.
pub fn hex32(text: &[u8]) -> Option<[u8; HASH_SIZE]>
    ensures { result ≡ hex32 text.now }
{
    if text.len() != HASH_DIGITS {
        return None;
    }
    let mut bytes = [0; HASH_SIZE];
    'bytes: for i in 0..HASH_SIZE {
        let Some(byte) = pair(text[2 * i], text[2 * i + 1]) else {
            return None;
        };
        bytes[i] = byte;
    }
    Some(bytes)
}

/// The 32 bytes that an option of the command line gives.
///
/// # Errors
///
/// `BadHex` where the text is not 64 hexadecimal digits.
pub fn option_hex32(text: &str) -> Result<[u8; HASH_SIZE], ProgramFault>
    ensures { MatchResult result (λ bytes. hex32 text.now ≡ Some bytes)
        (λ fault. (fault ≡ ProgramFault.BadHex) × (hex32 text.now ≡ None)) }
{
    match hex32(text.as_bytes()) {
        Some(bytes) => Ok(bytes),
        None => Err(ProgramFault::BadHex),
    }
}

/// The 32 bytes of an option that may be left out, as the nonce or the operator's token: zeros where it
/// is not there.
///
/// # Errors
///
/// `BadHex` where the text is not 64 hexadecimal digits.
pub fn hex32_or_zeros(text: Option<&str>) -> Result<[u8; HASH_SIZE], ProgramFault>
    ensures { MatchResult result (λ bytes. hex32_or_zeros (option_map (λ t. t.now) text.entry) ≡ Some bytes)
        (λ fault. (fault ≡ ProgramFault.BadHex) × (hex32_or_zeros (option_map (λ t. t.now) text.entry) ≡ None)) }
{
    match text {
        None => Ok([0; HASH_SIZE]),
        Some(text) => option_hex32(text),
    }
}
