ghost use Rattle.std.specs.Prelude.{◌≡◌, ◌↔◌, ℕ, ◌<◌, ◌≤◌, ◌^◌, List, [], ◌∷◌, length, IsOk, IfOk, OnErr, IsOkUnless};
ghost use Rattle.byteorder.specs.Endian.{big_bytes};
ghost use Rattle.encoding.specs.Bytes.{HasBytes, IsBytes, Is32Bytes};
ghost use Rattle.encoding.specs.Forms.{counted_bytes};
ghost use Rattle.encoding.specs.Limits.{IsBounded, IsWithin};
ghost use Rattle.encoding.specs.Fields.{Reads};
ghost use Rattle.encoding.specs.Reading.{Gives, read_bytes, read_byte, read_number, read_counted, read_policy, read_policy_if, read_version};

use crate::{Bounded, Fault, Hash32, MIN_LEN, Policy};
use byteorder::{BigEndian, ByteOrder};
use std::marker::Model;

/// Reads bytes from the front. A refused call reads nothing.
#[derive(Debug, Drop)]
pub struct Cursor<'a> {
    bytes: &'a [u8],
}

impl<'a> Model for Cursor<'a> {
    ghost use Rattle.std.specs.Prelude.{List, ℕ};
    ghost use Rattle.encoding.specs.Bytes.{IsBytes};

    ghost Value = { List ℕ };

    ghost view = { λ cursor. cursor.bytes.now };

    ghost invariant = { λ cursor. IsBytes cursor.bytes.now };
}

impl<'a> Cursor<'a> {
    ghost use Rattle.encoding.specs.declared.fault.Fault.TheVariants.{Trailing};

    /// A cursor at the first of these bytes.
    pub fn new(bytes: &'a [u8]) -> Self
        ensures { result ≡ bytes.entry.now }
    {
        Cursor { bytes }
    }

    /// A second cursor at the same place, to read ahead.
    pub fn copied(&self) -> Self
        ensures value { result ≡ self.now }
        ensures bytes { IsBytes self.now }
    {
        Cursor { bytes: self.bytes }
    }

    /// The next `count` bytes, or `Short`.
    pub fn take(&mut self, count: usize) -> Result<&'a [u8], Fault>
        ensures read { Gives (λ bytes. bytes.now) result self.new (read_bytes count self.old) }
        ensures form { Reads (λ bytes. bytes.now) (λ bytes. bytes) (HasBytes count) self.old result self.new }
        ensures size { IfOk result (λ bytes. length bytes.now ≡ count) }
        ensures stays { OnErr result (self.new ≡ self.old) }
    {
        let bytes = self.bytes;
        if bytes.len() < count {
            return Err(Fault::Short);
        }
        let (front, rest) = bytes.split_at(count);
        self.bytes = rest;
        Ok(front)
    }

    /// The next `N` bytes as an array, or `Short`.
    pub fn array<const N: usize>(&mut self) -> Result<&'a [u8; N], Fault>
        ensures read { Gives (λ bytes. bytes.now) result self.new (read_bytes N self.old) }
        ensures form { Reads (λ bytes. bytes.now) (λ bytes. bytes) (HasBytes N) self.old result self.new }
        ensures stays { OnErr result (self.new ≡ self.old) }
    {
        let Some((front, rest)) = self.bytes.split_first_chunk() else {
            return Err(Fault::Short);
        };
        self.bytes = rest;
        Ok(front)
    }

    /// The next 32 bytes, as a hash or another value of that size, or `Short`.
    pub fn hash32(&mut self) -> Result<Hash32, Fault>
        ensures read { Gives (λ hash. hash) result self.new (read_bytes 32 self.old) }
        ensures form { Reads (λ hash. hash) (λ bytes. bytes) Is32Bytes self.old result self.new }
        ensures stays { OnErr result (self.new ≡ self.old) }
    {
        Ok(Hash32::new(*self.array()?))
    }

    /// The next byte, or `Short`.
    pub fn u8(&mut self) -> Result<u8, Fault>
        ensures read { Gives (λ byte. byte) result self.new (read_byte self.old) }
        ensures form { Reads (λ byte. byte) (λ byte. byte ∷ []) (λ byte. byte < 256) self.old result self.new }
        ensures stays { OnErr result (self.new ≡ self.old) }
    {
        match self.bytes {
            [] => Err(Fault::Short),
            [byte, rest @ ..] => {
                self.bytes = rest;
                Ok(*byte)
            }
        }
    }

    /// The number in the next 2 bytes, or `Short`.
    pub fn u16(&mut self) -> Result<u16, Fault>
        ensures read { Gives (λ n. n) result self.new (read_number 2 self.old) }
        ensures form { Reads (λ n. n) (big_bytes 2) (λ n. n < 256 ^ 2) self.old result self.new }
        ensures stays { OnErr result (self.new ≡ self.old) }
    {
        Ok(BigEndian::read_u16(self.take(2)?))
    }

    /// The number in the next 4 bytes, or `Short`.
    pub fn u32(&mut self) -> Result<u32, Fault>
        ensures read { Gives (λ n. n) result self.new (read_number 4 self.old) }
        ensures form { Reads (λ n. n) (big_bytes 4) (λ n. n < 256 ^ 4) self.old result self.new }
        ensures stays { OnErr result (self.new ≡ self.old) }
    {
        Ok(BigEndian::read_u32(self.take(4)?))
    }

    /// The number in the next 8 bytes, or `Short`.
    pub fn u64(&mut self) -> Result<u64, Fault>
        ensures read { Gives (λ n. n) result self.new (read_number 8 self.old) }
        ensures form { Reads (λ n. n) (big_bytes 8) (λ n. n < 256 ^ 8) self.old result self.new }
        ensures stays { OnErr result (self.new ≡ self.old) }
    {
        Ok(BigEndian::read_u64(self.take(8)?))
    }

    /// Bytes behind their count, a `u16`. `Short` if the count is cut off, `OutOfRange` if it is below
    /// `least` or above `most`, else `Short` if fewer bytes follow.
    #[tactic(auto, unfolding(crate::specs::Reading::read_counted))]
    pub fn counted(&mut self, least: usize, most: usize) -> Result<&'a [u8], Fault>
        ensures read { Gives (λ bytes. bytes.now) result self.new (read_counted least most self.old) }
        ensures form { most < 2 ^ 16 → Reads (λ bytes. bytes.now) counted_bytes (IsWithin least most) self.old result self.new }
        ensures least { IfOk result (λ bytes. least ≤ length bytes.now) }
        ensures most { IfOk result (λ bytes. length bytes.now ≤ most) }
        ensures stays { OnErr result (self.new ≡ self.old) }
    {
        // Reads ahead, so that a refusal after the count leaves the cursor where it was.
        let mut ahead = self.copied();
        let len = usize::from(ahead.u16()?);
        if len < least || most < len {
            return Err(Fault::OutOfRange);
        }
        let bytes = ahead.take(len)?;
        *self = ahead;
        Ok(bytes)
    }

    /// A name, a key or a small value: 1 to `MOST` bytes behind their count, refused as by `counted`.
    pub fn bounded<const MOST: usize>(&mut self) -> Result<Bounded<MOST>, Fault>
        ensures read { Gives (λ text. text) result self.new (read_counted 1 MOST self.old) }
        ensures form { MOST < 2 ^ 16 → Reads (λ text. text) counted_bytes (IsBounded MOST) self.old result self.new }
        ensures stays { OnErr result (self.new ≡ self.old) }
    {
        Ok(Bounded::within_limits(self.counted(MIN_LEN, MOST)?))
    }

    /// The next byte as a policy: `Short` if there is none, `OutOfRange` if it is no policy's.
    pub fn policy(&mut self) -> Result<Policy, Fault>
        ensures read { Gives (λ policy. policy) result self.new (read_policy self.old) }
        ensures stays { OnErr result (self.new ≡ self.old) }
    {
        match self.bytes {
            [] => Err(Fault::Short),
            [byte, rest @ ..] => {
                let policy = Policy::new(*byte)?;
                self.bytes = rest;
                Ok(policy)
            }
        }
    }

    /// The version of a form behind its kind: whether it has a policy. `OutOfRange` if the kind is another
    /// one or the version is neither 1 nor 2, `Short` if one of them is cut off.
    pub fn version(&mut self, kind: u8) -> Result<bool, Fault>
        ensures read { Gives (λ has_policy. has_policy) result self.new (read_version kind self.old) }
        ensures stays { OnErr result (self.new ≡ self.old) }
    {
        let mut ahead = self.copied();
        if ahead.take(1)? != [kind].as_slice() {
            return Err(Fault::OutOfRange);
        }
        let has_policy = match ahead.u8()? {
            1 => false,
            2 => true,
            _ => return Err(Fault::OutOfRange),
        };
        *self = ahead;
        Ok(has_policy)
    }

    /// A policy where there is one, refused as by `policy`.
    pub fn policy_if(&mut self, has_policy: bool) -> Result<Option<Policy>, Fault>
        ensures read { Gives (λ policy. policy) result self.new (read_policy_if has_policy self.old) }
        ensures stays { OnErr result (self.new ≡ self.old) }
    {
        if has_policy {
            Ok(Some(self.policy()?))
        } else {
            Ok(None)
        }
    }

    /// Nothing is left, or `Trailing`.
    pub fn end(&self) -> Result<(), Fault>
        ensures over { IsOk result ↔ (self.now ≡ []) }
        ensures refusal { IsOkUnless result Trailing }
    {
        if self.bytes.is_empty() {
            Ok(())
        } else {
            Err(Fault::Trailing)
        }
    }
}
