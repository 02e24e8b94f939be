ghost use Rattle.std.specs.Prelude.{◌≡◌, IfOk, MatchResult, None, Some};
ghost use Rattle.server.specs.DirectoryOptions.{directory_values};
ghost use Rattle.server.specs.Directories.{keys_of, HasBegun};
ghost use Rattle.server.specs.Reopening.{at_stream, beginning_with};
ghost use Rattle.journal.specs.Records.{start_of};
ghost use Rattle.textio.specs.declared.program_fault.ProgramFault.TheVariants.{BadHex};

use crate::DirectoryOrder;
use book::Record;
use encoding::Hash32;
use epochs::Directory;
use hub::Desk;
use nodehash::{GroupSize, Sha256Hash};
use rand_chacha::ChaCha20Rng;
use rand_core::SeedableRng;
use sigiface::{KeyedSign, Signer};
use std::alloc::{AllocError, Global};
use std::marker::Model;
use std::num::NonZeroU64;
use textio::{HASH_SIZE, ProgramFault, hex32_or_zeros, option_hex32};
use vrfiface::{KeyedVuf, Vuf};

/// The directory that the programs serve.
pub type ServedDirectory = Directory<Sha256Hash, KeyedVuf, KeyedSign, ChaCha20Rng>;

/// The desk of that directory, with its keeper.
pub type ServedDesk<K> = Desk<Sha256Hash, KeyedVuf, KeyedSign, ChaCha20Rng, K>;

/// What a directory begins with.
#[derive(Debug, Drop)]
pub(crate) struct Keys {
    signing_key: Hash32,
    vuf_key: Hash32,
    salt_key: [u8; HASH_SIZE],
    token: Hash32,
    epoch: NonZeroU64,
    nonce: Hash32,
    size: GroupSize,
}

impl Model for Keys {
    ghost use Rattle.std.specs.NonZero.{non_zero_u64_get};
    ghost use Rattle.server.specs.Directories.{DirectoryKeys};

    ghost Value = { DirectoryKeys };

    ghost view = { λ keys. record {
      signing_key = keys.signing_key;
      vuf_key = keys.vuf_key;
      salt_key = keys.salt_key;
      token = keys.token;
      epoch = non_zero_u64_get keys.epoch;
      nonce = keys.nonce;
    } };
}

impl Keys {
    /// The keys that the texts give, for a directory that digests as many texts at once as `size` says.
    ///
    /// # Errors
    ///
    /// `BadHex` if one of the texts is not 64 hexadecimal digits.
    pub(crate) fn read(order: &DirectoryOrder<'_>, size: GroupSize) -> Result<Self, ProgramFault>
        ensures { MatchResult result (λ keys. keys_of (directory_values order.now) ≡ Some keys)
            (λ fault. (fault ≡ BadHex) × (keys_of (directory_values order.now) ≡ None)) }
    {
        Ok(Keys {
            signing_key: Hash32::new(option_hex32(order.signing_key)?),
            vuf_key: Hash32::new(option_hex32(order.vuf_key)?),
            salt_key: option_hex32(order.salt_key)?,
            token: Hash32::new(option_hex32(order.token)?),
            epoch: order.epoch,
            nonce: Hash32::new(hex32_or_zeros(order.nonce)?),
            size,
        })
    }

    /// The token of the operator.
    pub(crate) fn token(&self) -> Hash32
        ensures { result ≡ (self.now).token }
    {
        self.token
    }

    /// The functions of the directory.
    pub(crate) fn hash(&self) -> Sha256Hash
        ensures { result ≡ 0 }
    {
        Sha256Hash::in_groups(self.size)
    }

    pub(crate) fn vuf(&self) -> KeyedVuf
        ensures { result ≡ (self.now).vuf_key }
    {
        KeyedVuf::new(self.vuf_key)
    }

    pub(crate) fn signer(&self) -> KeyedSign
        ensures { result ≡ (self.now).signing_key }
    {
        KeyedSign::new(self.signing_key)
    }

    /// The generator of the salts, at the front of a stream.
    pub(crate) fn salts(&self, stream: u64) -> ChaCha20Rng
        ensures { result ≡ at_stream (self.now).salt_key stream }
    {
        let mut salts = ChaCha20Rng::from_seed(self.salt_key);
        salts.set_stream(stream);
        salts
    }

    /// The start of the directory that begins with these keys.
    pub(crate) fn start(&self) -> Record
        ensures { result ≡ start_of (beginning_with self.now) }
    {
        Record::Start {
            epoch: self.epoch.get(),
            nonce: self.nonce,
            signing_key: self.signer().public(),
            vuf_key: self.vuf().public(),
        }
    }

    /// The directory that begins with these keys.
    pub(crate) fn begin(&self, alloc: Global) -> Result<ServedDirectory, AllocError>
        ensures { IfOk result (HasBegun self.now) }
    {
        let directory = Directory::new(
            alloc,
            self.epoch.get(),
            self.nonce,
            self.hash(),
            self.vuf(),
            self.signer(),
            ChaCha20Rng::from_seed(self.salt_key),
        );
        match directory {
            Ok(directory) => Ok(directory),
            Err(_) => Err(AllocError),
        }
    }
}
