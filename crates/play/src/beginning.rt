// How each script begins.

ghost use Rattle.std.specs.Prelude.{◌≡◌, IfOk};
ghost use Rattle.nodehash.specs.Sha256.{sha256};
ghost use Rattle.vrfiface.specs.StandIns.{keyed_value, KeyedAccepts};
ghost use Rattle.sigiface.specs.StandIn.{keyed_signature, KeyedVerifies};
ghost use Rattle.book.specs.Shows.{index_of};
ghost use Rattle.book.specs.Salts.{chacha_salts};
ghost use Rattle.epochs.specs.Beginnings.{IsBeginRefusal};
ghost use Rattle.epochs.specs.DirectoryStates.{provider};
ghost use Rattle.play.specs.Beginnings as script;
ghost use Rattle.play.specs.Beginnings.{script_index, script_salts, IsScriptStart};
ghost use Rattle.play.specs.Parties.{AreAt};
ghost use Rattle.play.specs.Played.{opening};

use crate::Checks;
use crate::engine::Engine;
use book::Refusal;
use encoding::Hash32;
use epochs::Directory;
use nodehash::Sha256Hash;
use rand_chacha::ChaCha20Rng;
use rand_core::SeedableRng;
use sigiface::KeyedSign;
use std::alloc::{AllocError, Global};
use vrfiface::KeyedVuf;

/// The directory of a script.
type ScriptDirectory = Directory<Sha256Hash, KeyedVuf, KeyedSign, ChaCha20Rng>;

/// The engine of a script.
type ScriptEngine = Engine<Sha256Hash, KeyedVuf, KeyedSign, ChaCha20Rng>;

/// The parties of a script, as its first line finds them.
pub(crate) fn begin(alloc: Global) -> Result<ScriptEngine, AllocError>
    ensures at { IfOk result (λ engine. AreAt sha256 keyed_value keyed_signature chacha_salts KeyedAccepts KeyedVerifies engine (opening script_salts)) }
    ensures index { IfOk result (λ engine. index_of (provider sha256 keyed_value keyed_signature engine.hub.service.directory) ≡ script_index) }
{
    let checks = Checks {
        hash: Sha256Hash::new(),
        vuf: KeyedVuf::new(vuf_key()),
        verifier: KeyedSign::new(signing_key()),
    };
    Engine::open(alloc, first_directory(alloc)?, checks, signing_key())
}

/// The directory at its first page, which is of epoch 1.
fn first_directory(alloc: Global) -> Result<ScriptDirectory, AllocError>
    ensures { IfOk result IsScriptStart }
{
    let directory = Directory::new(
        alloc,
        1,
        Hash32::new([0; 32]),
        Sha256Hash::new(),
        KeyedVuf::new(vuf_key()),
        KeyedSign::new(signing_key()),
        ChaCha20Rng::from_seed([0; 32]),
    );
    match directory {
        Ok(directory) => Ok(directory),
        Err(why) => Err(want_of_memory(why)),
    }
}

/// Want of memory, for which alone no directory begins at epoch 1.
fn want_of_memory(why: Refusal) -> AllocError
    requires { IsBeginRefusal 1 why }
{
    let Refusal::Memory = why else { unreachable!() };
    AllocError
}

/// The provider's key for signatures.
fn signing_key() -> Hash32
    ensures { result ≡ script.signing_key }
{
    Hash32::new([1; 32])
}

/// The provider's key of the verifiable function.
fn vuf_key() -> Hash32
    ensures { result ≡ script.vuf_key }
{
    Hash32::new([2; 32])
}
