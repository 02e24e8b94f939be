ghost use Rattle.std.specs.Prelude.{◌≡◌, ◌⊎◌, ℕ, List};
ghost use Rattle.rand_chacha.specs.ChaCha.{ChaCha};
ghost use Rattle.book.specs.Salts.{chacha_salts, GivesSalts};
ghost use Rattle.hub.specs.DeskRuns.{IsSoundDesk, ShowHonestRun};
ghost use Rattle.hub.specs.Desks.{DeskState, DeskAnswers};
ghost use Rattle.hub.specs.Exchanges.{Exchange};
ghost use Rattle.hub.specs.Events.{HubState};
ghost use Rattle.hub.specs.Runs.{Line};
ghost use Rattle.connections.specs.Histories.{History};
ghost use Rattle.connections.specs.Laws.{AlwaysWaitWithin};
ghost use Rattle.connections.specs.Soundness.{IsSoundHistory};
ghost use Rattle.server.specs.Serving.{all_lines, AllServed};
ghost use Rattle.server.specs.declared.listening.TheConstants.{MILLISECONDS_PER_SECOND};
ghost use Rattle.textio.specs.declared.some_bytes.TheConstants.{PIECE_SIZE};
ghost use Rattle.server.specs.declared.streams.TheConstants.{SESSION};
ghost use Rattle.server.specs.Sessions.{AlwaysAnswered, AlwaysInOrder, AreLines, HubLeads};
ghost use Rattle.wire.specs.declared.answer.TheConstants.{MAX_ANSWER_LEN};

use book::Keeper;
use nodehash::NodeHash;
use rand_core::Rng;
use sigiface::Signer;
use vrfiface::Vuf;

/// At most 4,096 bytes are read at once, a session that is served alone has number 1, and a second has 1,000
/// milliseconds.
pub fn numbers_have_their_values()
    ensures piece { PIECE_SIZE ≡ 4096 }
    ensures session { SESSION ≡ 1 }
    ensures milliseconds { MILLISECONDS_PER_SECOND ≡ 1000 }
{}

/// Sessions that are served one after another, each as `serve` ensures, are sessions of one hub: their
/// messages show one run of its directory. The users behind all of them see of it what those of an honest
/// provider see. This needs that each salt to come has 32 bytes, or that the desk after them is known as sound.
pub fn sessions_show_one_run<H: NodeHash, V: Vuf, S: Signer, G: Rng, K: Keeper>()
    ensures { (before after : DeskState G K) (served : List (ℕ × List Exchange))
        → IsSoundDesk H.digest_of V.value_of S.signature_of G.stream V.accepted S.verified before
        → GivesSalts (G.stream before.directory.salts) ⊎ IsSoundDesk H.digest_of V.value_of S.signature_of G.stream V.accepted S.verified after
        → AllServed (DeskAnswers H.digest_of V.value_of S.signature_of G.stream K.kept K.failed) before served after
        → ShowHonestRun H.digest_of V.value_of S.signature_of G.stream K.kept K.failed V.accepted S.verified before (all_lines served) after }
{}

/// What happens where connections are answered by the sessions of a hub, as `answer_all` of `connections`
/// ensures for any connections, shows one run of its directory, as `Hub::run` does: at each time, each connection
/// took a beginning of what its session was answered, in order, and that is what the run told this session: the
/// replies to the messages in the bytes that it heard. The users behind all of them see of the run what those of an
/// honest provider see. This needs that each salt to come has 32 bytes, or that the desk after it is known as sound.
pub fn crowds_show_one_run<H: NodeHash, V: Vuf, S: Signer, G: Rng, K: Keeper>()
    ensures { (before after : HubState (DeskState G K)) (idle : ℕ) (acts : History)
        → IsSoundDesk H.digest_of V.value_of S.signature_of G.stream V.accepted S.verified before.service
        → GivesSalts (G.stream before.service.directory.salts) ⊎ IsSoundDesk H.digest_of V.value_of S.signature_of G.stream V.accepted S.verified after.service
        → HubLeads (DeskAnswers H.digest_of V.value_of S.signature_of G.stream K.kept K.failed) (λ hub. hub) before acts after
        → IsSoundHistory idle acts
        → AlwaysInOrder acts
        × ((lines : List Line) × AreLines (DeskAnswers H.digest_of V.value_of S.signature_of G.stream K.kept K.failed) before acts after lines
        × AlwaysAnswered (DeskAnswers H.digest_of V.value_of S.signature_of G.stream K.kept K.failed) before acts lines
        × ShowHonestRun H.digest_of V.value_of S.signature_of G.stream K.kept K.failed V.accepted S.verified before.service lines after.service) }
{}

/// What happens there never leaves more than 64 KiB and the longest reply, which has 25,863 bytes, waiting for a
/// connection.
pub fn crowd_outputs_are_bounded<H: NodeHash, V: Vuf, S: Signer, G: Rng, K: Keeper>()
    ensures { (before after : HubState (DeskState G K)) (idle : ℕ) (acts : History)
        → IsSoundDesk H.digest_of V.value_of S.signature_of G.stream V.accepted S.verified before.service
        → GivesSalts (G.stream before.service.directory.salts) ⊎ IsSoundDesk H.digest_of V.value_of S.signature_of G.stream V.accepted S.verified after.service
        → HubLeads (DeskAnswers H.digest_of V.value_of S.signature_of G.stream K.kept K.failed) (λ hub. hub) before acts after
        → IsSoundHistory idle acts → AlwaysWaitWithin MAX_ANSWER_LEN acts }
{}

/// Each salt of a directory that a server begins has 32 bytes, which is what the laws here, in `hub` and in
/// `book` ask of the salts to come.
pub fn salts_have_their_size()
    ensures { (generator : ChaCha) → GivesSalts (chacha_salts generator) }
{}
