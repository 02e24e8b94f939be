// A question over a stream: what the client makes of its reply, and what follows from it.
ghost use Rattle.std.specs.Prelude.{◌≡◌, ◌≢◌, ◌⊎◌, ◌↔◌, Err, IfErr, IfOk, IsTrue, OnErr, OnOk, Option};
ghost use Rattle.commands.specs.Operations.{Head};
ghost use Rattle.wire.specs.Frames.{Frame};
ghost use Rattle.wire.specs.FrameViews.{frame_seen};
ghost use Rattle.wire.specs.Requests.{Query};
ghost use Rattle.wire.specs.Responses.{response_seen};
ghost use Rattle.play.specs.Scripts.{ask_seen, with_token};
ghost use Rattle.asking.specs.Askers.{asker_changes, asker_client, asker_finals, asker_marks, asker_monitors, asker_token};
ghost use Rattle.asking.specs.Asking.{response_epoch, GoesOnAbove, GoesSomeAbove, Hands, HearsReply, HearsSome, IsChange, Notes, Sends, SpeaksOf};
ghost use Rattle.asking.specs.Checking.{HearsFrame};
ghost use Rattle.asking.specs.Exchanges.{ExchangesFrames, HoldsFrame, IsOneFrame};
ghost use Rattle.asking.specs.FinalBindings.{change_told, with_change, LooksShow, NotesHeard, NotesLooked};
ghost use Rattle.auditor.specs.declared.evidence.Evidence.{Evidence};
ghost use Rattle.asking.specs.Scenes.{scene, HaltsAfter, Remains, StaysWhole};
ghost use Rattle.asking.specs.Reports.{report_of, told_after, unless_fine, Report, Tells};
ghost use Rattle.asking.specs.declared.ask_fault.AskFault.TheVariants.{OutOfMemory, Stopped};

use crate::answering::answers_at;
use crate::checking::hear;
use crate::exchange::{exchange, frame_in};
use crate::wanted::last_epoch;
use crate::{AskFault, Asker, Reply, Said};
use auditor::Evidence;
use encoding::Name;
use nodehash::NodeHash;
use play::Ask;
use sigiface::Verifier;
use std::alloc::AllocError;
use std::io::{Read, Write};
use vrfiface::VufCheck;
use wire::{FrameView, Response};

/// The epoch of which a response speaks, if it answers what was asked when the chain had a head of this epoch; else 0.
fn epoch_of(held: u64, ask: &Ask, frame: &FrameView<'_>) -> u64
    ensures { SpeaksOf held (ask_seen ask.now) (frame_seen frame.now) result }
{
    match Response::read(frame.kind, frame.body) {
        Ok(response) => {
            if !answers_at(held, ask, &response) {
                return 0;
            }
            epoch_in(&response)
        }
        Err(_) => 0,
    }
}

/// Whether a line asks for a change of the client's own.
fn is_change(ask: &Ask) -> bool
    ensures { IsTrue result ↔ IsChange (ask_seen ask.now) }
{
    match ask {
        Ask::Put { .. } => true,
        Ask::Promise { .. } => false,
        Ask::Lookup { .. } => false,
        Ask::History { .. } => false,
        Ask::Head => false,
        Ask::Turn { .. } => false,
    }
}

/// The epoch of a response, of roots that of the last; or 0 if it has none.
fn epoch_in(response: &Response<'_>) -> u64
    ensures { result ≡ response_epoch (response_seen response.now) }
{
    match response {
        Response::Promise(signed) => signed.promise.epoch,
        Response::Proof(found) => found.body().epoch,
        Response::Root(root) => root.body.epoch,
        Response::Roots(roots) => last_epoch(roots),
        Response::Refused(_) => 0,
    }
}

impl<H, V, S> Asker<H, V, S>
where
    H: NodeHash + Drop,
    V: VufCheck + Drop,
    S: Verifier + Drop,
{
    /// Asks what a line asks, and returns what comes back.
    ///
    /// # Errors
    ///
    /// `NoReply`; `OutOfMemory`.
    pub fn send<T: Read + Write>(&self, stream: &mut T, ask: &Ask) -> Result<Reply, AskFault>
        ensures sends { IfOk result (λ reply. Sends (ExchangesFrames T.contents T.remaining) (asker_token self.now) (ask_seen ask.now) (asker_client self.now) stream.old reply stream.new) }
        ensures err { IfErr result (λ fault. fault ≢ Stopped) }
    {
        let held = self.head();
        let bytes = self.request(stream, ask)?;
        let epoch = epoch_of(held, ask, &frame_in(&bytes)?);
        Ok(Reply { bytes, held, epoch })
    }

    /// Tells what the client makes of a reply to what was asked, whose epoch the chain has to have. If there are new epochs,
    /// the monitors then watch them, and the promises that are due are tested.
    ///
    /// # Errors
    ///
    /// `NoReply`; `OutOfMemory`.
    pub fn hear<T: Read + Write>(
        &mut self,
        stream: &mut T,
        ask: &Ask,
        reply: &Reply,
        said: &mut Said,
    ) -> Result<(), AskFault>
        ensures hears { (frame : Frame) → HoldsFrame reply.now.bytes.items frame → OnOk result (HearsReply H.digest_of V.accepted S.verified (ExchangesFrames T.contents T.remaining) (asker_marks self.old) reply.now.held (ask_seen ask.now) frame (asker_changes self.old) (asker_changes self.new) (scene self.old said.old stream.old) (scene self.new said.new stream.new)) }
        ensures stays { Remains self.old self.new }
        ensures err { IfErr result (λ fault. fault ≢ Stopped) }
        ensures halts { (frame : Frame) → HoldsFrame reply.now.bytes.items frame → IfErr result (λ fault. HaltsAfter (HearsSome H.digest_of V.accepted S.verified (ExchangesFrames T.contents T.remaining) fault (asker_marks self.old) reply.now.held (ask_seen ask.now) frame (asker_changes self.old) (asker_changes self.new) (scene self.old said.old stream.old)) fault self.new said.new) }
    {
        let frame = frame_in(&reply.bytes)?;
        self.answer(reply.held, ask, &frame, said)?;
        self.go_on_from(stream, reply.held, said)
    }

    /// Tells what the client makes of a reply to a question for the latest root, if it refuses it. Monitors and promises are
    /// left alone: `go_on` sees to them.
    ///
    /// # Errors
    ///
    /// `NoReply`; `OutOfMemory`.
    pub fn hear_head(&mut self, reply: &Reply, said: &mut Said) -> Result<(), AskFault>
        ensures finds { (frame : Frame) → HoldsFrame reply.now.bytes.items frame → OnOk result ((told : Report) × HearsFrame H.digest_of V.accepted S.verified reply.now.held (asker_client self.old) (Query Head) frame told (asker_client self.new)
            × (report_of said.new ≡ told_after (report_of said.old) (unless_fine told))) }
        ensures monitors { asker_monitors self.new ≡ asker_monitors self.old }
        ensures finals { asker_finals self.new ≡ asker_finals self.old }
        ensures stays { StaysWhole self.old self.new }
        ensures err { IfErr result (λ fault. fault ≢ Stopped) }
        ensures untold { OnErr result (report_of said.new ≡ report_of said.old) }
        ensures still { IfErr result (λ fault. fault ≢ OutOfMemory → asker_client self.new ≡ asker_client self.old) }
    {
        let frame = frame_in(&reply.bytes)?;
        Ok(self.find_head(reply.held, &frame, said)?)
    }

    /// Tells what the client makes of a frame that came back for the latest root, if it refuses it.
    fn find_head(
        &mut self,
        held: u64,
        frame: &FrameView<'_>,
        said: &mut Said,
    ) -> Result<(), AllocError>
        ensures finds { OnOk result ((told : Report) × HearsFrame H.digest_of V.accepted S.verified held (self.old).client (Query Head) (frame_seen frame.now) told (self.new).client × (report_of said.new ≡ told_after (report_of said.old) (unless_fine told))) }
        ensures monitors { (self.new).monitors ≡ (self.old).monitors }
        ensures finals { (self.new).finals ≡ (self.old).finals }
        ensures stays { StaysWhole self.old self.new }
        ensures untold { OnErr result (report_of said.new ≡ report_of said.old) }
    {
        let mut now = Said::new(self.alloc);
        let checks = &mut self.checks;
        hear(
            self.alloc,
            &mut self.client,
            checks,
            held,
            &Ask::Head,
            frame,
            &mut now,
        )?;
        if now.status == 0 {
            return Ok(());
        }
        said.join(now)
    }

    /// Tells what the client makes of a frame that came back, or nothing if memory runs out. A promise that it keeps
    /// for a change of its own is noted, and handed to the monitors of the name.
    fn answer(
        &mut self,
        held: u64,
        ask: &Ask,
        frame: &FrameView<'_>,
        said: &mut Said,
    ) -> Result<(), AllocError>
        ensures hears { OnOk result ((told : Report) × (shown : Report) × (handed : Report) × HearsFrame H.digest_of V.accepted S.verified held (self.old).client (ask_seen ask.now) (frame_seen frame.now) told (self.new).client
            × NotesHeard H.digest_of V.accepted (self.new).client (ask_seen ask.now) (frame_seen frame.now) told.status (self.old).finals shown (self.new).finals
            × Hands H.digest_of V.accepted S.verified (ask_seen ask.now) (frame_seen frame.now).body (self.old).client.promises (self.new).client.promises (self.old).monitors.items handed (self.new).monitors.items
            × (report_of said.new ≡ told_after (told_after (report_of said.old) (told_after told shown)) handed)) }
        ensures notes { OnOk result (Notes (ask_seen ask.now) (self.old).client.promises (self.new).client.promises (self.old).changes.items (self.new).changes.items) }
        ensures noted { ((self.new).changes.items ≡ (self.old).changes.items) ⊎ Notes (ask_seen ask.now) (self.old).client.promises (self.new).client.promises (self.old).changes.items (self.new).changes.items }
        ensures stays { Remains self.old self.new }
        ensures told { OnErr result (((report_of said.new ≡ report_of said.old) × ((self.new).changes.items ≡ (self.old).changes.items))
            ⊎ ((told : Report) × (shown : Report) × HearsFrame H.digest_of V.accepted S.verified held (self.old).client (ask_seen ask.now) (frame_seen frame.now) told (self.new).client
            × NotesHeard H.digest_of V.accepted (self.new).client (ask_seen ask.now) (frame_seen frame.now) told.status (self.old).finals shown (self.new).finals × (report_of said.new ≡ told_after (report_of said.old) (told_after told shown)))) }
    {
        let kept = self.client.promises().len();
        self.hear_noting(held, ask, frame, said)?;
        if !is_change(ask) || self.client.promises().len() <= kept {
            return Ok(());
        }
        self.hand_out(frame.body, said)
    }

    /// Tells what the client makes of a frame that came back, and behind it what that shows of a final binding, whole or
    /// not at all.
    fn hear_noting(
        &mut self,
        held: u64,
        ask: &Ask,
        frame: &FrameView<'_>,
        said: &mut Said,
    ) -> Result<(), AllocError>
        ensures hears { OnOk result ((told : Report) × (shown : Report) × HearsFrame H.digest_of V.accepted S.verified held (self.old).client (ask_seen ask.now) (frame_seen frame.now) told (self.new).client
            × NotesHeard H.digest_of V.accepted (self.new).client (ask_seen ask.now) (frame_seen frame.now) told.status (self.old).finals shown (self.new).finals × Tells said.old (told_after told shown) said.new) }
        ensures monitors { (self.new).monitors ≡ (self.old).monitors }
        ensures stays { StaysWhole self.old self.new }
        ensures untold { OnErr result (report_of said.new ≡ report_of said.old) }
    {
        let mut now = Said::new(self.alloc);
        let checks = &mut self.checks;
        hear(
            self.alloc,
            &mut self.client,
            checks,
            held,
            ask,
            frame,
            &mut now,
        )?;
        self.note_heard(ask, frame, &mut now)?;
        said.join(now)
    }

    /// Notes a frame that came back, if the client accepted it as a reply to a look-up. What was told of it has the status so
    /// far.
    fn note_heard(
        &mut self,
        ask: &Ask,
        frame: &FrameView<'_>,
        said: &mut Said,
    ) -> Result<(), AllocError>
        ensures notes { OnOk result ((shown : Report) × NotesHeard H.digest_of V.accepted (self.old).client (ask_seen ask.now) (frame_seen frame.now) (said.old).status (self.old).finals shown (self.new).finals × Tells said.old shown said.new) }
        ensures client { (self.new).client ≡ (self.old).client }
        ensures monitors { (self.new).monitors ≡ (self.old).monitors }
        ensures stays { StaysWhole self.old self.new }
    {
        match ask {
            Ask::Lookup { name, .. } => self.note_looked(name, frame.body, said),
            Ask::Put { .. } => Ok(()),
            Ask::Promise { .. } => Ok(()),
            Ask::History { .. } => Ok(()),
            Ask::Head => Ok(()),
            Ask::Turn { .. } => Ok(()),
        }
    }

    /// Notes bytes that came back for a look-up of a name, unless they were refused.
    fn note_looked(&mut self, name: &[u8], reply: &[u8], said: &mut Said) -> Result<(), AllocError>
        ensures notes { OnOk result ((shown : Report) × NotesLooked H.digest_of V.accepted (self.old).client name.now reply.now (said.old).status (self.old).finals shown (self.new).finals × Tells said.old shown said.new) }
        ensures client { (self.new).client ≡ (self.old).client }
        ensures monitors { (self.new).monitors ≡ (self.old).monitors }
        ensures stays { StaysWhole self.old self.new }
    {
        if said.status != 0 {
            return Ok(());
        }
        let Ok(name) = Name::new(name) else {
            return Ok(());
        };
        self.note(&name, reply, said)?;
        if self.finals.is_told(&name) {
            return Ok(());
        }
        self.tell_looks(name, said)
    }

    /// Tells what the looks of the client for a name show of a final binding.
    fn tell_looks(&mut self, name: Name, said: &mut Said) -> Result<(), AllocError>
        ensures tells { OnOk result ((made : Option Evidence) × LooksShow H.digest_of (self.old).client name made × ((self.new).finals ≡ with_change name made (self.old).finals) × Tells said.old (change_told made) said.new) }
        ensures client { (self.new).client ≡ (self.old).client }
        ensures monitors { (self.new).monitors ≡ (self.old).monitors }
        ensures stays { StaysWhole self.old self.new }
    {
        let Some(broken) = self.client.finality(&name) else {
            return Ok(());
        };
        self.finals
            .tell(self.alloc, name, &Evidence::Final(broken), said)
    }

    /// If there are epochs above this one, the monitors watch those that are new, and the promises that are due
    /// are tested.
    fn go_on_from<T: Read + Write>(
        &mut self,
        stream: &mut T,
        head: u64,
        said: &mut Said,
    ) -> Result<(), AskFault>
        ensures goes { OnOk result (GoesOnAbove H.digest_of V.accepted S.verified (ExchangesFrames T.contents T.remaining) (self.old).marks.items head (scene self.old said.old stream.old) (scene self.new said.new stream.new)) }
        ensures stays { StaysWhole self.old self.new }
        ensures err { IfErr result (λ fault. fault ≢ Stopped) }
        ensures halts { IfErr result (λ fault. HaltsAfter (GoesSomeAbove H.digest_of V.accepted S.verified (ExchangesFrames T.contents T.remaining) (self.old).marks.items head (scene self.old said.old stream.old)) fault self.new said.new) }
    {
        if self.head() <= head {
            return Ok(());
        }
        self.go_on(stream, said)
    }

    /// Sends what is asked, and reads the reply.
    pub(crate) fn request<T: Read + Write>(
        &self,
        stream: &mut T,
        ask: &Ask,
    ) -> Result<Vec<u8>, AskFault>
        ensures whole { IfOk result (λ bytes. (frame : Frame) × IsOneFrame bytes.items frame) }
        ensures sent { IfOk result (λ bytes. (frame : Frame) → HoldsFrame bytes.items frame → ExchangesFrames T.contents T.remaining stream.old (with_token (self.now).token (ask_seen ask.now)) frame stream.new) }
        ensures err { IfErr result (λ fault. fault ≢ Stopped) }
    {
        exchange(self.alloc, stream, &ask.request(self.token))
    }
}
