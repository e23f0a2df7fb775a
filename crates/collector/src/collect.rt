// What a call makes of a received frame: it takes directory pages and ends with the last of them.
ghost use Rattle.std.specs.Prelude.{◌≡◌};
ghost use Rattle.collector.specs.Collecting.{taken, stepped, ended, on_page, on_taken, collect_admitted, collect};
ghost use Rattle.collector.specs.declared.DirectoryAnswer.TheVariants.{Running, Err};

use crate::{DirectoryAnswer, DirectoryCall, DirectoryStep};
use asdu::{DirectoryEntry, FtError};
use frame::Frame;
use ft::{Incoming, Reaction, Received};

// A directory page is taken by its address, whatever that is: the pages after the first have others. What
// is undecodable is refused before.
fn taken(received: Received) -> Option<u32>
    ensures { result ≡ taken received }
{
    match received {
        Received::Frame(Frame::Directory { ioa, .. }) => Some(ioa),
        _ => None,
    }
}

impl DirectoryCall {
    // Nothing changes.
    fn runs(self) -> DirectoryStep
        ensures { result ≡ stepped self Running }
    {
        DirectoryStep {
            call: self,
            answer: DirectoryAnswer::Running,
        }
    }

    // A numbered refusal: the record stays.
    fn refuses(self, error: FtError) -> DirectoryStep
        ensures { result ≡ stepped self (Err error) }
    {
        DirectoryStep {
            call: self,
            answer: DirectoryAnswer::Err(error),
        }
    }

    // The call is over; the count of entries stays.
    fn ends(self, answer: DirectoryAnswer) -> DirectoryStep
        ensures { result ≡ stepped (ended self) answer }
    {
        DirectoryStep {
            call: DirectoryCall { done: true, ..self },
            answer,
        }
    }

    // A page's entries are written after those held: 25, and nothing of it, where the store cannot take
    // them all. The flag in any of them completes the call.
    #[tactic(auto, using(laws::proofs::Decide::decide, stored::proofs::StoredLaws::room_is), unfolding(crate::specs::Collecting::on_page, crate::specs::Collecting::on_held, stored::specs::Stored::with_page, stored::specs::Stored::entries_in))]
    fn on_page(self, store: &mut [u8], ioa: u32, entries: &[u8]) -> DirectoryStep
        ensures { (result ≡ (on_page self store.old ioa entries.now).step) × (store.new ≡ (on_page self store.old ioa entries.now).store) }
    {
        if !stored::write_page(store, self.held, ioa, entries) {
            return self.refuses(FtError::DirectoryFull);
        }
        let held = self.held + entries.len() / DirectoryEntry::LEN;
        let next = DirectoryCall { held, ..self };
        if stored::has_last(entries) {
            next.ends(DirectoryAnswer::Complete { entries: held })
        } else {
            next.runs()
        }
    }

    // An answer of the other station: a page, or nothing to this call.
    fn on_taken(self, store: &mut [u8], beside: &[u8], what: Option<u32>) -> DirectoryStep
        ensures { (result ≡ (on_taken self store.old beside.now what).step) × (store.new ≡ (on_taken self store.old beside.now what).store) }
    {
        match what {
            Some(ioa) => self.on_page(store, ioa, beside),
            None => self.runs(),
        }
    }

    // By what admission makes of the frame.
    fn on_admitted(
        self,
        store: &mut [u8],
        beside: &[u8],
        what: Option<u32>,
        reaction: Result<Reaction, FtError>,
    ) -> DirectoryStep
        ensures { (result ≡ (collect_admitted self store.old beside.now what reaction).step) × (store.new ≡ (collect_admitted self store.old beside.now what reaction).store) }
    {
        match reaction {
            Ok(Reaction::Answered) => self.on_taken(store, beside, what),
            Ok(Reaction::Refused { cause, mirror }) => {
                self.ends(DirectoryAnswer::Refused { cause, mirror })
            }
            Ok(Reaction::Requested | Reaction::Discard(_) | Reaction::Other) => self.runs(),
            Err(error) => self.refuses(error),
        }
    }

    // One frame handed to the call, with what stands beside it. 26 is tested first; then a call that was
    // not started or is done is answered with nothing; then comes admission, with no match against the
    // frame sent, since each page has another address; 25 is tested last. A refusal leaves record and
    // store as they are.
    #[tactic(auto, using(laws::proofs::Decide::decide), unfolding(crate::specs::Collecting::collect))]
    pub fn on_asdu(self, store: &mut [u8], asdu: Incoming, beside: &[u8]) -> DirectoryStep
        ensures { (result ≡ (collect self store.old asdu.header asdu.unknown asdu.received beside.now).step) × (store.new ≡ (collect self store.old asdu.header asdu.unknown asdu.received beside.now).store) }
    {
        if !self.agrees(store) {
            return self.refuses(FtError::RecordMismatch);
        }
        if !self.started || self.done {
            return self.runs();
        }
        let reaction = self.procedure.on_asdu(asdu, beside);
        self.on_admitted(store, beside, taken(asdu.received), reaction)
    }
}
