// One frame passes: the queue's first is handed, under a header of its sender's, to the other machine,
// and what that sends joins the queue.
ghost use Rattle.std.specs.Prelude.{◌≡◌};
ghost use Rattle.provide.specs.Replies.{reply_frame};
ghost use Rattle.twoparty.specs.Party.{first, next_frame, replied, to_provider, to_receiver, advanced, party_stepped};

use crate::{NextFrame, Queue, TwoParty};
use asdu::FtError;
use exchange::Sender;
use radio::Radio;
use requests::{ProviderAnswer, Reply};

// What the Provider's answer puts into the queue.
pub fn replied(radio: Radio, answer: ProviderAnswer) -> Queue
    ensures { result ≡ replied radio answer }
{
    match answer {
        ProviderAnswer::Running(reply) => Queue::Provider {
            reply,
            next: 0,
            damaged: radio.is_damaged(reply),
        },
        ProviderAnswer::Complete
        | ProviderAnswer::Deactivated { .. }
        | ProviderAnswer::FileRejected { .. }
        | ProviderAnswer::Refused { .. }
        | ProviderAnswer::Err(_) => Queue::Empty,
    }
}

impl TwoParty {
    // The queue's first frame.
    fn first(self, file: &[u8]) -> Option<NextFrame>
        ensures { Ok result ≡ first self.provider self.receiver file.now self.queue }
    {
        match self.queue {
            Queue::Empty => None,
            Queue::Receiver => Some(NextFrame {
                sender: Sender::Receiver,
                frame: self.receiver.awaited(),
            }),
            Queue::Provider { reply, next, .. } => {
                let frame = self.provider.reply_frame(file, reply, next).ok()?;
                Some(NextFrame {
                    sender: Sender::Provider,
                    frame,
                })
            }
        }
    }

    // The frame that passes next; 26 where the Provider's record and the file disagree.
    #[tactic(auto, using(laws::proofs::Decide::decide), unfolding(crate::specs::Party::next_frame))]
    pub fn next_frame(self, file: &[u8]) -> Result<Option<NextFrame>, FtError>
        ensures { result ≡ next_frame self file.now }
    {
        if !self.provider.agrees(file) {
            return Err(FtError::RecordMismatch);
        }
        Ok(self.first(file))
    }

    // The Provider is handed the Receiver's frame, and what it answers joins the queue.
    fn to_provider(self, file: &[u8], damage: &[u8]) -> TwoParty
        ensures { result ≡ to_provider self file.now damage.now }
    {
        let step = delivery::hand_provider(self.provider, self.receiver, file);
        TwoParty {
            provider: step.provider,
            queue: replied(self.radio, step.answer),
            radio: self.radio.after_answer(damage, step.answer),
            ..self
        }
    }

    // The Receiver is handed the frame at index `next` of the Provider's reply, and what it sends takes the
    // place of the rest; where there is no such frame nothing changes.
    #[tactic(auto, using(crate::proofs::Reaches::frame_below))]
    fn to_receiver(
        self,
        file: &[u8],
        store: &mut [u8],
        reply: Reply,
        next: usize,
        damaged: bool,
    ) -> TwoParty
        ensures { (result ≡ (to_receiver self file.now store.old reply next damaged (reply_frame self.provider file.now reply next)).party)
            × (store.new ≡ (to_receiver self file.now store.old reply next damaged (reply_frame self.provider file.now reply next)).store) }
    {
        let Ok(frame) = self.provider.reply_frame(file, reply, next) else {
            return self;
        };
        let step = delivery::hand_receiver(
            self.provider,
            self.receiver,
            file,
            store,
            reply,
            next,
            damaged,
            frame,
        );
        let rest = Queue::Provider {
            reply,
            next: next + 1,
            damaged,
        };
        TwoParty {
            receiver: step.receiver,
            queue: rest.asked(step.answer),
            ..self
        }
    }

    // The queue's first frame passes; an empty queue stays.
    #[tactic(auto, using(laws::proofs::Decide::decide), unfolding(crate::specs::Party::advanced))]
    fn advance(self, file: &[u8], damage: &[u8], store: &mut [u8]) -> TwoParty
        ensures { (result ≡ (advanced self file.now damage.now store.old).party)
            × (store.new ≡ (advanced self file.now damage.now store.old).store) }
    {
        match self.queue {
            Queue::Empty => self,
            Queue::Receiver => self.to_provider(file, damage),
            Queue::Provider {
                reply,
                next,
                damaged,
            } => self.to_receiver(file, store, reply, next, damaged),
        }
    }

    // One frame passes: 26 first, where a record disagrees with its lent buffer; with no frame left
    // nothing changes.
    #[tactic(auto, using(laws::proofs::Decide::decide), unfolding(crate::specs::Party::party_stepped))]
    pub fn step(self, file: &[u8], damage: &[u8], store: &mut [u8]) -> Result<TwoParty, FtError>
        ensures { (result ≡ (party_stepped self file.now damage.now store.old).result)
            × (store.new ≡ (party_stepped self file.now damage.now store.old).store) }
    {
        if !(self.provider.agrees(file) && self.receiver.agrees(store)) {
            return Err(FtError::RecordMismatch);
        }
        Ok(self.advance(file, damage, store))
    }
}
