// What a step makes of the record: it stays, it ends, or a frame goes out whose answer is awaited; and
// which frame that is.
ghost use Rattle.std.specs.Prelude.{◌≡◌};
ghost use Rattle.receive.specs.Record.{awaiting, holding, stating, ended, stepped};
ghost use Rattle.receive.specs.Answers.{asks, sends, to_send};
ghost use Rattle.receive.specs.declared.ReceiverAnswer.TheVariants.{Running, Err};

use crate::{Receiver, ReceiverAnswer, ReceiverStep, Sent};
use acceptance::Held;
use asdu::FtError;
use frame::Frame;

impl Receiver {
    // Nothing is sent, and the record stays.
    pub(crate) fn runs(self) -> ReceiverStep
        ensures { result ≡ stepped self Running }
    {
        ReceiverStep {
            receiver: self,
            answer: ReceiverAnswer::Running,
        }
    }

    // A numbered refusal: the record stays.
    pub(crate) fn refuses(self, error: FtError) -> ReceiverStep
        ensures { result ≡ stepped self (Err error) }
    {
        ReceiverStep {
            receiver: self,
            answer: ReceiverAnswer::Err(error),
        }
    }

    // The transfer is over.
    pub(crate) fn ends(self, answer: ReceiverAnswer) -> ReceiverStep
        ensures { result ≡ stepped (ended self) answer }
    {
        ReceiverStep {
            receiver: Receiver { done: true, ..self },
            answer,
        }
    }

    // The record with so many octets accepted and under way.
    pub(crate) fn holding(self, held: Held) -> Receiver
        ensures { result ≡ holding self held.kept held.staged }
    {
        let Held { kept, staged } = held;
        Receiver {
            kept,
            staged,
            ..self
        }
    }

    // The record with the answer to this awaited.
    pub(crate) fn awaiting(self, sent: Sent) -> Receiver
        ensures { result ≡ awaiting self sent }
    {
        Receiver { sent, ..self }
    }

    // The record with the file's length as stated.
    pub(crate) fn stating(self, length: u32) -> Receiver
        ensures { result ≡ stating self length }
    {
        Receiver {
            length: Some(length),
            ..self
        }
    }

    // A frame goes out, and its answer is awaited.
    pub(crate) fn asks(self, sent: Sent) -> ReceiverStep
        ensures { result ≡ asks self sent }
    {
        ReceiverStep {
            receiver: self.awaiting(sent),
            answer: ReceiverAnswer::Send,
        }
    }
}

impl ReceiverAnswer {
    // Whether a frame goes out with this answer.
    pub fn sends(self) -> bool
        ensures { result ≡ sends self }
    {
        matches!(
            self,
            ReceiverAnswer::Send
                | ReceiverAnswer::Complete { .. }
                | ReceiverAnswer::FileChecksum { .. }
        )
    }
}

impl ReceiverStep {
    // The frame that is to be sent: the one whose answer the record now awaits, the acknowledgement
    // of a whole file or of one whose sum differs included; or none.
    #[tactic(auto, using(laws::proofs::Decide::decide), unfolding(crate::specs::Answers::to_send))]
    pub fn to_send(self) -> Option<Frame>
        ensures { result ≡ to_send self }
    {
        if self.answer.sends() {
            return Some(self.receiver.awaited());
        }
        None
    }
}
