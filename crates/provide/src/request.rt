// What a Provider makes of a received frame (IEC 60870-5-101, 7.4.11): the requests and
// acknowledgements of its own file are answered, one for another file is counted.
ghost use Rattle.std.specs.Prelude.{◌≡◌};
ghost use Rattle.provide.specs.Requests.{replying, answered_with, on_ack, is_ours, on_ours, on_request, on_requested, provide_admitted, provide};
ghost use Rattle.requests.specs.declared.Reply.TheVariants.{Nothing};

use crate::{Provider, ProviderStep};
use asdu::{Afq, FtError, Nos};
use frame::{Frame, answer};
use ft::{Incoming, Reaction, Received};
use requests::{ProviderAnswer, Reply};

impl Provider {
    // The transfer goes on, and nothing is sent.
    fn nothing(self) -> ProviderStep
        ensures { result ≡ replying self Nothing }
    {
        ProviderStep {
            provider: self,
            answer: ProviderAnswer::Running(Reply::Nothing),
        }
    }

    // An answer beside the record, which is ended where the transfer is over with it.
    fn answered(self, answer: ProviderAnswer) -> ProviderStep
        ensures { result ≡ answered_with self answer }
    {
        let provider = if answer.is_over() { self.ended() } else { self };
        ProviderStep { provider, answer }
    }

    // An acknowledgement: whether a section follows goes by how many the file has.
    #[tactic(auto, using(laws::proofs::Decide::decide), unfolding(crate::specs::Requests::on_ack))]
    fn on_ack(self, nos: Nos, afq: Afq) -> ProviderStep
        ensures { result ≡ on_ack self nos afq }
    {
        let sections = sections::section_count(self.length) as u8;
        self.answered(requests::on_ack(sections, nos, afq))
    }

    // Whether a request is for this object address and file.
    #[tactic(auto, using(laws::proofs::Decide::decide), unfolding(crate::specs::Requests::is_ours))]
    fn is_ours(self, frame: Frame) -> bool
        ensures { result ≡ is_ours self frame }
    {
        frame.ioa() == self.ioa && answer::agree(answer::nof_of(frame), Some(self.nof))
    }

    // A request for this file; the query of a log sends nothing.
    #[tactic(auto, using(laws::proofs::Decide::decide), unfolding(crate::specs::Requests::on_sc))]
    fn on_ours(self, frame: Frame) -> ProviderStep
        ensures { result ≡ on_ours self frame }
    {
        match frame {
            Frame::Sc { nos, scq, .. } => self.answered(requests::on_sc(nos, scq)),
            Frame::Ack { nos, afq, .. } => self.on_ack(nos, afq),
            Frame::FileReady { .. }
            | Frame::SectionReady { .. }
            | Frame::LastSection { .. }
            | Frame::Segment { .. }
            | Frame::Directory { .. }
            | Frame::QueryLog { .. } => self.nothing(),
        }
    }

    #[tactic(auto, using(laws::proofs::Decide::decide), unfolding(crate::specs::Requests::on_request))]
    fn on_request(self, frame: Frame) -> ProviderStep
        ensures { result ≡ on_request self frame }
    {
        if self.is_ours(frame) {
            return self.on_ours(frame);
        }
        self.counted().nothing()
    }

    // A request is a frame: what is undecodable is refused before.
    fn on_requested(self, received: Received) -> ProviderStep
        ensures { result ≡ on_requested self received }
    {
        match received {
            Received::Frame(frame) => self.on_request(frame),
            Received::Undecodable => self.nothing(),
        }
    }

    // By what admission makes of the frame.
    fn on_reaction(self, received: Received, reaction: Result<Reaction, FtError>) -> ProviderStep
        ensures { result ≡ provide_admitted self received reaction }
    {
        match reaction {
            Ok(Reaction::Requested) => self.on_requested(received),
            Ok(Reaction::Refused { cause, mirror }) => {
                self.answered(ProviderAnswer::Refused { cause, mirror })
            }
            Ok(Reaction::Answered) => self.nothing(),
            Ok(Reaction::Discard(_)) => self.nothing(),
            Ok(Reaction::Other) => self.nothing(),
            Err(error) => self.answered(ProviderAnswer::Err(error)),
        }
    }

    // One received frame: 26 where record and file disagree, nothing on a record that is done, then by
    // admission. A refusal leaves the record as it came in.
    #[tactic(auto, using(laws::proofs::Decide::decide), unfolding(crate::specs::Requests::provide))]
    pub fn on_asdu(self, file: &[u8], asdu: Incoming, beside: &[u8]) -> ProviderStep
        ensures { result ≡ provide self file.now asdu.header asdu.unknown asdu.received beside.now }
    {
        if !self.agrees(file) {
            return self.answered(ProviderAnswer::Err(FtError::RecordMismatch));
        }
        if self.done {
            return self.nothing();
        }
        let reaction = self.procedure.on_asdu(asdu, beside);
        self.on_reaction(asdu.received, reaction)
    }
}
