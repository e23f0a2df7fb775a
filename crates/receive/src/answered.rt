// What a Receiver makes of each frame that answers it (IEC 60870-5-101, 7.4.11).
ghost use Rattle.std.specs.Prelude.{◌≡◌};
ghost use Rattle.ft.specs.Admission.{on_answer};
ghost use Rattle.receive.specs.Record.{awaited, stepped};
ghost use Rattle.receive.specs.Answers.{on_file_ready, on_section_ready, after_section_close, closing, after_file_close, on_close, on_segment, receive};
ghost use Rattle.receive.specs.Told.{told_by_frame, told_by, told_of, on_told};

use crate::{Receiver, ReceiverAnswer, ReceiverStep, Sent};
use acceptance::{FileClosed, Held, SectionClosed};
use asdu::{Afq, Cause, Chs, Frq, FtError, Lof, Lsq, Nos, Scq, Srq};
use frame::Frame;
use ft::{Incoming, Reaction, Received};

// What a received frame tells a Receiver: no more than its step goes by, so that the step holds neither
// the frame nor the reaction. A refusal is a case here: it is one of the things
// that a step goes by.
#[derive(Clone, Copy, PartialEq, Eq)]
enum Told {
    Nothing,
    FileReady { lof: Lof, frq: Frq },
    SectionReady { nos: Nos, srq: Srq },
    Close { nos: Nos, lsq: Lsq, chs: Chs },
    // Its octets stand beside it.
    Segment,
    Refused { cause: Cause, mirror: bool },
    Err(FtError),
}

// What a frame tells that answers the one sent.
fn told_by_frame(frame: Frame) -> Told
    ensures { result ≡ told_by_frame frame }
{
    match frame {
        Frame::FileReady { lof, frq, .. } => Told::FileReady { lof, frq },
        Frame::SectionReady { nos, srq, .. } => Told::SectionReady { nos, srq },
        Frame::LastSection { nos, lsq, chs, .. } => Told::Close { nos, lsq, chs },
        Frame::Segment { .. } => Told::Segment,
        Frame::Sc { .. } | Frame::Ack { .. } | Frame::Directory { .. } | Frame::QueryLog { .. } =>
            Told::Nothing,
    }
}

// An answer is a frame: what is undecodable is refused before.
fn told_by(received: Received) -> Told
    ensures { result ≡ told_by received }
{
    match received {
        Received::Frame(frame) => told_by_frame(frame),
        Received::Undecodable => Told::Nothing,
    }
}

// By what admission makes of it.
fn told_of(received: Received, reaction: Result<Reaction, FtError>) -> Told
    ensures { result ≡ told_of received reaction }
{
    match reaction {
        Ok(Reaction::Requested) => Told::Nothing,
        Ok(Reaction::Answered) => told_by(received),
        Ok(Reaction::Refused { cause, mirror }) => Told::Refused { cause, mirror },
        Ok(Reaction::Discard(_)) => Told::Nothing,
        Ok(Reaction::Other) => Told::Nothing,
        Err(error) => Told::Err(error),
    }
}

impl Receiver {
    // The file is ready and is called, or it is not.
    #[tactic(auto, using(laws::proofs::Decide::decide), unfolding(crate::specs::Answers::on_file_ready))]
    fn on_file_ready(self, lof: Lof, frq: Frq) -> ReceiverStep
        ensures { result ≡ on_file_ready self lof frq }
    {
        if frq.negative_confirm {
            return self.ends(ReceiverAnswer::FileNotReady { frq });
        }
        self.stating(lof.value).asks(Sent::Request {
            action: Scq::REQUEST_FILE,
            nos: Nos { value: 0 },
        })
    }

    // A section is ready and is called, or it is not. One under way is dropped.
    #[tactic(auto, using(laws::proofs::Decide::decide), unfolding(crate::specs::Answers::on_section_ready))]
    fn on_section_ready(self, nos: Nos, srq: Srq) -> ReceiverStep
        ensures { result ≡ on_section_ready self nos srq }
    {
        if srq.not_ready {
            return self.ends(ReceiverAnswer::SectionNotReady { nos, srq });
        }
        Receiver { staged: 0, ..self }.asks(Sent::Request {
            action: Scq::REQUEST_SECTION,
            nos,
        })
    }

    // After a section's close: accepted, it is acknowledged positively; dropped, it is asked for again.
    fn after_section_close(self, closed: SectionClosed, nos: Nos) -> ReceiverStep
        ensures { result ≡ after_section_close self nos closed }
    {
        match closed {
            SectionClosed::Accepted(held) => self.holding(held).asks(Sent::Acknowledgement {
                action: Afq::SECTION_POSITIVE,
                nos,
            }),
            SectionClosed::Dropped(held) => self.holding(held).asks(Sent::Acknowledgement {
                action: Afq::SECTION_NEGATIVE,
                nos,
            }),
        }
    }

    // The acknowledgement of the file goes out, and the transfer is over.
    fn closes(self, held: Held, ack: Sent, answer: ReceiverAnswer) -> ReceiverStep
        ensures { result ≡ stepped (closing self held ack) answer }
    {
        self.holding(held).awaiting(ack).ends(answer)
    }

    // After the file's close: complete where it is whole.
    fn after_file_close(self, closed: FileClosed, nos: Nos, chs: Chs) -> ReceiverStep
        ensures { result ≡ after_file_close self nos chs closed }
    {
        match closed {
            FileClosed::Whole(held) => {
                let ack = Sent::Acknowledgement {
                    action: Afq::FILE_POSITIVE,
                    nos,
                };
                let length = held.kept;
                self.closes(held, ack, ReceiverAnswer::Complete { length })
            }
            FileClosed::Differs { expected, held } => {
                let ack = Sent::Acknowledgement {
                    action: Afq::FILE_NEGATIVE,
                    nos,
                };
                self.closes(
                    held,
                    ack,
                    ReceiverAnswer::FileChecksum { expected, got: chs },
                )
            }
        }
    }

    // The last segment of a section or the last section of the file, by LSQ; one of another LSQ ends
    // the transfer.
    #[tactic(auto, using(laws::proofs::Decide::decide), unfolding(crate::specs::Answers::on_close, crate::specs::Answers::on_section_close, crate::specs::Answers::on_file_close))]
    fn on_close(self, store: &[u8], nos: Nos, lsq: Lsq, chs: Chs) -> ReceiverStep
        ensures { result ≡ on_close self store.now nos lsq chs }
    {
        let held = Held {
            kept: self.kept,
            staged: self.staged,
        };
        match lsq.value {
            Lsq::SECTION_WITHOUT_DEACTIVATION | Lsq::SECTION_WITH_DEACTIVATION => {
                self.after_section_close(acceptance::close_section(held, store, chs), nos)
            }
            Lsq::FILE_WITHOUT_DEACTIVATION | Lsq::FILE_WITH_DEACTIVATION => {
                self.after_file_close(acceptance::close_file(held, store, chs), nos, chs)
            }
            _ => self.ends(ReceiverAnswer::UnknownLsq(lsq)),
        }
    }

    // A segment is written after what is held: 24 where the store cannot take it.
    fn on_segment(self, store: &mut [u8], payload: &[u8]) -> ReceiverStep
        ensures { (result ≡ (on_segment self store.old payload.now).step) × (store.new ≡ (on_segment self store.old payload.now).store) }
    {
        if !store::write_at(store, self.kept, self.staged, payload) {
            return self.refuses(FtError::StoreFull);
        }
        // Changed in place: put together anew, the record costs a tenth of a run's time.
        let mut next = self;
        next.staged += payload.len();
        next.runs()
    }

    // What a received frame tells, by what admission makes of it as the answer to the one sent.
    fn told(self, asdu: Incoming, beside: &[u8]) -> Told
        ensures { result ≡ told_of asdu.received (on_answer self.procedure asdu.header asdu.unknown asdu.received beside.now (awaited self)) }
    {
        let reaction = self.procedure.on_answer(asdu, beside, self.awaited());
        told_of(asdu.received, reaction)
    }

    // A step by what the frame tells.
    fn on_told(self, store: &mut [u8], payload: &[u8], told: Told) -> ReceiverStep
        ensures { (result ≡ (on_told self store.old payload.now told).step) × (store.new ≡ (on_told self store.old payload.now told).store) }
    {
        match told {
            Told::Nothing => self.runs(),
            Told::FileReady { lof, frq } => self.on_file_ready(lof, frq),
            Told::SectionReady { nos, srq } => self.on_section_ready(nos, srq),
            Told::Close { nos, lsq, chs } => self.on_close(store, nos, lsq, chs),
            Told::Segment => self.on_segment(store, payload),
            Told::Refused { cause, mirror } => self.ends(ReceiverAnswer::Refused { cause, mirror }),
            Told::Err(error) => self.refuses(error),
        }
    }

    // One frame handed to the Receiver, with what stands beside it. 26 is tested first; then a done
    // record is answered with nothing; then come admission, 23 and what the frame says; 24 is tested
    // last. A refusal leaves record and store as they are.
    pub fn on_asdu(self, store: &mut [u8], asdu: Incoming, beside: &[u8]) -> ReceiverStep
        ensures { (result ≡ (receive self store.old asdu.header asdu.unknown asdu.received beside.now).step) × (store.new ≡ (receive self store.old asdu.header asdu.unknown asdu.received beside.now).store) }
    {
        if !self.agrees(store) {
            return self.refuses(FtError::RecordMismatch);
        }
        if self.done {
            return self.runs();
        }
        let told = self.told(asdu, beside);
        self.on_told(store, beside, told)
    }
}
