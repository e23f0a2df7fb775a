// What a Provider decides on a request or an acknowledgement for its file (IEC 60870-5-101, 7.4.11): the
// answer alone, without the record that it is put beside.
#![tactic(auto)]

ghost use Rattle.std.specs.Prelude.{◌≡◌};
ghost use Rattle.requests.specs.Answers.{is_over, sc_answer, after_section, ack_answer};

use asdu::{Afq, Cause, FtError, Nos, Scq};

// What a Provider sends: its frames are counted, and each is made when it is asked for by its index.
#[derive(Clone, Copy, PartialEq, Eq)]
pub enum Reply {
    Nothing,
    FileReady,
    SectionReady(Nos),
    // A section's segments and its close.
    Section(Nos),
    FileClose(Nos),
}

// Where a Provider stands after a frame, or its numbered refusal: a case here and no `Err` of a `Result`, so
// that `is_over` is one table over all answers.
#[derive(Clone, Copy, PartialEq, Eq)]
pub enum ProviderAnswer {
    Running(Reply),
    Complete,
    Deactivated { scq: Scq },
    FileRejected { afq: Afq },
    Refused { cause: Cause, mirror: bool },
    Err(FtError),
}

impl ProviderAnswer {
    // Whether the transfer is over with this answer. A refusal by number does not end it.
    pub fn is_over(self) -> bool
        ensures { result ≡ is_over self }
    {
        match self {
            ProviderAnswer::Running(_) => false,
            ProviderAnswer::Err(_) => false,
            ProviderAnswer::Complete
            | ProviderAnswer::Deactivated { .. }
            | ProviderAnswer::FileRejected { .. }
            | ProviderAnswer::Refused { .. } => true,
        }
    }
}

// A request, by the action of SCQ (7.2.6.30). One that asks for neither file nor section ends the
// transfer: a deactivation, a deletion, and the call of a directory, which is not the Provider's.
pub fn on_sc(nos: Nos, scq: Scq) -> ProviderAnswer
    ensures { result ≡ sc_answer nos scq }
{
    match scq.action {
        Scq::SELECT_FILE => ProviderAnswer::Running(Reply::FileReady),
        Scq::REQUEST_FILE => ProviderAnswer::Running(Reply::SectionReady(Nos { value: 1 })),
        Scq::SELECT_SECTION => ProviderAnswer::Running(Reply::SectionReady(nos)),
        Scq::REQUEST_SECTION => ProviderAnswer::Running(Reply::Section(nos)),
        _ => ProviderAnswer::Deactivated { scq },
    }
}

// After a positive acknowledgement of section `nos`, of a file of so many sections: the next section, or
// the file's close.
fn after_section(sections: u8, nos: Nos) -> Reply
    ensures { result ≡ after_section sections nos }
{
    if nos.value < sections {
        return Reply::SectionReady(Nos {
            value: nos.value + 1,
        });
    }
    Reply::FileClose(nos)
}

// An acknowledgement, by the action of AFQ (7.2.6.32), for a file of so many sections.
pub fn on_ack(sections: u8, nos: Nos, afq: Afq) -> ProviderAnswer
    ensures { result ≡ ack_answer sections nos afq }
{
    match afq.action {
        Afq::SECTION_POSITIVE => ProviderAnswer::Running(after_section(sections, nos)),
        Afq::SECTION_NEGATIVE => ProviderAnswer::Running(Reply::Section(nos)),
        Afq::FILE_POSITIVE => ProviderAnswer::Complete,
        _ => ProviderAnswer::FileRejected { afq },
    }
}
