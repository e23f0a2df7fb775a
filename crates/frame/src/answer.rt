// Which frame answers which: the matching of IEC 60870-5-101, 7.4.11, and 60870-5-104, 7.11 and 8.9.
ghost use Rattle.std.specs.Prelude.{◌≡◌};
ghost use Rattle.frame.specs.Frames.{type_of};
ghost use Rattle.frame.specs.Answers.{nof_of, nos_of, requested_section, called_section, agree, refusing, file_answered, section_answered, sc_answered, ack_answered, answers_type, names_agree, answers_to};

use crate::Frame;
use asdu::{Afq, Nof, Nos, Scq, TypeId};

// The name of file of a frame; a directory has one for each entry and none of its own.
pub fn nof_of(frame: Frame) -> Option<Nof>
    ensures { result ≡ nof_of frame }
{
    match frame {
        Frame::FileReady { nof, .. }
        | Frame::SectionReady { nof, .. }
        | Frame::Sc { nof, .. }
        | Frame::LastSection { nof, .. }
        | Frame::Ack { nof, .. }
        | Frame::Segment { nof, .. }
        | Frame::QueryLog { nof, .. } => Some(nof),
        Frame::Directory { .. } => None,
    }
}

// The name of section of a frame.
pub fn nos_of(frame: Frame) -> Option<Nos>
    ensures { result ≡ nos_of frame }
{
    match frame {
        Frame::SectionReady { nos, .. }
        | Frame::Sc { nos, .. }
        | Frame::LastSection { nos, .. }
        | Frame::Ack { nos, .. }
        | Frame::Segment { nos, .. } => Some(nos),
        Frame::FileReady { .. } | Frame::Directory { .. } | Frame::QueryLog { .. } => None,
    }
}

// The section that a request names: only the request for a section asks for one by its name. A call of
// the file is answered by its first section, and an acknowledgement by the next one, as the other side
// chooses.
pub fn requested_section(frame: Frame) -> Option<Nos>
    ensures { result ≡ requested_section frame }
{
    match frame {
        Frame::Sc { nos, scq, .. } => called_section(nos, scq),
        Frame::FileReady { .. }
        | Frame::SectionReady { .. }
        | Frame::LastSection { .. }
        | Frame::Ack { .. }
        | Frame::Segment { .. }
        | Frame::Directory { .. }
        | Frame::QueryLog { .. } => None,
    }
}

#[tactic(auto, using(laws::proofs::Decide::decide), unfolding(crate::specs::Answers::called_section))]
fn called_section(nos: Nos, scq: Scq) -> Option<Nos>
    ensures { result ≡ called_section nos scq }
{
    if scq.action == Scq::REQUEST_SECTION {
        Some(nos)
    } else {
        None
    }
}

// Whether two names agree, of file or of section, where both are there.
pub fn agree<T: PartialEq + Copy>(a: Option<T>, b: Option<T>) -> bool
    ensures { result ≡ agree T.eq a b }
{
    match (a, b) {
        (Some(x), Some(y)) => x == y,
        _ => true,
    }
}

// A file ready that confirms negatively (7.2.6.28), or a section ready that says it is not ready
// (7.2.6.29).
fn refuses(frame: Frame) -> bool
    ensures { result ≡ refusing frame }
{
    match frame {
        Frame::FileReady { frq, .. } => frq.negative_confirm,
        Frame::SectionReady { srq, .. } => srq.not_ready,
        Frame::Sc { .. }
        | Frame::LastSection { .. }
        | Frame::Ack { .. }
        | Frame::Segment { .. }
        | Frame::Directory { .. }
        | Frame::QueryLog { .. } => false,
    }
}

// The answers to a call of the file: its first section ready, or a file ready that refuses.
#[tactic(auto, using(laws::proofs::Decide::decide), unfolding(crate::specs::Answers::file_answered))]
fn file_answered(t: u8, refused: bool) -> bool
    ensures { result ≡ file_answered t refused }
{
    match t {
        TypeId::F_SR_NA_1 => true,
        TypeId::F_FR_NA_1 => refused,
        _ => false,
    }
}

// The answers to a call of a section: its segments, its last segment, or a section ready that refuses.
#[tactic(auto, using(laws::proofs::Decide::decide), unfolding(crate::specs::Answers::section_answered, crate::specs::Answers::one_of))]
fn section_answered(t: u8, refused: bool) -> bool
    ensures { result ≡ section_answered t refused }
{
    match t {
        TypeId::F_SG_NA_1 | TypeId::F_LS_NA_1 => true,
        TypeId::F_SR_NA_1 => refused,
        _ => false,
    }
}

// The kinds that answer a request with this action; an action that is none of these asks for none.
#[tactic(auto, using(laws::proofs::Decide::decide), unfolding(crate::specs::Answers::sc_answered))]
fn sc_answered(action: u8, answered: Frame) -> bool
    ensures { result ≡ sc_answered action (type_of answered) (refusing answered) }
{
    let t = answered.type_id();
    let refused = refuses(answered);
    match action {
        Scq::CALL_DIRECTORY => t == TypeId::F_DR_TA_1,
        Scq::SELECT_FILE => t == TypeId::F_FR_NA_1,
        Scq::REQUEST_FILE => file_answered(t, refused),
        Scq::SELECT_SECTION => t == TypeId::F_SR_NA_1,
        Scq::REQUEST_SECTION => section_answered(t, refused),
        _ => true,
    }
}

// The kinds that answer an acknowledgement.
#[tactic(auto, using(laws::proofs::Decide::decide), unfolding(crate::specs::Answers::ack_answered, crate::specs::Answers::one_of))]
fn ack_answered(action: u8, t: u8) -> bool
    ensures { result ≡ ack_answered action t }
{
    match action {
        Afq::SECTION_POSITIVE => matches!(t, TypeId::F_SR_NA_1 | TypeId::F_LS_NA_1),
        Afq::SECTION_NEGATIVE => matches!(t, TypeId::F_SG_NA_1 | TypeId::F_LS_NA_1),
        _ => true,
    }
}

// Whether a frame is of a kind that answers the one sent.
pub fn answers_type(sent: Frame, answered: Frame) -> bool
    ensures { result ≡ answers_type sent answered }
{
    match sent {
        Frame::Sc { scq, .. } => sc_answered(scq.action, answered),
        Frame::Ack { afq, .. } => ack_answered(afq.action, answered.type_id()),
        Frame::QueryLog { .. } => answered.type_id() == TypeId::F_FR_NA_1,
        Frame::FileReady { .. }
        | Frame::SectionReady { .. }
        | Frame::LastSection { .. }
        | Frame::Segment { .. }
        | Frame::Directory { .. } => true,
    }
}

// Whether a frame answers the one sent, field by field as the standard lays them out: a type
// identification (7.2.1.1) that answers it, the same object address (7.2.5), the same name of file
// (7.2.6.33) where both have one, and the same name of section (7.2.6.34) where the request named one.
#[tactic(auto, using(laws::proofs::Decide::decide), unfolding(crate::specs::Answers::answers_to))]
pub fn answers(sent: Frame, answered: Frame) -> bool
    ensures { result ≡ answers_to sent answered }
{
    answers_type(sent, answered) && sent.ioa() == answered.ioa() && names_agree(sent, answered)
}

// Both names: of the file, and of the section that the request named.
#[tactic(auto, using(laws::proofs::Decide::decide), unfolding(crate::specs::Answers::names_agree))]
fn names_agree(sent: Frame, answered: Frame) -> bool
    ensures { result ≡ names_agree sent answered }
{
    agree(nof_of(sent), nof_of(answered)) && agree(requested_section(sent), nos_of(answered))
}
