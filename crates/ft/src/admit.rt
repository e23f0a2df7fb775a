// What a received frame means to a station: document 01's steps 1 to 7, in their order, 3 and 4 as
// document 02, A11, has them (IEC 60870-5-101, 7.2.3, and 60870-5-104, 7.11).
ghost use Rattle.std.specs.Prelude.{◌≡◌};
ghost use Rattle.laws.specs.When.{◌or◌};
ghost use Rattle.asdu.specs.declared.Unspecified.TheVariants.{CommonAddress};
ghost use Rattle.ft.specs.Admission.{serves, unspecified, mirrored, is_broadcast, is_first, frame_agrees, unserved, admit_frame, admit_received, admit_known, on_asdu, matched, answered, on_answer};

use crate::{FileTransferProcedure, Incoming, Reaction, Received, Role, direction};
use asdu::{AddressSizes, Discard, FtError, Header, Unspecified, headers};
use frame::{Frame, answer, range};

// The answer to a field that the station does not know: a controlled station sends the mirror, a
// controlling one discards.
fn unspecified(role: Role, which: Unspecified) -> Result<Reaction, FtError>
    ensures { result ≡ unspecified role which }
{
    match role {
        Role::Controlled => Ok(Reaction::Refused {
            cause: which.cause(),
            mirror: true,
        }),
        Role::Controlling => Ok(Reaction::Discard(Discard::Unspecified(which))),
    }
}

// Whether this field is the first that the station does not know.
fn is_first(unknown: Option<Unspecified>, field: Unspecified) -> bool
    ensures { result ≡ is_first unknown field }
{
    match unknown {
        Some(which) => which.cause() == field.cause(),
        None => false,
    }
}

// Whether the frame is within its ranges and of the header's type and cause.
#[tactic(auto, using(laws::proofs::Decide::decide), unfolding(crate::specs::Admission::frame_agrees))]
fn agrees(sizes: AddressSizes, header: Header, frame: Frame, beside: &[u8]) -> bool
    ensures { result ≡ frame_agrees sizes header frame beside.now }
{
    frame.ioa() <= sizes.max_ioa()
        && range::is_in_range(sizes, frame, beside)
        && frame.type_id() == header.type_id
        && frame.cause() == header.cause
}

impl FileTransferProcedure {
    // Whether the station uses the direction of what a station of this role sends.
    #[tactic(auto, using(laws::proofs::Decide::decide), unfolding(crate::specs::Admission::serves))]
    pub fn serves(self, sender: Role, receiver_side: bool) -> bool
        ensures { result ≡ serves self sender receiver_side }
    {
        self.selection
            .uses(direction::direction_for(sender, receiver_side))
    }

    // Step 2: the mirror of what this station sends is the other one's refusal.
    #[tactic(auto, using(laws::proofs::Decide::decide), unfolding(crate::specs::Admission::mirrored))]
    fn on_mirror(self, header: Header) -> Result<Reaction, FtError>
        ensures { result ≡ mirrored self header }
    {
        if self.serves(self.role, frame::is_receiver_side_type(header.type_id)) {
            return Ok(Reaction::Refused {
                cause: header.cause,
                mirror: false,
            });
        }
        Ok(Reaction::Discard(Discard::Mirror))
    }

    // Step 6: the frame's direction is not used.
    #[tactic(auto, using(laws::proofs::Decide::decide), unfolding(crate::specs::Admission::unserved, crate::specs::Admission::not_served))]
    fn unserved(self) -> Result<Reaction, FtError>
        ensures { result ≡ unserved self }
    {
        match self.role {
            Role::Controlled => unspecified(self.role, Unspecified::TypeIdentification),
            Role::Controlling => {
                if self.selection.uses_function() {
                    return Err(FtError::NotSelectedDirection);
                }
                Err(FtError::FunctionNotUsed)
            }
        }
    }

    // Steps 5 to 7, of a frame.
    #[tactic(auto, using(laws::proofs::Decide::decide), unfolding(crate::specs::Admission::admit_frame))]
    fn admit_frame(self, header: Header, frame: Frame, beside: &[u8]) -> Result<Reaction, FtError>
        ensures { result ≡ admit_frame self header frame beside.now }
    {
        if !agrees(self.sizes, header, frame, beside) {
            return Err(FtError::ValueOutOfRange);
        }
        let side = frame.is_receiver_side();
        if !self.serves(self.role.other(), side) {
            return self.unserved();
        }
        if side {
            return Ok(Reaction::Requested);
        }
        Ok(Reaction::Answered)
    }

    // Steps 5 to 7.
    fn admit_received(self, asdu: Incoming, beside: &[u8]) -> Result<Reaction, FtError>
        ensures { result ≡ admit_received self asdu.header asdu.received beside.now }
    {
        match asdu.received {
            Received::Undecodable => Err(FtError::Undecodable),
            Received::Frame(frame) => self.admit_frame(asdu.header, frame, beside),
        }
    }

    // Whether the header's common address is broadcast or one that the station does not know.
    #[tactic(auto, using(laws::proofs::Decide::decide))]
    fn is_address_unknown(self, header: Header, unknown: Option<Unspecified>) -> bool
        ensures { result ≡ (is_broadcast self.sizes header or is_first unknown CommonAddress) }
    {
        header.common_address == self.sizes.broadcast_common_address()
            || is_first(unknown, Unspecified::CommonAddress)
    }

    // Steps 3 and 4 in the order of causes 44 to 47 (document 02, A11), then steps 5 to 7. Broadcast is
    // no station's own address, so it counts as an unknown one.
    #[tactic(auto, using(laws::proofs::Decide::decide), unfolding(crate::specs::Admission::admit_known))]
    fn admit_known(self, asdu: Incoming, beside: &[u8]) -> Result<Reaction, FtError>
        ensures { result ≡ admit_known self asdu.header asdu.unknown asdu.received beside.now }
    {
        if is_first(asdu.unknown, Unspecified::TypeIdentification) {
            return unspecified(self.role, Unspecified::TypeIdentification);
        }
        if is_first(asdu.unknown, Unspecified::Cause) {
            return unspecified(self.role, Unspecified::Cause);
        }
        if self.is_address_unknown(asdu.header, asdu.unknown) {
            return unspecified(self.role, Unspecified::CommonAddress);
        }
        if is_first(asdu.unknown, Unspecified::InformationObjectAddress) {
            return unspecified(self.role, Unspecified::InformationObjectAddress);
        }
        self.admit_received(asdu, beside)
    }

    // What a received frame means: 26 on settings that no making gives, 3 on a common address over its
    // width, then steps 1 to 7.
    #[inline(always)]
    #[tactic(auto, using(laws::proofs::Decide::decide), unfolding(crate::specs::Admission::on_asdu))]
    pub fn on_asdu(self, asdu: Incoming, beside: &[u8]) -> Result<Reaction, FtError>
        ensures { result ≡ on_asdu self asdu.header asdu.unknown asdu.received beside.now }
    {
        if !self.is_settled() {
            return Err(FtError::RecordMismatch);
        }
        if self.sizes.max_common_address() < asdu.header.common_address {
            return Err(FtError::AddressOutOfRange);
        }
        if !frame::is_file_type(asdu.header.type_id) {
            return Ok(Reaction::Other);
        }
        if headers::is_mirror(asdu.header) {
            return self.on_mirror(asdu.header);
        }
        self.admit_known(asdu, beside)
    }

    // The same for a station that waits for the answer to a frame it sent: an answer to another is 23,
    // and clears nothing.
    #[tactic(auto, unfolding(crate::specs::Admission::on_answer))]
    pub fn on_answer(self, asdu: Incoming, beside: &[u8], sent: Frame) -> Result<Reaction, FtError>
        ensures { result ≡ on_answer self asdu.header asdu.unknown asdu.received beside.now sent }
    {
        match self.on_asdu(asdu, beside)? {
            Reaction::Answered => answered(sent, asdu.received),
            reaction => Ok(reaction),
        }
    }
}

// A frame of the providing side: 23 where it does not answer the one sent.
#[tactic(auto, using(laws::proofs::Decide::decide), unfolding(crate::specs::Admission::matched))]
fn matched(sent: Frame, frame: Frame) -> Result<Reaction, FtError>
    ensures { result ≡ matched sent frame }
{
    if answer::answers(sent, frame) {
        return Ok(Reaction::Answered);
    }
    Err(FtError::EchoMismatch)
}

fn answered(sent: Frame, received: Received) -> Result<Reaction, FtError>
    ensures { result ≡ answered sent received }
{
    match received {
        Received::Frame(frame) => matched(sent, frame),
        Received::Undecodable => Err(FtError::Undecodable),
    }
}
