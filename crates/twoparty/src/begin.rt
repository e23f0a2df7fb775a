// The tests before any frame, and the Receiver's start.
ghost use Rattle.std.specs.Prelude.{◌≡◌};
ghost use Rattle.exchange.specs.Stations.{providing};
ghost use Rattle.twoparty.specs.Party.{station_of, asked, started_party, party_made};

use crate::{Queue, Settings, TwoParty};
use asdu::FtError;
use ft::{FileTransferProcedure, Role, Selection};
use provide::Provider;
use radio::Radio;
use receive::{Receiver, ReceiverAnswer, ReceiverStep};

// The direction in which a Provider of this role sends.
fn providing(role: Role) -> Selection
    ensures { result ≡ providing role }
{
    match role {
        Role::Controlled => Selection::MONITOR,
        Role::Controlling => Selection::CONTROL,
    }
}

impl Settings {
    // A station of this role in the run.
    fn station(self, role: Role) -> FileTransferProcedure
        ensures { result ≡ station_of self role }
    {
        FileTransferProcedure {
            role,
            selection: providing(self.role),
            ca: self.common_address,
            org: 0,
            sizes: self.sizes,
        }
    }
}

impl Queue {
    // What is on its way after the Receiver's answer: the rest, or the one frame that it sends.
    #[tactic(auto, using(laws::proofs::Decide::decide), unfolding(crate::specs::Party::asked))]
    pub fn asked(self, answer: ReceiverAnswer) -> Queue
        ensures { result ≡ asked self answer }
    {
        if answer.sends() {
            Queue::Receiver
        } else {
            self
        }
    }
}

impl TwoParty {
    // The Receiver's start queues the first frame.
    fn started(provider: Provider, damage: &[u8], step: ReceiverStep) -> TwoParty
        ensures { result ≡ started_party provider damage.now step }
    {
        TwoParty {
            provider,
            receiver: step.receiver,
            queue: Queue::Empty.asked(step.answer),
            radio: Radio::first(damage),
        }
    }

    // A transfer of the lent file, before any frame: 2, 3 and 1 of the makings, 11 where damage names a
    // section with no octets, 24 where the store is shorter than the file.
    #[tactic(auto, using(laws::proofs::Decide::decide), unfolding(crate::specs::Party::party_made, crate::specs::Party::with_provider))]
    pub fn new(
        settings: Settings,
        file: &[u8],
        damage: &[u8],
        store: &[u8],
    ) -> Result<TwoParty, FtError>
        ensures { result ≡ party_made settings file.now damage.now store.now }
    {
        let Settings { ioa, nof, role, .. } = settings;
        let provider = Provider::new(settings.station(role), ioa, nof, file)?;
        if !radio::all_have_octets(file, provider.section_len, damage) {
            return Err(FtError::ScriptMisshapen);
        }
        if store.len() < file.len() {
            return Err(FtError::StoreFull);
        }
        let receiver = Receiver::new(settings.station(role.other()), ioa, nof)?;
        Ok(TwoParty::started(provider, damage, receiver.start(store)))
    }
}
