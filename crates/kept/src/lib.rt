// What a list of `replay` keeps from call to call (docs/REPLAY.md).
#![tactic(auto)]

use asdu::{AddressSizes, Nof};
use collector::DirectoryCall;
use ft::{FileTransferProcedure, Role, Selection};
use provide::Provider;
use radio::Radio;
use receive::{Receiver, Sent};
use twoparty::{Queue, TwoParty};
use window::{Ended, Window};
use words::numbers::Octets;

#[derive(Drop)]
pub struct Kept {
    pub station: FileTransferProcedure,
    pub provider: Provider,
    pub receiver: Receiver,
    pub directory: DirectoryCall,
    pub party: TwoParty,
    pub window: Window,
    pub file: Octets,
    pub store: Octets,
    pub damage: Octets,
}

// A station, a Provider and a Receiver whose every number is 0.
const STATION: FileTransferProcedure = FileTransferProcedure {
    role: Role::Controlling,
    selection: Selection::NONE,
    ca: 0,
    org: 0,
    sizes: AddressSizes {
        cause_octets: 0,
        common_address_octets: 0,
        information_object_address_octets: 0,
    },
};

const PROVIDER: Provider = Provider {
    procedure: STATION,
    ioa: 0,
    nof: Nof { value: 0 },
    length: 0,
    section_len: 0,
    unmatched: 0,
    done: false,
};

const RECEIVER: Receiver = Receiver {
    procedure: STATION,
    ioa: 0,
    nof: Nof { value: 0 },
    sent: Sent::Nothing,
    length: None,
    kept: 0,
    staged: 0,
    done: false,
};

// A record of a transfer whose every number is 0.
pub const NO_RECORD: Ended = Ended {
    octets: 0,
    frames: 0,
    damaged: 0,
    whole: false,
};

impl Kept {
    // What a list has at its beginning: everything is empty, and every number 0.
    pub fn new() -> Kept {
        Kept {
            station: STATION,
            provider: PROVIDER,
            receiver: RECEIVER,
            directory: DirectoryCall {
                procedure: STATION,
                started: false,
                held: 0,
                done: false,
            },
            party: TwoParty {
                provider: PROVIDER,
                receiver: RECEIVER,
                queue: Queue::Empty,
                radio: Radio {
                    section: 0,
                    left: 0,
                },
            },
            window: Window {
                width: 0,
                count: 0,
                place: 0,
                records: [NO_RECORD; 64],
            },
            file: Octets::new(),
            store: Octets::new(),
            damage: Octets::new(),
        }
    }
}
