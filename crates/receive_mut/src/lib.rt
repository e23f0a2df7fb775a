// The Receiver's entry that changes the caller's record itself (document 01, Form by location): a
// thin wrapper over the step by value, for a caller that keeps one record and need not store each
// step's record back.
#![tactic(auto)]

ghost use Rattle.std.specs.Prelude.{◌≡◌};
ghost use Rattle.receive.specs.Answers.{receive};

use ft::Incoming;
use receive::{Receiver, ReceiverAnswer};

// One frame handed to the Receiver, with what stands beside it: the step of `Receiver::on_asdu`, whose
// record takes the place of the caller's. A refusal leaves record and store as they are.
pub fn on_asdu(
    receiver: &mut Receiver,
    store: &mut [u8],
    asdu: Incoming,
    beside: &[u8],
) -> ReceiverAnswer
    ensures { (receiver.new ≡ (receive receiver.old store.old asdu.header asdu.unknown asdu.received beside.now).step.receiver) × ((result ≡ (receive receiver.old store.old asdu.header asdu.unknown asdu.received beside.now).step.answer) × (store.new ≡ (receive receiver.old store.old asdu.header asdu.unknown asdu.received beside.now).store)) }
{
    let step = receiver.on_asdu(store, asdu, beside);
    *receiver = step.receiver;
    step.answer
}
