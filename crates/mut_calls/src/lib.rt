// For the test program: the Receiver's entry that changes the caller's record itself, over a record by
// value.
#![tactic(auto)]

ghost use Rattle.std.specs.Prelude.{◌≡◌};
ghost use Rattle.receive.specs.Answers.{receive};

use ft::Incoming;
use receive::{Receiver, ReceiverStep};

// One frame handed to the Receiver by `receive_mut::on_asdu`: step and store are those of the step by
// value, `Receiver::on_asdu`.
pub fn on_asdu(
    mut receiver: Receiver,
    store: &mut [u8],
    asdu: Incoming,
    beside: &[u8],
) -> ReceiverStep
    ensures { (result ≡ (receive receiver store.old asdu.header asdu.unknown asdu.received beside.now).step) × (store.new ≡ (receive receiver store.old asdu.header asdu.unknown asdu.received beside.now).store) }
{
    let answer = receive_mut::on_asdu(&mut receiver, store, asdu, beside);
    ReceiverStep { receiver, answer }
}
