// A frame of a two-party transfer handed over to the other machine (document 01, The exchange): under a
// header of its sender's, and of a segment what the radio lets through.
#![tactic(auto)]

mod noise; // what a damaged sending is hit at

ghost use Rattle.std.specs.Prelude.{◌≡◌, ◌≤◌, length, None};
ghost use Rattle.laws.specs.When.{when};
ghost use Rattle.provide.specs.Replies.{reply_payload, payload_of};
ghost use Rattle.receive.specs.Answers.{receive};
ghost use Rattle.exchange.specs.Damaging.{raised};
ghost use Rattle.ft.specs.declared.Received.TheVariants as D;
ghost use Rattle.delivery.specs.Handed.{header_by, provider_handed, receiver_handed};

use frame::Frame;
use ft::{FileTransferProcedure, Incoming, Received, build};
use provide::{Provider, ProviderStep};
use receive::{Receiver, ReceiverStep};
use requests::Reply;

// A station's own frame as the other one has decoded it.
fn sent_by(station: FileTransferProcedure, frame: Frame) -> Incoming
    ensures { result ≡ record { header = header_by station frame; unknown = None; received = D.Frame frame } }
{
    Incoming {
        header: build::header_of(station.ca, station.org, frame),
        unknown: None,
        received: Received::Frame(frame),
    }
}

// What stands beside the frame at an index of the Provider's reply.
fn payload_of(provider: Provider, file: &[u8], reply: Reply, index: usize) -> &[u8]
    ensures { result.now ≡ payload_of file.now (reply_payload provider file.now reply index) }
{
    match provider.reply_payload(file, reply, index) {
        Ok(part) => part.octets(file),
        Err(_) => &[],
    }
}

// The frame is handed to the Receiver with what arrives beside it: the payload, or a copy of it with the
// first octet raised where the radio hits it, since the file is the Provider's.
fn hand_over(
    receiver: Receiver,
    store: &mut [u8],
    asdu: Incoming,
    payload: &[u8],
    hit: bool,
) -> ReceiverStep
    requires { length payload.now ≤ 240 }
    ensures { (result ≡ (receive receiver store.old asdu.header asdu.unknown asdu.received (when hit (raised payload.now) payload.now)).step)
        × (store.new ≡ (receive receiver store.old asdu.header asdu.unknown asdu.received (when hit (raised payload.now) payload.now)).store) }
{
    let mut copy = [0u8; 240];
    let beside = noise::arriving(payload, hit, &mut copy);
    receiver.on_asdu(store, asdu, beside)
}

// The frame at index `next` of the Provider's reply is handed to the Receiver, under the Provider's own
// header and with what arrives beside it. Reply, index and damage are handed over apart, as the queue of
// twoparty/specs/Party.antt has them.
#[tactic(auto, using(crate::proofs::Short::payload_short), unfolding(crate::specs::Handed::arriving))]
pub fn hand_receiver(
    provider: Provider,
    receiver: Receiver,
    file: &[u8],
    store: &mut [u8],
    reply: Reply,
    next: usize,
    damaged: bool,
    frame: Frame,
) -> ReceiverStep
    ensures { (result ≡ (receiver_handed provider receiver file.now store.old reply next damaged frame).step)
        × (store.new ≡ (receiver_handed provider receiver file.now store.old reply next damaged frame).store) }
{
    let payload = payload_of(provider, file, reply, next);
    let asdu = sent_by(provider.procedure, frame);
    hand_over(receiver, store, asdu, payload, noise::is_hit(damaged, next))
}

// The Provider is handed the Receiver's frame, the one whose answer its record awaits, under the
// Receiver's own header.
pub fn hand_provider(provider: Provider, receiver: Receiver, file: &[u8]) -> ProviderStep
    ensures { result ≡ provider_handed provider receiver file.now }
{
    let asdu = sent_by(receiver.procedure, receiver.awaited());
    provider.on_asdu(file, asdu, &[])
}
