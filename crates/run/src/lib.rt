// The two-party run (document 01, A transfer script): frame after frame, until none is left or the next
// one would exceed the budget.
#![tactic(auto)]

ghost use Rattle.std.specs.Prelude.{◌≡◌, Ok};
ghost use Rattle.run.specs.Loop.{is_over_by, used_up, ran_on};
ghost use Rattle.run.specs.Run.{two_party};
ghost use Rattle.run.specs.declared.Ending.TheVariants.{Whole};

use asdu::FtError;
use provide::Provider;
use receive::Receiver;
use twoparty::{Queue, Settings, TwoParty};

// How a run ended, after so many frames: whole, with so many octets accepted, or with its budget spent.
#[derive(Clone, Copy, PartialEq, Eq)]
pub enum Ending {
    Whole { length: usize, frames: usize },
    Spent { frames: usize },
}

// No frame is left; nor where the record and the file disagree. It is told by counts, and no frame is made
// for it.
fn is_over(provider: Provider, queue: Queue, file: &[u8]) -> bool
    ensures { result ≡ is_over_by provider file.now queue }
{
    match queue {
        Queue::Empty => true,
        Queue::Receiver => !provider.agrees(file),
        Queue::Provider { reply, next, .. } => match provider.reply_count(file, reply) {
            Ok(count) => count <= next,
            Err(_) => true,
        },
    }
}

// It ended whole after so many frames.
fn whole(receiver: Receiver, frames: usize) -> Ending
    ensures { result ≡ Whole receiver.kept frames }
{
    Ending::Whole {
        length: receiver.kept,
        frames,
    }
}

// It ended with its budget used up: whole where no frame is left, else spent.
#[tactic(auto, using(laws::proofs::Decide::decide, crate::proofs::Counted::over_counted), unfolding(crate::specs::Loop::used_up))]
fn used_up(party: TwoParty, file: &[u8], frames: usize) -> Ending
    ensures { Ok result ≡ used_up party file.now frames }
{
    if is_over(party.provider, party.queue, file) {
        whole(party.receiver, frames)
    } else {
        Ending::Spent { frames }
    }
}

// With this budget from here on: spent where the next frame would exceed it, else whole. The parts of
// the transfer's record go through the loop one by one, so that a segment moves no more than the
// Receiver's, and each frame is made once: docs/SPEED.md, whose goal is 60 ns a frame, has what a loop over
// `TwoParty::step` would cost.
fn run_on(start: TwoParty, file: &[u8], damage: &[u8], store: &mut [u8], budget: usize) -> Ending
    ensures { (Ok result ≡ (ran_on budget 0 start file.now damage.now store.old).result)
        × (store.new ≡ (ran_on budget 0 start file.now damage.now store.old).store) }
{
    let TwoParty {
        mut provider,
        mut receiver,
        mut queue,
        mut radio,
    } = start;
    for frames in 0..budget {
        match queue {
            Queue::Empty => return whole(receiver, frames),
            Queue::Receiver => {
                if !provider.agrees(file) {
                    return whole(receiver, frames);
                }
                let step = delivery::hand_provider(provider, receiver, file);
                provider = step.provider;
                queue = twoparty::replied(radio, step.answer);
                radio = radio.after_answer(damage, step.answer);
            }
            Queue::Provider {
                reply,
                next,
                damaged,
            } => {
                let Ok(frame) = provider.reply_frame(file, reply, next) else {
                    return whole(receiver, frames);
                };
                let step = delivery::hand_receiver(
                    provider, receiver, file, store, reply, next, damaged, frame,
                );
                let rest = Queue::Provider {
                    reply,
                    next: next + 1,
                    damaged,
                };
                receiver = step.receiver;
                queue = rest.asked(step.answer);
            }
        }
    }
    let party = TwoParty {
        provider,
        receiver,
        queue,
        radio,
    };
    used_up(party, file, budget)
}

// The run of these settings: 2, 3, 1, 11 and 24 before any frame, then frame after frame until none is
// left (whole) or the next one would exceed the budget (spent). It answers how many frames passed.
pub fn run(
    settings: Settings,
    file: &[u8],
    damage: &[u8],
    store: &mut [u8],
    budget: usize,
) -> Result<Ending, FtError>
    ensures { (result ≡ (two_party settings file.now damage.now store.old budget).result)
        × (store.new ≡ (two_party settings file.now damage.now store.old budget).store) }
{
    let party = TwoParty::new(settings, file, damage, store)?;
    Ok(run_on(party, file, damage, store, budget))
}
