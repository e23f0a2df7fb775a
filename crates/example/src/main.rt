// An example for makers of recorders and desks: a recorder's Provider over its file and a desk's
// Receiver over its store pass a file of two octets. Both are in one program here, so that a frame goes
// from the one straight to the other; a station encodes it and sends it instead. Printed are the sender
// and the type of each frame, as a line of document 01's script begins, then what the desk holds.
#![tactic(auto)]

use asdu::{FtError, Nof};
use frame::Frame;
use ft::{FileTransferProcedure, Incoming, Received, Selection, build};
use output::Output;
use provide::Provider;
use receive::{Receiver, ReceiverAnswer, ReceiverStep};
use requests::{ProviderAnswer, Reply};
use std::fmt;
use std::fmt::Write;

// The common address of both stations, and the file: its object address and name.
const STATION: u16 = 1;

const OBJECT: u32 = 100;

const NAME: Nof = Nof { value: 7 };

// Why a transfer stops before its end: the library refuses a call, or nothing can be printed.
#[derive(Drop)]
enum Stop {
    Refused(FtError),
    Printing(fmt::Error),
}

impl From<FtError> for Stop {
    fn from(error: FtError) -> Stop {
        Stop::Refused(error)
    }
}

impl From<fmt::Error> for Stop {
    fn from(error: fmt::Error) -> Stop {
        Stop::Printing(error)
    }
}

// A frame of the other station as it comes in, every field of it known.
fn incoming(frame: Frame) -> Incoming {
    Incoming {
        header: build::header_of(STATION, 0, frame),
        unknown: None,
        received: Received::Frame(frame),
    }
}

// The recorder: its record and its file.
#[derive(Drop)]
struct Recorder<'a> {
    provider: Provider,
    file: &'a [u8],
}

impl<'a> Recorder<'a> {
    // A controlled station that provides a file in the monitor direction.
    fn new(file: &'a [u8]) -> Result<Recorder<'a>, FtError> {
        let station = FileTransferProcedure::controlled(Selection::MONITOR, STATION, 0)?;
        let provider = Provider::new(station, OBJECT, NAME, file)?;
        Ok(Recorder { provider, file })
    }

    // A frame of the desk's comes in; the reply is what is then to be sent.
    fn hear(&mut self, frame: Frame) -> Reply {
        let step = self.provider.on_asdu(self.file, incoming(frame), b"");
        self.provider = step.provider;
        match step.answer {
            ProviderAnswer::Running(reply) => reply,
            _ => Reply::Nothing,
        }
    }
}

// The desk: where its record stands, and its store.
#[derive(Drop)]
struct Desk {
    step: ReceiverStep,
    store: [u8; 8],
}

impl Desk {
    // A controlling station that asks for the recorder's file.
    fn new() -> Result<Desk, FtError> {
        let station = FileTransferProcedure::controlling(Selection::MONITOR, STATION, 0)?;
        let receiver = Receiver::new(station, OBJECT, NAME)?;
        let store = [0; 8];
        Ok(Desk {
            step: receiver.start(&store),
            store,
        })
    }

    // A frame of the recorder's comes in, and beside a segment its octets.
    fn hear(&mut self, frame: Frame, beside: &[u8]) {
        self.step = self
            .step
            .receiver
            .on_asdu(&mut self.store, incoming(frame), beside);
    }
}

// What the desk has to send goes to the recorder, and the frames of its reply come back, each with the part
// of the file beside it. By the theorem a desk sends 3 + 2 × n frames for n sections that nothing damages,
// and this file is one section.
fn transfer<W: fmt::Write>(
    out: &mut W,
    recorder: &mut Recorder<'_>,
    desk: &mut Desk,
) -> Result<(), Stop> {
    for _ in 0..5 {
        let Some(sent) = desk.step.to_send() else {
            break;
        };
        writeln!(out, "R {}", sent.type_id())?;
        let reply = recorder.hear(sent);
        for index in 0..recorder.provider.reply_count(recorder.file, reply)? {
            let frame = recorder.provider.reply_frame(recorder.file, reply, index)?;
            let part = recorder
                .provider
                .reply_payload(recorder.file, reply, index)?;
            writeln!(out, "P {}", frame.type_id())?;
            desk.hear(frame, part.octets(recorder.file));
        }
    }
    Ok(())
}

// Complete: the store's first octets, so many, are the file.
fn run<W: fmt::Write>(out: &mut W, file: &[u8]) -> Result<(), Stop> {
    let mut recorder = Recorder::new(file)?;
    let mut desk = Desk::new()?;
    transfer(out, &mut recorder, &mut desk)?;
    match desk.step.answer {
        ReceiverAnswer::Complete { length } => writeln!(out, "whole {length}")?,
        _ => writeln!(out, "ended")?,
    }
    let [first, second, ..] = desk.store;
    writeln!(out, "{first}\n{second}")?;
    Ok(())
}

// A refusal is told; nobody is left to tell where nothing can be printed.
fn main() {
    let mut out = Output;
    if let Err(Stop::Refused(error)) = run(&mut out, &[200, 100]) {
        let _ = writeln!(out, "refused {}", error.number());
    }
}
