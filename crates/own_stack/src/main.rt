//! A register on a stack of your own: a records file, one frame in, the frames to send out.
#![tactic(auto)]

use anyhow::{Result, bail};
use bumpalo::Bump;
use hlr_types::{Digits, Peer};
use hlrcore::RawEvent;
use records::read_records;
use shardlog::Handled;
use std::alloc::Global;
use wholenode::{Keep, Node};

const RECORDS: &[u8] = b"HLR1 447700900100
234150000000001 447700900000 11,21 * 447700900011,447700900001,-,s
";

const FROM: &[u8] = b"447700900012";

/// An updateLocation, as your SCCP delivers it: the user data of a UDT or XUDT.
const FRAME: [u8; 80] = [
    0x62, 0x4E, 0x48, 0x04, 0x00, 0x00, 0x00, 0x0B, 0x6B, 0x1E, 0x28, 0x1C, 0x06, 0x07, 0x00, 0x11,
    0x86, 0x05, 0x01, 0x01, 0x01, 0xA0, 0x11, 0x60, 0x0F, 0x80, 0x02, 0x07, 0x80, 0xA1, 0x09, 0x06,
    0x07, 0x04, 0x00, 0x00, 0x01, 0x00, 0x01, 0x03, 0x6C, 0x26, 0xA1, 0x24, 0x02, 0x01, 0x01, 0x02,
    0x01, 0x02, 0x30, 0x1C, 0x04, 0x08, 0x32, 0x14, 0x05, 0x00, 0x00, 0x00, 0x00, 0xF1, 0x81, 0x07,
    0x91, 0x44, 0x77, 0x00, 0x09, 0x00, 0x20, 0x04, 0x07, 0x91, 0x44, 0x77, 0x00, 0x09, 0x00, 0x21,
];

/// What a stack delivers for one frame: the digits of the calling address, and the user data.
fn received(alloc: Global, from: &[u8], octets: &[u8]) -> Result<RawEvent> {
    let Some(from) = Digits::from_text(from) else {
        bail!("the calling address has 1 to 16 digits");
    };
    let from = Peer::new(from);
    let octets = octets.to_vec(alloc)?;
    Ok(RawEvent::Frame { from, octets })
}

/// Passes on the frames that answer an event.
fn send(rt: &impl Print, handled: &Handled) -> Result<()> {
    for out in handled.outs.as_slice() {
        println!(rt; "{} octets to {}", out.octets.len(), out.to)?;
    }
    Ok(())
}

fn run(rt: &(impl Print + AllocGlobal)) -> Result<()> {
    let alloc = rt.alloc();
    let mut node = Node::new(alloc, read_records(alloc, RECORDS)?, Keep::Nothing, 0)?;
    let mut bump = Bump::new(alloc);
    let event = received(alloc, FROM, &FRAME)?;
    match node.run(&mut bump, &[event]) {
        Ok(done) => {
            for handled in done.as_slice() {
                send(rt, handled)?;
            }
            Ok(())
        }
        Err(fault) => bail!("{}", fault.cause),
    }
}

fn main(rt: HostRuntime) -> Result<()> {
    run(&rt)
}
