// A walk through what the library does, step by step, as a technician at a packing line would see it.
#![tactic(auto)]

mod transport_stop;
mod wire_stop;

use anyhow::anyhow;
use ring::RingTransport;
use sender_log::LogTransport;
use transport::CellTransport;
use transport_stop::carry;
use wire::{FrameRow, NumberClaim};
use wire_stop::{damaged_block, number_claim, template_change};

// Three printers over so many cells.
fn over<T: CellTransport<Body = NumberClaim> + Drop>(
    rt: &HostRuntime,
    cells: usize,
) -> anyhow::Result<()> {
    let mut t = T::vacant(vec![in rt.alloc(); FrameRow::IDLE; cells]?);
    t.make(3).map_err(|_| anyhow!("the transport is not made"))?;
    carry(rt, &mut t)
}

fn walk(rt: &HostRuntime) -> anyhow::Result<()> {
    template_change(rt)?;
    number_claim(rt)?;
    damaged_block(rt)?;
    println!(rt; "Three printers share claims; a ring of two cells for each pair carries them:")?;
    over::<RingTransport<NumberClaim>>(rt, 18)?;
    println!(rt; "The same where each frame is stored once, in two cells for each sender:")?;
    over::<LogTransport<NumberClaim>>(rt, 6)
}

fn main(rt: HostRuntime) -> anyhow::Result<()> {
    walk(&rt)
}
