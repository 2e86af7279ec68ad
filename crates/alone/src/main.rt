// One printer working by itself: it sends, issues a ticket, and delivers.
#![tactic(auto)]

use anyhow::anyhow;
use printer::{Delays, Printer, PrinterFault, Record, RecordKind};
use ring::RingTransport;
use transport::CellTransport;
use wire::{ClaimRow, FrameRow, MessageNumber, NumberClaim, PrinterNumber, TicketNumber};

// What stores hold at first does not matter. A record needs a body of some kind, so a program writes its own.
const ROW: ClaimRow = ClaimRow {
    series: 0,
    count: 0,
};

const PLACE: Record<ClaimRow> = Record {
    kind: RecordKind::Gone,
    printer: 0,
    number: MessageNumber(0),
    body: ROW,
};

// A step's answer in words.
fn tell(rt: &HostRuntime, step: &str, answer: Result<(), PrinterFault>) -> anyhow::Result<()> {
    match answer {
        Ok(()) => println!(rt; "  {step}: done.")?,
        Err(fault) => {
            let number = fault.number();
            println!(rt; "  {step}: refusal {number}.")?;
        }
    }
    Ok(())
}

fn show_list(rt: &HostRuntime, printer: &Printer, list: &[Record<ClaimRow>]) -> anyhow::Result<()> {
    let length = printer.table.length;
    let clock = printer.table.clocks.own.0;
    println!(rt;
        "  Its list has {length} of {} records, its clock is {clock}.",
        list.len()
    )?;
    for record in list.iter().take(length as usize) {
        let from = record.printer;
        let number = record.number.0;
        let count = record.body.count;
        println!(rt; "    message {number} of printer {from}: {count} numbers claimed")?;
    }
    Ok(())
}

// Printer `me` of two sends a claim and transmits twice.
fn work(rt: &HostRuntime, me: u32) -> anyhow::Result<()> {
    let mut rings: RingTransport<NumberClaim> = RingTransport::vacant(
        vec![in rt.alloc(); FrameRow::IDLE; 16]?,
    );
    rings
        .make(2)
        .map_err(|_| anyhow!("the rings are not made"))?;
    let mut list = vec![in rt.alloc(); PLACE; 4]?;
    let mut shelf = vec![in rt.alloc(); ROW; 16]?;
    let delays = Delays { row: &[0, 0] };
    let mut printer = Printer::open(PrinterNumber::new(me)?, TicketNumber(0));
    let body = NumberClaim::new(3, 500)?;
    let places = list.len();
    if places > 65_536 {
        return Err(anyhow!("the list is too long"));
    }
    tell(
        rt,
        "It sends a claim of 500 numbers",
        printer.send(body, &mut shelf, &mut rings),
    )?;
    let answer = printer.transmit(&delays, &mut list, &shelf, &mut rings);
    tell(rt, "It transmits what is due, a ticket", answer)?;
    show_list(rt, &printer, &list)?;
    let answer = printer.transmit(&delays, &mut list, &shelf, &mut rings);
    tell(rt, "It transmits again", answer)
}

fn alone(rt: &HostRuntime) -> anyhow::Result<()> {
    println!(rt; "Printer 0 of two works by itself:")?;
    work(rt, 0)?;
    println!(rt;
        "Printer 1 does the same; it must hear from printer 0 first, whose ticket could still stand before:"
    )?;
    work(rt, 1)
}

fn main(rt: HostRuntime) -> anyhow::Result<()> {
    alone(&rt)
}
