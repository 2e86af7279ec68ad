// Two printers that share claims, step by step.
use printer::{Delays, Printer, PrinterFault, PrinterState, Record, RecordKind};
use ring::RingTransport;
use sender_log::LogTransport;
use std::alloc::Global;
use std::process::Abort;
use std::test::Fail;
use transport::{CellTransport, Transport};
use wire::{ClaimRow, FrameRow, MessageNumber, NumberClaim, PrinterNumber, TicketNumber};

// What stores hold at first does not matter. A record needs a body of some kind, so tests write their own.
const ROW: ClaimRow = ClaimRow {
    series: 0,
    count: 0,
};

const PLACE: Record<ClaimRow> = Record {
    kind: RecordKind::Gone,
    printer: 0,
    number: MessageNumber(0),
    body: ROW,
};

const DELAYS: Delays = Delays { row: &[0, 0] };

// A printer with its list and its shelf.
#[derive(Clone, Copy)]
struct Desk {
    printer: Printer,
    list: [Record<ClaimRow>; 16],
    shelf: [ClaimRow; 16],
}

// What a step answers, a fault by its number in the table of refusals.
type Answer = Result<(), u8>;

fn by_number(answer: Result<(), PrinterFault>) -> Answer {
    answer.map_err(|fault| fault.number())
}

impl Desk {
    fn open(me: u32, start: u32) -> Result<Desk, Fail> {
        Ok(Desk {
            printer: Printer::open(PrinterNumber::new(me)?, TicketNumber(start)),
            list: [PLACE; 16],
            shelf: [ROW; 16],
        })
    }

    fn sends<T: Transport<Body = NumberClaim>>(
        &mut self,
        t: &mut T,
        count: u32,
    ) -> Result<Answer, Fail> {
        let body = NumberClaim::new(1, count)?;
        Ok(by_number(self.printer.send(body, &mut self.shelf, t)))
    }

    fn transmits<T: Transport<Body = NumberClaim>>(&mut self, t: &mut T) -> Answer {
        by_number(
            self.printer
                .transmit(&DELAYS, &mut self.list, &self.shelf, t),
        )
    }

    // Takes from the other of the two.
    fn takes<T: Transport<Body = NumberClaim>>(&mut self, t: &mut T) -> Answer {
        let value = if self.printer.table.me.value == 0 {
            1
        } else {
            0
        };
        let from = PrinterNumber { value };
        by_number(
            self.printer
                .take(from, &DELAYS, &mut self.list, &mut self.shelf, t),
        )
    }
}

// Each sends a claim and tickets it; printer 0's ticket of the same number stands first at both.
fn one_order<T: Transport<Body = NumberClaim>>(rt: &impl Abort, t: &mut T) -> Result<(), Fail> {
    let mut zero = Desk::open(0, 0)?;
    let mut one = Desk::open(1, 0)?;
    assert!(rt; zero.sends(t, 100)? == Ok(()) && one.sends(t, 200)? == Ok(()));
    assert!(rt; zero.transmits(t) == Ok(()) && one.transmits(t) == Ok(()));
    assert!(rt; zero.printer.table.length == 1 && one.printer.table.length == 0);
    assert!(rt; zero.takes(t) == Ok(()) && zero.takes(t) == Ok(()) && zero.takes(t) == Err(17));
    assert!(rt; one.takes(t) == Ok(()) && one.takes(t) == Ok(()) && one.takes(t) == Err(17));
    assert!(rt; zero.printer.table.length == 2 && one.printer.table.length == 2);
    assert!(rt; zero.list[0].body.count == 100 && zero.list[1].body.count == 200);
    assert!(rt; one.list[0].body.count == 100 && one.list[1].body.count == 200);
    assert!(rt; zero.transmits(t) == Err(14) && one.transmits(t) == Err(14));
    Ok(())
}

// A printer lowers itself, and hands its tickets over to the other.
fn a_switch<T: Transport<Body = NumberClaim>>(rt: &impl Abort, t: &mut T) -> Result<(), Fail> {
    let mut zero = Desk::open(0, 0)?;
    let mut one = Desk::open(1, 0)?;
    assert!(rt;
        by_number(one.printer.raise(t)) == Err(8)
            && by_number(one.printer.change(zero.printer.table.me)) == Err(8)
    );
    assert!(rt; by_number(one.printer.lower(t)) == Ok(()) && one.sends(t, 1)? == Err(7));
    assert!(rt; one.transmits(t) == Ok(()) && one.transmits(t) == Err(14));
    assert!(rt;
        zero.takes(t) == Ok(()) && zero.takes(t) == Ok(()) && zero.printer.table.length == 1
    );
    assert!(rt; zero.list[0].kind == RecordKind::Down);
    assert!(rt; zero.transmits(t) == Ok(()) && one.takes(t) == Ok(()));
    assert!(rt; one.printer.table.duty.state == PrinterState::Passive);
    assert!(rt; one.printer.table.duty.sequencer.0 == 0);
    assert!(rt; one.sends(t, 300)? == Ok(()) && one.transmits(t) == Err(14));
    assert!(rt; zero.takes(t) == Ok(()) && zero.transmits(t) == Ok(()));
    assert!(rt; one.takes(t) == Ok(()) && one.printer.table.length == 2);
    assert!(rt; one.list[1].body.count == 300);
    Ok(())
}

// A transport of two printers over so many cells.
fn two<T: CellTransport<Body = NumberClaim> + Drop>(
    rt: &impl Abort,
    heap: Global,
    cells: usize,
) -> Result<T, Fail> {
    let mut t = T::vacant(vec![in heap; FrameRow::IDLE; cells]?);
    assert!(rt; t.make(2).is_ok());
    Ok(t)
}

// The bounds: seven own messages, the clock's end.
fn bounds(rt: &impl Abort, heap: Global) -> Result<(), Fail> {
    let mut t: RingTransport<NumberClaim> = two(rt, heap, 64)?;
    let mut one = Desk::open(1, 4_294_967_294)?;
    for _ in 0..7 {
        assert!(rt; one.sends(&mut t, 5)? == Ok(()));
    }
    assert!(rt; one.sends(&mut t, 5)? == Err(10));
    assert!(rt; one.transmits(&mut t) == Ok(()) && one.transmits(&mut t) == Err(15));
    Ok(())
}

#[test]
fn one_order_over_rings(rt: HostRuntime) -> Result<(), Fail> {
    let mut t: RingTransport<NumberClaim> = two(&rt, rt.alloc(), 16)?;
    one_order(&rt, &mut t)
}

#[test]
fn a_switch_over_logs(rt: HostRuntime) -> Result<(), Fail> {
    let mut t: LogTransport<NumberClaim> = two(&rt, rt.alloc(), 16)?;
    a_switch(&rt, &mut t)
}

#[test]
fn the_bounds(rt: HostRuntime) -> Result<(), Fail> {
    bounds(&rt, rt.alloc())
}
