// Frames over any transport of three printers whose pairs hold two frames.
use ring::RingTransport;
use sender_log::LogTransport;
use std::alloc::Global;
use std::process::Abort;
use std::test::Fail;
use transport::{CellTransport, Transport, TransportFault, TransportRefusal, drain};
use wire::{Content, FrameRow, NumberClaim, Payload, PrinterNumber, TicketNumber};

// Posts a clock frame, and compares what the transport answers.
fn posts<T: Transport<Body = NumberClaim>>(
    rt: &impl Abort,
    t: &mut T,
    sender: u32,
    clock: u32,
    answer: Result<(), TransportFault>,
) -> Result<(), Fail> {
    let payload = Payload::new(TicketNumber(clock), Content::Clock)?;
    assert!(rt; t.post(PrinterNumber::new(sender)?, payload) == answer);
    Ok(())
}

// The clock of the oldest frame of a pair.
fn finds<T: Transport<Body = NumberClaim>>(
    rt: &impl Abort,
    t: &mut T,
    sender: u32,
    receiver: u32,
    clock: Option<u32>,
) {
    let found = t.look(sender, receiver).map(|frame| frame.payload.clock.0);
    assert!(rt; found == clock);
}

fn numbers_not_there<T: Transport<Body = NumberClaim>>(
    rt: &impl Abort,
    t: &mut T,
) -> Result<(), Fail> {
    let refused = Err(TransportFault {
        refusal: TransportRefusal::PostRefused,
        printer: 3,
    });
    posts(rt, t, 3, 9, refused)?;
    assert!(rt; t.printers() == 3 && !t.is_open(3) && t.spare(3) == 0);
    t.take(0, 3);
    t.close(3);
    finds(rt, t, 3, 0, None);
    finds(rt, t, 0, 3, None);
    Ok(())
}

fn carries<T: Transport<Body = NumberClaim>>(rt: &impl Abort, t: &mut T) -> Result<(), Fail> {
    let full = Err(TransportFault {
        refusal: TransportRefusal::PostRefused,
        printer: 0,
    });
    assert!(rt; t.spare(0) == 2);
    posts(rt, t, 0, 1, Ok(()))?;
    posts(rt, t, 0, 2, Ok(()))?;
    posts(rt, t, 0, 3, full)?;
    assert!(rt; t.spare(0) == 0 && t.spare(1) == 2);
    finds(rt, t, 0, 0, None);
    finds(rt, t, 0, 1, Some(1));
    t.take(0, 1);
    finds(rt, t, 0, 1, Some(2));
    finds(rt, t, 0, 2, Some(1));
    posts(rt, t, 0, 3, full)?;
    t.close(2);
    finds(rt, t, 0, 2, None);
    posts(rt, t, 0, 3, Ok(()))?;
    posts(rt, t, 2, 7, Ok(()))?;
    finds(rt, t, 2, 1, Some(7));
    assert!(rt; !t.is_open(2) && drain(t, 0, 1, 9) == 2);
    finds(rt, t, 0, 1, None);
    Ok(())
}

// Over so many cells, which do not serve these numbers of printers, but three.
fn over<T: CellTransport<Body = NumberClaim> + Drop>(
    rt: &impl Abort,
    heap: Global,
    cells: usize,
    refused: [u32; 2],
) -> Result<(), Fail> {
    let mut t = T::vacant(vec![in heap; FrameRow::IDLE; cells]?);
    for n in refused {
        assert!(rt; t.make(n).is_err());
    }
    assert!(rt; t.make(3).is_ok());
    numbers_not_there(rt, &mut t)?;
    carries(rt, &mut t)?;
    assert!(rt; t.into_cells().len() == cells);
    Ok(())
}

#[test]
fn over_rings(rt: HostRuntime) -> Result<(), Fail> {
    over::<RingTransport<NumberClaim>>(&rt, rt.alloc(), 26, [1, 8])
}

#[test]
fn over_logs(rt: HostRuntime) -> Result<(), Fail> {
    over::<LogTransport<NumberClaim>>(&rt, rt.alloc(), 7, [9, 8])
}
