// A frame carried from one printer to the others, over any transport.
use transport::Transport;
use wire::{Content, MessageNumber, NumberClaim, Payload, PrinterNumber, RoleNumber, TicketNumber};

// A claim of so many numbers, as printer 0 sends it.
fn claim(number: u32, count: u32) -> anyhow::Result<Payload<NumberClaim>> {
    let body = NumberClaim::new(15, count)?;
    let content = Content::Data {
        number: MessageNumber(number),
        sequencer: 0,
        role: RoleNumber(0),
        body,
    };
    Ok(Payload::new(TicketNumber(0), content)?)
}

fn post_claim<T: Transport<Body = NumberClaim>>(
    rt: &HostRuntime,
    t: &mut T,
    number: u32,
    count: u32,
) -> anyhow::Result<()> {
    let payload = claim(number, count)?;
    match t.post(PrinterNumber::new(0)?, payload) {
        Ok(()) => println!(rt; "  Printer 0 posts its claim of {count} numbers.")?,
        Err(fault) => {
            let refusal = fault.refusal.number();
            println!(rt;
                "  Printer 0 cannot post its claim of {count} numbers: refusal {refusal}, a pair is full."
            )?;
        }
    }
    Ok(())
}

// What a printer finds from printer 0, and takes.
fn take_claim<T: Transport<Body = NumberClaim>>(
    rt: &HostRuntime,
    t: &mut T,
    receiver: u32,
) -> anyhow::Result<()> {
    match t.look(0, receiver) {
        Some(frame) => match frame.payload.content {
            Content::Data { body, .. } => {
                let count = body.count;
                println!(rt;
                    "  Printer {receiver} finds a claim of {count} numbers and takes it."
                )?;
            }
            _ => println!(rt; "  Printer {receiver} finds another frame.")?,
        },
        None => println!(rt; "  Printer {receiver} finds nothing.")?,
    }
    t.take(0, receiver);
    Ok(())
}

// Three printers, of which each pair may hold two frames.
pub(crate) fn carry<T: Transport<Body = NumberClaim>>(
    rt: &HostRuntime,
    t: &mut T,
) -> anyhow::Result<()> {
    post_claim(rt, t, 1, 100)?;
    take_claim(rt, t, 1)?;
    post_claim(rt, t, 2, 200)?;
    post_claim(rt, t, 3, 300)?;
    take_claim(rt, t, 2)?;
    post_claim(rt, t, 3, 300)?;
    println!(rt; "  Printer 2 is closed.")?;
    t.close(2);
    take_claim(rt, t, 2)?;
    take_claim(rt, t, 1)?;
    take_claim(rt, t, 1)?;
    take_claim(rt, t, 1)
}
