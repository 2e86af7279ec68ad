// A frame made, written as bytes, read back and compared; and a damaged block refused.
use anyhow::anyhow;
use wire::{
    Body, Content, Frame, MAX_FRAME_BYTES, MessageNumber, NumberClaim, RoleNumber, TemplateChange,
    TicketNumber, read_frame, write_frame,
};

// The bytes of a block, four to a word.
fn show_block(rt: &HostRuntime, block: &[u8]) -> anyhow::Result<()> {
    for word in block.chunks(4) {
        print!(rt; "  ")?;
        for byte in word {
            print!(rt; "{byte:02x}")?;
        }
    }
    println!(rt)?;
    Ok(())
}

// Writes the frame, shows its bytes and reads it back.
fn send_and_read<B: Body + PartialEq>(rt: &HostRuntime, frame: Frame<B>) -> anyhow::Result<()> {
    let mut buffer = [0; MAX_FRAME_BYTES];
    let length = write_frame(frame, &mut buffer)?;
    println!(rt; "  On the wire it takes {length} bytes:")?;
    let Some(block) = buffer.get(0..length) else {
        return Err(anyhow!("the frame is longer than the buffer"));
    };
    show_block(rt, block)?;
    if read_frame::<B>(block)? == frame {
        println!(rt; "  Another printer reads the same frame back.")?;
    } else {
        println!(rt; "  Another printer reads something else.")?;
    }
    Ok(())
}

pub(crate) fn template_change(rt: &HostRuntime) -> anyhow::Result<()> {
    println!(rt; "A packer at printer 2 sets field 9 of template 12 to 65536.")?;
    let body = TemplateChange::set(12, 9, 65536);
    let number = MessageNumber(3);
    let role = RoleNumber(4);
    println!(rt; "  It is the printer's message 3, and printer 0 is to give it its place.")?;
    let frame = Frame::new(
        2,
        TicketNumber(7),
        Content::Data {
            number,
            sequencer: 0,
            role,
            body,
        },
    )?;
    send_and_read(rt, frame)
}

pub(crate) fn number_claim(rt: &HostRuntime) -> anyhow::Result<()> {
    println!(rt; "Printer 1 claims the next 500 numbers of series 15.")?;
    let body = NumberClaim::new(15, 500)?;
    let number = MessageNumber(1);
    let role = RoleNumber(0);
    let frame = Frame::new(
        1,
        TicketNumber(0),
        Content::Data {
            number,
            sequencer: 1,
            role,
            body,
        },
    )?;
    send_and_read(rt, frame)?;
    println!(rt; "A claim of no numbers cannot even be made:")?;
    match NumberClaim::new(15, 0) {
        Ok(_) => println!(rt; "  made")?,
        Err(fault) => println!(rt; "  {fault}")?,
    }
    Ok(())
}

// A clock frame whose sender's number was hit on the way.
pub(crate) fn damaged_block(rt: &HostRuntime) -> anyhow::Result<()> {
    let block = [0, 0, 0, 5, 0, 0, 0, 135, 0, 0, 1, 0];
    println!(rt; "A block arrives damaged:")?;
    show_block(rt, &block)?;
    match read_frame::<NumberClaim>(&block) {
        Ok(_) => println!(rt; "  It is taken for a frame.")?,
        Err(fault) => println!(rt; "  It is {fault}: there is no printer 135.")?,
    }
    Ok(())
}
