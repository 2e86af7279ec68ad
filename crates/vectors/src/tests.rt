use std::alloc::{AllocError, Global};
use std::process::Abort;
use std::test::Fail;
use wire::{
    Body, Content, Frame, MessageNumber, NumberClaim, RoleNumber, TemplateChange, TicketNumber,
    WireFault, WireRefusal, read_frame, write_frame,
};

// The highest word.
const TOP: u32 = 4_294_967_295;

fn block_of(heap: Global, words: &[u32]) -> Result<Vec<u8>, AllocError> {
    let mut block = Vec::new(heap);
    for word in words {
        block.extend_from_slice(&word.to_be_bytes())?;
    }
    Ok(block)
}

fn reads_as<B: Body + PartialEq>(
    rt: &impl Abort,
    block: Option<&[u8]>,
    answer: Result<Frame<B>, WireFault>,
) -> Result<(), Fail> {
    assert!(rt; read_frame::<B>(block.ok_or("no such part")?) == answer);
    Ok(())
}

// So few bytes are too few, to read the frame from and to write it to.
fn check_cut<B: Body + PartialEq>(
    rt: &impl Abort,
    frame: Frame<B>,
    part: Option<&[u8]>,
    cut: usize,
) -> Result<(), Fail> {
    let short = WireFault {
        refusal: WireRefusal::EndsTooSoon,
        byte: cut / 4 * 4,
    };
    let mut out = [7; 64];
    assert!(rt; write_frame(frame, out.get_mut(0..cut).ok_or("no such part")?) == Err(short));
    assert!(rt; out == [7; 64]);
    reads_as::<B>(rt, part, Err(short))
}

// A frame is written as these words and read from them. Cut short or made longer, they are refused.
fn check_frame<B: Body + PartialEq>(
    rt: &impl Abort,
    heap: Global,
    frame: Frame<B>,
    words: &[u32],
) -> Result<(), Fail> {
    let mut block = block_of(heap, words)?;
    let end = block.len();
    let mut out = [7; 64];
    assert!(rt; write_frame(frame, &mut out)? == end);
    assert!(rt; out.get(0..end) == block.get(0..end));
    assert!(rt; out.get(end..64) == [7; 64].get(end..64));
    reads_as(rt, block.get(0..end), Ok(frame))?;
    for cut in 0..end {
        check_cut(rt, frame, block.get(0..cut), cut)?;
    }
    block.push(0)?;
    let more = WireFault {
        refusal: WireRefusal::LeftOver,
        byte: end,
    };
    reads_as::<B>(rt, block.get(0..block.len()), Err(more))
}

fn refused<B: Body + PartialEq>(
    rt: &impl Abort,
    heap: Global,
    words: &[u32],
    refusal: WireRefusal,
    byte: usize,
) -> Result<(), Fail> {
    let block = block_of(heap, words)?;
    assert!(rt; read_frame::<B>(block.as_slice()) == Err(WireFault { refusal, byte }));
    Ok(())
}

// Printer 2's message 3, with this body.
fn third<B: Body>(body: B) -> Result<Frame<B>, WireFault> {
    let content = Content::Data {
        number: MessageNumber(3),
        sequencer: 0,
        role: RoleNumber(4),
        body,
    };
    Frame::new(2, TicketNumber(7), content)
}

#[test]
fn bodies(rt: HostRuntime) -> Result<(), Fail> {
    let heap = rt.alloc();
    let set = third(TemplateChange::set(12, 9, 65536))?;
    check_frame(&rt, heap, set, &[0, 2, 7, 3, 0, 4, 0, 12, 9, 65536])?;
    let clear = third(TemplateChange::clear_field(TOP, TOP))?;
    check_frame(&rt, heap, clear, &[0, 2, 7, 3, 0, 4, 1, TOP, TOP, 0])?;
    let claim = third(NumberClaim::new(15, 1_000_000)?)?;
    check_frame(&rt, heap, claim, &[0, 2, 7, 3, 0, 4, 15, 1_000_000])
}

fn of_claims(
    sender: u32,
    clock: u32,
    content: Content<NumberClaim>,
) -> Result<Frame<NumberClaim>, WireFault> {
    Frame::new(sender, TicketNumber(clock), content)
}

#[test]
fn other_kinds(rt: HostRuntime) -> Result<(), Fail> {
    let heap = rt.alloc();
    let (number, sequencer, role) = (MessageNumber(TOP), 7, RoleNumber(TOP));
    let up = Content::Up {
        number,
        sequencer,
        role,
    };
    check_frame(&rt, heap, of_claims(5, 258, up)?, &[1, 5, 258, TOP, 7, TOP])?;
    let down = Content::Down {
        number,
        sequencer,
        role,
    };
    check_frame(
        &rt,
        heap,
        of_claims(0, TOP, down)?,
        &[2, 0, TOP, TOP, 7, TOP],
    )?;
    let ticket = Content::Ticket { of: 6, number };
    check_frame(&rt, heap, of_claims(3, 1, ticket)?, &[3, 3, 1, 6, TOP])?;
    let given = Content::Reassign {
        last: MessageNumber(TOP - 7),
        sent: number,
        sequencer,
        role,
    };
    check_frame(
        &rt,
        heap,
        of_claims(4, 0, given)?,
        &[4, 4, 0, TOP - 7, TOP, 7, TOP],
    )?;
    check_frame(&rt, heap, of_claims(7, 256, Content::Clock)?, &[5, 7, 256])
}

#[test]
fn words_out_of_range(rt: HostRuntime) -> Result<(), Fail> {
    let heap = rt.alloc();
    refused::<NumberClaim>(&rt, heap, &[6], WireRefusal::UnknownKind, 0)?;
    refused::<NumberClaim>(&rt, heap, &[TOP, 8], WireRefusal::UnknownKind, 0)?;
    let claims: [(&[u32], usize); 15] = [
        (&[5, 8], 4),
        (&[3, 3, 0], 8),
        (&[0, 1, 0, 0], 12),
        (&[1, 1, 0, 1, 8], 16),
        (&[2, 1, 0, 0], 12),
        (&[3, 3, 1, 8], 12),
        (&[3, 3, 1, 0, 0], 16),
        (&[4, 4, 0, 2, 2], 16),
        (&[4, 4, 0, 2, 10], 16),
        (&[4, 4, 0, TOP, 0], 16),
        (&[4, 4, 0, 2, 9, 8], 20),
        (&[0, 1, 0, 1, 8], 16),
        (&[0, 1, 0, 1, 1, 0, 16], 24),
        (&[0, 1, 0, 1, 1, 0, 15, 0], 28),
        (&[0, 1, 0, 1, 1, 0, 15, 1_000_001], 28),
    ];
    for (words, byte) in claims {
        refused::<NumberClaim>(&rt, heap, words, WireRefusal::OutOfRange, byte)?;
    }
    let changes: [(&[u32], usize); 3] = [
        (&[0, 1, 0, 1, 1, 0, 3], 24),
        (&[0, 1, 0, 1, 1, 0, 2, 5, 1], 32),
        (&[0, 1, 0, 1, 1, 0, 1, 5, 1, 1], 36),
    ];
    for (words, byte) in changes {
        refused::<TemplateChange>(&rt, heap, words, WireRefusal::OutOfRange, byte)?;
    }
    Ok(())
}
