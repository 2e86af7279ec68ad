// Records in a list.
ghost use Rattle.std.specs.Prelude.{◌≡◌, ◌<◌, length};
ghost use Rattle.table.specs.Records.{modify, written, body_for, shelf_place};

use frame::MessageNumber;
use roles::RecordKind;

// What a printer has delivered. Only a data record has a body; in any other its place holds anything.
#[derive(Clone, Copy)]
pub struct Record<R> {
    pub kind: RecordKind,
    pub printer: u32,
    pub number: MessageNumber,
    pub body: R,
}

// The place on a printer's shelf for the body of a message.
pub fn shelf_place(printer: u32, number: MessageNumber) -> usize
    ensures { result ≡ shelf_place printer number.0 }
{
    printer as usize * 8 + (number.0 % 8) as usize
}

// The body of a record: of data what lies on the shelf, of any other what stood in its place.
fn body_for<R: Copy>(kind: RecordKind, shelf: &[R], place: usize, old: R) -> R
    ensures { result ≡ body_for kind shelf.now place old }
{
    match (kind, shelf.get(place)) {
        (RecordKind::Data, Some(body)) => *body,
        _ => old,
    }
}

// Writes a record over what stood in its place.
pub(crate) fn write_record<R: Copy>(
    list: &mut [Record<R>],
    at: usize,
    kind: RecordKind,
    printer: u32,
    number: MessageNumber,
    shelf: &[R],
)
    requires { at < length list.old }
    ensures { list.new ≡ modify list.old at (written kind printer number shelf.now) }
{
    let old = list[at].body;
    let body = body_for(kind, shelf, shelf_place(printer, number), old);
    list[at] = Record {
        kind,
        printer,
        number,
        body,
    };
}
