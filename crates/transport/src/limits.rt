// How many printers a transport is made for, and how many frames a pair of them may hold.
ghost use Rattle.std.specs.Prelude.{◌≡◌, ℕ, ◌*◌, ◌/◌, ◌≤◌, ◌<◌, Ok, Err};
ghost use Rattle.transport.specs.Nets.{making_answer};

use crate::faults::{TransportFault, TransportRefusal};

// A fault of no printer.
fn fault(refusal: TransportRefusal) -> TransportFault
    ensures { result ≡ record { refusal = refusal; printer = 0 } }
{
    TransportFault {
        refusal,
        printer: 0,
    }
}

// The limit that the cells give where each of so many shares gets as many of them. It is refused if n is below 2 or above
// 8, or if there are fewer cells than shares, or no shares at all.
pub fn fair_limit(n: u32, cells: usize, shares: usize) -> Result<usize, TransportFault>
    ensures refused { (e : _) → result ≡ Err e → making_answer n (cells / shares) ≡ Err e }
    ensures made { (limit : ℕ) → result ≡ Ok limit → (making_answer n (cells / shares) ≡ Ok tt) × (limit ≡ cells / shares) }
    ensures few { (limit : ℕ) → result ≡ Ok limit → n ≤ 8 }
    ensures some { (limit : ℕ) → result ≡ Ok limit → 1 ≤ limit }
    ensures fits { (limit : ℕ) → result ≡ Ok limit → shares * limit ≤ cells }
{
    if !(2..=8).contains(&n) {
        return Err(fault(TransportRefusal::PrinterCount));
    }
    let limit = cells.checked_div(shares).unwrap_or(0);
    if limit == 0 {
        return Err(fault(TransportRefusal::NoLimit));
    }
    Ok(limit)
}
