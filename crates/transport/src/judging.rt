// Whether a post is accepted.
ghost use Rattle.std.specs.Prelude.{◌≡◌, nat_lt};
ghost use Rattle.transport.specs.Nets.{post_judged};

use crate::faults::{TransportFault, TransportRefusal};

// A post by a sender that could make so many more: refused where none is left.
pub fn judge_post(left: usize, sender: u32) -> Result<(), TransportFault>
    ensures { result ≡ post_judged (nat_lt 0 left) sender }
{
    if left == 0 {
        return Err(TransportFault {
            refusal: TransportRefusal::PostRefused,
            printer: sender,
        });
    }
    Ok(())
}
