// What is known of the meaning of lines, as contracts: example lines, and that every block can be written and read back.
ghost use Rattle.std.specs.Prelude.{◌≡◌, true};
ghost use Rattle.dump.specs.Examples.{Examples};
ghost use Rattle.dump.specs.Written.{ReadBack};

// Always true: what it says of lines stands in its contract.
#[tactic(auto, using(crate::proofs::ReadBack::read_back))]
pub fn meaning_stands() -> bool
    ensures examples { Examples }
    ensures read_back { ReadBack }
    ensures answer { result ≡ true }
{
    true
}
