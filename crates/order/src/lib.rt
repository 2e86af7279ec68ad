// The hall as definitions: what every call answers and does, and what holds of all runs of calls. There is no state here.
#![tactic(auto)]

ghost use Rattle.order.specs.Examples.{Examples};

// Eight worked examples of the definitions, proved.
pub fn examples_stand()
    ensures { Examples }
{}
