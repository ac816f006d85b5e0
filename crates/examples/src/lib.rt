// Worked examples, shown from the definitions and not by running the code: each starts at the bytes of a text.
#![tactic(auto)]

ghost use Rattle.examples.specs.Examples.{Examples};

// The worked examples hold.
pub fn examples_hold()
    ensures { Examples }
{}
