// Worked examples of the calendar and of watches over it, shown from the definitions and not by running the code: each with a rule starts at the bytes of its text.
#![tactic(auto)]

ghost use Rattle.pile_examples.specs.PileExamples.{PileExamples};

// The worked examples hold.
pub fn pile_examples_hold()
    ensures { PileExamples }
{}
