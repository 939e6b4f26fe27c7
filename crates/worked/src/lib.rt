// The worked examples, proved of the definitions.
#![tactic(auto)]

ghost use Rattle.worked.specs.Examples.{WorkedExamples};

// What a few calls come to: sheets, sizes, handles, refusals and places in use. It is there to be proved, not to be called.
pub fn worked_examples()
    ensures { WorkedExamples }
{}
