ghost use Rattle.examples.specs.Worked.{Worked};

// Carries the statement that the definitions give the worked examples.
pub fn worked_examples_hold()
    ensures { Worked }
{}
