// What the definitions give on examples.
ghost use Rattle.worked_examples.specs.Examples.{Shown};

/// The worked examples hold, as the record `Shown` has them.
pub fn examples_hold()
    ensures { Shown }
{}
