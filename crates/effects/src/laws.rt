// From parts of a call to the law.
ghost use Rattle.effects.specs.Whole.{WholeCallsKeepTheLaw};

// A call that went as the definition of its words says, or found no space and went back to the mark, keeps the law; so does one that a
// ruling refuses. X stands for a type of sources, E for their faults.
pub fn whole_calls_keep_the_law<X, E>()
    ensures { WholeCallsKeepTheLaw X E }
{}
