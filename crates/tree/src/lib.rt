// What the words of a message show, and what edits of words do to it. All of it is definitions and proofs; each function here names
// laws, so that the check asks for their proofs.
#![tactic(auto)]

ghost use Rattle.tree.specs.Laws.{Laws};
ghost use Rattle.tree.specs.Zeroing.{ZeroingWalks};

// A slot shows one value and decoding finds it; every edit of words that is described here leaves them well laid out, and showing the
// tree with the value at the place changed.
pub fn layout_stands()
    ensures { Laws }
{}

// A walk over what a slot reaches, with a stack of objects begun, zeroes all of it and nothing else.
pub fn zeroing_reaches_all()
    ensures { ZeroingWalks }
{}
