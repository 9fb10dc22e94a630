// Words of small messages as they stand in the encoding's own numbers.
ghost use Rattle.wire.specs.Worked.{WorkedWords};

// The definitions give the words that were worked out by hand.
pub fn worked_words_stand()
    ensures { WorkedWords }
{}
