// The law of calls: what each call does between the state before it and the state after it, and what follows for every run. All of it
// is definitions and proofs; each function here names theorems, so that the check asks for their proofs. X and Y stand for types of
// sources.
#![tactic(auto)]

ghost use Rattle.law.specs.Cases.{WorkedCases};
ghost use Rattle.law.specs.Drafts.{RunsStand, TablesStand};
ghost use Rattle.law.specs.Enough.{ExactWordsKeepTheLaw};
ghost use Rattle.law.specs.Reads.{ReadsStand};
ghost use Rattle.law.specs.Excluded.{Examples, WrongBehavioursExcluded};

// A call that leaves exactly the words of the definition keeps the law, whatever the edit is; so do the refusals.
pub fn exact_words_keep_the_law<X>()
    ensures { ExactWordsKeepTheLaw X }
{}

// Every run of calls by the law ends in well laid out words that decode to the plain machine's tree, with the machine's answers; two
// runs of one list agree where no call got "no space"; trees are nested at most 64 deep; the first offers stay.
pub fn runs_follow_the_machine<X, Y>()
    ensures { RunsStand X Y }
{}

// A call by the law keeps capacities, lowers no count, and changes nothing where it refuses.
pub fn refusals_change_nothing<X>()
    ensures { TablesStand X }
{}

// The numbers that reads answer from the tree are those in the words.
pub fn reads_answer_the_words()
    ensures { ReadsStand }
{}

// Calls that leave other words, grant too much, refuse without need or do nothing are not by the law.
pub fn wrong_behaviours_are_excluded<X>()
    ensures { WrongBehavioursExcluded X }
{}

// A small run is by the law, and one that asks for more than it needs is not.
pub fn examples_hold()
    ensures { Examples }
{}

// The words of small messages are those that were worked out by hand.
pub fn worked_cases_hold()
    ensures { WorkedCases }
{}
