// Allocations of an arena follow the placing rule.
ghost use Rattle.arena.specs.Rule.{AllocationsFollowTheRule};

// What the contracts of `allocate_anywhere`, `place` and `place_pad` say is what the rule gives for the capacities met. F stands for the
// faults of a source.
pub fn allocations_follow_the_rule<F>()
    ensures { AllocationsFollowTheRule F }
{}
