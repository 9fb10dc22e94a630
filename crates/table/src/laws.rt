// What holds of the placing rule.
ghost use Rattle.table.specs.Laws.{AllocationsStand};

// Allocations keep old capacities, lower no count, and give words that were not allocated.
pub fn allocations_stand()
    ensures { AllocationsStand }
{}
