//! What follows from the definitions of a world: laws, on functions that do nothing.
ghost use Rattle.std.specs.Prelude.{◌≡◌, ◌↔◌, ◌++◌, ◌∷◌, ◌+◌, ℕ, List, [], Option, IsTrue};
ghost use Rattle.connection_ids.specs.Ids.{ConnectionId};
ghost use Rattle.outside_world.specs.declared.world.Happening.{Happening};
ghost use Rattle.outside_world.specs.declared.world.Happening.TheVariants.{Opened};
ghost use Rattle.outside_world.specs.declared.world.WorldEntry.{WorldEntry};
ghost use Rattle.outside_world.specs.Comings.{MayCome, HasFreeNumberAfter};
ghost use Rattle.outside_world.specs.Faults.{HasRisenBy};
ghost use Rattle.outside_world.specs.Worlds.{HasOpening, HasSize, is_connected, told_more, GrowsByBoth};
ghost use Rattle.sp_outside.specs.Causes.{Rose};

/// Rises of a count add up, and one failure is a rise by one.
pub fn rises_add_up()
    ensures none { (count : ℕ) → HasRisenBy 0 count count }
    ensures one { (before after : ℕ) → Rose before after → HasRisenBy 1 before after }
    ensures both { (n m before middle after : ℕ) → HasRisenBy n before middle → HasRisenBy m middle after → HasRisenBy (n + m) before after }
{}

/// A log that grows twice grows by both.
pub fn entries_add_up()
    ensures none { (told : Option (List WorldEntry)) → told_more told [] ≡ told }
    ensures both { (told : Option (List WorldEntry)) (entries later : List WorldEntry) → GrowsByBoth told entries later }
{}

/// A connection is open after a log exactly where an `Opened` of it stands in the log and nothing after it has closed it.
pub fn openings_stand_in_the_log()
    ensures { (log : List WorldEntry) (c : ConnectionId) → IsTrue (is_connected log c) ↔ HasOpening log c }
{}

/// Of happenings that may come each has its size, and one that opens a connection has a number that no connection has which opened before and isn't gone.
pub fn happenings_that_may_come()
    ensures sizes { (before later : List Happening) (happening : Happening) → MayCome (before ++ happening ∷ later) → HasSize happening }
    ensures numbers { (before later : List Happening) (c : ConnectionId) (peer : List ℕ) → MayCome (before ++ Opened c peer ∷ later) → HasFreeNumberAfter before c }
{}
