//! What a POST leaves as it is, and what it leaves at the places that it names: laws of the definitions, on functions that do nothing.
ghost use Rattle.post_laws.specs.Brought.{CopiesBringTheirSource, CopiesLeaveTheirSource, MovesBringTheirSource, MovesEmptyTheirSource};
ghost use Rattle.post_laws.specs.Laws.{LastValuesStay, OperationsLeaveWhatIsApart, RemovalsStayUnlessNamed};

/// An operation that isn't refused leaves each node as it was that is apart from all places that it names, with the same properties and the
/// same kids in their order; and where none was, none is.
pub fn operations_leave_what_is_apart()
    ensures { OperationsLeaveWhatIsApart }
{}

/// After a change that isn't refused each property that it sets has the value of its words, unless a later one is set at its place.
pub fn the_last_value_of_a_property_stays()
    ensures { LastValuesStay }
{}

/// After a change that isn't refused neither a node nor a property is where it takes something away, unless a move, a copy or a value names
/// that place, or one above or under it.
pub fn what_is_taken_away_is_gone()
    ensures { RemovalsStayUnlessNamed }
{}

/// After a copy that isn't refused there is at the goal what stood at the source, node and all below it (`copy_goal`), and at the source still
/// (`copy_source`). After a move it is at the goal (`move_goal`), and no node at the source (`move_source`).
pub fn a_copy_and_a_move_bring_the_source()
    ensures copy_goal { CopiesBringTheirSource }
    ensures copy_source { CopiesLeaveTheirSource }
    ensures move_goal { MovesBringTheirSource }
    ensures move_source { MovesEmptyTheirSource }
{}
