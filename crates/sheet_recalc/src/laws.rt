//! Laws of the sheet, consequences of its definitions alone.
ghost use Rattle.sheet_recalc.specs.Locality.{CostsNothingWhereUnreached, ErrorsAriseWhereReached, StaysWhereUnreached};

/// An accepted change keeps the value of every other name that does not reach the changed name.
pub fn unreached_names_stay()
    ensures { StaysWhereUnreached }
{}

/// Each error arises in the formula of its origin: the name itself, or a name that it reaches. Only an absent name has an error without an origin.
pub fn errors_arise_where_reached()
    ensures { ErrorsAriseWhereReached }
{}

/// In the formula of another name, a node costs nothing unless its tree contains the changed name or a name that reaches it.
pub fn unreached_nodes_cost_nothing()
    ensures { CostsNothingWhereUnreached }
{}
