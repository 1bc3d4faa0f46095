//! What tables of names are, as laws.
ghost use Rattle.dim_stack.specs.Names.{AscendingLaw, FoundLaw, HasFirstLaw, HasOwnLaw, HasSecondLaw, MissingLaw, OnlyTableLaw, OrderLaw, OwnLaw, SameNamesLaw};

/// What the table of names is: its names ascend, they are the same, and no other list is so.
pub fn table_law()
    ensures ascending { AscendingLaw }
    ensures same { SameNamesLaw }
    ensures only { OnlyTableLaw }
{}

/// The table of names has each of them, and the table of two lists has what either has. So a table
/// that two are merged into has the names of both.
pub fn merged_law()
    ensures own { HasOwnLaw }
    ensures first { HasFirstLaw }
    ensures second { HasSecondLaw }
{}

/// What the number of a name is: the place of the name, and none where it is not there.
pub fn name_number_law()
    ensures found { FoundLaw }
    ensures missing { MissingLaw }
    ensures own { OwnLaw }
{}

/// Stacks compare by the numbers of their functions as by the names, in any table.
pub fn name_order_law()
    ensures { OrderLaw }
{}
