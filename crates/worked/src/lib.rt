// The worked tables, and that the order of the contributions makes no difference.
#![tactic(auto)]

ghost use Rattle.worked.specs.Tables.{WorkedTables};
ghost use Rattle.worked.specs.Order.{OrderIsFree};

// The figures and the needs of grids A and B.
pub fn worked_tables_hold()
    ensures { WorkedTables }
{}

// The same contributions in another order give the same figures and needs.
pub fn order_is_free()
    ensures { OrderIsFree }
{}
