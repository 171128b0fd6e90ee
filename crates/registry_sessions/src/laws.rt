//! Laws of the definitions that the contracts name. No call of them does anything.
ghost use Rattle.registry_sessions.specs.Events.{OneOrder};
ghost use Rattle.registry_sessions.specs.Laws.{AloneServes, StepsJoin, TableInterleaves};

use registry_callers::local_is_as_ever;

/// Events have one order of arrivals: so the run along them is one.
pub fn arrivals_have_one_order()
    ensures { OneOrder }
{}

/// Two steps of a table, one after the other, are one: so many calls have done all their events.
pub fn steps_join()
    ensures { StepsJoin }
{}

/// What a table has done is the interleaving of its connections and datagrams.
pub fn tables_interleave()
    ensures { TableInterleaves }
{}

/// One connection alone gives what `serve` gives for its bytes: the rows, the output and the counts. `serve` knows of
/// no callers: this holds of one of this host who sets no row again and looks no address at 0.0.0.0 up.
pub fn one_connection_is_served()
    ensures { AloneServes }
{
    local_is_as_ever();
}
