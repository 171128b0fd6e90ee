//! Laws of the definitions that the contracts name. No call of them does anything.
ghost use Rattle.oncrpc_procedures.specs.Names.{OneReading};

/// A text has its three parts in one way at most: so a text that names nothing by them names nothing.
pub fn names_have_one_reading()
    ensures { OneReading }
{}
