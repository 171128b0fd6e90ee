//! Laws of the definitions, each the contract of a function that does nothing.
ghost use Rattle.xdr_show.specs.Laws.{AreTheLayout};

/// The parts that `show` prints lines for are those of the value's layout, in its order, each once.
pub fn lines_are_of_the_layout()
    ensures { AreTheLayout }
{}
