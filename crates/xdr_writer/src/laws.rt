//! Laws of items, each the contract of a function that does nothing.
ghost use Rattle.std.specs.Prelude.{List};
ghost use Rattle.xdr_types.specs.Kinds.{KindView};
ghost use Rattle.xdr_writer.specs.Laws.{ItemsJoin, ItemsTellValue, ItemsAreTaken};
ghost use Rattle.xdr_writer.specs.Told.{PartsTellItems};

/// The bytes of a value's items, joined, are its encoding (RFC 4506 section 4).
pub fn items_join()
    ensures { (kinds : List KindView) → ItemsJoin kinds }
{}

/// Values and their items are one to one: two values of a kind with the same items are one.
pub fn items_tell_value()
    ensures { (kinds : List KindView) → ItemsTellValue kinds }
{}

/// Each value within the limits is written by its items, put one after another: none is refused but for an allocation
/// failure, each but the last brings `More` and the last `Done`. Where none is left `finish` gives the count; a value
/// without items, a void, has it at once.
pub fn items_are_taken()
    ensures { (kinds : List KindView) → ItemsAreTaken kinds }
{}

/// The parts of a value tell its items by their bytes, and no others. Put into a writer they give the value's bytes
/// again.
pub fn parts_tell_items()
    ensures { (kinds : List KindView) → PartsTellItems kinds }
{}
