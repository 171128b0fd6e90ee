//! Laws of the definitions, each the contract of a function that does nothing.
ghost use Rattle.std.specs.Prelude.{List};
ghost use Rattle.xdr_types.specs.Kinds.{KindView};
ghost use Rattle.xdr_types.specs.Laws.{EachSpellingIsOneValue, EqualExactlyIfSpelledAlike, NoSpellingBeginsAnother};
ghost use Rattle.xdr_types.specs.Laws.{EachKindOfASchemaHasAValue};
ghost use Rattle.xdr_types.specs.Refused.{NoSchemaHasAFault};

/// Two values of a kind are equal exactly if their encodings are, and no encoding of a kind begins another. So one
/// value at most begins a list of bytes (RFC 4506 sections 3 and 4).
pub fn each_spelling_is_one_value()
    // Bytes begin with the encoding of one value at most.
    ensures one { (kinds : List KindView) → EachSpellingIsOneValue kinds }
    // Two values are equal exactly if their encodings are.
    ensures equal { (kinds : List KindView) → EqualExactlyIfSpelledAlike kinds }
    // No encoding begins another.
    ensures apart { (kinds : List KindView) → NoSpellingBeginsAnother kinds }
{}

/// Every kind of a schema that is well formed and sound has a value.
pub fn each_kind_has_a_value()
    ensures { EachKindOfASchemaHasAValue }
{}

/// Lists that `Schema::build` refuses with a fault of theirs are not both well formed and sound.
pub fn no_schema_has_a_fault()
    ensures { NoSchemaHasAFault }
{}
