//! Laws of the definitions that the contracts name. No call of them does anything.
ghost use Rattle.oncrpc_encode.specs.Arrays.{OneReading};

/// A text is an array in one way at most: its items are as many, and at the same places, however it is read.
pub fn an_array_has_one_reading()
    ensures { OneReading }
{}
