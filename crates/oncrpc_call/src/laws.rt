//! Laws of the definitions that the contracts name. No call of them does anything.
ghost use Rattle.oncrpc_call.specs.Laws.{OneEnding, OneLine, OneText};

use xdr_laws::one_outcome;
use xdr_types::each_spelling_is_one_value;

/// Results are printed in one way, or refused with one line: so status 0 comes exactly where they are a value to their
/// last byte.
pub fn results_have_one_ending()
    // No results are both printed and refused,
    ensures ending { OneEnding }
    // no results are printed in two ways,
    ensures text { OneText }
    // and none are refused with two lines.
    ensures line { OneLine }
{
    // The laws, for the proof: bytes begin with one value at most, and have one outcome of decoding at most.
    each_spelling_is_one_value();
    one_outcome();
}
