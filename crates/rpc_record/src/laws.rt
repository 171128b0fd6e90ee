//! Laws of record marking: what the definitions of a record, of a stream and of its normal form come to.
ghost use Rattle.rpc_record.specs.Marked.{NoneBeginsAnother, OneLongest, OneReading};
ghost use Rattle.rpc_record.specs.Marked.{TwiceAsOnce, NormalJoins, FragmentLength};
ghost use Rattle.rpc_record.specs.Reading.{TooLongEnds, OneTooLong, WholeIsLongest, WholeHasNoLong, FaultsBegin};

/// Normalising twice gives what normalising once does, and bytes have one reading as records.
pub fn twice_as_once()
    // The normal form of a normal form is itself.
    ensures twice { TwiceAsOnce }
    // Whole records and something unfinished are read in one way.
    ensures reading { OneReading }
{}

/// A marked record ends by its own bytes: none begins another, so bytes have one longest front of whole records.
pub fn no_record_begins_another()
    ensures apart { NoneBeginsAnother }
    ensures longest { OneLongest }
    // Bytes that are whole records are themselves that front.
    ensures whole { WholeIsLongest }
{}

/// A header that brings its record above the limit ends every longer stream of records within the limit, and stands at
/// one place. Whole records have none. Before whatever fault the bytes begin with whole records.
pub fn too_long_ends_the_stream()
    // However the bytes go on, the header stays where it is,
    ensures ends { TooLongEnds }
    // there is one such header,
    ensures one { OneTooLong }
    // and whole records have none.
    ensures none { WholeHasNoLong }
    // Before a fault there are the records that were handed out.
    ensures begins { FaultsBegin }
{}

/// The normal form of a stream is made record by record.
pub fn normal_forms_join()
    // That of records and more is that of the first, and then that of the others;
    ensures joins { NormalJoins }
    // a fragment has four bytes more than its content.
    ensures length { FragmentLength }
{}
