//! Laws of the definitions: what places, bytes that are given and streams come to.
ghost use Rattle.capture_streams.specs.Laws.{BytesStandNear, BeginsOnce, FirstWins, BytesStay, FrontBegins, OneRun};
ghost use Rattle.capture_streams.specs.Laws.{HandedIsGiven, HandedIsTheRun, AnyOrder, AnyOrderHanded, CutGivesLess};
ghost use Rattle.capture_streams.specs.Laws.{CutBegins};

/// A segment's bytes stand at the places near the due one that have their sequence numbers (RFC 9293, section 3.4).
pub fn places_by_number()
    ensures near { BytesStandNear }
    // Where a segment stands does not depend on which place near it was due.
    ensures once { BeginsOnce }
{}

/// Of segments that have a byte for one place the first that came wins, whatever comes later.
pub fn first_one_wins()
    ensures first { FirstWins }
    ensures stays { BytesStay }
{}

/// There is one stream, and bytes that are given from its place on are a beginning of it.
pub fn one_stream()
    ensures one { OneRun }
    ensures begins { FrontBegins }
{}

/// What a direction has handed on is a beginning of the stream, and the stream where it is at a hole.
pub fn handed_is_the_stream()
    ensures beginning { HandedIsGiven }
    ensures whole { HandedIsTheRun }
{}

/// Segments that agree where they overlap give the same stream in any order.
pub fn any_order()
    ensures given { AnyOrder }
    // So they hand on the same bytes.
    ensures handed { AnyOrderHanded }
{}

/// Where segments agree, those of which some bytes were refused give a beginning of what all of them give.
pub fn refused_gives_less()
    ensures less { CutGivesLess }
    // So what was handed on is a beginning of the stream of all of them, bytes that were refused among them.
    ensures begins { CutBegins }
{}
