//! Laws of the definitions: what records come to that segments give.
ghost use Rattle.capture_records.specs.Laws.{OneAll, ToldBeginsAll};

/// What is told of a direction is a beginning of all its records, and segments give one list of these (RFC 5531 section
/// 11).
pub fn told_records_begin_all()
    ensures begins { ToldBeginsAll }
    ensures one { OneAll }
{}
