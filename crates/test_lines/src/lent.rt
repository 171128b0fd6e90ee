//! Parts of a value, and why bytes are refused.
use crate::reported::Report;
use xdr_parts::Lent;
use xdr_stream::{DecodeFault, Reason};

/// Why bytes are refused, and where.
pub fn refusal(out: &mut Report, fault: DecodeFault) {
    match fault.why {
        Reason::NoMemory => out.text("out of memory"),
        why => out.name("refused ", &why),
    }
    out.number(" at ", fault.at as u64);
}

/// A part: its place, its depth, its kind, its name, what stands in it, and its bytes.
pub fn part_words(out: &mut Report, part: &Lent<'_>) {
    out.number("", part.at as u64);
    out.number(" ", u64::from(part.depth));
    out.number(" ", u64::from(part.kind.place));
    out.text(" ");
    out.text(if part.name.is_empty() { "-" } else { part.name });
    out.name(" ", &part.role);
    out.digits(" ", part.bytes);
}
