//! Records in fragments: a reader that takes them in any pieces, and their normal form (RFC 5531, section 11).
//!
//! - `reader` takes bytes in any pieces, by its module `taking`, and hands records out. `place` has where in a record
//!   it is, `steps` where a byte leads, `header` what a fragment's header says, and `single` the shortcut for a record
//!   of one fragment.
//! - `stream` reads a source and hands out its records, one after another; `normal` writes their normal form through
//!   `outbox`, which gathers output; `marks` writes one record.
//! - `fault` has the faults, and the counts; `laws` are theorems about the definitions.
#![tactic(auto)]

mod fault;
mod header;
mod laws;
mod marks;
mod normal;
mod outbox;
mod place;
mod reader;
mod single;
mod steps;
mod stream;

pub use fault::{Count, RecordFault, RecordStep};
pub use header::last_header;
pub use laws::{
    no_record_begins_another, normal_forms_join, too_long_ends_the_stream, twice_as_once,
};
pub use marks::{mark, write_marked};
pub use normal::normalise;
pub use reader::RecordReader;
pub use stream::RecordStream;
pub use xdr_units::NoMemory;
