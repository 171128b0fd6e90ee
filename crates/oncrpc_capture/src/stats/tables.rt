//! The tables of what is counted.
use super::{Row, Slow, Stats, Target};
use crate::text::note_text;
use crate::told::{told_name, why_unread};
use capture_packets::Reason;
use capture_records::Told;
use oncrpc_messages::Form;
use oncrpc_watch::Terms;
use std::alloc::{AllocError, Global};

/// The reasons of refusals, in the order in which they are told.
const REASONS: [&str; 9] = [
    "BadBool",
    "BadNumbered",
    "BadCase",
    "TooLong",
    "BadPadding",
    "TooDeep",
    "TooLarge",
    "Truncated",
    "MoreFollows",
];

/// What is said of bytes, in the order in which it is told.
const SAID: [Told; 4] = [Told::Missing, Told::Unfinished, Told::Passed, Told::Dropped];

/// Why packets are not read, in the order in which it is told.
const WHYS: [Reason; 6] = [
    Reason::UnknownLink,
    Reason::Cut,
    Reason::BadInternet,
    Reason::Fragment,
    Reason::BadDatagram,
    Reason::BadSegment,
];

impl Stats {
    /// The tables: procedures, refusals, what is said of bytes, packets that are not read, the slowest replies. The
    /// error is an allocation failure.
    pub fn text(&self, terms: &Terms<'_>) -> Result<String, AllocError> {
        let mut text = String::new(self.alloc);
        self.push_rows(&mut text, terms)?;
        self.push_reasons(&mut text, terms.form)?;
        self.push_told(&mut text, terms.form)?;
        self.push_unread(&mut text, terms.form)?;
        self.push_slow(&mut text, terms)?;
        Ok(text)
    }

    // What is counted of each procedure.
    fn push_rows(&self, text: &mut String, terms: &Terms<'_>) -> Result<(), AllocError> {
        let alloc = self.alloc;
        let form = terms.form;
        for (target, row) in &self.rows {
            let name = target_text(alloc, *target, terms)?;
            let Row {
                calls,
                replies,
                refused,
            } = *row;
            let line = match form {
                Form::Lines => format!(in alloc;
                    "procedure {} calls {calls} replies {replies} refused {refused}\n",
                    name.as_str()
                )?,
                Form::Json => format!(in alloc;
                    "{{\"type\":\"procedure\",\"name\":\"{}\",\"calls\":{calls},\"replies\":{replies},\
                     \"refused\":{refused}}}\n",
                    name.as_str()
                )?,
            };
            text.push_str(line.as_str())?;
        }
        Ok(())
    }

    // The reasons that came, and how often.
    fn push_reasons(&self, text: &mut String, form: Form) -> Result<(), AllocError> {
        let alloc = self.alloc;
        for place in 0..9usize {
            let count = self.reasons[place];
            if count == 0 {
                continue;
            }
            let name = REASONS[place];
            let line = match form {
                Form::Lines => format!(in alloc; "refused {name} {count}\n")?,
                Form::Json => format!(in alloc;
                    "{{\"type\":\"refused\",\"reason\":\"{name}\",\"count\":{count}}}\n"
                )?,
            };
            text.push_str(line.as_str())?;
        }
        Ok(())
    }

    // Of how many bytes each was said.
    fn push_told(&self, text: &mut String, form: Form) -> Result<(), AllocError> {
        for place in 0..4usize {
            let count = self.told[place];
            if count != 0 {
                let line = note_text(self.alloc, form, told_name(SAID[place]), count)?;
                text.push_str(line.as_str())?;
            }
        }
        Ok(())
    }

    // How many packets were not read, and why.
    fn push_unread(&self, text: &mut String, form: Form) -> Result<(), AllocError> {
        let alloc = self.alloc;
        for place in 0..6usize {
            let count = self.unread[place];
            if count == 0 {
                continue;
            }
            let name = why_unread(WHYS[place]);
            let line = match form {
                Form::Lines => format!(in alloc; "unread {name} {count}\n")?,
                Form::Json => format!(in alloc;
                    "{{\"type\":\"unread\",\"why\":\"{name}\",\"count\":{count}}}\n"
                )?,
            };
            text.push_str(line.as_str())?;
        }
        Ok(())
    }

    // The slowest replies.
    fn push_slow(&self, text: &mut String, terms: &Terms<'_>) -> Result<(), AllocError> {
        let alloc = self.alloc;
        let form = terms.form;
        for slow in &self.slow {
            let name = target_text(alloc, slow.target, terms)?;
            let Slow {
                time,
                frame,
                xid,
                ..
            } = *slow;
            let line = match form {
                Form::Lines => format!(in alloc;
                    "slow {time} ns packet {frame} xid {xid} {}\n",
                    name.as_str()
                )?,
                Form::Json => format!(in alloc;
                    "{{\"type\":\"slow\",\"nanoseconds\":\"{time}\",\"packet\":{frame},\"xid\":{xid},\
                     \"name\":\"{}\"}}\n",
                    name.as_str()
                )?,
            };
            text.push_str(line.as_str())?;
        }
        Ok(())
    }
}

// A procedure: its numbers, and its name where it is declared.
fn target_text(alloc: Global, target: Target, terms: &Terms<'_>) -> Result<String, AllocError> {
    let Target {
        program,
        version,
        procedure,
    } = target;
    let settings = terms.settings(program);
    match settings.declared.procedure(program, version, procedure) {
        Some(found) => format!(in alloc; "{program}.{version}.{procedure} {}", found.name.as_str()),
        None => format!(in alloc; "{program}.{version}.{procedure}"),
    }
}
