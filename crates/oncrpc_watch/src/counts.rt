//! How many messages there were, and what they were found to be.
ghost use Rattle.std.specs.Prelude.{◌≡◌, IfOk, string_bytes};
ghost use Rattle.oncrpc_watch.specs.Counted.{counted, refused};
ghost use Rattle.oncrpc_watch.specs.Lines.{counts_line, found_text, messages_text};

use oncrpc_messages::{Form, Said, Verdict};
use std::alloc::{AllocError, Global};

/// How many messages there were, and what they were found to be. A count stays at the greatest number.
#[derive(Clone, Copy, Debug, PartialEq, Eq)]
pub struct Counts {
    /// Calls.
    pub calls: u64,
    /// Replies.
    pub replies: u64,
    /// Records that are neither.
    pub others: u64,
    /// Messages, records and streams of which something is refused.
    pub refused: u64,
    /// Messages whose arguments or results have no known kinds.
    pub unjudged: u64,
    /// Replies to no call that is known.
    pub unasked: u64,
}

impl Counts {
    /// No message.
    pub fn none() -> Counts
        ensures { result ≡ record { calls = 0; replies = 0; others = 0; refused = 0; unjudged = 0; unasked = 0 } }
    {
        Counts {
            calls: 0,
            replies: 0,
            others: 0,
            refused: 0,
            unjudged: 0,
            unasked: 0,
        }
    }

    /// Counts a message by what it is, by what it is found to be, and by whether the call to which it answers is known.
    pub fn count(&mut self, said: Said, verdict: Verdict, known: bool)
        ensures { self.new ≡ counted said verdict known self.old }
    {
        match said {
            Said::Call { .. } => self.calls = self.calls.saturating_add(1),
            Said::Reply { .. } => {
                self.replies = self.replies.saturating_add(1);
                if !known {
                    self.unasked = self.unasked.saturating_add(1);
                }
            }
            Said::Neither => self.others = self.others.saturating_add(1),
        }
        match verdict {
            Verdict::Canonical => {}
            Verdict::Unjudged => self.unjudged = self.unjudged.saturating_add(1),
            Verdict::Refused(_) => self.refuse(),
        }
    }

    /// Counts something that is refused.
    pub fn refuse(&mut self)
        ensures { self.new ≡ refused self.old }
    {
        self.refused = self.refused.saturating_add(1);
    }
}

/// The closing line: each count behind its name. The error is an allocation failure.
pub fn counts_line(alloc: Global, form: Form, counts: Counts) -> Result<String, AllocError>
    ensures { IfOk result (λ text. string_bytes text ≡ counts_line form counts) }
{
    let mut text = messages_text(alloc, form, counts)?;
    let found = found_text(alloc, form, counts)?;
    text.push_str(found.as_str())?;
    Ok(text)
}

fn messages_text(alloc: Global, form: Form, counts: Counts) -> Result<String, AllocError>
    ensures { IfOk result (λ text. string_bytes text ≡ messages_text form counts) }
{
    let Counts {
        calls,
        replies,
        others,
        ..
    } = counts;
    match form {
        Form::Lines => format!(in alloc; "calls {calls} replies {replies} others {others}"),
        Form::Json => format!(in alloc;
            "{{\"type\":\"counts\",\"calls\":{calls},\"replies\":{replies},\"others\":{others}"
        ),
    }
}

fn found_text(alloc: Global, form: Form, counts: Counts) -> Result<String, AllocError>
    ensures { IfOk result (λ text. string_bytes text ≡ found_text form counts) }
{
    let Counts {
        refused,
        unjudged,
        unasked,
        ..
    } = counts;
    match form {
        Form::Lines => format!(in alloc;
            " refused {refused} unjudged {unjudged} unasked {unasked}\n"
        ),
        Form::Json => format!(in alloc;
            ",\"refused\":{refused},\"unjudged\":{unjudged},\"unasked\":{unasked}}}\n"
        ),
    }
}
