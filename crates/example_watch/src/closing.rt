//! Worked facts of how a message is closed.
ghost use Rattle.std.specs.Prelude.{◌≡◌, IfOk, codes};

use oncrpc_messages::{Form, Page, Refusal, Said, Verdict, Why, close_page};
use std::alloc::{AllocError, Global};
use xdr_codec::Reason;

/// What is refused of a message stands below its line, with its place in the stream.
pub fn refused_line(alloc: Global) -> Result<Vec<u8>, AllocError>
    ensures { IfOk result (λ text. text.items ≡ codes "call 1 2.3.4\nrefused BadBool at 1096\n") }
{
    let page = Page {
        text: Vec::from_slice(alloc, b"call 1 2.3.4\n")?,
        verdict: Verdict::Refused(Refusal {
            why: Why::Bytes(Reason::BadBool),
            at: 44,
        }),
        said: Said::Neither,
    };
    close_page(alloc, Form::Lines, page, 1096)
}

/// An object of JSON has it as two members, and is closed.
pub fn refused_object(alloc: Global) -> Result<Vec<u8>, AllocError>
    ensures { IfOk result (λ text. text.items ≡ codes "{\"xid\":1,\"refused\":\"MoreFollows\",\"at\":8}\n") }
{
    let page = Page {
        text: Vec::from_slice(alloc, b"{\"xid\":1")?,
        verdict: Verdict::Refused(Refusal {
            why: Why::MoreFollows,
            at: 8,
        }),
        said: Said::Neither,
    };
    close_page(alloc, Form::Json, page, 8)
}

/// Of a message that is canonical nothing is said.
pub fn unrefused_line(alloc: Global) -> Result<Vec<u8>, AllocError>
    ensures { IfOk result (λ text. text.items ≡ codes "call 1 2.3.4\n") }
{
    let page = Page {
        text: Vec::from_slice(alloc, b"call 1 2.3.4\n")?,
        verdict: Verdict::Canonical,
        said: Said::Neither,
    };
    close_page(alloc, Form::Lines, page, 0)
}
