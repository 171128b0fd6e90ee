//! A reader before any byte.
ghost use Rattle.std.specs.Prelude.{◌<◌, [], length};
ghost use Rattle.xdr_stream.specs.Finish.{IsStarted};
ghost use Rattle.xdr_stream.specs.Held.{GoesOn};
ghost use Rattle.xdr_stream.specs.Represents.{RepresentsBytes};
ghost use Rattle.xdr_stream.specs.Trace.{at_start};

use crate::builder::Build;
use crate::machine::frame::Frame;
use crate::reader::{Reader, State};
use std::alloc::Global;
use xdr_stack::Stack;
use xdr_types::{KindId, Limits, Schema};

/// A reader that has been given no byte, with a builder that was reported nothing.
pub(crate) fn fresh<'s, B: Build + Drop>(
    alloc: Global,
    schema: &'s Schema,
    kind: KindId,
    limits: Limits,
    built: B,
) -> Reader<'s, B>
    requires { kind.place < length schema.now.kinds }
    ensures represents { B.reports built at_start → RepresentsBytes B.spares B.reports result [] }
    ensures settings { IsStarted result schema.now kind limits }
    ensures open { GoesOn result.state }
{
    let _known = schema.len();
    Reader {
        schema,
        kind,
        limits,
        work: Frame::Items {
            item: kind,
            left: 1,
        },
        parents: Stack::new(alloc),
        built,
        read: 0,
        unit: [0; 4],
        pending: 0,
        state: State::Fresh,
    }
}
