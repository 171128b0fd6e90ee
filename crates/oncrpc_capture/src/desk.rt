//! What goes through the packets of a capture.
//!
//! - `reading`: the file, packet by packet. `datagrams` and `segments`: what packets carry.
//! - `ends`: connections that end.

ghost use Rattle.std.specs.Prelude.{◌≡◌, ◌≤◌};
ghost use Rattle.oncrpc_watch.specs.MessagesEnd.{status_of};

use crate::flows::Flows;
use crate::pairs::Pairs;
use crate::printing::Printing;
use oncrpc_answers::Failure;
use oncrpc_watch::Watch;
use std::alloc::Global;
use xdr_io::{Sink, Source};

mod datagrams;
mod ends;
mod reading;
mod segments;

/// What reads a capture.
#[derive(Drop)]
pub struct Desk<'a> {
    alloc: Global,
    /// The ports whose traffic is RPC.
    ports: &'a [u16],
    /// Who talks over UDP.
    talks: Pairs,
    /// Who talks over TCP.
    flows: Flows,
    printing: Printing<'a>,
    /// The record at work.
    record: Vec<u8>,
    /// The number of the packet at work, from 1; u64::MAX for any greater one.
    frame: u64,
}

impl<'a> Desk<'a> {
    ghost use Rattle.std.specs.Prelude.{◌≡◌, ◌≤◌, IfOk, is_some};
    ghost use Rattle.oncrpc_capture.specs.CaptureEnd.{PrintsPackets};
    ghost use Rattle.oncrpc_capture.specs.Private.Follows.{Begun};
    ghost use Rattle.oncrpc_watch.specs.Represents.{IsAt};
    ghost use Rattle.oncrpc_watch.specs.Run.{nothing};
    ghost use Rattle.oncrpc_watch.specs.Terms.{terms_of};

    /// Before the first packet.
    pub fn new(alloc: Global, watch: Watch<'a>, ports: &'a [u16], stats: bool) -> Desk<'a>
        ensures ports { result.ports.now ≡ ports.entry.now }
        ensures watch { result.printing.watch ≡ watch.entry }
        ensures stats { is_some result.printing.stats ≡ stats }
        ensures frame { result.frame ≡ 0 }
        ensures begun { Begun result.flows }
    {
        Desk {
            alloc,
            ports,
            talks: Pairs::new(alloc),
            flows: Flows::new(alloc),
            printing: Printing::new(alloc, watch, stats),
            record: Vec::new(alloc),
            frame: 0,
        }
    }

    /// Reads a file to its end, and prints what it has and the closing lines. The answer is the status.
    pub fn finish<I: Source + Drop, O: Sink>(
        &mut self,
        source: I,
        output: &mut O,
    ) -> Result<u8, Failure>
        requires first { self.old.frame ≡ 0 }
        requires nothing { IsAt self.old.printing.watch nothing }
        requires begun { Begun self.old.flows }
        ensures few { IfOk result (λ status. status ≤ 1) }
        ensures prints { IfOk result (λ status. PrintsPackets (terms_of self.old.printing.watch.terms)
            self.old.ports.now (is_some self.old.printing.stats) (I.left source) (O.taken output.old)
            (O.taken output.new) status) }
    {
        self.read(source, output)?;
        self.printing.close(output)?;
        let status = status_of(self.printing.refused());
        Ok(status)
    }
}

// The status: whether anything was refused.
fn status_of(refused: u64) -> u8
    ensures few { result ≤ 1 }
    ensures status { result ≡ status_of refused }
{
    if refused == 0 { 0 } else { 1 }
}
