//! Answers datagrams one after another, and prints a line for each.
ghost use Rattle.std.specs.Prelude.{◌≡◌, IfOk, IfErr, OnOk, string_bytes};
ghost use Rattle.oncrpc_service.specs.DatagramEnds.{DatagramsEnd, HasBroken, HasFinished, HasFinishedOne, HasLostLine};
ghost use Rattle.oncrpc_service.specs.DatagramEnds.{desk_of};
ghost use Rattle.oncrpc_service.specs.Datagrams.{datagram_line};

use crate::printing::print_line;
use oncrpc_answers::{Failure, report};
use rpc_directory::Directory;
use rpc_engine::{DatagramFault, DatagramPort, Served, serve_datagrams};
use std::alloc::{AllocError, Global};
use std::hash::BuildHasher;
use xdr_io::Sink;

/// Answers `count` datagrams from the registry, one after another, and prints a line for each, `datagram K: reply` or
/// `datagram K: no reply`, K from 1. A datagram that cannot be received has the line `datagram K: Read`, and a reply
/// that cannot be sent `datagram K: Write`; each counts as one of them, and the next follows. Status 0 after the last;
/// 3 where a line cannot be printed, 4 where memory for a line is refused. Both write a line to `faults`.
pub fn datagrams_on<P: DatagramPort, S: BuildHasher, O: Sink, F: Sink>(
    alloc: Global,
    port: &mut P,
    count: u32,
    directory: &mut Directory<S>,
    output: &mut O,
    faults: &mut F,
) -> u8
    ensures { DatagramsEnd count
        (desk_of P.left P.sent P.receive_failures P.send_failures O.taken O.failures)
        directory.old directory.new port.old port.new output.old output.new faults.old faults.new result }
{
    match answer_all(alloc, port, count, directory, output) {
        Ok(()) => 0,
        Err(failure) => report(failure, faults),
    }
}

fn answer_all<P: DatagramPort, S: BuildHasher, O: Sink>(
    alloc: Global,
    port: &mut P,
    count: u32,
    directory: &mut Directory<S>,
    output: &mut O,
) -> Result<(), Failure>
    ensures finished { OnOk result (HasFinished count
        (desk_of P.left P.sent P.receive_failures P.send_failures O.taken O.failures)
        directory.old directory.new port.old port.new output.old output.new) }
    ensures broken { IfErr result (λ why. HasBroken count
        (desk_of P.left P.sent P.receive_failures P.send_failures O.taken O.failures)
        directory.old directory.new port.old port.new output.old output.new why) }
{
    for before in 0..count {
        match answer_next(alloc, port, before + 1, directory, output) {
            Ok(()) => {}
            Err(failure) => return Err(failure),
        }
    }
    Ok(())
}

// Answers the next datagram, and prints its line.
fn answer_next<P: DatagramPort, S: BuildHasher, O: Sink>(
    alloc: Global,
    port: &mut P,
    number: u32,
    directory: &mut Directory<S>,
    output: &mut O,
) -> Result<(), Failure>
    ensures finished { OnOk result (HasFinishedOne number
        (desk_of P.left P.sent P.receive_failures P.send_failures O.taken O.failures)
        directory.old directory.new port.old port.new output.old output.new) }
    ensures broken { IfErr result (λ why. HasLostLine number
        (desk_of P.left P.sent P.receive_failures P.send_failures O.taken O.failures)
        directory.old directory.new port.old port.new output.old output.new why) }
{
    let ended = serve_datagrams(alloc, port, 1, directory);
    print_line(output, datagram_line(alloc, number, ended))
}

fn datagram_line(
    alloc: Global,
    number: u32,
    ended: Result<Served, DatagramFault>,
) -> Result<String, AllocError>
    ensures { IfOk result (λ text. string_bytes text ≡ datagram_line number ended) }
{
    match ended {
        Ok(served) => {
            if served.replies == 0 {
                format!(in alloc; "datagram {number}: no reply\n")
            } else {
                format!(in alloc; "datagram {number}: reply\n")
            }
        }
        Err(DatagramFault::Read { done: _ }) => format!(in alloc; "datagram {number}: Read\n"),
        Err(DatagramFault::Write { done: _ }) => format!(in alloc; "datagram {number}: Write\n"),
    }
}
