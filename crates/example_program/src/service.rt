//! The registry asked and served: what goes out, what is printed, and when rows cannot have changed.
ghost use Rattle.std.specs.Prelude.{◌≡◌, ◌≢◌, ◌<◌, ◌≤◌, ◌⊎◌, ◌++◌, ℕ, List, [], ◌∷◌, Some, codes};

use oncrpc_service::{Listener, datagrams_on, info_datagram, info_over, serve_on};
use rpc_directory::Directory;
use rpc_engine::DatagramPort;
use rpc_message::five_cases;
use std::alloc::Global;
use std::hash::BuildHasher;
use xdr_io::{Sink, Source};

/// Where no connection is to be served none is, and the rows stay.
pub fn serves_no_connection<L: Listener, S: BuildHasher, O: Sink, F: Sink>(
    alloc: Global,
    listener: &mut L,
    directory: &mut Directory<S>,
    output: &mut O,
    faults: &mut F,
) -> u8
    ensures rows { directory.new ≡ directory.old }
    ensures waiting { L.waiting listener.new ≡ L.waiting listener.old }
{
    serve_on(alloc, listener, 0, directory, output, faults)
}

/// What is printed before the first connection names the port that is listened at.
pub fn says_where_it_listens<L: Listener, S: BuildHasher, O: Sink, F: Sink>(
    alloc: Global,
    listener: &mut L,
    directory: &mut Directory<S>,
    output: &mut O,
    faults: &mut F,
) -> u8
    requires port { L.port_of listener.old ≡ 111 }
    requires fresh { O.taken output.old ≡ Some [] }
    ensures { result ≡ 0 → O.taken output.new ≡ Some (codes "listening on 127.0.0.1 111\n") }
{
    serve_on(alloc, listener, 0, directory, output, faults)
}

/// Where no client comes, serving one does not succeed, and the rows stay.
pub fn serves_nobody<L: Listener, S: BuildHasher, O: Sink, F: Sink>(
    alloc: Global,
    listener: &mut L,
    count: u32,
    directory: &mut Directory<S>,
    output: &mut O,
    faults: &mut F,
) -> u8
    requires some { 0 < count }
    requires nobody { L.waiting listener.old ≡ Some [] }
    ensures status { result ≢ 0 }
    ensures rows { directory.new ≡ directory.old }
{
    serve_on(alloc, listener, count, directory, output, faults)
}

/// To a client that sends nothing goes nothing: no byte before the replies, of which there are none, and none after
/// them. The listener reports what went to each client.
pub fn sends_nothing_to_a_silent_client<L: Listener, S: BuildHasher, O: Sink, F: Sink>(
    alloc: Global,
    listener: &mut L,
    directory: &mut Directory<S>,
    output: &mut O,
    faults: &mut F,
) -> u8
    requires silent { L.waiting listener.old ≡ Some ([] ∷ []) }
    requires first { L.sent listener.old ≡ Some [] }
    ensures { result ≡ 0 → L.sent listener.new ≡ Some ([] ∷ []) }
{
    serve_on(alloc, listener, 1, directory, output, faults)
}

/// Where an answer is printed, what went out is DUMP of version 4 with xid 1 and no credentials, as one last fragment.
pub fn asks_for_all_rows<R: Source, W: Sink, O: Sink, F: Sink>(
    alloc: Global,
    reader: &mut R,
    writer: &mut W,
    output: &mut O,
    faults: &mut F,
) -> u8
    requires fresh { W.taken writer.old ≡ Some [] }
    ensures { result ≤ 1 → W.taken writer.new ≡ Some (128 ∷ 0 ∷ 0 ∷ 40 ∷ 0 ∷ 0 ∷ 0 ∷ 1 ∷ 0 ∷ 0 ∷ 0 ∷ 0
        ∷ 0 ∷ 0 ∷ 0 ∷ 2 ∷ 0 ∷ 1 ∷ 134 ∷ 160 ∷ 0 ∷ 0 ∷ 0 ∷ 4 ∷ 0 ∷ 0 ∷ 0 ∷ 4
        ∷ 0 ∷ 0 ∷ 0 ∷ 0 ∷ 0 ∷ 0 ∷ 0 ∷ 0 ∷ 0 ∷ 0 ∷ 0 ∷ 0 ∷ 0 ∷ 0 ∷ 0 ∷ 0 ∷ []) }
{
    info_over(alloc, reader, writer, output, faults, 4)
}

/// Rows are printed under their header.
pub fn prints_rows_under_their_header<R: Source, W: Sink, O: Sink, F: Sink>(
    alloc: Global,
    reader: &mut R,
    writer: &mut W,
    output: &mut O,
    faults: &mut F,
) -> u8
    requires fresh { O.taken output.old ≡ Some [] }
    ensures { result ≡ 0 → (lines : List ℕ)
        × (O.taken output.new ≡ Some (codes "program vers prot port\n" ++ lines)) }
{
    info_over(alloc, reader, writer, output, faults, 2)
}

/// A writer for faults gets nothing where an answer was printed, whatever it says.
pub fn is_silent_under_an_answer<R: Source, W: Sink, O: Sink, F: Sink>(
    alloc: Global,
    reader: &mut R,
    writer: &mut W,
    output: &mut O,
    faults: &mut F,
    vers: u32,
) -> u8
    ensures { result ≤ 1 → faults.new ≡ faults.old }
{
    info_over(alloc, reader, writer, output, faults, vers)
}

/// Where no datagram is to be answered none is received, the rows stay, and nothing is printed.
pub fn answers_no_datagram<P: DatagramPort, S: BuildHasher, O: Sink, F: Sink>(
    alloc: Global,
    port: &mut P,
    directory: &mut Directory<S>,
    output: &mut O,
    faults: &mut F,
) -> u8
    requires fresh { O.taken output.old ≡ Some [] }
    ensures rows { directory.new ≡ directory.old }
    ensures left { P.left port.new ≡ P.left port.old }
    ensures printed { result ≡ 0 → O.taken output.new ≡ Some [] }
{
    datagrams_on(alloc, port, 0, directory, output, faults)
}

/// A receive that fails uses up one of those that are to be answered: where no datagram is left one has its line, and
/// it is not asked for another.
pub fn uses_up_one_for_a_failed_receive<P: DatagramPort, S: BuildHasher, O: Sink, F: Sink>(
    alloc: Global,
    port: &mut P,
    directory: &mut Directory<S>,
    output: &mut O,
    faults: &mut F,
) -> u8
    requires fresh { O.taken output.old ≡ Some [] }
    requires none_left { P.left port.old ≡ Some [] }
    ensures { result ≡ 0 → O.taken output.new ≡ Some (codes "datagram 1: Read\n") }
{
    datagrams_on(alloc, port, 1, directory, output, faults)
}

/// A datagram that is no call changes no row and has no reply, so that none fails to be sent: its line says so, unless
/// it could not be received.
pub fn says_that_there_is_no_reply<P: DatagramPort, S: BuildHasher, O: Sink, F: Sink>(
    alloc: Global,
    port: &mut P,
    directory: &mut Directory<S>,
    output: &mut O,
    faults: &mut F,
) -> u8
    requires fresh { O.taken output.old ≡ Some [] }
    requires no_call { P.left port.old ≡ Some ([] ∷ []) }
    ensures { result ≡ 0 → (O.taken output.new ≡ Some (codes "datagram 1: no reply\n"))
        ⊎ (O.taken output.new ≡ Some (codes "datagram 1: Read\n")) }
{
    five_cases();
    datagrams_on(alloc, port, 1, directory, output, faults)
}

/// Where an answer by datagram is printed, the one datagram that went out is DUMP of version 4 with xid 1 and no
/// credentials.
pub fn asks_by_one_datagram<P: DatagramPort, O: Sink, F: Sink>(
    alloc: Global,
    port: &mut P,
    output: &mut O,
    faults: &mut F,
) -> u8
    requires fresh { P.sent port.old ≡ Some [] }
    ensures { result ≤ 1 → P.sent port.new ≡ Some ((0 ∷ 0 ∷ 0 ∷ 1 ∷ 0 ∷ 0 ∷ 0 ∷ 0
        ∷ 0 ∷ 0 ∷ 0 ∷ 2 ∷ 0 ∷ 1 ∷ 134 ∷ 160 ∷ 0 ∷ 0 ∷ 0 ∷ 4 ∷ 0 ∷ 0 ∷ 0 ∷ 4
        ∷ 0 ∷ 0 ∷ 0 ∷ 0 ∷ 0 ∷ 0 ∷ 0 ∷ 0 ∷ 0 ∷ 0 ∷ 0 ∷ 0 ∷ 0 ∷ 0 ∷ 0 ∷ 0 ∷ []) ∷ []) }
{
    info_datagram(alloc, port, output, faults, 4)
}

/// Where no datagram comes no answer is printed.
pub fn prints_nothing_without_a_datagram<P: DatagramPort, O: Sink, F: Sink>(
    alloc: Global,
    port: &mut P,
    output: &mut O,
    faults: &mut F,
    vers: u32,
) -> u8
    requires none_left { P.left port.old ≡ Some [] }
    ensures no_rows { result ≢ 0 }
    ensures no_refusal { result ≢ 1 }
{
    info_datagram(alloc, port, output, faults, vers)
}
