//! Calls by datagrams.
ghost use Rattle.std.specs.Prelude.{◌≡◌, ◌≢◌, ◌≤◌, ◌<◌, ℕ, List, [], ◌∷◌, ◌++◌, Some, Err, IfOk, length, replicate};
ghost use Rattle.std.specs.List.{AllByRecursion};
ghost use Rattle.rpc_message.specs.Spelling.{call as call_bytes};
ghost use Rattle.rpc_message.specs.View.{call_view};
ghost use Rattle.oncrpc_call.specs.Asked.{CanBeMade};
ghost use Rattle.oncrpc_call.specs.Datagrams.{IsOther, most_passed};
ghost use Rattle.rpc_engine.specs.Ports.{Receives};
ghost use Rattle.rpc_engine.specs.declared.fault.ClientFault.TheVariants as faults;

use oncrpc_call::{Asked, ask_by_datagrams, call_datagram};
use rpc_engine::{ClientFault, DatagramPort};
use rpc_message::{Call, Reply};
use std::alloc::Global;
use xdr_io::Sink;

/// Where no datagram comes there is no result, and no line of a reply.
pub fn answers_to_no_datagram<P: DatagramPort, O: Sink, F: Sink>(
    alloc: Global,
    asked: &Asked,
    port: &mut P,
    output: &mut O,
    faults: &mut F,
) -> u8
    requires made { CanBeMade asked.now }
    requires none_left { P.left port.old ≡ Some [] }
    ensures no_result { result ≢ 0 }
    ensures no_refusal { result ≢ 1 }
{
    call_datagram(alloc, asked, 3, port, output, faults)
}

/// Nor is there where one comes that begins with another xid, whatever follows in it.
pub fn answers_to_no_other_call<P: DatagramPort, O: Sink, F: Sink>(
    alloc: Global,
    asked: &Asked,
    port: &mut P,
    output: &mut O,
    faults: &mut F,
) -> u8
    requires made { CanBeMade asked.now }
    requires other { (message : List ℕ) × IsOther asked.now.call.xid message × (P.left port.old ≡ Some (message ∷ [])) }
    ensures no_result { result ≢ 0 }
    ensures no_refusal { result ≢ 1 }
{
    call_datagram(alloc, asked, 3, port, output, faults)
}

/// Where a result is printed the call was sent, at least once and at most three times, and nothing else was.
pub fn sends_the_call<P: DatagramPort, O: Sink, F: Sink>(
    alloc: Global,
    asked: &Asked,
    port: &mut P,
    output: &mut O,
    faults: &mut F,
) -> u8
    requires made { CanBeMade asked.now }
    requires fresh { P.sent port.old ≡ Some [] }
    ensures { result ≡ 0 → (times : ℕ) × (1 ≤ times) × (times ≤ 3)
        × (P.sent port.new ≡ Some (replicate times (call_bytes (call_view asked.now.call)))) }
{
    call_datagram(alloc, asked, 3, port, output, faults)
}

/// Each sending has its own count of what is passed over. Where fewer datagrams come after each than are passed over at
/// most, there are never too many, however many come after all ten together.
pub fn counts_for_each_sending<P: DatagramPort>(
    alloc: Global,
    port: &mut P,
    call: &Call,
) -> Result<Reply, ClientFault>
    requires cred { length call.now.cred.body.items ≤ 400 }
    requires verf { length call.now.verf.body.items ≤ 400 }
    requires fresh { P.sent port.old ≡ Some [] }
    requires few { (behind new : P) (times : ℕ) (received : List (List ℕ))
        → P.sent behind ≡ Some (replicate times (call_bytes (call_view call.now))) → P.sent new ≡ P.sent behind
        → Receives (P.left behind) (P.left new) received → length received < most_passed }
    ensures { result ≢ Err faults.TooManyReads }
{
    ask_by_datagrams(alloc, port, call, 10)
}

/// What was not passed over after one sending is not kept for a later one. Where nothing comes before the tenth, and
/// then one datagram more of other calls than are passed over after each, there is no reply.
pub fn keeps_no_count_for_later<P: DatagramPort>(
    alloc: Global,
    port: &mut P,
    call: &Call,
) -> Result<Reply, ClientFault>
    requires cred { length call.now.cred.body.items ≤ 400 }
    requires verf { length call.now.verf.body.items ≤ 400 }
    requires fresh { P.sent port.old ≡ Some [] }
    requires late { (before : P) (times : ℕ) → times ≤ 9
        → P.sent before ≡ Some (replicate times (call_bytes (call_view call.now))) → P.left before ≡ P.left port.old }
    requires others { (ds rest : List (List ℕ)) × (P.left port.old ≡ Some (ds ++ rest))
        × AllByRecursion (IsOther call.now.xid) ds × (most_passed < length ds) }
    ensures { IfOk result (λ _. ⊥) }
{
    ask_by_datagrams(alloc, port, call, 10)
}
