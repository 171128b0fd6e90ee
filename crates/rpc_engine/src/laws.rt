//! Laws of the definitions that the contracts name. No call of them does anything.
ghost use Rattle.rpc_engine.specs.Laws.{RunsJoin, OneOutcome, SomeOutcome, OutcomesStay, OneCase, SomeCase};

use rpc_message::reply_bytes_are_exact;
use rpc_record::{no_record_begins_another, too_long_ends_the_stream};

/// Two runs of the registry, one after the other, are one: how a stream is cut does not matter.
pub fn runs_join()
    ensures { RunsJoin }
{}

/// Each input has one of the five cases of an exchange, and keeps it however it goes on, where it has not ended.
pub fn exchanges_have_one_outcome()
    // No input has two of them,
    ensures exclusive { OneOutcome }
    // none has none,
    ensures covering { SomeOutcome }
    // and what follows changes nothing.
    ensures stays { OutcomesStay }
{
    // The laws below, for the proof: a reply has one spelling, and an input one first record or one header too long.
    reply_bytes_are_exact();
    no_record_begins_another();
    too_long_ends_the_stream();
}

/// Each message has one of the three cases of a reply over datagrams: so an answer that names one comes exactly where
/// the datagram has it.
pub fn messages_have_one_case()
    // No message has two of them,
    ensures exclusive { OneCase }
    // and none has none.
    ensures covering { SomeCase }
{
    // The law, for the proof: a reply has one spelling.
    reply_bytes_are_exact();
}
