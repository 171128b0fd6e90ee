//! Where connections come from.
ghost use Rattle.std.specs.Prelude.{◌≡◌, ℕ, List, Option, None, IfOk, OnErr};
ghost use Rattle.xdr_io.specs.Reported.{Counts};
ghost use Rattle.rpc_engine.specs.Ports.{failures_of};
ghost use Rattle.oncrpc_service.specs.Listening.{Arrives, IsFresh, Leaves};

use thiserror::Error;
use xdr_io::{Sink, Source};

/// No connection could be accepted, for whatever reason.
#[derive(Clone, Copy, Debug, PartialEq, Eq, Error)]
#[error("no connection")]
pub struct AcceptFault;

/// Waits for clients at a port, and hands out their connections, one after another.
pub trait Listener {
    /// What a client sends.
    type Reader: Source + Drop;

    /// What goes to a client.
    type Writer: Sink + Drop;

    /// The port at which clients are waited for.
    ghost port_of: { Self → ℕ };

    /// What the clients that still come send, each all of it, where that is reported.
    ghost waiting: { Self → Option (List (List ℕ)) } = { λ _. None };

    /// What went to the clients whose connections have ended, to each all of it, where that is reported.
    ghost sent: { Self → Option (List (List ℕ)) } = { λ _. None };

    /// How many times no connection could be accepted, where that is reported.
    ghost failures: { Self → Option ℕ } = { λ _. None };

    /// The port at which clients are waited for.
    fn port(&self) -> u16
        ensures { result ≡ port_of self.now };

    /// Waits for the next client, and hands its connection out. A fault hands none out.
    fn accept(&mut self) -> Result<(Self::Reader, Self::Writer), AcceptFault>
        // The next client's connection is handed out,
        ensures arrived { IfOk result (λ c. Arrives (waiting self.old) (waiting self.new) (Self.Reader.left c.0)) }
        // and nothing went to that client yet;
        ensures fresh { IfOk result (λ c. IsFresh (sent self.old) (Self.Writer.taken c.1)) }
        // or none is, and none is lost.
        ensures none_came { OnErr result (waiting self.new ≡ waiting self.old) }
        // A fault is one failure.
        ensures failed { Counts (failures_of result) (failures self.old) (failures self.new) }
        // No connection ends, and the port stays.
        ensures same { (sent self.new ≡ sent self.old) × (port_of self.new ≡ port_of self.old) };

    /// Ends a connection that was handed out: all that goes to its client is what its writer took.
    fn close(&mut self, reader: Self::Reader, writer: Self::Writer)
        // What its writer took is all that went to the client.
        ensures sent { Leaves (sent self.old) (sent self.new) (Self.Writer.taken writer) }
        // The clients that still come, the failures and the port stay.
        ensures waiting { waiting self.new ≡ waiting self.old }
        ensures failures { failures self.new ≡ failures self.old }
        ensures port { port_of self.new ≡ port_of self.old };
}
