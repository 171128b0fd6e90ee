//! What a call tells C beside its status.
ghost use Rattle.std.specs.Prelude.{◌≡◌};
ghost use Rattle.c_answers.specs.Outcomes.{only_at};

/// What a call found: the `oncrpc_outcome` of the header. Each field that a status does not speak of is 0.
#[repr(C)]
#[derive(Clone, Copy)]
pub struct Outcome {
    /// How many bytes a value, a record or a reply has, were taken or are needed; or the place of a refusal, which is
    /// the count of bytes before it.
    pub at: usize,
    /// The line of a declaration that is refused, from 1.
    pub line: usize,
    /// Its column in bytes, from 1.
    pub column: usize,
    /// The number of the reason for a refusal, or of the fault of a text.
    pub why: u32,
    /// The number of a schema's fault, with fault 10 of a text.
    pub inner: u32,
}

impl Outcome {
    /// A count or a place, and nothing else.
    pub fn only_at(at: usize) -> Outcome
        ensures { result ≡ only_at at }
    {
        Outcome {
            at,
            line: 0,
            column: 0,
            why: 0,
            inner: 0,
        }
    }
}
