//! Answers of a cursor, and how C sees them.
ghost use Rattle.std.specs.Prelude.{◌≡◌};
ghost use Rattle.c_cursors.specs.Given.{given_status};

/// What a call of a cursor answers.
#[derive(Clone, Copy)]
pub enum Given {
    /// It is done: a part is given, or parts are passed over.
    Done,
    /// Memory was refused.
    NoMemory,
    /// No declarations were read.
    NoDeclarations,
    /// The buffer is too small for the name of the next part, which still comes next.
    NoRoom,
    /// No part is left.
    NoPart,
    /// The handle holds no cursor.
    NoCursor,
    /// The declarations or the input are not those of the start.
    Astray,
}

impl Given {
    /// The number that C sees.
    pub fn status(&self) -> u32
        ensures { result ≡ given_status self.now }
    {
        match self {
            Given::Done => 0,
            Given::NoMemory => 6,
            Given::NoDeclarations => 7,
            Given::NoRoom => 8,
            Given::NoPart => 34,
            Given::NoCursor => 35,
            Given::Astray => 36,
        }
    }
}
