//! Answers about rows, and how C sees them.
ghost use Rattle.std.specs.Prelude.{◌≡◌};
ghost use Rattle.c_registry.specs.Listed.{listed_status, listed_counts};

/// How many rows there are, and how many bytes their texts have. Both are 0 where a status does not speak of them.
#[repr(C)]
#[derive(Clone, Copy)]
pub struct RowCounts {
    pub rows: usize,
    pub bytes: usize,
}

/// What a call for rows answers.
#[derive(Clone, Copy)]
pub enum Listed {
    /// So many rows and bytes were written.
    Whole(RowCounts),
    /// Memory was refused.
    NoMemory,
    /// A buffer has fewer rows or bytes than this.
    NoRoom(RowCounts),
    /// The handle holds no registry.
    NoRegistry,
}

impl Listed {
    /// The number that C sees.
    pub fn status(&self) -> u32
        ensures { result ≡ listed_status self.now }
    {
        match self {
            Listed::Whole(_) => 0,
            Listed::NoMemory => 6,
            Listed::NoRoom(_) => 8,
            Listed::NoRegistry => 18,
        }
    }

    /// What C sees beside it.
    pub fn counts(&self) -> RowCounts
        ensures { result ≡ listed_counts self.now }
    {
        match self {
            Listed::Whole(counts) | Listed::NoRoom(counts) => *counts,
            _ => RowCounts { rows: 0, bytes: 0 },
        }
    }
}
