//! Whether the text is shown where a section of `#if` is open.
ghost use Rattle.std.specs.Prelude.{◌≡◌};
ghost use Rattle.xdr_dialect.specs.Directives.{is_shown, opened, turned, turned_if};

/// The branch of a section.
#[derive(Clone, Copy)]
pub enum Gate {
    /// No section is open.
    Outside,
    /// The condition holds: the branch is shown.
    Taken,
    /// The condition does not hold: `#else` is waited for.
    Waiting,
    /// Behind `#else`, which is shown.
    Last,
    /// Behind `#else`, which is not shown.
    Over,
    /// No branch of the section is shown from here on.
    Dead,
}

impl Gate {
    /// The text is shown.
    pub(crate) fn is_shown(self) -> bool
        ensures { result ≡ is_shown self }
    {
        match self {
            Gate::Outside | Gate::Taken | Gate::Last => true,
            Gate::Waiting | Gate::Over | Gate::Dead => false,
        }
    }

    /// Inside `#if`, whose condition holds or not.
    pub(crate) fn opened(self, holds: bool) -> Gate
        ensures { result ≡ opened self holds }
    {
        match (self.is_shown(), holds) {
            (true, true) => Gate::Taken,
            (true, false) => Gate::Waiting,
            (false, _) => Gate::Dead,
        }
    }

    /// Behind `#else`, where one may stand.
    pub(crate) fn turned(self) -> Option<Gate>
        ensures { result ≡ turned self }
    {
        match self {
            Gate::Taken | Gate::Dead => Some(Gate::Over),
            Gate::Waiting => Some(Gate::Last),
            Gate::Outside | Gate::Last | Gate::Over => None,
        }
    }

    /// Behind `#elif`, whose condition holds or not, where one may stand.
    pub(crate) fn turned_if(self, holds: Option<bool>) -> Option<Gate>
        ensures { result ≡ turned_if self holds }
    {
        match (self, holds) {
            (Gate::Taken | Gate::Dead, _) => Some(Gate::Dead),
            (Gate::Waiting, Some(true)) => Some(Gate::Taken),
            (Gate::Waiting, Some(false)) => Some(Gate::Waiting),
            (Gate::Waiting, None) | (Gate::Outside | Gate::Last | Gate::Over, _) => None,
        }
    }
}
