//! What comes at a place.

/// So many places, one after another, of which each has a byte that is held, or none has.
#[derive(Clone, Copy)]
pub(crate) enum Stretch {
    Gap(usize),
    Held(usize),
}
