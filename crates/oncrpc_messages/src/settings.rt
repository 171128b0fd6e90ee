//! How messages are read and printed.
use crate::form::Form;
use crate::heads::Heads;
use crate::show::Show;
use xdr_lang::Declared;
use xdr_types::Limits;

/// What is declared, the types of heads, the limits on each value, how messages are printed, and how much of them.
#[derive(Clone, Copy)]
pub struct Settings<'a> {
    /// The programs, and the kinds of their arguments and results.
    pub declared: &'a Declared,
    /// The types of the head of a message and of AUTH_SYS.
    pub heads: &'a Heads,
    /// The limits on each argument and result, and on a head.
    pub limits: Limits,
    /// How messages are printed.
    pub form: Form,
    /// Whether nothing is printed of arguments and results that are values.
    pub brief: bool,
}

/// How a message is read, and whether its text is made.
#[derive(Clone, Copy)]
pub struct Reading<'r, 's> {
    pub settings: &'r Settings<'s>,
    pub show: Show,
}
