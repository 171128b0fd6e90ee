//! What the words of `messages` ask for.
use crate::style::Style;
use oncrpc_answers::Texts;
use std::alloc::Global;
use xdr_lang::Declared;

/// Messages to be read from the input.
#[derive(PartialEq, Eq, Drop)]
pub struct MessagesTask {
    /// The texts that declare programs.
    pub types: Texts,
    /// The file with the other direction, where it is given.
    pub replies: Option<String>,
    /// How they are printed.
    pub style: Style,
}

/// What is at hand beside the words.
#[derive(Clone, Copy)]
pub struct Known<'a> {
    pub alloc: Global,
    /// What texts declare that are each read by itself.
    pub texts: &'a [Declared],
}
