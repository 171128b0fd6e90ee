//! All arrays and objects that are open.
use crate::tape::Node;
use crate::tape_frames::Open;
use std::vec::Vec;

/// The arrays and objects that are open: the innermost one, and those around it, the outermost first.
#[derive(Drop)]
pub struct Frames<'a> {
    pub top: Open<'a>,
    pub outer: Vec<Open<'a>>,
}

/// What a step leads to: the whole value, or what is open then.
#[derive(Drop)]
pub enum Step<'a> {
    Done(Node<'a>),
    On(Frames<'a>),
}
