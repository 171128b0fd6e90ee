//! A text as a tree: the values that are open lie in a list, so that no call recurses.
ghost use Rattle.std.specs.Prelude.{◌≡◌, ◌⊎◌, ◌<◌, ◌≤◌, suc, List, length, Some, None, IfOk, IfErr, OnOk};
ghost use Rattle.std.specs.Prelude.{MatchResult};
ghost use Rattle.json.specs.Json.{value, if_last};
ghost use Rattle.json.specs.Token.{Token};
ghost use Rattle.xdr_json_reader.specs.Private.Begun.{Goes};
ghost use Rattle.xdr_json.specs.Text.{json_text};
ghost use Rattle.xdr_json_reader.specs.Reasons.{nested_text};
ghost use Rattle.xdr_json_reader.specs.Tape.{json_in};
ghost use Rattle.xdr_json_reader.specs.Private.Steps.{AreFew, Deep, Steps, NoneRead, Closes, Opens, Puts};
ghost use Rattle.xdr_json_reader.specs.Private.Frames.{made, frame_of};
ghost use Rattle.xdr_json_reader.specs.declared.fault.JsonReason.TheVariants.{NoMemory, TooDeep};

use crate::fault::{JsonFault, JsonReason};
use crate::tape::{Key, Node};
use crate::tape_frames::{Begun, Open, add, begin, child, close};
use crate::tape_stack::{Frames, Step};
use json::{Reader, Scratch};
use std::alloc::Global;

/// The JSON value that the text is (RFC 8259), nested at most 4096 deep.
pub fn read_tree<'a>(
    alloc: Global,
    text: &'a str,
    scratch: &'a mut Scratch,
) -> Result<Node<'a>, JsonFault>
    ensures ok { IfOk result (λ n. json_text text.now ≡ Some (json_in n)) }
    ensures refused { IfErr result (λ f. NoneRead f.why (λ d. nested_text (suc d) text.now ≡ None)) }
    ensures place { IfErr result (λ f. f.at ≤ length text.now) }
{
    let Ok(mut reader) = Reader::new(text, scratch) else {
        return Err(JsonFault {
            why: JsonReason::NoMemory,
            at: 0,
        });
    };
    match read_value(alloc, &mut reader) {
        Ok(node) => {
            let at = reader.offset().min(text.len());
            if reader.next().is_some() {
                return Err(JsonFault {
                    why: JsonReason::NotJson,
                    at,
                });
            }
            Ok(node)
        }
        Err(fault) => {
            let at = fault.at.min(text.len());
            Err(JsonFault { why: fault.why, at })
        }
    }
}

/// The value that begins with the next token. Values nest at most 4096 deep.
pub fn read_value<'a>(alloc: Global, reader: &mut Reader<'a>) -> Result<Node<'a>, JsonFault>
    ensures ok { IfOk result (λ n. Deep (λ d. value (suc d) reader.old ≡ Some (json_in n, reader.new))) }
    ensures refused { IfErr result (λ f. NoneRead f.why (λ d. value (suc d) reader.old ≡ None)) }
{
    let key = Key { name: "", at: 0 };
    let mut frames = match begin(alloc, reader, key) {
        Ok(Begun::Whole(node)) => return Ok(node),
        Ok(Begun::Opened(top)) => {
            let outer = Vec::new(alloc);
            Frames { top, outer }
        }
        Err(fault) => return Err(JsonFault {
            why: JsonReason::NotJson,
            at: fault.at,
        }),
    };
    loop {
        match go_on(alloc, reader, frames) {
            Ok(Step::Done(node)) => return Ok(node),
            Ok(Step::On(next)) => frames = next,
            Err(fault) => return Err(fault),
        }
    }
}

// Takes the next value in what is open, or the bracket that closes it.
fn go_on<'a>(
    alloc: Global,
    reader: &mut Reader<'a>,
    frames: Frames<'a>,
) -> Result<Step<'a>, JsonFault>
    requires { AreFew frames }
    ensures value { MatchResult result (λ s. Steps frames.entry reader.old s reader.new)
        (λ f. NoneRead f.why (λ d. made d frames.entry reader.old ≡ None)) }
    ensures shorter { OnOk result (length reader.new < length reader.old) }
{
    match child(alloc, reader, &frames.top) {
        Ok(None) => step_out(frames),
        Ok(Some((key, begun))) => take(frames, key, begun),
        Err(fault) => Err(JsonFault {
            why: JsonReason::NotJson,
            at: fault.at,
        }),
    }
}

// One more value begins in what is open.
fn take<'a>(frames: Frames<'a>, key: Key<'a>, begun: Begun<'a>) -> Result<Step<'a>, JsonFault>
    requires { AreFew frames }
    ensures { (old new : List Token) → Goes (frame_of frames.entry.top) key.entry.name.now old begun.entry new
        → MatchResult result (λ s. Steps frames.entry old s new)
        (λ f. NoneRead f.why (λ d. made d frames.entry old ≡ None)) }
{
    match begun {
        Begun::Whole(node) => step_over(frames, key, node),
        Begun::Opened(inside) => step_in(frames, key.at, inside),
    }
}

// A whole value stands in what is open.
fn step_over<'a>(frames: Frames<'a>, key: Key<'a>, node: Node<'a>) -> Result<Step<'a>, JsonFault>
    requires { AreFew frames }
    ensures { MatchResult result (λ s. Puts frames.entry key.entry.name.now node.entry s) (λ f. f.why ≡ NoMemory) }
{
    let Frames { mut top, outer } = frames;
    match add(&mut top, key, node) {
        Ok(()) => Ok(Step::On(Frames { top, outer })),
        Err(_) => Err(JsonFault {
            why: JsonReason::NoMemory,
            at: 0,
        }),
    }
}

// What is open ends.
fn step_out<'a>(frames: Frames<'a>) -> Result<Step<'a>, JsonFault>
    requires { AreFew frames }
    ensures { MatchResult result (λ s. Closes frames.entry s) (λ f. f.why ≡ NoMemory) }
{
    let Frames { top, mut outer } = frames;
    let (key, node) = close(top);
    match outer.pop() {
        None => Ok(Step::Done(node)),
        Some(mut parent) => match add(&mut parent, key, node) {
            Ok(()) => Ok(Step::On(Frames { top: parent, outer })),
            Err(_) => Err(JsonFault {
                why: JsonReason::NoMemory,
                at: 0,
            }),
        },
    }
}

// An array or an object begins in what is open.
fn step_in<'a>(frames: Frames<'a>, at: usize, inside: Open<'a>) -> Result<Step<'a>, JsonFault>
    requires { AreFew frames }
    ensures { MatchResult result (λ s. Opens frames.entry inside.entry s)
        (λ f. (f.why ≡ NoMemory) ⊎ ((f.why ≡ TooDeep) × (length frames.entry.outer.items ≡ 4095))) }
{
    let Frames { top, mut outer } = frames;
    if outer.len() == 4095 {
        return Err(JsonFault {
            why: JsonReason::TooDeep,
            at,
        });
    }
    match outer.push(top) {
        Ok(()) => Ok(Step::On(Frames { top: inside, outer })),
        Err(_) => Err(JsonFault {
            why: JsonReason::NoMemory,
            at: 0,
        }),
    }
}
