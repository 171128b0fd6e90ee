//! The bytes of arguments that are spelled in JSON: of one value, or of the items of an array.
use crate::unmade::{Unmade, line, unasked_line};
use oncrpc_answers::Failure;
use oncrpc_call::Unasked;
use oncrpc_encode::{
    Arguments, Encoded, Refusal, arguments_over, encoded_over, has_each, refusal_line,
};
use oncrpc_tasks::Target;
use oncrpc_words::CallTask;
use std::alloc::Global;
use xdr_io::{FromRead, MemorySource};
use xdr_lang::Declared;
use xdr_types::{KindId, Limits, Schema};

/// The bytes of the arguments: none of a procedure without any, those of one value that is given as JSON, or those of
/// the items of an array. What is declared is handed back.
pub fn arguments_for(
    rt: &HostRuntime,
    what: &CallTask,
    declared: Declared,
    kinds: &[KindId],
    limits: Limits,
) -> Result<(Declared, Vec<u8>), Unmade> {
    let alloc = rt.alloc();
    let Some(first) = kinds.first() else {
        return match &what.arguments {
            Some(_) => Err(line(alloc, "the procedure has no arguments\n")),
            None => Ok((declared, Vec::new(alloc))),
        };
    };
    if kinds.len() > 1 {
        let bytes = many_arguments(rt, what, &declared.schema, kinds, limits)?;
        return Ok((declared, bytes));
    }
    let Declared {
        schema,
        constants,
        programs,
    } = declared;
    let target = Target {
        schema,
        kind: *first,
        limits,
    };
    let bytes = one_argument(rt, what, &target)?;
    let declared = Declared {
        schema: target.schema,
        constants,
        programs,
    };
    Ok((declared, bytes))
}

fn one_argument(rt: &HostRuntime, what: &CallTask, target: &Target) -> Result<Vec<u8>, Unmade> {
    let alloc = rt.alloc();
    if !target.schema.has(target.kind) {
        return Err(unasked_line(alloc, Unasked::Kind));
    }
    let encoded = match &what.arguments {
        Some(text) => {
            let mut source = MemorySource::new(text.as_bytes(), 4096, None);
            encoded_over(alloc, target, &mut source)?
        }
        None => encoded_over(alloc, target, &mut FromRead::new(rt.stdin()))?,
    };
    match encoded {
        Encoded::Bytes(bytes) => Ok(bytes),
        Encoded::Refused(refusal) => Err(refused(alloc, refusal)),
    }
}

fn many_arguments(
    rt: &HostRuntime,
    what: &CallTask,
    schema: &Schema,
    kinds: &[KindId],
    limits: Limits,
) -> Result<Vec<u8>, Unmade> {
    let alloc = rt.alloc();
    if !has_each(schema, kinds) {
        return Err(unasked_line(alloc, Unasked::Kind));
    }
    let arguments = match &what.arguments {
        Some(text) => {
            let mut source = MemorySource::new(text.as_bytes(), 4096, None);
            arguments_over(alloc, schema, kinds, limits, &mut source)?
        }
        None => arguments_over(alloc, schema, kinds, limits, &mut FromRead::new(rt.stdin()))?,
    };
    match arguments {
        Arguments::Bytes(bytes) => Ok(bytes),
        Arguments::Refused(refusal) => Err(refused(alloc, refusal)),
        Arguments::Unlisted => Err(unlisted(alloc, kinds.len())),
    }
}

fn refused(alloc: Global, refusal: Refusal) -> Unmade {
    match refusal_line(alloc, refusal) {
        Ok(line) => Unmade::Line(line),
        Err(_) => Unmade::Failed(Failure::NoMemory),
    }
}

fn unlisted(alloc: Global, count: usize) -> Unmade {
    match format!(in alloc; "the arguments are no array of {count} items\n") {
        Ok(line) => Unmade::Line(line),
        Err(_) => Unmade::Failed(Failure::NoMemory),
    }
}
