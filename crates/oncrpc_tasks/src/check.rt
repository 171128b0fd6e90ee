//! Reads one value, and prints what the input holds, and the value's lines where they are asked for.
ghost use Rattle.std.specs.Prelude.{◌≡◌, ℕ, ◌<◌, [], true, Option, List, length, IfOk, IfErr, OnOk};
ghost use Rattle.oncrpc_tasks.specs.Checked.{Says, is_said, printed_in};
ghost use Rattle.oncrpc_tasks.specs.Ends.{ValueEnds};
ghost use Rattle.xdr_types.specs.Tree.{Tree};
ghost use Rattle.xdr_parts.specs.Coming.{IsOneValue};
ghost use Rattle.oncrpc_tasks.specs.Input.{InputGives};
ghost use Rattle.oncrpc_tasks.specs.Private.Judged.{Shows, keeps_of, unshown};
ghost use Rattle.oncrpc_tasks.specs.Private.Printed.{Prints};
ghost use Rattle.oncrpc_tasks.specs.Private.Reading.{EndsReading, ReadsInput};
ghost use Rattle.oncrpc_answers.specs.Lines.{line};
ghost use Rattle.oncrpc_tasks.specs.Right.{IsKnown, IsRight, IsRightFor, asked_of, shown_in};

use super::given::{Given, given_over};
use super::judge::{judge_bytes, judge_over, keeps};
use super::question::{Form, Question};
use oncrpc_answers::{Answer, Failure, line_of, report, status_of};
use std::alloc::{AllocError, Global};
use xdr_io::{Sink, Source, write_whole};
use xdr_json::json_of_bytes;
use xdr_show::show_whole;
use xdr_types::{KindId, Limits, Schema};

/// Checks that the input begins with a value of the kind (RFC 4506), and prints one line. With status 0 it is `ok N`,
/// or `ok N, more follows` where at least one more byte can be read. With status 1 it is `refused WHY at N`, of the
/// reason and at the place that the outcome of decoding has. With `hex` the input is a text of hexadecimal, and
/// `refused bad hex` or `refused hex too long` may come, status 1. A device that fails or too many reads are status 3,
/// an allocation failure is status 4, and then `faults` gets the line. The schema must have the kind.
///
/// The input is judged as it is read, by pages of 4096 bytes, and no value is built. Reading stops at a refusal,
/// so that a read that would fail after it is not met; after a value it goes on until one more byte or the end is
/// seen. With `hex` all of the input is read first.
pub fn check_over<I: Source, O: Sink, F: Sink>(
    alloc: Global,
    input: &mut I,
    output: &mut O,
    faults: &mut F,
    schema: &Schema,
    kind: KindId,
    limits: Limits,
    hex: bool,
) -> u8
    requires { kind.place < length schema.now.kinds }
    ensures { ValueEnds
        (record { kinds = schema.now.kinds; place = kind.place; limits = limits; form = Form.Outcome }) hex
        (record { left = I.left; reads = I.reads; failures = I.failures; taken = O.taken; lost = O.failures })
        (record { taken = F.taken; lost = F.failures })
        input.old input.new output.old output.new faults.old faults.new result }
{
    let question = Question {
        schema,
        kind,
        limits,
        hex,
        form: Form::Outcome,
    };
    answer_over(alloc, &question, input, output, faults)
}

/// The same, and where the input begins with a value of the kind, the value's lines are printed before the line of
/// its outcome. Nothing is printed before the outcome is known. The schema must have the kind.
///
/// What is read is retained, as far as reading goes, and the lines are printed from its parts: no value is made.
pub fn show_over<I: Source, O: Sink, F: Sink>(
    alloc: Global,
    input: &mut I,
    output: &mut O,
    faults: &mut F,
    schema: &Schema,
    kind: KindId,
    limits: Limits,
    hex: bool,
) -> u8
    requires { kind.place < length schema.now.kinds }
    ensures { ValueEnds
        (record { kinds = schema.now.kinds; place = kind.place; limits = limits; form = Form.Lines }) hex
        (record { left = I.left; reads = I.reads; failures = I.failures; taken = O.taken; lost = O.failures })
        (record { taken = F.taken; lost = F.failures })
        input.old input.new output.old output.new faults.old faults.new result }
{
    let question = Question {
        schema,
        kind,
        limits,
        hex,
        form: Form::Lines,
    };
    answer_over(alloc, &question, input, output, faults)
}

/// Answers the question, and gives the exit status: as `check_over` does and, with the value's lines, `show_over`. As
/// JSON the value alone is printed, and a line feed. The line of an outcome other than `ok N` then goes to `faults`,
/// where that can be done. The question's kind must be one of its schema.
///
/// JSON takes stack for each level of the value (`xdr_json::json_of_bytes`).
#[tactic(auto, using(crate::proofs::Failed::cut_by))]
pub fn answer_over<I: Source, O: Sink, F: Sink>(
    alloc: Global,
    question: &Question,
    input: &mut I,
    output: &mut O,
    faults: &mut F,
) -> u8
    requires { IsKnown question.now }
    ensures { ValueEnds (asked_of question.now) question.now.hex
        (record { left = I.left; reads = I.reads; failures = I.failures; taken = O.taken; lost = O.failures })
        (record { taken = F.taken; lost = F.failures })
        input.old input.new output.old output.new faults.old faults.new result }
{
    let (answer, shown) = match answer_to(alloc, question, input) {
        Ok(answered) => answered,
        Err(failure) => return report(failure, faults),
    };
    match print_answer(alloc, question.form, answer, shown, output, faults) {
        Ok(()) => status_of(answer),
        Err(failure) => report(failure, faults),
    }
}

// What is shown and the line of the answer go out as one piece; of JSON that line goes to `faults`, if it goes at all.
fn print_answer<O: Sink, F: Sink>(
    alloc: Global,
    form: Form,
    answer: Answer,
    shown: Vec<u8>,
    output: &mut O,
    faults: &mut F,
) -> Result<(), Failure>
    ensures prints { Prints O.taken O.failures output.old output.new (printed_in form shown.items answer) result }
    ensures says { OnOk result
        (Says form (record { taken = F.taken; lost = F.failures }) faults.old faults.new answer) }
{
    let said = line_of(alloc, answer)?;
    let text = printed_of(form, answer, shown, &said)?;
    write_whole(output, &text)?;
    say(form, answer, &said, faults);
    Ok(())
}

// What is printed of what is shown and of the line of its answer.
fn printed_of(form: Form, answer: Answer, shown: Vec<u8>, said: &str) -> Result<Vec<u8>, AllocError>
    requires { said.now ≡ line answer }
    ensures { IfOk result (λ text. text.items ≡ printed_in form shown.items answer) }
{
    match form {
        Form::Outcome | Form::Lines => {
            let mut text = shown;
            text.extend_from_slice(said.as_bytes())?;
            Ok(text)
        }
        Form::Json(_) => Ok(shown),
    }
}

// Whether the line of an answer stands on the stream of faults.
fn is_said(form: Form, answer: Answer) -> bool
    ensures { result ≡ is_said form answer }
{
    match form {
        Form::Outcome | Form::Lines => false,
        Form::Json(_) => match answer {
            Answer::Whole { .. } => false,
            Answer::MoreFollows { .. } | Answer::Refused(_) => true,
            Answer::BadHex | Answer::HexTooLong => true,
        },
    }
}

// Says the line of an answer on the stream of faults, where it stands there and where that can be done.
fn say<F: Sink>(form: Form, answer: Answer, said: &str, faults: &mut F)
    requires { said.now ≡ line answer }
    ensures { Says form (record { taken = F.taken; lost = F.failures }) faults.old faults.new answer }
{
    if !is_said(form, answer) {
        return;
    }
    let _ = write_whole(faults, said.as_bytes());
}

// The answer, and what is shown before its line. Hexadecimal is read to its end first; what is read as it is is judged
// as it is read.
fn answer_to<I: Source>(
    alloc: Global,
    question: &Question,
    input: &mut I,
) -> Result<(Answer, Vec<u8>), Failure>
    requires { IsKnown question.now }
    ensures right { IfOk result (λ r.
        IsRightFor (asked_of question.now) question.now.hex (I.left input.old) r.0 r.1.items) }
    ensures ends { EndsReading (asked_of question.now) question.now.hex (I.left input.old) (I.left input.new)
        (I.reads input.old) (I.reads input.new) (I.failures input.old) (I.failures input.new) result }
    ensures reads { ReadsInput (asked_of question.now) question.now.hex (I.left input.old) (I.left input.new)
        (I.reads input.old) (I.reads input.new) }
{
    if question.hex {
        let given = given_over(alloc, input)?;
        answer_given(alloc, question, &given)
    } else {
        let (answer, bytes) = judge_over(alloc, question, input)?;
        let shown = shown_of(alloc, question, answer, &bytes)?;
        Ok((answer, shown))
    }
}

fn answer_given(
    alloc: Global,
    question: &Question,
    given: &Given,
) -> Result<(Answer, Vec<u8>), Failure>
    requires { IsKnown question.now }
    ensures right { IfOk result (λ r. (reported : Option (List ℕ)) → InputGives reported given.now
        → IsRightFor (asked_of question.now) true reported r.0 r.1.items) }
    ensures memory { IfErr result (λ f. f ≡ Failure.NoMemory) }
{
    match given {
        Given::Bytes(bytes) => {
            let answer = judge_bytes(alloc, question, bytes)?;
            let shown = shown_of(alloc, question, answer, bytes)?;
            Ok((answer, shown))
        }
        Given::BadHex => Ok((Answer::BadHex, Vec::new(alloc))),
        Given::HexTooLong => Ok((Answer::HexTooLong, Vec::new(alloc))),
    }
}

// What is shown of the bytes, whose answer this is: the value, where there is one and it is asked for.
fn shown_of(
    alloc: Global,
    question: &Question,
    answer: Answer,
    bytes: &[u8],
) -> Result<Vec<u8>, Failure>
    requires known { IsKnown question.now }
    requires right { keeps_of question.now.form ≡ true → IsRight (unshown (asked_of question.now)) bytes.now answer [] }
    ensures right { IfOk result (λ text. Shows (asked_of question.now) bytes.now answer text.items) }
    ensures memory { IfErr result (λ f. f ≡ Failure.NoMemory) }
{
    if !keeps(question.form) {
        return Ok(Vec::new(alloc));
    }
    match answer {
        Answer::Whole { .. } => value_shown(alloc, question, bytes),
        Answer::MoreFollows { used } => value_shown(alloc, question, &bytes[..used]),
        Answer::Refused(_) | Answer::BadHex | Answer::HexTooLong => Ok(Vec::new(alloc)),
    }
}

// What is shown of the value whose encoding these bytes are, all of them.
fn value_shown(alloc: Global, question: &Question, bytes: &[u8]) -> Result<Vec<u8>, Failure>
    requires whole { (v : Tree) × IsOneValue question.now.schema.now.kinds question.now.kind.place question.now.limits
        bytes.now v }
    ensures shown { IfOk result (λ text. (v : Tree) → IsOneValue question.now.schema.now.kinds question.now.kind.place
        question.now.limits bytes.now v
        → text.items ≡ shown_in question.now.form question.now.schema.now.kinds question.now.kind.place v) }
    ensures memory { IfErr result (λ f. f ≡ Failure.NoMemory) }
{
    let Question {
        schema,
        kind,
        limits,
        form,
        ..
    } = *question;
    match form {
        Form::Outcome => Ok(Vec::new(alloc)),
        Form::Lines => Ok(show_whole(alloc, schema, kind, limits, bytes)?),
        Form::Json(layout) => {
            let mut text = json_of_bytes(alloc, schema, kind, limits, bytes, layout)?;
            text.extend_from_slice(b"\n")?;
            Ok(text)
        }
    }
}
