//! Numbers that are put one after another by one call.
ghost use Rattle.std.specs.Prelude.{◌≡◌, ◌≤◌, ◌<◌, ◌+◌, ◌++◌, length, take, OnOk, OnErr, Some, true};
ghost use Rattle.xdr_writer.specs.Private.Runs.{words, AreWords, IsCount, end_of};
ghost use Rattle.xdr_writer.specs.declared.item.Step.TheVariants.{More};

use crate::forms::is_word;
use crate::item::{Item, Step};
use crate::judging::judge;
use crate::refusal::{Why, WriteRefusal};
use crate::runs::{Known, Run};
use crate::units::word;
use crate::writer::Writer;
use xdr_codec::{DecodeFault, Reason};
use xdr_units::NoMemory;

/// How many numbers are judged at once, at most.
const MOST: usize = 64;

// How many of the first numbers have one unit.
fn words_in_front(signed: bool, numbers: &[i128]) -> usize
    ensures few { result ≤ length numbers.now }
    ensures words { AreWords signed (take result numbers.now) }
{
    for (at, number) in numbers.iter().enumerate() {
        if !is_word(signed, *number) {
            return at;
        }
    }
    numbers.len()
}

// Writes numbers of one unit, all of them or some.
fn push_words(signed: bool, numbers: &[i128], out: &mut Vec<u8>) -> Result<(), NoMemory>
    requires { AreWords signed numbers.now }
    ensures ok { OnOk result (out.new.items ≡ out.old.items ++ words numbers.now) }
    ensures some { OnErr result (take (length out.old.items) out.new.items ≡ out.old.items) }
{
    for number in numbers {
        out.extend_from_slice(&word(signed, *number))?;
    }
    Ok(())
}

// How many bytes come before the end of the unit with which decoding ends.
fn end_at(fault: DecodeFault) -> usize
    ensures { fault.at ≤ 16777216 → result ≡ end_of fault.why fault.at }
{
    match fault.why {
        Reason::TooDeep | Reason::TooLarge => fault.at,
        _ => fault.at.saturating_add(4),
    }
}

// How many of the numbers behind so many bytes come before the one that is refused.
fn taken_before(why: Why, written: usize, count: usize) -> usize
    requires { 1 ≤ count }
    ensures few { result < count }
    ensures right { IsCount why written count result }
{
    match why {
        Why::Refused(fault) => (end_at(fault).saturating_sub(written) / 4)
            .saturating_sub(1)
            .min(count - 1),
        _ => 0,
    }
}

// What is known behind so many numbers of those that are due.
fn behind(run: Run, step: Step, count: usize) -> Known
    requires { count ≤ run.left }
    ensures waits { result.waits ≡ true → step ≡ More }
    ensures left { result.run.left + count ≡ run.left }
    ensures signed { result.run.signed ≡ run.signed }
{
    Known {
        waits: step.is_more(),
        run: Run {
            left: run.left - count,
            signed: run.signed,
        },
    }
}

// Notes that the item behind so many is refused.
fn refuse(refused: &mut Option<WriteRefusal>, why: Why, item: usize) -> WriteRefusal
    ensures why { result.why ≡ why }
    ensures item { result.item ≡ item }
    ensures refused { refused.new ≡ Some result }
{
    let refusal = WriteRefusal { why, item };
    *refused = Some(refusal);
    refusal
}

impl<'s> Writer<'s> {
    ghost use Rattle.std.specs.Prelude.{◌≡◌, ◌≤◌, ◌<◌, ◌+◌, ℕ, List, length, IfOk, IfErr, Err, None};
    ghost use Rattle.xdr_writer.specs.Items.{NodeItem};
    ghost use Rattle.xdr_writer.specs.Represents.{RepresentsItems, HasRefused, IsSame};
    ghost use Rattle.xdr_writer.specs.Runs.{TookAll, RejectsOne};
    ghost use Rattle.xdr_writer.specs.Private.Runs.{AreWords, MayTake, TakesSome};

    // How many of so many numbers may be given at once.
    fn room(&self, count: usize) -> usize
        ensures few { result ≤ count }
        ensures may { 0 < result → MayTake self.now result }
    {
        if !self.known.waits || self.written == 0 {
            return 0;
        }
        let space = (self.limits.bytes() as usize).saturating_sub(self.written) / 4;
        count.min(space).min(self.known.run.left).min(MOST)
    }

    // Takes numbers of one unit that are due, at least one.
    fn put_words(
        &mut self,
        numbers: &[i128],
        out: &mut Vec<u8>,
    ) -> Result<(usize, Step), WriteRefusal>
        requires some { 1 ≤ length numbers.now }
        requires words { AreWords self.old.known.run.signed numbers.now }
        requires may { MayTake self.old (length numbers.now) }
        requires goes_on { self.old.refused ≡ None }
        ensures { TakesSome self.old self.new numbers.now out.old.items out.new.items result }
    {
        let _in_range = self.limits.depth();
        let count = numbers.len();
        let start = out.len();
        let run = self.known.run;
        self.known.waits = false;
        if let Err(_) = push_words(run.signed, numbers, out) {
            out.truncate(start);
            return Err(refuse(&mut self.refused, Why::NoMemory, self.count));
        }
        match judge(&mut self.checker, &out[start..]) {
            Ok(step) => {
                self.written += 4 * count;
                self.count += count;
                self.known = behind(run, step, count);
                Ok((count, step))
            }
            Err(why) => {
                let taken = taken_before(why, self.written, count);
                out.truncate(start + 4 * taken);
                Err(refuse(&mut self.refused, why, self.count + taken))
            }
        }
    }

    // Takes some of the numbers, at least the first.
    fn put_some(
        &mut self,
        numbers: &[i128],
        out: &mut Vec<u8>,
    ) -> Result<(usize, Step), WriteRefusal>
        requires { 1 ≤ length numbers.now }
        ensures { TakesSome self.old self.new numbers.now out.old.items out.new.items result }
    {
        if let Some(refusal) = self.refused {
            return Err(refusal);
        }
        let most = self.room(numbers.len());
        let count = words_in_front(self.known.run.signed, &numbers[..most]);
        if count > 0 {
            return self.put_words(&numbers[..count], out);
        }
        match self.put(Item::Number(numbers[0]), out) {
            Ok(step) => Ok((1, step)),
            Err(refusal) => Err(refusal),
        }
    }

    /// Takes numbers one after another, as so many calls of `put` with `Item::Number` do: the answer is that of the
    /// last one, or the first refusal, and nothing where there are none. What was written before a refusal stays.
    /// Integers of one unit behind the count of an array are judged many at once.
    pub fn put_numbers(
        &mut self,
        numbers: &[i128],
        out: &mut Vec<u8>,
    ) -> Result<Option<Step>, WriteRefusal>
        // All stand behind the items so far, and their bytes behind what stood there.
        ensures took { IfOk result (λ s. (is : List NodeItem) → RepresentsItems self.old is
            → TookAll self.old self.new is numbers.now out.old.items out.new.items s) }
        // Else those before the one that is refused do.
        ensures rejects { IfErr result (λ f. HasRefused self.new f × ((is : List NodeItem) → RepresentsItems self.old is
            → RejectsOne self.old self.new is numbers.now out.old.items out.new.items f)) }
        // A refusal of an earlier call comes again, and nothing is written.
        ensures for_ever { (f : WriteRefusal) → HasRefused self.old f
            → (result ≡ Err f) × (out.new.items ≡ out.old.items) }
        // The schema, the kind and the limits stay.
        ensures same { IsSame self.old self.new }
    {
        if let Some(refusal) = self.refused {
            return Err(refusal);
        }
        let mut at = 0;
        let mut last = None;
        while at < numbers.len() {
            match self.put_some(&numbers[at..], out) {
                Ok((count, step)) => {
                    at += count;
                    last = Some(step);
                }
                Err(refusal) => return Err(refusal),
            }
        }
        Ok(last)
    }
}
