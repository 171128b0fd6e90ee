//! An item that was changed: whether a writer says of it, and of the items before it, what a checker says of their
//! bytes.
use rand_pcg::Pcg32;
use std::alloc::Global;
use test_lines::asked::Asked;
use test_lines::random::{below, unit};
use xdr_codec::{Checker, Progress};
use xdr_types::NoMemory;
use xdr_units::{push_padded, push_word};
use xdr_writer::{Item, Step, Why, WriteRefusal, Writer};

const LETTERS: &[u8] = b"abcdefghijklmnop";

/// The items of a value, what was written of them, and where the bytes of each end.
#[derive(Drop)]
pub struct Written<'a> {
    pub items: Vec<Item<'a>>,
    pub bytes: Vec<u8>,
    pub ends: Vec<usize>,
}

impl<'a> Written<'a> {
    // Where the bytes of an item end; 0 where there is none.
    fn end(&self, place: usize) -> usize {
        self.ends.get(place).copied().unwrap_or(0)
    }

    // The bytes of an item.
    fn piece(&self, place: usize) -> &[u8] {
        let begin = match place {
            0 => 0,
            place => self.end(place.saturating_sub(1)),
        };
        self.bytes.get(begin..self.end(place)).unwrap_or(&[])
    }
}

// An item in place of another: its bytes, or why it has none.
#[derive(Drop)]
struct Changed<'a> {
    item: Item<'a>,
    bytes: Result<Vec<u8>, Why>,
}

fn refused(item: Item<'_>, why: Why) -> Changed<'_> {
    Changed {
        item,
        bytes: Err(why),
    }
}

fn word_bytes(alloc: Global, number: u32) -> Result<Vec<u8>, NoMemory> {
    let mut bytes = Vec::new(alloc);
    push_word(&mut bytes, number)?;
    Ok(bytes)
}

// Another number, where one of so many bytes is due: one that goes into each kind's, or one that goes into none.
fn other_number(
    random: &mut Pcg32,
    alloc: Global,
    size: usize,
) -> Result<Changed<'static>, NoMemory> {
    if below(random, 8) == 0 {
        return Ok(refused(Item::Number(18446744073709551616), Why::NotInRange));
    }
    let number = unit(random) & 0x7fff_ffff;
    let mut bytes = Vec::new(alloc);
    if size == 8 {
        push_word(&mut bytes, 0)?;
    }
    push_word(&mut bytes, number)?;
    Ok(Changed {
        item: Item::Number(i128::from(number)),
        bytes: Ok(bytes),
    })
}

// Other content, where content of so many bytes stands that takes so many: with a length before it these are at least
// four more.
fn other_content(
    random: &mut Pcg32,
    alloc: Global,
    count: usize,
    size: usize,
) -> Result<Changed<'static>, NoMemory> {
    let length = below(random, 13);
    let content = LETTERS.get(..length as usize).unwrap_or(&[]);
    let mut bytes = Vec::new(alloc);
    if size >= count.saturating_add(4) {
        push_word(&mut bytes, length)?;
    } else if content.len() != count {
        return Ok(refused(Item::Content(content), Why::WrongItem));
    }
    push_padded(&mut bytes, content)?;
    Ok(Changed {
        item: Item::Content(content),
        bytes: Ok(bytes),
    })
}

// Another item of the same sort, in place of one that has so many bytes.
fn other_item(
    random: &mut Pcg32,
    alloc: Global,
    item: Item<'_>,
    size: usize,
) -> Result<Changed<'static>, NoMemory> {
    match item {
        Item::Number(_) => other_number(random, alloc, size),
        Item::Flag(flag) => Ok(Changed {
            item: Item::Flag(!flag),
            bytes: Ok(word_bytes(alloc, u32::from(!flag))?),
        }),
        Item::Count(_) => {
            let count = unit(random);
            Ok(Changed {
                item: Item::Count(count),
                bytes: Ok(word_bytes(alloc, count)?),
            })
        }
        Item::Content(content) => other_content(random, alloc, content.len(), size),
    }
}

// An item of another sort.
fn wrong_item(item: Item<'_>) -> Changed<'static> {
    let other = match item {
        Item::Flag(_) => Item::Count(1),
        Item::Number(_) => Item::Content(LETTERS),
        Item::Count(_) => Item::Number(1),
        Item::Content(_) => Item::Flag(true),
    };
    refused(other, Why::WrongItem)
}

// A writer and a checker, and what was written.
#[derive(Drop)]
struct Both<'s> {
    writer: Writer<'s>,
    checker: Checker<'s>,
    bytes: Vec<u8>,
    most: usize,
}

// What the two say of an item.
#[derive(Clone, Copy, PartialEq, Eq)]
enum Said {
    // The same, and they go on.
    Same,
    // The same, and nothing more is taken.
    Ended,
    Other,
}

// What a checker says of an item's bytes, in a writer's words; or why the item has none.
fn wanted(checker: &mut Checker<'_>, piece: Result<&[u8], Why>) -> Result<Step, Why> {
    if let Err(fault) = checker.feed(&[]) {
        return Err(Why::Refused(fault));
    }
    let bytes = match piece {
        Ok(bytes) => bytes,
        Err(why) => return Err(why),
    };
    match checker.feed(bytes) {
        Ok(Progress::More) => Ok(Step::More),
        Ok(Progress::Done { used }) => {
            if used == bytes.len() {
                Ok(Step::Done)
            } else {
                Err(Why::PastEnd)
            }
        }
        Err(fault) => Err(Why::Refused(fault)),
    }
}

// Whether a writer answered that. More bytes than the limit allows may be refused as such, whatever else they are.
fn is_answer(
    answer: Result<Step, WriteRefusal>,
    wanted: Result<Step, Why>,
    place: usize,
    is_past: bool,
) -> bool {
    match answer {
        Ok(step) => wanted == Ok(step),
        Err(refusal) => {
            let is_limit = is_past && wanted.is_err() && refusal.why == Why::PastLimit;
            refusal.item == place && (is_limit || wanted == Err(refusal.why))
        }
    }
}

// Puts an item into the writer, and gives its bytes to the checker.
fn put_both(both: &mut Both<'_>, item: Item<'_>, piece: Result<&[u8], Why>, place: usize) -> Said {
    let before = both.bytes.len();
    let size = match piece {
        Ok(bytes) => bytes.len(),
        Err(_) => 0,
    };
    let is_past = before.saturating_add(size) > both.most;
    let wanted = wanted(&mut both.checker, piece);
    let answer = both.writer.put(item, &mut both.bytes);
    let added = if answer.is_ok() { size } else { 0 };
    if !is_answer(answer, wanted, place, is_past) {
        return Said::Other;
    }
    if both.bytes.len() != before.saturating_add(added) {
        return Said::Other;
    }
    if answer == Ok(Step::More) {
        Said::Same
    } else {
        Said::Ended
    }
}

// Puts the items before a place, up to the first that is refused.
fn put_before(both: &mut Both<'_>, whole: &Written<'_>, place: usize) -> Said {
    let mut said = Said::Same;
    for (number, item) in whole.items.iter().enumerate() {
        if said == Said::Same && number < place {
            said = put_both(both, *item, Ok(whole.piece(number)), number);
        }
    }
    said
}

// Puts an item there.
fn put_changed(both: &mut Both<'_>, changed: &Changed<'_>, place: usize) -> Said {
    match &changed.bytes {
        Ok(bytes) => put_both(both, changed.item, Ok(bytes), place),
        Err(why) => put_both(both, changed.item, Err(*why), place),
    }
}

// Whether a writer says of the items before a place, and of another item there, what a checker says.
fn are_alike(
    alloc: Global,
    asked: &Asked<'_>,
    whole: &Written<'_>,
    place: usize,
    changed: &Changed<'_>,
) -> bool {
    if !asked.schema.has(asked.kind) {
        return false;
    }
    let mut both = Both {
        writer: Writer::start(alloc, asked.schema, asked.kind, asked.limits),
        checker: Checker::start(alloc, asked.schema, asked.kind, asked.limits),
        bytes: Vec::new(alloc),
        most: asked.limits.bytes() as usize,
    };
    let before = put_before(&mut both, whole, place);
    let said = if before == Said::Same {
        put_changed(&mut both, changed, place)
    } else {
        before
    };
    said != Said::Other
}

/// Whether that is so of a random item of a value, changed at random.
pub fn is_changed_alike(
    random: &mut Pcg32,
    alloc: Global,
    asked: &Asked<'_>,
    whole: &Written<'_>,
) -> bool {
    let count = whole.items.len().min(4294967295) as u32;
    let place = below(random, count) as usize;
    let Some(item) = whole.items.get(place) else {
        return false;
    };
    if below(random, 4) == 0 {
        return are_alike(alloc, asked, whole, place, &wrong_item(*item));
    }
    match other_item(random, alloc, *item, whole.piece(place).len()) {
        Ok(changed) => are_alike(alloc, asked, whole, place, &changed),
        Err(_) => false,
    }
}
