//! An item of a value that is written, as C tells it.
ghost use Rattle.std.specs.Prelude.{◌≡◌, IfOk, IfErr};
ghost use Rattle.xdr_writer.specs.Items.{item_view};
ghost use Rattle.c_values.specs.Items.{Tells, IsUntold, why_number};

use xdr_writer::{Item, Why};

/// An item of a value (RFC 4506 section 4): what stands in the bytes of a part of it, as `xdr_writer` takes them.
#[repr(C)]
#[derive(Clone, Copy)]
pub struct ValueItem {
    /// What it is: 1 is a signed number, 2 an unsigned number, 3 an optional's flag, 4 the count of an array's items,
    /// 5 the content of an opaque or a string. A boolean, an enumeration's number and a discriminant are numbers.
    pub form: u32,
    /// The signed number.
    pub signed_number: i64,
    /// The unsigned number. Of a flag, 1 where the optional item is there, and else 0.
    pub number: u64,
    /// How many of the bytes that are lent for content are before its own.
    pub at: usize,
    /// How many bytes the content has, or how many items follow.
    pub count: usize,
}

/// Why an item is refused.
#[derive(Clone, Copy)]
pub enum ItemWhy {
    /// It has none of the five forms.
    NoForm,
    /// A flag above 1, or a count above 4294967295.
    NoNumber,
    /// Content that does not lie in the bytes that are lent for it.
    Outside,
    /// No value goes on with it.
    Refused(Why),
    /// There is no item, and the value is not whole.
    Unfinished,
}

/// Why the items are refused, and how many of them are before the one that this is about.
#[derive(Clone, Copy)]
pub struct ItemFault {
    pub why: ItemWhy,
    pub at: usize,
}

impl ValueItem {
    /// What it tells, with the bytes in which content lies.
    pub fn told<'a>(&self, content: &'a [u8]) -> Result<Item<'a>, ItemWhy>
        ensures told { IfOk result (λ i. Tells content.now self.now (item_view i)) }
        ensures untold { IfErr result (λ w. IsUntold content.now self.now w) }
    {
        match self.form {
            1 => Ok(Item::Number(self.signed_number as i128)),
            2 => Ok(Item::Number(self.number as i128)),
            3 if self.number > 1 => Err(ItemWhy::NoNumber),
            3 => Ok(Item::Flag(self.number == 1)),
            4 if self.count > 4294967295 => Err(ItemWhy::NoNumber),
            4 => Ok(Item::Count(self.count as u32)),
            5 if self.at > content.len() || self.count > content.len() - self.at => Err(
                ItemWhy::Outside,
            ),
            5 => Ok(Item::Content(&content[self.at..self.at + self.count])),
            _ => Err(ItemWhy::NoForm),
        }
    }
}

impl ItemWhy {
    /// The number that C sees: a reason for which bytes are refused, 1 to 8, or one of items alone, 9 to 13.
    pub fn number(&self) -> u32
        ensures { result ≡ why_number self.now }
    {
        match self {
            ItemWhy::NoForm | ItemWhy::Refused(Why::WrongItem) => 9,
            ItemWhy::NoNumber | ItemWhy::Refused(Why::NotInRange) => 10,
            ItemWhy::Refused(Why::PastEnd) => 11,
            ItemWhy::Unfinished | ItemWhy::Refused(Why::Unfinished) => 12,
            ItemWhy::Outside => 13,
            ItemWhy::Refused(Why::PastLimit) => 7,
            ItemWhy::Refused(Why::Refused(fault)) => fault.why.number() as u32,
            ItemWhy::Refused(Why::NoMemory) => 0,
        }
    }
}
