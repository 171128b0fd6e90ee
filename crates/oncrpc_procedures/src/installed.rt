//! The texts of declarations that are installed with the program.
ghost use Rattle.std.specs.Prelude.{◌≡◌, List, ℕ, map, option_map};
ghost use Rattle.oncrpc_procedures.specs.Installed.{IsFirstPart, text_for};
ghost use Rattle.oncrpc_procedures.specs.Private.Cut.{row_of};
ghost use Rattle.oncrpc_procedures.specs.Private.Search.{first_text};

use crate::parts::is_meant;
use xdr_units::before_dot;

/// Programs whose declarations are installed, by number and by the name of their text.
pub const INSTALLED: [(u32, &str); 8] = [
    (100000, "rpcbind"),
    (100003, "nfs"),
    (100004, "yp"),
    (100005, "mount"),
    (100007, "ypbind"),
    (100021, "nlm"),
    (100024, "nsm"),
    (100026, "bootparam"),
];

/// The name of the installed text that declares the program which a text names with its first part, by its number or by
/// the name of that text; none where there is no such text. It takes no memory.
pub fn installed_text(text: &[u8]) -> Option<&'static str>
    ensures { (part : List ℕ) × IsFirstPart part text.now × (option_map (λ name. name.now) result ≡ text_for part) }
{
    match before_dot(text) {
        Some((program, _behind)) => text_for(program),
        None => text_for(text),
    }
}

// The text of the program that a part means.
fn text_for(part: &[u8]) -> Option<&'static str>
    ensures { option_map (λ name. name.now) result ≡ text_for part.now }
{
    first_text(&INSTALLED, part)
}

// The text of the first row that a part means.
#[tactic(auto, unfolding(crate::specs::Private::Search::first_text))]
fn first_text(rows: &[(u32, &'static str)], part: &[u8]) -> Option<&'static str>
    ensures { option_map (λ name. name.now) result ≡ first_text part.now (map row_of rows.now) }
{
    for row in rows {
        if is_meant(part, row.1, row.0) {
            return Some(row.1);
        }
    }
    None
}
