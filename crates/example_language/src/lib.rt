//! Worked examples of the XDR language and of rpcgen's dialect for users of the libraries, each proved from the
//! contracts alone.
//!
//! - `token_lists`: what `tokens` makes of a text. `outlines`: what `read_outline` makes of tokens.
//! - `texts`: what `read` gives for texts that mean something. `refused`: texts that it gives nothing for. `lookups`:
//!   look-ups in what a text declares.
//! - Of the dialect `lines`: texts without their lines of `%` and `#`; `rewritings`: tokens in place of tokens;
//!   `aliases`: numbers in place of names; `files`: several texts as one.
#![tactic(auto)]

pub mod aliases;
pub mod files;
pub mod lines;
mod lookups;
mod outlines;
mod refused;
pub mod rewritings;
mod texts;
mod token_lists;

pub use lookups::{
    kind_of_a_type, no_kind_of_a_constant, procedure_of_a_version, program_comes_first,
};
pub use outlines::{
    member_is_no_const, number_of_a_misreading, one_body_too_many, struct_by_its_name,
    two_definitions, union_with_a_default,
};
pub use refused::{
    column_of_a_refusal, const_used_before_it_is_declared, eight_is_no_octal_digit,
    field_name_there_twice, line_of_a_refusal, long_as_a_name, long_text, member_as_a_size,
    no_schema_number, number_of_a_refusal, pair_of_numbers_there_twice, struct_before_a_typedef,
    struct_before_a_union, struct_before_an_enumeration, true_as_a_size,
};
pub use texts::{
    arrays, linked_list, list_of_structs, long_numbers, long_was_a_name, missing_size, older_text,
    string_argument, text_without_the_words, two_meanings,
};
pub use token_lists::{
    comment_with_a_star, keyword_and_names, keyword_before_a_tab, least_number,
    long_and_a_longer_name, no_token_of_a_bar,
};
