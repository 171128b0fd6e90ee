//! Texts that `read` gives nothing for (RFC 4506 sections 6.2 and 6.4).
ghost use Rattle.std.specs.Prelude.{◌≡◌, ◌<◌, ◌≤◌, length, true, false, IfSome};
ghost use Rattle.xdr_lang.specs.Declarations.{Declared as DeclaredSpec};
ghost use Rattle.xdr_lang.specs.Means.{Means};
ghost use Rattle.xdr_lang.specs.Refusals.{IsInner};

use std::alloc::Global;
use xdr_lang::{LangFault, read};

// Whether a text is read, and then it means something. What is declared is dropped here alone, since the proof of each
// function that drops it is long.
#[tactic(auto, using(crate::proofs::Reporting::read_means))]
fn is_read(alloc: Global, text: &[u8]) -> bool
    ensures { result ≡ true → (d : DeclaredSpec) × Means text.now d }
{
    read(alloc, text).is_ok()
}

// Why a text is refused.
fn refusal(alloc: Global, text: &[u8]) -> Option<LangFault>
    ensures number { IfSome result (λ e. (1 ≤ e.number) × (e.number ≤ 13)) }
    ensures inner { IfSome result (λ e. IsInner e.number e.inner) }
    ensures place { IfSome result (λ e. (1 ≤ e.line) × (1 ≤ e.column)) }
{
    match read(alloc, text) {
        Ok(_) => None,
        Err(fault) => Some(fault),
    }
}

/// A text of more than 262144 bytes is refused, whatever it says.
pub fn long_text(alloc: Global, text: &[u8]) -> bool
    requires { 262144 < length text.now }
    ensures { result ≡ false }
{
    is_read(alloc, text)
}

/// A constant is declared before it is used.
pub fn const_used_before_it_is_declared(alloc: Global) -> bool
    ensures { result ≡ false }
{
    is_read(alloc, b"typedef int t<N>; const N = 3;")
}

/// A digit of an octal number is below 8.
pub fn eight_is_no_octal_digit(alloc: Global) -> bool
    ensures { result ≡ false }
{
    is_read(alloc, b"const N = 08;")
}

/// `long` is no name.
pub fn long_as_a_name(alloc: Global) -> bool
    ensures { result ≡ false }
{
    is_read(alloc, b"const long = 3;")
}

/// `struct` before the name of a union denotes nothing.
pub fn struct_before_a_union(alloc: Global) -> bool
    ensures { result ≡ false }
{
    is_read(
        alloc,
        b"union u switch(int d){case 1:void;};typedef struct u t;",
    )
}

/// Nor does it before the name of an enumeration.
pub fn struct_before_an_enumeration(alloc: Global) -> bool
    ensures { result ≡ false }
{
    is_read(alloc, b"enum e{A=1};typedef struct e t;")
}

/// Nor before the name of a typedef, whatever that names.
pub fn struct_before_a_typedef(alloc: Global) -> bool
    ensures { result ≡ false }
{
    is_read(alloc, b"typedef struct{int x;} s;typedef struct s t;")
}

/// TRUE is a constant, but no size.
pub fn true_as_a_size(alloc: Global) -> bool
    ensures { result ≡ false }
{
    is_read(alloc, b"typedef int t<TRUE>;")
}

/// A member of an enumeration is no size.
pub fn member_as_a_size(alloc: Global) -> bool
    ensures { result ≡ false }
{
    is_read(alloc, b"enum e { A = 1 }; typedef int t[A];")
}

/// The fields of a structure have different names.
pub fn field_name_there_twice(alloc: Global) -> bool
    ensures { result ≡ false }
{
    is_read(alloc, b"struct s { int a; bool a; };")
}

/// No two versions have one pair of program and version number.
pub fn pair_of_numbers_there_twice(alloc: Global) -> bool
    ensures { result ≡ false }
{
    is_read(
        alloc,
        b"program P{version V{void N(void)=0;}=2;version W{void N(void)=0;}=2;}=1;",
    )
}

/// A refusal has a number from 1 to 13.
pub fn number_of_a_refusal(alloc: Global, text: &[u8]) -> Option<u8>
    ensures from_1 { IfSome result (λ n. 1 ≤ n) }
    ensures to_13 { IfSome result (λ n. n ≤ 13) }
{
    let fault = refusal(alloc, text)?;
    Some(fault.number)
}

/// The number of a schema's fault stands with number 10 alone.
pub fn no_schema_number(alloc: Global, text: &[u8]) -> u8
    ensures { result ≡ 0 }
{
    match refusal(alloc, text) {
        Some(fault) if fault.number != 10 => fault.inner,
        _ => 0,
    }
}

/// The number of a schema's fault is at most 10.
pub fn number_of_a_schema_fault(alloc: Global, text: &[u8]) -> u8
    ensures { result ≤ 10 }
{
    match refusal(alloc, text) {
        Some(fault) => fault.inner,
        None => 0,
    }
}

/// Columns count from 1.
pub fn column_of_a_refusal(alloc: Global, text: &[u8]) -> usize
    ensures { 1 ≤ result }
{
    match refusal(alloc, text) {
        Some(fault) => fault.column,
        None => 1,
    }
}

/// Lines count from 1.
pub fn line_of_a_refusal(alloc: Global, text: &[u8]) -> usize
    ensures { 1 ≤ result }
{
    match refusal(alloc, text) {
        Some(fault) => fault.line,
        None => 1,
    }
}
