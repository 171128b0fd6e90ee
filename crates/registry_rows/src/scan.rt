//! Where a program stands in a column of programs.
ghost use Rattle.std.specs.Prelude.{◌≡◌, ◌+◌, ◌≤◌, length, drop, map, nat_eq};
ghost use Rattle.std.specs.List.{prefix_len};
ghost use Rattle.std.specs.Simd.Lanes.{mask_l};
ghost use Rattle.registry_rows.specs.Columns.{is_other};

use std::simd::prelude::*;

/// Which of sixteen programs are this one, a bit for each, the first lowest.
#[inline(always)]
fn marks(programs: u32x16, prog: u32) -> u64
    ensures { result ≡ mask_l (map (λ p. nat_eq p prog) programs) }
{
    programs.simd_eq(u32x16::splat(prog)).to_bitmask()
}

/// The same as `next_place`, a program at a time.
#[inline(always)]
fn next_slowly(column: &[u32], prog: u32, from: usize) -> usize
    requires { from ≤ length column.now }
    ensures { result ≡ from + prefix_len (is_other prog) (drop from column.now) }
{
    let mut at = from;
    while at < column.len() && column[at] != prog {
        at += 1;
    }
    at
}

/// The same, sixteen programs at a time.
#[inline(always)]
fn next_marked(column: &[u32], prog: u32, from: usize) -> usize
    requires { from ≤ length column.now }
    ensures { result ≡ from + prefix_len (is_other prog) (drop from column.now) }
{
    let mut at = from;
    while column.len() - at >= 16 {
        let found = marks(u32x16::from_slice(&column[at..]), prog);
        if found != 0 {
            return at + found.trailing_zeros() as usize;
        }
        at += 16;
    }
    next_slowly(column, prog, at)
}

/// The first place from one on where the program stands, or the end of the column. Rows of a program are often set one
/// after another, so the next place is looked at alone.
pub fn next_place(column: &[u32], prog: u32, from: usize) -> usize
    requires { from ≤ length column.now }
    ensures { result ≡ from + prefix_len (is_other prog) (drop from column.now) }
{
    if from < column.len() && column[from] == prog {
        return from;
    }
    next_marked(column, prog, from)
}

/// How many of the sixteen programs from a place on are this one.
#[inline(always)]
fn in_sixteen(column: &[u32], at: usize, prog: u32) -> usize
    requires { at + 16 ≤ length column.now }
    ensures { result ≤ 64 }
{
    marks(u32x16::from_slice(&column[at..]), prog).count_ones() as usize
}

/// The same of sixty-four programs.
#[inline(always)]
fn in_sixty_four(column: &[u32], at: usize, prog: u32) -> usize
    requires { at + 64 ≤ length column.now }
    ensures { result ≤ 256 }
{
    let front = in_sixteen(column, at, prog) + in_sixteen(column, at + 16, prog);
    front + in_sixteen(column, at + 32, prog) + in_sixteen(column, at + 48, prog)
}

/// Whether all rows are sooner gone over one after another than from place to place. That is where they are fewer than
/// sixty-four, or more than a tenth of them have the program, those at the end aside that fill no sixteen.
pub(crate) fn has_many(column: &[u32], prog: u32) -> bool {
    if column.len() < 64 {
        return true;
    }
    let most = column.len() / 10;
    let mut places = 0;
    let mut at = 0;
    while column.len() - at >= 64 {
        places += in_sixty_four(column, at, prog);
        if places > most {
            return true;
        }
        at += 64;
    }
    while column.len() - at >= 16 {
        places += in_sixteen(column, at, prog);
        if places > most {
            return true;
        }
        at += 16;
    }
    false
}
