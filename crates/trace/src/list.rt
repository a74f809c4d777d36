// The list of a trace: handles are put on its end, each block once, and a block is marked when it is put on.
ghost use Rattle.std.specs.Prelude.{◌≡◌, [], ◌<◌, length, get_or};
ghost use Rattle.ways.proofs.Put.{put_all};
ghost use Rattle.trace.specs.List.{On, Root, PutRoot, Roots, Handles, Kept};

use crate::marks::{clear, mark};

// The root at a position.
fn root_at(roots: &[u32], p: usize) -> u32
    requires { p < length roots.now }
    ensures { result ≡ get_or roots.now p 0 }
{
    roots[p]
}

// Puts a root on the list, of which the first c words are in use, unless it is 0 or there already. Gives the
// new c. The list is C's, and row and list are named in docs/STATEMENTS.md as slices: so each has its length in use beside it.
fn put_root(h: u32, list: &mut [u32], c: usize, marks: &mut [u32]) -> usize
    requires { Root h list.old c marks.old }
    ensures { PutRoot h list.old c marks.old result list.new marks.new }
{
    if mark(marks, h) {
        list[c] = h;
        return c + 1;
    }
    c
}

// Clears the marks of n segments and puts the roots on an empty list.
pub fn put_roots(n: u32, roots: &[u32], list: &mut [u32], marks: &mut [u32]) -> usize
    requires { Roots n roots.now list.old marks.old }
    ensures { On n (put_all [] roots.now) list.old result list.new marks.new }
{
    clear(marks, n);
    let mut c = 0;
    // By position: what an edit reads in another order is then a fact of `root_at`.
    for p in 0..roots.len() {
        c = put_root(root_at(roots, p), list, c, marks);
    }
    c
}

// Drops from the first `end` words of a row, in place, those that are 0 or marked, and marks the rest. No
// branch depends on what the words are. Gives how many are left.
pub fn keep_new(row: &mut [u32], end: usize, marks: &mut [u32]) -> usize
    requires { Handles row.old end marks.old }
    ensures { Kept row.old end marks.old result row.new marks.new }
{
    let mut kept = 0;
    // By number: a word is read from the row that is written.
    for k in 0..end {
        let h = row[k];
        row[kept] = h;
        kept += usize::from(mark(marks, h));
    }
    kept
}
