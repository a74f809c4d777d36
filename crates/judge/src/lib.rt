// The judge: is an arena sound.
//
// For any words whatever the answer is true exactly if they are a sound arena. The judge of records and places
// comes first. Where that is content the taken row says which blocks are taken, and the judge of headers and
// references goes by it. A caller lends the row with all its words 0; whoever finds the arena sound keeps it and asks it
// from then on. The row is an array and no type of its own: docs/STATEMENTS.md names it so.
#![tactic(auto)]

ghost use Rattle.taken.specs.Row.{ZeroRow};
ghost use Rattle.judge.specs.Judged.{Judged};

use records::records_right;
use references::judge::taken_right;
use taken::row::fill_row;

pub fn judge(arena: &[u32], row: &mut [u32; 8192]) -> bool
    requires { ZeroRow row.old }
    ensures { Judged arena.now row.new result }
{
    if !records_right(arena) {
        return false;
    }
    fill_row(arena, row);
    taken_right(arena, row)
}
