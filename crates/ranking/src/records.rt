// The new records, each written whole.
ghost use Rattle.std.specs.Prelude.{◌≡◌};
ghost use Rattle.model.specs.Word.{word, put};
ghost use Rattle.model.specs.Layout.{record_at};
ghost use Rattle.model.specs.View.{segments};
ghost use Rattle.ranking.specs.Live.{marks_of};
ghost use Rattle.ranking.specs.Records.{with_records, marked_record, MarkedRecord, WriteRecord, WriteRecords};

use crate::levels::write_levels;
use arena::segments;
use words::fields::record_class;

// "Segments with count 0 go to the pool": their whole record is 0, the head as well. Any other has its head, and the levels of its
// marks.
fn marked_record(rec: &mut [u32], head: u32, marks: &[u32])
    requires { MarkedRecord rec.old head marks.now }
    ensures { rec.new ≡ marked_record head marks.now }
{
    if head == 0 {
        rec.fill(0);
    } else {
        rec[0] = head;
        write_levels(rec, record_class(head), marks);
    }
}

fn write_record(arena: &mut [u32], s: usize, head: u32, marks: &[u32])
    requires { WriteRecord arena.old s head marks.now }
    ensures { arena.new ≡ put arena.old (record_at s) (marked_record head (marks_of marks.now s)) }
{
    let at = 11 + 68 * s;
    let from = 1 + 64 * s;
    marked_record(&mut arena[at..at + 68], head, &marks[from..from + 64]);
}

pub fn write_records(arena: &mut [u32], heads: &[u32; 64], marks: &[u32])
    requires { WriteRecords arena.old heads.now marks.now }
    ensures { arena.new ≡ with_records arena.old (segments arena.old) (λ s. marked_record (word heads.now s) (marks_of marks.now s)) }
{
    let n = segments(arena) as usize;
    for (s, &head) in heads[..n].iter().enumerate() {
        write_record(arena, s, head, marks);
    }
}
