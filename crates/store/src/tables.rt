// The table: a store for writing over a borrowed row of blocks of any kind.
ghost use Rattle.std.specs.Prelude.{◌≡◌, ◌<◌, ◌≤◌, true, false, length, is_ok, slice_index_or, slice_set};
ghost use Rattle.code.specs.Sizes.{pairs as pair_count};
ghost use Rattle.store.specs.Meaning.{AfterPut, AfterMark, get_answer, take_out_answer, bring_in_answer};
ghost use Rattle.store.specs.Tables.{table_check};

use crate::rolls::Roll;
use crate::stores::{ReadStore, WriteStore};
use code::{Marks, Size, place};
use faults::Fault;
use kinds::BlockKind;

// Whether a row can be a table of n stations. Refused by 1 b, then by 3 b with the row's length.
pub fn check_table<B>(n: u8, row: &[B]) -> Result<(), Fault>
    ensures { result ≡ table_check n (length row.now) }
{
    let size = Size::try_from(n)?;
    if row.len() < size.pairs() {
        return Err(Fault::AreaTooShort(row.len()));
    }
    Ok(())
}

// The table's methods hand its row on to these, as a rule of the project asks.
fn read_at<B: Copy>(row: &[B], at: usize) -> B
    requires { at < length row.now }
    ensures { (d : B) → result ≡ slice_index_or row.now at d }
{
    row[at]
}

fn write_at<B: Copy>(row: &mut [B], at: usize, x: B)
    requires { at < length row.old }
    ensures { row.new ≡ slice_set row.old at x }
{
    row[at] = x;
}

// A table of blocks; all stations are in at first.
#[derive(Drop)]
pub struct Table<'a, B> {
    roll: Roll,
    row: &'a mut [B],
    ghost long: { pair_count roll.size.number ≤ length row.now },
}

impl<'a, B: BlockKind> Table<'a, B> {
    // Of a number and a row that `check_table` passed: in two steps, by a rule of the project.
    pub fn make(n: u8, row: &'a mut [B]) -> Self
        requires { is_ok (table_check n (length row.old)) ≡ true }
        ensures size { result.roll.size.number ≡ n }
        ensures out { result.roll.out.bits ≡ 0 }
        ensures row { result.row.now ≡ row.old }
        ensures lent { result.row.ghost_name ≡ row.entry.ghost_name }
    {
        let Ok(size) = Size::try_from(n) else {
            unreachable!();
        };
        let out = Marks::none();
        Table {
            roll: Roll { size, out },
            row,
        }
    }
}

impl<B: BlockKind> ReadStore for Table<'_, B> {
    // A definition that names the type is brought in beside it.
    ghost use Rattle.store.specs.TableMeanings.{means_of};

    type Block = B;

    ghost means = { means_of B.group.none };

    fn size(&self) -> Size {
        self.roll.size
    }

    fn is_in(&self, s: u8) -> Result<bool, Fault> {
        self.roll.is_in(s)
    }

    fn get(&self, a: u8, b: u8, into: &mut B) -> Result<(), Fault> {
        self.roll.admit_pair(a, b)?;
        *into = read_at(self.row, place(a, b));
        Ok(())
    }
}

// A method's own clause, here that the row is still the one lent, stands in place of the interface's, so these are repeated.
impl<B: BlockKind> WriteStore for Table<'_, B> {
    ghost use Rattle.store.specs.TableMeanings.{means_of};

    fn put(&mut self, a: u8, b: u8, x: B) -> Result<(), Fault>
        ensures answer { result ≡ get_answer (means_of B.group.none self.old) a b }
        ensures after { AfterPut (means_of B.group.none self.old) a b x result (means_of B.group.none self.new) }
        ensures lent { self.new.row.ghost_name ≡ self.old.row.ghost_name }
    {
        self.roll.admit_pair(a, b)?;
        write_at(self.row, place(a, b), x);
        Ok(())
    }

    fn take_out(&mut self, s: u8) -> Result<(), Fault>
        ensures answer { result ≡ take_out_answer (means_of B.group.none self.old) s }
        ensures after { AfterMark (means_of B.group.none self.old) s true result (means_of B.group.none self.new) }
        ensures lent { self.new.row.ghost_name ≡ self.old.row.ghost_name }
    {
        self.roll.take_out(s)
    }

    fn bring_in(&mut self, s: u8) -> Result<(), Fault>
        ensures answer { result ≡ bring_in_answer (means_of B.group.none self.old) s }
        ensures after { AfterMark (means_of B.group.none self.old) s false result (means_of B.group.none self.new) }
        ensures lent { self.new.row.ghost_name ≡ self.old.row.ghost_name }
    {
        self.roll.bring_in(s)
    }
}
