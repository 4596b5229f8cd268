// Changing one channel of the table.
ghost use Rattle.std.specs.Prelude.{◌≡◌, true};
ghost use Rattle.std.specs.Fn.{FnOnceReturnsAtMut};
ghost use Rattle.dma.specs.declared.row.Row.{Row};
ghost use Rattle.dma.specs.Banks.{state_of};
ghost use Rattle.dma.specs.Sets.{with_row};
ghost use Rattle.dma.specs.Soundness.{Sound};
ghost use Rattle.dma.specs.State.{row_at};

use crate::bank::Bank;
use crate::channel::Channel;
use crate::row::Row;
use memory::refusal::Refusal;

impl Bank {
    // The row is lent out of a copy of the table, which is then written back whole.
    pub(crate) fn change_row<F: FnOnce(&mut Row) -> Result<(), Refusal>>(
        &mut self,
        channel: Channel,
        change: F,
    ) -> Result<(), Refusal>
        requires callable { F.IsAlwaysCallable change }
        requires leaves_sound { (answer : _) (row : Row) → FnOnceReturnsAtMut F.FnOnce change (row_at self.old.rows channel) answer row → Sound row }
        ensures changed { (row : Row) × FnOnceReturnsAtMut F.FnOnce change (row_at self.old.rows channel) result row × (state_of self.new ≡ with_row (state_of self.old) channel row) }
    {
        let mut rows = self.rows;
        let row = &mut rows[usize::from(channel)];
        let answer = change(row);
        self.rows = rows;
        answer
    }
}
