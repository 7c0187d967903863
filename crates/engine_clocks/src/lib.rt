// A time slice: clocks in state order, one pass.
#![tactic(auto)]

ghost use Rattle.std.specs.Prelude.{◌≡◌, ℕ, ◌+◌, ◌<◌, ◌≤◌, get_or};
ghost use Rattle.sheet.specs.Names.{chart_variables};
ghost use Rattle.sheet_rules.specs.Fields.{type_at, externals_of, elements_of};
ghost use Rattle.sheet_rules.specs.Indices.{cells_before};
ghost use Rattle.sheet_rules.specs.Shape.{cells_of};
ghost use Rattle.machine.specs.Values.{first_cell};
ghost use Rattle.machine.specs.State.{cell_at};
ghost use Rattle.machine.specs.Play.{sliced_cell, sliced_cells, sliced_from};
ghost use Rattle.engine_queue.specs.Changed.{changed_to};
ghost use Rattle.engine_clocks.specs.Cells.{Cell, Cells};
ghost use Rattle.machine.specs.Valid.{OfSheet};

use engine_cells::{ROW, Yard};
use sheet::{HEAD, Record};
use sheet_opened::Reader;

// "stopped ones passed over": a word that is 0 needs no look at its type.
fn slice_cell(sheet: &Reader, st: &mut [i32], e: usize, d: usize, i: usize) -> Result<(), u8>
    requires { (e < 64) × (cells_of sheet.now.sheet.now ≤ 512) × Cell sheet.now.sheet.now e (type_at sheet.now.sheet.now d) st.old i }
    ensures { sliced_cell sheet.now.sheet.now e (type_at sheet.now.sheet.now d) (cell_at i) st.old ≡ changed_to result st.new }
{
    let at = engine_store::cell_at(i);
    if st[at] == 0 {
        return Ok(());
    }
    match sheet_types::type_at(sheet, d) {
        4 => engine_ticks::tick_timer(st, at),
        5 => engine_ticks::tick_timeout(st, e, at),
        6 => engine_ticks::tick_cycler(st, e, at),
        _ => Ok(()),
    }
}

// The clocks of element e, whose variables' cells stand in the table from `row` on. Each variable is
// looked at by its first cell alone: an array has no clocks, and its cells are passed over.
fn slice_cells(yard: &Yard, st: &mut [i32], e: usize, c: Record, row: usize) -> Result<(), u8>
    requires { (e < 64) × (row + (chart_variables c).count ≤ 2176) × (cells_of yard.now.sheet.sheet.now ≤ 512) × Cells yard.now.sheet.sheet.now e c st.old × ((n : ℕ) → n ≤ (chart_variables c).count → get_or yard.now.cells (row + n) 0 ≡ first_cell yard.now.sheet.sheet.now e + cells_before yard.now.sheet.sheet.now c n) }
    ensures { sliced_cells yard.now.sheet.sheet.now e (chart_variables c).count (chart_variables c).first (first_cell yard.now.sheet.sheet.now e) st.old ≡ changed_to result st.new }
{
    let count = c.f3 as usize;
    for j in 0..count {
        slice_cell(&yard.sheet, st, e, c.f2 as usize + j, yard.cells[row + j])?;
    }
    Ok(())
}

// A slice; where it is refused, with 6, 8 or 12, the state is of no use.
pub fn slice(yard: &Yard, st: &mut [i32]) -> Result<(), u8>
    requires { OfSheet yard.now.sheet.sheet.now st.old }
    ensures { sliced_from yard.now.sheet.sheet.now (elements_of yard.now.sheet.sheet.now) (externals_of yard.now.sheet.sheet.now) st.old ≡ changed_to result st.new }
{
    let first = sheet_fields::field_at(&yard.sheet, HEAD, 0, 1);
    let count = yard.elements();
    for i in 0..count {
        let Some(c) = yard.chart(first + i) else {
            prove!(false);
            return Err(4);
        };
        slice_cells(yard, st, first + i, c, ROW * i)?;
    }
    Ok(())
}
