// Whether the cells of an element fit, "variables in order, each per index in order".
#![tactic(auto)]

ghost use Rattle.std.specs.Prelude.{◌≡◌, ℕ, ◌+◌, Some, length};
ghost use Rattle.sheet.specs.All.{all_below};
ghost use Rattle.machine.specs.Values.{chart_of};
ghost use Rattle.machine.specs.State.{cell_at, state_length};
ghost use Rattle.machine.specs.Valid.{cell_fits, element_fits};
ghost use Rattle.engine_cells.specs.Cells.{CellsIn};

use engine_cells::{ROW, Yard};
use sheet::Record;
use sheet_opened::Reader;

// The n cells, from a cell on, of a variable of type t of an element that is bound to chart c.
fn variable_fits(sheet: &Reader, c: Record, t: usize, cell: usize, n: usize, st: &[i32]) -> bool
    requires { CellsIn st.now cell n }
    ensures { (e : ℕ) → chart_of sheet.now.sheet.now e ≡ Some c → result ≡ all_below n (λ k. cell_fits sheet.now.sheet.now e t st.now (cell_at (cell + k))) }
{
    for k in 0..n {
        let at = engine_store::cell_at(cell + k);
        if !engine_valid_cells::cell_fits(sheet, c, t, st, at) {
            return false;
        }
    }
    true
}

// The cells of element e, which is bound to chart c. Its row of the table has where those of each variable
// begin, and where the last ones end.
pub fn element_fits(yard: &Yard, c: Record, e: usize, st: &[i32]) -> bool
    requires { (length st.now ≡ state_length yard.now.sheet.sheet.now) × (chart_of yard.now.sheet.sheet.now e ≡ Some c) }
    ensures { result ≡ element_fits yard.now.sheet.sheet.now st.now e }
{
    let row = ROW * (e - engine_valid_values::externals(&yard.sheet));
    let count = c.f3 as usize;
    for j in 0..count {
        let t = sheet_types::type_at(&yard.sheet, c.f2 as usize + j);
        let cell = yard.cells[row + j];
        let n = yard.cells[row + (j + 1)] - cell;
        if !variable_fits(&yard.sheet, c, t, cell, n, st) {
            return false;
        }
    }
    true
}
