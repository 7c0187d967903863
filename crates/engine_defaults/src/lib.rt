// What runs begin with: default values, a body's fresh variables, the state of start.
#![tactic(auto)]

ghost use Rattle.std.specs.Prelude.{◌≡◌, ◌∷◌, ◌+◌, ◌<◌, ◌≤◌, length, replicate, pos};
ghost use Rattle.sheet.specs.Names.{chart_variables, body_parameters, body_locals};
ghost use Rattle.sheet_rules.specs.declared.Checked.TheVariants.{Passed};
ghost use Rattle.sheet_rules.specs.Indices.{cells_before};
ghost use Rattle.sheet_rules.specs.Check.{check_of};
ghost use Rattle.machine.specs.Values.{default_of};
ghost use Rattle.machine.specs.Run.{local_at, locals_of};
ghost use Rattle.machine.specs.State.{cell_at, state_length, put_words};
ghost use Rattle.machine.specs.Play.{alike, default_cells, default_state};
ghost use Rattle.engine_cells.specs.Cells.{CellsIn};

use engine_context::{LOCALS, Locals};
use machine::Data;
use sheet::{ENUMERATED_TYPES, HEAD, Record};
use sheet_opened::Reader;

// "Defaults: false, 0, Log, log, the declared member, a stopped clock"
fn default_of(sheet: &Reader, t: usize) -> i32
    ensures { result ≡ default_of sheet.now.sheet.now t }
{
    if t < 8 {
        return 0;
    }
    sheet_fields::field_at(sheet, ENUMERATED_TYPES, t - 8, 1) as i32
}

// Variable i of a body that begins to run.
fn local_at(sheet: &Reader, b: Record, d: &Data, i: usize) -> i32
    requires { ((body_parameters b).count ≤ 4) × (i < (body_parameters b).count + (body_locals b).count) }
    ensures { result ≡ local_at sheet.now.sheet.now b d.now i }
{
    let parameters = b.f4 as usize;
    if i < parameters {
        return d[i];
    }
    let t = sheet_types::type_at(sheet, b.f5 as usize + (i - parameters));
    default_of(sheet, t)
}

// The variables of a body that begins to run: parameters from data, then "fresh default locals".
pub fn fresh_locals(sheet: &Reader, b: Record, d: &Data) -> Locals
    requires { ((body_parameters b).count ≤ 4) × ((body_parameters b).count + (body_locals b).count ≤ 16) }
    ensures { result ≡ locals_of sheet.now.sheet.now b d.now }
{
    let count = b.f4 as usize + b.f6 as usize;
    let mut locals = [0i32; LOCALS];
    for i in 0..count {
        let z = local_at(sheet, b, d, i);
        locals[i] = z;
    }
    locals
}

// n cells set to a default, from a cell on, whatever stood there: word z and seven zeros each.
fn cells_alike(st: &mut [i32], cell: usize, n: usize, z: i32)
    requires { CellsIn st.old cell n }
    ensures { st.new ≡ put_words st.old (cell_at cell) (alike n (z ∷ replicate 7 (pos 0))) }
{
    for k in 0..n {
        engine_store::set_cell(st, engine_store::cell_at(cell + k), z);
    }
}

// The default cells of a chart's variables, from a cell on, whatever stood there, and the cell behind them.
fn default_cells(sheet: &Reader, st: &mut [i32], c: Record, cell: usize) -> usize
    requires { CellsIn st.old cell (cells_before sheet.now.sheet.now c (chart_variables c).count) }
    ensures { (result ≡ cell + cells_before sheet.now.sheet.now c (chart_variables c).count) × (st.new ≡ put_words st.old (cell_at cell) (default_cells sheet.now.sheet.now (chart_variables c).count (chart_variables c).first)) }
{
    let count = c.f3 as usize;
    let mut next = cell;
    for j in 0..count {
        let d = c.f2 as usize + j;
        let t = sheet_types::type_at(sheet, d);
        let z = default_of(sheet, t);
        let taken = sheet_indices::cells_taken(sheet, d);
        cells_alike(st, next, taken, z);
        next += taken;
    }
    next
}

// "all defaults, nothing waiting"
pub fn default_state(sheet: &Reader, st: &mut [i32])
    requires { (check_of sheet.now.sheet.now ≡ Passed) × (length st.old ≡ state_length sheet.now.sheet.now) }
    ensures { st.new ≡ default_state sheet.now.sheet.now }
{
    engine_copies::zero(st);
    let components = sheet_fields::field_at(sheet, HEAD, 0, 0);
    let count = components.saturating_sub(sheet_fields::field_at(sheet, HEAD, 0, 1));
    let mut cell: usize = 0;
    let mut k: usize = 0;
    for i in 0..count {
        let Some(c) = sheet_bindings::chart_bound(sheet, k) else {
            prove!(false);
            return;
        };
        cell = default_cells(sheet, st, c, cell);
        k += sheet_bindings::records_for(c.f1);
    }
}
