// Where the cells of every element's variables begin and where its binding stands: a table, filled once
// for a call or a list.
#![tactic(auto)]

ghost use Rattle.std.specs.Prelude.{◌≡◌, true, ◌+◌, ◌<◌, ◌≤◌, length};
ghost use Rattle.sheet.specs.Names.{chart_variables, charts};
ghost use Rattle.sheet.specs.Sheet.{record_of};
ghost use Rattle.sheet_rules.specs.declared.Checked.TheVariants.{Passed};
ghost use Rattle.sheet_rules.specs.Fields.{elements_of};
ghost use Rattle.sheet_rules.specs.Indices.{cells_before};
ghost use Rattle.sheet_rules.specs.Shape.{cells_of};
ghost use Rattle.sheet_rules.specs.Check.{check_of};
ghost use Rattle.machine.specs.Values.{is_bound, chart_of};
ghost use Rattle.engine_cells.specs.Cells.{CellTable, Row};

use sheet::{BINDINGS, CHARTS, HEAD, Record};
use sheet_opened::Reader;

// A row for each element: the first cells of its variables, "up to 32" in a chart, the cell behind the
// last one's, and the number of its first binding record.
pub const ROW: usize = 34;

// Where in a row the number of the element's first binding record stands.
pub const FIRST_RECORD: usize = 33;

// Rows for "up to 64 components".
pub const LAYOUT: usize = 2176;

pub type CellLayout = [usize; LAYOUT];

// A passed sheet opened to be played: its reader, where its cells lie, and how many they are.
#[derive(Drop)]
pub struct Yard<'a> {
    pub sheet: Reader<'a>,
    pub cells: CellLayout,
    pub count: usize,
    pub ghost passed: { check_of sheet.sheet.now ≡ Passed },
    pub ghost table: { CellTable sheet.sheet.now cells },
    pub ghost counted: { count ≡ cells_of sheet.sheet.now },
}

impl<'a> Yard<'a> {
    // The table is filled where it lies: 17 KB, which a call that was not inlined would move.
    #[inline(always)]
    pub fn new(sheet: Reader<'a>) -> Self
        requires { check_of sheet.sheet.now ≡ Passed }
        ensures { result.sheet ≡ sheet.entry }
    {
        let mut yard = Yard {
            sheet,
            cells: [0usize; LAYOUT],
            count: 0,
        };
        yard.count = fill(&sheet, &mut yard.cells);
        yard
    }

    // How many bound elements there are.
    pub fn elements(&self) -> usize
        ensures { (result ≡ elements_of self.now.sheet.sheet.now) × (result < 64) }
    {
        elements(&self.sheet)
    }

    // The number of bound element e's chart, which the first record of its row names.
    pub fn chart_number(&self, e: usize) -> usize
        requires { is_bound self.now.sheet.sheet.now e ≡ true }
        ensures { record_of self.now.sheet.sheet.now charts result ≡ chart_of self.now.sheet.sheet.now e }
    {
        let i = e - sheet_fields::field_at(&self.sheet, HEAD, 0, 1);
        sheet_fields::field_at(&self.sheet, BINDINGS, self.cells[ROW * i + FIRST_RECORD], 0)
    }

    // The chart of bound element e, by its row.
    pub fn chart(&self, e: usize) -> Option<Record>
        requires { is_bound self.now.sheet.sheet.now e ≡ true }
        ensures { result ≡ chart_of self.now.sheet.sheet.now e }
    {
        let n = self.chart_number(e);
        self.sheet.record(CHARTS, n)
    }
}

// How many elements a passed sheet binds.
pub fn elements(sheet: &Reader) -> usize
    requires { check_of sheet.now.sheet.now ≡ Passed }
    ensures { (result ≡ elements_of sheet.now.sheet.now) × (result < 64) }
{
    let components = sheet_fields::field_at(sheet, HEAD, 0, 0);
    components - sheet_fields::field_at(sheet, HEAD, 0, 1)
}

// Enters the cells of chart c's variables from place `at` on, the first one's being given, and gives
// the cell behind them.
fn fill_row(sheet: &Reader, cells: &mut CellLayout, c: Record, at: usize, cell: usize) -> usize
    requires { (length cells.old ≡ 2176) × ((chart_variables c).count ≤ 32) × (at + 34 ≤ 2176) × (cell + cells_before sheet.now.sheet.now c (chart_variables c).count ≤ 512) }
    ensures { (result ≡ cell + cells_before sheet.now.sheet.now c (chart_variables c).count) × Row sheet.now.sheet.now c at cell ((chart_variables c).count + 1) cells.old cells.new }
{
    let count = c.f3 as usize;
    let mut next = cell;
    for n in 0..count {
        cells[at + n] = next;
        let taken = sheet_indices::cells_taken(sheet, c.f2 as usize + n);
        next += taken;
    }
    cells[at + count] = next;
    next
}

// Fills the table, and gives how many cells there are. A passed sheet has at most 64 components. Each
// element's records stand behind those of the elements before it.
pub fn fill(sheet: &Reader, cells: &mut CellLayout) -> usize
    requires { (check_of sheet.now.sheet.now ≡ Passed) × (length cells.old ≡ 2176) }
    ensures { (result ≡ cells_of sheet.now.sheet.now) × CellTable sheet.now.sheet.now cells.new }
{
    let count = elements(sheet);
    let mut cell: usize = 0;
    let mut k: usize = 0;
    for i in 0..count {
        let Some(c) = sheet_bindings::chart_bound(sheet, k) else {
            prove!(false);
            return cell;
        };
        cell = fill_row(sheet, cells, c, ROW * i, cell);
        cells[ROW * i + FIRST_RECORD] = k;
        k += sheet_bindings::records_for(c.f1);
    }
    cell
}
