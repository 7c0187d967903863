// What the fields of a node number, form by form.
#![tactic(auto)]

ghost use Rattle.std.specs.Prelude.{◌≡◌};
ghost use Rattle.sheet_rules.specs.Forms.{form_of};
ghost use Rattle.sheet_rules.specs.Shape.{fields_shape};

use sheet::Record;
use sheet_opened::Reader;

// What the fields of a node number exists, and fields not named are 0.
pub fn fields_fit(sheet: &Reader, c: Record, b: Record, r: Record) -> bool
    ensures { result ≡ fields_shape sheet.now.sheet.now c b r (form_of r.f0) }
{
    let op = r.f0;
    match op {
        1..=6 => checker_literals::literal_fits(sheet, r),
        7 => checker_nodes::variable_fits(c, b, r, 3),
        8 => sheet_fields::zero_from(r, 2),
        9..=16 => sheet_fields::zero_from(r, 3),
        17..=18 => checker_nodes::chart_variable_fits(c, r, 2),
        19 => checker_nodes::chart_variable_fits(c, r, 3),
        32 => sheet_fields::zero_from(r, 1),
        33 => checker_nodes::variable_fits(c, b, r, 4),
        34 => checker_nodes::send_fits(sheet, r),
        35 => checker_nodes::internal_fits(sheet, r),
        36..=37 => checker_nodes::arm_fits(sheet, c, r),
        38..=39 => checker_nodes::chart_variable_fits(c, r, 2),
        40 => checker_nodes::call_fits(sheet, c, r),
        41 => sheet_fields::zero_from(r, 4),
        42..=43 => sheet_fields::zero_from(r, 3),
        44 => checker_nodes::chart_variable_fits(c, r, 4),
        _ => false,
    }
}
