// The step limit of a sheet.
#![tactic(auto)]

ghost use Rattle.std.specs.Prelude.{◌≡◌, ◌<◌};
ghost use Rattle.machine.specs.Play.{limit_of};

use sheet::HEAD;
use sheet_opened::Reader;

// "f3 step limit (0 means 2,000)", which is a 16-bit number.
pub fn limit(sheet: &Reader) -> u32
    ensures { (result ≡ limit_of sheet.now.sheet.now) × (result < 65536) }
{
    let steps = sheet_fields::field_at(sheet, HEAD, 0, 3);
    if steps == 0 {
        return 2000;
    }
    steps as u32
}
