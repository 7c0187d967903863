// How often each node of any bytes is used: for an office's tool that shows which node is the one too many.
#![tactic(auto)]

ghost use Rattle.checker_pass.specs.Test.{MarkingGives};

use checker_pass::{Tested, Unmarked};
use sheet::NODES;
use sheet_opened::Reader;

// Marks each node of any bytes as used never, once or more often: 0, 1 or 2. A mark is lent for each.
pub fn mark_uses(sheet: &[u8], marks: &mut [u16]) -> Result<Tested, Unmarked>
    ensures { MarkingGives sheet.now marks.old marks.new result }
{
    let opened = Reader::new(sheet);
    if marks.len() < opened.count(NODES) {
        return Err(Unmarked::TooFew);
    }
    Ok(checker_uses::used_once(&opened, marks))
}
