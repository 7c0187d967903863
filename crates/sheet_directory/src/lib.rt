// Numbers in a sheet's bytes, and whether its directory is right.
#![tactic(auto)]

ghost use Rattle.std.specs.Prelude.{◌≡◌, ◌+◌, ◌*◌, ◌<◌, length};
ghost use Rattle.sheet.specs.Sheet.{word_at, directory_right};

// The 16-bit number at an offset.
pub fn word_at(sheet: &[u8], at: usize) -> u16
    requires { at + 1 < length sheet.now }
    ensures { result ≡ word_at sheet.now at }
{
    u16::from_le_bytes([sheet[at], sheet[at + 1]])
}

// The same as a number to count and to index with.
pub fn number_at(sheet: &[u8], at: usize) -> usize
    requires { at + 1 < length sheet.now }
    ensures { (result ≡ word_at sheet.now at) × (result < 65536) }
{
    word_at(sheet, at) as usize
}

// Whether the sheet's directory is right.
pub fn directory_right(sheet: &[u8]) -> bool
    ensures { result ≡ directory_right sheet.now }
{
    if 65535 < sheet.len() {
        return false;
    }
    if sheet.len() < 32 {
        return false;
    }
    let mut start: usize = 32;
    for k in 0..8 {
        let offset = number_at(sheet, 4 * k);
        let size = number_at(sheet, 4 * k + 2);
        if offset != start {
            return false;
        }
        if size % 16 != 0 {
            return false;
        }
        start = offset + size;
    }
    start == sheet.len()
}
