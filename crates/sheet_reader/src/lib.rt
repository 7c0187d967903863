// The sheet's reader: any record of any bytes, by section and number.
#![tactic(auto)]

ghost use Rattle.std.specs.Prelude.{◌≡◌, ◌+◌, ◌*◌, ◌<◌, ◌≤◌, length};
ghost use Rattle.sheet.specs.Sheet.{count_of, count_in, record_at, record_of, directory_of};

use sheet::{DIRECTORY, Directory, Record};

// Where the offset of a section stands in the opened directory.
fn offset_place(section: usize) -> usize
    requires { section < 8 }
    ensures { result ≡ 2 * section }
{
    2 * section
}

// Where its count of records stands.
fn count_place(section: usize) -> usize
    requires { section < 8 }
    ensures { result ≡ 2 * section + 1 }
{
    2 * section + 1
}

// The directory, tested once and handed on: each section's offset and its count of records. Where the
// directory is wrong every count is 0.
pub fn directory(sheet: &[u8]) -> Directory
    ensures { result ≡ directory_of sheet.now }
{
    let mut sections = [0usize; DIRECTORY];
    if sheet_directory::directory_right(sheet) {
        for k in 0..8 {
            let offset = offset_place(k);
            let count = count_place(k);
            sections[offset] = sheet_directory::number_at(sheet, 4 * k);
            sections[count] = sheet_directory::number_at(sheet, 4 * k + 2) / 16;
        }
    }
    sections
}

// How many records a section has, by the opened directory. Any array has an answer.
pub fn count_in(directory: &Directory, section: usize) -> usize
    ensures { result ≡ count_in directory.now section }
{
    if section < 8 {
        let place = count_place(section);
        return directory[place];
    }
    0
}

fn fields_at(sheet: &[u8], at: usize) -> Record
    requires { at + 16 ≤ length sheet.now }
    ensures { result ≡ record_at sheet.now at }
{
    Record {
        f0: sheet_directory::word_at(sheet, at),
        f1: sheet_directory::word_at(sheet, at + 2),
        f2: sheet_directory::word_at(sheet, at + 4),
        f3: sheet_directory::word_at(sheet, at + 6),
        f4: sheet_directory::word_at(sheet, at + 8),
        f5: sheet_directory::word_at(sheet, at + 10),
        f6: sheet_directory::word_at(sheet, at + 12),
        f7: sheet_directory::word_at(sheet, at + 14),
    }
}

// A record by the opened directory: the sixteen bytes and one bound.
pub fn read(sheet: &[u8], directory: &Directory, section: usize, number: usize) -> Option<Record>
    requires { directory.now ≡ directory_of sheet.now }
    ensures { result ≡ record_of sheet.now section number }
{
    if 8 <= section {
        return None;
    }
    let count = count_place(section);
    if directory[count] <= number {
        return None;
    }
    let offset = offset_place(section);
    let at = directory[offset] + 16 * number;
    Some(fields_at(sheet, at))
}

// A record by section and number, for a caller who has only the bytes.
pub fn record(sheet: &[u8], section: usize, number: usize) -> Option<Record>
    ensures { result ≡ record_of sheet.now section number }
{
    let opened = directory(sheet);
    read(sheet, &opened, section, number)
}

// How many records a section has, likewise.
pub fn count(sheet: &[u8], section: usize) -> usize
    ensures { result ≡ count_of sheet.now section }
{
    let opened = directory(sheet);
    count_in(&opened, section)
}
