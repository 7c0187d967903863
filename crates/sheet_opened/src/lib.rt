// A reader opened on a lent sheet: the bytes and the directory that was tested once, held together. That the directory
// is theirs is a fact of the type, so whoever has a reader asks for records and counts and needs to show nothing; each
// of its functions leaves the work to those of `sheet_reader`.
#![tactic(auto)]

ghost use Rattle.std.specs.Prelude.{◌≡◌};
ghost use Rattle.sheet.specs.Sheet.{count_of, directory_of, record_of};

use sheet::{Directory, Record};

#[derive(Clone, Copy)]
pub struct Reader<'a> {
    pub sheet: &'a [u8],
    pub directory: Directory,
    pub ghost opened: { directory ≡ directory_of sheet.now },
}

impl<'a> Reader<'a> {
    // The directory is tested once, here.
    pub fn new(sheet: &'a [u8]) -> Self
        ensures { (result.sheet ≡ sheet.entry) × (result.directory ≡ directory_of sheet.now) }
    {
        let directory = sheet_reader::directory(sheet);
        Reader { sheet, directory }
    }

    // Any record by section and number.
    pub fn record(&self, section: usize, number: usize) -> Option<Record>
        ensures { result ≡ record_of self.now.sheet.now section number }
    {
        sheet_reader::read(self.sheet, &self.directory, section, number)
    }

    // How many records a section has.
    pub fn count(&self, section: usize) -> usize
        ensures { result ≡ count_of self.now.sheet.now section }
    {
        sheet_reader::count_in(&self.directory, section)
    }
}

// A reader is opened and asked once.
pub fn record(sheet: &[u8], section: usize, number: usize) -> Option<Record>
    ensures { result ≡ record_of sheet.now section number }
{
    Reader::new(sheet).record(section, number)
}
