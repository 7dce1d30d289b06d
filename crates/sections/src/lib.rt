// Byte strings cut into counted sections: a count of one byte, then as many entries of one size.
#![tactic(auto)]

ghost use Rattle.std.specs.Prelude.{◌≡◌, Result};
ghost use Rattle.sections.specs.Sections.{entry_number, Sectioned};
ghost use Rattle.sections.specs.declared.Section.{Section};
ghost use Rattle.sections.specs.declared.Cut.{Cut};

/// A section that is whole.
#[derive(Clone, Copy, PartialEq, Eq, Debug)]
pub struct Section {
    /// How many entries it has.
    pub count: u8,
    /// The place behind its last entry.
    pub end: usize,
}

/// Where the bytes end before a section does.
#[derive(Clone, Copy, PartialEq, Eq, Debug)]
pub enum Cut {
    /// Before the count.
    NoCount,
    /// Inside this entry, the first that is not whole. Entries are numbered from 1.
    InEntry(u8),
}

impl Cut {
    /// The number of the entry that is not whole, from 1; 0 where the count is missing.
    pub fn entry(self) -> u8
        ensures { result ≡ entry_number self }
    {
        // A refusal numbers its entry from 1 and has 0 for none, so the missing count is 0 here.
        match self {
            Cut::NoCount => 0,
            Cut::InEntry(entry) => entry,
        }
    }
}

impl Section {
    /// Cuts out the section whose count stands at `start` and whose entries have `size` bytes each.
    ///
    /// In the bytes 9, 2, 5, 6, 7 the section at 1 with entries of size 1 has two of them and ends at 4; with entries
    /// of size 2 the bytes end inside the second. Entries of size 0 are always whole.
    pub fn cut(bytes: &[u8], start: usize, size: usize) -> Result<Section, Cut>
        ensures value { Sectioned bytes.now start size result }
        ensures only { (other : Result Section Cut) → Sectioned bytes.now start size other → other ≡ result }
    {
        let Some(&count) = bytes.get(start) else {
            return Err(Cut::NoCount);
        };
        let entries = start + 1;
        if size == 0 {
            return Ok(Section {
                count,
                end: entries,
            });
        }
        let whole = (bytes.len() - entries) / size;
        if whole < count as usize {
            return Err(Cut::InEntry(whole as u8 + 1));
        }
        Ok(Section {
            count,
            end: entries + count as usize * size,
        })
    }
}
