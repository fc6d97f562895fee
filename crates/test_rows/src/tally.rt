// What came of the rows of a file.
use crate::escapes::escaped;
use crate::row::Row;
use std::alloc::{AllocError, Global};
use std::io;

/// How many rows of a file were compared, and how many differ.
#[derive(Drop)]
pub struct Tally {
    name: String,
    rows: u32,
    different: u32,
}

impl Tally {
    /// That of a file of this name, before its first row.
    pub fn new(alloc: Global, name: &str) -> Result<Tally, AllocError> {
        Ok(Tally {
            name: String::from_str(alloc, name)?,
            rows: 0,
            different: 0,
        })
    }

    /// Compares what came of a row with the row's last field, and prints a difference.
    pub fn compare(
        &mut self,
        rt: &(impl Print + AllocGlobal),
        row: &Row,
        came: &[u8],
    ) -> io::Result<()> {
        self.rows = self.rows.saturating_add(1);
        if row.wanted() == came {
            return Ok(());
        }
        self.different = self.different.saturating_add(1);
        let name = self.name.as_str();
        let line = row.line();
        let wanted = escaped(rt.alloc(), row.wanted())?;
        let came = escaped(rt.alloc(), came)?;
        println!(rt; "{name}:{line}: wanted {wanted}, came {came}")
    }

    /// Prints how many rows were compared; true where all agreed.
    pub fn end(&self, rt: &impl Print) -> io::Result<bool> {
        let name = self.name.as_str();
        let rows = self.rows;
        println!(rt; "{name}: {rows} rows")?;
        Ok(self.different == 0)
    }
}
