// Passing over the rows of a part.
ghost use Rattle.std.specs.Prelude.{◌≡◌, ◌+◌, ◌≤◌, length, drop};
ghost use Rattle.messages.specs.Holding.{extent, counts_of};

use crate::parsed::Parsed;

impl<'m, 'r> Parsed<'m, 'r> {
    // The row behind the part that begins at a row.
    pub(crate) fn past_part(self, start: usize) -> usize
        requires { start ≤ length self.rows.now }
        ensures value { result ≡ start + extent 1 (drop start (counts_of self.entry.rows.now)) }
        ensures within { result ≤ length self.entry.rows.now }
    {
        let mut owed: usize = 1;
        for (passed, row) in self.rows[start..].iter().enumerate() {
            if owed == 0 {
                return start + passed;
            }
            owed = owed - 1 + row.count as usize;
        }
        self.rows.len()
    }
}
