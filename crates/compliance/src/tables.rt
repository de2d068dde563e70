// A system as tables of numbers, and what they say of an assertion.
ghost use Rattle.std.specs.Prelude.{◌≡◌};
ghost use Rattle.compliance.specs.Tables.{start_of, program_of};

use crate::machine::index_at;

// The tables that `solve` is given: see there.
// Kept: parallel tables, and 1 for a requester in `direct`, since that is how `solve` is called.
#[derive(Clone, Copy)]
pub(crate) struct System<'a> {
    pub authors: &'a [u16],
    pub conds: &'a [u8],
    pub ends: &'a [u16],
    pub code: &'a [u16],
    pub direct: &'a [u8],
    pub top: u8,
}

impl<'a> System<'a> {
    // Where the program of assertion j starts: where the one before it ends.
    fn start_of(&self, j: usize) -> usize
        ensures { result ≡ start_of self.now.ends.now j }
    {
        if j == 0 {
            return 0;
        }
        index_at(self.ends, j - 1)
    }

    // The program of assertion j; none where its ends do not fit.
    pub(crate) fn program(&self, j: usize) -> &'a [u16]
        ensures { result.now ≡ program_of self.now.ends.now self.now.code.now j }
    {
        let from = self.start_of(j);
        let to = index_at(self.ends, j);
        self.code.get(from..to).unwrap_or(&[])
    }
}
