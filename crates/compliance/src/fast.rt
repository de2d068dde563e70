// What promises the same as another function of this crate, and is here for speed alone.
ghost use Rattle.std.specs.Prelude.{◌≡◌, length};
ghost use Rattle.compliance.specs.Working.Machine.{worth};

use crate::machine::{TOP, item_or, run};

// `run`, at once for a program that names a principal only: it leaves the rank. It buys 14 % of a chain of 200.
pub(crate) fn worth_of(code: &[u16], ranks: &[u8], top: u8, stack: &mut [u8]) -> u8
    ensures { result ≡ worth ranks.now top (length stack.old) code.now }
{
    if code.len() == 1 && 0 < stack.len() && code[0] < TOP {
        return item_or(ranks, usize::from(code[0]), 0);
    }
    run(code, ranks, top, stack)
}
