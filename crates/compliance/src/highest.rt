// The K-th highest of a list of ranks.
ghost use Rattle.std.specs.Prelude.{◌≡◌};
ghost use Rattle.compliance.specs.Highest.{highest, at_least};

// How many of the values are v or more.
fn at_least(values: &[u8], v: u8) -> usize
    ensures { result ≡ at_least v values.now }
{
    values.iter().filter(|x| v <= **x).count()
}

// The K-th highest of the values, with multiplicity: the highest of which at least k are as high.
pub(crate) fn kth_highest(values: &[u8], k: usize) -> u8
    ensures { result ≡ highest k values.now }
{
    if k == 0 {
        return 0;
    }
    let mut best = 0;
    for x in values {
        // A value that is no higher needs no count.
        if best < *x && k <= at_least(values, *x) {
            best = *x;
        }
    }
    best
}
