// The labels that may still stand: for each kind of token, 1 where it is one.
ghost use Rattle.std.specs.Prelude.{◌≡◌, eqb, get_or, set};
ghost use Rattle.assertion.specs.Labels.{without};

use lexical::kind;

pub fn is_free(free: &[u8], k: usize) -> bool
    ensures { result ≡ eqb (get_or free.now k 0) 1 }
{
    if free.len() <= k {
        return false;
    }
    free[k] == 1
}

fn clear(free: &mut [u8], k: usize)
    ensures { free.new ≡ set free.old k 0 }
{
    if free.len() <= k {
        return;
    }
    free[k] = 0;
}

// The label is used up, and KeyNote-Version may no longer come first.
pub fn use_label(free: &mut [u8], k: usize)
    ensures { free.new ≡ without free.old k }
{
    clear(free, kind::KEYNOTE_VERSION);
    clear(free, k);
}
