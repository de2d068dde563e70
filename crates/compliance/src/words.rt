// Flags as words: 64 of them in each, the lowest bit first.
ghost use Rattle.std.specs.Prelude.{◌≡◌, ◌≤◌, length, get_or, set, eqb};
ghost use Rattle.compliance.specs.Highest.{at_least};
ghost use Rattle.compliance.specs.Working.Words.{flags_of, words_for};
ghost use Rattle.limits.specs.Limits.{most_principals};

// Is the flag i set? Past the end there is none.
pub(crate) fn is_set(words: &[u64], i: usize) -> bool
    ensures { result ≡ eqb (get_or (flags_of words.now) i 0) 1 }
{
    let j = i / 64;
    j < words.len() && (words[j] >> (i % 64)) % 2 == 1
}

// Sets the flag i, if there is one.
pub(crate) fn set_flag(words: &mut [u64], i: usize)
    ensures { flags_of words.new ≡ set (flags_of words.old) i 1 }
{
    let j = i / 64;
    if j < words.len() {
        words[j] |= 1 << (i % 64);
    }
}

// How many flags are set.
pub(crate) fn count(words: &[u64]) -> usize
    requires { length words.now ≤ words_for most_principals }
    ensures { result ≡ at_least 1 (flags_of words.now) }
{
    words.iter().map(|w| w.count_ones() as usize).sum()
}
