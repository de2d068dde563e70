// Scanning by an index: the byte some way on, and the end of a run of bytes.
ghost use Rattle.std.specs.Prelude.{◌≡◌, ◌+◌, Bool, false, ℕ, get_or};
ghost use Rattle.text.specs.Scan.{past};
ghost use Rattle.lexical.specs.Run.{in_run, numbered};
ghost use Rattle.lexical.specs.Tests.{Tests};

use crate::class::{begins_name, begins_number, is_indent, is_newline};

// What a run is made of: spaces and tabs; these and newlines; all but newline and NUL; letters, digits and underscores; digits.
#[derive(Clone, Copy)]
pub enum Run {
    Blanks,
    White,
    Free,
    Word,
    Numerals,
}

// The byte k places on, or 0 behind the end.
pub fn byte_at(s: &[u8], i: usize, k: usize) -> u8
    ensures { result ≡ get_or s.now (i + k) 0 }
{
    s.get(i.saturating_add(k)).copied().unwrap_or(0)
}

impl Run {
    // The run of a number: 0 to 3 in the order above, and digits from 4 on.
    pub fn numbered(k: u8) -> Run
        ensures { result ≡ numbered k }
    {
        match k {
            0 => Run::Blanks,
            1 => Run::White,
            2 => Run::Free,
            3 => Run::Word,
            _ => Run::Numerals,
        }
    }

    // Does a byte belong to it?
    #[tactic(auto, using(crate::proofs::ClassWays::runs), unfolding(crate::specs::Run::in_run, crate::specs::Run::has_class))]
    pub fn has(self, b: u8) -> bool
        ensures { result ≡ in_run self b }
    {
        match self {
            Run::Blanks => is_indent(b),
            Run::White => is_indent(b) || is_newline(b),
            Run::Free => !is_newline(b) && b != 0,
            Run::Word => begins_name(b) || begins_number(b),
            Run::Numerals => begins_number(b),
        }
    }

    // The end of the run of it that starts at `at`.
    pub fn end(self, s: &[u8], at: usize) -> usize
        ensures { result ≡ past (in_run self) s.now at }
    {
        end_of(s, at, |b| self.has(b))
    }
}

// The end of the bytes from `at` on that are marked. Any other test goes as the table of its answers (`marked-alike`).
pub fn end_marked(s: &[u8], at: usize, marks: &[bool; 256]) -> usize
    ensures { result ≡ past (λ b. get_or marks.now b false) s.now at }
{
    end_of(s, at, |b| marks[usize::from(b)])
}

// The end of the bytes from `at` on that pass a test.
pub(crate) fn end_of<F: Fn(u8) -> bool>(s: &[u8], at: usize, passes: F) -> usize
    requires { F.IsAlwaysCallable passes }
    ensures { (p : ℕ → Bool) → Tests (F.post passes) p → result ≡ past p s.now at }
{
    let mut i = at;
    // Kept: the place itself is counted. A range counts turns beside it, at every token: names and marks took 1.2 times the instructions.
    while i < s.len() && passes(s[i]) {
        i += 1;
    }
    // Where the run stops, or `at` behind the text.
    i
}
