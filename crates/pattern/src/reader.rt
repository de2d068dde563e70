// Patterns read: what is known of each part, and which places follow which. Each function is given a depth, which falls at every call.
ghost use Rattle.std.specs.Prelude.{◌≡◌};
ghost use Rattle.pattern.specs.Working.Parse as R;

use crate::atoms::{End, one_end};
use crate::places::{Part, byte_part, choice, end_part, or_empty, sequence, start_part};
use crate::rows::link;

// What is known of the part that was parsed, and where it ends.
#[derive(Clone, Copy)]
pub struct Parsed {
    pub part: Part,
    pub next: usize,
}

// Past the byte b, where it stands at i.
fn eat(p: &[u8], i: usize, b: u8) -> Option<usize>
    ensures { R.Ate p.now i b result }
{
    if i < p.len() && p[i] == b {
        return Some(i + 1);
    }
    None
}

// * + ? behind an atom
fn repeated(p: &[u8], part: Part, next: usize, t: &mut [u64]) -> Option<Parsed>
    ensures { R.ran result t.new ≡ R.repeated p.now part next t.old }
{
    if let Some(next) = eat(p, next, b'*') {
        link(t, part.lm, part.fm);
        return Some(Parsed {
            part: or_empty(part),
            next,
        });
    }
    if let Some(next) = eat(p, next, b'+') {
        link(t, part.lm, part.fm);
        return Some(Parsed { part, next });
    }
    if let Some(next) = eat(p, next, b'?') {
        return Some(Parsed {
            part: or_empty(part),
            next,
        });
    }
    Some(Parsed { part, next })
}

#[cycle(atom_branch_branch_rest_expression_expression_rest_piece)]
fn atom(p: &[u8], i: usize, d: usize, t: &mut [u64]) -> Option<Parsed>
    ensures { R.ran result t.new ≡ R.atom_at d p.now i t.old }
{
    if d == 0 {
        return None;
    }
    if let Some(inner) = eat(p, i, b'(') {
        let Parsed { part, next } = expression(p, inner, d - 1, t)?;
        let next = eat(p, next, b')')?;
        return Some(Parsed { part, next });
    }
    let end = one_end(p, i)?;
    Some(Parsed {
        part: byte_part(i),
        next: end.at,
    })
}

#[cycle(atom_branch_branch_rest_expression_expression_rest_piece)]
fn piece(p: &[u8], i: usize, d: usize, t: &mut [u64]) -> Option<Parsed>
    ensures { R.ran result t.new ≡ R.piece_at d p.now i t.old }
{
    if d == 0 {
        return None;
    }
    if let Some(next) = eat(p, i, b'^') {
        return Some(Parsed {
            part: start_part(),
            next,
        });
    }
    if let Some(next) = eat(p, i, b'$') {
        return Some(Parsed {
            part: end_part(),
            next,
        });
    }
    let Parsed { part, next } = atom(p, i, d - 1, t)?;
    repeated(p, part, next, t)
}

#[cycle(atom_branch_branch_rest_expression_expression_rest_piece)]
fn branch_rest(p: &[u8], from: usize, known: Part, d: usize, t: &mut [u64]) -> Option<Parsed>
    ensures { R.ran result t.new ≡ R.branch_rest_at d p.now known from t.old }
{
    if d == 0 {
        return None;
    }
    let mut part = known;
    let mut i = from;
    // Kept: a turn goes on behind a piece, so there is no range to go over.
    while i < p.len() {
        if p[i] == b'|' || p[i] == b')' {
            return Some(Parsed { part, next: i });
        }
        let Parsed { part: g, next } = piece(p, i, d - 1, t)?;
        if next <= i {
            return None;
        }
        link(t, part.lm, g.fm);
        part = sequence(part, g);
        i = next;
    }
    Some(Parsed { part, next: i })
}

#[cycle(atom_branch_branch_rest_expression_expression_rest_piece)]
fn branch(p: &[u8], i: usize, d: usize, t: &mut [u64]) -> Option<Parsed>
    ensures { R.ran result t.new ≡ R.branch_at d p.now i t.old }
{
    if d == 0 {
        return None;
    }
    let Parsed { part, next } = piece(p, i, d - 1, t)?;
    branch_rest(p, next, part, d - 1, t)
}

#[cycle(atom_branch_branch_rest_expression_expression_rest_piece)]
fn expression_rest(p: &[u8], from: usize, known: Part, d: usize, t: &mut [u64]) -> Option<Parsed>
    ensures { R.ran result t.new ≡ R.expr_rest_at d p.now known from t.old }
{
    if d == 0 {
        return None;
    }
    let mut part = known;
    let mut i = from;
    // Kept: a turn goes on behind a branch, so there is no range to go over.
    while i < p.len() {
        if p[i] != b'|' {
            return Some(Parsed { part, next: i });
        }
        let Parsed { part: g, next } = branch(p, i + 1, d - 1, t)?;
        if next <= i {
            return None;
        }
        part = choice(part, g);
        i = next;
    }
    Some(Parsed { part, next: i })
}

#[cycle(atom_branch_branch_rest_expression_expression_rest_piece)]
pub fn expression(p: &[u8], i: usize, d: usize, t: &mut [u64]) -> Option<Parsed>
    ensures { R.ran result t.new ≡ R.expr_at d p.now i t.old }
{
    if d == 0 {
        return None;
    }
    let Parsed { part, next } = branch(p, i, d - 1, t)?;
    expression_rest(p, next, part, d - 1, t)
}
