// The rank of licensees: a short postfix program over the ranks of principals, run on a stack.
ghost use Rattle.std.specs.Prelude.{◌≡◌, ◌≤◌, length, get_or, take};
ghost use Rattle.compliance.specs.Codes.{k_of_code};
ghost use Rattle.compliance.specs.Working.Machine.{Live, pushed, combined, stepped, worth, last_of};

use crate::highest::kth_highest;

// An instruction below TOP pushes the rank of the principal with that index.
// TOP pushes the highest rank: for a Licensees field that is missing.
pub const TOP: u16 = 32768;
// K_OF + SPAN * k + n takes n numbers off the stack and pushes their k-th highest.
const K_OF: u16 = TOP + 1;

const SPAN: u16 = 32;
// The lesser of two, which is 2-of two.
pub const AND: u16 = K_OF + SPAN * 2 + 2;
// The greater of two, which is 1-of two.
pub const OR: u16 = K_OF + SPAN * 1 + 2;
// 0, which is 1-of none: for a Licensees field that is empty.
pub const ZERO: u16 = K_OF + SPAN * 1;

// The instruction for K-of a list of n.
pub fn k_of(k: u8, n: u8) -> u16
    ensures { result ≡ k_of_code k n }
{
    K_OF + SPAN * u16::from(k) + u16::from(n)
}

// The item at i, and `none` past the end.
pub(crate) fn item_or<T: Copy>(s: &[T], i: usize, none: T) -> T
    ensures { result ≡ get_or s.now i none }
{
    s.get(i).copied().unwrap_or(none)
}

// The index at i, and 0 past the end.
pub(crate) fn index_at(s: &[u16], i: usize) -> usize
    ensures { result ≡ get_or s.now i 0 }
{
    usize::from(item_or(s, i, 0))
}

// Puts v on a stack of sp numbers, unless it is full; how many it has then.
// Kept: a slice with its length beside, since there is no heap and the caller lends the memory.
fn push(stack: &mut [u8], sp: usize, v: u8) -> usize
    requires { sp ≤ length stack.old }
    ensures { Live stack.new result (pushed (length stack.old) (take sp stack.old) v) }
{
    if sp < stack.len() {
        stack[sp] = v;
        return sp + 1;
    }
    sp
}

// The topmost n numbers give way to their k-th highest.
fn combine(stack: &mut [u8], sp: usize, k: usize, n: usize) -> usize
    requires { sp ≤ length stack.old }
    ensures { Live stack.new result (combined (length stack.old) k n (take sp stack.old)) }
{
    let base = sp.saturating_sub(n);
    let v = kth_highest(&stack[base..sp], k);
    push(stack, base, v)
}

// One instruction.
// Kept: a number and no enum, since `solve` is lent a table of such numbers and its clause speaks of them (specs/Codes).
fn step(op: u16, ranks: &[u8], top: u8, stack: &mut [u8], sp: usize) -> usize
    requires { sp ≤ length stack.old }
    ensures { Live stack.new result (stepped ranks.now top (length stack.old) op (take sp stack.old)) }
{
    if op < TOP {
        return push(stack, sp, item_or(ranks, usize::from(op), 0));
    }
    if op == TOP {
        return push(stack, sp, top);
    }
    let x = op - K_OF;
    combine(stack, sp, usize::from(x / SPAN), usize::from(x % SPAN))
}

// The topmost of sp numbers, and 0 where there is none.
fn last(stack: &[u8], sp: usize) -> u8
    requires { sp ≤ length stack.now }
    ensures { result ≡ last_of (take sp stack.now) }
{
    stack[..sp].last().copied().unwrap_or(0)
}

// What the program leaves on top of an empty stack, instruction by instruction, and 0 where it leaves none.
pub(crate) fn run(code: &[u16], ranks: &[u8], top: u8, stack: &mut [u8]) -> u8
    ensures { result ≡ worth ranks.now top (length stack.old) code.now }
{
    let mut sp = 0;
    for op in code {
        sp = step(*op, ranks, top, stack, sp);
    }
    last(stack, sp)
}
