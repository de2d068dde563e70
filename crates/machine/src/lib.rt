// The machine that runs compiled Conditions: a stack of operands, two numbers each, and the bytes of their strings one after the other.
#![tactic(auto)]

ghost use Rattle.std.specs.Prelude.{◌≡◌, [], map, ◌+◌, ◌-◌, ◌≤◌, ◌<◌, max, eqb, leb, length, take, drop};
ghost use Rattle.text.specs.Choice.{pick};
ghost use Rattle.text.specs.Class.{in_class, digit, word};
ghost use Rattle.text.specs.Scan.{past};
ghost use Rattle.text.specs.Counted.{counted};
ghost use Rattle.lexical.specs.Literal.{decoded_at};
ghost use Rattle.float.specs.Written.{float_of};
ghost use Rattle.syntax.specs.Op.{PLAIN, RAISE};
ghost use Rattle.syntax.specs.Code.{decimal_at};
ghost use Rattle.expression.specs.Operands.{rank_in};
ghost use Rattle.expression.specs.Tables.{lookup_in};
ghost use Rattle.machine.specs.Working.Machine.{run_at, text_step, top_of, unary_step, lookup_step, binary_on, binary_step, raised, is_idle, clause_step, push_step, act_of, outer, above, behind_of, stop_at, go_on, closing, begun, ended, needless, exec, result_of, on};
ghost use Rattle.machine.specs.Working.Left.{left_in};
ghost use Rattle.machine.specs.Working.Given.{gave, string_of, string_in};
ghost use Rattle.machine.specs.Working.Live.{Live, landed, put_at, put_below};
ghost use Rattle.machine.specs.Working.Quick.{put_two, is_natural, is_told, is_logical, decides};
ghost use Rattle.machine.specs.Working.Alike.{is_alike, agrees, alike_on};
ghost use Rattle.machine.specs.Working.Joining.{is_joining, join_on};

use expression::integer::in_range;
use expression::name::Scope;
use expression::operator::{apply, combine, of_naturals, top_rank};
use expression::value::{
    Operand, Packed, is_fault, is_text, kind_of, rank_in, size_of, told, unpack, width_of,
};
use lexical::literal::{DecodeError, bare_end, decode_within};
use limits::MOST_STRING;

// How many numbers and bytes the stacks hold. There is none where the machine can't go on, the code being none or a buffer too small.
#[derive(Clone, Copy)]
pub struct Tops {
    pub numbers: usize,
    pub bytes: usize,
}

fn wide(x: u32) -> usize
    ensures { result ≡ x }
{
    x as usize
}

// The longest part from a place on whose bytes are letters, digits and underscores.
fn word_at(s: &[u8], at: usize) -> &[u8]
    ensures { result.now ≡ run_at word s.now at }
{
    if s.len() <= at {
        return &s[..0];
    }
    let e = text::word_end(s, at);
    &s[at..e]
}

// Behind the digits from a place on.
fn digits_end(s: &[u8], at: usize) -> usize
    ensures { result ≡ past (in_class digit) s.now at }
{
    if s.len() <= at {
        return at;
    }
    at + text::front(&s[at..], text::Class::Digit)
}

// The float that the literal from a place on writes.
fn decimal_at(s: &[u8], at: usize) -> f32
    ensures { result ≡ float_of (decimal_at s.now at) }
{
    if s.len() <= at {
        return 0.0;
    }
    let p = digits_end(s, at);
    if s.len() <= p {
        return float::written::to_float(&s[at..]);
    }
    let e = digits_end(s, p + 1);
    float::written::to_float(&s[at..e])
}

// Puts an operand on a stack of n numbers; t is where its string ends.
fn put(stack: &mut [u64], n: usize, t: usize, v: Operand) -> Option<Tops>
    requires { n ≤ length stack.old }
    ensures { landed result stack.new ≡ put_at stack.old n t v }
{
    if stack.len() < n + 2 {
        return None;
    }
    let k = kind_of(v);
    let m = size_of(v);
    stack[n] = k;
    stack[n + 1] = m;
    Some(Tops {
        numbers: n + 2,
        bytes: t,
    })
}

// Puts a string on the stacks.
fn push_text(stack: &mut [u64], n: usize, bytes: &mut [u8], t: usize, b: &[u8]) -> Option<Tops>
    requires { (n ≤ length stack.old) × (t ≤ length bytes.old) }
    ensures { Live result stack.new bytes.new (text_step (length stack.old) (length bytes.old) b.now (take n stack.old) (take t bytes.old)) }
{
    let k = b.len();
    if MOST_STRING < k {
        return put(stack, n, t, Operand::Fault);
    }
    if text::copy_at(bytes, t, b) {
        return put(stack, n, t + k, Operand::Text { length: k });
    }
    None
}

// Puts what a literal gives on the stacks; one of plain bytes as it stands, which buys 6 % of an error in every one, by reference.
fn push_literal(
    s: &[u8],
    at: usize,
    stack: &mut [u64],
    n: usize,
    bytes: &mut [u8],
    t: usize,
) -> Option<Tops>
    requires { (n ≤ length stack.old) × (t ≤ length bytes.old) }
    ensures { Live result stack.new bytes.new (text_step (length stack.old) (length bytes.old) (decoded_at s.now at) (take n stack.old) (take t bytes.old)) }
{
    if let Some(end) = bare_end(s, at) {
        return push_text(stack, n, bytes, t, &s[at + 1..end]);
    }
    match decode_within(s, at, bytes, t, MOST_STRING) {
        Ok(length) => put(stack, n, t + length, Operand::Text { length }),
        Err(DecodeError::Long) => put(stack, n, t, Operand::Fault),
        Err(DecodeError::Full) => None,
    }
}

// The operand on top of n numbers.
fn top(stack: &[u64], n: usize) -> Operand
    requires { n ≤ length stack.now }
    ensures { result ≡ top_of (take n stack.now) }
{
    if n < 2 {
        return Operand::Fault;
    }
    unpack(stack[n - 2], stack[n - 1])
}

// The topmost operand gives way to what an operation makes of it.
fn unary_step(
    op: u32,
    scope: &Scope,
    stack: &mut [u64],
    n: usize,
    bytes: &[u8],
    t: usize,
) -> Option<Tops>
    requires { (n ≤ length stack.old) × (t ≤ length bytes.now) }
    ensures { Live result stack.new bytes.now (unary_step (length stack.old) (map (counted scope.now.query.now) scope.now.values.now) op (take n stack.old) (take t bytes.now)) }
{
    if n < 2 {
        return None;
    }
    let x = top(stack, n);
    let w = width_of(x);
    if t < w {
        return None;
    }
    let v = apply(op, x, &bytes[t - w..t], scope.query, scope.values);
    put(stack, n - 2, t - w, v)
}

// The topmost string gives way to the value of the name that it is.
fn lookup_step(
    scope: &Scope,
    stack: &mut [u64],
    n: usize,
    bytes: &mut [u8],
    t: usize,
) -> Option<Tops>
    requires { (n ≤ length stack.old) × (t ≤ length bytes.old) }
    ensures { Live result stack.new bytes.new (lookup_step (length stack.old) (length bytes.old) (lookup_in scope.now.query.now scope.now.consts.now scope.now.values.now scope.now.names.now scope.now.constants.now) (take n stack.old) (take t bytes.old)) }
{
    if n < 2 {
        return None;
    }
    let x = top(stack, n);
    let w = width_of(x);
    if t < w {
        return None;
    }
    if is_text(x) {
        let b = scope.lookup(&bytes[t - w..t]);
        return push_text(stack, n - 2, bytes, t - w, b);
    }
    put(stack, n - 2, t - w, Operand::Fault)
}

// Puts an operand whose string starts at `base`, below the top t.
fn put_below(stack: &mut [u64], n: usize, t: usize, base: usize, v: Operand) -> Option<Tops>
    requires { n ≤ length stack.old }
    ensures { landed result stack.new ≡ put_below stack.old n t base v }
{
    let w = width_of(v);
    if t < base {
        return None;
    }
    if t - base < w {
        return None;
    }
    put(stack, n, base + w, v)
}

// Two operands that stood on top give way to what an operation makes of them.
fn binary_on(
    op: u32,
    x: Operand,
    y: Operand,
    scope: &Scope,
    stack: &mut [u64],
    n: usize,
    bytes: &[u8],
    t: usize,
) -> Option<Tops>
    requires { (n ≤ length stack.old) × (t ≤ length bytes.now) }
    ensures { Live result stack.new bytes.now (binary_on (length stack.old) (map (counted scope.now.query.now) scope.now.values.now) op x y (take n stack.old) (take t bytes.now)) }
{
    let wy = width_of(y);
    let wx = width_of(x);
    if t < wy {
        return None;
    }
    let mid = t - wy;
    if mid < wx {
        return None;
    }
    let base = mid - wx;
    let v = combine(
        op,
        x,
        y,
        &bytes[base..mid],
        &bytes[mid..t],
        scope.query,
        scope.values,
    );
    put_below(stack, n, t, base, v)
}

// Puts a packed operand on a stack of n numbers that has room for it.
fn land(stack: &mut [u64], n: usize, t: usize, q: Packed) -> Option<Tops>
    requires { n + 2 ≤ length stack.old }
    ensures { landed result stack.new ≡ put_two stack.old n t q.kind q.size }
{
    stack[n] = q.kind;
    stack[n + 1] = q.size;
    Some(Tops {
        numbers: n + 2,
        bytes: t,
    })
}

// Is it an operation on integers, and are both kinds those of integers without a sign?
fn is_natural(op: u32, x: u64, y: u64) -> bool
    ensures { result ≡ is_natural op x y }
{
    if x != 1 {
        return false;
    }
    if y != 1 {
        return false;
    }
    if op < syntax::POWER {
        return false;
    }
    if op <= syntax::MINUS {
        return true;
    }
    if op < syntax::EQUAL {
        return false;
    }
    op <= syntax::AT_LEAST
}

// Is it the kind of a test?
fn is_told(kind: u64) -> bool
    ensures { result ≡ is_told kind }
{
    if kind == 3 {
        return true;
    }
    kind == 4
}

// Is it "&&" or "||", and are both kinds those of tests?
fn is_logical(op: u32, x: u64, y: u64) -> bool
    ensures { result ≡ is_logical op x y }
{
    if op < syntax::BOTH {
        return false;
    }
    if syntax::EITHER < op {
        return false;
    }
    if is_told(x) {
        return is_told(y);
    }
    false
}

fn is_held(kind: u64) -> bool
    ensures { result ≡ eqb kind 4 }
{
    kind == 4
}

// What "&&" or "||" makes of two tests.
fn decided(op: u32, x: bool, y: bool) -> bool
    ensures { result ≡ decides op x y }
{
    if op == syntax::BOTH {
        if x {
            return y;
        }
        return false;
    }
    if x {
        return true;
    }
    y
}

// Is it "==" or "!=" of strings, and are both kinds those of strings?
fn is_alike(op: u32, x: u64, y: u64) -> bool
    ensures { result ≡ is_alike op x y }
{
    if x != 0 {
        return false;
    }
    if y != 0 {
        return false;
    }
    if op == syntax::TEXT_EQUAL {
        return true;
    }
    op == syntax::TEXT_UNEQUAL
}

// What "==" or "!=" makes of strings that are the same or not.
fn agreed(op: u32, same: bool) -> bool
    ensures { result ≡ agrees op same }
{
    if op == syntax::TEXT_EQUAL {
        return same;
    }
    if same {
        return false;
    }
    true
}

fn count_of(size: u64) -> usize
    ensures { result ≡ size }
{
    size as usize
}

// Two strings that end the bytes give way to the test whether they are the same.
fn texts_step(
    op: u32,
    wx: usize,
    wy: usize,
    stack: &mut [u64],
    n: usize,
    bytes: &[u8],
    t: usize,
) -> Option<Tops>
    requires { (n + 2 ≤ length stack.old) × (t ≤ length bytes.now) }
    ensures { Live result stack.new bytes.now (alike_on (length stack.old) op wx wy (take n stack.old) (take t bytes.now)) }
{
    if t < wy {
        return None;
    }
    let mid = t - wy;
    if mid < wx {
        return None;
    }
    let base = mid - wx;
    let same = text::same_long(&bytes[base..mid], &bytes[mid..t]);
    let q = told(agreed(op, same));
    land(stack, n, base, q)
}

// Is it ".", and are both kinds those of strings?
fn is_joining(op: u32, x: u64, y: u64) -> bool
    ensures { result ≡ is_joining op x y }
{
    if op != syntax::JOIN {
        return false;
    }
    if x != 0 {
        return false;
    }
    y == 0
}

// Two strings that end the bytes give way to the one that they make where they lie; one that is too long is a fault.
fn join_step(
    wx: usize,
    wy: usize,
    stack: &mut [u64],
    n: usize,
    bytes: &[u8],
    t: usize,
) -> Option<Tops>
    requires { (n + 2 ≤ length stack.old) × (t ≤ length bytes.now) }
    ensures { Live result stack.new bytes.now (join_on (length stack.old) wx wy (take n stack.old) (take t bytes.now)) }
{
    if t < wy {
        return None;
    }
    let mid = t - wy;
    if mid < wx {
        return None;
    }
    if MOST_STRING < wx + wy {
        return put(stack, n, mid - wx, Operand::Fault);
    }
    put(stack, n, t, Operand::Text { length: wx + wy })
}

// The two topmost operands give way to what an operation makes of them.
fn binary_step(
    op: u32,
    scope: &Scope,
    stack: &mut [u64],
    n: usize,
    bytes: &[u8],
    t: usize,
) -> Option<Tops>
    requires { (n ≤ length stack.old) × (t ≤ length bytes.now) }
    ensures { Live result stack.new bytes.now (binary_step (length stack.old) (map (counted scope.now.query.now) scope.now.values.now) op (take n stack.old) (take t bytes.now)) }
{
    if n < 4 {
        return None;
    }
    let y = top(stack, n);
    let x = top(stack, n - 2);
    binary_on(op, x, y, scope, stack, n - 4, bytes, t)
}

// `binary_step` of an operator of expressions, by the numbers alone where the operands are integers without a sign (it buys 33 % of integers),
// tests (23 % of tests) or strings to be compared (9 % of escapes) or joined (11 % of long literals joined).
fn operator_step(
    op: u32,
    scope: &Scope,
    stack: &mut [u64],
    n: usize,
    bytes: &[u8],
    t: usize,
) -> Option<Tops>
    requires { (n ≤ length stack.old) × (t ≤ length bytes.now) }
    ensures { Live result stack.new bytes.now (binary_step (length stack.old) (map (counted scope.now.query.now) scope.now.values.now) op (take n stack.old) (take t bytes.now)) }
{
    if n < 4 {
        return None;
    }
    if is_natural(op, stack[n - 4], stack[n - 2]) {
        let q = of_naturals(op, stack[n - 3], stack[n - 1]);
        return land(stack, n - 4, t, q);
    }
    if is_logical(op, stack[n - 4], stack[n - 2]) {
        let x = is_held(stack[n - 4]);
        let y = is_held(stack[n - 2]);
        let q = told(decided(op, x, y));
        return land(stack, n - 4, t, q);
    }
    if is_alike(op, stack[n - 4], stack[n - 2]) {
        let wx = count_of(stack[n - 3]);
        let wy = count_of(stack[n - 1]);
        return texts_step(op, wx, wy, stack, n - 4, bytes, t);
    }
    if is_joining(op, stack[n - 4], stack[n - 2]) {
        let wx = count_of(stack[n - 3]);
        let wy = count_of(stack[n - 1]);
        return join_step(wx, wy, stack, n - 4, bytes, t);
    }
    binary_step(op, scope, stack, n, bytes, t)
}

fn greater(x: u64, y: u64) -> u64
    ensures { result ≡ max x y }
{
    if x < y {
        return y;
    }
    x
}

// `binary_step` of RAISE, which brings the rank on top to the one below it: by the numbers alone where both are ranks. With `plain_step`'s it
// buys 22 % of clauses.
fn raise_step(scope: &Scope, stack: &mut [u64], n: usize, bytes: &[u8], t: usize) -> Option<Tops>
    requires { (n ≤ length stack.old) × (t ≤ length bytes.now) }
    ensures { Live result stack.new bytes.now (binary_step (length stack.old) (map (counted scope.now.query.now) scope.now.values.now) RAISE (take n stack.old) (take t bytes.now)) }
{
    if n < 4 {
        return None;
    }
    if stack[n - 4] == 5 {
        if stack[n - 2] == 5 {
            let m = greater(stack[n - 3], stack[n - 1]);
            return land(stack, n - 4, t, Packed { kind: 5, size: m });
        }
    }
    binary_step(syntax::RAISE, scope, stack, n, bytes, t)
}

// The rank of a clause that is a test of that kind.
fn rank_told(kind: u64, values: &[usize]) -> u64
    ensures { result ≡ pick (eqb kind 4) (length values.now - 1) 0 }
{
    if kind == 4 {
        return top_rank(values) as u64;
    }
    0
}

// Brings a clause that is a test to a rank, and that to its program's.
fn plain_step(scope: &Scope, stack: &mut [u64], n: usize, bytes: &[u8], t: usize) -> Option<Tops>
    requires { (n ≤ length stack.old) × (t ≤ length bytes.now) }
    ensures { Live result stack.new bytes.now (raised (length stack.old) (map (counted scope.now.query.now) scope.now.values.now) (unary_step (length stack.old) (map (counted scope.now.query.now) scope.now.values.now) PLAIN (take n stack.old) (take t bytes.now))) }
{
    if 4 <= n {
        if stack[n - 4] == 5 {
            if is_told(stack[n - 2]) {
                let m = rank_told(stack[n - 2], scope.values);
                let k = greater(stack[n - 3], m);
                return land(stack, n - 4, t, Packed { kind: 5, size: k });
            }
        }
    }
    let top = unary_step(syntax::PLAIN, scope, stack, n, bytes, t)?;
    raise_step(scope, stack, top.numbers, bytes, top.bytes)
}

fn is_true(op: u32) -> bool
    ensures { result ≡ eqb op 3 }
{
    op == syntax::TRUE
}

// Puts a literal, a name's value, a number, a float or a test on the stacks.
fn push_step(
    op: u32,
    at: usize,
    s: &[u8],
    scope: &Scope,
    stack: &mut [u64],
    n: usize,
    bytes: &mut [u8],
    t: usize,
) -> Option<Tops>
    requires { (n ≤ length stack.old) × (t ≤ length bytes.old) }
    ensures { Live result stack.new bytes.new (push_step (length stack.old) (length bytes.old) s.now (lookup_in scope.now.query.now scope.now.consts.now scope.now.values.now scope.now.names.now scope.now.constants.now) op at (take n stack.old) (take t bytes.old)) }
{
    if op == syntax::LITERAL {
        return push_literal(s, at, stack, n, bytes, t);
    }
    if op == syntax::NAME {
        let b = scope.lookup(word_at(s, at));
        return push_text(stack, n, bytes, t, b);
    }
    if op == syntax::NUMBER {
        let m = text::number_from(s, at);
        return put(stack, n, t, in_range(false, m));
    }
    if op == syntax::DECIMAL {
        let x = decimal_at(s, at);
        return put(stack, n, t, Operand::Float { value: x });
    }
    let h = is_true(op);
    put(stack, n, t, Operand::Test { holds: h })
}

// Does a test that doesn't hold lie on its program's rank, its clause's string passed by?
fn is_idle(stack: &[u64], n: usize) -> bool
    requires { n ≤ length stack.now }
    ensures { result ≡ is_idle (take n stack.now) }
{
    if n < 4 {
        return false;
    }
    if stack[n - 2] == 3 {
        return stack[n - 4] == 5;
    }
    false
}

// Brings the clause on top to a rank, and that to its program's; or a program begins.
fn clause_step(
    op: u32,
    scope: &Scope,
    stack: &mut [u64],
    n: usize,
    bytes: &[u8],
    t: usize,
) -> Option<Tops>
    requires { (n ≤ length stack.old) × (t ≤ length bytes.now) }
    ensures { Live result stack.new bytes.now (clause_step (length stack.old) (map (counted scope.now.query.now) scope.now.values.now) op (take n stack.old) (take t bytes.now)) }
{
    if op == syntax::BEGIN {
        return put(stack, n, t, Operand::Rank { rank: 0 });
    }
    if op == syntax::PLAIN {
        return plain_step(scope, stack, n, bytes, t);
    }
    if is_idle(stack, n) {
        return Some(Tops {
            numbers: n - 2,
            bytes: t,
        });
    }
    let top = binary_step(op, scope, stack, n, bytes, t)?;
    raise_step(scope, stack, top.numbers, bytes, top.bytes)
}

// An operation on what lies on the stacks.
fn act(
    op: u32,
    scope: &Scope,
    stack: &mut [u64],
    n: usize,
    bytes: &mut [u8],
    t: usize,
) -> Option<Tops>
    requires { (n ≤ length stack.old) × (t ≤ length bytes.old) }
    ensures { Live result stack.new bytes.new (act_of (length stack.old) (length bytes.old) (lookup_in scope.now.query.now scope.now.consts.now scope.now.values.now scope.now.names.now scope.now.constants.now) (map (counted scope.now.query.now) scope.now.values.now) op (take n stack.old) (take t bytes.old)) }
{
    if op == syntax::LOOKUP {
        return lookup_step(scope, stack, n, bytes, t);
    }
    if op <= syntax::FLOAT_NEGATE {
        return unary_step(op, scope, stack, n, bytes, t);
    }
    if op <= syntax::EITHER {
        return operator_step(op, scope, stack, n, bytes, t);
    }
    clause_step(op, scope, stack, n, bytes, t)
}

// A test that doesn't hold lies below k operands when an operation comes: is it no left side of "&&" any more?
fn is_outer(op: u32, k: usize) -> bool
    ensures { result ≡ outer op k }
{
    if op <= syntax::DECIMAL {
        return false;
    }
    if syntax::EITHER < op {
        return true;
    }
    if k == 0 {
        return true;
    }
    if op <= syntax::FLOAT_NEGATE {
        return false;
    }
    if k != 1 {
        return false;
    }
    op != syntax::BOTH
}

// How many operands lie above it then.
fn above_it(op: u32, k: usize) -> usize
    requires { k < 18446744073709551615 }
    ensures { result ≡ above op k }
{
    if op <= syntax::DECIMAL {
        return k + 1;
    }
    if op <= syntax::FLOAT_NEGATE {
        return k;
    }
    if k == 0 {
        return 0;
    }
    k - 1
}

// The entry to be run next, as far as is known.
fn behind_it(op: u32, k: usize, known: usize, next: usize) -> usize
    ensures { result ≡ behind_of op k known next }
{
    if op <= syntax::FLOAT_NEGATE {
        return known;
    }
    if k == 1 {
        return next;
    }
    known
}

// The entry to be run next where no more is known: the end of the clause whose string lies above it.
fn stop_at(op: u32, k: usize, known: usize, here: usize) -> usize
    ensures { result ≡ stop_at op k known here }
{
    if op != syntax::VALUED {
        return known;
    }
    if k != 1 {
        return known;
    }
    here
}

// With a test on top that doesn't hold, the entry to be run next: behind each "&&" whose left side it is, and behind its clause's string.
fn passed(code: &[u32], from: usize) -> usize
    ensures { result ≡ go_on 0 from from (drop from code.now) }
{
    let mut known = from;
    let mut j = from;
    let mut k: usize = 0;
    while j < code.len() {
        let op = code[j] / 65536;
        if is_outer(op, k) {
            return stop_at(op, k, known, j);
        }
        j += 1;
        known = behind_it(op, k, known, j);
        k = above_it(op, k);
    }
    known
}

// Of k programs that have begun above another: does an operation end that one?
fn is_closing(op: u32, k: usize) -> bool
    ensures { result ≡ closing op k }
{
    if op != syntax::NESTED {
        return false;
    }
    k == 0
}

// How many have begun then.
fn begun_then(op: u32, k: usize) -> usize
    requires { k < 18446744073709551615 }
    ensures { result ≡ begun op k }
{
    if op == syntax::BEGIN {
        return k + 1;
    }
    if op != syntax::NESTED {
        return k;
    }
    if k == 0 {
        return 0;
    }
    k - 1
}

// With the highest rank on top, the entry to be run next: the end of its program.
fn finished(code: &[u32], from: usize) -> usize
    ensures { result ≡ ended 0 from (drop from code.now) }
{
    let mut j = from;
    let mut k: usize = 0;
    while j < code.len() {
        let op = code[j] / 65536;
        if is_closing(op, k) {
            return j;
        }
        j += 1;
        k = begun_then(op, k);
    }
    j
}

// With a rank on top, the entry to be run next, from entry i on.
fn concluded(code: &[u32], i: usize, rank: u64, values: &[usize]) -> usize
    ensures { result ≡ pick (leb (length values.now - 1) rank) (ended 0 i (drop i code.now)) i }
{
    let highest = top_rank(values) as u64;
    if rank < highest {
        return i;
    }
    finished(code, i)
}

// The entry to be run next, from entry i on.
fn onward(code: &[u32], i: usize, stack: &[u64], n: usize, values: &[usize]) -> usize
    requires { n ≤ length stack.now }
    ensures { result ≡ i + needless (length values.now - 1) (take n stack.now) (drop i code.now) }
{
    if n < 2 {
        return i;
    }
    if stack[n - 2] == 3 {
        return passed(code, i);
    }
    if stack[n - 2] == 5 {
        return concluded(code, i, stack[n - 1], values);
    }
    i
}

// Runs code over the assertion's text: where its operands and their bytes end on the stacks. Where the code is none or a buffer is too small,
// it is stuck.
fn run_live(
    code: &[u32],
    s: &[u8],
    scope: &Scope,
    stack: &mut [u64],
    bytes: &mut [u8],
) -> Option<Tops>
    ensures { Live result stack.new bytes.new (exec (length stack.old) (length bytes.old) s.now (lookup_in scope.now.query.now scope.now.consts.now scope.now.values.now scope.now.names.now scope.now.constants.now) (map (counted scope.now.query.now) scope.now.values.now) code.now (on [] [])) }
{
    let mut n: usize = 0;
    let mut t: usize = 0;
    let mut i: usize = 0;
    // Kept: a turn may go on far behind its entry (`onward`), so there is no range to go over.
    while i < code.len() {
        let e = code[i];
        let op = e / 65536;
        let at = wide(e % 65536);
        if op <= syntax::DECIMAL {
            let top = push_step(op, at, s, scope, stack, n, bytes, t)?;
            n = top.numbers;
            t = top.bytes;
            i += 1;
        } else {
            let top = act(op, scope, stack, n, bytes, t)?;
            n = top.numbers;
            t = top.bytes;
            i = onward(code, i + 1, stack, n, scope.values);
        }
    }
    Some(Tops {
        numbers: n,
        bytes: t,
    })
}

// Runs compiled Conditions over the assertion's text: the operand left on top, for a program its rank. Where the code is none or
// a buffer is too small, a fault.
fn run(code: &[u32], s: &[u8], scope: &Scope, stack: &mut [u64], bytes: &mut [u8]) -> Operand
    ensures { result ≡ result_of (exec (length stack.old) (length bytes.old) s.now (lookup_in scope.now.query.now scope.now.consts.now scope.now.values.now scope.now.names.now scope.now.constants.now) (map (counted scope.now.query.now) scope.now.values.now) code.now (on [] [])) }
{
    match run_live(code, s, scope, stack, bytes) {
        None => Operand::Fault,
        Some(tops) => top(stack, tops.numbers),
    }
}

// The machine on stacks of its own, for so many numbers and bytes.
#[inline(never)]
fn run_within<const DEPTH: usize, const SPACE: usize>(
    code: &[u32],
    s: &[u8],
    scope: &Scope,
) -> Operand
    requires { (DEPTH ≤ 208) × (SPACE ≤ 77824) }
    ensures { result ≡ left_in DEPTH SPACE code.now s.now scope.now.query.now scope.now.consts.now scope.now.values.now scope.now.names.now scope.now.constants.now }
{
    let mut stack = [0u64; DEPTH];
    let mut bytes = [0u8; SPACE];
    run(code, s, scope, &mut stack, &mut bytes)
}

// The rank that compiled Conditions leave, run on stacks of its own, with more and more room. It calls itself so that the compiler keeps the
// large tables apart.
fn run_on(tier: usize, code: &[u32], s: &[u8], scope: &Scope) -> usize
    ensures { result ≡ rank_in (left_in 208 77824 code.now s.now scope.now.query.now scope.now.consts.now scope.now.values.now scope.now.names.now scope.now.constants.now) }
{
    if tier == 0 {
        let v = run_within::<32, 256>(code, s, scope);
        if is_fault(v) {
            return run_on(1, code, s, scope);
        }
        return rank_in(v);
    }
    if tier == 1 {
        let v = run_within::<208, 8192>(code, s, scope);
        if is_fault(v) {
            return run_on(2, code, s, scope);
        }
        return rank_in(v);
    }
    rank_in(run_within::<208, 77824>(code, s, scope))
}

// The rank that compiled Conditions leave, run on stacks of its own: with little room first, which most need no more than.
pub fn run_here(code: &[u32], s: &[u8], scope: &Scope) -> usize
    ensures { result ≡ rank_in (left_in 208 77824 code.now s.now scope.now.query.now scope.now.consts.now scope.now.values.now scope.now.names.now scope.now.constants.now) }
{
    run_on(0, code, s, scope)
}

// The string that code gives, run on the stacks lent: how many bytes it has. They are put into `out` where they fit.
fn string_in(
    code: &[u32],
    s: &[u8],
    scope: &Scope,
    stack: &mut [u64],
    bytes: &mut [u8],
    out: &mut [u8],
) -> Option<usize>
    ensures { gave result out.new ≡ string_of (exec (length stack.old) (length bytes.old) s.now (lookup_in scope.now.query.now scope.now.consts.now scope.now.values.now scope.now.names.now scope.now.constants.now) (map (counted scope.now.query.now) scope.now.values.now) code.now (on [] [])) out.old }
{
    let tops = run_live(code, s, scope, stack, bytes)?;
    text::copy_at(out, 0, &bytes[..tops.bytes]);
    Some(tops.bytes)
}

// The same on stacks of its own, for so many numbers and bytes.
#[inline(never)]
fn string_within<const DEPTH: usize, const SPACE: usize>(
    code: &[u32],
    s: &[u8],
    scope: &Scope,
    out: &mut [u8],
) -> Option<usize>
    requires { (DEPTH ≤ 208) × (SPACE ≤ 77824) }
    ensures { gave result out.new ≡ string_in DEPTH SPACE code.now s.now scope.now.query.now scope.now.consts.now scope.now.values.now scope.now.names.now scope.now.constants.now out.old }
{
    let mut stack = [0u64; DEPTH];
    let mut bytes = [0u8; SPACE];
    string_in(code, s, scope, &mut stack, &mut bytes, out)
}

// The same with little room first. It calls itself so that the compiler keeps the large tables apart.
fn string_on(tier: usize, code: &[u32], s: &[u8], scope: &Scope, out: &mut [u8]) -> Option<usize>
    ensures { gave result out.new ≡ string_in 208 77824 code.now s.now scope.now.query.now scope.now.consts.now scope.now.values.now scope.now.names.now scope.now.constants.now out.old }
{
    if tier == 0 {
        if let Some(count) = string_within::<32, 512>(code, s, scope, out) {
            return Some(count);
        }
        return string_on(1, code, s, scope, out);
    }
    string_within::<208, 77824>(code, s, scope, out)
}

// The string that code gives, run on stacks of its own: how many bytes it has. They are put into `out` where they fit.
pub fn string_here(code: &[u32], s: &[u8], scope: &Scope, out: &mut [u8]) -> Option<usize>
    ensures { gave result out.new ≡ string_in 208 77824 code.now s.now scope.now.query.now scope.now.consts.now scope.now.values.now scope.now.names.now scope.now.constants.now out.old }
{
    string_on(0, code, s, scope, out)
}
