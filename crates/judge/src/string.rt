// A string expression outside Conditions: read, compiled and run, and its bytes put into a buffer.
ghost use Rattle.std.specs.Prelude.{◌≡◌, ◌≤◌, replicate};
ghost use Rattle.judge.specs.Working.Saying.{said, valued, valued_at, said_in, said_here};

use conditions::expression::expression;
use conditions::program::{DEPTH, bytes_left};
use conditions::table::TEXT;
use expression::name::Scope;
use lexical::token::Token;
use machine::string_here;
use syntax::fault::{Fault, NO_ROOM};

// How many bytes the string has, and the token behind it. A fault of reason 0 is that of buffers that are too small.
#[derive(Clone, Copy)]
pub struct Said {
    pub count: usize,
    pub next: Token,
}

// The operators of a string bind at this level or above.
const OPERATORS: u8 = 3;

// The string that the code up to `top` gives.
fn value_of(code: &[u32], top: usize, s: &[u8], scope: &Scope, out: &mut [u8]) -> Option<usize>
    ensures { valued result out.new ≡ valued_at code.now top s.now scope.now.query.now scope.now.consts.now scope.now.values.now scope.now.names.now scope.now.constants.now out.old }
{
    if code.len() < top {
        return None;
    }
    string_here(&code[..top], s, scope, out)
}

// The expression with its code in the table `code`.
fn string_in(
    s: &[u8],
    t: Token,
    nest: usize,
    scope: &Scope,
    code: &mut [u32],
    out: &mut [u8],
) -> Result<Said, Fault>
    ensures { said result out.new ≡ said_in s.now t nest scope.now.query.now scope.now.consts.now scope.now.values.now scope.now.names.now scope.now.constants.now code.old out.old }
{
    let q = expression(s, code, 0, OPERATORS, TEXT, 0, nest, t, DEPTH)?;
    match value_of(code, q.top, s, scope, out) {
        Some(count) => Ok(Said {
            count,
            next: q.next,
        }),
        None => Err(Fault {
            reason: NO_ROOM,
            place: t.start,
        }),
    }
}

// The expression with its code in a table of so many entries.
fn string_within<const ROOM: usize>(
    s: &[u8],
    t: Token,
    nest: usize,
    scope: &Scope,
    out: &mut [u8],
) -> Result<Said, Fault>
    requires { ROOM ≤ 8194 }
    ensures { said result out.new ≡ said_in s.now t nest scope.now.query.now scope.now.consts.now scope.now.values.now scope.now.names.now scope.now.constants.now (replicate ROOM 0) out.old }
{
    let mut code = [0u32; ROOM];
    string_in(s, t, nest, scope, &mut code, out)
}

// The string expression whose first token is t, inside `nest` brackets: how many bytes its value has, 0 for an error, and the token behind it;
// or the first fault. The bytes are put into `out` where they fit. The tables are its own, that of the code by how many bytes are left of the text.
pub fn string_field(
    s: &[u8],
    t: Token,
    nest: usize,
    scope: &Scope,
    out: &mut [u8],
) -> Result<Said, Fault>
    ensures { said result out.new ≡ said_here s.now t nest scope.now.query.now scope.now.consts.now scope.now.values.now scope.now.names.now scope.now.constants.now out.old }
{
    let n = bytes_left(s, t.start);
    if n <= 254 {
        return string_within::<256>(s, t, nest, scope, out);
    }
    if n <= 2046 {
        return string_within::<2048>(s, t, nest, scope, out);
    }
    string_within::<8194>(s, t, nest, scope, out)
}
