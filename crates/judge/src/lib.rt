// A Conditions field read, compiled and run.
#![tactic(auto)]

pub mod string;

ghost use Rattle.std.specs.Prelude.{◌≡◌, ◌≤◌, ◌%◌, replicate};
ghost use Rattle.judge.specs.Working.Judging.{judged_in, judged_here, rank_at};

use conditions::program::{bytes_left, conditions};
use expression::name::Scope;
use lexical::token::Token;
use machine::run_here;
use syntax::fault::Fault;

// The rank and the token behind the field. A fault of reason 0 is that of buffers that are too small.
#[derive(Clone, Copy)]
pub struct Ranked {
    pub next: Token,
    pub rank: u8,
}

// A rank in a byte.
fn byte(rank: usize) -> u8
    ensures { result ≡ rank % 256 }
{
    (rank % 256) as u8
}

// The rank that the code up to `top` gives, the machine on stacks of its own; 0 where the code is shorter.
fn rank_here(code: &[u32], top: usize, s: &[u8], scope: &Scope) -> u8
    ensures { result ≡ rank_at code.now top s.now scope.now.query.now scope.now.consts.now scope.now.values.now scope.now.names.now scope.now.constants.now 208 77824 }
{
    if code.len() < top {
        return 0;
    }
    let written = &code[..top];
    byte(run_here(written, s, scope))
}

// The field with its code in the table `code`. The token behind it is built anew: a copy of the whole would wait for the stores of its parts.
fn judge_in(s: &[u8], t: Token, scope: &Scope, code: &mut [u32]) -> Result<Ranked, Fault>
    ensures { result ≡ judged_in s.now t scope.now.query.now scope.now.consts.now scope.now.values.now scope.now.names.now scope.now.constants.now code.old 208 77824 }
{
    let q = conditions(s, code, 0, t)?;
    let rank = rank_here(code, q.top, s, scope);
    let next = q.next;
    Ok(Ranked {
        rank,
        next: Token {
            kind: next.kind,
            start: next.start,
            end: next.end,
        },
    })
}

// The field with its code in a table of so many entries.
fn judge_within<const ROOM: usize>(s: &[u8], t: Token, scope: &Scope) -> Result<Ranked, Fault>
    requires { ROOM ≤ 8194 }
    ensures { result ≡ judged_in s.now t scope.now.query.now scope.now.consts.now scope.now.values.now scope.now.names.now scope.now.constants.now (replicate ROOM 0) 208 77824 }
{
    let mut code = [0u32; ROOM];
    judge_in(s, t, scope, &mut code)
}

// The rank of the Conditions field whose first token is t, and the token behind it; or the first fault. The tables are its own, that of the
// code by how many bytes are left of the text.
pub fn judge_field(s: &[u8], t: Token, scope: &Scope) -> Result<Ranked, Fault>
    ensures { result ≡ judged_here s.now t scope.now.query.now scope.now.consts.now scope.now.values.now scope.now.names.now scope.now.constants.now }
{
    let n = bytes_left(s, t.start);
    if n <= 126 {
        return judge_within::<128>(s, t, scope);
    }
    if n <= 254 {
        return judge_within::<256>(s, t, scope);
    }
    if n <= 510 {
        return judge_within::<512>(s, t, scope);
    }
    if n <= 2046 {
        return judge_within::<2048>(s, t, scope);
    }
    judge_within::<8194>(s, t, scope)
}
