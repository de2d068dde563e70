// An identifier: a string expression, run and entered into the index of principals.
ghost use Rattle.std.specs.Prelude.{◌≡◌, true};
ghost use Rattle.naming.specs.Working.Identifying.{sight, named, of_number, entered_in, string_named, is_plain, plain_named};

use crate::whole::is_whole;
use expression::name::Scope;
use fields::out::word;
use index::{Index, Numbered, enter};
use judge::string::string_field;
use lexical::kind;
use lexical::token::Token;
use limits::MOST_IDENTIFIER;
use syntax::fault::{Fault, NO_ROOM};

// The principal's number, the index, and the token behind the expression; or that it identifies nobody.
#[derive(Clone, Copy)]
pub enum Named {
    At {
        number: usize,
        index: Index,
        next: Token,
    },
    Nobody {
        next: Token,
    },
}

// A principal that was entered as e, before the token n.
fn of_number(e: Option<Numbered>, n: Token) -> Result<Named, Fault>
    ensures { result ≡ of_number n e }
{
    match e {
        None => Err(Fault {
            reason: NO_ROOM,
            place: 0,
        }),
        Some(Numbered { count, number, end }) => Ok(Named::At {
            number,
            index: Index { count, end },
            next: n,
        }),
    }
}

// Enters what an expression gives, before the token n.
fn entered(
    pool: &mut [u8],
    places: &mut [usize],
    index: Index,
    id: &[u8],
    n: Token,
) -> Result<Named, Fault>
    ensures { named result pool.new places.new ≡ entered_in pool.old places.old index.count index.end n id.now }
{
    if id.len() == 0 {
        return Ok(Named::Nobody { next: n });
    }
    if MOST_IDENTIFIER < id.len() {
        return Ok(Named::Nobody { next: n });
    }
    let e = enter(pool, places, index, id);
    of_number(e, n)
}

// The expression whose first token is t, inside `nest` brackets.
pub fn string_named(
    s: &[u8],
    scope: &Scope,
    pool: &mut [u8],
    places: &mut [usize],
    index: Index,
    t: Token,
    nest: usize,
) -> Result<Named, Fault>
    ensures { named result pool.new places.new ≡ string_named s.now (sight scope.now.query.now scope.now.consts.now scope.now.values.now scope.now.names.now scope.now.constants.now) pool.old places.old index.count index.end nest t }
{
    let mut id = [0u8; MOST_IDENTIFIER];
    let said = string_field(s, t, nest, scope, &mut id)?;
    if MOST_IDENTIFIER < said.count {
        return Ok(Named::Nobody { next: said.next });
    }
    entered(pool, places, index, &id[..said.count], said.next)
}

// Is t a name or a literal that gives its bytes as they stand?
pub(crate) fn is_plain(s: &[u8], t: Token) -> bool
    ensures { result ≡ is_plain s.now t }
{
    if t.kind == kind::NAME {
        return true;
    }
    is_whole(s, t)
}

// The expression that is the name or the clear literal t alone, before the token n.
pub(crate) fn plain_named(
    s: &[u8],
    scope: &Scope,
    pool: &mut [u8],
    places: &mut [usize],
    index: Index,
    t: Token,
    n: Token,
) -> Result<Named, Fault>
    requires { is_plain s.now t ≡ true }
    ensures { named result pool.new places.new ≡ plain_named s.now (sight scope.now.query.now scope.now.consts.now scope.now.values.now scope.now.names.now scope.now.constants.now) pool.old places.old index.count index.end t n }
{
    if t.kind == kind::NAME {
        let w = word(s, t);
        let id = scope.lookup(w);
        return entered(pool, places, index, id, n);
    }
    entered(pool, places, index, &s[t.start + 1..t.end - 1], n)
}
