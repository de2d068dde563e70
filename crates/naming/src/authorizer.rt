// Authorizer, a string expression.
ghost use Rattle.std.specs.Prelude.{◌≡◌};
ghost use Rattle.naming.specs.Working.Identifying.{sight, named};
ghost use Rattle.naming.specs.Working.Authorizing.{policy_at, barred_at, bar_fault, authorizer_end, made, authored_in, author_named, authorizer_in};

use crate::fault::{clear, fault_at};
use crate::identifier::{Named, is_plain, plain_named, string_named};
use crate::list::plain_from;
use expression::name::Scope;
use fields::out::is_ending;
use index::Index;
use lexical::kind;
use lexical::line::token_at;
use lexical::token::Token;
use limits::MOST_BRACKETS;
use syntax::fault::{Fault, UNIDENTIFIED, UNVERIFIED, misplaced};

// The standing of a verified credential.
pub const VERIFIED: u8 = 2;

// The authorizer's number, the index, what is against the identifier, and the token that ends the field.
#[derive(Clone, Copy)]
pub struct Author {
    pub number: usize,
    pub index: Index,
    pub fault: Fault,
    pub next: Token,
}

// Is the principal of that number POLICY?
fn is_policy(pool: &[u8], places: &[usize], number: usize) -> bool
    ensures { result ≡ policy_at pool.now places.now number }
{
    if places.len() <= number {
        return false;
    }
    let e = places[number];
    principal::same_principal(index::identifier_at(pool, e), b"POLICY")
}

// Is it one that may not authorize an assertion of that standing?
fn is_barred(standing: u8, pool: &[u8], places: &[usize], number: usize) -> bool
    ensures { result ≡ barred_at standing pool.now places.now number }
{
    if standing == VERIFIED {
        return is_policy(pool, places, number);
    }
    false
}

// What is against the principal of that number, whose expression has its first token that is no bracket at that place.
fn bar_fault(standing: u8, pool: &[u8], places: &[usize], number: usize, place: usize) -> Fault
    ensures { result ≡ bar_fault standing pool.now places.now number place }
{
    if is_barred(standing, pool, places, number) {
        return fault_at(UNVERIFIED, place);
    }
    clear()
}

// The end of the field at t.
fn finished(number: usize, index: Index, fault: Fault, t: Token) -> Result<Author, Fault>
    ensures { result ≡ authorizer_end number index fault t }
{
    if is_ending(t.kind) {
        return Ok(Author {
            number,
            index,
            fault,
            next: t,
        });
    }
    Err(misplaced(t))
}

// The field whose expression, at that place, is named as e. POLICY stands in for nobody.
fn authored(
    standing: u8,
    pool: &[u8],
    places: &[usize],
    index: Index,
    place: usize,
    e: Result<Named, Fault>,
) -> Result<Author, Fault>
    ensures { result ≡ authored_in standing pool.now places.now index.count index.end place e }
{
    match e? {
        Named::Nobody { next } => {
            let f = fault_at(UNIDENTIFIED, place);
            finished(0, index, f, next)
        }
        Named::At {
            number,
            index: then,
            next,
        } => {
            let f = bar_fault(standing, pool, places, number, place);
            finished(number, then, f, next)
        }
    }
}

// The expression whose first token is t, outside any bracket.
fn author_named(
    s: &[u8],
    scope: &Scope,
    pool: &mut [u8],
    places: &mut [usize],
    index: Index,
    t: Token,
) -> Result<Named, Fault>
    ensures { named result pool.new places.new ≡ author_named s.now (sight scope.now.query.now scope.now.consts.now scope.now.values.now scope.now.names.now scope.now.constants.now) pool.old places.old index.count index.end t }
{
    if is_plain(s, t) {
        let n = token_at(s, kind::IN_FIELD, t.end);
        if n.kind == kind::DOT {
            return string_named(s, scope, pool, places, index, t, 0);
        }
        return plain_named(s, scope, pool, places, index, t, n);
    }
    string_named(s, scope, pool, places, index, t, 0)
}

// The field whose first token is t, of an assertion of that standing.
pub fn authorizer(
    s: &[u8],
    standing: u8,
    scope: &Scope,
    pool: &mut [u8],
    places: &mut [usize],
    index: Index,
    t: Token,
) -> Result<Author, Fault>
    ensures { made result pool.new places.new ≡ authorizer_in s.now standing (sight scope.now.query.now scope.now.consts.now scope.now.values.now scope.now.names.now scope.now.constants.now) pool.old places.old index.count index.end t }
{
    let p = plain_from(s, t, MOST_BRACKETS);
    let e = author_named(s, scope, pool, places, index, t);
    authored(standing, pool, places, index, p.start, e)
}
