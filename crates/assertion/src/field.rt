// One field of an assertion, read into the tables.
ghost use Rattle.std.specs.Prelude.{◌≡◌, take};
ghost use Rattle.judge.specs.Working.Judging.{judged_here};
ghost use Rattle.fields.specs.Working.Setting.{constants_in};
ghost use Rattle.naming.specs.Working.Identifying.{sight};
ghost use Rattle.naming.specs.Working.Authorizing.{authorizer_in};
ghost use Rattle.naming.specs.Working.Chain.{field_in};
ghost use Rattle.assertion.specs.Working.Field.{given, tabled, moved, passed_on, settled, settled_as, made_as, listed, listed_as, on_judged, field_at};

use expression::name::Scope;
use fields::constants::constants as local_constants;
use fields::out::ended;
use fields::version::version;
use index::Index;
use judge::judge_field;
use lexical::kind;
use lexical::token::Token;
use naming::authorizer::authorizer;
use naming::licensees::licensees;
use syntax::fault::Fault;

// What is read so far: the ends of the index and of the licensees' programs, the authorizer's number, how many constants are known, what is against the
// identifiers of either field, whether there were an Authorizer and Licensees, and the rank of Conditions.
#[derive(Clone, Copy)]
pub struct Partial {
    pub index: Index,
    pub size: usize,
    pub author: usize,
    pub known: usize,
    pub against: Fault,
    pub besides: Fault,
    pub authored: bool,
    pub licensed: bool,
    pub rank: u8,
}

// What is read with one field more, and the token behind it.
#[derive(Clone, Copy)]
pub struct Went {
    pub partial: Partial,
    pub next: Token,
}

// A field that says nothing to the tables.
fn passed(d: Partial, o: Result<Token, Fault>) -> Result<Went, Fault>
    ensures { result ≡ passed_on d o }
{
    let next = o?;
    Ok(Went { partial: d, next })
}

// The first n entries, or all where there are fewer.
pub fn front<T>(l: &[T], n: usize) -> &[T]
    ensures { result.now ≡ take n l.now }
{
    &l[..n.min(l.len())]
}

fn constants_field(
    s: &[u8],
    consts: &mut [u8],
    start: usize,
    constants: &mut [usize],
    d: Partial,
    t: Token,
) -> Result<Went, Fault>
    ensures { settled result consts.new constants.new ≡ settled_as d (constants_in s.now consts.old constants.old 0 start t) }
{
    let said = local_constants(s, consts, constants, start, t)?;
    Ok(Went {
        partial: Partial {
            known: said.index.count,
            ..d
        },
        next: said.next,
    })
}

fn authorizer_field(
    s: &[u8],
    standing: u8,
    scope: &Scope,
    pool: &mut [u8],
    places: &mut [usize],
    d: Partial,
    t: Token,
) -> Result<Went, Fault>
    ensures { settled result pool.new places.new ≡ made_as d (authorizer_in s.now standing (sight scope.now.query.now scope.now.consts.now scope.now.values.now scope.now.names.now scope.now.constants.now) pool.old places.old d.index.count d.index.end t) }
{
    let named = authorizer(s, standing, scope, pool, places, d.index, t)?;
    Ok(Went {
        partial: Partial {
            authored: true,
            author: named.number,
            index: named.index,
            against: named.fault,
            ..d
        },
        next: named.next,
    })
}

fn licensees_field(
    s: &[u8],
    scope: &Scope,
    pool: &mut [u8],
    places: &mut [usize],
    code: &mut [u16],
    d: Partial,
    t: Token,
) -> Result<Went, Fault>
    ensures { listed result pool.new places.new code.new ≡ listed_as d (field_in s.now (sight scope.now.query.now scope.now.consts.now scope.now.values.now scope.now.names.now scope.now.constants.now) pool.old places.old code.old d.index.count d.index.end d.size t) }
{
    let named = licensees(s, scope, pool, places, code, d.index, d.size, t)?;
    let state = named.state;
    Ok(Went {
        partial: Partial {
            licensed: true,
            index: state.index,
            size: state.size,
            besides: state.fault,
            ..d
        },
        next: named.next,
    })
}

fn conditions_field(s: &[u8], scope: &Scope, d: Partial, t: Token) -> Result<Went, Fault>
    ensures { result ≡ on_judged d (judged_here s.now t scope.now.query.now scope.now.consts.now scope.now.values.now scope.now.names.now scope.now.constants.now) }
{
    let judged = judge_field(s, t, scope)?;
    Ok(Went {
        partial: Partial {
            rank: judged.rank,
            ..d
        },
        next: judged.next,
    })
}

// The field with that label, whose first token is t.
pub fn field(
    k: usize,
    s: &[u8],
    standing: u8,
    query: &[u8],
    values: &[usize],
    names: &[usize],
    consts: &mut [u8],
    start: usize,
    constants: &mut [usize],
    pool: &mut [u8],
    places: &mut [usize],
    code: &mut [u16],
    d: Partial,
    t: Token,
) -> Result<Went, Fault>
    ensures { moved result (tabled consts.new constants.new pool.new places.new code.new) ≡ field_at (given s.now standing query.now values.now names.now start) k (tabled consts.old constants.old pool.old places.old code.old) d t }
{
    if k == kind::KEYNOTE_VERSION {
        return passed(d, version(s, t));
    }
    if k == kind::LOCAL_CONSTANTS {
        return constants_field(s, consts, start, constants, d, t);
    }
    let scope = Scope {
        query,
        consts,
        values,
        names,
        constants: front(constants, d.known),
    };
    if k == kind::AUTHORIZER {
        return authorizer_field(s, standing, &scope, pool, places, d, t);
    }
    if k == kind::LICENSEES {
        return licensees_field(s, &scope, pool, places, code, d, t);
    }
    if k == kind::CONDITIONS {
        return conditions_field(s, &scope, d, t);
    }
    passed(d, ended(t))
}
