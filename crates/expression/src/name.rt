// Names: where one is set, and its value where it lies, in the record or among the decoded constants.
ghost use Rattle.std.specs.Prelude.{◌≡◌, [], map, ◌+◌, ◌-◌, eqb, length, get_or};
ghost use Rattle.text.specs.Counted.{counted};
ghost use Rattle.text.specs.Equal.{equal};
ghost use Rattle.expression.specs.Conditions.{index_from};
ghost use Rattle.expression.specs.Tables.{first_from, setting_in, query_in, lookup_in};

// Is it this name? `same_bytes` of text, the last byte first: names often share their beginnings. It buys 42 % of lookups of long names.
fn is_name(a: &[u8], name: &[u8]) -> bool
    ensures { result ≡ equal a.now name.now }
{
    if a.len() != name.len() {
        return false;
    }
    if a.len() == 0 {
        return true;
    }
    if a[a.len() - 1] != name[name.len() - 1] {
        return false;
    }
    text::same_bytes(a, name)
}

// Which of the places is the first whose string is this one; their number where none is.
pub fn find(s: &[u8], places: &[usize], name: &[u8]) -> usize
    ensures { result ≡ first_from s.now name.now 0 places.now }
{
    let mut i: usize = 0;
    // Kept: the project names this form here, a loop that yields the place by `break`.
    loop {
        if places.len() <= i {
            break i;
        }
        let p = places[i];
        if is_name(text::counted_at(s, p), name) {
            break i;
        }
        i += 1;
    }
}

// The string behind the one of n bytes that starts at p.
fn behind(s: &[u8], p: usize, n: usize) -> &[u8]
    ensures { result.now ≡ counted s.now (p + n + 2) }
{
    if s.len() < p {
        return &s[..0];
    }
    if s.len() - p < n {
        return &s[..0];
    }
    if s.len() - p - n < 2 {
        return &s[..0];
    }
    text::counted_at(s, p + n + 2)
}

// The string of the table's entry i, empty past the end.
fn string_at<'a>(s: &'a [u8], places: &[usize], i: usize) -> &'a [u8]
    ensures { result.now ≡ get_or (map (counted s.now) places.now) i [] }
{
    if places.len() <= i {
        return &s[..0];
    }
    let p = places[i];
    text::counted_at(s, p)
}

// The value behind the name of the table's entry i, where that is the first with that name; empty past the end.
fn setting<'a>(s: &'a [u8], places: &[usize], name: &[u8], i: usize) -> &'a [u8]
    requires { i ≡ first_from s.now name.now 0 places.now }
    ensures { result.now ≡ setting_in s.now places.now name.now [] }
{
    if places.len() <= i {
        return &s[..0];
    }
    let p = places[i];
    behind(s, p, name.len())
}

// The value of the attribute with that name, empty where none has it.
pub fn attribute<'a>(query: &'a [u8], names: &[usize], name: &[u8]) -> &'a [u8]
    ensures { result.now ≡ setting_in query.now names.now name.now [] }
{
    let i = find(query, names, name);
    setting(query, names, name, i)
}

// The last of the compliance values.
fn last<'a>(query: &'a [u8], values: &[usize]) -> &'a [u8]
    ensures { result.now ≡ get_or (map (counted query.now) values.now) (length values.now - 1) [] }
{
    if values.len() == 0 {
        return string_at(query, values, 0);
    }
    string_at(query, values, values.len() - 1)
}

// Does it begin as the reserved names do?
fn is_marked(name: &[u8]) -> bool
    ensures { result ≡ eqb (get_or name.now 0 0) 95 }
{
    if name.len() <= 0 {
        return false;
    }
    name[0] == b'_'
}

// Where the names of an assertion's text are looked up: the query's record with the places of its compliance values and of its attributes' names, and
// the decoded constants with the places of their names.
#[derive(Clone, Copy)]
pub struct Scope<'a, 't> {
    pub query: &'a [u8],
    pub consts: &'a [u8],
    pub values: &'t [usize],
    pub names: &'t [usize],
    pub constants: &'t [usize],
}

impl<'a> Scope<'a, '_> {
    // What the query gives a name: the four reserved ones, then its attributes.
    fn from_reserved(&self, name: &[u8]) -> &'a [u8]
        ensures { result.now ≡ query_in self.now.query.now self.now.consts.now self.now.values.now self.now.names.now name.now }
    {
        if text::same_bytes(name, b"_MIN_TRUST") {
            return string_at(self.query, self.values, 0);
        }
        if text::same_bytes(name, b"_MAX_TRUST") {
            return last(self.query, self.values);
        }
        if text::same_bytes(name, b"_VALUES") {
            return text::counted_at(self.consts, 2);
        }
        if text::same_bytes(name, b"_ACTION_AUTHORIZERS") {
            let n = text::counted_at(self.consts, 2).len();
            return behind(self.consts, 2, n);
        }
        attribute(self.query, self.names, name)
    }

    // `from_reserved`, at once for a name that begins otherwise, which is none of the four. It buys 12 % of long literals joined.
    fn from_query(&self, name: &[u8]) -> &'a [u8]
        ensures { result.now ≡ query_in self.now.query.now self.now.consts.now self.now.values.now self.now.names.now name.now }
    {
        if is_marked(name) {
            return self.from_reserved(name);
        }
        let i = find(self.query, self.names, name);
        setting(self.query, self.names, name, i)
    }

    // A name's value where it lies: a part of the constants or of the record; an unset name shows an empty part.
    pub fn lookup(&self, name: &[u8]) -> &'a [u8]
        ensures { result.now ≡ lookup_in self.now.query.now self.now.consts.now self.now.values.now self.now.names.now self.now.constants.now name.now }
    {
        let i = find(self.consts, self.constants, name);
        if self.constants.len() <= i {
            return self.from_query(name);
        }
        let p = self.constants[i];
        behind(self.consts, p, name.len())
    }
}

// The index of a string among the compliance values, 0 where it is none of them.
pub fn rank_of(query: &[u8], values: &[usize], b: &[u8]) -> usize
    ensures { result ≡ index_from 0 (map (counted query.now) values.now) b.now }
{
    let i = find(query, values, b);
    if values.len() <= i {
        return 0;
    }
    i
}
