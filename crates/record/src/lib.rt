// The query record: a cursor goes over it from left to right and finds where each item lies.
#![tactic(auto)]

ghost use Rattle.std.specs.Prelude.{◌≡◌, ◌≤◌, length, take};
ghost use Rattle.text.specs.Copy.{put};
ghost use Rattle.text.specs.Counted.{counted};
ghost use Rattle.record.specs.Field.{name_front, among};
ghost use Rattle.record.specs.Working.Groups.{ran, least_count, most_count, items_into, group_into, both, groups_into, rest_into, table_into};
ghost use Rattle.record.specs.Reading.{told, read_into, tabled, tabled_verdict};
ghost use Rattle.record.specs.Record.{read_record};
ghost use Rattle.record.specs.Working.Moves.{count_move, length_move, content_move, field_move, plain_move, name_move, value_move, requester_move, attribute_move, assertion_move, item_move, seen_of};

pub use limits::MOST_ITEMS;
use limits::*;

// A place in the record.
#[derive(Clone, Copy)]
pub struct Cursor {
    pub at: usize,
}

// What a step gives: a number and the moved cursor.
#[derive(Clone, Copy)]
pub struct Step {
    pub value: usize,
    pub next: Cursor,
}

// A refusal: its number, which C is given too, and its place.
#[derive(Clone, Copy)]
pub struct Refusal {
    pub number: u8,
    pub at: usize,
}

// Two groups read: where their entries end in the table, and the cursor behind them.
#[derive(Clone, Copy)]
struct Pair {
    first: usize,
    second: usize,
    next: Cursor,
}

// What reading a record gives: where each group's entries end in the table.
#[derive(Clone, Copy)]
pub struct Ends {
    pub values: usize,
    pub requesters: usize,
    pub attributes: usize,
    pub assertions: usize,
}

// The groups of items.
#[derive(Clone, Copy, PartialEq, Eq)]
enum Group {
    Values,
    Requesters,
    Attributes,
    Assertions,
}

// The refusals by number, as the table of refusals and C have them.
const TOO_LONG: u8 = 1;

const OTHER_VERSION: u8 = 2;

const NO_FIT: u8 = 3;

const COUNT_OUT: u8 = 4;

const LENGTH_OUT: u8 = 5;

const BYTE: u8 = 6;

const REPEATED: u8 = 7;

const STANDING: u8 = 8;

const TABLE_FULL: u8 = 9;

const ASKING_POLICY: u8 = 10;

// How many bytes at the front may stand in an attribute's name.
#[tactic(auto, using(text::specs::Choice::tests), unfolding(crate::specs::Field::name_front))]
fn name_front(b: &[u8]) -> usize
    ensures { result ≡ name_front b.now }
{
    match b.first() {
        Some(first) if text::is_letter(*first) => text::front(b, text::Class::Word),
        _ => 0,
    }
}

// Does the string at a place stand among those of the table's entries from..upto?
fn repeated(s: &[u8], table: &[usize], from: usize, upto: usize, start: usize) -> bool
    ensures { result ≡ among (counted s.now start) (seen_of s.now table.now from upto) }
{
    for i in from..upto.min(table.len()) {
        if text::same_bytes(text::counted_at(s, start), text::counted_at(s, table[i])) {
            return true;
        }
    }
    false
}

impl Cursor {
    // A count byte.
    #[tactic(auto, using(text::specs::Choice::tests), unfolding(crate::specs::Working::Moves::count_move))]
    pub fn count(self, s: &[u8], least: usize, most: usize) -> Result<Step, Refusal>
        ensures { result ≡ count_move s.now least most self.at }
    {
        let at = self.at;
        if s.len() <= at {
            return Err(Refusal { number: NO_FIT, at });
        }
        let value = usize::from(s[at]);
        if value < least || most < value {
            return Err(Refusal {
                number: COUNT_OUT,
                at,
            });
        }
        Ok(Step {
            value,
            next: Cursor { at: at + 1 },
        })
    }

    // A two-byte length.
    #[tactic(auto, using(text::specs::Choice::tests), unfolding(crate::specs::Working::Moves::length_move))]
    pub fn length(self, s: &[u8], least: usize, most: usize) -> Result<Step, Refusal>
        ensures { result ≡ length_move s.now least most self.at }
    {
        let at = self.at;
        if s.len() < at || s.len() - at < 2 {
            return Err(Refusal { number: NO_FIT, at });
        }
        let value = text::pair_at(s, at);
        if value < least || most < value {
            return Err(Refusal {
                number: LENGTH_OUT,
                at,
            });
        }
        Ok(Step {
            value,
            next: Cursor { at: at + 2 },
        })
    }

    // So many bytes; the value is where they start.
    #[tactic(auto, using(text::specs::Choice::tests), unfolding(crate::specs::Working::Moves::content_move))]
    pub fn content(self, s: &[u8], n: usize) -> Result<Step, Refusal>
        ensures { result ≡ content_move s.now n self.at }
    {
        let at = self.at;
        if s.len() < at || s.len() - at < n {
            return Err(Refusal { number: NO_FIT, at });
        }
        Ok(Step {
            value: at,
            next: Cursor { at: at + n },
        })
    }

    // A length and its content; the value is where the content starts.
    #[tactic(auto, using(text::specs::Choice::tests), unfolding(crate::specs::Working::Moves::field_move))]
    pub fn field(self, s: &[u8], least: usize, most: usize) -> Result<Step, Refusal>
        ensures { result ≡ field_move s.now least most self.at }
    {
        let length = self.length(s, least, most)?;
        length.next.content(s, length.value)
    }

    // A field of any bytes but 0.
    #[tactic(auto, using(text::specs::Choice::tests), unfolding(crate::specs::Working::Moves::plain_move))]
    pub fn plain(self, s: &[u8], least: usize, most: usize) -> Result<Step, Refusal>
        ensures { result ≡ plain_move s.now least most self.at }
    {
        let field = self.field(s, least, most)?;
        let b = text::counted_at(s, field.value);
        let k = text::front(b, text::Class::Plain);
        if k < b.len() {
            return Err(Refusal {
                number: BYTE,
                at: field.value + k,
            });
        }
        Ok(field)
    }

    // A compliance value, distinct from those in the table's entries from..upto.
    #[tactic(auto, using(text::specs::Choice::tests), unfolding(crate::specs::Working::Moves::value_move))]
    fn compliance_value(
        self,
        s: &[u8],
        table: &[usize],
        from: usize,
        upto: usize,
    ) -> Result<Step, Refusal>
        ensures { result ≡ value_move s.now (seen_of s.now table.now from upto) self.at }
    {
        let field = self.plain(s, LEAST_VALUE, MOST_VALUE)?;
        if repeated(s, table, from, upto, field.value) {
            return Err(Refusal {
                number: REPEATED,
                at: field.value,
            });
        }
        Ok(field)
    }

    // A requester, who isn't named POLICY.
    #[tactic(auto, using(text::specs::Choice::tests), unfolding(crate::specs::Working::Moves::requester_move))]
    fn requester(self, s: &[u8]) -> Result<Step, Refusal>
        ensures { result ≡ requester_move s.now self.at }
    {
        let field = self.plain(s, LEAST_REQUESTER, MOST_REQUESTER)?;
        if principal::is_policy(text::counted_at(s, field.value)) {
            return Err(Refusal {
                number: ASKING_POLICY,
                at: field.value,
            });
        }
        Ok(field)
    }

    // An attribute's name, distinct from those in the table's entries from..upto.
    #[tactic(auto, using(text::specs::Choice::tests), unfolding(crate::specs::Working::Moves::name_move))]
    fn name(self, s: &[u8], table: &[usize], from: usize, upto: usize) -> Result<Step, Refusal>
        ensures { result ≡ name_move s.now (seen_of s.now table.now from upto) self.at }
    {
        let field = self.field(s, LEAST_NAME, MOST_NAME)?;
        let b = text::counted_at(s, field.value);
        let k = name_front(b);
        if k < b.len() {
            return Err(Refusal {
                number: BYTE,
                at: field.value + k,
            });
        }
        if repeated(s, table, from, upto, field.value) {
            return Err(Refusal {
                number: REPEATED,
                at: field.value,
            });
        }
        Ok(field)
    }

    // An attribute; the value is where its name starts.
    #[tactic(auto, using(text::specs::Choice::tests), unfolding(crate::specs::Working::Moves::attribute_move))]
    fn attribute(self, s: &[u8], table: &[usize], from: usize, upto: usize) -> Result<Step, Refusal>
        ensures { result ≡ attribute_move s.now (seen_of s.now table.now from upto) self.at }
    {
        let name = self.name(s, table, from, upto)?;
        let setting = name.next.plain(s, LEAST_SETTING, MOST_SETTING)?;
        Ok(Step {
            value: name.value,
            next: setting.next,
        })
    }

    // An assertion; the value is where its text starts.
    #[tactic(auto, using(text::specs::Choice::tests), unfolding(crate::specs::Working::Moves::assertion_move))]
    fn assertion(self, s: &[u8]) -> Result<Step, Refusal>
        ensures { result ≡ assertion_move s.now self.at }
    {
        let at = self.at;
        if s.len() <= at {
            return Err(Refusal { number: NO_FIT, at });
        }
        if MOST_STANDING < s[at] {
            return Err(Refusal {
                number: STANDING,
                at,
            });
        }
        let text = Cursor { at: at + 1 };
        text.field(s, LEAST_TEXT, MOST_TEXT)
    }

    // An item of a group.
    #[tactic(auto, using(text::specs::Choice::tests), unfolding(crate::specs::Working::Moves::item_move))]
    fn item(
        self,
        s: &[u8],
        group: Group,
        table: &[usize],
        from: usize,
        upto: usize,
    ) -> Result<Step, Refusal>
        ensures { result ≡ item_move group s.now (seen_of s.now table.now from upto) self.at }
    {
        match group {
            Group::Values => self.compliance_value(s, table, from, upto),
            Group::Requesters => self.requester(s),
            Group::Attributes => self.attribute(s, table, from, upto),
            Group::Assertions => self.assertion(s),
        }
    }
}

impl Group {
    // The fewest items of the group.
    #[tactic(auto, using(text::specs::Choice::tests), unfolding(crate::specs::Working::Groups::by_group))]
    fn least(self) -> usize
        ensures { result ≡ least_count self }
    {
        match self {
            Group::Values => LEAST_VALUES,
            Group::Requesters => LEAST_REQUESTERS,
            Group::Attributes => LEAST_ATTRIBUTES,
            Group::Assertions => LEAST_ASSERTIONS,
        }
    }

    // The most items of the group.
    #[tactic(auto, using(text::specs::Choice::tests), unfolding(crate::specs::Working::Groups::by_group))]
    fn most(self) -> usize
        ensures { result ≡ most_count self }
    {
        match self {
            Group::Values => MOST_VALUES,
            Group::Requesters => MOST_REQUESTERS,
            Group::Attributes => MOST_ATTRIBUTES,
            Group::Assertions => MOST_ASSERTIONS,
        }
    }
}

// So many items of a group, their places stored from an entry on; the value is the entry behind the last.
fn items(
    s: &[u8],
    group: Group,
    n: usize,
    table: &mut [usize],
    from: usize,
    c: Cursor,
) -> Result<Step, Refusal>
    ensures { ran result table.new ≡ items_into group s.now from n from table.old c.at }
{
    let mut next = c;
    let mut i = from;
    for _ in 0..n {
        if table.len() <= i {
            return Err(Refusal {
                number: TABLE_FULL,
                at: 0,
            });
        }
        let step = next.item(s, group, table, from, i)?;
        table[i] = step.value;
        next = step.next;
        i += 1;
    }
    Ok(Step { value: i, next })
}

// A count byte and its items.
#[tactic(auto, using(text::specs::Choice::tests), unfolding(crate::specs::Working::Groups::group_into))]
fn group_at(
    s: &[u8],
    group: Group,
    table: &mut [usize],
    from: usize,
    c: Cursor,
) -> Result<Step, Refusal>
    ensures { ran result table.new ≡ group_into group s.now table.old from c.at }
{
    let count = c.count(s, group.least(), group.most())?;
    items(s, group, count.value, table, from, count.next)
}

// Two groups, one behind the other.
#[tactic(auto, using(text::specs::Choice::tests), unfolding(crate::specs::Working::Groups::groups_into))]
fn groups_at(
    s: &[u8],
    one: Group,
    two: Group,
    table: &mut [usize],
    from: usize,
    c: Cursor,
) -> Result<Pair, Refusal>
    ensures { both result table.new ≡ groups_into one two s.now table.old from c.at }
{
    let first = group_at(s, one, table, from, c)?;
    let second = group_at(s, two, table, first.value, first.next)?;
    Ok(Pair {
        first: first.value,
        second: second.value,
        next: second.next,
    })
}

// The groups behind the first two, and nothing behind them.
#[tactic(auto, using(text::specs::Choice::tests), unfolding(crate::specs::Working::Groups::rest_into))]
fn rest_at(
    s: &[u8],
    table: &mut [usize],
    values: usize,
    requesters: usize,
    c: Cursor,
) -> Result<Ends, Refusal>
    ensures { told result table.new ≡ rest_into s.now table.old values requesters c.at }
{
    let pair = groups_at(
        s,
        Group::Attributes,
        Group::Assertions,
        table,
        requesters,
        c,
    )?;
    let at = pair.next.at;
    if at < s.len() {
        return Err(Refusal { number: NO_FIT, at });
    }
    Ok(Ends {
        values,
        requesters,
        attributes: pair.first,
        assertions: pair.second,
    })
}

// The whole record; the table's content after a refusal is of no use.
#[tactic(auto, using(text::specs::Choice::tests), unfolding(crate::specs::Working::Groups::table_into))]
fn record_at(s: &[u8], table: &mut [usize]) -> Result<Ends, Refusal>
    ensures { told result table.new ≡ table_into s.now table.old }
{
    if MOST_RECORD < s.len() {
        return Err(Refusal {
            number: TOO_LONG,
            at: 0,
        });
    }
    if s.len() == 0 || s[0] != 1 {
        return Err(Refusal {
            number: OTHER_VERSION,
            at: 0,
        });
    }
    let pair = groups_at(
        s,
        Group::Values,
        Group::Requesters,
        table,
        0,
        Cursor { at: 1 },
    )?;
    rest_at(s, table, pair.first, pair.second, pair.next)
}

// Copies the first n entries.
fn copy_entries(dst: &mut [usize], src: &[usize], n: usize)
    requires { (n ≤ length src.now) × (n ≤ length dst.old) }
    ensures { dst.new ≡ put dst.old 0 (take n src.now) }
{
    dst[..n].copy_from_slice(&src[..n]);
}

// Reads a record: the table's first entries become the places of all items. A refusal leaves the table as it was.
pub fn read(s: &[u8], table: &mut [usize; MOST_ITEMS]) -> Result<Ends, Refusal>
    ensures table_after { told result table.new ≡ read_into s.now table.old }
    ensures result_value { tabled result ≡ tabled_verdict (read_record s.now) }
{
    let mut found = [0usize; MOST_ITEMS];
    let ends = record_at(s, &mut found)?;
    copy_entries(table, &found, ends.assertions);
    Ok(ends)
}
