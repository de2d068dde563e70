// POLICY and the requesters, entered into the index.
ghost use Rattle.std.specs.Prelude.{◌≡◌, set};
ghost use Rattle.system.specs.Working.Asking.{asked, ask_in, all_from, begun, begin_in};

use index::{Index, Numbered, enter};

fn mark(direct: &mut [u8], i: usize)
    ensures { direct.new ≡ set direct.old i 1 }
{
    if direct.len() <= i {
        return;
    }
    direct[i] = 1;
}

// One requester more.
fn ask(pool: &mut [u8], places: &mut [usize], direct: &mut [u8], index: Index, id: &[u8]) -> Index
    ensures { asked result pool.new places.new direct.new ≡ ask_in pool.old places.old direct.old index id.now }
{
    match enter(pool, places, index, id) {
        None => index,
        Some(Numbered { count, number, end }) => {
            mark(direct, number);
            Index { count, end }
        }
    }
}

// The requesters at those places of the record, each marked as one.
pub fn ask_all(
    query: &[u8],
    requesters: &[usize],
    pool: &mut [u8],
    places: &mut [usize],
    direct: &mut [u8],
    from: Index,
) -> Index
    ensures { asked result pool.new places.new direct.new ≡ all_from query.now requesters.now (asked from pool.old places.old direct.old) }
{
    let mut index = from;
    for p in requesters {
        index = ask(pool, places, direct, index, text::counted_at(query, *p));
    }
    index
}

// The index with POLICY alone.
pub fn begin(pool: &mut [u8], places: &mut [usize]) -> Index
    ensures { begun result pool.new places.new ≡ begin_in pool.old places.old }
{
    match enter(pool, places, Index { count: 0, end: 0 }, b"POLICY") {
        None => Index { count: 0, end: 0 },
        Some(e) => Index {
            count: e.count,
            end: e.end,
        },
    }
}
