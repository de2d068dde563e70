// What became of an assertion, noted in the tables and on the page.
ghost use Rattle.std.specs.Prelude.{◌≡◌, ◌%◌};
ghost use Rattle.system.specs.Working.Noting.{entry_into, rowed, row_into, noted, note_in, header_into};

use assertion::Assessed;
use index::Index;
use naming::fault::clear;
use syntax::fault::Fault;

// The ends of the index and of the licensees' programs, and how many assertions are kept.
#[derive(Clone, Copy)]
pub struct Ends {
    pub index: Index,
    pub size: usize,
    pub kept: usize,
}

fn pair(n: usize) -> u16
    ensures { result ≡ n % 65536 }
{
    (n % 65536) as u16
}

fn low(n: usize) -> u8
    ensures { result ≡ n % 256 }
{
    (n % 256) as u8
}

// The report's entry of assertion i: what is against it.
pub fn put_entry(page: &mut [u8], i: usize, fault: Fault)
    ensures { page.new ≡ entry_into page.old i fault }
{
    if page.len() < 6 {
        return;
    }
    if (page.len() - 6) / 3 < i {
        return;
    }
    let at = 3 + 3 * i;
    text::put_pair(page, at + 1, fault.place % 65536);
    page[at] = low(fault.reason);
}

// One row more, behind k.
fn put_row(
    authors: &mut [u16],
    conds: &mut [u8],
    ends: &mut [u16],
    k: usize,
    author: usize,
    rank: u8,
    size: usize,
) -> usize
    ensures { rowed result authors.new conds.new ends.new ≡ row_into authors.old conds.old ends.old k author rank size }
{
    if authors.len() <= k {
        return k;
    }
    if conds.len() <= k {
        return k;
    }
    if ends.len() <= k {
        return k;
    }
    authors[k] = pair(author);
    conds[k] = rank;
    ends[k] = pair(size);
    k + 1
}

// Assertion i.
pub fn note(
    authors: &mut [u16],
    conds: &mut [u8],
    ends: &mut [u16],
    page: &mut [u8],
    i: usize,
    e: Ends,
    r: Result<Assessed, Fault>,
) -> Ends
    ensures { noted result authors.new conds.new ends.new page.new ≡ note_in authors.old conds.old ends.old page.old i e r }
{
    match r {
        Err(fault) => {
            put_entry(page, i, fault);
            e
        }
        Ok(a) => {
            put_entry(page, i, clear());
            let kept = put_row(authors, conds, ends, e.kept, a.author, a.rank, a.size);
            Ends {
                index: a.index,
                size: a.size,
                kept,
            }
        }
    }
}

// The report's first three bytes.
pub fn put_header(page: &mut [u8], n: usize)
    ensures { page.new ≡ header_into page.old n }
{
    if page.len() < 3 {
        return;
    }
    let size = 3 * (n % 65536);
    text::put_pair(page, 1, size % 65536);
    page[0] = 1;
}
