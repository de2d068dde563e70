// A register as bytes: version, all moves ever issued, then 13 bytes for each place. Numbers are big-endian.
ghost use Rattle.std.specs.Prelude.{◌≡◌, ◌++◌, ◌+◌, ◌-◌, ◌*◌, ◌≤◌, ◌<◌, length, get_or};
ghost use Rattle.text.specs.Copy.{put};
ghost use Rattle.text.specs.Counted.{pair_at};
ghost use Rattle.register.specs.Layout.{four_at, eight_at, entry_at, entries_at, entry_bytes, entries_bytes, head, encode};
ghost use Rattle.register.specs.Told.{entry_of, contents, unfit_number, unfit_place};
ghost use Rattle.register.specs.Working.Bytes.{readable_at, readable};

use crate::{MOST_PRINCIPALS, NOBODY, Place, Register};
use text::copy_at;

pub const VERSION: u8 = 1;

// Behind the version and the moves issued.
pub const HEAD: usize = 9;

// A mark, the principal, its moves.
pub const PLACE: usize = 13;

pub const BYTES: usize = HEAD + MOST_PRINCIPALS * PLACE;

// Why bytes are no register: another length, another version, or a mark above 1 at a place.
#[derive(Clone, Copy, PartialEq, Eq)]
pub enum Unfit {
    Length,
    Version,
    Mark { place: usize },
}

impl Unfit {
    // Its number, which C is told.
    pub fn number(self) -> u8
        ensures { result ≡ unfit_number self }
    {
        match self {
            Unfit::Length => 5,
            Unfit::Version => 2,
            Unfit::Mark { .. } => 6,
        }
    }

    // Its place, which C is told.
    pub fn place(self) -> usize
        ensures { result ≡ unfit_place self }
    {
        match self {
            Unfit::Mark { place } => place,
            _ => 0,
        }
    }
}

// The numbers in two, four and eight bytes, big-endian.
// Kept: beside `text::pair_at`, which says no bound of its number.
fn two_at(s: &[u8], at: usize) -> u64
    requires { at + 2 ≤ length s.now }
    ensures { (result ≡ pair_at s.now at) × (result < 65536) }
{
    u64::from(s[at]) * 256 + u64::from(s[at + 1])
}

fn four_at(s: &[u8], at: usize) -> u64
    requires { at + 4 ≤ length s.now }
    ensures { (result ≡ four_at s.now at) × (result < 4294967296) }
{
    let a = two_at(s, at);
    let b = two_at(s, at + 2);
    a * 65536 + b
}

fn eight_at(s: &[u8], at: usize) -> u64
    requires { at + 8 ≤ length s.now }
    ensures { result ≡ eight_at s.now at }
{
    let a = four_at(s, at);
    let b = four_at(s, at + 4);
    a * 4294967296 + b
}

// The place whose bytes start at `at`.
fn place_at(s: &[u8], at: usize) -> Place
    requires { at + 13 ≤ length s.now }
    ensures { entry_of result ≡ entry_at s.now at }
{
    if s[at] == 1 {
        let principal = four_at(s, at + 1) as u32;
        let moves = eight_at(s, at + 5);
        return Place {
            held: true,
            principal,
            moves,
        };
    }
    NOBODY
}

// The register in bytes that are one. It is filled from its last place to its first.
pub(crate) fn read(s: &[u8]) -> Register
    requires { length s.now ≡ 841 }
    ensures { contents result ≡ record { entries = entries_at 64 s.now 9; issued = eight_at s.now 1 } }
{
    let issued = eight_at(s, 1);
    let mut places = [NOBODY; MOST_PRINCIPALS];
    for i in (0..MOST_PRINCIPALS).rev() {
        places[i] = place_at(s, HEAD + i * PLACE);
    }
    Register { places, issued }
}

// Whether bytes are a register, or why they are none.
pub fn check(s: &[u8]) -> Result<(), Unfit>
    ensures { result ≡ readable s.now }
{
    if s.len() != BYTES {
        return Err(Unfit::Length);
    }
    if s[0] != VERSION {
        return Err(Unfit::Version);
    }
    for i in 0..MOST_PRINCIPALS {
        let place = HEAD + i * PLACE;
        if 1 < s[place] {
            return Err(Unfit::Mark { place });
        }
    }
    Ok(())
}

// The bytes of a place.
fn place_bytes(p: Place) -> [u8; PLACE]
    ensures { result ≡ entry_bytes (entry_of p) }
{
    if p.held {
        let [a, b, c, d] = p.principal.to_be_bytes();
        let [e, f, g, h, i, j, k, l] = p.moves.to_be_bytes();
        return [1, a, b, c, d, e, f, g, h, i, j, k, l];
    }
    [0; PLACE]
}

fn head_bytes(issued: u64) -> [u8; HEAD]
    ensures { result ≡ head issued }
{
    let [a, b, c, d, e, f, g, h] = issued.to_be_bytes();
    [VERSION, a, b, c, d, e, f, g, h]
}

// Writes a place's bytes.
fn put_place(bytes: &mut [u8], at: usize, p: Place)
    requires { at + 13 ≤ length bytes.old }
    ensures { bytes.new ≡ put bytes.old at (entry_bytes (entry_of p)) }
{
    let b = place_bytes(p);
    copy_at(bytes, at, &b);
}

// Writes the bytes of all places, from the last to the first.
fn put_places(bytes: &mut [u8], register: Register)
    requires { length bytes.old ≡ 841 }
    ensures { (bytes.new ≡ put bytes.old 9 (entries_bytes (contents register).entries)) × (length (contents register).entries ≡ 64) }
{
    for i in (0..MOST_PRINCIPALS).rev() {
        put_place(bytes, HEAD + i * PLACE, register.places[i]);
    }
}

// Writes a register.
pub(crate) fn write(bytes: &mut [u8], register: Register)
    requires { length bytes.old ≡ 841 }
    ensures { bytes.new ≡ encode (contents register) }
{
    put_places(bytes, register);
    let b = head_bytes(register.issued);
    copy_at(bytes, 0, &b);
}
