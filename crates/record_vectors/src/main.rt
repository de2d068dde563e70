// Reads the records in the file `records` and says of each what the reader gives; then reads the fronts of the record in the file `full`,
// one byte longer each, and says where what they give changes.
#![tactic(auto)]

ghost use Rattle.std.specs.Io.{ReadsAtMost};
ghost use Rattle.std.specs.Prelude.{◌<◌};

use input::read_full;
use record::{Ends, Refusal};
use std::io::{Read, Write};
use std::{fs, io};

// Room for a record that is too long.
const ROOM: usize = 65600;

// A line of a vector: its name and what was read.
fn print_reading<W: Write>(
    out: &mut W,
    name: &[u8],
    reading: Result<Ends, Refusal>,
) -> io::Result<()> {
    out.write_all(name)?;
    match reading {
        Ok(_) => writeln!(out, " accepted"),
        Err(refusal) => {
            let Refusal { number, at } = refusal;
            writeln!(out, " refused {number} at {at}")
        }
    }
}

fn try_record<W: Write>(out: &mut W, name: &[u8], bytes: &[u8]) -> io::Result<()> {
    let mut table = [0usize; record::MOST_ITEMS];
    let reading = record::read(bytes, &mut table);
    print_reading(out, name, reading)
}

// The number in the last three of four bytes, big-endian.
fn size_of(four: &[u8; 4]) -> usize {
    usize::from(four[1]) * 65536 + usize::from(four[2]) * 256 + usize::from(four[3])
}

// Reads n bytes to the front of a buffer, and answers how many there were.
fn fill<R: Read>(input: &mut R, buf: &mut [u8], n: usize) -> io::Result<usize>
    ensures { ReadsAtMost result buf.new }
{
    if buf.len() < n {
        return Ok(0);
    }
    read_full(input, &mut buf[..n])
}

// A vector in the fronts of two buffers.
fn try_fronts_of<W: Write>(
    out: &mut W,
    name: &[u8],
    k: usize,
    bytes: &[u8],
    m: usize,
) -> io::Result<()> {
    if name.len() < k || bytes.len() < m {
        return Ok(());
    }
    try_record(out, &name[..k], &bytes[..m])
}

// One vector of the file: a name behind its length byte, a record behind its four-byte length.
fn next_vector<R: Read, W: Write>(input: &mut R, out: &mut W) -> io::Result<bool> {
    let mut one = [0u8; 1];
    if read_full(input, &mut one)? < 1 {
        return Ok(false);
    }
    let mut name = [0u8; 256];
    let k = fill(input, &mut name, usize::from(one[0]))?;
    let mut four = [0u8; 4];
    read_full(input, &mut four)?;
    let mut bytes = [0u8; ROOM];
    let m = fill(input, &mut bytes, size_of(&four))?;
    try_fronts_of(out, &name, k, &bytes, m)?;
    Ok(true)
}

// A refusal's number and place; 0 and 0 where the record is accepted.
fn number_and_place(reading: Result<Ends, Refusal>) -> (u8, usize) {
    match reading {
        Ok(_) => (0, 0),
        Err(refusal) => (refusal.number, refusal.at),
    }
}

// The fronts of a record of 0 to all of its bytes: a line where number or place differ from the front before.
fn try_fronts<W: Write>(out: &mut W, bytes: &[u8]) -> io::Result<()> {
    let mut last = (0, 0);
    for n in 0..=bytes.len() {
        let mut table = [0usize; record::MOST_ITEMS];
        let reading = record::read(&bytes[..n], &mut table);
        let found = number_and_place(reading);
        if found != last {
            print_front(out, n, reading)?;
        }
        last = found;
    }
    Ok(())
}

fn print_front<W: Write>(out: &mut W, n: usize, reading: Result<Ends, Refusal>) -> io::Result<()> {
    write!(out, "front {n}")?;
    print_reading(out, b"", reading)
}

fn main(rt: HostRuntime) -> io::Result<()> {
    let mut out = io::writer(&rt);
    let mut records = fs::open(&rt, "records")?;
    for _ in 0..10000 {
        if !next_vector(&mut records, &mut out)? {
            break;
        }
    }
    let mut full = fs::open(&rt, "full")?;
    let mut bytes = [0u8; ROOM];
    let n = read_full(&mut full, &mut bytes)?;
    try_fronts(&mut out, &bytes[..n])
}
