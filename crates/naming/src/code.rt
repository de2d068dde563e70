// The code that licensees are written as: one more instruction, and how many licensees may follow.
ghost use Rattle.std.specs.Prelude.{◌≡◌, ◌-◌};
ghost use Rattle.naming.specs.Working.Code.{above, pushed};

use limits::MOST_LICENSEES;

// How many licensees may follow so many.
pub fn rest(listed: usize) -> usize
    ensures { result ≡ 16 - listed }
{
    if MOST_LICENSEES <= listed {
        return 0;
    }
    MOST_LICENSEES - listed
}

// Writes an instruction at the end of the code, where there is room, and says where the code ends then.
pub fn push(code: &mut [u16], size: usize, x: u16) -> usize
    ensures value { result ≡ above code.old size }
    ensures code_after { code.new ≡ pushed code.old size x }
{
    if code.len() <= size {
        return size;
    }
    code[size] = x;
    size + 1
}
