// What an operand of the machine is: a string by its length, an integer, a test, a rank, a float, or a fault.
ghost use Rattle.std.specs.Prelude.{◌≡◌};
ghost use Rattle.expression.specs.declared.value.Operand.TheVariants.{Test};
ghost use Rattle.expression.specs.Operands.{kind_of, size_of, pack, unpacked, width, is_text, is_number, integer_in, is_float, float_in, is_test, is_fault, holds_in, rank_in};

use float::bits::{bits_of, float_of};
use text::Integer;

#[derive(Clone, Copy)]
pub enum Operand {
    Text { length: usize },
    Number { negative: bool, size: u64 },
    Test { holds: bool },
    Rank { rank: usize },
    Float { value: f32 },
    Fault,
}

// An operand as two numbers: its kind and its size.
pub fn kind_of(v: Operand) -> u64
    ensures { result ≡ kind_of v }
{
    match v {
        Operand::Text { length: _ } => 0,
        Operand::Number { negative, size: _ } => {
            if negative {
                return 2;
            }
            1
        }
        Operand::Test { holds } => {
            if holds {
                return 4;
            }
            3
        }
        Operand::Rank { rank: _ } => 5,
        Operand::Float { value: _ } => 7,
        Operand::Fault => 6,
    }
}

pub fn size_of(v: Operand) -> u64
    ensures { result ≡ size_of v }
{
    match v {
        Operand::Text { length } => length as u64,
        Operand::Number { negative: _, size } => size,
        Operand::Test { holds: _ } => 0,
        Operand::Rank { rank } => rank as u64,
        Operand::Float { value } => bits_of(value),
        Operand::Fault => 0,
    }
}

// Both.
#[derive(Clone, Copy)]
pub struct Packed {
    pub kind: u64,
    pub size: u64,
}

pub fn pack_operand(v: Operand) -> Packed
    ensures { result ≡ pack v }
{
    let kind = kind_of(v);
    let size = size_of(v);
    Packed { kind, size }
}

// A test, packed.
pub fn told(holds: bool) -> Packed
    ensures { result ≡ pack (Test holds) }
{
    if holds {
        return Packed { kind: 4, size: 0 };
    }
    Packed { kind: 3, size: 0 }
}

// The operand of a kind and a size.
pub fn unpack(kind: u64, size: u64) -> Operand
    ensures { result ≡ unpacked kind size }
{
    if kind == 0 {
        return Operand::Text {
            length: size as usize,
        };
    }
    if kind == 1 {
        return Operand::Number {
            negative: false,
            size,
        };
    }
    if kind == 2 {
        return Operand::Number {
            negative: true,
            size,
        };
    }
    if kind == 3 {
        return Operand::Test { holds: false };
    }
    if kind == 4 {
        return Operand::Test { holds: true };
    }
    if kind == 5 {
        return Operand::Rank {
            rank: size as usize,
        };
    }
    if kind == 7 {
        return Operand::Float {
            value: float_of(size),
        };
    }
    Operand::Fault
}

// How many bytes of the string stack are the operand's.
pub fn width_of(v: Operand) -> usize
    ensures { result ≡ width v }
{
    match v {
        Operand::Text { length } => length,
        Operand::Number {
            negative: _,
            size: _,
        } => 0,
        Operand::Test { holds: _ } => 0,
        Operand::Rank { rank: _ } => 0,
        Operand::Float { value: _ } => 0,
        Operand::Fault => 0,
    }
}

pub fn is_text(v: Operand) -> bool
    ensures { result ≡ is_text v }
{
    match v {
        Operand::Text { length: _ } => true,
        Operand::Number {
            negative: _,
            size: _,
        } => false,
        Operand::Test { holds: _ } => false,
        Operand::Rank { rank: _ } => false,
        Operand::Float { value: _ } => false,
        Operand::Fault => false,
    }
}

pub fn is_number(v: Operand) -> bool
    ensures { result ≡ is_number v }
{
    match v {
        Operand::Text { length: _ } => false,
        Operand::Number {
            negative: _,
            size: _,
        } => true,
        Operand::Test { holds: _ } => false,
        Operand::Rank { rank: _ } => false,
        Operand::Float { value: _ } => false,
        Operand::Fault => false,
    }
}

// The integer, 0 where the operand is none.
pub fn integer_in(v: Operand) -> Integer
    ensures { result ≡ integer_in v }
{
    match v {
        Operand::Text { length: _ } => Integer {
            negative: false,
            size: 0,
        },
        Operand::Number { negative, size } => Integer { negative, size },
        Operand::Test { holds: _ } => Integer {
            negative: false,
            size: 0,
        },
        Operand::Rank { rank: _ } => Integer {
            negative: false,
            size: 0,
        },
        Operand::Float { value: _ } => Integer {
            negative: false,
            size: 0,
        },
        Operand::Fault => Integer {
            negative: false,
            size: 0,
        },
    }
}

pub fn is_float(v: Operand) -> bool
    ensures { result ≡ is_float v }
{
    match v {
        Operand::Text { length: _ } => false,
        Operand::Number {
            negative: _,
            size: _,
        } => false,
        Operand::Test { holds: _ } => false,
        Operand::Rank { rank: _ } => false,
        Operand::Float { value: _ } => true,
        Operand::Fault => false,
    }
}

// The float, 0.0 where the operand is none.
pub fn float_in(v: Operand) -> f32
    ensures { result ≡ float_in v }
{
    match v {
        Operand::Text { length: _ } => 0.0,
        Operand::Number {
            negative: _,
            size: _,
        } => 0.0,
        Operand::Test { holds: _ } => 0.0,
        Operand::Rank { rank: _ } => 0.0,
        Operand::Float { value } => value,
        Operand::Fault => 0.0,
    }
}

pub fn is_test(v: Operand) -> bool
    ensures { result ≡ is_test v }
{
    match v {
        Operand::Text { length: _ } => false,
        Operand::Number {
            negative: _,
            size: _,
        } => false,
        Operand::Test { holds: _ } => true,
        Operand::Rank { rank: _ } => false,
        Operand::Float { value: _ } => false,
        Operand::Fault => false,
    }
}

pub fn is_fault(v: Operand) -> bool
    ensures { result ≡ is_fault v }
{
    match v {
        Operand::Text { length: _ } => false,
        Operand::Number {
            negative: _,
            size: _,
        } => false,
        Operand::Test { holds: _ } => false,
        Operand::Rank { rank: _ } => false,
        Operand::Float { value: _ } => false,
        Operand::Fault => true,
    }
}

// Is it a test that holds?
pub fn holds_in(v: Operand) -> bool
    ensures { result ≡ holds_in v }
{
    match v {
        Operand::Text { length: _ } => false,
        Operand::Number {
            negative: _,
            size: _,
        } => false,
        Operand::Test { holds } => holds,
        Operand::Rank { rank: _ } => false,
        Operand::Float { value: _ } => false,
        Operand::Fault => false,
    }
}

// The rank, 0 where the operand is none.
pub fn rank_in(v: Operand) -> usize
    ensures { result ≡ rank_in v }
{
    match v {
        Operand::Text { length: _ } => 0,
        Operand::Number {
            negative: _,
            size: _,
        } => 0,
        Operand::Test { holds: _ } => 0,
        Operand::Rank { rank } => rank,
        Operand::Float { value: _ } => 0,
        Operand::Fault => 0,
    }
}
