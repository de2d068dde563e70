// The register for C: the functions of crate register over the bytes of a register, by their names in C.
#![tactic(auto)]

ghost use Rattle.std.specs.Prelude.{◌≡◌};
ghost use Rattle.register.specs.Calls.{issues, passes, spends, removes};
ghost use Rattle.register.specs.OnBytes.{written, on_bytes, emptied, find_on};

use register::{Reply, Search};

// Writes the empty register.
#[unsafe(no_mangle)]
pub extern "C" fn lampsickle_register_empty(bytes: &mut [u8]) -> Reply
    ensures { written result.number result.place bytes.new ≡ emptied bytes.old }
{
    register::lampsickle_register_empty(bytes)
}

// Issues moves to a principal, in the bytes of a register.
#[unsafe(no_mangle)]
pub extern "C" fn lampsickle_register_issue(bytes: &mut [u8], principal: u32, amount: u64) -> Reply
    ensures { written result.number result.place bytes.new ≡ on_bytes bytes.old (issues principal amount) }
{
    register::lampsickle_register_issue(bytes, principal, amount)
}

// Passes moves on, in the bytes of a register.
#[unsafe(no_mangle)]
pub extern "C" fn lampsickle_register_pass(
    bytes: &mut [u8],
    payer: u32,
    receiver: u32,
    amount: u64,
) -> Reply
    ensures { written result.number result.place bytes.new ≡ on_bytes bytes.old (passes payer receiver amount) }
{
    register::lampsickle_register_pass(bytes, payer, receiver, amount)
}

// Spends moves of a principal, in the bytes of a register.
#[unsafe(no_mangle)]
pub extern "C" fn lampsickle_register_spend(bytes: &mut [u8], payer: u32, amount: u64) -> Reply
    ensures { written result.number result.place bytes.new ≡ on_bytes bytes.old (spends payer amount) }
{
    register::lampsickle_register_spend(bytes, payer, amount)
}

// Removes a principal that holds no moves, in the bytes of a register.
#[unsafe(no_mangle)]
pub extern "C" fn lampsickle_register_remove(bytes: &mut [u8], principal: u32) -> Reply
    ensures { written result.number result.place bytes.new ≡ on_bytes bytes.old (removes principal) }
{
    register::lampsickle_register_remove(bytes, principal)
}

// Finds a principal in the bytes of a register.
#[unsafe(no_mangle)]
pub extern "C" fn lampsickle_register_find(bytes: &[u8], principal: u32) -> Search
    ensures { result ≡ find_on bytes.now principal }
{
    register::lampsickle_register_find(bytes, principal)
}
