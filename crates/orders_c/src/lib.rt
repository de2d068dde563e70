// The orders of crate orders for C, to be measured, by their names in C.
#![tactic(auto)]

ghost use Rattle.std.specs.Prelude.{◌≡◌};
ghost use Rattle.expression.specs.Tables.{first_from};

// The first of the places whose string is this one, by lengths and then from the front; their number where none is.
#[unsafe(no_mangle)]
pub extern "C" fn lampsickle_find_front(s: &[u8], places: &[usize], name: &[u8]) -> usize
    ensures { result ≡ first_from s.now name.now 0 places.now }
{
    orders::lampsickle_find_front(s, places, name)
}

// The same by the last byte first.
#[unsafe(no_mangle)]
pub extern "C" fn lampsickle_find_last(s: &[u8], places: &[usize], name: &[u8]) -> usize
    ensures { result ≡ first_from s.now name.now 0 places.now }
{
    orders::lampsickle_find_last(s, places, name)
}

// The same by the order used before.
#[unsafe(no_mangle)]
pub extern "C" fn lampsickle_find_backward(s: &[u8], places: &[usize], name: &[u8]) -> usize
    ensures { result ≡ first_from s.now name.now 0 places.now }
{
    orders::lampsickle_find_backward(s, places, name)
}

// The same by the order that the answer uses.
#[unsafe(no_mangle)]
pub extern "C" fn lampsickle_find(s: &[u8], places: &[usize], name: &[u8]) -> usize
    ensures { result ≡ first_from s.now name.now 0 places.now }
{
    orders::lampsickle_find(s, places, name)
}
