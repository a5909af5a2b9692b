// Texts with the case of ASCII letters aside: capitals, and two texts compared.
#![tactic(auto)]

ghost use Rattle.std.specs.Prelude.{◌≡◌};
ghost use Rattle.letters.specs.Capitals.{raised};
ghost use Rattle.letters.specs.Same.{same, same_raised};
ghost use Rattle.letters.specs.Order.{order_raised};

use std::cmp::Ordering;

// A letter a to z as A to Z, any other byte as it is.
#[tactic(auto, unfolding(crate::specs::Capitals::raised))]
pub fn raise(b: u8) -> u8
    ensures { result ≡ raised b }
{
    b.to_ascii_uppercase()
}

pub fn same(a: &[u8], b: &[u8]) -> bool
    ensures { result ≡ same a.now b.now }
{
    a == b
}

// The two are the same but for the case of their letters.
pub fn same_raised(a: &[u8], b: &[u8]) -> bool
    ensures { result ≡ same_raised a.now b.now }
{
    a.eq_ignore_ascii_case(b)
}

// The byte order of the two in capitals.
#[tactic(auto, using(crate::proofs::OrderLaws::second_ended, crate::proofs::OrderLaws::at_below, crate::proofs::OrderLaws::at_above, crate::proofs::OrderLaws::at_level, crate::proofs::OrderLaws::first_ended, crate::proofs::OrderLaws::both_ended))]
pub fn order_raised(a: &[u8], b: &[u8]) -> Ordering
    ensures { result ≡ order_raised a.now b.now }
{
    for i in 0..a.len().min(b.len()) {
        let order = raise(a[i]).cmp(&raise(b[i]));
        if order.is_ne() {
            return order;
        }
    }
    a.len().cmp(&b.len())
}
