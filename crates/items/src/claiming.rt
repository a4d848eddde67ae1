// What an item's closed fields say that its heading needs.
ghost use Rattle.std.specs.Prelude.{◌≡◌};
ghost use Rattle.rules.specs.Said.{kc_by, span_by, stated_by};
ghost use Rattle.items.specs.Claims.{no_sums, first_of, kc_own, group_claims};

use fields::classes;
use fields::readings::Reading;
use rules::{First, Payment, Range, Statement, Sum, Sums};

// Nothing is stated of any group.
pub fn no_sums() -> Sums
    ensures { result ≡ no_sums }
{
    let none = Sum {
        stated: First::Missing,
    };
    Sums { groups: [none; 10] }
}

// The first of two.
pub fn first_of<T: Copy>(first: First<T>, then: First<T>) -> First<T>
    ensures { result ≡ first_of first then }
{
    match first {
        First::Missing => then,
        _ => first,
    }
}

// What a KC line says.
pub fn kc_by(said: Reading) -> First<Payment>
    ensures { result ≡ kc_by said }
{
    match said {
        Reading::Paid(amount, day) => First::Says(Payment { amount, day }),
        _ => First::Unread,
    }
}

// A KC is claimed at its own line: it takes any tail.
pub fn kc_own(kc: First<Payment>, ident: usize, said: Reading) -> First<Payment>
    ensures { result ≡ kc_own kc ident said }
{
    if ident == classes::KC {
        return first_of(kc, kc_by(said));
    }
    kc
}

// What an IN line says.
pub fn span_by(said: Reading) -> First<Range>
    ensures { result ≡ span_by said }
{
    match said {
        Reading::Span(first, last) => First::Says(Range { first, last }),
        _ => First::Unread,
    }
}

// What an S0 to S9 line says.
fn stated_by(said: Reading) -> First<Statement>
    ensures { result ≡ stated_by said }
{
    match said {
        Reading::Stated(count, sum) => First::Says(Statement { count, sum }),
        _ => First::Unread,
    }
}

// The groups with what is said of one more.
pub fn group_claims(sums: Sums, d: usize, said: Reading) -> Sums
    ensures { result ≡ group_claims sums d said }
{
    if 10 <= d {
        return sums;
    }
    let mut groups = sums.groups;
    let first = groups[d].stated;
    let stated = first_of(first, stated_by(said));
    groups[d] = Sum { stated };
    Sums { groups }
}
