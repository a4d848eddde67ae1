// The walk that books the items of a file. It goes on to the end, since an item whose payer is not listed comes before a turnover that
// passes the limit, wherever the two stand. What it leaves on the sheet counts only where it finds neither. Promised by definitions of
// specs/: Sheet.antt is the four turnovers of each participant, Booking.antt what a walk finds. Stands on `item_reader` for the items,
// `turnovers` for what each posts, `participants` for places in the list, and `sums`.
#![tactic(auto)]

ghost use Rattle.std.specs.Prelude.{◌≡◌, false, map, ◌≤◌, length};
ghost use Rattle.item_reader.specs.Slips.{slips_from};
ghost use Rattle.turnovers.specs.Scheme.{posting_of};
ghost use Rattle.participants.specs.Firsts.{Firsts};
ghost use Rattle.booking.specs.Booking.{Sound, SoundAt, told, told_by, Kept, KeptBy, Booked};

use turnovers::{Move, movement};

// What a walk has found: an item whose payer or beneficiary is not listed, and a turnover that passes the limit.
#[derive(Clone, Copy)]
pub struct Told {
    pub unlisted: bool,
    pub beyond: bool,
}

// One movement. After one that passes the limit none is made: no sum has to be taken of what no longer counts.
#[tactic(auto, unfolding(crate::specs::Booking::told))]
fn book_move(codes: &[u32], firsts: &[u8; 1024], ts: &mut [i64; 256], t: Told, m: Move) -> Told
    requires { (length codes.now ≤ 64) × Firsts codes.now firsts.now × Sound m }
    ensures value { result ≡ told codes.now t ts.old m }
    ensures kept { Kept codes.now ts.old m result ts.new }
{
    let payer = participants::place_if_listed_by(codes, firsts, m.payer.0);
    let other = participants::place_if_listed_by(codes, firsts, m.other.0);
    let (Some(p), Some(o)) = (payer, other) else {
        return Told {
            unlisted: true,
            ..t
        };
    };
    if t.beyond {
        return t;
    }
    let x = sums::with_sign(m.minus, m.amount);
    let beyond = sums::add_both(ts, 4 * p + m.from, 4 * o + m.to, x);
    Told { beyond, ..t }
}

// What an item posts.
fn book(codes: &[u32], firsts: &[u8; 1024], ts: &mut [i64; 256], t: Told, p: Option<Move>) -> Told
    requires { (length codes.now ≤ 64) × Firsts codes.now firsts.now × SoundAt p }
    ensures value { result ≡ told_by codes.now t ts.old p }
    ensures kept_by { KeptBy codes.now ts.old p result ts.new }
{
    match p {
        None => t,
        Some(m) => book_move(codes, firsts, ts, t, m),
    }
}

// All items of a body, with the table of the list.
fn book_all(codes: &[u32], firsts: &[u8; 1024], ts: &mut [i64; 256], s: &[u8]) -> Told
    requires { (length codes.now ≤ 64) × Firsts codes.now firsts.now }
    ensures { Booked codes.now ts.old (map posting_of (slips_from 1 s.now)) result ts.new }
{
    let mut t = Told {
        unlisted: false,
        beyond: false,
    };
    let mut at = item_reader::heading_from(s, 0);
    // Each item tells where the next one stands: an iterator would hold the same place, and be no plainer.
    while at < s.len() {
        let x = item_reader::slip_at(s, at);
        at = x.next;
        t = book(codes, firsts, ts, t, movement::posting_of(x.slip));
    }
    t
}

// All items of a body.
pub fn book_items(codes: &[u32], ts: &mut [i64; 256], s: &[u8]) -> Told
    requires { length codes.now ≤ 64 }
    ensures { Booked codes.now ts.old (map posting_of (slips_from 1 s.now)) result ts.new }
{
    let firsts = participants::firsts_of(codes);
    book_all(codes, &firsts, ts, s)
}
