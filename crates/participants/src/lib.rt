// The list of participants' codes. Promised: whether a list is fit (19 by document 02 where it is not), and the place of a code in it, from the
// front or by a table made once, for every list. Stands on `fields` for places in a list, and on `laws`.
#![tactic(auto)]

ghost use Rattle.std.specs.Prelude.{◌≡◌, true, false, ◌<◌, ◌≤◌, MatchOption, length};
ghost use Rattle.laws.specs.Tests.{among};
ghost use Rattle.fields.specs.Kinds.{place};
ghost use Rattle.participants.specs.Participants.{is_list, is_fit};
ghost use Rattle.participants.specs.Firsts.{Firsts};

// The place of a code in the list, if it stands there.
pub fn place_if_listed(codes: &[u32], code: u32) -> Option<usize>
    ensures { MatchOption result (among code codes.now ≡ false) (λ p. (among code codes.now ≡ true) × (p < length codes.now) × (p ≡ place code codes.now)) }
{
    codes.iter().position(|c| *c == code)
}

// The place of a code in the list, and the list's length where it does not stand there.
pub fn place_of(codes: &[u32], code: u32) -> usize
    ensures { result ≡ place code codes.now }
{
    place_if_listed(codes, code).unwrap_or(codes.len())
}

// For each remainder by 1024 the first place whose code has it, and 0 where none has. Made once for a file, it gives most codes their
// place at one look, however long the list is. The walk goes down, so that the first place is stored last.
pub fn firsts_of(codes: &[u32]) -> [u8; 1024]
    requires { length codes.now ≤ 64 }
    ensures { Firsts codes.now result }
{
    let mut firsts = [0; 1024];
    for i in (0..codes.len()).rev() {
        firsts[(codes[i] % 1024) as usize] = i as u8;
    }
    firsts
}

// The place of a code, if it is listed. Only one that is not, or that shares its remainder with one before it, is looked for from the front.
pub fn place_if_listed_by(codes: &[u32], firsts: &[u8; 1024], code: u32) -> Option<usize>
    requires { Firsts codes.now firsts.now }
    ensures { MatchOption result (among code codes.now ≡ false) (λ p. (among code codes.now ≡ true) × (p < length codes.now) × (p ≡ place code codes.now)) }
{
    let at = firsts[(code % 1024) as usize] as usize;
    if at < codes.len() && codes[at] == code {
        return Some(at);
    }
    place_if_listed(codes, code)
}

// The same, and the list's length where it is not listed.
pub fn place_by(codes: &[u32], firsts: &[u8; 1024], code: u32) -> usize
    requires { Firsts codes.now firsts.now }
    ensures { result ≡ place code codes.now }
{
    place_if_listed_by(codes, firsts, code).unwrap_or(codes.len())
}

// A code that can stand before others in a list.
fn is_fit(code: u32, rest: &[u32]) -> bool
    ensures { result ≡ is_fit code rest.now }
{
    let found = rest.contains(&code);
    (1..=9999).contains(&code) && !found
}

// Not over 64 codes, each from 1 to 9999, none twice.
pub fn is_list(codes: &[u32]) -> bool
    ensures { result ≡ is_list codes.now }
{
    if 64 < codes.len() {
        return false;
    }
    for (i, code) in codes.iter().enumerate() {
        if !is_fit(*code, &codes[i + 1..]) {
            return false;
        }
    }
    true
}
