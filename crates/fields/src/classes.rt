// Classes of fields: the identifiers that share a layout.
ghost use Rattle.std.specs.Prelude.{◌≡◌, ℕ, ◌<◌, get_or};
ghost use Rattle.fields.specs.Classes.{sum_group};
ghost use Rattle.fields.specs.Codes.{code_of};

// KC; EC, AK, ZK; IN; S0 to S9; UD, UK; DI, KI, ZP, AV; any other identifier.
#[derive(Clone, Copy, Debug, PartialEq, Eq)]
pub enum Class {
    Money,
    Number,
    Range,
    Group,
    Account,
    Text,
    Free,
}

// Identifiers as numbers: two digits to the base 36, A being 10.
const AK: usize = 10 * 36 + 20;

const AV: usize = 10 * 36 + 31;

const DI: usize = 13 * 36 + 18;

const EC: usize = 14 * 36 + 12;

pub const HD: usize = 17 * 36 + 13;

pub const IN: usize = 18 * 36 + 23;

pub const KC: usize = 20 * 36 + 12;

const KI: usize = 20 * 36 + 18;

const S0: usize = 28 * 36;

const UD: usize = 30 * 36 + 13;

const UK: usize = 30 * 36 + 20;

const ZK: usize = 35 * 36 + 20;

const ZP: usize = 35 * 36 + 25;

// How many groups there are.
pub const GROUPS: usize = 10;

// The digit of a group's identifier, and the number of groups for any other identifier.
pub fn sum_group(ident: usize) -> usize
    ensures { result ≡ sum_group ident }
{
    if (S0 <= ident) & (ident < S0 + GROUPS) {
        ident - S0
    } else {
        GROUPS
    }
}

// The class of each identifier as a number, 0 for any that is not named here. A caller makes it once and lends it.
pub fn codes() -> [u8; 1296]
    ensures { (i : ℕ) → i < 1296 → get_or result i 0 ≡ code_of i }
{
    let mut t = [0u8; 1296];
    t[KC] = 1;
    t[EC] = 2;
    t[AK] = 2;
    t[ZK] = 2;
    t[UD] = 3;
    t[UK] = 3;
    t[DI] = 4;
    t[KI] = 4;
    t[ZP] = 4;
    t[AV] = 4;
    t[IN] = 5;
    for group in S0..S0 + GROUPS {
        t[group] = 6;
    }
    t
}
