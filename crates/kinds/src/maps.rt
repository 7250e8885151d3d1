ghost use Rattle.std.specs.Prelude.{◌≡◌, ◌<◌, pos, ◌+ℤ◌, ◌-ℤ◌, ◌*ℤ◌, if◌then◌else◌, Some, int_div};
ghost use Rattle.std.proofs.Common.{ap, ◌∙◌, rules};
ghost use Rattle.kinds.specs.Maps.{number_fits, exactly, limited, is_zero, worth_as, map_fits, map_worth, map_data, map_bytes, map_from, MapStorable};
ghost use Rattle.kinds.specs.Codes.{code_of};
ghost use Rattle.kinds.specs.MapsLemmas.{unfit};
ghost use Rattle.std.proofs.lemmas.Int.{of_z-to_z};
ghost use Rattle.std.specs.Int.{w32};
ghost use Rattle.kinds.specs.Bytes.{value_of, four_bytes};
ghost use Rattle.kinds.specs.Words.{value_small, bytes_of_value};

use crate::codes::{Code, first_given};
use crate::gearbox::Situation;
use crate::kids::PerKid;
use crate::kind::Kind;

// Pressures are whole kPa.
pub type Kpa = i32;

// The data of one node of a shift map.
#[derive(Clone, Copy, Debug, PartialEq, Eq)]
pub struct MapData {
    pub code: u8,
    pub number: i32,
}

impl MapData {
    // The data of a node of this code.
    pub fn new(code: Code, number: i32) -> MapData
        ensures { result ≡ map_data code number }
    {
        MapData {
            code: code.number(),
            number,
        }
    }
}

// The kind of shift maps.
#[derive(Clone, Copy, Debug, PartialEq, Eq)]
pub struct Maps;

const SMALLEST: i32 = -1_000_000;

const LARGEST: i32 = 1_000_000;

impl Kind for Maps {
    type Data = MapData;

    type Worth = Kpa;

    ghost suits = { map_fits };

    ghost worth = { map_worth };

    ghost none = { pos 0 };

    ghost bytes = { map_bytes };

    ghost restored = { map_from };

    ghost storable = { MapStorable };

    ghost unfit_is_blank = { λ d s a b c h. unfit (code_of d.code) d.number s a b c h };

    ghost data_comes_back = { Prim.search rules };

    ghost bytes_come_back = { λ byte word small is. ap (λ n. (byte, four_bytes n)) (of_z-to_z w32 (value_of word) (value_small word is)) ∙ ap (λ w. (byte, w)) (bytes_of_value word is) };

    fn blank() -> Kpa {
        0
    }

    fn fits(d: MapData, given: PerKid<bool>) -> bool {
        match Code::try_from(d.code) {
            Ok(code) => number_fits(code, d.number) && first_given(code.kids_taken(), given),
            Err(_) => false,
        }
    }

    fn work_out(d: MapData, s: Situation, kids: PerKid<Kpa>) -> Kpa
        ensures { result ≡ map_worth d s kids.first kids.second kids.third }
    {
        match Code::try_from(d.code) {
            Ok(code) if number_fits(code, d.number) => limit(exact(code, d.number, s, kids)),
            _ => Self::blank(),
        }
    }

    fn to_bytes(d: MapData) -> (u8, [u8; 4]) {
        (d.code, d.number.to_be_bytes())
    }

    fn from_bytes(byte: u8, word: [u8; 4]) -> MapData {
        MapData {
            code: byte,
            number: i32::from_be_bytes(word),
        }
    }
}

fn number_fits(code: Code, number: i32) -> bool
    ensures { result ≡ number_fits code number }
{
    (SMALLEST..=LARGEST).contains(&number) && (code == Code::Number || number == 0)
}

// The result before the limits; it fits 64 bits whatever the worths are.
fn exact(code: Code, number: i32, s: Situation, kids: PerKid<Kpa>) -> i64
    ensures { result ≡ exactly code number s kids.first kids.second kids.third }
{
    let PerKid {
        first: a,
        second: b,
        third: c,
    } = kids;
    match code {
        Code::Number => i64::from(number),
        Code::Range => s.range as i64,
        Code::Gear => i64::from(s.gear),
        Code::Temperature => i64::from(s.temperature),
        Code::Negated => -i64::from(a),
        Code::Sum => i64::from(a) + i64::from(b),
        Code::Difference => i64::from(a) - i64::from(b),
        Code::Smaller => i64::from(a.min(b)),
        Code::Larger => i64::from(a.max(b)),
        Code::Scaled => scaled(a, b),
        Code::Choose => i64::from(if a == 0 { b } else { c }),
        Code::Held => i64::from(b.max(a.min(c))),
    }
}

// Hundredths of the first; the fraction is dropped.
fn scaled(a: Kpa, b: Kpa) -> i64
    ensures { result ≡ int_div (a *ℤ b) (pos 100) }
{
    product(a, b) / 100
}

fn product(a: Kpa, b: Kpa) -> i64
    ensures { result ≡ a *ℤ b }
{
    a as i64 * b as i64
}

fn limit(z: i64) -> Kpa
    ensures { result ≡ limited z }
{
    z.clamp(i64::from(SMALLEST), i64::from(LARGEST)) as Kpa
}
