// Ohms, femtofarads and picoseconds as types of their own, and the arithmetic of step rules 4 to 7 (document 01; document 02, wish 3).
// Promise: each operation gives what its definition in specs/Rules.antt says; resistance, capacitance and time meet only in `delay`.
// Infinite resistance is a case of its own and never a number; an arm that would exceed the ceiling says so. Work is done in 64 bits.
#![tactic(auto)]

ghost use Rattle.std.specs.Prelude.{◌≡◌, ◌+◌, ◌*◌, ◌^◌, ◌≤◌, ◌<◌};
ghost use Rattle.units.specs.declared.Resistance.TheVariants.{Finite};
ghost use Rattle.units.specs.Units.{ohms};
ghost use Rattle.units.specs.Range.{AtMost, Positive, Divisible};
ghost use Rattle.units.specs.Rules.{ceil_div, ceiling, bounded as boundedOf, arm_side, delay_arm, parallel as parallelOf, joined as joinedOf, later as laterOf, share as share_of, delay as delay_of};

#[derive(Clone, Copy, PartialEq, Eq, Debug)]
pub struct Ohms(pub u32);

impl Ohms {
    // The most ohms of a finite result.
    pub const CEILING: u32 = 1000000000;
}

#[derive(Clone, Copy, PartialEq, Eq, Debug)]
pub struct Femtofarads(pub u32);

#[derive(Clone, Copy, PartialEq, Eq, Debug)]
pub struct Picoseconds(pub u64);

impl Picoseconds {
    // A time, and a delay after it.
    pub fn later(self, delay: Picoseconds) -> Picoseconds
        requires { self.0 + delay.0 < 2 ^ 64 }
        ensures { result ≡ laterOf self delay }
    {
        Picoseconds(self.0 + delay.0)
    }
}

// The resistance from a node to a value: infinite where nothing leads there.
// An enum, no `Option<Ohms>`: infinite is a value that the rules reckon with, by laws of its own, and no missing answer, as `None` would say.
#[derive(Clone, Copy, PartialEq, Eq, Debug)]
pub enum Resistance {
    Infinite,
    Finite(Ohms),
}

// What an arm says of a side whose resistance would exceed the ceiling.
#[derive(Clone, Copy, PartialEq, Eq, Debug)]
pub struct AboveCeiling;

impl Resistance {
    // Two resistances in parallel.
    pub fn parallel(self, other: Resistance) -> Resistance
        requires { (Positive self) × (Positive other) }
        ensures { result ≡ parallelOf self other }
    {
        match self {
            Resistance::Infinite => other,
            Resistance::Finite(a) => match other {
                Resistance::Infinite => Resistance::Finite(a),
                Resistance::Finite(b) => {
                    Resistance::Finite(Ohms(
                        scaled(a.0, b.0, u64::from(a.0) + u64::from(b.0)) as u32,
                    ))
                }
            },
        }
    }
}

impl Femtofarads {
    // Two charges together.
    pub fn joined(self, other: Femtofarads) -> Femtofarads
        requires { self.0 + other.0 < 2 ^ 32 }
        ensures { result ≡ joinedOf self other }
    {
        Femtofarads(self.0 + other.0)
    }
}

// One side of an arm: a transistor of resistance r before a node sum of which `side` is the same side and `other` the other one.
pub fn arm_side(r: Ohms, side: Resistance, other: Resistance) -> Result<Resistance, AboveCeiling>
    requires { Divisible side other }
    ensures { result ≡ boundedOf (arm_side r side other) }
{
    match side {
        Resistance::Infinite => Ok(Resistance::Infinite),
        Resistance::Finite(s) => match other {
            Resistance::Infinite => within_ceiling(u64::from(s.0) + u64::from(r.0)),
            Resistance::Finite(o) => within_ceiling(
                u64::from(s.0) + u64::from(r.0) + scaled(r.0, s.0, u64::from(o.0)),
            ),
        },
    }
}

// The resistance of an arm of the delay walk: operands up to the ceiling leave it within 32 bits.
pub fn delay_arm(r: Ohms, far: Resistance) -> Resistance
    requires { (r.0 ≤ ceiling) × AtMost ceiling far }
    ensures { result ≡ delay_arm r far }
{
    match far {
        Resistance::Infinite => Resistance::Infinite,
        Resistance::Finite(f) => Resistance::Finite(Ohms(f.0 + r.0)),
    }
}

// What an arm of resistance r passes on of the far charge.
pub fn share(r: Ohms, far: Resistance, charge: Femtofarads) -> Femtofarads
    requires { 1 ≤ r.0 }
    ensures { result ≡ share_of r far charge }
{
    match far {
        Resistance::Infinite => charge,
        Resistance::Finite(f) => {
            Femtofarads(scaled(charge.0, f.0, u64::from(f.0) + u64::from(r.0)) as u32)
        }
    }
}

// The delay of a node of this resistance and charge.
pub fn delay(r: Ohms, charge: Femtofarads) -> Picoseconds
    ensures { result ≡ delay_of r charge }
{
    Picoseconds(scaled(r.0, charge.0, 1000).max(1))
}

// A number of ohms, unless it exceeds the ceiling.
fn within_ceiling(n: u64) -> Result<Resistance, AboveCeiling>
    ensures { result ≡ boundedOf (Finite (ohms n)) }
{
    let most = Ohms::CEILING;
    if n <= u64::from(most) {
        return Ok(Resistance::Finite(Ohms(n as u32)));
    }
    Err(AboveCeiling)
}

// a * b / c, rounded up.
fn scaled(a: u32, b: u32, c: u64) -> u64
    requires { 1 ≤ c }
    ensures { result ≡ ceil_div (a * b) c }
{
    (u64::from(a) * u64::from(b)).div_ceil(c)
}
