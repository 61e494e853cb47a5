// The volume equation of each letter: S05rev, table 4 and equations 4 and 5.
// The steps are raw: a number that is lost travels as itself to the end.
ghost use Rattle.std.specs.Prelude.{◌≡◌};
ghost use Rattle.common.specs.Outcome.{check};
ghost use Rattle.tables.specs.Summed.{summed};
ghost use Rattle.volume.specs.Equation.{equation_of, volume_by};

use crate::Equation;
use inverses::raw_root;
use rules::{raw_exponential, raw_power};
use subregion::Letter;
use tables::letter_sum;

// Table 4: v*, p*, T*, a and b.
#[tactic(auto, unfolding(std::specs::Prelude::from_bits, common::specs::Decimal::decimal, common::specs::Decimal::whole, common::specs::Decimal::scaled))]
pub fn equation(l: Letter) -> Equation
    ensures { result ≡ equation_of l }
{
    match l {
        Letter::A => Equation::Plain(0.0024, 100.0, 760.0, 0.085, 0.817),
        Letter::B => Equation::Plain(0.0041, 100.0, 860.0, 0.280, 0.779),
        Letter::C => Equation::Plain(0.0022, 40.0, 690.0, 0.259, 0.903),
        Letter::D => Equation::Fourth(0.0029, 40.0, 690.0, 0.559, 0.939),
        Letter::E => Equation::Plain(0.0032, 40.0, 710.0, 0.587, 0.918),
        Letter::F => Equation::RootPFourth(0.0064, 40.0, 730.0, 0.587, 0.891),
        Letter::G => Equation::Fourth(0.0027, 25.0, 660.0, 0.872, 0.971),
        Letter::H => Equation::Fourth(0.0032, 25.0, 660.0, 0.898, 0.983),
        Letter::I => Equation::RootPFourth(0.0041, 25.0, 660.0, 0.910, 0.984),
        Letter::J => Equation::RootPFourth(0.0054, 25.0, 670.0, 0.875, 0.964),
        Letter::K => Equation::Plain(0.0077, 25.0, 680.0, 0.802, 0.935),
        Letter::L => Equation::Fourth(0.0026, 24.0, 650.0, 0.908, 0.989),
        Letter::M => Equation::FourthRootT(0.0028, 23.0, 650.0, 1.0, 0.997),
        Letter::N => Equation::Exponential(0.0031, 23.0, 650.0, 0.976, 0.997),
        Letter::O => Equation::RootP(0.0034, 23.0, 650.0, 0.974, 0.996),
        Letter::P => Equation::RootP(0.0041, 23.0, 650.0, 0.972, 0.997),
        Letter::Q => Equation::Fourth(0.0022, 23.0, 650.0, 0.848, 0.983),
        Letter::R => Equation::Plain(0.0054, 23.0, 650.0, 0.874, 0.982),
        Letter::S => Equation::Fourth(0.0022, 21.0, 640.0, 0.886, 0.990),
        Letter::T => Equation::Plain(0.0088, 20.0, 650.0, 0.803, 1.02),
        Letter::U => Equation::Plain(0.0026, 23.0, 650.0, 0.902, 0.988),
        Letter::V => Equation::Plain(0.0031, 23.0, 650.0, 0.960, 0.995),
        Letter::W => Equation::Fourth(0.0039, 23.0, 650.0, 0.959, 0.995),
        Letter::X => Equation::Plain(0.0049, 23.0, 650.0, 0.910, 0.988),
        Letter::Y => Equation::Fourth(0.0031, 22.0, 650.0, 0.996, 0.994),
        Letter::Z => Equation::Fourth(0.0038, 22.0, 650.0, 0.993, 0.994),
    }
}

// The volume by an equation, with the sum of the letter's table.
// Kept: a match over the closed kind of equations, by which the definition of the same name chooses too; closures would part an equation from its numbers.
pub fn volume_by(e: Equation, l: Letter, p: f64, t: f64) -> f64
    ensures { check result ≡ volume_by e (summed l) p t }
{
    match e {
        Equation::Plain(v, ps, ts, a, b) => letter_sum(l, p / ps - a, t / ts - b) * v,
        Equation::RootP(v, ps, ts, a, b) => letter_sum(l, raw_root(p / ps - a), t / ts - b) * v,
        Equation::FourthRootT(v, ps, ts, a, b) => {
            letter_sum(l, p / ps - a, raw_root(raw_root(t / ts - b))) * v
        }
        Equation::Fourth(v, ps, ts, a, b) => {
            raw_power(letter_sum(l, p / ps - a, t / ts - b), 4) * v
        }
        Equation::RootPFourth(v, ps, ts, a, b) => {
            raw_power(letter_sum(l, raw_root(p / ps - a), t / ts - b), 4) * v
        }
        Equation::Exponential(v, ps, ts, a, b) => {
            raw_exponential(letter_sum(l, p / ps - a, t / ts - b)) * v
        }
    }
}
