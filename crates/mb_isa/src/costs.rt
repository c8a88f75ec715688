ghost use Rattle.std.specs.Prelude.{◌≡◌, ◌<◌, ◌≤◌, All, length};
ghost use Rattle.mb_isa.specs.Costs.{place, cost_of, tick_charge, unit, IsCosts};

use std::marker::Model;

/// The cost classes, in the order of the cost table.
#[derive(Clone, Copy, Debug, PartialEq, Eq)]
pub enum Class {
    Alu,
    Shift,
    Mul,
    Div,
    Imm,
    Load,
    Store,
    Jump,
    Taken,
    Untaken,
    Fork,
    Eot,
    End,
    Abrt,
    Leave,
    Call,
    Ret,
    Loop,
    Next,
    Drop,
    Cend,
    Tick,
}

impl Class {
    // Its place in the order of the cost table.
    fn place(self) -> usize
        ensures place { result ≡ place self }
        ensures within { result < 22 }
    {
        self as usize
    }
}

/// What each class charges: a number from 1 to 255 for each, in the order of the classes.
#[derive(Clone, Copy)]
pub struct Costs {
    numbers: [u8; 22],
}

impl Model for Costs {
    ghost use Rattle.std.specs.Prelude.{List, ℕ};

    ghost Value = { List ℕ };

    ghost use Rattle.mb_isa.specs.Costs.{IsCosts};

    ghost view = { λ c. c.numbers };

    ghost invariant = { λ c. IsCosts c.numbers };

    ghost inverse = { λ numbers. record { numbers = numbers } };
}

// A copy of 22 bytes.
fn copied(numbers: &[u8]) -> [u8; 22]
    requires { length numbers.now ≡ 22 }
    ensures copy { result ≡ numbers.now }
    ensures bytes { All (λ n. n < 256) numbers.now }
{
    let mut copy = [0; 22];
    copy.copy_from_slice(numbers);
    copy
}

impl Costs {
    /// The costs with these numbers, in the order of the classes. None is 0.
    pub fn of(numbers: &[u8; 22]) -> Costs
        requires { All (λ n. 1 ≤ n) numbers.now }
        ensures { result ≡ numbers.now }
    {
        Costs {
            numbers: copied(numbers),
        }
    }

    /// What a class charges.
    pub fn cost(&self, class: Class) -> u64
        ensures cost { result ≡ cost_of self.now class }
        ensures byte { result < 256 }
        ensures in_range { IsCosts self.now }
    {
        u64::from(self.numbers[class.place()])
    }

    /// What a tick itself is charged, with so many inputs and outputs.
    pub fn tick(&self, inputs: usize, outputs: usize) -> u64
        requires inputs { inputs ≤ 64 }
        requires outputs { outputs ≤ 64 }
        ensures charge { result ≡ tick_charge self.now inputs outputs }
        ensures in_range { IsCosts self.now }
    {
        self.cost(Class::Tick) * (1 + inputs as u64 + outputs as u64)
    }
}

/// Each class charges 1.
pub fn unit_costs() -> Costs
    ensures { result ≡ unit }
{
    Costs { numbers: [1; 22] }
}
