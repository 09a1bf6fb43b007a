// A set-up has four numbers for each unit: transmitter address, receiver address, counter switch, memory length in words.
ghost use Rattle.std.specs.Prelude.{◌≡◌, ◌+◌, ◌*◌, ◌≤◌, ◌<◌, length};
ghost use Rattle.fitting.specs.SetUp.{SENDS_AS, RECEIVES_AS, SWITCH, MEMORY, between, number_of, unit_good, taken_by, units_good, set_up_good};

use cells::layout::UNITS;

// How many numbers a unit has, and each one's place among them.
pub const NUMBERS: usize = 4;

const SENDS_AS: usize = 0;

const RECEIVES_AS: usize = 1;

const SWITCH: usize = 2;

const MEMORY: usize = 3;

// A unit's four numbers.
#[derive(Clone, Copy)]
pub struct Numbers {
    pub transmitter: u32,
    pub receiver: u32,
    pub switch: u32,
    pub memory: u32,
}

impl Numbers {
    pub fn of(setup: &[u32], unit: usize) -> Self
        requires { (unit < 16) × (unit * 4 + 4 ≤ length setup.now) }
        ensures transmitter { result.transmitter ≡ number_of setup.now unit SENDS_AS }
        ensures receiver { result.receiver ≡ number_of setup.now unit RECEIVES_AS }
        ensures switch { result.switch ≡ number_of setup.now unit SWITCH }
        ensures memory { result.memory ≡ number_of setup.now unit MEMORY }
    {
        Numbers {
            transmitter: number(setup, unit, SENDS_AS),
            receiver: number(setup, unit, RECEIVES_AS),
            switch: number(setup, unit, SWITCH),
            memory: number(setup, unit, MEMORY),
        }
    }
}

fn number(setup: &[u32], unit: usize, k: usize) -> u32
    requires { (k < 4) × (unit < 16) × (unit * 4 + 4 ≤ length setup.now) }
    ensures { result ≡ number_of setup.now unit k }
{
    setup[unit * NUMBERS + k]
}

fn lies_between(low: u32, x: u32, high: u32) -> bool
    ensures { result ≡ between low x high }
{
    (low..=high).contains(&x)
}

// The rules of one unit's numbers.
fn unit_is_good(setup: &[u32], unit: usize) -> bool
    requires { (unit < 16) × (unit * 4 + 4 ≤ length setup.now) }
    ensures { result ≡ unit_good setup.now unit }
{
    let numbers = Numbers::of(setup, unit);
    lies_between(1, numbers.transmitter, 31)
        & lies_between(1, numbers.receiver, 31)
        & lies_between(2, numbers.switch, 31)
        & lies_between(1, numbers.memory, 131072)
}

// Whether one of the first `count` units has the number k.
fn is_taken(setup: &[u32], k: usize, wanted: u32, count: usize) -> bool
    requires { (k < 4) × (count ≤ 16) × (count * 4 ≤ length setup.now) }
    ensures { result ≡ taken_by setup.now k wanted count }
{
    (0..count).any(
        |unit: usize| -> bool
            requires { (k < 4) × (unit < 16) × (unit * 4 + 4 ≤ length setup.now) }
        { number(setup, unit, k) == wanted },
    )
}

// Whether a unit's number k is one of those before it.
fn is_again(setup: &[u32], k: usize, unit: usize) -> bool
    requires { (k < 4) × (unit < 16) × (unit * 4 + 4 ≤ length setup.now) }
    ensures { result ≡ taken_by setup.now k (number_of setup.now unit k) unit }
{
    is_taken(setup, k, number(setup, unit, k), unit)
}

fn units_are_good(setup: &[u32], count: usize) -> bool
    requires { (count ≤ 16) × (count * 4 ≤ length setup.now) }
    ensures { result ≡ units_good setup.now count }
{
    (0..count).all(
        |unit: usize| -> bool
            requires { (unit < 16) × (unit * 4 + 4 ≤ length setup.now) }
        {
            unit_is_good(setup, unit)
                & !is_again(setup, SENDS_AS, unit)
                & !is_again(setup, RECEIVES_AS, unit)
        },
    )
}

pub fn is_good(setup: &[u32]) -> bool
    ensures { result ≡ set_up_good setup.now }
{
    if setup.len() % NUMBERS != 0 {
        return false;
    }
    let count = setup.len() / NUMBERS;
    if count == 0 {
        return false;
    }
    if count > UNITS {
        return false;
    }
    units_are_good(setup, count)
}
