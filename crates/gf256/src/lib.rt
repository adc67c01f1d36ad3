// Arithmetic in GF(256), the field of bytes modulo x^8 + x^4 + x^3 + x^2 + 1: sum, product and quotient, each total; the two
// constant tables, powers and logarithms; and the same product and quotient over tables that the caller lends, for code that works
// through many bytes, since a constant array is built anew at each use.
#![tactic(auto)]

mod log_table;
mod power_table;

ghost use Rattle.std.specs.Prelude.{◌≡◌, ◌<◌, ◌≤◌, MatchOption};
ghost use Rattle.gf256.specs.Field.{◌⊕◌, ◌⊗◌, pow, over};
ghost use Rattle.gf256.specs.Tables.{PowerTable, LogTable};
ghost use Rattle.gf256.specs.Lent.{Wheel, log_in, product_in, quotient_in};

// The powers of 2 from 0 to 254.
pub fn powers() -> [u8; 255]
    ensures { PowerTable result }
{
    power_table::POWERS
}

// The power of 2 that each byte but 0 is.
pub fn logs() -> [u8; 256]
    ensures { LogTable result }
{
    log_table::LOGS
}

// The powers of 2 twice around, and zeros behind them: what stands at the sum of two logarithms is the product, also where one
// of them is that of 0, which is taken to be 510.
pub fn wheel() -> [u8; 1021]
    ensures { Wheel result }
{
    let table = powers();
    let mut turns = [0u8; 1021];
    turns[..255].copy_from_slice(&table);
    turns[255..510].copy_from_slice(&table);
    turns
}

// The logarithm of a byte by a lent table; 510 for 0.
pub fn log_in(logs: &[u8; 256], a: u8) -> usize
    ensures { (result ≡ log_in logs.now a) × (result ≤ 510) }
{
    if a == 0 {
        return 510;
    }
    usize::from(logs[usize::from(a)])
}

// The product over lent tables, whatever is in them; `Tables` has the right ones. It stays as docs/DECISIONS.md has it.
#[tactic(auto, unfolding(crate::specs::Lent::product_in))]
pub fn product_in(wheel: &[u8; 1021], logs: &[u8; 256], a: u8, b: u8) -> u8
    ensures { result ≡ product_in wheel.now logs.now a b }
{
    wheel[log_in(logs, a) + log_in(logs, b)]
}

// The quotient over lent tables, whatever is in them; by 0 it is 0. It stays as docs/DECISIONS.md has it.
pub fn quotient_in(wheel: &[u8; 1021], logs: &[u8; 256], a: u8, b: u8) -> u8
    ensures { result ≡ quotient_in wheel.now logs.now a b }
{
    if b == 0 {
        return 0;
    }
    wheel[log_in(logs, a) + 255 - usize::from(logs[usize::from(b)])]
}

// The sum, which is the difference too.
pub fn sum(a: u8, b: u8) -> u8
    ensures { result ≡ a ⊕ b }
{
    a ^ b
}

// The wheel and the logarithms, built once and lent to code that works through many bytes.
#[derive(Drop)]
pub struct Tables {
    wheel: [u8; 1021],
    logs: [u8; 256],
    ghost wheel_right: { Wheel wheel },
    ghost logs_right: { LogTable logs },
}

impl Tables {
    // Builds both tables.
    pub fn new() -> Tables
        ensures { (Wheel result.wheel) × (LogTable result.logs) }
    {
        Tables {
            wheel: wheel(),
            logs: logs(),
        }
    }

    // The product.
    pub fn product(&self, a: u8, b: u8) -> u8
        ensures { result ≡ a ⊗ b }
    {
        product_in(&self.wheel, &self.logs, a, b)
    }

    // The quotient; by 0 it is 0.
    pub fn quotient(&self, a: u8, b: u8) -> u8
        ensures { result ≡ over a b }
    {
        quotient_in(&self.wheel, &self.logs, a, b)
    }

    // The power of 2; the powers come around after 255.
    pub fn power(&self, k: usize) -> u8
        ensures { result ≡ pow 2 k }
    {
        self.wheel[k % 255]
    }

    // The wheel itself, for code that looks at many of its places and knows that they are on it: with 510 for the logarithm of 0, what stands at the sum of two is the
    // product. A call for each place would have to test it, and a repair of three words would take a fifth longer.
    pub fn wheel(&self) -> &[u8; 1021]
        ensures { Wheel result.now }
    {
        &self.wheel
    }

    // The logarithm, which is the power of 2 that a byte is. 0 has none.
    pub fn log(&self, a: u8) -> Option<usize>
        ensures { MatchOption result (a ≡ 0) (λ k. (k < 255) × (pow 2 k ≡ a)) }
    {
        if a == 0 {
            None
        } else {
            Some(usize::from(self.logs[usize::from(a)]))
        }
    }
}

// The product. It and the quotient are alike but for the operation, which is a line each: no closure says it more plainly.
pub fn product(a: u8, b: u8) -> u8
    ensures { result ≡ a ⊗ b }
{
    Tables::new().product(a, b)
}

// The quotient; by 0 it is 0.
pub fn quotient(a: u8, b: u8) -> u8
    ensures { result ≡ over a b }
{
    Tables::new().quotient(a, b)
}
