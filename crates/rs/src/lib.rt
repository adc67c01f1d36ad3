// The Reed-Solomon code RS(254,248) over GF(256): a codeword is 248 data bytes and their parity, the six bytes that the division of
// the data by the divisor G leaves. What the division leaves of a delivered block tells whether it is a codeword; a receiver that never
// repairs asks for that alone. What repair gives is defined here, in `specs/Decode.antt`; the crates `search` and `plain` do it.
#![tactic(auto)]

mod division;

ghost use Rattle.std.specs.Prelude.{◌≡◌};
ghost use Rattle.rs.specs.Codeword.{divisor_bytes, parity_of, divided_of};
ghost use Rattle.rs.specs.Check.{verdict_of};

use refusal::{Reason, Refusal};

// The coefficients of the divisor G, from that of x^5 down; that of x^6 is 1. They are worked out from the roots of G, the powers 0 to 5
// of 2: the product starts as 1 and is multiplied by x + 2^j for each j. After two turns it is (x + 1)(x + 2) = x^2 + 3x + 2; in the
// sixth the 1 of x^6 falls off.
pub fn divisor() -> [u8; 6]
    ensures { result ≡ divisor_bytes }
{
    let mut product = [0, 0, 0, 0, 0, 1];
    for j in 0..6 {
        division::add_root(&mut product, j);
    }
    product
}

// The parity of any number of data bytes; 248 of them with their parity are a codeword.
pub fn parity(bytes: &[u8]) -> [u8; 6]
    ensures { result ≡ parity_of bytes.now }
{
    division::unpack(division::parity(bytes))
}

// What the division leaves of a block of 254 bytes: six zeros exactly where it is a codeword. Another number of bytes is refused.
#[tactic(auto, unfolding(crate::specs::Codeword::divided_of, crate::specs::Codeword::block_refusal))]
pub fn remainder(block: &[u8]) -> Result<[u8; 6], Refusal>
    ensures { result ≡ divided_of block.now }
{
    refusal::require(block.len() == 254, refusal::plain(Reason::Size))?;
    Ok(division::unpack(division::remainder(block)))
}

// Is a block of 254 bytes a codeword? It is where the division leaves nothing of it. Another number of bytes is refused.
#[tactic(auto, unfolding(crate::specs::Check::verdict_of, crate::specs::Codeword::block_refusal))]
pub fn check_codeword(block: &[u8]) -> Result<bool, Refusal>
    ensures { result ≡ verdict_of block.now }
{
    refusal::require(block.len() == 254, refusal::plain(Reason::Size))?;
    Ok(division::remainder(block) == 0)
}
