// The answer of every C function, one 64-bit number.
ghost use Rattle.std.specs.Prelude.{◌≡◌};
ghost use Rattle.octets.specs.Writing.{told};
ghost use Rattle.nwk.specs.Answer.{answer};

use octets::refusals::Refusal;

// What an operation gave: the length in bits 0 to 31, the refusal's number in bits 32 to 39, the other bits 0.
#[tactic(auto, unfolding(crate::specs::Answer::answer))]
pub fn answer(given: Result<usize, Refusal>) -> u64
    ensures { result ≡ answer (told given).refusal (told given).length }
{
    match given {
        Ok(length) => length as u64 % 0x1_0000_0000,
        Err(refusal) => u64::from(refusal.number()) * 0x1_0000_0000,
    }
}
