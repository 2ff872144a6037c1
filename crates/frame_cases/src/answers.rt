// What a case says of an answer: a refusal's number, or 0 and a length.
use octets::refusals::Refusal;

// The number that an answer gives, 0 where it is no refusal.
pub fn number<T: Copy>(answer: Result<T, Refusal>) -> usize {
    match answer {
        Ok(_) => 0,
        Err(refusal) => usize::from(refusal.number()),
    }
}

// Whether an answer has this number and this length; a refusal has none.
pub fn is_answer(answer: Result<usize, Refusal>, refusal: usize, length: usize) -> bool {
    number(answer) == refusal && answer.unwrap_or(0) == length
}
