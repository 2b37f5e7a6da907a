// Why a call refuses, and where. A call answers a `Result`, whose error is a `Refusal` by a reason of its crate.

ghost use Rattle.std.specs.Prelude.{◌≡◌, ℕ};
ghost use Rattle.model.specs.Answer.{number_in, place_in};

// A reason to refuse, which the paper numbers. Each crate's `impl` is one line, which ties the numbers of its enum to its definition
// `number_of`.
pub trait Numbered: Copy {
    ghost number_of: { Self → ℕ };

    fn number(self) -> u64
        ensures { result ≡ number_of self };
}

// A reason and its place: a term, a total, a line, as the reason says; 0 where it has none.
#[derive(Clone, Copy, Debug, PartialEq, Eq)]
pub struct Refusal<R> {
    pub reason: R,
    pub place: usize,
}

// A reason without a place.
impl<R> From<R> for Refusal<R> {
    ghost from_gives = { λ reason refusal. (refusal.reason ≡ reason) × (refusal.place ≡ 0) };

    fn from(reason: R) -> Refusal<R> {
        Refusal { reason, place: 0 }
    }
}

// A refusal has the number of its reason.
impl<R: Numbered> Numbered for Refusal<R> {
    ghost number_of = { λ refusal. R.number_of refusal.reason };

    fn number(self) -> u64 {
        self.reason.number()
    }
}

// The number of an answer, 0 for an acceptance.
pub fn number_in<A, R: Numbered>(answer: &Result<A, R>) -> u64
    ensures { result ≡ number_in R.number_of answer.now }
{
    match answer {
        Ok(_) => 0,
        Err(reason) => reason.number(),
    }
}

// The place of an answer, 0 for an acceptance.
pub fn place_in<A, R>(answer: &Result<A, Refusal<R>>) -> usize
    ensures { result ≡ place_in answer.now }
{
    match answer {
        Ok(_) => 0,
        Err(refusal) => refusal.place,
    }
}
