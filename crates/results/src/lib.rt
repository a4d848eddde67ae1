// An answer as a C host sees it. Promised: its number is its refusal's, or 0; its value behind a caller's pointer is stored where the job is
// done, else what stood there stays; it is never loaded. Stands on nothing.
#![tactic(auto)]

ghost use Rattle.std.specs.Prelude.{◌≡◌, MatchResult};
ghost use Rattle.std.specs.Result.{result_unwrap_or};

// The number of an answer: its refusal's, 0 where nothing is refused.
pub fn number_of<T: Drop, E: Into<u32>>(answer: Result<T, E>) -> u32
    ensures { MatchResult answer (λ _. result ≡ 0) (λ e. E.converts e result) }
{
    match answer {
        Ok(_) => 0,
        Err(error) => error.into(),
    }
}

// The number of an answer. Its value stands behind the pointer after, and where there is none, what stood there.
pub fn leave<T: Copy, E: Into<u32>>(answer: Result<T, E>, at: &mut T) -> u32
    ensures number { MatchResult answer (λ _. result ≡ 0) (λ e. E.converts e result) }
    ensures after { at.new ≡ result_unwrap_or answer at.old }
{
    match answer {
        Ok(value) => {
            *at = value;
            0
        }
        Err(error) => error.into(),
    }
}
