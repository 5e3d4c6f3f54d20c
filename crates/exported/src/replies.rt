// A reply as the two numbers that cross the C interface (`gighull_conflict`, `gighull_permitted`): document 01's, and 1 for yes. In place
// of yes or no any answer is told, also one that is no refusal.
ghost use Rattle.std.specs.Prelude.{◌≡◌};
ghost use Rattle.exported.specs.Numbers.{outcome_as, number_in, yes_in};

use setting::Answer;

pub fn number(reply: Result<bool, Answer>) -> u32
    ensures { result ≡ number_in (outcome_as reply) }
{
    match reply {
        Ok(_) => 0,
        Err(answer) => setting::number(answer),
    }
}

pub fn yes(reply: Result<bool, Answer>) -> u32
    ensures { result ≡ yes_in (outcome_as reply) }
{
    u32::from(reply.unwrap_or(false))
}
