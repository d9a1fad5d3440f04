//! What can be wrong with the bytes of a character.
ghost use Rattle.std.specs.Prelude.{◌≡◌};
ghost use Rattle.yaml_text.specs.Offence as spec;

/// Why bytes begin with no character.
#[derive(Clone, Copy, PartialEq, Eq)]
pub(crate) enum problem_t {
    LEAD,
    SHORT,
    TRAIL,
    LENGTH,
    VALUE,
    CONTROL,
    HALF_UNIT,
    LOW_UNIT,
    HALF_PAIR,
    NO_LOW_UNIT,
}

/// A problem, how many bytes on it is, and a value to show.
#[derive(Clone, Copy)]
pub(crate) struct offence_t {
    pub problem: problem_t,
    pub offset: u64,
    pub value: i32,
}

pub(crate) fn refused<T>(problem: problem_t, offset: u64, value: i32) -> Result<T, offence_t>
    ensures { result ≡ Err (spec.offence_at problem offset value) }
{
    Err(offence_t {
        problem,
        offset,
        value,
    })
}

#[tactic(auto, unfolding(crate::specs::Offence::problem_text))]
pub(crate) fn problem_text(problem: problem_t) -> &'static str
    ensures { result.now ≡ spec.problem_text problem }
{
    match problem {
        problem_t::LEAD => "invalid leading UTF-8 octet",
        problem_t::SHORT => "incomplete UTF-8 octet sequence",
        problem_t::TRAIL => "invalid trailing UTF-8 octet",
        problem_t::LENGTH => "invalid length of a UTF-8 sequence",
        problem_t::VALUE => "invalid Unicode character",
        problem_t::CONTROL => "control characters are not allowed",
        problem_t::HALF_UNIT => "incomplete UTF-16 character",
        problem_t::LOW_UNIT => "unexpected low surrogate area",
        problem_t::HALF_PAIR => "incomplete UTF-16 surrogate pair",
        problem_t::NO_LOW_UNIT => "expected low surrogate area",
    }
}
