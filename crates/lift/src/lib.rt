// The steps of the 5/3 rule: one high or low number from its neighbours, and its sample back.
// Each of the four is a definition of the paper, with a sign and a shift of its own.
// A shift to the right rounds towards minus infinity, as the rule asks; a division would round towards zero.
#![tactic(auto)]

ghost use Rattle.std.specs.Prelude.{◌≡◌};
ghost use Rattle.paper.specs.Line.{high_of, low_of, odd_of, even_of};
ghost use Rattle.integer_laws.specs.Order.{Within};
ghost use Rattle.lift.specs.Limit.{step_limit};

// The high number of an odd sample between two even ones.
pub fn high_of(odd: i32, left: i32, right: i32) -> i32
    requires within { Within step_limit odd }
    requires within_2 { Within step_limit left }
    requires within_3 { Within step_limit right }
    ensures { result ≡ high_of odd left right }
{
    odd - ((left + right) >> 1)
}

// The odd sample back.
pub fn odd_of(high: i32, left: i32, right: i32) -> i32
    requires within { Within step_limit high }
    requires within_2 { Within step_limit left }
    requires within_3 { Within step_limit right }
    ensures { result ≡ odd_of high left right }
{
    high + ((left + right) >> 1)
}

// The low number of an even sample between two high numbers.
pub fn low_of(even: i32, before: i32, after: i32) -> i32
    requires within { Within step_limit even }
    requires within_2 { Within step_limit before }
    requires within_3 { Within step_limit after }
    ensures { result ≡ low_of even before after }
{
    even + ((before + after + 2) >> 2)
}

// The even sample back.
pub fn even_of(low: i32, before: i32, after: i32) -> i32
    requires within { Within step_limit low }
    requires within_2 { Within step_limit before }
    requires within_3 { Within step_limit after }
    ensures { result ≡ even_of low before after }
{
    low - ((before + after + 2) >> 2)
}
