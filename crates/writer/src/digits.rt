//! How many digits a wire's number has.
ghost use Rattle.std.specs.Prelude.{◌<◌};
ghost use Rattle.writer.specs.Digits.{Counted};

// How many digits a number of at most five has.
fn five(number: u32) -> usize
    requires { number < 100000 }
    ensures { Counted number result }
{
    1 + usize::from(10 <= number)
        + usize::from(100 <= number)
        + usize::from(1000 <= number)
        + usize::from(10000 <= number)
}

/// How many digits a number has.
pub fn count(number: u32) -> usize
    ensures { Counted number result }
{
    if number < 100000 {
        five(number)
    } else {
        5 + five(number / 100000)
    }
}
