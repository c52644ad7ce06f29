// The two ways to round a quotient.
ghost use Rattle.rounding.specs.Rounding.{RoundedUp, RoundedDown};

use crate::divisor::Divisor;

// The least whole number not below amount / by: the quotient rounded down, and one more if anything is left over.
pub fn round_up(amount: i64, by: Divisor) -> i64
    ensures { RoundedUp amount by.value result }
{
    let size = by.value as i64;
    let whole = amount.div_euclid(size);
    let left_over = amount.rem_euclid(size) > 0;
    if left_over { whole + 1 } else { whole }
}

// The greatest whole number not above amount / by.
pub fn round_down(amount: i64, by: Divisor) -> i64
    ensures { RoundedDown amount by.value result }
{
    amount.div_euclid(by.value as i64)
}

#[cfg(test)]
mod tests {
    use super::*;

    #[test]
    fn a_part_left_over_is_rounded_up(rt: HostRuntime) {
        let hundred = Divisor { value: 100 };
        assert_eq!(rt; round_up(150, hundred), 2);
        assert_eq!(rt; round_up(100, hundred), 1);
        assert_eq!(rt; round_up(0, hundred), 0);
    }

    #[test]
    fn a_negative_amount_is_rounded_up_towards_zero(rt: HostRuntime) {
        let hundred = Divisor { value: 100 };
        assert_eq!(rt; round_up(-50, hundred), 0);
        assert_eq!(rt; round_up(-100, hundred), -1);
        assert_eq!(rt; round_up(-150, hundred), -1);
    }

    #[test]
    fn a_negative_amount_is_rounded_down_away_from_zero(rt: HostRuntime) {
        let hundred = Divisor { value: 100 };
        assert_eq!(rt; round_down(150, hundred), 1);
        assert_eq!(rt; round_down(-1, hundred), -1);
        assert_eq!(rt; round_down(-100, hundred), -1);
    }
}
