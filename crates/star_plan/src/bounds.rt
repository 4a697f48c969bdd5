//! Between which integers a condition lets a value pass.
ghost use Rattle.std.specs.Prelude.{◌≡◌, ◌&&◌, ◌||◌, not, int_lt, ℤ, FitsSigned, IfSome};
ghost use Rattle.std.specs.Int.{w64};
ghost use Rattle.std.specs.Ordering.{int_cmp};
ghost use Rattle.star_plan.specs.declared.predicate.How.TheVariants.{Ge, Le};
ghost use Rattle.star_plan.specs.Truth.{is_asked};
ghost use Rattle.star_plan.specs.Flat.{is_within};

use crate::predicate::How;

/// The least and the greatest integer of a range, as far as it has them.
#[derive(Clone, Copy, Debug)]
pub struct Bounds {
    pub least: Option<i64>,
    pub greatest: Option<i64>,
}

impl Bounds {
    /// The bounds of the integers that compare as asked with one, if they are a range. What is
    /// below the least integer of 64 bits, or above the greatest, has no bounds of 64 bits.
    pub(crate) fn of(how: How, integer: i64) -> Option<Bounds>
        ensures { IfSome result (λ bounds. (n : ℤ) →
            is_asked how (int_cmp n integer) ≡ is_within bounds n) }
    {
        match how {
            How::Eq => Some(Bounds {
                least: Some(integer),
                greatest: Some(integer),
            }),
            How::Ne => None,
            How::Lt => match integer.checked_sub(1) {
                None => None,
                Some(greatest) => Some(Bounds {
                    least: None,
                    greatest: Some(greatest),
                }),
            },
            How::Le => Some(Bounds {
                least: None,
                greatest: Some(integer),
            }),
            How::Gt => match integer.checked_add(1) {
                None => None,
                Some(least) => Some(Bounds {
                    least: Some(least),
                    greatest: None,
                }),
            },
            How::Ge => Some(Bounds {
                least: Some(integer),
                greatest: None,
            }),
        }
    }

    /// The bounds of the integers from one to another.
    pub(crate) fn between(low: i64, high: i64) -> Bounds
        ensures { (n : ℤ) → (is_asked Ge (int_cmp n low) && is_asked Le (int_cmp n high))
            ≡ is_within result n }
    {
        Bounds {
            least: Some(low),
            greatest: Some(high),
        }
    }
    /// The least and the greatest integer of 64 bits that are within the bounds.
    pub fn limits(&self) -> (i64, i64)
        ensures { (n : ℤ) → FitsSigned w64 n →
            is_within self.now n ≡ not (int_lt n result.0 || int_lt result.1 n) }
    {
        (
            self.least.unwrap_or(i64::MIN),
            self.greatest.unwrap_or(i64::MAX),
        )
    }
}
