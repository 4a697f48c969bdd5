//! Lists in which something stands twice.
ghost use Rattle.std.specs.Prelude.{◌≡◌};
ghost use Rattle.star_plan.specs.Repeats.{Ascends, repeats};

/// Whether a member is equal to another one. The members are sorted.
pub fn sorts_to_repeat<T: Ord>(members: &mut [T]) -> bool
    ensures { result ≡ repeats T.eq members.old }
{
    members.sort_unstable();
    !ascends(members)
}

/// Whether each member is below the next.
fn ascends<T: Ord>(members: &[T]) -> bool
    ensures { Ascends T.cmp members.now result }
{
    members.is_sorted_by(|member, next| member.cmp(next).is_lt())
}
