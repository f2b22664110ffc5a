ghost use Rattle.std.specs.Prelude.{◌≡◌, ℕ, ◌<◌, ◌≤◌, false, if◌then◌else◌, length, slice_set, None, Some};
ghost use Rattle.std.specs.List.{position};
ghost use Rattle.ftl_one.specs.{Lawful.role_in, Stock.is_free};
ghost use Rattle.ftl_one.specs.declared.role.Role.TheVariants.{Open, Spare, Retired};

use crate::role::Role;

/// Makes the spare the open block and the victim the spare, or retires the victim if its erase has failed.
pub(crate) fn hand_over(roles: &mut [Role], spare: u32, victim: u32, failed: bool)
    requires spare { spare < length roles.old }
    requires victim { victim < length roles.old }
    ensures { roles.new
        ≡ slice_set (slice_set roles.old spare Open) victim (if failed then Retired else Spare) }
{
    roles[spare as usize] = Role::Open;
    roles[victim as usize] = if failed { Role::Retired } else { Role::Spare };
}

/// The spare after a collection: the victim, unless its erase has failed.
pub(crate) fn next_spare(victim: u32, failed: bool) -> Option<u32>
    ensures { result ≡ (if failed then None else Some victim) }
{
    if failed { None } else { Some(victim) }
}

// The first free one of these roles.
fn first_free(roles: &[Role]) -> Option<usize>
    ensures { result ≡ position is_free roles.now }
{
    roles.iter().position(|role| matches!(role, Role::Free))
}

/// The lowest free block, if none below the given one is free.
pub(crate) fn lowest_free(roles: &[Role], from: usize) -> Option<usize>
    requires within { from ≤ length roles.now }
    requires none_below { (b : ℕ) → b < from → is_free (role_in roles.now b) ≡ false }
    ensures { result ≡ position is_free roles.now }
{
    let ahead = first_free(&roles[from..])?;
    Some(from + ahead)
}
