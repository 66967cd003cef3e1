// A method's guard, with what each principal gives.

ghost use Rattle.std.specs.Prelude.{◌≤◌};
ghost use Rattle.common.specs.Limits.{most_principals};

use common::MOST_PRINCIPALS;

// How many principals there are, whether every privilege is wanted, which ones are, and what each principal gives.
#[derive(Clone, Copy)]
pub struct Guard {
    pub count: usize,
    pub every: bool,
    pub wanted: u64,
    pub grants: [u64; MOST_PRINCIPALS],
    pub ghost few: { count ≤ most_principals },
}
