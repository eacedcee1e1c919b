//! Where moments stand.

ghost use Rattle.std.specs.Prelude.{◌≡◌, ◌≤◌, ◌<◌, ◌+◌, length, IfOk};
ghost use Rattle.std.specs.List.Sorted.{IsNonDecreasing, IsPermutation};
ghost use Rattle.report_render.specs.Axis.{below, place};

use std::alloc::{AllocError, Global};

/// The leftmost place of a picture.
pub const LEFT: u64 = 100;

/// How wide the axis is.
pub const WIDTH: u64 = 860;

/// How many of the moments of an axis come before this one.
fn below(axis: &[u64], moment: u64) -> usize
    requires { IsNonDecreasing axis.now }
    ensures value { result ≡ below axis.now moment }
    ensures within { result ≤ length axis.now }
{
    axis.partition_point(|other| *other < moment)
}

/// The place of a moment among those of an axis: the moments in their order, and not to scale.
pub(crate) fn place(axis: &[u64], moment: u64) -> u64
    requires { IsNonDecreasing axis.now }
    ensures value { result ≡ place axis.now moment }
    ensures from { LEFT ≤ result }
    ensures to { result ≤ LEFT + WIDTH }
{
    if axis.is_empty() {
        return LEFT;
    }
    LEFT + (u128::from(WIDTH) * below(axis, moment) as u128 / axis.len() as u128) as u64
}
