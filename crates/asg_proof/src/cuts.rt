//! Steps cut to a sum.

ghost use Rattle.std.specs.Prelude.{◌<◌, ◌≤◌};
ghost use Rattle.std.specs.List.{sum};
ghost use Rattle.asg_proof.specs.Phases.{AreCutTo};

/// Cuts the steps of a phase of sums to this sum: it keeps the first ones, and of the last one left
/// a part. What is kept is that of [`cut_law`](crate::laws::cut_law), so a phase that is admitted
/// is so when it is cut. The time is that of the steps. It takes no memory.
pub fn cut_steps(steps: &mut Vec<u64>, most: u64)
    requires some { 0 < most }
    requires less { most ≤ sum steps.old.items }
    ensures { AreCutTo most steps.old.items steps.new.items }
{
    let mut left = most;
    for i in 0..steps.len() {
        if steps[i] >= left {
            steps[i] = left;
            steps.truncate(i + 1);
            return;
        }
        left -= steps[i];
    }
}
