//! Where the halves of a cut node go.

ghost use Rattle.std.specs.Prelude.{◌≡◌, ◌↔◌, ◌+◌, ◌<◌, Some, IsNone};
ghost use Rattle.std.specs.Option.{ForSome};

use crate::places::Place;
use insert_cases::is_pull_up;

/// Returns where the halves of a cut node of the height `child_height` go. They go into its parent, of the height `parent_height`, if the
/// parent is one higher. If it is higher still, they go into a node between the two. Without a parent (`None`) they go into a new topmost
/// node.
pub fn place(child_height: u16, parent_height: Option<u16>) -> Place
    requires { ForSome parent_height (λ h. child_height < h) }
    ensures pull_up { (result ≡ Place.PullUp) ↔ (parent_height ≡ Some (child_height + 1)) }
    ensures new_root { (result ≡ Place.NewRoot) ↔ IsNone parent_height }
{
    match parent_height {
        None => Place::NewRoot,
        Some(height) => {
            if is_pull_up(child_height, height) {
                Place::PullUp
            } else {
                Place::Intermediate
            }
        }
    }
}
