//! The resources of all elements in their order, each as often as it has elements.
ghost use Rattle.std.specs.Prelude.{◌≡◌, IsTrue};
ghost use Rattle.std.specs.List.{prefix_len};
ghost use Rattle.cf_types.specs.Resources.{resource_before, resource_up_to};
ghost use Rattle.cf_lists.specs.Pairwise.{pairwise};

use cf_types::Resource;

/// How many of these resources come before one.
pub fn start_of(keys: &[Resource], r: &Resource) -> usize
    requires { IsTrue (pairwise resource_up_to keys.now) }
    ensures { result ≡ prefix_len (λ other. resource_before other r.now) keys.now }
{
    keys.partition_point(|other| other.cmp(r).is_lt())
}
