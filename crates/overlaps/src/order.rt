//! Two impls in the order of their numbers.

ghost use Rattle.std.specs.Prelude.{◌≡◌};
ghost use Rattle.overlaps.specs.Ordered.{in_order};

use ir_trees::decl::contents::ImplId;

/// The two, the one of the lower number first; so they are the same whichever is given first.
pub(crate) fn in_order(first: ImplId, second: ImplId) -> (ImplId, ImplId)
    ensures { result ≡ in_order first second }
{
    if second.0 < first.0 {
        (second, first)
    } else {
        (first, second)
    }
}
