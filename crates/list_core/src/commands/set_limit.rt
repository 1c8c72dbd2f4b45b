//! WRITE_LCONTROLS of IXLLIST: a header's limit, also below its count.
ghost use Rattle.std.specs.Prelude.{◌≡◌, ◌<◌, length};
ghost use Rattle.list_model.specs.Commands.SetLimit as set_limit;

use list_kept::Kept;

/// Does the command.
pub(crate) fn act(kept: &mut Kept, header: u32, n: u32)
    requires { header < length kept.old.content.limits }
    ensures content { kept.new.content ≡ set_limit.after kept.old.content header n }
    ensures elements { kept.new.elements ≡ kept.old.elements }
    ensures vector { kept.new.vector ≡ kept.old.vector }
{
    kept.set_limit(header, n);
}
