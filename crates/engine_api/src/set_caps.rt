ghost use Rattle.std.specs.Prelude.{◌≡◌, ◌≤◌, IsTrue};
ghost use Rattle.cf_types.specs.declared.forms.Caps.{Caps};
ghost use Rattle.engine_api.specs.declared.shapes.Shape.{Shape};
ghost use Rattle.engine_api.specs.Instances.{units_of};
ghost use Rattle.engine_api.specs.Items.{Fits};

use crate::engine::Engine;
use cf_types::Caps;

/// An engine whose capacity may be changed, within the units that it was made with.
pub trait SetCaps: Engine {
    /// The capacity that it was made with.
    fn base(&self) -> Caps
        ensures { result ≡ (Self.held self.now).base };

    /// Makes this the capacity, whatever is in use. It takes no memory: there is room for as many
    /// entries, and as many elements, as the base has entries and elements together.
    fn set_caps(&mut self, caps: Caps)
        requires { units_of caps ≤ units_of (Self.held self.old).base }
        ensures { Self.held self.new ≡ record (Self.held self.old) { caps = caps } };

    /// A content is within its capacity, and is one at each other that it is within.
    ghost content_fits: { (shape : Shape) (caps : Caps) (state : Self.State)
        → IsTrue (Self.is_kind shape.kind) → Self.is_content shape caps state
        → Fits shape.kind (Self.meaning.need (Self.meaning.items shape state)) caps };

    ghost content_at: { (shape : Shape) (caps other : Caps) (state : Self.State)
        → IsTrue (Self.is_kind shape.kind) → Self.is_content shape caps state
        → Fits shape.kind (Self.meaning.need (Self.meaning.items shape state)) other
        → Self.is_content shape other state };
}
